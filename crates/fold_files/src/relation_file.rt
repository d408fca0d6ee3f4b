//! Reading relation files.

ghost use Rattle.std.specs.Prelude.{◌≡◌, Ok, MatchResult, IfOk, length};
ghost use Rattle.mat_files.specs.Reading.{Gives, IsTokenFault, repeated, only};
ghost use Rattle.fold_files.specs.RelationText.{next_relation, next_relations, parsed_relations, IsRelationFault};

use crate::fault::RelationFault;
use fold_program::Relation;
use mat_files::{FaultKind, Scanner, TokenFault};
use std::alloc::Global;

/// The relations that a relation file holds, for `r` linking rows, in their order.
///
/// The file has the numbers 1 and `r`, and then `r` tokens, each `=`, `<` or `>`: the sum of the row is its right side,
/// at most that, or at least that. White space stands between tokens, and nothing follows the last relation. `Syntax`
/// says where the first token stands that departs from this, or that the file ends early.
pub fn parse_relations(alloc: Global, bytes: &[u8], r: u32) -> Result<Vec<Relation>, RelationFault>
    ensures parsed { MatchResult result (λ rs. parsed_relations r bytes.now ≡ Ok rs.items) (IsRelationFault
        (parsed_relations r bytes.now)) }
    ensures many { IfOk result (λ rs. length rs.items ≡ r) }
{
    Ok(all_relations(alloc, bytes, r)?)
}

/// The relations that are all that the bytes spell.
fn all_relations(alloc: Global, bytes: &[u8], r: u32) -> Result<Vec<Relation>, TokenFault>
    ensures read { MatchResult result (λ rs. only (next_relations r) bytes.now ≡ Ok rs.items) (IsTokenFault (only
        (next_relations r) bytes.now)) }
    ensures many { IfOk result (λ rs. length rs.items ≡ r) }
{
    let mut tokens = Scanner::new(bytes);
    tokens.size(1, 1)?;
    tokens.size(r, r)?;
    let relations = relations(alloc, &mut tokens, r)?;
    tokens.end()?;
    Ok(relations)
}

/// The next `count` relations.
fn relations(
    alloc: Global,
    tokens: &mut Scanner<'_>,
    count: u32,
) -> Result<Vec<Relation>, TokenFault>
    ensures read { MatchResult result (λ rs. repeated next_relation count tokens.old ≡ Ok (rs.items, tokens.new))
        (IsTokenFault (repeated next_relation count tokens.old)) }
    ensures many { IfOk result (λ rs. length rs.items ≡ count) }
{
    let mut relations = Vec::new(alloc);
    for _ in 0..count {
        relations.push(relation(tokens)?)?;
    }
    Ok(relations)
}

/// The next relation.
fn relation(tokens: &mut Scanner<'_>) -> Result<Relation, TokenFault>
    ensures { Gives (next_relation tokens.old) result tokens.new }
{
    let token = tokens.token()?;
    match token.text {
        b"=" => Ok(Relation::Equal),
        b"<" => Ok(Relation::Less),
        b">" => Ok(Relation::Greater),
        _ => Err(TokenFault::new(token.at, FaultKind::Word)),
    }
}

#[cfg(test)]
mod tests {
    use super::*;
    use std::test::Fail;

    #[test]
    fn reads_a_relation_for_each_row(rt: HostRuntime) -> Result<(), Fail> {
        for (bytes, relations) in [
            (b"1 1\n<\n".as_slice(), [Relation::Less].as_slice()),
            (
                b"+1 03 = > <".as_slice(),
                [Relation::Equal, Relation::Greater, Relation::Less].as_slice(),
            ),
            (b"1 -0".as_slice(), [].as_slice()),
        ] {
            let r = relations.len() as u32;
            let read = parse_relations(rt.alloc(), bytes, r)?;
            assert_eq!(rt; read.as_slice(), relations);
        }
        Ok(())
    }

    #[test]
    fn names_the_first_token_that_is_refused(rt: HostRuntime) {
        let cases = [
            (b"".as_slice(), 0),
            (b"2 2 = =".as_slice(), 0),
            (b"1 1 =".as_slice(), 2),
            (b"1 -2 = =".as_slice(), 2),
            (b"1 99999999999999999999 =".as_slice(), 2),
            (b"1 2\n~ =".as_slice(), 4),
            (b"1 2 <= =".as_slice(), 4),
            (b"1 2 < ".as_slice(), 6),
            (b"1 2 <>".as_slice(), 4),
            (b"1 2 < > =".as_slice(), 8),
        ];
        for (bytes, at) in cases {
            let fault = parse_relations(rt.alloc(), bytes, 2).err();
            assert_eq!(rt; fault, Some(RelationFault::Syntax { at }));
        }
    }
}
