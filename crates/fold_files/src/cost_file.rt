//! Reading cost files.

ghost use Rattle.std.specs.Prelude.{◌≡◌, ◌≤◌, ◌*◌, Ok, MatchResult, IfOk, All, length};
ghost use Rattle.mat_files.specs.Reading.{Gives, IsTokenFault, repeated, only};
ghost use Rattle.convex_costs.specs.Bounds.{IsBoundedPoint, AreBounded};
ghost use Rattle.fold_files.specs.CostText.{next_breakpoint, next_quadratic, next_points, next_cost, next_costs};
ghost use Rattle.fold_files.specs.CostText.{parsed_costs, IsCostFileFault};

use crate::fault::CostFileFault;
use convex_costs::{Breakpoint, Breakpoints, Cost};
use mat_files::{FaultKind, Scanner, TokenFault};
use std::alloc::Global;

/// The largest absolute value of a number of a cost.
const LARGEST: u64 = 1 << 62;

/// The costs that a cost file holds, for `n` bricks of `t` columns, brick by brick and column by column.
///
/// The file has the counts `n` and `t`, and then `n·t` costs: each is either the token `q` and three numbers, the
/// factors of the square, of the value itself and of 1; or the token `p`, a count of 1 to 1,000, and so many
/// breakpoints, each a place and the value there. Numbers are at most `2^62` in absolute value, white space stands
/// between tokens, and nothing follows the last cost. `Syntax` says where the first token stands that departs from
/// this, or that the file ends early.
pub fn parse_costs(alloc: Global, bytes: &[u8], n: u32, t: u32) -> Result<Vec<Cost>, CostFileFault>
    requires n_from { 1 ≤ n }
    requires n_to { n ≤ 10000 }
    requires t_from { 1 ≤ t }
    requires t_to { t ≤ 32 }
    ensures parsed { MatchResult result (λ cs. parsed_costs n t bytes.now ≡ Ok cs.items) (IsCostFileFault
        (parsed_costs n t bytes.now)) }
    ensures bounded { IfOk result (λ cs. All AreBounded cs.items) }
    ensures many { IfOk result (λ cs. length cs.items ≡ n * t) }
{
    Ok(all_costs(alloc, bytes, n, t)?)
}

/// The costs that are all that the bytes spell.
fn all_costs(alloc: Global, bytes: &[u8], n: u32, t: u32) -> Result<Vec<Cost>, TokenFault>
    requires { n * t ≤ 320000 }
    ensures read { MatchResult result (λ cs. only (next_costs n t) bytes.now ≡ Ok cs.items) (IsTokenFault (only
        (next_costs n t) bytes.now)) }
    ensures bounded { IfOk result (λ cs. All AreBounded cs.items) }
    ensures many { IfOk result (λ cs. length cs.items ≡ n * t) }
{
    let mut tokens = Scanner::new(bytes);
    tokens.count(u64::from(n), u64::from(n), FaultKind::TooMany)?;
    tokens.count(u64::from(t), u64::from(t), FaultKind::TooMany)?;
    let costs = costs(alloc, &mut tokens, n * t)?;
    tokens.end()?;
    Ok(costs)
}

/// The next `count` costs.
fn costs(alloc: Global, tokens: &mut Scanner<'_>, count: u32) -> Result<Vec<Cost>, TokenFault>
    ensures read { MatchResult result (λ cs. repeated next_cost count tokens.old ≡ Ok (cs.items, tokens.new))
        (IsTokenFault (repeated next_cost count tokens.old)) }
    ensures bounded { IfOk result (λ cs. All AreBounded cs.items) }
    ensures many { IfOk result (λ cs. length cs.items ≡ count) }
{
    let mut costs = Vec::new(alloc);
    for _ in 0..count {
        costs.push(cost(alloc, tokens)?)?;
    }
    Ok(costs)
}

/// The next cost.
fn cost(alloc: Global, tokens: &mut Scanner<'_>) -> Result<Cost, TokenFault>
    ensures read { MatchResult result (λ c. next_cost tokens.old ≡ Ok (c, tokens.new)) (IsTokenFault
        (next_cost tokens.old)) }
    ensures bounded { IfOk result AreBounded }
{
    let token = tokens.token()?;
    match token.text {
        b"q" => quadratic(tokens),
        b"p" => points(alloc, tokens),
        _ => Err(TokenFault::new(token.at, FaultKind::Word)),
    }
}

/// The quadratic cost of the next three numbers.
fn quadratic(tokens: &mut Scanner<'_>) -> Result<Cost, TokenFault>
    ensures read { Gives (next_quadratic tokens.old) result tokens.new }
    ensures bounded { IfOk result AreBounded }
{
    let a = tokens.number(LARGEST)?;
    let b = tokens.number(LARGEST)?;
    let c = tokens.number(LARGEST)?;
    Ok(Cost::Quadratic { a, b, c })
}

/// The cost of the next count and so many breakpoints.
fn points(alloc: Global, tokens: &mut Scanner<'_>) -> Result<Cost, TokenFault>
    ensures read { MatchResult result (λ c. next_points tokens.old ≡ Ok (c, tokens.new)) (IsTokenFault
        (next_points tokens.old)) }
    ensures bounded { IfOk result AreBounded }
{
    let count = tokens.count(1, 1_000, FaultKind::TooMany)?;
    let points = breakpoints(alloc, tokens, count)?;
    Ok(Cost::Points(Breakpoints::from_vec(points)))
}

/// The next `count` breakpoints.
fn breakpoints(
    alloc: Global,
    tokens: &mut Scanner<'_>,
    count: u64,
) -> Result<Vec<Breakpoint>, TokenFault>
    ensures read { MatchResult result (λ ps. repeated next_breakpoint count tokens.old ≡ Ok (ps.items, tokens.new))
        (IsTokenFault (repeated next_breakpoint count tokens.old)) }
    ensures bounded { IfOk result (λ ps. All IsBoundedPoint ps.items) }
    ensures many { IfOk result (λ ps. length ps.items ≡ count) }
{
    let mut points = Vec::new(alloc);
    for _ in 0..count {
        points.push(breakpoint(tokens)?)?;
    }
    Ok(points)
}

/// The breakpoint of the next two numbers.
fn breakpoint(tokens: &mut Scanner<'_>) -> Result<Breakpoint, TokenFault>
    ensures read { Gives (next_breakpoint tokens.old) result tokens.new }
    ensures bounded { IfOk result IsBoundedPoint }
{
    let at = tokens.number(LARGEST)?;
    let value = tokens.number(LARGEST)?;
    Ok(Breakpoint { at, value })
}

#[cfg(test)]
mod tests {
    use super::*;
    use std::test::Fail;

    fn factors(cost: &Cost) -> Option<(i64, i64, i64)> {
        match cost {
            Cost::Quadratic { a, b, c } => Some((*a, *b, *c)),
            Cost::Points(_) => None,
        }
    }

    #[test]
    fn reads_the_costs_brick_by_brick(rt: HostRuntime) -> Result<(), Fail> {
        let bytes = b"2 1\nq 1 -2 3\nq 0 0 +4611686018427387904\n";
        let costs = parse_costs(rt.alloc(), bytes, 2, 1)?;
        assert_eq!(rt; costs.len(), 2);
        assert_eq!(rt; factors(&costs[0]), Some((1, -2, 3)));
        assert_eq!(rt; factors(&costs[1]), Some((0, 0, 1 << 62)));
        Ok(())
    }

    #[test]
    fn reads_breakpoints(rt: HostRuntime) -> Result<(), Fail> {
        let costs = parse_costs(rt.alloc(), b"1 1 p 2 0 0 4 8", 1, 1)?;
        assert_eq!(rt; costs.len(), 1);
        let expected = [
            Breakpoint { at: 0, value: 0 },
            Breakpoint { at: 4, value: 8 },
        ];
        match &costs[0] {
            Cost::Points(points) => assert_eq!(rt; points.as_slice(), expected.as_slice()),
            Cost::Quadratic { .. } => assert!(rt; false, "the cost has breakpoints"),
        }
        Ok(())
    }

    #[test]
    fn names_the_first_token_that_is_refused(rt: HostRuntime) {
        let cases = [
            (b"".as_slice(), 0),
            (b"2 1 q 1 2 3".as_slice(), 0),
            (b"1 2 q 1 2 3".as_slice(), 2),
            (b"1 1 Q 1 2 3".as_slice(), 4),
            (b"1 1 p 0".as_slice(), 6),
            (b"1 1 p 1001 0 0".as_slice(), 6),
            (b"1 1 q 4611686018427387905 0 0".as_slice(), 6),
            (b"1 1 q 1 2".as_slice(), 9),
            (b"1 1 q 1 2 3 4".as_slice(), 12),
        ];
        for (bytes, at) in cases {
            let fault = parse_costs(rt.alloc(), bytes, 1, 1).err();
            assert_eq!(rt; fault, Some(CostFileFault::Syntax { at }));
        }
    }
}
