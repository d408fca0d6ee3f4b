//! The members that lie conformally below a vector. Their signs are asked first, both words together and then
//! each, and the entries only where they fit.

ghost use Rattle.std.specs.Prelude.{◌≡◌, ◌≤◌, false, length, All, MatchBool};
ghost use Rattle.lattice_theory.specs.Vectors as vector;
ghost use Rattle.lattice_theory.specs.Matrices.{Matrix};
ghost use Rattle.lattice_laws.proofs.SlackBases.{IsReducible};
ghost use Rattle.pottier.specs.Stages.{IsStage, IsDue};
ghost use Rattle.pottier.specs.Ranks.{AreRanks, IsPlaced};
ghost use Rattle.pottier.specs.Ranks as order;
ghost use Rattle.int_vectors.specs.Signs as words;

use crate::members::Members;
use crate::ranks::Rank;
use int_vectors::{Signs, conforms, conforms_turned, exchanged, fits, has_places, norm1, signs_of};

/// Whether a member, with either sign, is conformally below `z`, asked where all vectors of a lesser norm are covered.
///
/// Of a member below `z` and the rest of `z` one has at most half the norm, and so has a member below that. So the
/// others are passed over, but for those of the norm of `z`, as `z` may be a member.
pub fn is_reducible(members: &Members, ranks: &[Rank], z: &[i64], at: usize) -> bool
    requires same { All (λ v. length v ≡ length z.now) members.now }
    requires at { at ≤ length z.now }
    requires ranks { AreRanks at members.now ranks.now }
    ensures { MatchBool result (IsReducible members.now z.now) ((m : Matrix) → IsStage m at members.now →
        IsDue m at members.now z.now → IsReducible members.now z.now → ⊥) }
{
    let norm = norm1(&z[..at]);
    let most = norm / 2;
    let half = ranks.partition_point(|r| r.norm <= most);
    if has_below(members, &ranks[..half], z) {
        return true;
    }
    let same = ranks.partition_point(|r| r.norm < norm);
    let past = ranks.partition_point(|r| r.norm <= norm);
    has_below(members, &ranks[same..past], z)
}

/// Whether a member with one of these ranks, with either sign, is conformally below `z`.
fn has_below(members: &Members, ranks: &[Rank], z: &[i64]) -> bool
    requires same { All (λ v. length v ≡ length z.now) members.now }
    requires placed { All (IsPlaced members.now) ranks.now }
    ensures { MatchBool result (IsReducible members.now z.now)
        (All (λ r. order.lies_below (order.ranked_in members.now r) z.now ≡ false) ranks.now) }
{
    let plain = signs_of(z);
    let turned = exchanged(plain);
    for rank in ranks {
        if !has_places(rank.signs, plain) {
            continue;
        }
        let member = members.get(rank.place);
        if lies_below(member, rank.signs, z, plain)
            || turned_lies_below(member, rank.signs, z, turned)
        {
            return true;
        }
    }
    false
}

/// Whether the member, which has these signs, is conformally below `z`, which has those.
fn lies_below(member: &[i64], signs: Signs, z: &[i64], others: Signs) -> bool
    requires same { length member.now ≡ length z.now }
    requires signs { signs ≡ words.signs_of member.now }
    requires others { others ≡ words.signs_of z.now }
    ensures { result ≡ vector.conforms member.now z.now }
{
    fits(signs, others) && conforms(member, z)
}

/// Whether its opposite is below `z`, whose own opposite has those.
fn turned_lies_below(member: &[i64], signs: Signs, z: &[i64], others: Signs) -> bool
    requires same { length member.now ≡ length z.now }
    requires signs { signs ≡ words.signs_of member.now }
    requires others { others ≡ words.exchanged (words.signs_of z.now) }
    ensures { result ≡ vector.conforms (vector.opposite member.now) z.now }
{
    fits(signs, others) && conforms_turned(member, z)
}
