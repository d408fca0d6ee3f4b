//! The best step from a place: what each step offers, and which offer comes first.

ghost use Rattle.std.specs.Prelude.{◌≡◌, ◌<◌, ◌≤◌, ◌⊎◌, Some, length, IsTrue, IfSome, IfOk};
ghost use Rattle.std.specs.Ordering.{is_le, is_lt};
ghost use Rattle.fold_program.specs.Places.{ForBrick};
ghost use Rattle.brick_phase.specs.Offers.{offer_cmp, IsPlace, IsOfferAt, IsBestOffer, FitMoves};

use crate::moves::Moves;
use crate::steps::BrickStep;
use fold_program::Program;
use std::alloc::{AllocError, Global};
use step_targets::target;

/// A point of a brick, with its residual.
#[derive(Debug, Drop)]
pub struct Place {
    pub point: Vec<i64>,
    pub residual: u128,
}

/// A step, and the place to which it leads.
#[derive(Debug, Drop)]
pub struct Offer {
    pub step: BrickStep,
    pub place: Place,
}

impl Offer {
    /// Whether it comes before the other: by the residual after the step, then the length, then the vector.
    fn precedes(&self, other: &Offer) -> bool
        ensures { result ≡ is_lt (offer_cmp self.now other.now) }
    {
        let by_residual = self.place.residual.cmp(&other.place.residual);
        let by_length = self.step.k.cmp(&other.step.k);
        let by_vector = self.step.vector.cmp(&other.step.vector);
        by_residual.then(by_length).then(by_vector).is_lt()
    }
}

/// The best offer of a step from a place of a brick, or none where no step within the bounds lowers the residual.
pub fn best_offer(
    alloc: Global,
    program: &Program,
    brick: u32,
    moves: &Moves,
    at: &Place,
) -> Result<Option<Offer>, AllocError>
    requires from { 1 ≤ brick }
    requires to { brick ≤ length program.now.bricks }
    requires moves { FitMoves program.now moves.now }
    requires place { ForBrick program.now brick (λ b. IsPlace program.now b at.now) }
    ensures { IfOk result (IsBestOffer program.now brick moves.now at.now) }
{
    let mut best = None;
    for vector in &moves.vectors {
        for k in 0..moves.lengths {
            if let Some(offer) = offer_of(alloc, program, brick, at, vector, k)? {
                best = Some(earlier(best, offer));
            }
        }
    }
    Ok(best)
}

/// What a step offers, or none where it leaves the bounds or does not lower the residual.
fn offer_of(
    alloc: Global,
    program: &Program,
    brick: u32,
    at: &Place,
    vector: &[i64],
    k: u32,
) -> Result<Option<Offer>, AllocError>
    requires from { 1 ≤ brick }
    requires to { brick ≤ length program.now.bricks }
    requires width { length vector.now ≡ program.now.link.cols }
    requires short { k < 64 }
    requires place { ForBrick program.now brick (λ b. IsPlace program.now b at.now) }
    ensures { IfOk result (IsOfferAt program.now brick at.now (record { k = k; vector = vector.now })) }
{
    let (lower, upper) = (program.lower_row(brick), program.upper_row(brick));
    let Some(point) = target(alloc, lower, upper, &at.point, vector, k)? else {
        return Ok(None);
    };
    let residual = program.residual(brick, &point);
    if residual >= at.residual {
        return Ok(None);
    }
    let vector = Vec::from_slice(alloc, vector)?;
    Ok(Some(Offer {
        step: BrickStep { k, vector },
        place: Place { point, residual },
    }))
}

/// The first of the two offers.
fn earlier(best: Option<Offer>, offer: Offer) -> Offer
    ensures either { (result ≡ offer) ⊎ (best ≡ Some result) }
    ensures first { IsTrue (is_le (offer_cmp result offer)) }
    ensures best { IfSome best (λ b. IsTrue (is_le (offer_cmp result b))) }
{
    let Some(best) = best else {
        return offer;
    };
    if offer.precedes(&best) { offer } else { best }
}
