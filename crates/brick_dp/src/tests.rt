//! The calls that need no brick sums.

use crate::{Bound, Moves, NoBound};
use std::rt::HostRuntime;

#[test]
fn a_counter_counts_its_ticks(rt: HostRuntime) {
    let mut moves = Moves::new();
    moves.tick();
    moves.tick();
    assert_eq!(rt; moves.count(), 2);
}

#[test]
fn no_bound_answers_none(rt: HostRuntime) {
    assert!(rt; NoBound.now().is_none());
}
