//! Spreads of falls, and moves that are idle, at values worked by hand.

use super::*;
use crate::tests::exchange;
use brick_sums::sums;
use std::rt::HostRuntime;
use std::test::Fail;

#[test]
fn a_cell_that_comes_to_life_leaves_no_spread(rt: HostRuntime) {
    let next = [Some(5), Some(9)];
    let layer = [Some(3), Some(8)];
    assert_eq!(rt; spread(&next, 4, &layer), None);
    assert_eq!(rt; spread(&next, 5, &layer), Some(1));
}

#[test]
fn a_new_cell_that_is_dead_does_not_count(rt: HostRuntime) {
    let next = [Some(5), None];
    let layer = [Some(3), Some(8)];
    assert_eq!(rt; spread(&next, 7, &layer), Some(0));
    assert_eq!(rt; spread(&next, 8, &layer), None);
}

#[test]
fn the_fall_of_a_dead_cell_counts_where_it_is_the_least(rt: HostRuntime) {
    let next = [Some(5), Some(9), Some(9)];
    let layer = [Some(3), Some(9), Some(7)];
    assert_eq!(rt; spread(&next, 5, &layer), Some(2));
}

/// Of the sums (-1, 1), (0, 0) and (1, -1) the first lies 3 and the last 5 above the one in the middle.
#[test]
fn moves_are_idle_where_each_costs_what_it_saves(rt: HostRuntime) -> Result<(), Fail> {
    let sums = sums(rt.alloc(), &exchange(rt.alloc())?, 1, 3)?;
    let targets = Targets::new(rt.alloc(), &sums)?;
    assert!(rt; targets.len() == 3);
    let next = [Some(7), Some(4), Some(9)];
    for (limit, changes, idle) in [
        (9, [Some(5), Some(0), Some(3)], true),
        (9, [Some(4), Some(0), Some(3)], false),
        (9, [None, Some(0), Some(2)], false),
        (4, [Some(5), Some(0), Some(2)], false),
        (3, [Some(-9), Some(-9), Some(-9)], true),
    ] {
        let mut tops = [None; 3];
        let told = all_idle(&targets, &changes, &next, limit, &mut tops);
        assert_eq!(rt; told, idle, "told under {limit}");
    }
    Ok(())
}
