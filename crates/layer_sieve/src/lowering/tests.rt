//! One move over the sums (-1, 1), (0, 0) and (1, -1), at values worked by hand.

use super::*;
use crate::tests::exchange;
use brick_sums::sums;
use std::rt::HostRuntime;
use std::test::Fail;

/// The move by (1, -1) leads from the first sum to the second, and from there to the third; it changes the cost by -6.
#[test]
fn a_move_lowers_by_live_cells_alone(rt: HostRuntime) -> Result<(), Fail> {
    let sums = sums(rt.alloc(), &exchange(rt.alloc())?, 1, 3)?;
    let targets = Targets::new(rt.alloc(), &sums)?;
    assert!(rt; targets.len() == 3);
    let next = [Some(7), Some(4), Some(9)];
    let m = PricedMove {
        place: 2,
        change: -6,
    };
    for (limit, lowered, tried) in [
        (3, [Some(7), Some(4), Some(9)], 0),
        (4, [Some(-2), Some(4), Some(9)], 1),
        (8, [Some(-2), Some(4), Some(9)], 1),
        (9, [Some(-2), Some(3), Some(9)], 2),
    ] {
        let mut layer = next;
        let mut moves = Moves::new();
        let is_lower = lower(&targets, &next, limit, m, &mut layer, &mut moves);
        assert_eq!(rt; is_lower, limit > 3, "told under {limit}");
        assert_eq!(rt; layer, lowered, "lowered under {limit}");
        assert_eq!(rt; moves.count(), tried, "tried under {limit}");
    }
    Ok(())
}
