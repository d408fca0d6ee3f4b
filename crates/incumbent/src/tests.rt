//! Rounds by hand.

ghost use Rattle.std.specs.Prelude.{[], ◌∷◌, Some, None};

use crate::{Board, Gains, Key};
use std::test::Fail;

/// Two lengths with the same gain.
struct Equal;

impl Gains for Equal {
    ghost use Rattle.std.specs.Prelude.{[], ◌∷◌, Some};

    ghost gains = { Some 5 ∷ Some 5 ∷ [] };
}

#[test]
fn of_equal_gains_the_lesser_length_is_the_best(rt: HostRuntime) -> Result<(), Fail> {
    let (board, mut first) = Board::<Equal>::new(rt.alloc(), 2)?;
    let mut second = board.split(&mut first);
    let Some(0) = board.claim(&mut first) else {
        panic!(rt; "length 0 was not left")
    };
    let Some(1) = board.claim(&mut second) else {
        panic!(rt; "length 1 was not left")
    };
    assert!(rt; board.offer(&mut second, Key { gain: 5, k: 1 }));
    assert_eq!(rt; board.look(&mut first), Some(Key { gain: 5, k: 1 }));
    assert!(rt; board.offer(&mut first, Key { gain: 5, k: 0 }));
    assert_eq!(rt; board.look(&mut second), Some(Key { gain: 5, k: 0 }));
    let None = board.claim(&mut first) else {
        panic!(rt; "a third length was left")
    };
    board.join(&mut first, second);
    assert_eq!(rt; board.close(first), Some(0));
    Ok(())
}

/// A length that gains, and one that doesn't.
struct OneGain;

impl Gains for OneGain {
    ghost use Rattle.std.specs.Prelude.{[], ◌∷◌, Some, None};

    ghost gains = { Some 7 ∷ None ∷ [] };
}

#[test]
fn a_length_without_a_gain_is_settled(rt: HostRuntime) -> Result<(), Fail> {
    let (board, mut seat) = Board::<OneGain>::new(rt.alloc(), 2)?;
    assert_eq!(rt; board.look(&mut seat), None);
    let Some(0) = board.claim(&mut seat) else {
        panic!(rt; "length 0 was not left")
    };
    assert!(rt; board.offer(&mut seat, Key { gain: 7, k: 0 }));
    let Some(1) = board.claim(&mut seat) else {
        panic!(rt; "length 1 was not left")
    };
    board.settle(&mut seat, 1);
    let None = board.claim(&mut seat) else {
        panic!(rt; "a third length was left")
    };
    assert_eq!(rt; board.close(seat), Some(0));
    Ok(())
}
