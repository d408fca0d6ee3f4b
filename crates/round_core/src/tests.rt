//! Rounds whose events are given one by one.

use crate::{Event, NotAllowed, State};
use std::test::Fail;

/// Worker 1 offers length 1, then worker 0 offers length 0 and finds that length 2 has no gain.
const OFFERS: [Event; 13] = [
    Event::SplitSeat {
        worker: 0,
        fresh: 1,
    },
    Event::Claim { worker: 0 },
    Event::Claim { worker: 1 },
    Event::Claim { worker: 0 },
    Event::StoreHigh {
        worker: 1,
        length: 1,
    },
    Event::StoreLow {
        worker: 1,
        length: 1,
    },
    Event::LoadBest {
        worker: 1,
        settles: None,
    },
    Event::Exchange {
        worker: 1,
        expected: 0,
        length: 1,
    },
    Event::StoreHigh {
        worker: 0,
        length: 0,
    },
    Event::StoreLow {
        worker: 0,
        length: 0,
    },
    Event::LoadBest {
        worker: 0,
        settles: None,
    },
    Event::Exchange {
        worker: 0,
        expected: 2,
        length: 0,
    },
    Event::LoadBest {
        worker: 0,
        settles: Some(2),
    },
];

#[test]
fn of_equal_gains_the_lesser_length_is_the_best(rt: HostRuntime) -> Result<(), Fail> {
    let alloc = rt.alloc();
    let mut state = State::new(alloc, vec![in alloc; Some(4), Some(4), None]?, 2)?;
    for event in OFFERS {
        assert_eq!(rt; state.step(event), Ok(()));
    }
    assert!(rt; state.settled());
    assert_eq!(rt; state.best(), Some(0));
    let event = Event::Exchange {
        worker: 1,
        expected: 1,
        length: 1,
    };
    assert_eq!(rt; state.step(event), Err(NotAllowed { event }));
    assert_eq!(rt; state.best(), Some(0));
    Ok(())
}

#[test]
fn a_joined_worker_hands_its_length_over(rt: HostRuntime) -> Result<(), Fail> {
    let alloc = rt.alloc();
    let mut state = State::new(alloc, vec![in alloc; Some(1)]?, 2)?;
    let events = [
        Event::SplitSeat {
            worker: 0,
            fresh: 1,
        },
        Event::Claim { worker: 1 },
        Event::JoinSeat { worker: 0, from: 1 },
        Event::StoreHigh {
            worker: 0,
            length: 0,
        },
    ];
    for event in events {
        assert_eq!(rt; state.step(event), Ok(()));
    }
    assert!(rt; !state.settled());
    assert_eq!(rt; state.best(), None);
    let event = Event::Claim { worker: 1 };
    assert_eq!(rt; state.step(event), Err(NotAllowed { event }));
    Ok(())
}
