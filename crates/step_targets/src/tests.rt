//! Steps of one brick, at values worked by hand.

use crate::{image, target};
use std::alloc::AllocError;
use std::rt::HostRuntime;

#[test]
fn a_step_leads_to_its_bounds_and_not_past_them(rt: HostRuntime) -> Result<(), AllocError> {
    let (lower, upper, at, part) = ([0, 0], [4, 4], [0, 4], [1, -1]);
    for (k, end) in [(0, [1, 3]), (1, [2, 2]), (2, [4, 0])] {
        let found = target(rt.alloc(), &lower, &upper, &at, &part, k)?;
        assert!(rt;
            found.is_some_and(|v| v.as_slice() == end.as_slice()),
            "at {k}"
        );
    }
    assert!(rt; target(rt.alloc(), &lower, &upper, &at, &part, 3)?.is_none());
    Ok(())
}

#[test]
fn the_longest_step_crosses_the_widest_bounds(rt: HostRuntime) -> Result<(), AllocError> {
    let wide = 1 << 62;
    let found = target(rt.alloc(), &[-wide], &[wide], &[-wide], &[1], 63)?;
    assert!(rt; found.is_some_and(|v| v.as_slice() == [wide].as_slice()));
    assert!(rt; target(rt.alloc(), &[-wide], &[wide], &[-wide], &[i64::MAX], 63)?.is_none());
    Ok(())
}

#[test]
fn an_image_is_the_sum_of_products(rt: HostRuntime) {
    assert_eq!(rt; image(&[2, -3], &[5, 7]), -11);
    assert_eq!(rt; image(&[-1], &[i64::MIN]), 1 << 63);
}
