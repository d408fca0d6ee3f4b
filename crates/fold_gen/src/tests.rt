//! The first programs, worked by hand.

ghost use Rattle.std.specs.Prelude.{◌≡◌, ◌≤◌, length};

use super::transport;
use fold_program::Program;
use std::alloc::Global;
use std::rt::HostRuntime;
use std::test::Fail;

/// The cost of `v` units of a supplier to a customer, where the customer wants as many.
fn cost_within(program: &Program, brick: u32, col: u32, v: i64) -> Option<i128>
    requires from { 1 ≤ brick }
    requires to { brick ≤ length program.now.bricks }
    requires left { 1 ≤ col }
    requires right { col ≤ program.now.link.cols }
{
    // a program has a cost for each column
    prove!(brick <= program.n());
    let (lower, upper) = (program.lower(brick, col), program.upper(brick, col));
    if v < lower || upper < v {
        return None;
    }
    Some(program.cost_at(brick, col, v))
}

/// What one customer wants, what each supplier is planted to send it, and what the whole demand would cost from each.
#[derive(Drop)]
struct Drawn {
    demand: i64,
    sent: [i64; 3],
    costs: [Option<i128>; 3],
}

/// What is drawn at this number.
fn drawn_at(alloc: Global, number: u32) -> Result<Drawn, Fail>
    requires { number ≤ 65535 }
{
    let program = transport(alloc, number, 1)?;
    if program.n() != 1 || program.t() != 3 || program.r() != 3 || program.s() != 1 {
        return Err("one brick of three columns and one row, and three linking rows")?;
    }
    let demand = program.right_brick(1, 1);
    Ok(Drawn {
        demand,
        sent: [
            program.right_link(1),
            program.right_link(2),
            program.right_link(3),
        ],
        costs: [
            cost_within(&program, 1, 1, demand),
            cost_within(&program, 1, 2, demand),
            cost_within(&program, 1, 3, demand),
        ],
    })
}

/// Two units, both planted with the third supplier, at `2v² + 3v`, `v² + 3v` and `3v`.
#[test]
fn the_customer_of_number_one_wants_two_units(rt: HostRuntime) -> Result<(), Fail> {
    let drawn = drawn_at(rt.alloc(), 1)?;
    assert_eq!(rt; drawn.demand, 2);
    assert_eq!(rt; drawn.sent, [0, 0, 2]);
    assert_eq!(rt; drawn.costs, [Some(14), Some(10), Some(6)]);
    Ok(())
}

/// Three units, two planted with the first supplier and one with the third, at `2v² + v`, `v² + v` and `v² + v`.
#[test]
fn the_customer_of_number_zero_wants_three_units(rt: HostRuntime) -> Result<(), Fail> {
    let drawn = drawn_at(rt.alloc(), 0)?;
    assert_eq!(rt; drawn.demand, 3);
    assert_eq!(rt; drawn.sent, [2, 0, 1]);
    assert_eq!(rt; drawn.costs, [Some(21), Some(12), Some(12)]);
    Ok(())
}

#[test]
fn the_largest_program_is_made(rt: HostRuntime) -> Result<(), Fail> {
    let program = transport(rt.alloc(), 65535, 10_000)?;
    assert_eq!(rt; program.n(), 10_000);
    assert_eq!(rt;
        program.link().entries(),
        [1, 0, 0, 0, 1, 0, 0, 0, 1].as_slice()
    );
    assert_eq!(rt; program.brick().entries(), [1, 1, 1].as_slice());
    Ok(())
}
