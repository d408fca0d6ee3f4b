//! The customers of a transport program.

ghost use Rattle.std.specs.Prelude.{◌≡◌, ◌<◌, ◌≤◌, IfOk, cond, nat_eq};
ghost use Rattle.fold_gen.specs.Draws as drawn;
ghost use Rattle.fold_gen.specs.Draws.{next, after, demand, suppliers};

use crate::draws::Draws;
use std::alloc::{AllocError, Global};

/// The price of a supplier: `v` units cost `a·v² + b·v`.
#[derive(Clone, Copy, Debug, PartialEq, Eq, Drop)]
pub struct Price {
    pub a: u32,
    pub b: u32,
}

/// How many units each supplier is planted to send.
#[derive(Clone, Copy, Debug, PartialEq, Eq, Drop)]
pub struct Planted {
    pub first: u32,
    pub second: u32,
    pub third: u32,
}

/// A customer: how many units it wants, the price of each supplier, and what is planted.
#[derive(Clone, Copy, Debug, PartialEq, Eq, Drop)]
pub struct Customer {
    pub demand: u32,
    pub first: Price,
    pub second: Price,
    pub third: Price,
    pub planted: Planted,
}

/// So many customers, one after the other, drawn from this number.
pub fn customers(alloc: Global, number: u32, count: u32) -> Result<Vec<Customer>, AllocError>
    requires { number < 65537 }
    ensures { IfOk result (λ cs. cs.items ≡ drawn.customers count number) }
{
    let mut draws = Draws { z: number };
    let mut all = Vec::new(alloc);
    for _customer in 0..count {
        all.push(draw_customer(&mut draws))?;
    }
    Ok(all)
}

/// The next customer.
fn draw_customer(draws: &mut Draws) -> Customer
    requires { draws.old.z < 65537 }
    ensures customer { result ≡ drawn.customer draws.old.z }
    ensures turned { draws.new.z ≡ after (demand draws.old.z) (after 7 draws.old.z) }
    ensures small { draws.new.z < 65537 }
{
    let demand = 1 + draws.draw(4);
    let first = draw_price(draws);
    let second = draw_price(draws);
    let third = draw_price(draws);
    let planted = draw_planted(draws, demand);
    Customer {
        demand,
        first,
        second,
        third,
        planted,
    }
}

/// The next price.
fn draw_price(draws: &mut Draws) -> Price
    requires { draws.old.z < 65537 }
    ensures price { result ≡ drawn.price draws.old.z }
    ensures turned { draws.new.z ≡ next (next draws.old.z) }
    ensures small { draws.new.z < 65537 }
{
    let a = draws.draw(3);
    let b = draws.draw(7);
    Price { a, b }
}

/// How often each supplier is drawn for so many units.
fn draw_planted(draws: &mut Draws, units: u32) -> Planted
    requires { draws.old.z < 65537 }
    ensures planted { result ≡ drawn.planted (suppliers units draws.old.z) }
    ensures turned { draws.new.z ≡ after units draws.old.z }
    ensures small { draws.new.z < 65537 }
{
    let (mut first, mut second, mut third) = (0, 0, 0);
    for _unit in 0..units {
        let supplier = draws.draw(3);
        first += one_if_same(supplier, 0);
        second += one_if_same(supplier, 1);
        third += one_if_same(supplier, 2);
    }
    Planted {
        first,
        second,
        third,
    }
}

/// 1 for the same supplier, 0 for another.
fn one_if_same(drawn: u32, supplier: u32) -> u32
    ensures one { result ≡ cond (nat_eq drawn supplier) 1 0 }
    ensures small { result ≤ 1 }
{
    if drawn == supplier { 1 } else { 0 }
}
