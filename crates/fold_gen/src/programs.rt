//! The transport programs.

ghost use Rattle.std.specs.Prelude.{◌≡◌, ◌<◌, ◌≤◌, ◌^◌, None, pos, length, map, flat_map, All, IfOk, IsTrue, [], ◌∷◌};
ghost use Rattle.std.specs.Prelude.{◌++◌};
ghost use Rattle.lattice_theory.specs.Vectors.{is_bounded, IsBoundedRow};
ghost use Rattle.lattice_theory.specs.BasisLimits.{IsNarrow};
ghost use Rattle.fold_theory.specs.Programs.{Bricks, IsFeasible};
ghost use Rattle.convex_costs.specs.Bounds.{AreBounded};
ghost use Rattle.fold_program.specs.Parts.{program_of};
ghost use Rattle.fold_program.specs.Faults.{AreWithinLimits};
ghost use Rattle.fold_program.specs.Refusals.{first_misshaped};
ghost use Rattle.fold_gen.specs.Transports as transports;
ghost use Rattle.fold_gen.specs.Transports.{brick_of, cost_of, transport_of};

use crate::customers::{Customer, Price, customers};
use fold_program::{Cost, Parts, Program, ProgramFault};
use mat_files::Matrix;
use std::alloc::{AllocError, Global};

/// The transport program of this number with so many customers, which is feasible.
///
/// The generator turns `z` into `(75·z + 74) mod 65537`, first of all the number itself, and draws `z mod m`. For
/// each customer it draws the demand, `1 + (z mod 4)`; then for each of the three suppliers the two numbers of its
/// price `a·v² + b·v`, `z mod 3` and `z mod 7`; and then for each unit of the demand the supplier that is planted to
/// send it, `z mod 3`. Each customer is a brick: the shares of the suppliers add up to its demand, and none is more
/// than that. What a supplier sends in all is what is planted. An error comes only where memory runs out.
pub fn transport(alloc: Global, number: u32, bricks: u32) -> Result<Program, AllocError>
    requires number { number ≤ 65535 }
    requires some { 1 ≤ bricks }
    requires few { bricks ≤ 10000 }
    ensures program { IfOk result (λ p. p ≡ transports.transport number bricks) }
    ensures feasible { IfOk result (λ p. (x : Bricks) × IsFeasible p x) }
{
    let customers = customers(alloc, number, bricks)?;
    let parts = parts(alloc, &customers)?;
    match Program::new(alloc, parts) {
        Ok(program) => Ok(program),
        Err(fault) => {
            // the parts fit each other, no bounds cross, and the costs are convex and small
            prove!(matches!(fault, ProgramFault::Memory));
            Err(AllocError)
        }
    }
}

/// The parts of the program with these customers.
fn parts(alloc: Global, customers: &[Customer]) -> Result<Parts, AllocError>
    requires some { 1 ≤ length customers.now }
    requires few { length customers.now ≤ 10000 }
    ensures shaped { IfOk result (λ p. first_misshaped p ≡ None) }
    ensures limits { IfOk result AreWithinLimits }
    ensures program { IfOk result (λ p. program_of p ≡ transport_of customers.now) }
{
    let count = customers.len() as u32;
    let link = links(alloc)?;
    let brick = shares(alloc)?;
    let lower = vec![in alloc; 0; 3 * customers.len()]?;
    let upper = uppers(alloc, customers)?;
    let right = rights(alloc, customers)?;
    let costs = costs(alloc, customers)?;
    Ok(Parts {
        link,
        brick,
        lower: Matrix::new(count, 3, lower),
        upper: Matrix::new(count, 3, upper),
        right: Matrix::new(1, 3 + count, right),
        costs,
    })
}

/// The linking matrix: a row for each supplier.
fn links(alloc: Global) -> Result<Matrix, AllocError>
    ensures links { IfOk result (λ m. m ≡ transports.links) }
    ensures narrow { IfOk result (λ m. All IsNarrow m.rows) }
{
    let entries = [1, 0, 0, 0, 1, 0, 0, 0, 1].to_vec(alloc)?;
    Ok(Matrix::new(3, 3, entries))
}

/// The brick matrix: the shares of all suppliers in one row.
fn shares(alloc: Global) -> Result<Matrix, AllocError>
    ensures shares { IfOk result (λ m. m ≡ transports.shares) }
    ensures narrow { IfOk result (λ m. All IsNarrow m.rows) }
{
    Ok(Matrix::new(1, 3, [1, 1, 1].to_vec(alloc)?))
}

/// The upper bounds: the demand of each customer, for each supplier.
fn uppers(alloc: Global, customers: &[Customer]) -> Result<Vec<i64>, AllocError>
    requires { length customers.now ≤ 10000 }
    ensures uppers { IfOk result (λ uppers. uppers.items ≡ flat_map (λ c. (brick_of c).upper) customers.now) }
    ensures bounded { IfOk result (λ uppers. IsBoundedRow uppers.items) }
{
    let mut uppers = Vec::new(alloc);
    for customer in customers {
        let demand = whole(customer.demand);
        uppers.extend_from_slice(&[demand, demand, demand])?;
    }
    Ok(uppers)
}

/// The right sides: what each supplier is planted to send, and then the demands.
fn rights(alloc: Global, customers: &[Customer]) -> Result<Vec<i64>, AllocError>
    requires { length customers.now ≤ 10000 }
    ensures rights { IfOk result (λ rights. rights.items ≡ transports.sent customers.now ++ map
        (λ c. pos c.demand) customers.now) }
    ensures bounded { IfOk result (λ rights. IsBoundedRow rights.items) }
{
    let Sent {
        first,
        second,
        third,
    } = sent_in_all(customers);
    let mut rights = Vec::new(alloc);
    rights.extend_from_slice(&[first, second, third])?;
    for customer in customers {
        rights.push(whole(customer.demand))?;
    }
    Ok(rights)
}

/// What each supplier is planted to send, in all.
struct Sent {
    first: i64,
    second: i64,
    third: i64,
}

/// What each supplier is planted to send, in all.
fn sent_in_all(customers: &[Customer]) -> Sent
    requires { length customers.now ≤ 10000 }
    ensures sent { result.first ∷ result.second ∷ result.third ∷ [] ≡ transports.sent customers.now }
    ensures small { IsBoundedRow (transports.sent customers.now) }
{
    let (mut first, mut second, mut third) = (0, 0, 0);
    for customer in customers {
        first += whole(customer.planted.first);
        second += whole(customer.planted.second);
        third += whole(customer.planted.third);
    }
    Sent {
        first,
        second,
        third,
    }
}

/// The costs, customer by customer and supplier by supplier.
fn costs(alloc: Global, customers: &[Customer]) -> Result<Vec<Cost>, AllocError>
    requires { length customers.now ≤ 10000 }
    ensures costs { IfOk result (λ costs. costs.items ≡ flat_map (λ c. (brick_of c).costs) customers.now) }
    ensures numbers { IfOk result (λ costs. All AreBounded costs.items) }
{
    let mut costs = Vec::new(alloc);
    for customer in customers {
        costs.push(cost(customer.first))?;
        costs.push(cost(customer.second))?;
        costs.push(cost(customer.third))?;
    }
    Ok(costs)
}

/// The cost at a price.
fn cost(price: Price) -> Cost
    ensures cost { result ≡ cost_of price }
    ensures numbers { AreBounded result }
{
    Cost::Quadratic {
        a: whole(price.a),
        b: whole(price.b),
        c: 0,
    }
}

/// The same number, which is small.
fn whole(number: u32) -> i64
    ensures value { result ≡ pos number }
    ensures small { number < 2 ^ 32 }
    ensures bounded { IsTrue (is_bounded result) }
{
    i64::from(number)
}
