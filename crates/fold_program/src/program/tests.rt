//! A program of two bricks with two columns each, one linking row and one brick row, worked by hand.

ghost use Rattle.std.specs.Prelude.{◌≡◌, ◌≤◌, length, pos, All, IfOk, IfSome};
ghost use Rattle.fold_theory.specs.declared.Cost.TheVariants.{Quadratic};
ghost use Rattle.lattice_theory.specs.BasisLimits.{IsNarrow};
ghost use Rattle.convex_costs.specs.Bounds.{AreBounded};
ghost use Rattle.fold_program.specs.Points.{HasPointShape};
ghost use Rattle.lattice_theory.specs.Vectors.{IsBoundedRow};
ghost use Rattle.fold_program.specs.Faults.{AreWithinLimits};

use crate::{Broken, Cost, CostFault, FileKind, Parts, Point, Program, ProgramFault, Relation};
use mat_files::Matrix;
use std::alloc::{AllocError, Global};
use std::rt::HostRuntime;
use std::test::Fail;

/// The linking row: the first column.
fn first_column(alloc: Global) -> Result<Matrix, AllocError>
    ensures { IfOk result (λ m. All IsNarrow m.rows) }
{
    Ok(Matrix::new(1, 2, [1, 0].to_vec(alloc)?))
}

/// The brick row: both columns.
fn both_columns(alloc: Global) -> Result<Matrix, AllocError>
    ensures { IfOk result (λ m. All IsNarrow m.rows) }
{
    Ok(Matrix::new(1, 2, [1, 1].to_vec(alloc)?))
}

/// The right sides, of the linking row and of each brick.
fn rights(alloc: Global) -> Result<Matrix, AllocError>
    ensures { IfOk result (λ m. All IsBoundedRow m.rows) }
{
    Ok(Matrix::new(1, 3, [3, 4, 4].to_vec(alloc)?))
}

/// The bounds of both bricks.
#[tactic(auto, using(crate::proofs::PointLaws::bounded_rows))]
fn bounds(alloc: Global, entries: [i64; 4]) -> Result<Matrix, AllocError>
    requires { IsBoundedRow entries }
    ensures { IfOk result (λ m. All IsBoundedRow m.rows) }
{
    Ok(Matrix::new(2, 2, entries.to_vec(alloc)?))
}

/// The parts with these bounds and costs.
fn parts_with(
    alloc: Global,
    lower: [i64; 4],
    upper: [i64; 4],
    costs: Vec<Cost>,
) -> Result<Parts, AllocError>
    requires low { IsBoundedRow lower }
    requires high { IsBoundedRow upper }
    requires numbers { All AreBounded costs.items }
    ensures limits { IfOk result AreWithinLimits }
{
    Ok(Parts {
        link: first_column(alloc)?,
        brick: both_columns(alloc)?,
        lower: bounds(alloc, lower)?,
        upper: bounds(alloc, upper)?,
        right: rights(alloc)?,
        costs,
    })
}

/// A multiple of the square.
fn multiple(a: i64) -> Cost
    ensures { result ≡ Quadratic a (pos 0) (pos 0) }
{
    Cost::Quadratic { a, b: 0, c: 0 }
}

/// Multiples of the square.
fn multiples(alloc: Global, factors: [i64; 4]) -> Result<Vec<Cost>, AllocError>
    requires { IsBoundedRow factors }
    ensures numbers { IfOk result (λ costs. All AreBounded costs.items) }
{
    let [a, b, c, d] = factors;
    Ok(vec![in alloc; multiple(a), multiple(b), multiple(c), multiple(d)]?)
}

/// The program whose bounds are all 0 to 4.
fn program(alloc: Global) -> Result<Program, Fail> {
    let parts = parts_with(alloc, [0; 4], [4; 4], multiples(alloc, [1, 0, 1, 0])?)?;
    Ok(Program::new(alloc, parts)?)
}

/// That program, its linking row with this relation.
fn related(alloc: Global, relation: Relation) -> Result<Program, Fail> {
    let program = program(alloc)?;
    let relations = vec![in alloc; relation; program.r() as usize]?;
    Ok(program.with_relations(relations))
}

/// The cost of a column at `v`, where that is within the column's bounds.
fn cost_within(program: &Program, brick: u32, col: u32, v: i64) -> Option<i128>
    requires from { 1 ≤ brick }
    requires to { brick ≤ length program.now.bricks }
    requires left { 1 ≤ col }
    requires right { col ≤ program.now.link.cols }
{
    // a program has a cost for each column
    prove!(brick <= program.n());
    let (lower, upper) = (program.lower(brick, col), program.upper(brick, col));
    if v < lower || upper < v {
        return None;
    }
    Some(program.cost_at(brick, col, v))
}

/// The cost of a brick at a vector, where that is within the brick's bounds.
fn brick_cost_within(program: &Program, brick: u32, vector: &[i64]) -> Option<i128>
    requires from { 1 ≤ brick }
    requires to { brick ≤ length program.now.bricks }
    requires width { length vector.now ≡ program.now.link.cols }
{
    if !program.is_within(brick, vector) {
        return None;
    }
    Some(program.brick_cost(brick, vector))
}

/// The point with these entries, brick by brick.
fn point(program: &Program, entries: Vec<i64>) -> Option<Point>
    ensures { IfSome result (HasPointShape program.now) }
{
    Point::new(program, entries)
}

/// Why there is no program with these bounds and these multiples of the square.
fn fault_of(
    alloc: Global,
    lower: [i64; 4],
    upper: [i64; 4],
    factors: [i64; 4],
) -> Result<Option<ProgramFault>, AllocError>
    requires low { IsBoundedRow lower }
    requires high { IsBoundedRow upper }
    requires factors { IsBoundedRow factors }
{
    let parts = parts_with(alloc, lower, upper, multiples(alloc, factors)?)?;
    Ok(Program::new(alloc, parts).err())
}

/// What may go to other threads, and be read by several.
fn is_shared<T: Send + Sync>(_value: &T) -> bool {
    true
}

#[test]
fn its_sizes_and_sides_are_those_of_the_parts(rt: HostRuntime) -> Result<(), Fail> {
    let program = program(rt.alloc())?;
    assert_eq!(rt; program.n(), 2);
    assert_eq!(rt; program.t(), 2);
    assert_eq!(rt; program.r(), 1);
    assert_eq!(rt; program.s(), 1);
    assert_eq!(rt; program.link().entries(), [1, 0].as_slice());
    assert_eq!(rt; program.brick().entries(), [1, 1].as_slice());
    assert_eq!(rt; program.right_link(1), 3);
    assert_eq!(rt; program.right_brick(2, 1), 4);
    assert_eq!(rt; (program.lower(2, 1), program.upper(1, 2)), (0, 4));
    assert_eq!(rt; program.widest(), 4);
    Ok(())
}

#[test]
fn a_brick_has_its_rows_of_bounds_and_sides(rt: HostRuntime) -> Result<(), Fail> {
    let program = program(rt.alloc())?;
    assert_eq!(rt; program.n(), 2);
    assert_eq!(rt; program.lower_row(1), [0, 0].as_slice());
    assert_eq!(rt; program.upper_row(2), [4, 4].as_slice());
    assert_eq!(rt; program.right_row(2), [4].as_slice());
    Ok(())
}

/// Whether the vector is within the bounds of brick 2, and what it misses of its rows.
fn judged_brick(alloc: Global, vector: [i64; 2]) -> Result<(bool, u128), Fail> {
    let program = program(alloc)?;
    if program.n() != 2 || program.t() != 2 {
        return Err("two bricks of two columns")?;
    }
    let vector = vector.as_slice();
    Ok((program.is_within(2, vector), program.residual(2, vector)))
}

#[test]
fn a_brick_is_judged_by_its_bounds_and_its_row(rt: HostRuntime) -> Result<(), Fail> {
    let alloc = rt.alloc();
    assert_eq!(rt; judged_brick(alloc, [0, 4])?, (true, 0));
    assert_eq!(rt; judged_brick(alloc, [4, 4])?, (true, 4));
    assert_eq!(rt; judged_brick(alloc, [0, 0])?, (true, 4));
    assert_eq!(rt; judged_brick(alloc, [5, -1])?, (false, 0));
    assert_eq!(rt; judged_brick(alloc, [-3, -3])?, (false, 10));
    Ok(())
}

/// What the point with these entries breaks first.
fn broken_at(alloc: Global, entries: [i64; 4]) -> Result<Option<Broken>, Fail> {
    let program = program(alloc)?;
    let point = point(&program, entries.to_vec(alloc)?).ok_or("a point")?;
    Ok(program.broken(&point))
}

#[test]
fn the_first_thing_that_a_point_breaks_is_named(rt: HostRuntime) -> Result<(), Fail> {
    let alloc = rt.alloc();
    assert_eq!(rt; broken_at(alloc, [1, 3, 2, 2])?, None);
    let row = Broken::BrickRow { brick: 2, row: 1 };
    assert_eq!(rt; broken_at(alloc, [1, 3, 2, 1])?, Some(row));
    let link = Broken::LinkRow { row: 1 };
    assert_eq!(rt; broken_at(alloc, [0, 4, 2, 2])?, Some(link));
    let above = Broken::Above { brick: 1, col: 1 };
    assert_eq!(rt; broken_at(alloc, [5, -1, 2, 2])?, Some(above));
    let above = Broken::Above { brick: 2, col: 1 };
    assert_eq!(rt; broken_at(alloc, [1, 3, 5, -1])?, Some(above));
    let below = Broken::Below { brick: 2, col: 2 };
    assert_eq!(rt; broken_at(alloc, [1, 3, 2, -1])?, Some(below));
    Ok(())
}

/// What the linking row misses by this relation, where its right side is 2 below its sum, equal to it, and 3 above it.
fn misses(alloc: Global, relation: Relation) -> Result<[u128; 3], Fail> {
    let program = related(alloc, relation)?;
    if program.relations().len() != 1 || program.relation(1) != relation {
        return Err("one linking row with this relation")?;
    }
    Ok([
        program.missed(1, -2),
        program.missed(1, 0),
        program.missed(1, 3),
    ])
}

#[test]
fn a_linking_row_misses_by_its_relation(rt: HostRuntime) -> Result<(), Fail> {
    assert_eq!(rt; misses(rt.alloc(), Relation::Equal)?, [2, 0, 3]);
    assert_eq!(rt; misses(rt.alloc(), Relation::Less)?, [2, 0, 0]);
    assert_eq!(rt; misses(rt.alloc(), Relation::Greater)?, [0, 0, 3]);
    Ok(())
}

/// What a point breaks at which the sum of the linking row is 2, and its right side 3; and what it misses of that row.
fn judged(alloc: Global, relation: Relation) -> Result<(Option<Broken>, u128), Fail> {
    let program = related(alloc, relation)?;
    let point = point(&program, [0, 4, 2, 2].to_vec(alloc)?).ok_or("a point")?;
    Ok((program.broken(&point), program.link_residual(&point)))
}

#[test]
fn a_linking_row_is_judged_by_its_relation(rt: HostRuntime) -> Result<(), Fail> {
    let broken = Some(Broken::LinkRow { row: 1 });
    assert_eq!(rt; judged(rt.alloc(), Relation::Equal)?, (broken, 1));
    assert_eq!(rt; judged(rt.alloc(), Relation::Less)?, (None, 0));
    assert_eq!(rt; judged(rt.alloc(), Relation::Greater)?, (broken, 1));
    Ok(())
}

#[test]
fn each_column_has_a_cost_within_its_bounds(rt: HostRuntime) -> Result<(), Fail> {
    let program = program(rt.alloc())?;
    assert_eq!(rt; program.n(), 2);
    assert_eq!(rt; program.t(), 2);
    assert_eq!(rt; cost_within(&program, 1, 1, 3), Some(9));
    assert_eq!(rt; cost_within(&program, 1, 2, 3), Some(0));
    assert_eq!(rt; cost_within(&program, 2, 1, 4), Some(16));
    assert_eq!(rt; cost_within(&program, 2, 1, 5), None);
    assert_eq!(rt; cost_within(&program, 1, 2, -1), None);
    Ok(())
}

#[test]
fn a_brick_costs_what_its_columns_cost(rt: HostRuntime) -> Result<(), Fail> {
    let program = program(rt.alloc())?;
    assert_eq!(rt; program.n(), 2);
    assert_eq!(rt; program.t(), 2);
    assert_eq!(rt; brick_cost_within(&program, 1, &[3, 2]), Some(9));
    assert_eq!(rt; brick_cost_within(&program, 2, &[4, 0]), Some(16));
    assert_eq!(rt; brick_cost_within(&program, 2, &[4, 5]), None);
    Ok(())
}

#[test]
fn the_best_point_costs_five(rt: HostRuntime) -> Result<(), Fail> {
    let program = program(rt.alloc())?;
    let point = point(&program, [1, 3, 2, 2].to_vec(rt.alloc())?).expect(&rt, "a point");
    assert!(rt; program.broken(&point).is_none());
    assert_eq!(rt; program.cost(&point), 5);
    assert_eq!(rt; program.n(), 2);
    assert_eq!(rt; point.brick(2), [2, 2].as_slice());
    assert_eq!(rt; program.r(), 1);
    assert_eq!(rt; program.rest(&point, 1), 0);
    assert!(rt; is_shared(&program) && is_shared(&point));
    Ok(())
}

#[test]
fn a_missing_cost_is_a_wrong_shape(rt: HostRuntime) -> Result<(), Fail> {
    let alloc = rt.alloc();
    let three = vec![in alloc; multiple(1), multiple(0), multiple(1)]?;
    let short = parts_with(alloc, [0; 4], [4; 4], three)?;
    let shape = ProgramFault::Shape {
        file: FileKind::Costs,
    };
    assert_eq!(rt; Program::new(alloc, short).err(), Some(shape));
    Ok(())
}

#[test]
fn crossed_bounds_are_named_before_costs(rt: HostRuntime) -> Result<(), Fail> {
    let crossed = ProgramFault::CrossedBounds { brick: 2, col: 1 };
    let fault = fault_of(rt.alloc(), [0, 0, 3, 0], [4, 4, 2, 4], [-1, 0, 1, 0])?;
    assert_eq!(rt; fault, Some(crossed));
    Ok(())
}

#[test]
fn the_first_refused_cost_is_named(rt: HostRuntime) -> Result<(), Fail> {
    let falls = ProgramFault::Cost {
        brick: 1,
        col: 2,
        fault: CostFault::NotConvex { at: 0 },
    };
    let fault = fault_of(rt.alloc(), [0; 4], [4; 4], [1, -1, -1, 0])?;
    assert_eq!(rt; fault, Some(falls));
    Ok(())
}

#[test]
fn the_costs_may_add_up_to_the_largest_sum(rt: HostRuntime) -> Result<(), Fail> {
    let upper = [1 << 30, 4, 4, 1 << 30];
    let largest = fault_of(rt.alloc(), [0; 4], upper, [1 << 60, 0, 0, 0])?;
    assert_eq!(rt; largest, None);
    let larger = fault_of(rt.alloc(), [0; 4], upper, [1 << 60, 0, 0, 1])?;
    assert_eq!(rt; larger, Some(ProgramFault::CostSumTooLarge));
    Ok(())
}

#[test]
fn a_point_has_an_entry_for_each_column(rt: HostRuntime) -> Result<(), Fail> {
    let program = program(rt.alloc())?;
    assert!(rt; Point::new(&program, [1, 3, 2].to_vec(rt.alloc())?).is_none());
    let large = [1, 3, 2, 1 << 62].to_vec(rt.alloc())?;
    assert!(rt; Point::new(&program, large).is_some());
    let larger = [1, 3, 2, (1 << 62) + 1].to_vec(rt.alloc())?;
    assert!(rt; Point::new(&program, larger).is_none());
    Ok(())
}
