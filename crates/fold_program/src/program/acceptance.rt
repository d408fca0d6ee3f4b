//! Which parts make a program.

ghost use Rattle.std.specs.Prelude.{◌≡◌, ◌≤◌, ◌<◌, ◌+◌, ◌*◌, ◌/◌, ◌%◌, ◌^◌, ◌-◌, ◌≤ℤ◌, None, Some, [], IfOk, IfErr};
ghost use Rattle.std.specs.Prelude.{OnOk, IfSome, IfNone, MatchOption, length, map, sum_by, min, All, IsTrue};
ghost use Rattle.std.specs.List.{AllZip};
ghost use Rattle.fold_theory.specs.Programs.{IsProgram};
ghost use Rattle.convex_costs.specs.Bounds.{AreBounded};
ghost use Rattle.fold_program.specs.Parts.{program_of, IsEven, AreEven};
ghost use Rattle.fold_program.specs.Refusals.{first_misshaped as misshaped, in_shape as is_in_shape};
ghost use Rattle.lattice_theory.specs.Vectors.{IsBoundedRow};
ghost use Rattle.fold_program.specs.Faults.{AreWithinLimits, AreAccepted, IsProgramFault};
ghost use Rattle.fold_program.specs.Bounds.{AreBoundCosts, IsFirstCrossed, IsCostRefusal, cost_magnitude};

use crate::fault::{FileKind, ProgramFault};
use crate::parts::Parts;
use crate::program::Program;
use convex_costs::{BoundCost, Cost};
use fold_theory::Relation;
use mat_files::Matrix;
use std::alloc::Global;

/// The magnitudes of all costs add up to at most this.
const LARGEST: u128 = 1 << 120;

impl Program {
    /// The program that the parts make, whose linking rows are equations, or the first fault in the order of
    /// `ProgramFault`. Entries of the two matrices are within `2^31 - 1`; bounds, right sides and the numbers of the
    /// costs are within `2^62`.
    pub fn new(alloc: Global, parts: Parts) -> Result<Program, ProgramFault>
        requires limits { AreWithinLimits parts }
        ensures made { IfOk result (λ p. p ≡ program_of parts) }
        ensures accepted { OnOk result (AreAccepted parts) }
        ensures program { IfOk result IsProgram }
        ensures refused { IfErr result (IsProgramFault parts) }
    {
        if let Some(file) = first_misshaped(&parts) {
            return Err(ProgramFault::Shape { file });
        }
        let Parts {
            link,
            brick,
            lower,
            upper,
            right,
            costs,
        } = parts;
        let cols = link.cols();
        if let Some(at) = first_crossed(lower.entries(), upper.entries()) {
            let Place { brick, col } = Place::of(at, cols);
            return Err(ProgramFault::CrossedBounds { brick, col });
        }
        let costs = bound_costs(alloc, cols, costs, lower.entries(), upper.entries())?;
        if total_magnitude(&costs) > LARGEST {
            return Err(ProgramFault::CostSumTooLarge);
        }
        let relations = vec![in alloc; Relation::Equal; link.rows() as usize]?;
        Ok(Program {
            link,
            brick,
            lower,
            upper,
            right,
            costs,
            relations,
        })
    }
}

/// The first part whose shape does not fit those before it.
fn first_misshaped(parts: &Parts) -> Option<FileKind>
    ensures first { result ≡ misshaped parts.now }
    ensures even { IfNone result (AreEven parts.now) }
{
    let (r, t) = (parts.link.rows(), parts.link.cols());
    let (s, n) = (parts.brick.rows(), parts.lower.rows());
    if !in_shape(&parts.link, 0, 16, 1, 32) {
        return Some(FileKind::Link);
    }
    if !in_shape(&parts.brick, 0, 16, t, t) {
        return Some(FileKind::Brick);
    }
    if !in_shape(&parts.lower, 1, 10_000, t, t) {
        return Some(FileKind::Lower);
    }
    if !in_shape(&parts.upper, n, n, t, t) {
        return Some(FileKind::Upper);
    }
    let wide = r + n * s;
    if !in_shape(&parts.right, 1, 1, wide, wide) {
        return Some(FileKind::Right);
    }
    if parts.costs.len() as u64 != u64::from(n * t) {
        return Some(FileKind::Costs);
    }
    None
}

/// Whether the numbers of rows and of columns are in these ranges.
fn in_shape(matrix: &Matrix, rows_from: u32, rows_to: u32, cols_from: u32, cols_to: u32) -> bool
    ensures test { result ≡ is_in_shape rows_from rows_to cols_from cols_to matrix.now }
    ensures even { IsEven matrix.now }
{
    let (rows, cols) = (matrix.rows(), matrix.cols());
    rows_from <= rows && rows <= rows_to && cols_from <= cols && cols <= cols_to
}

/// A brick and a column of it, both from 1.
struct Place {
    brick: u32,
    col: u32,
}

impl Place {
    /// The brick and column of an entry, by its place from 0 among all entries.
    fn of(at: usize, cols: u32) -> Place
        requires cols { 0 < cols }
        requires few { at < 2 ^ 31 }
        ensures brick { result.brick ≡ at / cols + 1 }
        ensures col { result.col ≡ at % cols + 1 }
    {
        let cols = cols as usize;
        Place {
            brick: (at / cols) as u32 + 1,
            col: (at % cols) as u32 + 1,
        }
    }
}

/// The first place, from 0, at which the lower bound is above the upper one.
fn first_crossed(lower: &[i64], upper: &[i64]) -> Option<usize>
    requires { length lower.now ≡ length upper.now }
    ensures inside { IfSome result (λ at. at < length lower.now) }
    ensures first { IfSome result (IsFirstCrossed lower.now upper.now) }
    ensures none { IfNone result (AllZip ◌≤ℤ◌ lower.now upper.now) }
{
    for (at, low) in lower.iter().enumerate() {
        if upper[at] < *low {
            return Some(at);
        }
    }
    None
}

/// Each cost with its bounds, or the first that is refused.
fn bound_costs(
    alloc: Global,
    cols: u32,
    costs: Vec<Cost>,
    lower: &[i64],
    upper: &[i64],
) -> Result<Vec<BoundCost>, ProgramFault>
    requires cols { 0 < cols }
    requires lowers { length lower.now ≡ length costs.items }
    requires uppers { length upper.now ≡ length costs.items }
    requires few { length costs.items < 2 ^ 31 }
    requires numbers { All AreBounded costs.items }
    requires low { IsBoundedRow lower.now }
    requires high { IsBoundedRow upper.now }
    requires order { AllZip ◌≤ℤ◌ lower.now upper.now }
    ensures bound { IfOk result (λ cs. AreBoundCosts costs.items lower.now upper.now cs.items) }
    ensures refused { IfErr result (IsCostRefusal cols costs.items lower.now upper.now) }
{
    let mut bound = Vec::new(alloc);
    for cost in costs {
        let at = bound.len();
        match BoundCost::new(cost, lower[at], upper[at]) {
            Ok(cost) => {
                if bound.push(cost).is_err() {
                    return Err(ProgramFault::Memory);
                }
            }
            Err(fault) => {
                let Place { brick, col } = Place::of(at, cols);
                return Err(ProgramFault::Cost { brick, col, fault });
            }
        }
    }
    Ok(bound)
}

/// The sum of the magnitudes, or the largest number where it is larger.
fn total_magnitude(costs: &[BoundCost]) -> u128
    ensures { result ≡ min (sum_by cost_magnitude costs.now) (2 ^ 128 - 1) }
{
    let mut total: u128 = 0;
    for cost in costs {
        total = total.saturating_add(cost.magnitude());
    }
    total
}
