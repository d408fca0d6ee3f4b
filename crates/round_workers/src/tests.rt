//! Rounds at points whose best steps were worked by hand, some with gates that put the workers in order.

ghost use Rattle.std.specs.Prelude.{◌≡◌, ◌≤◌, pos, length, All, IfOk};
ghost use Rattle.lattice_theory.specs.BasisLimits.{IsNarrow};
ghost use Rattle.lattice_theory.specs.SignedSums.{vectors};
ghost use Rattle.fold_theory.specs.declared.Cost.TheVariants.{Quadratic, Points};
ghost use Rattle.fold_theory.specs.declared.Phase.TheVariants.{Closed};
ghost use Rattle.lattice_theory.specs.Vectors.{IsBoundedRow};
ghost use Rattle.run_theory.specs.Folds.{IsSmallImage, HasBrickSums};

use crate::{Gate, RunMenus, Step, Task, round};
use brick_dp::{Bound, Fold, Key, Moves, NoBound, StepAnswer, best_step};
use brick_sums::{Sums, sums};
use fold_program::{Breakpoint, Breakpoints, Cost, Parts, Phase, Point, Program};
use fold_shelf::OpenGate;
use graver_complexity::{complexity, kernel_generators, link_matrix};
use mat_files::Matrix;
use pottier::{kernel, slack_basis};
use std::alloc::{AllocError, Global};
use std::rt::HostRuntime;
use std::sync::atomic::{AtomicU64, Ordering};
use std::test::Fail;
use std::thread::Threads;
use step_lengths::count;
use sum_laws::brick_sums_make_a_fold;

// ---- programs

/// One row with these two entries.
fn row(alloc: Global, entries: [i64; 2]) -> Result<Matrix, AllocError>
    requires { IsNarrow entries }
    ensures { IfOk result (λ m. All IsNarrow m.rows) }
{
    Ok(Matrix::new(1, 2, entries.to_vec(alloc)?))
}

/// The bounds of one brick.
fn bounds_of_one(alloc: Global, entries: [i64; 2]) -> Result<Matrix, AllocError>
    requires { IsBoundedRow entries }
    ensures { IfOk result (λ m. All IsBoundedRow m.rows) }
{
    Ok(Matrix::new(1, 2, entries.to_vec(alloc)?))
}

/// The bounds of two bricks.
fn bounds_of_two(alloc: Global, entries: [i64; 4]) -> Result<Matrix, AllocError>
    requires { IsBoundedRow entries }
    ensures { IfOk result (λ m. All IsBoundedRow m.rows) }
{
    Ok(Matrix::new(2, 2, entries.to_vec(alloc)?))
}

/// The right side of one brick.
fn right_of_one(alloc: Global, entries: [i64; 1]) -> Result<Matrix, AllocError>
    requires { IsBoundedRow entries }
    ensures { IfOk result (λ m. All IsBoundedRow m.rows) }
{
    Ok(Matrix::new(1, 1, entries.to_vec(alloc)?))
}

/// The right sides, of the linking row and of two bricks.
fn rights_of_two(alloc: Global, entries: [i64; 3]) -> Result<Matrix, AllocError>
    requires { IsBoundedRow entries }
    ensures { IfOk result (λ m. All IsBoundedRow m.rows) }
{
    Ok(Matrix::new(1, 3, entries.to_vec(alloc)?))
}

/// The square of a number.
fn square() -> Cost
    ensures { result ≡ Quadratic (pos 1) (pos 0) (pos 0) }
{
    Cost::Quadratic { a: 1, b: 0, c: 0 }
}

/// No cost at all.
fn free() -> Cost
    ensures { result ≡ Quadratic (pos 0) (pos 0) (pos 0) }
{
    Cost::Quadratic { a: 0, b: 0, c: 0 }
}

fn at(at: i64, value: i64) -> Breakpoint
    ensures { result ≡ record { at = at; value = value } }
{
    Breakpoint { at, value }
}

fn lines(points: Vec<Breakpoint>) -> Cost
    ensures { result ≡ Points points.items }
{
    Cost::Points(Breakpoints::from_vec(points))
}

/// Two bricks of two columns from 0 to 4 that add up to 4. The first columns add up to 3, and cost their squares.
fn two_bricks(alloc: Global) -> Result<Program, Fail> {
    let parts = Parts {
        link: row(alloc, [1, 0])?,
        brick: row(alloc, [1, 1])?,
        lower: bounds_of_two(alloc, [0; 4])?,
        upper: bounds_of_two(alloc, [4; 4])?,
        right: rights_of_two(alloc, [3, 4, 4])?,
        costs: vec![in alloc; square(), free(), square(), free()]?,
    };
    Ok(Program::new(alloc, parts)?)
}

/// One brick of two columns from 0 to 4 that add up to 4, and no linking row. The first column costs 4, 0, 10, 20 and
/// 30 at 0, 1, 2, 3 and 4.
fn one_brick(alloc: Global) -> Result<Program, Fail> {
    let cost = lines(vec![in alloc; at(0, 4), at(1, 0), at(2, 10), at(4, 30)]?);
    let parts = Parts {
        link: Matrix::new(0, 2, Vec::new(alloc)),
        brick: row(alloc, [1, 1])?,
        lower: bounds_of_one(alloc, [0; 2])?,
        upper: bounds_of_one(alloc, [4; 2])?,
        right: right_of_one(alloc, [4])?,
        costs: vec![in alloc; cost, free()]?,
    };
    Ok(Program::new(alloc, parts)?)
}

// ---- rounds

/// The brick sums of a program in phase Closed.
fn closed_sums(alloc: Global, program: &Program) -> Result<Sums, Fail>
    ensures sums { IfOk result (λ s. HasBrickSums (record { program = program.now; phase = Closed; sums = s })) }
    ensures widths { IfOk result (λ s. All (λ w. length w ≡ program.now.brick.cols) (vectors s)) }
    ensures images { IfOk result (λ s. All (IsSmallImage program.now) (vectors s)) }
{
    prove!(program.t() <= 32 && program.s() <= 16 && program.r() <= 16);
    let bricks = slack_basis(alloc, program.brick(), 2000)?;
    let kernel = kernel(alloc, &bricks)?;
    let links = link_matrix(alloc, program.link(), &kernel)?;
    if links.cols() > 2000 || links.rows() as usize != program.relations().len() {
        return Err("no such link matrix".into());
    }
    let basis = slack_basis(alloc, &links, 2000)?;
    let bound = complexity(&basis, &links, Phase::Closed, program.relations());
    kernel_generators();
    brick_sums_make_a_fold();
    Ok(sums(alloc, &kernel, bound, 20000)?)
}

/// The step of a round from a feasible point, in phase Closed.
fn step_from<R: Threads + Sync, G: Gate>(
    rt: &R,
    alloc: Global,
    program: &Program,
    entries: Vec<i64>,
    workers: u32,
    gate: &G,
) -> Result<Option<Step>, Fail>
    requires least { 1 ≤ workers }
    requires most { workers ≤ 16 }
{
    let Some(point) = Point::new(program, entries) else {
        return Err("not a point".into());
    };
    let None = program.broken(&point) else {
        return Err("not feasible".into());
    };
    let sums = closed_sums(alloc, program)?;
    let Some(fold) = Fold::new(program, &sums, Phase::Closed) else {
        return Err("too large".into());
    };
    let menus = RunMenus::new(alloc, &fold, &point)?;
    let task = Task {
        fold: &fold,
        point: &point,
        menus: &menus,
    };
    Ok(round(rt, alloc, &task, workers, gate)?)
}

/// Whether the round finds the step of length 1 that takes from the first column of brick 2 what it adds to that of
/// brick 1.
fn evens_two_bricks<R: Threads + Sync, G: Gate>(
    rt: &R,
    alloc: Global,
    workers: u32,
    gate: &G,
) -> Result<bool, Fail>
    requires least { 1 ≤ workers }
    requires most { workers ≤ 16 }
{
    let program = two_bricks(alloc)?;
    let entries = [0, 4, 3, 1].to_vec(alloc)?;
    let step = step_from(rt, alloc, &program, entries, workers, gate)?.ok_or("no step")?;
    Ok(
        step.k == 0
            && step.gain == 4
            && step.bricks.as_slice() == [1, 2].as_slice()
            && step.entries.as_slice() == [1, -1, -1, 1].as_slice(),
    )
}

/// Whether the round finds the step of length 1 that takes 1 from the first column of the one brick.
fn lowers_one_brick<R: Threads + Sync, G: Gate>(
    rt: &R,
    alloc: Global,
    workers: u32,
    gate: &G,
) -> Result<bool, Fail>
    requires least { 1 ≤ workers }
    requires most { workers ≤ 16 }
{
    let program = one_brick(alloc)?;
    let entries = [2, 2].to_vec(alloc)?;
    let step = step_from(rt, alloc, &program, entries, workers, gate)?.ok_or("no step")?;
    Ok(
        step.k == 0
            && step.gain == 10
            && step.bricks.as_slice() == [1].as_slice()
            && step.entries.as_slice() == [-1, 1].as_slice(),
    )
}

#[test]
fn any_number_of_workers_finds_the_rules_step(rt: HostRuntime) -> Result<(), Fail> {
    assert!(rt; evens_two_bricks(&rt, rt.alloc(), 1, &OpenGate)?);
    assert!(rt; evens_two_bricks(&rt, rt.alloc(), 2, &OpenGate)?);
    assert!(rt; evens_two_bricks(&rt, rt.alloc(), 3, &OpenGate)?);
    assert!(rt; evens_two_bricks(&rt, rt.alloc(), 16, &OpenGate)?);
    Ok(())
}

#[test]
fn a_best_point_has_no_step(rt: HostRuntime) -> Result<(), Fail> {
    let alloc = rt.alloc();
    let program = two_bricks(alloc)?;
    let entries = [1, 3, 2, 2].to_vec(alloc)?;
    assert!(rt; step_from(&rt, alloc, &program, entries, 2, &OpenGate)?.is_none());
    Ok(())
}

// ---- gates

/// How often a gate looks before it gives up.
const TURNS: u32 = 100_000_000;

/// Whether a count has reached a number before the gate gives up.
fn reaches(count: &AtomicU64, number: u64) -> bool {
    for _ in 0..TURNS {
        if count.load(Ordering::SeqCst) >= number {
            return true;
        }
    }
    false
}

/// A gate that holds one of two workers at its first pass until the other one has passed twice.
#[derive(Drop)]
struct HoldsWorker {
    worker: u32,
    own: AtomicU64,
    other: AtomicU64,
    gave_up: AtomicU64,
}

impl HoldsWorker {
    fn new(worker: u32) -> HoldsWorker {
        HoldsWorker {
            worker,
            own: AtomicU64::new(0),
            other: AtomicU64::new(0),
            gave_up: AtomicU64::new(0),
        }
    }
}

impl Gate for HoldsWorker {
    fn pass(&self, worker: u32, _length: u32) {
        if worker != self.worker {
            self.other.fetch_add(1, Ordering::SeqCst);
        } else if self.own.fetch_add(1, Ordering::SeqCst) == 0 && !reaches(&self.other, 2) {
            self.gave_up.fetch_add(1, Ordering::SeqCst);
        }
    }

    fn done(&self, _worker: u32, _length: u32, _moves: u64) {}
}

/// Whether two workers find the step, while one of them waits until the other has passed twice.
fn waits_for_the_other<R: Threads + Sync>(
    rt: &R,
    alloc: Global,
    worker: u32,
) -> Result<bool, Fail> {
    let gate = HoldsWorker::new(worker);
    let finds = evens_two_bricks(rt, alloc, 2, &gate)?;
    Ok(finds && gate.gave_up.load(Ordering::SeqCst) == 0)
}

#[test]
fn gate_two_workers(rt: HostRuntime) -> Result<(), Fail> {
    assert!(rt; waits_for_the_other(&rt, rt.alloc(), 0)?);
    assert!(rt; waits_for_the_other(&rt, rt.alloc(), 1)?);
    Ok(())
}

/// A gate over three lengths that keeps how many moves were tried for each, and where it holds, lets a worker go on
/// with a length only once one has passed with the next length.
#[derive(Drop)]
struct HoldsLengths {
    holds: bool,
    passes: [AtomicU64; 3],
    moves: [AtomicU64; 3],
    gave_up: AtomicU64,
}

impl HoldsLengths {
    fn new(holds: bool) -> HoldsLengths {
        HoldsLengths {
            holds,
            passes: [AtomicU64::new(0), AtomicU64::new(0), AtomicU64::new(0)],
            moves: [AtomicU64::new(0), AtomicU64::new(0), AtomicU64::new(0)],
            gave_up: AtomicU64::new(0),
        }
    }

    /// How often a worker passed with the length with this index.
    fn passed(&self, length: usize) -> u64
        requires { length ≤ 2 }
    {
        self.passes[length].load(Ordering::SeqCst)
    }

    /// How many moves were tried for the length with this index.
    fn tried(&self, length: usize) -> u64
        requires { length ≤ 2 }
    {
        self.moves[length].load(Ordering::SeqCst)
    }
}

impl Gate for HoldsLengths {
    fn pass(&self, _worker: u32, length: u32) {
        if let Some(passes) = self.passes.get(length as usize) {
            passes.fetch_add(1, Ordering::SeqCst);
        }
        if let Some(next) = self.passes.get(length as usize + 1) {
            if self.holds && !reaches(next, 1) {
                self.gave_up.fetch_add(1, Ordering::SeqCst);
            }
        }
    }

    fn done(&self, _worker: u32, length: u32, moves: u64) {
        if let Some(tried) = self.moves.get(length as usize) {
            tried.fetch_add(moves, Ordering::SeqCst);
        }
    }
}

/// Whether so many workers find the step at a gate, and it never gave up.
fn finds_at<R: Threads + Sync>(
    rt: &R,
    alloc: Global,
    workers: u32,
    gate: &HoldsLengths,
) -> Result<bool, Fail>
    requires least { 1 ≤ workers }
    requires most { workers ≤ 16 }
{
    let finds = lowers_one_brick(rt, alloc, workers, gate)?;
    Ok(finds && gate.gave_up.load(Ordering::SeqCst) == 0)
}

#[test]
fn a_step_that_was_offered_spares_the_other_lengths(rt: HostRuntime) -> Result<(), Fail> {
    let alone = HoldsLengths::new(false);
    assert!(rt; finds_at(&rt, rt.alloc(), 1, &alone)?);
    assert!(rt; 1 <= alone.tried(0) && alone.tried(0) <= 9);
    assert_eq!(rt; alone.tried(1), 0);
    assert_eq!(rt; alone.tried(2), 0);
    let beside = HoldsLengths::new(true);
    assert!(rt; finds_at(&rt, rt.alloc(), 2, &beside)?);
    assert_eq!(rt; beside.tried(1), 0);
    Ok(())
}

#[test]
fn one_worker_knows_a_best_point_by_length_one(rt: HostRuntime) -> Result<(), Fail> {
    let alloc = rt.alloc();
    let gate = HoldsLengths::new(false);
    let program = two_bricks(alloc)?;
    let entries = [1, 3, 2, 2].to_vec(alloc)?;
    assert!(rt; step_from(&rt, alloc, &program, entries, 1, &gate)?.is_none());
    assert!(rt; 1 <= gate.tried(0));
    for length in [1, 2] {
        assert_eq!(rt; gate.passed(length), 1, "at {length}");
        assert_eq!(rt; gate.tried(length), 0, "at {length}");
    }
    Ok(())
}

// ---- how many moves the search for a step of one length tries

/// A bound that answers none so often, and from then on a gain of 9 at length 1.
#[derive(Debug, Drop)]
struct NineAfter {
    nones: u32,
    is_told: bool,
}

impl Bound for NineAfter {
    ghost use Rattle.std.specs.Prelude.{cond, Some, None};

    ghost last = { λ b. cond b.is_told (Some (record { gain = 9; k = 0 })) None };

    ghost later = { λ a b. Unit {0} };

    ghost stays = { λ b. tt };

    ghost goes_on = { λ a b c before after. tt };

    fn now(&mut self) -> Option<Key> {
        if self.nones > 0 {
            self.nones -= 1;
        } else {
            self.is_told = true;
        }
        if self.is_told {
            Some(Key { gain: 9, k: 0 })
        } else {
            None
        }
    }
}

/// The answer for length 2 from a point of the two bricks at which the first columns cost 9, and how many moves were
/// tried.
fn seeks_a_double_step<B: Bound>(alloc: Global, bound: &mut B) -> Result<(StepAnswer, u64), Fail> {
    let program = two_bricks(alloc)?;
    let entries = [0, 4, 3, 1].to_vec(alloc)?;
    let Some(point) = Point::new(&program, entries) else {
        return Err("not a point".into());
    };
    let None = program.broken(&point) else {
        return Err("not feasible".into());
    };
    let sums = closed_sums(alloc, &program)?;
    let Some(fold) = Fold::new(&program, &sums, Phase::Closed) else {
        return Err("too large".into());
    };
    if count(program.widest()) <= 1 {
        return Err("no such length".into());
    }
    let mut moves = Moves::new();
    let answer = best_step(alloc, &fold, &point, 1, bound, &mut moves)?;
    Ok((answer, moves.count()))
}

#[test]
fn without_a_bound_moves_lead_to_two_live_nodes(rt: HostRuntime) -> Result<(), Fail> {
    let (answer, moves) = seeks_a_double_step(rt.alloc(), &mut NoBound)?;
    let StepAnswer::Found(step) = answer else {
        return Err("no step".into());
    };
    assert_eq!(rt; step.gain, 4);
    assert_eq!(rt; step.entries.as_slice(), [1, -1, -1, 1].as_slice());
    assert!(rt; 1 <= moves && moves <= 10);
    Ok(())
}

#[test]
fn a_bound_that_is_asked_again_ends_the_search(rt: HostRuntime) -> Result<(), Fail> {
    let mut bound = NineAfter {
        nones: 1,
        is_told: false,
    };
    let (answer, moves) = seeks_a_double_step(rt.alloc(), &mut bound)?;
    assert!(rt; matches!(answer, StepAnswer::Beaten));
    assert!(rt; moves <= 5);
    Ok(())
}

#[test]
fn a_bound_that_was_known_spares_each_move(rt: HostRuntime) -> Result<(), Fail> {
    let mut bound = NineAfter {
        nones: 0,
        is_told: false,
    };
    bound.now();
    let (answer, moves) = seeks_a_double_step(rt.alloc(), &mut bound)?;
    assert!(rt; matches!(answer, StepAnswer::Beaten));
    assert_eq!(rt; moves, 0);
    Ok(())
}
