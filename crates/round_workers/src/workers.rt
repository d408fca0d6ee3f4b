//! One worker.

ghost use Rattle.std.specs.Prelude.{◌≡◌, ℕ, ◌<◌, [], ◌∷◌, ◌++◌, length, All, Option, Some, None};
ghost use Rattle.std.specs.Prelude.{IfOk, IfSome, IfNone, IsTrue};
ghost use Rattle.run_theory.specs.Outcomes as outcomes;
ghost use Rattle.run_theory.specs.Bests.{NoneOfLength};
ghost use Rattle.round_core.specs.declared.parts.Fate.TheVariants.{Open, Offered, Beaten};
ghost use Rattle.round_core.specs.declared.parts.Stand.TheVariants.{Working};
ghost use Rattle.brick_dp.specs.Answers.{IsStepAnswer};
ghost use Rattle.brick_dp.specs.declared.answers.StepAnswer.TheVariants as answers;
ghost use Rattle.board_laws.specs.Indexes.{gain_of, length_key, index_key, IsOutdone};
ghost use Rattle.board_laws.specs.Views.{HasFate, taking_view, finished_view, settling_view};
ghost use Rattle.round_workers.specs.Tasks.{IsTask, HasGains};
ghost use Rattle.round_workers.specs.Looks.{IsLater};
ghost use Rattle.round_workers.specs.Workers.{KnowsBest, IsReady, HasTried, IsDone};

use crate::looking::Looking;
use crate::task::Task;
use brick_dp::{Bound, Key, Moves, Step, StepAnswer};
use fold_shelf::Gate;
use incumbent::{Board, Gains, Seat};
use run_laws::where_length_one_gains_nothing_no_length_does;
use std::alloc::{AllocError, Global};
use std::marker::Model;

/// A worker: its number, its seat, the steps of the lengths that it offered, and whether it knows the point as a best
/// one, from which no step of any length lowers the phase cost.
#[derive(Drop)]
pub(crate) struct Worker<N: Gains> {
    pub(crate) number: u32,
    pub(crate) seat: Seat<N>,
    pub(crate) steps: Vec<Step>,
    pub(crate) at_best: bool,
}

impl<N: Gains> Model for Worker<N> {
    ghost use Rattle.round_workers.specs.Workers.{WorkerValue};

    ghost Value = { WorkerValue };

    ghost view = { λ w. record { held = w.seat; steps = w.steps.items; at_best = w.at_best } };
}

/// Claims lengths until none is left, and settles each.
pub(crate) fn work<N: Gains, G: Gate>(
    board: &Board<N>,
    alloc: Global,
    task: &Task<'_>,
    gate: &G,
    mut worker: Worker<N>,
) -> Result<Worker<N>, AllocError>
    requires task { IsTask task.now.fold.now task.now.point.now task.now.menus.now }
    requires gains { HasGains task.now.fold.now task.now.point.now N.gains }
    requires ready { IsReady task.now.fold.now task.now.point.now board.now worker }
    ensures { IfOk result (IsDone task.now.fold.now task.now.point.now worker) }
{
    while let Some(k) = claimed(board, &mut worker) {
        worker = tried(board, alloc, task, gate, worker, k)?;
    }
    Ok(worker)
}

/// Claims the next length; none where none is left.
fn claimed<N: Gains>(board: &Board<N>, worker: &mut Worker<N>) -> Option<u32>
    requires seat { worker.old.held.table ≡ board.now }
    requires working { worker.old.held.view.stand ≡ Working }
    ensures table { worker.new.held.table ≡ worker.old.held.table }
    ensures steps { worker.new.steps ≡ worker.old.steps }
    ensures at_best { worker.new.at_best ≡ worker.old.at_best }
    ensures length { IfSome result (λ k. k < length N.gains) }
    ensures claimed { IfSome result (λ k. worker.new.held.view ≡ taking_view worker.old.held.view k) }
    ensures rising { IfSome result (λ k. All (λ e. e.k < k) worker.old.held.view.owned) }
    ensures past { IfNone result (worker.new.held.view ≡ finished_view worker.old.held.view) }
{
    board.claim(&mut worker.seat)
}

/// Settles a length that the worker has just claimed: at a best point without a search.
fn tried<N: Gains, G: Gate>(
    board: &Board<N>,
    alloc: Global,
    task: &Task<'_>,
    gate: &G,
    worker: Worker<N>,
    k: u32,
) -> Result<Worker<N>, AllocError>
    requires task { IsTask task.now.fold.now task.now.point.now task.now.menus.now }
    requires gains { HasGains task.now.fold.now task.now.point.now N.gains }
    requires seat { worker.held.table ≡ board.now }
    requires fate { HasFate k Open worker.held.view.owned }
    requires length { k < length N.gains }
    requires best { KnowsBest task.now.fold.now task.now.point.now worker }
    ensures { IfOk result (HasTried task.now.fold.now task.now.point.now k worker) }
{
    if worker.at_best {
        return Ok(passed_over(board, gate, worker, k));
    }
    searched(board, alloc, task, gate, worker, k)
}

/// Settles a length without a search, where no step of it gains.
fn passed_over<N: Gains, G: Gate>(
    board: &Board<N>,
    gate: &G,
    worker: Worker<N>,
    k: u32,
) -> Worker<N>
    requires seat { worker.held.table ≡ board.now }
    requires fate { HasFate k Open worker.held.view.owned }
    requires none { gain_of N.gains k ≡ None }
    ensures table { result.held.table ≡ worker.held.table }
    ensures beaten { result.held.view ≡ settling_view worker.held.view k Beaten result.held.view.seen }
    ensures steps { result.steps ≡ worker.steps }
    ensures at_best { result.at_best ≡ worker.at_best }
{
    let Worker {
        number,
        mut seat,
        steps,
        at_best,
    } = worker;
    gate.pass(number, k);
    gate.done(number, k, 0);
    board.settle(&mut seat, k);
    Worker {
        number,
        seat,
        steps,
        at_best,
    }
}

/// Seeks the best step of a length, and offers it where it may be the best of all.
fn searched<N: Gains, G: Gate>(
    board: &Board<N>,
    alloc: Global,
    task: &Task<'_>,
    gate: &G,
    worker: Worker<N>,
    k: u32,
) -> Result<Worker<N>, AllocError>
    requires task { IsTask task.now.fold.now task.now.point.now task.now.menus.now }
    requires gains { HasGains task.now.fold.now task.now.point.now N.gains }
    requires seat { worker.held.table ≡ board.now }
    requires fate { HasFate k Open worker.held.view.owned }
    requires length { k < length N.gains }
    ensures { IfOk result (HasTried task.now.fold.now task.now.point.now k worker) }
{
    let Worker {
        number,
        seat,
        steps,
        at_best: _,
    } = worker;
    gate.pass(number, k);
    let mut bound = Looking { board, seat };
    let mut moves = Moves::new();
    let answer = task
        .menus
        .best_step(alloc, task.fold, task.point, k, &mut bound, &mut moves)?;
    let at_best = shows_best(task, &mut bound, k, &answer);
    let Looking { board: _, seat } = bound;
    gate.done(number, k, moves.count());
    let (seat, step) = reported(board, seat, k, answer);
    let steps = with_step(steps, step)?;
    Ok(Worker {
        number,
        seat,
        steps,
        at_best,
    })
}

/// Whether the answer for a length shows a best point: length 1 is beaten, and by no key.
fn shows_best<N: Gains>(
    task: &Task<'_>,
    bound: &mut Looking<'_, N>,
    k: u32,
    answer: &StepAnswer,
) -> bool
    requires task { IsTask task.now.fold.now task.now.point.now task.now.menus.now }
    requires answer { IsStepAnswer task.now.fold.now task.now.point.now k (index_key N.gains bound.old.seat.view.seen)
        answer.now }
    ensures later { IsLater N.gains bound.old.seat bound.new.seat }
    ensures best { IsTrue result → (j : ℕ) → NoneOfLength task.now.fold.now task.now.point.now j }
{
    where_length_one_gains_nothing_no_length_does();
    let _ = task.fold.program().n();
    let key = bound.now();
    k == 0 && matches!(answer, StepAnswer::Beaten) && key.is_none()
}

/// Offers the step that was found, and gives it back where it became the best one; else the length is beaten.
fn reported<N: Gains>(
    board: &Board<N>,
    mut seat: Seat<N>,
    k: u32,
    answer: StepAnswer,
) -> (Seat<N>, Option<Step>)
    requires seat { seat.table ≡ board.now }
    requires fate { HasFate k Open seat.view.owned }
    requires key { (s : outcomes.Step) → answer ≡ answers.Found s →
        length_key N.gains k ≡ Some (record { gain = s.gain; k = k }) }
    requires outdone { answer ≡ answers.Beaten → IsOutdone N.gains k (index_key N.gains seat.view.seen) }
    ensures table { result.0.table ≡ seat.table }
    ensures offered { IfSome result.1 (λ s. (answer ≡ answers.Found s)
        × (result.0.view ≡ settling_view seat.view k Offered result.0.view.seen)) }
    ensures beaten { IfNone result.1 (result.0.view ≡ settling_view seat.view k Beaten result.0.view.seen) }
{
    match answer {
        StepAnswer::Found(step) => {
            let key = Key { gain: step.gain, k };
            if board.offer(&mut seat, key) {
                (seat, Some(step))
            } else {
                (seat, None)
            }
        }
        StepAnswer::Beaten => {
            board.settle(&mut seat, k);
            (seat, None)
        }
    }
}

/// The steps, with one more where there is one.
fn with_step(mut steps: Vec<Step>, step: Option<Step>) -> Result<Vec<Step>, AllocError>
    ensures one { IfSome step (λ s. IfOk result (λ v. v.items ≡ steps.items ++ s ∷ [])) }
    ensures none { IfNone step (IfOk result (λ v. v.items ≡ steps.items)) }
{
    if let Some(step) = step {
        steps.push(step)?;
    }
    Ok(steps)
}
