//! The workers of a round.

ghost use Rattle.std.specs.Prelude.{◌≡◌, ◌≢◌, ℕ, ◌<◌, ◌≤◌, ◌++◌, length, All, Ok, IfOk, OnOk, map, slice_index_or};
ghost use Rattle.board_laws.specs.Views.{opening_view, joined_view};
ghost use Rattle.board_laws.specs.Closing.{MayClose};
ghost use Rattle.round_core.specs.declared.parts.Stand.TheVariants.{Finished};
ghost use Rattle.round_workers.specs.Tasks.{IsTask, HasGains};
ghost use Rattle.round_workers.specs.Workers.{WorkerValue, Keeps, IsReady, IsDone, IsSplitOff, IsOpening, IsTeam};

use crate::task::Task;
use crate::workers::{Worker, work};
use fold_shelf::Gate;
use incumbent::{Board, Gains, Seat};
use std::alloc::{AllocError, Global};
use std::thread;
use std::thread::Threads;

/// So many workers: those that were split off, numbered from 1, and then the opening one, whose number is 0.
pub(crate) fn team<N: Gains>(
    board: &Board<N>,
    alloc: Global,
    task: &Task<'_>,
    mut opening: Seat<N>,
    workers: u32,
) -> Result<Vec<Worker<N>>, AllocError>
    requires least { 1 ≤ workers }
    requires most { workers ≤ 16 }
    requires table { opening.table ≡ board.now }
    requires view { opening.view ≡ opening_view }
    ensures ready { IfOk result (λ v. All (IsReady task.now.fold.now task.now.point.now board.now) v.items) }
    ensures team { IfOk result (λ v. IsTeam task.now.fold.now task.now.point.now board.now v.items) }
{
    let mut all = Vec::with_capacity(alloc, workers as usize)?;
    let mut made = 1;
    while made < workers {
        let seat = board.split(&mut opening);
        all.push(Worker {
            number: made,
            seat,
            steps: Vec::new(alloc),
            at_best: false,
        })?;
        made += 1;
    }
    all.push(Worker {
        number: 0,
        seat: opening,
        steps: Vec::new(alloc),
        at_best: false,
    })?;
    Ok(all)
}

/// All workers at work side by side.
pub(crate) fn walked<N: Gains + Send + Sync, R: Threads + Sync, G: Gate>(
    rt: &R,
    board: &Board<N>,
    alloc: Global,
    task: &Task<'_>,
    gate: &G,
    workers: Vec<Worker<N>>,
) -> Result<Vec<Result<Worker<N>, AllocError>>, AllocError>
    requires task { IsTask task.now.fold.now task.now.point.now task.now.menus.now }
    requires gains { HasGains task.now.fold.now task.now.point.now N.gains }
    requires ready { All (IsReady task.now.fold.now task.now.point.now board.now) workers.items }
    ensures count { IfOk result (λ v. length v.items ≡ length workers.items) }
    ensures each { IfOk result (λ v. (i : ℕ) (d : WorkerValue) (e : _) → i < length workers.items →
        IfOk (slice_index_or v.items i e)
        (IsDone task.now.fold.now task.now.point.now (slice_index_or workers.items i d))) }
{
    thread::map_vec(
        rt,
        workers,
        &|worker: Worker<N>| -> Result<Worker<N>, AllocError>
            requires task { IsTask task.now.fold.now task.now.point.now task.now.menus.now }
            requires gains { HasGains task.now.fold.now task.now.point.now N.gains }
            requires ready { IsReady task.now.fold.now task.now.point.now board.now worker }
            ensures { IfOk result (IsDone task.entry.now.fold.now task.entry.now.point.now worker) }
        { work(board, alloc, task, gate, worker) },
    )
}

/// The workers, unless one of them found no memory.
pub(crate) fn all_done<N: Gains>(
    alloc: Global,
    done: Vec<Result<Worker<N>, AllocError>>,
) -> Result<Vec<Worker<N>>, AllocError>
    ensures { IfOk result (λ v. map Ok v.items ≡ done.items) }
{
    let mut workers = Vec::with_capacity(alloc, done.len())?;
    for worker in done {
        workers.push(worker?)?;
    }
    Ok(workers)
}

/// The opening worker takes in the others, with their steps.
pub(crate) fn joined<N: Gains>(
    board: &Board<N>,
    task: &Task<'_>,
    mut opening: Worker<N>,
    mut others: Vec<Worker<N>>,
) -> Result<Worker<N>, AllocError>
    requires opening { IsOpening task.now.fold.now task.now.point.now board.now (length others.items) opening }
    requires finished { opening.held.view.stand ≡ Finished }
    requires others { All (IsSplitOff task.now.fold.now task.now.point.now board.now) others.items }
    ensures table { IfOk result (λ w. w.held.table ≡ board.now) }
    ensures keeps { IfOk result (Keeps task.now.fold.now task.now.point.now) }
    ensures may { IfOk result (λ w. MayClose N.gains w.held.view) }
{
    while let Some(other) = others.pop() {
        take_in(board, &mut opening, other)?;
    }
    Ok(opening)
}

/// One worker takes in another one, with its steps.
fn take_in<N: Gains>(
    board: &Board<N>,
    worker: &mut Worker<N>,
    other: Worker<N>,
) -> Result<(), AllocError>
    requires seat { worker.old.held.table ≡ board.now }
    requires other { other.held.table ≡ board.now }
    requires split_off { other.held.view.number ≢ 0 }
    ensures table { OnOk result (worker.new.held.table ≡ worker.old.held.table) }
    ensures view { OnOk result (worker.new.held.view ≡ joined_view N.gains worker.old.held.view other.held.view) }
    ensures steps { OnOk result (worker.new.steps ≡ worker.old.steps ++ other.steps) }
{
    let Worker {
        number: _,
        seat,
        mut steps,
        at_best: _,
    } = other;
    board.join(&mut worker.seat, seat);
    worker.steps.append(&mut steps)
}
