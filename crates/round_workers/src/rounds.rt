//! The whole round.

ghost use Rattle.std.specs.Prelude.{◌≡◌, ◌≢◌, ◌≤◌, All, Contains, IfOk, IfSome, IfNone};
ghost use Rattle.run_theory.specs.Bests.{IsRuleStep};
ghost use Rattle.round_workers.specs.Tasks.{IsTask, HasGains};

use crate::task::Task;
use crate::teams::{all_done, joined, team, walked};
use crate::workers::Worker;
use brick_dp::Step;
use fold_shelf::Gate;
use incumbent::{Board, Gains};
use std::alloc::{AllocError, Global};
use std::marker::Brand;
use std::thread::Threads;
use step_lengths::count;

/// The rule's step from the task's point, sought by 1 to 16 workers: of all steps that lower the phase cost the one
/// with the least cost after it, then the least length, then the least move. None where no step lowers it.
///
/// Each worker passes the gate before it works on a length, and again once it knows the best step of this length. An
/// error comes only where memory runs out. The step does not depend on the number of workers, nor on the gate.
pub fn round<R: Threads + Sync, G: Gate>(
    rt: &R,
    alloc: Global,
    task: &Task<'_>,
    workers: u32,
    gate: &G,
) -> Result<Option<Step>, AllocError>
    requires task { IsTask task.now.fold.now task.now.point.now task.now.menus.now }
    requires least { 1 ≤ workers }
    requires most { workers ≤ 16 }
    ensures { IfOk result (IsRuleStep task.now.fold.now task.now.point.now) }
{
    round_in::<Brand, R, G>(rt, alloc, task, workers, gate)
}

/// The round whose gains are `N`'s.
fn round_in<N: Gains + Send + Sync, R: Threads + Sync, G: Gate>(
    rt: &R,
    alloc: Global,
    task: &Task<'_>,
    workers: u32,
    gate: &G,
) -> Result<Option<Step>, AllocError>
    requires task { IsTask task.now.fold.now task.now.point.now task.now.menus.now }
    requires gains { HasGains task.now.fold.now task.now.point.now N.gains }
    requires least { 1 ≤ workers }
    requires most { workers ≤ 16 }
    ensures { IfOk result (IsRuleStep task.now.fold.now task.now.point.now) }
{
    let lengths = count(task.fold.program().widest());
    let (board, opening) = Board::<N>::new(alloc, lengths)?;
    let workers = team(&board, alloc, task, opening, workers)?;
    let done = walked(rt, &board, alloc, task, gate, workers)?;
    let mut done = all_done(alloc, done)?;
    let Some(opening) = done.pop() else {
        unreachable!()
    };
    let Worker { seat, steps, .. } = joined(&board, task, opening, done)?;
    let Some(best) = board.close(seat) else {
        return Ok(None);
    };
    Ok(step_of(steps, best))
}

/// The step of this length, where it is among these.
fn step_of(mut steps: Vec<Step>, k: u32) -> Option<Step>
    ensures found { IfSome result (λ s. Contains steps.items s × (s.k ≡ k)) }
    ensures none { IfNone result (All (λ s. s.k ≢ k) steps.items) }
{
    while let Some(step) = steps.pop() {
        if step.k == k {
            return Some(step);
        }
    }
    None
}
