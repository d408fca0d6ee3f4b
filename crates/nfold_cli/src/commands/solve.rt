//! `solve P [--workers W] [--max-basis B] [--max-sums Q] [--rel] [--trace]`: the outcome of a program, and its
//! certificate.

ghost use Rattle.std.specs.Prelude.{◌≡◌, ◌≢◌, IfOk, Some};
ghost use Rattle.fold_shelf.specs.Outside.{OnlyReads};
ghost use Rattle.run_theory.specs.declared.SolveFault.TheVariants.{Memory};
ghost use Rattle.nfold_cli.specs.Words.{SolveForm, HasSolveLimits, IsWorkerCount};
ghost use Rattle.nfold_cli.specs.SolveCommand.{limit_ending, solved_ending, IsSolveEnding, IsTrueSolve};
ghost use Rattle.nfold_cli.specs.SolvedTexts.{HasShortSteps, solved_outcome};
ghost use Rattle.nfold_cli.specs.Answers.{IsAnswer};

use crate::answer::{Answer, StoredFile};
use crate::refusals::refusal;
use crate::run_texts::limit_text;
use crate::solved_texts::solved_text;
use crate::status::Status;
use crate::words::SolveOptions;
use augment_run::{Settings, SolveFault, Solved, solve};
use certificate::print;
use fold_files::{file_name, read_program};
use fold_program::{FileKind, Program};
use fold_shelf::{Gate, Shelf};
use std::alloc::{AllocError, Global};
use std::thread::Threads;

/// The answer to `solve`.
pub(crate) fn answer_solve<R: Threads + Sync, S: Shelf, G: Gate>(
    rt: &R,
    alloc: Global,
    shelf: &mut S,
    prefix: &str,
    workers: u32,
    options: SolveOptions,
    gate: &G,
) -> Result<Answer, AllocError>
    requires workers { IsWorkerCount workers }
    requires limits { HasSolveLimits options }
    ensures answer { IfOk result
        (IsAnswer (Some (SolveForm prefix.now workers options)) (S.seen shelf.old) (S.seen shelf.new)) }
    ensures reads { OnlyReads (S.seen shelf.old) (S.seen shelf.new) }
{
    match read_program(alloc, shelf, prefix, options.relations) {
        Ok(program) => outcome_of(rt, alloc, prefix, &program, workers, options, gate),
        Err(fault) => refusal(alloc, prefix, fault),
    }
}

/// The outcome of the program and its certificate, or the limit that is passed.
fn outcome_of<R: Threads + Sync, G: Gate>(
    rt: &R,
    alloc: Global,
    prefix: &str,
    program: &Program,
    workers: u32,
    options: SolveOptions,
    gate: &G,
) -> Result<Answer, AllocError>
    requires workers { IsWorkerCount workers }
    requires limits { HasSolveLimits options }
    ensures ends { IfOk result (IsSolveEnding prefix.now options program.now) }
    ensures holds { IfOk result (IsTrueSolve prefix.now options program.now) }
{
    let settings = Settings {
        workers,
        max_basis: options.basis,
        max_sums: options.sums,
    };
    // No bounds are further apart than 2^63, and no step is longer.
    let _ = program.widest();
    // The runs of a program make few steps.
    let _ = program.n();
    match solve(rt, alloc, program, settings, gate) {
        Ok(solved) => certified(alloc, prefix, &solved, options.trace),
        Err(fault) => limit_answer(alloc, fault),
    }
}

/// The answer of what was solved: its text, and its certificate as the file to be stored.
fn certified(
    alloc: Global,
    prefix: &str,
    solved: &Solved,
    trace: bool,
) -> Result<Answer, AllocError>
    requires { HasShortSteps solved.now }
    ensures { IfOk result (λ a. a ≡ solved_ending prefix.now trace solved.now.certificate.point.cols
        solved.now.certificate (solved_outcome solved.now)) }
{
    let text = solved_text(alloc, solved, trace)?;
    let name = file_name(alloc, prefix, FileKind::Cert)?;
    let bytes = print(alloc, &solved.certificate)?;
    Ok(Answer {
        status: Status::Done,
        text,
        stored: Some(StoredFile { name, bytes }),
    })
}

/// The answer where a limit is passed.
fn limit_answer(alloc: Global, fault: SolveFault) -> Result<Answer, AllocError>
    ensures found { IfOk result (λ a. fault ≢ Memory) }
    ensures ending { IfOk result (λ a. a ≡ limit_ending fault) }
{
    if matches!(fault, SolveFault::Memory) {
        return Err(AllocError);
    }
    Ok(Answer::new(Status::Limit, limit_text(alloc, fault)?))
}
