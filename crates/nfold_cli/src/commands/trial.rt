//! `trial NUMBER N`: the outcome of a transport program that is made from a number, with its certificate checked.

ghost use Rattle.std.specs.Prelude.{◌≡◌, ◌^◌, ◌<◌, ◌≤◌, IfOk};
ghost use Rattle.nfold_cli.specs.Words.{IsTrial};
ghost use Rattle.nfold_cli.specs.SolvedTexts.{solved_outcome};
ghost use Rattle.fold_gen.specs.Transports as transports;
ghost use Rattle.nfold_cli.specs.TrialCommand as specs;

use crate::answer::Answer;
use crate::run_texts::trial_text;
use crate::status::Status;
use crate::words::{DEFAULT_BASIS, DEFAULT_SUMS, DEFAULT_WORKERS};
use augment_run::{RunRecord, Settings, SolveFault, Solved, solve};
use cert_checker::check;
use certificate::{Certificate, parse, print};
use fold_gen::transport;
use fold_program::Program;
use fold_shelf::Gate;
use std::alloc::{AllocError, Global};
use std::thread::Threads;

/// The answer to `trial`.
pub(crate) fn answer_trial<R: Threads + Sync, G: Gate>(
    rt: &R,
    alloc: Global,
    number: u32,
    bricks: u32,
    gate: &G,
) -> Result<Answer, AllocError>
    requires { IsTrial number bricks }
    ensures ends { IfOk result (specs.IsTrialEnding number bricks) }
    ensures holds { IfOk result (specs.IsTrueTrial number bricks) }
{
    let program = transport(alloc, number, bricks)?;
    outcome_of(rt, alloc, number, bricks, &program, gate)
}

/// The outcome of the program of a trial, which passes no limit.
fn outcome_of<R: Threads + Sync, G: Gate>(
    rt: &R,
    alloc: Global,
    number: u32,
    bricks: u32,
    program: &Program,
    gate: &G,
) -> Result<Answer, AllocError>
    requires made { program.now ≡ transports.transport number bricks }
    requires few { bricks ≤ 10000 }
    ensures ends { IfOk result (specs.IsTrialEnding number bricks) }
    ensures holds { IfOk result (specs.IsTrueTrial number bricks) }
{
    let settings = Settings {
        workers: DEFAULT_WORKERS,
        max_basis: DEFAULT_BASIS,
        max_sums: DEFAULT_SUMS,
    };
    // The runs of a program make few steps.
    let _ = program.n();
    match solve(rt, alloc, program, settings, gate) {
        Ok(solved) => tried(alloc, number, bricks, program, &solved),
        Err(fault) => {
            // the matrices of all these programs are the same, with few elements and few sums
            prove!(matches!(fault, SolveFault::Memory));
            Err(AllocError)
        }
    }
}

/// The answer of what was solved, with what the checker says of the certificate once it is printed and read back.
fn tried(
    alloc: Global,
    number: u32,
    bricks: u32,
    program: &Program,
    solved: &Solved,
) -> Result<Answer, AllocError>
    ensures { IfOk result (λ a. a ≡ specs.tried_ending number bricks program.now
        solved.now.certificate (solved_outcome solved.now)) }
{
    let certificate = read_back(alloc, &solved.certificate)?;
    let answer = check(alloc, program, &certificate)?;
    let made = steps_in(&solved.counted) + steps_in(&solved.closed);
    let text = trial_text(alloc, number, bricks, solved.verdict, made, answer)?;
    Ok(Answer::new(Status::Done, text))
}

/// The certificate as its text spells it.
fn read_back(alloc: Global, certificate: &Certificate) -> Result<Certificate, AllocError>
    ensures { IfOk result (λ c. c ≡ certificate.now) }
{
    let text = print(alloc, certificate)?;
    match parse(alloc, &text) {
        Ok(certificate) => Ok(certificate),
        Err(_) => Err(AllocError),
    }
}

/// How many steps the run of a phase made, where there was one.
fn steps_in(run: &Option<RunRecord>) -> usize
    ensures steps { result ≡ specs.steps_in run.now }
    ensures few { result < 2 ^ 63 }
{
    match run {
        None => 0,
        Some(run) => run.steps.len(),
    }
}
