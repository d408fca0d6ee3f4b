//! `point P [--rel]`: whether a point is feasible, and its cost, or what it breaks first.

ghost use Rattle.std.specs.Prelude.{◌≡◌, IfOk, IfErr, Ok, Some};
ghost use Rattle.fold_shelf.specs.Outside.{ForTold, OnlyReads};
ghost use Rattle.fold_program.specs.Points.{HasPointShape};
ghost use Rattle.fold_files.specs.Causes.{IsReadCause};
ghost use Rattle.nfold_cli.specs.Words.{PointForm};
ghost use Rattle.nfold_cli.specs.PointCommand.{pointed_in, verdict_ending, IsTruePoint};
ghost use Rattle.nfold_cli.specs.Answers.{IsAnswer};

use crate::answer::Answer;
use crate::refusals::refusal;
use crate::status::Status;
use crate::texts::point_text;
use fold_files::{ReadFault, read_point, read_program};
use fold_program::{Point, Program};
use fold_shelf::Shelf;
use std::alloc::{AllocError, Global};

/// The answer to `point`.
pub(crate) fn answer_point<S: Shelf>(
    alloc: Global,
    shelf: &mut S,
    prefix: &str,
    relations: bool,
) -> Result<Answer, AllocError>
    ensures answer { IfOk result
        (IsAnswer (Some (PointForm prefix.now relations)) (S.seen shelf.old) (S.seen shelf.new)) }
    ensures reads { OnlyReads (S.seen shelf.old) (S.seen shelf.new) }
{
    match read_pointed(alloc, shelf, prefix, relations) {
        Ok((program, point)) => verdict(alloc, &program, &point),
        Err(fault) => refusal(alloc, prefix, fault),
    }
}

/// The program and the point of the prefix.
fn read_pointed<S: Shelf>(
    alloc: Global,
    shelf: &mut S,
    prefix: &str,
    relations: bool,
) -> Result<(Program, Point), ReadFault>
    ensures pointed { IfOk result (λ both. ForTold (S.seen shelf.old).files (λ fs.
        pointed_in prefix.now relations fs ≡ Ok (record { program = both.0; point = both.1 }))) }
    ensures shape { IfOk result (λ both. HasPointShape both.0 both.1) }
    ensures refused { IfErr result
        (IsReadCause (λ fs. pointed_in prefix.now relations fs) (S.seen shelf.old) (S.seen shelf.new) prefix.now) }
    ensures reads { OnlyReads (S.seen shelf.old) (S.seen shelf.new) }
{
    let program = read_program(alloc, shelf, prefix, relations)?;
    let point = read_point(alloc, shelf, prefix, &program)?;
    Ok((program, point))
}

/// Whether the point is feasible, and its cost.
fn verdict(alloc: Global, program: &Program, point: &Point) -> Result<Answer, AllocError>
    requires { HasPointShape program.now point.now }
    ensures ends { IfOk result (λ a. a ≡ verdict_ending program.now point.now) }
    ensures holds { IfOk result (IsTruePoint (record { program = program.now; point = point.now })) }
{
    match program.broken(point) {
        None => {
            let text = point_text(alloc, None, program.cost(point))?;
            Ok(Answer::new(Status::Done, text))
        }
        Some(broken) => {
            let text = point_text(alloc, Some(broken), 0)?;
            Ok(Answer::new(Status::No, text))
        }
    }
}
