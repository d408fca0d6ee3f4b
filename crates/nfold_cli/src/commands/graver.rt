//! `graver M [--max-basis B]`: the kernel of the slack basis of a matrix.

ghost use Rattle.std.specs.Prelude.{◌-◌, ◌^◌, IfOk, Some};
ghost use Rattle.fold_shelf.specs.Outside.{OnlyReads};
ghost use Rattle.mat_files.specs.MatrixText.{Admits};
ghost use Rattle.fold_files.specs.Reading.{shaped};
ghost use Rattle.nfold_cli.specs.Words.{GraverForm, IsBasisLimit};
ghost use Rattle.nfold_cli.specs.GraverCommand.{IsKernelEnding};
ghost use Rattle.nfold_cli.specs.Answers.{IsAnswer};

use crate::answer::Answer;
use crate::refusals::refusal;
use crate::status::Status;
use crate::texts::basis_limit_text;
use fold_files::read_plain;
use fold_shelf::Shelf;
use mat_files::{Matrix, print};
use pottier::{BasisFault, kernel, slack_basis};
use std::alloc::{AllocError, Global};

/// The answer to `graver`.
pub(crate) fn answer_graver<S: Shelf>(
    alloc: Global,
    shelf: &mut S,
    prefix: &str,
    limit: u32,
) -> Result<Answer, AllocError>
    requires { IsBasisLimit limit }
    ensures answer { IfOk result (IsAnswer (Some (GraverForm prefix.now limit)) (S.seen shelf.old) (S.seen shelf.new)) }
    ensures reads { OnlyReads (S.seen shelf.old) (S.seen shelf.new) }
{
    match read_plain(alloc, shelf, prefix) {
        Ok(matrix) => kernel_of(alloc, &matrix, limit),
        Err(fault) => refusal(alloc, prefix, fault),
    }
}

/// The kernel of the slack basis of the matrix, or that the basis passes its limit.
fn kernel_of(alloc: Global, matrix: &Matrix, limit: u32) -> Result<Answer, AllocError>
    requires shape { Admits (shaped 0 16 1 32 (2 ^ 31 - 1)) matrix.now }
    requires limit { IsBasisLimit limit }
    ensures { IfOk result (IsKernelEnding limit matrix.now) }
{
    match slack_basis(alloc, matrix, limit) {
        Ok(basis) => {
            let text = print(alloc, &kernel(alloc, &basis)?)?;
            Ok(Answer::new(Status::Done, text))
        }
        Err(BasisFault::Limit) => {
            let text = Vec::from_slice(alloc, basis_limit_text())?;
            Ok(Answer::new(Status::Limit, text))
        }
        Err(BasisFault::Memory) => Err(AllocError),
    }
}
