//! The answers where a file is refused, or could not be read.

ghost use Rattle.std.specs.Prelude.{◌≡◌, IfOk};
ghost use Rattle.nfold_cli.specs.Endings.{input_ending, fault_file, fault_text, program_fault_file, program_fault_text};
ghost use Rattle.nfold_cli.specs.Answers.{IsRefusalOf};

use crate::answer::Answer;
use crate::status::Status;
use crate::texts::{at_byte, at_column, cost_fault_text, input_text, mat_fault_text, read_text};
use fold_files::{ReadFault, file_name};
use fold_program::{FileKind, ProgramFault};
use std::alloc::{AllocError, Global};

/// The answer where reading stops by the fault.
pub(crate) fn refusal(alloc: Global, prefix: &str, fault: ReadFault) -> Result<Answer, AllocError>
    ensures { IfOk result (IsRefusalOf prefix.now fault) }
{
    match fault {
        ReadFault::Memory => Err(AllocError),
        ReadFault::Shelf { file } => {
            let name = file_name(alloc, prefix, file)?;
            let text = read_text(alloc, name.as_bytes())?;
            Ok(Answer::new(Status::ReadFault, text))
        }
        fault => {
            let (file, what) = reason(alloc, fault)?;
            refused_input(alloc, prefix, file, &what)
        }
    }
}

/// The answer where a file is refused, with what is wrong with it.
pub(crate) fn refused_input(
    alloc: Global,
    prefix: &str,
    file: FileKind,
    what: &[u8],
) -> Result<Answer, AllocError>
    ensures { IfOk result (λ a. a ≡ input_ending prefix.now file what.now) }
{
    let name = file_name(alloc, prefix, file)?;
    let text = input_text(alloc, name.as_bytes(), what)?;
    Ok(Answer::new(Status::Input, text))
}

/// Which file the fault is about, and what is wrong with it.
fn reason(alloc: Global, fault: ReadFault) -> Result<(FileKind, Vec<u8>), AllocError>
    ensures file { IfOk result (λ r. r.0 ≡ fault_file fault) }
    ensures text { IfOk result (λ r. r.1.items ≡ fault_text fault) }
{
    match fault {
        ReadFault::Shelf { file } => Ok((file, Vec::new(alloc))),
        ReadFault::TooLong { file } => Ok((file, Vec::from_slice(alloc, b"too-long")?)),
        ReadFault::Form { file, fault } => Ok((file, mat_fault_text(alloc, fault)?)),
        ReadFault::Costs { at } => Ok((FileKind::Costs, at_byte(alloc, b"syntax", at)?)),
        ReadFault::Relations { at } => Ok((FileKind::Relations, at_byte(alloc, b"syntax", at)?)),
        ReadFault::Program { fault } => program_reason(alloc, fault),
        ReadFault::Memory => Ok((FileKind::Plain, Vec::new(alloc))),
    }
}

/// Which file makes that the program is refused as a whole, and what is wrong with it.
fn program_reason(alloc: Global, fault: ProgramFault) -> Result<(FileKind, Vec<u8>), AllocError>
    ensures file { IfOk result (λ r. r.0 ≡ program_fault_file fault) }
    ensures text { IfOk result (λ r. r.1.items ≡ program_fault_text fault) }
{
    match fault {
        ProgramFault::Shape { file } => Ok((file, Vec::from_slice(alloc, b"shape")?)),
        ProgramFault::CrossedBounds { brick, col } => {
            Ok((FileKind::Upper, at_column(alloc, b"crossed", brick, col)?))
        }
        ProgramFault::Cost { brick, col, fault } => {
            Ok((FileKind::Costs, cost_fault_text(alloc, brick, col, fault)?))
        }
        ProgramFault::CostSumTooLarge => {
            Ok((FileKind::Costs, Vec::from_slice(alloc, b"cost-sum")?))
        }
        ProgramFault::Memory => Ok((FileKind::Plain, Vec::new(alloc))),
    }
}
