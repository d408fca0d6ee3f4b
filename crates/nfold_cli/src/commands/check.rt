//! `check P [--rel]`: whether a certificate shows what it claims of a program, or which rule it breaks first.

ghost use Rattle.std.specs.Prelude.{◌≡◌, ◌≢◌, IfOk, IfErr, Ok, Some};
ghost use Rattle.fold_shelf.specs.Outside.{ForTold, OnlyReads};
ghost use Rattle.fold_files.specs.Causes.{IsReadCause};
ghost use Rattle.cert_checker.specs.Answers.{checked};
ghost use Rattle.nfold_cli.specs.Texts.{cert_fault_text};
ghost use Rattle.nfold_cli.specs.Words.{CheckForm};
ghost use Rattle.nfold_cli.specs.Endings.{input_ending};
ghost use Rattle.nfold_cli.specs.CheckCommand.{claimed_in, checked_status, checked_ending};
ghost use Rattle.nfold_cli.specs.CheckCommand.{certificate_ending, IsTrueCheck, IsShown};
ghost use Rattle.nfold_cli.specs.Answers.{IsAnswer};

use crate::answer::Answer;
use crate::refusals::{refusal, refused_input};
use crate::status::Status;
use crate::texts::{cert_fault_text, check_text};
use cert_checker::{Check, check};
use certificate::{CertFault, CertKind, Certificate, parse};
use fold_files::{ReadFault, read_certificate, read_program};
use fold_program::{FileKind, Program};
use fold_shelf::Shelf;
use std::alloc::{AllocError, Global};

/// The answer to `check`.
pub(crate) fn answer_check<S: Shelf>(
    alloc: Global,
    shelf: &mut S,
    prefix: &str,
    relations: bool,
) -> Result<Answer, AllocError>
    ensures answer { IfOk result
        (IsAnswer (Some (CheckForm prefix.now relations)) (S.seen shelf.old) (S.seen shelf.new)) }
    ensures reads { OnlyReads (S.seen shelf.old) (S.seen shelf.new) }
{
    match read_claimed(alloc, shelf, prefix, relations) {
        Ok((program, bytes)) => confirm(alloc, prefix, &program, &bytes),
        Err(fault) => refusal(alloc, prefix, fault),
    }
}

/// The program of the prefix, and the bytes of its certificate.
fn read_claimed<S: Shelf>(
    alloc: Global,
    shelf: &mut S,
    prefix: &str,
    relations: bool,
) -> Result<(Program, Vec<u8>), ReadFault>
    ensures claimed { IfOk result (λ both. ForTold (S.seen shelf.old).files (λ fs.
        claimed_in prefix.now relations fs ≡ Ok (record { program = both.0; bytes = both.1.items }))) }
    ensures refused { IfErr result
        (IsReadCause (λ fs. claimed_in prefix.now relations fs) (S.seen shelf.old) (S.seen shelf.new) prefix.now) }
    ensures reads { OnlyReads (S.seen shelf.old) (S.seen shelf.new) }
{
    let program = read_program(alloc, shelf, prefix, relations)?;
    let bytes = read_certificate(alloc, shelf, prefix)?;
    Ok((program, bytes))
}

/// Whether the certificate that the bytes spell shows what it claims of the program.
fn confirm(
    alloc: Global,
    prefix: &str,
    program: &Program,
    bytes: &[u8],
) -> Result<Answer, AllocError>
    ensures ends { IfOk result (λ a. a ≡ certificate_ending prefix.now program.now bytes.now) }
    ensures holds { IfOk result (IsTrueCheck (record { program = program.now; bytes = bytes.now })) }
{
    match parse(alloc, bytes) {
        Ok(certificate) => checked(alloc, program, &certificate),
        Err(fault) => refused_certificate(alloc, prefix, fault),
    }
}

/// Whether the certificate shows what it claims of the program.
fn checked(
    alloc: Global,
    program: &Program,
    certificate: &Certificate,
) -> Result<Answer, AllocError>
    ensures ends { IfOk result (λ a. a ≡ checked_ending (checked program.now certificate.now)) }
    ensures holds { IfOk result (λ a. a.status ≡ Status.Done → IsShown program.now certificate.now a.text) }
{
    let answer = check(alloc, program, certificate)?;
    let text = check_text(alloc, answer)?;
    Ok(Answer::new(status_of(answer), text))
}

/// The status of the checker's answer.
fn status_of(answer: Check) -> Status
    ensures { result ≡ checked_status answer }
{
    match answer {
        Check::Yes(_) => Status::Done,
        Check::No(_) => Status::No,
    }
}

/// The answer where the file of the certificate spells none.
fn refused_certificate(alloc: Global, prefix: &str, fault: CertFault) -> Result<Answer, AllocError>
    ensures { IfOk result (λ a. (fault.kind ≢ CertKind.Memory)
        × (a ≡ input_ending prefix.now FileKind.Cert (cert_fault_text fault))) }
{
    if fault.kind == CertKind::Memory {
        return Err(AllocError);
    }
    let what = cert_fault_text(alloc, fault)?;
    refused_input(alloc, prefix, FileKind::Cert, &what)
}
