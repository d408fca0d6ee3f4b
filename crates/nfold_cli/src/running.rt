//! The top call.

ghost use Rattle.std.specs.Prelude.{◌≡◌, ◌≢◌, ◌≤◌, ◌⊎◌, IfErr, OnOk, OnErr, map};
ghost use Rattle.fold_shelf.specs.Outside.{ForTold, ForBoth, ReadFailed, WriteFailed, SinkFailed, OnlyWrites};
ghost use Rattle.fold_shelf.specs.Outside.{Took, TookPart, IsCreateCause, IsSinkCause};
ghost use Rattle.nfold_cli.specs.Words as specs;
ghost use Rattle.nfold_cli.specs.Texts as texts;
ghost use Rattle.nfold_cli.specs.Endings.{IsWritten, IsRefusal};
ghost use Rattle.nfold_cli.specs.Forms.{stored_by};
ghost use Rattle.nfold_cli.specs.Running.{EndsWith, AnswersForm, FailsReading, FailsWriting, Stores, StoresPart};
ghost use Rattle.nfold_cli.specs.Running.{ChangesOnly, Leaves, GivesTruth, Said, SaysOf};
ghost use Rattle.nfold_cli.specs.Answers.{IsOfEnding, IsWhole, IsPart, IsHandCause, IsSaid, Gives, Runs};

use crate::answer::{Answer, StoredFile};
use crate::answering::answer_words;
use crate::status::Status;
use crate::texts::{memory_text, write_text};
use fold_shelf::{Gate, Shelf, ShelfFault, Sink, SinkFault, put, store};
use std::alloc::Global;
use std::thread::Threads;

/// Runs the command that the words are, without the program's own name, over the files of the shelf, and says how it
/// ended. Its text goes to `out`, and a message on why there is none to `err`. The whole text is made before its first
/// byte is written; after a fault of writing `out` has taken a first part of it. What a command stores is stored whole
/// before the first byte on `out`.
///
/// `Usage` comes exactly where the words are no form, `Input` where a file is refused, in the order in which files are
/// read, and `Limit` where the slack basis of `graver` passes its limit, or a solve passes one, while a trial passes
/// none; `No` where the point is broken, or the certificate breaks a rule. `ReadFault` comes only where a file is
/// missing or the shelf has counted a fault in this call, `WriteFault` only where `out` has, or the shelf on storing,
/// and `Memory` may come at any time. A fault of `err` changes no answer.
///
/// What a text on `out` says is true. Where `point` ends with `Done`, the point is feasible and has the printed cost,
/// and where with `No`, it is not feasible. Where `check` ends with `Done`, the printed verdict is true of the program.
/// Where `solve` ends with `Done`, so is its verdict; the printed point is feasible, has the printed cost, and no
/// feasible point costs less; the stored certificate is one that `check` accepts; and a trace tells how many steps each
/// phase makes, which are at most its bound number times the binary digits of the whole gain. Where `trial` does, the
/// verdict is true of the program that it has made, and the certificate accepted.
///
/// Neither the number of workers nor the gate changes what is answered, stored or written.
pub fn run<R: Threads + Sync, S: Shelf, K: Sink, E: Sink, G: Gate>(
    rt: &R,
    alloc: Global,
    words: &[Vec<u8>],
    shelf: &mut S,
    out: &mut K,
    err: &mut E,
    gate: &G,
) -> Status
    ensures form { AnswersForm (specs.form_of (map (λ w. w.items) words.now)) result }
    ensures ending { ForTold (S.seen shelf.old).files (λ fs. EndsWith (map (λ w. w.items) words.now) fs result) }
    ensures read { result ≡ Status.ReadFault → FailsReading (map (λ w. w.items) words.now) (S.seen shelf.old).files
        (ReadFailed (S.seen shelf.old) (S.seen shelf.new)) }
    ensures write { result ≡ Status.WriteFault → FailsWriting (stored_by (specs.form_of (map (λ w. w.items) words.now)))
        (SinkFailed (K.seen out.old) (K.seen out.new)) (WriteFailed (S.seen shelf.old) (S.seen shelf.new)) }

    // What is stored and written.
    ensures left { ForBoth (S.seen shelf.old).files (S.seen shelf.new).files (λ before now.
        ForBoth (K.seen out.old).taken (K.seen out.new).taken
        (λ taken_before taken_now. Leaves (map (λ w. w.items) words.now) before now taken_before taken_now result)) }
    ensures files { ForBoth (S.seen shelf.old).files (S.seen shelf.new).files
        (ChangesOnly (stored_by (specs.form_of (map (λ w. w.items) words.now)))) }
    ensures kept { IsRefusal result →
        ((S.seen shelf.new).files ≡ (S.seen shelf.old).files) × ((K.seen out.new).taken ≡ (K.seen out.old).taken) }

    // What is said on errors.
    ensures quiet { IsWritten result → (E.seen err.new).taken ≡ (E.seen err.old).taken }
    ensures said { ForTold (S.seen shelf.old).files (λ fs. SaysOf (map (λ w. w.items) words.now) fs
        (ReadFailed (S.seen shelf.old) (S.seen shelf.new)) (E.seen err.old) (E.seen err.new) result) }

    // What was written is true.
    ensures holds { IsWritten result → ForBoth (S.seen shelf.old).files (S.seen shelf.new).files (λ before now.
        ForBoth (K.seen out.old).taken (K.seen out.new).taken (λ taken_before taken_now.
        GivesTruth (specs.form_of (map (λ w. w.items) words.now)) before now taken_before taken_now result)) }

    // No count of faults falls.
    ensures reads { (S.seen shelf.old).read_faults ≤ (S.seen shelf.new).read_faults }
    ensures writes { (S.seen shelf.old).write_faults ≤ (S.seen shelf.new).write_faults }
    ensures outs { (K.seen out.old).faults ≤ (K.seen out.new).faults }
    ensures errs { (E.seen err.old).faults ≤ (E.seen err.new).faults }
{
    perform(rt, alloc, words, shelf, out, err, gate)
}

/// Makes the answer to the words, and gives it.
fn perform<R: Threads + Sync, S: Shelf, K: Sink, E: Sink, G: Gate>(
    rt: &R,
    alloc: Global,
    words: &[Vec<u8>],
    shelf: &mut S,
    out: &mut K,
    err: &mut E,
    gate: &G,
) -> Status
    ensures runs { Runs (map (λ w. w.items) words.now)
        (record { folder = S.seen shelf.old; out = K.seen out.old; err = E.seen err.old })
        (record { folder = S.seen shelf.new; out = K.seen out.new; err = E.seen err.new }) result }
    ensures reads { (S.seen shelf.old).read_faults ≤ (S.seen shelf.new).read_faults }
    ensures writes { (S.seen shelf.old).write_faults ≤ (S.seen shelf.new).write_faults }
    ensures outs { (K.seen out.old).faults ≤ (K.seen out.new).faults }
    ensures errs { (E.seen err.old).faults ≤ (E.seen err.new).faults }
{
    match answer_words(rt, alloc, words, shelf, gate) {
        Ok(answer) => give(&answer, shelf, out, err),
        Err(_) => say(err, memory_text(), Status::Memory),
    }
}

/// Stores and writes the answer on `out`, or says it on `err` where it is a refusal.
fn give<S: Shelf, K: Sink, E: Sink>(
    answer: &Answer,
    shelf: &mut S,
    out: &mut K,
    err: &mut E,
) -> Status
    requires { IsOfEnding answer.now.status }
    ensures gives { Gives answer.now
        (record { folder = S.seen shelf.old; out = K.seen out.old; err = E.seen err.old })
        (record { folder = S.seen shelf.new; out = K.seen out.new; err = E.seen err.new }) result }
    ensures writes { OnlyWrites (S.seen shelf.old) (S.seen shelf.new) }
    ensures outs { (K.seen out.old).faults ≤ (K.seen out.new).faults }
    ensures errs { (E.seen err.old).faults ≤ (E.seen err.new).faults }
{
    if !answer.status.is_written() {
        return say(err, &answer.text, answer.status);
    }
    match hand_over(answer, shelf, out) {
        Ok(()) => answer.status,
        Err(SinkFault::Failed) => say(err, write_text(), Status::WriteFault),
        Err(SinkFault::Memory) => say(err, memory_text(), Status::Memory),
    }
}

/// Stores the file of the answer, where there is one, and then writes its text. A fault of the shelf is one of writing.
fn hand_over<S: Shelf, K: Sink>(
    answer: &Answer,
    shelf: &mut S,
    out: &mut K,
) -> Result<(), SinkFault>
    ensures whole { OnOk result
        (IsWhole answer.now (S.seen shelf.old) (S.seen shelf.new) (K.seen out.old) (K.seen out.new)) }
    ensures part { OnErr result
        (IsPart answer.now (S.seen shelf.old) (S.seen shelf.new) (K.seen out.old) (K.seen out.new)) }
    ensures cause { IfErr result
        (IsHandCause answer.now (S.seen shelf.old) (S.seen shelf.new) (K.seen out.old) (K.seen out.new)) }
    ensures writes { OnlyWrites (S.seen shelf.old) (S.seen shelf.new) }
    ensures outs { (K.seen out.old).faults ≤ (K.seen out.new).faults }
{
    match store_file(shelf, &answer.stored) {
        Ok(()) => put(out, &answer.text),
        Err(ShelfFault::Memory) => Err(SinkFault::Memory),
        Err(_) => Err(SinkFault::Failed),
    }
}

/// Stores the file, where there is one.
fn store_file<S: Shelf>(shelf: &mut S, file: &Option<StoredFile>) -> Result<(), ShelfFault>
    ensures stored { OnOk result (ForBoth (S.seen shelf.old).files (S.seen shelf.new).files (Stores file.now)) }
    ensures part { OnErr result (ForBoth (S.seen shelf.old).files (S.seen shelf.new).files (StoresPart file.now)) }
    ensures some { OnErr result (file.now ≢ None) }
    ensures cause { IfErr result (IsCreateCause (S.seen shelf.old) (S.seen shelf.new)) }
    ensures writes { OnlyWrites (S.seen shelf.old) (S.seen shelf.new) }
{
    match file {
        None => Ok(()),
        Some(file) => store(shelf, &file.name, &file.bytes),
    }
}

/// Writes a message on `err` and answers `status`, or `Memory` where `err` finds none.
fn say<E: Sink>(err: &mut E, message: &[u8], status: Status) -> Status
    ensures said { IsSaid (E.seen err.old) (E.seen err.new) message.now status result }
    ensures errs { (E.seen err.old).faults ≤ (E.seen err.new).faults }
{
    match put(err, message) {
        Err(SinkFault::Memory) => Status::Memory,
        _ => status,
    }
}

#[cfg(test)]
mod tests;
