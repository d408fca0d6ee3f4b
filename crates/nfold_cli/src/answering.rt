//! The answer of a run: what is made of the words and the files before anything is stored or written.

ghost use Rattle.std.specs.Prelude.{IfOk, map};
ghost use Rattle.fold_shelf.specs.Outside.{OnlyReads};
ghost use Rattle.nfold_cli.specs.Words as specs;
ghost use Rattle.nfold_cli.specs.Answers.{IsAnswer};

use crate::answer::Answer;
use crate::commands::{answer_check, answer_graver, answer_point, answer_solve, answer_trial};
use crate::status::Status;
use crate::texts::usage_text;
use crate::words::{Form, form_of};
use fold_shelf::{Gate, Shelf};
use std::alloc::{AllocError, Global};
use std::thread::Threads;

/// The answer to the words over the files of the shelf.
pub(crate) fn answer_words<R: Threads + Sync, S: Shelf, G: Gate>(
    rt: &R,
    alloc: Global,
    words: &[Vec<u8>],
    shelf: &mut S,
    gate: &G,
) -> Result<Answer, AllocError>
    ensures answer { IfOk result
        (IsAnswer (specs.form_of (map (λ w. w.items) words.now)) (S.seen shelf.old) (S.seen shelf.new)) }
    ensures reads { OnlyReads (S.seen shelf.old) (S.seen shelf.new) }
{
    match form_of(words) {
        None => {
            let text = Vec::from_slice(alloc, usage_text())?;
            Ok(Answer::new(Status::Usage, text))
        }
        Some(Form::Point { prefix, relations }) => answer_point(alloc, shelf, prefix, relations),
        Some(Form::Graver { prefix, limit }) => answer_graver(alloc, shelf, prefix, limit),
        Some(
            Form::Solve {
                prefix,
                workers,
                options,
            },
        ) => answer_solve(rt, alloc, shelf, prefix, workers, options, gate),
        Some(Form::Check { prefix, relations }) => answer_check(alloc, shelf, prefix, relations),
        Some(Form::Trial { number, bricks }) => answer_trial(rt, alloc, number, bricks, gate),
    }
}
