//! The program `nfold`: its words come from the system, its files lie in the current folder, and its texts go to the
//! two
//! standard streams. It ends with the number of the status, and with 8 where the system refuses the words.
#![tactic(auto)]

use fold_shelf::{FolderShelf, OpenGate, StreamSink};
use nfold_cli::run;
use std::process::ExitCode;
use std::{env, io};

/// The status where the system refuses the words.
const NO_WORDS: u8 = 8;

fn main(rt: HostRuntime) -> ExitCode {
    let Ok(words) = words(&rt) else {
        return ExitCode::from(NO_WORDS);
    };
    let mut shelf = FolderShelf::new(&rt);
    let mut out = StreamSink::new(rt.stdout());
    let mut err = StreamSink::new(rt.stderr());
    let status = run(
        &rt,
        rt.alloc(),
        &words,
        &mut shelf,
        &mut out,
        &mut err,
        &OpenGate,
    );
    ExitCode::from(status.number())
}

/// The words without the program's own name.
fn words(rt: &HostRuntime) -> io::Result<Vec<Vec<u8>>> {
    let mut words = Vec::new(rt.alloc());
    for word in env::args(rt)?.skip(1) {
        words.push(word.into_bytes())?;
    }
    Ok(words)
}
