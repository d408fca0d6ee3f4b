//! What a run has to give, before anything is stored or written.

ghost use Rattle.std.specs.Prelude.{◌≡◌};
ghost use Rattle.nfold_cli.specs.Endings.{ending};

use crate::status::Status;
use std::marker::Model;

/// A file that is to be stored.
#[derive(Debug, Drop)]
pub(crate) struct StoredFile {
    pub(crate) name: String,
    pub(crate) bytes: Vec<u8>,
}

impl Model for StoredFile {
    ghost use Rattle.std.specs.Prelude.{string_bytes};
    ghost use Rattle.fold_shelf.specs.Outside.{File};

    ghost Value = { File };

    ghost view = { λ f. record { name = string_bytes f.name; bytes = f.bytes.items } };
}

/// The status and the text of a run, and the file that it stores before it writes the text.
#[derive(Debug, Drop)]
pub(crate) struct Answer {
    pub(crate) status: Status,
    pub(crate) text: Vec<u8>,
    pub(crate) stored: Option<StoredFile>,
}

impl Model for Answer {
    ghost use Rattle.nfold_cli.specs.Endings.{Ending};

    ghost Value = { Ending };

    ghost view = { λ a. record { status = a.status; text = a.text.items; stored = a.stored } };
}

impl Answer {
    /// An answer that stores nothing.
    pub(crate) fn new(status: Status, text: Vec<u8>) -> Answer
        ensures { result ≡ ending status text.items }
    {
        Answer {
            status,
            text,
            stored: None,
        }
    }
}
