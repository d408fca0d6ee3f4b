//! A folder in memory that never fails.

ghost use Rattle.std.specs.Prelude.{◌≡◌, IsTrue, Some};
ghost use Rattle.fold_shelf.specs.Outside.{names_differ};

use crate::mem_folder::{MemFile, MemFolder};
use crate::shelf::{Shelf, ShelfFault};
use std::alloc::Global;

/// A folder in memory that tells its files and whose counts of faults are 0 always.
#[derive(Debug, Drop)]
pub struct SteadyShelf {
    alloc: Global,
    folder: MemFolder,
}

impl SteadyShelf {
    /// A folder of these files. Nothing is allocated.
    pub fn new(alloc: Global, files: Vec<MemFile>) -> SteadyShelf
        requires { IsTrue (names_differ files.items) }
        ensures { ⟦<SteadyShelf as Shelf>⟧.seen result ≡ record {
          files = Some files.items;
          read_faults = 0;
          write_faults = 0;
        } }
    {
        SteadyShelf {
            alloc,
            folder: MemFolder::new(files),
        }
    }
}

impl Shelf for SteadyShelf {
    ghost use Rattle.std.specs.Prelude.{Some};

    ghost seen = { λ s. record { files = Some s.folder; read_faults = 0; write_faults = 0 } };

    fn read_at(&mut self, name: &str, at: u64, buf: &mut [u8]) -> Result<usize, ShelfFault> {
        self.folder
            .read_at(name, at, buf, usize::MAX)
            .ok_or(ShelfFault::Missing)
    }

    fn create(&mut self, name: &str) -> Result<(), ShelfFault> {
        Ok(self.folder.create(self.alloc, name)?)
    }

    fn append(&mut self, name: &str, piece: &[u8]) -> Result<usize, ShelfFault> {
        self.folder.append(name, piece)?;
        Ok(piece.len())
    }
}
