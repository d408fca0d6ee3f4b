//! A folder of named files.

ghost use Rattle.std.specs.Prelude.{[], ◌≡◌, ◌≤◌, IfOk, IfErr, OnOk, OnErr, length, take};
ghost use Rattle.fold_shelf.specs.Outside.{Folder, ForTold, ForBoth, ReadFailed, WriteFailed, OnlyReads, OnlyWrites};
ghost use Rattle.fold_shelf.specs.Outside.{ReadFrom, FileHolds, FileGains, TakesSome, IsShelfCause, IsCreateCause};

use std::alloc::AllocError;

/// How many bytes a shelf is asked for, or given, at once.
pub(crate) const PIECE: usize = 65_536;

/// Why a shelf refuses a call.
#[derive(Clone, Copy, Debug, PartialEq, Eq, Drop)]
pub enum ShelfFault {
    /// The folder has no file of this name.
    Missing,
    /// Something went wrong outside, and the shelf has counted it.
    Failed,
    /// Memory ran out, which may happen at any call that allocates.
    Memory,
}

impl From<AllocError> for ShelfFault {
    ghost use Rattle.std.specs.Prelude.{◌≡◌};
    ghost use Rattle.fold_shelf.specs.declared.shelf.ShelfFault.TheVariants.{Memory};

    ghost from_gives = { λ _ fault. fault ≡ Memory };

    fn from(_: AllocError) -> ShelfFault {
        ShelfFault::Memory
    }
}

/// A folder of named files. A call that fails has raised the count of its kind, which never falls; the files are
/// then as before.
pub trait Shelf {
    /// The files, where the shelf tells them, and how often a read and a write has failed. No call changes whether
    /// the files are told.
    ghost seen: { Self → Folder };

    /// Reads bytes of the named file, from byte `at` on (counted from 0), to the front of `buf`, and says how
    /// many. It gives 0 only at or past the file's end, or where `buf` is empty. After a fault nothing is said of
    /// `buf`.
    fn read_at(&mut self, name: &str, at: u64, buf: &mut [u8]) -> Result<usize, ShelfFault>
        ensures most { IfOk result (λ n. n ≤ length buf.new) }
        ensures bytes { IfOk result (λ n. ForTold (seen self.old).files (λ fs. ReadFrom fs name.now at buf.new n)) }
        ensures cause { IfErr result (IsShelfCause (seen self.old).files name.now (ReadFailed (seen self.old)
            (seen self.new))) }
        ensures reads { OnlyReads (seen self.old) (seen self.new) };

    /// Makes the named file empty, whether it was there or not. It never answers `Missing`.
    fn create(&mut self, name: &str) -> Result<(), ShelfFault>
        ensures made { OnOk result (ForBoth (seen self.old).files (seen self.new).files (FileHolds name.now [])) }
        ensures kept { OnErr result ((seen self.new).files ≡ (seen self.old).files) }
        ensures cause { IfErr result (IsCreateCause (seen self.old) (seen self.new)) }
        ensures writes { OnlyWrites (seen self.old) (seen self.new) };

    /// Adds the first bytes of `piece` at the end of the named file and says how many: at least one where it is
    /// not empty.
    fn append(&mut self, name: &str, piece: &[u8]) -> Result<usize, ShelfFault>
        ensures some { IfOk result (TakesSome piece.now) }
        ensures added { IfOk result (λ n. ForBoth (seen self.old).files (seen self.new).files (FileGains name.now
            (take n piece.now))) }
        ensures kept { OnErr result ((seen self.new).files ≡ (seen self.old).files) }
        ensures cause { IfErr result (IsShelfCause (seen self.old).files name.now (WriteFailed (seen self.old)
            (seen self.new))) }
        ensures writes { OnlyWrites (seen self.old) (seen self.new) };
}
