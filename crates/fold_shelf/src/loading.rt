//! Reading a whole file.

ghost use Rattle.std.specs.Prelude.{◌≡◌, ◌≤◌, ◌<◌, IfOk, IfErr, length};
ghost use Rattle.fold_shelf.specs.Outside.{ForTold, OnlyReads, IsWhole, IsLoadCause};

use crate::shelf::{PIECE, Shelf, ShelfFault};
use std::alloc::{AllocError, Global};

/// Why a file is not loaded.
#[derive(Clone, Copy, Debug, PartialEq, Eq, Drop)]
pub enum LoadFault {
    /// The folder has no file of this name.
    Missing,
    /// Something went wrong outside, and the shelf has counted it.
    Failed,
    /// The file has more bytes than asked for.
    TooLong,
    /// Memory ran out, which may happen at any call that allocates.
    Memory,
}

impl From<AllocError> for LoadFault {
    ghost use Rattle.std.specs.Prelude.{◌≡◌};
    ghost use Rattle.fold_shelf.specs.declared.loading.LoadFault.TheVariants.{Memory};

    ghost from_gives = { λ _ fault. fault ≡ Memory };

    fn from(_: AllocError) -> LoadFault {
        LoadFault::Memory
    }
}

impl From<ShelfFault> for LoadFault {
    ghost use Rattle.std.specs.Prelude.{◌≡◌};
    ghost use Rattle.fold_shelf.specs.Outside.{load_fault};

    ghost from_gives = { λ fault loaded. loaded ≡ load_fault fault };

    fn from(fault: ShelfFault) -> LoadFault {
        match fault {
            ShelfFault::Missing => LoadFault::Missing,
            ShelfFault::Failed => LoadFault::Failed,
            ShelfFault::Memory => LoadFault::Memory,
        }
    }
}

/// The whole named file, which has at most `most` bytes. It is read in pieces of at most 65,536 bytes, until one
/// is empty, and memory grows with what is read, not with `most`.
///
/// `Missing` and `Failed` are the shelf's; `TooLong` comes as soon as more than `most` bytes are seen; `Memory`
/// may come at any time.
pub fn load<S: Shelf>(
    alloc: Global,
    shelf: &mut S,
    name: &str,
    most: u64,
) -> Result<Vec<u8>, LoadFault>
    ensures whole { IfOk result (λ b. ForTold (S.seen shelf.old).files (IsWhole name.now most b.items)) }
    ensures short { IfOk result (λ b. length b.items ≤ most) }
    ensures cause { IfErr result (IsLoadCause (S.seen shelf.old) (S.seen shelf.new) name.now most) }
    ensures reads { OnlyReads (S.seen shelf.old) (S.seen shelf.new) }
{
    let mut piece = zeros(alloc, PIECE)?;
    load_by(alloc, shelf, name, most, &mut piece)
}

// So many zeros.
fn zeros(alloc: Global, count: usize) -> Result<Vec<u8>, AllocError>
    ensures { IfOk result (λ v. length v.items ≡ count) }
{
    vec![in alloc; 0; count]
}

// The whole named file, by reads of at most one piece.
fn load_by<S: Shelf>(
    alloc: Global,
    shelf: &mut S,
    name: &str,
    most: u64,
    piece: &mut [u8],
) -> Result<Vec<u8>, LoadFault>
    requires { 0 < length piece.old }
    ensures whole { IfOk result (λ b. ForTold (S.seen shelf.old).files (IsWhole name.now most b.items)) }
    ensures short { IfOk result (λ b. length b.items ≤ most) }
    ensures cause { IfErr result (IsLoadCause (S.seen shelf.old) (S.seen shelf.new) name.now most) }
    ensures reads { OnlyReads (S.seen shelf.old) (S.seen shelf.new) }
{
    let mut bytes = Vec::new(alloc);
    loop {
        let at = bytes.len() as u64;
        let count = shelf.read_at(name, at, piece)?;
        if count == 0 {
            return Ok(bytes);
        }
        if most - at < count as u64 {
            return Err(LoadFault::TooLong);
        }
        bytes.extend_from_slice(&piece[..count])?;
    }
}

#[cfg(test)]
mod tests {
    use super::*;
    use crate::{FolderShelf, MemFile, MemShelf, SteadyShelf};
    use std::test::Fail;

    // The file 'plan', alone.
    fn plan(alloc: Global, bytes: &[u8]) -> Result<Vec<MemFile>, AllocError> {
        let name = b"plan".to_vec(alloc)?;
        let bytes = bytes.to_vec(alloc)?;
        Ok(vec![in alloc; MemFile { name, bytes }]?)
    }

    #[test]
    fn a_file_is_loaded_up_to_the_length_asked_for(rt: HostRuntime) -> Result<(), Fail> {
        let alloc = rt.alloc();
        let files = plan(alloc, &[1, 2, 3, 4])?;
        assert!(rt; MemFile::names_differ(&files));
        let mut shelf = SteadyShelf::new(alloc, files);
        let bytes = load(alloc, &mut shelf, "plan", 4)?;
        assert_eq!(rt; bytes.as_slice(), [1, 2, 3, 4].as_slice());
        for (name, most, fault) in [
            ("plan", 3, LoadFault::TooLong),
            ("plans", 4, LoadFault::Missing),
        ] {
            let refused = load(alloc, &mut shelf, name, most).err();
            assert_eq!(rt; refused, Some(fault), "{name} of {most}");
        }
        Ok(())
    }

    // The first two calls are those of the first load: the second of them fails.
    #[test]
    fn a_failed_read_is_told_and_the_next_load_is_whole(rt: HostRuntime) -> Result<(), Fail> {
        let alloc = rt.alloc();
        let files = plan(alloc, b"twenty bytes of text")?;
        assert!(rt; MemFile::names_differ(&files));
        let fail = [2].to_vec(alloc)?;
        let mut shelf = MemShelf::new(alloc, files, fail, 16);
        let refused = load(alloc, &mut shelf, "plan", 100).err();
        assert_eq!(rt; refused, Some(LoadFault::Failed));
        let bytes = load(alloc, &mut shelf, "plan", 100)?;
        assert_eq!(rt; bytes.as_slice(), b"twenty bytes of text".as_slice());
        assert_eq!(rt;
            shelf.file("plan"),
            Some(b"twenty bytes of text".as_slice())
        );
        assert_eq!(rt; shelf.file("plans").is_none(), true);
        Ok(())
    }

    #[test]
    fn the_real_folder_tells_that_a_file_is_missing(rt: HostRuntime) {
        let mut shelf = FolderShelf::new(&rt);
        let refused = load(rt.alloc(), &mut shelf, "no file has this name", 4).err();
        assert_eq!(rt; refused, Some(LoadFault::Missing));
    }
}
