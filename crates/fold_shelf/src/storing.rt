//! Writing a whole file.

ghost use Rattle.std.specs.Prelude.{IfErr, OnOk, OnErr};
ghost use Rattle.fold_shelf.specs.Outside.{ForBoth, OnlyWrites, FileHolds, StoredPart, IsCreateCause};

use crate::shelf::{PIECE, Shelf, ShelfFault};

/// Makes the named file hold `bytes`: it is created, and the bytes are added in pieces of at most 65,536. After a
/// fault it is as before, or holds a first part of them. It never answers `Missing`: a name that goes missing on
/// the way is a failure of the shelf.
pub fn store<S: Shelf>(shelf: &mut S, name: &str, bytes: &[u8]) -> Result<(), ShelfFault>
    ensures stored { OnOk result (ForBoth (S.seen shelf.old).files (S.seen shelf.new).files
        (FileHolds name.now bytes.now)) }
    ensures part { OnErr result (ForBoth (S.seen shelf.old).files (S.seen shelf.new).files
        (StoredPart name.now bytes.now)) }
    ensures cause { IfErr result (IsCreateCause (S.seen shelf.old) (S.seen shelf.new)) }
    ensures writes { OnlyWrites (S.seen shelf.old) (S.seen shelf.new) }
{
    shelf.create(name)?;
    let mut rest = bytes;
    while !rest.is_empty() {
        let size = rest.len().min(PIECE);
        match shelf.append(name, &rest[..size]) {
            Ok(count) => rest = &rest[count..],
            Err(ShelfFault::Missing) => return Err(ShelfFault::Failed),
            Err(fault) => return Err(fault),
        }
    }
    Ok(())
}

#[cfg(test)]
mod tests {
    use super::*;
    use crate::{MemFile, MemShelf, SteadyShelf, load};
    use std::test::Fail;

    const TEXT: &[u8] = b"a text that takes three pieces of 16";

    #[test]
    fn a_file_is_stored_over_what_was_there(rt: HostRuntime) -> Result<(), Fail> {
        let alloc = rt.alloc();
        let name = b"cert".to_vec(alloc)?;
        let bytes = b"a longer text than that which is to be stored".to_vec(alloc)?;
        let files = vec![in alloc; MemFile { name, bytes }]?;
        assert!(rt; MemFile::names_differ(&files));
        let mut shelf = MemShelf::new(alloc, files, Vec::new(alloc), 16);
        store(&mut shelf, "cert", TEXT)?;
        assert_eq!(rt; shelf.file("cert"), Some(TEXT));
        Ok(())
    }

    // Call 1 creates the file, and calls 2 and 3 are the first two pieces.
    #[test]
    fn a_failed_append_leaves_the_first_part(rt: HostRuntime) -> Result<(), Fail> {
        let alloc = rt.alloc();
        let fail = [3].to_vec(alloc)?;
        let mut shelf = MemShelf::new(alloc, Vec::new(alloc), fail, 16);
        assert_eq!(rt; store(&mut shelf, "cert", TEXT), Err(ShelfFault::Failed));
        assert_eq!(rt; shelf.file("cert"), Some(b"a text that take".as_slice()));
        Ok(())
    }

    // Call 1 creates the file, and call 2 adds the first piece.
    #[test]
    fn a_piece_has_at_most_65536_bytes(rt: HostRuntime) -> Result<(), Fail> {
        let alloc = rt.alloc();
        let text = vec![in alloc; 7; 65_537]?;
        let mut shelf = MemShelf::new(alloc, Vec::new(alloc), [3].to_vec(alloc)?, usize::MAX);
        let stored = store(&mut shelf, "cert", &text);
        assert_eq!(rt; stored, Err(ShelfFault::Failed));
        assert_eq!(rt; shelf.file("cert").map(|bytes| bytes.len()), Some(65_536));
        Ok(())
    }

    #[test]
    fn what_is_stored_is_loaded(rt: HostRuntime) -> Result<(), Fail> {
        let alloc = rt.alloc();
        let mut shelf = SteadyShelf::new(alloc, Vec::new(alloc));
        store(&mut shelf, "cert", TEXT)?;
        let bytes = load(alloc, &mut shelf, "cert", 100)?;
        assert_eq!(rt; bytes.as_slice(), TEXT);
        Ok(())
    }
}
