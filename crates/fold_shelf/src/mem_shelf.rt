//! A folder in memory that fails at chosen calls.

ghost use Rattle.std.specs.Prelude.{◌≡◌, ◌≤◌, IfSome, IfNone, IsTrue, Some};
ghost use Rattle.fold_shelf.specs.Outside.{file_named, names_differ, Lacks, IsTold};

use crate::mem_folder::{MemFile, MemFolder};
use crate::schedule::Schedule;
use crate::shelf::{Shelf, ShelfFault};
use std::alloc::Global;

/// A folder in memory that tells its files. Its calls are numbered from 1: each whose number is in `fail`
/// answers `Failed`, and no call moves more than `most` bytes.
#[derive(Debug, Drop)]
pub struct MemShelf {
    alloc: Global,
    folder: MemFolder,
    schedule: Schedule,
    read_faults: u64,
    write_faults: u64,
}

impl MemShelf {
    /// A folder of these files, at which nothing has been called yet. Nothing is allocated.
    pub fn new(alloc: Global, files: Vec<MemFile>, fail: Vec<u64>, most: usize) -> MemShelf
        requires names { IsTrue (names_differ files.items) }
        requires most { 1 ≤ most }
        ensures { ⟦<MemShelf as Shelf>⟧.seen result ≡ record {
          files = Some files.items;
          read_faults = 0;
          write_faults = 0;
        } }
    {
        MemShelf {
            alloc,
            folder: MemFolder::new(files),
            schedule: Schedule::new(fail, most),
            read_faults: 0,
            write_faults: 0,
        }
    }

    /// The bytes of the named file; `None` exactly where there is none.
    pub fn file(&self, name: &str) -> Option<&[u8]>
        ensures there { IfSome result (λ bytes. IsTold (⟦<MemShelf as Shelf>⟧.seen self.now).files
            (λ fs. file_named fs name.now ≡ Some bytes.now)) }
        ensures absent { IfNone result (IsTold (⟦<MemShelf as Shelf>⟧.seen self.now).files (λ fs. Lacks fs name.now)) }
    {
        self.folder.get(name)
    }
}

impl Shelf for MemShelf {
    ghost use Rattle.std.specs.Prelude.{Some};

    ghost seen = { λ s. record { files = Some s.folder; read_faults = s.read_faults; write_faults = s.write_faults } };

    fn read_at(&mut self, name: &str, at: u64, buf: &mut [u8]) -> Result<usize, ShelfFault> {
        if self.schedule.next_fails() {
            self.read_faults = self.read_faults.saturating_add(1);
            return Err(ShelfFault::Failed);
        }
        let most = self.schedule.moved(usize::MAX);
        self.folder
            .read_at(name, at, buf, most)
            .ok_or(ShelfFault::Missing)
    }

    fn create(&mut self, name: &str) -> Result<(), ShelfFault> {
        if self.schedule.next_fails() {
            self.write_faults = self.write_faults.saturating_add(1);
            return Err(ShelfFault::Failed);
        }
        Ok(self.folder.create(self.alloc, name)?)
    }

    fn append(&mut self, name: &str, piece: &[u8]) -> Result<usize, ShelfFault> {
        if self.schedule.next_fails() {
            self.write_faults = self.write_faults.saturating_add(1);
            return Err(ShelfFault::Failed);
        }
        let count = self.schedule.moved(piece.len());
        self.folder.append(name, &piece[..count])?;
        Ok(count)
    }
}

#[cfg(test)]
mod tests {
    use super::*;
    use std::test::Fail;

    #[test]
    fn one_call_moves_at_most_so_many_bytes(rt: HostRuntime) -> Result<(), Fail> {
        let alloc = rt.alloc();
        let name = b"plan".to_vec(alloc)?;
        let bytes = b"abcdef".to_vec(alloc)?;
        let files = vec![in alloc; MemFile { name, bytes }]?;
        assert!(rt; MemFile::names_differ(&files));
        let mut shelf = MemShelf::new(alloc, files, Vec::new(alloc), 2);
        let mut buf = [0; 8];
        assert_eq!(rt; shelf.read_at("plan", 1, &mut buf), Ok(2));
        assert_eq!(rt; buf, *b"bc\0\0\0\0\0\0");
        shelf.create("cert")?;
        assert_eq!(rt; shelf.append("cert", b"xyz"), Ok(2));
        assert_eq!(rt; shelf.file("cert"), Some(b"xy".as_slice()));
        Ok(())
    }
}
