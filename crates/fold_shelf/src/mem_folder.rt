//! The files of a folder in memory.

ghost use Rattle.std.specs.Prelude.{◌≡◌, ◌≤◌, [], IfSome, IfNone, Some, OnOk, OnErr, IfErr};
ghost use Rattle.fold_shelf.specs.Outside.{file_named, names_differ, Lacks, ReadFrom, FileHolds, FileGains};
ghost use Rattle.fold_shelf.specs.MemFolder.{IsPlace, IsAppendCause};

use crate::shelf::ShelfFault;
use std::alloc::{AllocError, Global};
use std::marker::Model;

/// A named file in memory. Contracts see it as its name and its bytes.
#[derive(Debug, Drop)]
pub struct MemFile {
    pub name: Vec<u8>,
    pub bytes: Vec<u8>,
}

impl Model for MemFile {
    ghost use Rattle.fold_shelf.specs.Outside.{File};

    ghost Value = { File };

    ghost view = { λ f. record { name = f.name.items; bytes = f.bytes.items } };
}

impl MemFile {
    /// Tests whether no two files have the same name.
    pub fn names_differ(files: &[MemFile]) -> bool
        ensures { result ≡ names_differ files.now }
    {
        match files {
            [] => true,
            [first, others @ ..] => {
                find(others, &first.name).is_none() && MemFile::names_differ(others)
            }
        }
    }
}

// The first file of this name.
fn find<'a>(files: &'a [MemFile], name: &[u8]) -> Option<&'a MemFile>
    ensures there { IfSome result (λ file. file_named files.now name.now ≡ Some file.now.bytes) }
    ensures absent { IfNone result (Lacks files.now name.now) }
{
    let at = place(files, name)?;
    Some(&files[at])
}

// The place of the first file of this name.
fn place(files: &[MemFile], name: &[u8]) -> Option<usize>
    ensures there { IfSome result (IsPlace files.now name.now) }
    ensures absent { IfNone result (Lacks files.now name.now) }
{
    for (at, file) in files.iter().enumerate() {
        if file.name.as_slice() == name {
            return Some(at);
        }
    }
    None
}

/// Named files. Of two with the same name the first counts.
#[derive(Debug, Drop)]
pub(crate) struct MemFolder {
    files: Vec<MemFile>,
}

impl Model for MemFolder {
    ghost use Rattle.std.specs.Prelude.{List};
    ghost use Rattle.fold_shelf.specs.Outside.{File};

    ghost Value = { List File };

    ghost view = { λ f. f.files.items };
}

impl MemFolder {
    pub(crate) fn new(files: Vec<MemFile>) -> MemFolder
        ensures { result ≡ files.items }
    {
        MemFolder { files }
    }

    /// The bytes of the named file.
    pub(crate) fn get(&self, name: &str) -> Option<&[u8]>
        ensures there { IfSome result (λ bytes. file_named self.now name.now ≡ Some bytes.now) }
        ensures absent { IfNone result (Lacks self.now name.now) }
    {
        let file = find(&self.files, name.as_bytes())?;
        Some(&file.bytes)
    }

    /// Copies at most `most` bytes of the named file, from byte `at` on, to the front of `buf`.
    pub(crate) fn read_at(&self, name: &str, at: u64, buf: &mut [u8], most: usize) -> Option<usize>
        requires { 1 ≤ most }
        ensures bytes { IfSome result (ReadFrom self.now name.now at buf.new) }
        ensures most { IfSome result (λ n. n ≤ most) }
        ensures absent { IfNone result (Lacks self.now name.now) }
    {
        let bytes = self.get(name)?;
        let start = (at as usize).min(bytes.len());
        let rest = &bytes[start..];
        let count = rest.len().min(buf.len()).min(most);
        buf[..count].copy_from_slice(&rest[..count]);
        Some(count)
    }

    /// Makes the named file empty, whether it was there or not.
    pub(crate) fn create(&mut self, alloc: Global, name: &str) -> Result<(), AllocError>
        ensures made { OnOk result (FileHolds name.now [] self.old self.new) }
        ensures kept { OnErr result (self.new ≡ self.old) }
    {
        match place(&self.files, name.as_bytes()) {
            Some(at) => {
                let old = &mut self.files[at];
                old.bytes.clear();
            }
            None => {
                let name = Vec::from_slice(alloc, name.as_bytes())?;
                let bytes = Vec::new(alloc);
                self.files.push(MemFile { name, bytes })?;
            }
        }
        Ok(())
    }

    /// Adds all of `piece` at the end of the named file.
    pub(crate) fn append(&mut self, name: &str, piece: &[u8]) -> Result<(), ShelfFault>
        ensures added { OnOk result (FileGains name.now piece.now self.old self.new) }
        ensures kept { OnErr result (self.new ≡ self.old) }
        ensures cause { IfErr result (IsAppendCause self.old name.now) }
    {
        let Some(at) = place(&self.files, name.as_bytes()) else {
            return Err(ShelfFault::Missing);
        };
        let file = &mut self.files[at];
        file.bytes.extend_from_slice(piece)?;
        Ok(())
    }
}
