//! The current folder of the process.

ghost use Rattle.std.specs.Prelude.{◌≡◌, ◌≤◌, None, IfOk, OnOk, IsSomeAnd, length, take, bytes_eq};

use crate::shelf::{Shelf, ShelfFault};
use std::io::{ErrorKind, Read, Seek, SeekFrom, Write};
use std::rt::Files;
use std::{fs, io};

/// The current folder, by way of the runtime that it borrows: names are relative to it. It tells no content, and
/// counts each error that the system gives.
#[derive(Drop)]
pub struct FolderShelf<'a, F: Files> {
    files: &'a F,
    created: Option<Created<F::File>>,
    read_faults: u64,
    write_faults: u64,
}

impl<'a, F: Files> FolderShelf<'a, F> {
    /// The folder, at which nothing has failed yet.
    pub fn new(files: &'a F) -> FolderShelf<'a, F>
        ensures { ⟦<FolderShelf<'a, F> as Shelf>⟧.seen result ≡ record {
          files = None;
          read_faults = 0;
          write_faults = 0;
        } }
    {
        FolderShelf {
            files,
            created: None,
            read_faults: 0,
            write_faults: 0,
        }
    }
}

impl<'a, F: Files> Shelf for FolderShelf<'a, F> {
    ghost use Rattle.std.specs.Prelude.{None};

    ghost seen = { λ s. record { files = None; read_faults = s.read_faults; write_faults = s.write_faults } };

    fn read_at(&mut self, name: &str, at: u64, buf: &mut [u8]) -> Result<usize, ShelfFault> {
        match read_once(self.files, name, at, buf) {
            Ok(count) => Ok(count),
            Err(error) => {
                self.read_faults = self.read_faults.saturating_add(1);
                Err(fault_of(&error))
            }
        }
    }

    fn create(&mut self, name: &str) -> Result<(), ShelfFault> {
        match create_file(self.files, name) {
            Ok(created) => {
                self.created = Some(created);
                Ok(())
            }
            Err(_) => {
                self.write_faults = self.write_faults.saturating_add(1);
                Err(ShelfFault::Failed)
            }
        }
    }

    fn append(&mut self, name: &str, piece: &[u8]) -> Result<usize, ShelfFault> {
        match write_on(&mut self.created, name, piece) {
            Ok(count) if count > 0 || piece.is_empty() => Ok(count),
            _ => {
                self.write_faults = self.write_faults.saturating_add(1);
                Err(ShelfFault::Failed)
            }
        }
    }
}

// Opens the file, goes to byte `at`, and reads once.
fn read_once<F: Files>(files: &F, name: &str, at: u64, buf: &mut [u8]) -> io::Result<usize>
    ensures { IfOk result (λ n. n ≤ length buf.new) }
{
    let mut file = fs::open(files, name)?;
    file.seek(SeekFrom::Start(at))?;
    file.read(buf)
}

fn fault_of(error: &io::Error) -> ShelfFault {
    match error.kind() {
        ErrorKind::NotFound => ShelfFault::Missing,
        _ => ShelfFault::Failed,
    }
}

// The longest name of a file that is created, in bytes.
const LONGEST_NAME: usize = 256;

// The file that was created last, still open, and its name.
#[derive(Drop)]
struct Created<T> {
    file: T,
    name: [u8; LONGEST_NAME],
    length: usize,
    ghost short: { length ≤ 256 },
}

impl<T> Created<T> {
    fn is_named(&self, name: &str) -> bool
        ensures { result ≡ bytes_eq (take self.now.length self.now.name) name.now }
    {
        &self.name[..self.length] == name.as_bytes()
    }
}

// Makes the file empty and keeps it open.
fn create_file<F: Files>(files: &F, name: &str) -> io::Result<Created<F::File>>
    ensures { IfOk result (λ c. take c.length c.name ≡ name.now) }
{
    let length = name.len();
    if length > LONGEST_NAME {
        return Err(io::Error::from(ErrorKind::InvalidInput));
    }
    let mut kept = [0; LONGEST_NAME];
    kept[..length].copy_from_slice(name.as_bytes());
    let file = fs::create(files, name)?;
    Ok(Created {
        file,
        name: kept,
        length,
    })
}

// Writes once to the file that was created last, if it has this name.
fn write_on<T: Write>(
    created: &mut Option<Created<T>>,
    name: &str,
    piece: &[u8],
) -> io::Result<usize>
    ensures most { IfOk result (λ n. n ≤ length piece.now) }
    ensures named { OnOk result (IsSomeAnd created.old (λ c. take c.length c.name ≡ name.now)) }
{
    match created {
        Some(last) if last.is_named(name) => last.file.write(piece),
        _ => Err(io::Error::from(ErrorKind::InvalidInput)),
    }
}

#[cfg(test)]
mod tests {
    use super::*;
    use crate::{load, store};
    use std::test::Fail;

    #[test]
    fn the_real_folder_keeps_what_is_stored_last(rt: HostRuntime) -> Result<(), Fail> {
        let name = "folder_shelf_stored.test";
        let mut shelf = FolderShelf::new(&rt);
        store(&mut shelf, name, b"a longer text, which is stored over")?;
        store(&mut shelf, name, b"a text")?;
        let bytes = load(rt.alloc(), &mut shelf, name, 100)?;
        fs::remove_file(&rt, name)?;
        assert_eq!(rt; bytes.as_slice(), b"a text".as_slice());
        Ok(())
    }

    #[test]
    fn only_the_file_created_last_grows(rt: HostRuntime) -> Result<(), Fail> {
        let (first, last) = ("folder_shelf_first.test", "folder_shelf_last.test");
        let mut shelf = FolderShelf::new(&rt);
        let failed = Err(ShelfFault::Failed);
        assert_eq!(rt;
            shelf.append(first, b"abc"),
            failed,
            "nothing was created yet"
        );
        shelf.create(first)?;
        shelf.create(last)?;
        assert_eq!(rt; shelf.append(first, b"abc"), failed);
        assert_eq!(rt; shelf.append(last, b"abc"), Ok(3));
        let bytes = load(rt.alloc(), &mut shelf, first, 100)?;
        fs::remove_file(&rt, first)?;
        fs::remove_file(&rt, last)?;
        assert!(rt; bytes.is_empty());
        Ok(())
    }

    #[test]
    fn a_name_of_256_bytes_is_the_longest(rt: HostRuntime) -> Result<(), Fail> {
        let mut name = String::new(rt.alloc());
        for _ in 0..122 {
            name.push_str("./")?;
        }
        name.push_str("shelf_a.test")?;
        let mut shelf = FolderShelf::new(&rt);
        shelf.create(&name)?;
        fs::remove_file(&rt, "shelf_a.test")?;
        name.push_str("s")?;
        assert_eq!(rt; shelf.create(&name), Err(ShelfFault::Failed));
        Ok(())
    }
}
