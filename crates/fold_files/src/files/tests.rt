//! Programs, points and matrices that are read from a folder in memory.

ghost use Rattle.std.specs.Prelude.{◌<◌};

use super::*;
use fold_program::ProgramFault;
use fold_shelf::{MemFile, SteadyShelf};
use mat_files::MatFault;
use std::process::Abort;
use std::test::Fail;

/// A program of two bricks with two columns each, one linking row and one brick row, and a point of it.
const FILES: [(&str, &str); 7] = [
    ("t.link.mat", "1 2\n1 0\n"),
    ("t.brick.mat", "1 2\n1 1\n"),
    ("t.lb", "2 2\n0 0\n0 0\n"),
    ("t.ub", "2 2\n4 4\n4 4\n"),
    ("t.rhs", "1 3\n3 4 4\n"),
    ("t.cost", "2 2\nq 1 0 0\nq 0 0 0\nq 1 0 0\nq 0 0 0\n"),
    ("t.pt", "2 2\n1 3\n2 2\n"),
];

fn shelf_of(
    rt: &impl Abort,
    alloc: Global,
    texts: &[(&str, &str)],
) -> Result<SteadyShelf, AllocError> {
    let mut files = Vec::new(alloc);
    for (name, text) in texts {
        let name = name.as_bytes().to_vec(alloc)?;
        let bytes = text.as_bytes().to_vec(alloc)?;
        files.push(MemFile { name, bytes })?;
    }
    assert!(rt; MemFile::names_differ(&files));
    Ok(SteadyShelf::new(alloc, files))
}

#[test]
fn reads_a_program_and_its_point(rt: HostRuntime) -> Result<(), Fail> {
    let mut shelf = shelf_of(&rt, rt.alloc(), &FILES)?;
    let program = read_program(rt.alloc(), &mut shelf, "t", false)?;
    assert_eq!(rt; (program.n(), program.t()), (2, 2));
    assert_eq!(rt; (program.r(), program.s()), (1, 1));
    let point = read_point(rt.alloc(), &mut shelf, "t", &program)?;
    assert_eq!(rt; point.brick(1), [1, 3].as_slice());
    Ok(())
}

#[test]
fn reads_a_matrix(rt: HostRuntime) -> Result<(), Fail> {
    let mut shelf = shelf_of(&rt, rt.alloc(), &[("m.mat", "1 2\n1 -2\n")])?;
    let matrix = read_plain(rt.alloc(), &mut shelf, "m")?;
    assert_eq!(rt; matrix.entries(), [1, -2].as_slice());
    let absent = read_plain(rt.alloc(), &mut shelf, "n").err();
    let file = FileKind::Plain;
    assert_eq!(rt; absent, Some(ReadFault::Shelf { file }));
    Ok(())
}

#[test]
fn reads_the_bytes_of_a_certificate(rt: HostRuntime) -> Result<(), Fail> {
    let mut shelf = shelf_of(&rt, rt.alloc(), &[("t.cert", "any bytes\n")])?;
    let bytes = read_certificate(rt.alloc(), &mut shelf, "t")?;
    assert_eq!(rt; bytes.as_slice(), b"any bytes\n".as_slice());
    let absent = read_certificate(rt.alloc(), &mut shelf, "u").err();
    let file = FileKind::Cert;
    assert_eq!(rt; absent, Some(ReadFault::Shelf { file }));
    Ok(())
}

/// The fault of reading the program where one file is another.
fn fault_with(
    rt: &impl Abort,
    alloc: Global,
    place: usize,
    file: (&str, &str),
) -> Result<Option<ReadFault>, AllocError>
    requires { place < 7 }
{
    let mut files = FILES;
    files[place] = file;
    let mut shelf = shelf_of(rt, alloc, &files)?;
    Ok(read_program(alloc, &mut shelf, "t", false).err())
}

#[test]
fn names_the_first_fault(rt: HostRuntime) -> Result<(), Fail> {
    let alloc = rt.alloc();
    let fault = MatFault::NoBound { at: 6 };
    let file = FileKind::Lower;
    let no_bound = fault_with(&rt, alloc, 2, ("t.lb", "2 2\n0 *\n0 0\n"))?;
    assert_eq!(rt; no_bound, Some(ReadFault::Form { file, fault }));
    let fault = ProgramFault::CrossedBounds { brick: 1, col: 2 };
    let crossed = fault_with(&rt, alloc, 3, ("t.ub", "2 2\n4 -1\n4 4\n"))?;
    assert_eq!(rt; crossed, Some(ReadFault::Program { fault }));
    let narrow = fault_with(&rt, alloc, 4, ("t.rhs", "1 2\n3 4\n"))?;
    let (at, got, from, to) = (2, 2, 3, 3);
    let fault = MatFault::Shape { at, got, from, to };
    let file = FileKind::Right;
    assert_eq!(rt; narrow, Some(ReadFault::Form { file, fault }));
    let short = fault_with(&rt, alloc, 5, ("t.cost", "2 2\nq 1 0\n"))?;
    assert_eq!(rt; short, Some(ReadFault::Costs { at: 10 }));
    let absent = fault_with(&rt, alloc, 5, ("u.cost", ""))?;
    let file = FileKind::Costs;
    assert_eq!(rt; absent, Some(ReadFault::Shelf { file }));
    Ok(())
}

#[test]
fn a_point_has_an_entry_for_each_column(rt: HostRuntime) -> Result<(), Fail> {
    let mut files = FILES;
    files[6] = ("t.pt", "2 2\n1 3\n2\n");
    let mut shelf = shelf_of(&rt, rt.alloc(), &files)?;
    let program = read_program(rt.alloc(), &mut shelf, "t", false)?;
    let refused = read_point(rt.alloc(), &mut shelf, "t", &program).err();
    let file = FileKind::Point;
    let fault = MatFault::EndsEarly { at: 10 };
    assert_eq!(rt; refused, Some(ReadFault::Form { file, fault }));
    Ok(())
}

/// What reading the program with this relation file gives: the relation of its linking row, or the fault.
fn relation_with(
    rt: &impl Abort,
    alloc: Global,
    text: &str,
) -> Result<Result<Option<Relation>, ReadFault>, AllocError> {
    let mut files = FILES;
    files[6] = ("t.rel", text);
    let mut shelf = shelf_of(rt, alloc, &files)?;
    Ok(read_program(alloc, &mut shelf, "t", true).map(|program| program
        .relations()
        .first()
        .copied()))
}

#[test]
fn reads_relations_where_they_are_asked_for(rt: HostRuntime) -> Result<(), Fail> {
    let alloc = rt.alloc();
    for (text, read) in [
        ("1 1\n<\n", Ok(Some(Relation::Less))),
        ("1 1 >", Ok(Some(Relation::Greater))),
        ("1 2 < <", Err(ReadFault::Relations { at: 2 })),
        ("1 1\n~", Err(ReadFault::Relations { at: 4 })),
        ("1 1\n", Err(ReadFault::Relations { at: 4 })),
    ] {
        assert_eq!(rt; relation_with(&rt, alloc, text)?, read);
    }
    let mut shelf = shelf_of(&rt, alloc, &FILES)?;
    let absent = read_program(alloc, &mut shelf, "t", true).err();
    let file = FileKind::Relations;
    assert_eq!(rt; absent, Some(ReadFault::Shelf { file }));
    let program = read_program(alloc, &mut shelf, "t", false)?;
    assert_eq!(rt; program.relations(), [Relation::Equal].as_slice());
    Ok(())
}

// A file before the relations is refused first, and one after them later.
#[test]
fn relations_are_read_after_the_right_sides(rt: HostRuntime) -> Result<(), Fail> {
    let alloc = rt.alloc();
    let mut files = FILES;
    files[6] = ("t.rel", "1 1 ~");
    files[5] = ("t.cost", "2 2");
    let mut shelf = shelf_of(&rt, alloc, &files)?;
    let fault = read_program(alloc, &mut shelf, "t", true).err();
    assert_eq!(rt; fault, Some(ReadFault::Relations { at: 4 }));
    files[4] = ("t.rhs", "1 3");
    let mut shelf = shelf_of(&rt, alloc, &files)?;
    let fault = read_program(alloc, &mut shelf, "t", true).err();
    let (file, fault_at) = (FileKind::Right, MatFault::EndsEarly { at: 3 });
    assert_eq!(rt;
        fault,
        Some(ReadFault::Form {
            file,
            fault: fault_at
        })
    );
    Ok(())
}
