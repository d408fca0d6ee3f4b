//! Reading the files of a program, of a point and of a matrix.

ghost use Rattle.std.specs.Prelude.{◌≡◌, ◌≤◌, ◌^◌, ◌++◌, ◌*◌, ◌-◌, Ok, IfOk, IfErr, All, length, string_bytes};
ghost use Rattle.fold_theory.specs.Programs.{IsProgram};
ghost use Rattle.convex_costs.specs.Bounds.{AreBounded};
ghost use Rattle.fold_shelf.specs.Outside.{ForTold, OnlyReads};
ghost use Rattle.mat_files.specs.MatrixText.{Admits};
ghost use Rattle.fold_program.specs.Files.{suffix_of};
ghost use Rattle.fold_program.specs.Points.{HasPointShape};
ghost use Rattle.fold_files.specs.Reading.{bytes_of, shaped, exactly, matrix_of, relations_of, costs_of, program_in};
ghost use Rattle.fold_files.specs.Reading.{point_in, plain_in, certificate_in};
ghost use Rattle.fold_files.specs.Causes.{IsReadCause, IsOfFile};

use crate::cost_file::parse_costs;
use crate::fault::ReadFault;
use crate::relation_file::parse_relations;
use convex_costs::Cost;
use fold_program::{FileKind, Parts, Point, Program, Relation};
use fold_shelf::{Shelf, load};
use mat_files::{Matrix, Shape, parse};
use std::alloc::{AllocError, Global};

/// The most bytes that a file other than a certificate may have.
const LONGEST: u64 = 1 << 26;

/// The most bytes that a certificate may have.
const LONGEST_CERTIFICATE: u64 = 1 << 27;

/// The largest absolute value of an entry of the two matrices of a program, and of a matrix by itself.
const NARROW: u64 = (1 << 31) - 1;

/// The largest absolute value of a bound, of a right side and of a point's entry.
const WIDE: u64 = 1 << 62;

/// Reads the program in the files whose names are `prefix` and a suffix: `.link.mat`, `.brick.mat`, `.lb`, `.ub`,
/// `.rhs`, where `relations` asks for it `.rel`, and `.cost`, one after the other.
///
/// The linking matrix has 0 to 16 rows and 1 to 32 columns, the matrix of all bricks 0 to 16 rows and as many
/// columns, the lower bounds a row for each of 1 to 10,000 bricks, the upper bounds as many, and the right sides one
/// row, those of the linking rows and then those of each brick. Without a file of relations all linking rows are
/// equations. The answer is the program that they make, or the first fault: those of one file come before those of
/// the next, and those of the program as a whole last. `Shelf` comes only where the shelf lacks the file or its count
/// of faults rose, and every file before it has its form.
pub fn read_program<S: Shelf>(
    alloc: Global,
    shelf: &mut S,
    prefix: &str,
    relations: bool,
) -> Result<Program, ReadFault>
    ensures program { IfOk result (λ p. ForTold (S.seen shelf.old).files
        (λ fs. program_in fs prefix.now relations ≡ Ok p)) }
    ensures accepted { IfOk result IsProgram }
    ensures refused { IfErr result (IsReadCause (λ fs. program_in fs prefix.now relations) (S.seen shelf.old)
        (S.seen shelf.new) prefix.now) }
    ensures reads { OnlyReads (S.seen shelf.old) (S.seen shelf.new) }
{
    let link = read_matrix(alloc, shelf, prefix, FileKind::Link, &plain_shape())?;
    let t = link.cols();
    let brick = read_matrix(
        alloc,
        shelf,
        prefix,
        FileKind::Brick,
        &shape(0, 16, t, NARROW),
    )?;
    let lower = read_matrix(
        alloc,
        shelf,
        prefix,
        FileKind::Lower,
        &shape(1, 10_000, t, WIDE),
    )?;
    let n = lower.rows();
    let upper = read_matrix(alloc, shelf, prefix, FileKind::Upper, &shape(n, n, t, WIDE))?;
    let wide = link.rows() + n * brick.rows();
    let right = read_matrix(
        alloc,
        shelf,
        prefix,
        FileKind::Right,
        &shape(1, 1, wide, WIDE),
    )?;
    let relations = read_relations(alloc, shelf, prefix, link.rows(), relations)?;
    let costs = read_costs(alloc, shelf, prefix, n, t)?;
    let parts = Parts {
        link,
        brick,
        lower,
        upper,
        right,
        costs,
    };
    let program = Program::new(alloc, parts)?;
    Ok(program.with_relations(relations))
}

/// Reads the point of the program in the file whose name is `prefix` and `.pt`: a row for each brick with an entry for
/// each column, each at most `2^62` in absolute value. The faults are those of `read_program`, of this file alone.
pub fn read_point<S: Shelf>(
    alloc: Global,
    shelf: &mut S,
    prefix: &str,
    program: &Program,
) -> Result<Point, ReadFault>
    ensures point { IfOk result (λ x. ForTold (S.seen shelf.old).files
        (λ fs. point_in fs prefix.now program.now ≡ Ok (record { cols = program.now.link.cols; rows = x }))) }
    ensures shape { IfOk result (HasPointShape program.now) }
    ensures refused { IfErr result (IsReadCause (λ fs. point_in fs prefix.now program.now) (S.seen shelf.old)
        (S.seen shelf.new) prefix.now) }
    ensures file { IfErr result (IsOfFile FileKind.Point) }
    ensures reads { OnlyReads (S.seen shelf.old) (S.seen shelf.new) }
{
    let (n, t) = (program.n(), program.t());
    let matrix = read_matrix(alloc, shelf, prefix, FileKind::Point, &shape(n, n, t, WIDE))?;
    match Point::new(program, matrix.into_entries()) {
        Some(point) => Ok(point),
        None => unreachable!("the file has the shape of a point"),
    }
}

/// Reads the matrix in the file whose name is `prefix` and `.mat`: it has 0 to 16 rows and 1 to 32 columns, and its
/// entries are at most `2^31 - 1` in absolute value. The faults are those of `read_program`, of this file alone.
pub fn read_plain<S: Shelf>(alloc: Global, shelf: &mut S, prefix: &str) -> Result<Matrix, ReadFault>
    ensures matrix { IfOk result (λ m. ForTold (S.seen shelf.old).files (λ fs. plain_in fs prefix.now ≡ Ok m)) }
    ensures shape { IfOk result (Admits (shaped 0 16 1 32 (2 ^ 31 - 1))) }
    ensures refused { IfErr result (IsReadCause (λ fs. plain_in fs prefix.now) (S.seen shelf.old)
        (S.seen shelf.new) prefix.now) }
    ensures file { IfErr result (IsOfFile FileKind.Plain) }
    ensures reads { OnlyReads (S.seen shelf.old) (S.seen shelf.new) }
{
    read_matrix(alloc, shelf, prefix, FileKind::Plain, &plain_shape())
}

/// Reads the bytes of the certificate in the file whose name is `prefix` and `.cert`, of which there are at most
/// `2^27`. They may spell no certificate. The faults are those of `read_program`, of this file alone.
pub fn read_certificate<S: Shelf>(
    alloc: Global,
    shelf: &mut S,
    prefix: &str,
) -> Result<Vec<u8>, ReadFault>
    ensures bytes { IfOk result (λ b. ForTold (S.seen shelf.old).files
        (λ fs. certificate_in fs prefix.now ≡ Ok b.items)) }
    ensures refused { IfErr result (IsReadCause (λ fs. certificate_in fs prefix.now) (S.seen shelf.old)
        (S.seen shelf.new) prefix.now) }
    ensures file { IfErr result (IsOfFile FileKind.Cert) }
    ensures reads { OnlyReads (S.seen shelf.old) (S.seen shelf.new) }
{
    read_bytes(alloc, shelf, prefix, FileKind::Cert, LONGEST_CERTIFICATE)
}

/// The shape of a linking matrix, and of a matrix by itself.
fn plain_shape() -> Shape
    ensures { result ≡ shaped 0 16 1 32 (2 ^ 31 - 1) }
{
    Shape {
        rows_from: 0,
        rows_to: 16,
        cols_from: 1,
        cols_to: 32,
        largest: NARROW,
    }
}

/// So many rows, and exactly these columns.
fn shape(rows_from: u32, rows_to: u32, cols: u32, largest: u64) -> Shape
    ensures { result ≡ shaped rows_from rows_to cols cols largest }
{
    Shape {
        rows_from,
        rows_to,
        cols_from: cols,
        cols_to: cols,
        largest,
    }
}

/// Reads a matrix of this shape.
fn read_matrix<S: Shelf>(
    alloc: Global,
    shelf: &mut S,
    prefix: &str,
    file: FileKind,
    shape: &Shape,
) -> Result<Matrix, ReadFault>
    requires { shape.now.largest ≤ 2 ^ 62 }
    ensures matrix { IfOk result (λ m. ForTold (S.seen shelf.old).files
        (λ fs. matrix_of fs prefix.now file shape.now ≡ Ok m)) }
    ensures shape { IfOk result (Admits shape.now) }
    ensures refused { IfErr result (IsReadCause (λ fs. matrix_of fs prefix.now file shape.now) (S.seen shelf.old)
        (S.seen shelf.new) prefix.now) }
    ensures file { IfErr result (IsOfFile file) }
    ensures reads { OnlyReads (S.seen shelf.old) (S.seen shelf.new) }
{
    let bytes = read_bytes(alloc, shelf, prefix, file, LONGEST)?;
    match parse(alloc, &bytes, shape) {
        Ok(matrix) => Ok(matrix),
        Err(fault) => Err(ReadFault::of_form(file, fault)),
    }
}

/// Reads the relations of `r` linking rows where `asked` says so; else all of them are equations.
fn read_relations<S: Shelf>(
    alloc: Global,
    shelf: &mut S,
    prefix: &str,
    r: u32,
    asked: bool,
) -> Result<Vec<Relation>, ReadFault>
    ensures relations { IfOk result (λ rs. ForTold (S.seen shelf.old).files
        (λ fs. relations_of fs prefix.now asked r ≡ Ok rs.items)) }
    ensures many { IfOk result (λ rs. length rs.items ≡ r) }
    ensures refused { IfErr result (IsReadCause (λ fs. relations_of fs prefix.now asked r) (S.seen shelf.old)
        (S.seen shelf.new) prefix.now) }
    ensures file { IfErr result (IsOfFile FileKind.Relations) }
    ensures reads { OnlyReads (S.seen shelf.old) (S.seen shelf.new) }
{
    if !asked {
        return Ok(vec![in alloc; Relation::Equal; r as usize]?);
    }
    let bytes = read_bytes(alloc, shelf, prefix, FileKind::Relations, LONGEST)?;
    Ok(parse_relations(alloc, &bytes, r)?)
}

/// Reads the costs of `n` bricks of `t` columns.
fn read_costs<S: Shelf>(
    alloc: Global,
    shelf: &mut S,
    prefix: &str,
    n: u32,
    t: u32,
) -> Result<Vec<Cost>, ReadFault>
    requires n_from { 1 ≤ n }
    requires n_to { n ≤ 10000 }
    requires t_from { 1 ≤ t }
    requires t_to { t ≤ 32 }
    ensures costs { IfOk result (λ cs. ForTold (S.seen shelf.old).files
        (λ fs. costs_of fs prefix.now n t ≡ Ok cs.items)) }
    ensures bounded { IfOk result (λ cs. All AreBounded cs.items) }
    ensures many { IfOk result (λ cs. length cs.items ≡ n * t) }
    ensures refused { IfErr result (IsReadCause (λ fs. costs_of fs prefix.now n t) (S.seen shelf.old)
        (S.seen shelf.new) prefix.now) }
    ensures file { IfErr result (IsOfFile FileKind.Costs) }
    ensures reads { OnlyReads (S.seen shelf.old) (S.seen shelf.new) }
{
    let bytes = read_bytes(alloc, shelf, prefix, FileKind::Costs, LONGEST)?;
    Ok(parse_costs(alloc, &bytes, n, t)?)
}

/// Reads the bytes of a file, of which there are at most so many.
fn read_bytes<S: Shelf>(
    alloc: Global,
    shelf: &mut S,
    prefix: &str,
    file: FileKind,
    most: u64,
) -> Result<Vec<u8>, ReadFault>
    ensures bytes { IfOk result (λ b. ForTold (S.seen shelf.old).files
        (λ fs. bytes_of fs prefix.now file most ≡ Ok b.items)) }
    ensures refused { IfErr result (IsReadCause (λ fs. bytes_of fs prefix.now file most) (S.seen shelf.old)
        (S.seen shelf.new) prefix.now) }
    ensures file { IfErr result (IsOfFile file) }
    ensures reads { OnlyReads (S.seen shelf.old) (S.seen shelf.new) }
{
    let name = file_name(alloc, prefix, file)?;
    match load(alloc, shelf, &name, most) {
        Ok(bytes) => Ok(bytes),
        Err(fault) => Err(ReadFault::of_load(file, fault)),
    }
}

/// The name of a file: the prefix and what follows it.
pub fn file_name(alloc: Global, prefix: &str, file: FileKind) -> Result<String, AllocError>
    ensures { IfOk result (λ name. string_bytes name ≡ prefix.now ++ suffix_of file) }
{
    let mut name = String::from_str(alloc, prefix)?;
    name.push_str(file.suffix())?;
    Ok(name)
}

#[cfg(test)]
mod tests;
