//! The top call over files in memory.

mod hostile;
mod sizes;
mod solving;
mod workers;

use super::*;
use crate::words::tests::words_of;
use fold_shelf::{MemFile, MemShelf, MemSink, OpenGate, SteadyShelf, SteadySink};
use std::alloc::AllocError;
use std::process::Abort;
use std::test::Fail;

/// The certificate that a first brick cannot meet its row.
const STORED: &str =
    "nfold-certificate 1\nclaim infeasible-brick 1\npoint\n1 2\n4 4\nbricks\n3 3\n0 1 1\n1 -1 0\n1 0 1\nend\n";

/// A program of two bricks with relations, a point of it, and a certificate that its first brick cannot meet its row.
const FILES: [(&str, &str); 9] = [
    ("t.link.mat", "1 2\n1 0\n"),
    ("t.brick.mat", "1 2\n1 1\n"),
    ("t.lb", "2 2\n0 0\n0 0\n"),
    ("t.ub", "2 2\n4 4\n4 4\n"),
    ("t.rhs", "1 3\n3 4 4\n"),
    ("t.rel", "1 1\n=\n"),
    ("t.cost", "2 2\nq 1 0 0\nq 0 0 0\nq 1 0 0\nq 0 0 0\n"),
    ("t.pt", "2 2\n1 3\n2 2\n"),
    ("t.cert", STORED),
];

/// The files with other texts in some of them, and without those whose other text is empty.
fn files_with(alloc: Global, changes: &[(&str, &str)]) -> Result<Vec<MemFile>, AllocError> {
    let mut files = Vec::new(alloc);
    for (name, text) in FILES {
        let change = changes.iter().find(|(changed, _)| *changed == name);
        let text = change.map_or(text, |(_, text)| *text);
        if !text.is_empty() {
            files.push(MemFile {
                name: name.as_bytes().to_vec(alloc)?,
                bytes: text.as_bytes().to_vec(alloc)?,
            })?;
        }
    }
    Ok(files)
}

/// Runs a line over the worked files with other texts in some of them, and tests the status and what was written.
fn expect(
    rt: &(impl Abort + Threads + Alloc<A = Global> + Sync),
    line: &str,
    changes: &[(&str, &str)],
    status: Status,
    out_text: &str,
    err_text: &str,
) -> Result<(), Fail> {
    let files = files_with(rt.alloc(), changes)?;
    expect_over(rt, line, files, status, out_text, err_text)
}

/// Runs a line over the files and tests the status and what was written.
fn expect_over(
    rt: &(impl Abort + Threads + Alloc<A = Global> + Sync),
    line: &str,
    files: Vec<MemFile>,
    status: Status,
    out_text: &str,
    err_text: &str,
) -> Result<(), Fail> {
    let alloc = rt.alloc();
    assert!(rt; MemFile::names_differ(&files));
    let mut shelf = SteadyShelf::new(alloc, files);
    let mut out = SteadySink::new(alloc);
    let mut err = SteadySink::new(alloc);
    let words = words_of(alloc, line)?;
    let got = run(rt, alloc, &words, &mut shelf, &mut out, &mut err, &OpenGate);
    assert_eq!(rt; got, status);
    assert_eq!(rt; out.bytes(), out_text.as_bytes());
    assert_eq!(rt; err.bytes(), err_text.as_bytes());
    Ok(())
}

/// Runs a line over the one file `m.mat`.
fn expect_matrix(
    rt: &(impl Abort + Threads + Alloc<A = Global> + Sync),
    line: &str,
    text: &str,
    status: Status,
    out_text: &str,
    err_text: &str,
) -> Result<(), Fail> {
    let file = MemFile {
        name: b"m.mat".to_vec(rt.alloc())?,
        bytes: text.as_bytes().to_vec(rt.alloc())?,
    };
    let files = vec![in rt.alloc(); file]?;
    expect_over(rt, line, files, status, out_text, err_text)
}

/// Tests what is said of a point of the worked program.
fn expect_point(
    rt: &(impl Abort + Threads + Alloc<A = Global> + Sync),
    point: &str,
    status: Status,
    text: &str,
) -> Result<(), Fail> {
    expect(rt, "point t", &[("t.pt", point)], status, text, "")
}

#[test]
fn point_says_what_a_point_breaks_or_costs(rt: HostRuntime) -> Result<(), Fail> {
    expect_point(&rt, "2 2\n1 3\n2 2\n", Status::Done, "feasible\ncost 5\n")?;
    expect_point(&rt, "2 2\n1 3\n2 1\n", Status::No, "broken brick 2 row 1\n")?;
    expect_point(&rt, "2 2\n0 4\n2 2\n", Status::No, "broken link row 1\n")?;
    expect_point(
        &rt,
        "2 2\n5 -1\n2 2\n",
        Status::No,
        "broken above brick 1 column 1\n",
    )
}

/// Tests the line on a file of the worked program with another text.
fn expect_refused(
    rt: &(impl Abort + Threads + Alloc<A = Global> + Sync),
    name: &str,
    text: &str,
    line: &str,
) -> Result<(), Fail> {
    expect(rt, "point t", &[(name, text)], Status::Input, "", line)
}

#[test]
fn a_refused_file_is_named_with_the_place(rt: HostRuntime) -> Result<(), Fail> {
    expect_refused(
        &rt,
        "t.ub",
        "2 2\n4 4\n-1 4\n",
        "input: t.ub: crossed at brick 2 column 1\n",
    )?;
    expect_refused(
        &rt,
        "t.lb",
        "2 2\n0 *\n0 0\n",
        "input: t.lb: no-bound at 6\n",
    )?;
    expect_refused(
        &rt,
        "t.brick.mat",
        "1 2\n",
        "input: t.brick.mat: ends-early at 4\n",
    )?;
    expect_refused(
        &rt,
        "t.brick.mat",
        "1 2\n1 1 5",
        "input: t.brick.mat: extra at 8\n",
    )?;
    expect_refused(&rt, "t.cost", "2 2\nq 1 0", "input: t.cost: syntax at 9\n")?;
    expect_refused(&rt, "t.pt", "2 3\n", "input: t.pt: shape at 2\n")
}

/// Tests the line on the first cost of the worked program, where its upper bound is this.
fn expect_cost_refused(
    rt: &(impl Abort + Threads + Alloc<A = Global> + Sync),
    cost: &str,
    upper: &str,
    what: &str,
) -> Result<(), Fail> {
    let alloc = rt.alloc();
    let costs = format!(in alloc; "2 2 {cost} q 0 0 0 q 1 0 0 q 0 0 0")?;
    let uppers = format!(in alloc; "2 2 {upper} 4 4 4")?;
    let line = format!(in alloc; "input: t.cost: {what}\n")?;
    let changes = [("t.cost", costs.as_str()), ("t.ub", uppers.as_str())];
    expect(rt, "point t", &changes, Status::Input, "", &line)
}

#[test]
fn a_refused_cost_is_named_with_its_column(rt: HostRuntime) -> Result<(), Fail> {
    expect_cost_refused(
        &rt,
        "p 2 0 0 2 3",
        "2",
        "slope-not-whole at brick 1 column 1 point 2",
    )?;
    expect_cost_refused(
        &rt,
        "p 3 0 0 1 2 2 3",
        "2",
        "not-convex at brick 1 column 1 point 3",
    )?;
    expect_cost_refused(
        &rt,
        "q 4611686018427387904 0 0",
        "4611686018427387904",
        "too-large at brick 1 column 1",
    )
}

#[test]
fn breakpoints_with_whole_slopes_are_accepted(rt: HostRuntime) -> Result<(), Fail> {
    let costs = [("t.cost", "2 2 p 2 0 0 4 8 q 0 0 0 q 1 0 0 q 0 0 0")];
    let text = "feasible\ncost 6\n";
    expect(&rt, "point t", &costs, Status::Done, text, "")
}

/// Tests what is said of a point whose linking row has the sum 2 and the right side 3, with this file of relations.
fn expect_related(
    rt: &(impl Abort + Threads + Alloc<A = Global> + Sync),
    line: &str,
    relations: &str,
    status: Status,
    text: &str,
) -> Result<(), Fail> {
    let changes = [("t.pt", "2 2\n0 4\n2 2\n"), ("t.rel", relations)];
    expect(rt, line, &changes, status, text, "")
}

#[test]
fn relations_say_what_the_sum_of_a_linking_row_has_to_be(rt: HostRuntime) -> Result<(), Fail> {
    let feasible = "feasible\ncost 4\n";
    let broken = "broken link row 1\n";
    expect_related(&rt, "point t --rel", "1 1\n<\n", Status::Done, feasible)?;
    expect_related(&rt, "point t --rel", "+1 01 <", Status::Done, feasible)?;
    expect_related(&rt, "point t --rel", "1 1\n>\n", Status::No, broken)?;
    expect_related(&rt, "point t --rel", "1 1\n=\n", Status::No, broken)?;
    expect_related(&rt, "point t", "1 1\n<\n", Status::No, broken)
}

#[test]
fn without_a_linking_row_there_is_no_relation(rt: HostRuntime) -> Result<(), Fail> {
    let no_rows = [
        ("t.link.mat", "0 2"),
        ("t.rhs", "1 2 4 4"),
        ("t.rel", "1 -0"),
    ];
    let text = "feasible\ncost 5\n";
    expect(&rt, "point t --rel", &no_rows, Status::Done, text, "")
}

/// Tests the line on a file of relations.
fn expect_no_relations(
    rt: &(impl Abort + Threads + Alloc<A = Global> + Sync),
    text: &str,
    line: &str,
) -> Result<(), Fail> {
    expect(
        rt,
        "point t --rel",
        &[("t.rel", text)],
        Status::Input,
        "",
        line,
    )
}

#[test]
fn a_refused_relation_is_named_with_the_place(rt: HostRuntime) -> Result<(), Fail> {
    expect_no_relations(&rt, "1 1\n~", "input: t.rel: syntax at 4\n")?;
    expect_no_relations(&rt, "1 1\n<=\n", "input: t.rel: syntax at 4\n")?;
    expect_no_relations(&rt, "1 1\n", "input: t.rel: syntax at 4\n")?;
    expect_no_relations(&rt, "1 1 < <", "input: t.rel: syntax at 6\n")?;
    expect_no_relations(&rt, "1 0", "input: t.rel: syntax at 2\n")?;
    expect_no_relations(&rt, "2 1 <", "input: t.rel: syntax at 0\n")
}

const USAGE: &str = "usage: nfold point P, graver M, solve P, check P, trial NUMBER N\n";

/// Tests that a line is no form.
fn expect_usage(
    rt: &(impl Abort + Threads + Alloc<A = Global> + Sync),
    line: &str,
) -> Result<(), Fail> {
    expect(rt, line, &[], Status::Usage, "", USAGE)
}

#[test]
fn words_that_are_no_form_give_the_usage(rt: HostRuntime) -> Result<(), Fail> {
    expect_usage(&rt, "")?;
    expect_usage(&rt, "point")?;
    expect_usage(&rt, "points t")?;
    expect_usage(&rt, "point t --rel --rel")?;
    expect_usage(&rt, "graver m --rel")?;
    expect_usage(&rt, "solve")?;
    expect_usage(&rt, "solve t --workers 0")?;
    expect_usage(&rt, "solve t --workers 17")?;
    expect_usage(&rt, "solve t --workers 2 --workers 2")?;
    expect_usage(&rt, "solve t --workers=2")?;
    expect_usage(&rt, "solve -t")?;
    expect_usage(&rt, "check t --max-basis 5")?;
    expect_usage(&rt, "trial 1")
}

#[test]
fn no_words_give_the_usage(rt: HostRuntime) {
    let alloc = rt.alloc();
    let mut shelf = SteadyShelf::new(alloc, Vec::new(alloc));
    let mut out = SteadySink::new(alloc);
    let mut err = SteadySink::new(alloc);
    let got = run(&rt, alloc, &[], &mut shelf, &mut out, &mut err, &OpenGate);
    assert_eq!(rt; got, Status::Usage);
    assert_eq!(rt; err.bytes(), USAGE.as_bytes());
}

/// Tests that this file is named where it is absent.
fn expect_missing(
    rt: &(impl Abort + Threads + Alloc<A = Global> + Sync),
    line: &str,
    name: &str,
) -> Result<(), Fail> {
    let text = format!(in rt.alloc(); "read: {name}\n")?;
    expect(rt, line, &[(name, "")], Status::ReadFault, "", &text)
}

#[test]
fn a_missing_file_is_named(rt: HostRuntime) -> Result<(), Fail> {
    expect_missing(&rt, "point t", "t.cost")?;
    expect_missing(&rt, "point t", "t.pt")?;
    expect_missing(&rt, "point t --rel", "t.rel")?;
    expect_missing(&rt, "solve t", "t.cost")?;
    expect_missing(&rt, "check t", "t.cert")
}

/// The calls of the outside that fail: of the shelf, of the output and of the errors.
#[derive(Clone, Copy)]
struct Failing {
    shelf: u64,
    out: u64,
    err: u64,
}

/// No call of this number is made.
const NONE: u64 = 99;

/// Runs a line over the worked files with other texts in some of them, where calls fail, and tests the status and what
/// was written.
fn expect_failing(
    rt: &(impl Abort + Threads + Alloc<A = Global> + Sync),
    line: &str,
    changes: &[(&str, &str)],
    failing: &Failing,
    status: Status,
    out_text: &str,
    err_text: &str,
) -> Result<(), Fail> {
    let alloc = rt.alloc();
    let files = files_with(alloc, changes)?;
    assert!(rt; MemFile::names_differ(&files));
    let mut shelf = MemShelf::new(alloc, files, [failing.shelf].to_vec(alloc)?, 4_096);
    let mut out = MemSink::new(alloc, [failing.out].to_vec(alloc)?, 5);
    let mut err = MemSink::new(alloc, [failing.err].to_vec(alloc)?, 5);
    let words = words_of(alloc, line)?;
    let got = run(rt, alloc, &words, &mut shelf, &mut out, &mut err, &OpenGate);
    assert_eq!(rt; got, status, "at {line}");
    assert_eq!(rt; out.bytes(), out_text.as_bytes());
    assert_eq!(rt; err.bytes(), err_text.as_bytes());
    Ok(())
}

/// Tests which file is named where this call of the shelf fails.
fn expect_unread(
    rt: &(impl Abort + Threads + Alloc<A = Global> + Sync),
    line: &str,
    shelf: u64,
    text: &str,
) -> Result<(), Fail> {
    let failing = Failing {
        shelf,
        out: NONE,
        err: NONE,
    };
    expect_failing(rt, line, &[], &failing, Status::ReadFault, "", text)
}

// Each file takes two calls: its bytes, and the end.
#[test]
fn the_file_whose_reading_failed_is_named(rt: HostRuntime) -> Result<(), Fail> {
    expect_unread(&rt, "point t", 1, "read: t.link.mat\n")?;
    expect_unread(&rt, "point t", 4, "read: t.brick.mat\n")?;
    expect_unread(&rt, "point t", 5, "read: t.lb\n")?;
    expect_unread(&rt, "solve t", 7, "read: t.ub\n")?;
    expect_unread(&rt, "solve t", 9, "read: t.rhs\n")?;
    expect_unread(&rt, "point t", 13, "read: t.pt\n")?;
    expect_unread(&rt, "point t --rel", 11, "read: t.rel\n")?;
    expect_unread(&rt, "point t --rel", 13, "read: t.cost\n")?;
    expect_unread(&rt, "check t", 13, "read: t.cert\n")
}

/// Tests what the output has taken where this call of it fails.
fn expect_part_written(
    rt: &(impl Abort + Threads + Alloc<A = Global> + Sync),
    out: u64,
    text: &str,
) -> Result<(), Fail> {
    let failing = Failing {
        shelf: NONE,
        out,
        err: NONE,
    };
    let status = Status::WriteFault;
    expect_failing(rt, "point t", &[], &failing, status, text, "write\n")
}

// The output takes five bytes a call.
#[test]
fn a_failed_write_leaves_a_first_part(rt: HostRuntime) -> Result<(), Fail> {
    expect_part_written(&rt, 1, "")?;
    expect_part_written(&rt, 2, "feasi")?;
    expect_part_written(&rt, 4, "feasible\ncost 5")
}

/// Tests what the errors have taken where their first or second call fails.
fn expect_part_said(
    rt: &(impl Abort + Threads + Alloc<A = Global> + Sync),
    line: &str,
    changes: &[(&str, &str)],
    out: u64,
    status: Status,
    said: &str,
) -> Result<(), Fail> {
    let first = Failing {
        shelf: NONE,
        out,
        err: 1,
    };
    expect_failing(rt, line, changes, &first, status, "", "")?;
    let second = Failing { err: 2, ..first };
    expect_failing(rt, line, changes, &second, status, "", said)
}

// The errors take five bytes a call.
#[test]
fn a_fault_of_the_errors_changes_no_status(rt: HostRuntime) -> Result<(), Fail> {
    let misshaped = [("t.pt", "2 3\n")];
    let absent = [("t.cost", "")];
    expect_part_said(&rt, "point", &[], NONE, Status::Usage, "usage")?;
    expect_part_said(&rt, "point t", &misshaped, NONE, Status::Input, "input")?;
    expect_part_said(&rt, "point t", &absent, NONE, Status::ReadFault, "read:")?;
    expect_part_said(&rt, "point t", &[], 1, Status::WriteFault, "write")
}

/// Gives an answer with a file to be stored where these calls of the shelf and of the output fail, each moving eight
/// bytes, and tests what is stored and written.
fn expect_given(
    rt: &(impl Abort + Alloc<A = Global>),
    shelf_fails: u64,
    out_fails: u64,
    status: Status,
    stored: Option<&str>,
    out_text: &str,
) -> Result<(), Fail> {
    let alloc = rt.alloc();
    let answer = Answer {
        status: Status::Done,
        text: b"done\n".to_vec(alloc)?,
        stored: Some(StoredFile {
            name: String::from_str(alloc, "t.cert")?,
            bytes: b"a certificate".to_vec(alloc)?,
        }),
    };
    let mut shelf = MemShelf::new(alloc, Vec::new(alloc), [shelf_fails].to_vec(alloc)?, 8);
    let mut out = MemSink::new(alloc, [out_fails].to_vec(alloc)?, 8);
    let mut err = SteadySink::new(alloc);
    let got = give(&answer, &mut shelf, &mut out, &mut err);
    assert_eq!(rt; got, status);
    assert_eq!(rt; shelf.file("t.cert"), stored.map(|text| text.as_bytes()));
    assert_eq!(rt; out.bytes(), out_text.as_bytes());
    Ok(())
}

// Call 1 of the shelf creates the file, and calls 2 and 3 add its two pieces of at most eight bytes.
#[test]
fn what_is_stored_is_whole_before_the_first_byte_of_the_text(rt: HostRuntime) -> Result<(), Fail> {
    let whole = Some("a certificate");
    expect_given(&rt, NONE, NONE, Status::Done, whole, "done\n")?;
    expect_given(&rt, 1, NONE, Status::WriteFault, None, "")?;
    expect_given(&rt, 2, NONE, Status::WriteFault, Some(""), "")?;
    expect_given(&rt, 3, NONE, Status::WriteFault, Some("a certif"), "")?;
    expect_given(&rt, NONE, 1, Status::WriteFault, whole, "")
}

/// Tests the kernel that is printed of a matrix.
fn expect_kernel(
    rt: &(impl Abort + Threads + Alloc<A = Global> + Sync),
    matrix: &str,
    kernel: &str,
) -> Result<(), Fail> {
    expect_matrix(rt, "graver m", matrix, Status::Done, kernel, "")
}

// Each kernel was found by trying all small vectors.
#[test]
fn graver_prints_the_kernel_of_small_matrices(rt: HostRuntime) -> Result<(), Fail> {
    expect_kernel(&rt, "1 3\n1 2 1\n", "4 3\n0 1 -2\n1 -1 1\n1 0 -1\n2 -1 0\n")?;
    expect_kernel(&rt, "0 2", "2 2\n0 1\n1 0\n")?;
    expect_kernel(&rt, "1 3 1 1 1", "3 3\n0 1 -1\n1 -1 0\n1 0 -1\n")?;
    expect_kernel(&rt, "1 2 1 2", "1 2\n2 -1\n")?;
    expect_kernel(
        &rt,
        "1 3 1 2 3",
        "5 3\n0 3 -2\n1 -2 1\n1 1 -1\n2 -1 0\n3 0 -1\n",
    )?;
    expect_kernel(&rt, "1 3 1 1 2", "4 3\n0 2 -1\n1 -1 0\n1 1 -1\n2 0 -1\n")?;
    expect_kernel(&rt, "2 2 1 1 0 0", "1 2\n1 -1\n")?;
    expect_kernel(&rt, "1 3 1 0 1", "2 3\n0 1 0\n1 0 -1\n")?;
    expect_kernel(&rt, "2 2 1 0 0 1", "0 2\n")
}

#[test]
fn graver_of_no_row_prints_the_unit_vectors(rt: HostRuntime) -> Result<(), Fail> {
    let mut kernel = String::from_str(rt.alloc(), "32 32\n")?;
    for row in (0..32).rev() {
        for col in 0..32 {
            kernel.push_str(if col == row { "1" } else { "0" })?;
            kernel.push_str(if col == 31 { "\n" } else { " " })?;
        }
    }
    expect_matrix(&rt, "graver m", "0 32", Status::Done, &kernel, "")
}

#[test]
fn graver_prints_the_cycles_of_transportation_problems(rt: HostRuntime) -> Result<(), Fail> {
    expect_kernel(
        &rt,
        "4 4 1 1 0 0 0 0 1 1 1 0 1 0 0 1 0 1",
        "1 4\n1 -1 -1 1\n",
    )?;
    expect_kernel(
        &rt,
        "5 6 1 1 1 0 0 0 0 0 0 1 1 1 1 0 0 1 0 0 0 1 0 0 1 0 0 0 1 0 0 1",
        "3 6\n0 1 -1 0 -1 1\n1 -1 0 -1 1 0\n1 0 -1 -1 0 1\n",
    )
}

// The slack basis of the row (1 2 1) has nine elements.
#[test]
fn graver_meets_its_limit_exactly(rt: HostRuntime) -> Result<(), Fail> {
    let kernel = "4 3\n0 1 -2\n1 -1 1\n1 0 -1\n2 -1 0\n";
    let limit = "limit: basis\n";
    let (nine, eight) = ("graver m --max-basis 9", "graver m --max-basis 8");
    expect_matrix(&rt, nine, "1 3 1 2 1", Status::Done, kernel, "")?;
    expect_matrix(&rt, eight, "1 3 1 2 1", Status::Limit, "", limit)?;
    let wide = "2 2 1 1 2147483647 -2147483647";
    let all = "graver m --max-basis 2000";
    expect_matrix(&rt, all, wide, Status::Limit, "", limit)
}

/// Tests the line on the file of a matrix.
fn expect_no_matrix(
    rt: &(impl Abort + Threads + Alloc<A = Global> + Sync),
    text: &str,
    line: &str,
) -> Result<(), Fail> {
    expect_matrix(rt, "graver m", text, Status::Input, "", line)
}

#[test]
fn graver_names_what_is_wrong_with_its_file(rt: HostRuntime) -> Result<(), Fail> {
    expect_no_matrix(&rt, "17 1", "input: m.mat: shape at 0\n")?;
    expect_no_matrix(&rt, "1 33", "input: m.mat: shape at 2\n")?;
    expect_no_matrix(&rt, "1 0", "input: m.mat: shape at 2\n")?;
    expect_no_matrix(&rt, "1 1 2147483648", "input: m.mat: too-big at 4\n")?;
    expect_no_matrix(&rt, "1 2 1", "input: m.mat: ends-early at 5\n")?;
    let absent = "read: n.mat\n";
    expect_matrix(&rt, "graver n", "1 1 1", Status::ReadFault, "", absent)
}

/// The files where the right side of the first brick is 9, and the certificate has this claim, point and list.
fn expect_checked(
    rt: &(impl Abort + Threads + Alloc<A = Global> + Sync),
    claim: &str,
    point: &str,
    elements: &str,
    status: Status,
    line: &str,
) -> Result<(), Fail> {
    let text = format!(in rt.alloc();
        "nfold-certificate 1 claim infeasible-brick {claim} point 1 2 {point} bricks {elements} end"
    )?;
    let changes = [("t.rhs", "1 3 3 9 4"), ("t.cert", text.as_str())];
    expect(rt, "check t", &changes, status, line, "")
}

// No vector within the bounds 0 to 4 has entries that add up to more than 8.
#[test]
fn check_confirms_a_brick_that_misses_its_row(rt: HostRuntime) -> Result<(), Fail> {
    let line = "yes infeasible brick 1 residual 1\n";
    let changes = [("t.rhs", "1 3 3 9 4"), ("t.rel", "1 1 >")];
    expect(&rt, "check t", &changes, Status::Done, line, "")?;
    expect(&rt, "check t --rel", &changes, Status::Done, line, "")?;
    expect(&rt, "check t", &[], Status::No, "no B2\n", "")
}

#[test]
fn check_names_the_first_rule_that_is_broken(rt: HostRuntime) -> Result<(), Fail> {
    let whole = "3 3 0 1 1 1 -1 0 1 0 1";
    expect_checked(&rt, "3", "4 4", whole, Status::No, "no B1\n")?;
    expect_checked(&rt, "1", "4 5", whole, Status::No, "no B1\n")?;
    expect_checked(&rt, "1", "4 4", "2 3 0 1 1 1 0 1", Status::No, "no C2\n")?;
    expect_checked(&rt, "1", "4 3", whole, Status::No, "no B2\n")?;
    expect_checked(&rt, "2", "0 4", whole, Status::No, "no C7\n")
}

/// Tests the line on the file of a certificate.
fn expect_no_certificate(
    rt: &(impl Abort + Threads + Alloc<A = Global> + Sync),
    text: &str,
    line: &str,
) -> Result<(), Fail> {
    expect(rt, "check t", &[("t.cert", text)], Status::Input, "", line)
}

#[test]
fn check_names_what_is_wrong_with_the_certificate(rt: HostRuntime) -> Result<(), Fail> {
    expect_no_certificate(&rt, " ", "input: t.cert: ends-early at 1\n")?;
    expect_no_certificate(&rt, "nfold-certificate 2", "input: t.cert: word at 18\n")?;
    expect_no_certificate(
        &rt,
        "nfold-certificate 1 claim feasible",
        "input: t.cert: word at 26\n",
    )?;
    expect_no_certificate(
        &rt,
        "nfold-certificate 1 claim infeasible-brick 10001",
        "input: t.cert: too-big at 43\n",
    )?;
    expect_no_certificate(
        &rt,
        "nfold-certificate 1 claim infeasible-brick 1 point 1 33",
        "input: t.cert: too-many at 53\n",
    )
}
