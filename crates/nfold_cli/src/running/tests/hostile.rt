//! `solve` and `check` where each call of the outside fails, and where a file is damaged.

ghost use Rattle.std.specs.Prelude.{◌≤◌};

use super::solving::CERTIFICATE;
use super::*;

/// What `solve t` prints of the worked program.
const SOLVED: &str = "optimal\ncost 5\n2 2\n1 3\n2 2\n";

/// Tests that a file is named where this call of the shelf fails, or the next one: that for its bytes, and that at its
/// end.
fn expect_named(
    rt: &(impl Abort + Threads + Alloc<A = Global> + Sync),
    line: &str,
    first: u64,
    name: &str,
) -> Result<(), Fail>
    requires { first ≤ 13 }
{
    let text = format!(in rt.alloc(); "read: {name}\n")?;
    expect_unread(rt, line, first, &text)?;
    expect_unread(rt, line, first + 1, &text)
}

#[test]
fn each_read_of_a_solve_that_fails_names_its_file(rt: HostRuntime) -> Result<(), Fail> {
    expect_named(&rt, "solve t", 1, "t.link.mat")?;
    expect_named(&rt, "solve t", 3, "t.brick.mat")?;
    expect_named(&rt, "solve t", 5, "t.lb")?;
    expect_named(&rt, "solve t", 7, "t.ub")?;
    expect_named(&rt, "solve t", 9, "t.rhs")?;
    expect_named(&rt, "solve t", 11, "t.cost")
}

#[test]
fn each_read_of_a_check_that_fails_names_its_file(rt: HostRuntime) -> Result<(), Fail> {
    expect_named(&rt, "check t", 1, "t.link.mat")?;
    expect_named(&rt, "check t", 3, "t.brick.mat")?;
    expect_named(&rt, "check t", 5, "t.lb")?;
    expect_named(&rt, "check t", 7, "t.ub")?;
    expect_named(&rt, "check t", 9, "t.rhs")?;
    expect_named(&rt, "check t", 11, "t.cost")?;
    expect_named(&rt, "check t", 13, "t.cert")
}

/// Solves the worked program where these calls fail, the output and the errors taking five bytes a call, and tests the
/// status, what was written, and what stands in the file of the certificate.
fn expect_left(
    rt: &(impl Abort + Threads + Alloc<A = Global> + Sync),
    failing: &Failing,
    status: Status,
    out_text: &str,
    err_text: &str,
    stored: &str,
) -> Result<(), Fail> {
    let alloc = rt.alloc();
    let files = files_with(alloc, &[])?;
    assert!(rt; MemFile::names_differ(&files));
    let mut shelf = MemShelf::new(alloc, files, [failing.shelf].to_vec(alloc)?, 4_096);
    let mut out = MemSink::new(alloc, [failing.out].to_vec(alloc)?, 5);
    let mut err = MemSink::new(alloc, [failing.err].to_vec(alloc)?, 5);
    let words = words_of(alloc, "solve t")?;
    let got = run(rt, alloc, &words, &mut shelf, &mut out, &mut err, &OpenGate);
    assert_eq!(rt; got, status);
    assert_eq!(rt; out.bytes(), out_text.as_bytes());
    assert_eq!(rt; err.bytes(), err_text.as_bytes());
    assert_eq!(rt; shelf.file("t.cert"), Some(stored.as_bytes()));
    Ok(())
}

/// No call fails.
const SOUND: Failing = Failing {
    shelf: NONE,
    out: NONE,
    err: NONE,
};

// Calls 1 to 12 read the six files, call 13 creates the file of the certificate, and call 14 adds to it.
#[test]
fn a_solve_that_cannot_store_leaves_a_first_part(rt: HostRuntime) -> Result<(), Fail> {
    let status = Status::WriteFault;
    let unread = Failing { shelf: 12, ..SOUND };
    expect_left(
        &rt,
        &unread,
        Status::ReadFault,
        "",
        "read: t.cost\n",
        STORED,
    )?;
    let not_created = Failing { shelf: 13, ..SOUND };
    expect_left(&rt, &not_created, status, "", "write\n", STORED)?;
    let nothing_added = Failing { shelf: 14, ..SOUND };
    expect_left(&rt, &nothing_added, status, "", "write\n", "")?;
    expect_left(&rt, &SOUND, Status::Done, SOLVED, "", CERTIFICATE)
}

#[test]
fn a_solve_that_cannot_write_has_stored_its_certificate(rt: HostRuntime) -> Result<(), Fail> {
    let status = Status::WriteFault;
    let first = Failing { out: 1, ..SOUND };
    expect_left(&rt, &first, status, "", "write\n", CERTIFICATE)?;
    let last = Failing { out: 6, ..SOUND };
    let part = "optimal\ncost 5\n2 2\n1 3\n2 ";
    expect_left(&rt, &last, status, part, "write\n", CERTIFICATE)
}

#[test]
fn a_fault_of_the_errors_changes_no_solve(rt: HostRuntime) -> Result<(), Fail> {
    let silent = Failing { err: 1, ..SOUND };
    expect_left(&rt, &silent, Status::Done, SOLVED, "", CERTIFICATE)?;
    let unread = Failing { shelf: 1, ..silent };
    expect_left(&rt, &unread, Status::ReadFault, "", "", STORED)?;
    let not_created = Failing {
        shelf: 13,
        ..silent
    };
    expect_left(&rt, &not_created, Status::WriteFault, "", "", STORED)?;
    let nothing_added = Failing {
        shelf: 14,
        ..silent
    };
    expect_left(&rt, &nothing_added, Status::WriteFault, "", "", "")?;
    let unwritten = Failing { out: 1, ..silent };
    expect_left(&rt, &unwritten, Status::WriteFault, "", "", CERTIFICATE)
}

// ---- damaged files

/// The worked files, with these bytes in one of them.
fn files_holding(alloc: Global, name: &str, bytes: Vec<u8>) -> Result<Vec<MemFile>, AllocError> {
    let mut files = files_with(alloc, &[(name, "")])?;
    files.push(MemFile {
        name: name.as_bytes().to_vec(alloc)?,
        bytes,
    })?;
    Ok(files)
}

#[test]
fn an_empty_file_ends_early_and_a_last_line_feed_is_not_missed(
    rt: HostRuntime,
) -> Result<(), Fail> {
    let alloc = rt.alloc();
    let empty = files_holding(alloc, "t.link.mat", Vec::new(alloc))?;
    let line = "input: t.link.mat: ends-early at 0\n";
    expect_over(&rt, "solve t", empty, Status::Input, "", line)?;
    let cut = [("t.link.mat", "1 2\n1 0")];
    expect(&rt, "solve t", &cut, Status::Done, SOLVED, "")
}

#[test]
fn a_certificate_ends_with_its_last_word(rt: HostRuntime) -> Result<(), Fail> {
    let line = "input: t.cert: word at 26\n";
    expect_no_certificate(&rt, "nfold-certificate 1\nclaim opt", line)?;
    let twice = format!(in rt.alloc(); "{CERTIFICATE}end\n")?;
    expect_no_certificate(&rt, &twice, "input: t.cert: extra at 213\n")
}

/// The status of `check t` over the worked files with these bytes as the certificate.
fn checked(
    rt: &(impl Abort + Threads + Alloc<A = Global> + Sync),
    certificate: Vec<u8>,
) -> Result<Status, Fail> {
    let alloc = rt.alloc();
    let files = files_holding(alloc, "t.cert", certificate)?;
    assert!(rt; MemFile::names_differ(&files));
    let mut shelf = SteadyShelf::new(alloc, files);
    let mut out = SteadySink::new(alloc);
    let mut err = SteadySink::new(alloc);
    let words = words_of(alloc, "check t")?;
    Ok(run(rt, alloc, &words, &mut shelf, &mut out, &mut err, &OpenGate))
}

/// Tests that a certificate is refused, or breaks a rule.
fn expect_no_yes(
    rt: &(impl Abort + Threads + Alloc<A = Global> + Sync),
    certificate: Vec<u8>,
) -> Result<(), Fail> {
    let got = checked(rt, certificate)?;
    assert!(rt; matches!(got, Status::Input | Status::No), "{got:?}");
    Ok(())
}

// The last line feed alone is not missed.
#[test]
fn a_certificate_that_is_cut_is_accepted_nowhere(rt: HostRuntime) -> Result<(), Fail> {
    let whole = CERTIFICATE.as_bytes();
    let alloc = rt.alloc();
    for (length, byte) in whole.iter().enumerate() {
        let cut = whole[..length].to_vec(alloc)?;
        if length + 1 == whole.len() {
            assert_eq!(rt; *byte, b'\n');
            assert_eq!(rt; checked(&rt, cut)?, Status::Done);
        } else {
            expect_no_yes(&rt, cut)?;
        }
    }
    Ok(())
}

/// What is done to a token.
#[derive(Clone, Copy)]
enum Damage {
    Replaced,
    Doubled,
    Dropped,
}

/// Adds a token with a space behind it.
fn append(text: &mut Vec<u8>, token: &[u8]) -> Result<(), AllocError> {
    text.extend_from_slice(token)?;
    text.push(b' ')?;
    Ok(())
}

/// The text of the tokens, of which this one is damaged.
fn damaged(
    alloc: Global,
    tokens: &[Vec<u8>],
    place: usize,
    damage: Damage,
) -> Result<Vec<u8>, AllocError> {
    let mut text = Vec::new(alloc);
    for (at, token) in tokens.iter().enumerate() {
        if at != place {
            append(&mut text, token)?;
            continue;
        }
        match damage {
            Damage::Replaced => append(&mut text, b"x")?,
            Damage::Doubled => {
                append(&mut text, token)?;
                append(&mut text, token)?;
            }
            Damage::Dropped => {}
        }
    }
    Ok(text)
}

/// Tests that no token of the certificate can be damaged so.
fn expect_each_missed(
    rt: &(impl Abort + Threads + Alloc<A = Global> + Sync),
    damage: Damage,
) -> Result<(), Fail> {
    let alloc = rt.alloc();
    let mut tokens = Vec::new(alloc);
    for token in CERTIFICATE.split_ascii_whitespace() {
        tokens.push(token.as_bytes().to_vec(alloc)?)?;
    }
    for place in 0..tokens.len() {
        expect_no_yes(rt, damaged(alloc, &tokens, place, damage)?)?;
    }
    Ok(())
}

#[test]
fn a_certificate_with_a_token_replaced_is_not_accepted(rt: HostRuntime) -> Result<(), Fail> {
    expect_each_missed(&rt, Damage::Replaced)
}

#[test]
fn a_certificate_with_a_token_doubled_is_not_accepted(rt: HostRuntime) -> Result<(), Fail> {
    expect_each_missed(&rt, Damage::Doubled)
}

#[test]
fn a_certificate_with_a_token_dropped_is_not_accepted(rt: HostRuntime) -> Result<(), Fail> {
    expect_each_missed(&rt, Damage::Dropped)
}
