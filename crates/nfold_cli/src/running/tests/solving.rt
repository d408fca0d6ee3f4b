//! `solve` and `trial` through the top call. Texts and certificates are worked by hand, or by a plain reading of the
//! rules in another language.

ghost use Rattle.std.specs.Prelude.{◌≤◌};

use super::*;

/// What `solve t --trace` prints of the worked program.
const TRACED: &str = concat!(
    "brick 1 length 4 vector 0 1\n",
    "brick 2 length 4 vector 0 1\n",
    "counted length 1 gain 2 at 2 2 -2\n",
    "counted length 1 gain 1 at 2 1 -1\n",
    "counted made 2 factor 20 digits 2\n",
    "closed length 1 gain 4 at 1 1 -1 at 2 -1 1\n",
    "closed made 1 factor 20 digits 3\n",
    "optimal\ncost 5\n2 2\n1 3\n2 2\n",
);

/// And its certificate.
pub(super) const CERTIFICATE: &str = concat!(
    "nfold-certificate 1\nclaim optimal\npoint\n2 2\n1 3\n2 2\n",
    "bricks\n3 3\n0 1 1\n1 -1 0\n1 0 1\nlinks\n1 2\n1 1\nbound 2\n",
    "sums\n5 3\n2 -2 2\n1 -1 1\n0 0 0\n1 1 -1\n2 2 -2\n",
    "potentials\n3 5\n8 3 0 -3 -4\n12 5 0 -3 -4\nnone none 0 none none\nend\n",
);

/// The certificate that the sum of the first columns cannot be 9.
const LINK_CERTIFICATE: &str = concat!(
    "nfold-certificate 1\nclaim infeasible-link\npoint\n2 2\n4 0\n4 0\n",
    "bricks\n3 3\n0 1 1\n1 -1 0\n1 0 1\nlinks\n1 2\n1 1\nbound 2\n",
    "sums\n5 3\n2 -2 2\n1 -1 1\n0 0 0\n1 1 -1\n2 2 -2\n",
    "potentials\n3 5\n2 1 0 -1 -1\n2 1 0 -1 -1\n2 1 0 -1 0\nend\n",
);

/// The certificate that the sum of the columns of brick 2 cannot be 9.
const BRICK_CERTIFICATE: &str = concat!(
    "nfold-certificate 1\nclaim infeasible-brick 2\npoint\n1 2\n4 4\n",
    "bricks\n3 3\n0 1 1\n1 -1 0\n1 0 1\nend\n",
);

/// Solves the worked program with other texts in some of its files, tests the text and the certificate that is stored,
/// and then what `check` says of it.
pub(super) fn expect_solved(
    rt: &(impl Abort + Threads + Alloc<A = Global> + Sync),
    line: &str,
    changes: &[(&str, &str)],
    out_text: &str,
    certificate: &str,
    checked: &str,
) -> Result<(), Fail> {
    let alloc = rt.alloc();
    let files = files_with(alloc, changes)?;
    assert!(rt; MemFile::names_differ(&files));
    let mut shelf = MemShelf::new(alloc, files, Vec::new(alloc), 4_096);
    let mut out = SteadySink::new(alloc);
    let mut err = SteadySink::new(alloc);
    let words = words_of(alloc, line)?;
    let got = run(rt, alloc, &words, &mut shelf, &mut out, &mut err, &OpenGate);
    assert_eq!(rt; got, Status::Done);
    assert_eq!(rt; out.bytes(), out_text.as_bytes());
    assert_eq!(rt; err.bytes(), b"".as_slice());
    assert_eq!(rt; shelf.file("t.cert"), Some(certificate.as_bytes()));
    let mut out = SteadySink::new(alloc);
    let words = words_of(alloc, "check t")?;
    let got = run(rt, alloc, &words, &mut shelf, &mut out, &mut err, &OpenGate);
    assert_eq!(rt; got, Status::Done);
    assert_eq!(rt; out.bytes(), checked.as_bytes());
    Ok(())
}

#[test]
fn solve_prints_each_step_and_stores_the_certificate(rt: HostRuntime) -> Result<(), Fail> {
    expect_solved(
        &rt,
        "solve t --trace",
        &[],
        TRACED,
        CERTIFICATE,
        "yes optimal cost 5\n",
    )
}

#[test]
fn each_worker_makes_the_same_steps(rt: HostRuntime) -> Result<(), Fail> {
    expect_solved(
        &rt,
        "solve t --workers 3 --trace",
        &[],
        TRACED,
        CERTIFICATE,
        "yes optimal cost 5\n",
    )
}

#[test]
fn solve_prints_the_outcome_alone_where_no_trace_is_asked_for(rt: HostRuntime) -> Result<(), Fail> {
    expect_solved(
        &rt,
        "solve t",
        &[],
        "optimal\ncost 5\n2 2\n1 3\n2 2\n",
        CERTIFICATE,
        "yes optimal cost 5\n",
    )
}

#[test]
fn linking_rows_that_cannot_be_met_are_reported(rt: HostRuntime) -> Result<(), Fail> {
    expect_solved(
        &rt,
        "solve t",
        &[("t.rhs", "1 3\n9 4 4\n")],
        "infeasible link residual 1\n",
        LINK_CERTIFICATE,
        "yes infeasible link residual 1\n",
    )
}

#[test]
fn the_first_brick_that_is_stuck_is_reported(rt: HostRuntime) -> Result<(), Fail> {
    let traced = concat!(
        "brick 1 length 4 vector 0 1\n",
        "brick 2 length 4 vector 0 1\n",
        "brick 2 length 4 vector 1 0\n",
        "infeasible brick 2 residual 1\n",
    );
    expect_solved(
        &rt,
        "solve t --trace",
        &[("t.rhs", "1 3\n3 4 9\n")],
        traced,
        BRICK_CERTIFICATE,
        "yes infeasible brick 2 residual 1\n",
    )
}

#[test]
fn an_even_sum_is_never_three(rt: HostRuntime) -> Result<(), Fail> {
    let changes = [
        ("t.link.mat", "0 2\n"),
        ("t.brick.mat", "1 2\n2 2\n"),
        ("t.lb", "1 2\n0 0\n"),
        ("t.ub", "1 2\n4 4\n"),
        ("t.rhs", "1 1\n3\n"),
        ("t.cost", "1 2\nq 1 0 0\nq 0 0 0\n"),
    ];
    let text = "brick 1 length 1 vector 0 1\ninfeasible brick 1 residual 1\n";
    expect(&rt, "solve t --trace", &changes, Status::Done, text, "")
}

#[test]
fn a_long_way_is_made_in_one_step(rt: HostRuntime) -> Result<(), Fail> {
    let changes = [
        ("t.link.mat", "0 2\n"),
        ("t.lb", "1 2\n-1099511627776 -1099511627776\n"),
        ("t.ub", "1 2\n1099511627776 1099511627776\n"),
        ("t.rhs", "1 1\n0\n"),
        ("t.cost", "1 2\nq 1 -2199023255552 0\nq 0 0 0\n"),
    ];
    let text = concat!(
        "closed length 1099511627776 gain 1208925819614629174706176 at 1 1 -1\n",
        "closed made 1 factor 4 digits 81\n",
        "optimal\ncost -1208925819614629174706176\n1 2\n1099511627776 -1099511627776\n",
    );
    expect(&rt, "solve t --trace", &changes, Status::Done, text, "")
}

// The bounds are as far apart as any may be: there are 64 lengths.
#[test]
fn the_widest_bounds_are_passed_in_one_step(rt: HostRuntime) -> Result<(), Fail> {
    let changes = [
        ("t.link.mat", "0 2\n"),
        ("t.lb", "1 2\n-4611686018427387904 -4611686018427387904\n"),
        ("t.ub", "1 2\n4611686018427387904 4611686018427387904\n"),
        ("t.rhs", "1 1\n0\n"),
        ("t.cost", "1 2\nq 0 1 0\nq 0 0 0\n"),
    ];
    let text = concat!(
        "closed length 4611686018427387904 gain 4611686018427387904 at 1 -1 1\n",
        "closed made 1 factor 4 digits 63\n",
        "optimal\ncost -4611686018427387904\n1 2\n-4611686018427387904 4611686018427387904\n",
    );
    expect(&rt, "solve t --trace", &changes, Status::Done, text, "")
}

#[test]
fn a_point_that_cannot_move_is_the_best_one(rt: HostRuntime) -> Result<(), Fail> {
    let changes = [("t.lb", "2 2\n1 3\n2 2\n"), ("t.ub", "2 2\n1 3\n2 2\n")];
    let text = "closed made 0 factor 20 digits 0\noptimal\ncost 5\n2 2\n1 3\n2 2\n";
    expect(&rt, "solve t --trace", &changes, Status::Done, text, "")
}

#[test]
fn with_relations_a_cheaper_point_is_found(rt: HostRuntime) -> Result<(), Fail> {
    let changes = [("t.rel", "1 1\n<\n")];
    let text = "optimal\ncost 0\n2 2\n0 4\n0 4\n";
    expect(&rt, "solve t --rel", &changes, Status::Done, text, "")
}

/// Tests the line on the limit that a solve passes, where the right sides are these.
fn expect_limit(
    rt: &(impl Abort + Threads + Alloc<A = Global> + Sync),
    line: &str,
    rights: &str,
    text: &str,
) -> Result<(), Fail> {
    expect(rt, line, &[("t.rhs", rights)], Status::Limit, "", text)
}

// In the last of these programs no linking row is missed once the bricks settle.
#[test]
fn the_limit_that_is_passed_first_is_named(rt: HostRuntime) -> Result<(), Fail> {
    let rights = "1 3\n3 4 4\n";
    let bricks = "limit: brick-basis\n";
    expect_limit(&rt, "solve t --max-basis 2", rights, bricks)?;
    let counted = "limit: sums counted\n";
    expect_limit(&rt, "solve t --max-sums 4", rights, counted)?;
    let closed = "limit: sums closed\n";
    expect_limit(&rt, "solve t --max-sums 4", "1 3\n0 4 4\n", closed)
}

#[test]
fn a_wide_entry_of_the_link_matrix_is_named(rt: HostRuntime) -> Result<(), Fail> {
    let wide = [("t.link.mat", "1 2\n2147483647 -1\n")];
    let text = "limit: link-entry row 1 column 1\n";
    expect(&rt, "solve t", &wide, Status::Limit, "", text)
}

// Five brick sums and a brick basis of three elements are within the limits.
#[test]
fn a_limit_that_is_just_met_is_not_passed(rt: HostRuntime) -> Result<(), Fail> {
    let text = "optimal\ncost 5\n2 2\n1 3\n2 2\n";
    let line = "solve t --max-sums 5 --max-basis 3";
    expect(&rt, line, &[], Status::Done, text, "")
}

// With no brick row the brick basis has 2 elements, and that of the link matrix `98 1` has 100.
#[test]
fn the_basis_of_the_link_matrix_has_a_limit_too(rt: HostRuntime) -> Result<(), Fail> {
    let changes = [
        ("t.link.mat", "1 2\n1 98\n"),
        ("t.brick.mat", "0 2\n"),
        ("t.rhs", "1 1\n0\n"),
    ];
    let text = "limit: link-basis\n";
    expect(
        &rt,
        "solve t --max-basis 99",
        &changes,
        Status::Limit,
        "",
        text,
    )
}

#[test]
fn solve_reads_no_point(rt: HostRuntime) -> Result<(), Fail> {
    let text = "optimal\ncost 5\n2 2\n1 3\n2 2\n";
    expect(&rt, "solve t", &[("t.pt", "")], Status::Done, text, "")
}

/// Solves the worked program where this call of the shelf fails, each call moving so many bytes, and tests what of the
/// certificate is stored. Nothing is printed.
fn expect_part(
    rt: &(impl Abort + Threads + Alloc<A = Global> + Sync),
    most: usize,
    fails: u64,
    stored: &str,
) -> Result<(), Fail>
    requires { 1 ≤ most }
{
    let alloc = rt.alloc();
    let files = files_with(alloc, &[])?;
    assert!(rt; MemFile::names_differ(&files));
    let mut shelf = MemShelf::new(alloc, files, [fails].to_vec(alloc)?, most);
    let mut out = SteadySink::new(alloc);
    let mut err = SteadySink::new(alloc);
    let words = words_of(alloc, "solve t")?;
    let got = run(rt, alloc, &words, &mut shelf, &mut out, &mut err, &OpenGate);
    assert_eq!(rt; got, Status::WriteFault);
    assert_eq!(rt; out.bytes(), b"".as_slice());
    assert_eq!(rt; err.bytes(), b"write\n".as_slice());
    assert_eq!(rt; shelf.file("t.cert"), Some(stored.as_bytes()));
    Ok(())
}

// With all bytes in one call, calls 1 to 12 read the six files, each to its end; call 13 creates the certificate's file
// and call 14 adds to it. With 16 bytes a call, calls 1 to 14 read, 15 creates, and 17 is the second that adds.
#[test]
fn nothing_is_printed_before_the_certificate_is_stored(rt: HostRuntime) -> Result<(), Fail> {
    expect_part(&rt, 4_096, 14, "")?;
    expect_part(&rt, 16, 17, "nfold-certificat")
}

/// Tests the line of a trial, which reads no file.
fn expect_trial(
    rt: &(impl Abort + Threads + Alloc<A = Global> + Sync),
    line: &str,
    text: &str,
) -> Result<(), Fail> {
    let files = Vec::new(rt.alloc());
    expect_over(rt, line, files, Status::Done, text, "")
}

#[test]
fn a_trial_is_solved_and_checked(rt: HostRuntime) -> Result<(), Fail> {
    expect_trial(
        &rt,
        "trial 0 1",
        "trial number 0 bricks 1 optimal cost 12 made 1 check yes\n",
    )?;
    expect_trial(
        &rt,
        "trial 1 1",
        "trial number 1 bricks 1 optimal cost 6 made 0 check yes\n",
    )?;
    expect_trial(
        &rt,
        "trial 7 5",
        "trial number 7 bricks 5 optimal cost 48 made 3 check yes\n",
    )?;
    expect_trial(
        &rt,
        "trial 2026 12",
        "trial number 2026 bricks 12 optimal cost 116 made 6 check yes\n",
    )?;
    expect_trial(
        &rt,
        "trial 11 40",
        "trial number 11 bricks 40 optimal cost 283 made 14 check yes\n",
    )?;
    expect_trial(
        &rt,
        "trial 65535 3",
        "trial number 65535 bricks 3 optimal cost 23 made 2 check yes\n",
    )
}
