//! `solve` by several workers: which of them tries which step length changes no byte.

use super::solving::expect_solved;
use super::*;

/// Three suppliers of 8 each serve twelve customers of 2 each, at the square of each amount.
const SUPPLIERS: [(&str, &str); 6] = [
    ("t.link.mat", "3 3\n1 0 0\n0 1 0\n0 0 1\n"),
    ("t.brick.mat", "1 3\n1 1 1\n"),
    (
        "t.lb",
        "12 3\n0 0 0 0 0 0 0 0 0 0 0 0 0 0 0 0 0 0\n0 0 0 0 0 0 0 0 0 0 0 0 0 0 0 0 0 0\n",
    ),
    (
        "t.ub",
        "12 3\n2 2 2 2 2 2 2 2 2 2 2 2 2 2 2 2 2 2\n2 2 2 2 2 2 2 2 2 2 2 2 2 2 2 2 2 2\n",
    ),
    ("t.rhs", "1 15\n8 8 8 2 2 2 2 2 2 2 2 2 2 2 2\n"),
    (
        "t.cost",
        concat!(
            "12 3\n",
            "q 1 0 0 q 1 0 0 q 1 0 0 q 1 0 0 q 1 0 0 q 1 0 0 q 1 0 0 q 1 0 0 q 1 0 0\n",
            "q 1 0 0 q 1 0 0 q 1 0 0 q 1 0 0 q 1 0 0 q 1 0 0 q 1 0 0 q 1 0 0 q 1 0 0\n",
            "q 1 0 0 q 1 0 0 q 1 0 0 q 1 0 0 q 1 0 0 q 1 0 0 q 1 0 0 q 1 0 0 q 1 0 0\n",
            "q 1 0 0 q 1 0 0 q 1 0 0 q 1 0 0 q 1 0 0 q 1 0 0 q 1 0 0 q 1 0 0 q 1 0 0\n",
        ),
    ),
];

/// What `solve t` prints of them.
const SERVED: &str = concat!(
    "optimal\ncost 24\n12 3\n0 1 1\n0 1 1\n0 1 1\n0 1 1\n1 0 1\n1 0 1\n1 0 1\n1 0 1\n1 1 0\n1 1 0\n1 1 0\n",
    "1 1 0\n",
);

/// And their certificate.
const CERTIFICATE: &str = concat!(
    "nfold-certificate 1\nclaim optimal\npoint\n12 3\n0 1 1\n0 1 1\n0 1 1\n0 1 1\n1 0 1\n1 0 1\n1 0 1\n",
    "1 0 1\n1 1 0\n1 1 0\n1 1 0\n1 1 0\nbricks\n6 4\n0 0 1 1\n0 1 -1 0\n0 1 0 1\n1 -1 0 0\n1 0 -1 0\n",
    "1 0 0 1\nlinks\n7 6\n0 0 1 1 0 -1\n0 1 -1 0 -1 1\n0 1 0 1 -1 0\n1 0 -1 -1 1 0\n1 0 0 0 1 -1\n",
    "1 1 -1 0 0 0\n1 1 0 1 0 -1\nbound 3\nsums\n37 4\n3 -3 0 3\n3 -3 1 2\n3 -3 2 1\n3 -3 3 0\n3 -2 -1 3\n",
    "2 -2 0 2\n2 -2 1 1\n2 -2 2 0\n3 -2 3 -1\n3 -1 -2 3\n2 -1 -1 2\n1 -1 0 1\n1 -1 1 0\n2 -1 2 -1\n",
    "3 -1 3 -2\n3 0 -3 3\n2 0 -2 2\n1 0 -1 1\n0 0 0 0\n1 0 1 -1\n2 0 2 -2\n3 0 3 -3\n3 1 -3 2\n2 1 -2 1\n",
    "1 1 -1 0\n1 1 0 -1\n2 1 1 -2\n3 1 2 -3\n3 2 -3 1\n2 2 -2 0\n2 2 -1 -1\n2 2 0 -2\n3 2 1 -3\n3 3 -3 0\n",
    "3 3 -2 -1\n3 3 -1 -2\n3 3 0 -3\npotentials\n13 37\n",
    "0 0 0 0 0 0 0 0 0 0 0 0 0 0 0 0 0 0 0 0 0 0 0 0 0 0 0 0 0 0 0 0 0 0 0 0 0\n",
    "0 0 0 0 0 0 0 0 0 0 0 0 0 0 0 0 0 0 0 0 0 0 0 0 0 0 0 0 0 0 0 0 0 0 0 0 0\n",
    "2 2 2 2 0 0 0 0 0 0 0 0 0 0 0 0 0 0 0 0 0 0 0 0 0 0 0 0 0 0 0 0 0 0 0 0 0\n",
    "4 4 4 4 2 2 2 2 2 0 0 0 0 0 0 0 0 0 0 0 0 0 0 0 0 0 0 0 0 0 0 0 0 0 0 0 0\n",
    "6 6 6 6 4 4 4 4 4 2 2 2 2 2 2 0 0 0 0 0 0 0 0 0 0 0 0 0 0 0 0 0 0 0 0 0 0\n",
    "6 6 6 6 4 4 4 4 4 2 2 2 2 2 2 0 0 0 0 0 0 0 0 0 0 0 0 0 0 0 0 0 0 0 0 0 0\n",
    "none 6 6 6 none 4 4 4 4 none 2 2 2 2 2 none 0 0 0 0 0 0 2 0 0 0 0 0 2 0 0 0 0 2 0 0 0\n",
    "none none 6 6 none none 4 4 4 none none 2 2 2 2 none none 0 0 0 0 0 none 2 0 0 0 0 4 2 0 0 0 4 2 0 0\n",
    "none none none 6 none none none 4 4 none none none 2 2 2 none none none 0 0 0 0 none none 2 0 0 0 none ",
    "4 2 0 0 6 4 2 0\n",
    "none none none 6 none none none 4 4 none none none 2 2 2 none none none 0 0 0 0 none none 2 0 0 0 none ",
    "4 2 0 0 6 4 2 0\n",
    "none none none none none none none 4 none none none none 2 2 none none none none 0 0 0 none none none 2 ",
    "0 0 2 none 4 2 0 2 none none none none\n",
    "none none none none none none none none none none none none 2 none none none none none 0 0 none none ",
    "none none 2 0 2 none none none none none none none none none none\n",
    "none none none none none none none none none none none none none none none none none none 0 none none ",
    "none none none none none none none none none none none none none none none none\n",
    "end\n",
);

/// Solves the program of the suppliers by this line, and tests the text, the certificate and what `check` says of it.
fn expect_served(
    rt: &(impl Abort + Threads + Alloc<A = Global> + Sync),
    line: &str,
) -> Result<(), Fail> {
    let checked = "yes optimal cost 24\n";
    expect_solved(rt, line, &SUPPLIERS, SERVED, CERTIFICATE, checked)
}

#[test]
fn the_number_of_workers_changes_no_byte(rt: HostRuntime) -> Result<(), Fail> {
    expect_served(&rt, "solve t")?;
    expect_served(&rt, "solve t --workers 1")?;
    expect_served(&rt, "solve t --workers 2")?;
    expect_served(&rt, "solve t --workers 16")
}
