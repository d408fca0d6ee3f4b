//! Numbers and settings at their limits, and one past them, through the top call. Values are worked by hand.

use super::*;

/// A program of one variable from 0 to `2^60`, without rows, of which only this file differs.
const NO_ROWS: [(&str, &str); 5] = [
    ("t.link.mat", "0 1\n"),
    ("t.brick.mat", "0 1\n"),
    ("t.lb", "1 1\n0\n"),
    ("t.ub", "1 1\n1152921504606846976\n"),
    ("t.rhs", "1 0\n"),
];

/// Runs a line over the program of one variable with this cost, and tests the status and what was written.
fn expect_cost(
    rt: &(impl Abort + Threads + Alloc<A = Global> + Sync),
    line: &str,
    cost: &str,
    status: Status,
    out_text: &str,
    err_text: &str,
) -> Result<(), Fail> {
    let [link, brick, lower, upper, rights] = NO_ROWS;
    let changes = [link, brick, lower, upper, rights, ("t.cost", cost)];
    expect(rt, line, &changes, status, out_text, err_text)
}

// The cost falls from 0 to -2^120, whose absolute value has 121 binary digits.
#[test]
fn a_cost_may_have_the_greatest_magnitude(rt: HostRuntime) -> Result<(), Fail> {
    let text = concat!(
        "closed length 1152921504606846976 gain 1329227995784915872903807060280344576 at 1 1\n",
        "closed made 1 factor 2 digits 121\n",
        "optimal\ncost -1329227995784915872903807060280344576\n1 1\n1152921504606846976\n",
    );
    let cost = "1 1\nq 0 -1152921504606846976 0\n";
    expect_cost(&rt, "solve t --trace", cost, Status::Done, text, "")?;
    let past = "1 1\nq 0 -1152921504606846976 1\n";
    let line = "input: t.cost: too-large at brick 1 column 1\n";
    expect_cost(&rt, "solve t --trace", past, Status::Input, "", line)
}

/// Tests what is said of two variables from 0 to `2^60`, one of the greatest magnitude and one with this cost.
fn expect_two_costs(
    rt: &(impl Abort + Threads + Alloc<A = Global> + Sync),
    second: &str,
    status: Status,
    out_text: &str,
    err_text: &str,
) -> Result<(), Fail> {
    let costs = format!(in rt.alloc(); "1 2 q 1 0 0 {second}")?;
    let changes = [
        ("t.link.mat", "0 2\n"),
        ("t.brick.mat", "0 2\n"),
        ("t.lb", "1 2\n0 0\n"),
        ("t.ub", "1 2\n1152921504606846976 1152921504606846976\n"),
        ("t.rhs", "1 0\n"),
        ("t.cost", costs.as_str()),
        ("t.pt", "1 2\n1152921504606846976 0\n"),
    ];
    expect(rt, "point t", &changes, status, out_text, err_text)
}

#[test]
fn magnitudes_may_add_up_to_the_greatest(rt: HostRuntime) -> Result<(), Fail> {
    let text = "feasible\ncost 1329227995784915872903807060280344576\n";
    expect_two_costs(&rt, "q 0 0 0", Status::Done, text, "")?;
    let line = "input: t.cost: cost-sum\n";
    expect_two_costs(&rt, "q 0 0 1", Status::Input, "", line)
}

// 2^62 is 2^31 - 1 times 2^31 + 1, and 1.
#[test]
fn a_brick_of_the_greatest_numbers_misses_its_row_by_one(rt: HostRuntime) -> Result<(), Fail> {
    let changes = [
        ("t.link.mat", "0 2\n"),
        ("t.brick.mat", "1 2\n2147483647 2147483647\n"),
        ("t.lb", "1 2\n0 0\n"),
        ("t.ub", "1 2\n4611686018427387904 4611686018427387904\n"),
        ("t.rhs", "1 1\n4611686018427387904\n"),
        ("t.cost", "1 2\nq 0 0 0\nq 0 0 0\n"),
    ];
    let text = concat!(
        "brick 1 length 2147483648 vector 0 1\n",
        "brick 1 length 1 vector 0 1\n",
        "infeasible brick 1 residual 1\n",
    );
    expect(&rt, "solve t --trace", &changes, Status::Done, text, "")
}

// No brick changes the linking row, which is nothing but zeros.
#[test]
fn a_linking_row_of_zeros_misses_the_greatest_right_side(rt: HostRuntime) -> Result<(), Fail> {
    let changes = [
        ("t.link.mat", "1 2\n0 0\n"),
        ("t.rhs", "1 3\n4611686018427387904 4 4\n"),
    ];
    let text = concat!(
        "brick 1 length 4 vector 0 1\n",
        "brick 2 length 4 vector 0 1\n",
        "counted made 0 factor 10 digits 0\n",
        "infeasible link residual 4611686018427387904\n",
    );
    expect(&rt, "solve t --trace", &changes, Status::Done, text, "")
}

// With both entries equal the basis has the three elements `0 1`, `1 -1` and `1 0`; with a 1 in place of the second
// entry it goes on with `1 -2`, `1 -3` and so on.
#[test]
fn a_matrix_may_have_the_greatest_entries(rt: HostRuntime) -> Result<(), Fail> {
    let line = "graver m --max-basis 3";
    let equal = "1 2\n2147483647 2147483647\n";
    expect_matrix(&rt, line, equal, Status::Done, "1 2\n1 -1\n", "")?;
    let opposite = "1 2\n2147483647 -2147483647\n";
    expect_matrix(&rt, line, opposite, Status::Done, "1 2\n1 1\n", "")?;
    let unequal = "1 2\n2147483647 1\n";
    expect_matrix(&rt, line, unequal, Status::Limit, "", "limit: basis\n")?;
    let past = "1 2\n2147483647 -2147483648\n";
    let fault = "input: m.mat: too-big at 15\n";
    expect_matrix(&rt, line, past, Status::Input, "", fault)
}

// Without a row the unit vectors are the basis.
#[test]
fn settings_may_be_the_least_and_the_greatest(rt: HostRuntime) -> Result<(), Fail> {
    let least = "graver m --max-basis 1";
    expect_matrix(&rt, least, "0 1\n", Status::Done, "1 1\n1\n", "")?;
    expect_matrix(&rt, least, "0 2\n", Status::Limit, "", "limit: basis\n")?;
    let text = "optimal\ncost 5\n2 2\n1 3\n2 2\n";
    let greatest = "solve t --workers 16 --max-basis 2000 --max-sums 20000";
    expect(&rt, greatest, &[], Status::Done, text, "")?;
    let alone = [
        ("t.brick.mat", "2 2\n1 0\n0 1\n"),
        ("t.rhs", "1 5\n3 1 3 2 2\n"),
    ];
    let line = "solve t --max-basis 2 --max-sums 1";
    expect(&rt, line, &alone, Status::Done, text, "")
}
