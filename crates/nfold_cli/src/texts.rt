//! The lines that the program prints, and the words in them on what is wrong with a file. Each line ends with
//! a line feed. Bricks, columns, rows and breakpoints are numbered from 1, and bytes from 0.

ghost use Rattle.std.specs.Prelude.{◌≡◌, ◌++◌, IfOk, codes};
ghost use Rattle.nfold_cli.specs.Texts as specs;

use cert_checker::{Check, Rule, Verdict};
use certificate::{CertFault, CertKind};
use convex_costs::CostFault;
use fold_theory::Broken;
use itoa::{Buffer, Integer};
use mat_files::MatFault;
use std::alloc::{AllocError, Global};

const USAGE: &[u8] = b"usage: nfold point P, graver M, solve P, check P, trial NUMBER N\n";

const BASIS_LIMIT: &[u8] = b"limit: basis\n";

const WRITE: &[u8] = b"write\n";

const MEMORY: &[u8] = b"memory\n";

/// What `point` prints: the first thing that the point breaks, or else that it is feasible, and its cost.
pub fn point_text(alloc: Global, broken: Option<Broken>, cost: i128) -> Result<Vec<u8>, AllocError>
    ensures { IfOk result (λ t. t.items ≡ specs.point_text broken cost) }
{
    let mut text = match broken {
        None => with_number(Vec::new(alloc), b"feasible\ncost ", cost)?,
        Some(broken) => broken_text(alloc, broken)?,
    };
    text.extend_from_slice(b"\n")?;
    Ok(text)
}

fn broken_text(alloc: Global, broken: Broken) -> Result<Vec<u8>, AllocError>
    ensures { IfOk result (λ t. t.items ≡ specs.broken_text broken) }
{
    let text = Vec::new(alloc);
    match broken {
        Broken::Below { brick, col } => {
            let text = with_number(text, b"broken below brick ", brick)?;
            with_number(text, b" column ", col)
        }
        Broken::Above { brick, col } => {
            let text = with_number(text, b"broken above brick ", brick)?;
            with_number(text, b" column ", col)
        }
        Broken::BrickRow { brick, row } => {
            let text = with_number(text, b"broken brick ", brick)?;
            with_number(text, b" row ", row)
        }
        Broken::LinkRow { row } => with_number(text, b"broken link row ", row),
    }
}

/// A word and the place of a byte.
pub fn at_byte(alloc: Global, word: &[u8], at: usize) -> Result<Vec<u8>, AllocError>
    ensures { IfOk result (λ t. t.items ≡ specs.at_byte word.now at) }
{
    with_number(Vec::from_slice(alloc, word)?, b" at ", at)
}

/// A word and the coordinate that it is about.
pub fn at_column(alloc: Global, word: &[u8], brick: u32, col: u32) -> Result<Vec<u8>, AllocError>
    ensures { IfOk result (λ t. t.items ≡ specs.at_column word.now brick col) }
{
    let text = with_number(Vec::from_slice(alloc, word)?, b" at brick ", brick)?;
    with_number(text, b" column ", col)
}

fn at_breakpoint(
    alloc: Global,
    word: &[u8],
    brick: u32,
    col: u32,
    at: u32,
) -> Result<Vec<u8>, AllocError>
    ensures { IfOk result (λ t. t.items ≡ specs.at_breakpoint word.now brick col at) }
{
    with_number(at_column(alloc, word, brick, col)?, b" point ", at)
}

/// What `check` prints: yes and the verdict, or no and the first rule that is broken.
pub fn check_text(alloc: Global, answer: Check) -> Result<Vec<u8>, AllocError>
    ensures { IfOk result (λ t. t.items ≡ specs.check_text answer) }
{
    match answer {
        Check::Yes(verdict) => line(alloc, b"yes ", &verdict_text(alloc, verdict)?),
        Check::No(rule) => line(alloc, b"no ", rule_name(rule)),
    }
}

/// The line of these two texts.
fn line(alloc: Global, first: &[u8], rest: &[u8]) -> Result<Vec<u8>, AllocError>
    ensures { IfOk result (λ t. t.items ≡ first.now ++ rest.now ++ codes "\n") }
{
    let mut text = Vec::from_slice(alloc, first)?;
    text.extend_from_slice(rest)?;
    text.extend_from_slice(b"\n")?;
    Ok(text)
}

/// The words of a verdict.
pub(crate) fn verdict_text(alloc: Global, verdict: Verdict) -> Result<Vec<u8>, AllocError>
    ensures { IfOk result (λ t. t.items ≡ specs.verdict_text verdict) }
{
    let text = Vec::new(alloc);
    match verdict {
        Verdict::Optimal { cost } => with_number(text, b"optimal cost ", cost),
        Verdict::InfeasibleBrick { brick, residual } => {
            let text = with_number(text, b"infeasible brick ", brick)?;
            with_number(text, b" residual ", residual)
        }
        Verdict::InfeasibleLink { residual } => {
            with_number(text, b"infeasible link residual ", residual)
        }
    }
}

fn rule_name(rule: Rule) -> &'static [u8]
    ensures { result.now ≡ specs.rule_text rule }
{
    match rule {
        Rule::C1 => b"C1",
        Rule::C2 => b"C2",
        Rule::C3 => b"C3",
        Rule::C4 => b"C4",
        Rule::C5 => b"C5",
        Rule::C6 => b"C6",
        Rule::C7 => b"C7",
        Rule::B1 => b"B1",
        Rule::B2 => b"B2",
    }
}

/// What is wrong with a certificate, and where. Want of memory is no fault of the file, and its text says nothing.
pub fn cert_fault_text(alloc: Global, fault: CertFault) -> Result<Vec<u8>, AllocError>
    ensures { IfOk result (λ t. t.items ≡ specs.cert_fault_text fault) }
{
    at_byte(alloc, cert_kind_name(fault.kind), fault.at)
}

fn cert_kind_name(kind: CertKind) -> &'static [u8]
    ensures { result.now ≡ specs.cert_kind_text kind }
{
    match kind {
        CertKind::Word => b"word",
        CertKind::NotNumber => b"not-number",
        CertKind::TooBig => b"too-big",
        CertKind::EndsEarly => b"ends-early",
        CertKind::Extra => b"extra",
        CertKind::TooMany => b"too-many",
        CertKind::Memory => b"",
    }
}

/// What is wrong with a matrix file, and where. Want of memory is no fault of the file, and has no text.
pub fn mat_fault_text(alloc: Global, fault: MatFault) -> Result<Vec<u8>, AllocError>
    ensures { IfOk result (λ t. t.items ≡ specs.mat_fault_text fault) }
{
    match fault {
        MatFault::NotNumber { at } => at_byte(alloc, b"not-number", at),
        MatFault::NoBound { at } => at_byte(alloc, b"no-bound", at),
        MatFault::TooBig { at } => at_byte(alloc, b"too-big", at),
        MatFault::EndsEarly { at } => at_byte(alloc, b"ends-early", at),
        MatFault::Extra { at } => at_byte(alloc, b"extra", at),
        MatFault::Shape { at, .. } => at_byte(alloc, b"shape", at),
        MatFault::Memory => Ok(Vec::new(alloc)),
    }
}

/// What is wrong with the cost of the coordinate.
pub fn cost_fault_text(
    alloc: Global,
    brick: u32,
    col: u32,
    fault: CostFault,
) -> Result<Vec<u8>, AllocError>
    ensures { IfOk result (λ t. t.items ≡ specs.cost_fault_text brick col fault) }
{
    match fault {
        CostFault::NotRising { at } => at_breakpoint(alloc, b"not-rising", brick, col, at),
        CostFault::SlopeNotWhole { at } => at_breakpoint(alloc, b"slope-not-whole", brick, col, at),
        CostFault::NotConvex { at } => at_breakpoint(alloc, b"not-convex", brick, col, at),
        CostFault::NotCovered => at_column(alloc, b"not-covered", brick, col),
        CostFault::TooLarge => at_column(alloc, b"too-large", brick, col),
    }
}

/// The line on a file that is refused, by its name and what is wrong with it.
pub fn input_text(alloc: Global, file: &[u8], what: &[u8]) -> Result<Vec<u8>, AllocError>
    ensures { IfOk result (λ t. t.items ≡ specs.input_text file.now what.now) }
{
    let mut text = Vec::from_slice(alloc, b"input: ")?;
    text.extend_from_slice(file)?;
    text.extend_from_slice(b": ")?;
    text.extend_from_slice(what)?;
    text.extend_from_slice(b"\n")?;
    Ok(text)
}

/// The line on a file that could not be read, by its name.
pub fn read_text(alloc: Global, file: &[u8]) -> Result<Vec<u8>, AllocError>
    ensures { IfOk result (λ t. t.items ≡ specs.read_text file.now) }
{
    let mut text = Vec::from_slice(alloc, b"read: ")?;
    text.extend_from_slice(file)?;
    text.extend_from_slice(b"\n")?;
    Ok(text)
}

/// The line on a slack basis that passes its limit.
pub fn basis_limit_text() -> &'static [u8]
    ensures { result.now ≡ specs.basis_limit_text }
{
    BASIS_LIMIT
}

/// The line on a write that failed.
pub fn write_text() -> &'static [u8]
    ensures { result.now ≡ specs.write_text }
{
    WRITE
}

/// The line on want of memory.
pub fn memory_text() -> &'static [u8]
    ensures { result.now ≡ specs.memory_text }
{
    MEMORY
}

/// The line on words that are no form.
pub fn usage_text() -> &'static [u8]
    ensures { result.now ≡ specs.usage_text }
{
    USAGE
}

/// The text with the words and the number after it.
pub(crate) fn with_number<I: Integer>(
    mut text: Vec<u8>,
    words: &[u8],
    number: I,
) -> Result<Vec<u8>, AllocError>
    ensures { IfOk result (λ t. t.items ≡ text.items ++ words.now ++ I.text number) }
{
    text.extend_from_slice(words)?;
    text.extend_from_slice(Buffer::new().format(number).as_bytes())?;
    Ok(text)
}

#[cfg(test)]
mod tests {
    use super::*;
    use std::alloc::Alloc;
    use std::process::Abort;
    use std::test::Fail;

    /// Tests what is said of a point that costs -5.
    fn expect_point(
        rt: &(impl Abort + Alloc<A = Global>),
        broken: Option<Broken>,
        line: &str,
    ) -> Result<(), Fail> {
        let text = point_text(rt.alloc(), broken, -5)?;
        assert_eq!(rt; text.as_slice(), line.as_bytes());
        Ok(())
    }

    #[test]
    fn point_says_what_is_broken(rt: HostRuntime) -> Result<(), Fail> {
        let below = Broken::Below { brick: 1, col: 2 };
        let above = Broken::Above { brick: 3, col: 4 };
        let brick_row = Broken::BrickRow { brick: 2, row: 1 };
        let link_row = Broken::LinkRow { row: 1 };
        expect_point(&rt, None, "feasible\ncost -5\n")?;
        expect_point(&rt, Some(below), "broken below brick 1 column 2\n")?;
        expect_point(&rt, Some(above), "broken above brick 3 column 4\n")?;
        expect_point(&rt, Some(brick_row), "broken brick 2 row 1\n")?;
        expect_point(&rt, Some(link_row), "broken link row 1\n")
    }

    /// Tests the line on an answer of the checker.
    fn expect_check(
        rt: &(impl Abort + Alloc<A = Global>),
        answer: Check,
        line: &str,
    ) -> Result<(), Fail> {
        let text = check_text(rt.alloc(), answer)?;
        assert_eq!(rt; text.as_slice(), line.as_bytes());
        Ok(())
    }

    #[test]
    fn check_says_yes_or_which_rule_is_broken(rt: HostRuntime) -> Result<(), Fail> {
        let brick = Verdict::InfeasibleBrick {
            brick: 2,
            residual: 17,
        };
        let optimal = Verdict::Optimal { cost: -5 };
        expect_check(
            &rt,
            Check::Yes(brick),
            "yes infeasible brick 2 residual 17\n",
        )?;
        expect_check(&rt, Check::Yes(optimal), "yes optimal cost -5\n")?;
        expect_check(&rt, Check::No(Rule::B2), "no B2\n")
    }

    #[test]
    fn a_refused_certificate_is_named_with_the_place(rt: HostRuntime) -> Result<(), Fail> {
        let (at, kind) = (40, CertKind::TooMany);
        let text = cert_fault_text(rt.alloc(), CertFault { at, kind })?;
        assert_eq!(rt; text.as_slice(), b"too-many at 40".as_slice());
        Ok(())
    }

    /// Tests the line on a file with what is wrong with it.
    fn expect_input(
        rt: &(impl Abort + Alloc<A = Global>),
        file: &str,
        what: &[u8],
        line: &str,
    ) -> Result<(), Fail> {
        let text = input_text(rt.alloc(), file.as_bytes(), what)?;
        assert_eq!(rt; text.as_slice(), line.as_bytes());
        Ok(())
    }

    #[test]
    fn a_refused_file_is_named_with_the_place(rt: HostRuntime) -> Result<(), Fail> {
        let alloc = rt.alloc();
        let bound = mat_fault_text(alloc, MatFault::NoBound { at: 6 })?;
        expect_input(&rt, "t.lb", &bound, "input: t.lb: no-bound at 6\n")?;
        let slope = cost_fault_text(alloc, 1, 1, CostFault::SlopeNotWhole { at: 2 })?;
        expect_input(
            &rt,
            "t.cost",
            &slope,
            "input: t.cost: slope-not-whole at brick 1 column 1 point 2\n",
        )?;
        let crossed = at_column(alloc, b"crossed", 2, 1)?;
        expect_input(
            &rt,
            "t.ub",
            &crossed,
            "input: t.ub: crossed at brick 2 column 1\n",
        )
    }

    #[test]
    fn other_faults_have_a_line(rt: HostRuntime) -> Result<(), Fail> {
        let read = read_text(rt.alloc(), b"t.pt")?;
        assert_eq!(rt; read.as_slice(), b"read: t.pt\n".as_slice());
        assert_eq!(rt; basis_limit_text(), b"limit: basis\n".as_slice());
        assert_eq!(rt; write_text(), b"write\n".as_slice());
        assert_eq!(rt; memory_text(), b"memory\n".as_slice());
        let usage = b"usage: nfold point P, graver M, solve P, check P, trial NUMBER N\n";
        assert_eq!(rt; usage_text(), usage.as_slice());
        Ok(())
    }
}
