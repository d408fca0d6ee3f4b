//! The lines of `solve` and `trial`: on steps, on the end of a phase, on a trial, and on limits. Bricks, rows and
//! columns are numbered from 1.

ghost use Rattle.std.specs.Prelude.{◌≡◌, ◌≤◌, ◌<◌, ◌++◌, IfOk};
ghost use Rattle.run_theory.specs.Digits.{binary_digits};
ghost use Rattle.nfold_cli.specs.RunTexts as specs;

use crate::texts::{memory_text, verdict_text, with_number};
use augment_run::Step;
use cert_checker::Check;
use fold_theory::{Phase, Verdict};
use run_theory::SolveFault;
use std::alloc::{AllocError, Global};

/// The line on a step of one brick: its length `2^k` and its vector.
pub fn brick_step_text(
    alloc: Global,
    brick: usize,
    k: u32,
    vector: &[i64],
) -> Result<Vec<u8>, AllocError>
    requires { k < 64 }
    ensures { IfOk result (λ t. t.items ≡ specs.brick_step_text brick (record { k = k; vector = vector.now })) }
{
    let text = with_number(Vec::new(alloc), b"brick ", brick)?;
    let mut text = with_number(text, b" length ", 1u64 << k)?;
    text.extend_from_slice(b" vector")?;
    let mut text = with_numbers(text, vector)?;
    text.extend_from_slice(b"\n")?;
    Ok(text)
}

/// The line on a step of a phase: its length `2^k`, its gain, and its part in each brick that it changes, `cols`
/// entries for each.
pub fn step_text(alloc: Global, phase: Phase, cols: u32, step: &Step) -> Result<Vec<u8>, AllocError>
    requires { step.now.k < 64 }
    ensures { IfOk result (λ t. t.items ≡ specs.step_text phase cols step.now) }
{
    let text = Vec::from_slice(alloc, phase_name(phase))?;
    let text = with_number(text, b" length ", 1u64 << step.k)?;
    let text = with_number(text, b" gain ", step.gain)?;
    let mut text = with_parts(text, cols, &step.bricks, &step.entries)?;
    text.extend_from_slice(b"\n")?;
    Ok(text)
}

/// The text with the parts of a step after it, each after its brick.
fn with_parts(
    mut text: Vec<u8>,
    cols: u32,
    bricks: &[u32],
    entries: &[i64],
) -> Result<Vec<u8>, AllocError>
    ensures { IfOk result (λ t. t.items ≡ text.items ++ specs.parts_text cols bricks.now entries.now) }
{
    let mut left = entries;
    for brick in bricks {
        let (part, rest) = left.split_at(left.len().min(cols as usize));
        text = with_numbers(with_number(text, b" at ", *brick)?, part)?;
        left = rest;
    }
    Ok(text)
}

/// The line after the steps of a phase: how many were made, the bound number, and how many binary digits the whole gain
/// has.
pub fn made_text(
    alloc: Global,
    phase: Phase,
    made: usize,
    factor: u128,
    gain: u128,
) -> Result<Vec<u8>, AllocError>
    ensures { IfOk result (λ t. t.items ≡ specs.made_text phase made factor gain) }
{
    let text = Vec::from_slice(alloc, phase_name(phase))?;
    let text = with_number(text, b" made ", made)?;
    let text = with_number(text, b" factor ", factor)?;
    let mut text = with_number(text, b" digits ", binary_digits(gain))?;
    text.extend_from_slice(b"\n")?;
    Ok(text)
}

/// The line of a trial: its number, its bricks, the verdict on it, how many steps both phases made, and whether the
/// checker says yes to the certificate.
pub fn trial_text(
    alloc: Global,
    number: u32,
    bricks: u32,
    verdict: Verdict,
    made: usize,
    answer: Check,
) -> Result<Vec<u8>, AllocError>
    ensures { IfOk result (λ t. t.items ≡ specs.trial_text number bricks verdict made answer) }
{
    let text = with_number(Vec::new(alloc), b"trial number ", number)?;
    let mut text = with_number(text, b" bricks ", bricks)?;
    text.extend_from_slice(b" ")?;
    text.extend_from_slice(&verdict_text(alloc, verdict)?)?;
    let mut text = with_number(text, b" made ", made)?;
    text.extend_from_slice(answer_words(answer))?;
    Ok(text)
}

/// The last words of the line of a trial.
fn answer_words(answer: Check) -> &'static [u8]
    ensures { result.now ≡ specs.answer_words answer }
{
    match answer {
        Check::Yes(_) => b" check yes\n",
        Check::No(_) => b" check no\n",
    }
}

/// The line on the limit that is passed. Want of memory is no limit, and has a line of its own.
pub fn limit_text(alloc: Global, fault: SolveFault) -> Result<Vec<u8>, AllocError>
    ensures { IfOk result (λ t. t.items ≡ specs.limit_text fault) }
{
    let mut text = match fault {
        SolveFault::BrickBasis => Vec::from_slice(alloc, b"limit: brick-basis")?,
        SolveFault::LinkEntry { row, col } => {
            let text = with_number(Vec::new(alloc), b"limit: link-entry row ", row)?;
            with_number(text, b" column ", col)?
        }
        SolveFault::LinkBasis => Vec::from_slice(alloc, b"limit: link-basis")?,
        SolveFault::Sums { phase } => of_phase(alloc, b"limit: sums ", phase)?,
        SolveFault::Table { phase } => of_phase(alloc, b"limit: table ", phase)?,
        SolveFault::Memory => return Vec::from_slice(alloc, memory_text()),
    };
    text.extend_from_slice(b"\n")?;
    Ok(text)
}

/// The words and the name of the phase.
fn of_phase(alloc: Global, words: &[u8], phase: Phase) -> Result<Vec<u8>, AllocError>
    ensures { IfOk result (λ t. t.items ≡ words.now ++ specs.phase_text phase) }
{
    let mut text = Vec::from_slice(alloc, words)?;
    text.extend_from_slice(phase_name(phase))?;
    Ok(text)
}

fn phase_name(phase: Phase) -> &'static [u8]
    ensures { result.now ≡ specs.phase_text phase }
{
    match phase {
        Phase::Closed => b"closed",
        Phase::Counted => b"counted",
    }
}

/// The text with the numbers after it, each after a space.
fn with_numbers(text: Vec<u8>, numbers: &[i64]) -> Result<Vec<u8>, AllocError>
    ensures { IfOk result (λ t. t.items ≡ text.items ++ specs.spaced_text numbers.now) }
{
    match numbers {
        [] => Ok(text),
        [first, rest @ ..] => with_numbers(with_number(text, b" ", *first)?, rest),
    }
}

/// How many binary digits the number has, and 0 of 0.
fn binary_digits(number: u128) -> u32
    ensures digits { result ≡ binary_digits number }
    ensures few { result ≤ 128 }
{
    if number == 0 {
        return 0;
    }
    1 + binary_digits(number / 2)
}

#[cfg(test)]
mod tests {
    use super::*;
    use std::alloc::Alloc;
    use std::process::Abort;
    use std::test::Fail;

    #[test]
    fn a_step_of_a_phase_has_a_line(rt: HostRuntime) -> Result<(), Fail> {
        let alloc = rt.alloc();
        let step = Step {
            k: 1,
            gain: 4,
            bricks: vec![in alloc; 1, 12]?,
            entries: vec![in alloc; 1, -1, 0, 7]?,
        };
        let text = step_text(alloc, Phase::Closed, 2, &step)?;
        assert_eq!(rt;
            text.as_slice(),
            b"closed length 2 gain 4 at 1 1 -1 at 12 0 7\n".as_slice()
        );
        Ok(())
    }

    /// Tests the line on the end of a phase with the bound number 20.
    fn expect_made(
        rt: &(impl Abort + Alloc<A = Global>),
        phase: Phase,
        made: usize,
        gain: u128,
        line: &str,
    ) -> Result<(), Fail> {
        let text = made_text(rt.alloc(), phase, made, 20, gain)?;
        assert_eq!(rt; text.as_slice(), line.as_bytes());
        Ok(())
    }

    // The lines on the program of two bricks and four columns.
    #[test]
    fn phases_have_a_line(rt: HostRuntime) -> Result<(), Fail> {
        expect_made(
            &rt,
            Phase::Counted,
            2,
            3,
            "counted made 2 factor 20 digits 2\n",
        )?;
        expect_made(
            &rt,
            Phase::Closed,
            1,
            4,
            "closed made 1 factor 20 digits 3\n",
        )?;
        expect_made(
            &rt,
            Phase::Closed,
            0,
            0,
            "closed made 0 factor 20 digits 0\n",
        )
    }

    #[test]
    fn a_step_of_a_brick_has_a_line(rt: HostRuntime) -> Result<(), Fail> {
        let brick = brick_step_text(rt.alloc(), 2, 2, &[0, -1])?;
        assert_eq!(rt;
            brick.as_slice(),
            b"brick 2 length 4 vector 0 -1\n".as_slice()
        );
        Ok(())
    }

    #[test]
    fn a_trial_has_a_line(rt: HostRuntime) -> Result<(), Fail> {
        let verdict = Verdict::Optimal { cost: -6 };
        let text = trial_text(rt.alloc(), 7, 2, verdict, 3, Check::Yes(verdict))?;
        assert_eq!(rt;
            text.as_slice(),
            b"trial number 7 bricks 2 optimal cost -6 made 3 check yes\n".as_slice()
        );
        Ok(())
    }

    /// Tests the line on a limit.
    fn expect_limit(
        rt: &(impl Abort + Alloc<A = Global>),
        fault: SolveFault,
        line: &str,
    ) -> Result<(), Fail> {
        let text = limit_text(rt.alloc(), fault)?;
        assert_eq!(rt; text.as_slice(), line.as_bytes());
        Ok(())
    }

    #[test]
    fn limits_have_a_line(rt: HostRuntime) -> Result<(), Fail> {
        let phase = Phase::Counted;
        let entry = SolveFault::LinkEntry { row: 1, col: 4 };
        expect_limit(&rt, SolveFault::BrickBasis, "limit: brick-basis\n")?;
        expect_limit(&rt, entry, "limit: link-entry row 1 column 4\n")?;
        expect_limit(&rt, SolveFault::LinkBasis, "limit: link-basis\n")?;
        expect_limit(&rt, SolveFault::Sums { phase }, "limit: sums counted\n")?;
        expect_limit(&rt, SolveFault::Table { phase }, "limit: table counted\n")
    }
}
