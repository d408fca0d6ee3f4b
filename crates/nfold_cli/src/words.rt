//! The words of the command line, without the program's own name, and the form that they are.

ghost use Rattle.std.specs.Prelude.{◌≡◌, ◌≤◌, ◌&&◌, nat_le, length, map, cond, Some, None, IfSome};
ghost use Rattle.std.specs.List.{list_all};
ghost use Rattle.std.specs.Option.{option_map};
ghost use Rattle.mat_files.specs.Tokens.{is_digit, is_digits};
ghost use Rattle.nfold_cli.specs.Words as specs;

use mat_files::{Spelled, spelled_count};

/// The number of bytes of the longest prefix.
const LONGEST_PREFIX: usize = 200;

/// The number of digits of the longest number.
const LONGEST_NUMBER: usize = 9;

/// How many workers seek the steps of a solve, where no option says it.
pub(crate) const DEFAULT_WORKERS: u32 = 1;

/// The largest number of workers that an option may name.
const MOST_WORKERS: u32 = 16;

/// How many elements a slack basis may have, where no option says it.
pub(crate) const DEFAULT_BASIS: u32 = 500;

/// The largest number of elements that an option may allow.
const LARGEST_BASIS: u32 = 2_000;

/// How many brick sums there may be, where no option says it.
pub(crate) const DEFAULT_SUMS: u32 = 5_000;

/// The largest number of brick sums that an option may allow.
const LARGEST_SUMS: u32 = 20_000;

/// The largest number of a trial.
const LARGEST_TRIAL: u32 = 65_535;

/// The largest number of bricks of a trial.
const MOST_BRICKS: u32 = 10_000;

/// A form of the command line, with what it is about. The names of files begin with a prefix, 1 to 200 bytes,
/// each a letter or digit of ASCII or one of `_`, `-`, `.` and `/`, the first not `-`. Options follow the prefix, in
/// any order, each at most once.
#[derive(Clone, Copy, Debug, PartialEq, Eq, Drop)]
pub enum Form<'a> {
    /// `point P [--rel]`: whether the point is feasible, and its cost. With the option each linking row has the
    /// relation in the file of relations, and else all are equations.
    Point {
        prefix: &'a str,
        relations: bool,
    },
    /// `graver M [--max-basis B]`: the kernel of the slack basis of a matrix, where the basis has at most this many
    /// elements, 1 to 2,000; 500 where no option says it.
    Graver {
        prefix: &'a str,
        limit: u32,
    },
    /// `solve P [--workers W] [--max-basis B] [--max-sums Q] [--rel] [--trace]`: the outcome of a program, and its
    /// certificate, by so many workers, 1 to 16; 1 where no option says it.
    Solve {
        prefix: &'a str,
        workers: u32,
        options: SolveOptions,
    },
    /// `check P [--rel]`: whether a certificate shows what it claims of a program, or which rule it breaks.
    Check {
        prefix: &'a str,
        relations: bool,
    },
    /// `trial NUMBER N`: the outcome of the transport program of this number, 0 to 65,535, with so many bricks, 1 to
    /// 10,000.
    Trial {
        number: u32,
        bricks: u32,
    },
}

/// What is asked of a solve. The number of workers is no part of it, since the outcome does not depend on it.
#[derive(Clone, Copy, Debug, PartialEq, Eq, Drop)]
pub struct SolveOptions {
    /// How many elements each slack basis may have: 1 to 2,000; 500 where no option says it.
    pub basis: u32,
    /// How many brick sums there may be: 1 to 20,000; 5,000 where no option says it.
    pub sums: u32,
    /// Whether each linking row has the relation in the file of relations; else all are equations.
    pub relations: bool,
    /// Whether each step is printed.
    pub trace: bool,
}

/// The options of a command.
#[derive(Clone, Copy, Debug, PartialEq, Eq, Drop)]
pub(crate) struct Options {
    /// The value of `--workers`.
    pub workers: Option<u32>,
    /// The value of `--max-basis`.
    pub basis: Option<u32>,
    /// The value of `--max-sums`.
    pub sums: Option<u32>,
    /// Whether there is `--rel`.
    pub relations: bool,
    /// Whether there is `--trace`.
    pub trace: bool,
}

/// The form that the words are, and `None` where they are none.
pub fn form_of(words: &[Vec<u8>]) -> Option<Form<'_>>
    ensures form { option_map specs.form_value result ≡ specs.form_of (map (λ w. w.items) words.now) }
    ensures limits { IfSome result specs.HasLimits }
{
    let [command, word, rest @ ..] = words else {
        return None;
    };
    if is_word(command, b"trial") {
        return trial_form(word, rest);
    }
    let prefix = prefix(word.as_slice())?;
    let none = Options {
        workers: None,
        basis: None,
        sums: None,
        relations: false,
        trace: false,
    };
    let options = options_in(none, rest)?;
    command_form(command, prefix, options)
}

/// The form of a trial of this number, where one word follows it: the number of bricks.
fn trial_form<'a>(number: &[u8], rest: &[Vec<u8>]) -> Option<Form<'a>>
    ensures form { option_map specs.form_value result ≡ specs.trial_form number.now (map (λ w. w.items) rest.now) }
    ensures limits { IfSome result specs.HasLimits }
{
    let [bricks] = rest else {
        return None;
    };
    let number = number_within(number, 0, LARGEST_TRIAL)?;
    let bricks = number_within(bricks, 1, MOST_BRICKS)?;
    Some(Form::Trial { number, bricks })
}

/// The form of a command with this prefix and these options.
fn command_form<'a>(command: &[u8], prefix: &'a str, options: Options) -> Option<Form<'a>>
    requires { specs.AreInRange options }
    ensures form { option_map specs.form_value result ≡ specs.command_form command.now prefix.now options }
    ensures limits { IfSome result specs.HasLimits }
{
    let relations = options.relations;
    if is_word(command, b"point") && options.has_relations_at_most() {
        return Some(Form::Point { prefix, relations });
    }
    if is_word(command, b"graver") && options.has_a_basis_at_most() {
        let limit = options.basis.unwrap_or(DEFAULT_BASIS);
        return Some(Form::Graver { prefix, limit });
    }
    if is_word(command, b"solve") {
        let workers = options.workers.unwrap_or(DEFAULT_WORKERS);
        let options = options.of_a_solve();
        return Some(Form::Solve {
            prefix,
            workers,
            options,
        });
    }
    if is_word(command, b"check") && options.has_relations_at_most() {
        return Some(Form::Check { prefix, relations });
    }
    None
}

impl Options {
    /// Whether there is no option but `--rel`.
    fn has_relations_at_most(self) -> bool
        ensures { result ≡ specs.has_relations_at_most self }
    {
        self.workers.is_none() && self.basis.is_none() && self.sums.is_none() && !self.trace
    }

    /// Whether there is no option but `--max-basis`.
    fn has_a_basis_at_most(self) -> bool
        ensures { result ≡ specs.has_a_basis_at_most self }
    {
        self.workers.is_none() && self.sums.is_none() && !self.relations && !self.trace
    }

    /// What the options ask of a solve.
    fn of_a_solve(self) -> SolveOptions
        requires { specs.AreInRange self }
        ensures options { result ≡ specs.of_a_solve self }
        ensures limits { specs.HasSolveLimits result }
    {
        SolveOptions {
            basis: self.basis.unwrap_or(DEFAULT_BASIS),
            sums: self.sums.unwrap_or(DEFAULT_SUMS),
            relations: self.relations,
            trace: self.trace,
        }
    }
}

/// The options in the words, added to those before; `None` where a word is no option, or one comes twice.
fn options_in(options: Options, words: &[Vec<u8>]) -> Option<Options>
    requires { specs.AreInRange options }
    ensures options { result ≡ specs.options_in options (map (λ w. w.items) words.now) }
    ensures limits { IfSome result specs.AreInRange }
{
    match words {
        [] => Some(options),
        [word] => with_flag(options, word),
        [word, value, rest @ ..] => match with_flag(options, word) {
            Some(options) => options_in(options, &words[1..]),
            None => options_in(with_number(options, word, value)?, rest),
        },
    }
}

/// The options with this one, which is a word alone; `None` where the word is no such option, or comes twice.
fn with_flag(options: Options, word: &[u8]) -> Option<Options>
    requires { specs.AreInRange options }
    ensures options { result ≡ specs.with_flag options word.now }
    ensures limits { IfSome result specs.AreInRange }
{
    if is_word(word, b"--rel") && !options.relations {
        return Some(Options {
            relations: true,
            ..options
        });
    }
    if is_word(word, b"--trace") && !options.trace {
        return Some(Options {
            trace: true,
            ..options
        });
    }
    None
}

/// The options with this one, which has a number as its value; `None` where the word is no such option or comes twice,
/// or the value is out of its range.
fn with_number(options: Options, word: &[u8], value: &[u8]) -> Option<Options>
    requires { specs.AreInRange options }
    ensures options { result ≡ specs.with_number options word.now value.now }
    ensures limits { IfSome result specs.AreInRange }
{
    if is_word(word, b"--workers") && options.workers.is_none() {
        let workers = Some(number_within(value, 1, MOST_WORKERS)?);
        return Some(Options { workers, ..options });
    }
    if is_word(word, b"--max-basis") && options.basis.is_none() {
        let basis = Some(number_within(value, 1, LARGEST_BASIS)?);
        return Some(Options { basis, ..options });
    }
    if is_word(word, b"--max-sums") && options.sums.is_none() {
        let sums = Some(number_within(value, 1, LARGEST_SUMS)?);
        return Some(Options { sums, ..options });
    }
    None
}

/// Whether the word has these bytes.
fn is_word(word: &[u8], bytes: &[u8]) -> bool
    ensures { result ≡ specs.is_word word.now bytes.now }
{
    word == bytes
}

/// Whether the word is 1 to 9 digits.
fn is_short_number(word: &[u8]) -> bool
    ensures { result ≡ (is_digits word.now && nat_le (length word.now) 9) }
{
    !word.is_empty() && word.len() <= LONGEST_NUMBER && are_digits(word)
}

fn are_digits(word: &[u8]) -> bool
    ensures { result ≡ list_all is_digit word.now }
{
    word.iter().all(|byte| byte.is_ascii_digit())
}

/// The value of 1 to 9 digits, where it is from the one number to the other.
fn number_within(word: &[u8], from: u32, to: u32) -> Option<u32>
    ensures number { result ≡ specs.number_within from to word.now }
    ensures range { IfSome result (λ n. (from ≤ n) × (n ≤ to)) }
{
    if !is_short_number(word) {
        return None;
    }
    match spelled_count(word, u128::from(to)) {
        Spelled::Value(value) if value >= i128::from(from) => Some(value as u32),
        _ => None,
    }
}

/// The word as a text, where it is a prefix.
fn prefix(word: &[u8]) -> Option<&str>
    ensures { option_map (λ p. p.now) result ≡ cond (specs.is_prefix word.now) (Some word.now) None }
{
    if !is_prefix(word) {
        return None;
    }
    std::str::from_utf8(word).ok()
}

fn is_prefix(word: &[u8]) -> bool
    ensures { result ≡ specs.is_prefix word.now }
{
    !word.is_empty() && word.len() <= LONGEST_PREFIX && word[0] != b'-' && are_name_bytes(word)
}

fn are_name_bytes(word: &[u8]) -> bool
    ensures { result ≡ list_all specs.is_name_byte word.now }
{
    word.iter().all(|byte| is_name_byte(*byte))
}

fn is_name_byte(byte: u8) -> bool
    ensures { result ≡ specs.is_name_byte byte }
{
    byte.is_ascii_alphanumeric() || matches!(byte, b'_' | b'-' | b'.' | b'/')
}

#[cfg(test)]
pub(crate) mod tests {
    use super::*;
    use std::alloc::{Alloc, AllocError, Global};
    use std::process::Abort;
    use std::test::Fail;

    /// The words of a line.
    pub(crate) fn words_of(alloc: Global, line: &str) -> Result<Vec<Vec<u8>>, AllocError> {
        let mut words = Vec::new(alloc);
        for word in line.split(' ') {
            words.push(word.as_bytes().to_vec(alloc)?)?;
        }
        Ok(words)
    }

    /// Tests the form of a line.
    fn expect_form(
        rt: &(impl Abort + Alloc<A = Global>),
        line: &str,
        form: Option<Form>,
    ) -> Result<(), Fail> {
        let words = words_of(rt.alloc(), line)?;
        assert_eq!(rt; form_of(&words), form, "at {line}");
        Ok(())
    }

    /// Tests that a line is no form.
    fn expect_none(rt: &(impl Abort + Alloc<A = Global>), line: &str) -> Result<(), Fail> {
        expect_form(rt, line, None)
    }

    #[test]
    fn no_words_are_no_form(rt: HostRuntime) {
        assert_eq!(rt; form_of(&[]), None);
    }

    /// The form `point`.
    fn point(prefix: &str, relations: bool) -> Option<Form<'_>> {
        Some(Form::Point { prefix, relations })
    }

    #[test]
    fn point_takes_a_prefix_and_at_most_one_option(rt: HostRuntime) -> Result<(), Fail> {
        expect_form(&rt, "point runs/t-1_a.b", point("runs/t-1_a.b", false))?;
        expect_form(&rt, "point t --rel", point("t", true))?;
        expect_none(&rt, "point t --rel --rel")?;
        expect_none(&rt, "point --rel t")?;
        expect_none(&rt, "point t --max-basis 5")?;
        expect_none(&rt, "point t --max-sums 5")?;
        expect_none(&rt, "point t --workers 2")?;
        expect_none(&rt, "point t --trace")
    }

    #[test]
    fn a_prefix_has_few_bytes_of_a_name(rt: HostRuntime) -> Result<(), Fail> {
        expect_none(&rt, "point")?;
        expect_none(&rt, "point ")?;
        expect_none(&rt, "point -t")?;
        expect_none(&rt, "point t t")?;
        expect_none(&rt, "point t:t")?;
        expect_none(&rt, "points t")?;
        expect_none(&rt, "")
    }

    #[test]
    fn check_takes_a_prefix_and_at_most_one_option(rt: HostRuntime) -> Result<(), Fail> {
        let form = Form::Check {
            prefix: "a/t",
            relations: true,
        };
        expect_form(&rt, "check a/t --rel", Some(form))?;
        expect_none(&rt, "check t --rel --rel")?;
        expect_none(&rt, "check t --max-basis 5")?;
        expect_none(&rt, "check t --workers 2")?;
        expect_none(&rt, "check t t")
    }

    /// The form `graver` with this limit.
    fn graver(limit: u32) -> Option<Form<'static>> {
        Some(Form::Graver { prefix: "m", limit })
    }

    #[test]
    fn graver_takes_a_prefix_and_at_most_one_limit(rt: HostRuntime) -> Result<(), Fail> {
        expect_form(&rt, "graver m", graver(500))?;
        expect_form(&rt, "graver m --max-basis 1", graver(1))?;
        expect_form(&rt, "graver m --max-basis 002000", graver(2_000))?;
        expect_none(&rt, "graver m --max-basis 5 --max-basis 5")?;
        expect_none(&rt, "graver m --rel")?;
        expect_none(&rt, "graver m --max-sums 5")?;
        expect_none(&rt, "graver m --workers 2")?;
        expect_none(&rt, "graver m --trace")?;
        expect_none(&rt, "graver --max-basis 5")
    }

    #[test]
    fn a_limit_is_a_short_number_within_its_range(rt: HostRuntime) -> Result<(), Fail> {
        expect_none(&rt, "graver m --max-basis 0")?;
        expect_none(&rt, "graver m --max-basis 2001")?;
        expect_none(&rt, "graver m --max-basis 1e3")?;
        expect_none(&rt, "graver m --max-basis +5")?;
        expect_none(&rt, "graver m --max-basis 0000000005")?;
        expect_none(&rt, "graver m --max-basis=5")?;
        expect_none(&rt, "graver m --max-basis")
    }

    /// The form `solve` with one worker and these options.
    fn solve(basis: u32, sums: u32, relations: bool, trace: bool) -> Option<Form<'static>> {
        let options = SolveOptions {
            basis,
            sums,
            relations,
            trace,
        };
        Some(Form::Solve {
            prefix: "t",
            workers: 1,
            options,
        })
    }

    /// The form `solve` with so many workers, and no other option.
    fn solve_by(workers: u32) -> Option<Form<'static>> {
        let options = SolveOptions {
            basis: 500,
            sums: 5_000,
            relations: false,
            trace: false,
        };
        Some(Form::Solve {
            prefix: "t",
            workers,
            options,
        })
    }

    #[test]
    fn a_solve_has_1_to_16_workers(rt: HostRuntime) -> Result<(), Fail> {
        expect_form(&rt, "solve t --workers 1", solve_by(1))?;
        expect_form(&rt, "solve t --workers 016", solve_by(16))?;
        expect_none(&rt, "solve t --workers 0")?;
        expect_none(&rt, "solve t --workers 17")?;
        expect_none(&rt, "solve t --workers 2 --workers 2")?;
        expect_none(&rt, "solve t --workers=2")?;
        expect_none(&rt, "solve t --workers")?;
        expect_none(&rt, "solve --workers 2 t")
    }

    #[test]
    fn solve_takes_a_prefix_and_each_option(rt: HostRuntime) -> Result<(), Fail> {
        expect_form(&rt, "solve t", solve(500, 5_000, false, false))?;
        expect_form(&rt, "solve t --trace", solve(500, 5_000, false, true))?;
        expect_form(
            &rt,
            "solve t --max-sums 4 --rel --max-basis 007 --trace",
            solve(7, 4, true, true),
        )?;
        expect_form(
            &rt,
            "solve t --max-basis 2000 --max-sums 20000",
            solve(2_000, 20_000, false, false),
        )
    }

    #[test]
    fn solve_takes_nothing_else(rt: HostRuntime) -> Result<(), Fail> {
        expect_none(&rt, "solve t --max-sums 20001")?;
        expect_none(&rt, "solve t --max-sums 0")?;
        expect_none(&rt, "solve t --max-sums --trace")?;
        expect_none(&rt, "solve t --trace --trace")?;
        expect_none(&rt, "solve t --max-sums 4 --max-sums 4")?;
        expect_none(&rt, "solve --trace t")
    }

    /// The form `trial`.
    fn trial(number: u32, bricks: u32) -> Option<Form<'static>> {
        Some(Form::Trial { number, bricks })
    }

    #[test]
    fn trial_takes_a_number_and_a_number_of_bricks(rt: HostRuntime) -> Result<(), Fail> {
        expect_form(&rt, "trial 0 10000", trial(0, 10_000))?;
        expect_form(&rt, "trial 65535 000000007", trial(65_535, 7))?;
        expect_none(&rt, "trial 65536 1")?;
        expect_none(&rt, "trial 1 10001")?;
        expect_none(&rt, "trial 1 0")?;
        expect_none(&rt, "trial -1 1")?;
        expect_none(&rt, "trial 1")?;
        expect_none(&rt, "trial 1 1 1")
    }
}
