//! The tokens of a text: its longest runs of bytes other than white space, which is any of the bytes 9 to 13
//! and 32.

ghost use Rattle.std.specs.Prelude.{◌≡◌, ◌≤◌, not, length};
ghost use Rattle.std.specs.List.{prefix_len};
ghost use Rattle.mat_files.specs.Tokens.{is_white, whole, IsNext};

use std::marker::Model;

/// A token, and the place of its first byte in the text, from 0.
#[derive(Clone, Copy, Debug)]
pub struct Token<'a> {
    pub at: usize,
    pub text: &'a [u8],
}

/// What is left of a text: its tokens that are still to come, and the place of its end. It takes no memory.
///
/// Each call that reads answers what the next tokens spell, or the fault of the first of them that is refused: its
/// place and its kind.
#[derive(Debug, Drop)]
pub struct Scanner<'a> {
    bytes: &'a [u8],
    at: usize,
}

impl<'a> Model for Scanner<'a> {
    ghost use Rattle.std.specs.Prelude.{◌≤◌, drop, length};
    ghost use Rattle.mat_files.specs.Tokens as texts;

    ghost Value = { texts.Left };

    ghost view = { λ s. record { tokens = texts.tokens_from s.at (drop s.at s.bytes.now); end = length s.bytes.now } };

    ghost invariant = { λ s. s.at ≤ length s.bytes.now };
}

impl<'a> Scanner<'a> {
    /// All of the text.
    pub fn new(bytes: &'a [u8]) -> Scanner<'a>
        ensures { result ≡ whole bytes.now }
    {
        Scanner { bytes, at: 0 }
    }

    /// The place of the end of the text.
    pub(crate) fn end_of_text(&self) -> usize
        ensures { result ≡ self.now.end }
    {
        self.bytes.len()
    }

    /// Takes the first token of those to come. None where there is none.
    pub(crate) fn next(&mut self) -> Option<Token<'a>>
        ensures { IsNext self.old result self.new }
    {
        let left = &self.bytes[self.at..];
        let (white, left) = left.split_at(white_len(left));
        let at = self.at + white.len();
        let (text, _) = left.split_at(token_len(left));
        self.at = at + text.len();
        if text.is_empty() {
            return None;
        }
        Some(Token { at, text })
    }
}

fn is_white(byte: u8) -> bool
    ensures { result ≡ is_white byte }
{
    matches!(byte, 9..=13 | 32)
}

/// How many bytes of white space stand at the front.
fn white_len(bytes: &[u8]) -> usize
    ensures value { result ≡ prefix_len is_white bytes.now }
    ensures inside { result ≤ length bytes.now }
{
    bytes.iter().take_while(|byte| is_white(**byte)).count()
}

/// How many bytes stand before the first white space.
fn token_len(bytes: &[u8]) -> usize
    ensures value { result ≡ prefix_len (λ b. not (is_white b)) bytes.now }
    ensures inside { result ≤ length bytes.now }
{
    bytes.iter().take_while(|byte| !is_white(**byte)).count()
}

#[cfg(test)]
mod tests {
    use super::*;

    #[test]
    fn gives_each_token_with_its_place(rt: HostRuntime) {
        let mut tokens = Scanner::new(b" ab\tc\n");
        for (at, text) in [(1, b"ab".as_slice()), (4, b"c".as_slice())] {
            let token = tokens.next().expect(&rt, "a token is left");
            assert_eq!(rt; token.at, at);
            assert_eq!(rt; token.text, text);
        }
        assert!(rt; tokens.next().is_none());
    }
}
