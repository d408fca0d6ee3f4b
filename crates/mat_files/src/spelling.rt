//! What a token spells.

ghost use Rattle.std.specs.Prelude.{◌≡◌, ◌≤◌, ◌^◌, IfOk, unsigned_abs};
ghost use Rattle.mat_files.specs.Tokens.{seen};
ghost use Rattle.mat_files.specs.Reading.{word_at, number_at, size_at, count_at};

use crate::fault::{FaultKind, TokenFault};
use crate::numbers::{Spelled, spelled_count, spelled_number};
use crate::tokens::Token;

impl<'a> Token<'a> {
    /// Tests that the token is this word; else the fault is `Word`.
    pub fn word(&self, expected: &[u8]) -> Result<(), TokenFault>
        ensures { result ≡ word_at expected.now (seen self.now) }
    {
        if self.text == expected {
            Ok(())
        } else {
            Err(TokenFault::new(self.at, FaultKind::Word))
        }
    }

    /// The number that the token spells, of at most `largest` in absolute value. The fault is `NoBound` of `*`,
    /// `NotNumber` of any other token that spells none, and `TooBig` of a number that is too large.
    pub fn number(&self, largest: u128) -> Result<i128, TokenFault>
        requires { largest ≤ 2 ^ 126 }
        ensures number { result ≡ number_at largest (seen self.now) }
        ensures small { IfOk result (λ a. unsigned_abs a ≤ largest) }
    {
        if self.text == b"*".as_slice() {
            return Err(TokenFault::new(self.at, FaultKind::NoBound));
        }
        match spelled_number(self.text, largest) {
            Spelled::NotNumber => Err(TokenFault::new(self.at, FaultKind::NotNumber)),
            Spelled::TooBig => Err(TokenFault::new(self.at, FaultKind::TooBig)),
            Spelled::Value(value) => Ok(value),
        }
    }

    /// The number that the token spells, from `from` to `to`. The faults are those of a number of at most `2^62` in
    /// absolute value, and `Size` of one that is not in the range.
    pub fn size(&self, from: u32, to: u32) -> Result<u32, TokenFault>
        ensures size { result ≡ size_at from to (seen self.now) }
        ensures from { IfOk result (λ n. from ≤ n) }
        ensures to { IfOk result (λ n. n ≤ to) }
    {
        let got = self.number(1 << 62)? as i64;
        if got < i64::from(from) || i64::from(to) < got {
            return Err(TokenFault::new(self.at, FaultKind::Size { got, from, to }));
        }
        Ok(got as u32)
    }

    /// The count that the token spells, a number without a minus sign, from `from` to `to`. The fault is `NotNumber`
    /// of a token that spells none, and of the kind `outside` of a count that is not in the range.
    pub fn count(&self, from: u64, to: u64, outside: FaultKind) -> Result<u64, TokenFault>
        ensures count { result ≡ count_at from to outside (seen self.now) }
        ensures from { IfOk result (λ n. from ≤ n) }
        ensures to { IfOk result (λ n. n ≤ to) }
    {
        match spelled_count(self.text, u128::from(to)) {
            Spelled::NotNumber => Err(TokenFault::new(self.at, FaultKind::NotNumber)),
            Spelled::Value(value) if i128::from(from) <= value => Ok(value as u64),
            _ => Err(TokenFault::new(self.at, outside)),
        }
    }
}
