//! Reading a text token by token.

ghost use Rattle.std.specs.Prelude.{◌≡◌, ◌≤◌, ◌^◌, ◌*◌, Ok, Err, MatchResult, IfOk, OnOk, All, length, unsigned_abs};
ghost use Rattle.mat_files.specs.Tokens.{seen};
ghost use Rattle.mat_files.specs.Reading.{Gives, IsTokenFault, IsAdded, next_token, next_word, next_number, next_size};
ghost use Rattle.mat_files.specs.Reading.{next_count, next_matrix, none_of, repeated};

use crate::fault::{FaultKind, TokenFault};
use crate::matrix::Matrix;
use crate::tokens::{Scanner, Token};
use std::alloc::Global;

impl<'a> Scanner<'a> {
    /// The next token. The fault is `EndsEarly`, at the end of the text, where none is left, here and in each call
    /// below.
    pub fn token(&mut self) -> Result<Token<'a>, TokenFault>
        ensures { MatchResult result (λ t. next_token self.old ≡ Ok (seen t, self.new))
            (λ f. next_token self.old ≡ Err f) }
    {
        match self.next() {
            Some(token) => Ok(token),
            None => Err(TokenFault::new(self.end_of_text(), FaultKind::EndsEarly)),
        }
    }

    /// Takes the next token, which is this word.
    pub fn word(&mut self, expected: &[u8]) -> Result<(), TokenFault>
        ensures { Gives (next_word expected.now self.old) result self.new }
    {
        self.token()?.word(expected)
    }

    /// The number that the next token spells, of at most `largest` in absolute value.
    pub fn number(&mut self, largest: u64) -> Result<i64, TokenFault>
        requires { largest ≤ 2 ^ 62 }
        ensures number { Gives (next_number largest self.old) result self.new }
        ensures small { IfOk result (λ a. unsigned_abs a ≤ largest) }
    {
        let token = self.token()?;
        Ok(token.number(u128::from(largest))? as i64)
    }

    /// The number that the next token spells, from `from` to `to`.
    pub fn size(&mut self, from: u32, to: u32) -> Result<u32, TokenFault>
        ensures size { Gives (next_size from to self.old) result self.new }
        ensures from { IfOk result (λ n. from ≤ n) }
        ensures to { IfOk result (λ n. n ≤ to) }
    {
        self.token()?.size(from, to)
    }

    /// The count that the next token spells, from `from` to `to`; the fault of any other count is of the kind
    /// `outside`.
    pub fn count(&mut self, from: u64, to: u64, outside: FaultKind) -> Result<u64, TokenFault>
        ensures count { Gives (next_count from to outside self.old) result self.new }
        ensures from { IfOk result (λ n. from ≤ n) }
        ensures to { IfOk result (λ n. n ≤ to) }
    {
        self.token()?.count(from, to, outside)
    }

    /// Adds the next `count` numbers, each at most `largest` in absolute value.
    pub fn add_numbers(
        &mut self,
        numbers: &mut Vec<i64>,
        count: u64,
        largest: u64,
    ) -> Result<(), TokenFault>
        requires { largest ≤ 2 ^ 62 }
        ensures read { MatchResult result
            (λ _. IsAdded (repeated (next_number largest) count self.old) numbers.old.items numbers.new.items self.new)
            (IsTokenFault (repeated (next_number largest) count self.old)) }
    {
        for _ in 0..count {
            numbers.push(self.number(largest)?)?;
        }
        Ok(())
    }

    /// The matrix of so many rows and columns whose entries the next tokens spell, row by row, each at most `largest`
    /// in absolute value. No memory is asked for before there are entries to keep in it.
    pub fn matrix(
        &mut self,
        alloc: Global,
        rows: u32,
        cols: u32,
        largest: u64,
    ) -> Result<Matrix, TokenFault>
        requires { largest ≤ 2 ^ 62 }
        ensures read { MatchResult result (λ m. next_matrix rows cols largest self.old ≡ Ok (m, self.new))
            (IsTokenFault (next_matrix rows cols largest self.old)) }
        ensures height { IfOk result (λ m. length m.rows ≡ rows) }
        ensures width { IfOk result (λ m. m.cols ≡ cols) }
        ensures small { IfOk result (λ m. All (λ row. All (λ a. unsigned_abs a ≤ largest) row) m.rows) }
    {
        let mut entries = Vec::new(alloc);
        self.add_numbers(&mut entries, u64::from(rows) * u64::from(cols), largest)?;
        Ok(Matrix::new(rows, cols, entries))
    }

    /// Tests that no token is left; else the fault is `Extra`, of the first of them.
    pub fn end(&mut self) -> Result<(), TokenFault>
        ensures { result ≡ none_of self.old.tokens }
    {
        match self.next() {
            None => Ok(()),
            Some(token) => Err(TokenFault::new(token.at, FaultKind::Extra)),
        }
    }
}

#[cfg(test)]
mod tests {
    use super::*;
    use std::test::Fail;

    #[test]
    fn reads_what_the_next_tokens_spell(rt: HostRuntime) -> Result<(), Fail> {
        let mut tokens = Scanner::new(b"bound -7 +03 02 none 4\n5 -6 1 2 3 4");
        tokens.word(b"bound")?;
        assert_eq!(rt; tokens.number(7)?, -7);
        assert_eq!(rt; tokens.size(3, 3)?, 3);
        assert_eq!(rt; tokens.count(0, 2, FaultKind::TooMany)?, 2);
        assert_eq!(rt; tokens.token()?.text, b"none".as_slice());
        let mut numbers = Vec::new(rt.alloc());
        tokens.add_numbers(&mut numbers, 1, 6)?;
        tokens.add_numbers(&mut numbers, 2, 6)?;
        assert_eq!(rt; numbers.as_slice(), [4, 5, -6].as_slice());
        let matrix = tokens.matrix(rt.alloc(), 2, 2, 4)?;
        assert_eq!(rt; (matrix.rows(), matrix.cols()), (2, 2));
        assert_eq!(rt; matrix.entries(), [1, 2, 3, 4].as_slice());
        tokens.end()?;
        Ok(())
    }

    #[test]
    fn names_what_is_wrong_with_the_token(rt: HostRuntime) {
        let fault = |at, kind| Some(TokenFault { at, kind });
        let text = b" *".as_slice();
        assert_eq!(rt;
            Scanner::new(text).word(b"end").err(),
            fault(1, FaultKind::Word)
        );
        assert_eq!(rt;
            Scanner::new(text).number(1).err(),
            fault(1, FaultKind::NoBound)
        );
        assert_eq!(rt; Scanner::new(text).end().err(), fault(1, FaultKind::Extra));
        let outside = FaultKind::TooMany;
        assert_eq!(rt;
            Scanner::new(text).count(0, 1, outside).err(),
            fault(1, FaultKind::NotNumber)
        );
        assert_eq!(rt;
            Scanner::new(b"2").count(0, 1, outside).err(),
            fault(0, outside)
        );
        assert_eq!(rt;
            Scanner::new(b"0").count(1, 1, outside).err(),
            fault(0, outside)
        );
        assert_eq!(rt;
            Scanner::new(b"-2").number(1).err(),
            fault(0, FaultKind::TooBig)
        );
        let size = FaultKind::Size {
            got: -2,
            from: 0,
            to: 1,
        };
        assert_eq!(rt; Scanner::new(b"-2").size(0, 1).err(), fault(0, size));
        assert_eq!(rt;
            Scanner::new(b" ").token().err(),
            fault(1, FaultKind::EndsEarly)
        );
    }
}
