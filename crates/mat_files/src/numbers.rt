//! The numbers that tokens spell: a sign, if there is one, and one or more digits. Leading zeros are
//! allowed, and `-0` is 0.

ghost use Rattle.std.specs.Prelude.{◌≡◌, ◌≤◌, ◌^◌, pos, true, nat_le, cond, Some, None};
ghost use Rattle.std.specs.List.{list_all};
ghost use Rattle.mat_files.specs.Tokens.{is_digit, is_digits, digits_value, digits_of, signed, number_of, count_of};
ghost use Rattle.mat_files.specs.Tokens.{spelled, IsAtMost};

/// What a token spells, where a number of at most some absolute value is wanted.
#[derive(Clone, Copy, Debug, PartialEq, Eq)]
pub enum Spelled {
    /// No number.
    NotNumber,
    /// A number that is too large in absolute value.
    TooBig,
    /// A number that is not.
    Value(i128),
}

/// The number that the token spells, of at most `largest` in absolute value. The value decides, whatever
/// the number of digits.
pub fn spelled_number(text: &[u8], largest: u128) -> Spelled
    requires { largest ≤ 2 ^ 126 }
    ensures value { result ≡ spelled largest (number_of text.now) }
    ensures at_most { IsAtMost largest result }
{
    match text {
        [b'+', digits @ ..] => spelled_digits(digits, largest),
        [b'-', digits @ ..] => match spelled_digits(digits, largest) {
            Spelled::Value(value) => Spelled::Value(-value),
            other => other,
        },
        _ => spelled_digits(text, largest),
    }
}

/// The count that the token spells, a number without a minus sign, of at most `largest`. The value decides,
/// whatever the number of digits.
pub fn spelled_count(text: &[u8], largest: u128) -> Spelled
    requires { largest ≤ 2 ^ 126 }
    ensures value { result ≡ spelled largest (signed pos (count_of text.now)) }
    ensures at_most { IsAtMost largest result }
{
    match text {
        [b'+', digits @ ..] => spelled_digits(digits, largest),
        _ => spelled_digits(text, largest),
    }
}

fn spelled_digits(digits: &[u8], largest: u128) -> Spelled
    requires { largest ≤ 2 ^ 126 }
    ensures value { result ≡ spelled largest (signed pos (digits_of digits.now)) }
    ensures at_most { IsAtMost largest result }
{
    if !are_digits(digits) {
        return Spelled::NotNumber;
    }
    match value_within(digits, largest) {
        None => Spelled::TooBig,
        Some(value) => Spelled::Value(value as i128),
    }
}

fn are_digits(text: &[u8]) -> bool
    ensures { result ≡ is_digits text.now }
{
    !text.is_empty() && each_is_digit(text)
}

fn each_is_digit(text: &[u8]) -> bool
    ensures { result ≡ list_all is_digit text.now }
{
    text.iter().all(|byte| byte.is_ascii_digit())
}

/// The number that the digits spell, where it is at most `largest`.
fn value_within(digits: &[u8], largest: u128) -> Option<u128>
    requires limit { largest ≤ 2 ^ 126 }
    requires digits { is_digits digits.now ≡ true }
    ensures { result ≡ cond (nat_le (digits_value digits.now) largest) (Some (digits_value digits.now)) None }
{
    // Ten times a value past this is past `largest`, and ten times any other is far below `2^128`.
    let most = largest.min(1 << 124);
    let mut value = 0;
    for digit in digits {
        if value > most {
            return None;
        }
        value = 10 * value + u128::from(*digit - b'0');
    }
    if value > largest { None } else { Some(value) }
}

#[cfg(test)]
mod tests {
    use super::*;

    #[test]
    fn the_value_decides(rt: HostRuntime) {
        let cases = [
            (b"+3".as_slice(), Spelled::Value(3)),
            (b"-007".as_slice(), Spelled::Value(-7)),
            (
                b"00000000000000000000000000000000000000000010".as_slice(),
                Spelled::Value(10),
            ),
            (b"11".as_slice(), Spelled::TooBig),
            (
                b"100000000000000000000000000000000000000000000".as_slice(),
                Spelled::TooBig,
            ),
            (b"-".as_slice(), Spelled::NotNumber),
            (b"1e3".as_slice(), Spelled::NotNumber),
        ];
        for (text, spelled) in cases {
            assert_eq!(rt; spelled_number(text, 10), spelled);
        }
    }

    #[test]
    fn a_count_has_no_minus(rt: HostRuntime) {
        assert_eq!(rt; spelled_count(b"+010", 10), Spelled::Value(10));
        assert_eq!(rt; spelled_count(b"-1", 10), Spelled::NotNumber);
    }
}
