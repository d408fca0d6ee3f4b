//! The lengths that steps are tried with: 2^0, 2^1 and so on, as far as the widest bounds reach; and which of two
//! lengths comes first by what their best candidates gain.
#![tactic(auto)]

ghost use Rattle.std.specs.Prelude.{◌≡◌, ◌≤◌, ◌^◌};
ghost use Rattle.run_theory.specs.Keys as keys;
ghost use Rattle.step_lengths.specs.Lengths.{IsLengthCount};

pub use run_theory::Key;

/// How many step lengths 2^0, 2^1, .. there are for a range of this width: those that are at most the width, and 2^0
/// always.
pub fn count(range: u64) -> u32
    requires { range ≤ 2 ^ 63 }
    ensures lengths { IsLengthCount range result }
    ensures few { result ≤ 64 }
{
    64 - range.max(1).leading_zeros()
}

/// Whether the first key comes before the second: its gain is greater, or the gains are equal and its length is less.
pub fn beats(a: Key, b: Key) -> bool
    ensures { result ≡ keys.beats a b }
{
    a.gain > b.gain || (a.gain == b.gain && a.k < b.k)
}

/// Whether a bound is there and beats the key.
pub fn beaten(key: Key, bound: Option<Key>) -> bool
    ensures { result ≡ keys.beaten key bound }
{
    bound.is_some_and(|bound| beats(bound, key))
}

#[cfg(test)]
mod tests {
    use super::*;

    #[test]
    fn the_greater_gain_and_then_the_lesser_length_beats(rt: HostRuntime) {
        let key = Key { gain: 4, k: 1 };
        for (gain, k, is_first) in [
            (5, 2, true),
            (4, 0, true),
            (4, 1, false),
            (4, 2, false),
            (3, 0, false),
        ] {
            let bound = Key { gain, k };
            assert_eq!(rt; beats(bound, key), is_first, "at {gain} and {k}");
            assert_eq!(rt; beaten(key, Some(bound)), is_first, "under {gain} and {k}");
        }
        assert!(rt; !beaten(key, None));
    }

    #[test]
    fn each_length_up_to_the_range_counts(rt: HostRuntime) {
        for (range, lengths) in [(0, 1), (1, 1), (2, 2), (3, 2), (4, 3), (1 << 63, 64)] {
            assert_eq!(rt; count(range), lengths, "at {range}");
        }
    }
}
