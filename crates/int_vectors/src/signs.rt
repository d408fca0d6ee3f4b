//! The signs of a vector in two words.
//!
//! A vector that lies below another has its positive entries at places where that has positive ones, and so
//! with the negative ones. Two words for each vector hold these places, folded modulo 64: where they do not
//! fit, no entry needs to be looked at.

ghost use Rattle.std.specs.Prelude.{◌≡◌};
ghost use Rattle.int_vectors.specs.Signs as words;

/// The places, modulo 64, of the positive and of the negative entries of a vector.
#[derive(Clone, Copy, Debug)]
pub struct Signs {
    /// Those of the positive entries.
    pub up: u64,
    /// Those of the negative entries.
    pub down: u64,
}

/// The signs of a vector.
pub fn signs_of(z: &[i64]) -> Signs
    ensures { result ≡ words.signs_of z.now }
{
    let mut up = 0;
    let mut down = 0;
    for (at, x) in z.iter().enumerate() {
        up |= mark(*x > 0, at);
        down |= mark(*x < 0, at);
    }
    Signs { up, down }
}

/// The bit of a place, where it is to be set.
fn mark(set: bool, at: usize) -> u64
    ensures { result ≡ words.mark set at }
{
    if set { 1 << (at % 64) } else { 0 }
}

/// The signs of the opposite.
pub fn exchanged(signs: Signs) -> Signs
    ensures { result ≡ words.exchanged signs }
{
    Signs {
        up: signs.down,
        down: signs.up,
    }
}

/// Whether all places, of either sign, are among those of the other vector.
pub fn has_places(signs: Signs, others: Signs) -> bool
    ensures { result ≡ words.has_places signs others }
{
    let places = signs.up | signs.down;
    places & (others.up | others.down) == places
}

/// Whether the places of each sign are among those of the other vector.
pub fn fits(signs: Signs, others: Signs) -> bool
    ensures { result ≡ words.fits signs others }
{
    signs.up & others.up == signs.up && signs.down & others.down == signs.down
}

/// Whether no place of one sign is among those of the other sign of the other vector. Then no two entries at one place
/// have opposite signs.
pub fn are_apart(signs: Signs, others: Signs) -> bool
    ensures { result ≡ words.are_apart signs others }
{
    signs.up & others.down == 0 && signs.down & others.up == 0
}

#[cfg(test)]
mod tests {
    use super::*;

    #[test]
    fn places_of_each_sign_are_bits(rt: HostRuntime) {
        let signs = signs_of([5, 0, -2, 1].as_slice());
        assert_eq!(rt; (signs.up, signs.down), (9, 4));
    }

    #[test]
    fn signs_are_apart_where_none_meets_its_opposite(rt: HostRuntime) {
        let z = signs_of([5, 0, -2, 1].as_slice());
        for (u, apart) in [
            ([1, -3, -7, 0], true),
            ([0, 0, 1, 0], false),
            ([0, 0, 0, -1], false),
        ] {
            assert_eq!(rt; are_apart(signs_of(u.as_slice()), z), apart, "at {u:?}");
        }
    }

    #[test]
    fn signs_fit_where_no_place_is_missing(rt: HostRuntime) {
        let z = signs_of([5, 0, -2, 1].as_slice());
        for (u, all, each) in [
            ([1, 0, 0, 9], true, true),
            ([1, 0, 2, 0], true, false),
            ([0, 1, 0, 0], false, false),
        ] {
            let signs = signs_of(u.as_slice());
            assert_eq!(rt; has_places(signs, z), all, "at {u:?}");
            assert_eq!(rt; fits(signs, z), each, "at {u:?}");
            assert_eq!(rt; fits(exchanged(signs), exchanged(z)), each, "at {u:?}");
        }
    }
}
