//! The generator of numbers: a linear congruence modulo the prime 65537.

ghost use Rattle.std.specs.Prelude.{◌≡◌, ◌<◌, ◌%◌};
ghost use Rattle.fold_gen.specs.Draws.{next, draw};

/// What draws numbers, one after the other.
#[derive(Debug, Drop)]
pub struct Draws {
    pub z: u32,
}

impl Draws {
    /// One of the `m` numbers from 0 on.
    #[tactic(auto, unfolding(crate::specs::Draws::next))]
    pub fn draw(&mut self, m: u32) -> u32
        requires some { 0 < m }
        requires small { self.old.z < 65537 }
        ensures drawn { result ≡ draw m self.old.z }
        ensures below { result < m }
        ensures turned { self.new.z ≡ next self.old.z }
        ensures small { self.new.z < 65537 }
    {
        self.z = (75 * self.z + 74) % 65537;
        self.z % m
    }
}
