//! A counter of the moves that were tried.

ghost use Rattle.std.specs.Prelude.{◌≡◌, ◌+◌, ◌-◌, ◌^◌, ◌≤◌, min};

use std::marker::Model;

/// How many moves were tried.
#[derive(Debug, Drop)]
pub struct Moves {
    count: u64,
}

impl Model for Moves {
    ghost use Rattle.std.specs.Prelude.{ℕ};

    ghost Value = { ℕ };

    ghost view = { λ m. m.count };
}

impl Moves {
    /// None as yet.
    pub fn new() -> Moves
        ensures { result ≡ 0 }
    {
        Moves { count: 0 }
    }

    /// How many there were.
    pub fn count(&self) -> u64
        ensures { result ≡ self.now }
    {
        self.count
    }

    /// One more; at `2^64 - 1` the counter stands still.
    pub fn tick(&mut self)
        ensures more { self.new ≡ min (self.old + 1) (2 ^ 64 - 1) }
        ensures rising { self.old ≤ self.new }
    {
        self.count = self.count.saturating_add(1);
    }
}
