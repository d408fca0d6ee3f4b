//! Which calls of a fake fail, and how much one of them moves.

ghost use Rattle.std.specs.Prelude.{◌≡◌, ◌+◌, ◌-◌, ◌^◌, ◌<◌, ◌≤◌, ◌↔◌, min, Contains, IsTrue};

/// The calls that fail, numbered from 1, and the most bytes that one call moves, which is at least one.
#[derive(Debug, Drop)]
pub(crate) struct Schedule {
    pub fail: Vec<u64>,
    pub most: usize,
    pub calls: u64,
    ghost moves: { 1 ≤ most },
}

impl Schedule {
    /// Nothing has been called yet.
    pub(crate) fn new(fail: Vec<u64>, most: usize) -> Schedule
        requires { 1 ≤ most }
        ensures fail { result.fail ≡ fail }
        ensures most { result.most ≡ most }
        ensures calls { result.calls ≡ 0 }
    {
        Schedule {
            fail,
            most,
            calls: 0,
        }
    }

    /// Counts one more call, and says whether it fails.
    pub(crate) fn next_fails(&mut self) -> bool
        ensures number { self.new.calls ≡ min (self.old.calls + 1) (2 ^ 64 - 1) }
        ensures planned { IsTrue result ↔ Contains self.old.fail.items self.new.calls }
        ensures fail { self.new.fail ≡ self.old.fail }
        ensures most { self.new.most ≡ self.old.most }
    {
        self.calls = self.calls.saturating_add(1);
        self.fail.contains(&self.calls)
    }

    /// How many of so many bytes one call moves.
    pub(crate) fn moved(&self, wanted: usize) -> usize
        ensures { result ≡ min wanted self.now.most }
    {
        wanted.min(self.most)
    }
}
