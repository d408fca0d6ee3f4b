//! The parts of a round: its lengths and its workers.

ghost use Rattle.std.specs.Prelude.{◌≡◌};
ghost use Rattle.round_core.specs.Rounds.{unclaimed, no_worker};
ghost use Rattle.round_core.specs.Allowed.{is_fate, is_absent, is_working, is_live};
ghost use Rattle.round_core.specs.Steps.{handed_over, joined_stand};

/// What became of a length.
#[derive(Clone, Copy, Debug, Drop)]
pub enum Fate {
    Open,
    HalfWritten,
    Written,
    Offered,
    Beaten,
}

/// Where a worker stands: not split off yet, at work, past its last claim, or joined into another one.
#[derive(Clone, Copy, Debug, Drop)]
pub enum Stand {
    Absent,
    Working,
    Finished,
    Joined,
}

/// One length: the gain of its best candidate, the worker that claimed it, what became of it, and the halves of the
/// gain as far as they were stored.
#[derive(Clone, Copy, Debug, Drop)]
pub struct Length {
    pub gain: Option<u128>,
    pub owner: Option<u32>,
    pub fate: Fate,
    pub high: u64,
    pub low: u64,
}

/// One worker: where it stands, and the index of the best length that it saw, or 0. The index of length `k` is
/// `k + 1`.
#[derive(Clone, Copy, Debug, Drop)]
pub struct Worker {
    pub stand: Stand,
    pub seen: u64,
}

impl Fate {
    /// Whether it is this fate.
    pub fn is(self, other: Fate) -> bool
        ensures { result ≡ is_fate self other }
    {
        matches!(
            (self, other),
            (Fate::Open, Fate::Open)
                | (Fate::HalfWritten, Fate::HalfWritten)
                | (Fate::Written, Fate::Written)
                | (Fate::Offered, Fate::Offered)
                | (Fate::Beaten, Fate::Beaten)
        )
    }
}

impl Stand {
    /// Not split off yet.
    pub fn is_absent(self) -> bool
        ensures { result ≡ is_absent self }
    {
        matches!(self, Stand::Absent)
    }

    /// It may claim.
    pub fn is_working(self) -> bool
        ensures { result ≡ is_working self }
    {
        matches!(self, Stand::Working)
    }

    /// Working or Finished.
    pub fn is_live(self) -> bool
        ensures { result ≡ is_live self }
    {
        matches!(self, Stand::Working | Stand::Finished)
    }

    /// Where a worker stands that took over another one.
    pub fn joined(self, other: Stand) -> Stand
        ensures { result ≡ joined_stand self other }
    {
        match (self, other) {
            (Stand::Working, Stand::Working) => Stand::Working,
            _ => Stand::Finished,
        }
    }
}

impl Length {
    /// A length with this gain that nobody has claimed.
    pub fn unclaimed(gain: Option<u128>) -> Length
        ensures { result ≡ unclaimed gain }
    {
        Length {
            gain,
            owner: None,
            fate: Fate::Open,
            high: 0,
            low: 0,
        }
    }

    /// The length, where what belonged to the worker `from` belongs to `worker`.
    pub fn handed_over(self, from: u32, worker: u32) -> Length
        ensures { result ≡ handed_over from worker self }
    {
        match self.owner {
            Some(owner) if owner == from => Length {
                owner: Some(worker),
                ..self
            },
            _ => self,
        }
    }
}

impl Worker {
    /// A worker that has not been split off yet.
    pub fn absent() -> Worker
        ensures { result ≡ no_worker }
    {
        Worker {
            stand: Stand::Absent,
            seen: 0,
        }
    }
}
