//! The state of a round, which allowed events change.

ghost use Rattle.std.specs.Prelude.{◌≡◌, ◌≤◌, length, Some, None, All, IfOk, IfErr, OnOk, OnErr, IsTrue};
ghost use Rattle.round_core.specs.Rounds.{first_round};
ghost use Rattle.round_core.specs.Steps.{step, is_settled, best_of};
ghost use Rattle.round_core.specs.Sound.{IsGain, IsBestLength};

use crate::events::{Event, NotAllowed};
use crate::round::Round;
use std::alloc::{AllocError, Global};
use std::marker::Model;

/// A round of workers: its lengths with the gains of their best candidates, who claimed them, and which one is the
/// best so far.
///
/// Each state keeps what the events keep, whatever came: each claimed length has one owner, the best length is one
/// that was offered, and none that was offered beats it.
#[derive(Debug, Drop)]
pub struct State {
    round: Round,
}

impl Model for State {
    ghost use Rattle.round_core.specs.Rounds as rounds;
    ghost use Rattle.round_core.specs.Sound.{IsSound};

    ghost Value = { rounds.Round };

    ghost view = { λ s. s.round };

    ghost invariant = { λ s. IsSound s.round };
}

impl State {
    /// The state before the first event: worker 0 is at work, the others are not split off, and no length is claimed.
    ///
    /// There are 1 to 64 lengths, each with the gain of its best candidate, which is above 0, or none; and 1 to 16
    /// workers. An error comes only where memory runs out.
    pub fn new(alloc: Global, gains: Vec<Option<u128>>, workers: u32) -> Result<State, AllocError>
        requires some { 1 ≤ length gains.items }
        requires few { length gains.items ≤ 64 }
        requires gains { All IsGain gains.items }
        requires one { 1 ≤ workers }
        requires seats { workers ≤ 16 }
        ensures { IfOk result (λ r. r ≡ first_round gains.items workers) }
    {
        let round = Round::new(alloc, gains, workers)?;
        Ok(State { round })
    }

    /// Does what the event says, where it is allowed; else the state stays as it is.
    pub fn step(&mut self, event: Event) -> Result<(), NotAllowed>
        ensures done { OnOk result (step self.old event ≡ Some self.new) }
        ensures refused { OnErr result (step self.old event ≡ None) }
        ensures kept { OnErr result (self.new ≡ self.old) }
        ensures named { IfErr result (λ e. e.event ≡ event) }
    {
        if !self.round.is_allowed(event) {
            return Err(NotAllowed { event });
        }
        self.round.apply(event);
        Ok(())
    }

    /// Whether every length is Offered or Beaten.
    pub fn settled(&self) -> bool
        ensures { result ≡ is_settled self.now }
    {
        self.round.is_settled()
    }

    /// The length that is the best so far; none where nothing was offered.
    ///
    /// Once every length is settled, its key beats those of all others, and none means that no length has a gain.
    pub fn best(&self) -> Option<u32>
        ensures offered { result ≡ best_of self.now }
        ensures end { IsTrue (is_settled self.now) → IsBestLength self.now result }
    {
        self.round.best()
    }
}
