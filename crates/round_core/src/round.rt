//! The plain state of a round: what may come, and what it changes.

ghost use Rattle.std.specs.Prelude.{◌≡◌, ◌≤◌, suc, map, length, IfOk};
ghost use Rattle.round_core.specs.Rounds.{length_at, worker_at, first_round, high_half, low_half};
ghost use Rattle.round_core.specs.Rounds.{key_at, outranks, index_beats};
ghost use Rattle.round_core.specs.Allowed.{owns, has_fate, may_settle, is_allowed};
ghost use Rattle.round_core.specs.Steps.{with_length, with_worker, with_fate, seeing_best, is_beaten, settled, better};
ghost use Rattle.round_core.specs.Steps.{storing_high, storing_low, handed_over, joining, after, is_settled, best_of};
ghost use Rattle.round_core.specs.Sound.{IsSound};
ghost use Rattle.round_core.specs.declared.events.Event.TheVariants.{Claim, Exchange, SplitSeat};

use crate::events::Event;
use crate::parts::{Fate, Length, Stand, Worker};
use run_theory::Key;
use std::alloc::{AllocError, Global};
use std::marker::Model;
use step_lengths::beats;

/// The lengths, at most 64, the workers, at most 16, the number of claims, and the index of the best length that was
/// offered, or 0. The index of length `k` is `k + 1`.
#[derive(Debug, Drop)]
pub struct Round {
    lengths: Vec<Length>,
    workers: Vec<Worker>,
    claims: u64,
    best: u64,
}

impl Model for Round {
    ghost use Rattle.std.specs.Prelude.{length, ◌≤◌};
    ghost use Rattle.round_core.specs.Rounds as rounds;

    ghost Value = { rounds.Round };

    ghost view = { λ r. record {
      lengths = r.lengths.items;
      workers = r.workers.items;
      claims = r.claims;
      best = r.best;
    } };

    ghost invariant = { λ r. (length r.lengths.items ≤ 64) × (length r.workers.items ≤ 16) };
}

/// The index of a length.
fn index(k: u32) -> u64
    ensures { result ≡ suc k }
{
    u64::from(k) + 1
}

/// A key beats none, and the lesser key.
fn outranks(a: Option<Key>, b: Option<Key>) -> bool
    ensures { result ≡ outranks a b }
{
    match (a, b) {
        (Some(a), Some(b)) => beats(a, b),
        (Some(_), None) => true,
        (None, _) => false,
    }
}

/// The high half of a gain, 0 for none.
fn high_half(gain: Option<u128>) -> u64
    ensures { result ≡ high_half gain }
{
    (gain.unwrap_or(0) / (1 << 64)) as u64
}

/// The low half.
fn low_half(gain: Option<u128>) -> u64
    ensures { result ≡ low_half gain }
{
    (gain.unwrap_or(0) % (1 << 64)) as u64
}

/// Gives `worker` what belonged to `from`.
fn hand_over(lengths: &mut [Length], from: u32, worker: u32)
    ensures { lengths.new ≡ map (handed_over from worker) lengths.old }
{
    for length in lengths.iter_mut() {
        *length = length.handed_over(from, worker);
    }
}

impl Round {
    /// The round before the first event.
    pub fn new(alloc: Global, gains: Vec<Option<u128>>, count: u32) -> Result<Round, AllocError>
        requires few { length gains.items ≤ 64 }
        requires one { 1 ≤ count }
        requires seats { count ≤ 16 }
        ensures { IfOk result (λ r. r ≡ first_round gains.items count) }
    {
        let lengths = gains.into_iter().map(Length::unclaimed).collect(alloc)?;
        let mut workers = vec![in alloc; Worker::absent(); count as usize]?;
        workers[0] = Worker {
            stand: Stand::Working,
            seen: 0,
        };
        Ok(Round {
            lengths,
            workers,
            claims: 0,
            best: 0,
        })
    }

    /// The length of the best index; none where that is 0.
    pub fn best(&self) -> Option<u32>
        requires { IsSound self.now }
        ensures { result ≡ best_of self.now }
    {
        if self.best == 0 {
            None
        } else {
            Some((self.best - 1) as u32)
        }
    }

    /// Length `k`; past the last one, one without a gain that nobody has claimed.
    fn length(&self, k: u64) -> Length
        ensures { result ≡ length_at self.now k }
    {
        match self.lengths.get(k as usize) {
            Some(length) => *length,
            None => Length::unclaimed(None),
        }
    }

    /// The worker with this number; past the last one, one that has not been split off.
    fn worker(&self, number: u32) -> Worker
        ensures { result ≡ worker_at self.now number }
    {
        match self.workers.get(number as usize) {
            Some(worker) => *worker,
            None => Worker::absent(),
        }
    }

    /// The key of length `k`, if it has a gain.
    fn key(&self, k: u64) -> Option<Key>
        ensures { result ≡ key_at self.now k }
    {
        if k >= self.lengths.len() as u64 {
            return None;
        }
        match self.length(k).gain {
            Some(gain) => Some(Key { gain, k: k as u32 }),
            None => None,
        }
    }

    /// Whether index `i` beats index `j`: any index but 0 beats 0, and else the keys of their lengths decide.
    fn index_beats(&self, i: u64, j: u64) -> bool
        ensures { result ≡ index_beats self.now i j }
    {
        if i == 0 {
            return false;
        }
        if j == 0 {
            return true;
        }
        outranks(self.key(i - 1), self.key(j - 1))
    }

    fn owns(&self, worker: u32, k: u32) -> bool
        ensures { result ≡ owns self.now worker k }
    {
        match self.length(u64::from(k)).owner {
            Some(owner) => owner == worker,
            None => false,
        }
    }

    fn has_fate(&self, k: u32, fate: Fate) -> bool
        ensures { result ≡ has_fate self.now k fate }
    {
        self.length(u64::from(k)).fate.is(fate)
    }

    /// Whether the worker may settle the length: it owns it, and it is Open or Written.
    fn may_settle(&self, worker: u32, settles: Option<u32>) -> bool
        ensures { result ≡ may_settle self.now worker settles }
    {
        match settles {
            None => true,
            Some(k) => self.owns(worker, k)
                && (self.has_fate(k, Fate::Open) || self.has_fate(k, Fate::Written)),
        }
    }

    /// Whether the best length leaves no hope for length `k`, or it has no gain.
    fn is_beaten(&self, k: u32) -> bool
        ensures { result ≡ is_beaten self.now k }
    {
        self.length(u64::from(k)).gain.is_none() || self.index_beats(self.best, index(k))
    }

    /// Every length is Offered or Beaten.
    pub fn is_settled(&self) -> bool
        ensures { result ≡ is_settled self.now }
    {
        self.lengths.iter().all(|length| length.fate.is(Fate::Offered)
            || length.fate.is(Fate::Beaten))
    }

    /// Whether the event may come.
    pub fn is_allowed(&self, event: Event) -> bool
        ensures { result ≡ is_allowed self.now event }
    {
        match event {
            Event::Claim { worker } => self.worker(worker).stand.is_working(),
            Event::StoreHigh { worker, length } => {
                self.owns(worker, length)
                    && self.has_fate(length, Fate::Open)
                    && self.length(u64::from(length)).gain.is_some()
            }
            Event::StoreLow { worker, length } => {
                self.owns(worker, length) && self.has_fate(length, Fate::HalfWritten)
            }
            Event::LoadBest { worker, settles } => {
                self.worker(worker).stand.is_live() && self.may_settle(worker, settles)
            }
            Event::LoadHigh { worker, length } | Event::LoadLow { worker, length } => {
                self.worker(worker).seen == index(length)
            }
            Event::Exchange {
                worker,
                expected,
                length,
            } => {
                self.owns(worker, length)
                    && self.has_fate(length, Fate::Written)
                    && self.worker(worker).seen == u64::from(expected)
                    && self.index_beats(index(length), u64::from(expected))
            }
            Event::SplitSeat { worker, fresh } => {
                self.worker(worker).stand.is_live()
                    && (fresh as usize) < self.workers.len()
                    && self.worker(fresh).stand.is_absent()
            }
            Event::JoinSeat { worker, from } => {
                self.worker(worker).stand.is_live()
                    && self.worker(from).stand.is_live()
                    && worker != from
            }
        }
    }

    /// Changes the round as the event does.
    pub fn apply(&mut self, event: Event)
        requires { IsSound self.old }
        ensures { self.new ≡ after self.old event }
    {
        match event {
            Event::Claim { worker } => self.claim(worker),
            Event::StoreHigh { length, .. } => self.store_high(length),
            Event::StoreLow { length, .. } => self.store_low(length),
            Event::LoadBest { worker, settles } => {
                self.see_best(worker);
                if let Some(k) = settles {
                    self.settle(k);
                }
            }
            Event::LoadHigh { .. } | Event::LoadLow { .. } => {}
            Event::Exchange {
                worker,
                expected,
                length,
            } => self.exchange(worker, expected, length),
            Event::SplitSeat { worker, fresh } => self.split(worker, fresh),
            Event::JoinSeat { worker, from } => self.join(worker, from),
        }
    }

    /// Puts another length in the place of length `k`, if there is one.
    fn set_length(&mut self, k: u64, length: Length)
        ensures { self.new ≡ with_length self.old k length }
    {
        if k < self.lengths.len() as u64 {
            self.lengths[k as usize] = length;
        }
    }

    /// Puts another worker in the place of the one with this number, if there is one.
    fn set_worker(&mut self, number: u32, worker: Worker)
        ensures { self.new ≡ with_worker self.old number worker }
    {
        if (number as usize) < self.workers.len() {
            self.workers[number as usize] = worker;
        }
    }

    fn set_fate(&mut self, k: u32, fate: Fate)
        ensures { self.new ≡ with_fate self.old k fate }
    {
        let length = self.length(u64::from(k));
        self.set_length(u64::from(k), Length { fate, ..length });
    }

    /// The worker takes the next length; where none is left it is finished.
    fn claim(&mut self, worker: u32)
        requires { IsSound self.old }
        ensures { self.new ≡ after self.old (Claim worker) }
    {
        let next = self.claims;
        if next < self.lengths.len() as u64 {
            let length = self.length(next);
            self.set_length(
                next,
                Length {
                    owner: Some(worker),
                    ..length
                },
            );
        } else {
            let state = self.worker(worker);
            self.set_worker(
                worker,
                Worker {
                    stand: Stand::Finished,
                    ..state
                },
            );
        }
        self.claims = next + 1;
    }

    fn store_high(&mut self, k: u32)
        ensures { self.new ≡ storing_high self.old k }
    {
        let length = self.length(u64::from(k));
        self.set_length(
            u64::from(k),
            Length {
                fate: Fate::HalfWritten,
                high: high_half(length.gain),
                ..length
            },
        );
    }

    fn store_low(&mut self, k: u32)
        ensures { self.new ≡ storing_low self.old k }
    {
        let length = self.length(u64::from(k));
        self.set_length(
            u64::from(k),
            Length {
                fate: Fate::Written,
                low: low_half(length.gain),
                ..length
            },
        );
    }

    /// The worker sees the index of the best length.
    fn see_best(&mut self, worker: u32)
        ensures { self.new ≡ seeing_best self.old worker }
    {
        let state = self.worker(worker);
        self.set_worker(
            worker,
            Worker {
                seen: self.best,
                ..state
            },
        );
    }

    /// The length is beaten, where it has no gain or the best one beats it.
    fn settle(&mut self, k: u32)
        ensures { self.new ≡ settled self.old k }
    {
        if self.is_beaten(k) {
            self.set_fate(k, Fate::Beaten);
        }
    }

    /// The length is the best one where the best index is the expected one; else it may be beaten.
    fn exchange(&mut self, worker: u32, expected: u32, k: u32)
        ensures { self.new ≡ after self.old (Exchange worker expected k) }
    {
        if self.best == u64::from(expected) {
            self.set_fate(k, Fate::Offered);
            self.best = index(k);
            self.see_best(worker);
        } else {
            self.see_best(worker);
            self.settle(k);
        }
    }

    fn split(&mut self, worker: u32, fresh: u32)
        ensures { self.new ≡ after self.old (SplitSeat worker fresh) }
    {
        let seen = self.worker(worker).seen;
        self.set_worker(
            fresh,
            Worker {
                stand: Stand::Working,
                seen,
            },
        );
    }

    /// The better of two indexes.
    fn better(&self, i: u64, j: u64) -> u64
        ensures { result ≡ better self.now i j }
    {
        if self.index_beats(j, i) { j } else { i }
    }

    /// The worker takes over what another one knows and owns.
    fn join(&mut self, worker: u32, from: u32)
        ensures { self.new ≡ joining self.old worker from }
    {
        let into = self.worker(worker);
        let gone = self.worker(from);
        let seen = self.better(into.seen, gone.seen);
        hand_over(&mut self.lengths, from, worker);
        self.set_worker(
            worker,
            Worker {
                stand: into.stand.joined(gone.stand),
                seen,
            },
        );
        self.set_worker(
            from,
            Worker {
                stand: Stand::Joined,
                ..gone
            },
        );
    }
}
