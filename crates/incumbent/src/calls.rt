//! What a worker calls. Each call is made of atomic steps, and is right whatever the steps of others between them.

ghost use Rattle.std.specs.Prelude.{◌≡◌, ℕ, suc, ◌<◌, length, All, Option, Some, None, IfSome, IfNone, IsTrue, IsFalse};
ghost use Rattle.run_theory.specs.Keys as keys;
ghost use Rattle.run_theory.specs.Keys.{IsNoWorse};
ghost use Rattle.run_theory.specs.Bests.{IsBestByGains};
ghost use Rattle.round_core.specs.declared.parts.Fate.TheVariants.{Open, Offered, Beaten};
ghost use Rattle.round_core.specs.declared.parts.Stand.TheVariants.{Working};
ghost use Rattle.board_laws.specs.Indexes.{length_key, index_key, index_of, IsIndex, IsOutdone};
ghost use Rattle.board_laws.specs.Views.{HasFate, taking_view, finished_view, seeing_view, settling_view};
ghost use Rattle.board_laws.specs.Closing.{MayClose};

use crate::board::{Board, Seat};
use crate::rule::Gains;
use std::marker::Brand;
use step_lengths::{Key, beaten};

impl<N: Gains> Board<N> {
    /// The next length, which is this seat's from now on, and above all that it claimed before. None where no length
    /// was left: the seat has finished, and claims no more.
    pub fn claim(&self, seat: &mut Seat<N>) -> Option<u32>
        requires seat { seat.old.table ≡ self.now }
        requires working { seat.old.view.stand ≡ Working }
        ensures table { seat.new.table ≡ seat.old.table }
        ensures length { IfSome result (λ k. k < length N.gains) }
        ensures claimed { IfSome result (λ k. seat.new.view ≡ taking_view seat.old.view k) }
        ensures rising { IfSome result (λ k. All (λ e. e.k < k) seat.old.view.owned) }
        ensures past { IfNone result (seat.new.view ≡ finished_view seat.old.view) }
    {
        let found = self.step_claim(seat);
        if found < u64::from(self.lengths) {
            Some(found as u32)
        } else {
            None
        }
    }

    /// The best key so far, none where nothing was offered. It is no worse than any that this seat saw before.
    pub fn look(&self, seat: &mut Seat<N>) -> Option<Key>
        requires seat { seat.old.table ≡ self.now }
        ensures table { seat.new.table ≡ seat.old.table }
        ensures view { seat.new.view ≡ seeing_view seat.old.view (index_of result) }
        ensures key { result ≡ index_key N.gains (index_of result) }
        ensures better { IsNoWorse (index_key N.gains seat.old.view.seen) result }
    {
        let _lengths = self.lengths;
        let index = self.step_load_best::<Brand>(seat, None);
        self.load_key(seat, index)
    }

    /// Settles an open length of this seat as Beaten: it has no gain, or the key that this seat saw last beats it.
    pub fn settle(&self, seat: &mut Seat<N>, k: u32)
        requires seat { seat.old.table ≡ self.now }
        requires fate { HasFate k Open seat.old.view.owned }
        requires outdone { IsOutdone N.gains k (index_key N.gains seat.old.view.seen) }
        ensures table { seat.new.table ≡ seat.old.table }
        ensures view { seat.new.view ≡ settling_view seat.old.view k Beaten seat.new.view.seen }
        ensures better { IsNoWorse (index_key N.gains seat.old.view.seen) (index_key N.gains seat.new.view.seen) }
    {
        self.step_load_best::<Brand>(seat, Some(k));
    }

    /// Stores the gain of an open length of this seat, and offers the length as the best. True where it became the
    /// best one in this call; false where a better one was seen, which beats it.
    pub fn offer(&self, seat: &mut Seat<N>, key: Key) -> bool
        requires seat { seat.old.table ≡ self.now }
        requires fate { HasFate key.k Open seat.old.view.owned }
        requires gain { length_key N.gains key.k ≡ Some key }
        ensures table { seat.new.table ≡ seat.old.table }
        ensures better { IsNoWorse (index_key N.gains seat.old.view.seen) (index_key N.gains seat.new.view.seen) }
        ensures offered { IsTrue result → seat.new.view ≡ settling_view seat.old.view key.k Offered (suc key.k) }
        ensures settled { IsFalse result →
            seat.new.view ≡ settling_view seat.old.view key.k Beaten seat.new.view.seen }
        ensures beaten { IsFalse result → IsTrue (keys.beaten key (index_key N.gains seat.new.view.seen)) }
    {
        let _lengths = self.lengths;
        self.step_store_high(seat, key.k, (key.gain / (1 << 64)) as u64);
        self.step_store_low(seat, key.k, (key.gain % (1 << 64)) as u64);
        let mut seen = self.step_load_best::<Brand>(seat, Some(key.k));
        loop {
            if self.is_beaten(seat, seen, key) {
                return false;
            }
            let found = self.step_exchange(seat, seen, key.k);
            if found == seen {
                return true;
            }
            seen = found;
        }
    }

    /// The length whose key beats those of all others; none where no length gains. The opening seat closes the board,
    /// once it took in all others and every length is settled.
    pub fn close(self, seat: Seat<N>) -> Option<u32>
        requires seat { seat.table ≡ self }
        requires may { MayClose N.gains seat.view }
        ensures best { IsBestByGains N.gains result }
        ensures offered { IfSome result (λ k. HasFate k Offered seat.view.owned) }
    {
        let Board { table, lengths: _ } = self;
        let Seat { seat, of: _ } = seat;
        let closed = table.close_with(seat);
        let best = closed.word(1);
        closed.free();
        if best == 0 {
            None
        } else {
            Some((best - 1) as u32)
        }
    }

    /// The key of the index that the seat saw last.
    fn load_key(&self, seat: &mut Seat<N>, index: u64) -> Option<Key>
        requires seat { seat.old.table ≡ self.now }
        requires seen { seat.old.view.seen ≡ index }
        requires index { IsIndex N.gains index }
        ensures same { seat.new ≡ seat.old }
        ensures key { result ≡ index_key N.gains index }
    {
        if index == 0 {
            return None;
        }
        let _lengths = self.lengths;
        let k = (index - 1) as u32;
        let high = self.step_load_high(seat, k);
        let low = self.step_load_low(seat, k);
        Some(Key {
            gain: (high as u128) * (1 << 64) + low as u128,
            k,
        })
    }

    /// Whether the index that the seat saw last beats the key.
    fn is_beaten(&self, seat: &mut Seat<N>, seen: u64, key: Key) -> bool
        requires seat { seat.old.table ≡ self.now }
        requires seen { seat.old.view.seen ≡ seen }
        requires index { IsIndex N.gains seen }
        ensures same { seat.new ≡ seat.old }
        ensures beaten { result ≡ keys.beaten key (index_key N.gains seen) }
    {
        let bound = self.load_key(seat, seen);
        beaten(key, bound)
    }
}
