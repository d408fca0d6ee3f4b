//! The atomic steps on a board, each of which is an event of the round.

ghost use Rattle.std.specs.Prelude.{◌≡◌, ◌≢◌, ℕ, suc, ◌+◌, ◌*◌, ◌/◌, ◌%◌, ◌^◌, ◌<◌, ◌⊎◌, length, All, IfSome, Option};
ghost use Rattle.std.specs.Prelude.{Some, IsTrue};
ghost use Rattle.run_theory.specs.Keys.{IsNoWorse};
ghost use Rattle.round_core.specs.declared.parts.Fate.TheVariants.{Open, HalfWritten, Written, Offered};
ghost use Rattle.round_core.specs.declared.parts.Stand.TheVariants.{Working};
ghost use Rattle.round_core.specs.Rounds.{outranks};
ghost use Rattle.board_laws.specs.Indexes.{gain_of, length_key, index_key, IsIndex};
ghost use Rattle.board_laws.specs.Views.{HasFate, claimed_view, looked_view, marked_view, settling_view};
ghost use Rattle.board_laws.specs.Views.{splitting_view, fresh_view, joined_view};

use crate::board::{Board, Seat};
use crate::rule::{
    Aim, Claim, Exchange, Gains, JoinSeat, LoadBest, LoadHigh, LoadLow, SplitSeat, StoreHigh,
    StoreLow,
};
use std::marker::PhantomData;

impl<N: Gains> Board<N> {
    /// Counts one more claim, and returns how many came before it.
    pub(crate) fn step_claim(&self, seat: &mut Seat<N>) -> u64
        requires seat { seat.old.table ≡ self.now }
        requires working { seat.old.view.stand ≡ Working }
        ensures table { seat.new.table ≡ seat.old.table }
        ensures view { seat.new.view ≡ claimed_view (length N.gains) seat.old.view result }
        ensures rising { All (λ e. e.k < result) seat.old.view.owned }
    {
        self.table
            .shared
            .fetch_add::<Claim<N>>(&mut seat.seat, 0, 1)
    }

    /// Reads the best index; the length in `settles` is Beaten where that index beats it or it has no gain.
    pub(crate) fn step_load_best<A: Aim>(&self, seat: &mut Seat<N>, settles: Option<u32>) -> u64
        requires aim { settles ≡ A.settles }
        requires seat { seat.old.table ≡ self.now }
        requires unsettled { IfSome settles (λ k.
            HasFate k Open seat.old.view.owned ⊎ HasFate k Written seat.old.view.owned) }
        ensures table { seat.new.table ≡ seat.old.table }
        ensures view { seat.new.view ≡ looked_view N.gains settles seat.old.view result }
        ensures index { IsIndex N.gains result }
        ensures better { IsNoWorse (index_key N.gains seat.old.view.seen) (index_key N.gains result) }
        ensures other { (k : ℕ) → HasFate k Written seat.old.view.owned → result ≢ suc k }
    {
        self.table.shared.load::<LoadBest<N, A>>(&mut seat.seat, 1)
    }

    /// Stores the high half of the gain of a length.
    pub(crate) fn step_store_high(&self, seat: &mut Seat<N>, k: u32, half: u64)
        requires seat { seat.old.table ≡ self.now }
        requires fate { HasFate k Open seat.old.view.owned }
        requires half { (g : ℕ) × (gain_of N.gains k ≡ Some g) × (half ≡ g / 2 ^ 64) }
        requires length { k < length N.gains }
        ensures table { seat.new.table ≡ seat.old.table }
        ensures view { seat.new.view ≡ marked_view k HalfWritten seat.old.view }
    {
        let word = 2 + 2 * k as usize;
        self.table
            .shared
            .store::<StoreHigh>(&mut seat.seat, word, half)
    }

    /// Stores the low half.
    pub(crate) fn step_store_low(&self, seat: &mut Seat<N>, k: u32, half: u64)
        requires seat { seat.old.table ≡ self.now }
        requires fate { HasFate k HalfWritten seat.old.view.owned }
        requires half { (g : ℕ) × (gain_of N.gains k ≡ Some g) × (half ≡ g % 2 ^ 64) }
        requires length { k < length N.gains }
        ensures table { seat.new.table ≡ seat.old.table }
        ensures view { seat.new.view ≡ marked_view k Written seat.old.view }
    {
        let word = 3 + 2 * k as usize;
        self.table
            .shared
            .store::<StoreLow>(&mut seat.seat, word, half)
    }

    /// Reads the high half of the gain of the length that the seat saw last.
    pub(crate) fn step_load_high(&self, seat: &mut Seat<N>, k: u32) -> u64
        requires seat { seat.old.table ≡ self.now }
        requires seen { seat.old.view.seen ≡ suc k }
        requires length { k < length N.gains }
        ensures same { seat.new ≡ seat.old }
        ensures half { (g : ℕ) → gain_of N.gains k ≡ Some g → result ≡ g / 2 ^ 64 }
    {
        let word = 2 + 2 * k as usize;
        self.table.shared.load::<LoadHigh<N>>(&mut seat.seat, word)
    }

    /// Reads the low half.
    pub(crate) fn step_load_low(&self, seat: &mut Seat<N>, k: u32) -> u64
        requires seat { seat.old.table ≡ self.now }
        requires seen { seat.old.view.seen ≡ suc k }
        requires length { k < length N.gains }
        ensures same { seat.new ≡ seat.old }
        ensures half { (g : ℕ) → gain_of N.gains k ≡ Some g → result ≡ g % 2 ^ 64 }
    {
        let word = 3 + 2 * k as usize;
        self.table.shared.load::<LoadLow<N>>(&mut seat.seat, word)
    }

    /// Puts the index of length `k` in the place of the expected one; where another one stands there, the length may
    /// be Beaten by that. Returns the index that it found.
    pub(crate) fn step_exchange(&self, seat: &mut Seat<N>, expected: u64, k: u32) -> u64
        requires seat { seat.old.table ≡ self.now }
        requires fate { HasFate k Written seat.old.view.owned }
        requires seen { seat.old.view.seen ≡ expected }
        requires beats { IsTrue (outranks (length_key N.gains k) (index_key N.gains expected)) }
        ensures table { seat.new.table ≡ seat.old.table }
        ensures hit { result ≡ expected → seat.new.view ≡ settling_view seat.old.view k Offered (suc k) }
        ensures miss { result ≢ expected →
            (seat.new.view ≡ looked_view N.gains (Some k) seat.old.view result) × IsIndex N.gains result
            × IsTrue (outranks (index_key N.gains result) (index_key N.gains expected)) × (result ≢ suc k) }
    {
        self.table
            .shared
            .compare_exchange::<Exchange<N>>(&mut seat.seat, 1, expected, k as u64 + 1)
    }

    /// Makes one more seat, which knows the best length that this one saw. Only the opening seat makes others, at most
    /// 15.
    pub fn split(&self, seat: &mut Seat<N>) -> Seat<N>
        requires seat { seat.old.table ≡ self.now }
        requires opening { seat.old.view.number ≡ 0 }
        requires room { seat.old.view.made < 15 }
        ensures table { seat.new.table ≡ seat.old.table }
        ensures fresh_table { result.table ≡ seat.old.table }
        ensures view { seat.new.view ≡ splitting_view seat.old.view }
        ensures fresh { result.view ≡ fresh_view seat.old.view }
    {
        let seat = self.table.shared.split_seat::<SplitSeat>(&mut seat.seat);
        Seat {
            seat,
            of: PhantomData,
        }
    }

    /// Takes in another seat, which was split off: what it knows, and the lengths that it owns.
    pub fn join(&self, seat: &mut Seat<N>, other: Seat<N>)
        requires seat { seat.old.table ≡ self.now }
        requires other { other.table ≡ self.now }
        requires split_off { other.view.number ≢ 0 }
        ensures table { seat.new.table ≡ seat.old.table }
        ensures view { seat.new.view ≡ joined_view N.gains seat.old.view other.view }
    {
        let Seat {
            seat: theirs,
            of: _,
        } = other;
        self.table
            .shared
            .join_seat::<JoinSeat<N>>(&mut seat.seat, theirs);
    }
}
