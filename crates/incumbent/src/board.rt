//! The board of a round, and its seats.

ghost use Rattle.std.specs.Prelude.{◌≡◌, ℕ, ◌+◌, ◌*◌, ◌≤◌, length, take, replicate, IfOk};
ghost use Rattle.board_laws.specs.Views.{opening_view};

use crate::rule::{BoardRule, Gains};
use atomic_table::Table;
use board_laws::View;
use std::alloc::{AllocError, Global};
use std::marker::{Model, PhantomData};

/// The words of one board for all lengths: the count of claims, the best index, and two halves for each length.
const WORDS: usize = 130;

/// The shared words of a round, which seats step on. Contracts see a board as the identity of its table.
///
/// Word 0 counts the claims, word 1 is the index of the best length so far, and the words `2 + 2k` and `3 + 2k` hold
/// the halves of the gain of length `k`. The index of length `k` is `k + 1`, and 0 stands for none.
#[derive(Drop)]
pub struct Board<N: Gains> {
    pub(crate) table: Table<(), View, (), BoardRule<N>, Global>,
    pub(crate) lengths: u32,
}

impl<N: Gains> Model for Board<N> {
    ghost use Rattle.std.specs.Prelude.{◌≡◌, ◌+◌, ◌*◌, ◌≤◌, length};
    ghost use Rattle.atomic_table.specs.Seated.{TableId};

    ghost Value = { TableId };

    ghost view = { λ b. b.table.shared.table_id };

    ghost invariant = { λ b. (b.lengths ≡ length N.gains) × (b.lengths ≤ 64)
        × (b.table.shared.table_id.words ≡ 2 + 2 * b.lengths) × (b.table.shared.table_id.slots ≡ 0) };
}

/// The right to step on one board, with what its holder knows of the round. It has no bytes, and is always in use.
#[derive(Drop)]
pub struct Seat<N: Gains> {
    pub(crate) seat: atomic_table::Seat<(), View>,
    pub(crate) of: PhantomData<N>,
}

impl<N: Gains> Model for Seat<N> {
    ghost use Rattle.std.specs.Prelude.{◌≡◌, [], IsTrue};
    ghost use Rattle.round_core.specs.Allowed.{is_live};
    ghost use Rattle.incumbent.specs.Seats.{Held};

    ghost Value = { Held };

    ghost view = { λ s. record { table = s.seat.table_id; view = s.seat.me.0 } };

    ghost invariant = { λ s. (s.seat.me.1 ≡ []) × IsTrue (is_live s.seat.me.0.stand) };
}

impl<N: Gains> Board<N> {
    /// A board for 1 to 64 lengths, as many as there are gains, and its opening seat. An error comes only where memory
    /// runs out.
    pub fn new(alloc: Global, lengths: u32) -> Result<(Board<N>, Seat<N>), AllocError>
        requires all { lengths ≡ length N.gains }
        requires some { 1 ≤ lengths }
        requires few { lengths ≤ 64 }
        ensures seat { IfOk result (λ b. b.1.table ≡ b.0) }
        ensures view { IfOk result (λ b. b.1.view ≡ opening_view) }
    {
        let words = [0; WORDS];
        Board::of_words(alloc, lengths, &words[..2 + 2 * lengths as usize])
    }

    fn of_words(
        alloc: Global,
        lengths: u32,
        words: &[u64],
    ) -> Result<(Board<N>, Seat<N>), AllocError>
        requires all { lengths ≡ length N.gains }
        requires few { lengths ≤ 64 }
        requires words { words.now ≡ take (2 + 2 * lengths) (replicate 130 0) }
        ensures seat { IfOk result (λ b. b.1.table ≡ b.0) }
        ensures view { IfOk result (λ b. b.1.view ≡ opening_view) }
    {
        let (table, seat) = Table::of_words(alloc, words, &())?;
        Ok((
            Board { table, lengths },
            Seat {
                seat,
                of: PhantomData,
            },
        ))
    }
}
