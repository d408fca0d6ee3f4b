//! What a search of one length asks while it runs: the best key so far.

ghost use Rattle.std.specs.Prelude.{◌≡◌};

use brick_dp::{Bound, Key};
use incumbent::{Board, Gains, Seat};

/// A seat that looks at its board. It owns the seat while a search runs.
#[derive(Drop)]
pub(crate) struct Looking<'a, N: Gains> {
    pub(crate) board: &'a Board<N>,
    pub(crate) seat: Seat<N>,
    ghost fits: { seat.table ≡ board.now },
}

impl<'a, N: Gains> Bound for Looking<'a, N> {
    ghost use Rattle.std.proofs.Common.{refl, ap, ◌∙◌};
    ghost use Rattle.board_laws.specs.Indexes.{index_key};
    ghost use Rattle.board_laws.specs.Views.{seeing_view};
    ghost use Rattle.gain_laws.proofs.Keys.{no_worse_itself, no_worse_through};
    ghost use Rattle.round_workers.specs.Looks.{IsLater};

    ghost last = { λ b. index_key N.gains b.seat.view.seen };

    ghost later = { λ a b. IsLater N.gains a.seat b.seat };

    ghost stays = { λ b. record {
      of = refl;
      view = refl;
      better = no_worse_itself (index_key N.gains b.seat.view.seen);
    } };

    ghost goes_on = { λ a b c before after. record {
      of = after.of ∙ before.of;
      view = after.view ∙ ap (λ v. seeing_view v c.seat.view.seen) before.view;
      better = no_worse_through (index_key N.gains a.seat.view.seen) (index_key N.gains b.seat.view.seen)
          (index_key N.gains c.seat.view.seen) before.better after.better;
    } };

    fn now(&mut self) -> Option<Key> {
        self.board.look(&mut self.seat)
    }
}
