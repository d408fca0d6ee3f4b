//! The rule of a board's table, and what its atomic steps tell.

ghost use Rattle.std.specs.Prelude.{ℕ, List, Option};
ghost use Rattle.board_laws.specs.Views.{opening_view, spent_view, splitting_view, fresh_view, joined_view};
ghost use Rattle.incumbent.specs.Plays.{Ruled, Claims, Looks, StoresHigh, StoresLow, ReadsHigh, ReadsLow, Exchanges};

use atomic_table::{Join, Play, Split, TableRule};
use board_laws::View;
use std::marker::{Brand, PhantomData};

/// The gains of a round's lengths: of each length that of its best candidate, or none. A round names its own.
pub trait Gains {
    ghost gains: { List (Option ℕ) };
}

// A function that is generic in its gains is called at `Brand`, and the call picks them.
impl Gains for Brand {
    ghost use Rattle.std.specs.Prelude.{[]};

    ghost gains = { [] };
}

/// The length that a load of the best index settles, if any.
pub(crate) trait Aim {
    ghost settles: { Option ℕ };
}

impl Aim for Brand {
    ghost use Rattle.std.specs.Prelude.{None};

    ghost settles = { None };
}

/// The rule: the words and the views of the seats are those of a board.
pub struct BoardRule<N> {
    of: PhantomData<N>,
}

impl<N: Gains> TableRule<(), View, ()> for BoardRule<N> {
    ghost holds = { λ _. Ruled N.gains };

    ghost first = { λ _. opening_view };
}

pub(crate) struct Claim<N> {
    of: PhantomData<N>,
}

impl<N: Gains> Play<(), View> for Claim<N> {
    ghost then = { Claims N.gains };
}

pub(crate) struct LoadBest<N, A> {
    of: PhantomData<(N, A)>,
}

impl<N: Gains, A: Aim> Play<(), View> for LoadBest<N, A> {
    ghost then = { Looks N.gains A.settles };
}

pub(crate) struct StoreHigh;

impl Play<(), View> for StoreHigh {
    ghost then = { StoresHigh };
}

pub(crate) struct StoreLow;

impl Play<(), View> for StoreLow {
    ghost then = { StoresLow };
}

pub(crate) struct LoadHigh<N> {
    of: PhantomData<N>,
}

impl<N: Gains> Play<(), View> for LoadHigh<N> {
    ghost then = { ReadsHigh N.gains };
}

pub(crate) struct LoadLow<N> {
    of: PhantomData<N>,
}

impl<N: Gains> Play<(), View> for LoadLow<N> {
    ghost then = { ReadsLow N.gains };
}

pub(crate) struct Exchange<N> {
    of: PhantomData<N>,
}

impl<N: Gains> Play<(), View> for Exchange<N> {
    ghost then = { Exchanges N.gains };
}

pub(crate) struct SplitSeat;

impl Split<View> for SplitSeat {
    ghost left = { splitting_view };

    ghost right = { fresh_view };
}

pub(crate) struct JoinSeat<N> {
    of: PhantomData<N>,
}

impl<N: Gains> Join<View> for JoinSeat<N> {
    ghost both = { joined_view N.gains };

    ghost spent = { spent_view };
}
