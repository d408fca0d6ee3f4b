//! The core of a round: workers claim step lengths, store the gains of their candidates and offer them as the best
//! one, in atomic steps that may come in any order. Here each step is an event on one plain state, which says whether
//! it may come; what events keep, and which length is the best at the end, is proved of this state.
#![tactic(auto)]

mod events;
mod laws;
mod parts;
mod round;
mod state;

pub use events::{Event, NotAllowed};
pub use laws::{
    a_settled_round_has_its_best_length, a_settled_round_names_the_best_by_its_gains,
    an_event_keeps_a_round_sound, an_event_keeps_the_gains,
};
pub use parts::{Fate, Stand};
pub use state::State;

#[cfg(test)]
mod tests;
