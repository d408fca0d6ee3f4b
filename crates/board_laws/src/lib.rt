//! The board of a round as plain data: its words, what each of its seats knows, and the round of workers that both
//! show. Each atomic step on a board is the event of its name in that round.
#![tactic(auto)]

mod laws;
mod views;

pub use laws::{
    a_board_begins_with_its_opening_seat, a_board_shows_a_sound_round,
    a_board_that_may_be_closed_names_the_best_length, a_claim_is_the_event_of_its_name,
    a_join_is_the_event_of_its_name, a_look_is_the_event_load_best,
    a_look_that_settles_is_the_event_load_best, a_split_is_the_event_of_its_name,
    a_step_that_is_an_event_keeps_a_board, a_store_of_the_high_half_is_the_event_of_its_name,
    a_store_of_the_low_half_is_the_event_of_its_name,
    an_exchange_that_finds_another_index_is_the_event_of_its_name,
    an_exchange_that_finds_the_expected_index_is_the_event_of_its_name,
    loads_of_the_halves_are_the_events_of_their_names,
};
pub use round_core::{Fate, Stand};
pub use views::{Owned, View};
