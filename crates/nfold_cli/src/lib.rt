//! The top call of the program: its words, its texts and what it answers.
#![tactic(auto)]

mod answer;
mod answering;
mod commands;
mod laws;
mod refusals;
mod run_texts;
mod running;
mod solved_texts;
mod status;
mod texts;
mod words;

pub use laws::{all_numbers_of_workers_have_one_ending, each_phase_makes_few_steps, one_ending};
pub use run_texts::{brick_step_text, limit_text, made_text, step_text, trial_text};
pub use running::run;
pub use solved_texts::solved_text;
pub use status::Status;
pub use texts::{
    at_byte, at_column, basis_limit_text, cert_fault_text, check_text, cost_fault_text, input_text,
    mat_fault_text, memory_text, point_text, read_text, usage_text, write_text,
};
pub use words::{Form, SolveOptions, form_of};
