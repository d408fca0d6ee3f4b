//! The commands: each reads its files and makes its answer.

mod check;
mod graver;
mod point;
mod solve;
mod trial;

pub(crate) use check::answer_check;
pub(crate) use graver::answer_graver;
pub(crate) use point::answer_point;
pub(crate) use solve::answer_solve;
pub(crate) use trial::answer_trial;
