//! Matrices of whole numbers, and the text files that hold them; and the reader of tokens, on which each kind of text
//! file stands.
#![tactic(auto)]

mod fault;
mod matrix;
mod numbers;
mod printing;
mod reading;
mod scanning;
mod shape;
mod spelling;
mod tokens;

pub use fault::{FaultKind, MatFault, TokenFault};
pub use matrix::Matrix;
pub use numbers::{Spelled, spelled_count, spelled_number};
pub use printing::print;
pub use reading::parse;
pub use shape::Shape;
pub use tokens::{Scanner, Token};
