//! Vectors of whole numbers, as slices of one length in each call: the conformal order, the 1-norm, the
//! lexicographic order, products and sums. Only `add` takes memory.
#![tactic(auto)]

mod conformal;
mod product;
mod signs;
mod single;
mod total;

pub use conformal::{conforms, conforms_turned, greatest_multiple};
pub use product::dot;
pub use signs::{Signs, are_apart, exchanged, fits, has_places, signs_of};
pub use single::{cmp_lex, is_zero, leads_positive, norm1};
pub use total::{VecFault, add};
