//! Laws of integer lattices, in `proofs/`, for the crates that prove with the words of `lattice_theory`:
//! tests and lists, the conformal order and the 1-norm, sums and multiples of vectors, lattices and one row more,
//! rising lists, at most one slack basis,
//! what covers a lattice, and the completion step by one row.
#![tactic(auto)]
