//! Laws of walks through the layers, in `proofs/`, for the crates that prove with the words of `run_theory`: least and
//! best walks from one layer to the next, and which walks are candidate steps.
#![tactic(auto)]
