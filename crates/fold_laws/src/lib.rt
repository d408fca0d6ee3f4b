//! Laws of programs and their points, in `proofs/`, for the crates that prove with the words of `fold_theory`: tests of
//! bounds, the bricks of a point and of its program, and what the rows of a brick and single linking rows miss.
#![tactic(auto)]
