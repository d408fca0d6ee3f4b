//! The words of integer lattices, in `specs/`: vectors, the conformal order, matrices, lattices, their
//! slack bases, the criterion that a list of vectors is complete for a lattice, and signed sums.
//!
//! The theory is that of Graver bases: J. A. De Loera, R. Hemmecke and M. Köppe, "Algebraic and Geometric
//! Ideas in the Theory of Discrete Optimization" (2013); the criterion is L. Pottier's, "The Euclidean
//! algorithm in dimension n" (1996).
#![tactic(auto)]
