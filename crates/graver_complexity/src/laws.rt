//! Laws on how many sums there are, and on how large they and their images are. They bound what a solver keeps in
//! its numbers.

ghost use Rattle.std.specs.Prelude.{◌≡◌, ℕ, ◌+◌, ◌-◌, ◌*◌, ◌^◌, ◌<◌, ◌≤◌, unsigned_abs, List, length, All, false};
ghost use Rattle.lattice_theory.specs.Vectors.{Vector, is_zero};
ghost use Rattle.lattice_theory.specs.Matrices.{Matrix, product};
ghost use Rattle.lattice_theory.specs.Lattices.{IsSlackBasis, kernel};
ghost use Rattle.lattice_theory.specs.BasisLimits.{IsNarrow};
ghost use Rattle.lattice_theory.specs.SignedSums.{Sum, IsSignedSum, AreSums};
ghost use Rattle.run_theory.specs.Links as links;
ghost use Rattle.brick_sums.specs.Generators.{AreGenerators};

/// Where there is a generator, there are at least `2·g + 1` sums of at most `g` generators: its multiples by the
/// numbers from `-g` to `g`. So up to 20,000 sums come from at most 9,999 generators each.
pub fn few_levels()
    ensures { (t g : ℕ) (gens : List Vector) (sums : List Sum) → 0 < length gens → All (λ e. (length e ≡ t) ×
        (is_zero e ≡ false)) gens → AreSums t gens g sums → 2 * g + 1 ≤ length sums }
{}

/// An entry of a sum of `n` generators is at most `n` times the largest that an entry of a generator may be.
pub fn small_sums()
    ensures { (t n : ℕ) (gens : List Vector) (w : Vector) → All IsNarrow gens → IsSignedSum t gens n w →
        All (λ a. unsigned_abs a ≤ n * (2 ^ 31 - 1)) w }
{}

/// So is an entry of its linking image, where the link matrix of the generators is narrow.
pub fn small_images()
    ensures { (t n : ℕ) (a1 : Matrix) (gens : List Vector) (w : Vector) → All (λ e. length e ≡ t) gens →
        All IsNarrow (links.link_matrix a1 gens).rows → IsSignedSum t gens n w →
        All (λ a. unsigned_abs a ≤ n * (2 ^ 31 - 1)) (product a1 w) }
{}

/// The kernel of a slack basis is a list of generators: none is zero, another one, or another one's opposite.
pub fn kernel_generators()
    ensures { (m : Matrix) (basis : List Vector) → IsSlackBasis m basis → AreGenerators (kernel m.cols basis) }
{}
