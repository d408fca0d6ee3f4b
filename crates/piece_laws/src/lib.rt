//! The way between two points of a program and its pieces: parts of the way cost no more at their two ends than the way
//! does, and each way between two points where a phase starts has a piece of listed moves. So a point that no unit step
//! betters is a best one.
#![tactic(auto)]

ghost use Rattle.std.specs.Prelude.{◌≡◌, ◌+◌, ◌≤◌, ◌+ℤ◌, ◌≤ℤ◌, List, length};
ghost use Rattle.lattice_theory.specs.Vectors.{Vector, ◌⊑◌, add, sub};
ghost use Rattle.lattice_theory.specs.Matrices.{product};
ghost use Rattle.lattice_theory.specs.SignedSums.{Sum, vectors};
ghost use Rattle.fold_theory.specs.declared.Phase.{Phase};
ghost use Rattle.fold_theory.specs.Programs.{Program, Brick, Bricks, IsProgram, IsBrick, AreWithin, IsWithin};
ghost use Rattle.fold_theory.specs.Programs.{brick_residual, phase_cost};
ghost use Rattle.run_theory.specs.Links.{Bases, AreBases};
ghost use Rattle.run_theory.specs.BrickSums.{AreBrickSums};
ghost use Rattle.run_theory.specs.Starts.{IsStart};
ghost use Rattle.piece_laws.specs.Points.{forth, back, way, IsPartOfWay};
ghost use Rattle.piece_laws.specs.Pieces.{Piece, IsUnitStep};

/// Law: from two points within the bounds, and a part of the way from the one to the other, the two ends of the part
/// together have no higher phase cost than the two points.
pub fn two_parts_of_a_way_cost_no_more()
    ensures { (p : Program) (phase : Phase) (x y h : Bricks) →
        IsProgram p → AreWithin p.bricks x → AreWithin p.bricks y → IsPartOfWay p x y h →
        (phase_cost p phase (forth x h) +ℤ phase_cost p phase (back y h))
        ≤ℤ (phase_cost p phase x +ℤ phase_cost p phase y) }
{}

/// Law: the same for what a brick misses of its rows, from two vectors to the two ends of a part of the difference
/// whose products are parts too.
pub fn two_parts_of_a_difference_miss_no_more()
    ensures { (p : Program) (b : Brick) (x y v : Vector) → length b.right ≡ length p.brick.rows →
        length y ≡ length x → length v ≡ length x → product p.brick v ⊑ product p.brick (sub y x) →
        brick_residual p b (add x v) + brick_residual p b (sub y v) ≤ brick_residual p b x + brick_residual p b y }
{}

/// Law: between two different points where a phase starts, the way has a piece of brick sums: each of its moves and
/// each of their first sums is one.
pub fn a_way_has_a_piece()
    ensures { (p : Program) (phase : Phase) (b : Bases) (sums : List Sum) → IsProgram p → AreBases p b →
        AreBrickSums p phase b sums → (x y : Bricks) → IsStart p phase x → IsStart p phase y → (x ≡ y → ⊥) →
        Piece p (vectors sums) (way x y) }
{}

/// Law: where no unit step of brick sums leads to a lower phase cost from a point where the phase starts, no other such
/// point has a lower one.
pub fn a_point_that_no_unit_step_betters_is_best()
    ensures { (p : Program) (phase : Phase) (b : Bases) (sums : List Sum) → IsProgram p → AreBases p b →
        AreBrickSums p phase b sums → (x : Bricks) → IsStart p phase x →
        ((h : Bricks) → IsUnitStep p phase (vectors sums) x h →
        phase_cost p phase x ≤ℤ phase_cost p phase (forth x h)) →
        (y : Bricks) → IsStart p phase y → phase_cost p phase x ≤ℤ phase_cost p phase y }
{}
