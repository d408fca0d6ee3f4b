//! What a certificate shows: one that breaks no rule shows the verdict that it claims, however it was found. For the
//! claims on all bricks: each way from the point of the certificate to another one has a piece that the listed sums
//! hold, the potentials say that no such piece lowers the cost, and the rest of the way is shorter.
#![tactic(auto)]

ghost use Rattle.std.specs.Prelude.{◌≡◌, ◌≤ℤ◌, ℕ, ℤ, List, ◌∷◌, Option, Some, IsTrue};
ghost use Rattle.run_theory.specs.declared.Claim.TheVariants as claim;
ghost use Rattle.lattice_theory.specs.Vectors.{Vector};
ghost use Rattle.fold_theory.specs.declared.Phase.{Phase};
ghost use Rattle.fold_theory.specs.Programs.{Program, Brick, Bricks, IsProgram, AreWithin, link_rests, phase_cost};
ghost use Rattle.run_theory.specs.Certificates.{Certificate};
ghost use Rattle.run_theory.specs.Checker.{Accept, claimed_verdict, layers_hold, starts_at_zero, potential_of, at_most};
ghost use Rattle.run_theory.specs.Walks.{WalkCosts};
ghost use Rattle.fold_theory.specs.Verdicts.{Holds};
ghost use Rattle.piece_laws.specs.Points.{forth};
ghost use Rattle.piece_laws.specs.Pieces.{IsUnitStep};

/// Law: a certificate that breaks no rule shows what it claims: that the point of the certificate is feasible and no
/// feasible point costs less; that it is within the bounds, meets the brick rows and misses the linking rows, and no
/// such point misses them by less; or that no vector within the bounds of the brick misses its rows by less.
pub fn a_yes_holds()
    ensures { (p : Program) (c : Certificate) → IsProgram p → Accept p c → Holds p (claimed_verdict p c) }
{}

/// Law: a certificate on one brick that breaks no rule shows what it claims: no vector within the bounds of
/// that brick misses its rows by less than the certificate's vector does, which is by more than 0, so no point
/// of the program is feasible. Bricks count from 1.
pub fn a_yes_on_a_brick_holds()
    ensures { (p : Program) (c : Certificate) (i : ℕ) →
        IsProgram p → c.claim ≡ claim.InfeasibleBrick i → Accept p c → Holds p (claimed_verdict p c) }
{}

/// Law: where listed potentials hold layer by layer, that of a sum is at most the cost of each walk of length 1 from
/// it.
pub fn a_listed_potential_bounds_each_walk()
    ensures { (p : Program) (phase : Phase) (zs : List Vector) (rests : Vector) (bricks : List Brick) (x : Bricks)
        (row : List (Option ℤ)) (rows : List (List (Option ℤ))) (w : Vector) (here : Option ℤ) (h : Bricks) (c : ℤ) →
        IsTrue (layers_hold p phase zs rests bricks x (row ∷ rows)) → potential_of zs row w ≡ Some here →
        WalkCosts p phase zs 0 rests bricks x w h c → IsTrue (at_most here (Some c)) }
{}

/// Law: where listed potentials hold layer by layer, and that of zero at the beginning is not negative, no unit step of
/// listed sums leads to a lower phase cost.
pub fn potentials_that_hold_exclude_a_better_unit_step()
    ensures { (p : Program) (phase : Phase) (zs : List Vector) (x : Bricks) (rows : List (List (Option ℤ))) →
        IsProgram p → AreWithin p.bricks x → IsTrue (layers_hold p phase zs (link_rests p x) p.bricks x rows) →
        IsTrue (starts_at_zero p zs rows) → (h : Bricks) → IsUnitStep p phase zs x h →
        phase_cost p phase x ≤ℤ phase_cost p phase (forth x h) }
{}
