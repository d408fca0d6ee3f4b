//! The menus of a run of rounds, which follow its point.

ghost use Rattle.std.specs.Prelude.{◌≡◌, ◌+◌, ◌*◌, ◌<◌, ◌≤◌, length, IfOk, IfSome, IfNone, OnOk};
ghost use Rattle.fold_theory.specs.Programs.{AreWithin, IsLength};
ghost use Rattle.run_theory.specs.Starts.{IsStart};
ghost use Rattle.run_theory.specs.Folds.{HasBrickSums};
ghost use Rattle.brick_dp.specs.Answers.{IsStepAnswer};
ghost use Rattle.brick_dp.specs.Menus.{AreMenus};
ghost use Rattle.round_workers.specs.Menus.{AreRunMenus};

use brick_dp::{Bound, Fold, Menus, Moves, StepAnswer, Targets, best_step_with, changed_bricks};
use fold_program::Point;
use std::alloc::{AllocError, Global};
use step_lengths::count;

/// How many moves the menus of a run hold at most, 32 bytes each.
const MOVES_KEPT: u64 = 1 << 22;

/// What a run keeps from one step to the next: where each sum leads, and the menus of its point for the first step
/// lengths.
#[derive(Debug, Drop)]
pub struct RunMenus<'a> {
    targets: Targets<'a>,
    menus: Vec<Menus>,
}

impl<'a> RunMenus<'a> {
    /// The menus at a point within the bounds. An error comes only where memory runs out.
    pub fn new(alloc: Global, fold: &'a Fold, point: &Point) -> Result<RunMenus<'a>, AllocError>
        requires { AreWithin fold.now.program.bricks point.now }
        ensures { IfOk result (AreRunMenus fold.now point.now) }
    {
        let targets = Targets::new(alloc, fold.sums())?;
        let mut menus = Vec::new(alloc);
        for k in 0..lengths_kept(fold) {
            menus.push(Menus::new(alloc, fold, point, k)?)?;
        }
        Ok(RunMenus { targets, menus })
    }

    /// From the menus at a point to those at another one. An error comes only where memory runs out.
    pub fn follow(
        &mut self,
        alloc: Global,
        fold: &Fold,
        before: &Point,
        after: &Point,
    ) -> Result<(), AllocError>
        requires menus { AreRunMenus fold.now before.now self.old }
        requires before { AreWithin fold.now.program.bricks before.now }
        requires after { AreWithin fold.now.program.bricks after.now }
        ensures { OnOk result (AreRunMenus fold.now after.now self.new) }
    {
        let changed = changed_bricks(alloc, fold, before, after)?;
        for at in 0..self.menus.len() {
            self.menus[at].follow(alloc, fold, before, after, &changed, at as u32)?;
        }
        Ok(())
    }

    /// The best step of `2^k` times a move, where it gains anything and the bound does not beat it. A length whose
    /// menus are not kept gets its own. An error comes only where memory runs out.
    pub fn best_step<B: Bound>(
        &self,
        alloc: Global,
        fold: &Fold,
        point: &Point,
        k: u32,
        bound: &mut B,
        moves: &mut Moves,
    ) -> Result<StepAnswer, AllocError>
        requires menus { AreRunMenus fold.now point.now self.now }
        requires sums { HasBrickSums fold.now }
        requires start { IsStart fold.now.program fold.now.phase point.now }
        requires length { IsLength fold.now.program k }
        ensures answer { IfOk result (IsStepAnswer fold.now point.now k (B.last bound.new)) }
        ensures kept { B.later bound.old bound.new }
        ensures rising { moves.old ≤ moves.new }
        ensures counted { moves.new ≤
            moves.old + length fold.now.program.bricks * (length fold.now.sums * length fold.now.sums) }
    {
        let lengths = count(fold.program().widest());
        prove!(k < lengths);
        let own = self.own_menus(alloc, fold, point, k)?;
        let menus = match &own {
            Some(own) => own,
            None => &self.menus[k as usize],
        };
        best_step_with(alloc, fold, &self.targets, menus, point, k, bound, moves)
    }

    /// Menus of a length whose menus are not kept.
    fn own_menus(
        &self,
        alloc: Global,
        fold: &Fold,
        point: &Point,
        k: u32,
    ) -> Result<Option<Menus>, AllocError>
        requires within { AreWithin fold.now.program.bricks point.now }
        requires short { k < 64 }
        ensures own { IfOk result (λ own. IfSome own (AreMenus fold.now point.now k)) }
        ensures kept { IfOk result (λ own. IfNone own (k < length self.now.menus.items)) }
    {
        if (k as usize) < self.menus.len() {
            return Ok(None);
        }
        Ok(Some(Menus::new(alloc, fold, point, k)?))
    }
}

/// How many step lengths keep their menus: all, or as many as the menus' size allows.
fn lengths_kept(fold: &Fold) -> u32
    ensures { result ≤ 64 }
{
    let program = fold.program();
    let moves = u64::from(program.n()) * u64::from(fold.sums().len());
    let lengths = u64::from(count(program.widest()));
    lengths.min(MOVES_KEPT / moves.max(1)) as u32
}
