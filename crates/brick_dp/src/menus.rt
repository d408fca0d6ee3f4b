//! The moves of each brick within its bounds, with what they change the cost by.

ghost use Rattle.std.specs.Prelude.{◌≡◌, ◌-◌, ◌+◌, ◌*◌, ◌<◌, ◌≤◌, length, Some, IfOk, IfSome, OnOk, slice_get};
ghost use Rattle.fold_theory.specs.Programs.{IsWithin, AreWithin};
ghost use Rattle.fold_program.specs.Places.{ForBrick};
ghost use Rattle.brick_dp.specs.Blocks.{IsBelowAll};
ghost use Rattle.brick_dp.specs.Menus.{IsBrickMenu, AreMenus, AreListed, AreChanged, IsRenewed};
ghost use Rattle.brick_dp.specs.Needs.{IsLeastOf};
ghost use Rattle.sieve_laws.specs.Sieve.{Menu};

use crate::blocks::{BRICKS, Block, blocks};
use crate::changes::change;
use crate::folds::Fold;
use fold_program::Point;
use layer_sieve::PricedMove;
use std::alloc::{AllocError, Global};
use std::marker::Model;

/// The moves of one brick within its bounds, and the least that one of them changes the cost by.
#[derive(Debug, Drop)]
pub(crate) struct BrickMenu {
    moves: Vec<PricedMove>,
    least: i128,
}

impl Model for BrickMenu {
    ghost use Rattle.sieve_laws.specs.Sieve.{Menu};
    ghost use Rattle.brick_dp.specs.Needs.{IsLeastOf};

    ghost Value = { Menu };

    ghost view = { λ m. m.moves.items };

    ghost invariant = { λ m. IsLeastOf m.moves.items m.least };
}

impl BrickMenu {
    /// The menu of these moves.
    fn new(moves: Vec<PricedMove>) -> BrickMenu
        ensures { result ≡ moves.items }
    {
        let least = least_change(&moves);
        BrickMenu { moves, least }
    }

    /// The moves.
    pub(crate) fn moves(&self) -> &[PricedMove]
        ensures { result.now ≡ self.now }
    {
        &self.moves
    }

    /// The least that a move changes the cost by; 0 where none lowers it.
    fn least(&self) -> i128
        ensures { IsLeastOf self.now result }
    {
        self.least
    }
}

/// The menus of all bricks at a point, for steps of one length, with what is known of blocks of bricks: none of a block
/// one of whose menus is being made anew.
#[derive(Debug, Drop)]
pub struct Menus {
    menus: Vec<BrickMenu>,
    blocks: Vec<Option<Block>>,
}

impl Model for Menus {
    ghost use Rattle.std.specs.Prelude.{List};
    ghost use Rattle.sieve_laws.specs.Sieve.{Menu};
    ghost use Rattle.brick_dp.specs.Blocks.{AreInBlocks};

    ghost Value = { List Menu };

    ghost view = { λ m. m.menus.items };

    ghost invariant = { λ m. AreInBlocks m.menus.items m.blocks.items };
}

impl Menus {
    /// The menus at a point within the bounds, for steps of `2^k`. An error comes only where memory runs out.
    pub fn new(alloc: Global, fold: &Fold, point: &Point, k: u32) -> Result<Menus, AllocError>
        requires within { AreWithin fold.now.program.bricks point.now }
        requires short { k < 64 }
        ensures { IfOk result (AreMenus fold.now point.now k) }
    {
        let bricks = fold.program().n();
        let mut menus = Vec::with_capacity(alloc, bricks as usize)?;
        for done in 0..bricks {
            menus.push(menu(alloc, fold, done + 1, point.brick(done + 1), k)?)?;
        }
        let blocks = blocks(alloc, &menus, fold.sums().len())?;
        Ok(Menus { menus, blocks })
    }

    /// From the menus at a point to those at another one: only the bricks that changed get a new menu. An error comes
    /// only where memory runs out; it leaves menus of either point.
    pub fn follow(
        &mut self,
        alloc: Global,
        fold: &Fold,
        _before: &Point,
        after: &Point,
        changed: &[bool],
        k: u32,
    ) -> Result<(), AllocError>
        requires menus { AreMenus fold.now _before.now k self.old }
        requires before { AreWithin fold.now.program.bricks _before.now }
        requires within { AreWithin fold.now.program.bricks after.now }
        requires changed { AreChanged _before.now after.now changed.now }
        requires short { k < 64 }
        ensures { OnOk result (AreMenus fold.now after.now k self.new) }
    {
        for done in 0..fold.program().n() {
            if changed[done as usize] {
                self.renew(alloc, fold, done + 1, after.brick(done + 1), k)?;
            }
        }
        Ok(())
    }

    /// Gives a brick the menu at this vector. An error comes only where memory runs out.
    fn renew(
        &mut self,
        alloc: Global,
        fold: &Fold,
        brick: u32,
        at: &[i64],
        k: u32,
    ) -> Result<(), AllocError>
        requires from { 1 ≤ brick }
        requires to { brick ≤ length fold.now.program.bricks }
        requires within { ForBrick fold.now.program brick (λ b. IsWithin b at.now) }
        requires size { length at.now ≡ fold.now.program.link.cols }
        requires short { k < 64 }
        requires count { length self.old ≡ length fold.now.program.bricks }
        requires listed { AreListed (length fold.now.sums) self.old }
        ensures { OnOk result (IsRenewed fold.now k brick at.now self.old self.new) }
    {
        let menu = menu(alloc, fold, brick, at, k)?;
        let place = brick as usize - 1;
        let block = place / BRICKS;
        self.blocks[block] = None;
        self.menus[place] = menu;
        self.blocks[block] = Some(Block::new(alloc, &self.menus, block, fold.sums().len())?);
        Ok(())
    }

    /// The menu of one brick; bricks are numbered from 1.
    pub fn of(&self, brick: u32) -> &[PricedMove]
        requires from { 1 ≤ brick }
        requires to { brick ≤ length self.now }
        ensures { slice_get self.now (brick - 1) ≡ Some result.now }
    {
        self.menus[brick as usize - 1].moves()
    }

    /// What is known of a block, numbered from 0: of each move by its place the least that it changes the cost by.
    pub(crate) fn changes(&self, block: usize) -> Option<&[Option<i128>]>
        ensures { IfSome result (λ changes. IsBelowAll self.now (16 * block) (16 * block + 16) changes.now) }
    {
        let block = self.blocks.get(block)?.as_ref()?;
        Some(block.changes())
    }

    /// The least that a move of one brick changes the cost by, 0 where none lowers it; bricks are numbered from 1.
    pub fn least(&self, brick: u32) -> i128
        requires from { 1 ≤ brick }
        requires to { brick ≤ length self.now }
        ensures { (menu : Menu) → slice_get self.now (brick - 1) ≡ Some menu → IsLeastOf menu result }
    {
        self.menus[brick as usize - 1].least()
    }
}

/// Of each brick whether it has another vector at the second point.
pub fn changed_bricks(
    alloc: Global,
    fold: &Fold,
    before: &Point,
    after: &Point,
) -> Result<Vec<bool>, AllocError>
    requires before { AreWithin fold.now.program.bricks before.now }
    requires after { AreWithin fold.now.program.bricks after.now }
    ensures { IfOk result (λ changed. AreChanged before.now after.now changed.items) }
{
    let bricks = fold.program().n();
    let mut changed = Vec::with_capacity(alloc, bricks as usize)?;
    for done in 0..bricks {
        changed.push(before.brick(done + 1) != after.brick(done + 1))?;
    }
    Ok(changed)
}

/// The menu of one brick.
fn menu(alloc: Global, fold: &Fold, brick: u32, at: &[i64], k: u32) -> Result<BrickMenu, AllocError>
    requires from { 1 ≤ brick }
    requires to { brick ≤ length fold.now.program.bricks }
    requires within { ForBrick fold.now.program brick (λ b. IsWithin b at.now) }
    requires size { length at.now ≡ fold.now.program.link.cols }
    requires short { k < 64 }
    ensures { IfOk result (λ menu. ForBrick fold.now.program brick (λ b. IsBrickMenu fold.now k b at.now menu)) }
{
    let mut menu = Vec::new(alloc);
    for place in 0..fold.sums().len() {
        if let Some(change) = change(alloc, fold, brick, at, fold.sum(place), k)? {
            menu.push(PricedMove { place, change })?;
        }
    }
    Ok(BrickMenu::new(menu))
}

/// The least that a move of the menu changes the cost by; 0 where none lowers it.
fn least_change(menu: &[PricedMove]) -> i128
    ensures { IsLeastOf menu.now result }
{
    let mut least = 0;
    for m in menu {
        if m.change < least {
            least = m.change;
        }
    }
    least
}
