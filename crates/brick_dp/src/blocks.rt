//! Blocks of bricks. Where no move of a block can lower a cell of a layer, its bricks are passed at once.

ghost use Rattle.std.specs.Prelude.{◌≡◌, ◌+◌, ◌*◌, ◌<◌, All, length, IfOk};
ghost use Rattle.layer_sieve.specs.Falls.{AreKept};
ghost use Rattle.brick_dp.specs.Menus.{AreListed};
ghost use Rattle.brick_dp.specs.Blocks.{IsBelow, IsBelowAll, AreInBlocks};

use crate::menus::BrickMenu;
use layer_sieve::{PricedMove, lower_cell};
use std::alloc::{AllocError, Global};
use std::marker::Model;

/// How many bricks a block has. Those behind the last whole block make up a smaller one.
pub(crate) const BRICKS: usize = 16;

/// What is known of the bricks of a block: of each move, by its place in the list of sums, the least that it changes
/// the cost of one of them by, and none where none of them has it.
#[derive(Debug, Drop)]
pub(crate) struct Block {
    changes: Vec<Option<i128>>,
}

impl Model for Block {
    ghost use Rattle.sieve_laws.specs.Sieve.{Layer};

    ghost Value = { Layer };

    ghost view = { λ b. b.changes.items };
}

impl Block {
    /// The block of this number, from 0, where there are so many sums.
    pub(crate) fn new(
        alloc: Global,
        menus: &[BrickMenu],
        block: usize,
        sums: u32,
    ) -> Result<Block, AllocError>
        requires low { AreListed sums menus.now }
        requires few { 16 * block < length menus.now }
        ensures { IfOk result (IsBelowAll menus.now (16 * block) (16 * block + 16)) }
    {
        let mut changes = vec![in alloc; None; sums as usize]?;
        let from = BRICKS * block;
        let to = (from + BRICKS).min(menus.len());
        for at in from..to {
            note(&mut changes, menus[at].moves());
        }
        Ok(Block { changes })
    }

    /// Of each move the least change.
    pub(crate) fn changes(&self) -> &[Option<i128>]
        ensures { result.now ≡ self.now }
    {
        &self.changes
    }
}

/// Notes the moves of one more brick.
fn note(changes: &mut [Option<i128>], menu: &[PricedMove])
    requires low { All (λ m. m.place < length changes.old) menu.now }
    ensures below { IsBelow changes.new menu.now }
    ensures kept { AreKept changes.old changes.new }
    ensures size { length changes.new ≡ length changes.old }
{
    for m in menu {
        lower_cell(&mut changes[m.place as usize], m.change);
    }
}

/// All blocks of these bricks, where there are so many sums.
pub(crate) fn blocks(
    alloc: Global,
    menus: &[BrickMenu],
    sums: u32,
) -> Result<Vec<Option<Block>>, AllocError>
    requires low { AreListed sums menus.now }
    ensures { IfOk result (λ blocks. AreInBlocks menus.now blocks.items) }
{
    let mut blocks = Vec::new(alloc);
    for block in 0..menus.len().div_ceil(BRICKS) {
        blocks.push(Some(Block::new(alloc, menus, block, sums)?))?;
    }
    Ok(blocks)
}
