//! Targets, layers and the counter, at values worked by hand.

ghost use Rattle.std.specs.Prelude.{All, IfOk};
ghost use Rattle.lattice_theory.specs.BasisLimits.{IsNarrow};
ghost use Rattle.brick_sums.specs.Generators.{AreGenerators};

use crate::{Layers, Moves, Targets};
use brick_sums::sums;
use mat_files::Matrix;
use std::alloc::{AllocError, Global};
use std::rt::HostRuntime;
use std::test::Fail;

/// One generator: what the first place gives, the second takes.
pub(crate) fn exchange(alloc: Global) -> Result<Matrix, AllocError>
    ensures narrow { IfOk result (λ gens. All IsNarrow gens.rows) }
    ensures distinct { IfOk result (λ gens. AreGenerators gens.rows) }
{
    Ok(Matrix::new(1, 2, [1, -1].to_vec(alloc)?))
}

#[test]
fn an_exchange_leads_to_the_sum_beside(rt: HostRuntime) -> Result<(), Fail> {
    let sums = sums(rt.alloc(), &exchange(rt.alloc())?, 1, 3)?;
    let targets = Targets::new(rt.alloc(), &sums)?;
    assert_eq!(rt; targets.len(), 3);
    for (h, from, to) in [
        (2, 0, Some(1)),
        (2, 1, Some(2)),
        (2, 2, None),
        (0, 2, Some(1)),
    ] {
        assert!(rt; h < targets.len() && from < targets.len());
        assert_eq!(rt; targets.target(h, from), to, "by {h} from {from}");
    }
    Ok(())
}

#[test]
fn a_repeated_layer_stands_twice(rt: HostRuntime) -> Result<(), Fail> {
    let mut layers = Layers::new(rt.alloc(), &[Some(1), None])?;
    layers.push(rt.alloc(), &[Some(0), Some(2)])?;
    layers.repeat()?;
    assert_eq!(rt; layers.get(0), [Some(1), None].as_slice());
    assert_eq!(rt; layers.get(1), [Some(0), Some(2)].as_slice());
    assert_eq!(rt; layers.get(2), [Some(0), Some(2)].as_slice());
    Ok(())
}

#[test]
fn a_counter_counts_its_ticks(rt: HostRuntime) {
    let mut moves = Moves::new();
    moves.tick();
    moves.tick();
    assert_eq!(rt; moves.count(), 2);
}
