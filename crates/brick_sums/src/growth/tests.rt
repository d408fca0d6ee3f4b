ghost use Rattle.std.specs.Prelude.{All, IfOk};
ghost use Rattle.lattice_theory.specs.BasisLimits.{IsNarrow};
ghost use Rattle.brick_sums.specs.Generators.{AreGenerators};

use super::*;
use std::test::Fail;

/// One generator: what the first place gives, the second takes.
fn exchange(alloc: Global) -> Result<Matrix, AllocError>
    ensures narrow { IfOk result (λ gens. All IsNarrow gens.rows) }
    ensures distinct { IfOk result (λ gens. AreGenerators gens.rows) }
{
    Ok(Matrix::new(1, 2, [1, -1].to_vec(alloc)?))
}

/// What goes from one of three suppliers to another.
fn suppliers(alloc: Global) -> Result<Matrix, AllocError>
    ensures narrow { IfOk result (λ gens. All IsNarrow gens.rows) }
    ensures distinct { IfOk result (λ gens. AreGenerators gens.rows) }
{
    Ok(Matrix::new(3, 3, [0, 1, -1, 1, -1, 0, 1, 0, -1].to_vec(alloc)?))
}

/// Takes what threads may share.
fn is_shared<T: Send + Sync>(_shared: &T) {}

#[test]
fn threads_may_share_the_sums(rt: HostRuntime) -> Result<(), Fail> {
    is_shared(&sums(rt.alloc(), &exchange(rt.alloc())?, 1, 3)?);
    Ok(())
}

#[test]
fn the_sums_of_two_exchanges_are_five_in_order(rt: HostRuntime) -> Result<(), Fail> {
    let listed = sums(rt.alloc(), &exchange(rt.alloc())?, 2, 5)?;
    assert_eq!(rt; listed.len(), 5);
    assert_eq!(rt; listed.zero(), 2);
    for (i, v, level) in [
        (0, [-2, 2], 2),
        (1, [-1, 1], 1),
        (2, [0, 0], 0),
        (3, [1, -1], 1),
        (4, [2, -2], 2),
    ] {
        assert!(rt; i < listed.len());
        assert_eq!(rt; listed.get(i), v.as_slice());
        assert_eq!(rt; listed.level(i), level);
        assert_eq!(rt; listed.find(v.as_slice()), Some(i));
    }
    assert_eq!(rt; listed.find([1, 1].as_slice()), None);
    Ok(())
}

#[test]
fn five_sums_are_more_than_four(rt: HostRuntime) -> Result<(), Fail> {
    let refused = sums(rt.alloc(), &exchange(rt.alloc())?, 2, 4);
    assert!(rt; matches!(refused, Err(SumsFault::Limit)));
    Ok(())
}

#[test]
fn sums_of_very_many_generators_are_too_many(rt: HostRuntime) -> Result<(), Fail> {
    let refused = sums(rt.alloc(), &exchange(rt.alloc())?, 1 << 42, 20000);
    assert!(rt; matches!(refused, Err(SumsFault::Limit)));
    Ok(())
}

#[test]
fn each_further_exchange_gives_two_more(rt: HostRuntime) -> Result<(), Fail> {
    let listed = sums(rt.alloc(), &exchange(rt.alloc())?, 52, 20000)?;
    assert_eq!(rt; listed.len(), 105);
    Ok(())
}

#[test]
fn sums_of_different_generators_count(rt: HostRuntime) -> Result<(), Fail> {
    let listed = sums(rt.alloc(), &suppliers(rt.alloc())?, 3, 20000)?;
    assert_eq!(rt; listed.len(), 37);
    Ok(())
}

#[test]
fn no_generator_gives_zero_alone(rt: HostRuntime) -> Result<(), Fail> {
    let none = Matrix::new(0, 2, Vec::new(rt.alloc()));
    let listed = sums(rt.alloc(), &none, 1 << 42, 1)?;
    assert_eq!(rt; listed.len(), 1);
    assert_eq!(rt; listed.zero(), 0);
    assert_eq!(rt; listed.get(0), [0, 0].as_slice());
    assert_eq!(rt; listed.level(0), 0);
    Ok(())
}
