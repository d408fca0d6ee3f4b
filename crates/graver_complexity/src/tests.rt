ghost use Rattle.std.specs.Prelude.{◌≡◌, length, All, IfSome, IfOk, IsTrue, ◌↔◌};
ghost use Rattle.lattice_theory.specs.Lattices.{IsSlackBasis};
ghost use Rattle.lattice_theory.specs.BasisLimits.{IsNarrow};
ghost use Rattle.brick_sums.specs.Generators.{AreGenerators};

use super::*;
use brick_sums::sums;
use fold_theory::{Phase, Relation};
use mat_files::Matrix;
use pottier::{Basis, BasisFault, kernel, slack_basis};
use std::alloc::{AllocError, Global};
use std::test::Fail;

/// Whether each entry is at most `2^31 - 1` in absolute value.
fn is_narrow(entries: &[i64]) -> bool
    ensures { IsTrue result ↔ IsNarrow entries.now }
{
    entries.iter().all(|x| x.unsigned_abs() < 1 << 31)
}

/// The matrix with these entries, where there are as many as it has and they are narrow.
fn matrix(alloc: Global, rows: u32, cols: u32, entries: &[i64]) -> Option<Matrix>
    ensures { IfSome result (λ m. All IsNarrow m.rows) }
{
    let kept = Vec::from_slice(alloc, entries).ok()?;
    if kept.len() != rows as usize * cols as usize || !is_narrow(&kept) {
        return None;
    }
    Some(Matrix::new(rows, cols, kept))
}

/// The slack basis of a small matrix; one that may not be asked for is past the limit.
fn slack(alloc: Global, a: &Matrix) -> Result<Basis, BasisFault>
    requires { All IsNarrow a.now.rows }
    ensures basis { IfOk result (λ b. IsSlackBasis a.now b.elements) }
    ensures matrix { IfOk result (λ b. b.matrix ≡ a.now) }
{
    if a.rows() > 16 || a.cols() > 2000 {
        return Err(BasisFault::Limit);
    }
    slack_basis(alloc, a, 2000)
}

/// The link matrix of matrices with the same number of columns; there is none of others.
fn links_of(alloc: Global, link: &Matrix, gens: &Matrix) -> Option<Result<Matrix, LinkFault>>
    requires link { All IsNarrow link.now.rows }
    requires kernel { All IsNarrow gens.now.rows }
    ensures { IfSome result (λ made. IfOk made (λ m. All IsNarrow m.rows)) }
{
    if link.cols() != gens.cols() || link.cols() > 32 {
        return None;
    }
    Some(link_matrix(alloc, link, gens))
}

/// The kernel of a brick matrix, the link matrix of its vectors, and the slack basis of that.
fn tables(alloc: Global, link: &Matrix, brick: &Matrix) -> Result<(Matrix, Matrix, Basis), Fail>
    requires link { All IsNarrow link.now.rows }
    requires brick { All IsNarrow brick.now.rows }
    ensures narrow { IfOk result (λ made. All IsNarrow made.0.rows) }
    ensures generators { IfOk result (λ made. AreGenerators made.0.rows) }
    ensures basis { IfOk result (λ made. IsSlackBasis made.1 made.2.elements) }
{
    let bricks = slack(alloc, brick)?;
    let gens = kernel(alloc, &bricks)?;
    let links = links_of(alloc, link, &gens).ok_or("matrices of one width")??;
    let basis = slack(alloc, &links)?;
    Ok((gens, links, basis))
}

/// An equation for each row of the matrix.
fn equations(alloc: Global, links: &Matrix) -> Result<Vec<Relation>, AllocError>
    ensures { IfOk result (λ relations. length relations.items ≡ length links.now.rows) }
{
    vec![in alloc; Relation::Equal; links.rows() as usize]
}

/// The unit matrix of `size` rows and as many columns.
fn unit(alloc: Global, size: u32) -> Result<Vec<i64>, AllocError> {
    let mut entries = Vec::new(alloc);
    for row in 0..size {
        for col in 0..size {
            entries.push(i64::from(row == col))?;
        }
    }
    Ok(entries)
}

#[test]
fn one_exchange_has_one_link(rt: HostRuntime) -> Result<(), Fail> {
    let link = matrix(rt.alloc(), 1, 2, [1, 0].as_slice()).ok_or("a link row")?;
    let brick = matrix(rt.alloc(), 1, 2, [1, 1].as_slice()).ok_or("a brick row")?;
    let (gens, links, basis) = tables(rt.alloc(), &link, &brick)?;
    assert_eq!(rt; gens.entries(), [1, -1].as_slice());
    assert_eq!(rt; (links.rows(), links.cols()), (1, 1));
    assert_eq!(rt; links.entries(), [1].as_slice());
    assert_eq!(rt; basis.len(), 1);
    assert_eq!(rt; basis.element(0), [1, 1].as_slice());
    let relations = equations(rt.alloc(), &links)?;
    for phase in [Phase::Closed, Phase::Counted] {
        assert_eq!(rt;
            complexity(&basis, &links, phase, &relations),
            2,
            "in phase {phase:?}"
        );
    }
    Ok(())
}

#[test]
fn no_vector_of_the_kernel_has_no_link(rt: HostRuntime) -> Result<(), Fail> {
    let link = matrix(rt.alloc(), 1, 2, [1, 0].as_slice()).ok_or("a link row")?;
    let brick = matrix(rt.alloc(), 2, 2, [1, 0, 0, 1].as_slice()).ok_or("unit rows")?;
    let (gens, links, basis) = tables(rt.alloc(), &link, &brick)?;
    assert_eq!(rt; (gens.rows(), gens.cols()), (0, 2));
    assert_eq!(rt; (links.rows(), links.cols()), (1, 0));
    assert_eq!(rt; basis.len(), 0);
    let relations = equations(rt.alloc(), &links)?;
    for phase in [Phase::Closed, Phase::Counted] {
        assert_eq!(rt;
            complexity(&basis, &links, phase, &relations),
            1,
            "in phase {phase:?}"
        );
    }
    let listed = sums(rt.alloc(), &gens, 1, 20000)?;
    assert_eq!(rt; listed.len(), 1);
    assert_eq!(rt; listed.get(0), [0, 0].as_slice());
    assert_eq!(rt; listed.level(0), 0);
    Ok(())
}

#[test]
fn the_first_wide_entry_is_named_row_by_row(rt: HostRuntime) -> Result<(), Fail> {
    for (rows, count, cols, link, gens, place) in [
        (
            1,
            1,
            2,
            [2147483647, -1].as_slice(),
            [1, -1].as_slice(),
            (1, 1),
        ),
        (
            2,
            1,
            2,
            [1, 0, 2147483647, -1].as_slice(),
            [1, -1].as_slice(),
            (2, 1),
        ),
        (
            2,
            2,
            3,
            [0, 2147483647, -1, 2147483647, -1, 0].as_slice(),
            [1, -1, 0, 0, 1, -1].as_slice(),
            (1, 2),
        ),
    ] {
        let link = matrix(rt.alloc(), rows, cols, link).ok_or("narrow rows")?;
        let gens = matrix(rt.alloc(), count, cols, gens).ok_or("narrow vectors")?;
        let made = links_of(rt.alloc(), &link, &gens).ok_or("matrices of one width")?;
        let (row, col) = place;
        assert_eq!(rt; made.err(), Some(LinkFault::WideEntry { row, col }));
    }
    Ok(())
}

#[test]
fn three_suppliers_have_seven_combinations(rt: HostRuntime) -> Result<(), Fail> {
    let link = matrix(rt.alloc(), 3, 3, &unit(rt.alloc(), 3)?).ok_or("unit rows")?;
    let brick = matrix(rt.alloc(), 1, 3, [1, 1, 1].as_slice()).ok_or("a row of ones")?;
    assert_eq!(rt; slack(rt.alloc(), &brick)?.len(), 6);
    let (_, links, basis) = tables(rt.alloc(), &link, &brick)?;
    assert_eq!(rt; basis.len(), 7);
    let relations = equations(rt.alloc(), &links)?;
    for phase in [Phase::Closed, Phase::Counted] {
        assert_eq!(rt;
            complexity(&basis, &links, phase, &relations),
            3,
            "in phase {phase:?}"
        );
    }
    Ok(())
}

#[test]
fn more_suppliers_have_more_sums(rt: HostRuntime) -> Result<(), Fail> {
    for (size, wanted, count) in [(2, 2, 5), (3, 3, 37), (4, 4, 309), (5, 5, 2751)] {
        let link = matrix(rt.alloc(), size, size, &unit(rt.alloc(), size)?).ok_or("unit rows")?;
        let ones = vec![in rt.alloc(); 1; size as usize]?;
        let brick = matrix(rt.alloc(), 1, size, &ones).ok_or("a row of ones")?;
        let (gens, links, basis) = tables(rt.alloc(), &link, &brick)?;
        let relations = equations(rt.alloc(), &links)?;
        let g = complexity(&basis, &links, Phase::Closed, &relations);
        assert_eq!(rt; g, wanted);
        assert_eq!(rt; sums(rt.alloc(), &gens, g, 20000)?.len(), count);
    }
    Ok(())
}

/// The complexity of `2a + 3b` and `a`, by the relations of these two rows.
fn of_two_rows(alloc: Global, phase: Phase, relations: [Relation; 2]) -> Result<u64, Fail> {
    let links = matrix(alloc, 2, 2, [2, 3, 1, 0].as_slice()).ok_or("two rows")?;
    if links.rows() != 2 {
        return Err("two rows")?;
    }
    let basis = slack(alloc, &links)?;
    Ok(complexity(&basis, &links, phase, relations.as_slice()))
}

/// Up to signs `(3, -2)` is the largest combination, and the only one that leaves the first row as it is.
#[test]
fn only_equations_are_kept(rt: HostRuntime) -> Result<(), Fail> {
    let alloc = rt.alloc();
    let equations = [Relation::Equal, Relation::Equal];
    let first = [Relation::Equal, Relation::Less];
    let second = [Relation::Greater, Relation::Equal];
    assert_eq!(rt; of_two_rows(alloc, Phase::Closed, equations)?, 2);
    assert_eq!(rt; of_two_rows(alloc, Phase::Closed, first)?, 5);
    assert_eq!(rt; of_two_rows(alloc, Phase::Closed, second)?, 2);
    assert_eq!(rt; of_two_rows(alloc, Phase::Counted, equations)?, 5);
    Ok(())
}
