//! Certificates of the claims on all bricks.

use super::fault_of;
use crate::{CertFault, CertKind, Certificate, Claim, FoldPart, Table, parse, print};
use mat_files::Matrix;
use std::alloc::{AllocError, Global};
use std::test::Fail;

/// Two bricks of two variables at most 4 with the sum 4, whose first variables have the sum 3.
const PARTS: &str = "\
point
2 2
1 3
2 2
bricks
3 3
0 1 1
1 -1 0
1 0 1
links
1 2
1 1
bound 2
sums
5 3
2 -2 2
1 -1 1
0 0 0
1 1 -1
2 2 -2
potentials
3 5
8 3 0 -3 -4
12 5 0 -3 -4
none none 0 none none
end
";

fn text_of(alloc: Global, claim: &str) -> Result<Vec<u8>, AllocError> {
    let mut text = Vec::from_slice(alloc, b"nfold-certificate 1\nclaim ")?;
    text.extend_from_slice(claim.as_bytes())?;
    text.extend_from_slice(b"\n")?;
    text.extend_from_slice(PARTS.as_bytes())?;
    Ok(text)
}

fn fold_part(alloc: Global) -> Result<FoldPart, AllocError> {
    let links = Matrix::new(1, 2, vec![in alloc; 1, 1]?);
    let sums = vec![in alloc; 2, -2, 2, 1, -1, 1, 0, 0, 0, 1, 1, -1, 2, 2, -2]?;
    let potentials = vec![in alloc;
        Some(8),
        Some(3),
        Some(0),
        Some(-3),
        Some(-4),
        Some(12),
        Some(5),
        Some(0),
        Some(-3),
        Some(-4),
        None,
        None,
        Some(0),
        None,
        None,
    ]?;
    let potentials = Table::new(3, 5, potentials);
    Ok(FoldPart::new(links, 2, Matrix::new(5, 3, sums), potentials))
}

#[test]
fn prints_each_part(rt: HostRuntime) -> Result<(), Fail> {
    let alloc = rt.alloc();
    let point = Matrix::new(2, 2, vec![in alloc; 1, 3, 2, 2]?);
    let bricks = Matrix::new(3, 3, vec![in alloc; 0, 1, 1, 1, -1, 0, 1, 0, 1]?);
    let fold = fold_part(alloc)?;
    let certificate = Certificate::on_all_bricks(Claim::Optimal, point, bricks, fold);
    let text = print(alloc, &certificate)?;
    assert_eq!(rt; text.as_slice(), text_of(alloc, "optimal")?.as_slice());
    Ok(())
}

#[test]
fn reads_each_part(rt: HostRuntime) -> Result<(), Fail> {
    let certificate = parse(rt.alloc(), &text_of(rt.alloc(), "optimal")?)?;
    assert_eq!(rt; certificate.claim(), Claim::Optimal);
    assert_eq!(rt; certificate.point().entries(), [1, 3, 2, 2].as_slice());
    let fold = certificate.fold().expect(&rt, "the claim is on all bricks");
    assert_eq!(rt; fold.links().entries(), [1, 1].as_slice());
    assert_eq!(rt; fold.bound(), 2);
    assert_eq!(rt; (fold.sums().rows(), fold.sums().cols()), (5, 3));
    assert_eq!(rt; fold.sums().row(1), [2, -2, 2].as_slice());
    let potentials = fold.potentials();
    assert_eq!(rt; (potentials.rows(), potentials.cols()), (3, 5));
    assert_eq!(rt;
        potentials.row(1),
        [Some(12), Some(5), Some(0), Some(-3), Some(-4)].as_slice()
    );
    assert_eq!(rt; potentials.get(0, 4), Some(-4));
    assert_eq!(rt; potentials.get(2, 1), None);
    Ok(())
}

/// Whether what is read of the text with this claim is printed again.
fn is_printed_again(alloc: Global, claim: &str) -> Result<bool, Fail> {
    let text = text_of(alloc, claim)?;
    let certificate = parse(alloc, &text)?;
    certificate.is_read_back();
    Ok(print(alloc, &certificate)? == text)
}

#[test]
fn what_is_read_is_printed_again(rt: HostRuntime) -> Result<(), Fail> {
    assert!(rt; is_printed_again(rt.alloc(), "optimal")?);
    assert!(rt; is_printed_again(rt.alloc(), "infeasible-link")?);
    Ok(())
}

#[test]
fn a_text_that_is_cut_ends_early(rt: HostRuntime) -> Result<(), Fail> {
    let text = text_of(rt.alloc(), "optimal")?;
    let last = text.len().saturating_sub(b"end\n".len());
    for at in 0..last {
        if text[at] == b' ' || text[at] == b'\n' {
            let fault = CertFault {
                at,
                kind: CertKind::EndsEarly,
            };
            assert_eq!(rt; fault_of(rt.alloc(), &text[..at]), Some(fault));
        }
    }
    Ok(())
}

/// Whether a certificate with this behind its bricks is refused at this byte for this kind.
fn is_refused(alloc: Global, rest: &[u8], at: usize, kind: CertKind) -> Result<bool, AllocError> {
    let head = b"nfold-certificate 1 claim optimal point 0 1 bricks 0 1 ";
    let mut text = Vec::from_slice(alloc, head)?;
    text.extend_from_slice(rest)?;
    Ok(fault_of(alloc, &text) == Some(CertFault { at, kind }))
}

#[test]
fn names_the_first_fault_of_links_and_sums(rt: HostRuntime) -> Result<(), Fail> {
    let alloc = rt.alloc();
    assert!(rt; is_refused(alloc, b"end", 55, CertKind::Word)?);
    assert!(rt; is_refused(alloc, b"links 1 1 none", 65, CertKind::NotNumber)?);
    assert!(rt; is_refused(alloc, b"links 1 1 2147483648", 65, CertKind::TooBig)?);
    assert!(rt; is_refused(alloc, b"links 2001", 61, CertKind::TooMany)?);
    assert!(rt; is_refused(alloc, b"links 0 2017", 63, CertKind::TooMany)?);
    assert!(rt; is_refused(alloc, b"links 0 1 bound -1", 71, CertKind::NotNumber)?);
    assert!(rt;
        is_refused(
            alloc,
            b"links 0 1 bound 4611686018427387905",
            71,
            CertKind::TooBig
        )?
    );
    assert!(rt;
        is_refused(
            alloc,
            b"links 0 1 bound 1 sums 20001",
            78,
            CertKind::TooMany
        )?
    );
    assert!(rt; is_refused(alloc, b"links 0 1 bound 1 sums 1 34", 80, CertKind::TooMany)?);
    assert!(rt;
        is_refused(
            alloc,
            b"links 0 1 bound 1 sums 1 2 -1 0",
            82,
            CertKind::NotNumber
        )?
    );
    assert!(rt;
        is_refused(
            alloc,
            b"links 0 1 bound 1 sums 1 2 0 140737488355329",
            84,
            CertKind::TooBig
        )?
    );
    Ok(())
}

#[test]
fn names_the_first_fault_of_the_size_of_the_potentials(rt: HostRuntime) -> Result<(), Fail> {
    let alloc = rt.alloc();
    assert!(rt;
        is_refused(
            alloc,
            b"links 0 1 bound 1 sums 0 2 potentials 10002",
            93,
            CertKind::TooMany
        )?
    );
    assert!(rt;
        is_refused(
            alloc,
            b"links 0 1 bound 1 sums 0 2 potentials 1 20001",
            95,
            CertKind::TooMany
        )?
    );
    assert!(rt;
        is_refused(
            alloc,
            b"links 0 1 bound 1 sums 0 2 potentials 10001 105",
            99,
            CertKind::TooMany
        )?
    );
    Ok(())
}

#[test]
fn names_the_first_fault_of_the_cells(rt: HostRuntime) -> Result<(), Fail> {
    let alloc = rt.alloc();
    assert!(rt;
        is_refused(
            alloc,
            b"links 0 1 bound 1 sums 0 2 potentials 1 1 nine",
            97,
            CertKind::NotNumber
        )?
    );
    assert!(rt;
        is_refused(
            alloc,
            b"links 0 1 bound 1 sums 0 2 potentials 1 1 21267647932558653966460912964485513217",
            97,
            CertKind::TooBig
        )?
    );
    assert!(rt;
        is_refused(
            alloc,
            b"links 0 1 bound 1 sums 0 2 potentials 0 1 end end",
            101,
            CertKind::Extra
        )?
    );
    Ok(())
}

fn crosses_threads<T: Send + Sync + Drop>(_value: T) {}

#[test]
fn certificates_and_faults_cross_threads(rt: HostRuntime) -> Result<(), Fail> {
    let alloc = rt.alloc();
    crosses_threads(fold_part(alloc)?);
    crosses_threads(Table::new(0, 0, Vec::new(alloc)));
    crosses_threads(parse(alloc, &text_of(alloc, "infeasible-link")?)?);
    crosses_threads(CertFault {
        at: 0,
        kind: CertKind::Word,
    });
    Ok(())
}
