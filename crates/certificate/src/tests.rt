//! What no clause says: that calls succeed where there is ample memory, and texts from outside.

mod all_bricks;

use crate::{CertFault, CertKind, Certificate, Claim, parse, print};
use mat_files::Matrix;
use std::alloc::Global;
use std::test::Fail;

const TEXT: &str =
    "nfold-certificate 1\nclaim infeasible-brick 1\npoint\n1 2\n4 4\nbricks\n3 3\n0 1 1\n1 -1 0\n1 0 1\nend\n";

fn fault_of(alloc: Global, text: &[u8]) -> Option<CertFault> {
    parse(alloc, text).err()
}

/// Whether the text is refused at this byte for this kind.
fn is_refused(alloc: Global, text: &[u8], at: usize, kind: CertKind) -> bool {
    fault_of(alloc, text) == Some(CertFault { at, kind })
}

#[test]
fn prints_line_by_line(rt: HostRuntime) -> Result<(), Fail> {
    let alloc = rt.alloc();
    let point = Matrix::new(1, 2, vec![in alloc; 4, 4]?);
    let bricks = Matrix::new(3, 3, vec![in alloc; 0, 1, 1, 1, -1, 0, 1, 0, 1]?);
    let text = print(alloc, &Certificate::on_brick(1, point, bricks))?;
    assert_eq!(rt; text.as_slice(), TEXT.as_bytes());
    Ok(())
}

#[test]
fn reads_each_part(rt: HostRuntime) -> Result<(), Fail> {
    let certificate = parse(rt.alloc(), TEXT.as_bytes())?;
    assert_eq!(rt; certificate.claim(), Claim::InfeasibleBrick { brick: 1 });
    let point = certificate.point();
    assert_eq!(rt; (point.rows(), point.cols()), (1, 2));
    assert_eq!(rt; point.entries(), [4, 4].as_slice());
    let bricks = certificate.bricks();
    assert_eq!(rt; (bricks.rows(), bricks.cols()), (3, 3));
    assert_eq!(rt; bricks.entries(), [0, 1, 1, 1, -1, 0, 1, 0, 1].as_slice());
    Ok(())
}

#[test]
fn other_spellings_are_accepted(rt: HostRuntime) -> Result<(), Fail> {
    let text =
        b"\tnfold-certificate 1 claim infeasible-brick +010000 point 1\t02 +4611686018427387904 004 bricks 0 48 end";
    let certificate = parse(rt.alloc(), text.as_slice())?;
    assert_eq!(rt;
        certificate.claim(),
        Claim::InfeasibleBrick { brick: 10_000 }
    );
    assert_eq!(rt; certificate.point().entries(), [1 << 62, 4].as_slice());
    Ok(())
}

#[test]
fn a_text_that_is_cut_ends_early(rt: HostRuntime) {
    let text = TEXT.as_bytes();
    let last = text.len() - b"end\n".len();
    for at in 0..last {
        if at == 0 || text[at] == b' ' || text[at] == b'\n' {
            let fault = CertFault {
                at,
                kind: CertKind::EndsEarly,
            };
            assert_eq!(rt; fault_of(rt.alloc(), &text[..at]), Some(fault));
        }
    }
}

#[test]
fn names_the_first_fault_of_a_word_or_a_brick(rt: HostRuntime) {
    let alloc = rt.alloc();
    assert!(rt; is_refused(alloc, b"nfold-certificate 01 claim", 18, CertKind::Word));
    assert!(rt; is_refused(alloc, b"nfold-certificate +1 claim", 18, CertKind::Word));
    assert!(rt;
        is_refused(
            alloc,
            b"nfold-certificate 1 claim feasible",
            26,
            CertKind::Word
        )
    );
    assert!(rt;
        is_refused(
            alloc,
            b"nfold-certificate 1 claim infeasible-brick -1",
            43,
            CertKind::NotNumber
        )
    );
    assert!(rt;
        is_refused(
            alloc,
            b"nfold-certificate 1 claim infeasible-brick 10001",
            43,
            CertKind::TooBig
        )
    );
}

#[test]
fn names_the_first_fault_of_the_size_of_the_point(rt: HostRuntime) {
    let alloc = rt.alloc();
    assert!(rt;
        is_refused(
            alloc,
            b"nfold-certificate 1 claim infeasible-brick 1 point 10001",
            51,
            CertKind::TooMany
        )
    );
    assert!(rt;
        is_refused(
            alloc,
            b"nfold-certificate 1 claim infeasible-brick 1 point 1 33",
            53,
            CertKind::TooMany
        )
    );
    assert!(rt;
        is_refused(
            alloc,
            b"nfold-certificate 1 claim infeasible-brick 1 point 1 -1",
            53,
            CertKind::NotNumber
        )
    );
}

#[test]
fn names_the_first_fault_of_the_entries_of_the_point(rt: HostRuntime) {
    let alloc = rt.alloc();
    assert!(rt;
        is_refused(
            alloc,
            b"nfold-certificate 1 claim infeasible-brick 1 point 1 1 x",
            55,
            CertKind::NotNumber
        )
    );
    assert!(rt;
        is_refused(
            alloc,
            b"nfold-certificate 1 claim infeasible-brick 1 point 1 1 4611686018427387905",
            55,
            CertKind::TooBig
        )
    );
}

#[test]
fn names_the_first_fault_of_what_follows_the_point(rt: HostRuntime) {
    let alloc = rt.alloc();
    assert!(rt;
        is_refused(
            alloc,
            b"nfold-certificate 1 claim infeasible-brick 1 point 0 1 bricks 2001",
            62,
            CertKind::TooMany
        )
    );
    assert!(rt;
        is_refused(
            alloc,
            b"nfold-certificate 1 claim infeasible-brick 1 point 0 1 bricks 1 49",
            64,
            CertKind::TooMany
        )
    );
    assert!(rt;
        is_refused(
            alloc,
            b"nfold-certificate 1 claim infeasible-brick 1 point 0 1 bricks 1 1 -2147483648",
            66,
            CertKind::TooBig
        )
    );
    assert!(rt;
        is_refused(
            alloc,
            b"nfold-certificate 1 claim infeasible-brick 1 point 0 1 links",
            55,
            CertKind::Word
        )
    );
    assert!(rt;
        is_refused(
            alloc,
            b"nfold-certificate 1 claim infeasible-brick 1 point 0 1 bricks 0 1 end end",
            70,
            CertKind::Extra
        )
    );
}
