//! The files of a program, and why parts make none.

ghost use Rattle.std.specs.Prelude.{◌≡◌};
ghost use Rattle.fold_program.specs.Files.{suffix_of};
ghost use Rattle.fold_program.specs.declared.fault.ProgramFault.TheVariants as refused;

use convex_costs::CostFault;
use std::alloc::AllocError;
use thiserror::Error;

/// The files that a command reads.
#[derive(Clone, Copy, Debug, PartialEq, Eq, Drop)]
pub enum FileKind {
    /// The linking matrix.
    Link,
    /// The matrix of all bricks.
    Brick,
    /// The lower bounds, one row for each brick.
    Lower,
    /// The upper bounds, one row for each brick.
    Upper,
    /// The right sides of the linking rows, and then those of each brick.
    Right,
    /// The relations of the linking rows.
    Relations,
    /// The costs.
    Costs,
    /// A point, one row for each brick.
    Point,
    /// A certificate.
    Cert,
    /// A matrix by itself.
    Plain,
}

impl FileKind {
    /// What follows the prefix in the name of the file.
    pub fn suffix(self) -> &'static str
        ensures { result.now ≡ suffix_of self }
    {
        match self {
            FileKind::Link => ".link.mat",
            FileKind::Brick => ".brick.mat",
            FileKind::Lower => ".lb",
            FileKind::Upper => ".ub",
            FileKind::Right => ".rhs",
            FileKind::Relations => ".rel",
            FileKind::Costs => ".cost",
            FileKind::Point => ".pt",
            FileKind::Cert => ".cert",
            FileKind::Plain => ".mat",
        }
    }
}

/// Why parts make no program: the first fault in this order, and in the order of bricks and columns, which are
/// numbered from 1.
#[derive(Clone, Copy, Debug, PartialEq, Eq, Drop, Error)]
pub enum ProgramFault {
    /// The first part, in the order of `Parts`, whose shape does not fit those before it.
    #[error("the part {file:?} has a wrong shape")]
    Shape {
        file: FileKind,
    },
    /// The lower bound is above the upper one.
    #[error("the bounds of brick {brick}, column {col} are crossed")]
    CrossedBounds {
        brick: u32,
        col: u32,
    },
    /// The cost is refused over its bounds.
    #[error("the cost of brick {brick}, column {col} is refused: {fault}")]
    Cost {
        brick: u32,
        col: u32,
        fault: CostFault,
    },
    /// The magnitudes of all costs add up to more than `2^120`.
    #[error("the costs may add up to more than 2^120")]
    CostSumTooLarge,
    /// Memory ran out, which may happen at any call that allocates.
    #[error("out of memory")]
    Memory,
}

impl From<AllocError> for ProgramFault {
    ghost from_gives = { λ _ fault. fault ≡ refused.Memory };

    fn from(_error: AllocError) -> ProgramFault {
        ProgramFault::Memory
    }
}

#[cfg(test)]
mod tests {
    use super::*;

    #[test]
    fn each_file_has_a_suffix_of_its_own(rt: HostRuntime) {
        assert_eq!(rt; FileKind::Link.suffix(), ".link.mat");
        assert_eq!(rt; FileKind::Lower.suffix(), ".lb");
        assert_eq!(rt; FileKind::Right.suffix(), ".rhs");
        assert_eq!(rt; FileKind::Relations.suffix(), ".rel");
        assert_eq!(rt; FileKind::Cert.suffix(), ".cert");
        assert_eq!(rt; FileKind::Plain.suffix(), ".mat");
    }
}
