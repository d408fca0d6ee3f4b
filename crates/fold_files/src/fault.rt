//! Why files are refused.

ghost use Rattle.std.specs.Prelude.{◌≡◌};
ghost use Rattle.fold_files.specs.Faults.{form_fault, load_fault};

use fold_program::{FileKind, ProgramFault};
use fold_shelf::LoadFault;
use mat_files::{FaultKind, MatFault, TokenFault};
use std::alloc::AllocError;
use thiserror::Error;

/// Why a cost file is refused.
#[derive(Clone, Copy, Debug, PartialEq, Eq, Drop, Error)]
pub enum CostFileFault {
    /// The first token that cannot stand in its place: `at` is the place of its first byte in the file, from 0, or the
    /// length of the file where it ends early.
    #[error("the cost file is refused at byte {at}")]
    Syntax { at: usize },
    /// Memory ran out, which may happen at any call that allocates.
    #[error("out of memory")]
    Memory,
}

impl From<TokenFault> for CostFileFault {
    ghost use Rattle.fold_files.specs.CostText.{cost_file_fault};

    ghost from_gives = { λ f e. e ≡ cost_file_fault f };

    fn from(fault: TokenFault) -> CostFileFault {
        match fault.kind {
            FaultKind::Memory => CostFileFault::Memory,
            _ => CostFileFault::Syntax { at: fault.at },
        }
    }
}

/// Why a relation file is refused.
#[derive(Clone, Copy, Debug, PartialEq, Eq, Drop, Error)]
pub enum RelationFault {
    /// The first token that cannot stand in its place: `at` is the place of its first byte in the file, from 0, or the
    /// length of the file where it ends early.
    #[error("the relation file is refused at byte {at}")]
    Syntax { at: usize },
    /// Memory ran out, which may happen at any call that allocates.
    #[error("out of memory")]
    Memory,
}

impl From<TokenFault> for RelationFault {
    ghost use Rattle.fold_files.specs.RelationText.{relation_fault};

    ghost from_gives = { λ f e. e ≡ relation_fault f };

    fn from(fault: TokenFault) -> RelationFault {
        match fault.kind {
            FaultKind::Memory => RelationFault::Memory,
            _ => RelationFault::Syntax { at: fault.at },
        }
    }
}

/// Why the files of a program, of a point or of a matrix are refused: the first fault, in the order in which they are
/// read.
#[derive(Clone, Copy, Debug, PartialEq, Eq, Drop, Error)]
pub enum ReadFault {
    /// The folder lacks the file, or the shelf failed and has counted it.
    #[error("the file {file:?} was not read")]
    Shelf { file: FileKind },
    /// The file has more than `2^26` bytes.
    #[error("the file {file:?} is too long")]
    TooLong { file: FileKind },
    /// The matrix file is refused; `fault` is never `Memory`.
    #[error("the file {file:?} is refused: {fault}")]
    Form { file: FileKind, fault: MatFault },
    /// The cost file is refused at this byte, from 0: at the first token that cannot stand in its place, or at the end
    /// where it ends early.
    #[error("the cost file is refused at byte {at}")]
    Costs { at: usize },
    /// The files make no program; `fault` is never `Shape` nor `Memory`.
    #[error("the program is refused: {fault}")]
    Program { fault: ProgramFault },
    /// Memory ran out, which may happen at any call that allocates.
    #[error("out of memory")]
    Memory,
    /// The relation file is refused at this byte, from 0: at the first token that cannot stand in its place, or at the
    /// end where it ends early.
    #[error("the relation file is refused at byte {at}")]
    Relations { at: usize },
}

impl From<AllocError> for ReadFault {
    ghost use Rattle.fold_files.specs.declared.fault.ReadFault.TheVariants as read;

    ghost from_gives = { λ _ e. e ≡ read.Memory };

    fn from(_: AllocError) -> ReadFault {
        ReadFault::Memory
    }
}

impl From<CostFileFault> for ReadFault {
    ghost use Rattle.fold_files.specs.Faults.{costs_fault};

    ghost from_gives = { λ fault e. e ≡ costs_fault fault };

    fn from(fault: CostFileFault) -> ReadFault {
        match fault {
            CostFileFault::Syntax { at } => ReadFault::Costs { at },
            CostFileFault::Memory => ReadFault::Memory,
        }
    }
}

impl From<RelationFault> for ReadFault {
    ghost use Rattle.fold_files.specs.Faults.{relations_fault};

    ghost from_gives = { λ fault e. e ≡ relations_fault fault };

    fn from(fault: RelationFault) -> ReadFault {
        match fault {
            RelationFault::Syntax { at } => ReadFault::Relations { at },
            RelationFault::Memory => ReadFault::Memory,
        }
    }
}

impl From<ProgramFault> for ReadFault {
    ghost use Rattle.fold_files.specs.Faults.{whole_fault};

    ghost from_gives = { λ fault e. e ≡ whole_fault fault };

    fn from(fault: ProgramFault) -> ReadFault {
        match fault {
            ProgramFault::Memory => ReadFault::Memory,
            fault => ReadFault::Program { fault },
        }
    }
}

impl ReadFault {
    /// The fault of a matrix file.
    pub(crate) fn of_form(file: FileKind, fault: MatFault) -> ReadFault
        ensures { result ≡ form_fault file fault }
    {
        match fault {
            MatFault::Memory => ReadFault::Memory,
            fault => ReadFault::Form { file, fault },
        }
    }

    /// The fault of a file that was not loaded.
    pub(crate) fn of_load(file: FileKind, fault: LoadFault) -> ReadFault
        ensures { result ≡ load_fault file fault }
    {
        match fault {
            LoadFault::Missing | LoadFault::Failed => ReadFault::Shelf { file },
            LoadFault::TooLong => ReadFault::TooLong { file },
            LoadFault::Memory => ReadFault::Memory,
        }
    }
}
