//! The limits of a solve, and what stops it.

ghost use Rattle.std.specs.Prelude.{◌≡◌};
ghost use Rattle.run_theory.specs.declared.SolveFault.TheVariants.{Memory};

use run_theory::SolveFault;
use std::alloc::AllocError;

/// The limits of a solve: how many threads seek a step, 1 to 16; how many elements each slack basis may have, 1 to
/// 2,000; and how many brick sums there may be, 1 to 20,000. The answer does not depend on the number of workers.
#[derive(Clone, Copy, Debug, PartialEq, Eq, Drop)]
pub struct Settings {
    pub workers: u32,
    pub max_basis: u32,
    pub max_sums: u32,
}

/// What stops a stage of a solve.
#[derive(Clone, Copy, Debug, Drop)]
pub(crate) struct Stop {
    pub fault: SolveFault,
}

impl From<AllocError> for Stop {
    ghost from_gives = { λ _ stop. stop ≡ record { fault = Memory } };

    fn from(_error: AllocError) -> Stop {
        Stop {
            fault: SolveFault::Memory,
        }
    }
}
