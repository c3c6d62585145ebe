ghost use Rattle.planner.specs.declared.faults.PlanFault.TheVariants.{Memory, Open};
ghost use Rattle.std.specs.Prelude.{◌≡◌};

use std::alloc::AllocError;
use strip::OpenFault;

/// Why the program has no plan to show.
#[derive(Clone, Copy, Debug, PartialEq, Eq)]
pub enum PlanFault {
    /// The strip does not open; its fault is carried whole.
    Open(OpenFault),
    /// Want of memory.
    Memory,
}

impl From<OpenFault> for PlanFault {
    ghost from_gives = { λ e r. r ≡ Open e };

    fn from(e: OpenFault) -> PlanFault {
        PlanFault::Open(e)
    }
}

impl From<AllocError> for PlanFault {
    ghost from_gives = { λ e r. r ≡ Memory };

    fn from(_e: AllocError) -> PlanFault {
        PlanFault::Memory
    }
}
