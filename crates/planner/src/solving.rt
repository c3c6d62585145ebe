ghost use Rattle.planner.specs.declared.solving.SolvingFault.TheVariants.{Arena, Solve};
ghost use Rattle.planner.specs.Solving.{TurnsInto};
ghost use Rattle.std.specs.Prelude.{◌≡◌};

use arena::Refusal;
use sheet_faults::CloseFault;
use solver::SolveFault;
use strip::OpenFault;

/// Why a strip or a sheet is not solved, which has to be an arena first.
#[derive(Clone, Copy, Debug, PartialEq, Eq)]
pub enum SolvingFault<E> {
    /// It is no arena: it does not open, or close.
    Arena(E),
    /// Solve turns the memories down.
    Solve(SolveFault),
}

impl From<OpenFault> for SolvingFault<OpenFault> {
    ghost from_gives = { λ e r. r ≡ Arena e };

    fn from(e: OpenFault) -> SolvingFault<OpenFault> {
        SolvingFault::Arena(e)
    }
}

impl From<CloseFault> for SolvingFault<CloseFault> {
    ghost from_gives = { λ e r. r ≡ Arena e };

    fn from(e: CloseFault) -> SolvingFault<CloseFault> {
        SolvingFault::Arena(e)
    }
}

impl<E> From<SolveFault> for SolvingFault<E> {
    ghost from_gives = { λ e r. r ≡ Solve e };

    fn from(e: SolveFault) -> SolvingFault<E> {
        SolvingFault::Solve(e)
    }
}

impl<E: Into<Refusal>> From<SolvingFault<E>> for Refusal {
    ghost from_gives = { TurnsInto E.converts };

    fn from(e: SolvingFault<E>) -> Refusal {
        match e {
            SolvingFault::Arena(fault) => fault.into(),
            SolvingFault::Solve(fault) => fault.into(),
        }
    }
}
