ghost use Rattle.strip.specs.declared.faults.OpenFault.TheVariants.{Strip};
ghost use Rattle.std.specs.Prelude.{◌≡◌};
ghost use Rattle.arena.specs.Told.{Same};
ghost use Rattle.strip.specs.Refusals.{open_refusal, strip_refusal};

use arena::Refusal;

/// A strip's fault: the place is the offset of the first field that is cut off or wrong, or of the first byte after the
/// end. It travels whole, inside the fault of each call above.
#[derive(Clone, Copy, Debug, PartialEq, Eq)]
pub struct StripFault {
    pub place: usize,
}

/// Why a strip does not open.
#[derive(Clone, Copy, Debug, PartialEq, Eq)]
pub enum OpenFault {
    /// The strip is faulty.
    Strip(StripFault),
    /// This position is the lowest whose row has no moves.
    NoMoves(u16),
}

impl From<StripFault> for OpenFault {
    ghost from_gives = { λ e r. r ≡ Strip e };

    fn from(e: StripFault) -> OpenFault {
        OpenFault::Strip(e)
    }
}

impl From<StripFault> for Refusal {
    ghost from_gives = { λ e r. Same r (strip_refusal e) };

    fn from(e: StripFault) -> Refusal {
        Refusal::naming(13, e.place)
    }
}

impl From<OpenFault> for Refusal {
    ghost from_gives = { λ e r. Same r (open_refusal e) };

    fn from(e: OpenFault) -> Refusal {
        match e {
            OpenFault::Strip(fault) => Refusal::from(fault),
            OpenFault::NoMoves(position) => Refusal::naming(11, position as usize),
        }
    }
}
