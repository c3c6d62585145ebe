ghost use Rattle.sheet_faults.specs.declared.faults.LoadFault.TheVariants.{Strip};
ghost use Rattle.std.specs.Prelude.{◌≡◌};

use strip::StripFault;

/// Why a sheet does not get another shape.
#[derive(Clone, Copy, Debug, PartialEq, Eq)]
pub enum ShapeFault {
    /// This row is the lowest that is out.
    RowOut(u16),
    /// The number of positions is not 1 to 512.
    Positions,
    /// The number of goals is not 1 to 8.
    Goals,
}

/// Why a row is not handed out.
#[derive(Clone, Copy, Debug, PartialEq, Eq)]
pub enum TakeFault {
    /// The seat is not 1 to 16.
    NoSuchSeat,
    /// The sheet has no such position.
    NoSuchPosition,
    /// The row is out already, to this seat or another.
    RowOut,
}

/// Why a draft is not stored.
#[derive(Clone, Copy, Debug, PartialEq, Eq)]
pub enum PutFault {
    /// The row is not out to the slip's seat.
    NotOut,
    /// The draft has a move to no position of the sheet.
    NoSuchMove,
    /// The draft has a mark for no goal of the sheet.
    NoSuchGoal,
}

/// Why a row is not let go.
#[derive(Clone, Copy, Debug, PartialEq, Eq)]
pub enum LetGoFault {
    /// The row is not out to the slip's seat.
    NotOut,
}

/// Why a sheet does not close.
#[derive(Clone, Copy, Debug, PartialEq, Eq)]
pub enum CloseFault {
    /// This row is the lowest that is out.
    RowOut(u16),
    /// This row is the lowest without moves.
    NoMoves(u16),
}

/// Why a sheet is not loaded.
#[derive(Clone, Copy, Debug, PartialEq, Eq)]
pub enum LoadFault {
    /// This row is the lowest that is out.
    RowOut(u16),
    /// The strip is faulty.
    Strip(StripFault),
}

/// Why a strip is not written.
#[derive(Clone, Copy, Debug, PartialEq, Eq)]
pub enum WriteFault {
    /// The memory is shorter than the strip.
    Short,
}

impl From<StripFault> for LoadFault {
    ghost from_gives = { λ e r. r ≡ Strip e };

    fn from(e: StripFault) -> LoadFault {
        LoadFault::Strip(e)
    }
}
