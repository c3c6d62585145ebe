ghost use Rattle.arena.specs.Told.{Same};
ghost use Rattle.sheet_faults.specs.Refusals.{close_refusal, let_go_refusal, load_refusal, put_refusal, shape_refusal, take_refusal, write_refusal};

use crate::faults::{
    CloseFault, LetGoFault, LoadFault, PutFault, ShapeFault, TakeFault, WriteFault,
};
use arena::Refusal;

impl From<ShapeFault> for Refusal {
    ghost from_gives = { λ e r. Same r (shape_refusal e) };

    fn from(e: ShapeFault) -> Refusal {
        match e {
            ShapeFault::RowOut(p) => Refusal::naming(10, p as usize),
            ShapeFault::Positions => Refusal::bare(1),
            ShapeFault::Goals => Refusal::bare(2),
        }
    }
}

impl From<TakeFault> for Refusal {
    ghost from_gives = { λ e r. Same r (take_refusal e) };

    fn from(e: TakeFault) -> Refusal {
        match e {
            TakeFault::NoSuchSeat => Refusal::bare(5),
            TakeFault::NoSuchPosition => Refusal::bare(4),
            TakeFault::RowOut => Refusal::bare(6),
        }
    }
}

impl From<PutFault> for Refusal {
    ghost from_gives = { λ e r. Same r (put_refusal e) };

    fn from(e: PutFault) -> Refusal {
        match e {
            PutFault::NotOut => Refusal::bare(7),
            PutFault::NoSuchMove => Refusal::bare(8),
            PutFault::NoSuchGoal => Refusal::bare(9),
        }
    }
}

impl From<LetGoFault> for Refusal {
    ghost from_gives = { λ e r. Same r (let_go_refusal e) };

    fn from(e: LetGoFault) -> Refusal {
        match e {
            LetGoFault::NotOut => Refusal::bare(7),
        }
    }
}

impl From<CloseFault> for Refusal {
    ghost from_gives = { λ e r. Same r (close_refusal e) };

    fn from(e: CloseFault) -> Refusal {
        match e {
            CloseFault::RowOut(p) => Refusal::naming(10, p as usize),
            CloseFault::NoMoves(p) => Refusal::naming(11, p as usize),
        }
    }
}

impl From<LoadFault> for Refusal {
    ghost from_gives = { λ e r. Same r (load_refusal e) };

    fn from(e: LoadFault) -> Refusal {
        match e {
            LoadFault::RowOut(p) => Refusal::naming(10, p as usize),
            LoadFault::Strip(f) => Refusal::from(f),
        }
    }
}

impl From<WriteFault> for Refusal {
    ghost from_gives = { λ e r. Same r (write_refusal e) };

    fn from(e: WriteFault) -> Refusal {
        match e {
            WriteFault::Short => Refusal::bare(3),
        }
    }
}
