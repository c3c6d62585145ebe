ghost use Rattle.std.specs.Prelude.{◌≡◌, ℕ, IfOk, IfErr};
ghost use Rattle.arena.specs.Refusals.{told};
ghost use Rattle.row.specs.RowModel.{row_of};
ghost use Rattle.sheet.specs.Fits.{Fits};
ghost use Rattle.sheet.specs.Outcomes.{let_go_outcome, put_outcome, shape_outcome, take_outcome, unspent};
ghost use Rattle.sheet.specs.Sheets.{blank, count_answer, let_go_after, let_go_answer, put_after, put_answer, shape_after, shape_answer, take_after, take_answer, take_draft};
ghost use Rattle.sheet.specs.Succession.{SheetsKeep};

use crate::sheet::{ROWS, Sheet};
use crate::slip::Slip;
use crate::slots::{all_below, count_out, fill_empty};
use row::Row;
use sheet_faults::{LetGoFault, PutFault, ShapeFault, TakeFault};
use std::alloc::{AllocError, Global};

impl Sheet {
    /// A blank sheet: one shaped to one position and one goal. Only here memory is asked for, and may be wanting.
    pub fn new(heap: Global) -> Result<Sheet, AllocError>
        ensures sheet { IfOk result (λ s. s ≡ blank) }
        ensures fits { IfOk result (λ s. Fits s) }
    {
        let mut slots = Vec::with_capacity(heap, ROWS)?;
        fill_empty(&mut slots, 1);
        Ok(Sheet { goals: 1, slots })
    }

    /// Gives the sheet another number of positions and of goals, and makes every row empty. Refused while a row is out,
    /// and then where the positions are not 1 to 512, and then where the goals are not 1 to 8.
    pub fn shape(&mut self, n: u16, k: u16) -> Result<(), ShapeFault>
        ensures answer { shape_outcome result ≡ shape_answer self.old n k }
        ensures sheet { self.new ≡ shape_after self.old n k }
        ensures fits { Fits self.old × Fits self.new }
    {
        if let Some(p) = self.lowest_out() {
            return Err(ShapeFault::RowOut(p));
        }
        if !(1..=512).contains(&n) {
            return Err(ShapeFault::Positions);
        }
        if !(1..=8).contains(&k) {
            return Err(ShapeFault::Goals);
        }
        self.reshape(n, k);
        Ok(())
    }

    /// Copies the row of a position into the draft and hands out a slip; the row is then out to the seat. Refused where
    /// the seat is not 1 to 16, then where there is no such position, then where the row is out.
    pub fn take(&mut self, seat: u8, position: u16, draft: &mut Row) -> Result<Slip, TakeFault>
        ensures answer { take_outcome result ≡ told (λ _. unspent seat position) (take_answer self.old seat position) }
        ensures sheet { self.new ≡ take_after self.old seat position }
        ensures draft { row_of draft.new ≡ take_draft self.old seat position (row_of draft.old) }
        ensures fits { Fits self.old × Fits self.new }
    {
        let size = self.size();
        if !(1..=16).contains(&seat) {
            return Err(TakeFault::NoSuchSeat);
        }
        if position >= size {
            return Err(TakeFault::NoSuchPosition);
        }
        if self.is_out(position) {
            return Err(TakeFault::RowOut);
        }
        *draft = self.row(position);
        self.lend(position, Some(seat));
        Ok(Slip::unspent(seat, position))
    }

    /// Stores the draft as the row of the slip's position, which is then in, and spends the slip. Refused where the row
    /// is not out to the slip's seat, then where a move leads to no position of the sheet, then where a mark is for no
    /// goal of it; the slip is then handed back.
    pub fn put(&mut self, mut slip: Slip, draft: &Row) -> Result<(), (PutFault, Slip)>
        ensures answer { put_outcome result ≡ put_answer self.old slip.seat slip.position (row_of draft.now) }
        ensures back { IfErr result (λ e. e.1 ≡ slip) }
        ensures sheet { self.new ≡ put_after self.old slip.seat slip.position (row_of draft.now) }
        ensures fits { Fits self.old × Fits self.new }
    {
        if !self.is_out_to(&slip) {
            return Err((PutFault::NotOut, slip));
        }
        if !all_below(draft.moves(), self.size()) {
            return Err((PutFault::NoSuchMove, slip));
        }
        if draft.marks as u16 >= 1u16 << self.goals {
            return Err((PutFault::NoSuchGoal, slip));
        }
        self.store(slip.position(), *draft);
        slip.spend();
        Ok(())
    }

    /// Lets the row of the slip's position go, which is then in and as it was, and spends the slip. Refused where the
    /// row is not out to the slip's seat; the slip is spent then too.
    pub fn let_go(&mut self, mut slip: Slip) -> Result<(), LetGoFault>
        ensures answer { let_go_outcome result ≡ let_go_answer self.old slip.seat slip.position }
        ensures sheet { self.new ≡ let_go_after self.old slip.seat slip.position }
        ensures fits { Fits self.old × Fits self.new }
    {
        slip.spend();
        if !self.is_out_to(&slip) {
            return Err(LetGoFault::NotOut);
        }
        self.lend(slip.position(), None);
        Ok(())
    }

    /// How many rows are out, with the law over successions of calls and with what always holds of the sheet.
    fn number_out(&self) -> u16
        ensures answer { result ≡ count_answer self.now }
        ensures law { SheetsKeep }
        ensures fits { Fits self.now }
    {
        count_out(self.slots.as_slice())
    }

    /// How many rows are out. The law that stands beside the answer says what it is to be out: after any succession of
    /// takes, puts, let gos and counts on a new sheet, each row is the draft of its last accepted put, or empty, and the
    /// count is the number of rows taken and neither put nor let go since.
    pub fn count(&self) -> u16
        ensures answer { result ≡ count_answer self.now }
        ensures law { SheetsKeep }
        ensures fits { Fits self.now }
    {
        self.number_out()
    }
}
