ghost use Rattle.std.specs.Prelude.{◌≡◌, ◌≢◌, Some, ℕ, ◌^◌, ◌<◌, ◌≤◌, true, nat_lt, slice_index};
ghost use Rattle.arena.specs.Sets.{all};
ghost use Rattle.row.specs.RowModel.{row_of};
ghost use Rattle.sheet.specs.Fits.{Fits};
ghost use Rattle.sheet.specs.Seats.{seat_or_none};
ghost use Rattle.sheet.specs.Sheets.{is_out, lent, lowest_out, new, out_to, row_on, stored};

use crate::sheet::Sheet;
use crate::slip::Slip;
use crate::slot::Slot;
use crate::slots::{fill_empty, first_out};
use row::Row;

impl Sheet {
    /// The number of positions.
    pub(crate) fn size(&self) -> u16
        ensures number { result ≡ self.now.size }
        ensures fits { Fits self.now }
    {
        self.slots.len() as u16
    }

    /// The lowest row that is out.
    pub(crate) fn lowest_out(&self) -> Option<u16>
        ensures lowest { result ≡ lowest_out self.now }
        ensures fits { Fits self.now }
    {
        let p = first_out(self.slots.as_slice())?;
        Some(p as u16)
    }

    /// The slot of position `p`.
    fn slot(&self, p: u16) -> &Slot
        requires { p < self.now.size }
        ensures row { row_of result.now.row ≡ row_on self.now p }
        ensures seat { seat_or_none result.now.holder ≡ slice_index self.now.out p }
        ensures seated { result.now.holder ≢ Some 0 }
    {
        &self.slots[p as usize]
    }

    /// Whether the row of position `p` is out.
    pub(crate) fn is_out(&self, p: u16) -> bool
        requires { p < self.now.size }
        ensures { result ≡ is_out self.now p }
    {
        self.slot(p).holder.is_some()
    }

    /// Whether the row of the slip's position is out to its seat.
    pub(crate) fn is_out_to(&self, slip: &Slip) -> bool
        ensures held { result ≡ out_to self.now slip.now.seat slip.now.position }
        ensures fits { Fits self.now }
    {
        let p = slip.position();
        p < self.size() && self.slot(p).holder == Some(slip.seat())
    }

    /// The row of position `p`.
    pub(crate) fn row(&self, p: u16) -> Row
        requires { p < self.now.size }
        ensures { row_of result ≡ row_on self.now p }
    {
        self.slot(p).row
    }

    /// Lends the row of position `p` to a seat, or takes it back.
    pub(crate) fn lend(&mut self, p: u16, holder: Option<u8>)
        requires inside { p < self.old.size }
        requires seated { holder ≢ Some 0 }
        ensures sheet { self.new ≡ lent self.old p (seat_or_none holder) }
        ensures fits { Fits self.new }
    {
        self.slots[p as usize].holder = holder;
    }

    /// Stores a row as that of position `p`, and takes it back.
    pub(crate) fn store(&mut self, p: u16, row: Row)
        requires inside { p < self.old.size }
        requires moves { all (λ q. nat_lt q self.old.size) (row_of row).moves ≡ true }
        requires marks { (row_of row).marks < 2 ^ self.old.goals }
        ensures sheet { self.new ≡ stored self.old p (row_of row) }
        ensures fits { Fits self.new }
    {
        self.slots[p as usize] = Slot { row, holder: None };
    }

    /// Makes the sheet a new one.
    pub(crate) fn reshape(&mut self, n: u16, k: u16)
        requires positions { (0 < n) × (n ≤ 512) }
        requires goals { (0 < k) × (k ≤ 8) }
        ensures sheet { self.new ≡ new n k }
        ensures fits { Fits self.new }
    {
        fill_empty(&mut self.slots, n);
        self.goals = k;
    }
}
