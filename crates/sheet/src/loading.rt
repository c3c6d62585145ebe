ghost use Rattle.std.specs.Prelude.{◌≡◌, ℕ, ◌<◌, ◌≤◌, map, replicate, None, vec_len, vec_capacity};
ghost use Rattle.arena.specs.Sets.{upto};
ghost use Rattle.row.specs.RowModel.{row_of};
ghost use Rattle.sheet.specs.Slots.{rows_of, seats_of};
ghost use Rattle.strip.specs.Strip.{fault, row_read, size};

use crate::slot::Slot;
use row::Row;
use strip::{next_record, read_row, record_at};

/// The row that a strip without a fault stores for position `p`.
fn stored_row(strip: &[u8], p: u16) -> Row
    requires sound { fault strip.now ≡ None }
    requires inside { p < size strip.now }
    ensures { row_of result ≡ row_read strip.now p }
{
    let (record, _) = next_record(&strip[record_at(p)..]);
    read_row(record).unwrap()
}

/// Makes the rows those that a strip without a fault stores, all in.
pub(crate) fn fill_read(slots: &mut Vec<Slot>, strip: &[u8], n: u16)
    requires sound { fault strip.now ≡ None }
    requires whole { n ≡ size strip.now }
    requires room { n ≤ vec_capacity slots.old }
    ensures drawn { rows_of slots.new.items ≡ map (row_read strip.now) (upto n) }
    ensures out { seats_of slots.new.items ≡ replicate n 0 }
    ensures len { vec_len slots.new ≡ n }
    ensures cap { vec_capacity slots.new ≡ vec_capacity slots.old }
{
    slots.clear();
    for p in 0..n {
        slots.push_reserved(Slot {
            row: stored_row(strip, p),
            holder: None,
        });
    }
}
