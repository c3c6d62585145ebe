ghost use Rattle.std.specs.Prelude.{◌≡◌, ℕ, ◌+◌, ◌≤◌, ◌++◌, length, drop};
ghost use Rattle.sheet.specs.Slots.{row_at, rows_of};
ghost use Rattle.strip.specs.Writing.{strip, strip_bytes};
ghost use Rattle.std.proofs.Math.Seq.{paste};

use crate::slot::Slot;
use arena::{end, head};
use strip::{END_MARK, HEAD_MARK, record_at};

/// Writes bytes over others, from a place on.
fn put_at(bytes: &mut [u8], at: usize, what: &[u8])
    requires { at + length what.now ≤ length bytes.old }
    ensures { bytes.new ≡ paste bytes.old at what.now (length what.now) }
{
    bytes[at..at + what.len()].copy_from_slice(what);
}

/// Writes the strip of the rows over the first bytes.
pub(crate) fn put_strip(slots: &[Slot], k: u16, bytes: &mut [u8])
    requires few { length slots.now ≤ 512 }
    requires room { strip_bytes (length slots.now) ≤ length bytes.old }
    ensures { bytes.new ≡ strip (length slots.now) k (row_at (rows_of slots.now)) ++ drop (strip_bytes (length slots.now)) bytes.old }
{
    let n = slots.len() as u16;
    put_at(bytes, 0, &head(HEAD_MARK, n, k));
    for (p, slot) in slots.iter().enumerate() {
        put_at(bytes, record_at(p as u16), &slot.row.record());
    }
    put_at(bytes, record_at(n), &end(END_MARK, n));
}
