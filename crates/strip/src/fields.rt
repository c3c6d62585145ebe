ghost use Rattle.std.specs.Prelude.{◌≡◌, ℕ, ◌+◌, ◌^◌, ◌<◌, ◌≤◌, [], ◌∷◌, None, Some, MatchResult};
ghost use Rattle.strip.specs.Refusals.{place_of};
ghost use Rattle.strip.specs.Parts.{moves_wrong, record_wrong, rows_wrong};
ghost use Rattle.strip.specs.Strip.{end_fields, fault, first_wrong, front_fields, goals as goals_told, head_fields, move_right, row_at, size, trailing};

use crate::faults::StripFault;
use crate::layout::{END_MARK, HEAD_MARK, RECORD_MARK, record_at, strip_bytes};
use arena::{byte_at, is_marked_by, number_at};

/// One field: whether it is there, not cut off, and right.
fn field(bytes: &[u8], offset: usize, width: usize, right: bool) -> Result<(), StripFault>
    requires { offset + width < 2 ^ 64 }
    ensures { place_of result ≡ first_wrong bytes.now (record { offset = offset; width = width; right = right } ∷ []) }
{
    if offset + width <= bytes.len() && right {
        return Ok(());
    }
    Err(StripFault { place: offset })
}

/// A record among bytes: where it begins, and the numbers of positions and of goals that its fields are held to.
#[derive(Clone, Copy)]
pub(crate) struct Record<'a> {
    pub bytes: &'a [u8],
    pub positions: usize,
    pub goals: u16,
    pub offset: usize,
    ghost near: { offset < 2 ^ 32 },
    ghost few: { goals ≤ 8 },
}

impl Record<'_> {
    /// The fields before the moves.
    fn front(&self) -> Result<(), StripFault>
        ensures { place_of result ≡ first_wrong self.now.bytes.now (front_fields self.now.bytes.now self.now.goals self.now.offset) }
    {
        let bytes = self.bytes;
        let at = self.offset;
        let owner = byte_at(bytes, at + 2);
        let marks = byte_at(bytes, at + 3);
        let count = number_at(bytes, at + 4);
        field(bytes, at, 2, is_marked_by(bytes, at, RECORD_MARK))?;
        field(bytes, at + 2, 1, owner <= 1)?;
        field(bytes, at + 3, 1, (marks as u16) < 1u16 << self.goals)?;
        field(bytes, at + 4, 2, count <= 16)
    }

    /// Whether the `j`-th move is below the number of positions and above the one before it, or zero where it is unused.
    fn is_move_right(&self, j: usize) -> bool
        requires { j < 16 }
        ensures { result ≡ move_right self.now.bytes.now self.now.positions self.now.offset j }
    {
        let here = self.offset + (6 + 2 * j);
        let count = number_at(self.bytes, self.offset + 4);
        let q = number_at(self.bytes, here);
        if j < count as usize {
            let before = number_at(self.bytes, here - 2);
            (q as usize) < self.positions && (j == 0 || before < q)
        } else {
            q == 0
        }
    }

    /// The fields of the sixteen moves.
    fn moves(&self) -> Result<(), StripFault>
        ensures { place_of result ≡ moves_wrong self.now.bytes.now self.now.positions self.now.offset 0 }
    {
        for j in 0..16 {
            field(
                self.bytes,
                self.offset + (6 + 2 * j),
                2,
                self.is_move_right(j),
            )?;
        }
        Ok(())
    }

    /// All fields.
    pub(crate) fn inspect(&self) -> Result<(), StripFault>
        ensures { place_of result ≡ record_wrong self.now.bytes.now self.now.positions self.now.goals self.now.offset }
    {
        self.front()?;
        self.moves()
    }
}

/// A strip whose head is right, with the numbers of positions and of goals that the head tells.
#[derive(Clone, Copy)]
struct Strip<'a> {
    bytes: &'a [u8],
    positions: u16,
    goals: u16,
    ghost positions_read: { positions ≡ size bytes.now },
    ghost goals_read: { goals ≡ goals_told bytes.now },
    ghost few: { goals ≤ 8 },
}

impl<'a> Strip<'a> {
    /// The strip of these bytes, once the fields of the head are right.
    fn headed(bytes: &'a [u8]) -> Result<Strip<'a>, StripFault>
        ensures { MatchResult result (λ s. (s.bytes.now ≡ bytes.now) × (first_wrong bytes.now (head_fields bytes.now) ≡ None)) (λ f. first_wrong bytes.now (head_fields bytes.now) ≡ Some f.place) }
    {
        let positions = number_at(bytes, 2);
        let goals = number_at(bytes, 4);
        field(bytes, 0, 2, is_marked_by(bytes, 0, HEAD_MARK))?;
        field(bytes, 2, 2, (1..=512).contains(&positions))?;
        field(bytes, 4, 2, (1..=8).contains(&goals))?;
        Ok(Strip {
            bytes,
            positions,
            goals,
        })
    }

    /// The record of position `p`.
    fn record(&self, p: u16) -> Record<'a>
        ensures bytes { result.bytes.now ≡ self.now.bytes.now }
        ensures held { (result.positions ≡ self.now.positions) × (result.goals ≡ self.now.goals) }
        ensures place { result.offset ≡ row_at p }
    {
        Record {
            bytes: self.bytes,
            positions: self.positions as usize,
            goals: self.goals,
            offset: record_at(p),
        }
    }

    /// The fields of all records.
    fn records(&self) -> Result<(), StripFault>
        ensures { place_of result ≡ rows_wrong self.now.bytes.now 0 }
    {
        for p in 0..self.positions {
            self.record(p).inspect()?;
        }
        Ok(())
    }

    /// The fields of the end.
    fn end(&self) -> Result<(), StripFault>
        ensures { place_of result ≡ first_wrong self.now.bytes.now (end_fields self.now.bytes.now) }
    {
        let at = record_at(self.positions);
        let again = number_at(self.bytes, at + 2);
        field(self.bytes, at, 2, is_marked_by(self.bytes, at, END_MARK))?;
        field(self.bytes, at + 2, 2, again == self.positions)
    }

    /// That no byte follows the end.
    fn ended(&self) -> Result<(), StripFault>
        ensures { place_of result ≡ trailing self.now.bytes.now }
    {
        let after = strip_bytes(self.positions);
        if after < self.bytes.len() {
            return Err(StripFault { place: after });
        }
        Ok(())
    }
}

/// Tells a strip's fault: the place of the first field, in order, that is cut off or wrong, or else of the first byte
/// after the end.
pub fn inspect(bytes: &[u8]) -> Result<(), StripFault>
    ensures { place_of result ≡ fault bytes.now }
{
    let strip = Strip::headed(bytes)?;
    strip.records()?;
    strip.end()?;
    strip.ended()
}
