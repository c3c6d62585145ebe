ghost use Rattle.std.specs.Prelude.{◌≡◌, ℕ, ◌^◌, ◌<◌, ◌≤◌, true, [], length, slice_index, MatchOption, MatchResult};
ghost use Rattle.arena.specs.Refusals.{after, done, told};
ghost use Rattle.arena.specs.Sets.{least};
ghost use Rattle.strip.specs.Laws.{lawful_strip};
ghost use Rattle.strip.specs.Refusals.{open_outcome};
ghost use Rattle.strip.specs.Strip.{bare, drawn, open_answer, openable, row_at, row_from, size};

use crate::faults::OpenFault;
use crate::fields::inspect;
use crate::layout::record_at;
use arena::{Arena, byte_at, number_at};
use row::has_mark;

/// An opened strip: an arena that is read straight from the strip's bytes, which it borrows and does not copy. It holds
/// no bytes, and is an arena of no positions, until `open` fills it.
#[derive(Drop)]
pub struct OpenedStrip<'a> {
    bytes: &'a [u8],
    ghost fit: { openable bytes.now ≡ true },
}

impl<'a> OpenedStrip<'a> {
    /// An opened strip of no positions, for `open` to fill.
    pub fn empty() -> OpenedStrip<'a>
        ensures { result.bytes.now ≡ [] }
    {
        OpenedStrip { bytes: &[] }
    }
}

/// How many moves the record at a place has.
fn count_at(bytes: &[u8], at: usize) -> u16
    requires { at < 2 ^ 32 }
    ensures { result ≡ length (row_from bytes.now at).moves }
{
    number_at(bytes, at + 4)
}

/// The `j`-th move of the record at a place, which has more moves than that.
fn move_at(bytes: &[u8], at: usize, j: u16) -> u16
    requires near { at < 2 ^ 32 }
    requires there { j < length (row_from bytes.now at).moves }
    ensures { result ≡ slice_index (row_from bytes.now at).moves j }
{
    number_at(bytes, at + (6 + 2 * j as usize))
}

impl OpenedStrip<'_> {
    /// Where the record of position `p` begins, if there is such a position.
    fn row(&self, p: u16) -> Option<usize>
        ensures { MatchOption result (size self.now.bytes.now ≤ p) (λ at. (p < size self.now.bytes.now) × (at ≡ row_at p)) }
    {
        (p < self.positions()).then_some(record_at(p))
    }
}

impl Arena for OpenedStrip<'_> {
    ghost meaning = { λ s. drawn s.bytes.now };

    ghost lawful = { λ s. lawful_strip s.bytes.now s.fit };

    fn positions(&self) -> u16 {
        number_at(self.bytes, 2)
    }

    fn goals(&self) -> u16 {
        number_at(self.bytes, 4)
    }

    fn owner(&self, p: u16) -> Option<u16> {
        let at = self.row(p)?;
        Some(byte_at(self.bytes, at + 2) as u16)
    }

    fn marked(&self, p: u16, g: u16) -> Option<bool> {
        let at = self.row(p)?;
        if g >= self.goals() {
            return None;
        }
        Some(has_mark(byte_at(self.bytes, at + 3), g))
    }

    fn move_count(&self, p: u16) -> Option<u16> {
        let at = self.row(p)?;
        Some(count_at(self.bytes, at))
    }

    fn nth_move(&self, p: u16, j: u16) -> Option<u16> {
        let at = self.row(p)?;
        if j >= count_at(self.bytes, at) {
            return None;
        }
        Some(move_at(self.bytes, at, j))
    }
}

/// The lowest of the first `n` positions whose row has no moves.
fn lowest_bare(bytes: &[u8], n: u16) -> Option<u16>
    ensures { result ≡ least (bare bytes.now) n }
{
    (0..n).find(|p| count_at(bytes, record_at(*p)) == 0)
}

/// Makes the bytes those of the opened strip, which is then the arena that their rows draw. Refused by the strip's fault,
/// and then by the lowest row without moves; the opened strip is then left as it was.
pub fn open<'a>(bytes: &'a [u8], into: &mut OpenedStrip<'a>) -> Result<(), OpenFault>
    ensures answer { open_outcome result ≡ told (λ _. done) (open_answer bytes.now) }
    ensures fills { MatchResult result (λ _. into.new.bytes.now ≡ bytes.now) (λ _. into.new ≡ into.old) }
{
    inspect(bytes)?;
    if let Some(p) = lowest_bare(bytes, number_at(bytes, 2)) {
        return Err(OpenFault::NoMoves(p));
    }
    into.bytes = bytes;
    Ok(())
}
