ghost use Rattle.std.specs.Prelude.{◌≡◌, ℕ, ◌<◌, ◌≤◌, length, slice_index};

mod edits;
mod methods;
mod record;

use arena::Owner;

/// How many bytes the record of a row has.
pub const RECORD_BYTES: usize = 38;

/// A row: what is drawn of one position, its owner, its marks for eight possible goals, and at most sixteen moves in
/// strictly rising order. Goal g is worth 2 to the g in the marks, and the unused moves are zero. A draft is a row in a
/// caller's hands. The fields are open, as the ghost fields keep them right.
#[derive(Clone, Copy)]
pub struct Row {
    pub owner: Owner,
    pub marks: u8,
    pub count: usize,
    pub moves: [u16; 16],
    ghost wide: { length moves ≡ 16 },
    ghost few: { count ≤ 16 },
    ghost rising: { (i j : ℕ) → i < j → j < count → slice_index moves i < slice_index moves j },
    ghost unused: { (j : ℕ) → count ≤ j → slice_index moves j ≡ 0 },
}
