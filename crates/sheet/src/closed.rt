ghost use Rattle.std.specs.Prelude.{◌≡◌, ℕ, ◌<◌, ◌≤◌, [], length, MatchOption};
ghost use Rattle.row.specs.RowModel.{row_of};
ghost use Rattle.sheet.specs.Laws.{lawful_slots};
ghost use Rattle.sheet.specs.Slots.{Below, Moved, arena_drawn, row_at, rows_of};

use crate::slot::Slot;
use arena::Arena;
use row::Row;

/// A closed sheet: the arena that a sheet's rows draw, over the sheet itself, which it borrows. While it stands the sheet
/// cannot be edited. It holds no rows, and is an arena of no positions, until `close` fills it.
#[derive(Drop)]
pub struct ClosedSheet<'a> {
    pub(crate) goals: u16,
    pub(crate) slots: &'a [Slot],
    ghost few: { length slots.now ≤ 512 },
    ghost moved: { Moved (length slots.now) (rows_of slots.now) },
    ghost below: { Below (length slots.now) (rows_of slots.now) },
}

impl<'a> ClosedSheet<'a> {
    /// A closed sheet of no positions, for `close` to fill.
    pub fn empty() -> ClosedSheet<'a>
        ensures slots { result.slots.now ≡ [] }
        ensures goals { result.goals ≡ 0 }
    {
        ClosedSheet {
            goals: 0,
            slots: &[],
        }
    }
}

impl ClosedSheet<'_> {
    /// The row of position `p`, if there is such a position.
    fn row(&self, p: u16) -> Option<&Row>
        ensures { MatchOption result (length self.now.slots.now ≤ p) (λ row. (p < length self.now.slots.now) × (row_of row.now ≡ row_at (rows_of self.now.slots.now) p)) }
    {
        self.slots.get(p as usize).map(|slot| &slot.row)
    }
}

impl Arena for ClosedSheet<'_> {
    ghost meaning = { λ s. arena_drawn s.goals s.slots.now };

    ghost lawful = { λ s. lawful_slots s.goals s.slots.now s.moved s.below };

    fn positions(&self) -> u16 {
        self.slots.len() as u16
    }

    fn goals(&self) -> u16 {
        self.goals
    }

    fn owner(&self, p: u16) -> Option<u16> {
        let row = self.row(p)?;
        Some(u16::from(row.owner()))
    }

    fn marked(&self, p: u16, g: u16) -> Option<bool> {
        let row = self.row(p)?;
        if g >= self.goals {
            return None;
        }
        Some(row.is_marked(g))
    }

    fn move_count(&self, p: u16) -> Option<u16> {
        let row = self.row(p)?;
        Some(row.moves().len() as u16)
    }

    fn nth_move(&self, p: u16, j: u16) -> Option<u16> {
        let row = self.row(p)?;
        row.moves().get(j as usize).copied()
    }
}
