ghost use Rattle.std.specs.Prelude.{◌≡◌, ℕ};
ghost use Rattle.arena.specs.Owners.{owner_number};
ghost use Rattle.row.specs.RowModel.{row_of};
ghost use Rattle.row.specs.Rows.{empty, has_mark};

use crate::marks::has_mark;
use crate::row::Row;
use arena::Owner;

impl Row {
    /// The empty row: the controller's, unmarked, without moves.
    pub fn empty() -> Row
        ensures { row_of result ≡ empty }
    {
        Row {
            owner: Owner::Controller,
            marks: 0,
            count: 0,
            moves: [0; 16],
        }
    }

    /// The owner.
    pub fn owner(&self) -> Owner
        ensures { owner_number result ≡ (row_of self.now).owner }
    {
        self.owner
    }

    /// Whether the row is marked for goal `g`.
    pub fn is_marked(&self, g: u16) -> bool
        ensures { result ≡ has_mark (row_of self.now) g }
    {
        has_mark(self.marks, g)
    }

    /// The moves, in rising order.
    pub fn moves(&self) -> &[u16]
        ensures { result.now ≡ (row_of self.now).moves }
    {
        &self.moves[0..self.count]
    }
}
