ghost use Rattle.std.specs.Prelude.{◌≡◌, ℕ, ◌+◌, ◌-◌, ◌^◌, ◌<◌, [], ◌∷◌, ◌++◌, if◌then◌else◌, length, take};
ghost use Rattle.row.specs.Drafts.{assign_after, assign_answer, link_after, link_answer, mark_after, mark_answer, unlink_after, unlink_answer, unmark_after, unmark_answer};
ghost use Rattle.row.specs.Refusals.{link_outcome, mark_outcome};
ghost use Rattle.arena.specs.Owners.{owner_number};
ghost use Rattle.row.specs.RowModel.{row_of};
ghost use Rattle.row.specs.Rows.{mark_in};
ghost use Rattle.std.specs.List.{insert as insert_at, remove};

use crate::faults::{LinkFault, MarkFault};
use crate::marks::has_mark;
use crate::row::Row;
use arena::Owner;

/// The marks with the one for goal `g`.
fn with_mark(marks: u8, g: u16) -> u8
    requires { g < 8 }
    ensures { result ≡ (if mark_in marks g then marks else marks + 2 ^ g) }
{
    marks | 1 << g
}

/// The marks without the one for goal `g`.
fn without_mark(marks: u8, g: u16) -> u8
    requires { g < 8 }
    ensures { result ≡ (if mark_in marks g then marks - 2 ^ g else marks) }
{
    marks & !(1 << g)
}

/// Sets `q` in at a place: the elements from there on move up by one, and the last drops out.
fn set_in(moves: &mut [u16], at: usize, q: u16)
    requires { at < length moves.old }
    ensures { moves.new ≡ take (length moves.old) (insert_at moves.old at q) }
{
    moves[at..].rotate_right(1);
    moves[at] = q;
}

/// Strikes the element at a place out: those after it move down by one, and the last is 0.
fn strike_out(moves: &mut [u16], at: usize)
    requires { at < length moves.old }
    ensures { moves.new ≡ remove moves.old at ++ 0 ∷ [] }
{
    moves[at] = 0;
    moves[at..].rotate_left(1);
}

impl Row {
    /// Strikes the move to `q` out, if there is one; answers whether there was.
    fn strike_move(&mut self, q: u16) -> bool
        ensures answer { result ≡ unlink_answer q (row_of self.old) }
        ensures draft { row_of self.new ≡ unlink_after q (row_of self.old) }
    {
        let Ok(at) = self.moves().binary_search(&q) else {
            return false;
        };
        strike_out(&mut self.moves, at);
        self.count -= 1;
        true
    }

    /// Gives the draft an owner; answers whether that changed it.
    pub fn assign(&mut self, owner: Owner) -> bool
        ensures answer { result ≡ assign_answer (owner_number owner) (row_of self.old) }
        ensures draft { row_of self.new ≡ assign_after (owner_number owner) (row_of self.old) }
    {
        let before = self.owner;
        self.owner = owner;
        before != owner
    }

    /// Gives the draft a mark for goal `g`; answers whether that changed it. Refused where no row can be marked for the
    /// goal.
    pub fn mark(&mut self, g: u16) -> Result<bool, MarkFault>
        ensures answer { mark_outcome result ≡ mark_answer g (row_of self.old) }
        ensures draft { row_of self.new ≡ mark_after g (row_of self.old) }
    {
        if g >= 8 {
            return Err(MarkFault::NoSuchGoal);
        }
        let there = has_mark(self.marks, g);
        self.marks = with_mark(self.marks, g);
        Ok(!there)
    }

    /// Takes the mark for goal `g` from the draft; answers whether that changed it. Refused where no row can be marked
    /// for the goal.
    pub fn unmark(&mut self, g: u16) -> Result<bool, MarkFault>
        ensures answer { mark_outcome result ≡ unmark_answer g (row_of self.old) }
        ensures draft { row_of self.new ≡ unmark_after g (row_of self.old) }
    {
        if g >= 8 {
            return Err(MarkFault::NoSuchGoal);
        }
        let there = has_mark(self.marks, g);
        self.marks = without_mark(self.marks, g);
        Ok(there)
    }

    /// Gives the draft a move to `q`, in its place in the order; answers whether that changed it. Refused if the move
    /// would be a seventeenth; one that is there already is accepted, in a full draft too.
    pub fn link(&mut self, q: u16) -> Result<bool, LinkFault>
        ensures answer { link_outcome result ≡ link_answer q (row_of self.old) }
        ensures draft { row_of self.new ≡ link_after q (row_of self.old) }
    {
        let Err(at) = self.moves().binary_search(&q) else {
            return Ok(false);
        };
        if self.count >= 16 {
            return Err(LinkFault::TooMany);
        }
        set_in(&mut self.moves, at, q);
        self.count += 1;
        Ok(true)
    }

    /// Takes the move to `q` from the draft; answers whether that changed it.
    pub fn unlink(&mut self, q: u16) -> bool
        ensures answer { result ≡ unlink_answer q (row_of self.old) }
        ensures draft { row_of self.new ≡ unlink_after q (row_of self.old) }
    {
        self.strike_move(q)
    }
}
