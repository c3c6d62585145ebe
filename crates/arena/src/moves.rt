ghost use Rattle.std.specs.Prelude.{◌≡◌, ℕ, ◌≤◌, length, drop};
ghost use Rattle.std.specs.Iterator.{YieldsFirst, item_count};
ghost use Rattle.arena.specs.Arena.{moves_answer};

use super::Arena;

/// The moves of a position that are still to come, in rising order.
#[derive(Drop)]
pub struct Moves<'a, A: Arena> {
    arena: &'a A,
    position: u16,
    next: u16,
    count: u16,
    ghost whole: { count ≡ length (moves_answer (A.meaning arena.now) position) },
}

/// The moves of position `p`; none where there is no such position.
pub fn moves_of<A: Arena>(arena: &A, p: u16) -> Moves<'_, A>
    ensures { drop result.next (moves_answer (A.meaning result.arena.now) result.position) ≡ moves_answer (A.meaning arena.now) p }
{
    Moves {
        arena,
        position: p,
        next: 0,
        count: arena.move_count(p).unwrap_or(0),
    }
}

impl<A: Arena> Iterator for Moves<'_, A> {
    type Item = u16;

    ghost next_gives = { YieldsFirst (λ s. drop s.next (moves_answer (A.meaning s.arena.now) s.position)) };

    ghost remaining = { item_count (λ s. drop s.next (moves_answer (A.meaning s.arena.now) s.position)) };

    fn next(&mut self) -> Option<u16> {
        if self.next >= self.count {
            return None;
        }
        let q = self.arena.nth_move(self.position, self.next)?;
        self.next += 1;
        Some(q)
    }
}
