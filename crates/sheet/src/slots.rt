ghost use Rattle.std.specs.Prelude.{◌≡◌, ◌<◌, ◌≤◌, IfSome, count_by, length, position, replicate, vec_len, vec_capacity, nat_lt};
ghost use Rattle.arena.specs.Sets.{all};
ghost use Rattle.row.specs.Rows.{empty};
ghost use Rattle.sheet.specs.Slots.{is_empty, is_lent, rows_of, seats_of};

use crate::slot::Slot;
use row::Row;

/// The lowest row that is out.
pub(crate) fn first_out(slots: &[Slot]) -> Option<usize>
    ensures place { result ≡ position is_lent slots.now }
    ensures within { IfSome result (λ p. p < length slots.now) }
{
    slots.iter().position(|slot| slot.holder.is_some())
}

/// The lowest row without moves.
pub(crate) fn first_bare(slots: &[Slot]) -> Option<usize>
    ensures place { result ≡ position is_empty slots.now }
    ensures within { IfSome result (λ p. p < length slots.now) }
{
    slots.iter().position(|slot| slot.row.moves().is_empty())
}

/// How many rows are out.
pub(crate) fn count_out(slots: &[Slot]) -> u16
    requires { length slots.now ≤ 512 }
    ensures { result ≡ count_by is_lent slots.now }
{
    slots.iter().filter(|slot| slot.holder.is_some()).count() as u16
}

/// Makes the rows `n` empty ones, all in.
pub(crate) fn fill_empty(slots: &mut Vec<Slot>, n: u16)
    requires room { n ≤ vec_capacity slots.old }
    ensures drawn { rows_of slots.new.items ≡ replicate n empty }
    ensures out { seats_of slots.new.items ≡ replicate n 0 }
    ensures len { vec_len slots.new ≡ n }
    ensures cap { vec_capacity slots.new ≡ vec_capacity slots.old }
{
    slots.clear();
    for _ in 0..n {
        slots.push_reserved(Slot {
            row: Row::empty(),
            holder: None,
        });
    }
}

/// Whether all moves are below `n`.
pub(crate) fn all_below(moves: &[u16], n: u16) -> bool
    ensures { result ≡ all (λ q. nat_lt q n) moves.now }
{
    moves.iter().all(|q| *q < n)
}
