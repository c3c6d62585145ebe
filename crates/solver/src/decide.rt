ghost use Rattle.std.specs.Prelude.{◌≡◌, ℕ, Bool, ◌<◌, ◌≤◌, length, slice_index};
ghost use Rattle.arena.specs.Owners.{owner_number};
ghost use Rattle.solver.specs.Deciding.{StepsBelow, decision};

use super::attract::is_owner;
use arena::{Arena, NO_MOVE, Owner, moves_of};

// The side's decision at each position: where the side owns the position, the lowest of its moves that qualifies.
pub(crate) fn decide<A: Arena, F: Fn(u16, u16) -> bool>(
    a: &A,
    side: Owner,
    steps: &mut [u16],
    is_qualified: F,
)
    requires small { (A.meaning a.now).size ≤ 4096 }
    requires long { length steps.old ≡ (A.meaning a.now).size }
    requires callable { (p q : ℕ) → p < (A.meaning a.now).size → q < (A.meaning a.now).size → F.pre is_qualified p q }
    ensures { (test : ℕ → ℕ → Bool) → StepsBelow (A.meaning a.now).size (F.post is_qualified) test → (p : ℕ) → p < (A.meaning a.now).size → slice_index steps.new p ≡ decision (A.meaning a.now) (owner_number side) test p }
{
    'positions: for (p, step) in steps.iter_mut().enumerate() {
        let p = p as u16;
        if !is_owner(a, side, p) {
            *step = NO_MOVE;
            continue 'positions;
        }
        let mut moves = moves_of(a, p);
        *step = loop {
            let Some(q) = moves.next() else {
                break NO_MOVE;
            };
            if is_qualified(p, q) {
                break q;
            }
        };
    }
}
