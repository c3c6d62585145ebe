ghost use Rattle.std.specs.Prelude.{◌≡◌, ℕ, Bool, ◌+◌, ◌<◌, ◌≤◌, false, not, ◌&&◌, ◌||◌, length, ◌==◌, slice_index, if◌then◌else◌};
ghost use Rattle.arena.specs.Arena.{moves_answer};
ghost use Rattle.arena.specs.Owners.{owner_number};
ghost use Rattle.arena.specs.Sets.{all, any};
ghost use Rattle.solver.specs.Columns.{Ranks, TestsBelow, by_round, drawn_in, next, present};

use arena::{Arena, Owner, moves_of};

// Whether position `p` is there and no stage has taken it.
pub(crate) fn is_present(taken: &[u16], p: u16) -> bool
    ensures { result ≡ present taken.now p }
{
    taken.get(usize::from(p)) == Some(&0)
}

// Whether the side owns position `p`.
pub(crate) fn is_owner<A: Arena>(a: &A, side: Owner, p: u16) -> bool
    requires { p < (A.meaning a.now).size }
    ensures { result ≡ ((A.meaning a.now).owner p == owner_number side) }
{
    a.owner(p) == Some(u16::from(side))
}

// Whether a column of ranks has position `p` by round `i`.
fn is_by(ranks: &[u16], i: u16, p: u16) -> bool
    ensures { result ≡ by_round ranks.now i p }
{
    ranks
        .get(usize::from(p))
        .is_some_and(|x| 0 < *x && *x - 1 <= i)
}

// The positions that pass become round 0 of a column of ranks, which has one more than the rank, and 0 where there is none.
fn mark<F: Fn(u16) -> bool>(ranks: &mut [u16], is_member: F)
    requires small { length ranks.old ≤ 4096 }
    requires callable { F.IsAlwaysCallable is_member }
    ensures { (set : ℕ → Bool) → TestsBelow (length ranks.new) (F.post is_member) set → (p : ℕ) → p < length ranks.new → slice_index ranks.new p ≡ (if set p then 1 else 0) }
{
    for (p, rank) in ranks.iter_mut().enumerate() {
        *rank = u16::from(is_member(p as u16));
    }
}

// The positions of an arena that no stage has taken.
#[derive(Drop)]
pub(crate) struct Present<'a, A: Arena> {
    pub(crate) arena: &'a A,
    pub(crate) taken: &'a [u16],
    ghost fits: { (length taken.now ≡ (A.meaning arena.now).size) × ((A.meaning arena.now).size ≤ 4096) },
}

impl<A: Arena> Present<'_, A> {
    // Whether some move of position `p` leads to a position that has a rank by round `i`.
    fn can_enter(&self, ranks: &[u16], i: u16, p: u16) -> bool
        ensures { result ≡ any (by_round ranks.now i) (moves_answer (A.meaning self.now.arena.now) p) }
    {
        moves_of(self.arena, p).any(|q| is_by(ranks, i, q))
    }

    // Whether no move of position `p` inside leads elsewhere.
    fn must_enter(&self, ranks: &[u16], i: u16, p: u16) -> bool
        ensures { result ≡ all (λ q. not (present self.now.taken.now q) || by_round ranks.now i q) (moves_answer (A.meaning self.now.arena.now) p) }
    {
        moves_of(self.arena, p).all(|q| !is_present(self.taken, q) || is_by(ranks, i, q))
    }

    // Whether the round after round `i` of a side's attractor adds position `p`.
    fn draws_in(&self, side: Owner, ranks: &[u16], i: u16, p: u16) -> bool
        requires { p < (A.meaning self.now.arena.now).size }
        ensures { result ≡ drawn_in (A.meaning self.now.arena.now) (owner_number side) (present self.now.taken.now) (by_round ranks.now i) p }
    {
        if !is_present(self.taken, p) {
            false
        } else if is_owner(self.arena, side, p) {
            self.can_enter(ranks, i, p)
        } else {
            self.must_enter(ranks, i, p)
        }
    }

    // The round after round `i`, in place; whether it has added a position. It looks at those alone that have no rank yet.
    fn next_round(&self, side: Owner, ranks: &mut [u16], i: u16) -> bool
        requires early { i < (A.meaning self.now.arena.now).size }
        requires long { length ranks.old ≡ (A.meaning self.now.arena.now).size }
        ensures column { (k : ℕ) → k < (A.meaning self.now.arena.now).size → slice_index ranks.new k ≡ next (A.meaning self.now.arena.now) (owner_number side) self.now.taken.now ranks.old i k }
        ensures ended { result ≡ false → ranks.new ≡ ranks.old }
    {
        let mut more = false;
        // By index, since what is written is read as a whole for each position.
        for p in 0..self.arena.positions() {
            if ranks[p as usize] == 0 && self.draws_in(side, ranks, i, p) {
                ranks[p as usize] = i + 2;
                more = true;
            }
        }
        more
    }

    // Every rank in a side's attractor of the positions present that pass.
    pub(crate) fn attract<F: Fn(u16) -> bool>(&self, side: Owner, ranks: &mut [u16], is_target: F)
        requires long { length ranks.old ≡ (A.meaning self.now.arena.now).size }
        requires callable { F.IsAlwaysCallable is_target }
        ensures { (set : ℕ → Bool) → TestsBelow (A.meaning self.now.arena.now).size (F.post is_target) set → Ranks (A.meaning self.now.arena.now) (owner_number side) (present self.now.taken.now) (λ p. present self.now.taken.now p && set p) ranks.new }
    {
        mark(ranks, |p| is_present(self.taken, p) && is_target(p));
        for i in 0..self.arena.positions() {
            if !self.next_round(side, ranks, i) {
                return;
            }
        }
    }
}
