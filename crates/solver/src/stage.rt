ghost use Rattle.std.specs.Prelude.{◌≡◌, ℕ, ◌+◌, ◌-◌, ◌*◌, ◌<◌, ◌≤◌, true, false, ◌&&◌, length, slice_index};
ghost use Rattle.arena.specs.Sets.{any, upto};
ghost use Rattle.solver.specs.Columns.{Ranks, present};
ghost use Rattle.solver.specs.Memory.{Asked, GoalRanks, Standing};
ghost use Rattle.solver.specs.Solution.{core, final, missed, stages, target};

use super::attract::Present;
use arena::{Arena, Owner};

// Whether a column of ranks misses a position that is present.
fn misses(taken: &[u16], ranks: &[u16]) -> bool
    requires { length ranks.now ≡ length taken.now }
    ensures some { result ≡ true → (p : ℕ) × (p < length taken.now) × (slice_index taken.now p ≡ 0) × (slice_index ranks.now p ≡ 0) }
    ensures none { result ≡ false → (p : ℕ) → p < length taken.now → slice_index taken.now p ≡ 0 → 0 < slice_index ranks.now p }
{
    taken
        .iter()
        .zip(ranks)
        .any(|(stage, rank)| *stage == 0 && *rank == 0)
}

impl<A: Arena> Present<'_, A> {
    // The ranks in the controller's attractor of goal `g`.
    fn reach(&self, ranks: &mut [u16], g: u16)
        requires goal { g < (A.meaning self.now.arena.now).goals }
        requires long { length ranks.old ≡ (A.meaning self.now.arena.now).size }
        ensures { Ranks (A.meaning self.now.arena.now) 0 (present self.now.taken.now) (target (A.meaning self.now.arena.now) (present self.now.taken.now) g) ranks.new }
    {
        self.attract(Owner::Controller, ranks, |p| {
            self.arena.marked(p, g).unwrap_or(false)
        });
    }

    // The ranks in the traffic's attractor of a goal's core, which is what the goal's ranks miss.
    fn draw(&self, reached: &[u16], near: &mut [u16])
        requires reached { length reached.now ≡ (A.meaning self.now.arena.now).size }
        requires near { length near.old ≡ (A.meaning self.now.arena.now).size }
        ensures { (g : ℕ) → Ranks (A.meaning self.now.arena.now) 0 (present self.now.taken.now) (target (A.meaning self.now.arena.now) (present self.now.taken.now) g) reached.now → Ranks (A.meaning self.now.arena.now) 1 (present self.now.taken.now) (core (A.meaning self.now.arena.now) (present self.now.taken.now) g) near.new }
    {
        self.attract(Owner::Traffic, near, |p| {
            reached.get(usize::from(p)) == Some(&0)
        });
    }

    // The ranks of goal `g`, in their column among those of all goals; whether the goal has a core.
    fn find_core(&self, ranks: &mut [u16], g: u16) -> bool
        requires goal { g < (A.meaning self.now.arena.now).goals }
        requires long { length ranks.old ≡ (A.meaning self.now.arena.now).goals * (A.meaning self.now.arena.now).size }
        ensures answer { result ≡ any (core (A.meaning self.now.arena.now) (present self.now.taken.now) g) (upto (A.meaning self.now.arena.now).size) }
        ensures ranks { GoalRanks (A.meaning self.now.arena.now) (present self.now.taken.now) g ranks.new }
        ensures others { (k : ℕ) → k < g * (A.meaning self.now.arena.now).size → slice_index ranks.new k ≡ slice_index ranks.old k }
    {
        let n = self.taken.len();
        let at = usize::from(g) * n;
        let column = &mut ranks[at..at + n];
        self.reach(column, g);
        misses(self.taken, column)
    }

    // The lowest goal with a core; the columns of the goals that were asked have their ranks.
    fn missed_goal(&self, ranks: &mut [u16]) -> Option<u16>
        requires { length ranks.old ≡ (A.meaning self.now.arena.now).goals * (A.meaning self.now.arena.now).size }
        ensures answer { result ≡ missed (A.meaning self.now.arena.now) (present self.now.taken.now) }
        ensures ranks { (g : ℕ) → g < (A.meaning self.now.arena.now).goals → Asked result g → GoalRanks (A.meaning self.now.arena.now) (present self.now.taken.now) g ranks.new }
    {
        for g in 0..self.arena.goals() {
            if self.find_core(ranks, g) {
                return Some(g);
            }
        }
        None
    }
}

// Gives a value, by the rank, to each position with a rank in a column that stands beside; the others keep theirs.
fn give<F: Fn(u16) -> u16>(column: &mut [u16], near: &[u16], value: F)
    requires lengths { length near.now ≡ length column.old }
    requires callable { F.IsAlwaysCallable value }
    ensures given { (k : ℕ) → k < length column.new → 0 < slice_index near.now k → F.post value (slice_index near.now k - 1) (slice_index column.new k) }
    ensures kept { (k : ℕ) → k < length column.new → slice_index near.now k ≡ 0 → slice_index column.new k ≡ slice_index column.old k }
{
    for (p, x) in column.iter_mut().enumerate() {
        if let Some(rank) = near[p].checked_sub(1) {
            *x = value(rank);
        }
    }
}

// All stages: how many there are. What the traffic attracts to a core goes to the traffic, with the stage, the goal that has
// the core, and the rank as approach.
pub(crate) fn run_stages<A: Arena>(
    a: &A,
    taken: &mut [u16],
    goals: &mut [u16],
    approaches: &mut [u16],
    near: &mut [u16],
    ranks: &mut [u16],
) -> u16
    requires small { (A.meaning a.now).size ≤ 4096 }
    requires taken { length taken.old ≡ (A.meaning a.now).size }
    requires goals { length goals.old ≡ (A.meaning a.now).size }
    requires approaches { length approaches.old ≡ (A.meaning a.now).size }
    requires near { length near.old ≡ (A.meaning a.now).size }
    requires ranks { length ranks.old ≡ (A.meaning a.now).goals * (A.meaning a.now).size }
    ensures count { result ≡ stages (A.meaning a.now) }
    ensures standing { Standing (A.meaning a.now) (stages (A.meaning a.now)) taken.new goals.new approaches.new }
    ensures ranks { (g : ℕ) → g < (A.meaning a.now).goals → GoalRanks (A.meaning a.now) (final (A.meaning a.now)) g ranks.new }
{
    let n = taken.len();
    taken.fill(0);
    let mut s = 0;
    'stages: loop {
        let present = Present { arena: a, taken };
        let Some(g) = present.missed_goal(ranks) else {
            return s;
        };
        s += 1;
        let at = usize::from(g) * n;
        present.draw(&ranks[at..at + n], near);
        give(approaches, near, |rank| rank);
        give(goals, near, |_| g);
        give(taken, near, |_| s);
    }
}
