ghost use Rattle.std.specs.Prelude.{◌≡◌, ℕ, ◌<◌, false, ◌&&◌, not, length, ◌==◌, count_by, slice_index};
ghost use Rattle.solver.specs.Deciding.{steps_well};
ghost use Rattle.solver.specs.Memory.{Settled};
ghost use Rattle.solver.specs.Solution.{controlled, final, goal_move, goal_rank, good_step, nearer, traffic_move};

use super::attract::is_present;
use super::decide::decide;
use arena::{Arena, Owner};

// What the columns hold after all stages: all that decisions are read off.
#[derive(Drop)]
pub(crate) struct Settled<'a, A: Arena> {
    pub(crate) arena: &'a A,
    pub(crate) taken: &'a [u16],
    pub(crate) goals: &'a [u16],
    pub(crate) approaches: &'a [u16],
    pub(crate) ranks: &'a [u16],
    ghost settled: { Settled (A.meaning arena.now) taken.now goals.now approaches.now ranks.now },
}

impl<A: Arena> Settled<'_, A> {
    // How many positions are the controller's.
    pub(crate) fn count(&self) -> u16
        ensures { result ≡ controlled (A.meaning self.now.arena.now) }
    {
        self.taken.iter().filter(|stage| **stage == 0).count() as u16
    }

    // Whether position `p` is the controller's.
    pub(crate) fn is_kept(&self, p: u16) -> bool
        ensures { result ≡ final (A.meaning self.now.arena.now) p }
    {
        is_present(self.taken, p)
    }

    // The rank of position `p` for goal `g`.
    pub(crate) fn rank(&self, g: u16, p: u16) -> u16
        requires goal { g < (A.meaning self.now.arena.now).goals }
        requires inside { p < (A.meaning self.now.arena.now).size }
        ensures { result ≡ goal_rank (A.meaning self.now.arena.now) g p }
    {
        let at = usize::from(g) * self.taken.len() + usize::from(p);
        self.ranks[at].saturating_sub(1)
    }

    // Whether the step from `p` to `q` keeps to the controller's part and comes nearer to goal `g`.
    fn is_nearer(&self, g: u16, p: u16, q: u16) -> bool
        requires goal { g < (A.meaning self.now.arena.now).goals }
        requires here { p < (A.meaning self.now.arena.now).size }
        requires there { q < (A.meaning self.now.arena.now).size }
        ensures { result ≡ nearer (A.meaning self.now.arena.now) g p q }
    {
        let here = self.rank(g, p);
        self.is_kept(q) && (here == 0 || self.rank(g, q) < here)
    }

    // Whether the step from `p` to `q` keeps to the traffic's part and is a good one for it.
    fn is_good_step(&self, p: u16, q: u16) -> bool
        requires here { p < (A.meaning self.now.arena.now).size }
        requires there { q < (A.meaning self.now.arena.now).size }
        ensures step { result ≡ (not (final (A.meaning self.now.arena.now) p) && good_step (A.meaning self.now.arena.now) p q) }
        ensures columns { final (A.meaning self.now.arena.now) p ≡ false → final (A.meaning self.now.arena.now) q ≡ false → result ≡ steps_well self.now.taken.now self.now.goals.now self.now.approaches.now p q }
    {
        if self.is_kept(p) || self.is_kept(q) {
            return false;
        }
        let p = usize::from(p);
        let q = usize::from(q);
        let here = self.approaches[p];
        let there = self.approaches[q];
        self.taken[q] < self.taken[p]
            || (self.taken[q] == self.taken[p]
                && self.goals[q] == self.goals[p]
                && (there < here || (here == 0 && there == 0)))
    }

    // The traffic's moves, at its own positions.
    pub(crate) fn decide_traffic(&self, steps: &mut [u16])
        requires { length steps.old ≡ (A.meaning self.now.arena.now).size }
        ensures { (p : ℕ) → p < (A.meaning self.now.arena.now).size → final (A.meaning self.now.arena.now) p ≡ false → slice_index steps.new p ≡ traffic_move (A.meaning self.now.arena.now) p }
    {
        decide(
            self.arena,
            Owner::Traffic,
            steps,
            |p, q| self.is_good_step(p, q),
        );
    }

    // The controller's moves for goal `g`.
    pub(crate) fn decide_goal(&self, g: u16, choices: &mut [u16])
        requires goal { g < (A.meaning self.now.arena.now).goals }
        requires long { length choices.old ≡ (A.meaning self.now.arena.now).size }
        ensures { (p : ℕ) → p < (A.meaning self.now.arena.now).size → slice_index choices.new p ≡ goal_move (A.meaning self.now.arena.now) g p }
    {
        decide(self.arena, Owner::Controller, choices, |p, q| {
            self.is_nearer(g, p, q)
        });
    }
}
