ghost use Rattle.std.specs.Prelude.{◌≡◌, ℕ, ◌+◌, ◌*◌, ◌<◌, false, length, slice_index};
ghost use Rattle.arena.specs.Certificate.{certificate_bytes, record_bytes};
ghost use Rattle.arena.specs.Sets.{concat, upto};
ghost use Rattle.solver.specs.Certificate.{certificate, entry};
ghost use Rattle.solver.specs.Solution.{final, goal_move, traffic_move};
ghost use Rattle.solver.specs.Writing.{Field, Rows, front_bytes, goal_bytes};

use super::settled::Settled;
use arena::{Arena, end, head, record_bytes};

// What stands in a record before the goals.
fn front(side: u8, goal: u8, stage: u16, approach: u16, step: u16) -> [u8; 10]
    ensures { result ≡ front_bytes side goal stage approach step }
{
    let stage = stage.to_be_bytes();
    let approach = approach.to_be_bytes();
    let step = step.to_be_bytes();
    [
        0x43,
        0x50,
        side,
        goal,
        stage[0],
        stage[1],
        approach[0],
        approach[1],
        step[0],
        step[1],
    ]
}

// What stands in a record for a goal.
fn goal(rank: u16, step: u16) -> [u8; 4]
    ensures { result ≡ goal_bytes rank step }
{
    let rank = rank.to_be_bytes();
    let step = step.to_be_bytes();
    [rank[0], rank[1], step[0], step[1]]
}

impl<A: Arena> Settled<'_, A> {
    // The front of the record of position `p`, from which the traffic takes the step.
    fn front(&self, p: u16, step: u16) -> [u8; 10]
        requires inside { p < (A.meaning self.now.arena.now).size }
        requires told { final (A.meaning self.now.arena.now) p ≡ false → step ≡ traffic_move (A.meaning self.now.arena.now) p }
        ensures { Field (A.meaning self.now.arena.now) p 0 10 result }
    {
        if self.is_kept(p) {
            return front(0, 0, 0, 0, 0);
        }
        let p = usize::from(p);
        let goal = self.goals[p] as u8;
        front(1, goal, self.taken[p], self.approaches[p], step)
    }

    // Goal `g` in the record of position `p`, from which the controller takes the step.
    fn goal(&self, g: u16, p: u16, step: u16) -> [u8; 4]
        requires goal { g < (A.meaning self.now.arena.now).goals }
        requires inside { p < (A.meaning self.now.arena.now).size }
        requires told { step ≡ goal_move (A.meaning self.now.arena.now) g p }
        ensures { Field (A.meaning self.now.arena.now) p (10 + 4 * g) 4 result }
    {
        if self.is_kept(p) {
            goal(self.rank(g, p), step)
        } else {
            goal(0, 0)
        }
    }

    // The fronts of all records, one record after another.
    fn write_fronts(&self, steps: &[u16], records: &mut [u8])
        requires steps { length steps.now ≡ (A.meaning self.now.arena.now).size }
        requires moves { (p : ℕ) → p < (A.meaning self.now.arena.now).size → final (A.meaning self.now.arena.now) p ≡ false → slice_index steps.now p ≡ traffic_move (A.meaning self.now.arena.now) p }
        requires records { length records.old ≡ (A.meaning self.now.arena.now).size * record_bytes (A.meaning self.now.arena.now) }
        ensures { Rows (A.meaning self.now.arena.now) 10 records.new }
    {
        let width = record_bytes(self.arena);
        for p in 0..self.arena.positions() {
            let at = usize::from(p) * width;
            let front = self.front(p, steps[usize::from(p)]);
            records[at..at + 10].copy_from_slice(&front);
        }
    }

    // Goal `g` in all records, where those before it are written.
    fn write_goal(&self, g: u16, choices: &[u16], records: &mut [u8])
        requires goal { g < (A.meaning self.now.arena.now).goals }
        requires choices { length choices.now ≡ (A.meaning self.now.arena.now).size }
        requires moves { (p : ℕ) → p < (A.meaning self.now.arena.now).size → slice_index choices.now p ≡ goal_move (A.meaning self.now.arena.now) g p }
        requires records { length records.old ≡ (A.meaning self.now.arena.now).size * record_bytes (A.meaning self.now.arena.now) }
        requires before { Rows (A.meaning self.now.arena.now) (10 + 4 * g) records.old }
        ensures { Rows (A.meaning self.now.arena.now) (10 + 4 * (g + 1)) records.new }
    {
        let width = record_bytes(self.arena);
        let off = 10 + 4 * usize::from(g);
        for p in 0..self.arena.positions() {
            let at = usize::from(p) * width + off;
            let goal = self.goal(g, p, choices[usize::from(p)]);
            records[at..at + 4].copy_from_slice(&goal);
        }
    }

    // All records.
    fn write_records(&self, steps: &mut [u16], choices: &mut [u16], records: &mut [u8])
        requires steps { length steps.old ≡ (A.meaning self.now.arena.now).size }
        requires choices { length choices.old ≡ (A.meaning self.now.arena.now).size }
        requires records { length records.old ≡ (A.meaning self.now.arena.now).size * record_bytes (A.meaning self.now.arena.now) }
        ensures { records.new ≡ concat (entry (A.meaning self.now.arena.now)) (upto (A.meaning self.now.arena.now).size) }
    {
        self.decide_traffic(steps);
        self.write_fronts(steps, records);
        for g in 0..self.arena.goals() {
            self.decide_goal(g, choices);
            self.write_goal(g, choices, records);
        }
    }

    // The certificate, in bytes of its length.
    pub(crate) fn write(&self, steps: &mut [u16], choices: &mut [u16], out: &mut [u8])
        requires steps { length steps.old ≡ (A.meaning self.now.arena.now).size }
        requires choices { length choices.old ≡ (A.meaning self.now.arena.now).size }
        requires out { length out.old ≡ certificate_bytes (A.meaning self.now.arena.now) }
        ensures { out.new ≡ certificate (A.meaning self.now.arena.now) }
    {
        let n = self.arena.positions();
        let (front, rest) = out.split_at_mut(6);
        let (records, back) = rest.split_at_mut(usize::from(n) * record_bytes(self.arena));
        front.copy_from_slice(&head([0x43, 0x48], n, self.arena.goals()));
        self.write_records(steps, choices, records);
        back.copy_from_slice(&end([0x43, 0x45], n));
    }
}
