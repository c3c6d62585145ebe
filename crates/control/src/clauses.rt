ghost use Rattle.std.specs.Prelude.{◌≡◌, ℕ, ◌<◌, true, option_map};
ghost use Rattle.arena.specs.Sets.{all};
ghost use Rattle.control.specs.Accept.{
  avoided,
  carried,
  carried_for,
  clause_4,
  clause_5,
  clause_6,
  clause_7,
  clause_8,
  clause_9,
  clauses,
  first_failing,
  good_step_of,
  held,
  kept,
  nearer_of,
  ranked,
  ranked_for,
  shaped,
  steered,
  steered_for,
  unheld,
  unserved,
};
ghost use Rattle.control.specs.Clauses.{clause_number};

use super::record::{Record, has_move};
use arena::{Arena, NO_MOVE, Owner, is_marked_by, record_start};

/// The clauses of a certificate, in the order in which check asks them.
#[derive(Clone, Copy, Debug, PartialEq, Eq)]
pub enum Clause {
    /// The head is right for the arena.
    Head,
    /// The end is right.
    End,
    /// The record has its mark, a side, and zeros where they are due; on side 1 a stage from 1 on and a goal of the arena.
    Shape,
    /// On side 0 each rank is below the number of positions, and is 0 exactly where the position is marked for the goal.
    Ranks,
    /// On side 0 the controller's move for each goal comes nearer to it.
    Steered,
    /// On side 0 every move of the traffic comes nearer to every goal.
    Carried,
    /// On side 1 a position of approach 0 is unmarked for its goal.
    Avoided,
    /// On side 1 the traffic's move is a good step.
    Held,
    /// On side 1 every move of the controller is a good step.
    Kept,
}

impl From<Clause> for u8 {
    ghost from_gives = { λ clause number. number ≡ clause_number clause };

    fn from(clause: Clause) -> u8 {
        match clause {
            Clause::Head => 1,
            Clause::End => 2,
            Clause::Shape => 3,
            Clause::Ranks => 4,
            Clause::Steered => 5,
            Clause::Carried => 6,
            Clause::Avoided => 7,
            Clause::Held => 8,
            Clause::Kept => 9,
        }
    }
}

impl<A: Arena> Record<'_, A> {
    /// Whether the goal, stage, approach and the traffic's move are zero, as side 0 has them.
    fn is_unheld(&self) -> bool
        ensures { result ≡ unheld (A.meaning self.now.certificate.now.arena.now) self.now.certificate.now.bytes.now self.now.position }
    {
        let c = self.certificate;
        let p = self.position;
        c.goal_of(p) == 0 && c.stage_of(p) == 0 && c.approach_of(p) == 0 && c.move_of(p) == 0
    }

    /// Whether the rank and the move of every goal are zero, as side 1 has them.
    fn is_unserved(&self) -> bool
        ensures { result ≡ unserved (A.meaning self.now.certificate.now.arena.now) self.now.certificate.now.bytes.now self.now.position }
    {
        let c = self.certificate;
        let p = self.position;
        (0..c.arena.goals()).all(|g| c.rank_of(g, p) == 0 && c.goal_move_of(g, p) == 0)
    }

    /// Clause 3: the mark, a side, the fields due to be zero, and on side 1 a stage from 1 on and a goal of the arena.
    fn is_shaped(&self) -> bool
        ensures { result ≡ shaped (A.meaning self.now.certificate.now.arena.now) self.now.certificate.now.bytes.now self.now.position }
    {
        let c = self.certificate;
        let p = self.position;
        if !is_marked_by(c.bytes, record_start(c.arena, p), [0x43, 0x50]) {
            return false;
        }
        if c.side_of(p) == 0 {
            return self.is_unheld();
        }
        c.side_of(p) == 1
            && c.stage_of(p) > 0
            && u16::from(c.goal_of(p)) < c.arena.goals()
            && self.is_unserved()
    }

    /// Whether the rank for goal `g` is below the number of positions, and is 0 exactly when the position is marked for it.
    fn is_ranked_for(&self, g: u16) -> bool
        requires { g < (A.meaning self.now.certificate.now.arena.now).goals }
        ensures { result ≡ ranked_for (A.meaning self.now.certificate.now.arena.now) self.now.certificate.now.bytes.now self.now.position g }
    {
        let rank = self.certificate.rank_of(g, self.position);
        rank < self.certificate.arena.positions() && (rank == 0) == self.is_marked(g)
    }

    /// Whether each rank is below the number of positions, and is 0 exactly when the position is marked for the goal.
    fn is_ranked(&self) -> bool
        ensures { result ≡ ranked (A.meaning self.now.certificate.now.arena.now) self.now.certificate.now.bytes.now self.now.position }
    {
        (0..self.certificate.arena.goals()).all(|g| self.is_ranked_for(g))
    }

    /// Whether for each goal the field is a move that comes nearer to it.
    fn is_steered(&self) -> bool
        ensures { result ≡ steered (A.meaning self.now.certificate.now.arena.now) self.now.certificate.now.bytes.now self.now.position }
    {
        (0..self.certificate.arena.goals()).all(|g| self.is_steered_for(g))
    }

    /// Whether the field of goal `g` is a move that comes nearer to it.
    fn is_steered_for(&self, g: u16) -> bool
        ensures { result ≡ steered_for (A.meaning self.now.certificate.now.arena.now) self.now.certificate.now.bytes.now self.now.position g }
    {
        let q = self.certificate.goal_move_of(g, self.position);
        has_move(self.certificate.arena, self.position, q) && self.is_nearer(g, q)
    }

    /// Whether every move comes nearer to goal `g`.
    fn do_all_come_nearer(&self, g: u16) -> bool
        ensures { result ≡ all (nearer_of (A.meaning self.now.certificate.now.arena.now) self.now.certificate.now.bytes.now g self.now.position) ((A.meaning self.now.certificate.now.arena.now).moves self.now.position) }
    {
        self.moves().all(|q| self.is_nearer(g, q))
    }

    /// Whether the field of goal `g` names no move, and every move comes nearer to the goal.
    fn is_carried_for(&self, g: u16) -> bool
        ensures { result ≡ carried_for (A.meaning self.now.certificate.now.arena.now) self.now.certificate.now.bytes.now self.now.position g }
    {
        self.certificate.goal_move_of(g, self.position) == NO_MOVE && self.do_all_come_nearer(g)
    }

    /// Whether the fields name no move, and every move comes nearer to every goal.
    fn is_carried(&self) -> bool
        ensures { result ≡ carried (A.meaning self.now.certificate.now.arena.now) self.now.certificate.now.bytes.now self.now.position }
    {
        (0..self.certificate.arena.goals()).all(|g| self.is_carried_for(g))
    }

    /// Whether the traffic's field is a move and a good step.
    fn is_held(&self) -> bool
        ensures { result ≡ held (A.meaning self.now.certificate.now.arena.now) self.now.certificate.now.bytes.now self.now.position }
    {
        let q = self.certificate.move_of(self.position);
        has_move(self.certificate.arena, self.position, q) && self.is_good_step(q)
    }

    /// Whether every move is a good step.
    fn are_all_good_steps(&self) -> bool
        ensures { result ≡ all (good_step_of (A.meaning self.now.certificate.now.arena.now) self.now.certificate.now.bytes.now self.now.position) ((A.meaning self.now.certificate.now.arena.now).moves self.now.position) }
    {
        self.moves().all(|q| self.is_good_step(q))
    }

    /// Whether the traffic's field names no move, and every move is a good step.
    fn is_kept(&self) -> bool
        ensures { result ≡ kept (A.meaning self.now.certificate.now.arena.now) self.now.certificate.now.bytes.now self.now.position }
    {
        self.certificate.move_of(self.position) == NO_MOVE && self.are_all_good_steps()
    }

    /// Clause 4, asked on side 0.
    fn meets_ranks(&self) -> bool
        ensures { result ≡ clause_4 (A.meaning self.now.certificate.now.arena.now) self.now.certificate.now.bytes.now self.now.position }
    {
        self.certificate.side_of(self.position) != 0 || self.is_ranked()
    }

    /// Clause 5, asked on side 0 where the controller owns.
    fn meets_steering(&self) -> bool
        ensures { result ≡ clause_5 (A.meaning self.now.certificate.now.arena.now) self.now.certificate.now.bytes.now self.now.position }
    {
        let asked = self.certificate.side_of(self.position) == 0
            && self.is_owned(Owner::Controller);
        !asked || self.is_steered()
    }

    /// Clause 6, asked on side 0 where the traffic owns.
    fn meets_carrying(&self) -> bool
        ensures { result ≡ clause_6 (A.meaning self.now.certificate.now.arena.now) self.now.certificate.now.bytes.now self.now.position }
    {
        let asked = self.certificate.side_of(self.position) == 0 && self.is_owned(Owner::Traffic);
        !asked || self.is_carried()
    }

    /// Clause 7, asked on side 1 at approach 0. The record has passed clause 3.
    fn meets_avoidance(&self) -> bool
        requires { shaped (A.meaning self.now.certificate.now.arena.now) self.now.certificate.now.bytes.now self.now.position ≡ true }
        ensures { result ≡ clause_7 (A.meaning self.now.certificate.now.arena.now) self.now.certificate.now.bytes.now self.now.position }
    {
        let c = self.certificate;
        let p = self.position;
        if c.side_of(p) != 1 {
            return true;
        }
        c.approach_of(p) != 0 || !self.is_marked(c.goal_of(p).into())
    }

    /// Clause 8, asked on side 1 where the traffic owns.
    fn meets_holding(&self) -> bool
        ensures { result ≡ clause_8 (A.meaning self.now.certificate.now.arena.now) self.now.certificate.now.bytes.now self.now.position }
    {
        let asked = self.certificate.side_of(self.position) == 1 && self.is_owned(Owner::Traffic);
        !asked || self.is_held()
    }

    /// Clause 9, asked on side 1 where the controller owns.
    fn meets_keeping(&self) -> bool
        ensures { result ≡ clause_9 (A.meaning self.now.certificate.now.arena.now) self.now.certificate.now.bytes.now self.now.position }
    {
        let asked = self.certificate.side_of(self.position) == 1
            && self.is_owned(Owner::Controller);
        !asked || self.is_kept()
    }

    /// The first clause from the third on that fails.
    pub(crate) fn first_failing(&self) -> Option<Clause>
        ensures { option_map clause_number result ≡ first_failing 3 (clauses (A.meaning self.now.certificate.now.arena.now) self.now.certificate.now.bytes.now self.now.position) }
    {
        if !self.is_shaped() {
            return Some(Clause::Shape);
        }
        if !self.meets_ranks() {
            return Some(Clause::Ranks);
        }
        if !self.meets_steering() {
            return Some(Clause::Steered);
        }
        if !self.meets_carrying() {
            return Some(Clause::Carried);
        }
        if !self.meets_avoidance() {
            return Some(Clause::Avoided);
        }
        if !self.meets_holding() {
            return Some(Clause::Held);
        }
        if !self.meets_keeping() {
            return Some(Clause::Kept);
        }
        None
    }
}
