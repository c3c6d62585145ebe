ghost use Rattle.std.specs.Prelude.{Some};
ghost use Rattle.arena.specs.Sets.{concat, upto};
ghost use Rattle.report.specs.Plan.{decision_text, goal_text, move_text, traffic_text};

use arena::{Arena, Certificate, NO_MOVE};
use std::fmt;

/// A move as it is printed, the sign `-` for none.
#[derive(Clone, Copy)]
struct Step(u16);

impl fmt::Display for Step {
    ghost output = { λ s. Some (move_text s.0) };

    fn fmt<W: fmt::Write>(&self, f: &mut fmt::Formatter<W>) -> fmt::Result {
        match self.0 {
            NO_MOVE => write!(f, "-"),
            q => write!(f, "{q}"),
        }
    }
}

/// The controller's decisions at a position, for each goal a rank and a move.
#[derive(Drop)]
struct Choices<'a, A> {
    certificate: &'a Certificate<'a, A>,
    position: u16,
}

impl<A: Arena> fmt::Display for Choices<'_, A> {
    ghost output = { λ d. Some (concat (goal_text (A.meaning d.certificate.now.arena.now) d.certificate.now.bytes.now d.position) (upto (A.meaning d.certificate.now.arena.now).goals)) };

    fn fmt<W: fmt::Write>(&self, f: &mut fmt::Formatter<W>) -> fmt::Result {
        for g in 0..self.certificate.arena.goals() {
            let rank = self.certificate.rank_of(g, self.position);
            let step = Step(self.certificate.goal_move_of(g, self.position));
            write!(f, " {rank}:{step}")?;
        }
        Ok(())
    }
}

/// The traffic's decision at a position: goal, stage, approach and move.
#[derive(Drop)]
struct Hold<'a, A> {
    certificate: &'a Certificate<'a, A>,
    position: u16,
}

impl<A: Arena> fmt::Display for Hold<'_, A> {
    ghost output = { λ d. Some (traffic_text (A.meaning d.certificate.now.arena.now) d.certificate.now.bytes.now d.position) };

    fn fmt<W: fmt::Write>(&self, f: &mut fmt::Formatter<W>) -> fmt::Result {
        let goal = self.certificate.goal_of(self.position);
        let stage = self.certificate.stage_of(self.position);
        let approach = self.certificate.approach_of(self.position);
        let step = Step(self.certificate.move_of(self.position));
        write!(f, " T {goal} {stage} {approach} {step}")
    }
}

/// What a certificate decides at a position, as a line.
#[derive(Drop)]
pub(crate) struct Decision<'a, A> {
    pub certificate: &'a Certificate<'a, A>,
    pub position: u16,
}

impl<A: Arena> fmt::Display for Decision<'_, A> {
    ghost output = { λ d. Some (decision_text (A.meaning d.certificate.now.arena.now) d.certificate.now.bytes.now d.position) };

    fn fmt<W: fmt::Write>(&self, f: &mut fmt::Formatter<W>) -> fmt::Result {
        let certificate = self.certificate;
        let position = self.position;
        if certificate.side_of(position) == 0 {
            let choices = Choices {
                certificate,
                position,
            };
            write!(f, "{position} C{choices}\n")
        } else {
            let hold = Hold {
                certificate,
                position,
            };
            write!(f, "{position}{hold}\n")
        }
    }
}
