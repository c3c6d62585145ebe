ghost use Rattle.std.specs.Prelude.{◌≡◌, ℕ, ◌<◌, ◌==◌, drop};
ghost use Rattle.arena.specs.Arena.{moves_answer};
ghost use Rattle.arena.specs.Owners.{owner_number};
ghost use Rattle.arena.specs.Sets.{elem};
ghost use Rattle.control.specs.Accept.{good_step_of, nearer_of};

use arena::{Arena, Certificate, Moves, Owner, moves_of};

/// The record of a position of the arena, in bytes that are read as a certificate.
#[derive(Drop)]
pub(crate) struct Record<'a, A: Arena> {
    pub certificate: &'a Certificate<'a, A>,
    pub position: u16,
    ghost inside: { position < (A.meaning certificate.now.arena.now).size },
}

/// Whether `q` is one of the moves of position `p`.
pub(crate) fn has_move<A: Arena>(arena: &A, p: u16, q: u16) -> bool
    requires { p < (A.meaning arena.now).size }
    ensures { result ≡ elem q ((A.meaning arena.now).moves p) }
{
    moves_of(arena, p).any(|x| x == q)
}

impl<A: Arena> Record<'_, A> {
    /// Whether the position belongs to an owner.
    pub(crate) fn is_owned(&self, owner: Owner) -> bool
        ensures { result ≡ ((A.meaning self.now.certificate.now.arena.now).owner self.now.position == owner_number owner) }
    {
        self.certificate.arena.owner(self.position) == Some(owner.into())
    }

    /// Whether the position is marked for goal `g`.
    pub(crate) fn is_marked(&self, g: u16) -> bool
        requires { g < (A.meaning self.now.certificate.now.arena.now).goals }
        ensures { result ≡ (A.meaning self.now.certificate.now.arena.now).marked self.now.position g }
    {
        self.certificate
            .arena
            .marked(self.position, g)
            .unwrap_or(false)
    }

    /// The moves of the position.
    pub(crate) fn moves(&self) -> Moves<'_, A>
        ensures { drop result.next (moves_answer (A.meaning result.arena.now) result.position) ≡ (A.meaning self.now.certificate.now.arena.now).moves self.now.position }
    {
        moves_of(self.certificate.arena, self.position)
    }

    /// Whether the step to `q` leads to side 0 and, if the rank for goal `g` is above 0, to a smaller rank.
    pub(crate) fn is_nearer(&self, g: u16, q: u16) -> bool
        ensures { result ≡ nearer_of (A.meaning self.now.certificate.now.arena.now) self.now.certificate.now.bytes.now g self.now.position q }
    {
        let rank = self.certificate.rank_of(g, self.position);
        self.certificate.side_of(q) == 0 && (rank == 0 || self.certificate.rank_of(g, q) < rank)
    }

    /// Whether the step to `q` is a good one for the traffic: to side 1, and either to a smaller stage, or to the same
    /// stage and goal with a smaller approach, or there from approach 0 to approach 0.
    pub(crate) fn is_good_step(&self, q: u16) -> bool
        ensures { result ≡ good_step_of (A.meaning self.now.certificate.now.arena.now) self.now.certificate.now.bytes.now self.now.position q }
    {
        let c = self.certificate;
        let p = self.position;
        // Each field is read once: this is asked of every move of the plant.
        c.side_of(q) == 1
            && {
                let old = c.stage_of(p);
                let new = c.stage_of(q);
                new < old
                    || (new == old
                        && c.goal_of(q) == c.goal_of(p)
                        && {
                            let far = c.approach_of(p);
                            let near = c.approach_of(q);
                            near < far || (far == 0 && near == 0)
                        })
            }
    }
}
