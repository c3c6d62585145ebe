#![tactic(auto)]

ghost use Rattle.std.specs.Prelude.{◌≡◌, ℕ};
ghost use Rattle.arena.specs.Arena.{
  Lawful,
  Meaning,
  count_answer,
  marked_answer,
  move_answer,
  owner_answer,
};
ghost use Rattle.arena.specs.Play.{StrategiesAgree};

mod bytes;
mod certificate;
mod moves;
mod owner;
mod refusal;
mod sizes;

pub use bytes::{byte_at, end, head, is_marked_by, number_at};
pub use certificate::{Certificate, NO_MOVE, certificate_bytes, record_bytes, record_start};
pub use moves::{Moves, moves_of};
pub use owner::{NoOwner, Owner};
pub use refusal::{Named, Refusal};
pub use sizes::{SizeFault, sized};

/// An arena: positions that belong to the controller (0) or the traffic (1), moves between them, and goals that positions
/// are marked for. All count from 0, and a move is named by the position that it leads to.
///
/// What an arena is stands in its ghost meaning, from which all six answers come; that the meaning has the laws of an
/// arena is a ghost member too, a proof that each implementation gives. No question alters the arena.
pub trait Arena {
    ghost meaning: { Self → Meaning };

    ghost lawful: { (a : Self) → Lawful (meaning a) };

    /// The number of positions.
    fn positions(&self) -> u16
        ensures { result ≡ (meaning self.now).size };

    /// The number of goals.
    fn goals(&self) -> u16
        ensures { result ≡ (meaning self.now).goals };

    /// The owner of position `p`; absent where there is no such position.
    fn owner(&self, p: u16) -> Option<u16>
        ensures { result ≡ owner_answer (meaning self.now) p };

    /// Whether position `p` is marked for goal `g`; absent where there is no such position or goal.
    fn marked(&self, p: u16, g: u16) -> Option<bool>
        ensures { result ≡ marked_answer (meaning self.now) p g };

    /// How many moves position `p` has; absent where there is no such position.
    fn move_count(&self, p: u16) -> Option<u16>
        ensures { result ≡ count_answer (meaning self.now) p };

    /// The `j`-th move of position `p`, in rising order; absent where there is no such position or move.
    fn nth_move(&self, p: u16, j: u16) -> Option<u16>
        ensures { result ≡ move_answer (meaning self.now) p j };
}

/// The law that ties the two usual readings of a winning strategy: to win every play that obeys it is to win against
/// every strategy of the opponent. The contract is the law.
pub fn strategies_agree()
    ensures { StrategiesAgree }
{}
