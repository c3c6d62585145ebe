ghost use Rattle.std.specs.Prelude.{◌≡◌, ℕ, ◌+◌, ◌^◌, ◌<◌};
ghost use Rattle.arena.specs.Bytes.{byte, number};
ghost use Rattle.arena.specs.Certificate.{
  approach_of,
  certificate_bytes,
  goal_move_of,
  goal_of,
  move_of,
  rank_of,
  record_bytes,
  record_start,
  side_of,
  stage_of,
};

use super::Arena;
use super::bytes::{byte_at, number_at};

/// What stands in a field for no move.
pub const NO_MOVE: u16 = 65535;

/// The length of a record.
pub fn record_bytes<A: Arena>(arena: &A) -> usize
    ensures length { result ≡ record_bytes (A.meaning arena.now) }
    ensures small { result < 2 ^ 20 }
{
    10 + 4 * arena.goals() as usize
}

/// The length of a certificate of the arena.
pub fn certificate_bytes<A: Arena>(arena: &A) -> usize
    ensures { result ≡ certificate_bytes (A.meaning arena.now) }
{
    arena.positions() as usize * record_bytes(arena) + 10
}

/// Where the record of position `p` begins; after the last record, where the end of the certificate does.
pub fn record_start<A: Arena>(arena: &A, p: u16) -> usize
    ensures place { result ≡ record_start (A.meaning arena.now) p }
    ensures small { result < 2 ^ 40 }
{
    6 + p as usize * record_bytes(arena)
}

/// Bytes that are read as a certificate of an arena. Any bytes can be: whether they are one is for check to say.
#[derive(Clone, Copy)]
pub struct Certificate<'a, A> {
    pub arena: &'a A,
    pub bytes: &'a [u8],
}

impl<A: Arena> Certificate<'_, A> {
    /// The byte at an offset in the record of position `p`.
    fn byte(&self, p: u16, offset: usize) -> u8
        requires { offset < 2 ^ 40 }
        ensures { result ≡ byte self.now.bytes.now (record_start (A.meaning self.now.arena.now) p + offset) }
    {
        byte_at(self.bytes, record_start(self.arena, p) + offset)
    }

    /// The two-byte number at an offset in the record of position `p`.
    fn number(&self, p: u16, offset: usize) -> u16
        requires { offset < 2 ^ 40 }
        ensures { result ≡ number self.now.bytes.now (record_start (A.meaning self.now.arena.now) p + offset) }
    {
        number_at(self.bytes, record_start(self.arena, p) + offset)
    }

    /// The side that position `p` is given to.
    pub fn side_of(&self, p: u16) -> u8
        ensures { result ≡ side_of (A.meaning self.now.arena.now) self.now.bytes.now p }
    {
        self.byte(p, 2)
    }

    /// The goal that the traffic keeps from being visited for ever.
    pub fn goal_of(&self, p: u16) -> u8
        ensures { result ≡ goal_of (A.meaning self.now.arena.now) self.now.bytes.now p }
    {
        self.byte(p, 3)
    }

    /// The stage that gave position `p` to the traffic.
    pub fn stage_of(&self, p: u16) -> u16
        ensures { result ≡ stage_of (A.meaning self.now.arena.now) self.now.bytes.now p }
    {
        self.number(p, 4)
    }

    /// The approach: how near the core is.
    pub fn approach_of(&self, p: u16) -> u16
        ensures { result ≡ approach_of (A.meaning self.now.arena.now) self.now.bytes.now p }
    {
        self.number(p, 6)
    }

    /// The traffic's move.
    pub fn move_of(&self, p: u16) -> u16
        ensures { result ≡ move_of (A.meaning self.now.arena.now) self.now.bytes.now p }
    {
        self.number(p, 8)
    }

    /// The rank for goal `g`: how near the goal is.
    pub fn rank_of(&self, g: u16, p: u16) -> u16
        ensures { result ≡ rank_of (A.meaning self.now.arena.now) self.now.bytes.now g p }
    {
        self.number(p, 10 + 4 * g as usize)
    }

    /// The controller's move for goal `g`.
    pub fn goal_move_of(&self, g: u16, p: u16) -> u16
        ensures { result ≡ goal_move_of (A.meaning self.now.arena.now) self.now.bytes.now g p }
    {
        self.number(p, 12 + 4 * g as usize)
    }
}
