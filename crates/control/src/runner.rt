ghost use Rattle.control.specs.declared.runner.RunFault.TheVariants.{Size};
ghost use Rattle.std.specs.Prelude.{◌≡◌, ℕ, ◌<◌, true};
ghost use Rattle.arena.specs.Told.{Same};
ghost use Rattle.control.specs.Calls.{Called, call_of, new_runner, place_of, reply, run_refusal, whose};
ghost use Rattle.control.specs.Run.{answer, go, moved, next_aim, start, turn};

use super::record::has_move;
use super::verdict::fits;
use arena::{Arena, Certificate, Owner, Refusal, SizeFault, sized};

/// What may be asked of a runner: to start at a position, to make the controller's move, or to follow the traffic's.
#[derive(Clone, Copy)]
pub enum Event {
    Start(u16),
    Go,
    Moved(u16),
}

/// Why a runner turns an event down.
#[derive(Clone, Copy, Debug, PartialEq, Eq)]
pub enum RunFault {
    /// The arena is too small or too large.
    Size(SizeFault),
    /// The bytes do not have the length of a certificate of the arena.
    Length,
    /// There is no such position to start at.
    Position,
    /// The certificate does not give the position to the controller.
    Side,
    /// The position that the traffic is said to have moved to is no move.
    Move,
    /// The runner is idle, or it is the other side's turn.
    NotNow,
    /// The certificate's field is no move.
    Field,
}

impl From<SizeFault> for RunFault {
    ghost from_gives = { λ e r. r ≡ Size e };

    fn from(size: SizeFault) -> RunFault {
        RunFault::Size(size)
    }
}

impl From<RunFault> for Refusal {
    ghost from_gives = { λ e r. Same r (run_refusal e) };

    fn from(e: RunFault) -> Refusal {
        match e {
            RunFault::Size(e) => e.into(),
            RunFault::Length => Refusal::bare(3),
            RunFault::Position => Refusal::bare(4),
            RunFault::Side => Refusal::bare(15),
            RunFault::Move => Refusal::bare(16),
            RunFault::NotNow => Refusal::bare(17),
            RunFault::Field => Refusal::bare(18),
        }
    }
}

/// A runner: it holds an arena, stands on a position, and serves one goal after another. The goal that it serves is its aim.
#[derive(Drop)]
pub struct Runner<A> {
    arena: A,
    // Three plain numbers, as a controller holds them: position and aim mean nothing while it is idle.
    position: u16,
    aim: u16,
    running: bool,
}

impl<A: Arena> Runner<A> {
    /// Whose turn it is. A place outside the arena is nobody's turn, as idle is.
    fn turn(&self) -> Option<Owner>
        ensures { result ≡ whose (A.meaning self.now.arena) (place_of self.now) }
    {
        if !self.running || self.aim >= self.arena.goals() {
            return None;
        }
        Owner::try_from(self.arena.owner(self.position)?).ok()
    }

    /// The aim once the position is left: if it is marked for it, the goal after it, and after the last the first.
    fn next_aim(&self) -> u16
        requires { (self.now.position < (A.meaning self.now.arena).size) × (self.now.aim < (A.meaning self.now.arena).goals) }
        ensures { result ≡ next_aim (A.meaning self.now.arena) self.now.position self.now.aim }
    {
        if self.arena.marked(self.position, self.aim) != Some(true) {
            return self.aim;
        }
        let goals = self.arena.goals();
        let next = self.aim + 1;
        if next == goals { 0 } else { next }
    }

    /// Bytes shown, as a certificate of the arena.
    fn shown<'b>(&'b self, certificate: &'b [u8]) -> Certificate<'b, A>
        ensures arena { result.arena.now ≡ self.now.arena }
        ensures bytes { result.bytes.now ≡ certificate.now }
    {
        Certificate {
            arena: &self.arena,
            bytes: certificate,
        }
    }

    /// What a start answers.
    fn begin(&self, certificate: &[u8], p: u16) -> Result<(u16, u16), RunFault>
        ensures { reply result ≡ answer (A.meaning self.now.arena) (place_of self.now) (start certificate.now p) }
    {
        sized(&self.arena)?;
        let shown = self.shown(certificate);
        if !fits(&shown) {
            return Err(RunFault::Length);
        }
        if p >= self.arena.positions() {
            return Err(RunFault::Position);
        }
        if shown.side_of(p) != 0 {
            return Err(RunFault::Side);
        }
        Ok((p, 0))
    }

    /// What a go answers at the controller's turn.
    fn make(&self, certificate: &[u8]) -> Result<(u16, u16), RunFault>
        requires { turn (A.meaning self.now.arena) 0 (place_of self.now) ≡ true }
        ensures { reply result ≡ answer (A.meaning self.now.arena) (place_of self.now) (go certificate.now) }
    {
        let shown = self.shown(certificate);
        if !fits(&shown) {
            return Err(RunFault::Length);
        }
        let to = shown.goal_move_of(self.aim, self.position);
        if !has_move(&self.arena, self.position, to) {
            return Err(RunFault::Field);
        }
        Ok((to, self.next_aim()))
    }

    /// What a move of the traffic to `q` answers at its turn.
    fn follow(&self, certificate: &[u8], q: u16) -> Result<(u16, u16), RunFault>
        requires { turn (A.meaning self.now.arena) 1 (place_of self.now) ≡ true }
        ensures { reply result ≡ answer (A.meaning self.now.arena) (place_of self.now) (moved certificate.now q) }
    {
        if !fits(&self.shown(certificate)) {
            return Err(RunFault::Length);
        }
        if !has_move(&self.arena, self.position, q) {
            return Err(RunFault::Move);
        }
        Ok((q, self.next_aim()))
    }

    /// One event with a certificate shown: the only place where a runner changes. An accepted event answers the new
    /// position and aim; a refused one leaves the runner as it was.
    pub fn on(&mut self, certificate: &[u8], event: Event) -> Result<(u16, u16), RunFault>
        ensures { Called (A.meaning self.old.arena) self.old (call_of certificate.now event) result self.new }
    {
        let (position, aim) = match (self.turn(), event) {
            (_, Event::Start(p)) => self.begin(certificate, p)?,
            (Some(Owner::Controller), Event::Go) => self.make(certificate)?,
            (Some(Owner::Traffic), Event::Moved(q)) => self.follow(certificate, q)?,
            (None, Event::Go) => return Err(RunFault::NotNow),
            (None, Event::Moved(_)) => return Err(RunFault::NotNow),
            (Some(Owner::Controller), Event::Moved(_)) => return Err(RunFault::NotNow),
            (Some(Owner::Traffic), Event::Go) => return Err(RunFault::NotNow),
        };
        self.position = position;
        self.aim = aim;
        self.running = true;
        Ok((position, aim))
    }

    /// Puts the runner at position `p` with aim 0.
    pub fn start(&mut self, certificate: &[u8], p: u16) -> Result<(u16, u16), RunFault>
        ensures { Called (A.meaning self.old.arena) self.old (start certificate.now p) result self.new }
    {
        self.on(certificate, Event::Start(p))
    }

    /// Makes the controller's move: the one in the aim's field.
    pub fn go(&mut self, certificate: &[u8]) -> Result<(u16, u16), RunFault>
        ensures { Called (A.meaning self.old.arena) self.old (go certificate.now) result self.new }
    {
        self.on(certificate, Event::Go)
    }

    /// Follows the traffic's move to position `q`.
    pub fn moved(&mut self, certificate: &[u8], q: u16) -> Result<(u16, u16), RunFault>
        ensures { Called (A.meaning self.old.arena) self.old (moved certificate.now q) result self.new }
    {
        self.on(certificate, Event::Moved(q))
    }
}

impl<A> Runner<A> {
    /// A runner in the arena, idle.
    pub fn new(arena: A) -> Runner<A>
        ensures { result ≡ new_runner arena }
    {
        Runner {
            arena,
            position: 0,
            aim: 0,
            running: false,
        }
    }
}
