ghost use Rattle.std.specs.Prelude.{◌≡◌, ℕ};
ghost use Rattle.arena.specs.Arena.{sized};
ghost use Rattle.arena.specs.Refusals.{accepted, done};
ghost use Rattle.arena.specs.Sizes.{size_outcome, size_refusal};
ghost use Rattle.arena.specs.Told.{Same};

use super::Arena;
use super::refusal::Refusal;

/// Why an arena is too small or too large to be asked more.
#[derive(Clone, Copy, Debug, PartialEq, Eq)]
pub enum SizeFault {
    /// The number of positions is not 1 to 4,096.
    Positions,
    /// The number of goals is not 1 to 8.
    Goals,
}

impl From<SizeFault> for Refusal {
    ghost from_gives = { λ e r. Same r (size_refusal e) };

    fn from(e: SizeFault) -> Refusal {
        match e {
            SizeFault::Positions => Refusal::bare(1),
            SizeFault::Goals => Refusal::bare(2),
        }
    }
}

/// Whether an arena has a size that solve, check and the runner take.
pub fn sized<A: Arena>(arena: &A) -> Result<(), SizeFault>
    ensures { size_outcome result ≡ sized (A.meaning arena.now) (accepted done) }
{
    if !(1..=4096).contains(&arena.positions()) {
        return Err(SizeFault::Positions);
    }
    if !(1..=8).contains(&arena.goals()) {
        return Err(SizeFault::Goals);
    }
    Ok(())
}
