#![tactic(auto)]

ghost use Rattle.solver.specs.declared.SolveFault.TheVariants.{Size};
ghost use Rattle.std.specs.Prelude.{◌≡◌, ◌≤◌, ◌++◌, length, drop, replicate};
ghost use Rattle.arena.specs.Told.{Same};
ghost use Rattle.solver.specs.Refused.{outcome, solve_refusal};
ghost use Rattle.solver.specs.Solve.{bytes_after, solve, work_after, work_numbers};

use arena::{Arena, Refusal, SizeFault, certificate_bytes, sized};
use plan::plan;

// From the bottom up: the attractor in rounds, the stages, the decisions, what the stages settled, the records, and all of
// them in their order.
mod attract;
mod decide;
mod plan;
mod record;
mod settled;
mod stage;

/// Why solve turns an arena or the memories down.
#[derive(Clone, Copy, Debug, PartialEq, Eq)]
pub enum SolveFault {
    /// The arena is too small or too large.
    Size(SizeFault),
    /// The certificate memory or the work memory is too short.
    Memory,
}

impl From<SizeFault> for SolveFault {
    ghost from_gives = { λ e r. r ≡ Size e };

    fn from(size: SizeFault) -> SolveFault {
        SolveFault::Size(size)
    }
}

impl From<SolveFault> for Refusal {
    ghost from_gives = { λ e r. Same r (solve_refusal e) };

    fn from(e: SolveFault) -> Refusal {
        match e {
            SolveFault::Size(e) => e.into(),
            SolveFault::Memory => Refusal::bare(3),
        }
    }
}

/// How many numbers of work memory solve uses.
pub fn work_numbers<A: Arena>(arena: &A) -> usize
    ensures { result ≡ work_numbers (A.meaning arena.now) }
{
    usize::from(arena.positions()) * (usize::from(arena.goals()) + 6)
}

// Holds the lent work memory; when it goes, the first `used` numbers are zero.
struct Wipe<'a> {
    work: &'a mut [u16],
    used: usize,
}

impl Drop for Wipe<'_> {
    fn drop(self)
        requires { self.used ≤ length self.work.now }
        ensures { self.exit.0.now ≡ replicate self.entry.used 0 ++ drop self.entry.used self.entry.work.now }
    {
        let Wipe { work, used } = self;
        work[..used].fill(0);
    }
}

/// Solves an arena: writes its certificate, and answers how many positions are the controller's and how many stages there
/// are.
///
/// Refused, both memories stay as they were. Accepted, the numbers of the work memory that were used are zero.
pub fn solve<A: Arena>(
    a: &A,
    certificate: &mut [u8],
    work: &mut [u16],
) -> Result<(u16, u16), SolveFault>
    ensures answer { outcome result ≡ solve (A.meaning a.now) certificate.old work.old }
    ensures bytes { certificate.new ≡ bytes_after (A.meaning a.now) certificate.old work.old }
    ensures numbers { work.new ≡ work_after (A.meaning a.now) certificate.old work.old }
{
    sized(a)?;
    let used = work_numbers(a);
    if certificate.len() < certificate_bytes(a) || work.len() < used {
        return Err(SolveFault::Memory);
    }
    let guard = Wipe { work, used };
    Ok(plan(a, certificate, guard.work))
}
