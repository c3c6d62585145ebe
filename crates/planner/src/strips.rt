ghost use Rattle.std.specs.Prelude.{◌≡◌, ℕ};
ghost use Rattle.planner.specs.Solving.{answered_bytes, answered_work, solve_answered, solving_outcome};
ghost use Rattle.strip.specs.Refusals.{open_refusal};
ghost use Rattle.strip.specs.Strip.{open_answer};

use crate::solving::SolvingFault;
use solver::solve;
use strip::{OpenFault, OpenedStrip, open};

/// Opens the strip and solves its arena.
fn solve_opened(
    strip: &[u8],
    certificate: &mut [u8],
    work: &mut [u16],
) -> Result<(u16, u16), SolvingFault<OpenFault>>
    ensures answer { solving_outcome open_refusal result ≡ solve_answered (open_answer strip.now) certificate.old work.old }
    ensures bytes { certificate.new ≡ answered_bytes (open_answer strip.now) certificate.old work.old }
    ensures numbers { work.new ≡ answered_work (open_answer strip.now) certificate.old work.old }
{
    let mut opened = OpenedStrip::empty();
    open(strip, &mut opened)?;
    Ok(solve(&opened, certificate, work)?)
}

/// Opens a strip and solves its arena in two lent memories. Refused by 13 and 11 as opening is, and then by 3.
pub fn solve_strip(
    strip: &[u8],
    certificate: &mut [u8],
    work: &mut [u16],
) -> Result<(u16, u16), SolvingFault<OpenFault>>
    ensures answer { solving_outcome open_refusal result ≡ solve_answered (open_answer strip.now) certificate.old work.old }
    ensures bytes { certificate.new ≡ answered_bytes (open_answer strip.now) certificate.old work.old }
    ensures numbers { work.new ≡ answered_work (open_answer strip.now) certificate.old work.old }
{
    solve_opened(strip, certificate, work)
}
