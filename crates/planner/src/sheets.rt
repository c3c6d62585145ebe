ghost use Rattle.std.specs.Prelude.{◌≡◌, ℕ};
ghost use Rattle.planner.specs.Solving.{sheet_solve, sheet_solve_bytes, sheet_solve_work, solving_outcome};
ghost use Rattle.sheet.specs.Fits.{Fits};
ghost use Rattle.sheet_faults.specs.Refusals.{close_refusal};

use crate::solving::SolvingFault;
use sheet::{ClosedSheet, Sheet};
use sheet_faults::CloseFault;
use solver::solve;

/// Closes the sheet and solves its arena.
fn solve_closed(
    sheet: &Sheet,
    certificate: &mut [u8],
    work: &mut [u16],
) -> Result<(u16, u16), SolvingFault<CloseFault>>
    ensures answer { solving_outcome close_refusal result ≡ sheet_solve sheet.now certificate.old work.old }
    ensures bytes { certificate.new ≡ sheet_solve_bytes sheet.now certificate.old work.old }
    ensures numbers { work.new ≡ sheet_solve_work sheet.now certificate.old work.old }
    ensures fits { Fits sheet.now }
{
    let mut closed = ClosedSheet::empty();
    sheet.close(&mut closed)?;
    Ok(solve(&closed, certificate, work)?)
}

/// Solves a sheet in two lent memories: closes it, solves the arena that its rows draw, and opens it again. Refused by 10
/// and 11 as closing is, and then by 3. The sheet is only looked at.
pub fn solve_sheet(
    sheet: &Sheet,
    certificate: &mut [u8],
    work: &mut [u16],
) -> Result<(u16, u16), SolvingFault<CloseFault>>
    ensures answer { solving_outcome close_refusal result ≡ sheet_solve sheet.now certificate.old work.old }
    ensures bytes { certificate.new ≡ sheet_solve_bytes sheet.now certificate.old work.old }
    ensures numbers { work.new ≡ sheet_solve_work sheet.now certificate.old work.old }
    ensures fits { Fits sheet.now }
{
    solve_closed(sheet, certificate, work)
}
