#![tactic(auto)]

ghost use Rattle.std.specs.Prelude.{◌≡◌, ℕ};
ghost use Rattle.arena.specs.Refusals.{done, told};
ghost use Rattle.peek.specs.Outcomes.{peek_outcome};
ghost use Rattle.row.specs.RowModel.{row_of};
ghost use Rattle.sheet.specs.Fits.{Fits};
ghost use Rattle.sheet.specs.Sheets.{take_answer, take_draft};

use row::Row;
use sheet::Sheet;
use sheet_faults::TakeFault;

/// Copies the row of a position into the draft, and leaves the sheet as it was: the row is taken and let go again.
/// Refused as `take` is.
pub fn peek(sheet: &mut Sheet, seat: u8, position: u16, draft: &mut Row) -> Result<(), TakeFault>
    ensures answer { peek_outcome result ≡ told (λ _. done) (take_answer sheet.old seat position) }
    ensures sheet { sheet.new ≡ sheet.old }
    ensures fits { Fits sheet.old × Fits sheet.new }
    ensures draft { row_of draft.new ≡ take_draft sheet.old seat position (row_of draft.old) }
{
    let slip = sheet.take(seat, position, draft)?;
    let _ = sheet.let_go(slip);
    Ok(())
}
