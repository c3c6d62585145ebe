ghost use Rattle.std.specs.Prelude.{◌≡◌, ℕ, None, MatchResult};
ghost use Rattle.arena.specs.Refusals.{done, told};
ghost use Rattle.sheet.specs.Fits.{Fits};
ghost use Rattle.sheet.specs.Outcomes.{close_outcome};
ghost use Rattle.sheet.specs.Sheets.{arena_of, close_answer, lowest_bare};
ghost use Rattle.sheet.specs.Slots.{arena_drawn};

use crate::closed::ClosedSheet;
use crate::sheet::Sheet;
use crate::slots::first_bare;
use sheet_faults::CloseFault;

impl Sheet {
    /// The lowest row without moves.
    fn lowest_bare(&self) -> Option<u16>
        ensures { result ≡ lowest_bare self.now }
    {
        let p = first_bare(self.slots.as_slice())?;
        Some(p as u16)
    }

    /// Fills the closed sheet with the rows, which all have moves.
    fn lend_to<'a>(&'a self, into: &mut ClosedSheet<'a>)
        requires { lowest_bare self.now ≡ None }
        ensures { arena_drawn into.new.goals into.new.slots.now ≡ arena_of self.now }
    {
        into.goals = self.goals;
        into.slots = self.slots.as_slice();
    }

    /// Closes the sheet: fills the closed sheet, which is then the arena that the rows draw. Refused while a row is out,
    /// and then where a row has no moves; the closed sheet is then left as it was.
    pub fn close<'a>(&'a self, into: &mut ClosedSheet<'a>) -> Result<(), CloseFault>
        ensures answer { close_outcome result ≡ told (λ _. done) (close_answer self.now) }
        ensures fills { MatchResult result (λ _. arena_drawn into.new.goals into.new.slots.now ≡ arena_of self.now) (λ _. into.new ≡ into.old) }
        ensures fits { Fits self.now }
    {
        if let Some(p) = self.lowest_out() {
            return Err(CloseFault::RowOut(p));
        }
        if let Some(p) = self.lowest_bare() {
            return Err(CloseFault::NoMoves(p));
        }
        self.lend_to(into);
        Ok(())
    }
}
