ghost use Rattle.std.specs.Prelude.{◌<◌, IfOk, vec_len};

use crate::answers::{Answer, Failure, refused};
use crate::desk::{Desk, Held};
use crate::words::owner;
use row::Row;
use sheet::Slip;

/// Edits a draft by the name of the edit.
fn edit(draft: &mut Row, name: &str, x: u16) -> Result<Answer, Failure> {
    let changed = match name {
        "assign" => draft.assign(owner(x)?),
        "link" => draft.link(x).map_err(refused)?,
        "unlink" => draft.unlink(x),
        "mark" => draft.mark(x).map_err(refused)?,
        "unmark" => draft.unmark(x).map_err(refused)?,
        _ => return Err(Failure::NoCall),
    };
    Ok(Answer::Changed(changed))
}

impl Desk {
    /// The place of what a seat holds for a position.
    fn place(&self, seat: u8, p: u16) -> Result<usize, Failure>
        ensures { IfOk result (λ i. i < vec_len self.now.hand) }
    {
        self.hand
            .iter()
            .position(|held| held.slip.seat() == seat && held.slip.position() == p)
            .ok_or(Failure::NotHeld)
    }

    /// Holds a slip with its draft; where there is no memory for it the row is let go.
    fn hold(&mut self, slip: Slip, draft: Row) -> Result<Answer, Failure> {
        match self.hand.push(Held { slip, draft }) {
            Ok(()) => Ok(Answer::Done),
            Err(back) => {
                let Held { slip, draft: _ } = back.value;
                let _ = self.sheet.let_go(slip);
                Err(Failure::NoRoom)
            }
        }
    }

    /// Takes a row and holds the slip.
    pub(crate) fn take(&mut self, seat: u8, p: u16) -> Result<Answer, Failure> {
        let mut draft = Row::empty();
        let slip = self.sheet.take(seat, p, &mut draft).map_err(refused)?;
        self.hold(slip, draft)
    }

    /// Puts the draft that a seat holds for a position; a slip that is handed back is held on.
    pub(crate) fn put(&mut self, seat: u8, p: u16) -> Result<Answer, Failure> {
        let i = self.place(seat, p)?;
        let Held { slip, draft } = self.hand.remove(i);
        match self.sheet.put(slip, &draft) {
            Ok(()) => Ok(Answer::Done),
            Err((fault, slip)) => {
                let _ = self.hold(slip, draft);
                Err(refused(fault))
            }
        }
    }

    /// Lets go the row that a seat holds.
    pub(crate) fn let_go(&mut self, seat: u8, p: u16) -> Result<Answer, Failure> {
        let i = self.place(seat, p)?;
        let Held { slip, draft: _ } = self.hand.remove(i);
        self.sheet.let_go(slip).map_err(refused)?;
        Ok(Answer::Done)
    }

    /// Edits the draft that a seat holds for a position.
    pub(crate) fn change(
        &mut self,
        name: &str,
        seat: u8,
        p: u16,
        x: u16,
    ) -> Result<Answer, Failure> {
        let i = self.place(seat, p)?;
        edit(&mut self.hand[i].draft, name, x)
    }
}
