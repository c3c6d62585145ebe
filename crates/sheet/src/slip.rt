ghost use Rattle.std.specs.Prelude.{◌≡◌, true, false};

/// A slip: what a seat holds for a row that it has taken. It tells the seat and the position, and not the sheet. It must
/// be spent, by `put` or `let_go`; a slip that is not may not be dropped, so that none is forgotten.
pub struct Slip {
    seat: u8,
    position: u16,
    // A flag and no type of its own, so that it is the prover who refuses a slip that is forgotten.
    spent: bool,
}

impl Drop for Slip {
    fn drop(self)
        requires { self.spent ≡ true }
    {
        let Slip {
            seat: _,
            position: _,
            spent: _,
        } = self;
    }
}

impl Slip {
    /// The slip for a row that a seat has taken.
    pub(crate) fn unspent(seat: u8, position: u16) -> Slip
        ensures { result ≡ record { seat = seat; position = position; spent = false } }
    {
        Slip {
            seat,
            position,
            spent: false,
        }
    }

    /// Spends the slip.
    pub(crate) fn spend(&mut self)
        ensures { self.new ≡ record { seat = self.old.seat; position = self.old.position; spent = true } }
    {
        self.spent = true;
    }

    /// The seat that has taken the row.
    pub fn seat(&self) -> u8
        ensures { result ≡ self.now.seat }
    {
        self.seat
    }

    /// The position of the row.
    pub fn position(&self) -> u16
        ensures { result ≡ self.now.position }
    {
        self.position
    }
}
