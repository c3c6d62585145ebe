ghost use Rattle.std.specs.Prelude.{◌≢◌, Some};

use row::Row;

/// One row of a sheet, with the seat that it is out to, if it is out. Seats count from 1.
#[derive(Clone, Copy)]
pub struct Slot {
    pub row: Row,
    pub holder: Option<u8>,
    ghost seated: { holder ≢ Some 0 },
}
