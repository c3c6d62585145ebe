ghost use Rattle.std.specs.Prelude.{◌≡◌};
ghost use Rattle.row.specs.Records.{record_of};
ghost use Rattle.row.specs.RowModel.{row_of};

use crate::row::{RECORD_BYTES, Row};

impl Row {
    /// The bytes of the record, one after another.
    fn record_bytes(&self) -> [u8; RECORD_BYTES]
        ensures { result ≡ record_of (row_of self.now) }
    {
        let mut bytes = [0; RECORD_BYTES];
        let owner = u16::from(self.owner) as u8;
        bytes[..6].copy_from_slice(&[0x47, 0x50, owner, self.marks, 0, self.count as u8]);
        for (j, q) in self.moves.iter().enumerate() {
            bytes[6 + 2 * j..8 + 2 * j].copy_from_slice(&q.to_be_bytes());
        }
        bytes
    }

    /// The record of the row: its bytes as a strip stores them.
    pub fn record(&self) -> [u8; RECORD_BYTES]
        ensures { result ≡ record_of (row_of self.now) }
    {
        self.record_bytes()
    }
}
