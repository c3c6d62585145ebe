ghost use Rattle.std.specs.Prelude.{◌≡◌};
ghost use Rattle.strip.specs.Strip.{row_at};
ghost use Rattle.strip.specs.Writing.{strip_bytes};

use row::RECORD_BYTES;

/// How many bytes the head has: its mark, the number of positions and the number of goals.
pub const HEAD_BYTES: usize = 6;

/// How many bytes the end has: its mark and the number of positions.
pub const END_BYTES: usize = 4;

/// The marks, which head, record and end begin with.
pub const HEAD_MARK: [u8; 2] = [0x47, 0x48];

pub const RECORD_MARK: [u8; 2] = [0x47, 0x50];

pub const END_MARK: [u8; 2] = [0x47, 0x45];

/// Where the record of position `p` begins; after the last one, where the end does.
pub fn record_at(p: u16) -> usize
    ensures { result ≡ row_at p }
{
    HEAD_BYTES + RECORD_BYTES * p as usize
}

/// How many bytes the strip of `n` positions has.
pub fn strip_bytes(n: u16) -> usize
    ensures { result ≡ strip_bytes n }
{
    record_at(n) + END_BYTES
}
