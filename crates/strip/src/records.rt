ghost use Rattle.std.specs.Prelude.{◌≡◌, ℕ, ◌<◌, length, slice_index};
ghost use Rattle.arena.specs.Bytes.{number};
ghost use Rattle.strip.specs.Reading.{read_outcome};
ghost use Rattle.strip.specs.Strip.{move_at, row_in};

use crate::fields::Record;
use arena::{Owner, byte_at, number_at};
use row::{RECORD_BYTES, Row};
use std::array;

/// The sixteen moves of a record, used or not.
fn moves_in(bytes: &[u8]) -> [u16; 16]
    ensures wide { length result ≡ 16 }
    ensures each { (j : ℕ) → j < 16 → slice_index result j ≡ number bytes.now (move_at 0 j) }
{
    array::from_fn(|j| number_at(bytes, 6 + 2 * j))
}

/// The row that the bytes of one record of the right length store. The unused moves of a record are zero, as a row's are.
fn stored(bytes: &[u8]) -> Option<Row>
    requires { length bytes.now ≡ 38 }
    ensures { read_outcome result ≡ row_in bytes.now }
{
    let record = Record {
        bytes,
        positions: 65536,
        goals: 8,
        offset: 0,
    };
    let Ok(_) = record.inspect() else {
        return None;
    };
    let Ok(owner) = Owner::try_from(u16::from(byte_at(bytes, 2))) else {
        return None;
    };
    Some(Row {
        owner,
        marks: byte_at(bytes, 3),
        count: number_at(bytes, 4) as usize,
        moves: moves_in(bytes),
    })
}

/// The row that the bytes of one record store; none where they are no record of a row.
pub fn read_row(bytes: &[u8]) -> Option<Row>
    ensures { read_outcome result ≡ row_in bytes.now }
{
    if bytes.len() != RECORD_BYTES {
        return None;
    }
    stored(bytes)
}
