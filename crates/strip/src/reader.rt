ghost use Rattle.std.specs.Prelude.{◌≡◌, take, drop};
ghost use Rattle.strip.specs.Strip.{next_record};

use row::RECORD_BYTES;

/// The first `n` bytes, and the bytes after them; of fewer all, and none.
fn split(bytes: &[u8], n: usize) -> (&[u8], &[u8])
    ensures front { result.0.now ≡ take n bytes.now }
    ensures back { result.1.now ≡ drop n bytes.now }
{
    bytes.split_at(n.min(bytes.len()))
}

/// The reader's step: the bytes of one record, and the bytes after it, both parts of the input; of fewer than a record's
/// all, and none. Whether the record is right is another call's matter.
pub fn next_record(bytes: &[u8]) -> (&[u8], &[u8])
    ensures one { result.0.now ≡ (next_record bytes.now).0 }
    ensures rest { result.1.now ≡ (next_record bytes.now).1 }
{
    split(bytes, RECORD_BYTES)
}
