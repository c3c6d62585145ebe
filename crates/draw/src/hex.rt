use crate::answers::Failure;
use std::alloc::{AllocError, Global};

/// The hexadecimal digit of a number below 16.
fn digit(x: u8) -> char {
    char::from_digit(u32::from(x), 16).unwrap_or('0')
}

/// Adds bytes in hexadecimal, as one line.
pub(crate) fn push_hex(out: &mut String, bytes: &[u8]) -> Result<(), AllocError> {
    for byte in bytes {
        // Pushed, and not formatted: a certificate has twenty thousand bytes.
        out.push(digit(byte >> 4))?;
        out.push(digit(byte & 15))?;
    }
    out.push_str("\n")
}

/// The number that a hexadecimal digit stands for.
fn value(digit: u8) -> Option<u8> {
    u8::try_from(char::from(digit).to_digit(16)?).ok()
}

/// The byte of two hexadecimal digits.
fn byte_of(digits: &[u8]) -> Option<u8> {
    let [high, low] = digits else {
        return None;
    };
    Some((value(*high)? << 4) | value(*low)?)
}

/// The bytes of a word in hexadecimal.
pub(crate) fn bytes_of(heap: Global, word: &str) -> Result<Vec<u8>, Failure> {
    word.as_bytes()
        .chunks(2)
        .map(|pair| byte_of(pair).ok_or(Failure::NoCall))
        .try_collect(heap)
}
