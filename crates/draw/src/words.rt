use crate::answers::Failure;
use arena::Owner;

/// The number below 65,536 that a word is.
pub(crate) fn number(word: &str) -> Result<u16, Failure> {
    word.parse::<u16>().or(Err(Failure::NoCall))
}

/// The seat that a word names. No seat is above 255, so that a larger number serves as one that is refused.
pub(crate) fn seat(word: &str) -> Result<u8, Failure> {
    let n = number(word)?;
    Ok(u8::try_from(n).unwrap_or(u8::MAX))
}

/// The owner that a number names: 0 the controller, 1 the traffic.
pub(crate) fn owner(n: u16) -> Result<Owner, Failure> {
    Owner::try_from(n).or(Err(Failure::NoCall))
}
