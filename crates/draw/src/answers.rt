use arena::Refusal;
use std::alloc::AllocError;
use std::fmt;

/// What a call tells that was performed.
#[derive(Clone, Copy, Debug, PartialEq, Eq)]
pub enum Answer {
    /// Nothing.
    Done,
    /// Whether the edit changed the draft.
    Changed(bool),
    /// The count.
    Number(u16),
}

/// Why a line is not performed.
#[derive(Clone, Copy, Debug, PartialEq, Eq)]
pub enum Failure {
    /// The call is refused.
    Refused(Refusal),
    /// The program holds no slip for this seat and position.
    NotHeld,
    /// There is no memory, to hold another slip or for the strip to load.
    NoRoom,
    /// The line is no call.
    NoCall,
}

/// The failure that a call's fault is.
pub(crate) fn refused<E: Into<Refusal>>(fault: E) -> Failure {
    Failure::Refused(fault.into())
}

impl From<AllocError> for Failure {
    fn from(_e: AllocError) -> Failure {
        Failure::NoRoom
    }
}

impl fmt::Display for Answer {
    fn fmt<W: fmt::Write>(&self, f: &mut fmt::Formatter<W>) -> fmt::Result {
        match self {
            Answer::Done => write!(f, "done"),
            Answer::Changed(true) => write!(f, "changed"),
            Answer::Changed(false) => write!(f, "unchanged"),
            Answer::Number(n) => write!(f, "{n}"),
        }
    }
}

impl fmt::Display for Failure {
    fn fmt<W: fmt::Write>(&self, f: &mut fmt::Formatter<W>) -> fmt::Result {
        match self {
            Failure::Refused(refusal) => write!(f, "{refusal}"),
            Failure::NotHeld => write!(f, "no slip"),
            Failure::NoRoom => write!(f, "no memory"),
            Failure::NoCall => write!(f, "no call"),
        }
    }
}
