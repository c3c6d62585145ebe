use row::Row;
use sheet::{Sheet, Slip};
use std::alloc::{AllocError, Global};

/// A slip that a seat holds, with the draft of its row. It has to be taken apart and the slip spent.
pub struct Held {
    pub slip: Slip,
    pub draft: Row,
}

/// A sheet that calls are performed on: what the seats hold of it, the text of the answers so far, and the certificate of the
/// last accepted solve, no bytes where there was none.
pub struct Desk {
    pub heap: Global,
    pub sheet: Sheet,
    pub hand: Vec<Held>,
    pub text: String,
    pub certificate: Vec<u8>,
}

impl Desk {
    /// A blank sheet.
    pub(crate) fn new(heap: Global) -> Result<Desk, AllocError> {
        Ok(Desk {
            heap,
            sheet: Sheet::new(heap)?,
            hand: Vec::new(heap),
            text: String::new(heap),
            certificate: Vec::new(heap),
        })
    }
}
