use crate::desk::{Desk, Held};
use crate::hex::push_hex;
use arena::number_at;
use sheet::Sheet;
use std::alloc::{AllocError, Global};
use strip::strip_bytes;

/// How many positions the largest sheet has.
const MOST: u16 = 512;

/// What a list of calls comes to: the answers and then the strip as text, the strip that the sheet is, and the certificate
/// of the last accepted solve, no bytes where there was none.
#[derive(Drop)]
pub struct Drawing {
    pub text: String,
    pub strip: Vec<u8>,
    pub certificate: Vec<u8>,
}

/// The strip that the sheet is.
fn strip_of(heap: Global, sheet: &Sheet) -> Result<Vec<u8>, AllocError> {
    let mut bytes = vec![in heap; 0u8; strip_bytes(MOST)]?;
    let _ = sheet.write(bytes.as_mut_slice());
    let n = number_at(&bytes, 2);
    bytes.truncate(strip_bytes(n));
    Ok(bytes)
}

/// Lets all rows go that are held still.
fn let_all_go(sheet: &mut Sheet, mut hand: Vec<Held>) {
    while let Some(Held { slip, draft: _ }) = hand.pop() {
        let _ = sheet.let_go(slip);
    }
    hand.destroy_empty();
}

impl Desk {
    /// Lets all rows go that are held still, and adds the strip that the sheet is.
    fn finish(self) -> Result<Drawing, AllocError> {
        let Desk {
            heap,
            mut sheet,
            hand,
            mut text,
            certificate,
        } = self;
        let_all_go(&mut sheet, hand);
        let strip = strip_of(heap, &sheet)?;
        push_hex(&mut text, &strip)?;
        Ok(Drawing {
            text,
            strip,
            certificate,
        })
    }
}

/// Performs a list of calls on a blank sheet.
pub(crate) fn drawn(heap: Global, calls: &str) -> Result<Drawing, AllocError> {
    let mut desk = Desk::new(heap)?;
    let performed = desk.perform_all(calls);
    let drawing = desk.finish();
    performed?;
    drawing
}
