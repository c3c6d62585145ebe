use crate::desk::Desk;
use crate::hex::push_hex;
use arena::{Refusal, number_at};
use planner::solve_sheet;
use std::alloc::AllocError;

/// What the certificate of the largest sheet has in bytes, and what solving it takes in work numbers.
const BYTES: usize = 512 * (10 + 4 * 8) + 10;

const NUMBERS: usize = 512 * (8 + 6);

impl Desk {
    /// Solves the sheet: adds c and s and then the certificate, or the refusal.
    pub(crate) fn solve(&mut self) -> Result<(), AllocError> {
        let mut bytes = vec![in self.heap; 0u8; BYTES]?;
        let mut work = vec![in self.heap; 0u16; NUMBERS]?;
        match solve_sheet(&self.sheet, bytes.as_mut_slice(), work.as_mut_slice()) {
            Ok((c, s)) => {
                let n = number_at(&bytes, 2) as usize;
                let k = number_at(&bytes, 4) as usize;
                bytes.truncate(n * (10 + 4 * k) + 10);
                writeln!(self.text, "solved {c} {s}")?;
                push_hex(&mut self.text, &bytes)?;
                self.certificate = bytes;
                Ok(())
            }
            Err(fault) => {
                let refusal = Refusal::from(fault);
                writeln!(self.text, "{refusal}")
            }
        }
    }
}
