#![tactic(auto)]

mod faults;
mod fields;
mod layout;
mod opened;
mod reader;
mod records;

pub use faults::{OpenFault, StripFault};
pub use fields::inspect;
pub use layout::{END_BYTES, END_MARK, HEAD_BYTES, HEAD_MARK, record_at, strip_bytes};
pub use opened::{OpenedStrip, open};
pub use reader::next_record;
pub use records::read_row;
