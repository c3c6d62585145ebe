#![tactic(auto)]

mod faults;
mod marks;
mod row;

pub use faults::{LinkFault, MarkFault};
pub use marks::has_mark;
pub use row::{RECORD_BYTES, Row};
