#![tactic(auto)]

mod closed;
mod loading;
mod sheet;
mod slip;
mod slot;
mod slots;
mod writing;

pub use closed::ClosedSheet;
pub use sheet::Sheet;
pub use slip::Slip;
