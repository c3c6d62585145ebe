#![tactic(auto)]

mod faults;
mod plants;
mod program;
mod sheets;
mod solving;
mod strips;

pub use faults::PlanFault;
pub use plants::plants_stand;
pub use program::{answer, describe};
pub use sheets::solve_sheet;
pub use solving::SolvingFault;
pub use strips::solve_strip;
