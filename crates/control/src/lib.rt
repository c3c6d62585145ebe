#![tactic(auto)]

mod clauses;
mod record;
mod runner;
mod verdict;

pub use clauses::Clause;
pub use runner::{Event, RunFault, Runner};
pub use verdict::{CheckFault, check};
