#![tactic(auto)]

mod faults;
mod refusal;

pub use faults::{CloseFault, LetGoFault, LoadFault, PutFault, ShapeFault, TakeFault, WriteFault};
