// From a rule file to its decision: load, check, start, run in slices, close.
#![tactic(auto)]

pub mod decide;
pub mod decision;
pub mod memory;
mod slices;
