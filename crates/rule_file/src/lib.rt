// The rule file: its records, load, write, and the two round trips between a file and its tables.
#![tactic(auto)]

pub mod load;
pub mod record;
pub mod write;
