// Evaluation of accepted rules: runs in the caller's tables, and the safety of every list of calls on them.
#![tactic(auto)]

pub mod close;
mod evaluate;
pub mod held;
pub mod laws;
pub mod outcome;
mod questions;
pub mod run;
pub mod start;
mod tables;
pub mod token;
pub mod twice;
