// Checking rules: accepted exactly when the typing rules derive a type.
#![tactic(auto)]

pub mod acceptance;
mod binders;
pub mod check;
mod frame;
pub mod laws;
mod machine;
mod rules;
