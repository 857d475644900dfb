// The text of records: a word is a mark of two letters and up to two numbers. The tests write files, nodes and entries in it.
#![tactic(auto)]

pub mod record;
#[cfg(test)]
mod tests;
pub mod text;
