// The words that every other crate speaks: kinds and nodes of terms, forms and entries of types, answers of hosts, causes
// to stop; and the laws of the calculus.
#![tactic(auto)]

pub mod answer;
pub mod entry;
pub mod form;
pub mod kind;
pub mod laws;
pub mod mark;
pub mod node;
pub mod stop;
