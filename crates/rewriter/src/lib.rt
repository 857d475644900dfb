// The inner layer of the evaluator, on terms as flat lists of nodes: whether nodes are one closed term, the redex of a
// term, substitution, and one step.
#![tactic(auto)]

pub mod closed;
mod depths;
mod focus;
pub mod laws;
mod parts;
pub mod redex;
pub mod rewrite;
mod rules;
pub mod site;
mod substitution;
mod writing;
