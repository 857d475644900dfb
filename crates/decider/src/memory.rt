// The memory that a decision is made in.
use calculus::entry::Entry;
use calculus::node::Node;

pub struct Memory<'a> {
    // where the rule is loaded
    pub nodes: &'a mut [Node],
    pub types: &'a mut [Entry],
    // for checking
    pub scratch: &'a mut [u32],
    // for running: front holds the term, and the next term is written to back
    pub front: &'a mut [Node],
    pub back: &'a mut [Node],
}
