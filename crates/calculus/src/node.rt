// A node of a term: a kind and a number of 16 bits.
use crate::kind::Kind;

#[derive(Clone, Copy, PartialEq, Eq, Debug)]
pub struct Node {
    pub kind: Kind,
    pub number: u16,
    // Says nothing: with it a `Result` may hold what lends nodes.
    ghost plain: { Unit {0} },
}

impl Node {
    // What stands in an unused place of a node table.
    pub const BLANK: Node = Node {
        kind: Kind::Blank,
        number: 0,
    };
}
