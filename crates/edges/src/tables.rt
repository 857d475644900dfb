// The node table and the type table of a call.
use anyhow::Context;
use calculus::entry::Entry;
use calculus::form::Form;
use calculus::kind::Kind;
use calculus::node::Node;
use record_text::record::{Record, all_of};
use record_text::text::{Rising, records};
use std::alloc::{AllocError, Global};

// What stands in every place before a load.
const NODE_FILLER: Node = Node {
    kind: Kind::Fst,
    number: 9,
};

const ENTRY_FILLER: Entry = Entry {
    form: Form::Product,
    left: 9,
    right: 9,
};

// How many places the two tables have.
#[derive(Clone, Copy)]
pub struct Room {
    pub nodes: usize,
    pub types: usize,
}

#[derive(PartialEq, Eq, Drop)]
pub struct Tables {
    pub nodes: Vec<Node>,
    pub types: Vec<Entry>,
}

impl Tables {
    // Tables with this room before a load.
    pub fn before(heap: Global, room: Room) -> Result<Tables, AllocError> {
        Ok(Tables {
            nodes: vec![in heap; NODE_FILLER; room.nodes]?,
            types: vec![in heap; ENTRY_FILLER; room.types]?,
        })
    }

    // The same tables after a load of these records: the nodes, the given six and the types, and blanks past them.
    pub fn after(self, heap: Global, file: &[Record]) -> anyhow::Result<Tables> {
        let (head, body) = file.split_first().context("a file has a head")?;
        let (added, nodes) = body
            .split_at_checked(usize::from(head.first))
            .context("a file has its type records")?;
        let mut types: Vec<Entry> = all_of(heap, &records(heap, "given", Rising::First)?)?;
        types.extend_from_slice(&all_of::<Entry>(heap, added)?)?;
        types.resize(self.types.len(), Entry::BLANK)?;
        let mut nodes: Vec<Node> = all_of(heap, nodes)?;
        nodes.resize(self.nodes.len(), Node::BLANK)?;
        Ok(Tables { nodes, types })
    }
}
