// A file of given size, and the memory that calls on it need.
use calculus::entry::Entry;
use calculus::node::Node;
use record_text::record::{Record, bytes_of};
use rule_file::load::load;
use rule_file::write::write;
use std::alloc::{AllocError, Global};
use std::iter;

#[derive(Drop)]
pub struct Workload {
    pub file: Vec<u8>,
    nodes: Vec<Node>,
    types: Vec<Entry>,
    // as write is given it: the table is longer than its entries
    count: usize,
    bytes: Vec<u8>,
}

// The marks of the nodes with one child.
const MARKS: [[u8; 2]; 8] = [
    *b"SU", *b"LA", *b"FS", *b"SN", *b"AB", *b"IL", *b"IR", *b"QU",
];

fn node_of(mark: [u8; 2]) -> Record {
    Record {
        mark,
        first: 0,
        second: 0,
    }
}

// A head, type records of which no two are equal, nodes with one child in turn, and a zero.
fn records_of(heap: Global, types: u16, nodes: u16) -> Result<Vec<Record>, AllocError> {
    let head = Record {
        mark: *b"RU",
        first: types,
        second: nodes,
    };
    let types = (0..types).map(|first| Record {
        mark: *b"TF",
        first,
        second: 0,
    });
    let nodes = (1..nodes).map(|i| node_of(MARKS[usize::from(i % 8)]));
    iter::once(head)
        .chain(types)
        .chain(nodes)
        .chain(iter::once(node_of(*b"ZE")))
        .collect(heap)
}

impl Workload {
    pub fn new(heap: Global, types: u16, nodes: u16) -> Result<Workload, AllocError> {
        let file = bytes_of(heap, &records_of(heap, types, nodes)?)?;
        let nodes = usize::from(nodes);
        let count = 6 + usize::from(types);
        Ok(Workload {
            nodes: vec![in heap; Node::BLANK; nodes]?,
            types: vec![in heap; Entry::BLANK; count + nodes]?,
            count,
            bytes: vec![in heap; 0; file.len()]?,
            file,
        })
    }

    // Loads the file into the tables, and says whether that was not refused.
    pub fn load(&mut self) -> bool {
        load(&self.file, &mut self.nodes, &mut self.types).is_ok()
    }

    // Writes the tables to the byte list, after a load, and says whether that was not refused.
    pub fn write(&mut self) -> bool {
        write(&self.nodes, &self.types, self.count, &mut self.bytes).is_ok()
    }

    // Copies the file's bytes to the byte list, and says whether that has their length.
    pub fn copy(&mut self) -> bool {
        let fits = self.file.len() == self.bytes.len();
        if fits {
            self.bytes.copy_from_slice(&self.file);
        }
        fits
    }

    // Whether the file loads with the answer that its head says, and is written back with the same bytes.
    pub fn comes_back(&mut self) -> bool {
        let Ok(loaded) = load(&self.file, &mut self.nodes, &mut self.types) else {
            return false;
        };
        let Ok(length) = write(&self.nodes, &self.types, loaded.count, &mut self.bytes) else {
            return false;
        };
        loaded.nodes == self.nodes.len()
            && loaded.count == self.count
            && length == self.file.len()
            && self.bytes == self.file
    }
}
