// A rule in memory, from the bytes of a file and back.
use crate::failure::Failure;
use crate::hexadecimal::Hex;
use crate::messages::RefusalLine;
use calculus::entry::Entry;
use calculus::node::Node;
use refusals::Refusal;
use rule_file::load::load;
use rule_file::record::six_at;
use rule_file::write::write;
use std::alloc::{AllocError, Global};
use types::table::{MOST_NODES, MOST_TYPES};

// A type table of this length serves every file: the most types, and as many more as there may be nodes.
const MOST_ENTRIES: usize = MOST_TYPES + MOST_NODES;

// The longest file: six bytes for the head, for each of 1,024 type records and for each of 4,096 nodes.
const MOST_BYTES: usize = 30_726;

// The nodes of a term, and the type table that it uses, the given six entries among them.
#[derive(Drop)]
pub struct Rule {
    pub nodes: Vec<Node>,
    pub types: Vec<Entry>,
}

impl Rule {
    // The rule that a file says. The name of the file is for the message.
    pub fn of_file(heap: Global, name: &str, file: &[u8]) -> Result<Rule, Failure> {
        let mut nodes = vec![in heap; Node::BLANK; MOST_NODES]?;
        let mut types = vec![in heap; Entry::BLANK; MOST_ENTRIES]?;
        let loaded = load(file, nodes.as_mut_slice(), types.as_mut_slice()).map_err(
            |refusal| unloadable(heap, name, file, refusal),
        )?;
        nodes.truncate(loaded.nodes);
        types.truncate(loaded.count);
        Ok(Rule { nodes, types })
    }

    // The file that says the rule. `?` passes a lack of memory on, and the caller answers the refusal: hence two results.
    pub fn to_file(&self, heap: Global) -> Result<Result<Vec<u8>, Refusal>, AllocError> {
        let mut bytes = vec![in heap; 0; MOST_BYTES]?;
        let types = self.types.as_slice();
        let written = write(
            self.nodes.as_slice(),
            types,
            types.len(),
            bytes.as_mut_slice(),
        );
        Ok(written.map(|length| {
            bytes.truncate(length);
            bytes
        }))
    }
}

// Why a file was not loaded, with the record at fault where there is one.
fn unloadable(heap: Global, name: &str, file: &[u8], refusal: Refusal) -> Failure {
    let length = file.len();
    let place = refusal.report().place;
    let line = RefusalLine(refusal);
    Failure::told(match six_at(file, usize::from(place)) {
        Some(six) => format!(in heap;
            "{name}: {length} bytes, record {place} is {}: {line}",
            Hex(six)
        ),
        None => format!(in heap; "{name}: {length} bytes: {line}"),
    })
}
