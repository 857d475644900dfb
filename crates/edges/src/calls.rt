// The calls of load and write, each held to what it must leave.
use crate::outcome::{Answer, Outcome};
use crate::tables::{Room, Tables};
use anyhow::Context;
use calculus::entry::Entry;
use calculus::node::Node;
use record_text::record::{Record, all_of, bytes_of};
use record_text::text::{Rising, records};
use rule_file::load::load;
use rule_file::write::write;
use std::alloc::Global;

// What stands in every place of a byte list before a write.
const BYTE_FILLER: u8 = 9;

// Loads the first so many bytes of a file into tables with this room.
pub fn load_first(heap: Global, file: &str, length: usize, room: Room) -> anyhow::Result<Outcome> {
    let file = records(heap, file, Rising::First)?;
    let mut bytes = bytes_of(heap, &file)?;
    bytes.truncate(length);
    let mut tables = Tables::before(heap, room)?;
    let before = Tables::before(heap, room)?;
    let loaded = load(&bytes, &mut tables.nodes, &mut tables.types);
    let due = match loaded {
        Ok(_) => before.after(heap, &file)?,
        Err(_) => before,
    };
    Ok(Outcome {
        answer: loaded.map(Answer::Loaded),
        as_due: tables == due,
    })
}

// The bytes of the file of these nodes and of the first `count` of these types.
fn file_of(
    heap: Global,
    nodes: &[Record],
    types: &[Record],
    count: usize,
) -> anyhow::Result<Vec<u8>> {
    let written = types.iter().take(count).skip(6);
    let mut file = Vec::new(heap);
    file.push(Record {
        mark: *b"RU",
        first: count.saturating_sub(6).try_into()?,
        second: nodes.len().try_into()?,
    })?;
    file.extend(written.chain(nodes.iter()).copied())?;
    Ok(bytes_of(heap, &file)?)
}

// Writes these nodes, all of them the rule, and these types under this count to a byte list of this length.
pub fn write_into(
    heap: Global,
    nodes: &str,
    types: &str,
    count: usize,
    room: usize,
) -> anyhow::Result<Outcome> {
    let nodes = records(heap, nodes, Rising::First)?;
    let types = records(heap, types, Rising::First)?;
    let mut bytes = vec![in heap; BYTE_FILLER; room]?;
    let node_table: Vec<Node> = all_of(heap, &nodes)?;
    let type_table: Vec<Entry> = all_of(heap, &types)?;
    let written = write(&node_table, &type_table, count, &mut bytes);
    let mut due = match written {
        Ok(_) => file_of(heap, &nodes, &types, count)?,
        Err(_) => Vec::new(heap),
    };
    due.resize(room, BYTE_FILLER)?;
    Ok(Outcome {
        answer: written.map(Answer::Wrote),
        as_due: bytes == due,
    })
}

// Loads a file, writes what was loaded and loads what was written.
pub fn round_trip(heap: Global, file: &str) -> anyhow::Result<Outcome> {
    let file = records(heap, file, Rising::First)?;
    let head = file.first().context("a file has a head")?;
    let room = Room {
        nodes: usize::from(head.second),
        types: file.len().saturating_add(5),
    };
    let bytes = bytes_of(heap, &file)?;
    let mut tables = Tables::before(heap, room)?;
    let mut written = vec![in heap; BYTE_FILLER; bytes.len()]?;
    let mut again = Tables::before(heap, room)?;
    let loaded = load(&bytes, &mut tables.nodes, &mut tables.types)
        .ok()
        .context("the file does not load")?;
    let length = write(&tables.nodes, &tables.types, loaded.count, &mut written)
        .ok()
        .context("the tables are not written")?;
    load(&written, &mut again.nodes, &mut again.types)
        .ok()
        .context("the written file does not load")?;
    Ok(Outcome {
        answer: Ok(Answer::CameBack(length)),
        as_due: written == bytes && again == tables,
    })
}
