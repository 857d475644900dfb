// Writing: from a node table and a type table to the bytes of a file.
ghost use Rattle.std.specs.Prelude.{◌≡◌, ℕ, ◌*◌, ◌≤◌, List, ◌∷◌, ◌++◌, length, take, drop, MatchResult, IfOk, slice_index};
ghost use Rattle.std.specs.List.{flat_map};
ghost use Rattle.rule_file.specs.Files.{low_high, head_bytes, entry_bytes, node_bytes, file_of};
ghost use Rattle.rule_file.specs.Accepted.{LoadsBack};
ghost use Rattle.rule_file.specs.Writing.{file_length, Writable, Unwritable, WriteCall};
ghost use Rattle.std.proofs.Common.{rules};

use crate::record::Head;
use calculus::entry::Entry;
use calculus::node::Node;
use refusals::{Layer, Question, Refusal};
use types::table::{GIVEN, counts_fit};

// How many bytes a record has.
const RECORD: usize = 6;

// What is written as one record of six bytes.
pub trait Encode {
    ghost encoded: { Self → List ℕ };

    fn encode(&self) -> [u8; 6]
        ensures { result ≡ encoded self.now };

    ghost six: { (x : Self) → length (encoded x) ≡ 6 };
}

fn six(mark: [u8; 2], first: u16, second: u16) -> [u8; 6]
    ensures value { result ≡ slice_index mark 0 ∷ (slice_index mark 1 ∷ (low_high first ++ low_high second)) }
{
    let [a, b] = mark;
    let [c, d] = first.to_le_bytes();
    let [e, f] = second.to_le_bytes();
    [a, b, c, d, e, f]
}

impl Encode for Head {
    ghost encoded = { λ h. head_bytes h.types h.nodes };

    ghost six = { Prim.search rules };

    fn encode(&self) -> [u8; 6] {
        six(*b"RU", self.types, self.nodes)
    }
}

impl Encode for Entry {
    ghost encoded = { entry_bytes };

    ghost six = { Prim.search rules };

    #[tactic(auto, using(crate::proofs::Marks::form_items))]
    fn encode(&self) -> [u8; 6] {
        six(self.form.mark(), self.left, self.right)
    }
}

impl Encode for Node {
    ghost encoded = { node_bytes };

    ghost six = { Prim.search rules };

    #[tactic(auto, using(crate::proofs::Marks::kind_items))]
    fn encode(&self) -> [u8; 6] {
        six(self.kind.mark(), self.number, 0)
    }
}

// Writes the records to the front of the byte list, one after the other.
fn put_records<R: Encode>(records: &[R], bytes: &mut [u8])
    requires { 6 * length records.now ≤ length bytes.old }
    ensures after { bytes.new ≡ flat_map R.encoded records.now ++ drop (6 * length records.now) bytes.old }
{
    // The place is counted: std says nothing of what the bytes are after as_chunks_mut, or after a zip over iter_mut.
    for (i, x) in records.iter().enumerate() {
        let record = x.encode();
        let at = RECORD * i;
        bytes[at..at + RECORD].copy_from_slice(&record);
    }
}

// The tables of a rule that may be written: its type table, and the nodes, which are one term over it.
#[derive(Clone, Copy)]
struct Tables<'a> {
    entries: &'a [Entry],
    nodes: &'a [Node],
    ghost given: { 6 ≤ length entries.now },
    ghost few_entries: { length entries.now ≤ 1030 },
    ghost few_nodes: { length nodes.now ≤ 4096 },
}

impl<'a> Tables<'a> {
    // The nodes and the first `count` entries: questions 10, 12, 13 and 14.
    fn read(
        nodes: &'a [Node],
        types: &'a [Entry],
        count: usize,
        room: usize,
    ) -> Result<Self, Question>
        ensures writable { MatchResult result (λ _. Writable nodes.now types.now count room) (λ q. Unwritable nodes.now types.now count room q) }
        ensures entries { IfOk result (λ t. t.entries.now ≡ take count types.now) }
        ensures nodes { IfOk result (λ t. t.nodes.now ≡ nodes.now) }
    {
        if !counts_fit(nodes.len(), types.len(), count) {
            return Err(Question::Counts);
        }
        let entries = &types[..count];
        if let Some(k) = types::table::first_fault(entries) {
            // (as: it is below 65,536, and try_from would add an error that never comes)
            return Err(Question::EntryLaid { place: k as u16 });
        }
        if let Some(k) = terms::first_fault(nodes, count) {
            // (as: it is below 65,536, and try_from would add an error that never comes)
            return Err(Question::OneTerm { place: k as u16 });
        }
        let tables = Tables { entries, nodes };
        if room < tables.file_length() {
            return Err(Question::ByteRoom);
        }
        Ok(tables)
    }

    // How many bytes the file of these tables has.
    fn file_length(&self) -> usize
        ensures { result ≡ file_length (length self.now.entries.now) (length self.now.nodes.now) }
    {
        RECORD * (1 + (self.entries.len() - GIVEN.len()) + self.nodes.len())
    }

    // Writes the file of these tables to the front of the byte list.
    fn put(&self, bytes: &mut [u8])
        requires { file_length (length self.now.entries.now) (length self.now.nodes.now) ≤ length bytes.old }
        ensures { bytes.new ≡ file_of self.now.entries.now self.now.nodes.now ++ drop (file_length (length self.now.entries.now) (length self.now.nodes.now)) bytes.old }
    {
        let added = &self.entries[GIVEN.len()..];
        // (as: it is below 65,536, and try_from would add an error that never comes)
        let head = Head {
            types: added.len() as u16,
            nodes: self.nodes.len() as u16,
        };
        put_records(&[head], bytes);
        put_records(added, &mut bytes[RECORD..]);
        put_records(self.nodes, &mut bytes[RECORD * (1 + added.len())..]);
    }
}

// Writes a rule file: the nodes, all of them the rule, and the first `count` entries of the type table. It puts questions
// 10, 12, 13 and 14 in order; a no leaves the byte list as it was. Otherwise the byte list begins with the file, what lies
// past it is left, and the file's length is answered.
pub fn write(
    nodes: &[Node],
    types: &[Entry],
    count: usize,
    bytes: &mut [u8],
) -> Result<usize, Refusal>
    ensures call { WriteCall nodes.now types.now count bytes.old result bytes.new }
    ensures loads_back { LoadsBack nodes.now types.now count result bytes.new }
{
    let tables = Tables::read(nodes, types, count, bytes.len()).map_err(
        |question| Layer::File.refuse(question),
    )?;
    tables.put(bytes);
    Ok(tables.file_length())
}
