// Loading: from the bytes of a file to a node table and a type table.
ghost use Rattle.std.specs.Prelude.{◌≡◌, ℕ, ◌+◌, ◌<◌, ◌≤◌, List, [], ◌∷◌, ◌++◌, map, length, take, MatchResult, OnOk};
ghost use Rattle.calculus.specs.declared.entry.Entry.{Entry};
ghost use Rattle.calculus.specs.Forms.{empty};
ghost use Rattle.calculus.specs.Kinds.{blank};
ghost use Rattle.calculus.specs.Tables.{given_entries};
ghost use Rattle.rule_file.specs.Records.{entry_of, node_of};
ghost use Rattle.rule_file.specs.Accepted.{LoadedRule, RefusedAt, WritesBack};
ghost use Rattle.rule_file.specs.Loading.{head_fits_lem, head_question, SectionsOf, type_question, type_questions, node_question, node_questions, load_question, reading, SectionsFor, RuleOf, filled, LoadCall};

use crate::record::{Record, entry_of, head_of, node_of, record_of, second_number};
use calculus::entry::Entry;
use calculus::node::Node;
use refusals::{Layer, Question, Refusal};
use std::marker::Model;
use terms::is_in_range;
use types::table::{GIVEN, MOST_NODES, is_new};

// What load answers: how many nodes the rule has, and how many entries its type table has.
#[derive(Clone, Copy, PartialEq, Eq, Debug)]
pub struct Loaded {
    pub nodes: usize,
    pub count: usize,
}

// The most type records of a file.
const MOST_TYPES: usize = 1024;

// The most entries of a type table that a file can say: the given six, and one of each type record.
const MOST_ENTRIES: usize = GIVEN.len() + MOST_TYPES;

// A type table in the making. Its entries stand at the front of a lent list, since load uses no heap and the caller's table is left
// alone until every question is answered yes. (Lent, and no field: a table of 6 KiB that is handed on by value is copied and cleared
// at each hand.)
#[derive(Drop)]
struct Table<'a> {
    entries: &'a mut [Entry],
    count: usize,
}

impl<'a> Model for Table<'a> {
    ghost Value = { List Entry };

    ghost view = { λ t. take t.count t.entries.now };

    ghost invariant = { λ t. (t.count ≤ 1030) × (length t.entries.now ≡ 1030) };
}

impl<'a> Table<'a> {
    // The given six alone.
    fn given(entries: &'a mut [Entry]) -> Table<'a>
        requires { length entries.old ≡ MOST_ENTRIES }
        ensures { result ≡ given_entries }
    {
        entries[..GIVEN.len()].copy_from_slice(&GIVEN);
        Table {
            entries,
            count: GIVEN.len(),
        }
    }

    fn entries(&self) -> &[Entry]
        ensures { result.now ≡ self.now }
    {
        &self.entries[..self.count]
    }

    fn push(&mut self, entry: Entry)
        requires { length self.old < MOST_ENTRIES }
        ensures { self.new ≡ self.old ++ entry ∷ [] }
    {
        self.entries[self.count] = entry;
        self.count += 1;
    }

    // Fills a type table with the entries, and with blanks past them.
    fn lay(&self, types: &mut [Entry])
        requires { length self.now ≤ length types.old }
        ensures { types.new ≡ filled self.now empty (length types.old) }
    {
        let entries = self.entries();
        types[..entries.len()].copy_from_slice(entries);
        types[entries.len()..].fill(Entry::BLANK);
    }
}

// Whether a head may have these two counts.
fn head_fits(types: usize, nodes: usize) -> bool
    ensures { result ≡ head_fits_lem types nodes }
{
    types <= MOST_TYPES && 1 <= nodes && nodes <= MOST_NODES
}

// Questions 6 to 8 of one type record, after the entries before it.
fn read_entry(place: u16, earlier: &[Entry], six: &[u8; 6]) -> Result<Entry, Question>
    ensures { result ≡ reading (type_question place earlier.now six.now) (entry_of six.now) }
{
    let own = earlier.len();
    let Record::Type(six) = record_of(six) else {
        return Err(Question::SectionMark { place });
    };
    let entry = entry_of(six);
    if usize::from(entry.left) >= own || usize::from(entry.right) >= own {
        return Err(Question::NumberRange { place });
    }
    if !is_new(&entry, earlier) {
        return Err(Question::TypeNew { place });
    }
    Ok(entry)
}

// Questions 5 to 7 of one node record, where so many terms are still to come.
fn read_node(place: u16, types: usize, pending: usize, six: &[u8; 6]) -> Result<Node, Question>
    ensures { result ≡ reading (node_question place types pending six.now) (node_of six.now) }
{
    if pending == 0 {
        return Err(Question::TermUnended { place });
    }
    let Record::Node(six) = record_of(six) else {
        return Err(Question::SectionMark { place });
    };
    let node = node_of(six);
    if !is_in_range(node, types) || second_number(six) != 0 {
        return Err(Question::NumberRange { place });
    }
    Ok(node)
}

// The records behind the head of a file that is as long as its head says.
#[derive(Clone, Copy)]
struct Sections<'a> {
    types: &'a [[u8; 6]],
    nodes: &'a [[u8; 6]],
    ghost few_types: { length types.now ≤ 1024 },
    ghost few_nodes: { length nodes.now ≤ 4096 },
}

impl<'a> Sections<'a> {
    // Questions 1 to 3: the file's length and its head.
    fn read(file: &'a [u8]) -> Result<Self, Question>
        ensures { MatchResult result (λ s. SectionsOf file.now s.types.now s.nodes.now) (λ q. head_question file.now ≡ Some q) }
    {
        let (records, []) = file.as_chunks::<6>() else {
            return Err(Question::FileLength);
        };
        let [first, body @ ..] = records else {
            return Err(Question::FileLength);
        };
        let Record::Head(six) = record_of(first) else {
            return Err(Question::FileHead);
        };
        let head = head_of(six);
        let types = usize::from(head.types);
        let nodes = usize::from(head.nodes);
        if !head_fits(types, nodes) {
            return Err(Question::FileHead);
        }
        if body.len() != types + nodes {
            return Err(Question::FileRecords);
        }
        let (types, nodes) = body.split_at(types);
        Ok(Sections { types, nodes })
    }

    // Questions 1 to 4, for a node table and a type table with this room.
    fn read_for(file: &'a [u8], node_room: usize, type_room: usize) -> Result<Self, Question>
        ensures { MatchResult result (λ s. SectionsFor file.now node_room type_room s.types.now s.nodes.now) (λ q. load_question file.now node_room type_room ≡ Some q) }
    {
        let sections = Sections::read(file)?;
        let nodes = sections.nodes;
        let count = GIVEN.len() + sections.types.len();
        if node_room < nodes.len() || type_room < count + nodes.len() {
            return Err(Question::TableRoom);
        }
        Ok(sections)
    }

    // Questions 6 to 8 of each type record, in order; the table, the given six at first, takes the entries of the records.
    fn read_table(&self, table: &mut Table) -> Result<(), Question>
        requires { table.old ≡ given_entries }
        ensures answer { result ≡ reading (type_questions 1 given_entries self.now.types.now) tt }
        ensures entries { OnOk result (table.new ≡ given_entries ++ map entry_of self.now.types.now) }
    {
        for (i, six) in self.types.iter().enumerate() {
            // (as: it is below 65,536, and try_from would add an error that never comes)
            let entry = read_entry((1 + i) as u16, table.entries(), six)?;
            table.push(entry);
        }
        Ok(())
    }

    // Questions 5 to 7 of each node record, in order, and question 9 after the last.
    fn term(&self) -> Result<(), Question>
        ensures { result ≡ reading (node_questions (1 + length self.now.types.now) (6 + length self.now.types.now) 1 self.now.nodes.now) tt }
    {
        let first = 1 + self.types.len();
        let types = GIVEN.len() + self.types.len();
        let mut pending = 1;
        for (i, six) in self.nodes.iter().enumerate() {
            // (as: it is below 65,536, and try_from would add an error that never comes)
            let node = read_node((first + i) as u16, types, pending, six)?;
            pending = pending - 1 + node.kind.children();
        }
        if pending == 0 {
            return Ok(());
        }
        // (as: it is below 65,536, and try_from would add an error that never comes)
        let place = (first + self.nodes.len()) as u16;
        Err(Question::TermEnded { place })
    }

    // Questions 5 to 9 of a file with these sections, for which there is room.
    fn read_rule(&self, table: &mut Table) -> Result<(), Question>
        requires { table.old ≡ given_entries }
        ensures { (file : List ℕ) (node_room type_room : ℕ) → SectionsFor file node_room type_room self.now.types.now self.now.nodes.now → MatchResult result (λ _. RuleOf file node_room type_room table.new self.now.nodes.now) (λ q. load_question file node_room type_room ≡ Some q) }
    {
        self.read_table(table)?;
        self.term()
    }

    // Fills a node table with the nodes, and with blanks past them.
    fn lay_nodes(&self, nodes: &mut [Node])
        requires { length self.now.nodes.now ≤ length nodes.old }
        ensures { nodes.new ≡ filled (map node_of self.now.nodes.now) blank (length nodes.old) }
    {
        let (rule, rest) = nodes.split_at_mut(self.nodes.len());
        // Each place looks up its record: std says nothing of what the nodes are after a zip over iter_mut.
        for (i, node) in rule.iter_mut().enumerate() {
            *node = self.nodes.get(i).map_or(Node::BLANK, node_of);
        }
        rest.fill(Node::BLANK);
    }
}

// Reads a rule file into a node table and a type table. It puts questions 1 to 9 in order; a no leaves both tables as
// they were. Otherwise the node table holds the nodes and then blanks, the type table the given six, the file's entries
// and then blanks.
pub fn load(file: &[u8], nodes: &mut [Node], types: &mut [Entry]) -> Result<Loaded, Refusal>
    ensures call { LoadCall file.now nodes.old types.old result nodes.new types.new }
    ensures rule { LoadedRule file.now (length nodes.old) (length types.old) result nodes.new types.new }
    ensures place { RefusedAt file.now result }
    ensures writes_back { WritesBack file.now result nodes.new types.new }
{
    let refuse = |question| Layer::File.refuse(question);
    let sections = Sections::read_for(file, nodes.len(), types.len()).map_err(refuse)?;
    let mut entries = [Entry::BLANK; MOST_ENTRIES];
    let mut table = Table::given(&mut entries);
    sections.read_rule(&mut table).map_err(refuse)?;
    sections.lay_nodes(nodes);
    table.lay(types);
    Ok(Loaded {
        nodes: sections.nodes.len(),
        count: table.entries().len(),
    })
}
