// The state of a script, and what each command does to it.
ghost use Rattle.std.specs.Prelude.{◌≡◌, ◌≤◌, replicate, vec_capacity, IfErr, OnErr, OnOk, ◌≢◌};
ghost use Rattle.calculus.specs.declared.form.Form.TheVariants.{Product};
ghost use Rattle.calculus.specs.declared.kind.Kind.TheVariants.{Fst};
ghost use Rattle.calculus.specs.Forms.{entry};
ghost use Rattle.calculus.specs.Kinds.{node};
ghost use Rattle.console.specs.declared.command.LineError.TheVariants.{Memory};
ghost use Rattle.console.specs.States.{SameState};

use crate::command::{Command, Lengths, LineError, Table};
use crate::hexadecimal::Hex;
use crate::host_data::HostData;
use crate::host_words::AnswerWords;
use crate::messages::RefusalLine;
use crate::runs::Runs;
use calculus::answer::Answer as HostAnswer;
use calculus::entry::Entry;
use calculus::form::Form;
use calculus::kind::Kind;
use calculus::node::Node;
use refusals::Refusal;
use rule_file::load::{Loaded, load};
use rule_file::write::write;
use std::alloc::{AllocError, Global};
use std::fmt;
use types::table::GIVEN;

// What new tables hold, so that a call that leaves a place alone can be seen to.
const NODE_FILLER: Node = Node {
    kind: Kind::Fst,
    number: 9,
};

const ENTRY_FILLER: Entry = Entry {
    form: Form::Product,
    left: 9,
    right: 9,
};

const NUMBER_FILLER: u32 = 9;

const BYTE_FILLER: u8 = 9;

#[derive(Drop)]
pub struct Session {
    heap: Global,
    // the bytes that load is given
    file: Vec<u8>,
    nodes: Vec<Node>,
    types: Vec<Entry>,
    scratch: Vec<u32>,
    bytes: Vec<u8>,
    // How many nodes, from the first, are the rule, and how many entries are said to be in use. The script's commands set
    // both apart from the tables, also to numbers that the tables do not have, so a table cut to its length would not do.
    rule: usize,
    count: usize,
    host: HostData,
}

// The answer to a command. What it shows of the tables is what they hold then. A refusal is an answer too, and an error only
// what is wrong with a line.
#[derive(Clone, Copy)]
pub enum Answer {
    Tables(Lengths),
    File(usize),
    Loaded(Loaded),
    Nodes(usize),
    Types(usize),
    Entry(usize),
    Count(usize),
    Wrote(usize),
    Dump(Table),
    Made,
    Profile(u32),
    Said(Option<HostAnswer>),
    Refused(Refusal),
}

impl Session {
    pub fn new(heap: Global) -> Session {
        Session {
            heap,
            file: Vec::new(heap),
            nodes: Vec::new(heap),
            types: Vec::new(heap),
            scratch: Vec::new(heap),
            bytes: Vec::new(heap),
            rule: 0,
            count: 0,
            host: HostData::new(heap),
        }
    }

    // Does what a command says. An error leaves the state as it was; where memory ran out, a table may have more memory than before.
    pub fn perform(&mut self, command: Command) -> Result<Answer, LineError<'static>>
        ensures kept { IfErr result (λ e. (e ≢ Memory) → self.new ≡ self.old) }
        ensures same { OnErr result (SameState self.old self.new) }
    {
        match command {
            Command::Tables(lengths) => self.make_tables(lengths),
            Command::File(bytes) => Ok(self.set_file(bytes)),
            Command::Load => Ok(self.load().unwrap_or_else(Answer::Refused)),
            Command::Nodes(nodes) => Ok(self.set_nodes(nodes)),
            Command::Types(entries) => self.set_types(entries.as_slice()),
            Command::Entry { place, entry } => self.set_entry(place, entry),
            Command::Count(count) => Ok(self.set_count(count)),
            Command::Write => Ok(self.write().unwrap_or_else(Answer::Refused)),
            Command::Dump(table) => Ok(Answer::Dump(table)),
            Command::Listing { today, versions } => {
                let host = HostData::Listing { today, versions };
                Ok(self.set_host(host).unwrap_or_else(Answer::Refused))
            }
            Command::Sheet { profile, lines } => {
                let host = HostData::Sheet { profile, lines };
                Ok(self.set_host(host).unwrap_or_else(Answer::Refused))
            }
            Command::Profile => Ok(Answer::Profile(self.host.profile())),
            Command::Ask { question, number } => Ok(Answer::Said(self.host.ask(question, number))),
        }
    }

    // Makes new tables, of these lengths and with their filler in every place. They stand in the memory of the old ones, and what more
    // is needed is there before anything that they hold is changed.
    fn make_tables(&mut self, lengths: Lengths) -> Result<Answer, LineError<'static>>
        ensures nodes { OnOk result (self.new.nodes.items ≡ replicate lengths.nodes (node Fst 9)) }
        ensures types { OnOk result (self.new.types.items ≡ replicate lengths.types (entry Product 9 9)) }
        ensures scratch { OnOk result (self.new.scratch.items ≡ replicate lengths.scratch NUMBER_FILLER) }
        ensures bytes { OnOk result (self.new.bytes.items ≡ replicate lengths.bytes BYTE_FILLER) }
        ensures error { IfErr result (λ e. e ≡ Memory) }
        ensures kept { OnErr result (SameState self.old self.new) }
    {
        make_room(&mut self.nodes, lengths.nodes)?;
        make_room(&mut self.types, lengths.types)?;
        make_room(&mut self.scratch, lengths.scratch)?;
        make_room(&mut self.bytes, lengths.bytes)?;
        refill(&mut self.nodes, NODE_FILLER, lengths.nodes);
        refill(&mut self.types, ENTRY_FILLER, lengths.types);
        refill(&mut self.scratch, NUMBER_FILLER, lengths.scratch);
        refill(&mut self.bytes, BYTE_FILLER, lengths.bytes);
        self.rule = 0;
        self.count = 0;
        Ok(Answer::Tables(lengths))
    }

    fn set_file(&mut self, bytes: Vec<u8>) -> Answer {
        self.file = bytes;
        Answer::File(self.file.len())
    }

    fn load(&mut self) -> Result<Answer, Refusal> {
        let loaded = load(
            self.file.as_slice(),
            self.nodes.as_mut_slice(),
            self.types.as_mut_slice(),
        )?;
        self.rule = loaded.nodes;
        self.count = loaded.count;
        Ok(Answer::Loaded(loaded))
    }

    fn set_nodes(&mut self, nodes: Vec<Node>) -> Answer {
        self.nodes = nodes;
        self.rule = self.nodes.len();
        Answer::Nodes(self.rule)
    }

    fn set_types(&mut self, later: &[Entry]) -> Result<Answer, LineError<'static>>
        ensures kept { OnErr result (self.new ≡ self.old) }
    {
        let entries = self.types.len();
        let count = later.len().saturating_add(6);
        if entries < count {
            return Err(LineError::NoEntry {
                place: count - 1,
                entries,
            });
        }
        let types = self.types.as_mut_slice();
        types[0..6].copy_from_slice(&GIVEN);
        types[6..count].copy_from_slice(later);
        self.count = count;
        Ok(Answer::Types(count))
    }

    fn set_entry(&mut self, place: usize, entry: Entry) -> Result<Answer, LineError<'static>>
        ensures kept { OnErr result (self.new ≡ self.old) }
    {
        let entries = self.types.len();
        if place >= entries {
            return Err(LineError::NoEntry { place, entries });
        }
        self.types[place] = entry;
        Ok(Answer::Entry(place))
    }

    fn set_count(&mut self, count: usize) -> Answer {
        self.count = count;
        Answer::Count(count)
    }

    // A refusal leaves the host as it was.
    fn set_host(&mut self, host: HostData) -> Result<Answer, Refusal> {
        host.made()?;
        self.host = host;
        Ok(Answer::Made)
    }

    fn write(&mut self) -> Result<Answer, Refusal> {
        let rule = self.rule.min(self.nodes.len());
        let nodes = self.nodes.as_slice();
        let length = write(
            &nodes[0..rule],
            self.types.as_slice(),
            self.count,
            self.bytes.as_mut_slice(),
        )?;
        Ok(Answer::Wrote(length))
    }
}

// An answer shown as its line, over the state that it was given in.
#[derive(Clone, Copy)]
pub struct AnswerLine<'a> {
    pub session: &'a Session,
    pub answer: Answer,
}

impl fmt::Display for AnswerLine<'_> {
    fn fmt<W: fmt::Write>(&self, f: &mut fmt::Formatter<W>) -> fmt::Result {
        match self.answer {
            Answer::Tables(
                Lengths {
                    nodes,
                    types,
                    scratch,
                    bytes,
                },
            ) => { write!(f, "tables {nodes} {types} {scratch} {bytes}") }
            Answer::File(length) => write!(f, "file {length}"),
            Answer::Loaded(Loaded { nodes, count }) => write!(f, "loaded {nodes} {count}"),
            Answer::Nodes(rule) => write!(f, "nodes {rule}"),
            Answer::Types(count) => write!(f, "types {count}"),
            Answer::Entry(place) => write!(f, "entry {place}"),
            Answer::Count(count) => write!(f, "count {count}"),
            Answer::Wrote(length) => self.session.write_front(f, length),
            Answer::Dump(table) => self.session.write_table(f, table),
            Answer::Made => write!(f, "host {}", self.session.host),
            Answer::Profile(profile) => write!(f, "profile {profile:08x}"),
            Answer::Said(answer) => write!(f, "{}", AnswerWords(answer)),
            Answer::Refused(refusal) => write!(f, "{}", RefusalLine(refusal)),
        }
    }
}

impl Session {
    // What write answers: a length, and so many bytes of the byte list.
    fn write_front<W: fmt::Write>(&self, f: &mut fmt::Formatter<W>, length: usize) -> fmt::Result {
        let bytes = self.bytes.as_slice();
        let written = Hex(&bytes[0..length.min(bytes.len())]);
        write!(f, "wrote {length} {written}")
    }

    // What a table holds.
    fn write_table<W: fmt::Write>(&self, f: &mut fmt::Formatter<W>, table: Table) -> fmt::Result {
        match table {
            Table::Nodes => write!(f, "dump{}", Runs(self.nodes.as_slice())),
            Table::Types => write!(f, "dump{}", Runs(self.types.as_slice())),
            Table::Scratch => write!(f, "dump{}", Runs(self.scratch.as_slice())),
            Table::Bytes => write!(f, "dump{}", Runs(self.bytes.as_slice())),
        }
    }
}

// Gives a table memory for this length, and leaves what it holds.
fn make_room<T: Copy>(table: &mut Vec<T>, length: usize) -> Result<(), AllocError>
    ensures items { table.new.items ≡ table.old.items }
    ensures room { OnOk result (length ≤ vec_capacity table.new) }
{
    table.reserve(length.saturating_sub(table.len()))?;
    Ok(())
}

// Makes a table, which has room for it, anew: of this length and with this in every place. (Inlined, so that the filler is a
// constant in the loop that writes it.)
#[inline]
fn refill<T: Copy>(table: &mut Vec<T>, filler: T, length: usize)
    requires room { length ≤ vec_capacity table.old }
    ensures { table.new.items ≡ replicate length filler }
{
    table.clear();
    // It has room, so this is no error.
    let _ = table.resize(length, filler);
}
