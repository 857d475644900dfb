// A call of check in memory full of noise, held to what it must say and leave.
use crate::case::Due;
use calculus::entry::Entry;
use calculus::form::Form;
use calculus::node::Node;
use checker::check::check;
use hosts::host::Host;
use record_text::record::all_of;
use record_text::text::{Rising, TextError, records};
use refusals::Report;
use std::alloc::{AllocError, Global};

// What stands past the entries of a type table before a call: one entry, and then others.
const FIRST_NOISE: Entry = Entry {
    form: Form::Product,
    left: 9,
    right: 9,
};

const OTHER_NOISE: Entry = Entry {
    form: Form::Function,
    left: 0,
    right: 0,
};

// What stands in a scratch list before a call.
const WORD_NOISE: u32 = 0xffff_ffff;

// (One line: a shared function would say type and way at each call.)
fn entries_of(heap: Global, text: &str) -> Result<Vec<Entry>, TextError> {
    all_of(heap, &records(heap, text, Rising::Second)?)
}

// What is lent to a call.
#[derive(Clone, PartialEq, Eq, Drop)]
pub struct Memory {
    types: Vec<Entry>,
    scratch: Vec<u32>,
}

impl Memory {
    // A type table of these entries, cut off or filled up with noise to its length, and a scratch list of noise.
    pub fn noisy(heap: Global, types: &str, table: usize, words: usize) -> anyhow::Result<Memory> {
        let mut types = entries_of(heap, types)?;
        types.push(FIRST_NOISE)?;
        types.resize(table, OTHER_NOISE)?;
        Ok(Memory {
            types,
            scratch: vec![in heap; WORD_NOISE; words]?,
        })
    }

    // The type table up to the count, then what is added and blanks, and zeros as the scratch list.
    fn cleared(&self, heap: Global, count: usize, added: &[Entry]) -> Result<Memory, AllocError> {
        let mut types = self.types.clone()?;
        types.truncate(count);
        types.extend_from_slice(added)?;
        types.resize(self.types.len(), Entry::BLANK)?;
        Ok(Memory {
            types,
            scratch: vec![in heap; 0; self.scratch.len()]?,
        })
    }
}

// A rule, how many entries the type table has before, and what is due.
#[derive(Clone, Copy)]
pub struct Trial<'a> {
    pub nodes: &'a [Node],
    // the table is longer than its entries
    pub count: usize,
    pub due: Due,
}

impl Trial<'_> {
    // What a call that adds these entries must leave.
    fn after(&self, heap: Global, before: &Memory, added: &[Entry]) -> Result<Memory, AllocError> {
        match self.due {
            Due::Type(..) | Due::No(20..=24, _, _) => before.cleared(heap, self.count, added),
            Due::No(..) => before.clone(),
        }
    }

    // Whether a call in this memory, under this host, says and leaves what is due.
    pub fn holds<H: Host>(
        &self,
        heap: Global,
        mut memory: Memory,
        host: &mut H,
    ) -> anyhow::Result<bool> {
        let added = entries_of(heap, self.due.added())?;
        let after = self.after(heap, &memory, &added)?;
        let profile = host.profile();
        let said = check(
            self.nodes,
            &mut memory.types,
            self.count,
            &mut memory.scratch,
            host,
        );
        let as_said = match (said, self.due) {
            (Ok(accepted), Due::Type(number, _)) => {
                accepted.profile() == profile
                    && accepted.nodes() == self.nodes
                    && accepted.type_number() == number
                    && accepted.count() == self.count.saturating_add(added.len())
            }
            (Err(refusal), Due::No(number, place, child)) => {
                let due = Report {
                    layer: 2,
                    number,
                    place,
                    child,
                };
                refusal.report() == due
            }
            _ => false,
        };
        Ok(as_said && memory == after)
    }
}
