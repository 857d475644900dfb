// The type table: six given entries, and later ones that each join two lower ones, no two equal.
ghost use Rattle.std.specs.Prelude.{◌≡◌, ◌^◌, ◌<◌, not, ◌++◌, length, take, drop, MatchBool};
ghost use Rattle.types.specs.Adding.{index_of, with_entry};
ghost use Rattle.types.specs.Counts.{CountsFit};
ghost use Rattle.calculus.specs.Tables.{same_entry, occurs, laid, TableJudged};

use crate::keyed::{Keyed, first_with_key};
use calculus::entry::Entry;
use calculus::form::Form;

// An entry has the key that it equals.
impl Keyed<Entry> for Entry {
    ghost keyed = { same_entry };

    fn has_key(&self, key: &Entry) -> bool {
        self == key
    }
}

// The entries with which every type table begins: nat, unit, void, unit + unit, unit + nat, nat × nat.
pub const GIVEN: [Entry; 6] = [
    Entry {
        form: Form::Nat,
        left: 0,
        right: 0,
    },
    Entry {
        form: Form::Unit,
        left: 0,
        right: 0,
    },
    Entry {
        form: Form::Void,
        left: 0,
        right: 0,
    },
    Entry {
        form: Form::Sum,
        left: 1,
        right: 1,
    },
    Entry {
        form: Form::Sum,
        left: 1,
        right: 0,
    },
    Entry {
        form: Form::Product,
        left: 0,
        right: 0,
    },
];

// The most nodes of a rule.
pub const MOST_NODES: usize = 4096;

// The most types of a rule, the given six among them.
pub const MOST_TYPES: usize = 1030;

// Question 10: whether a rule may have so many nodes and so many types, by a type table of the length `types`.
pub fn counts_fit(nodes: usize, types: usize, count: usize) -> bool
    ensures value { MatchBool result (CountsFit nodes types count) (CountsFit nodes types count → ⊥) }
{
    (1..=MOST_NODES).contains(&nodes)
        && (GIVEN.len()..=MOST_TYPES).contains(&count)
        && count <= types
}

// Whether none of the entries equals this one.
#[tactic(auto, using(crate::proofs::Laid::occurs_first))]
pub fn is_new(entry: &Entry, earlier: &[Entry]) -> bool
    ensures value { result ≡ not (occurs entry.now earlier.now) }
{
    first_with_key(earlier, entry).is_none()
}

// Whether an entry may stand in a type table after these: one of the given six at its place, or one that joins two
// earlier types by a form that joins and equals none of them.
pub fn is_laid(entry: &Entry, earlier: &[Entry]) -> bool
    ensures value { result ≡ laid earlier.now entry.now }
{
    let own = earlier.len();
    if let Some(given) = GIVEN.get(own) {
        return entry == given;
    }
    let joins = matches!(entry.form, Form::Function | Form::Product | Form::Sum);
    let lower = usize::from(entry.left) < own && usize::from(entry.right) < own;
    joins && lower && is_new(entry, earlier)
}

// The number of an entry in the table of the first `count` entries, and the count once it is in it: where it is missing, it
// is added at the end. The table and its count are two parameters, since check is lent them so: its form is fixed.
pub fn add(types: &mut [Entry], count: usize, entry: Entry) -> (u16, usize)
    requires room { count < length types.old }
    requires numbered { count < 2 ^ 16 }
    ensures number { result.0 ≡ index_of entry (take count types.old) }
    ensures count { result.1 ≡ length (with_entry (take count types.old) entry) }
    ensures after { types.new ≡ with_entry (take count types.old) entry ++ drop result.1 types.old }
{
    // (as: it is below 65,536, and try_from would add an error that never comes)
    if let Some(i) = first_with_key(&types[..count], &entry) {
        return (i as u16, count);
    }
    types[count] = entry;
    (count as u16, count + 1)
}

// Where the entries stop being a type table: nowhere, or at the first entry at fault. (An Option, as of a search: each caller's
// own question says what the place is.)
pub fn first_fault(entries: &[Entry]) -> Option<usize>
    ensures judged { TableJudged entries.now result }
{
    entries
        .iter()
        .enumerate()
        .position(|(i, entry)| !is_laid(entry, &entries[..i]))
}

#[cfg(test)]
mod tests {
    use super::*;

    // Where the given six with this seventh entry stop being a type table.
    fn fault_with(form: Form, left: u16, right: u16) -> Option<usize> {
        let mut entries = [Entry::BLANK; 7];
        entries[..6].copy_from_slice(&GIVEN);
        entries[6] = Entry { form, left, right };
        first_fault(&entries)
    }

    #[test]
    fn the_given_six_are_a_table(rt: HostRuntime) {
        assert_eq!(rt; first_fault(&GIVEN), None);
    }

    #[test]
    fn a_given_entry_is_not_another(rt: HostRuntime) {
        let mut entries = GIVEN;
        entries[4].right = 1;
        assert_eq!(rt; first_fault(&entries), Some(4));
    }

    #[test]
    fn the_types_joined_are_lower(rt: HostRuntime) {
        assert_eq!(rt; fault_with(Form::Function, 5, 5), None);
        assert_eq!(rt; fault_with(Form::Function, 6, 5), Some(6));
        assert_eq!(rt; fault_with(Form::Function, 5, 6), Some(6));
    }

    #[test]
    fn a_later_entry_is_new_and_joins(rt: HostRuntime) {
        assert_eq!(rt; fault_with(Form::Sum, 1, 1), Some(6));
        assert_eq!(rt; fault_with(Form::Nat, 0, 0), Some(6));
    }

    #[test]
    fn the_first_of_two_is_found(rt: HostRuntime) {
        let entries = [GIVEN[1], GIVEN[0], GIVEN[0]];
        assert_eq!(rt; first_with_key(&entries, &GIVEN[0]), Some(1));
    }
}
