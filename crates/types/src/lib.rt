// Type tables: the given six entries, tables as laid down or the first entry at fault, how many
// nodes and types a rule may have, adding an entry, and the search by key.
#![tactic(auto)]

pub mod keyed;
pub mod table;
