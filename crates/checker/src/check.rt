// Check: whether a rule has a type.
ghost use Rattle.std.specs.Prelude.{◌≡◌, ◌-◌, ◌≤◌, true, false, ◌++◌, length, take, replicate, MatchResult};
ghost use Rattle.calculus.specs.Forms.{empty};
ghost use Rattle.checker.specs.Checking.{zeros, Checkable, Uncheckable, AcceptCall, RejectCall, RefuseCall, Exactly};

use crate::acceptance::Acceptance;
use crate::machine::judge_nodes;
use calculus::entry::Entry;
use calculus::node::Node;
use hosts::host::Host;
use refusals::{Layer, Question, Refusal};
use types::table::counts_fit;

// Questions 10 to 13.
fn admit(nodes: &[Node], types: &[Entry], count: usize, words: usize) -> Result<(), Question>
    ensures first { MatchResult result (λ _. Checkable nodes.now types.now count words) (λ q. Uncheckable nodes.now types.now count words q) }
{
    if !counts_fit(nodes.len(), types.len(), count) {
        return Err(Question::Counts);
    }
    if types.len() < count + nodes.len() || words < 4 * nodes.len() {
        return Err(Question::CheckRoom);
    }
    if let Some(k) = types::table::first_fault(&types[0..count]) {
        // (as: it is below 65,536, and try_from would add an error that never comes)
        return Err(Question::EntryLaid { place: k as u16 });
    }
    if let Some(k) = terms::first_fault(nodes, count) {
        // (as: it is below 65,536, and try_from would add an error that never comes)
        return Err(Question::OneTerm { place: k as u16 });
    }
    Ok(())
}

// Blanks the type table from an entry on, and fills the scratch list with zeros.
fn clear(types: &mut [Entry], from: usize, numbers: &mut [u32])
    requires { from ≤ length types.old }
    ensures types { types.new ≡ take from types.old ++ replicate (length types.old - from) empty }
    ensures numbers { numbers.new ≡ zeros (length numbers.old) }
{
    types[from..].fill(Entry::BLANK);
    numbers.fill(0);
}

// Questions 20 to 24: the number of the rule's type and the count of entries by then, or the first no. The scratch list is
// left with zeros, and the type table with blanks past its entries. (What check is lent stays apart here too: a struct would be
// made for this one call. A match and no `?`: before either answer the table is cleared, from another entry on.)
fn judge_rule(
    nodes: &[Node],
    profile: u32,
    types: &mut [Entry],
    count: usize,
    scratch: &mut [u32],
) -> Result<(u16, usize), Question>
    requires { Checkable nodes.now types.old count (length scratch.old) }
    ensures judged { MatchResult result (λ a. AcceptCall nodes.now types.old count (length scratch.old) profile a.0 a.1 types.new scratch.new) (λ q. RejectCall nodes.now types.old count (length scratch.old) profile q types.new scratch.new) }
{
    match judge_nodes(nodes, profile, types, count, scratch) {
        Ok((type_number, grown)) => {
            clear(types, grown, scratch);
            Ok((type_number, grown))
        }
        Err(question) => {
            clear(types, count, scratch);
            Err(question)
        }
    }
}

// Checks a rule: the nodes, all of them the rule, with the first `count` entries of the type table, under a host's profile.
// It puts questions 10 to 13, and a no leaves type table and scratch list as they were. Then it puts 20 and 21 on reaching a
// node, goes through its children in order, and puts 22 to 24 as soon as the child that they are about is finished; the
// scratch list ends with zeros, whatever it held, and entries past the count are blank. An acceptance says the type and the
// new count: types of functions, pairs and injections that were missing are added at the table's end. A refusal leaves the old
// entries.
pub fn check<'a, H: Host>(
    nodes: &'a [Node],
    types: &mut [Entry],
    count: usize,
    scratch: &mut [u32],
    host: &mut H,
) -> Result<Acceptance<'a>, Refusal>
    ensures call { MatchResult result (λ a. (a.nodes ≡ nodes.entry) × (a.profile ≡ (H.meaning host.old).profile) × AcceptCall nodes.now types.old count (length scratch.old) (H.meaning host.old).profile a.type_number a.count types.new scratch.new) (λ e. RefuseCall nodes.now types.old count scratch.old (H.meaning host.old).profile e types.new scratch.new) }
    ensures exactly { MatchResult result (λ a. Exactly nodes.now types.old count (length scratch.old) (H.meaning host.old).profile true (take a.count types.new)) (λ e. Exactly nodes.now types.old count (length scratch.old) (H.meaning host.old).profile false (take count types.new)) }
    ensures kept { H.meaning host.new ≡ H.meaning host.old }
{
    admit(nodes, types, count, scratch.len()).map_err(|question| Layer::Check.refuse(question))?;
    let profile = host.profile();
    let (type_number, grown) = judge_rule(nodes, profile, types, count, scratch).map_err(
        |question| Layer::Check.refuse(question),
    )?;
    Ok(Acceptance::new(nodes, type_number, grown, profile))
}
