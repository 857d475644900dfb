// The rule by which an eliminator that has its values is replaced.
ghost use Rattle.std.specs.Prelude.{◌≡◌};
ghost use Rattle.rewriter.specs.Searches.{rule_for_lem, numeral_in, answer_rule_lem, rule_in};

use crate::site::Rule;
use calculus::kind::Kind;
use calculus::node::Node;
use hosts::host::LARGEST_ASKED;
use hosts::line::shape_of;

// The rule for an eliminator whose first child has this kind; a query has none here.
fn rule_for(eliminator: Kind, value: Kind) -> Option<Rule>
    ensures value { result ≡ rule_for_lem eliminator value }
{
    match (eliminator, value) {
        (Kind::Apply, Kind::Lambda) => Some(Rule::Beta),
        (Kind::Rec, Kind::Zero) => Some(Rule::RecZero),
        (Kind::Rec, Kind::Successor) => Some(Rule::RecSuccessor),
        (Kind::Fst, Kind::Pair) => Some(Rule::Fst),
        (Kind::Snd, Kind::Pair) => Some(Rule::Snd),
        (Kind::Case, Kind::Inl) => Some(Rule::CaseInl),
        (Kind::Case, Kind::Inr) => Some(Rule::CaseInr),
        _ => None,
    }
}

// The number of the numeral that the nodes begin with, or none. (A for: position was tried, and the check does not reach what it
// finds through the closure.)
fn numeral_of(nodes: &[Node]) -> Option<usize>
    ensures value { result ≡ numeral_in nodes.now }
{
    for (i, node) in nodes.iter().enumerate() {
        match node.kind {
            Kind::Successor => {}
            Kind::Zero => return Some(i),
            _ => return None,
        }
    }
    None
}

// The rule for a query of the value that the nodes begin with: by the laws of hosts it is answered exactly if the value is a
// numeral that may be asked at and the profile has the question.
fn answer_rule(profile: u32, question: u16, nodes: &[Node]) -> Option<Rule>
    ensures value { result ≡ answer_rule_lem profile question (numeral_in nodes.now) }
{
    let number = u16::try_from(numeral_of(nodes)?).ok()?;
    if number > LARGEST_ASKED || shape_of(profile, question).is_none() {
        return None;
    }
    Some(Rule::Answer { question, number })
}

// The rule for the eliminator that the nodes begin with, which has its values, or none where its values fit no rule.
pub fn rule_of(nodes: &[Node], profile: u32) -> Option<Rule>
    ensures value { result ≡ rule_in profile nodes.now }
{
    let (node, values) = nodes.split_first()?;
    match node.kind {
        Kind::Query => answer_rule(profile, node.number, values),
        kind => rule_for(kind, values.first()?.kind),
    }
}
