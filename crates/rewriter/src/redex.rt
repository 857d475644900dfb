// The redex of a term: where its next step is taken, without writing and without asking the host.
ghost use Rattle.std.specs.Prelude.{◌≡◌, ◌+◌, ◌<◌, ◌≤◌, List, length, drop};
ghost use Rattle.calculus.specs.Syntax.{Term, onto, size};
ghost use Rattle.calculus.specs.declared.node.Node.{Node as NodeOf};
ghost use Rattle.rewriter.specs.Redexes.{taken, Written, FoundRedex};

use crate::focus::{Focus, focus_of};
use crate::parts::past_term;
use crate::rules::rule_of;
use crate::site::{Redex, Site};
use calculus::kind::Kind;
use calculus::node::Node;

// The place just past an eliminator whose values end before `upto`: a recursion and a case have two more children.
fn past_eliminator(front: &[Node], at: usize, upto: usize) -> usize
    requires values { at < upto }
    requires inside { upto ≤ length front.now }
    ensures end { (e : Term) (rest : List NodeOf) → drop at front.now ≡ onto e rest → upto ≡ at + taken e → result ≡ at + size e }
{
    let node = front[at];
    match node.kind {
        Kind::Rec | Kind::Case => past_term(front, past_term(front, upto)),
        _ => upto,
    }
}

// The redex of the term in `front`: where it is and by which rule it is replaced. A term that is no value and has no
// redex, or one without a rule, is stuck. (A match: a site in the closure of a map_or would be no plainer.)
#[tactic(auto, using(crate::proofs::Finding::bounds))]
pub fn find_redex(front: &[Node], profile: u32) -> Redex
    requires { Written front.now }
    ensures found { FoundRedex profile front.now result }
{
    match focus_of(front) {
        Focus::Value => Redex::Value,
        Focus::Variable => Redex::Stuck,
        Focus::Eliminator { at, upto } => match rule_of(&front[at..], profile) {
            None => Redex::Stuck,
            Some(rule) => Redex::Ready(Site {
                at,
                upto,
                end: past_eliminator(front, at, upto),
                rule,
            }),
        },
    }
}
