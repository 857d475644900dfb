// Starting a run, and looking at the term that it holds.
ghost use Rattle.std.specs.Prelude.{◌≡◌, ◌-◌, ◌≤◌, false, ◌++◌, length, Ok, Err, MatchResult};
ghost use Rattle.std.specs.List.{AllByRecursion};
ghost use Rattle.calculus.specs.Syntax.{Term, flat};
ghost use Rattle.evaluator.specs.OneCall.{state_of, blanks, Narrow, Fits, StartCall, LookCall};
ghost use Rattle.evaluator.specs.Safety.{SafeFrom, Agree};

use crate::held::{Held, LONGEST, Run};
use crate::questions::held_in;
use crate::tables::blank_rest;
use crate::token::CloseToken;
use calculus::node::Node;
use checker::acceptance::Acceptance;
use refusals::{Layer, Refusal};

// Lays the nodes at the front of one table, with blanks behind them, and blanks another. They are copied one by one, since
// that a number has 16 bits is known only of a node whose number is read.
fn lay(nodes: &[Node], front: &mut [Node], back: &mut [Node])
    requires { length nodes.now ≤ length front.old }
    ensures front { front.new ≡ nodes.now ++ blanks (length front.old - length nodes.now) }
    ensures back { back.new ≡ blanks (length back.old) }
    ensures narrow { AllByRecursion Narrow nodes.now }
{
    for (i, node) in nodes.iter().enumerate() {
        let _number = node.number;
        front[i] = *node;
    }
    blank_rest(front, nodes.len(), back);
}

// Starts a run of an accepted rule. Front and back fit if they are equally long, from as many records as the rule has nodes
// to 4,096: then front is the rule and blanks, and back is blank. Otherwise both are left as they are, and the run holds
// nothing. The acceptance may start other runs. For the rule, the one term of the acceptance's nodes: `leaves` says what
// start leaves, `safe` what holds after every list of calls from there on, and `agree` that two runs of one rule agree.
pub fn start(acceptance: &Acceptance, front: &mut [Node], back: &mut [Node]) -> (Run, CloseToken)
    ensures leaves { (rule : Term) → flat rule ≡ acceptance.now.nodes.now → StartCall rule acceptance.now.type_number acceptance.now.profile front.old back.old (state_of result.0 front.new back.new) }
    ensures safe { (rule : Term) → flat rule ≡ acceptance.now.nodes.now → Fits rule front.old back.old → SafeFrom rule acceptance.now.type_number acceptance.now.profile (length front.old) (state_of result.0 front.new back.new) }
    ensures agree { Agree }
    ensures token { result.1.spent ≡ false }
{
    let nodes = acceptance.nodes();
    let token = CloseToken { spent: false };
    let length = front.len();
    if length != back.len() || length < nodes.len() || length > LONGEST {
        return (Run { held: None }, token);
    }
    lay(nodes, front, back);
    let held = Held {
        length,
        count: nodes.len(),
        steps: 0,
        type_number: acceptance.type_number(),
        profile: acceptance.profile(),
    };
    (Run { held: Some(held) }, token)
}

// The term that the run holds, as front's own records: front up to the recorded count. It puts question 30 for front alone.
pub fn look<'a>(run: &Run, front: &'a [Node]) -> Result<&'a [Node], Refusal>
    ensures call { MatchResult result (λ ns. LookCall run.now front.now (Ok ns.now)) (λ x. LookCall run.now front.now (Err x)) }
{
    let held = held_in(run, front).map_err(|question| Layer::Run.refuse(question))?;
    let count = held.count;
    Ok(&front[..count])
}
