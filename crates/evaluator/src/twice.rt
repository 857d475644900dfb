// A caller: what it may conclude of its calls from the contracts of start and run alone.
ghost use Rattle.std.specs.Prelude.{◌≡◌};
ghost use Rattle.calculus.specs.Syntax.{Term, flat};
ghost use Rattle.evaluator.specs.OneCall.{Fits};
ghost use Rattle.evaluator.specs.Lists.{run_call};
ghost use Rattle.evaluator.specs.Safety.{Quiet, ClosedRun};

use crate::close::close;
use crate::outcome::{Decided, Ran};
use crate::run::run;
use crate::start::start;
use calculus::node::Node;
use checker::acceptance::Acceptance;
use hosts::host::Host;
use refusals::Refusal;

// Runs a rule twice with so much fuel and closes. With tables that fit the rule, the second call is not stuck and not refused
// with 30 or 33, and the rule's term after all the steps of both, each under this host, is closed: decided exactly if it is a
// value.
pub fn run_twice<H: Host>(
    acceptance: &Acceptance,
    fuel: u32,
    front: &mut [Node],
    back: &mut [Node],
    host: &mut H,
) -> (Result<Ran, Refusal>, Result<Decided, Refusal>)
    ensures quiet { (rule : Term) → flat rule ≡ acceptance.now.nodes.now → Fits rule front.old back.old → Quiet (run_call (H.meaning host.old) fuel result.0) }
    ensures closed { (rule : Term) → flat rule ≡ acceptance.now.nodes.now → Fits rule front.old back.old → ClosedRun rule acceptance.now.type_number (H.meaning host.old) result.1 }
{
    let (mut held, token) = start(acceptance, front, back);
    let _ = run(&mut held, fuel, front, back, host);
    let second = run(&mut held, fuel, front, back, host);
    (second, close(held, token, front))
}
