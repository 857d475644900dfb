// Running: the questions of a call, and then its steps.
ghost use Rattle.std.specs.Prelude.{◌≡◌, ◌≤◌, length, MatchResult};
ghost use Rattle.evaluator.specs.OneCall.{state_of, RunRefused, RunCall};
ghost use Rattle.evaluator.specs.Evaluating.{Runnable};

use crate::evaluate::evaluate;
use crate::held::{Held, MOST_DEPTHS, MOST_STEPS, Run};
use crate::outcome::Ran;
use crate::questions::{closed_term, held_in};
use calculus::node::Node;
use hosts::host::Host;
use refusals::{Layer, Question, Refusal};

// Questions 30 to 33. (That the scratch has room for the depths is said again by each function below run: it is a lent list, and a
// struct for it would be made for one call.)
fn run_question<H: Host>(
    run: &Run,
    fuel: u32,
    front: &[Node],
    back: &[Node],
    depths: &mut [u16],
    host: &mut H,
) -> Result<Held, Question>
    requires depths { 8193 ≤ length depths.old }
    ensures value { MatchResult result (λ h. Runnable (H.meaning host.old) fuel (state_of run.now front.now back.now) h) (λ q. RunRefused (H.meaning host.old) fuel (state_of run.now front.now back.now) q) }
    ensures kept { H.meaning host.new ≡ H.meaning host.old }
{
    let held = held_in(run, front)?;
    if back.len() != held.length {
        return Err(Question::TermHeld);
    }
    if fuel > MOST_STEPS - held.steps {
        return Err(Question::FuelLeft);
    }
    if host.profile() != held.profile {
        return Err(Question::ProfileAccepted);
    }
    let _term = closed_term(front, held.count, depths)?;
    Ok(held)
}

// Runs on with so much fuel, under a host. It puts questions 30 to 33 in order; a no leaves the run and both tables as they
// were. Otherwise it makes steps until the first of: the term is a value, it is stuck, the fuel is spent, the next term is
// longer than the table. Front then holds the term and blanks, back is blank, and the answer says why it stopped, the steps
// of this call, the steps in all and the term's records. The host is asked where a query step is made, or where the run is
// full at one, and it keeps its meaning.
pub fn run<H: Host>(
    run: &mut Run,
    fuel: u32,
    front: &mut [Node],
    back: &mut [Node],
    host: &mut H,
) -> Result<Ran, Refusal>
    ensures call { RunCall (H.meaning host.old) fuel (state_of run.old front.old back.old) result (state_of run.new front.new back.new) }
    ensures kept { H.meaning host.new ≡ H.meaning host.old }
{
    let mut depths = [0; MOST_DEPTHS];
    let mut held = run_question(run, fuel, front, back, &mut depths, host).map_err(
        |question| Layer::Run.refuse(question),
    )?;
    let ran = evaluate(fuel, held, front, back, &mut depths, host);
    held.count = ran.records;
    held.steps = ran.total;
    run.held = Some(held);
    Ok(ran)
}
