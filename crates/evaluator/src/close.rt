// Closing a run: its questions, and the decision.
ghost use Rattle.std.specs.Result.{MatchResult};
ghost use Rattle.evaluator.specs.OneCall.{CloseRefused, CloseCall};
ghost use Rattle.evaluator.specs.Evaluating.{Closable};

use crate::held::{Held, MOST_DEPTHS, Run};
use crate::outcome::Decided;
use crate::questions::{closed_term, held_in};
use crate::token::CloseToken;
use calculus::node::Node;
use refusals::{Layer, Question, Refusal};
use rewriter::redex::find_redex;
use rewriter::site::Redex;

// Questions 30 for front alone, 33 and 34.
fn close_question(run: &Run, front: &[Node]) -> Result<Held, Question>
    ensures value { MatchResult result (λ h. Closable run.now front.now h) (λ q. CloseRefused run.now front.now q) }
{
    let held = held_in(run, front)?;
    let mut depths = [0; MOST_DEPTHS];
    let term = closed_term(front, held.count, &mut depths)?;
    match find_redex(term, held.profile) {
        Redex::Value => Ok(held),
        // Two arms, so that an edit can turn the answer of one alone.
        Redex::Stuck => Err(Question::ValueHeld),
        Redex::Ready(_) => Err(Question::ValueHeld),
    }
}

// Ends a run and spends a token; any token closes any run. It puts questions 30 for front alone, 33 and 34 in order, and
// front is only read: the run is decided with the records of its value, the steps in all and the number of the accepted type,
// or undecided with the first question that is answered no.
pub fn close(run: Run, mut token: CloseToken, front: &[Node]) -> Result<Decided, Refusal>
    ensures call { CloseCall run front.now result }
{
    token.spent = true;
    let held = close_question(&run, front).map_err(|question| Layer::Run.refuse(question))?;
    Ok(Decided {
        records: held.count,
        steps: held.steps,
        type_number: held.type_number,
    })
}
