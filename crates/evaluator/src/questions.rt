// The questions that more than one call puts.
ghost use Rattle.std.specs.Prelude.{◌≡◌, ◌≤◌, ℕ, length, take, IfOk, IfErr, OnOk};
ghost use Rattle.evaluator.specs.declared.held.Held.{Held as HeldOf};
ghost use Rattle.evaluator.specs.OneCall.{FrontFits};
ghost use Rattle.refusals.specs.declared.Question.TheVariants as question;
ghost use Rattle.rewriter.specs.ClosedTerms.{OneClosed, FirstClosedFault};

use crate::held::{Held, Run};
use calculus::node::Node;
use refusals::Question;
use rewriter::closed::closed_fault;

// Question 30 for front alone: what the run keeps, if it holds a term and front has the recorded length.
pub(crate) fn held_in(run: &Run, front: &[Node]) -> Result<Held, Question>
    ensures fits { IfOk result (λ h. FrontFits run.now front.now h) }
    ensures unfit { IfErr result (λ q. (q ≡ question.TermHeld) × ((h : HeldOf) → FrontFits run.now front.now h → ⊥)) }
{
    run.held
        .filter(|held| front.len() == held.length)
        .ok_or(Question::TermHeld)
}

// Question 33: the term, if front's first `count` records are one. (The bounds are conditions: Held has them, and is not lent here.)
pub(crate) fn closed_term<'a>(
    front: &'a [Node],
    count: usize,
    depths: &mut [u16],
) -> Result<&'a [Node], Question>
    requires within { count ≤ length front.now }
    requires short { count ≤ 4096 }
    requires depths { 8193 ≤ length depths.old }
    ensures term { IfOk result (λ ns. ns.now ≡ take count front.now) }
    ensures closed { OnOk result (OneClosed (take count front.now)) }
    ensures fault { IfErr result (λ q. (k : ℕ) × (q ≡ question.ClosedTerm k) × FirstClosedFault (take count front.now) k) }
{
    let term = &front[..count];
    match closed_fault(term, depths) {
        // (as: it is below 65,536, and try_from would add an error that never comes)
        Some(k) => Err(Question::ClosedTerm { place: k as u16 }),
        None => Ok(term),
    }
}
