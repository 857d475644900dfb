// One step: the next term, written to another table.
ghost use Rattle.std.specs.Prelude.{◌≡◌, ◌+◌, ◌≤◌, [], ◌∷◌, ◌++◌, length, Some as some};
ghost use Rattle.calculus.specs.declared.answer.Answer.{Answer as AnswerOf};
ghost use Rattle.calculus.specs.declared.kind.Kind.TheVariants.{Apply, Rec};
ghost use Rattle.calculus.specs.Kinds.{node};
ghost use Rattle.calculus.specs.Meanings.{reply};
ghost use Rattle.calculus.specs.Syntax.{Term, flat};
ghost use Rattle.rewriter.specs.Depths.{HasRoom};
ghost use Rattle.rewriter.specs.Redexes.{RedexAt};
ghost use Rattle.rewriter.specs.Rewrites.{StandsAt, Replaces, Rewritten};
ghost use Rattle.rewriter.specs.Substituted.{substituted};
ghost use Rattle.rewriter.specs.Writes.{Wrote};

use crate::parts::past_term;
use crate::site::{Rule, Site};
use crate::substitution::substitute;
use crate::writing::write;
use calculus::kind::Kind;
use calculus::node::Node;
use hosts::host::Host;
use hosts::reply::put_answer;

// Writes what a recursion over a successor becomes: an application of `step`, with `number` in place of its variable, to
// the recursion over `number`. That recursion's parts stand in a row in `parts`. (Three parts of the table, lent apart.)
fn unroll(
    number: &[Node],
    step: &[Node],
    parts: &[Node],
    depths: &mut [u16],
    out: &mut [Node],
) -> Option<usize>
    requires room { HasRoom (length depths.old) step.now }
    ensures wrote { Wrote out.old 0 (node Apply 0 ∷ (substituted number.now (0 ∷ []) step.now ++ (node Rec 0 ∷ parts.now))) out.new result }
{
    let apply = Node {
        kind: Kind::Apply,
        number: 0,
    };
    let rec = Node {
        kind: Kind::Rec,
        number: 0,
    };
    let head = write(out, 0, &[apply])?;
    let length = substitute(step, number, depths, &mut out[head..])?;
    let used = write(out, head + length, &[rec])?;
    write(out, used, parts)
}

// Writes the host's answer to a question at a number. A query without an answer is no redex, so there is one.
fn put_reply<H: Host>(question: u16, number: u16, out: &mut [Node], host: &mut H) -> Option<usize>
    ensures wrote { (a : AnswerOf) → (H.meaning host.old).answer question number ≡ some a → Wrote out.old 0 (flat (reply a)) out.new result }
    ensures kept { H.meaning host.new ≡ H.meaning host.old }
{
    put_answer(host.query(question, number)?, out)
}

// Writes what the redex at a site becomes to the front of `out`. What it is lent stays apart: a struct of the table, the
// stack and the host would be made for this one call, and taken apart here.
fn replace<H: Host>(
    front: &[Node],
    site: Site,
    depths: &mut [u16],
    out: &mut [Node],
    host: &mut H,
) -> Option<usize>
    requires redex { StandsAt (H.meaning host.old) front.now site }
    requires values { site.at + 2 ≤ site.upto }
    requires rest { site.upto ≤ site.end }
    requires inside { site.end ≤ length front.now }
    requires room { HasRoom (length depths.old) front.now }
    ensures wrote { Replaces (H.meaning host.old) front.now site out.old out.new result }
    ensures kept { H.meaning host.new ≡ H.meaning host.old }
{
    let Site {
        at,
        upto,
        end,
        rule,
    } = site;
    match rule {
        Rule::Beta => {
            let argument = past_term(front, at + 1);
            substitute(&front[at + 2..], &front[argument..upto], depths, out)
        }
        Rule::RecZero => {
            let step = past_term(front, upto);
            write(out, 0, &front[upto..step])
        }
        Rule::RecSuccessor => {
            let step = past_term(front, upto);
            unroll(
                &front[at + 2..upto],
                &front[step..],
                &front[at + 2..end],
                depths,
                out,
            )
        }
        Rule::Fst => {
            let second = past_term(front, at + 2);
            write(out, 0, &front[at + 2..second])
        }
        Rule::Snd => {
            let second = past_term(front, at + 2);
            write(out, 0, &front[second..upto])
        }
        Rule::CaseInl => substitute(&front[upto..], &front[at + 2..upto], depths, out),
        Rule::CaseInr => {
            let right = past_term(front, upto);
            substitute(&front[right..], &front[at + 2..upto], depths, out)
        }
        Rule::Answer { question, number } => put_reply(question, number, out, host),
    }
}

// Writes the next term of the term in `front` to the front of `back`: the nodes before its redex, what the redex becomes,
// and the nodes after it. Answers its length, or none where it is longer than `back`. The host is asked only for the
// answer of a query that is the redex. `depths` is scratch. (The table, the stack and the host are the caller's, and lent
// apart.)
pub fn rewrite<H: Host>(
    front: &[Node],
    site: Site,
    depths: &mut [u16],
    back: &mut [Node],
    host: &mut H,
) -> Option<usize>
    requires redex { RedexAt (H.meaning host.old).profile front.now site }
    requires room { HasRoom (length depths.old) front.now }
    requires fits { length front.now ≤ length back.old }
    ensures step { (t : Term) → flat t ≡ front.now → Rewritten (H.meaning host.old) t back.old back.new result }
    ensures kept { H.meaning host.new ≡ H.meaning host.old }
{
    let Site { at, end, .. } = site;
    let head = write(back, 0, &front[..at])?;
    let length = replace(front, site, depths, &mut back[head..], host)?;
    write(back, head + length, &front[end..])
}
