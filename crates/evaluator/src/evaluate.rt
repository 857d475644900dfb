// The steps of a run call: from the term that front holds to the first cause to stop.
//
// Front and back stay two parameters, as the calls have them: of a struct of both, a clause could name what is left in them
// only by place, as `tables.exit.0.now`, which is no plainer than `front.new`.
ghost use Rattle.std.specs.Prelude.{◌≡◌, ◌≤◌, length, take};
ghost use Rattle.rewriter.specs.ClosedTerms.{OneClosed};
ghost use Rattle.evaluator.specs.Evaluating.{Halted, Evaluated};
ghost use Rattle.evaluator.specs.OneCall.{FuelLeft};

use crate::held::Held;
use crate::outcome::Ran;
use crate::tables::{blank_rest, copy_first};
use calculus::node::Node;
use calculus::stop::StopCause;
use hosts::host::Host;
use rewriter::redex::find_redex;
use rewriter::rewrite::rewrite;
use rewriter::site::Redex;

// Steps the term that the run holds in front until it is a value or stuck, the fuel is spent or the next term is longer than
// the table. Each next term is written to back and copied to front; `depths` is scratch. (What run is lent stays apart in
// the functions below it: a struct would be made for one call, and taken apart there.)
fn step_on<H: Host>(
    fuel: u32,
    held: Held,
    front: &mut [Node],
    back: &mut [Node],
    depths: &mut [u16],
    host: &mut H,
) -> Ran
    requires profile { (H.meaning host.old).profile ≡ held.profile }
    requires term { OneClosed (take held.count front.old) }
    requires fuel { FuelLeft fuel held }
    requires front { length front.old ≡ held.length }
    requires back { length back.old ≡ held.length }
    requires depths { 8193 ≤ length depths.old }
    ensures halted { Halted (H.meaning host.old) fuel held front.old front.new result }
    ensures kept { H.meaning host.new ≡ H.meaning host.old }
{
    let mut used = held.count;
    let mut made = 0;

    // No `for` over the fuel: the term is looked at before the fuel is, and it would never come to its end.
    let cause = loop {
        let site = match find_redex(&front[..used], held.profile) {
            Redex::Value => break StopCause::Value,
            Redex::Stuck => break StopCause::Stuck,
            Redex::Ready(site) => site,
        };
        if made == fuel {
            break StopCause::Spent;
        }
        let Some(next) = rewrite(&front[..used], site, depths, back, host) else {
            break StopCause::Full;
        };
        copy_first(back, next, front);
        used = next;
        made += 1;
    };
    Ran {
        cause,
        made,
        total: held.steps + made,
        records: used,
    }
}

// The steps of a call on a run, and what they leave: front is the last term and blanks, and back is blank.
pub(crate) fn evaluate<H: Host>(
    fuel: u32,
    held: Held,
    front: &mut [Node],
    back: &mut [Node],
    depths: &mut [u16],
    host: &mut H,
) -> Ran
    requires profile { (H.meaning host.old).profile ≡ held.profile }
    requires term { OneClosed (take held.count front.old) }
    requires fuel { FuelLeft fuel held }
    requires front { length front.old ≡ held.length }
    requires back { length back.old ≡ held.length }
    requires depths { 8193 ≤ length depths.old }
    ensures evaluated { Evaluated (H.meaning host.old) fuel held front.old result front.new back.new }
    ensures kept { H.meaning host.new ≡ H.meaning host.old }
{
    let ran = step_on(fuel, held, front, back, depths, host);
    blank_rest(front, ran.records, back);
    ran
}
