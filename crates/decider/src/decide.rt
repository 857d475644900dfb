// The end-to-end call: what becomes of a rule file under a host.
ghost use Rattle.std.specs.Prelude.{◌≡◌};
ghost use Rattle.calculus.specs.Syntax.{Term, flat};
ghost use Rattle.decider.specs.Deciding.{decision, Ends, DecideCall};

use crate::decision::Undecided;
use crate::memory::Memory;
use crate::slices::{Fuel, run_slices};
use calculus::node::Node;
use checker::acceptance::Acceptance;
use checker::check::check;
use evaluator::close::close;
use evaluator::outcome::{Decided, Ran};
use evaluator::start::start;
use hosts::host::Host;
use refusals::Refusal;
use rule_file::load::load;

// The decision of a run that was closed, by what its last slice and close answered.
fn decision_of(
    last: Result<Ran, Refusal>,
    closing: Result<Decided, Refusal>,
) -> Result<Decided, Undecided>
    ensures value { result ≡ decision last closing }
{
    let ran = last.map_err(Undecided::Refused)?;
    closing.map_err(|_| Undecided::Stopped {
        cause: ran.cause,
        steps: ran.total,
    })
}

// Runs an accepted rule in slices and closes it. (What is lent stays apart, here and in run_slices: a struct would be made for one
// call.)
fn run_accepted<H: Host>(
    acceptance: &Acceptance,
    front: &mut [Node],
    back: &mut [Node],
    host: &mut H,
    fuel: Fuel,
) -> Result<Decided, Undecided>
    requires { acceptance.now.profile ≡ (H.meaning host.old).profile }
    ensures ends { (rule : Term) → flat rule ≡ acceptance.now.nodes.now → Ends (H.meaning host.old) fuel.total rule acceptance.now.type_number front.old back.old result front.new }
    ensures kept { H.meaning host.new ≡ H.meaning host.old }
{
    let (mut held, token) = start(acceptance, front, back);
    if held.records().is_none() {
        let _ = close(held, token, front);
        return Err(Undecided::Unstarted);
    }
    let last = run_slices(&mut held, fuel, front, back, host);
    decision_of(last, close(held, token, front))
}

// Takes a rule file to its decision under a host: load, check, start, run in slices of at most `slice` steps (all at once where
// that is 0) with so much fuel in all, close. Decided says that the step rules take the file's rule to the value that front then
// holds, in that many steps under this host; anything else says which call refused, or for which cause the run was left. (Fuel and
// slice are two numbers, as the caller has them; below they are one Fuel.)
pub fn decide<H: Host>(
    file: &[u8],
    memory: Memory,
    host: &mut H,
    fuel: u32,
    slice: u32,
) -> Result<Decided, Undecided>
    // The fourth field of the memory at the end is front.
    ensures call { let front = memory.exit.1.1.1.0.now in DecideCall file.now memory.entry (H.meaning host.old) fuel result front }
    ensures kept { H.meaning host.new ≡ H.meaning host.old }
{
    let Memory {
        nodes,
        types,
        scratch,
        front,
        back,
    } = memory;
    let loaded = load(file, nodes, types).map_err(Undecided::Unloaded)?;
    let rule = &nodes[..loaded.nodes];
    let acceptance = check(rule, types, loaded.count, scratch, host).map_err(
        Undecided::Unaccepted,
    )?;
    let fuel = Fuel { total: fuel, slice };
    run_accepted(&acceptance, front, back, host, fuel)
}
