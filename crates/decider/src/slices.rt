// Running in slices.
ghost use Rattle.std.specs.Prelude.{◌≡◌};
ghost use Rattle.evaluator.specs.OneCall.{state_of};
ghost use Rattle.decider.specs.Slices.{Sliced};

use calculus::node::Node;
use calculus::stop::StopCause;
use evaluator::held::Run;
use evaluator::outcome::Ran;
use evaluator::run::run;
use hosts::host::Host;
use refusals::Refusal;

// How much fuel a run has in all, and how much of it one call may use: all at once where `slice` is 0.
#[derive(Clone, Copy)]
pub struct Fuel {
    pub total: u32,
    pub slice: u32,
}

// Runs on with so much fuel in all, in slices. It ends with the first slice that is refused or stops for another cause than a
// spent slice, or once the fuel is used up, and answers what that slice answered.
pub fn run_slices<H: Host>(
    held: &mut Run,
    fuel: Fuel,
    front: &mut [Node],
    back: &mut [Node],
    host: &mut H,
) -> Result<Ran, Refusal>
    ensures sliced { Sliced (H.meaning host.old) fuel.total (state_of held.old front.old back.old) result (state_of held.new front.new back.new) }
    ensures kept { H.meaning host.new ≡ H.meaning host.old }
{
    let Fuel { total, slice } = fuel;
    let most = if slice == 0 { total } else { slice };
    let mut left = total;

    // No `for`: the number of slices is not known before the last.
    loop {
        let asked = most.min(left);
        let ran = run(held, asked, front, back, host)?;
        if ran.cause != StopCause::Spent || asked == left {
            return Ok(ran);
        }
        left -= asked;
    }
}
