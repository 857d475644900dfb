// Why a rule file came to no value.
use calculus::stop::StopCause;
use refusals::Refusal;

#[derive(Clone, Copy, PartialEq, Eq, Debug)]
pub enum Undecided {
    // load refused the file
    Unloaded(Refusal),
    // check refused the rule
    Unaccepted(Refusal),
    // front and back do not fit the rule
    Unstarted,
    // a slice was refused
    Refused(Refusal),
    // the run stopped before it was a value
    Stopped { cause: StopCause, steps: u32 },
}
