// The safety theorem, and that it is about something. Each function computes nothing: its contract is the theorem.
ghost use Rattle.evaluator.specs.Safety.{Safety};
ghost use Rattle.evaluator.specs.Worked.{Worked};

// What holds of every list of calls from start on. `start` ensures the same of the run that it makes.
pub fn safety()
    ensures { Safety }
{}

// Its premises can be met: a rule, a host and a list of calls.
pub fn worked()
    ensures { Worked }
{}
