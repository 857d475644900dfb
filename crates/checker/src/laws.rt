// What checking means. Each function computes nothing: its contract is the theorem.
ghost use Rattle.checker.specs.Derivations.{FaultsDeny, ReachedDeny};
ghost use Rattle.checker.specs.Meaning.{JudgeMeans};
ghost use Rattle.checker.specs.WorkedRules.{WorkedRules};

// Where a term cannot have a type.
pub fn refusals()
    ensures faults { FaultsDeny }
    ensures reached { ReachedDeny }
{}

// What the definition that check is held to says, by the typing judgement.
pub fn judging()
    ensures means { JudgeMeans }
{}

// Rules with their types, or the places where they have none, and where their runs stop.
pub fn examples()
    ensures rules { WorkedRules }
{}
