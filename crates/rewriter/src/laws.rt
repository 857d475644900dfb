// The laws of the rewriter. Each function computes nothing: its contract is the theorem.
ghost use Rattle.rewriter.specs.Laws.{WiderRange, StepInRange, StepClosedTerm, RunClosedTerm};

// Numbers in range.
pub fn ranges()
    ensures wider { WiderRange }
    ensures step { StepInRange }
{}

// Closed terms with numbers in range.
pub fn closed_terms()
    ensures step { StepClosedTerm }
    ensures run { RunClosedTerm }
{}
