// Where a term takes its next step, and by which rule.

// The rules that replace a redex, by the values that its node takes. (An enum and no closure: it is handed out, and a run uses no
// heap.)
#[derive(Clone, Copy)]
pub enum Rule {
    // an application of a function to an argument
    Beta,
    // a recursion over zero
    RecZero,
    // a recursion over a successor
    RecSuccessor,
    // the first part of a pair
    Fst,
    // the second part of a pair
    Snd,
    // a case of a left injection
    CaseInl,
    // a case of a right injection
    CaseInr,
    // a question at a number, which the host answers
    Answer { question: u16, number: u16 },
}

// A redex in a list of nodes: it begins at `at`, the values that its rule looks at end before `upto`, and it ends before
// `end`.
#[derive(Clone, Copy)]
pub struct Site {
    pub at: usize,
    pub upto: usize,
    pub end: usize,
    pub rule: Rule,
}

// What a term is to evaluation: a value; no value, and without a next term; or ready to step at a redex.
#[derive(Clone, Copy)]
pub enum Redex {
    Value,
    Stuck,
    Ready(Site),
}
