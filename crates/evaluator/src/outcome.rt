// What run and close answer.
use calculus::stop::StopCause;

// A run call that was not refused.
#[derive(Clone, Copy, PartialEq, Eq, Debug)]
pub struct Ran {
    pub cause: StopCause,
    // the steps of this call
    pub made: u32,
    // the steps in all
    pub total: u32,
    // how many records the term has now
    pub records: usize,
}

// A run that ended with a value: how many records the value has, the steps in all, the number of its type.
#[derive(Clone, Copy, PartialEq, Eq, Debug)]
pub struct Decided {
    pub records: usize,
    pub steps: u32,
    pub type_number: u16,
}
