// Why a run stops, in the order in which the causes are tried.

#[derive(Clone, Copy, PartialEq, Eq, Debug)]
pub enum StopCause {
    // the term is a value
    Value,
    // the term is no value and has no next term
    Stuck,
    // the fuel is spent
    Spent,
    // the next term is longer than the table
    Full,
}
