// What a host answers to a question, and the shapes of answers.

#[derive(Clone, Copy, PartialEq, Eq, Debug)]
pub enum Answer {
    Number(u16),
    Flag(bool),
    Maybe(Option<u16>),
    Pair(u16, u16),
}

// The shape of a question's answers: a number, a flag, perhaps a number, or a pair of numbers.
#[derive(Clone, Copy, PartialEq, Eq, Debug)]
pub enum Shape {
    Number,
    Flag,
    Maybe,
    Pair,
}
