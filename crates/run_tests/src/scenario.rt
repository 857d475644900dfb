// What a scenario is: a rule, two tables, calls with what they must answer, and how the run must end.
use calculus::stop::StopCause;
use hosts::line::Line;

// The host of a call. A scenario is a static table, so it names the host, and no closure makes it.
#[derive(Clone, Copy)]
pub enum Under {
    // the listing without versions
    Listing,
    // the sheet of this profile and these lines
    Sheet(u32, &'static [Line]),
}

// A call, and what it must answer, in a static table of them.
#[derive(Clone, Copy)]
pub enum Call {
    // A run with so much fuel: it stops for this cause, after so many steps and so many in all, at this term.
    Run(u32, Under, StopCause, u32, u32, &'static str),
    // A run with so much fuel that is refused with this question, at this place.
    No(u32, Under, u8, u16),
    // A run in two other tables of these lengths, which is refused with question 30.
    Elsewhere(usize, usize),
    // The caller writes these nodes into front, from a place on.
    Put(usize, &'static str),
}

// How a run must end. It is no Result, since it stands in the tables, where `Err(No(..))` says no more; the question is a number,
// since that is what is tested.
#[derive(Clone, Copy, PartialEq, Eq)]
pub enum End {
    // decided: the records, the steps in all and the type
    Decided(usize, u32, u16),
    // undecided: the question and the place
    No(u8, u16),
}

// A rule that is started in a front and a back of these lengths, then called, then closed.
#[derive(Clone, Copy)]
pub struct Scenario {
    pub title: &'static str,
    pub rule: &'static str,
    pub front: usize,
    pub back: usize,
    pub calls: &'static [Call],
    pub end: End,
}
