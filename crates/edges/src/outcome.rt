// What a call answered, and whether it left what it was lent as it must.
use refusals::Refusal;
use rule_file::load::Loaded;
use std::fmt;

#[derive(Clone, Copy)]
pub enum Answer {
    Loaded(Loaded),
    Wrote(usize),
    // A round trip of so many bytes.
    CameBack(usize),
}

#[derive(Clone, Copy)]
pub struct Outcome {
    pub answer: Result<Answer, Refusal>,
    // Both an answer and a refusal are printed, whether this holds or not, so it is no case of a Result.
    pub as_due: bool,
}

impl fmt::Display for Answer {
    fn fmt<W: fmt::Write>(&self, f: &mut fmt::Formatter<W>) -> fmt::Result {
        match self {
            Answer::Loaded(loaded) => write!(f, "loaded {} {}", loaded.nodes, loaded.count),
            Answer::Wrote(length) => write!(f, "wrote {length}"),
            Answer::CameBack(length) => write!(f, "came back {length}"),
        }
    }
}

impl fmt::Display for Outcome {
    fn fmt<W: fmt::Write>(&self, f: &mut fmt::Formatter<W>) -> fmt::Result {
        let left = match self.answer {
            _ if !self.as_due => "WRONG",
            Ok(Answer::Loaded(_) | Answer::Wrote(_)) => "filled",
            Ok(Answer::CameBack(_)) => "equal",
            Err(_) => "untouched",
        };
        match self.answer {
            Ok(answer) => write!(f, "{answer}, {left}"),
            Err(refusal) => {
                let r = refusal.report();
                write!(
                    f,
                    "refused {} {} {} {}, {left}",
                    r.layer, r.number, r.place, r.child
                )
            }
        }
    }
}
