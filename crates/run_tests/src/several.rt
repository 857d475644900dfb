// Runs of one rule that must agree: in slices, and side by side with their tokens exchanged; and the front of another length.
use crate::scenario::End;
use crate::tables::Tables;
use calculus::stop::StopCause;
use checker::acceptance::Acceptance;
use evaluator::close::close;
use evaluator::held::Run;
use evaluator::run::run;
use evaluator::start::{look, start};
use hosts::listing::Listing;
use std::alloc::{AllocError, Global};

// Where runs of a rule stop.
#[derive(Clone, Copy, PartialEq, Eq)]
struct Finish {
    cause: StopCause,
    steps: u32,
    end: End,
}

// Runs with so much fuel to a call until the fuel is not what stops it: why it stops, and after how many steps. None where a call
// is refused, or its steps are not as many as it says.
fn run_out(held: &mut Run, tables: &mut Tables, fuel: u32) -> Option<(StopCause, u32)> {
    let mut host = Listing::empty();
    let mut steps: u32 = 0;
    for _ in 0..10_000 {
        let ran = run(held, fuel, &mut tables.front, &mut tables.back, &mut host).ok()?;
        steps = steps.saturating_add(ran.made);
        if ran.total != steps {
            return None;
        }
        if ran.cause != StopCause::Spent {
            return Some((ran.cause, steps));
        }
    }
    Some((StopCause::Spent, steps))
}

// Runs of one rule, each in two tables of this length.
#[derive(Clone, Copy)]
pub struct Runs<'a> {
    pub heap: Global,
    pub acceptance: &'a Acceptance<'a>,
    pub length: usize,
}

impl Runs<'_> {
    fn tables(&self) -> Result<Tables, AllocError> {
        Tables::noisy(self.heap, self.length, self.length)
    }

    // Where a run stops in these tables, with so much fuel to a call.
    fn finish(&self, tables: &mut Tables, fuel: u32) -> Option<Finish> {
        let (mut held, token) = start(self.acceptance, &mut tables.front, &mut tables.back);
        let stop = run_out(&mut held, tables, fuel);
        let end = End::from(close(held, token, &tables.front));
        stop.map(|(cause, steps)| Finish { cause, steps, end })
    }

    // Whether runs in slices stop where the run at once does, with the same tables.
    pub fn slices_agree(&self) -> Result<bool, AllocError> {
        let mut at_once = self.tables()?;
        let whole = self.finish(&mut at_once, 1_000_000);
        for fuel in [1, 2, 7] {
            let mut sliced = self.tables()?;
            if self.finish(&mut sliced, fuel) != whole || sliced != at_once {
                return Ok(false);
            }
        }
        Ok(whole.is_some())
    }

    // Whether two runs of one acceptance, called in turn and closed with each other's token, end alike.
    pub fn twins_agree(&self) -> Result<bool, AllocError> {
        let mut host = Listing::empty();
        let mut a = self.tables()?;
        let mut b = self.tables()?;
        let (mut first, first_token) = start(self.acceptance, &mut a.front, &mut a.back);
        let (mut second, second_token) = start(self.acceptance, &mut b.front, &mut b.back);
        let began = run(&mut first, 1, &mut a.front, &mut a.back, &mut host);
        let other = run(&mut second, 1_000, &mut b.front, &mut b.back, &mut host);
        let ended = run(&mut first, 999, &mut a.front, &mut a.back, &mut host);
        let first_end = End::from(close(first, second_token, &a.front));
        let second_end = End::from(close(second, first_token, &b.front));
        // (Field by field: the steps of the last call alone differ.)
        Ok(match (began, other, ended) {
            (Ok(_), Ok(other), Ok(ended)) => {
                ended.cause == other.cause
                    && ended.total == other.total
                    && ended.records == other.records
                    && first_end == second_end
                    && a == b
            }
            _ => false,
        })
    }

    // Whether a front of another length than the run's is refused by look and by close.
    pub fn others_refused(&self) -> Result<bool, AllocError> {
        let mut tables = self.tables()?;
        let other = Tables::noisy(self.heap, self.length.saturating_add(1), self.length)?;
        let (held, token) = start(self.acceptance, &mut tables.front, &mut tables.back);
        let unseen = look(&held, &other.front).is_err();
        let end = End::from(close(held, token, &other.front));
        Ok(unseen && end == End::No(30, 0))
    }
}
