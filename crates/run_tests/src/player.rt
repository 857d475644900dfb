// Plays scenarios: each call in tables with noise where a run must not read, held to what it must answer and leave.
use crate::scenario::{Call, End, Scenario, Under};
use crate::tables::{Tables, nodes_of};
use calculus::node::Node;
use checker::acceptance::Acceptance;
use evaluator::close::close;
use evaluator::held::Run;
use evaluator::outcome::{Decided, Ran};
use evaluator::run::run;
use evaluator::start::{look, start};
use hosts::listing::Listing;
use hosts::sheet::Sheet;
use refusals::{Refusal, Report};
use std::alloc::Global;
use std::mem;

// What a run reports that is refused with this question at this place.
fn run_report(number: u8, place: u16) -> Report {
    Report {
        layer: 3,
        number,
        place,
        child: 0,
    }
}

// A run that is played, and the tables that its calls are lent.
#[derive(Drop)]
struct Player {
    heap: Global,
    held: Run,
    tables: Tables,
}

impl Player {
    fn run(&mut self, fuel: u32, under: Under) -> Result<Ran, Refusal> {
        let front = &mut self.tables.front;
        let back = &mut self.tables.back;
        match under {
            Under::Listing => run(&mut self.held, fuel, front, back, &mut Listing::empty()),
            Under::Sheet(profile, lines) => {
                let mut sheet = Sheet::empty();
                let _ = sheet.make(profile, lines);
                run(&mut self.held, fuel, front, back, &mut sheet)
            }
        }
    }

    // Writes noise where the run must not read.
    fn disturb(&mut self) {
        self.tables.disturb(self.held.records().unwrap_or(0));
    }

    // Whether looking at the run shows this term.
    fn shows(&self, term: &[Node]) -> bool {
        look(&self.held, &self.tables.front).is_ok_and(|seen| seen == term)
    }

    // Whether a run stops as it must, with this term in front.
    fn stops(&mut self, fuel: u32, under: Under, due: Ran, term: &[Node]) -> anyhow::Result<bool> {
        let after = self.tables.holding(self.heap, term)?;
        self.disturb();
        let ran = self.run(fuel, under);
        Ok(ran == Ok(due) && self.tables == after && self.shows(term))
    }

    // Whether a run is refused with this question at this place, and leaves everything as it was.
    fn refuses(&mut self, fuel: u32, under: Under, number: u8, place: u16) -> anyhow::Result<bool> {
        let records = self.held.records();
        self.disturb();
        let before = self.tables.clone()?;
        let report = self.run(fuel, under).map_err(|refusal| refusal.report());
        let refused = report == Err(run_report(number, place));
        Ok(refused && self.tables == before && self.held.records() == records)
    }

    // Whether a run in other tables of these lengths is refused as it must.
    fn refuses_elsewhere(&mut self, front: usize, back: usize) -> anyhow::Result<bool> {
        let other = Tables::noisy(self.heap, front, back)?;
        let own = mem::replace(&mut self.tables, other);
        let refused = self.refuses(u32::MAX, Under::Listing, 30, 0);
        self.tables = own;
        refused
    }

    // Makes a call, and says whether it answers and leaves what it must.
    fn is_due(&mut self, call: Call) -> anyhow::Result<bool> {
        match call {
            Call::Run(fuel, under, cause, made, total, text) => {
                let term = nodes_of(self.heap, text)?;
                let due = Ran {
                    cause,
                    made,
                    total,
                    records: term.len(),
                };
                self.stops(fuel, under, due, &term)
            }
            Call::No(fuel, under, number, place) => self.refuses(fuel, under, number, place),
            Call::Elsewhere(front, back) => self.refuses_elsewhere(front, back),
            Call::Put(at, text) => {
                self.tables.put(at, &nodes_of(self.heap, text)?);
                Ok(true)
            }
        }
    }

    // The number of the first call that does not answer and leave what it must; calls count from 1.
    fn first_wrong(&mut self, calls: &[Call]) -> anyhow::Result<Option<usize>> {
        for (number, call) in (1..=calls.len()).zip(calls) {
            if !self.is_due(*call)? {
                return Ok(Some(number));
            }
        }
        Ok(None)
    }
}

// How a run ended.
impl From<Result<Decided, Refusal>> for End {
    fn from(closing: Result<Decided, Refusal>) -> End {
        match closing {
            Ok(decided) => End::Decided(decided.records, decided.steps, decided.type_number),
            Err(refusal) => {
                let report = refusal.report();
                End::No(report.number, report.place)
            }
        }
    }
}

// Plays a scenario of an accepted rule. The answer is the number of the first call that does not answer and leave what it must,
// 0 for start and one more than the calls for close, or none.
pub fn play(
    heap: Global,
    acceptance: &Acceptance,
    scenario: &Scenario,
) -> anyhow::Result<Option<usize>> {
    let rule = acceptance.nodes();
    let mut tables = Tables::noisy(heap, scenario.front, scenario.back)?;
    let started = if tables.fit(rule) {
        tables.holding(heap, rule)?
    } else {
        tables.clone()?
    };
    let (held, token) = start(acceptance, &mut tables.front, &mut tables.back);
    let mut player = Player { heap, held, tables };
    let wrong = if player.tables == started {
        player.first_wrong(scenario.calls)
    } else {
        Ok(Some(0))
    };
    let Player { held, tables, .. } = player;
    let end = End::from(close(held, token, &tables.front));
    Ok(match wrong? {
        None if end != scenario.end => Some(scenario.calls.len().saturating_add(1)),
        wrong => wrong,
    })
}
