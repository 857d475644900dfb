// Tests runs on scenarios that were worked out by hand, and prints a line for each.
#![tactic(auto)]

mod basic;
mod faults;
mod hosts_change;
mod player;
mod rooms;
mod scenario;
mod several;
mod tables;

use anyhow::Context;
use basic::BASIC;
use calculus::entry::Entry;
use calculus::node::Node;
use checker::acceptance::Acceptance;
use checker::check::check;
use faults::FAULTS;
use hosts::listing::Listing;
use hosts_change::HOSTS_CHANGE;
use player::play;
use rooms::ROOMS;
use scenario::Scenario;
use several::Runs;
use std::alloc::Global;
use tables::nodes_of;
use types::table::GIVEN;

// Rules whose runs must agree in slices and side by side, and the lengths of their tables.
const AGREEING: [(&str, usize); 8] = [
    ("RE SU SU ZE SU ZE LA0 SU VA0", 15),
    ("RE SU SU ZE SU ZE LA0 SU VA0", 14),
    ("RE SU*9 ZE ZE LA0 RE SU*9 ZE VA0 LA0 SU VA0", 400),
    ("RE SU*9 ZE ZE LA0 RE SU*9 ZE VA0 LA0 SU VA0", 120),
    ("CA QU2 ZE ZE SU ZE", 6),
    ("PA CA QU1 ZE ZE VA0 QU3 QU0 ZE", 20),
    ("SU SU ZE", 3),
    ("AP,LA0,VA0*1365 ZE", 4096),
];

fn print_play(rt: &HostRuntime, acceptance: &Acceptance, s: &Scenario) -> anyhow::Result<()> {
    let title = s.title;
    let calls = s.calls.len();
    match play(rt.alloc(), acceptance, s)? {
        None => println!(rt; "{title}: {calls} calls: ok")?,
        Some(call) => println!(rt; "{title}: DIFFERS at call {call}")?,
    }
    Ok(())
}

fn print_agree(rt: &HostRuntime, rule: &str, runs: Runs<'_>) -> anyhow::Result<()> {
    let length = runs.length;
    let slices = runs.slices_agree()?;
    let twins = runs.twins_agree()?;
    let others = runs.others_refused()?;
    println!(rt;
        "{rule} in {length}: slices agree {slices}, twins agree {twins}, others refused {others}"
    )?;
    Ok(())
}

// The acceptance of a rule with the given types, under the listing without versions.
fn accepted(heap: Global, nodes: &[Node]) -> anyhow::Result<Acceptance<'_>> {
    let mut types = GIVEN.to_vec(heap)?;
    types.resize(nodes.len().saturating_add(6), Entry::BLANK)?;
    let mut scratch = vec![in heap; 0; nodes.len().saturating_mul(4)]?;
    check(nodes, &mut types, 6, &mut scratch, &mut Listing::empty())
        .ok()
        .context("a rule is not accepted")
}

fn print_all(rt: &HostRuntime) -> anyhow::Result<()> {
    let heap = rt.alloc();
    let first = BASIC.iter().chain(HOSTS_CHANGE.iter());
    for scenario in first.chain(FAULTS.iter()).chain(ROOMS.iter()) {
        let nodes = nodes_of(heap, scenario.rule)?;
        print_play(rt, &accepted(heap, &nodes)?, scenario)?;
    }
    for (rule, length) in AGREEING {
        let nodes = nodes_of(heap, rule)?;
        let acceptance = accepted(heap, &nodes)?;
        let runs = Runs {
            heap,
            acceptance: &acceptance,
            length,
        };
        print_agree(rt, rule, runs)?;
    }
    Ok(())
}

fn main(rt: HostRuntime) -> anyhow::Result<()> {
    print_all(&rt)
}
