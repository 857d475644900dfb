// Tests check on rules whose types or refusals were worked out by hand, and prints a line for each case.
#![tactic(auto)]

mod accepted;
mod call;
mod case;
mod deep;
mod edges;
mod refused;

use accepted::ACCEPTED;
use anyhow::Context;
use calculus::node::Node;
use call::{Memory, Trial};
use case::{Case, Edge, Group};
use deep::DEEP;
use edges::EDGES;
use hosts::listing::Listing;
use hosts::sheet::Sheet;
use record_text::record::all_of;
use record_text::text::{Rising, TextError, records};
use refused::REFUSED;
use std::alloc::Global;

// The profile of a listing.
const LISTING: u32 = 0x4231;

// (One line: a shared function would say type and way at each call.)
fn nodes_of(heap: Global, rule: &str) -> Result<Vec<Node>, TextError> {
    all_of(heap, &records(heap, rule, Rising::Second)?)
}

// Whether check says and leaves what is due: under a sheet, in tables just long enough and in longer ones, and under a listing
// where the profile is a listing's.
fn group_case(heap: Global, group: &Group, case: &Case) -> anyhow::Result<bool> {
    let Case(rule, due) = *case;
    let nodes = nodes_of(heap, rule)?;
    let types = format!(in heap; "given {}", group.types)?;
    let count = records(heap, &types, Rising::Second)?.len();
    let table = count.saturating_add(nodes.len());
    let words = nodes.len().saturating_mul(4);
    let trial = Trial {
        nodes: &nodes,
        count,
        due,
    };
    let mut sheet = Sheet::empty();
    sheet
        .make(group.profile, &[])
        .ok()
        .context("no sheet has this profile")?;
    let exact = Memory::noisy(heap, &types, table, words)?;
    let again = exact.clone()?;
    let longer = Memory::noisy(
        heap,
        &types,
        table.saturating_add(9),
        words.saturating_add(7),
    )?;
    let under_sheet = trial.holds(heap, exact, &mut sheet)?
        && trial.holds(heap, longer, &mut sheet)?;
    let under_listing = group.profile != LISTING
        || trial.holds(heap, again, &mut Listing::empty())?;
    Ok(under_sheet && under_listing)
}

// Whether a call at an edge says and leaves what is due.
fn edge_case(heap: Global, edge: &Edge) -> anyhow::Result<bool> {
    let Edge(rule, types, count, table, words, due) = *edge;
    let nodes = nodes_of(heap, rule)?;
    let memory = Memory::noisy(heap, types, table, words)?;
    let trial = Trial {
        nodes: &nodes,
        count,
        due,
    };
    trial.holds(heap, memory, &mut Listing::empty())
}

fn word(as_due: bool) -> &'static str {
    if as_due { "ok" } else { "DIFFERS" }
}

fn print_group(rt: &HostRuntime, group: &Group) -> anyhow::Result<()> {
    println!(rt;
        "{}, profile {:x} [{}]",
        group.title, group.profile, group.types
    )?;
    for case in group.cases {
        let word = word(group_case(rt.alloc(), group, case)?);
        println!(rt; "{case}: {word}")?;
    }
    Ok(())
}

fn print_edge(rt: &HostRuntime, edge: &Edge) -> anyhow::Result<()> {
    let word = word(edge_case(rt.alloc(), edge)?);
    println!(rt; "{edge}: {word}")?;
    Ok(())
}

fn print_all(rt: &HostRuntime) -> anyhow::Result<()> {
    for group in ACCEPTED.iter().chain(REFUSED.iter()).chain(DEEP.iter()) {
        print_group(rt, group)?;
    }
    rt.println("questions 10 to 13")?;
    for edge in EDGES.iter() {
        print_edge(rt, edge)?;
    }
    Ok(())
}

fn main(rt: HostRuntime) -> anyhow::Result<()> {
    print_all(&rt)
}
