// Tests load and write on both sides of every edge, and prints a line for each case.
#![tactic(auto)]

mod calls;
mod cases;
mod load_edges;
mod outcome;
mod tables;
mod write_edges;

use calls::{load_first, round_trip, write_into};
use cases::{Case, Edge};
use load_edges::LOAD_EDGES;
use outcome::Outcome;
use std::alloc::Global;
use tables::Room;
use write_edges::WRITE_EDGES;

// Room for every file.
const ROOM: Room = Room {
    nodes: 6000,
    types: 6000,
};

fn outcome_of(heap: Global, case: Case) -> anyhow::Result<Outcome> {
    match case {
        Case::Load(file) => load_first(heap, file, usize::MAX, ROOM),
        Case::LoadFirst(length, file) => load_first(heap, file, length, ROOM),
        Case::LoadInto(nodes, types, file) => {
            load_first(heap, file, usize::MAX, Room { nodes, types })
        }
        Case::Write(nodes, types, count, room) => write_into(heap, nodes, types, count, room),
        Case::RoundTrip(file) => round_trip(heap, file),
    }
}

fn print_edge(rt: &HostRuntime, edge: &Edge) -> anyhow::Result<()> {
    rt.println(edge.title)?;
    for case in edge.cases {
        let outcome = outcome_of(rt.alloc(), *case)?;
        println!(rt; "{case}: {outcome}")?;
    }
    Ok(())
}

fn main(rt: HostRuntime) -> anyhow::Result<()> {
    for edge in LOAD_EDGES.iter().chain(WRITE_EDGES.iter()) {
        print_edge(&rt, edge)?;
    }
    Ok(())
}
