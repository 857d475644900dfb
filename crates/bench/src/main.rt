// Measures load and write on files of several sizes; with the argument `once` it makes each call once and checks it.
#![tactic(auto)]

mod measure;
mod workload;

use anyhow::anyhow;
use measure::microseconds;
use std::env;
use workload::Workload;

// The number of type records and of nodes of each file; a pair differs in one of them. The last is the largest file.
const PAIRS: [[(u16, u16); 2]; 3] = [
    [(0, 512), (0, 4096)],
    [(64, 512), (64, 4096)],
    [(128, 1), (1024, 1)],
];

const LARGEST: (u16, u16) = (1024, 4096);

// The microseconds that the two calls take.
#[derive(Clone, Copy)]
struct Times {
    load: f64,
    write: f64,
}

// Measures the calls on a file of this size, and prints a line of the table.
fn print_times(rt: &HostRuntime, (types, nodes): (u16, u16)) -> anyhow::Result<Times> {
    let mut workload = Workload::new(rt.alloc(), types, nodes)?;
    let load = microseconds(rt, || workload.load())?;
    let write = microseconds(rt, || workload.write())?;
    let bytes = workload.file.len();
    println!(rt; "{types:>5} {nodes:>5} {bytes:>5} {load:>9.2} {write:>9.2}")?;
    Ok(Times { load, write })
}

fn print_pair(rt: &HostRuntime, [small, large]: [(u16, u16); 2]) -> anyhow::Result<()> {
    let small = print_times(rt, small)?;
    let large = print_times(rt, large)?;
    let load = large.load / small.load;
    let write = large.write / small.write;
    println!(rt; "{:>17} {load:>9.2} {write:>9.2}", "ratio")?;
    Ok(())
}

fn measure_all(rt: &HostRuntime) -> anyhow::Result<()> {
    println!(rt; "types nodes bytes   load us  write us")?;
    for pair in PAIRS {
        print_pair(rt, pair)?;
    }
    let times = print_times(rt, LARGEST)?;
    let (types, nodes) = LARGEST;
    let mut workload = Workload::new(rt.alloc(), types, nodes)?;
    let copy = microseconds(rt, || workload.copy())?;
    let ratio = times.load / copy;
    println!(rt; "copy of the largest file {copy:.2} us, load / copy {ratio:.2}")?;
    Ok(())
}

fn check_once(rt: &HostRuntime, (types, nodes): (u16, u16)) -> anyhow::Result<()> {
    if !Workload::new(rt.alloc(), types, nodes)?.comes_back() {
        return Err(anyhow!("a file does not come back"));
    }
    println!(rt; "ok {types} {nodes}")?;
    Ok(())
}

fn check_all(rt: &HostRuntime) -> anyhow::Result<()> {
    for [small, large] in PAIRS {
        check_once(rt, small)?;
        check_once(rt, large)?;
    }
    check_once(rt, LARGEST)
}

fn main(rt: HostRuntime) -> anyhow::Result<()> {
    let mut args = env::args(&rt)?;
    let _program = args.next();
    match args.next() {
        None => measure_all(&rt),
        Some(word) if word.as_str() == "once" => check_all(&rt),
        Some(_) => Err(anyhow!("usage: bench [once]")),
    }
}
