// The time of a call.
use anyhow::anyhow;
use std::time::{Duration, Instant};

// How often a measurement is made; the shortest counts.
const ROUNDS: u32 = 9;

// The time of so many calls, each of which must succeed.
fn time_of<F: FnMut() -> bool>(
    rt: &HostRuntime,
    call: &mut F,
    calls: u32,
) -> anyhow::Result<Duration>
    requires { (state : F) → F.pre state }
{
    let start = Instant::now(rt)?;
    for _ in 0..calls {
        if !call() {
            return Err(anyhow!("a call was refused"));
        }
    }
    Ok(start.elapsed(rt)?)
}

// So many calls that they take at least 20 milliseconds.
fn calls_to_measure<F: FnMut() -> bool>(rt: &HostRuntime, call: &mut F) -> anyhow::Result<u32>
    requires { (state : F) → F.pre state }
{
    let mut calls = 1;
    for _ in 0..24 {
        if time_of(rt, call, calls)?.as_millis() >= 20 {
            break;
        }
        calls = calls.saturating_mul(2);
    }
    Ok(calls)
}

// How many microseconds a call takes, in the shortest of the measurements.
pub fn microseconds<F: FnMut() -> bool>(rt: &HostRuntime, mut call: F) -> anyhow::Result<f64>
    requires { (state : F) → F.pre state }
{
    let calls = calls_to_measure(rt, &mut call)?;
    let mut best = time_of(rt, &mut call, calls)?;
    for _ in 1..ROUNDS {
        best = best.min(time_of(rt, &mut call, calls)?);
    }
    Ok(best.as_secs_f64() * 1_000_000.0 / f64::from(calls))
}
