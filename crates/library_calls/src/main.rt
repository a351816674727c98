//! Calls of the libraries that no command makes alone. The first word says what is done:
//!
//! - `calls` makes most public calls that take memory, and prints a line for each: how it ended. `make refuse` refuses
//!   its allocations in turn.
//! - `bench KIND WHICH ROUNDS` does one thing again and again, without any text, so that bench/run.sh can time it.
#![tactic(auto)]

mod timed;

use anyhow::{Result, anyhow};
use probed_calls::{
    Ended, image_of_program, make_engines, make_files, make_machines, make_records, make_runs,
    make_sessions, make_texts, print_lines,
};
use std::env;
use std::sync::Wait;
use std::thread::Threads;
use std::time::Clock;
use timed::count_of;

fn main(rt: HostRuntime) -> Result<()> {
    let words: Vec<String> = env::args(&rt)?.collect(rt.alloc())?;
    match words.as_slice() {
        [_, calls] if calls.as_str() == "calls" => make_all(&rt),
        [_, bench, kind, which, rounds] if bench.as_str() == "bench" => {
            time(&rt, kind.as_str(), which.as_str(), rounds.as_str())
        }
        _ => Err(anyhow!("calls, or bench KIND WHICH ROUNDS")),
    }
}

/// Makes all calls, and prints a line for each.
fn make_all<R: AllocGlobal + Clock + Print + Threads + Wait + Sync>(rt: &R) -> Result<()> {
    let Some(image) = image_of_program(rt.alloc()) else {
        return Ok(print_lines(rt, &[("all calls", Ended::NotMade)])?);
    };
    make_files(rt, &image)?;
    make_texts(rt, &image)?;
    make_machines(rt, &image)?;
    make_records(rt, &image)?;
    make_runs(rt, &image)?;
    make_sessions(rt, &image)?;
    Ok(make_engines(rt, &image)?)
}

/// Does a thing of this kind for so many rounds, and prints what was counted.
fn time<R: AllocGlobal + Print + Threads + Wait + Sync>(
    rt: &R,
    kind: &str,
    which: &str,
    rounds: &str,
) -> Result<()> {
    let count = match rounds.parse::<u32>() {
        Ok(rounds) => count_of(rt, kind, which, rounds),
        Err(_) => None,
    };
    match count {
        Some(count) => println!(rt; "{kind} {which}: {rounds} rounds of {count}")?,
        None => return Err(anyhow!("{kind} {which}: not done for {rounds} rounds")),
    }
    Ok(())
}
