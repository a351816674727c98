//! The program for people: words for faults, schedules, views, grades (docs/LAB.md).
#![tactic(auto)]

mod joined_parts;
mod lab;
mod painting;

use command_parts::Inputs;
use lab::{Outputs, Terminals, run_lab};
use named_files::{ForeignNames, arguments};
use std::env::VarError;
use std::io::IsTerminal;
use std::process::ExitCode;
use std::{env, fs};

fn main(rt: HostRuntime) -> ExitCode {
    let alloc = rt.alloc();
    // (these take the places of standard streams that are closed: else the next files would be read, or written, as such)
    let _folders = [
        fs::open(&rt, "/").ok(),
        fs::open(&rt, "/").ok(),
        fs::open(&rt, "/").ok(),
    ];
    let mut foreign = ForeignNames::none(alloc);
    let words = arguments(&rt, alloc, &mut foreign);
    let terminals = Terminals {
        input: rt.stdin().is_terminal(),
        output: rt.stdout().is_terminal(),
        errors: rt.stderr().is_terminal(),
        refuse_colours: is_set(&rt, "NO_COLOR") || is_plain(&rt),
        are_plain: is_plain(&rt),
    };
    let status = match words {
        Ok(words) => {
            let memory = fs::open(&rt, "/proc/self/statm").ok();
            let mut input = rt.stdin();
            let mut inputs = Inputs::with_names(alloc, &rt, &mut input, foreign);
            let mut outputs = Outputs {
                output: &mut rt.stdout(),
                errors: &mut rt.stderr(),
                terminals,
                memory: memory.as_ref(),
            };
            run_lab(&rt, alloc, &words, &mut inputs, &mut outputs)
        }
        Err(_) => {
            let _ = eprintln!(rt; "mta_lab: out of memory");
            2
        }
    };
    ExitCode::from(status)
}

/// Whether the environment says that the terminal shows no colours, and wipes no line: INSIDE_EMACS is set, or TERM is not,
/// or it is `dumb`. A variable that is empty is not set.
fn is_plain(rt: &HostRuntime) -> bool {
    is_set(rt, "INSIDE_EMACS") || !is_set(rt, "TERM") || is_dumb(rt)
}

/// Whether a variable of the environment is set, and not empty.
fn is_set(rt: &HostRuntime, name: &str) -> bool {
    match env::var(rt, name) {
        Ok(value) => !value.is_empty(),
        Err(error) => error != VarError::NotPresent,
    }
}

/// Whether the terminal is one without colours by its name.
fn is_dumb(rt: &HostRuntime) -> bool {
    match env::var(rt, "TERM") {
        Ok(value) => value.as_str() == "dumb",
        Err(_) => false,
    }
}
