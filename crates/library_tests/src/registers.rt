//! That registers which nobody reads again, and condition codes for which nobody asks again, are left out. No clause says
//! so.

use crate::sources::image_of;
use dead_registers::LiveRegisters;
use image_file::Image;
use machine::Machine;
use std::alloc::Global;

/// Only the third word reads a register, r1, and it writes r2. There is no trap handler.
const READING: &str = ".slim 1\n.entry 0\nLIT r1, 5\nLIT r2, 7\nADD r2, r1, 3\nQUIT\n.data 0\n";

/// The first word makes a code, for which the second one asks. There is no trap handler.
const ASKING: &str = ".slim 1\n.entry 0\nSUB.T r0, r0, 1\nSKIP LT, 0, 0\nQUIT\n.data 0\n";

/// Of 32 registers none is named, r2 alone, or each.
const NONE: [bool; 32] = [false; 32];

const SECOND: [bool; 32] = [
    false, false, true, false, false, false, false, false, false, false, false, false, false,
    false, false, false, false, false, false, false, false, false, false, false, false, false,
    false, false, false, false, false, false,
];

const ALL: [bool; 32] = [true; 32];

/// What is shown: what r1 and r2 hold, and whether the newest code is negative.
type Found = (u64, u64, bool);

type Row = (&'static str, &'static [bool; 32], u8, Found);

/// A source, which registers are named, how many steps are taken, and what is shown then. A register is shown until it
/// is read last, and a named one at each place; a code until it is asked for last.
const ROWS: [Row; 13] = [
    (READING, &NONE, 0, (0, 0, false)),
    (READING, &NONE, 1, (5, 0, false)),
    (READING, &NONE, 2, (5, 0, false)),
    (READING, &NONE, 3, (0, 0, false)),
    (READING, &SECOND, 1, (5, 0, false)),
    (READING, &SECOND, 2, (5, 7, false)),
    (READING, &SECOND, 3, (0, 8, false)),
    (ASKING, &NONE, 0, (0, 0, false)),
    (ASKING, &NONE, 1, (0, 0, true)),
    (ASKING, &NONE, 2, (0, 0, false)),
    (ASKING, &ALL, 0, (0, 0, false)),
    (ASKING, &ALL, 1, (0, 0, true)),
    (ASKING, &ALL, 2, (0, 0, true)),
];

fn machine_after(alloc: Global, image: &Image, count: u8) -> Option<Machine<'_, 1>> {
    let mut machine = Machine::load(alloc, image).ok()?;
    for _ in 0..count {
        machine.step(0, 0);
    }
    Some(machine)
}

fn found_of(live: &LiveRegisters, machine: &Machine<1>) -> Option<Found> {
    let registers = live.registers_of(machine, 0, 0)?;
    let stream = machine.stream(0, 0)?;
    let is_negative = live.status_word(stream).codes.newest.negative;
    Some((registers[1], registers[2], is_negative))
}

/// What is shown after so many steps.
fn found_after(alloc: Global, source: &str, names: &[bool; 32], count: u8) -> Option<Found> {
    let image = image_of(alloc, source)?;
    let live = LiveRegisters::of(alloc, &image, names).ok()?;
    let machine = machine_after(alloc, &image, count)?;
    found_of(&live, &machine)
}

/// The first of the rows of which something else is shown.
fn first_found_otherwise(alloc: Global, rows: &[Row]) -> Option<usize> {
    for (number, (source, names, count, found)) in rows.iter().enumerate() {
        if found_after(alloc, source, names, *count) != Some(*found) {
            return Some(number);
        }
    }
    None
}

#[test]
fn what_is_needed_no_more_is_left_out(rt: HostRuntime) {
    assert!(rt; first_found_otherwise(rt.alloc(), &ROWS).is_none());
}
