//! Tests of the libraries, of what neither a clause says nor a command line shows: clones that go their own ways, parts
//! that are made by hand, numbers that no command comes to, how many steps the debugger runs, readers and writers that
//! fail, threads that run an image's processors at once. The expected values are worked out by hand from docs/MACHINE.md
//! and docs/FORMATS.md.
//!
//! A proof carries the clauses of all that a body calls, beside each value that the body holds at the time. So helpers
//! without a clause make the calls, hold a value or two, and give plain ones back, and the tests only compare these.
#![tactic(auto)]

#[cfg(test)]
mod clones;
#[cfg(test)]
mod commands;
#[cfg(test)]
mod debugging;
#[cfg(test)]
mod devices;
#[cfg(test)]
mod expected_ends;
#[cfg(test)]
mod faults;
#[cfg(test)]
mod gathered;
#[cfg(test)]
mod limits;
#[cfg(test)]
mod links;
#[cfg(test)]
mod makers;
#[cfg(test)]
mod processors;
#[cfg(test)]
mod reached;
#[cfg(test)]
mod records;
#[cfg(test)]
mod refused;
#[cfg(test)]
mod registers;
#[cfg(test)]
mod replays;
#[cfg(test)]
mod run_lines;
#[cfg(test)]
mod sources;
#[cfg(test)]
mod threads;
#[cfg(test)]
mod views;
#[cfg(test)]
mod waits;
