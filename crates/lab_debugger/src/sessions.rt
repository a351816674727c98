//! Sessions of programs' runs.

use named_session::NamedSession;
use printed_lines::parts::{LabFault, Program};
use processor::Step;
use replay_debugger::Session;
use source_places::SourcePlaces;
use std::alloc::Global;

/// The session of a program's run, with the names of its text.
pub fn named_of<const S: usize>(
    alloc: Global,
    program: &Program,
    steps: Vec<Step>,
) -> Result<NamedSession<'_, '_, S>, LabFault> {
    let places = SourcePlaces::of(alloc, &program.text)?;
    match Session::begin(alloc, &program.image, steps) {
        Ok(session) => Ok(NamedSession::new(session, places)),
        Err(_) => Err(LabFault::NoMemory),
    }
}
