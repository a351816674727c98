//! Stops that a session does not know: at traps, and after changes of registers. They are looked for on a second machine.

use crate::debug_repl::{DebugRepl, refuse};
use crate::debug_shows::NO_STREAM;
use debug_commands::{Answer, Command, Why};
use machine::Machine;
use named_session::{UserName, read_name};
use printed_lines::parts::LabFault;
use printed_lines::parts::texts::{RunPieces, TextWriter};
use processor::Step;
use std::alloc::{AllocError, Global};
use stream_core::{Outcome, TrapKind};

/// A register of a stream, after whose changes a session stops.
#[derive(Clone, Copy, Debug, PartialEq, Eq)]
pub(crate) struct WatchedRegister {
    stream: Step,
    register: u8,
}

/// At what a session stops beside its points.
#[derive(Drop)]
pub(crate) struct OwnStops {
    catches_traps: bool,
    registers: Vec<WatchedRegister>,
}

/// Why a session stops so.
#[derive(Clone, Copy, Debug)]
enum StopCause {
    /// The stream of the last step has trapped.
    Trap(Step, TrapKind),
    /// A register has changed.
    Register(WatchedRegister),
}

/// A position, and why a session stops there.
#[derive(Clone, Copy, Debug)]
struct OwnStop {
    position: u64,
    cause: StopCause,
}

impl OwnStops {
    /// None.
    pub(crate) fn none(alloc: Global) -> OwnStops {
        OwnStops {
            catches_traps: false,
            registers: Vec::new(alloc),
        }
    }

    /// Whether there is one.
    fn is_any(&self) -> bool {
        self.catches_traps || !self.registers.is_empty()
    }

    /// What the watched registers hold in the world of a machine, in their order.
    fn values<const S: usize>(
        &self,
        alloc: Global,
        machine: &Machine<'_, S>,
    ) -> Result<Vec<u64>, AllocError> {
        let mut values = Vec::new(alloc);
        for watched in self.registers.iter() {
            values.push(watched.value(machine))?;
        }
        Ok(values)
    }

    /// Why a session stops after a step with this outcome, if it does; before the step the registers held these values, which
    /// become those after it.
    fn cause<const S: usize>(
        &self,
        machine: &Machine<'_, S>,
        step: Step,
        outcome: Outcome,
        values: &mut [u64],
    ) -> Option<StopCause> {
        let mut cause = None;
        for (place, watched) in self.registers.iter().enumerate() {
            let now = watched.value(machine);
            if let Some(value) = values.get_mut(place) {
                if now != *value && cause.is_none() {
                    cause = Some(StopCause::Register(*watched));
                }
                *value = now;
            }
        }
        match outcome {
            Outcome::Trapped(trap) | Outcome::Stopped(trap) if self.catches_traps => {
                Some(StopCause::Trap(step, trap))
            }
            _ => cause,
        }
    }
}

impl WatchedRegister {
    /// What it holds in the world of a machine.
    fn value<const S: usize>(self, machine: &Machine<'_, S>) -> u64 {
        match machine.stream(self.stream.p, self.stream.s) {
            Some(stream) => stream.reg(self.register).unwrap_or(0),
            None => 0,
        }
    }

    /// Adds its name.
    fn put(self, out: &mut TextWriter) {
        out.put_stream(self.stream.p, self.stream.s);
        out.put(".r");
        out.put_number(u64::from(self.register));
    }
}

impl<'a, 'i, 't, const S: usize> DebugRepl<'a, 'i, 't, S> {
    /// Goes on to the next stop, or back to the last one, as a command says.
    pub(crate) fn go_to_stop(
        &mut self,
        command: &Command,
        out: &mut TextWriter,
    ) -> Result<(), LabFault> {
        if !self.stops.is_any() {
            return self.go(command, out);
        }
        let begin = self.named.session.position();
        let why = match self.named.session.command(command) {
            Ok(Answer::At(_, why)) => why,
            Ok(_) => return Ok(()),
            Err(fault) => return refuse(fault, out),
        };
        let here = self.named.session.position();
        match self.own_stop(begin, here)? {
            Some(stop) if stop.position != here || why != Why::Stop => {
                if let Err(fault) = self.named.go_to(stop.position) {
                    return refuse(fault, out);
                }
                self.put_last_step(out)?;
                put_cause(out, stop.cause);
                self.put_where(out);
            }
            _ => self.put_move(why, out)?,
        }
        self.put_end_here(true, out)
    }

    /// The first stop on the way from one position on to another, or the first on the way back to it.
    fn own_stop(&mut self, begin: u64, here: u64) -> Result<Option<OwnStop>, LabFault> {
        if begin <= here {
            return self.stop_between(begin, here, true);
        }
        self.stop_between(here, begin.saturating_sub(1), false)
    }

    /// The first stop after one position and up to another, or the last one.
    fn stop_between(
        &mut self,
        from: u64,
        to: u64,
        is_first: bool,
    ) -> Result<Option<OwnStop>, LabFault> {
        let Ok(mut machine) = self.named.machine_at(from) else {
            return Err(LabFault::NoMemory);
        };
        let mut values = self.stops.values(self.alloc, &machine)?;
        let mut found = None;
        let schedule = self.named.session.schedule();
        for position in from..to {
            let Some(step) = schedule.get(position as usize) else {
                break;
            };
            let outcome = machine.step(step.p, step.s);
            if let Some(cause) = self.stops.cause(&machine, *step, outcome, &mut values) {
                found = Some(OwnStop {
                    position: position.saturating_add(1),
                    cause,
                });
                if is_first {
                    break;
                }
            }
        }
        Ok(found)
    }

    /// Stops at each trap from now on.
    pub(crate) fn catch_traps(&mut self, rest: &str, out: &mut TextWriter) {
        if rest.is_empty() || rest == "trap" || rest == "traps" {
            self.stops.catches_traps = true;
            self.put_own_stops(out);
        } else {
            out.put("catch takes nothing, or trap\n");
        }
    }

    /// Stops after each change of a register that a text names, if it names one, and says whether it does.
    pub(crate) fn watch_register(
        &mut self,
        rest: &str,
        out: &mut TextWriter,
    ) -> Result<bool, LabFault> {
        let Some(watched) = self.register_named(rest) else {
            return Ok(false);
        };
        if !self.has(watched.stream) {
            out.put(NO_STREAM);
            return Ok(true);
        }
        if !self.stops.registers.contains(&watched) {
            self.stops.registers.push(watched)?;
        }
        put_watched(out, watched);
        Ok(true)
    }

    /// The register that a text names: of the stream that is looked at, if it names none.
    fn register_named(&self, text: &str) -> Option<WatchedRegister> {
        match read_name(text) {
            Some(UserName::Register { stream, register }) => Some(WatchedRegister {
                stream: stream.unwrap_or(self.stream_here()),
                register,
            }),
            _ => None,
        }
    }

    /// Takes the stop away that a text names, if it names one, and says whether it does.
    pub(crate) fn delete_stop(
        &mut self,
        rest: &str,
        out: &mut TextWriter,
    ) -> Result<bool, LabFault> {
        if rest == "trap" || rest == "traps" {
            self.stops.catches_traps = false;
            out.put("traps stop no more\n");
            return Ok(true);
        }
        let Some(watched) = self.register_named(rest) else {
            return Ok(false);
        };
        let mut others = Vec::new(self.alloc);
        for other in self.stops.registers.iter() {
            if *other != watched {
                others.push(*other)?;
            }
        }
        self.stops.registers = others;
        watched.put(out);
        out.put(" stops no more\n");
        Ok(true)
    }

    /// Adds the stops.
    pub(crate) fn put_own_stops(&self, out: &mut TextWriter) {
        if self.stops.catches_traps {
            out.put("each trap: delete trap takes this away\n");
        }
        for watched in self.stops.registers.iter() {
            put_watched(out, *watched);
        }
    }
}

/// Adds that a register is watched.
fn put_watched(out: &mut TextWriter, watched: WatchedRegister) {
    out.put("a change of ");
    watched.put(out);
    out.put(": delete ");
    watched.put(out);
    out.put(" takes this away\n");
}

/// Adds why a session stopped.
fn put_cause(out: &mut TextWriter, cause: StopCause) {
    match cause {
        StopCause::Trap(stream, trap) => {
            out.put("stopped at ");
            out.put_trap(trap);
            out.put(" of ");
            out.put_stream(stream.p, stream.s);
        }
        StopCause::Register(watched) => {
            out.put("stopped by a change of ");
            watched.put(out);
        }
    }
    out.put(". ");
}
