//! How a run ended.

use crate::names::ProgramNames;
use crate::run_pieces::RunPieces;
use crate::values::put_streams;
use crate::waits::{turned_word, wanted_word};
use end_kinds::{EndKind, end_kind_of};
use machine::Machine;
use plain_text::TextWriter;
use processor::Step;
use std::alloc::{AllocError, Global};
use stream_core::{Outcome, Status, TrapKind};
use stream_waits::views::StepView;
use stream_waits::{StreamWait, circle_of, waits_of};
use waiting::running_streams;

/// A stream that a trap stopped.
#[derive(Clone, Copy, Debug)]
pub struct StoppedStream {
    /// The stream.
    pub stream: Step,
    /// Its pc.
    pub pc: u32,
    /// The trap.
    pub trap: TrapKind,
    /// The address of the trap register.
    pub address: u64,
}

/// How a run ended, and of whom.
#[derive(Drop)]
pub struct RunEnd {
    /// Its kind.
    pub kind: EndKind,
    /// Those that wait.
    pub waits: Vec<StreamWait>,
    /// A circle among them; empty where there is none, as at each end that is no deadlock.
    pub circle: Vec<Step>,
    /// Those that can go on.
    pub able: Vec<Step>,
    /// Those of them that have taken no step yet.
    pub fresh: Vec<Step>,
    /// Those of them that have taken steps, and do not wait.
    pub ready: Vec<Step>,
    /// Those that have quit.
    pub quit: Vec<Step>,
    /// Those that a trap stopped.
    pub stopped: Vec<StoppedStream>,
}

/// How the run of these steps ended in the world of this machine.
pub fn end_of<const S: usize>(
    alloc: Global,
    machine: &Machine<'_, S>,
    views: &[StepView],
) -> Result<RunEnd, AllocError> {
    let waits = waits_of(alloc, machine, views)?;
    let AbleStreams { able, fresh, ready } = able_streams(alloc, machine, views, &waits)?;
    Ok(RunEnd {
        kind: end_kind_of(machine),
        circle: circle_of(alloc, machine, &waits)?,
        waits,
        able,
        fresh,
        ready,
        quit: quit_streams(alloc, machine, views)?,
        stopped: stopped_streams(alloc, machine)?,
    })
}

/// The streams that can go on at the end of a run.
#[derive(Drop)]
struct AbleStreams {
    /// All of them.
    able: Vec<Step>,
    /// Those that have taken no step yet.
    fresh: Vec<Step>,
    /// Those that have taken steps, and do not wait.
    ready: Vec<Step>,
}

impl AbleStreams {
    /// Adds a stream.
    fn add(&mut self, stream: Step, has_stepped: bool, is_waiting: bool) -> Result<(), AllocError> {
        self.able.push(stream)?;
        if !has_stepped {
            self.fresh.push(stream)?;
        } else if !is_waiting {
            self.ready.push(stream)?;
        }
        Ok(())
    }
}

/// The streams that can go on, where these wait.
fn able_streams<const S: usize>(
    alloc: Global,
    machine: &Machine<'_, S>,
    views: &[StepView],
    waits: &[StreamWait],
) -> Result<AbleStreams, AllocError> {
    let mut streams = AbleStreams {
        able: Vec::new(alloc),
        fresh: Vec::new(alloc),
        ready: Vec::new(alloc),
    };
    for stream in running_streams(alloc, machine)?.iter() {
        let wait = waits.iter().find(|wait| wait.stream == *stream);
        if !wait.is_some_and(|wait| wait.is_stuck) {
            streams.add(*stream, has_stepped(views, *stream), wait.is_some())?;
        }
    }
    Ok(streams)
}

/// Whether a stream has taken a step.
fn has_stepped(views: &[StepView], stream: Step) -> bool {
    views.iter().any(|view| view.step == stream && view.outcome != Outcome::Skipped)
}

/// The streams that a trap stopped, in the order of processor and stream.
pub fn stopped_streams<const S: usize>(
    alloc: Global,
    machine: &Machine<'_, S>,
) -> Result<Vec<StoppedStream>, AllocError> {
    let mut stopped = Vec::new(alloc);
    for p in 0..machine.image().processors() {
        for s in 0..machine.image().slim() {
            let step = Step {
                p: p as u8,
                s: s as u8,
            };
            let Some(stream) = machine.stream(step.p, step.s) else {
                continue;
            };
            if let Status::Stopped(trap) = stream.status() {
                stopped.push(StoppedStream {
                    stream: step,
                    pc: stream.ssw().pc,
                    trap,
                    address: stream.xr() >> 8,
                })?;
            }
        }
    }
    Ok(stopped)
}

/// The streams that have quit, in the order of their first steps.
fn quit_streams<const S: usize>(
    alloc: Global,
    machine: &Machine<'_, S>,
    views: &[StepView],
) -> Result<Vec<Step>, AllocError> {
    let mut quit = Vec::new(alloc);
    for view in views {
        let is_idle = match machine.stream(view.step.p, view.step.s) {
            Some(stream) => stream.status() == Status::Idle,
            None => false,
        };
        if is_idle && view.outcome == Outcome::Done && !quit.contains(&view.step) {
            quit.push(view.step)?;
        }
    }
    Ok(quit)
}

/// Adds how a run of so many steps ended: who waits for what, who was stopped, has quit, has not begun, or could go on.
pub fn push_end(
    out: &mut String,
    names: &ProgramNames,
    steps: usize,
    end: &RunEnd,
) -> Result<(), AllocError> {
    let mut text = TextWriter::take(out);
    put_end(&mut text, names, steps, end);
    text.give_back(out)
}

/// Adds what [`push_end`] does.
pub fn put_end(out: &mut TextWriter, names: &ProgramNames, steps: usize, end: &RunEnd) {
    put_count(out, steps);
    out.put(end.kind.sentence());
    put_waits(out, names, &end.waits);
    put_circle(out, &end.circle);
    put_all_stopped(out, names, &end.stopped);
    put_group(out, &end.quit, " has quit", " have quit");
    put_group(out, &end.fresh, " has not begun", " have not begun");
    put_group(out, &end.ready, " could go on", " could go on");
    out.put("\n");
}

/// Adds after how many steps it is.
fn put_count(out: &mut TextWriter, steps: usize) {
    out.put("after ");
    out.put_number(steps as u64);
    out.put(if steps == 1 { " step: " } else { " steps: " });
}

/// Adds a sentence about streams, where there are any.
fn put_group(out: &mut TextWriter, streams: &[Step], one: &str, many: &str) {
    if streams.is_empty() {
        return;
    }
    out.put(". ");
    put_streams(out, streams);
    out.put(if streams.len() == 1 { one } else { many });
}

/// Adds the streams that were stopped.
fn put_all_stopped(out: &mut TextWriter, names: &ProgramNames, streams: &[StoppedStream]) {
    for stopped in streams {
        out.put(". ");
        put_stopped(out, names, stopped);
    }
}

/// Adds a stream that was stopped: by which trap, and where.
fn put_stopped(out: &mut TextWriter, names: &ProgramNames, stopped: &StoppedStream) {
    out.put_stream(stopped.stream.p, stopped.stream.s);
    out.put(" was stopped by ");
    out.put_trap(stopped.trap);
    out.put(", at ");
    names.put_place(out, stopped.pc);
}

/// Adds the streams that wait.
fn put_waits(out: &mut TextWriter, names: &ProgramNames, waits: &[StreamWait]) {
    for (index, wait) in waits.iter().enumerate() {
        out.put(if index == 0 { ": " } else { "; " });
        put_wait(out, names, wait);
        put_turn(out, wait);
    }
}

/// Adds a stream that waits: where, since when, and for what.
fn put_wait(out: &mut TextWriter, names: &ProgramNames, wait: &StreamWait) {
    out.put_stream(wait.stream.p, wait.stream.s);
    out.put(" waits at ");
    names.put_place(out, wait.pc);
    if wait.since > 0 {
        out.put(" since step ");
        out.put_number(wait.since as u64);
    }
    out.put(" for ");
    names.put_address(out, wait.wait.address);
    out.put(" to be ");
    out.put(wanted_word(wait.wait.wanted));
}

/// Adds who left the word of a waiting stream so.
fn put_turn(out: &mut TextWriter, wait: &StreamWait) {
    out.put(", which ");
    match wait.turn {
        Some(turn) => {
            out.put_stream(turn.step.p, turn.step.s);
            out.put(" ");
            out.put(turned_word(wait.wait.wanted));
            out.put(" in step ");
            out.put_number(turn.number as u64);
        }
        None => out.put("it never was"),
    }
}

/// Adds a circle, where there is one: each stream, and the first again.
fn put_circle(out: &mut TextWriter, circle: &[Step]) {
    let Some(first) = circle.first() else {
        return;
    };
    out.put(". A circle: ");
    for stream in circle {
        out.put_stream(stream.p, stream.s);
        out.put(" -> ");
    }
    out.put_stream(first.p, first.s);
}
