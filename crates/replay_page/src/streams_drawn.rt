//! The lanes of streams, and the arrows between them.

use crate::lanes::Lanes;
use crate::marks::push_outcome;
use crate::pages::push_escaped;
use crate::waits::RunWait;
use crate::whole_run::WholeRun;
use crate::words_drawn::push_word_name;
use lab_json::texts::{ProgramNames, wanted_word};
use processor::Step;
use std::alloc::AllocError;
use stream_core::Outcome;

/// Adds the lanes of all streams.
pub(crate) fn push_streams(
    out: &mut String,
    lanes: &Lanes,
    run: &WholeRun,
    places: &ProgramNames,
) -> Result<(), AllocError> {
    for stream in lanes.streams() {
        push_life(out, lanes, run, places, *stream)?;
    }
    for wait in &run.waits {
        push_wait(out, lanes, run, wait)?;
    }
    for (index, view) in run.views.iter().enumerate().skip(lanes.before()) {
        let Some(y) = lanes.stream_y(view.step) else {
            continue;
        };
        let x = lanes.x(index.saturating_add(1));
        let width = lanes.column().saturating_sub(4);
        push_outcome(out, x, y, width, view.outcome)?;
        if view.outcome == Outcome::Done {
            write!(out, "<text class=\"in\" x=\"{x}\" y=\"{y}\" dy=\"4\">")?;
            push_name(out, places.statement(view.pc), width)?;
            out.push_str("</text>\n")?;
        }
    }
    Ok(())
}

/// How many letters of a word's address and name have room after a lane.
const WAITED: usize = 16;

/// How many pixels a letter in a step's sign takes.
const LETTER: usize = 7;

/// Adds an instruction's name if it has room; else its initial and its suffix (`L.N`), or two letters of a name without
/// one; else nothing.
fn push_name(out: &mut String, statement: &str, width: usize) -> Result<(), AllocError> {
    let name = match statement.split_whitespace().next() {
        Some(word) if word.starts_with('@') => "@",
        Some(word) => word,
        None => "",
    };
    if name.len().saturating_mul(LETTER) <= width {
        return push_escaped(out, name);
    }
    if width < LETTER * 3 {
        return Ok(());
    }
    match name.split_once('.') {
        Some((stem, suffix)) => {
            push_escaped(out, stem.get(..1).unwrap_or(""))?;
            out.push_str(".")?;
            push_escaped(out, suffix.get(..1).unwrap_or(""))
        }
        None => push_escaped(out, name.get(..2).unwrap_or("")),
    }
}

/// Adds a stream's name, its line, and what is to be said of its end.
fn push_life(
    out: &mut String,
    lanes: &Lanes,
    run: &WholeRun,
    places: &ProgramNames,
    stream: Step,
) -> Result<(), AllocError> {
    let Some(y) = lanes.stream_y(stream) else {
        return Ok(());
    };
    let p = stream.p;
    let s = stream.s;
    let begin = lanes.x(0);
    let end = lanes.end();
    let note = end.saturating_add(6);
    write!(
        out,
        "<text class=\"name\" x=\"4\" y=\"{y}\" dy=\"4\">{p}.{s}</text>"
    )?;
    write!(out, "<path class=\"life\" d=\"M{begin} {y}H{end}\"/>")?;
    write!(out, "<text class=\"note\" x=\"{note}\" y=\"{y}\" dy=\"4\">")?;
    push_note(out, run, places, stream)?;
    out.push_str("</text>\n")
}

/// Adds what is to be said of a stream's end.
fn push_note(
    out: &mut String,
    run: &WholeRun,
    places: &ProgramNames,
    stream: Step,
) -> Result<(), AllocError> {
    if let Some(wait) = run.end.waits.iter().find(|wait| wait.stream == stream) {
        out.push_str("waits for ")?;
        push_word_name(out, places, wait.wait.address, WAITED)?;
        let wanted = wanted_word(wait.wait.wanted);
        return write!(out, " {wanted}");
    }
    if let Some(stopped) = run
        .end
        .stopped
        .iter()
        .find(|stopped| stopped.stream == stream)
    {
        let number = stopped.trap.number();
        return write!(out, "stopped by trap {number}");
    }
    if run.end.quit.contains(&stream) {
        out.push_str("has quit")
    } else {
        out.push_str("can go on")
    }
}

/// Adds a wait: a band, and the arrow from the step that ended it, or, where it never ends, from the one that made it.
fn push_wait(
    out: &mut String,
    lanes: &Lanes,
    run: &WholeRun,
    wait: &RunWait,
) -> Result<(), AllocError> {
    let Some(y) = lanes.stream_y(wait.stream) else {
        return Ok(());
    };
    if let Some(to) = wait.to
        && to <= lanes.before()
    {
        return Ok(());
    }
    let from = lanes.x(wait.from);
    let to = match wait.to {
        Some(to) => lanes.x(to),
        None => lanes.end(),
    };
    let top = y.saturating_sub(8);
    let width = to.saturating_sub(from);
    write!(
        out,
        "<rect class=\"wait\" x=\"{from}\" y=\"{top}\" width=\"{width}\" height=\"16\"/>\n"
    )?;
    match wait.to {
        Some(to) => push_arrow(
            out,
            lanes,
            run,
            wait.met,
            to,
            "frees\" marker-end=\"url(#f)",
        ),
        None => push_arrow(
            out,
            lanes,
            run,
            wait.made,
            wait.from,
            "causes\" marker-end=\"url(#c)",
        ),
    }
}

/// Adds an arrow of a kind from one step to another, where both have lanes.
fn push_arrow(
    out: &mut String,
    lanes: &Lanes,
    run: &WholeRun,
    from: usize,
    to: usize,
    kind: &str,
) -> Result<(), AllocError> {
    let (Some(y1), Some(y2)) = (step_y(lanes, run, from), step_y(lanes, run, to)) else {
        return Ok(());
    };
    let x1 = lanes.x(from);
    let x2 = lanes.x(to);
    let (s, t) = if y2 < y1 {
        (y1.saturating_sub(11), y2.saturating_add(11))
    } else {
        (y1.saturating_add(11), y2.saturating_sub(11))
    };
    let middle = s.saturating_add(t) / 2;
    write!(
        out,
        "<path class=\"{kind}\" d=\"M{x1} {s}C{x1} {middle} {x2} {middle} {x2} {t}\"/>\n"
    )
}

/// The middle of the lane of the stream that took the step of this number; None where the step is not drawn.
fn step_y(lanes: &Lanes, run: &WholeRun, number: usize) -> Option<usize> {
    if number <= lanes.before() {
        return None;
    }
    let view = run.views.get(number.checked_sub(1)?)?;
    lanes.stream_y(view.step)
}
