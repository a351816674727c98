//! The lanes of words: values, full and empty, reads and writes, and what was lost.

use crate::lanes::{Lanes, NAMES};
use crate::marks::{push_bars, push_meeting};
use crate::pages::push_cut;
use crate::whole_run::WholeRun;
use bitflags::Flags;
use lab_json::texts::{ProgramNames, full_word};
use run_findings::LostUpdate;
use std::alloc::AllocError;
use step_views::{Content, Place, StepView};
use stream_core::Outcome;
use tag_memory::{Tags, Word};

/// How many letters of a word's address and name have room before its lane.
const NAMED: usize = 20;

/// Where a comment begins, unless an address and a name before it take more room.
const COMMENTS: usize = 72;

/// How many letters of a comment are worth their room.
const LEAST_COMMENT: usize = 3;

/// What a word holds from a step on.
#[derive(Clone, Copy)]
struct WordState {
    from: usize,
    value: u64,
    is_full: bool,
}

/// Adds the lanes of all words, and these lost updates.
pub(crate) fn push_words(
    out: &mut String,
    lanes: &Lanes,
    run: &WholeRun,
    lost: &[LostUpdate],
    places: &ProgramNames,
    cells: &[Word],
) -> Result<(), AllocError> {
    for address in lanes.words() {
        let Some(y) = lanes.word_y(*address) else {
            continue;
        };
        push_lane_name(out, places, *address, y.saturating_add(20))?;
        if let Some(cell) = cells.get((*address / 8) as usize) {
            push_bar(out, lanes, &run.views, y, *address, *cell)?;
        }
    }
    push_meetings(out, lanes, &run.views)?;
    for update in lost {
        push_lost(out, lanes, update)?;
    }
    Ok(())
}

/// Adds what stands before a word's lane: its address and its name, and as much of its comment as has room then.
fn push_lane_name(
    out: &mut String,
    places: &ProgramNames,
    address: u64,
    y: usize,
) -> Result<(), AllocError> {
    write!(out, "<text class=\"name\" x=\"4\" y=\"{y}\">")?;
    let letters = push_word_name(out, places, address, NAMED)?;
    let x = letters.saturating_mul(8).saturating_add(12).max(COMMENTS);
    write!(out, "</text><text class=\"note\" x=\"{x}\" y=\"{y}\">")?;
    // two letters of a comment take 13 pixels
    let room = NAMES.saturating_sub(x).saturating_mul(2) / 13;
    if room >= LEAST_COMMENT {
        push_cut(out, places.remark(address), room)?;
    }
    out.push_str("</text>\n")
}

/// Adds the address of a word and its name, cut to so many letters, and says how many these are.
pub(crate) fn push_word_name(
    out: &mut String,
    places: &ProgramNames,
    address: u64,
    room: usize,
) -> Result<usize, AllocError> {
    let mut name = String::new(*out.allocator());
    places.push_address(&mut name, address)?;
    push_cut(out, &name, room)?;
    Ok(name.len().min(room))
}

/// Adds a word's bar: high where it is full, thin where it is empty, with a tick where its value changed.
fn push_bar(
    out: &mut String,
    lanes: &Lanes,
    views: &[StepView],
    y: usize,
    address: u64,
    cell: Word,
) -> Result<(), AllocError> {
    let floor = y.saturating_add(24);
    let mut state = WordState {
        from: 0,
        value: cell.value(),
        is_full: cell.is_full(),
    };
    for (index, view) in views.iter().enumerate() {
        let number = index.saturating_add(1);
        let next = after_step(state, number, view, address);
        if next.from == number {
            if number > lanes.before() {
                push_change(out, lanes, floor, state, next)?;
            }
            state = next;
        }
    }
    push_state(out, lanes.x(state.from), lanes.end(), floor, state)?;
    let note = lanes.end().saturating_add(6);
    let value = state.value;
    let words = full_word(state.is_full);
    write!(
        out,
        "<text class=\"note\" x=\"{note}\" y=\"{floor}\" dy=\"-5\">{value}, {words}</text>\n"
    )
}

/// Adds what a word held up to a step, with a tick where its value changed then.
fn push_change(
    out: &mut String,
    lanes: &Lanes,
    floor: usize,
    state: WordState,
    next: WordState,
) -> Result<(), AllocError> {
    let x = lanes.x(next.from);
    push_state(out, lanes.x(state.from), x, floor, state)?;
    if next.value != state.value {
        write!(out, "<path class=\"tick\" d=\"M{x} {floor}m0 3v-24\"/>")?;
    }
    Ok(())
}

/// What a word holds after a step; as before where the step did not change it.
fn after_step(state: WordState, number: usize, view: &StepView, address: u64) -> WordState {
    let mut next = state;
    for change in &view.changes {
        match change.after {
            Content::Number(value) if change.place == Place::Value { address } => {
                next.value = value;
                next.from = number;
            }
            Content::Tags(tags) if change.place == Place::Tags { address } => {
                next.is_full = tags.contains(Tags::FULL);
                next.from = number;
            }
            _ => {}
        }
    }
    next
}

/// Adds what a word holds between two places.
fn push_state(
    out: &mut String,
    from: usize,
    to: usize,
    floor: usize,
    state: WordState,
) -> Result<(), AllocError> {
    let (class, height) = if state.is_full {
        ("full", 18)
    } else {
        ("empty", 4)
    };
    let top = floor.saturating_sub(height);
    let width = to.saturating_sub(from);
    write!(
        out,
        "<rect class=\"{class}\" x=\"{from}\" y=\"{top}\" width=\"{width}\" height=\"{height}\"/>"
    )?;
    let digits = state.value.checked_ilog10().unwrap_or(0) as usize;
    if state.is_full && digits.saturating_add(2).saturating_mul(8) < width {
        let value = state.value;
        write!(
            out,
            "<text class=\"value\" x=\"{from}\" y=\"{floor}\" dx=\"5\" dy=\"-5\">{value}</text>"
        )?;
    }
    out.push_str("\n")
}

/// Adds where steps met words: a ring, a wedge or bars, and a stem up to the step.
fn push_meetings(out: &mut String, lanes: &Lanes, views: &[StepView]) -> Result<(), AllocError> {
    for (index, view) in views.iter().enumerate().skip(lanes.before()) {
        let Some(reference) = view.reference else {
            continue;
        };
        let (Some(top), Some(y)) = (lanes.stream_y(view.step), lanes.word_y(reference.address))
        else {
            continue;
        };
        let x = lanes.x(index.saturating_add(1));
        let mark = y.saturating_add(33);
        write!(out, "<path class=\"stem\" d=\"M{x} {top}V{y}\"/>")?;
        match view.outcome {
            Outcome::Blocked => push_bars(out, x, mark)?,
            _ => push_meeting(out, x, mark, reference.request.op)?,
        }
    }
    Ok(())
}

/// Adds a lost update whose last step is drawn: a bracket from the read to the store that was made of it, and a cross at
/// the other store.
fn push_lost(out: &mut String, lanes: &Lanes, lost: &LostUpdate) -> Result<(), AllocError> {
    let Some(y) = lanes.word_y(lost.word) else {
        return Ok(());
    };
    if lost.stored < lanes.before() {
        return Ok(());
    }
    let y = y.saturating_add(47);
    let from = lanes.x(lost.read.saturating_add(1));
    let over = lanes.x(lost.over.saturating_add(1));
    let to = lanes.x(lost.stored.saturating_add(1));
    let text = to.saturating_add(6);
    write!(
        out,
        "<path class=\"lost\" d=\"M{from} {y}m0 -5v5H{to}v-5\"/>"
    )?;
    if lost.over >= lanes.before() {
        write!(
            out,
            "<path class=\"lost\" d=\"M{over} {y}m-4.5 -4.5l9 9m0 -9l-9 9\"/>"
        )?;
    }
    write!(
        out,
        "<text class=\"lost\" x=\"{text}\" y=\"{y}\" dy=\"3\">lost</text>\n"
    )
}
