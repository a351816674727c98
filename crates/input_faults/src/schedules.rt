//! Schedules.

ghost use Rattle.std.specs.Prelude.{◌≡◌, ◌<◌, ◌||◌, is_err, is_some, vec_len, IfOk, OnOk};
ghost use Rattle.trace_text.specs.Schedules.{schedule_of};
ghost use Rattle.fault_messages.specs.Messages.{has_error};

use crate::schedule_notes::{ScheduleLine, note_fields};
use crate::streams::Streams;
use fault_messages::{Message, Notes, Severity, Spot, TextLine, TextLines, in_order};
use image_file::Image;
use std::alloc::{AllocError, Global};
use trace_text::{ScheduleFault, ScheduleFaultKind, read_schedule};

/// How many steps a schedule has at most.
const MAX_STEPS: u64 = 1_000_000;

/// All faults of a schedule's text as errors; and where a program's image is given, as warnings the processors and streams
/// that it names and the program does not have, each where it is named first; in the order of lines and columns, and of each
/// at most 100,000. There is an error exactly where the text is no schedule. Only memory can be missing.
pub fn check_schedule(
    alloc: Global,
    text: &[u8],
    image: Option<&Image>,
) -> Result<Vec<Message>, AllocError>
    ensures { IfOk result (λ messages. has_error messages.items ≡ is_err (schedule_of text.now)) }
{
    let mut faults = Notes::new(alloc);
    let mut warnings = Notes::new(alloc);
    note_lines(&mut faults, &mut warnings, Streams::of(alloc, image)?, text)?;
    let mut messages = Vec::new(alloc);
    report_faults(faults, refusal_of(alloc, text)?, &mut messages)?;
    warnings.report(Severity::Warning, &mut messages)?;
    in_order(messages)
}

/// Why a text is no schedule; None where it is one.
fn refusal_of(alloc: Global, text: &[u8]) -> Result<Option<ScheduleFault>, AllocError>
    ensures { IfOk result (λ refusal. is_some refusal ≡ is_err (schedule_of text.now)) }
{
    match read_schedule(alloc, text) {
        Ok(_) => Ok(None),
        Err(
            ScheduleFault {
                kind: ScheduleFaultKind::NoMemory,
                ..
            },
        ) => Err(AllocError),
        Err(fault) => Ok(Some(fault)),
    }
}

/// Reports the faults of a text that is refused for one.
fn report_faults(
    faults: Notes,
    refusal: Option<ScheduleFault>,
    messages: &mut Vec<Message>,
) -> Result<(), AllocError>
    ensures { OnOk result (has_error messages.new.items ≡ (has_error messages.old.items || is_some refusal)) }
{
    let Some(fault) = refusal else {
        return Ok(());
    };
    let faults = with_fault(faults, fault)?;
    faults.report(Severity::Error, messages)
}

/// The faults that are found, or this one where none is.
fn with_fault(mut faults: Notes, fault: ScheduleFault) -> Result<Notes, AllocError>
    ensures { IfOk result (λ notes. 0 < vec_len notes.found) }
{
    if faults.len() == 0 {
        let spot = Spot {
            line: fault.line.max(1),
            ..Spot::FIRST
        };
        faults.say(spot, "the line is not understood", "write p s or p s n")?;
    }
    Ok(faults)
}

/// Notes what is wrong with the lines, and what they name that is not there.
fn note_lines(
    faults: &mut Notes,
    warnings: &mut Notes,
    streams: Streams,
    text: &[u8],
) -> Result<(), AllocError> {
    let mut streams = streams;
    let mut steps = 0;
    let mut has_returns = false;
    for line in TextLines::of(text) {
        if line.start < text.len() {
            if let Some(fields) = note_fields(faults, &line, &mut has_returns)? {
                steps = note_steps(faults, &line, steps, fields)?;
                streams.see(warnings, &line, fields)?;
            }
        }
    }
    Ok(())
}

/// Notes that a line takes the steps, which are so many before it, past the limit, and answers how many they are then.
fn note_steps(
    notes: &mut Notes,
    line: &TextLine,
    before: u64,
    fields: ScheduleLine,
) -> Result<u64, AllocError> {
    let steps = before.saturating_add(fields.times);
    if before <= MAX_STEPS && steps > MAX_STEPS {
        let words = "with this line the schedule has more than 1000000 steps";
        notes.say(line.spot(fields.token), words, "take lines out")?;
    }
    Ok(steps)
}
