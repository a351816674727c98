//! The lines of a trace.

ghost use Rattle.std.specs.Prelude.{◌≡◌, ◌+◌, ◌<◌, ◌≤◌, ◌++◌, length, IfOk, MatchResult, string_bytes};
ghost use Rattle.std.specs.String.{string_len, string_capacity};
ghost use Rattle.arrayvec.specs.ArrayString.{array_string_len};
ghost use Rattle.trace_text.specs.TraceLines.{outcome_text, place_text, result_text, trace_line_of};

use arrayvec::ArrayString;
use processor::Step;
use std::alloc::{AllocError, Global};
use stream_core::Outcome;
use text_parts::{add_hexadecimal, add_right_aligned_3, add_right_aligned_7, add_two_digits};

/// The most bytes of a trace line whose number has at most seven digits.
pub const TRACE_LINE: usize = 36;

/// The most bytes of any line, whose number has at most twenty.
const LINE: usize = TRACE_LINE + 13;

/// The line of a step in a trace: its number, counted from 1, its processor and stream, the pc that the stream had
/// before it, and how it came out ("Traces", docs/FORMATS.md).
pub fn trace_line(
    alloc: Global,
    number: u64,
    step: Step,
    pc: u32,
    outcome: Outcome,
) -> Result<String, AllocError>
    ensures { IfOk result (λ text. string_bytes text ≡ trace_line_of number step pc outcome) }
{
    let mut text = String::new(alloc);
    push_trace_line(&mut text, number, step, pc, outcome)?;
    Ok(text)
}

/// Appends the line of a step to a trace. It fails only where the text has no room for it and memory is refused; the
/// text then stays as it was.
#[tactic(auto, unfolding(crate::specs::TraceLines::trace_line_of))]
pub fn push_trace_line(
    text: &mut String,
    number: u64,
    step: Step,
    pc: u32,
    outcome: Outcome,
) -> Result<(), AllocError>
    ensures { MatchResult result
        (λ _. string_bytes text.new ≡ string_bytes text.old ++ trace_line_of number step pc outcome)
        (λ _. (string_capacity text.old < string_len text.old + length (trace_line_of number step pc outcome))
        × (string_bytes text.new ≡ string_bytes text.old)) }
{
    let mut line = ArrayString::<LINE>::new();
    add_place(&mut line, number, step);
    add_result(&mut line, pc, outcome);
    text.push_str(line.as_str())
}

/// Appends where a line stands in the trace or the history, and whose step it is.
pub(crate) fn add_place<const ROOM: usize>(line: &mut ArrayString<ROOM>, number: u64, step: Step)
    requires { array_string_len line.old + 29 ≤ ROOM }
    ensures bytes { line.new.bytes ≡ line.old.bytes ++ place_text number step }
    ensures len { array_string_len line.new ≤ array_string_len line.old + 29 }
{
    add_right_aligned_7(line, number);
    line.push_str(" ");
    add_right_aligned_3(line, step.p);
    line.push_str(" ");
    add_right_aligned_3(line, step.s);
    line.push_str(" ");
}

/// Appends the pc before a step and how it came out, and the line's end.
fn add_result(line: &mut ArrayString<LINE>, pc: u32, outcome: Outcome)
    requires { array_string_len line.old ≤ 29 }
    ensures { line.new.bytes ≡ line.old.bytes ++ result_text pc outcome }
{
    add_hexadecimal::<8, LINE>(line, u64::from(pc));
    line.push_str(" ");
    add_outcome(line, outcome);
    line.push_str("\n");
}

/// Appends how a step came out, and a trap with its number.
#[tactic(auto, unfolding(crate::specs::TraceLines::outcome_text))]
fn add_outcome(line: &mut ArrayString<LINE>, outcome: Outcome)
    requires { array_string_len line.old ≤ 38 }
    ensures bytes { line.new.bytes ≡ line.old.bytes ++ outcome_text outcome }
    ensures len { array_string_len line.new ≤ array_string_len line.old + 10 }
{
    match outcome {
        Outcome::Skipped => line.push_str("SKIPPED"),
        Outcome::Done => line.push_str("DONE"),
        Outcome::Blocked => line.push_str("BLOCKED"),
        Outcome::Trapped(kind) => {
            line.push_str("TRAPPED ");
            add_two_digits(line, kind.number());
        }
        Outcome::Stopped(kind) => {
            line.push_str("STOPPED ");
            add_two_digits(line, kind.number());
        }
    }
}
