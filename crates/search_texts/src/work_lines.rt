//! Lines about who does the work in a run, in words.

use command_parts::push_object;
use expectation_files::{Requirements, WrittenLine};
use lab_json::{Object, line_value};
use schedule_makers::MadeEnd;
use std::alloc::{AllocError, Global};
use work_rules::WorkRule;

/// Whether a line at a place is another one than that before it: what several streams have to do may stand on one.
pub fn is_another_line(lines: &[WrittenLine], place: usize) -> bool {
    let before = place.checked_sub(1).and_then(|before| lines.get(before));
    match (before, lines.get(place)) {
        (Some(before), Some(line)) => before.number != line.number,
        _ => true,
    }
}

/// Adds the lines about who does the work, which a search does not decide.
pub fn push_undecided_work(out: &mut String, required: &Requirements) -> Result<(), AllocError> {
    let lines = required.work_lines();
    for (place, line) in lines.iter().enumerate() {
        if !is_another_line(lines, place) {
            continue;
        }
        let number = line.number;
        let words = line.words.as_str();
        write!(
            out,
            "not decided: {words} (line {number}): a search does not tell who did what; survey and grade look at runs\n"
        )?;
    }
    Ok(())
}

/// Adds the objects of the same.
pub fn push_undecided_work_objects(
    alloc: Global,
    out: &mut String,
    required: &Requirements,
) -> Result<(), AllocError> {
    let lines = required.work_lines();
    for (place, line) in lines.iter().enumerate() {
        if !is_another_line(lines, place) {
            continue;
        }
        let mut object = Object::of_kind(alloc, "undecided");
        object.put("claim", line_value(alloc, line.number, &line.words));
        push_object(alloc, out, &object.whole()?)?;
    }
    Ok(())
}

/// Who does not do what a line asks for, in a run that ends so.
pub fn work_words(alloc: Global, rule: WorkRule, end: MadeEnd) -> Result<String, AllocError> {
    let so_far = match end {
        MadeEnd::NobodyRuns | MadeEnd::Standstill => "",
        MadeEnd::OutOfSteps => " in so many steps",
    };
    match rule {
        WorkRule::Writes { stream, address } => {
            let (p, s) = (stream.p, stream.s);
            format!(in alloc; "{p}.{s} does not store to [{address}]{so_far}")
        }
        WorkRule::AtLeast { count, .. } => { format!(in alloc; "fewer than {count} do{so_far}") }
    }
}
