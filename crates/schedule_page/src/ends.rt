//! The ends of a space as JSON.

use end_goals::EndCriteria;
use end_goals::ends_of_space::SpaceEnd;
use processor::Step;
use replay_page::json_values::{List, Object, text_value};
use serde_json::Value;
use space_graphs::ends_in_words::EndWords;
use std::alloc::{AllocError, Global};
use trace_text::write_schedule;

/// The ends of a page: what is known of each, and each in words.
#[derive(Clone, Copy)]
pub struct PageEnds<'a> {
    /// What is known of each.
    pub known: &'a [SpaceEnd],
    /// Each in words, in the same order.
    pub words: &'a [EndWords],
}

/// What ends are judged by.
#[derive(Clone, Copy)]
pub(crate) struct EndRequirements<'a> {
    /// What each end has to be, as it is written.
    pub expected: &'a [String],
    /// What decides besides whether one is right.
    pub criteria: EndCriteria,
}

/// The ends as JSON; of each the schedule after so many steps that all schedules begin with.
pub(crate) fn ends_json(
    alloc: Global,
    ends: PageEnds<'_>,
    begin: usize,
    judging: EndRequirements<'_>,
) -> Result<Value, AllocError> {
    let mut values = List::new(alloc);
    for (end, words) in ends.known.iter().zip(ends.words) {
        let right = judging.criteria.verdict(end, ends.known);
        values.put(end_json(alloc, end, words, right, begin, judging));
    }
    values.whole()
}

/// An end as JSON, right or not; None if nothing is judged.
fn end_json(
    alloc: Global,
    end: &SpaceEnd,
    words: &EndWords,
    right: Option<bool>,
    begin: usize,
    judging: EndRequirements<'_>,
) -> Result<Value, AllocError> {
    let steps = end.schedule.get(begin..).unwrap_or(&[]);
    let mut fields = Object::new(alloc);
    fields.put_text("kind", end.kind.json_name());
    fields.put_text("text", &words.text);
    fields.put("right", Ok(right_value(right)));
    fields.put("missed", missed_value(alloc, end, judging));
    fields.put("states", numbers_json(alloc, &end.places));
    fields.put_number("sets", end.sets as u64);
    fields.put_number("shortest", steps.len() as u64);
    fields.put("schedule", schedule_text(alloc, steps));
    fields.put("findings", findings_json(alloc, &words.finding));
    fields.whole()
}

/// Whether an end is right; null if nothing is judged.
fn right_value(right: Option<bool>) -> Value {
    match right {
        Some(right) => Value::Bool(right),
        None => Value::Null,
    }
}

/// The first line of the expectations that an end does not meet; null if there is none.
fn missed_value(
    alloc: Global,
    end: &SpaceEnd,
    judging: EndRequirements<'_>,
) -> Result<Value, AllocError> {
    match end.missed.and_then(|place| judging.expected.get(place)) {
        Some(text) => text_value(alloc, text),
        None => Ok(Value::Null),
    }
}

/// The finding of an end's schedule, in a list; none if it is empty.
fn findings_json(alloc: Global, finding: &str) -> Result<Value, AllocError> {
    let mut findings = List::new(alloc);
    if !finding.is_empty() {
        findings.put(text_value(alloc, finding));
    }
    findings.whole()
}

/// Steps as the text of a schedule; nothing if there are none.
pub(crate) fn schedule_text(alloc: Global, steps: &[Step]) -> Result<Value, AllocError> {
    if steps.is_empty() {
        return Ok(Value::String(String::new(alloc)));
    }
    Ok(Value::String(write_schedule(alloc, steps)?))
}

/// Numbers as JSON.
pub(crate) fn numbers_json(alloc: Global, numbers: &[usize]) -> Result<Value, AllocError> {
    let mut values = List::new(alloc);
    for number in numbers {
        values.put_number(*number as u64);
    }
    values.whole()
}

/// Texts as JSON.
pub(crate) fn texts_json(alloc: Global, texts: &[String]) -> Result<Value, AllocError> {
    let mut values = List::new(alloc);
    for text in texts {
        values.put(text_value(alloc, text));
    }
    values.whole()
}
