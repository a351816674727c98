//! What a survey says of who does the work in its runs.

use crate::survey_objects::SurveyInput;
use end_kinds::Status;
use expectation_files::WrittenLine;
use image_file::Image;
use image_machines::by_room;
use lab_json::{Object, digits, line_value};
use schedule_makers::MadeEnd;
use search_texts::parts::push_object;
use search_texts::work_words;
use seed_outcomes::SurveySeeds;
use seed_outcomes::seeds::Seeds;
use seed_work::rules::WorkRule;
use seed_work::{MissedWork, first_missed_alone};
use serde_json::Value;
use std::alloc::{AllocError, Global};

/// Adds the first line about who does the work that the run of a seed does not meet, of the first such seed, and says what it
/// means for the exit status; nothing where each run meets all.
pub(crate) fn push_missed_work(
    alloc: Global,
    out: &mut String,
    is_json: bool,
    surveyed: SurveyInput,
    seeds: SurveySeeds,
) -> Result<Status, AllocError> {
    let required = surveyed.required;
    if required.work().is_empty() {
        return Ok(Status::Done);
    }
    let image = &surveyed.program.image;
    let Some(missed) = missed_work(alloc, image, required.work(), seeds)? else {
        return Ok(Status::Done);
    };
    let rule = required.work().get(missed.rule).copied();
    let line = required.work_lines().get(missed.rule);
    if let (Some(rule), Some(line)) = (rule, line) {
        if is_json {
            push_work_object(alloc, out, line, missed)?;
        } else {
            push_work(alloc, out, rule, line, missed)?;
        }
    }
    Ok(status_of(missed))
}

/// Of the seeds of a survey the first whose run does not meet all of these lines.
fn missed_work(
    alloc: Global,
    image: &Image,
    rules: &[WorkRule],
    seeds: SurveySeeds,
) -> Result<Option<MissedWork>, AllocError> {
    let tried = Seeds {
        first: seeds.first,
        count: seeds.count,
        most: seeds.most,
    };
    let found = by_room!(image, first_missed_alone(alloc, image, rules, tried));
    match found {
        Ok(found) => Ok(found),
        Err(_) => Err(AllocError),
    }
}

/// Whether more steps might meet the line.
fn is_open(missed: MissedWork) -> bool {
    missed.end == MadeEnd::OutOfSteps
}

/// What it means for the exit status that the run of a seed does not meet a line.
fn status_of(missed: MissedWork) -> Status {
    if is_open(missed) {
        Status::OutOfSteps
    } else {
        Status::Unexpected
    }
}

/// Adds a line that the run of a seed does not meet, in words.
fn push_work(
    alloc: Global,
    out: &mut String,
    rule: WorkRule,
    line: &WrittenLine,
    missed: MissedWork,
) -> Result<(), AllocError> {
    let head = if is_open(missed) {
        "not decided"
    } else {
        "NOT as expected"
    };
    let (words, number, seed) = (line.words.as_str(), line.number, missed.seed);
    let who = work_words(alloc, rule, missed.end)?;
    write!(out, "{head}: {words} (line {number}): seed {seed}: {who}\n")
}

/// Adds the object of the same.
fn push_work_object(
    alloc: Global,
    out: &mut String,
    line: &WrittenLine,
    missed: MissedWork,
) -> Result<(), AllocError> {
    let mut object = Object::of_kind(alloc, "work");
    object.put("missed", line_value(alloc, line.number, &line.words));
    object.put("seed", digits(alloc, missed.seed));
    object.put("decided", Ok(Value::from(!is_open(missed))));
    push_object(alloc, out, &object.whole()?)
}
