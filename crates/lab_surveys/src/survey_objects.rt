//! What is said of a survey as objects (docs/LAB_REFERENCE.md, "JSON").

use crate::coverage::can_go_on_forever;
use expectation_files::Requirements;
use lab_json::{Fields, Object, digits, line_value, object_of, put_run};
use lab_requests::Maker;
use rayon::prelude::*;
use search_texts::ends_in_words::BrokenLine;
use search_texts::parts::{Program, made_by, push_object};
use search_texts::searches::Explored;
use search_texts::{ExpectedLines, put_bound};
use seed_outcomes::SeedOutcome;
use serde_json::Value;
use std::alloc::{AllocError, Global};
use std::thread::Threads;

/// Of what the outcomes of a survey are.
#[derive(Clone, Copy)]
pub(crate) struct SurveyInput<'a> {
    /// The program.
    pub program: &'a Program,
    /// What is required of it.
    pub required: &'a Requirements,
    /// The most steps of a schedule.
    pub most: usize,
}

impl<'a> SurveyInput<'a> {
    /// The lines that say what is expected of ends.
    fn lines(&self) -> ExpectedLines<'a> {
        ExpectedLines {
            required: self.required,
        }
    }
}

/// Adds the objects of outcomes, made over all cores. What an outcome's words, streams and findings are is said of the run
/// of its seed, which is taken once more.
pub(crate) fn push_outcome_objects<X: Threads + Sync>(
    rt: &X,
    alloc: Global,
    out: &mut String,
    surveyed: SurveyInput,
    outcomes: &[SeedOutcome],
) -> Result<(), AllocError> {
    let lines = (0..outcomes.len())
        .into_par_iter()
        .map(|place: usize| -> Result<String, AllocError> {
            let outcome = outcomes.get(place).ok_or(AllocError)?;
            outcome_line(alloc, surveyed, outcome)
        })
        .with_min_len(1)
        .collect::<Result<Vec<String>, AllocError>>(rt, alloc);
    let Ok(Ok(lines)) = lines else {
        return Err(AllocError);
    };
    for line in &lines {
        out.push_str(line)?;
    }
    Ok(())
}

/// The line with the object of an outcome.
fn outcome_line(
    alloc: Global,
    surveyed: SurveyInput,
    outcome: &SeedOutcome,
) -> Result<String, AllocError> {
    let value = outcome_value(alloc, surveyed, outcome)?;
    let mut line = String::new(alloc);
    push_object(alloc, &mut line, &value)?;
    Ok(line)
}

/// The object of an outcome.
fn outcome_value(
    alloc: Global,
    surveyed: SurveyInput,
    outcome: &SeedOutcome,
) -> Result<Value, AllocError> {
    let mut fields = object_of(alloc, "outcome")?;
    put_run_of(alloc, &mut fields, surveyed, outcome)?;
    let mut object = Object::of(alloc, fields);
    object.put_text("end", outcome.judgement.kind.json_name());
    object.put_number("runs", outcome.runs as u64);
    object.put("seed", digits(alloc, outcome.seed));
    object.put_number("steps", outcome.steps as u64);
    object.put("expected", Ok(Value::from(outcome.judgement.is_expected())));
    object.whole()
}

/// Puts the line that an outcome misses, the claim that it breaks, and what is said of the run of its seed.
fn put_run_of(
    alloc: Global,
    fields: &mut Fields,
    surveyed: SurveyInput,
    outcome: &SeedOutcome,
) -> Result<(), AllocError> {
    let image = &surveyed.program.image;
    let maker = Maker::Random { seed: outcome.seed };
    let lines = surveyed.lines();
    lines.put_missed(alloc, fields, outcome.judgement.missed)?;
    lines.put_claim(alloc, fields, outcome.judgement.broken)?;
    let made = made_by(alloc, image, maker, surveyed.most)?;
    put_run(alloc, fields, image, &made.steps)
}

/// The claim that is broken on the way to an outcome.
pub(crate) fn broken_words<'w>(
    required: &'w Requirements,
    outcome: &SeedOutcome,
) -> Option<&'w str> {
    let line = outcome
        .judgement
        .broken
        .and_then(|place| required.claim_lines().get(place))?;
    Some(line.words.as_str())
}

/// Adds the object that names the claim which some schedule breaks.
pub(crate) fn push_broken_object(
    alloc: Global,
    out: &mut String,
    broken: BrokenLine<'_>,
) -> Result<(), AllocError> {
    let mut object = Object::of_kind(alloc, "broken");
    object.put("claim", line_value(alloc, broken.number, broken.words));
    push_object(alloc, out, &object.whole()?)
}

/// Adds the object that says how many of so many ends of every schedule the seeds met.
pub(crate) fn push_coverage(
    alloc: Global,
    out: &mut String,
    found: &Explored<'_>,
    ends: usize,
    met: usize,
) -> Result<(), AllocError> {
    let mut fields = object_of(alloc, "coverage")?;
    put_bound(alloc, &mut fields, found.bound)?;
    let mut object = Object::of(alloc, fields);
    object.put_number("ends", ends as u64);
    object.put_number("met", met as u64);
    object.put_number("worlds", found.worlds() as u64);
    object.put("complete", Ok(Value::from(found.is_complete)));
    object.put("spinning", Ok(Value::from(can_go_on_forever(found))));
    push_object(alloc, out, &object.whole()?)
}
