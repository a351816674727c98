//! Findings.

use crate::fields::{Fields, put_number};
use crate::values::{List, Object};
use image_file::Image;
use image_machines::loaded;
use lab_texts::FindingsOfRun;
use processor::Step;
use run_findings::{Action, LostUpdate, TornRead, UnreadStore};
use serde_json::Value;
use std::alloc::{AllocError, Global};
use whole_runs::run_actions;

/// The most findings of a kind that the end of a run has.
const MOST_OF_A_KIND: usize = 100;

/// Puts the findings of an image's run by these steps, of each kind the first 100, and how many more there are.
pub(crate) fn put_findings<const S: usize>(
    alloc: Global,
    fields: &mut Fields,
    image: &Image,
    steps: &[Step],
) -> Result<(), AllocError> {
    let mut machine = loaded::<S>(alloc, image)?;
    let actions = run_actions(alloc, &mut machine, steps)?;
    let found = FindingsOfRun::of(alloc, &actions)?;
    let findings = first_findings(alloc, &found, MOST_OF_A_KIND)?;
    let more = found.count().saturating_sub(findings.len());
    serde_json::put(fields, alloc, "findings", Value::Array(findings))?;
    put_number(alloc, fields, "more_findings", more as u64)
}

/// What went wrong in a run of these actions: lost updates, torn reads, unread stores (docs/LAB_REFERENCE.md,
/// "Findings"); no torn reads of a run of more than 20,000 steps. Steps count from 1 here.
pub fn findings_value(alloc: Global, actions: &[Action]) -> Result<Value, AllocError> {
    let found = FindingsOfRun::of(alloc, actions)?;
    Ok(Value::Array(first_findings(alloc, &found, usize::MAX)?))
}

/// Of each kind of findings the first ones, so many at most.
fn first_findings(
    alloc: Global,
    found: &FindingsOfRun,
    most: usize,
) -> Result<Vec<Value>, AllocError> {
    let mut findings = Vec::new(alloc);
    push_findings(alloc, &mut findings, found, most)?;
    Ok(findings)
}

/// Adds of each kind of findings the first ones, so many at most.
fn push_findings(
    alloc: Global,
    findings: &mut Vec<Value>,
    found: &FindingsOfRun,
    most: usize,
) -> Result<(), AllocError> {
    for lost in found.lost.iter().take(most) {
        findings.push(lost_value(alloc, lost)?)?;
    }
    for torn in found.torn.iter().take(most) {
        findings.push(torn_value(alloc, torn)?)?;
    }
    for unread in found.unread.iter().take(most) {
        findings.push(unread_value(alloc, unread)?)?;
    }
    Ok(())
}

/// A lost update.
fn lost_value(alloc: Global, lost: &LostUpdate) -> Result<Value, AllocError> {
    let mut fields = Object::new(alloc);
    fields.put_text("kind", "lost");
    fields.put_number("word", lost.word);
    fields.put_number("read", number_of(lost.read));
    fields.put_number("over", number_of(lost.over));
    fields.put_number("stored", number_of(lost.stored));
    fields.whole()
}

/// A torn read: the steps of the word that was read before it was written, and of the other one.
fn torn_value(alloc: Global, torn: &TornRead) -> Result<Value, AllocError> {
    let mut fields = Object::new(alloc);
    fields.put_text("kind", "torn");
    fields.put_number("stale", torn.stale);
    fields.put_number("fresh", torn.fresh);
    fields.put(
        "reads",
        numbers_value(alloc, torn.stale_read, torn.fresh_read),
    );
    fields.put(
        "writes",
        numbers_value(alloc, torn.stale_write, torn.fresh_write),
    );
    fields.whole()
}

/// The numbers of two steps.
fn numbers_value(alloc: Global, one: usize, other: usize) -> Result<Value, AllocError> {
    let mut numbers = List::new(alloc);
    numbers.put_number(number_of(one));
    numbers.put_number(number_of(other));
    numbers.whole()
}

/// An unread store.
fn unread_value(alloc: Global, unread: &UnreadStore) -> Result<Value, AllocError> {
    let mut fields = Object::new(alloc);
    fields.put_text("kind", "unread");
    fields.put_number("word", unread.word);
    fields.put_number("over", number_of(unread.over));
    fields.put_number("stored", number_of(unread.stored));
    fields.whole()
}

/// The number of the step in a place of the run: the first is step 1.
fn number_of(place: usize) -> u64 {
    (place as u64).saturating_add(1)
}
