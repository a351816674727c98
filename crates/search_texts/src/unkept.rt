//! What is required of a program as a whole, and is not so, in words.

use command_parts::push_object;
use expectation_files::{NEVER_BUSY, NEVER_STARVED, Requirements, WrittenLine};
use lab_json::{Object, line_value};
use program_searches::claims::{ClaimForm, LeadsTo};
use program_searches::endless::answered::RunCondition;
use program_searches::{Step, Unkept, UnkeptConditions, UnkeptWaits};
use serde_json::Value;
use std::alloc::{AllocError, Global};

/// Among which states it was looked for what has to be shown.
#[derive(Clone, Copy, Debug, PartialEq, Eq)]
pub enum LookedAt {
    /// Those of every schedule.
    EverySchedule,
    /// Those of every schedule that begins with the steps that were given.
    SchedulesThatBeginSo,
    /// Those of some runs, which say nothing of other schedules.
    SomeRuns,
}

impl LookedAt {
    /// What follows for a claim that none of them shows.
    fn consequence(self) -> &'static str {
        match self {
            LookedAt::EverySchedule | LookedAt::SchedulesThatBeginSo => "NOT as expected",
            LookedAt::SomeRuns => "not decided",
        }
    }

    /// Where none of them is.
    fn words(self) -> &'static str {
        match self {
            LookedAt::EverySchedule => "in no state of any schedule",
            LookedAt::SchedulesThatBeginSo => "in no state of any schedule that begins so",
            LookedAt::SomeRuns => "in no state of any run",
        }
    }
}

/// Adds the first rule that a program breaks, if it breaks one, the first claim that no world shows of those that were
/// looked at, and why it is not known that nobody can wait forever, or that all runs keep each condition.
pub fn push_unkept(
    out: &mut String,
    required: &Requirements,
    unkept: Unkept,
    looked_at: LookedAt,
) -> Result<(), AllocError> {
    if let Some(said) = broken_rule(required, unkept) {
        let line = said.number;
        let words = said.words.as_str();
        write!(out, "NOT as expected: {words} (line {line})\n")?;
    }
    if let Some(claim) = unshown_claim(required, unkept) {
        let line = claim.number;
        let words = claim.words.as_str();
        let head = looked_at.consequence();
        let place = looked_at.words();
        write!(out, "{head}: {words} (line {line}): {place}\n")?;
    }
    push_waits(out, required, unkept)?;
    push_conditions(out, required, unkept)?;
    if let Some(line) = unkept.undecided {
        write!(
            out,
            "not decided: {NEVER_BUSY} (line {line}): a run cannot show it; use --explore\n"
        )?;
    }
    Ok(())
}

/// Adds why it is not known that nobody can wait forever, where that is required.
fn push_waits(out: &mut String, required: &Requirements, unkept: Unkept) -> Result<(), AllocError> {
    let (Some(line), Some(waits)) = (required.never_starved(), unkept.waits) else {
        return Ok(());
    };
    let head = match waits {
        UnkeptWaits::Starved(_) => "NOT as expected",
        UnkeptWaits::Undecided(_) | UnkeptWaits::Unanswered(_) | UnkeptWaits::RunsAlone => {
            "not decided"
        }
    };
    write!(out, "{head}: {NEVER_STARVED} (line {line}): ")?;
    match waits {
        UnkeptWaits::Starved(who) => {
            let (p, s) = (who.p, who.s);
            write!(out, "{p}.{s} can wait forever\n")
        }
        UnkeptWaits::Undecided(who) => {
            let (p, s) = (who.p, who.s);
            write!(out, "whether {p}.{s} can wait forever\n")
        }
        UnkeptWaits::Unanswered(reason) => {
            let words = reason.words();
            write!(out, "{words}\n")
        }
        UnkeptWaits::RunsAlone => out.push_str("a run cannot show it; use --explore\n"),
    }
}

/// Adds why it is not known that all runs keep each condition, where some is required.
fn push_conditions(
    out: &mut String,
    required: &Requirements,
    unkept: Unkept,
) -> Result<(), AllocError> {
    let Some(condition) = unkept.conditions else {
        return Ok(());
    };
    let Some(said) = required.condition_lines().get(place_of(condition)) else {
        return Ok(());
    };
    let (line, words) = (said.number, said.words.as_str());
    match condition {
        UnkeptConditions::Evaded(place) => {
            write!(out, "NOT as expected: {words} (line {line}): ")?;
            push_evaded(out, required, place)
        }
        UnkeptConditions::Undecided(place) => {
            write!(out, "not decided: {words} (line {line}): whether ")?;
            push_undecided(out, required, place)
        }
        UnkeptConditions::Unanswered(reason) => {
            let why = reason.words();
            write!(out, "not decided: {words} (line {line}): {why}\n")
        }
        UnkeptConditions::RunsAlone => {
            write!(
                out,
                "not decided: {words} (line {line}): runs alone do not decide it; use --explore\n"
            )
        }
    }
}

/// Adds how a run evades the condition at a place.
fn push_evaded(out: &mut String, required: &Requirements, place: usize) -> Result<(), AllocError> {
    match required.run_conditions().get(place) {
        Some(RunCondition::Leads { leads, .. }) => {
            push_comer(out, leads)?;
            out.push_str(" may never come there\n")
        }
        Some(RunCondition::Overtaken(asked)) => {
            let (p, s) = (asked.who.p, asked.who.s);
            write!(out, "{p}.{s} is overtaken more often\n")
        }
        None => out.push_str("\n"),
    }
}

/// Adds what of the condition at a place is not decided.
fn push_undecided(
    out: &mut String,
    required: &Requirements,
    place: usize,
) -> Result<(), AllocError> {
    match required.run_conditions().get(place) {
        Some(RunCondition::Leads { leads, .. }) => {
            push_comer(out, leads)?;
            out.push_str(" always comes there\n")
        }
        Some(RunCondition::Overtaken(asked)) => {
            let (p, s) = (asked.who.p, asked.who.s);
            write!(out, "{p}.{s} is overtaken more often\n")
        }
        None => out.push_str("\n"),
    }
}

/// The place of the condition whose line is named: where the reason is none of a condition, that of the first.
fn place_of(condition: UnkeptConditions) -> usize {
    match condition {
        UnkeptConditions::Evaded(place) | UnkeptConditions::Undecided(place) => place,
        UnkeptConditions::Unanswered(_) | UnkeptConditions::RunsAlone => 0,
    }
}

/// Adds the stream that is to come somewhere.
fn push_comer(out: &mut String, leads: &LeadsTo) -> Result<(), AllocError> {
    match stream_to_come(leads) {
        Some(Step { p, s }) => write!(out, "{p}.{s}"),
        None => out.push_str("a stream"),
    }
}

/// The first stream that a condition is to lead to.
fn stream_to_come(leads: &LeadsTo) -> Option<Step> {
    match &leads.to {
        ClaimForm::Streams { groups, .. } => groups.first()?.streams.first().copied(),
        ClaimForm::Word { .. } | ClaimForm::Compared { .. } => None,
    }
}

/// Adds the objects of the same.
pub fn push_unkept_objects(
    alloc: Global,
    out: &mut String,
    required: &Requirements,
    unkept: Unkept,
) -> Result<(), AllocError> {
    if let Some(said) = broken_rule(required, unkept) {
        let line = line_value(alloc, said.number, &said.words);
        push_line_object(alloc, out, "rule", "broken", line)?;
    }
    if let Some(claim) = unshown_claim(required, unkept) {
        let line = line_value(alloc, claim.number, &claim.words);
        push_line_object(alloc, out, "unshown", "claim", line)?;
    }
    push_waits_object(alloc, out, required, unkept)?;
    push_conditions_object(alloc, out, required, unkept)?;
    if let Some(number) = unkept.undecided {
        let line = line_value(alloc, number, NEVER_BUSY);
        push_line_object(alloc, out, "undecided", "claim", line)?;
    }
    Ok(())
}

/// Adds the object of the line that says that no stream can wait forever, where it is broken or not decided.
fn push_waits_object(
    alloc: Global,
    out: &mut String,
    required: &Requirements,
    unkept: Unkept,
) -> Result<(), AllocError> {
    let (Some(number), Some(waits)) = (required.never_starved(), unkept.waits) else {
        return Ok(());
    };
    let kind = match waits {
        UnkeptWaits::Starved(_) => "broken",
        UnkeptWaits::Undecided(_) | UnkeptWaits::Unanswered(_) | UnkeptWaits::RunsAlone => {
            "undecided"
        }
    };
    let line = line_value(alloc, number, NEVER_STARVED);
    push_line_object(alloc, out, kind, "claim", line)
}

/// Adds the object of the line about runs that is broken or not decided.
fn push_conditions_object(
    alloc: Global,
    out: &mut String,
    required: &Requirements,
    unkept: Unkept,
) -> Result<(), AllocError> {
    let Some(condition) = unkept.conditions else {
        return Ok(());
    };
    let Some(said) = required.condition_lines().get(place_of(condition)) else {
        return Ok(());
    };
    let kind = match condition {
        UnkeptConditions::Evaded(_) => "broken",
        UnkeptConditions::Undecided(_)
        | UnkeptConditions::Unanswered(_)
        | UnkeptConditions::RunsAlone => { "undecided" }
    };
    let line = line_value(alloc, said.number, &said.words);
    push_line_object(alloc, out, kind, "claim", line)
}

/// The line of the rule that the program breaks.
fn broken_rule(required: &Requirements, unkept: Unkept) -> Option<&WrittenLine> {
    unkept
        .rule
        .and_then(|place| required.rule_lines().get(place))
}

/// The line of the claim that no world shows.
fn unshown_claim(required: &Requirements, unkept: Unkept) -> Option<&WrittenLine> {
    unkept
        .unshown
        .and_then(|place| required.claim_lines().get(place))
}

/// Adds an object of this kind, whose one field is a line.
fn push_line_object(
    alloc: Global,
    out: &mut String,
    kind: &str,
    field: &str,
    line: Result<Value, AllocError>,
) -> Result<(), AllocError> {
    let mut object = Object::of_kind(alloc, kind);
    object.put(field, line);
    push_object(alloc, out, &object.whole()?)
}
