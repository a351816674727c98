//! Rows, read from values of JSON.

use crate::members::{
    ReadFault, count_in, flag_in, list_in, number_in, some_count_in, some_in, some_text_in,
    text_in, wanted,
};
use crate::row_words::{bound_of, end_kind_of, kind_of, status_of};
use end_kinds::{EndKind, Status};
use grade_reports::judges::{Known, VerdictKind, Witness};
use grade_reports::{CaseRow, CountedEnd, GradeRow, ReportLine, SourcePosition};
use processor::Step;
use serde_json::Value;
use std::alloc::Global;

/// The row of a value.
pub(crate) fn row_in(alloc: Global, value: &Value) -> Result<GradeRow, ReadFault> {
    let mut row = GradeRow::plain(alloc, kind_in(value)?, known_in(value)?);
    row.status = status_in(value)?;
    read_row(alloc, value, &mut row)?;
    Ok(row)
}

/// Reads what a row says, and shows.
fn read_row(alloc: Global, value: &Value, row: &mut GradeRow) -> Result<(), ReadFault> {
    row.place = place_in(value)?;
    row.words.push_str(text_in(value, "words")?)?;
    row.finding.push_str(text_in(value, "finding")?)?;
    row.case = name_in(alloc, value, "case")?;
    row.witness = witness_in(alloc, value)?;
    row.missed = missed_in(alloc, value)?;
    add_cases(alloc, list_in(value, "cases")?, &mut row.cases)?;
    add_ends(alloc, list_in(value, "ends")?, &mut row.ends)
}

/// Adds what is said by the cases of these values.
fn add_cases(alloc: Global, values: &[Value], cases: &mut Vec<CaseRow>) -> Result<(), ReadFault> {
    for value in values {
        cases.push(case_in(alloc, value)?)?;
    }
    Ok(())
}

/// What is said by the case of a value.
fn case_in(alloc: Global, value: &Value) -> Result<CaseRow, ReadFault> {
    let mut case = plain_case_in(alloc, value)?;
    read_case(alloc, value, &mut case)?;
    Ok(case)
}

/// What is said by the case of a value, but for its name, for what shows it and for its words.
fn plain_case_in(alloc: Global, value: &Value) -> Result<CaseRow, ReadFault> {
    let points = points_in(value)?;
    let is_hidden = flag_in(value, "hidden")?;
    let (kind, status) = (kind_in(value)?, status_in(value)?);
    let known = known_in(value)?;
    Ok(CaseRow {
        name: None,
        is_hidden,
        points,
        kind,
        known,
        witness: Witness::None,
        missed: None,
        words: String::new(alloc),
        finding: String::new(alloc),
        status,
    })
}

/// How many points there are for a case.
fn points_in(value: &Value) -> Result<u32, ReadFault> {
    match u32::try_from(number_in(value, "points")?) {
        Ok(points) => Ok(points),
        Err(_) => Err(ReadFault::Damaged),
    }
}

/// Reads the name of a case, what shows the verdict by it, and its words.
fn read_case(alloc: Global, value: &Value, case: &mut CaseRow) -> Result<(), ReadFault> {
    case.words.push_str(text_in(value, "words")?)?;
    case.finding.push_str(text_in(value, "finding")?)?;
    case.name = name_in(alloc, value, "name")?;
    case.witness = witness_in(alloc, value)?;
    case.missed = missed_in(alloc, value)?;
    Ok(())
}

/// Adds the ends of these values.
fn add_ends(alloc: Global, values: &[Value], ends: &mut Vec<CountedEnd>) -> Result<(), ReadFault> {
    for value in values {
        ends.push(end_in(alloc, value)?)?;
    }
    Ok(())
}

/// The ends of a value, which are counted as one.
fn end_in(alloc: Global, value: &Value) -> Result<CountedEnd, ReadFault> {
    let kind = counted_kind_in(value)?;
    let count = count_in(value, "count")?;
    let mut end = CountedEnd {
        kind,
        count,
        witness: Witness::None,
        text: String::new(alloc),
        missed: None,
    };
    read_end(alloc, value, &mut end)?;
    Ok(end)
}

/// How the ends of a value are called; None where a claim is broken.
fn counted_kind_in(value: &Value) -> Result<Option<EndKind>, ReadFault> {
    match some_text_in(value, "end")? {
        Some(word) => Ok(Some(wanted(end_kind_of(word))?)),
        None => Ok(None),
    }
}

/// Reads what leads to ends, what they are in words, and the line that they miss.
fn read_end(alloc: Global, value: &Value, end: &mut CountedEnd) -> Result<(), ReadFault> {
    end.text.push_str(text_in(value, "text")?)?;
    end.witness = witness_in(alloc, value)?;
    end.missed = missed_in(alloc, value)?;
    Ok(())
}

/// The verdict that a value names.
fn kind_in(value: &Value) -> Result<VerdictKind, ReadFault> {
    wanted(kind_of(text_in(value, "verdict")?))
}

/// The exit status whose number a value has.
fn status_in(value: &Value) -> Result<Status, ReadFault> {
    match u8::try_from(number_in(value, "status")?) {
        Ok(number) => wanted(status_of(number)),
        Err(_) => Err(ReadFault::Damaged),
    }
}

/// A copy of a name, which may be missing.
fn name_in(alloc: Global, value: &Value, name: &str) -> Result<Option<String>, ReadFault> {
    match some_text_in(value, name)? {
        Some(text) => Ok(Some(String::from_str(alloc, text)?)),
        None => Ok(None),
    }
}

/// What was looked at.
fn known_in(value: &Value) -> Result<Known, ReadFault> {
    let known = wanted(value.get("known"))?;
    let bound = match some_text_in(known, "bound")? {
        Some(word) => Some(wanted(bound_of(word))?),
        None => None,
    };
    Ok(Known {
        worlds: some_count_in(known, "worlds")?,
        is_every: flag_in(known, "every")?,
        bound,
        seeds: some_count_in(known, "seeds")?,
    })
}

/// What shows the verdict.
fn witness_in(alloc: Global, value: &Value) -> Result<Witness, ReadFault> {
    let witness = wanted(value.get("witness"))?;
    if some_in(witness, "seed")?.is_some() {
        return Ok(Witness::Seed(number_in(witness, "seed")?));
    }
    if some_in(witness, "steps")?.is_none() {
        return Ok(Witness::None);
    }
    let mut steps = Vec::new(alloc);
    add_steps(list_in(witness, "steps")?, &mut steps)?;
    Ok(Witness::Schedule(steps))
}

/// Adds the steps of these values.
fn add_steps(values: &[Value], steps: &mut Vec<Step>) -> Result<(), ReadFault> {
    for value in values {
        let (p, s) = (byte_in(value, "p")?, byte_in(value, "s")?);
        steps.push(Step { p, s })?;
    }
    Ok(())
}

/// A number of eight bits.
fn byte_in(value: &Value, name: &str) -> Result<u8, ReadFault> {
    match u8::try_from(number_in(value, name)?) {
        Ok(byte) => Ok(byte),
        Err(_) => Err(ReadFault::Damaged),
    }
}

/// The line that is missed; None where none is.
fn missed_in(alloc: Global, value: &Value) -> Result<Option<ReportLine>, ReadFault> {
    let Some(missed) = some_in(value, "missed")? else {
        return Ok(None);
    };
    let line = count_in(missed, "line")?;
    Ok(Some(ReportLine::of(alloc, line, text_in(missed, "text")?)?))
}

/// Where a source has its first error; None where it has none.
fn place_in(value: &Value) -> Result<Option<SourcePosition>, ReadFault> {
    let Some(place) = some_in(value, "place")? else {
        return Ok(None);
    };
    Ok(Some(SourcePosition {
        line: count_in(place, "line")?,
        column: count_in(place, "column")?,
    }))
}
