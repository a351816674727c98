//! The lines of a file of kept results.

use crate::hex::{checksum_in, hex_of};
use crate::members::{ReadFault, count_in, list_in, number_in, some_text_in, text_in, wanted};
use crate::read_rows::row_in;
use crate::row_values::{row_value, some_text_value};
use crate::sealed::{sealed, unsealed};
use class_results::{Checksum, ResultBasis};
use grade_reports::GradeRow;
use grade_reports::json_values::{List, Object, text_value};
use serde_json::Value;
use std::alloc::{AllocError, Global};

/// The `object` of a class.
const CLASS: &str = "class";

/// The `object` of a result.
const RESULT: &str = "result";

/// What a call that keeps results was to judge.
#[derive(Drop)]
pub struct ClassHead {
    /// The version of the program.
    pub version: String,
    /// Which part of the class it judges, as `I/N`; None: all.
    pub part: Option<String>,
    /// The checksum of the options that a verdict depends on, and of the version.
    pub options: Checksum,
    /// The checksum of the cases.
    pub cases: Checksum,
    /// How many of the cases have a name.
    pub named_cases: usize,
    /// How many points there are for all cases.
    pub points: u64,
    /// The paths of the submissions of the whole class, sorted, each once.
    pub submissions: Vec<String>,
}

/// What was said of a submission.
#[derive(Drop)]
pub struct KeptResult {
    /// Its path.
    pub submission: String,
    /// What it depends on.
    pub basis: ResultBasis,
    /// What was said.
    pub row: GradeRow,
}

/// What a line says.
#[derive(Drop)]
pub enum ResultLine {
    /// What a call was to judge.
    Head(ClassHead),
    /// What was said of a submission.
    Result(KeptResult),
    /// Nothing that is believed: it is not whole, or no line of the lab.
    Damaged,
}

/// The line of what a call is to judge, with its end.
pub fn head_line(alloc: Global, head: &ClassHead) -> Result<String, AllocError> {
    let mut object = Object::of_kind(alloc, CLASS);
    object.put_text("program", &head.version);
    object.put("part", some_text_value(alloc, head.part.as_ref()));
    put_checksum(alloc, &mut object, "options", &head.options);
    put_checksum(alloc, &mut object, "cases", &head.cases);
    object.put_number("named_cases", head.named_cases as u64);
    object.put_number("points", head.points);
    object.put("submissions", paths_value(alloc, &head.submissions));
    line_of(alloc, object)
}

/// A list of paths.
fn paths_value(alloc: Global, paths: &[String]) -> Result<Value, AllocError> {
    let mut values = List::new(alloc);
    for path in paths {
        values.put(text_value(alloc, path));
    }
    values.whole()
}

/// The line of what was said of the submission of a path, with its end.
pub fn result_line(
    alloc: Global,
    path: &str,
    basis: &ResultBasis,
    row: &GradeRow,
) -> Result<String, AllocError> {
    let mut object = Object::of_kind(alloc, RESULT);
    object.put_text("submission", path);
    put_checksum(alloc, &mut object, "text", &basis.submission);
    put_checksum(alloc, &mut object, "options", &basis.options);
    put_checksum(alloc, &mut object, "cases", &basis.cases);
    object.put("row", row_value(alloc, row));
    line_of(alloc, object)
}

/// Puts the digits of a checksum.
fn put_checksum(alloc: Global, object: &mut Object, name: &str, checksum: &Checksum) {
    let digits = match hex_of(alloc, checksum) {
        Ok(digits) => Ok(Value::String(digits)),
        Err(fault) => Err(fault),
    };
    object.put(name, digits);
}

/// The line of an object.
fn line_of(alloc: Global, object: Object) -> Result<String, AllocError> {
    let text = object.whole()?.to_string(alloc)?;
    sealed(alloc, &text)
}

/// What a line says, which is given without its end.
pub fn read_line(alloc: Global, line: &str) -> Result<ResultLine, AllocError> {
    let Some(text) = unsealed(alloc, line)? else {
        return Ok(ResultLine::Damaged);
    };
    let object = match Value::from_str(alloc, &text) {
        Ok(object) => object,
        Err(fault) if fault.is_memory() => return Err(AllocError),
        Err(_) => return Ok(ResultLine::Damaged),
    };
    match said_in(alloc, &object) {
        Ok(said) => Ok(said),
        Err(ReadFault::NoMemory) => Err(AllocError),
        Err(ReadFault::Damaged) => Ok(ResultLine::Damaged),
    }
}

/// What an object says.
fn said_in(alloc: Global, object: &Value) -> Result<ResultLine, ReadFault> {
    let called = text_in(object, "object")?;
    if called == RESULT {
        return Ok(ResultLine::Result(result_in(alloc, object)?));
    }
    if called == CLASS {
        return Ok(ResultLine::Head(head_in(alloc, object)?));
    }
    Err(ReadFault::Damaged)
}

/// The head of these members.
fn head_in(alloc: Global, object: &Value) -> Result<ClassHead, ReadFault> {
    let options = sum_in(object, "options")?;
    let cases = sum_in(object, "cases")?;
    let named_cases = count_in(object, "named_cases")?;
    let points = number_in(object, "points")?;
    let mut head = ClassHead {
        version: String::new(alloc),
        part: None,
        options,
        cases,
        named_cases,
        points,
        submissions: Vec::new(alloc),
    };
    read_head(alloc, object, &mut head)?;
    Ok(head)
}

/// Reads the version, the part and the submissions.
fn read_head(alloc: Global, object: &Value, head: &mut ClassHead) -> Result<(), ReadFault> {
    head.version.push_str(text_in(object, "program")?)?;
    if let Some(part) = some_text_in(object, "part")? {
        head.part = Some(String::from_str(alloc, part)?);
    }
    for path in list_in(object, "submissions")? {
        let path = wanted(path.as_str())?;
        head.submissions.push(String::from_str(alloc, path)?)?;
    }
    Ok(())
}

/// The result of these members.
fn result_in(alloc: Global, object: &Value) -> Result<KeptResult, ReadFault> {
    let basis = ResultBasis {
        submission: sum_in(object, "text")?,
        cases: sum_in(object, "cases")?,
        options: sum_in(object, "options")?,
    };
    let value = wanted(object.get("row"))?;
    let submission = String::from_str(alloc, text_in(object, "submission")?)?;
    Ok(KeptResult {
        submission,
        basis,
        row: row_in(alloc, value)?,
    })
}

/// The checksum of a member's digits.
fn sum_in(object: &Value, name: &str) -> Result<Checksum, ReadFault> {
    wanted(checksum_in(text_in(object, name)?))
}
