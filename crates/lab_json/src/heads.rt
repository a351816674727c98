//! The head of a run: its program and the world at the start.

use crate::places::{content_value, digits, place_name};
use crate::values::{List, Object, text_value};
use lab_texts::ProgramNames;
use machine::Machine;
use serde_json::{Map, Value};
use std::alloc::{AllocError, Global};
use std::str;
use step_views::{Content, Place, StreamPart, content_of};
use stream_core::Status;
use tag_memory::Word;

/// What a run is called, and of which kind its object is.
#[derive(Clone, Copy, Debug)]
pub struct RunTitle<'a> {
    /// The kind of the object: `run`, or `page` for one that has the steps too.
    pub object: &'a str,
    /// The program.
    pub program: &'a str,
    /// The schedule.
    pub schedule: &'a str,
}

/// The head of a run of a program with this text, on a machine that has taken no step.
pub fn head_value<const S: usize>(
    alloc: Global,
    title: RunTitle,
    text: &[u8],
    names: &ProgramNames,
    machine: &Machine<'_, S>,
) -> Result<Value, AllocError> {
    let mut head = Object::of_kind(alloc, title.object);
    head.put_text("name", title.program);
    head.put_text("schedule", title.schedule);
    head.put("source", source_value(alloc, text));
    head.put("program", program_value(alloc, names));
    head.put("data", data_value(alloc, names));
    head.put("names", names_value(alloc, names));
    head.put("start", start_value(alloc, machine));
    head.whole()
}

/// The world at the start.
fn start_value<const S: usize>(
    alloc: Global,
    machine: &Machine<'_, S>,
) -> Result<Value, AllocError> {
    let mut start = Object::new(alloc);
    start.put("places", places_value(alloc, machine));
    start.put("memory", memory_value(alloc, machine.image().cells()));
    start.whole()
}

/// The lines of a text; a line that is no UTF-8 is empty.
fn source_value(alloc: Global, text: &[u8]) -> Result<Value, AllocError> {
    let mut lines = Vec::new(alloc);
    for line in text.split(|byte| *byte == b'\n') {
        let line = str::from_utf8(line).unwrap_or("");
        lines.push(Value::String(String::from_str(alloc, line)?))?;
    }
    if text.ends_with(b"\n") {
        lines.pop();
    }
    Ok(Value::Array(lines))
}

/// Of each program word its line, its place and its instruction.
fn program_value(alloc: Global, names: &ProgramNames) -> Result<Value, AllocError> {
    let mut words = List::new(alloc);
    for word in 0..names.words() {
        words.put(program_word_value(alloc, names, word));
    }
    words.whole()
}

/// A program word.
fn program_word_value(alloc: Global, names: &ProgramNames, word: u32) -> Result<Value, AllocError> {
    let mut parts = List::new(alloc);
    parts.put_number(names.line(word) as u64);
    parts.put(place_value(alloc, names, word));
    parts.put(text_value(alloc, names.statement(word)));
    parts.whole()
}

/// The place of a program word.
fn place_value(alloc: Global, names: &ProgramNames, word: u32) -> Result<Value, AllocError> {
    let mut place = String::new(alloc);
    names.push_place(&mut place, word)?;
    Ok(Value::String(place))
}

/// Of each line of data the address of its first word, how many it adds, its number, and its comment.
fn data_value(alloc: Global, names: &ProgramNames) -> Result<Value, AllocError> {
    let mut lines = List::new(alloc);
    for line in names.data_lines() {
        let address = (line.first as u64).saturating_mul(8);
        let comment = names.comment(address);
        lines.put(data_line_value(alloc, address, line.count, line.number, comment));
    }
    lines.whole()
}

/// A line of data that adds so many words from an address on; its number counts from 0.
fn data_line_value(
    alloc: Global,
    address: u64,
    count: usize,
    number: usize,
    comment: &str,
) -> Result<Value, AllocError> {
    let mut parts = List::new(alloc);
    parts.put_number(address);
    parts.put_number(count as u64);
    parts.put_number((number as u64).saturating_add(1));
    parts.put(text_value(alloc, comment));
    parts.whole()
}

/// Of each line of data that names its words the address of the first one, how many they are, and the name.
fn names_value(alloc: Global, names: &ProgramNames) -> Result<Value, AllocError> {
    let mut lines = List::new(alloc);
    for line in names.data_lines() {
        let address = (line.first as u64).saturating_mul(8);
        if names.has_name(address) {
            lines.put(named_line_value(alloc, names, address, line.count));
        }
    }
    lines.whole()
}

/// The name of so many words from an address on.
fn named_line_value(
    alloc: Global,
    names: &ProgramNames,
    address: u64,
    count: usize,
) -> Result<Value, AllocError> {
    let mut name = String::new(alloc);
    names.push_data_name(&mut name, address)?;
    let mut parts = List::new(alloc);
    parts.put_number(address);
    parts.put_number(count as u64);
    parts.put(Ok(Value::String(name)));
    parts.whole()
}

/// What stands in the places of streams and counts, where it is not zero.
fn places_value<const S: usize>(
    alloc: Global,
    machine: &Machine<'_, S>,
) -> Result<Value, AllocError> {
    let mut places = Map::new(alloc);
    for p in 0..machine.image().processors() {
        let p = p as u8;
        put_place(alloc, &mut places, machine, Place::Current { p })?;
        put_place(alloc, &mut places, machine, Place::Reserved { p })?;
        for part in [StreamPart::Status, StreamPart::Pc] {
            put_place(alloc, &mut places, machine, Place::Stream { p, s: 0, part })?;
        }
        for number in 0..8 {
            let part = StreamPart::Target(number);
            put_place(alloc, &mut places, machine, Place::Stream { p, s: 0, part })?;
        }
    }
    Ok(Value::Object(places))
}

/// Puts what stands in a place, where it is not zero.
fn put_place<const S: usize>(
    alloc: Global,
    places: &mut Map<String, Value>,
    machine: &Machine<'_, S>,
    place: Place,
) -> Result<(), AllocError> {
    let Some(content) = content_of(machine, place) else {
        return Ok(());
    };
    let is_zero = match content {
        Content::Number(number) => number == 0,
        Content::Status(status) => status == Status::Idle,
        Content::Target(word) => word.bits() == 0,
        Content::InTrap(is) => !is,
        Content::Codes(_) | Content::Mask(_) | Content::Tags(_) => true,
    };
    if is_zero {
        return Ok(());
    }
    let name = place_name(alloc, place)?;
    serde_json::put(
        places,
        alloc,
        name.as_str(),
        content_value(alloc, place, content)?,
    )
}

/// The words of a memory as runs: how many, value, tags.
fn memory_value(alloc: Global, cells: &[Word]) -> Result<Value, AllocError> {
    let mut runs = List::new(alloc);
    let mut at: usize = 0;
    for _ in 0..cells.len() {
        let Some(first) = cells.get(at) else {
            break;
        };
        let rest = cells.get(at..).unwrap_or(&[]);
        let count = rest.iter().take_while(|word| **word == *first).count();
        runs.put(memory_run_value(alloc, count, *first));
        at = at.saturating_add(count.max(1));
    }
    runs.whole()
}

/// So many words that are as this one.
fn memory_run_value(alloc: Global, count: usize, word: Word) -> Result<Value, AllocError> {
    let mut parts = List::new(alloc);
    parts.put_number(count as u64);
    parts.put(digits(alloc, word.value()));
    parts.put_number(u64::from(word.tag_number()));
    parts.whole()
}
