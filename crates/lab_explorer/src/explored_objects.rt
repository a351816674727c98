//! What is said of a search as objects (docs/LAB_REFERENCE.md, "JSON").

use image_file::Image;
use lab_json::{Fields, List, Object, object_of, put_run, stream_value, turns_value};
use processor::Step;
use search_texts::parts::push_object;
use search_texts::searches::Explored;
use search_texts::{ExpectedLines, bound_value};
use serde_json::Value;
use space_graphs::ends_of_space::SpaceEnd;
use std::alloc::{AllocError, Global};

/// Adds the objects of a search among the schedules of an image: how much was found, and each end.
pub(crate) fn push_objects(
    alloc: Global,
    out: &mut String,
    image: &Image,
    lines: ExpectedLines<'_>,
    found: &Explored<'_>,
) -> Result<(), AllocError> {
    push_object(alloc, out, &search_value(alloc, found)?)?;
    for end in found.ends.iter() {
        let fields = run_fields(alloc, image, end)?;
        push_object(alloc, out, &end_value(alloc, fields, lines, found, end)?)?;
    }
    Ok(())
}

/// How much was found.
fn search_value(alloc: Global, found: &Explored<'_>) -> Result<Value, AllocError> {
    let mut search = Object::of_kind(alloc, "search");
    search.put_number("worlds", found.worlds() as u64);
    search.put_number("steps", found.steps() as u64);
    search.put("complete", Ok(Value::from(found.is_complete)));
    search.put("plain", Ok(Value::from(found.is_of_all_worlds)));
    search.put_number("begin", found.begin() as u64);
    search.put("bound", bound_value(alloc, found.bound));
    search.whole()
}

/// What is said of the run to an end.
fn run_fields(alloc: Global, image: &Image, end: &SpaceEnd) -> Result<Fields, AllocError> {
    let mut fields = object_of(alloc, "search_end")?;
    put_run(alloc, &mut fields, image, &end.schedule)?;
    Ok(fields)
}

/// An end of whose run these fields tell: its kind, how many worlds and sets it has, from how many worlds one leads there,
/// how it was judged, and of a set that spins the steps of a cycle, the streams that go on in it, and the words that change.
fn end_value(
    alloc: Global,
    fields: Fields,
    lines: ExpectedLines<'_>,
    found: &Explored<'_>,
    end: &SpaceEnd,
) -> Result<Value, AllocError> {
    let mut object = Object::of(alloc, fields);
    object.put_text("end", end.kind.json_name());
    object.put_number("worlds", end.worlds() as u64);
    object.put_number("sets", end.sets as u64);
    object.put_number("from", end.sources as u64);
    object.put("shortest", Ok(shortest_value(found, end)));
    object.put("expected", Ok(Value::from(end.is_expected())));
    object.put("missed", lines.missed_value(alloc, end.missed));
    object.put("claim", lines.broken_value(alloc, end));
    object.put("schedule", turns_value(alloc, &end.schedule));
    object.put("round", turns_value(alloc, &end.cycle));
    object.put("running", running_value(alloc, end));
    object.put("changing", addresses_value(alloc, &end.changing));
    object.whole()
}

/// How many steps a shortest schedule to an end has; null where it is not known.
fn shortest_value(found: &Explored<'_>, end: &SpaceEnd) -> Value {
    if found.is_shortest(end) {
        Value::from(end.schedule.len())
    } else {
        Value::Null
    }
}

/// The streams that can go on in a set that spins, by their names.
fn running_value(alloc: Global, end: &SpaceEnd) -> Result<Value, AllocError> {
    streams_value(alloc, &end.running(alloc)?)
}

/// Streams, by their names.
fn streams_value(alloc: Global, streams: &[Step]) -> Result<Value, AllocError> {
    let mut names = List::new(alloc);
    for stream in streams {
        names.put(stream_value(alloc, *stream));
    }
    names.whole()
}

/// Addresses of words.
fn addresses_value(alloc: Global, addresses: &[u64]) -> Result<Value, AllocError> {
    let mut numbers = List::new(alloc);
    for address in addresses {
        numbers.put_number(*address);
    }
    numbers.whole()
}
