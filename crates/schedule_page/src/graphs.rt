//! The data of a page: a program, its states, the steps between them, and the ends that can still be reached.

use crate::columns::{Column, column_of};
use crate::ends::{EndRequirements, PageEnds, ends_json, schedule_text, texts_json};
use crate::judged_lines::{JudgedLine, lines_json};
use crate::numbers::number_of;
use crate::opened::text_opened_after;
use crate::page_tables::{HeldContents, PageTables};
use crate::records::Records;
use end_goals::EndCriteria;
use end_goals::ends_of_space::SpaceEnd;
use lab_texts::ProgramNames;
use processor::Step;
use replay_page::json_values::{List, Object, RunTitle, head_value, stream_value};
use schedule_space::{Space, machine_at};
use serde_json::Value;
use space_graphs::ends_ahead;
use state_tables::{NumberSets, depths_of, rows_of, sets_of, targets_of};
use std::alloc::{AllocError, Global};
use text_parts::push_hexadecimal_16;

/// What a page is called, what it is judged by, and where it opens.
#[derive(Clone, Copy)]
pub struct GraphNames<'a> {
    /// What the program is called.
    pub program: &'a str,
    /// What each end has to be and what is claimed, as it is written.
    pub expected: &'a [String],
    /// The lines about runs that were judged.
    pub runs: &'a [JudgedLine<'a>],
    /// The lines of the expectation that the page does not judge, as they are written.
    pub unjudged: &'a [String],
    /// What decides besides the ends whether they are right.
    pub criteria: EndCriteria,
    /// The place of the end that is the reader's first goal.
    pub goal: Option<usize>,
    /// The steps after which the page opens; none where it opens at its first state.
    pub opened: &'a [Step],
}

/// The data of a page of a program with this text, as JSON: of a space that has all states of it, and all ends, each of
/// which has a state of the space (docs/PLAY.md, "The data").
pub fn graph_json<const S: usize>(
    alloc: Global,
    asked: GraphNames<'_>,
    text: &[u8],
    names: &ProgramNames<'_>,
    space: &Space<'_>,
    ends: PageEnds<'_>,
) -> Result<String, AllocError> {
    let mut graph = head_of::<S>(alloc, asked, text, names, space)?;
    put_ends(alloc, &mut graph, asked, space, ends);
    put_states::<S>(alloc, &mut graph, space, ends.known)?;
    let graph = graph.whole()?;
    if asked.opened.is_empty() {
        graph.to_string(alloc)
    } else {
        text_opened_after(alloc, &graph, asked.opened)
    }
}

/// The program, and the image's start.
fn head_of<const S: usize>(
    alloc: Global,
    asked: GraphNames<'_>,
    text: &[u8],
    names: &ProgramNames<'_>,
    space: &Space<'_>,
) -> Result<Object, AllocError> {
    let machine = machine_at::<S>(alloc, space, 0)?;
    let title = RunTitle {
        object: "graph",
        program: asked.program,
        schedule: "",
    };
    let mut head = match head_value(alloc, title, text, names, &machine)? {
        Value::Object(fields) => Object::of(alloc, fields),
        _ => Object::new(alloc),
    };
    head.put("code", code_json(alloc, machine.image().program()));
    Ok(head)
}

/// Each word of the program, in 16 hexadecimal digits.
fn code_json(alloc: Global, program: &[u64]) -> Result<Value, AllocError> {
    let mut words = List::new(alloc);
    for word in program {
        words.put(digits_json(alloc, *word));
    }
    words.whole()
}

/// A word of the program.
fn digits_json(alloc: Global, word: u64) -> Result<Value, AllocError> {
    let mut digits = String::new(alloc);
    push_hexadecimal_16(&mut digits, word)?;
    Ok(Value::String(digits))
}

/// Puts the ends, what they are judged by, the steps that all schedules begin with, and the first goal.
fn put_ends(
    alloc: Global,
    graph: &mut Object,
    asked: GraphNames<'_>,
    space: &Space<'_>,
    ends: PageEnds<'_>,
) {
    let judging = EndRequirements {
        expected: asked.expected,
        criteria: asked.criteria,
    };
    let begin = space.begin();
    graph.put("ends", ends_json(alloc, ends, begin.len(), judging));
    graph.put("expected", texts_json(alloc, asked.expected));
    graph.put("runs", lines_json(alloc, asked.runs, begin.len()));
    graph.put("unjudged", texts_json(alloc, asked.unjudged));
    graph.put("begin", schedule_text(alloc, begin));
    graph.put("goal", Ok(goal_json(asked.goal)));
}

/// The place of the end that is the first goal; null if there is none.
fn goal_json(goal: Option<usize>) -> Value {
    match goal {
        Some(goal) => Value::from(goal as u64),
        None => Value::Null,
    }
}

/// Puts the states, what their numbers count in, and the sets of ends that can still be reached.
fn put_states<const S: usize>(
    alloc: Global,
    graph: &mut Object,
    space: &Space<'_>,
    ends: &[SpaceEnd],
) -> Result<(), AllocError> {
    graph.put("counted", counted_json(alloc, space));
    let tables = tables_of::<S>(alloc, space)?;
    put_columns(alloc, graph, space, ends, &tables)?;
    let records = records_of::<S>(alloc, space, &tables)?;
    let does = records.does_json(alloc, tables.contents.len());
    graph.put("contents", Ok(Value::Array(tables.contents)));
    graph.put("shared", Ok(Value::Array(tables.shared)));
    graph.put("steps", Ok(records.into_json()));
    graph.put("does", does);
    Ok(())
}

/// How many states and how many steps there are.
fn counted_json(alloc: Global, space: &Space<'_>) -> Result<Value, AllocError> {
    let mut counted = Object::new(alloc);
    counted.put_number("states", space.len() as u64);
    counted.put_number("steps", space.step_count() as u64);
    counted.whole()
}

/// The states by streams, and the tables that their numbers count in.
fn tables_of<const S: usize>(alloc: Global, space: &Space<'_>) -> Result<PageTables, AllocError> {
    let rows = rows_of::<S>(alloc, space)?;
    PageTables::of(alloc, &rows)
}

/// The records of the steps of all states.
fn records_of<const S: usize>(
    alloc: Global,
    space: &Space<'_>,
    tables: &PageTables,
) -> Result<Records, AllocError> {
    let mut records = Records::new(alloc);
    records.add_all::<S>(alloc, space, tables)?;
    Ok(records)
}

/// The sets of ends that can still be reached from the states.
fn sets_ahead(
    alloc: Global,
    space: &Space<'_>,
    ends: &[SpaceEnd],
) -> Result<NumberSets, AllocError> {
    let ahead = ends_ahead(alloc, space, ends)?;
    sets_of(alloc, &ahead)
}

/// Puts the sets of ends that can still be reached, the columns, and the names of the streams.
fn put_columns(
    alloc: Global,
    graph: &mut Object,
    space: &Space<'_>,
    ends: &[SpaceEnd],
    tables: &PageTables,
) -> Result<(), AllocError> {
    let sets = sets_ahead(alloc, space, ends)?;
    graph.put("sets", sets_json(alloc, &sets));
    graph.put("states", columns_json(alloc, space, tables, &sets));
    graph.put("streams", streams_json(alloc, tables));
    Ok(())
}

/// The names of the streams that are not idle in some state.
fn streams_json(alloc: Global, tables: &PageTables) -> Result<Value, AllocError> {
    let mut names = List::new(alloc);
    for held in &tables.streams {
        names.put(stream_value(alloc, held.stream));
    }
    names.whole()
}

/// The distinct sets of ends, as places in the list of ends, which the numbers of the ends count from 1.
fn sets_json(alloc: Global, sets: &NumberSets) -> Result<Value, AllocError> {
    let mut values = List::new(alloc);
    for place in 0..sets.table.len() {
        values.put(set_json(alloc, sets.table.list(place).unwrap_or(&[])));
    }
    values.whole()
}

/// A set of ends.
fn set_json(alloc: Global, numbers: &[u32]) -> Result<Value, AllocError> {
    let mut places = List::new(alloc);
    for number in numbers {
        places.put_number(u64::from(*number).saturating_sub(1));
    }
    places.whole()
}

/// The columns: a number of each state.
fn columns_json(
    alloc: Global,
    space: &Space<'_>,
    tables: &PageTables,
    sets: &NumberSets,
) -> Result<Value, AllocError> {
    let mut columns = Object::new(alloc);
    columns.put("shared", column_json(alloc, &tables.shared_of));
    columns.put("streams", held_columns(alloc, space, tables));
    columns.put("to", target_columns(alloc, space, tables));
    columns.put("depth", depth_column(alloc, space));
    columns.put("ahead", column_json(alloc, &sets.set_of));
    columns.whole()
}

/// Of each stream the column of what it holds.
fn held_columns(
    alloc: Global,
    space: &Space<'_>,
    tables: &PageTables,
) -> Result<Value, AllocError> {
    let mut columns = List::new(alloc);
    for stream in &tables.streams {
        columns.put(held_column(alloc, space.len(), stream));
    }
    columns.whole()
}

/// The column of what a stream holds in so many states.
fn held_column(alloc: Global, states: usize, stream: &HeldContents) -> Result<Value, AllocError> {
    let mut numbers = Vec::from_slice(alloc, &stream.numbers)?;
    numbers.resize(states, 0)?;
    column_json(alloc, &numbers)
}

/// Of each stream the column of the states that its steps lead to.
fn target_columns(
    alloc: Global,
    space: &Space<'_>,
    tables: &PageTables,
) -> Result<Value, AllocError> {
    let mut columns = List::new(alloc);
    for stream in &tables.streams {
        columns.put(target_column(alloc, space, stream.stream));
    }
    columns.whole()
}

/// The column of the states that a stream's steps lead to.
fn target_column(alloc: Global, space: &Space<'_>, stream: Step) -> Result<Value, AllocError> {
    let targets = targets_of(alloc, space.len(), space.edges(), stream)?;
    column_json(alloc, &targets)
}

/// The column of how many steps lead to the states.
fn depth_column(alloc: Global, space: &Space<'_>) -> Result<Value, AllocError> {
    let depths = depths_of(alloc, space)?;
    let numbers = narrowed(alloc, &depths)?;
    column_json(alloc, &numbers)
}

/// Numbers of 32 bits.
fn narrowed(alloc: Global, numbers: &[usize]) -> Result<Vec<u32>, AllocError> {
    let mut narrow = Vec::with_capacity(alloc, numbers.len())?;
    for number in numbers {
        narrow.push(number_of(*number))?;
    }
    Ok(narrow)
}

/// Numbers as a column: how many digits each has, and all digits.
fn column_json(alloc: Global, numbers: &[u32]) -> Result<Value, AllocError> {
    let Column { width, text } = column_of(alloc, numbers)?;
    let mut parts = List::new(alloc);
    parts.put_number(u64::from(width));
    parts.put(Ok(Value::String(text)));
    parts.whole()
}
