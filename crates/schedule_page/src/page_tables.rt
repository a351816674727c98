//! The rows of states, by streams: of each stream what it holds in each state, and of each state what is shared.

use crate::contents::{content_json, is_running};
use crate::numbers::number_of;
use crate::shared_states::shared_json;
use processor::Step;
use replay_page::json_values::Object;
use serde_json::Value;
use state_tables::StateRows;
use std::alloc::{AllocError, Global};
use world_keys::Table;

/// A stream that is not idle in some state, and which content it holds in each.
#[derive(Drop)]
pub(crate) struct HeldContents {
    /// The stream.
    pub stream: Step,
    /// Of each state the number of the content, up to the last one in which it is not idle; 0 where it is idle.
    pub numbers: Vec<u32>,
}

/// What a processor holds in a state.
#[derive(Clone, Copy)]
struct ProcessorRow<'r> {
    /// The processor.
    p: u8,
    /// How many of its streams are reserved, then of each that is not idle its number and the place in the table of what
    /// it holds.
    numbers: &'r [u32],
}

/// The states of a space by streams, and the tables that their numbers count in.
#[derive(Drop)]
pub(crate) struct PageTables {
    /// What the distinct contents of streams are, as JSON; the first is that of an idle stream.
    pub contents: Vec<Value>,
    /// Of each content whether a stream that holds it runs.
    pub running: Vec<bool>,
    /// What the distinct shared states are, as JSON.
    pub shared: Vec<Value>,
    /// The streams that are not idle in some state, in the order of processor and stream.
    pub streams: Vec<HeldContents>,
    /// Of each state the number of its shared state.
    pub shared_of: Vec<u32>,
    content_table: Table,
    shared_table: Table,
}

impl PageTables {
    /// The tables of rows.
    pub(crate) fn of(alloc: Global, rows: &StateRows) -> Result<PageTables, AllocError> {
        let mut tables = PageTables::new(alloc);
        tables.add_idle(alloc)?;
        tables.add_rows(alloc, rows)?;
        Ok(tables)
    }

    /// Empty tables.
    fn new(alloc: Global) -> PageTables {
        PageTables {
            contents: Vec::new(alloc),
            running: Vec::new(alloc),
            shared: Vec::new(alloc),
            streams: Vec::new(alloc),
            shared_of: Vec::new(alloc),
            content_table: Table::new(alloc),
            shared_table: Table::new(alloc),
        }
    }

    /// Adds the content of an idle stream, the first.
    fn add_idle(&mut self, alloc: Global) -> Result<(), AllocError> {
        self.content_table.place(&[])?;
        self.contents.push(Object::new(alloc).whole()?)?;
        Ok(self.running.push(false)?)
    }

    /// Adds the rows of all states, and puts the streams into their order.
    fn add_rows(&mut self, alloc: Global, rows: &StateRows) -> Result<(), AllocError> {
        for (place, row) in rows.rows.iter().enumerate() {
            self.add_row(alloc, &rows.table, place, row)?;
        }
        self.streams
            .sort_by_key(|held: &HeldContents| stream_order(held.stream))
    }

    /// Adds the row of the state at a place: first the place in the table of what its memory holds, then those of what its
    /// processors hold.
    fn add_row(
        &mut self,
        alloc: Global,
        table: &Table,
        place: usize,
        row: &[u32],
    ) -> Result<(), AllocError> {
        let mut shared = Vec::new(alloc);
        for (index, number) in row.iter().enumerate() {
            if index == 0 {
                shared.push(*number)?;
            } else {
                let held = ProcessorRow {
                    p: small(index.saturating_sub(1)),
                    numbers: table.list(*number as usize).unwrap_or(&[]),
                };
                self.add_processor(alloc, table, place, held, &mut shared)?;
            }
        }
        let number = self.shared_table.place(&shared)?;
        if number as usize >= self.shared.len() {
            let first = shared.first().copied().unwrap_or(0);
            let memory = table.list(first as usize).unwrap_or(&[]);
            let counts = shared.get(1..).unwrap_or(&[]);
            self.shared.push(shared_json(alloc, memory, counts)?)?;
        }
        Ok(self.shared_of.push(number)?)
    }

    /// Adds what a processor holds in the state at a place. Its counts are put after what is shared.
    fn add_processor(
        &mut self,
        alloc: Global,
        table: &Table,
        place: usize,
        row: ProcessorRow<'_>,
        shared: &mut Vec<u32>,
    ) -> Result<(), AllocError> {
        let ProcessorRow { p, numbers } = row;
        let reserved = numbers.first().copied().unwrap_or(0);
        let marks = numbers.get(1..).unwrap_or(&[]);
        shared.push(reserved)?;
        shared.push(number_of(marks.len() / 2))?;
        for mark in marks.chunks(2) {
            let s = small(mark.first().copied().unwrap_or(0) as usize);
            let held = mark.get(1).copied().unwrap_or(0);
            let number = self.content_number(alloc, table, p, held)?;
            self.put_content(alloc, Step { p, s }, place, number)?;
        }
        Ok(())
    }

    /// The number of the content of a processor's stream whose numbers stand at a place of the table; it is added if it
    /// is not there. Streams of other processors that hold the same have another: a CREATE hangs on its processor.
    fn content_number(
        &mut self,
        alloc: Global,
        table: &Table,
        p: u8,
        held: u32,
    ) -> Result<u32, AllocError> {
        let number = self.content_table.place(&[u32::from(p), held])?;
        if number as usize >= self.contents.len() {
            let numbers = table.list(held as usize).unwrap_or(&[]);
            self.contents.push(content_json(alloc, numbers)?)?;
            self.running.push(is_running(numbers))?;
        }
        Ok(number)
    }

    /// Puts which content a stream holds in the state at a place.
    fn put_content(
        &mut self,
        alloc: Global,
        stream: Step,
        place: usize,
        number: u32,
    ) -> Result<(), AllocError> {
        let known = self.streams.iter().position(|held| held.stream == stream);
        let index = known.unwrap_or(self.streams.len());
        if known.is_none() {
            let numbers = Vec::new(alloc);
            self.streams.push(HeldContents { stream, numbers })?;
        }
        if let Some(held) = self.streams.get_mut(index) {
            held.numbers.resize(place, 0)?;
            held.numbers.push(number)?;
        }
        Ok(())
    }
}

/// The place of a stream in the order of processor and stream.
fn stream_order(stream: Step) -> u32 {
    256 * u32::from(stream.p) + u32::from(stream.s)
}

/// The number of a processor or a stream.
fn small(number: usize) -> u8 {
    u8::try_from(number).unwrap_or(u8::MAX)
}
