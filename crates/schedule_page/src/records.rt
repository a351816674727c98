//! What steps do that the two states do not say: how they come out, and what they ask of the memory. It hangs on what the
//! stream holds and on what no stream has for itself alone.

use crate::numbers::number_of;
use crate::page_tables::PageTables;
use processor::Step;
use replay_page::json_values::{List, outcome_name, reference_value};
use schedule_space::{Space, machine_at};
use serde_json::Value;
use std::alloc::{AllocError, Global};
use step_views::{StepView, take_step};
use world_keys::Table;

/// The distinct records of steps, and which of them a stream's step has.
#[derive(Drop)]
pub(crate) struct Records {
    texts: Vec<String>,
    values: Vec<Value>,
    pairs: Table,
    of_pairs: Vec<u32>,
}

impl Records {
    /// No records.
    pub(crate) fn new(alloc: Global) -> Records {
        Records {
            texts: Vec::new(alloc),
            values: Vec::new(alloc),
            pairs: Table::new(alloc),
            of_pairs: Vec::new(alloc),
        }
    }

    /// Adds the records of the steps of all states of a space, by its tables.
    pub(crate) fn add_all<const S: usize>(
        &mut self,
        alloc: Global,
        space: &Space<'_>,
        tables: &PageTables,
    ) -> Result<(), AllocError> {
        for (place, shared) in tables.shared_of.iter().enumerate() {
            let missing = self.missing_at(alloc, tables, place, *shared)?;
            if !missing.is_empty() {
                self.add_at::<S>(alloc, space, place, *shared, &missing)?;
            }
        }
        Ok(())
    }

    /// The streams that run in the state at a place, and what they hold, the record of whose step is not there.
    fn missing_at(
        &self,
        alloc: Global,
        tables: &PageTables,
        place: usize,
        shared: u32,
    ) -> Result<Vec<(Step, u32)>, AllocError> {
        let mut missing = Vec::new(alloc);
        for held in &tables.streams {
            let content = held.numbers.get(place).copied().unwrap_or(0);
            let is_running = tables.running.get(content as usize) == Some(&true);
            if is_running && self.pairs.find(&[content, shared]).is_none() {
                missing.push((held.stream, content))?;
            }
        }
        Ok(missing)
    }

    /// Adds the records of the steps of streams in the state at a place.
    fn add_at<const S: usize>(
        &mut self,
        alloc: Global,
        space: &Space<'_>,
        place: usize,
        shared: u32,
        streams: &[(Step, u32)],
    ) -> Result<(), AllocError> {
        let machine = machine_at::<S>(alloc, space, place)?;
        for (stream, content) in streams {
            let mut after = machine.try_clone()?;
            let view = take_step(alloc, &mut after, *stream)?;
            self.add(alloc, *content, shared, &view)?;
        }
        Ok(())
    }

    /// Adds the record of a step, if it is not there: two streams may hold the same.
    fn add(
        &mut self,
        alloc: Global,
        content: u32,
        shared: u32,
        view: &StepView,
    ) -> Result<(), AllocError> {
        if self.pairs.find(&[content, shared]).is_some() {
            return Ok(());
        }
        let value = record_json(alloc, view)?;
        let number = self.number_of(alloc, value)?;
        self.pairs.place(&[content, shared])?;
        Ok(self.of_pairs.push(number)?)
    }

    /// The number of a record, which is added if it is not there.
    fn number_of(&mut self, alloc: Global, value: Value) -> Result<u32, AllocError> {
        let text = value.to_string(alloc)?;
        let number = match self.texts.iter().position(|known| *known == text) {
            Some(number) => number,
            None => {
                self.texts.push(text)?;
                self.values.push(value)?;
                self.texts.len().saturating_sub(1)
            }
        };
        Ok(number_of(number))
    }

    /// Of each of so many contents which record its step has: -1 if no stream that holds it runs, the record's number
    /// if it has the same whatever is shared, else pairs of what is shared and the record.
    pub(crate) fn does_json(&self, alloc: Global, contents: usize) -> Result<Value, AllocError> {
        let rows = self.rows(alloc, contents)?;
        let mut does = List::new(alloc);
        for row in &rows {
            does.put(row_json(alloc, row));
        }
        does.whole()
    }

    /// Of each of so many contents the pairs of what is shared and the record.
    fn rows(&self, alloc: Global, contents: usize) -> Result<Vec<Vec<(u32, u32)>>, AllocError> {
        let mut rows: Vec<Vec<(u32, u32)>> = Vec::with_capacity(alloc, contents)?;
        for _ in 0..contents {
            rows.push(Vec::new(alloc))?;
        }
        self.fill_rows(&mut rows)?;
        Ok(rows)
    }

    /// Adds the pairs to the rows of their contents.
    fn fill_rows(&self, rows: &mut [Vec<(u32, u32)>]) -> Result<(), AllocError> {
        for (place, record) in self.of_pairs.iter().enumerate() {
            if let Some(pair) = self.pairs.list(place) {
                push_record(rows, pair, *record)?;
            }
        }
        Ok(())
    }

    /// The records as JSON.
    pub(crate) fn into_json(self) -> Value {
        Value::Array(self.values)
    }
}

/// Adds a record to the row of its content, with what is shared: these are a pair.
fn push_record(rows: &mut [Vec<(u32, u32)>], pair: &[u32], record: u32) -> Result<(), AllocError> {
    let content = pair.first().copied().unwrap_or(0);
    let shared = pair.get(1).copied().unwrap_or(0);
    match rows.get_mut(content as usize) {
        Some(row) => Ok(row.push((shared, record))?),
        None => Ok(()),
    }
}

/// A step as JSON: how it came out, and after it what it asked of the memory, if it did.
fn record_json(alloc: Global, view: &StepView) -> Result<Value, AllocError> {
    let mut parts = Vec::new(alloc);
    parts.push(Value::String(outcome_name(alloc, view.outcome)?))?;
    if let Some(reference) = view.reference {
        if let Value::Array(values) = reference_value(alloc, &reference)? {
            for value in values {
                parts.push(value)?;
            }
        }
    }
    Ok(Value::Array(parts))
}

/// Which record the steps of a content have, of which these pairs of what is shared and the record are known.
fn row_json(alloc: Global, row: &[(u32, u32)]) -> Result<Value, AllocError> {
    let Some((_, first)) = row.first().copied() else {
        return Ok(Value::from(-1_i64));
    };
    if row.iter().all(|(_, record)| *record == first) {
        return Ok(Value::from(u64::from(first)));
    }
    let mut numbers = List::new(alloc);
    for (shared, record) in row {
        numbers.put_number(u64::from(*shared));
        numbers.put_number(u64::from(*record));
    }
    numbers.whole()
}
