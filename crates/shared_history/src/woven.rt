//! A schedule with the memory and the records that it ends in.

ghost use Rattle.std.specs.Prelude.{◌≡◌};
ghost use Rattle.std.specs.Option.{option_copied};
ghost use Rattle.tag_memory.specs.Storage.{cell_at};
ghost use Rattle.processor.specs.World.{run, history_of, stream_of, counts_of};
ghost use Rattle.shared_history.specs.Schedule.{WovenValue, IsWoven, gathered_world};

use crate::SharedMemory;
use crate::parts::Parts;
use processor::{Entry, Recorded, Step};
use std::marker::Model;
use stream_core::Stream;
use tag_memory::Word;

/// A schedule with the memory and the records that it ends in: it holds the steps of each record in order, makes just
/// the memory's history, and leads from the start of the image to the records' states and the memory's words.
#[derive(Drop)]
pub struct Woven<'i, const S: usize> {
    schedule: Vec<Step>,
    shared: SharedMemory<'i>,
    records: Vec<Recorded<'i, S>>,
}

impl<'i, const S: usize> Model for Woven<'i, S> {
    ghost use Rattle.shared_history.specs.Schedule.{WovenValue, IsWoven};

    ghost Value = { WovenValue };

    ghost view = { λ w. record { schedule = w.schedule.items; shared = w.shared; records = w.records.items } };

    ghost invariant = { λ w.
        IsWoven (record { schedule = w.schedule.items; shared = w.shared; records = w.records.items }) };
}

impl<'i, const S: usize> Woven<'i, S> {
    /// Parts with their schedule.
    pub(crate) fn of(schedule: Vec<Step>, parts: Parts<'i, S>) -> Woven<'i, S>
        requires { IsWoven (record { schedule = schedule.items; shared = parts.shared; records = parts.records }) }
        ensures { result
            ≡ record { schedule = schedule.items; shared = parts.entry.shared; records = parts.entry.records } }
    {
        let (_, shared, records) = parts.into_parts();
        Woven {
            schedule,
            shared,
            records,
        }
    }

    /// The schedule.
    pub fn schedule(&self) -> &[Step]
        ensures is { result.now ≡ self.now.schedule }
        ensures kept { IsWoven self.now }
    {
        &self.schedule
    }

    /// The history, which is what the schedule asks of the memory.
    pub fn history(&self) -> &[Entry]
        ensures is { result.now ≡ self.now.shared.history }
        ensures made { result.now ≡ history_of self.now.shared.image self.now.schedule }
    {
        self.shared.entries()
    }

    /// The stream of these numbers after the schedule, which is the record's; None where there is no such processor,
    /// or `s` is `S` or more. From the image's slim on a stream is idle.
    pub fn stream(&self, p: u8, s: u8) -> Option<&Stream>
        ensures is { option_copied result ≡ stream_of S (gathered_world self.now.shared self.now.records) p s }
        ensures ran { option_copied result ≡ stream_of S (run self.now.shared.image self.now.schedule) p s }
    {
        let place = usize::from(p);
        if place >= self.records.len() {
            return None;
        }
        self.records[place].stream(s)
    }

    /// How many streams of a processor are current and how many are reserved after the schedule, as in the record;
    /// None where there is no such processor.
    pub fn counts(&self, p: u8) -> Option<(u16, u16)>
        ensures is { result ≡ counts_of (gathered_world self.now.shared self.now.records) p }
        ensures ran { result ≡ counts_of (run self.now.shared.image self.now.schedule) p }
    {
        let place = usize::from(p);
        if place >= self.records.len() {
            return None;
        }
        let record = &self.records[place];
        Some((record.scur(), record.sres()))
    }

    /// The word at a byte address after the schedule, which is the memory's; None where the address is not a multiple
    /// of 8, or past the last word.
    pub fn word(&self, address: u64) -> Option<Word>
        ensures is { result ≡ cell_at (gathered_world self.now.shared self.now.records).memory address }
        ensures ran { result ≡ cell_at (run self.now.shared.image self.now.schedule).memory address }
    {
        self.shared.word(address)
    }

    /// The schedule alone.
    pub fn into_schedule(self) -> Vec<Step>
        ensures { result.items ≡ self.entry.schedule }
    {
        let Woven {
            schedule,
            shared: _,
            records: _,
        } = self;
        schedule
    }
}
