//! The parts of a run.

ghost use Rattle.std.specs.Prelude.{◌≡◌, ◌<◌, ◌≤◌, ◌*◌, ◌↔◌, length, IfOk, Err};
ghost use Rattle.processor.specs.World.{most_steps};
ghost use Rattle.shared_history.specs.FaultNumbers.{parts_fault_number};
ghost use Rattle.shared_history.specs.Parts.{AreNewParts};
ghost use Rattle.shared_history.specs.declared.parts.PartsFault.TheVariants.{NoMemory};

use crate::SharedMemory;
use image_file::Image;
use processor::{MAX_STEPS, Recorded};
use std::alloc::{AllocError, AllocFailed, Global};
use std::marker::Model;

/// Why there are no parts for a run. The first of these that holds is named.
#[derive(Clone, Copy, Debug, PartialEq, Eq)]
pub enum PartsFault {
    /// The image's processors have more streams than the records have room for.
    Streams,
    /// The processors are to take more than [`MAX_STEPS`] steps together.
    TooLong,
    /// Memory was refused.
    NoMemory,
}

impl PartsFault {
    /// The fault's number, 1 to 3 in the order of the variants.
    pub fn number(self) -> u8
        ensures { result ≡ parts_fault_number self }
    {
        match self {
            PartsFault::Streams => 1,
            PartsFault::TooLong => 2,
            PartsFault::NoMemory => 3,
        }
    }
}

impl From<AllocError> for PartsFault {
    ghost from_gives = { λ _ fault. fault ≡ NoMemory };

    fn from(_error: AllocError) -> PartsFault {
        PartsFault::NoMemory
    }
}

impl<T: Drop> From<AllocFailed<T>> for PartsFault {
    ghost from_gives = { λ _ fault. fault ≡ NoMemory };

    fn from(_error: AllocFailed<T>) -> PartsFault {
        PartsFault::NoMemory
    }
}

/// The shared memory and the records of a run, and the steps that each processor is to take, its fuel.
#[derive(Drop)]
pub struct Parts<'i, const S: usize> {
    fuel: usize,
    shared: SharedMemory<'i>,
    records: Vec<Recorded<'i, S>>,
}

impl<'i, const S: usize> Model for Parts<'i, S> {
    ghost use Rattle.shared_history.specs.Parts.{PartsValue};

    ghost Value = { PartsValue };

    ghost view = { λ p. record { fuel = p.fuel; shared = p.shared; records = p.records.items } };
}

impl<'i, const S: usize> Parts<'i, S> {
    /// The parts of a run of the image before any step: each record has room for `fuel` steps, and the memory for
    /// all that they can ask.
    ///
    /// `Streams` exactly where the image's slim is above `S`. Else `TooLong` exactly where the processors times
    /// `fuel` are above [`MAX_STEPS`]. Both come before any want of memory.
    pub fn new(alloc: Global, image: &'i Image, fuel: usize) -> Result<Parts<'i, S>, PartsFault>
        ensures is { IfOk result (λ parts. AreNewParts image.entry.now fuel parts) }
        ensures streams { (result ≡ Err PartsFault.Streams) ↔ (S < image.entry.now.slim) }
        ensures too_long { (result ≡ Err PartsFault.TooLong)
            ↔ ((image.entry.now.slim ≤ S) × (most_steps < length image.entry.now.entries * fuel)) }
    {
        if usize::from(image.slim()) > S {
            return Err(PartsFault::Streams);
        }
        let count = image.processors();
        if fuel > MAX_STEPS / count {
            return Err(PartsFault::TooLong);
        }
        let shared = SharedMemory::new(alloc, image, count * fuel)?;
        let mut records = Vec::with_capacity(alloc, count)?;
        for number in 0..count {
            let mut record = Recorded::new(alloc, image, number as u8)?;
            record.reserve(fuel)?;
            records.push(record)?;
        }
        Ok(Parts {
            fuel,
            shared,
            records,
        })
    }

    /// The parts with this fuel, memory and records, whether they belong together or not.
    pub fn of(fuel: usize, shared: SharedMemory<'i>, records: Vec<Recorded<'i, S>>) -> Parts<'i, S>
        ensures { result ≡ record { fuel = fuel; shared = shared.entry; records = records.entry.items } }
    {
        Parts {
            fuel,
            shared,
            records,
        }
    }

    /// The steps that each processor is to take.
    pub fn fuel(&self) -> usize
        ensures { result ≡ self.now.fuel }
    {
        self.fuel
    }

    /// The memory.
    pub fn shared(&self) -> &SharedMemory<'i>
        ensures { result.now ≡ self.now.shared }
    {
        &self.shared
    }

    /// The records.
    pub fn records(&self) -> &[Recorded<'i, S>]
        ensures { result.now ≡ self.now.records }
    {
        &self.records
    }

    /// The fuel, the memory and the records.
    pub fn into_parts(self) -> (usize, SharedMemory<'i>, Vec<Recorded<'i, S>>)
        ensures fuel { result.0 ≡ self.entry.fuel }
        ensures shared { result.1 ≡ self.entry.shared }
        ensures records { result.2.items ≡ self.entry.records }
    {
        let Parts {
            fuel,
            shared,
            records,
        } = self;
        (fuel, shared, records)
    }
}
