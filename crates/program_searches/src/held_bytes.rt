//! How many bytes a search may hold, and what it holds.

use crate::bounds::USUAL_MEGABYTES;
use image_file::Image;
use image_machines::by_least_room;
use lab_requests::Bounds;
use std::fs::File;
use std::os::unix::fs::FileExt;
use std::str;

/// How many bytes a megabyte has.
pub(crate) const MEGABYTE: usize = 1_000_000;

/// About how many bytes a stream takes.
const BYTES_OF_STREAM: usize = 344;

/// About how many bytes a word of a machine takes.
const BYTES_OF_WORD: usize = 9;

/// From how many bytes of a machine on the steps of a few worlds may add very much.
const LARGE_MACHINE: usize = 65_536;

/// The most worlds whose steps are taken between two looks.
const WORLDS_BETWEEN: usize = 16;

/// At which of the looks at a search of small machines the system is asked.
const LOOKS_BETWEEN: u32 = 16;

/// How many bytes a page of the system has.
const PAGE: usize = 4_096;

/// How many bytes a search may hold, and what it held at the last look.
#[derive(Clone, Copy, Debug)]
pub(crate) struct HeldBytes {
    most: usize,
    most_in_all: usize,
    /// About how many bytes the streams of a machine take, which no search counts.
    streams: usize,
    /// About how many bytes the steps add that are taken before the second look.
    first_steps: usize,
    is_large: bool,
    /// Whether a machine is kept for each world that waits.
    has_machines: bool,
    looks: u32,
    held: usize,
    resident: usize,
}

impl HeldBytes {
    /// Those of a search of these bounds over an image.
    pub(crate) fn of(image: &Image, bounds: Bounds, has_machines: bool) -> HeldBytes {
        let megabytes = bounds.megabytes.unwrap_or(USUAL_MEGABYTES);
        let in_all = bounds.megabytes_in_all.unwrap_or(megabytes);
        let processors = image.processors();
        let streams = processors
            .saturating_mul(room_of(image))
            .saturating_mul(BYTES_OF_STREAM);
        let machine = image
            .cells()
            .len()
            .saturating_mul(BYTES_OF_WORD)
            .saturating_add(streams);
        let is_large = machine >= LARGE_MACHINE;
        let first = processors
            .saturating_mul(WORLDS_BETWEEN)
            .saturating_mul(machine);
        HeldBytes {
            most: megabytes.saturating_mul(MEGABYTE),
            most_in_all: in_all.saturating_mul(MEGABYTE),
            streams,
            first_steps: if is_large && has_machines { first } else { 0 },
            is_large,
            has_machines,
            looks: 0,
            held: 0,
            resident: 0,
        }
    }

    /// Whether a search may go on of which so many worlds wait, and which counts so many bytes: it holds no more than it may,
    /// nor does the process, as far as the system says so. Of a search that holds far less the process is not asked.
    pub(crate) fn may_go_on(
        &mut self,
        memory: Option<&File>,
        waiting: usize,
        counted: usize,
    ) -> bool {
        self.looks = self.looks.wrapping_add(1);
        let with_machines = counted.saturating_add(waiting.saturating_mul(self.streams));
        let held = if self.has_machines {
            with_machines
        } else {
            counted
        };
        let next = held.saturating_add(self.more_than(held, self.held));
        self.held = held;
        next <= self.most && (with_machines <= self.most / 2 || self.is_room_left(memory))
    }

    /// How much more may be held at the next look, by what is held and what was at the last one.
    fn more_than(&self, held: usize, before: usize) -> usize {
        match self.looks {
            1 => self.first_steps,
            _ if self.is_large => held.saturating_sub(before),
            _ => 0,
        }
    }

    /// Whether the process takes no more than it may, as far as the system says so.
    fn is_room_left(&mut self, memory: Option<&File>) -> bool {
        if !self.is_large && self.looks % LOOKS_BETWEEN != 0 {
            return true;
        }
        let Some(resident) = resident_by(memory) else {
            return true;
        };
        let more = if self.is_large && self.resident > 0 {
            resident.saturating_sub(self.resident)
        } else {
            0
        };
        self.resident = resident;
        resident.saturating_add(more) <= self.most_in_all
    }
}

/// For how many streams a processor of a search's machines has room.
fn room_of(image: &Image) -> usize {
    by_least_room!(image, room::<>())
}

/// The room of a machine with room for `S` streams a processor.
fn room<const S: usize>() -> usize {
    S
}

/// How many bytes of the process are in memory: the second number of the system's file, in pages; None where that is not
/// there.
fn resident_by(memory: Option<&File>) -> Option<usize> {
    let mut text = [0u8; 128];
    let count = memory?.read_at(&mut text, 0).ok()?;
    let numbers = str::from_utf8(text.get(..count)?).ok()?;
    let (_, rest) = numbers.split_once(' ')?;
    let (pages, _) = rest.split_once(' ')?;
    Some(pages.parse::<usize>().ok()?.saturating_mul(PAGE))
}
