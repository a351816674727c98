//! How the streams go on in a set of worlds, and which words change in it.

ghost use Rattle.std.specs.Prelude.{◌≡◌, IfOk, None};
ghost use Rattle.space_ends.specs.EndsOfSpace.{missed_in};
ghost use Rattle.space_ends.specs.Shown.{earlier, IsFirstMissedBy};

use expectations::{Expectation, first_missed};
use machine::Machine;
use processor::Step;
use seed_verdicts::space::{Space, machine_at};
use std::alloc::{AllocError, Global};
use tag_memory::Word;
use waiting::{is_stuck, running_streams, wait_of};

/// How a stream goes on in worlds.
#[derive(Clone, Copy, Debug, PartialEq, Eq)]
pub enum Going {
    /// It can go on in some of them.
    Runs,
    /// It is stuck in each, and waits for the word at this byte address.
    WaitsFor(u64),
    /// It is stuck in each, and waits for one word or another.
    Waits,
}

impl Going {
    /// How it goes on in the worlds of both.
    fn and(self, other: Going) -> Going {
        if self == other {
            return self;
        }
        if self == Going::Runs || other == Going::Runs {
            return Going::Runs;
        }
        Going::Waits
    }
}

/// A stream, and how it goes on.
#[derive(Clone, Copy, Debug, PartialEq, Eq)]
pub struct GoingStream {
    /// The stream.
    pub stream: Step,
    /// How it goes on.
    pub going: Going,
}

/// What is known of a set of worlds.
#[derive(Drop)]
pub(crate) struct WorldSet {
    /// The streams that run in some of them, in the order of processor and stream.
    pub going: Vec<GoingStream>,
    /// The place of the first expectation that one of them misses.
    pub missed: Option<usize>,
    /// For each word whether some two worlds differ in it.
    is_changing: Vec<bool>,
}

impl WorldSet {
    /// Of no world yet, and the streams that run in that of a machine.
    fn before<const S: usize>(
        alloc: Global,
        machine: &Machine<'_, S>,
    ) -> Result<WorldSet, AllocError>
        ensures { IfOk result (λ set. set.missed ≡ None) }
    {
        let mut going = Vec::new(alloc);
        for stream in &running_streams(alloc, machine)? {
            going.push(GoingStream {
                stream: *stream,
                going: going_of(machine, *stream),
            })?;
        }
        let words = machine.image().cells().len();
        Ok(WorldSet {
            going,
            missed: None,
            is_changing: vec![in alloc; false; words]?,
        })
    }

    /// Of the worlds at some places, of which this machine is at the first one.
    pub(crate) fn over<const S: usize>(
        alloc: Global,
        space: &Space<'_>,
        first: &Machine<'_, S>,
        places: &[usize],
        expected: &[Expectation],
    ) -> Result<WorldSet, AllocError>
        ensures { IfOk result (λ set. IsFirstMissedBy space.now expected.now places.now set.missed) }
    {
        let mut known = WorldSet::before(alloc, first)?;
        for place in places {
            let world = machine_at::<S>(alloc, space, *place)?;
            add_started(alloc, &mut known.going, &world)?;
            known.add(first, &world, expected);
        }
        Ok(known)
    }

    /// Also of one more world, a machine's.
    fn add<const S: usize>(
        &mut self,
        first: &Machine<'_, S>,
        other: &Machine<'_, S>,
        expected: &[Expectation],
    )
        ensures { self.new.missed ≡ earlier self.old.missed (missed_in other.now.world expected.now) }
    {
        for stream in self.going.iter_mut() {
            stream.going = stream.going.and(going_of(other, stream.stream));
        }
        self.missed = earlier(self.missed, first_missed(other, expected));
        mark_differing(first, other, &mut self.is_changing);
    }

    /// The byte addresses of the words in which some two of them differ.
    pub(crate) fn changing_words(&self, alloc: Global) -> Result<Vec<u64>, AllocError> {
        let mut changing = Vec::new(alloc);
        for (index, is_marked) in self.is_changing.iter().enumerate() {
            if *is_marked {
                changing.push((index as u64).saturating_mul(8))?;
            }
        }
        Ok(changing)
    }
}

/// Adds the streams that run in a world and not in the first one. Each of them was started on the way, and ends before the
/// steps lead back to the first one: so it can go on.
fn add_started<const S: usize>(
    alloc: Global,
    streams: &mut Vec<GoingStream>,
    other: &Machine<'_, S>,
) -> Result<(), AllocError> {
    for stream in &running_streams(alloc, other)? {
        let started = GoingStream {
            stream: *stream,
            going: Going::Runs,
        };
        add_in_order(streams, started)?;
    }
    Ok(())
}

/// Adds a stream that is not there, before the first one that comes after it.
fn add_in_order(streams: &mut Vec<GoingStream>, added: GoingStream) -> Result<(), AllocError> {
    let order = order_of(added.stream);
    let index = streams.partition_point(|known| order_of(known.stream) < order);
    if let Some(known) = streams.get(index)
        && known.stream == added.stream
    {
        return Ok(());
    }
    Ok(streams.insert(index, added)?)
}

/// By what streams are ordered: the processor, and then the stream.
fn order_of(stream: Step) -> u16 {
    u16::from(stream.p) * 256 + u16::from(stream.s)
}

/// The lesser of two places, which may be missing.
fn earlier(one: Option<usize>, other: Option<usize>) -> Option<usize>
    ensures { result ≡ earlier one other }
{
    match (one, other) {
        (Some(one), Some(other)) => Some(one.min(other)),
        (None, place) | (place, None) => place,
    }
}

/// How a stream goes on in one world.
fn going_of<const S: usize>(machine: &Machine<'_, S>, stream: Step) -> Going {
    if !is_stuck(machine, stream.p, stream.s) {
        return Going::Runs;
    }
    match wait_of(machine, stream.p, stream.s) {
        Some(wait) => Going::WaitsFor(wait.address),
        None => Going::Waits,
    }
}

/// Marks the words in which two machines differ.
fn mark_differing<const S: usize>(
    one: &Machine<'_, S>,
    other: &Machine<'_, S>,
    marks: &mut [bool],
) {
    for (index, mark) in marks.iter_mut().enumerate() {
        let address = (index as u64).saturating_mul(8);
        if !is_same(one.word(address), other.word(address)) {
            *mark = true;
        }
    }
}

/// Whether both words have the same value and tags.
fn is_same(one: Option<Word>, other: Option<Word>) -> bool {
    match (one, other) {
        (Some(one), Some(other)) => {
            one.value() == other.value() && one.tag_number() == other.tag_number()
        }
        (None, None) => true,
        (Some(_), None) | (None, Some(_)) => false,
    }
}
