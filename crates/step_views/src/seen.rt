//! What a step may change, as it is before the step.

ghost use Rattle.std.specs.Prelude.{◌≡◌, ◌≤◌, ◌+◌, vec_len, vec_capacity, slice_get};
ghost use Rattle.std.specs.Option.{option_copied};
ghost use Rattle.machine.specs.Processor.Processors.{ProcessorValue, IsCounted, is_idle};
ghost use Rattle.machine.specs.Processor.World.{counts_of};
ghost use Rattle.step_views.specs.Places.{used_stream};
ghost use Rattle.step_views.specs.StepViews.{pc_of};
ghost use Rattle.step_views.specs.Comparing.{AreKept, idle_in, free_in, word_seen, compared};
ghost use Rattle.step_views.specs.Comparing.{stream_compared, started_compared, counts_compared, word_compared};

use crate::differences::{note_counts, note_stream, note_word};
use crate::places::Change;
use crate::reading::stream_of;
use crate::step_views::Reference;
use machine::Machine;
use machine::processors::Step;
use stream_core::{Status, Stream};
use tag_memory::Word;

/// What a step may change, as it is before the step: its stream, the stream that it may start, the counts of its
/// processor, and the word at which its reference ends.
#[derive(Drop)]
pub(crate) struct Seen {
    stream: Option<Stream>,
    free: Option<u8>,
    counts: Option<(u16, u16)>,
    word: Option<(u64, Word)>,
}

impl Seen {
    /// What a step with this reference may change.
    pub(crate) fn of<const S: usize>(
        machine: &Machine<'_, S>,
        step: Step,
        reference: &Option<Reference>,
    ) -> Seen
        ensures stream { result.stream ≡ used_stream machine.now.world step.p step.s }
        ensures free { result.free ≡ free_in (slice_get machine.now.world.processors step.p) }
        ensures counts { result.counts ≡ counts_of machine.now.world step.p }
        ensures word { result.word ≡ word_seen machine.now.world.memory reference.now }
        ensures counted { (d : ProcessorValue) → slice_get machine.now.world.processors step.p ≡ Some d → IsCounted d }
    {
        let counts = machine.counts(step.p);
        Seen {
            stream: stream_of(machine, step.p, step.s).copied(),
            free: free_stream(machine, step.p, counts),
            counts,
            word: word_at_end(machine, reference),
        }
    }

    /// The pc of the stream; 0 where there is none.
    pub(crate) fn pc(&self) -> u32
        ensures { result ≡ pc_of self.now.stream }
    {
        match &self.stream {
            Some(stream) => stream.ssw().pc,
            None => 0,
        }
    }

    /// Notes what differs after the step.
    pub(crate) fn note_changes<const S: usize>(
        &self,
        changes: &mut Vec<Change>,
        machine: &Machine<'_, S>,
        step: Step,
    )
        requires room { vec_len changes.old + 98 ≤ vec_capacity changes.old }
        ensures { AreKept (compared self.now machine.now.world step) changes.old.items changes.new.items }
    {
        let now = stream_of(machine, step.p, step.s);
        note_streams(changes, step.p, step.s, &self.stream, now);
        self.note_started(changes, machine, step.p);
        self.note_counts(changes, machine, step.p);
        self.note_word(changes, machine);
    }

    /// Notes the parts of a stream that the step has started.
    fn note_started<const S: usize>(
        &self,
        changes: &mut Vec<Change>,
        machine: &Machine<'_, S>,
        p: u8,
    )
        requires room { vec_len changes.old + 47 ≤ vec_capacity changes.old }
        ensures kept { AreKept (started_compared p self.now.free self.now.counts machine.now.world)
            changes.old.items changes.new.items }
        ensures few { vec_len changes.new ≤ vec_len changes.old + 47 }
        ensures capacity { vec_capacity changes.old ≤ vec_capacity changes.new }
    {
        let (Some(was), Some(is), Some(s)) = (self.counts, machine.counts(p), self.free) else {
            return;
        };
        if was.0 < is.0 {
            note_streams(
                changes,
                p,
                s,
                &Some(Stream::idle()),
                stream_of(machine, p, s),
            );
        }
    }

    /// Notes what differs of the counts.
    fn note_counts<const S: usize>(
        &self,
        changes: &mut Vec<Change>,
        machine: &Machine<'_, S>,
        p: u8,
    )
        requires room { vec_len changes.old + 2 ≤ vec_capacity changes.old }
        ensures kept { AreKept (counts_compared p self.now.counts (counts_of machine.now.world p))
            changes.old.items changes.new.items }
        ensures few { vec_len changes.new ≤ vec_len changes.old + 2 }
        ensures capacity { vec_capacity changes.old ≤ vec_capacity changes.new }
    {
        if let (Some(was), Some(is)) = (self.counts, machine.counts(p)) {
            note_counts(changes, p, was, is);
        }
    }

    /// Notes what differs of the word.
    fn note_word<const S: usize>(&self, changes: &mut Vec<Change>, machine: &Machine<'_, S>)
        requires room { vec_len changes.old + 2 ≤ vec_capacity changes.old }
        ensures kept { AreKept (word_compared self.now.word machine.now.world.memory)
            changes.old.items changes.new.items }
        ensures few { vec_len changes.new ≤ vec_len changes.old + 2 }
        ensures capacity { vec_capacity changes.old ≤ vec_capacity changes.new }
    {
        let Some((address, was)) = self.word else {
            return;
        };
        if let Some(is) = machine.word(address) {
            note_word(changes, address, was, is);
        }
    }
}

/// Notes what differs of a stream that is there before and after.
fn note_streams(
    changes: &mut Vec<Change>,
    p: u8,
    s: u8,
    before: &Option<Stream>,
    after: Option<&Stream>,
)
    requires room { vec_len changes.old + 47 ≤ vec_capacity changes.old }
    ensures kept { AreKept (stream_compared p s before.now (option_copied after.entry))
        changes.old.items changes.new.items }
    ensures few { vec_len changes.new ≤ vec_len changes.old + 47 }
    ensures capacity { vec_capacity changes.old ≤ vec_capacity changes.new }
{
    if let (Some(was), Some(is)) = (before, after) {
        note_stream(changes, p, s, was, is);
    }
}

/// The stream that a CREATE of a processor with these counts would start: the lowest idle one. None where all reserved
/// ones are in use.
fn free_stream<const S: usize>(
    machine: &Machine<'_, S>,
    p: u8,
    counts: Option<(u16, u16)>,
) -> Option<u8>
    requires { counts ≡ counts_of machine.now.world p }
    ensures { result ≡ free_in (slice_get machine.now.world.processors p) }
{
    let (current, reserved) = counts?;
    if current >= reserved {
        return None;
    }
    lowest_idle(machine, p)
}

/// The word at which a reference ends.
fn word_at_end<const S: usize>(
    machine: &Machine<'_, S>,
    reference: &Option<Reference>,
) -> Option<(u64, Word)>
    ensures { result ≡ word_seen machine.now.world.memory reference.now }
{
    let Some(reference) = reference else {
        return None;
    };
    let address = reference.address;
    let word = machine.word(address)?;
    Some((address, word))
}

/// The lowest idle stream of a processor; None where none is idle.
fn lowest_idle<const S: usize>(machine: &Machine<'_, S>, p: u8) -> Option<u8>
    ensures { result ≡ idle_in (slice_get machine.now.world.processors p) }
{
    for s in 0..machine.image().slim() as u8 {
        let stream = stream_of(machine, p, s)?;
        if is_idle(stream) {
            return Some(s);
        }
    }
    None
}

fn is_idle(stream: &Stream) -> bool
    ensures { result ≡ is_idle stream.now }
{
    match stream.status() {
        Status::Idle => true,
        Status::Running | Status::Stopped(_) => false,
    }
}
