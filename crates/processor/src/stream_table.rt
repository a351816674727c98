//! The streams of a processor by number: those below slim are used, the others stay idle.

ghost use Rattle.std.specs.Prelude.{◌≡◌, ◌<◌, ◌≤◌, length, take, drop, replicate, slice_get, slice_set, IfOk, is_some};
ghost use Rattle.std.specs.List.{list_any, position_or_len};
ghost use Rattle.std.specs.Option.{option_copied};
ghost use Rattle.stream_core.specs.Streams.{idle, after_trap};
ghost use Rattle.insn_word.specs.ShortInsns.{short_instruction, reference_instruction};
ghost use Rattle.stream_core.specs.Effects.{request_of, after_instruction};
ghost use Rattle.stream_core.specs.StreamRow.{after_reply, row_asking};
ghost use Rattle.processor.specs.Processors.{is_idle, count_current, stream_at, stream_seen};
ghost use Rattle.processor.specs.Records.{is_running};
ghost use Rattle.processor.specs.Turns.{first_running};
ghost use Rattle.processor.specs.StreamTables.{put_in_streams};

use insn_word::{Insn, ReferenceInsn, ShortInsn};
use std::alloc::{AllocError, Global};
use std::marker::Model;
use stream_core::{Outcome, Status, Stream, TrapKind};
use tag_memory::Reply;

/// Room for `S` streams. Contracts see the list of those that are used.
#[derive(Drop)]
pub(crate) struct StreamTable<const S: usize> {
    slim: u16,
    streams: Vec<Stream>,
}

impl<const S: usize> Model for StreamTable<S> {
    ghost use Rattle.std.specs.Prelude.{List, take};
    ghost use Rattle.stream_core.specs.Streams.{StreamValue};
    ghost use Rattle.processor.specs.StreamTables.{IsRoom};

    ghost Value = { List StreamValue };

    ghost view = { λ t. take t.slim t.streams.items };

    ghost invariant = { λ t. IsRoom S t.slim t.streams.items };
}

impl<const S: usize> StreamTable<S> {
    /// The table of so many used streams, the first of which is given and the others idle.
    pub(crate) fn new(alloc: Global, slim: u16, first: Stream) -> Result<StreamTable<S>, AllocError>
        requires some { 1 ≤ slim }
        requires within { slim ≤ S }
        ensures { IfOk result (λ t. t ≡ slice_set (replicate slim idle) 0 first) }
    {
        let mut streams = vec![in alloc; Stream::idle(); S]?;
        streams[0] = first;
        Ok(StreamTable { slim, streams })
    }

    /// The number of used streams.
    pub(crate) fn slim(&self) -> u16
        ensures is { result ≡ length self.now }
        ensures within { length self.now ≤ S }
    {
        self.slim
    }

    /// A used stream; None from slim on.
    pub(crate) fn used(&self, place: usize) -> Option<&Stream>
        ensures { option_copied result ≡ slice_get self.now place }
    {
        if place < usize::from(self.slim) {
            Some(&self.streams[place])
        } else {
            None
        }
    }

    /// The used stream at a place.
    pub(crate) fn at(&self, place: usize) -> &Stream
        requires there { place < length self.now }
        ensures { result.now ≡ stream_at self.now place }
    {
        &self.streams[place]
    }

    /// A stream, used or not; None from `S` on.
    pub(crate) fn stream(&self, place: usize) -> Option<&Stream>
        ensures { option_copied result ≡ stream_seen S self.now place }
    {
        if place < S {
            Some(&self.streams[place])
        } else {
            None
        }
    }

    /// The place of the lowest used stream that is idle; slim where none is.
    pub(crate) fn lowest_idle(&self) -> usize
        ensures { result ≡ position_or_len is_idle self.now }
    {
        let slim = usize::from(self.slim);
        for place in 0..slim {
            if is_idle(&self.streams[place]) {
                return place;
            }
        }
        slim
    }

    /// Whether any used stream runs.
    pub(crate) fn any_running(&self) -> bool
        ensures { result ≡ list_any is_running self.now }
    {
        self.streams[..usize::from(self.slim)]
            .iter()
            .any(|s| is_running(s))
    }

    /// The least used stream from this number on that runs.
    pub(crate) fn running_from(&self, from: usize) -> Option<usize>
        ensures { result ≡ first_running (drop from self.now) from }
    {
        for place in from..usize::from(self.slim) {
            if is_running(&self.streams[place]) {
                return Some(place);
            }
        }
        None
    }

    /// How many of the first so many used streams are not idle.
    pub(crate) fn current_among(&self, first: usize) -> usize
        requires { first ≤ length self.now }
        ensures { result ≡ count_current (take first self.now) }
    {
        let mut current = 0;
        for place in 0..first {
            if !is_idle(&self.streams[place]) {
                current += 1;
            }
        }
        current
    }

    /// Puts a stream in the place of a used one; nothing changes where the place is not used.
    pub(crate) fn put(&mut self, place: usize, stream: Stream)
        ensures { self.new ≡ slice_set self.old place stream }
    {
        if place < usize::from(self.slim) {
            self.streams[place] = stream;
        }
    }

    /// A used stream takes a trap that has no address.
    pub(crate) fn trap(&mut self, place: usize, kind: TrapKind) -> Outcome
        requires there { place < length self.old }
        ensures { (self.new, result) ≡ put_in_streams self.old place (after_trap kind 0 (stream_at self.old place)) }
    {
        self.streams[place].trap(kind, 0)
    }

    /// A used stream completes the step of an instruction: `reply` is the memory's where the instruction asks it, and
    /// `grant` the number of streams that a RESERVE is granted.
    #[inline(always)]
    pub(crate) fn complete(
        &mut self,
        place: usize,
        insn: &Insn,
        reply: Option<Reply>,
        limit: u32,
        grant: u64,
    ) -> Outcome
        requires there { place < length self.old }
        requires reply { is_some reply ≡ is_some (request_of (stream_at self.old place) insn.now) }
        ensures { (self.new, result) ≡ put_in_streams self.old place
            (row_asking limit (stream_at self.old place) insn.now grant reply
            (request_of (stream_at self.old place) insn.now)) }
    {
        match reply {
            None => {
                self.streams[place].execute(insn, 0, grant);
                Outcome::Done
            }
            Some(reply) => self.streams[place].reply(insn, reply, limit, grant),
        }
    }

    /// A used stream executes an instruction that asks nothing.
    #[inline(always)]
    pub(crate) fn execute_short(&mut self, place: usize, short: &ShortInsn)
        requires there { place < length self.old }
        ensures { self.new ≡ slice_set self.old place
            (after_instruction (stream_at self.old place) (short_instruction short.now) 0 0) }
    {
        self.streams[place].execute_short(short);
    }

    /// A used stream completes the step of a reference by the memory's reply.
    #[inline(always)]
    pub(crate) fn complete_reference(
        &mut self,
        place: usize,
        reference: &ReferenceInsn,
        reply: Reply,
        limit: u32,
    ) -> Outcome
        requires there { place < length self.old }
        ensures { (self.new, result) ≡ put_in_streams self.old place
            (after_reply limit (stream_at self.old place) (reference_instruction reference.now) 0 reply) }
    {
        self.streams[place].reply_reference(reference, reply, limit)
    }

    /// A table with the same streams.
    pub(crate) fn try_clone(&self) -> Result<StreamTable<S>, AllocError>
        ensures { IfOk result (λ t. t ≡ self.now) }
    {
        let streams = self.streams.clone()?;
        Ok(StreamTable {
            slim: self.slim,
            streams,
        })
    }
}

fn is_idle(stream: &Stream) -> bool
    ensures { result ≡ is_idle stream.now }
{
    match stream.status() {
        Status::Idle => true,
        Status::Running | Status::Stopped(_) => false,
    }
}

fn is_running(stream: &Stream) -> bool
    ensures { result ≡ is_running stream.now }
{
    match stream.status() {
        Status::Running => true,
        Status::Idle | Status::Stopped(_) => false,
    }
}
