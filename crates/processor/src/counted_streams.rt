//! Streams with the counts of those that are current and of those that are reserved. That the counts are right is the
//! processor's to keep.

mod stepping;

ghost use Rattle.std.specs.Prelude.{◌≡◌, ◌<◌, ◌≤◌, ◌+◌, length, true, false, is_some, IfOk, IfSome};
ghost use Rattle.insn_word.specs.ShortInsns.{short_instruction, reference_instruction};
ghost use Rattle.stream_core.specs.StreamRow.{control_by, control_of, after_reply};
ghost use Rattle.stream_core.specs.Effects.{request_of, after_instruction};
ghost use Rattle.stream_core.specs.Streams.{StreamValue, idle, after_trap};
ghost use Rattle.processor.specs.Processors.{stream_at};
ghost use Rattle.processor.specs.Row.{lacks_stream, grant_of, step_fetch_of, after_control, with_stream, put_back};
ghost use Rattle.processor.specs.Row.{row_on_fetch};

use crate::stream_table::StreamTable;
use image_file::Image;
use insn_word::{CPart, ControlOp, Insn, ReferenceInsn, ShortInsn};
use std::alloc::{AllocError, Global};
use std::marker::Model;
use stream_core::{Control, Fetch, Outcome, Stream, TrapKind};
use tag_memory::Reply;

/// The streams and the counts, which clauses see as a processor.
#[derive(Drop)]
pub(crate) struct CountedStreams<const S: usize> {
    pub(crate) scur: u16,
    pub(crate) sres: u16,
    pub(crate) table: StreamTable<S>,
}

impl<const S: usize> Model for CountedStreams<S> {
    ghost use Rattle.processor.specs.Processors.{ProcessorValue};

    ghost Value = { ProcessorValue };

    ghost view = { λ c. record { streams = c.table; scur = c.scur; sres = c.sres } };
}

impl<const S: usize> CountedStreams<S> {
    /// Whether the instruction is a CREATE that finds no reserved stream that is free.
    #[tactic(auto, unfolding(stream_core::specs::StreamRow::control_of))]
    fn lacks_stream(&self, insn: &Insn) -> bool
        ensures { (s : StreamValue) → result ≡ lacks_stream self.now (control_of s insn.now) }
    {
        let op = match insn {
            Insn::Wide { .. } => return false,
            Insn::Normal { c, .. } => c.op,
        };
        match op {
            ControlOp::Create => self.scur == self.sres,
            ControlOp::Nop
            | ControlOp::Jump
            | ControlOp::Skip
            | ControlOp::Call
            | ControlOp::Exchange
            | ControlOp::TargetSet
            | ControlOp::TargetGet
            | ControlOp::TrapGet
            | ControlOp::Reserve
            | ControlOp::Quit
            | ControlOp::QuitKeep
            | ControlOp::Mask => false,
        }
    }

    /// The number of streams that a RESERVE is granted.
    fn grant_of(&self, image: &Image, control: &Control) -> u64
        ensures is { result ≡ grant_of image.now self.now control.now }
        ensures fits { self.now.sres + result < 65536 }
    {
        let room = image.slim().saturating_sub(self.sres);
        match control {
            Control::Reserve(asked) => (*asked).min(u64::from(room)),
            Control::Plain | Control::Create(_) | Control::Quit | Control::QuitKeep => 0,
        }
    }

    /// What a step of the stream at this place begins with.
    #[tactic(auto, unfolding(crate::specs::Row::step_fetch_of, crate::specs::Row::step_fetch))]
    fn step_fetch(&self, image: &Image, place: usize) -> Fetch
        ensures { result ≡ step_fetch_of image.now self.now place }
    {
        let Some(stream) = self.table.used(place) else {
            return Fetch::Rest;
        };
        match stream.fetch(image.profile(), image.program()) {
            Fetch::Rest => Fetch::Rest,
            Fetch::Trap(kind) => Fetch::Trap(kind),
            Fetch::Instruction(insn) => {
                if self.lacks_stream(&insn) {
                    Fetch::Trap(TrapKind::Create)
                } else {
                    Fetch::Instruction(insn)
                }
            }
        }
    }

    /// Does what the instruction of the stream at this place, which is done, asks of its processor.
    fn apply_control(&mut self, place: usize, control: Control, grant: u64)
        requires some { 1 ≤ self.old.scur }
        requires within { self.old.scur ≤ self.old.sres }
        requires free { lacks_stream self.old control ≡ false }
        requires fits { self.old.sres + grant < 65536 }
        ensures { self.new ≡ after_control self.old place grant control }
    {
        match control {
            Control::Plain => {}
            Control::Reserve(_) => self.sres += grant as u16,
            Control::Create(child) => {
                let lowest = self.table.lowest_idle();
                self.table.put(lowest, Stream::born(&child));
                self.scur += 1;
            }
            Control::Quit => {
                self.table.put(place, Stream::idle());
                self.scur -= 1;
                self.sres -= 1;
            }
            Control::QuitKeep => {
                self.table.put(place, Stream::idle());
                self.scur -= 1;
            }
        }
    }

    /// The stream of this number.
    fn at(&self, place: usize) -> &Stream
        requires there { place < length self.now.streams }
        ensures { result.now ≡ stream_at self.now.streams place }
    {
        self.table.at(place)
    }

    /// A stream takes a trap that has no address.
    fn trap(&mut self, place: usize, kind: TrapKind) -> Outcome
        requires there { place < length self.old.streams }
        ensures { (self.new, result) ≡ put_back self.old place (after_trap kind 0 (stream_at self.old.streams place)) }
    {
        self.table.trap(place, kind)
    }

    /// A stream executes an instruction with no reference, which asks nothing of its processor.
    #[inline(always)]
    fn execute_short(&mut self, place: usize, short: &ShortInsn)
        requires there { place < length self.old.streams }
        ensures { self.new ≡ with_stream self.old place
            (after_instruction (stream_at self.old.streams place) (short_instruction short.now) 0 0) }
    {
        self.table.execute_short(place, short);
    }

    /// A stream completes the step of a reference by the memory's reply. It asks nothing of its processor.
    #[inline(always)]
    fn complete_reference(
        &mut self,
        image: &Image,
        place: usize,
        reference: &ReferenceInsn,
        reply: Reply,
    ) -> Outcome
        requires there { place < length self.old.streams }
        ensures { (self.new, result) ≡ put_back self.old place
            (after_reply image.now.retry_limit (stream_at self.old.streams place)
            (reference_instruction reference.now) 0 reply) }
    {
        self.table
            .complete_reference(place, reference, reply, image.retry_limit())
    }

    /// Completes the step of the instruction that stands at the pc of a stream, with the memory's reply to its
    /// request where it has one.
    fn complete(
        &mut self,
        image: &Image,
        place: usize,
        insn: &Insn,
        reply: Option<Reply>,
    ) -> Outcome
        requires there { place < length self.old.streams }
        requires reply { is_some reply ≡ is_some (request_of (stream_at self.old.streams place) insn.now) }
        requires some { 1 ≤ self.old.scur }
        requires within { self.old.scur ≤ self.old.sres }
        requires free { lacks_stream self.old (control_of (stream_at self.old.streams place) insn.now) ≡ false }
        ensures { (self.new, result) ≡ row_on_fetch image.now self.old place reply (stream_at self.old.streams place)
            (Fetch.Instruction insn.now) }
    {
        let limit = image.retry_limit();
        if asks_nothing(insn) {
            return self.table.complete(place, insn, reply, limit, 0);
        }
        let control = self.at(place).control_of(insn);
        let grant = self.grant_of(image, &control);
        let outcome = self.table.complete(place, insn, reply, limit, grant);
        match outcome {
            Outcome::Done => self.apply_control(place, control, grant),
            Outcome::Skipped | Outcome::Blocked | Outcome::Trapped(_) | Outcome::Stopped(_) => {}
        }
        outcome
    }

    /// Streams and counts equal to these.
    pub(crate) fn try_clone(&self) -> Result<CountedStreams<S>, AllocError>
        ensures { IfOk result (λ c. c ≡ self.now) }
    {
        let table = self.table.try_clone()?;
        Ok(CountedStreams {
            scur: self.scur,
            sres: self.sres,
            table,
        })
    }
}

/// Whether the instruction asks nothing of its processor, as most do.
#[tactic(auto, unfolding(stream_core::specs::StreamRow::control_of))]
fn asks_nothing(insn: &Insn) -> bool
    ensures { (s : StreamValue) → result ≡ true → control_of s insn.now ≡ Control.Plain }
{
    match insn {
        Insn::Wide { .. } => true,
        Insn::Normal { c, .. } => is_plain(c),
    }
}

/// Whether the control operation asks nothing of its processor.
fn is_plain(c: &CPart) -> bool
    ensures { (s : StreamValue) → result ≡ true → control_by s c.now c.now.op ≡ Control.Plain }
{
    match c.op {
        ControlOp::Reserve | ControlOp::Create | ControlOp::Quit | ControlOp::QuitKeep => false,
        ControlOp::Nop
        | ControlOp::Jump
        | ControlOp::Skip
        | ControlOp::Call
        | ControlOp::Exchange
        | ControlOp::TargetSet
        | ControlOp::TargetGet
        | ControlOp::TrapGet
        | ControlOp::Mask => true,
    }
}
