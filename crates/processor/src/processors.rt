//! A processor.

ghost use Rattle.std.specs.Prelude.{◌≡◌, ◌<◌, ◌≤◌, None, Some, length, slice_index, IfOk, IfSome};
ghost use Rattle.std.specs.Option.{option_copied};
ghost use Rattle.processor.specs.Processors.{IsCounted, stream_seen, opening};
ghost use Rattle.insn_word.specs.ShortInsns.{short_instruction};
ghost use Rattle.stream_core.specs.declared.steps.Fetch.{Fetch};
ghost use Rattle.processor.specs.Row.{step_fetch_of, next_of, next_step_of, row, row_over_memory};
ghost use Rattle.processor.specs.OtherStreams.{KeepsOthers};
ghost use Rattle.processor.specs.Records.{any_runs};
ghost use Rattle.processor.specs.Turns.{running_from, turn_after};

use crate::counted_streams::CountedStreams;
use crate::steps::{Next, NextStep};
use crate::stream_table::StreamTable;
use image_file::Image;
use insn_word::ShortInsn;
use std::alloc::{AllocError, Global};
use std::marker::Model;
use stream_core::{Child, Outcome, StatusWord, Stream, TrapMask};
use tag_memory::{Memory, Reply, Request};

/// A processor with room for `S` streams, of which those below the slim of its image are used; the others stay idle
/// ("Processors", docs/MACHINE.md).
///
/// A call that takes an image takes the one that the processor was made for, or one of the same slim.
#[derive(Drop)]
pub struct Processor<const S: usize> {
    streams: CountedStreams<S>,
}

// Contracts see the used streams and the counts, which keep to them. An idle stream holds zeros only.
impl<const S: usize> Model for Processor<S> {
    ghost use Rattle.processor.specs.Processors.{ProcessorValue, IsCounted};

    ghost Value = { ProcessorValue };

    ghost view = { λ p. p.streams };

    ghost invariant = { λ p. IsCounted p.streams };
}

impl<const S: usize> Processor<S> {
    /// The image's processor of this number at its start: stream 0 runs from the processor's entry.
    pub fn new(alloc: Global, image: &Image, number: usize) -> Result<Processor<S>, AllocError>
        requires slim { image.now.slim ≤ S }
        requires stands { number < length image.now.entries }
        ensures is { IfOk result (λ p. p ≡ opening image.now (slice_index image.now.entries number)) }
        ensures slim { IfOk result (λ p. length p.streams ≡ image.now.slim) }
    {
        let Some(entry) = image.entry(number) else {
            unreachable!();
        };
        let first = Stream::born(&Child {
            pc: entry,
            value: 0,
            t0: StatusWord::at(image.trap_entry()),
            mask: TrapMask::NONE,
        });
        let table = StreamTable::new(alloc, image.slim(), first)?;
        let streams = CountedStreams {
            scur: 1,
            sres: 1,
            table,
        };
        Ok(Processor { streams })
    }

    /// What the next step of stream `s` needs: nothing to do where no such stream runs, no memory, or the reply to a
    /// request. A step that traps before it asks needs no memory.
    pub fn next(&self, image: &Image, s: u8) -> Next
        ensures { result ≡ next_of image.now self.now s }
    {
        self.streams.next_step(image, s as usize).next
    }

    /// The same, with what the step's fetch found. A caller that finishes the step with it decodes its word once.
    #[inline(always)]
    pub fn next_step(&self, image: &Image, s: u8) -> NextStep
        ensures { result ≡ next_step_of image.now self.now s }
    {
        self.streams.next_step(image, s as usize)
    }

    /// The instruction that the next step of stream `s` executes, where `fetch_short` finds it.
    #[inline(always)]
    pub(crate) fn next_short(&self, image: &Image, s: u8) -> Option<ShortInsn>
        ensures { IfSome result (λ short. step_fetch_of image.now self.now s
            ≡ Fetch.Instruction (short_instruction short)) }
    {
        self.streams.short_fetch(image, s as usize)
    }

    /// Finishes a step of stream `s` that needs no memory; `step` is what `next_step` said of it.
    #[inline(always)]
    pub fn finish_local(&mut self, image: &Image, s: u8, step: &NextStep) -> Outcome
        requires slim { image.now.slim ≡ length self.old.streams }
        requires step { step.now ≡ next_step_of image.now self.old s }
        requires local { step.now.next ≡ Next.Local }
        ensures row { (self.new, result) ≡ row image.now self.old s None }
        ensures others { KeepsOthers s self.old self.new }
    {
        self.streams.finish_local(image, s as usize, &step.fetch)
    }

    /// Finishes a step of stream `s` whose request got this reply; `step` is what `next_step` said of it. Any reply is
    /// taken.
    #[inline(always)]
    pub fn finish_reply(
        &mut self,
        image: &Image,
        s: u8,
        step: &NextStep,
        request: &Request,
        reply: Reply,
    ) -> Outcome
        requires slim { image.now.slim ≡ length self.old.streams }
        requires step { step.now ≡ next_step_of image.now self.old s }
        requires asks { step.now.next ≡ Next.Ask request.now }
        ensures row { (self.new, result) ≡ row image.now self.old s (Some reply) }
        ensures others { KeepsOthers s self.old self.new }
    {
        self.streams
            .finish_reply(image, s as usize, &step.fetch, reply)
    }

    /// A step of stream `s` that needs no memory.
    pub fn step_local(&mut self, image: &Image, s: u8) -> Outcome
        requires slim { image.now.slim ≡ length self.old.streams }
        requires local { next_of image.now self.old s ≡ Next.Local }
        ensures row { (self.new, result) ≡ row image.now self.old s None }
        ensures others { KeepsOthers s self.old self.new }
    {
        let step = self.next_step(image, s);
        self.finish_local(image, s, &step)
    }

    /// A step of stream `s` whose request got this reply. Any reply is taken.
    pub fn step_reply(&mut self, image: &Image, s: u8, request: &Request, reply: Reply) -> Outcome
        requires slim { image.now.slim ≡ length self.old.streams }
        requires asks { next_of image.now self.old s ≡ Next.Ask request.now }
        ensures row { (self.new, result) ≡ row image.now self.old s (Some reply) }
        ensures others { KeepsOthers s self.old self.new }
    {
        let step = self.next_step(image, s);
        self.finish_reply(image, s, &step, request, reply)
    }

    /// A step of stream `s` over a memory, which answers its request. It decodes one word and takes no memory.
    pub fn step(&mut self, image: &Image, s: u8, memory: &mut Memory) -> Outcome
        requires slim { image.now.slim ≡ length self.old.streams }
        ensures row { ((self.new, result), memory.new) ≡ row_over_memory image.now self.old s memory.old }
        ensures others { KeepsOthers s self.old self.new }
    {
        self.streams.step_over(image, s as usize, memory)
    }

    /// The stream of this number; None from `S` on. From the image's slim on it is idle.
    pub fn stream(&self, s: u8) -> Option<&Stream>
        ensures { option_copied result ≡ stream_seen S self.now.streams s }
    {
        self.streams.table.stream(s as usize)
    }

    /// The number of used streams, the slim of its image; at most `S`.
    pub fn slim(&self) -> u16
        ensures is { result ≡ length self.now.streams }
        ensures within { length self.now.streams ≤ S }
    {
        self.streams.table.slim()
    }

    /// How many streams are not idle; a stopped one counts.
    pub fn scur(&self) -> u16
        ensures is { result ≡ self.now.scur }
        ensures counts { IsCounted self.now }
    {
        self.streams.scur
    }

    /// How many streams are reserved.
    pub fn sres(&self) -> u16
        ensures is { result ≡ self.now.sres }
        ensures counts { IsCounted self.now }
    {
        self.streams.sres
    }

    /// Whether any of its streams runs.
    pub fn any_running(&self) -> bool
        ensures { result ≡ any_runs self.now }
    {
        self.streams.table.any_running()
    }

    /// The stream whose turn it is after this one, if any came before: the least running one above it, else the least
    /// running one; None where no stream runs.
    pub fn turn_after(&self, last: Option<u8>) -> Option<usize>
        ensures { result ≡ turn_after self.now last }
    {
        let Some(last) = last else {
            return self.running_from(0);
        };
        match self.running_from(usize::from(last) + 1) {
            Some(s) => Some(s),
            None => self.running_from(0),
        }
    }

    /// The least running stream from this number on. Where all streams that are not idle stand below it, the others are
    /// not looked at.
    fn running_from(&self, from: usize) -> Option<usize>
        ensures { result ≡ running_from self.now from }
    {
        let table = &self.streams.table;
        if from >= usize::from(table.slim()) {
            return None;
        }
        if table.current_among(from) >= usize::from(self.streams.scur) {
            return None;
        }
        table.running_from(from)
    }

    /// A processor equal to this one.
    pub fn try_clone(&self) -> Result<Processor<S>, AllocError>
        ensures { IfOk result (λ p. p ≡ self.now) }
    {
        let streams = self.streams.try_clone()?;
        Ok(Processor { streams })
    }
}
