//! Steps: what one needs, how it is finished, and one over a memory. An instruction that has a short form goes by it.

ghost use Rattle.std.specs.Prelude.{◌≡◌, None, Some, true, is_some, IfSome};
ghost use Rattle.insn_word.specs.ShortInsns.{short_instruction, reference_instruction};
ghost use Rattle.processor.specs.Processors.{IsCounted};
ghost use Rattle.processor.specs.Row.{step_fetch_of, next_asking, next_step_of, request, row, memory_reply};
ghost use Rattle.processor.specs.Row.{row_over_memory};

use super::CountedStreams;
use crate::steps::{FetchForm, Next, NextStep, StepFetch};
use image_file::Image;
use insn_word::{ReferenceInsn, ShortInsn};
use stream_core::{Fetch, Outcome};
use tag_memory::{Memory, Reply, Request};

impl<const S: usize> CountedStreams<S> {
    /// The instruction at the pc of the stream at this place, where `fetch_short` finds it.
    #[inline(always)]
    pub(crate) fn short_fetch(&self, image: &Image, place: usize) -> Option<ShortInsn>
        ensures { IfSome result (λ short. step_fetch_of image.now self.now place
            ≡ Fetch.Instruction (short_instruction short)) }
    {
        self.table.used(place)?.fetch_short(image.program())
    }

    /// The same of `fetch_reference`.
    #[inline(always)]
    fn reference_fetch(&self, image: &Image, place: usize) -> Option<ReferenceInsn>
        ensures { IfSome result (λ r. step_fetch_of image.now self.now place
            ≡ Fetch.Instruction (reference_instruction r)) }
    {
        self.table.used(place)?.fetch_reference(image.program())
    }

    /// What the next step of the stream of this number needs, with what it begins with.
    // in a function of its own it writes its result in place; where it is inlined the result is copied as a whole
    #[inline(never)]
    pub(crate) fn next_step(&self, image: &Image, place: usize) -> NextStep
        ensures { result ≡ next_step_of image.now self.now place }
    {
        if let Some(short) = self.short_fetch(image, place) {
            return NextStep {
                next: Next::Local,
                fetch: StepFetch {
                    form: FetchForm::Short(short),
                },
            };
        }
        if let Some(reference) = self.reference_fetch(image, place) {
            return NextStep {
                next: Next::Ask(self.at(place).request_reference(&reference)),
                fetch: StepFetch {
                    form: FetchForm::Reference(reference),
                },
            };
        }
        self.next_step_in_full(image, place)
    }

    /// The same of every step, with its instruction in full.
    fn next_step_in_full(&self, image: &Image, place: usize) -> NextStep
        ensures { result ≡ next_step_of image.now self.now place }
    {
        match self.step_fetch(image, place) {
            Fetch::Rest => NextStep {
                next: Next::Skip,
                fetch: StepFetch {
                    form: FetchForm::Rest,
                },
            },
            Fetch::Trap(kind) => NextStep {
                next: Next::Local,
                fetch: StepFetch {
                    form: FetchForm::Trap(kind),
                },
            },
            Fetch::Instruction(insn) => NextStep {
                next: next_asking(self.at(place).request(&insn)),
                fetch: StepFetch {
                    form: FetchForm::Instruction(insn),
                },
            },
        }
    }

    /// Finishes the step of the stream of this number that begins with this and asks nothing of the memory.
    #[inline(always)]
    pub(crate) fn finish_local(&mut self, image: &Image, place: usize, fetch: &StepFetch) -> Outcome
        requires counts { IsCounted self.old }
        requires fetch { fetch.now ≡ step_fetch_of image.now self.old place }
        requires local { request image.now self.old place ≡ None }
        ensures { (self.new, result) ≡ row image.now self.old place None }
    {
        match &fetch.form {
            FetchForm::Short(short) => {
                self.execute_short(place, short);
                Outcome::Done
            }
            FetchForm::Rest => Outcome::Skipped,
            FetchForm::Trap(kind) => self.trap(place, *kind),
            FetchForm::Reference(_) => unreachable!(),
            FetchForm::Instruction(insn) => self.complete(image, place, insn, None),
        }
    }

    /// The same where it asks the memory, which gave this reply.
    #[inline(always)]
    pub(crate) fn finish_reply(
        &mut self,
        image: &Image,
        place: usize,
        fetch: &StepFetch,
        reply: Reply,
    ) -> Outcome
        requires counts { IsCounted self.old }
        requires fetch { fetch.now ≡ step_fetch_of image.now self.old place }
        requires asks { is_some (request image.now self.old place) ≡ true }
        ensures { (self.new, result) ≡ row image.now self.old place (Some reply) }
    {
        match &fetch.form {
            FetchForm::Reference(reference) => {
                self.complete_reference(image, place, reference, reply)
            }
            FetchForm::Instruction(insn) => self.complete(image, place, insn, Some(reply)),
            FetchForm::Rest | FetchForm::Trap(_) | FetchForm::Short(_) => unreachable!(),
        }
    }

    /// One step of the stream of this number over a memory. It decodes one word and takes no memory.
    #[inline(always)]
    pub(crate) fn step_over(&mut self, image: &Image, place: usize, memory: &mut Memory) -> Outcome
        requires counts { IsCounted self.old }
        ensures { ((self.new, result), memory.new) ≡ row_over_memory image.now self.old place memory.old }
    {
        if let Some(short) = self.short_fetch(image, place) {
            self.execute_short(place, &short);
            return Outcome::Done;
        }
        if let Some(reference) = self.reference_fetch(image, place) {
            let request = self.at(place).request_reference(&reference);
            let reply = memory.serve(&request);
            return self.complete_reference(image, place, &reference, reply);
        }
        self.step_over_in_full(image, place, memory)
    }

    /// The same of every step, with its instruction in full.
    fn step_over_in_full(&mut self, image: &Image, place: usize, memory: &mut Memory) -> Outcome
        requires counts { IsCounted self.old }
        ensures { ((self.new, result), memory.new) ≡ row_over_memory image.now self.old place memory.old }
    {
        match self.step_fetch(image, place) {
            Fetch::Rest => Outcome::Skipped,
            Fetch::Trap(kind) => self.trap(place, kind),
            Fetch::Instruction(insn) => {
                let request = self.at(place).request(&insn);
                let reply = reply_of(memory, request);
                self.complete(image, place, &insn, reply)
            }
        }
    }
}

/// What a step that runs an instruction needs, by its request.
fn next_asking(request: Option<Request>) -> Next
    ensures { result ≡ next_asking request }
{
    match request {
        None => Next::Local,
        Some(request) => Next::Ask(request),
    }
}

/// The memory's reply to what a step asks, if it asks anything.
fn reply_of(memory: &mut Memory, request: Option<Request>) -> Option<Reply>
    ensures { (memory.new, result) ≡ memory_reply memory.old request }
{
    match request {
        None => None,
        Some(request) => Some(memory.serve(&request)),
    }
}
