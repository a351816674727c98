//! A processor beside the record of what it did.

ghost use Rattle.std.specs.Prelude.{◌≡◌, ◌<◌, ◌≤◌, ◌+◌, ◌-◌, ◌++◌, ◌∷◌, [], ◌↔◌, max, length, slice_index};
ghost use Rattle.std.specs.Prelude.{IfOk, OnOk, OnErr, IfSome, IsSome, None, Some, vec_len, vec_capacity};
ghost use Rattle.std.specs.Option.{option_copied};
ghost use Rattle.processor.specs.Processors.{opening, stream_seen};
ghost use Rattle.insn_word.specs.ShortInsns.{short_instruction};
ghost use Rattle.stream_core.specs.declared.steps.Fetch.{Fetch};
ghost use Rattle.processor.specs.Row.{step_fetch_of, next_of, next_step_of, row};
ghost use Rattle.processor.specs.OwnSteps.{IsPlace};
ghost use Rattle.processor.specs.Records.{RecordValue, IsKept, any_runs};
ghost use Rattle.processor.specs.Turns.{turn_after, last_of};

use crate::processors::Processor;
use crate::recorded_steps::Steps;
use crate::steps::{Asked, FetchForm, Next, NextStep, StepFetch};
use image_file::Image;
use insn_word::ShortInsn;
use std::alloc::{AllocError, Global};
use std::marker::Model;
use stream_core::{Outcome, Stream};
use tag_memory::{Reply, Request};

/// A processor of an image that keeps the list of its steps and the list of what it asked of the memory, with the
/// replies ("Histories", docs/MACHINE.md). Its state is what the image's processor comes to by just these steps with
/// just these replies.
#[derive(Drop)]
pub struct Recorded<'i, const S: usize> {
    image: &'i Image,
    number: u8,
    processor: Processor<S>,
    steps: Steps,
    pairs: Vec<Asked>,
    // of each pair, how many steps came before the one that took it
    places: Vec<usize>,
}

impl<'i, const S: usize> Model for Recorded<'i, S> {
    ghost use Rattle.std.specs.Prelude.{◌≡◌, ◌≤◌, ◌+◌, length, vec_len, vec_capacity};
    ghost use Rattle.processor.specs.OwnSteps.{IsOwn};
    ghost use Rattle.processor.specs.Records.{RecordValue, IsPlaced};

    ghost Value = { RecordValue };

    ghost view = { λ r. record {
      image = r.image.now;
      number = r.number;
      steps = r.steps.numbers;
      pairs = r.pairs.items;
      state = r.processor;
      spare = r.steps.spare;
    } };

    ghost invariant = { λ r.
        IsOwn r.image.now r.number r.steps.numbers r.pairs.items r.processor
        × IsPlaced r.image.now r.number r.steps.numbers r.pairs.items r.places.items
        × (r.image.now.slim ≡ length r.processor.streams)
        × (vec_len r.pairs + r.steps.spare ≤ vec_capacity r.pairs)
        × (vec_len r.places + r.steps.spare ≤ vec_capacity r.places) };
}

impl<'i, const S: usize> Recorded<'i, S> {
    /// The image's processor of this number at its start, with empty lists and room for no step.
    pub fn new(alloc: Global, image: &'i Image, number: u8) -> Result<Recorded<'i, S>, AllocError>
        requires slim { image.now.slim ≤ S }
        requires stands { number < length image.now.entries }
        ensures { IfOk result (λ r. r ≡ record {
          image = image.now;
          number = number;
          steps = [];
          pairs = [];
          state = opening image.now (slice_index image.now.entries number);
          spare = 0;
        }) }
    {
        let processor = Processor::new(alloc, image, usize::from(number))?;
        Ok(Recorded {
            image,
            number,
            processor,
            steps: Steps::new(alloc),
            pairs: Vec::new(alloc),
            places: Vec::new(alloc),
        })
    }

    /// Makes room for `n` more steps.
    pub fn reserve(&mut self, n: usize) -> Result<(), AllocError>
        ensures ok { OnOk result (self.new ≡ record self.old { spare = max self.old.spare n }) }
        ensures err { OnErr result (self.new ≡ self.old) }
    {
        if n > self.steps.spare() {
            self.pairs.reserve(n)?;
            self.places.reserve(n)?;
            self.steps.reserve(n)?;
        }
        Ok(())
    }

    /// For how many more steps there is room.
    pub fn spare(&self) -> usize
        ensures { result ≡ self.now.spare }
    {
        self.steps.spare()
    }

    /// What the next step of stream `s` needs.
    pub fn next(&self, s: u8) -> Next
        ensures { result ≡ next_of self.now.image self.now.state s }
    {
        self.processor.next(self.image, s)
    }

    /// The same, with what the step's fetch found. A caller that finishes the step with it decodes its word once.
    #[inline(always)]
    pub fn next_step(&self, s: u8) -> NextStep
        ensures { result ≡ next_step_of self.now.image self.now.state s }
    {
        self.processor.next_step(self.image, s)
    }

    /// The instruction that the next step of stream `s` executes, where `fetch_short` finds it: then the step needs no
    /// memory. None where `next_step` has to say what it needs.
    #[inline(always)]
    pub fn next_short(&self, s: u8) -> Option<ShortInsn>
        ensures { IfSome result (λ short. step_fetch_of self.now.image self.now.state s
            ≡ Fetch.Instruction (short_instruction short)) }
    {
        self.processor.next_short(self.image, s)
    }

    /// A step of stream `s` that needs no memory, at the end of the steps. It takes 1 of the room.
    pub fn step_local(&mut self, s: u8) -> Outcome
        requires local { next_of self.old.image self.old.state s ≡ Next.Local }
        requires room { 0 < self.old.spare }
        ensures after { self.new ≡ record self.old {
          steps = self.old.steps ++ s ∷ [];
          state = (row self.old.image self.old.state s None).0;
          spare = self.old.spare - 1;
        } }
        ensures outcome { result ≡ (row self.old.image self.old.state s None).1 }
    {
        let step = self.next_step(s);
        self.finish_local(s, &step)
    }

    /// A step of stream `s` whose request got this reply, at the end of the steps, and request and reply at the end of
    /// the pairs. It takes 1 of the room. Any reply is taken.
    pub fn step_reply(&mut self, s: u8, request: &Request, reply: Reply) -> Outcome
        requires asks { next_of self.old.image self.old.state s ≡ Next.Ask request.now }
        requires room { 0 < self.old.spare }
        ensures after { self.new ≡ record self.old {
          steps = self.old.steps ++ s ∷ [];
          pairs = self.old.pairs ++ record { s = s; request = request.now; reply = reply } ∷ [];
          state = (row self.old.image self.old.state s (Some reply)).0;
          spare = self.old.spare - 1;
        } }
        ensures outcome { result ≡ (row self.old.image self.old.state s (Some reply)).1 }
    {
        let step = self.next_step(s);
        self.finish_reply(s, &step, request, reply)
    }

    /// `step_local` of which `next_short` said this, in fewer steps.
    #[inline(always)]
    pub fn finish_short(&mut self, s: u8, short: &ShortInsn) -> Outcome
        requires fetch { step_fetch_of self.old.image self.old.state s ≡ Fetch.Instruction (short_instruction short.now) }
        requires room { 0 < self.old.spare }
        ensures after { self.new ≡ record self.old {
          steps = self.old.steps ++ s ∷ [];
          state = (row self.old.image self.old.state s None).0;
          spare = self.old.spare - 1;
        } }
        ensures outcome { result ≡ (row self.old.image self.old.state s None).1 }
    {
        let step = NextStep {
            next: Next::Local,
            fetch: StepFetch {
                form: FetchForm::Short(*short),
            },
        };
        self.finish_local(s, &step)
    }

    /// `step_local` of which `next_step` said this.
    #[inline(always)]
    pub fn finish_local(&mut self, s: u8, step: &NextStep) -> Outcome
        requires step { step.now ≡ next_step_of self.old.image self.old.state s }
        requires local { step.now.next ≡ Next.Local }
        requires room { 0 < self.old.spare }
        ensures after { self.new ≡ record self.old {
          steps = self.old.steps ++ s ∷ [];
          state = (row self.old.image self.old.state s None).0;
          spare = self.old.spare - 1;
        } }
        ensures outcome { result ≡ (row self.old.image self.old.state s None).1 }
    {
        let outcome = self.processor.finish_local(self.image, s, step);
        self.steps.push(s);
        outcome
    }

    /// `step_reply` of which `next_step` said this.
    #[inline(always)]
    pub fn finish_reply(
        &mut self,
        s: u8,
        step: &NextStep,
        request: &Request,
        reply: Reply,
    ) -> Outcome
        requires step { step.now ≡ next_step_of self.old.image self.old.state s }
        requires asks { step.now.next ≡ Next.Ask request.now }
        requires room { 0 < self.old.spare }
        ensures after { self.new ≡ record self.old {
          steps = self.old.steps ++ s ∷ [];
          pairs = self.old.pairs ++ record { s = s; request = request.now; reply = reply } ∷ [];
          state = (row self.old.image self.old.state s (Some reply)).0;
          spare = self.old.spare - 1;
        } }
        ensures outcome { result ≡ (row self.old.image self.old.state s (Some reply)).1 }
    {
        let outcome = self
            .processor
            .finish_reply(self.image, s, step, request, reply);
        let place = self.steps.len();
        self.places.push_reserved(place);
        self.pairs.push_reserved(Asked {
            s,
            request: *request,
            reply,
        });
        self.steps.push(s);
        outcome
    }

    /// How many steps came before the one that took pair `k`, counted from 0; None where there is no such pair.
    pub fn place(&self, k: usize) -> Option<usize>
        ensures there { IsSome result ↔ (k < length self.now.pairs) }
        ensures place { IfSome result (λ n.
            IsPlace self.now.image self.now.number self.now.steps self.now.pairs k n) }
    {
        self.places.get(k).copied()
    }

    /// The image that it is of.
    pub fn image(&self) -> &'i Image
        ensures { result.now ≡ self.now.image }
    {
        self.image
    }

    /// Its number. The state is what its steps and pairs lead to.
    pub fn number(&self) -> u8
        ensures is { result ≡ self.now.number }
        ensures kept { IsKept self.now }
    {
        self.number
    }

    /// The streams that it stepped, in order.
    pub fn steps(&self) -> &Steps
        ensures { result.now.numbers ≡ self.now.steps }
    {
        &self.steps
    }

    /// What it asked of the memory, in order, with the replies.
    pub fn pairs(&self) -> &[Asked]
        ensures { result.now ≡ self.now.pairs }
    {
        self.pairs.as_slice()
    }

    /// Whether any of its streams runs.
    pub fn any_running(&self) -> bool
        ensures { result ≡ any_runs self.now.state }
    {
        self.processor.any_running()
    }

    /// The stream whose turn it is: the least running one above that of the last step, else the least running one; None
    /// where no stream runs.
    pub fn turn(&self) -> Option<u8>
        ensures { result ≡ turn_after self.now.state (last_of self.now.steps) }
    {
        // the clauses of `slim` say that a stream's number fits eight bits
        let _ = self.image.slim();
        match self.processor.turn_after(self.steps.last()) {
            Some(s) => Some(s as u8),
            None => None,
        }
    }

    /// The stream of this number; None from `S` on. From the image's slim on it is idle.
    pub fn stream(&self, s: u8) -> Option<&Stream>
        ensures { option_copied result ≡ stream_seen S self.now.state.streams s }
    {
        self.processor.stream(s)
    }

    /// How many streams are not idle; a stopped one counts.
    pub fn scur(&self) -> u16
        ensures { result ≡ self.now.state.scur }
    {
        self.processor.scur()
    }

    /// How many streams are reserved.
    pub fn sres(&self) -> u16
        ensures { result ≡ self.now.state.sres }
    {
        self.processor.sres()
    }

    /// The same processor with the same lists, and room for no step.
    pub fn try_clone(&self) -> Result<Recorded<'i, S>, AllocError>
        ensures { IfOk result (λ r. r ≡ record self.now { spare = 0 }) }
    {
        let processor = self.processor.try_clone()?;
        let steps = self.steps.try_clone()?;
        let pairs = self.pairs.clone()?;
        let places = self.places.clone()?;
        Ok(Recorded {
            image: self.image,
            number: self.number,
            processor,
            steps,
            pairs,
            places,
        })
    }
}
