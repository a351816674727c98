//! A machine and its steps.

ghost use Rattle.std.specs.Prelude.{◌≡◌, ◌<◌, ◌≤◌, ◌↔◌, ℕ, Some, slice_get, IfOk};
ghost use Rattle.std.specs.Option.{option_copied};
ghost use Rattle.processor.specs.TagMemory.Storage.{cell_at};
ghost use Rattle.processor.specs.TagMemory.Chain.{end_of};
ghost use Rattle.processor.specs.TagMemory.Answer.{answer, address_at};
ghost use Rattle.processor.specs.Processors.{ProcessorValue, IsCounted};
ghost use Rattle.processor.specs.World.{start, world_step, steps, stream_of, counts_of};
ghost use Rattle.machine.specs.MachineValue.{IsMachine, next_in};

use crate::load_fault::LoadFault;
use processor::images::Image;
use processor::memories::{Ending, Memory, Request, Word};
use processor::streams::{Outcome, Stream};
use processor::{Next, Processor, Step};
use std::alloc::{AllocError, Global};
use std::marker::Model;

/// A machine with room for `S` streams a processor, over the image that it was loaded from ("Machines",
/// docs/MACHINE.md).
#[derive(Drop)]
pub struct Machine<'i, const S: usize> {
    image: &'i Image,
    processors: Vec<Processor<S>>,
    memory: Memory,
}

// Contracts see the image and the world.
impl<'i, const S: usize> Model for Machine<'i, S> {
    ghost use Rattle.machine.specs.MachineValue.{MachineValue, IsMachine, machine_of};

    ghost Value = { MachineValue };

    ghost view = { λ m. machine_of m.image.now m.processors.items m.memory };

    ghost invariant = { λ m. IsMachine S (machine_of m.image.now m.processors.items m.memory) };
}

impl<'i, const S: usize> Machine<'i, S> {
    /// The machine of an image at its start: each processor has the one stream that runs from its entry, and the
    /// memory holds the image's cells and has its chain limit.
    ///
    /// `Streams` exactly where the image's slim is above `S`: it comes before any want of memory.
    pub fn load(alloc: Global, image: &'i Image) -> Result<Machine<'i, S>, LoadFault>
        ensures is { IfOk result (λ m. m ≡ record { image = image.entry.now; world = start image.entry.now }) }
        ensures streams { (result ≡ Err LoadFault.Streams) ↔ (S < image.entry.now.slim) }
    {
        if usize::from(image.slim()) > S {
            return Err(LoadFault::Streams);
        }
        let memory = Memory::with_chain(alloc, image.cells(), image.chain_limit())?;
        let count = image.processors();
        let mut processors = Vec::with_capacity(alloc, count)?;
        for number in 0..count {
            let processor = Processor::new(alloc, image, number)?;
            processors.push(processor)?;
        }
        Ok(Machine {
            image,
            processors,
            memory,
        })
    }

    /// One step of stream `s` of processor `p`: what the operation table says of it, and its outcome. `Skipped`, with
    /// nothing changed, where there is no such processor or no such stream runs.
    pub fn step(&mut self, p: u8, s: u8) -> Outcome
        ensures world { (self.new.world, result) ≡ world_step self.old.image self.old.world (record { p = p; s = s }) }
        ensures image { self.new.image ≡ self.old.image }
    {
        let place = p as usize;
        if place >= self.processors.len() {
            return Outcome::Skipped;
        }
        let image = self.image;
        self.processors[place].step(image, s, &mut self.memory)
    }

    /// What the next step of stream `s` of processor `p` needs: nothing to do where no such stream runs, no memory, or
    /// the reply to a request. A step that traps before it asks needs no memory.
    pub fn next(&self, p: u8, s: u8) -> Next
        ensures { result ≡ next_in self.now (record { p = p; s = s }) }
    {
        let place = p as usize;
        if place >= self.processors.len() {
            return Next::Skip;
        }
        self.processors[place].next(self.image, s)
    }

    /// Takes the steps of a schedule in order, from whatever state the machine has reached: registers, words, tags
    /// and traps are the operation table's after each step.
    pub fn run(&mut self, schedule: &[Step])
        ensures { self.new ≡ record self.old { world = steps self.old.image self.old.world schedule.now } }
    {
        for step in schedule {
            self.step(step.p, step.s);
        }
    }

    /// The stream of these numbers; None where there is no such processor, or `s` is `S` or more. From the image's
    /// slim on a stream is idle.
    pub fn stream(&self, p: u8, s: u8) -> Option<&Stream>
        ensures { option_copied result ≡ stream_of S self.now.world p s }
    {
        let place = p as usize;
        if place >= self.processors.len() {
            return None;
        }
        self.processors[place].stream(s)
    }

    /// How many streams of a processor are current and how many are reserved; None where there is no such processor.
    pub fn counts(&self, p: u8) -> Option<(u16, u16)>
        ensures is { result ≡ counts_of self.now.world p }
        ensures counts { (d : ProcessorValue) → slice_get self.now.world.processors p ≡ Some d → IsCounted d }
    {
        let place = p as usize;
        if place >= self.processors.len() {
            return None;
        }
        let processor = &self.processors[place];
        Some((processor.scur(), processor.sres()))
    }

    /// The word at a byte address; None where the address is not a multiple of 8, or past the last word.
    pub fn word(&self, address: u64) -> Option<Word>
        ensures { result ≡ cell_at self.now.world.memory address }
    {
        self.memory.word(address)
    }

    /// Where a request to the memory would end, and what it would be answered. Nothing is changed.
    pub fn ending(&self, request: &Request) -> Ending
        ensures address { result.address ≡ address_at (end_of self.now.world.memory request.now) }
        ensures reply { result.reply ≡ (answer self.now.world.memory request.now).1 }
    {
        self.memory.ending(request)
    }

    /// The image that the machine was loaded from.
    pub fn image(&self) -> &'i Image
        ensures is { result.now ≡ self.now.image }
        ensures kept { IsMachine S self.now }
    {
        self.image
    }

    /// A machine equal to this one, over the same image.
    pub fn try_clone(&self) -> Result<Machine<'i, S>, AllocError>
        ensures { IfOk result (λ m. m ≡ self.now) }
    {
        let memory = self.memory.try_clone()?;
        let alloc = *self.processors.allocator();
        let mut processors = Vec::with_capacity(alloc, self.processors.len())?;
        for processor in &self.processors {
            let same = processor.try_clone()?;
            processors.push(same)?;
        }
        Ok(Machine {
            image: self.image,
            processors,
            memory,
        })
    }
}
