//! The steps that a value comes from, in words.

use crate::named_locations::put_location;
use image_file::Image;
use image_machines::loaded;
use lab_texts::{Columns, Notation, RunPieces, TextWriter, put_step_line, put_word};
use machine::Machine;
use processor::Step;
use std::alloc::{AllocError, Global};
use step_views::take_step;
use value_origins::{Location, Starts, chain_of};
use whole_runs::run_actions;

/// How many links of a chain are shown at most.
const MOST_LINKS: usize = 40;

/// Why a location holds what it holds after some steps of a run.
#[derive(Drop)]
pub struct Reason {
    location: Location,
    /// The steps that its value comes from, from 0, the oldest first.
    steps: Vec<usize>,
    /// Whether these are all.
    is_whole: bool,
}

impl Reason {
    /// That of a location after these steps of an image's run.
    pub fn of<const S: usize>(
        alloc: Global,
        image: &Image,
        steps: &[Step],
        location: Location,
    ) -> Result<Reason, AllocError> {
        let mut machine = loaded::<S>(alloc, image)?;
        let actions = run_actions(alloc, &mut machine, steps)?;
        let starts = Starts::of(alloc, &actions)?;
        let chain = chain_of(
            alloc,
            &actions,
            &starts,
            location,
            actions.len(),
            MOST_LINKS,
        )?;
        let mut found = Vec::new(alloc);
        for link in chain.links.iter().rev() {
            if found.last() != Some(&link.step) {
                found.push(link.step)?;
            }
        }
        Ok(Reason {
            location,
            steps: found,
            is_whole: chain.is_whole,
        })
    }

    /// Whether no step wrote the location.
    pub fn is_unwritten(&self) -> bool {
        self.steps.is_empty()
    }

    /// Adds what the location holds in the world of a machine, and that the steps follow, or that there is none.
    pub fn put_head<const S: usize>(
        &self,
        out: &mut TextWriter,
        notation: Notation<'_, '_>,
        machine: &Machine<'_, S>,
    ) {
        put_location(out, notation.names, self.location);
        out.put(" is ");
        put_held(out, notation, machine, self.location);
        out.put(if self.is_unwritten() {
            ": no step wrote it\n"
        } else if self.is_whole {
            ": from these steps\n"
        } else {
            ": from these steps, and from earlier ones\n"
        });
    }

    /// Adds the lines of the steps, which are of this run.
    pub fn put_steps<const S: usize>(
        &self,
        alloc: Global,
        out: &mut TextWriter,
        notation: Notation<'_, '_>,
        columns: Columns,
        image: &Image,
        steps: &[Step],
    ) -> Result<(), AllocError> {
        let mut machine = loaded::<S>(alloc, image)?;
        let mut place: usize = 0;
        for (index, step) in steps.iter().enumerate() {
            if self.steps.get(place) == Some(&index) {
                let view = take_step(alloc, &mut machine, *step)?;
                let number = index.saturating_add(1);
                put_step_line(out, notation, columns, number, &view, &machine);
                place = place.saturating_add(1);
            } else {
                let _ = machine.step(step.p, step.s);
            }
        }
        Ok(())
    }
}

/// Adds what a location holds.
fn put_held<const S: usize>(
    out: &mut TextWriter,
    notation: Notation<'_, '_>,
    machine: &Machine<'_, S>,
    location: Location,
) {
    match location {
        Location::Register { stream, register } => {
            let value = match machine.stream(stream.p, stream.s) {
                Some(stream) => stream.reg(register).unwrap_or(0),
                None => 0,
            };
            out.put_value(notation.style, value);
        }
        Location::Target { stream, target } => {
            let value = match machine.stream(stream.p, stream.s) {
                Some(stream) => stream.target(target).map_or(0, |word| word.bits()),
                None => 0,
            };
            out.put_value(notation.style, value);
        }
        Location::Word { address } => {
            if let Some(word) = machine.word(address) {
                put_word(out, notation.style, word);
            }
        }
    }
}
