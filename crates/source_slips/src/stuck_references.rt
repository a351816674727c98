//! References that wait for what comes only after such waits: a lock that begins empty, and that each stream takes first.

use crate::full_bit_changes::FullBitChanges;
use crate::program::ProgramWords;
use crate::references::ProgramReference;
use image_file::Image;
use std::alloc::{AllocError, Global};

/// How often the program is gone through at most.
const MOST_ROUNDS: usize = 64;

/// The words of a program that streams come to, if none passes a reference that waits.
#[derive(Drop)]
struct WaitingProgram {
    /// Whether a reference that waits stands at each word.
    waits: Vec<bool>,
    /// Whether streams come to each word.
    reached: Vec<bool>,
    /// The words from which streams are still to be followed.
    left: Vec<usize>,
    /// The words to which they set target registers.
    aims: Vec<usize>,
    /// Whether they go to target registers.
    goes_to_aims: bool,
}

impl WaitingProgram {
    /// Streams come to a word.
    fn reach(&mut self, place: usize) -> Result<(), AllocError> {
        if place < self.reached.len() && !self.reached[place] {
            self.reached[place] = true;
            self.left.push(place)?;
        }
        Ok(())
    }

    /// A target register is set to a word.
    fn aim(&mut self, place: usize) -> Result<(), AllocError> {
        self.aims.push(place)?;
        if self.goes_to_aims {
            self.reach(place)?;
        }
        Ok(())
    }

    /// Streams go to target registers, or start there. One that nothing has set leads to the first word.
    fn go_to_aims(&mut self) -> Result<(), AllocError> {
        if self.goes_to_aims {
            return Ok(());
        }
        self.goes_to_aims = true;
        self.reach(0)?;
        for number in 0..self.aims.len() {
            if let Some(place) = self.aims.get(number).copied() {
                self.reach(place)?;
            }
        }
        Ok(())
    }

    /// Streams go on from a word: to the next one, where its SKIP leads, and where target registers may lead.
    fn follow(&mut self, program: &ProgramWords, place: usize) -> Result<(), AllocError> {
        let next = place.saturating_add(1);
        if program.goes_on(place) {
            self.reach(next)?;
        }
        if let Some(target) = program.skip_target(place) {
            self.reach(target)?;
        }
        if let Some(target) = program.target(place) {
            self.aim(target)?;
        }
        if program.is_call(place) {
            self.aim(next)?;
        }
        if program.goes_by_target(place) {
            self.go_to_aims()?;
        }
        Ok(())
    }

    /// Follows all streams from where the processors begin.
    fn follow_all(&mut self, program: &ProgramWords) -> Result<(), AllocError> {
        self.reached.fill(false);
        self.aims.clear();
        self.goes_to_aims = false;
        for entry in program.entries.iter() {
            self.reach(*entry as usize)?;
        }
        // (each word is left to be followed once)
        for _word in 0..self.reached.len() {
            let Some(place) = self.left.pop() else {
                return Ok(());
            };
            if !self.waits_at(place) {
                self.follow(program, place)?;
            }
        }
        Ok(())
    }

    fn waits_at(&self, place: usize) -> bool {
        self.waits.get(place).copied().unwrap_or(false)
    }

    fn is_reached(&self, place: usize) -> bool {
        self.reached.get(place).copied().unwrap_or(true)
    }

    /// A reference at a word waits, or does not.
    fn set(&mut self, place: usize, waits: bool) {
        if place < self.waits.len() {
            self.waits[place] = waits;
        }
    }
}

/// For each word of a program whether a stream that comes to its reference waits there forever. The reference's word begins
/// full, and it waits for an empty one, or the other way round; and no stream turns the word before one of these waits
/// ends. None is found where streams may go on anywhere. The words have no other tags, and no TAGSET sets any.
pub(crate) fn stuck_references(
    alloc: Global,
    image: &Image,
    program: &ProgramWords,
    references: &[ProgramReference],
) -> Result<Vec<bool>, AllocError> {
    let count = program.insns.len();
    if program.goes_anywhere {
        return vec![in alloc; false; count];
    }
    let mut waiting = WaitingProgram {
        waits: vec![in alloc; false; count]?,
        reached: vec![in alloc; false; count]?,
        left: Vec::new(alloc),
        aims: Vec::new(alloc),
        goes_to_aims: false,
    };
    for reference in references {
        let waits = awaited(image, reference).is_some();
        waiting.set(reference.place, waits);
    }
    for _round in 0..MOST_ROUNDS {
        waiting.follow_all(program)?;
        if !free_turned(alloc, image, &mut waiting, references)? {
            return reached_waits(alloc, &waiting);
        }
    }
    vec![in alloc; false; count]
}

/// The data word for which a reference waits as long as that is as it begins; None where it does not wait then.
fn awaited(image: &Image, reference: &ProgramReference) -> Option<usize> {
    let cells = image.cells();
    let cell = reference.cell(cells.len())?;
    let is_full = cells.get(cell)?.is_full();
    if reference.waits_for() == Some(!is_full) {
        Some(cell)
    } else {
        None
    }
}

/// Lets each reference pass whose word a stream may turn that no wait holds; whether there is one.
fn free_turned(
    alloc: Global,
    image: &Image,
    waiting: &mut WaitingProgram,
    references: &[ProgramReference],
) -> Result<bool, AllocError> {
    let mut passed = Vec::new(alloc);
    for reference in references {
        if waiting.is_reached(reference.place) && !waiting.waits_at(reference.place) {
            passed.push(*reference)?;
        }
    }
    let turns = FullBitChanges::of(alloc, &passed, image.cells().len())?;
    let mut is_freed = false;
    for reference in references {
        if !waiting.waits_at(reference.place) {
            continue;
        }
        if let Some(cell) = awaited(image, reference) {
            if turns.may_turn(cell, reference.waits_for() == Some(false)) {
                waiting.set(reference.place, false);
                is_freed = true;
            }
        }
    }
    Ok(is_freed)
}

/// The words at which streams wait.
fn reached_waits(alloc: Global, waiting: &WaitingProgram) -> Result<Vec<bool>, AllocError> {
    let mut waits = Vec::new(alloc);
    for place in 0..waiting.waits.len() {
        waits.push(waiting.waits_at(place) && waiting.is_reached(place))?;
    }
    Ok(waits)
}
