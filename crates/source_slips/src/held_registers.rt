//! What a register holds at each word of a program, on every path to it.

use crate::program::ProgramWords;
use crate::registers::{KnownRegister, KnownRegisters};
use std::alloc::{AllocError, Global};

/// How often what is known at a word changes at most: it is found, and then each of its three parts may be lost.
const MOST_CHANGES: usize = 4;

/// What is known of the result of each word's arithmetic, by the words right before it.
pub(crate) fn results_of(
    alloc: Global,
    program: &ProgramWords,
) -> Result<Vec<KnownRegister>, AllocError> {
    let mut results = Vec::new(alloc);
    let mut registers = KnownRegisters::NEW;
    for place in 0..program.insns.len() {
        if program.is_beginning(place) {
            registers = KnownRegisters::NEW;
        }
        match program.insn(place) {
            Some(insn) => {
                let result = registers.result(&insn);
                results.push(result)?;
                registers.take(place, &insn, result);
            }
            None => {
                results.push(KnownRegister::NOTHING)?;
                registers = KnownRegisters::NEW;
            }
        }
    }
    Ok(results)
}

/// What is known of a register by the paths that were followed.
#[derive(Drop)]
struct HeldRegister {
    /// What is known at each word; None where no path was found.
    held: Vec<Option<KnownRegister>>,
    /// The words from which paths are still to be followed.
    left: Vec<usize>,
}

impl HeldRegister {
    /// A path comes to a word, on which so much is known.
    fn come(&mut self, place: usize, known: KnownRegister) -> Result<(), AllocError> {
        if place >= self.held.len() {
            return Ok(());
        }
        let met = match self.held[place] {
            Some(held) => held.and(known),
            None => known,
        };
        if self.held[place] != Some(met) {
            self.held[place] = Some(met);
            self.left.push(place)?;
        }
        Ok(())
    }

    /// Follows the paths from a word on, if one comes to it.
    fn follow(
        &mut self,
        program: &ProgramWords,
        results: &[KnownRegister],
        register: u8,
        place: usize,
    ) -> Result<(), AllocError> {
        let Some(before) = self.held.get(place).copied().flatten() else {
            return Ok(());
        };
        let (Some(insn), Some(result)) = (program.insn(place), results.get(place).copied()) else {
            return Ok(());
        };
        let after = before.after(register, place, &insn, result);
        if program.goes_on(place) {
            self.come(place.saturating_add(1), after)?;
        }
        if let Some(target) = program.skip_target(place) {
            self.come(target, after)?;
        }
        Ok(())
    }

    /// What is known at a word.
    fn at(&self, place: usize) -> KnownRegister {
        self.held
            .get(place)
            .copied()
            .flatten()
            .unwrap_or(KnownRegister::NOTHING)
    }
}

/// What a register holds at each word of a program on every path to it, by the results of the words' arithmetic. Nothing is
/// known where a stream begins, or comes by a target register.
pub(crate) fn held_at(
    alloc: Global,
    program: &ProgramWords,
    results: &[KnownRegister],
    register: u8,
) -> Result<Vec<KnownRegister>, AllocError> {
    let count = program.insns.len();
    let mut paths = HeldRegister {
        held: vec![in alloc; None; count]?,
        left: Vec::new(alloc),
    };
    for place in 0..count {
        if program.is_entered(place) {
            paths.come(place, KnownRegister::NOTHING)?;
        }
    }
    for _change in 0..count.saturating_mul(MOST_CHANGES) {
        if let Some(place) = paths.left.pop() {
            paths.follow(program, results, register, place)?;
        }
    }
    if !paths.left.is_empty() {
        return vec![in alloc; KnownRegister::NOTHING; count];
    }
    known_at(alloc, &paths, count)
}

/// What is known at each of so many words.
fn known_at(
    alloc: Global,
    paths: &HeldRegister,
    count: usize,
) -> Result<Vec<KnownRegister>, AllocError> {
    let mut known = Vec::new(alloc);
    for place in 0..count {
        known.push(paths.at(place))?;
    }
    Ok(known)
}
