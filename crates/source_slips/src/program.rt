//! A program as its slips are looked for.

use image_file::Image;
use insn_word::{Condition, ControlOp, Insn, WideOp, decode_as};
use reachable_places::reachable_places;
use std::alloc::{AllocError, Global};

/// The words of a program, and which of them streams may come to.
#[derive(Drop)]
pub(crate) struct ProgramWords {
    /// What each word spells; None for no instruction.
    pub(crate) insns: Vec<Option<Insn>>,
    /// Whether a way leads to each word.
    pub(crate) reached: Vec<bool>,
    /// Whether streams may come to each word otherwise than from the word before it.
    begins: Vec<bool>,
    /// Whether they may do so otherwise than by a SKIP too.
    enters: Vec<bool>,
    /// The entries of the processors.
    pub(crate) entries: Vec<u32>,
    /// Whether a stream may go on at any word, with any codes: by a trap handler (also one that the
    /// program sets in t0), XCHG or TSET.
    pub(crate) goes_anywhere: bool,
}

impl ProgramWords {
    /// Of an image.
    pub(crate) fn of(alloc: Global, image: &Image) -> Result<ProgramWords, AllocError> {
        let mut insns = Vec::new(alloc);
        for word in image.program().iter() {
            insns.push(decode_as(image.profile(), *word))?;
        }
        let mut entries = Vec::new(alloc);
        for processor in 0..image.processors() {
            entries.push(image.entry(processor).unwrap_or(0))?;
        }
        let has_handler = (image.trap_entry() as usize) < insns.len();
        let goes_anywhere = has_handler || insns.iter().any(|insn| sets_status(*insn));
        let mut program = ProgramWords {
            reached: reachable_places(alloc, image)?,
            begins: vec![in alloc; goes_anywhere; insns.len()]?,
            enters: vec![in alloc; goes_anywhere; insns.len()]?,
            insns,
            entries,
            goes_anywhere,
        };
        program.mark_beginnings();
        Ok(program)
    }

    /// What a word spells.
    pub(crate) fn insn(&self, place: usize) -> Option<Insn> {
        self.insns.get(place).copied().flatten()
    }

    /// Whether a way leads to a word.
    pub(crate) fn is_reached(&self, place: usize) -> bool {
        self.reached.get(place).copied().unwrap_or(false)
    }

    /// Whether streams may come to a word otherwise than from the word before it.
    pub(crate) fn is_beginning(&self, place: usize) -> bool {
        self.begins.get(place).copied().unwrap_or(true)
    }

    /// Whether streams may come to a word otherwise than from the word before it and by a SKIP.
    pub(crate) fn is_entered(&self, place: usize) -> bool {
        self.enters.get(place).copied().unwrap_or(true)
    }

    /// The word to which a SKIP at a place leads; None where there is none, or where it leads before the program.
    pub(crate) fn skip_target(&self, place: usize) -> Option<usize> {
        match self.insn(place)? {
            Insn::Normal { c, .. } if c.op == ControlOp::Skip => {
                place.saturating_add(1).checked_add_signed(isize::from(c.n))
            }
            _ => None,
        }
    }

    /// Whether a stream may go on from a word to the next one, without a jump.
    pub(crate) fn goes_on(&self, place: usize) -> bool {
        match self.insn(place) {
            None => false,
            Some(Insn::Wide { .. }) => true,
            Some(Insn::Normal { c, .. }) => match c.op {
                ControlOp::Jump | ControlOp::Skip => c.cond != Condition::Always,
                ControlOp::Call | ControlOp::Exchange | ControlOp::Quit | ControlOp::QuitKeep =>
                    false,
                ControlOp::Nop
                | ControlOp::TargetSet
                | ControlOp::TargetGet
                | ControlOp::TrapGet
                | ControlOp::Reserve
                | ControlOp::Create
                | ControlOp::Mask => true,
            },
        }
    }

    /// The word that a TLIT at a place names.
    pub(crate) fn target(&self, place: usize) -> Option<usize> {
        match self.insn(place)? {
            Insn::Wide { op, imm, .. } if op == WideOp::TargetLiteral => Some(imm as usize),
            _ => None,
        }
    }

    /// Whether a word is a CALL, whose next word is where its routine comes back.
    pub(crate) fn is_call(&self, place: usize) -> bool {
        match self.insn(place) {
            Some(Insn::Normal { c, .. }) => c.op == ControlOp::Call,
            _ => false,
        }
    }

    /// Whether a stream goes on, or starts, where a target register leads.
    pub(crate) fn goes_by_target(&self, place: usize) -> bool {
        match self.insn(place) {
            Some(Insn::Normal { c, .. }) => match c.op {
                ControlOp::Jump | ControlOp::Call | ControlOp::Create => true,
                _ => false,
            },
            _ => false,
        }
    }

    fn mark_beginnings(&mut self) {
        self.enter(0);
        for place in 0..self.insns.len() {
            if let Some(target) = self.skip_target(place) {
                self.begin(target);
            }
            if let Some(target) = self.target(place) {
                self.enter(target);
            }
            if self.is_call(place) {
                self.enter(place.saturating_add(1));
            }
        }
        for processor in 0..self.entries.len() {
            let entry = self.entries.get(processor).copied().unwrap_or(0);
            self.enter(entry as usize);
        }
    }

    fn begin(&mut self, place: usize) {
        if place < self.begins.len() {
            self.begins[place] = true;
        }
    }

    fn enter(&mut self, place: usize) {
        self.begin(place);
        if place < self.enters.len() {
            self.enters[place] = true;
        }
    }
}

/// Whether an instruction may set all of a status word, or t0, to which traps lead.
fn sets_status(insn: Option<Insn>) -> bool {
    match insn {
        Some(Insn::Wide { op, reg, .. }) => op == WideOp::TargetLiteral && reg == 0,
        Some(Insn::Normal { c, .. }) => match c.op {
            ControlOp::Exchange | ControlOp::TargetSet => true,
            ControlOp::Call => c.u == 0,
            _ => false,
        },
        None => false,
    }
}
