//! A draft of a table, made by going through the program until nothing changes. Whether it is closed is found afterwards.

use super::TouchTable;
use crate::few::Few;
use crate::known_after::known_after;
use crate::named_requests::{adds, forwards_none, may_change, word_from};
use crate::rows::{KnownRow, MOST_WORDS, WordRow, known_by};
use insn_word::{Condition, ControlOp, Insn, MPart, MemoryOp, Profile, WideOp, decode_as};
use local_steps::is_calm;
use program_flow::skipped;
use std::alloc::{AllocError, Global};

/// How often a program is gone through at most.
const ROUNDS: u32 = 1000;

/// Of how many words a program has a table at most.
const MOST_PLACES: usize = 4096;

/// How many registers a stream has.
const REGISTERS: u8 = 32;

/// What is known of a place, as far as it has been found.
#[derive(Clone, Copy)]
struct DraftRow {
    is_closed: bool,
    known: KnownRow,
    touches: WordRow,
    changes: WordRow,
    uses: WordRow,
}

/// A table in the making.
#[derive(Drop)]
struct Draft<'p> {
    profile: Profile,
    program: &'p [u64],
    unread: &'p [bool],
    words: Vec<u64>,
    rows: Vec<DraftRow>,
}

impl TouchTable {
    /// A table of a program for streams that begin at `entry`; with no row where the program is too long.
    pub(super) fn draft(
        alloc: Global,
        profile: Profile,
        program: &[u64],
        entry: u32,
        unread: &[bool],
    ) -> Result<TouchTable, AllocError> {
        let mut draft = Draft::new(alloc, profile, program, unread)?;
        draft.begin_at(entry);
        for _ in 0..ROUNDS {
            if !draft.spread_known() {
                break;
            }
        }
        draft.name_words()?;
        for _ in 0..ROUNDS {
            if !draft.take_back() {
                break;
            }
        }
        draft.table(alloc)
    }
}

impl<'p> Draft<'p> {
    /// A row for each word of the program, of which nothing is known; none where the program is too long.
    fn new(
        alloc: Global,
        profile: Profile,
        program: &'p [u64],
        unread: &'p [bool],
    ) -> Result<Draft<'p>, AllocError> {
        let mut rows = Vec::new(alloc);
        if program.len() <= MOST_PLACES {
            for _ in program {
                rows.push(DraftRow {
                    is_closed: false,
                    known: [None; 32],
                    touches: [false; MOST_WORDS],
                    changes: [false; MOST_WORDS],
                    uses: [false; MOST_WORDS],
                })?;
            }
        }
        Ok(Draft {
            profile,
            program,
            unread,
            words: Vec::new(alloc),
            rows,
        })
    }

    /// The instruction at a place.
    fn instruction_at(&self, place: u32) -> Option<Insn> {
        decode_as(self.profile, *self.program.get(place as usize)?)
    }

    /// Opens the places at which streams begin: the entry, and each that a TLIT names, where a CREATE may start one.
    fn begin_at(&mut self, entry: u32) {
        self.join(entry, &[Some(Few::one(0)); 32]);
        for place in 0..self.last_place() {
            if let Some(Insn::Wide { op, imm, .. }) = self.instruction_at(place)
                && op == WideOp::TargetLiteral
            {
                self.join(imm, &child_row());
            }
        }
    }

    /// One more than the last place that has a row.
    fn last_place(&self) -> u32 {
        u32::try_from(self.rows.len()).unwrap_or(0)
    }

    /// Adds a way by which a stream comes to a place with these registers: what differs is not known there. Says whether
    /// something has changed.
    fn join(&mut self, place: u32, row: &KnownRow) -> bool {
        let Some(there) = self.rows.get_mut(place as usize) else {
            return false;
        };
        if there.is_closed {
            return join_known(&mut there.known, row);
        }
        there.is_closed = true;
        there.known = *row;
        true
    }

    /// Takes what is known at each place to those that can come next, and says whether something has changed.
    fn spread_known(&mut self) -> bool {
        let mut changed = false;
        for place in 0..self.last_place() {
            changed = self.spread_from(place) || changed;
        }
        changed
    }

    /// The same of one place.
    fn spread_from(&mut self, place: u32) -> bool {
        let (Some(row), Some(insn)) = (self.row_at(place), self.instruction_at(place)) else {
            return false;
        };
        let row_next = row_after(&row.known, &insn);
        let mut changed = false;
        for to in next_places(&insn, place) {
            if let Some(to) = to {
                changed = self.join(to, &row_next) || changed;
            }
        }
        changed
    }

    /// The row of a place, where it is closed.
    fn row_at(&self, place: u32) -> Option<DraftRow> {
        let row = self.rows.get(place as usize)?;
        if row.is_closed { Some(*row) } else { None }
    }

    /// Numbers the words that are asked for, and marks them where they are. Takes back each place of which the word is not
    /// known, or that asks for a stream.
    fn name_words(&mut self) -> Result<(), AllocError> {
        for place in 0..self.last_place() {
            self.name_word_at(place)?;
        }
        Ok(())
    }

    /// The same of one place.
    fn name_word_at(&mut self, place: u32) -> Result<(), AllocError> {
        let Some(row) = self.row_at(place) else {
            return Ok(());
        };
        let named = self.named_at(place, row)?;
        if let Some(there) = self.rows.get_mut(place as usize) {
            *there = named.unwrap_or(DraftRow {
                is_closed: false,
                ..row
            });
        }
        Ok(())
    }

    /// The row of a place with its word marked; None where that is not known, or a stream is asked for.
    fn named_at(&mut self, place: u32, row: DraftRow) -> Result<Option<DraftRow>, AllocError> {
        match self.instruction_at(place) {
            Some(insn) if is_calm(&insn) => self.named(place, row, &insn),
            Some(_) | None => Ok(None),
        }
    }

    /// The row of a place with the word marked that its instruction asks for; None where that is not known.
    fn named(
        &mut self,
        place: u32,
        row: DraftRow,
        insn: &Insn,
    ) -> Result<Option<DraftRow>, AllocError> {
        match insn {
            Insn::Normal { m, .. } if m.op != MemoryOp::Nop => self.with_word(place, row, m),
            Insn::Normal { .. } | Insn::Wide { .. } => Ok(Some(row)),
        }
    }

    /// The row with the word marked that a memory operation asks for; None where that is not known.
    fn with_word(
        &mut self,
        place: u32,
        row: DraftRow,
        m: &MPart,
    ) -> Result<Option<DraftRow>, AllocError> {
        let Some(bases) = known_by(&row.known, m.base) else {
            return Ok(None);
        };
        if !forwards_none(&row.known, m) {
            return Ok(None);
        }
        let is_used = !(adds(&row.known, m) && self.is_unread(place));
        let mut marked = row;
        for base in [bases.first, bases.second, bases.third, bases.fourth] {
            let at = self.number_of(word_from(base, m))?;
            if !mark(&mut marked, at, may_change(m), is_used) {
                return Ok(None);
            }
        }
        Ok(Some(marked))
    }

    /// Whether nobody reads what the instruction at a place loads.
    fn is_unread(&self, place: u32) -> bool {
        self.unread.get(place as usize).copied().unwrap_or(false)
    }

    /// The number of a word, a new one where it has none. There may be more words than rows have marks.
    fn number_of(&mut self, word: u64) -> Result<usize, AllocError> {
        for (at, named) in self.words.iter().enumerate() {
            if *named == word {
                return Ok(at);
            }
        }
        self.words.push(word)?;
        Ok(self.words.len() - 1)
    }

    /// Takes back each place that leads to one that is not closed, marks at each other one what is marked where it leads
    /// to, and says whether something has changed.
    fn take_back(&mut self) -> bool {
        let mut changed = false;
        for place in (0..self.last_place()).rev() {
            changed = self.take_back_at(place) || changed;
        }
        changed
    }

    /// The same of one place.
    fn take_back_at(&mut self, place: u32) -> bool {
        let (Some(row), Some(insn)) = (self.row_at(place), self.instruction_at(place)) else {
            return false;
        };
        let mut next = row;
        let mut changed = false;
        for to in next_places(&insn, place) {
            if let Some(to) = to {
                changed = self.take_from(&mut next, to) || changed;
            }
        }
        if let Some(there) = self.rows.get_mut(place as usize) {
            *there = next;
        }
        changed
    }

    /// Takes back a row where the place to which it leads is not closed, else marks what is marked there. Says whether
    /// something has changed.
    fn take_from(&self, row: &mut DraftRow, to: u32) -> bool {
        let Some(there) = self.row_at(to) else {
            row.is_closed = false;
            return true;
        };
        let is_touched = add_marks(&mut row.touches, &there.touches);
        let is_changed = add_marks(&mut row.changes, &there.changes);
        let is_used = add_marks(&mut row.uses, &there.uses);
        is_touched || is_changed || is_used
    }

    /// The table of these rows.
    fn table(self, alloc: Global) -> Result<TouchTable, AllocError> {
        let mut table = TouchTable::empty(alloc);
        for row in self.rows.iter() {
            table.closed.push(row.is_closed)?;
            table.known.push(row.known)?;
            table.touches.push(row.touches)?;
            table.changes.push(row.changes)?;
            table.uses.push(row.uses)?;
        }
        table.words = self.words;
        table.unread = self.unread.to_vec(alloc)?;
        Ok(table)
    }
}

/// What is known of a stream that CREATE starts: r1 has a value, the others have 0.
fn child_row() -> KnownRow {
    let mut row: KnownRow = [Some(Few::one(0)); 32];
    row[1] = None;
    row
}

/// Adds to what a row knows what another one does, and says whether something has changed.
fn join_known(known: &mut KnownRow, row: &KnownRow) -> bool {
    let mut changed = false;
    for (old, new) in known.iter_mut().zip(row.iter()) {
        let both = join(*old, *new);
        if both != *old {
            *old = both;
            changed = true;
        }
    }
    changed
}

/// What a register may hold by one row or another, where both know it and that is not too much.
fn join(old: Option<Few>, new: Option<Few>) -> Option<Few> {
    old?.with(new?)
}

/// Marks a word in a row, and says whether it has a mark there.
fn mark(row: &mut DraftRow, at: usize, is_changed: bool, is_used: bool) -> bool {
    let Some(touched) = row.touches.get_mut(at) else {
        return false;
    };
    *touched = true;
    if let Some(changed) = row.changes.get_mut(at) {
        *changed = is_changed;
    }
    if let Some(used) = row.uses.get_mut(at) {
        *used = is_used;
    }
    true
}

/// Marks in a row what is marked in another one, and says whether something has changed.
fn add_marks(row: &mut WordRow, other: &WordRow) -> bool {
    let mut changed = false;
    for (mark, added) in row.iter_mut().zip(other.iter()) {
        if *added && !*mark {
            *mark = true;
            changed = true;
        }
    }
    changed
}

/// What is known after an instruction.
fn row_after(row: &KnownRow, insn: &Insn) -> KnownRow {
    let mut after = *row;
    for register in 0..REGISTERS {
        if let Some(known) = after.get_mut(usize::from(register)) {
            *known = known_after(row, insn, register);
        }
    }
    after
}

/// The places to which an instruction leads, as far as the program alone shows: none for JUMP, CALL and XCHG.
fn next_places(insn: &Insn, place: u32) -> [Option<u32>; 2] {
    let next = Some(place.wrapping_add(1));
    match insn {
        Insn::Wide { .. } => [next, None],
        Insn::Normal { c, .. } => match c.op {
            ControlOp::Jump
            | ControlOp::Call
            | ControlOp::Exchange
            | ControlOp::Quit
            | ControlOp::QuitKeep => [None, None],
            ControlOp::Skip => {
                let passed = if c.cond == Condition::Always {
                    None
                } else {
                    next
                };
                [passed, Some(skipped(place, c.n))]
            }
            ControlOp::Nop
            | ControlOp::TargetSet
            | ControlOp::TargetGet
            | ControlOp::TrapGet
            | ControlOp::Reserve
            | ControlOp::Create
            | ControlOp::Mask => [next, None],
        },
    }
}
