//! Whether a table is closed: what it says of a place is so wherever a stream goes on from there.

ghost use Rattle.std.specs.Prelude.{◌≡◌, ◌⊎◌, ◌/◌, ◌<◌, ℕ, true, Some, IsTrue, slice_get};
ghost use Rattle.insn_word.specs.declared.insn.Insn.{Insn};
ghost use Rattle.tag_memory.specs.Address.{address_of};
ghost use Rattle.tag_memory.specs.declared.requests.Request.{Request};
ghost use Rattle.stream_core.specs.Registers.{register_at};
ghost use Rattle.stream_core.specs.Streams.{StreamValue};
ghost use Rattle.stream_core.specs.Effects.{next_pc, request_by, request_of};
ghost use Rattle.stream_core.specs.StreamRow.{fetch_word};
ghost use Rattle.stream_core.specs.declared.steps.Fetch.TheVariants as fetch;
ghost use Rattle.program_flow.specs.Agreement.{registers_over};
ghost use Rattle.program_flow.specs.Flow.{GoesTo};
ghost use Rattle.touched_words.specs.declared.few.Few.{Few as AnyFew};
ghost use Rattle.touched_words.specs.TouchTables.{known_at, IsOneOf, IsKnownWithin, HoldsKnown};
ghost use Rattle.touched_words.specs.ClosedTables.{is_quiet_add, IsMarkedWord, IsNamed, LeadsOn, IsClosedAt, IsClosedTable};

use super::TouchTable;
use crate::few::Few;
use crate::known_after::known_after;
use crate::named_requests::{adds, forwards_none, may_change, word_from};
use crate::rows::{are_among, is_closed, is_marked, known_at, known_by, marks_at};
use insn_word::{Condition, ControlOp, Insn, MPart, MemoryOp, Profile, decode_as};
use local_steps::is_calm;
use program_flow::skipped;

impl TouchTable {
    /// Whether at each closed place an instruction stands that leads to closed places alone.
    pub(super) fn is_closed(&self, profile: Profile, program: &[u64]) -> bool
        ensures { IsTrue result → IsClosedTable profile program.now self.now }
    {
        for place in 0..self.closed.len() {
            let Ok(place) = u32::try_from(place) else {
                return false;
            };
            if is_closed(&self.closed, place) && !self.is_closed_place(profile, program, place) {
                return false;
            }
        }
        true
    }

    /// Whether such an instruction stands at a place.
    fn is_closed_place(&self, profile: Profile, program: &[u64], place: u32) -> bool
        ensures { IsTrue result → (i : Insn)
            × ((fetch_word profile (slice_get program.now place) ≡ fetch.Instruction i) × IsClosedAt self.now place i) }
    {
        match program.get(place as usize) {
            None => false,
            Some(word) => match decode_as(profile, *word) {
                None => false,
                Some(insn) => self.is_closed_at(place, &insn),
            },
        }
    }

    /// Whether an instruction at a place is calm, asks for words that are marked there, and leads on.
    fn is_closed_at(&self, place: u32, insn: &Insn) -> bool
        ensures { IsTrue result → IsClosedAt self.now place insn.now }
    {
        is_calm(insn) && self.names_request(place, insn) && self.leads_on(place, insn)
    }

    /// Whether the word that an instruction at a place asks for is marked there, if it asks for one.
    fn names_request(&self, place: u32, insn: &Insn) -> bool
        ensures { IsTrue result → (s : StreamValue) (q : Request)
            → HoldsKnown (known_at self.now.known place) s.registers → request_of s insn.now ≡ Some q
            → IsNamed self.now place q }
    {
        match insn {
            Insn::Wide { .. } => true,
            Insn::Normal { m, .. } => match m.op {
                MemoryOp::Nop => true,
                MemoryOp::Load
                | MemoryOp::Store
                | MemoryOp::FetchAdd
                | MemoryOp::TagGet
                | MemoryOp::TagSet
                | MemoryOp::Purge => self.names_word(place, m),
            },
        }
    }

    /// Whether the word that a memory operation at a place asks for is marked there.
    fn names_word(&self, place: u32, m: &MPart) -> bool
        ensures { IsTrue result → (s : StreamValue) (q : Request)
            → HoldsKnown (known_at self.now.known place) s.registers → request_by s m.now m.now.op ≡ Some q
            → IsNamed self.now place q }
    {
        let row = known_at(&self.known, place);
        let Some(bases) = known_by(row, m.base) else {
            return false;
        };
        let is_quiet = self.adds_quietly(place, row, m);
        forwards_none(row, m) && self.names_words(place, m, bases, may_change(m), is_quiet)
    }

    /// Whether each word that a memory operation at a place asks for from one of these bases is marked there.
    fn names_words(
        &self,
        place: u32,
        m: &MPart,
        bases: Few,
        is_changed: bool,
        is_quiet: bool,
    ) -> bool
        ensures { IsTrue result → (s : StreamValue) (q : Request) → IsOneOf bases (register_at s.registers m.now.base)
            → request_by s m.now m.now.op ≡ Some q
            → IsMarkedWord self.now place (address_of q.pointer / 8) is_changed is_quiet }
    {
        self.names_from(place, m, bases.first, is_changed, is_quiet)
            && self.names_from(place, m, bases.second, is_changed, is_quiet)
            && self.names_from(place, m, bases.third, is_changed, is_quiet)
            && self.names_from(place, m, bases.fourth, is_changed, is_quiet)
    }

    /// The same of one base.
    fn names_from(&self, place: u32, m: &MPart, base: u64, is_changed: bool, is_quiet: bool) -> bool
        ensures { IsTrue result → (s : StreamValue) (q : Request) → register_at s.registers m.now.base ≡ base
            → request_by s m.now m.now.op ≡ Some q
            → IsMarkedWord self.now place (address_of q.pointer / 8) is_changed is_quiet }
    {
        self.marks_word(place, word_from(base, m), is_changed, is_quiet)
    }

    /// Whether a memory operation at a place is an add that loads what nobody reads.
    fn adds_quietly(&self, place: u32, row: &[Option<Few>], m: &MPart) -> bool
        ensures { IsTrue result → (s : StreamValue) (q : Request) → HoldsKnown row.now s.registers
            → request_by s m.now m.now.op ≡ Some q → is_quiet_add self.now place q ≡ true }
    {
        adds(row, m) && self.is_unread(place)
    }

    /// Whether a word is marked at a place, marked as changed where that is asked, and marked as used unless it is added
    /// to quietly.
    fn marks_word(&self, place: u32, word: u64, is_changed: bool, is_quiet: bool) -> bool
        ensures { IsTrue result → IsMarkedWord self.now place word is_changed is_quiet }
    {
        let touches = marks_at(&self.touches, place);
        let changes = marks_at(&self.changes, place);
        let uses = marks_at(&self.uses, place);
        for (at, named) in self.words.iter().enumerate() {
            if *named == word
                && is_marked(touches, at)
                && (!is_changed || is_marked(changes, at))
                && (is_quiet || is_marked(uses, at))
            {
                return true;
            }
        }
        false
    }

    /// Whether an instruction at a place leads to closed places alone, of which the table says no more than it may.
    fn leads_on(&self, place: u32, insn: &Insn) -> bool
        ensures { IsTrue result → (j : ℕ) → GoesTo insn.now place j → LeadsOn self.now insn.now place j }
    {
        let next = place.wrapping_add(1);
        match insn {
            Insn::Wide { .. } => self.leads_to(place, insn, next),
            Insn::Normal { c, .. } => match c.op {
                ControlOp::Jump | ControlOp::Call | ControlOp::Exchange => false,
                ControlOp::Skip => {
                    self.leads_past(place, insn, c.cond)
                        && self.leads_to(place, insn, skipped(place, c.n))
                }
                ControlOp::Quit | ControlOp::QuitKeep => true,
                ControlOp::Nop
                | ControlOp::TargetSet
                | ControlOp::TargetGet
                | ControlOp::TrapGet
                | ControlOp::Reserve
                | ControlOp::Create
                | ControlOp::Mask => self.leads_to(place, insn, next),
            },
        }
    }

    /// Whether a SKIP with this condition leads on where it does not skip, or always skips.
    fn leads_past(&self, place: u32, insn: &Insn, cond: Condition) -> bool
        ensures { IsTrue result → (cond ≡ Condition.Always) ⊎ LeadsOn self.now insn.now place (next_pc place) }
    {
        cond == Condition::Always || self.leads_to(place, insn, place.wrapping_add(1))
    }

    /// Whether a place is closed, and what the table says of it is so after an instruction at another place.
    fn leads_to(&self, place: u32, insn: &Insn, to: u32) -> bool
        ensures { IsTrue result → LeadsOn self.now insn.now place to }
    {
        is_closed(&self.closed, to)
            && covers_known(
                known_at(&self.known, place),
                insn,
                known_at(&self.known, to),
            )
            && are_among(marks_at(&self.touches, to), marks_at(&self.touches, place))
            && are_among(marks_at(&self.changes, to), marks_at(&self.changes, place))
            && are_among(marks_at(&self.uses, to), marks_at(&self.uses, place))
    }
}

/// Whether registers hold what one row knows, after an instruction before which they hold what another one knows.
fn covers_known(row: &[Option<Few>], insn: &Insn, to: &[Option<Few>]) -> bool
    ensures { IsTrue result → (s : StreamValue) (value grant : ℕ) → HoldsKnown row.now s.registers
        → HoldsKnown to.now (registers_over s insn.now value grant s.registers) }
{
    for (register, known) in to.iter().enumerate() {
        if register >= REGISTERS {
            return false;
        }
        if !covers_register(row, insn, register as u8, *known) {
            return false;
        }
    }
    true
}

/// The same of one register, of which this is to be known.
fn covers_register(row: &[Option<Few>], insn: &Insn, register: u8, known: Option<Few>) -> bool
    requires { register < 32 }
    ensures { IsTrue result → (few : AnyFew) → known ≡ Some few → (s : StreamValue) (value grant : ℕ)
        → HoldsKnown row.now s.registers
        → IsOneOf few (register_at (registers_over s insn.now value grant s.registers) register) }
{
    match known {
        None => true,
        Some(few) => is_within(known_after(row, insn, register), few),
    }
}

/// Whether some of these numbers are known to be what a register holds, and no others.
fn is_within(known: Option<Few>, all: Few) -> bool
    ensures { IsTrue result → IsKnownWithin known all }
{
    match known {
        None => false,
        Some(few) => few.is_among(all),
    }
}

/// How many registers a stream has.
const REGISTERS: usize = 32;
