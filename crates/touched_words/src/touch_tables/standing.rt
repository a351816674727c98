//! Whether a stream stands at a closed place, and whether a request meets those of streams that stand at one.

ghost use Rattle.std.specs.Prelude.{◌≡◌, ◌⊎◌, true, false, IsTrue};
ghost use Rattle.stream_core.specs.Registers.{register_at, target_at};
ghost use Rattle.stream_core.specs.Streams.{no_handler};
ghost use Rattle.touched_words.specs.TouchTables.{is_marked, is_unread_at, IsOneOf, HoldsKnown};
ghost use Rattle.touched_words.specs.Standing.{IsStanding, IsPassedFrom};

use super::TouchTable;
use crate::few::Few;
use crate::rows::{is_closed, is_marked, known_at, marks_at};
use stream_core::Stream;
use tag_memory::Request;

/// The pc that names no trap handler.
const NO_HANDLER: u32 = u32::MAX;

/// How many bytes a word has.
const WORD_BYTES: u64 = 8;

/// The last register of a stream.
const LAST_REGISTER: u8 = 31;

impl TouchTable {
    /// Whether a stream stands at a closed place, holds what is known there, and has no handler for traps.
    pub fn is_standing(&self, stream: &Stream) -> bool
        ensures { IsTrue result → IsStanding self.now stream.now }
    {
        let place = stream.ssw().pc;
        is_closed(&self.closed, place)
            && holds_known(known_at(&self.known, place), stream)
            && has_no_handler(stream)
    }

    /// Whether nobody reads what the instruction at a place loads.
    pub fn is_unread(&self, place: u32) -> bool
        ensures { result ≡ is_unread_at self.now place }
    {
        match self.unread.get(place as usize) {
            Some(is_unread) => *is_unread,
            None => false,
        }
    }

    /// Whether a request meets none of those that a stream may make from a place on: each of them is of another word, or
    /// both only read, or both only add and load what nobody reads. `is_quiet` says whether the request is such an add.
    pub fn is_passed(&self, place: u32, request: &Request, is_quiet: bool) -> bool
        ensures { IsTrue result → IsPassedFrom self.now place is_quiet request.now }
    {
        let touches = marks_at(&self.touches, place);
        let changes = marks_at(&self.changes, place);
        let uses = marks_at(&self.uses, place);
        let asked = request.pointer.address() / WORD_BYTES;
        let is_changing = request.may_change();
        for (at, word) in self.words.iter().enumerate() {
            if *word == asked
                && is_marked(touches, at)
                && !is_shared(changes, uses, at, is_changing, is_quiet)
            {
                return false;
            }
        }
        true
    }
}

/// Whether a word and a request of it are only read, by marks of what may be changed; or only added to quietly, by marks of
/// what is used.
fn is_shared(
    changes: &[bool],
    uses: &[bool],
    word: usize,
    is_changing: bool,
    is_quiet: bool,
) -> bool
    ensures { IsTrue result → ((is_changing ≡ false) × (is_marked changes.now word ≡ false))
        ⊎ ((is_quiet ≡ true) × (is_marked uses.now word ≡ false)) }
{
    (!is_changing && !is_marked(changes, word)) || (is_quiet && !is_marked(uses, word))
}

/// Whether the registers of a stream hold what is known by a row.
fn holds_known(row: &[Option<Few>], stream: &Stream) -> bool
    ensures { IsTrue result → HoldsKnown row.now stream.now.registers }
{
    if stream.reg(LAST_REGISTER).is_none() || stream.reg(LAST_REGISTER + 1).is_some() {
        return false;
    }
    for (register, known) in row.iter().enumerate() {
        let Ok(register) = u8::try_from(register) else {
            return false;
        };
        if let Some(few) = known
            && !holds_one(stream, register, *few)
        {
            return false;
        }
    }
    true
}

/// Whether a register of a stream holds one of these numbers.
fn holds_one(stream: &Stream, register: u8, few: Few) -> bool
    ensures { IsTrue result → IsOneOf few (register_at stream.now.registers register) }
{
    match stream.reg(register) {
        None => false,
        Some(number) => few.has(number),
    }
}

/// Whether t0 of a stream names no handler.
fn has_no_handler(stream: &Stream) -> bool
    ensures { IsTrue result → (target_at stream.now.targets 0).pc ≡ no_handler }
{
    match stream.target(0) {
        Some(handler) => handler.pc == NO_HANDLER,
        None => false,
    }
}
