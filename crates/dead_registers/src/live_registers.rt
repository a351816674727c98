//! What is live in the programs of images, and what streams hold there.

ghost use Rattle.std.specs.Prelude.{◌≡◌, ◌<◌, ◌++◌, ℕ, true, IsTrue, List, [], IfOk, slice_index_or, if◌then◌else◌};
ghost use Rattle.stream_core.specs.Registers.{register_at};
ghost use Rattle.stream_core.specs.StatusWords.{no_code};
ghost use Rattle.processor.specs.Processors.{is_idle};
ghost use Rattle.processor.specs.Records.{is_running};
ghost use Rattle.processor.specs.World.{run, stream_of};
ghost use Rattle.processor.specs.declared.steps.Step.{Step};
ghost use Rattle.program_flow.specs.Tables.{is_live_by, is_live_at, is_named_by, is_asked_at, HasCodesOf};
ghost use Rattle.same_futures.specs.Agreeing.{EndAlike};
ghost use Rattle.dead_registers.specs.Clearing.{matters, kept_registers, kept_codes, cleared_stream};
ghost use Rattle.dead_registers.specs.Clearing.{cleared, cleared_steps, registers_seen};
ghost use Rattle.dead_registers.specs.Clearing.{IsLive, AgreeBy};

use image_file::Image;
use machine::Machine;
use program_flow::{CodeRow, Row, code_table, live_table};
use same_futures::may_have_handlers;
use std::alloc::{AllocError, Global};
use std::marker::Model;
use stream_core::{Code, Codes, Status, StatusWord, Stream};

/// Which registers are live at each word of an image's program: they may be read from there on, before they are written.
/// Those that are named matter all the same, since somebody else looks at them. And which condition codes may be asked for
/// from each word on.
#[derive(Drop)]
pub struct LiveRegisters {
    names: Row,
    table: Vec<Row>,
    codes: Vec<CodeRow>,
}

impl Model for LiveRegisters {
    ghost use Rattle.dead_registers.specs.Clearing.{LiveValue};

    ghost Value = { LiveValue };

    ghost view = { λ l. record { names = l.names; table = l.table.items; codes = l.codes.items } };
}

impl LiveRegisters {
    /// What is live in the program of an image, with the registers that `names` says; where it says all, all condition
    /// codes matter too.
    ///
    /// Where each world is cleared, so that its streams hold 0 in all registers and codes that do not matter, each schedule that
    /// begins with `begin` comes to a world that agrees with the one without that, and ends alike. An error where memory
    /// is refused.
    pub fn of(alloc: Global, image: &Image, names: &Row) -> Result<LiveRegisters, AllocError>
        ensures names { IfOk result (λ l. l.names ≡ names.now) }
        ensures live { IfOk result (λ l. IsLive image.now l) }
        ensures agree { IfOk result (λ l. (begin ts : List Step) → AgreeBy l (run image.now (begin ++ ts))
            (cleared_steps l image.now (run image.now begin) ts)) }
        ensures ends { IfOk result (λ l. (begin ts : List Step) → EndAlike image.now (run image.now (begin ++ ts))
            (cleared_steps l image.now (run image.now begin) ts)) }
    {
        let handled = may_have_handlers(image);
        let table = live_table(alloc, image.profile(), image.program(), handled, names)?;
        let codes = codes_of(alloc, image, handled, names)?;
        Ok(LiveRegisters {
            names: *names,
            table,
            codes,
        })
    }

    /// The registers of stream `s` of processor `p` in the cleared world of a machine. None where there is no such stream.
    pub fn registers_of<const S: usize>(
        &self,
        machine: &Machine<'_, S>,
        p: u8,
        s: u8,
    ) -> Option<[u64; 32]>
        ensures { result ≡ registers_seen (stream_of S (cleared self.now machine.now.world) p s) }
    {
        let stream = machine.stream(p, s)?;
        Some(self.registers(stream))
    }

    /// The registers of a stream, where it is not idle with 0 in place of each that does not matter.
    pub fn registers(&self, stream: &Stream) -> [u64; 32]
        ensures { result ≡ kept_registers self.now stream.now }
    {
        // their clauses say that these are all
        let _ends = (stream.reg(31), stream.reg(32));
        let mut registers = [0; 32];
        for register in 0..32u8 {
            registers[usize::from(register)] = self.register(stream, register);
        }
        registers
    }

    /// One of them.
    fn register(&self, stream: &Stream, register: u8) -> u64
        ensures { result ≡ register_at (kept_registers self.now stream.now) register }
    {
        if !is_idle(stream) && !self.matters(stream, register) {
            return 0;
        }
        stream.reg(register).unwrap_or(0)
    }

    /// Whether a register of a stream matters: it is named, or the stream runs and the register is live at its pc.
    pub fn matters(&self, stream: &Stream, register: u8) -> bool
        ensures { result ≡ matters self.now stream.now register }
    {
        self.is_named(register) || is_running(stream) && self.is_live(stream.ssw().pc, register)
    }

    /// The status word of a stream, where it is not idle without the condition codes that do not matter.
    pub fn status_word(&self, stream: &Stream) -> StatusWord
        ensures { result ≡ (cleared_stream self.now stream.now).ssw }
    {
        let mut word = stream.ssw();
        word.codes = self.codes(stream);
        word
    }

    /// The condition codes of a stream, where it is not idle without those that do not matter.
    fn codes(&self, stream: &Stream) -> Codes
        ensures { result ≡ kept_codes self.now stream.now }
    {
        let word = stream.ssw();
        if is_idle(stream) {
            return word.codes;
        }
        let row = self.code_row(word.pc);
        Codes {
            newest: kept_code(row, 0, word.codes.newest),
            second: kept_code(row, 1, word.codes.second),
            third: kept_code(row, 2, word.codes.third),
            oldest: kept_code(row, 3, word.codes.oldest),
        }
    }

    /// The row of codes of a place; where the table has none an empty one, by which all may be asked for.
    fn code_row(&self, place: u32) -> &[bool]
        ensures { result.now ≡ slice_index_or self.now.codes place [] }
    {
        match self.codes.get(place as usize) {
            Some(row) => row,
            None => &[],
        }
    }

    /// Whether a register is named.
    pub fn is_named(&self, register: u8) -> bool
        ensures { result ≡ is_named_by self.now.names register }
    {
        is_named(&self.names, register)
    }

    /// Whether a register is live at a place of the program.
    pub fn is_live(&self, place: u32, register: u8) -> bool
        ensures { result ≡ is_live_at self.now.table place register }
    {
        match self.table.get(place as usize) {
            Some(row) => is_live_by(row, register),
            None => true,
        }
    }
}

/// Which condition codes may be asked for from each word of an image's program on. Where all registers are named, all may
/// be.
#[tactic(auto, using(crate::proofs::Schedules::no_rows_tell))]
fn codes_of(
    alloc: Global,
    image: &Image,
    handled: bool,
    names: &Row,
) -> Result<Vec<CodeRow>, AllocError>
    ensures has { IfOk result (λ table. HasCodesOf image.now.profile image.now.program handled table.items) }
    ensures all { IfOk result (λ table. ((r : ℕ) → r < 32 → IsTrue (is_named_by names.now r))
        → (k c : ℕ) → IsTrue (is_asked_at table.items k c)) }
{
    if are_all_named(names) {
        return Ok(Vec::new(alloc));
    }
    code_table(alloc, image.profile(), image.program(), handled)
}

/// Whether all registers are named.
fn are_all_named(names: &Row) -> bool
    ensures { ((r : ℕ) → r < 32 → IsTrue (is_named_by names.now r)) → result ≡ true }
{
    for register in 0..32u8 {
        if !is_named(names, register) {
            return false;
        }
    }
    true
}

/// A code, or none where it does not matter by a row.
fn kept_code(row: &[bool], place: usize, code: Code) -> Code
    ensures { result ≡ (if is_live_by row.now place then code else no_code) }
{
    let kept = row.get(place).copied().unwrap_or(true);
    if kept { code } else { Code::NONE }
}

/// Whether a register is live by a row; one that the row does not have is.
fn is_live_by(row: &Row, register: u8) -> bool
    ensures { result ≡ is_live_by row.now register }
{
    row.get(usize::from(register)).copied().unwrap_or(true)
}

/// Whether a register is named.
fn is_named(names: &Row, register: u8) -> bool
    ensures { result ≡ is_named_by names.now register }
{
    names.get(usize::from(register)).copied().unwrap_or(false)
}

/// Whether a stream is idle.
fn is_idle(stream: &Stream) -> bool
    ensures { result ≡ is_idle stream.now }
{
    match stream.status() {
        Status::Idle => true,
        Status::Running | Status::Stopped(_) => false,
    }
}

/// Whether a stream runs.
fn is_running(stream: &Stream) -> bool
    ensures { result ≡ is_running stream.now }
{
    match stream.status() {
        Status::Running => true,
        Status::Idle | Status::Stopped(_) => false,
    }
}
