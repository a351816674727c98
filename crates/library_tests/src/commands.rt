//! The engines, each with an input of which all others are made.

use memory_lock::FreeGate;
use mta_engines::{
    ToolFault, asm_engine, debug_engine, list_engine, run_engine, threads_engine, words_engine,
};
use std::alloc::Global;
use std::io::{Read, Write};
use std::sync::Wait;
use std::thread::Threads;

/// What is run on an input.
#[derive(Clone, Copy, Debug)]
pub(crate) enum Command {
    /// `words`, on program words.
    Words,
    /// `asm`, on a source text.
    Asm,
    /// `list`, on an image.
    List,
    /// `run`, on an image, by the schedule [`STEPS`].
    RunImage,
    /// `run`, on a schedule, of the image [`BLOCKED`].
    RunSchedule,
    /// `threads`, on an image; the schedule is written.
    ThreadsSchedule,
    /// The same; the history and the end are written.
    ThreadsText,
    /// `debug`, on an image, by the schedule [`STEPS`], with the command [`STAY`].
    DebugImage,
    /// `debug`, on a schedule, of the image [`BLOCKED`], with the command [`STAY`].
    DebugSchedule,
    /// `debug`, on a command, over the image [`BLOCKED`] by the schedule [`STEPS`].
    DebugCommands,
}

/// A command with an input and the number of bytes that it writes.
pub(crate) type Row = (Command, &'static [u8], usize);

/// Each command.
pub(crate) const COMMANDS: [Row; 10] = [
    (Command::Words, b"8010000000000005\n0000000A208C0000\n", 121),
    (Command::Asm, LISTING, BYTES.len()),
    (Command::List, &BYTES, LISTING.len()),
    (Command::RunImage, &BLOCKED, TRACE.len()),
    (Command::RunSchedule, STEPS, TRACE.len()),
    (Command::ThreadsSchedule, &ADDING, "0 0 3\n".len()),
    (
        Command::ThreadsText,
        &ADDING,
        "processor 0 scur 0 sres 0\n".len(),
    ),
    (Command::DebugImage, &BLOCKED, STAYED.len()),
    (Command::DebugSchedule, STEPS, STAYED.len()),
    (Command::DebugCommands, STAY, STAYED.len()),
];

/// The image of `LIT r1, 5`, `ADD r2, r1, 3`, `QUIT`.
const ADDING: [u8; 63] = [
    0x4D, 0x54, 0x41, 0x50, 0, 1, 0, 1, 0, 1, 0, 0, 0, 0, 0xFF, 0xFF, 0xFF, 0xFF, 0, 0, 0, 3, 0, 0,
    0, 1, //
    0, 0, 0, 0, //
    0x80, 0x10, 0, 0, 0, 0, 0, 5, //
    0, 0, 0, 0x0A, 0x20, 0x8C, 0, 0, //
    0, 0, 0, 0, 0, 2, 0x80, 0, //
    0, 0, 0, 0, 0, 0, 0, 0, 1,
];

/// A command of the debugger, without a line feed.
const STAY: &[u8] = b"s 0";

/// What it is answered at the start.
const STAYED: &str = "at 0 moved\n";

/// A listing, which is a source text too.
pub(crate) const LISTING: &[u8] = b".profile 1
.slim 1
.retry 2
.entry 0
LIT r1, 5 ; 00000 8010000000000005
.word 0x0000000000000001 ; 00001 0000000000000001
LOAD.S r3, r2, 1 ; 00002 038C408000000000
QUIT ; 00003 0000000000028000
.fill 2, 0x0000000000000000, 1
.fill 1, 0x0000000000000007, 11
";

/// The bytes of its image.
pub(crate) const BYTES: [u8; 89] = [
    0x4D, 0x54, 0x41, 0x50, 0, 1, 0, 1, 0, 1, 0, 0, 0, 2, 0xFF, 0xFF, 0xFF, 0xFF, 0, 0, 0, 4, 0, 0,
    0, 3, //
    0, 0, 0, 0, //
    0x80, 0x10, 0, 0, 0, 0, 0, 5, //
    0, 0, 0, 0, 0, 0, 0, 1, //
    0x03, 0x8C, 0x40, 0x80, 0, 0, 0, 0, //
    0, 0, 0, 0, 0, 2, 0x80, 0, //
    0, 0, 0, 0, 0, 0, 0, 0, 1, //
    0, 0, 0, 0, 0, 0, 0, 0, 1, //
    0, 0, 0, 0, 0, 0, 0, 7, 11,
];

/// The image of a load that is blocked and traps after two retries: `LOAD.S r3, r2, 1`, `QUIT`, and the handler
/// `XGET r4`, `QUIT`.
pub(crate) const BLOCKED: [u8; 80] = [
    0x4D, 0x54, 0x41, 0x50, 0, 1, 0, 1, 0, 1, 0, 0, 0, 2, 0, 0, 0, 2, 0, 0, 0, 4, 0, 0, 0, 2, //
    0, 0, 0, 0, //
    0x03, 0x8C, 0x40, 0x80, 0, 0, 0, 0, //
    0, 0, 0, 0, 0, 2, 0x80, 0, //
    0, 0, 0, 0, 0, 1, 0xC1, 0, //
    0, 0, 0, 0, 0, 2, 0x80, 0, //
    0, 0, 0, 0, 0, 0, 0, 0, 1, //
    0, 0, 0, 0, 0, 0, 0, 0, 0,
];

/// Its first steps.
pub(crate) const STEPS: &[u8] = b"0 0 4";

/// What they print.
const TRACE: &str = "      1   0   0 00000000 BLOCKED
      2   0   0 00000000 BLOCKED
      3   0   0 00000000 TRAPPED 10
      4   0   0 00000002 DONE
processor 0 scur 1 sres 1
stream 0 0
Running ssw 0100000000000003 xr 000000000000080A retries 0
r04 000000000000080A
";

impl Command {
    /// Runs the command on a reader's input.
    pub(crate) fn run<X: Threads + Wait + Sync, R: Read, W: Write>(
        self,
        rt: &X,
        alloc: Global,
        reader: &mut R,
        writer: &mut W,
    ) -> Result<(), ToolFault> {
        match self {
            Command::Words => words_engine(alloc, reader, writer),
            Command::Asm => asm_engine(alloc, reader, writer),
            Command::List => list_engine(alloc, reader, writer),
            Command::RunImage => run_engine(alloc, reader, &mut &STEPS[..], writer),
            Command::RunSchedule => run_engine(alloc, &mut &BLOCKED[..], reader, writer),
            Command::ThreadsSchedule => {
                let mut text = Vec::new(alloc);
                threads_engine(rt, alloc, reader, 3, &FreeGate, writer, &mut text)
            }
            Command::ThreadsText => {
                let mut schedule = Vec::new(alloc);
                threads_engine(rt, alloc, reader, 3, &FreeGate, &mut schedule, writer)
            }
            Command::DebugImage => {
                debug_engine(alloc, reader, &mut &STEPS[..], &mut &STAY[..], writer)
            }
            Command::DebugSchedule => {
                debug_engine(alloc, &mut &BLOCKED[..], reader, &mut &STAY[..], writer)
            }
            Command::DebugCommands => debug_engine(
                alloc,
                &mut &BLOCKED[..],
                &mut &STEPS[..],
                reader,
                writer,
            ),
        }
    }
}
