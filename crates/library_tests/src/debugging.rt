//! The debugger's commands, line by line.
use crate::commands::{BLOCKED, STEPS};
use crate::devices::FailingReader;
use mta_engines::{ToolFault, debug_engine};
use std::alloc::Global;
use std::cell::Cell;
use std::io;
use std::io::{ErrorKind, Read, Write};

/// Lines of commands.
const COMMANDS: &str = "s 3\nx\nm 8 1\ng 5\n";

/// Each line, with its answer.
const LINES: [(&str, &str); 4] = [
    ("s 3\n", "at 3 moved\n"),
    ("x\n", "fault 1\n"),
    ("m 8 1\n", "000000000008 0000000000000000 0\n"),
    ("g 5\n", "fault 5\n"),
];

/// How a session over the blocked load ends.
fn ended<C: Read, W: Write>(
    alloc: Global,
    commands: &mut C,
    writer: &mut W,
) -> Result<(), ToolFault> {
    debug_engine(alloc, &mut &BLOCKED[..], &mut &STEPS[..], commands, writer)
}

/// What was written, and the fault, if a read fails after so many of a byte each.
fn written(alloc: Global, reads: usize, kind: ErrorKind) -> (Vec<u8>, Result<(), ToolFault>) {
    let mut commands = FailingReader {
        text: COMMANDS.as_bytes(),
        reads,
        kind,
    };
    let mut written = Vec::new(alloc);
    let done = ended(alloc, &mut commands, &mut written);
    (written, done)
}

/// Whether a text is the answers to the lines that are whole within so many bytes.
fn are_answers(text: &[u8], bytes: usize) -> bool {
    let (mut rest, mut end) = (text, 0usize);
    for (line, answer) in LINES {
        end = end.saturating_add(line.len());
        if end <= bytes {
            let Some(behind) = rest.strip_prefix(answer.as_bytes()) else {
                return false;
            };
            rest = behind;
        }
    }
    rest.is_empty()
}

fn is_answered(alloc: Global, reads: usize, kind: ErrorKind) -> bool {
    let (written, done) = written(alloc, reads, kind);
    matches!(done, Err(ToolFault::Read)) && are_answers(&written, reads)
}

#[test]
fn the_lines_before_a_failed_read_are_answered(rt: HostRuntime) {
    for reads in 0..=COMMANDS.len() {
        assert!(rt; is_answered(rt.alloc(), reads, ErrorKind::Other), "{reads}");
        assert!(rt;
            is_answered(rt.alloc(), reads, ErrorKind::Interrupted),
            "{reads}"
        );
    }
}

/// Gives a line a read, and notes whether each line before it was answered by then.
#[derive(Drop)]
struct PatientReader<'a> {
    lines: &'a [(&'static str, &'static str)],
    asked: u64,
    flushed: &'a Cell<u64>,
    early: bool,
}

impl Read for PatientReader<'_> {
    fn read(&mut self, buf: &mut [u8]) -> io::Result<usize> {
        self.early = self.early || self.flushed.get() != self.asked;
        let [(line, _), rest @ ..] = self.lines else {
            return Ok(0);
        };
        self.lines = rest;
        self.asked = self.asked.saturating_add(1);
        let mut bytes = line.as_bytes();
        bytes.read(buf)
    }
}

/// Counts how often it is flushed with something to give away.
#[derive(Drop)]
struct FlushedWriter<'a> {
    keeps: bool,
    flushed: &'a Cell<u64>,
}

impl Write for FlushedWriter<'_> {
    fn write(&mut self, buf: &[u8]) -> io::Result<usize> {
        self.keeps = self.keeps || !buf.is_empty();
        Ok(buf.len())
    }

    fn flush(&mut self) -> io::Result<()> {
        if self.keeps {
            self.flushed.set(self.flushed.get().saturating_add(1));
        }
        self.keeps = false;
        Ok(())
    }
}

/// Whether all is done, and each line answered before the next was read.
fn is_patient(alloc: Global, flushed: &Cell<u64>) -> bool {
    let mut commands = PatientReader {
        lines: &LINES,
        asked: 0,
        flushed,
        early: false,
    };
    let mut writer = FlushedWriter {
        keeps: false,
        flushed,
    };
    let done = ended(alloc, &mut commands, &mut writer);
    done.is_ok() && !commands.early
}

#[test]
fn a_line_is_answered_before_the_next_is_read(rt: HostRuntime) {
    let flushed = Cell::new(0);
    assert!(rt; is_patient(rt.alloc(), &flushed));
    assert!(rt; flushed.get() == 4);
}
