//! What a command does where a reader or a writer fails in mid-stream.
use crate::commands::{COMMANDS, Command, Row};
use crate::devices::{FailingReader, FailingWriter};
use memory_lock::{GatherFault, PartsFault};
use mta_engines::ToolFault;
use std::alloc::Global;
use std::io::ErrorKind;
use std::sync::Wait;
use std::thread::Threads;

/// How the command ended on an input that fails after so many reads, and how much it wrote.
fn ended_reading<X: AllocGlobal + Threads + Wait + Sync>(
    rt: &X,
    command: Command,
    mut reader: FailingReader,
) -> (Result<(), ToolFault>, usize) {
    let mut written = Vec::new(rt.alloc());
    let done = command.run(rt, rt.alloc(), &mut reader, &mut written);
    (done, written.len())
}

/// Whether each of the reads of a byte may fail, and nothing is written then.
fn may_each_read_fail<X: AllocGlobal + Threads + Wait + Sync>(
    rt: &X,
    command: Command,
    text: &[u8],
    kind: ErrorKind,
) -> bool {
    for reads in 0..=text.len() {
        let reader = FailingReader { text, reads, kind };
        if !matches!(
            ended_reading(rt, command, reader),
            (Err(ToolFault::Read), 0)
        ) {
            return false;
        }
    }
    true
}

/// How much a command writes of an input that is read byte by byte, and never fails; none where it ends with a fault.
fn length_read_by_bytes<X: AllocGlobal + Threads + Wait + Sync>(
    rt: &X,
    command: Command,
    text: &[u8],
) -> Option<usize> {
    let reader = FailingReader {
        text,
        reads: usize::MAX,
        kind: ErrorKind::Other,
    };
    match ended_reading(rt, command, reader) {
        (Ok(()), length) => Some(length),
        (Err(_), _) => None,
    }
}

/// Whether each read of a command may fail, and all is written where none does.
fn is_read_right<X: AllocGlobal + Threads + Wait + Sync>(rt: &X, row: &Row) -> bool {
    let (command, text, bytes) = row;
    may_each_read_fail(rt, *command, text, ErrorKind::Other)
        && may_each_read_fail(rt, *command, text, ErrorKind::Interrupted)
        && length_read_by_bytes(rt, *command, text) == Some(*bytes)
}

#[test]
fn each_read_may_fail(rt: HostRuntime) {
    for row in &COMMANDS {
        let command = row.0;
        assert!(rt; is_read_right(&rt, row), "{command:?}");
    }
}

/// How the command ended on a writer that fails at the call after so many, and how much it gave away.
fn ended_writing<X: AllocGlobal + Threads + Wait + Sync>(
    rt: &X,
    command: Command,
    text: &[u8],
    mut writer: FailingWriter,
) -> (Result<(), ToolFault>, usize) {
    let mut reader = text;
    let done = command.run(rt, rt.alloc(), &mut reader, &mut writer);
    (done, writer.given())
}

/// A writer takes seven bytes a write, and is flushed once, after the last one: with so many calls all is written, and
/// with fewer nothing is given away.
fn may_each_write_fail<X: AllocGlobal + Threads + Wait + Sync>(
    rt: &X,
    command: Command,
    text: &[u8],
    bytes: usize,
) -> bool {
    let needed = bytes.div_ceil(7).saturating_add(1);
    for calls in 0..needed {
        let writer = FailingWriter::new(calls, ErrorKind::Other);
        let ended = ended_writing(rt, command, text, writer);
        if !matches!(ended, (Err(ToolFault::Write), 0)) {
            return false;
        }
    }
    let writer = FailingWriter::new(needed, ErrorKind::Other);
    ended_writing(rt, command, text, writer) == (Ok(()), bytes)
}

/// A write that is interrupted may be tried again, or is a fault.
fn may_each_write_be_interrupted<X: AllocGlobal + Threads + Wait + Sync>(
    rt: &X,
    command: Command,
    text: &[u8],
    bytes: usize,
) -> bool {
    for calls in 0..=bytes.div_ceil(7) {
        let writer = FailingWriter::new(calls, ErrorKind::Interrupted);
        let (done, given) = ended_writing(rt, command, text, writer);
        let is_whole = done.is_ok() && given == bytes;
        if !is_whole && !matches!(done, Err(ToolFault::Write)) {
            return false;
        }
    }
    true
}

fn is_written_right<X: AllocGlobal + Threads + Wait + Sync>(rt: &X, row: &Row) -> bool {
    let (command, text, bytes) = row;
    may_each_write_fail(rt, *command, text, *bytes)
        && may_each_write_be_interrupted(rt, *command, text, *bytes)
}

#[test]
fn each_write_may_fail(rt: HostRuntime) {
    for row in &COMMANDS {
        let command = row.0;
        assert!(rt; is_written_right(&rt, row), "{command:?}");
    }
}

fn is_reported_as(alloc: Global, fault: ToolFault, text: &str) -> bool {
    fault
        .to_string(alloc)
        .is_ok_and(|told| told.as_str() == text)
}

#[test]
fn faults_that_no_command_line_comes_to_have_texts(rt: HostRuntime) {
    for (fault, text) in [
        (ToolFault::Read, "read failed"),
        (ToolFault::Write, "write failed"),
        (ToolFault::NoMemory, "no memory"),
        (ToolFault::Build(PartsFault::TooLong), "threads fault 2"),
        (ToolFault::Gather(GatherFault::Foreign(5)), "gather fault 1"),
        (ToolFault::Gather(GatherFault::Short(6)), "gather fault 2"),
        (ToolFault::Gather(GatherFault::Torn(7)), "gather fault 3"),
    ] {
        assert!(rt; is_reported_as(rt.alloc(), fault, text), "{text}");
    }
}
