//! Calls, with their names in the code. Each is made of one program, and its answer compared.

use crate::appended::{DECIMALS, HEXADECIMALS, HISTORY_LINE, TRACE_LINE, WORD_LINE, of_pieces};
use crate::endings::Ended;
use crate::{machines, records, texts, written};
use image_file::Image;
use std::io;

/// Calls, and how they ended.
type Line = (&'static str, Ended);

/// Prints such lines.
pub fn print_lines<R: Print>(rt: &R, lines: &[Line]) -> io::Result<()> {
    for (name, ended) in lines {
        println!(rt; "{name}: {}", ended.text())?;
    }
    Ok(())
}

/// Makes the calls that read and write images, sources and schedules.
pub fn make_files<R: AllocGlobal + Print>(rt: &R, image: &Image) -> io::Result<()> {
    let alloc = rt.alloc();
    let lines = [
        ("assemble", written::of_assemble(alloc)),
        ("listing", written::of_listing(alloc, image)),
        ("reassemble", written::of_reassemble(alloc, image)),
        ("write_image", written::of_write_image(alloc, image)),
        ("read_image", written::of_read_image(alloc, image)),
        ("read_schedule", written::of_read_schedule(alloc)),
        ("write_schedule", written::of_write_schedule(alloc)),
        ("round_schedule", written::of_round_schedule(alloc)),
    ];
    print_lines(rt, &lines)
}

/// Makes those that make texts, and those that keep labels and words.
pub fn make_texts<R: AllocGlobal + Print>(rt: &R, image: &Image) -> io::Result<()> {
    let alloc = rt.alloc();
    let decimals = "push_two_digits, push_five_digits, push_right_aligned";
    let lines = [
        ("trace_line", texts::of_trace_line(alloc)),
        ("history_line", texts::of_history_line(alloc)),
        ("push_trace_line", of_pieces(alloc, &TRACE_LINE)),
        ("push_history_line", of_pieces(alloc, &HISTORY_LINE)),
        ("push_word_line", of_pieces(alloc, &WORD_LINE)),
        (
            "push_hexadecimal_16, _12, _8, _digit",
            of_pieces(alloc, &HEXADECIMALS),
        ),
        (decimals, of_pieces(alloc, &DECIMALS)),
        ("Labels::note", texts::of_labels(alloc)),
        ("WordList::push", texts::of_word_list(alloc)),
        ("stream_text", texts::of_stream_text(alloc, image)),
        ("world_text", texts::of_world_text(alloc, image)),
    ];
    print_lines(rt, &lines)
}

/// Makes those that make memories, processors and machines.
pub fn make_machines<R: AllocGlobal + Print>(rt: &R, image: &Image) -> io::Result<()> {
    let alloc = rt.alloc();
    let lines = [
        ("Memory::new", machines::of_memory(alloc, image)),
        (
            "Memory::with_chain",
            machines::of_memory_with_chain(alloc, image),
        ),
        ("Memory::try_clone", machines::of_memory_clone(alloc, image)),
        ("Processor::new", machines::of_processor(alloc, image)),
        (
            "Processor::try_clone",
            machines::of_processor_clone(alloc, image),
        ),
        ("Machine::load", machines::of_machine(alloc, image)),
        (
            "Machine::try_clone",
            machines::of_machine_clone(alloc, image),
        ),
    ];
    print_lines(rt, &lines)
}

/// Makes those that make records, and what they are gathered with.
pub fn make_records<R: AllocGlobal + Print>(rt: &R, image: &Image) -> io::Result<()> {
    let alloc = rt.alloc();
    let lines = [
        ("Recorded::new", records::of_record(alloc, image)),
        (
            "Recorded::reserve",
            records::of_record_reserve(alloc, image),
        ),
        (
            "Recorded::try_clone",
            records::of_record_clone(alloc, image),
        ),
        ("Steps::reserve", records::of_steps_reserve(alloc)),
        ("SharedMemory::new", records::of_shared_memory(alloc, image)),
        ("Parts::new", records::of_parts(alloc, image)),
    ];
    print_lines(rt, &lines)
}
