//! The text of a machine's world.

ghost use Rattle.std.specs.Prelude.{◌≡◌, ◌++◌, ◌<◌, ◌≤◌, length, slice_get, IfOk, OnOk, string_bytes};
ghost use Rattle.std.specs.Option.{option_copied};
ghost use Rattle.tag_memory.specs.Storage.{most_memory_words};
ghost use Rattle.machine.specs.MachineValue.{IsMachine};
ghost use Rattle.trace_text.specs.WorldTexts.{stream_parts, processor_parts, cell_line, change, changes};
ghost use Rattle.trace_text.specs.WorldTexts.{world_text_of};
ghost use Rattle.trace_text.specs.WorldParts.{stream_part_at, processor_part_at, streams_of};

use crate::world_readers::WorldReaders;
use image_file::Image;
use machine::Machine;
use std::alloc::{AllocError, Global};
use std::fmt::Write;
use stream_core::{Status, Stream, stream_text};
use tag_memory::Word;
use text_parts::{push_hexadecimal_12, push_hexadecimal_16, push_hexadecimal_digit};

/// The text of a machine's world: each processor with its counts and its streams that are not idle, then each word
/// that differs from the image ("World text", docs/FORMATS.md). The image is the one that the machine was loaded
/// from.
#[tactic(auto, unfolding(crate::specs::WorldTexts::world_text_of))]
pub fn world_text<const S: usize>(
    alloc: Global,
    machine: &Machine<S>,
    image: &Image,
) -> Result<String, AllocError>
    requires { machine.now.image ≡ image.now }
    ensures { IfOk result (λ text. string_bytes text ≡ world_text_of image.now machine.now.world) }
{
    text_by_readers(alloc, machine, machine.image(), image.cells())
}

/// The same of any readers of a world: it has a processor for each entry of the image, each with as many streams as
/// the image says.
#[tactic(auto, unfolding(crate::specs::WorldTexts::world_text_of))]
pub fn world_text_of_readers<T: WorldReaders>(
    alloc: Global,
    readers: &T,
    image: &Image,
) -> Result<String, AllocError>
    requires { IsMachine T.room (record { image = image.now; world = T.world readers.now }) }
    ensures { IfOk result (λ text. string_bytes text ≡ world_text_of image.now (T.world readers.now)) }
{
    text_by_readers(alloc, readers, image, image.cells())
}

/// The text of a world that has the image's processors: these, and the words that differ from these cells.
fn text_by_readers<T: WorldReaders>(
    alloc: Global,
    readers: &T,
    image: &Image,
    cells: &[Word],
) -> Result<String, AllocError>
    requires shape { IsMachine T.room (record { image = image.now; world = T.world readers.now }) }
    requires few { length cells.now ≤ most_memory_words }
    ensures { IfOk result (λ text. string_bytes text
        ≡ processor_parts 0 (T.world readers.now).processors ++ changes 0 (T.world readers.now).memory cells.now) }
{
    let mut text = String::new(alloc);
    push_processors(alloc, &mut text, readers, image)?;
    push_changes(&mut text, readers, cells)?;
    Ok(text)
}

/// Appends the processors of a world.
fn push_processors<T: WorldReaders>(
    alloc: Global,
    text: &mut String,
    readers: &T,
    image: &Image,
) -> Result<(), AllocError>
    requires { IsMachine T.room (record { image = image.now; world = T.world readers.now }) }
    ensures { OnOk result
        (string_bytes text.new ≡ string_bytes text.old ++ processor_parts 0 (T.world readers.now).processors) }
{
    let count = image.processors() as u8;
    for p in 0..count {
        push_processor(alloc, text, readers, image, p)?;
    }
    Ok(())
}

/// Appends a processor's counts and streams.
#[tactic(auto, unfolding(crate::specs::WorldTexts::processor_line))]
fn push_processor<T: WorldReaders>(
    alloc: Global,
    text: &mut String,
    readers: &T,
    image: &Image,
    p: u8,
) -> Result<(), AllocError>
    requires { IsMachine T.room (record { image = image.now; world = T.world readers.now }) }
    ensures { let processor = slice_get (T.world readers.now).processors p in
        OnOk result (string_bytes text.new ≡ string_bytes text.old ++ processor_part_at p processor) }
{
    let Some((scur, sres)) = readers.counts(p) else {
        return Ok(());
    };
    writeln!(text, "processor {p} scur {scur} sres {sres}")?;
    push_streams(alloc, text, readers, image, p)
}

/// Appends the streams of a processor that are not idle.
fn push_streams<T: WorldReaders>(
    alloc: Global,
    text: &mut String,
    readers: &T,
    image: &Image,
    p: u8,
) -> Result<(), AllocError>
    requires { IsMachine T.room (record { image = image.now; world = T.world readers.now }) }
    ensures { OnOk result
        (string_bytes text.new ≡ string_bytes text.old ++ stream_parts p 0 (streams_of (T.world readers.now) p)) }
{
    let slim = image.slim() as u8;
    for s in 0..slim {
        push_stream(alloc, text, p, s, readers.stream(p, s))?;
    }
    Ok(())
}

/// Appends a stream, unless it is idle.
#[tactic(auto, unfolding(crate::specs::WorldTexts::stream_part, crate::specs::WorldTexts::stream_line))]
fn push_stream(
    alloc: Global,
    text: &mut String,
    p: u8,
    s: u8,
    stream: Option<&Stream>,
) -> Result<(), AllocError>
    ensures { OnOk result
        (string_bytes text.new ≡ string_bytes text.old ++ stream_part_at p s (option_copied stream.entry)) }
{
    let Some(stream) = stream else {
        return Ok(());
    };
    if stream.status() == Status::Idle {
        return Ok(());
    }
    let lines = stream_text(alloc, stream)?;
    writeln!(text, "stream {p} {s}")?;
    text.push_str(&lines)
}

/// Appends the words of a world that differ from these cells.
fn push_changes<T: WorldReaders>(
    text: &mut String,
    readers: &T,
    cells: &[Word],
) -> Result<(), AllocError>
    requires { length cells.now ≤ most_memory_words }
    ensures { OnOk result
        (string_bytes text.new ≡ string_bytes text.old ++ changes 0 (T.world readers.now).memory cells.now) }
{
    let mut address = 0;
    for cell in cells {
        push_change(text, address, *cell, readers.word(address))?;
        address += 8;
    }
    Ok(())
}

/// Appends the word at an address, unless it is this cell.
fn push_change(
    text: &mut String,
    address: u64,
    cell: Word,
    word: Option<Word>,
) -> Result<(), AllocError>
    ensures { OnOk result (string_bytes text.new ≡ string_bytes text.old ++ change address cell word) }
{
    let Some(word) = word else {
        return Ok(());
    };
    if word == cell {
        return Ok(());
    }
    push_cell(text, address, word)
}

/// Appends the line of a word at an address.
#[tactic(auto, unfolding(crate::specs::WorldTexts::cell_line))]
fn push_cell(text: &mut String, address: u64, word: Word) -> Result<(), AllocError>
    ensures { OnOk result (string_bytes text.new ≡ string_bytes text.old ++ cell_line address word) }
{
    text.push_str("cell ")?;
    push_hexadecimal_12(text, address)?;
    text.push_str(" ")?;
    push_hexadecimal_16(text, word.value())?;
    text.push_str(" ")?;
    push_hexadecimal_digit(text, word.tag_number())?;
    text.push_str("\n")
}
