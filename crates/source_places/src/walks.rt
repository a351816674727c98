//! Walks over the lines of a text.

ghost use Rattle.std.specs.Prelude.{◌≡◌, ◌++◌, ◌+◌, ◌≤◌, length, IfOk, OnOk};
ghost use Rattle.asm_line.specs.Labels.{places_of};
ghost use Rattle.asm_line.specs.Lines.{lines, line, word_count};
ghost use Rattle.asm_line.specs.SourceLines.{line_seen};
ghost use Rattle.text_parts.specs.Pieces.{pieces};
ghost use Rattle.tag_memory.specs.Storage.{most_memory_words};
ghost use Rattle.source_places.specs.DataLines.{cells_added, data_line, data_lines_from};
ghost use Rattle.source_places.specs.ProgramLines.{program_lines};
ghost use Rattle.source_places.specs.SourceLabels.{label_on, labels_from};
ghost use Rattle.source_places.specs.SourcePlaces.{lines_seen, labels_seen, data_lines_seen};

use crate::lines::{DataLine, ProgramLine};
use crate::source_places::SourceLabel;
use asm_line::{Fault, Item, Labels, cut_line, is_word, read_line};
use asm_text::Outline;
use std::alloc::{AllocError, Global};
use tag_memory::MAX_WORDS;
use text_parts::cut;

/// The lines of a text that are words of its program.
pub(crate) fn program_lines(alloc: Global, text: &[u8]) -> Result<Vec<ProgramLine<'_>>, AllocError>
    ensures { IfOk result (λ lines. lines_seen lines.items ≡ program_lines text.now) }
{
    let mut lines = Vec::new(alloc);
    let mut number = 0;
    let mut rest = Some(text);
    while let Some(bytes) = rest {
        let (front, following) = cut(bytes, b'\n');
        if is_word(cut_line(front).statement) {
            lines.push(ProgramLine {
                number,
                bytes: front,
            })?;
        }
        number += 1;
        rest = following;
    }
    Ok(lines)
}

/// The labels of a text that stand at these places.
pub(crate) fn first_labels<'t>(
    alloc: Global,
    places: &Labels,
    text: &'t [u8],
) -> Result<Vec<SourceLabel<'t>>, AllocError>
    ensures { IfOk result (λ labels. labels_seen labels.items ≡ labels_from (places_of places.now) 0 (lines text.now)) }
{
    let mut labels = Vec::new(alloc);
    let mut number = 0;
    let mut rest = Some(text);
    while let Some(bytes) = rest {
        let (front, following) = cut(bytes, b'\n');
        if let Some(name) = cut_line(front).label {
            note_first(&mut labels, places, number, name)?;
        }
        number += 1;
        rest = following;
    }
    Ok(labels)
}

/// Adds the label of a line where that is the line of its place.
fn note_first<'t>(
    labels: &mut Vec<SourceLabel<'t>>,
    places: &Labels,
    number: usize,
    name: &'t [u8],
) -> Result<(), AllocError>
    ensures { OnOk result (labels_seen labels.new.items
        ≡ labels_seen labels.old.items ++ label_on number name.entry.now (places_of places.now name.entry.now)) }
{
    match places.find(name) {
        Some(place) if place.line == number => labels.push(SourceLabel { name, place })?,
        _ => {}
    }
    Ok(())
}

/// The lines of a text with this outline that add data words.
pub(crate) fn data_lines<'t>(
    alloc: Global,
    outline: &Outline,
    text: &'t [u8],
) -> Result<Vec<DataLine<'t>>, AllocError>
    ensures { let o = outline.now in IfOk result (λ found. data_lines_seen found.items
        ≡ data_lines_from o.profile (places_of o.labels) o.words 0 0 0 (pieces 10 text.now)) }
{
    let mut found = Vec::new(alloc);
    let mut number = 0;
    let mut here = 0;
    let mut first = 0;
    let mut rest = Some(text);
    while let Some(bytes) = rest {
        let (front, following) = cut(bytes, b'\n');
        let line = cut_line(front);
        let item = read_line(
            outline.profile,
            &outline.labels,
            outline.words,
            number,
            here,
            &line,
        );
        let count = cells_added(first, &item);
        note_data(&mut found, number, front, first, count)?;
        first += count;
        if is_word(line.statement) {
            here += 1;
        }
        number += 1;
        rest = following;
    }
    Ok(found)
}

/// Adds a line where it adds data words.
fn note_data<'t>(
    found: &mut Vec<DataLine<'t>>,
    number: usize,
    bytes: &'t [u8],
    first: usize,
    count: usize,
) -> Result<(), AllocError>
    ensures { OnOk result (data_lines_seen found.new.items
        ≡ data_lines_seen found.old.items ++ data_line number bytes.entry.now first count) }
{
    if count > 0 {
        found.push(DataLine {
            number,
            bytes,
            first,
            count,
        })?;
    }
    Ok(())
}

/// How many data words a line with this item adds after so many.
#[tactic(auto, unfolding(crate::specs::DataLines::cells_added))]
fn cells_added(first: usize, item: &Result<Item, Fault>) -> usize
    requires { first ≤ most_memory_words }
    ensures is { result ≡ cells_added first item.now }
    ensures few { first + result ≤ most_memory_words }
{
    match *item {
        Ok(Item::Cells { count, .. }) => {
            if first + count as usize <= MAX_WORDS {
                count as usize
            } else {
                0
            }
        }
        _ => 0,
    }
}
