//! The names that a source text gives words of the memory.

ghost use Rattle.std.specs.Prelude.{◌≡◌, ◌+◌, ◌<◌, ◌^◌, ◌++◌, if◌then◌else◌, ℕ, List};
ghost use Rattle.std.specs.Prelude.{take, filter, count_by, IfOk, OnOk};
ghost use Rattle.std.specs.List.{list_all};
ghost use Rattle.std.specs.Option.{option_copied};
ghost use Rattle.asm_line.specs.Labels.{places_of};
ghost use Rattle.asm_line.specs.Text.{is_first, is_further, is_name};
ghost use Rattle.source_places.specs.DataNames.{name_in, comment_name, name_by, line_name, name_of, names_said};
ghost use Rattle.source_places.specs.DataNames.{DataNameValue, is_called, is_on, is_own, most_names};
ghost use Rattle.source_places.specs.SourcePlaces.{data_line_seen, data_lines_seen, data_name_seen, data_names_seen};
ghost use Rattle.source_places.specs.TimesSaid.{times_in};

use crate::lines::{DataLine, comment_of};
use asm_line::{Labels, Place, cut_line};
use std::alloc::{AllocError, Global};
use std::collections::HashMap;

/// How many of the names that a text says for its data are taken; the others name nothing.
pub const MOST_NAMES: usize = 4096;

/// A name that a line says for the data words that it adds.
#[derive(Clone, Copy, Debug)]
pub struct DataName<'t> {
    /// The line's number, from 0.
    pub number: usize,
    /// The name: a letter or `_`, then letters, digits or `_`, at most 32 in all.
    pub name: &'t [u8],
    /// The first data word that the line adds, from 0.
    pub first: usize,
    /// How many it adds, at least 1.
    pub count: usize,
}

/// The names that lines say, in their order, the first [`MOST_NAMES`] of them.
pub(crate) fn said_names<'t>(
    alloc: Global,
    lines: &[DataLine<'t>],
) -> Result<Vec<DataName<'t>>, AllocError>
    ensures { IfOk result (λ said. data_names_seen said.items
        ≡ take most_names (names_said (data_lines_seen lines.now))) }
{
    let mut said = all_names(alloc, lines)?;
    leave_first(&mut said);
    Ok(said)
}

/// Leaves the first of some names.
fn leave_first(said: &mut Vec<DataName>)
    ensures { data_names_seen said.new.items ≡ take most_names (data_names_seen said.old.items) }
{
    said.truncate(MOST_NAMES);
}

/// All names that lines say, in their order.
fn all_names<'t>(alloc: Global, lines: &[DataLine<'t>]) -> Result<Vec<DataName<'t>>, AllocError>
    ensures { IfOk result (λ said. data_names_seen said.items ≡ names_said (data_lines_seen lines.now)) }
{
    let mut said = Vec::new(alloc);
    for line in lines {
        note_name(&mut said, line)?;
    }
    Ok(said)
}

/// Adds the name of a line, where it has one.
fn note_name<'t>(said: &mut Vec<DataName<'t>>, line: &DataLine<'t>) -> Result<(), AllocError>
    ensures { OnOk result (data_names_seen said.new.items
        ≡ data_names_seen said.old.items ++ name_of (data_line_seen line.now) (line_name line.now.bytes.now)) }
{
    if let Some(name) = line_name(line.bytes) {
        said.push(DataName {
            number: line.number,
            name,
            first: line.first,
            count: line.count,
        })?;
    }
    Ok(())
}

/// The names that name their words, where the labels stand so.
pub(crate) fn own_names<'t>(
    alloc: Global,
    labels: &Labels,
    said: &[DataName<'t>],
) -> Result<Vec<DataName<'t>>, AllocError>
    ensures { let said = data_names_seen said.now in IfOk result (λ names. data_names_seen names.items
        ≡ filter (is_own (places_of labels.now) said) said) }
{
    let times = times_said(alloc, said)?;
    let mut names = Vec::new(alloc);
    for name in said {
        if is_own(labels, &times, name) {
            names.push(*name)?;
        }
    }
    Ok(names)
}

/// Whether no other line says a name, which is said so often, and no label of another line is that name.
fn is_own(labels: &Labels, times: &HashMap<&[u8], usize>, name: &DataName) -> bool
    ensures { (said : List DataNameValue) → times_in times.now name.now.name.now
        ≡ count_by (is_called name.now.name.now) said
        → result ≡ is_own (places_of labels.now) said (data_name_seen name.now) }
{
    times_of(times, name.name) == 1 && is_on(name.number, labels.find(name.name))
}

/// Whether a label, where it stands, stands on this line.
fn is_on(number: usize, place: Option<Place>) -> bool
    ensures { result ≡ is_on number place }
{
    match place {
        Some(place) => place.line == number,
        None => true,
    }
}

/// How often each name is said.
fn times_said<'t>(
    alloc: Global,
    said: &[DataName<'t>],
) -> Result<HashMap<&'t [u8], usize>, AllocError>
    ensures { IfOk result (λ times. (q : List ℕ) → times_in times q ≡ count_by (is_called q) (data_names_seen said.now)) }
{
    let mut times = HashMap::new(alloc);
    for name in said {
        count_name(&mut times, name)?;
    }
    Ok(times)
}

/// Counts a name once more.
fn count_name<'t>(
    times: &mut HashMap<&'t [u8], usize>,
    name: &DataName<'t>,
) -> Result<(), AllocError>
    requires { times_in times.old name.now.name.now + 1 < 2 ^ 64 }
    ensures { OnOk result ((q : List ℕ) → times_in times.new q
        ≡ times_in times.old q + (if is_called q (data_name_seen name.now) then 1 else 0)) }
{
    *times.entry(name.name)?.or_insert(0) += 1;
    Ok(())
}

/// How often a name was counted.
#[tactic(auto, unfolding(crate::specs::TimesSaid::times_in))]
fn times_of(times: &HashMap<&[u8], usize>, name: &[u8]) -> usize
    ensures { result ≡ times_in times.now name.now }
{
    times.get(name).copied().unwrap_or(0)
}

/// The name of a line of data with these bytes: its label, or else what its comment says.
fn line_name(bytes: &[u8]) -> Option<&[u8]>
    ensures { option_copied result ≡ line_name bytes.now }
{
    match cut_line(bytes).label {
        Some(label) => name_in(label),
        None => comment_name(comment_of(bytes)),
    }
}

/// The name that a comment says: it is the comment, or stands before its first colon.
fn comment_name(comment: Option<&[u8]>) -> Option<&[u8]>
    ensures { option_copied result ≡ comment_name (option_copied comment.entry) }
{
    let line = cut_line(comment?);
    match line.label {
        Some(front) => name_in(front),
        None => name_in(line.statement),
    }
}

/// A text, where it is a name.
fn name_in(text: &[u8]) -> Option<&[u8]>
    ensures { option_copied result ≡ name_in text.now }
{
    if is_name(text) { Some(text) } else { None }
}

/// Whether the text is a name: a letter or `_`, then letters, digits or `_`, 1 to 32 characters.
#[tactic(auto, unfolding(asm_line::specs::Text::is_name))]
fn is_name(text: &[u8]) -> bool
    ensures { result ≡ is_name text.now }
{
    match text {
        [first, further @ ..] => further.len() < 32 && is_first(*first) && are_further(further),
        [] => false,
    }
}

fn is_first(byte: u8) -> bool
    ensures { result ≡ is_first byte }
{
    byte.is_ascii_alphabetic() || byte == b'_'
}

fn is_further(byte: u8) -> bool
    ensures { result ≡ is_further byte }
{
    byte.is_ascii_alphanumeric() || byte == b'_'
}

fn are_further(bytes: &[u8]) -> bool
    ensures { result ≡ list_all is_further bytes.now }
{
    bytes.iter().all(|b| is_further(*b))
}
