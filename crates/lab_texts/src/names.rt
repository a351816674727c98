//! The names that a program's text gives its places.

use crate::addresses::DataNames;
use image_file::MAX_PROGRAM_WORDS;
use plain_text::{TextWriter, front_of};
use source_places::{DataLine, SourceLabel, SourcePlaces, comment_of};
use std::alloc::{AllocError, Global};
use std::str;

/// How many characters of an instruction a line shows at most.
const LONGEST_STATEMENT: usize = 200;

/// A word of the program, by the text.
#[derive(Clone, Copy)]
struct WordName<'t> {
    /// Its line, from 1.
    line: usize,
    /// The last label at or before it; empty where there is none.
    label: &'t str,
    /// How many words it stands after the label, or after the program's begin.
    offset: usize,
    /// Its instruction.
    statement: &'t str,
}

/// The names that a program's text, its source or its listing, gives words of the program and of the memory.
#[derive(Drop)]
pub struct ProgramNames<'t> {
    words: Vec<WordName<'t>>,
    data: Vec<DataLine<'t>>,
    pub(crate) data_names: DataNames<'t>,
    place_width: usize,
    statement_width: usize,
}

impl<'t> ProgramNames<'t> {
    /// The names that a text gives. Only memory can be missing.
    pub fn of(alloc: Global, text: &'t [u8]) -> Result<ProgramNames<'t>, AllocError> {
        ProgramNames::by(alloc, &SourcePlaces::of(alloc, text)?)
    }

    /// The names by the places of a text.
    fn by(alloc: Global, places: &SourcePlaces<'t>) -> Result<ProgramNames<'t>, AllocError> {
        let words = word_names(alloc, places)?;
        let (place_width, statement_width) = widths_of(&words);
        Ok(ProgramNames {
            words,
            data: Vec::from_slice(alloc, places.data_lines())?,
            data_names: DataNames::of(alloc, places)?,
            place_width,
            statement_width,
        })
    }

    /// Adds the place of a program word: its label, as `eat+1`, or its number where no label stands before it.
    pub fn push_place(&self, out: &mut String, word: u32) -> Result<(), AllocError> {
        let mut text = TextWriter::take(out);
        self.put_place(&mut text, word);
        text.give_back(out)
    }

    /// Adds what [`ProgramNames::push_place`] does.
    pub fn put_place(&self, out: &mut TextWriter, word: u32) {
        match self.words.get(word as usize) {
            Some(name) if !name.label.is_empty() => {
                out.put(name.label);
                put_offset(out, name.offset);
            }
            _ => out.put_number(u64::from(word)),
        }
    }

    /// The program word of a place, which is written as [`ProgramNames::push_place`] does or by its number; None where
    /// there is none.
    pub fn word_at(&self, alloc: Global, place: &str) -> Result<Option<u32>, AllocError> {
        if let Ok(word) = place.parse::<u32>() {
            return Ok(if word < self.words() {
                Some(word)
            } else {
                None
            });
        }
        let mut name = String::new(alloc);
        for word in 0..self.words() {
            name.clear();
            self.push_place(&mut name, word)?;
            if name.as_str() == place {
                return Ok(Some(word));
            }
        }
        Ok(None)
    }

    /// The instruction of a program word as the text has it; empty where there is none.
    pub fn statement(&self, word: u32) -> &'t str {
        match self.words.get(word as usize) {
            Some(name) => name.statement,
            None => "",
        }
    }

    /// Adds the instruction of a program word, with a space for each tab and carriage return between its parts, and no more
    /// than 200 characters of it.
    pub fn push_statement(&self, out: &mut String, word: u32) -> Result<(), AllocError> {
        let mut text = TextWriter::take(out);
        self.put_statement(&mut text, word);
        text.give_back(out)
    }

    /// Adds what [`ProgramNames::push_statement`] does.
    pub fn put_statement(&self, out: &mut TextWriter, word: u32) {
        let statement = self.statement(word);
        let front = front_of(statement, LONGEST_STATEMENT);
        for (index, part) in front.split(is_blank).enumerate() {
            out.put(if index == 0 { "" } else { " " });
            out.put(part);
        }
        if front.len() < statement.len() {
            out.put("..");
        }
    }

    /// The line of a program word, from 1; 0 where there is none.
    pub fn line(&self, word: u32) -> usize {
        match self.words.get(word as usize) {
            Some(name) => name.line,
            None => 0,
        }
    }

    /// How many words the program has.
    pub fn words(&self) -> u32 {
        u32::try_from(self.words.len()).unwrap_or(u32::MAX)
    }

    /// The lines that add words of the memory, in their order.
    pub fn data_lines(&self) -> &[DataLine<'t>] {
        &self.data
    }

    /// The comment of the line that made the word at a byte address; empty where there is none.
    pub fn comment(&self, address: u64) -> &'t str {
        let word = (address / 8) as usize;
        let Some(line) = line_of(&self.data, word) else {
            return "";
        };
        match comment_of(line.bytes) {
            Some(comment) => without_number(text_of(comment).trim()),
            None => "",
        }
    }

    /// Whether some word of the memory has a comment, besides its name.
    pub fn has_comments(&self) -> bool {
        self.data.iter().any(|line| !self
            .remark((line.first as u64).saturating_mul(8))
            .is_empty())
    }

    /// Adds that comment as a line quotes it, without the word's name and after blanks, where there is one.
    pub(crate) fn put_comment(&self, out: &mut TextWriter, address: u64) {
        let comment = self.remark(address);
        if !comment.is_empty() {
            out.put("   ");
            out.put_quoted(comment);
        }
    }

    /// The length of the longest place.
    pub fn place_width(&self) -> usize {
        self.place_width
    }

    /// The length of the longest instruction.
    pub fn statement_width(&self) -> usize {
        self.statement_width
    }
}

/// Adds how many words something stands after what was added, where it does.
pub(crate) fn put_offset(out: &mut TextWriter, offset: usize) {
    if offset > 0 {
        out.put("+");
        out.put_number(offset as u64);
    }
}

/// The line that made a data word; None where there is none.
fn line_of<'l, 't>(lines: &'l [DataLine<'t>], word: usize) -> Option<&'l DataLine<'t>> {
    let after = lines.partition_point(|line| line.first <= word);
    let line = lines.get(after.checked_sub(1)?)?;
    let place = word.checked_sub(line.first)?;
    if place < line.count { Some(line) } else { None }
}

/// The names of the program's words, in their order.
fn word_names<'t>(
    alloc: Global,
    places: &SourcePlaces<'t>,
) -> Result<Vec<WordName<'t>>, AllocError> {
    let labels = places.labels();
    let mut names = Vec::new(alloc);
    let mut label = "";
    let mut first = 0;
    let mut next = 0;
    for word in 0..MAX_PROGRAM_WORDS {
        let Some(line) = places.line(word) else {
            break;
        };
        for _ in 0..labels.len() {
            let Some(found) = label_by(labels, next, word) else {
                break;
            };
            label = text_of(found.name);
            first = found.place.value;
            next = next.saturating_add(1);
        }
        names.push(WordName {
            line: line.number.saturating_add(1),
            label,
            offset: word.saturating_sub(first),
            statement: statement_of(line.bytes),
        })?;
    }
    Ok(names)
}

/// The label of this place in the list, where it stands at or before a word.
fn label_by<'t>(labels: &[SourceLabel<'t>], place: usize, word: usize) -> Option<SourceLabel<'t>> {
    let label = labels.get(place)?;
    if label.place.value <= word {
        Some(*label)
    } else {
        None
    }
}

/// What stands on a line between label and comment.
fn statement_of(line: &[u8]) -> &str {
    text_of(asm_line::cut_line(line).statement).trim()
}

/// A comment without the word's number in front of it, as in `word 1: the count`.
fn without_number(comment: &str) -> &str {
    let Some(rest) = comment.strip_prefix("word ") else {
        return comment;
    };
    match rest.split_once(": ") {
        Some((number, words)) if number.bytes().all(|byte| byte.is_ascii_digit()) => words.trim(),
        _ => comment,
    }
}

/// Whether a character stands between the parts of a statement as a space does, and is none.
fn is_blank(letter: char) -> bool {
    letter == '\t' || letter == '\r'
}

/// Bytes as text; empty where they are none.
fn text_of(bytes: &[u8]) -> &str {
    str::from_utf8(bytes).unwrap_or("")
}

/// How many bytes the longest place takes, and the longest instruction.
fn widths_of(words: &[WordName]) -> (usize, usize) {
    let mut place: usize = 0;
    let mut statement: usize = 0;
    for word in words {
        place = place.max(place_width(word));
        statement = statement.max(word.statement.len());
    }
    (place, statement)
}

/// How many bytes a place takes.
fn place_width(name: &WordName) -> usize {
    let digits = if name.offset < 10 { 2 } else { 4 };
    name.label.len().saturating_add(digits)
}
