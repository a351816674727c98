//! Addresses of data words, by numbers and by names.

use crate::names::{ProgramNames, put_offset};
use plain_text::TextWriter;
use source_places::{DataName, SourceLabel, SourcePlaces};
use std::alloc::{AllocError, Global};
use std::collections::HashMap;
use std::str;
use strsim::osa_distance;

/// The most letters by which a name may differ from one that is offered in its place.
const MOST_EDITS: usize = 2;

/// The most names that are listed where another one is none.
const MOST_TOLD: usize = 6;

/// The names of data words.
#[derive(Drop)]
pub(crate) struct DataNames<'t> {
    /// In the order of the words.
    by_word: Vec<DataName<'t>>,
    /// Each by its bytes.
    by_name: HashMap<&'t [u8], DataName<'t>>,
    /// All names that lines of data say, also those that name nothing, in the order of the lines.
    said: Vec<DataName<'t>>,
    /// The labels of the text.
    labels: Vec<SourceLabel<'t>>,
}

impl<'t> DataNames<'t> {
    /// The names of a program's text, by its places.
    pub(crate) fn of(
        alloc: Global,
        places: &SourcePlaces<'t>,
    ) -> Result<DataNames<'t>, AllocError> {
        let names = places.data_names();
        let mut by_name = HashMap::new(alloc);
        for name in names {
            let _ = by_name.insert(name.name, *name)?;
        }
        Ok(DataNames {
            by_word: Vec::from_slice(alloc, names)?,
            by_name,
            said: Vec::from_slice(alloc, places.said_names())?,
            labels: Vec::from_slice(alloc, places.labels())?,
        })
    }

    /// The name whose line made a data word; None where it has no name.
    fn of_word(&self, word: usize) -> Option<&DataName<'t>> {
        let behind = self.by_word.partition_point(|name| name.first <= word);
        let name = self.by_word.get(behind.checked_sub(1)?)?;
        let place = word.checked_sub(name.first)?;
        if place < name.count { Some(name) } else { None }
    }

    /// The name that is this text; None where none is.
    fn called(&self, text: &str) -> Option<&DataName<'t>> {
        self.by_name.get(text.as_bytes())
    }

    /// The lines, from 1, of which the first one says a name for its data and the second one too, or has it as its label, so
    /// that it names nothing; None where there are no two such lines.
    fn lines_of_one_name(&self, text: &str) -> Option<(usize, usize)> {
        let name = text.as_bytes();
        let mut first = None;
        for said in &self.said {
            if said.name == name {
                match first {
                    None => first = Some(said.number),
                    Some(line) => return Some(two_lines(line, said.number)),
                }
            }
        }
        let line = first?;
        for label in &self.labels {
            if label.name == name && label.place.line != line {
                return Some(two_lines(line, label.place.line));
            }
        }
        None
    }

    /// The name that is nearest to a text, where one is near enough.
    fn nearest(&self, alloc: Global, text: &str) -> Result<Option<&'t str>, AllocError> {
        let most = MOST_EDITS.min(text.len() / 2);
        let mut nearest = None;
        let mut least = most.saturating_add(1);
        for name in self.by_word.iter() {
            if name.name.len().abs_diff(text.len()) > most {
                continue;
            }
            let known = text_of(name);
            let edits = osa_distance(alloc, known, text)?;
            if edits < least {
                least = edits;
                nearest = Some(known);
            }
        }
        Ok(nearest)
    }

    /// Adds which names there are, or how words get names where there is none.
    fn put_known(&self, out: &mut TextWriter) {
        if self.by_word.is_empty() {
            out.put(": names need a source text with a comment that is a name, as .data 0 ; total");
            return;
        }
        out.put(": the names are ");
        for (index, name) in self.by_word.iter().take(MOST_TOLD).enumerate() {
            out.put(if index == 0 { "" } else { ", " });
            out.put(text_of(name));
        }
        out.put(if self.by_word.len() > MOST_TOLD {
            ", .."
        } else {
            ""
        });
    }
}

impl<'t> ProgramNames<'t> {
    /// The byte address that a text says: a number, as `8` or `0x8`, or a name, as `total`, or `ring+1` for a word after
    /// the first of its line; each perhaps in brackets. None where it is neither; a number need be no word's address.
    pub fn address_of(&self, text: &str) -> Option<u64> {
        let text = without_brackets(text);
        match number_of(text) {
            Some(address) => Some(address),
            None => self.address_named(text),
        }
    }

    /// The byte address of the word that has a name.
    pub fn address_named(&self, text: &str) -> Option<u64> {
        let (name, behind) = match text.split_once('+') {
            Some((name, digits)) => (name, digits.parse::<usize>().ok()?),
            None => (text, 0),
        };
        let found = self.data_names.called(name)?;
        if behind < found.count {
            let word = found.first.saturating_add(behind) as u64;
            Some(word.saturating_mul(8))
        } else {
            None
        }
    }

    /// Adds why a text says no address: two lines have this name; or no word has it, and which may be meant, which there are,
    /// or how words get names.
    pub fn push_no_address(
        &self,
        alloc: Global,
        out: &mut String,
        text: &str,
    ) -> Result<(), AllocError> {
        let mut why = TextWriter::take(out);
        let found = self.put_no_address(alloc, &mut why, text);
        why.give_back(out)?;
        found
    }

    /// Adds what [`ProgramNames::push_no_address`] does. Memory may be missing to find which name may be meant.
    pub fn put_no_address(
        &self,
        alloc: Global,
        out: &mut TextWriter,
        text: &str,
    ) -> Result<(), AllocError> {
        let text = without_brackets(text);
        let name = match text.split_once('+') {
            Some((name, _)) => name,
            None => text,
        };
        if let Some(found) = self.data_names.called(name) {
            put_beyond(out, text, name, found.count);
        } else if let Some(lines) = self.data_names.lines_of_one_name(name) {
            put_said_twice(out, name, lines);
        } else {
            self.put_unknown(out, text, self.data_names.nearest(alloc, text)?);
        }
        Ok(())
    }

    /// Adds that no word has a name, and which may be meant, or which there are.
    fn put_unknown(&self, out: &mut TextWriter, text: &str, nearest: Option<&str>) {
        out.put("no word is named ");
        out.put_plain(text);
        match nearest {
            Some(name) => {
                out.put(": did you mean ");
                out.put(name);
                out.put("?");
            }
            None => self.data_names.put_known(out),
        }
    }

    /// Adds a byte address in brackets, and after them the name of its word, where it has one: `[8] total`.
    pub fn push_address(&self, out: &mut String, address: u64) -> Result<(), AllocError> {
        let mut text = TextWriter::take(out);
        self.put_address(&mut text, address);
        text.give_back(out)
    }

    /// Adds what [`ProgramNames::push_address`] does.
    pub fn put_address(&self, out: &mut TextWriter, address: u64) {
        out.put("[");
        out.put_number(address);
        out.put("]");
        if self.has_name(address) {
            out.put(" ");
        }
        self.put_data_name(out, address);
    }

    /// Whether the word at a byte address has a name.
    pub fn has_name(&self, address: u64) -> bool {
        self.name_at(address).is_some()
    }

    /// Adds the name of the word at a byte address, as `total`, or `ring+1` where it is not the first of its line; nothing
    /// where it has none.
    pub fn push_data_name(&self, out: &mut String, address: u64) -> Result<(), AllocError> {
        let mut text = TextWriter::take(out);
        self.put_data_name(&mut text, address);
        text.give_back(out)
    }

    /// Adds what [`ProgramNames::push_data_name`] does.
    fn put_data_name(&self, out: &mut TextWriter, address: u64) {
        if let Some(name) = self.name_at(address) {
            out.put(text_of(name));
            put_offset(out, word_of(address).saturating_sub(name.first));
        }
    }

    /// The comment of the line that made the word at a byte address, without the name that it begins with.
    pub fn remark(&self, address: u64) -> &'t str {
        let comment = self.comment(address);
        let Some(name) = self.name_at(address) else {
            return comment;
        };
        let name = text_of(name);
        match comment.split_once(':') {
            Some((front, words)) if front.trim_end() == name => words.trim(),
            _ if comment == name => "",
            _ => comment,
        }
    }

    /// The name of the word at a byte address.
    fn name_at(&self, address: u64) -> Option<&DataName<'t>> {
        if address % 8 == 0 {
            self.data_names.of_word(word_of(address))
        } else {
            None
        }
    }
}

/// Two lines, which are counted from 0, as people count them, in their order.
fn two_lines(one: usize, other: usize) -> (usize, usize) {
    let first = one.min(other).saturating_add(1);
    let second = one.max(other).saturating_add(1);
    (first, second)
}

/// Adds that a name stands on two lines, and so names nothing.
fn put_said_twice(out: &mut TextWriter, name: &str, lines: (usize, usize)) {
    out.put_plain(name);
    out.put(" names no word: lines ");
    out.put_number(lines.0 as u64);
    out.put(" and ");
    out.put_number(lines.1 as u64);
    out.put(" have this name");
}

/// Adds that a text is past the words of a name.
fn put_beyond(out: &mut TextWriter, text: &str, name: &str, count: usize) {
    out.put(name);
    out.put(" names ");
    out.put_number(count as u64);
    out.put(if count == 1 {
        " word, and "
    } else {
        " words, and "
    });
    out.put_plain(text);
    out.put(" is none of them");
}

/// Which data word stands at a byte address.
fn word_of(address: u64) -> usize {
    (address / 8) as usize
}

/// A text without brackets around it.
fn without_brackets(text: &str) -> &str {
    match text.strip_prefix("[") {
        Some(rest) => match rest.strip_suffix("]") {
            Some(inner) => inner.trim(),
            None => text,
        },
        None => text,
    }
}

/// A number, decimal or after `0x` hexadecimal.
fn number_of(text: &str) -> Option<u64> {
    match text.strip_prefix("0x") {
        Some(digits) => u64::from_str_radix(digits, 16).ok(),
        None => text.parse::<u64>().ok(),
    }
}

/// A name as text.
fn text_of<'t>(name: &DataName<'t>) -> &'t str {
    str::from_utf8(name.name).unwrap_or("")
}
