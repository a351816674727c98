//! Which words of the program a user's labels and lines mean.

use crate::named_session::NamedSession;
use crate::user_names::{UserName, read_name};
use std::str;

impl<'i, 't, const S: usize> NamedSession<'i, 't, S> {
    /// The program word that a place means: a label, `LABEL+N` for so many words after it, or a line, of which the
    /// first word on it or after it is meant; None if the program has no such word.
    pub fn word_of_place(&self, text: &str) -> Option<u32> {
        match read_name(text) {
            Some(UserName::Label(name)) => self.word_of_label(name),
            Some(UserName::Line(line)) => self.word_of_line(line),
            _ => None,
        }
    }

    /// The program word at a label, or as many words after it as `LABEL+N` says; None if the program has no such word.
    pub fn word_of_label(&self, name: &str) -> Option<u32> {
        let (label, behind) = match name.split_once('+') {
            Some((label, digits)) => (label.trim(), digits.trim().parse::<u32>().ok()?),
            None => (name, 0),
        };
        let word = self.label_value(label)?.checked_add(behind)?;
        let _there = self.places.line(word as usize)?;
        Some(word)
    }

    /// How many program words stand before a label; None where the text has no such label.
    fn label_value(&self, name: &str) -> Option<u32> {
        for label in self.places.labels() {
            if str::from_utf8(label.name).is_ok_and(|known| known == name) {
                return u32::try_from(label.place.value).ok();
            }
        }
        None
    }

    /// The first program word on a line or after it, lines counting from 1; None if there is none.
    pub fn word_of_line(&self, line: usize) -> Option<u32> {
        let index = line.checked_sub(1)?;
        for word in 0..u16::MAX {
            match self.places.line(usize::from(word)) {
                Some(found) if found.number >= index => return Some(u32::from(word)),
                Some(_) => {}
                None => return None,
            }
        }
        None
    }
}
