//! What is found in a text.

ghost use Rattle.std.specs.Prelude.{◌≡◌, ◌<◌, ◌&&◌, ◌||◌, ◌==◌, nat_lt, vec_len, IsTrue, IfOk, OnOk};
ghost use Rattle.fault_messages.specs.Messages.{is_error, has_error};

use crate::message::{Message, Severity, Spot};
use plain_text::TextWriter;
use std::alloc::{AllocError, Global};

/// How many faults of a text, or warnings of it, are reported at most: no more are looked for.
pub const MOST_FOUND: usize = 10_000;

/// How many suggestions of names are looked for in one text, each among many.
const MOST_SUGGESTIONS: usize = 16;

/// One thing that is found: where, what it is, and how it may be mended; the help is empty where nothing is said of that.
#[derive(Drop)]
struct Note {
    spot: Spot,
    number: Option<u8>,
    words: String,
    help: String,
}

impl Note {
    /// The message that reports it.
    fn message(self, severity: Severity) -> Message
        ensures { result.severity ≡ severity }
    {
        let Note {
            spot,
            number,
            words,
            help,
        } = self;
        Message {
            severity,
            number,
            line: spot.line,
            column: spot.column,
            width: spot.width,
            words,
            help: if help.is_empty() { None } else { Some(help) },
            start: spot.start,
        }
    }
}

/// What is found in a text so far.
#[derive(Drop)]
pub struct Notes {
    /// What is wrong, of what is added next.
    pub words: TextWriter,
    /// How it may be mended.
    pub help: TextWriter,
    suggestions: usize,
    number: Option<u8>,
    found: Vec<Note>,
}

impl Notes {
    /// Nothing.
    pub fn new(alloc: Global) -> Notes {
        Notes {
            words: TextWriter::new(alloc),
            help: TextWriter::new(alloc),
            suggestions: 0,
            number: None,
            found: Vec::new(alloc),
        }
    }

    /// The allocator of what is found.
    pub fn alloc(&self) -> Global {
        self.words.alloc()
    }

    /// How much is found.
    pub fn len(&self) -> usize
        ensures { result ≡ vec_len self.now.found }
    {
        self.found.len()
    }

    /// Whether as much is found as is reported at most: nothing that is found from then on is reported.
    pub fn is_full(&self) -> bool
        ensures { IsTrue result → 0 < vec_len self.now.found }
    {
        self.found.len() >= MOST_FOUND
    }

    /// What is added next has this number: that of a fault, or of a warning.
    pub fn number(&mut self, number: u8)
        ensures { self.new.found ≡ self.old.found }
    {
        self.number = Some(number);
    }

    /// Adds what is found at a place, with the words and the help that are written, unless very much is found already.
    pub fn add(&mut self, spot: Spot) -> Result<(), AllocError>
        ensures { OnOk result (0 < vec_len self.new.found) }
    {
        let number = self.number.take();
        let words = self.words.take_text()?;
        let help = self.help.take_text()?;
        if self.found.len() < MOST_FOUND {
            self.found.push(Note {
                spot,
                number,
                words,
                help,
            })?;
        }
        Ok(())
    }

    /// Adds what is found at a place, in fixed words after those that are written.
    pub fn say(&mut self, spot: Spot, words: &str, help: &str) -> Result<(), AllocError>
        ensures { OnOk result (0 < vec_len self.new.found) }
    {
        self.words.put(words);
        self.add_with(spot, help)
    }

    /// Adds what is found at a place with the words that are written, and fixed words after the help.
    pub fn add_with(&mut self, spot: Spot, help: &str) -> Result<(), AllocError>
        ensures { OnOk result (0 < vec_len self.new.found) }
    {
        self.help.put(help);
        self.add(spot)
    }

    /// Whether one suggestion more may be looked for, which is then counted.
    pub fn may_suggest(&mut self) -> bool {
        if self.suggestions < MOST_SUGGESTIONS {
            self.suggestions += 1;
            true
        } else {
            false
        }
    }

    /// Reports what is found, by messages after others.
    pub fn report(self, severity: Severity, messages: &mut Vec<Message>) -> Result<(), AllocError>
        ensures { OnOk result (has_error messages.new.items
            ≡ (has_error messages.old.items || (is_error severity && nat_lt 0 (vec_len self.found)))) }
    {
        let Notes { found, .. } = self;
        for one in found {
            messages.push(one.message(severity))?;
        }
        Ok(())
    }
}

/// Messages in the order of their lines and columns.
#[tactic(auto, using(crate::proofs::Order::errors_kept))]
pub fn in_order(mut messages: Vec<Message>) -> Result<Vec<Message>, AllocError>
    ensures { IfOk result (λ ordered. has_error ordered.items ≡ has_error messages.items) }
{
    messages.sort_by_key(|message| (message.line, message.column))?;
    Ok(messages)
}
