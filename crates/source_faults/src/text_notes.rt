//! What is wrong with a text as a whole.

use crate::lines::CountedLine;
use crate::operations::directive_named;
use crate::pieces::{split_head, trimmed};
use crate::reader::SourceFacts;
use asm_line::{Directive, Fault, Item};
use fault_messages::{Notes, Spot, Token, put_shown};
use std::alloc::AllocError;

const MAX_ENTRIES: usize = 16;

const MAX_PROGRAM_WORDS: usize = 65_536;

/// How many data words a memory has at most.
pub(crate) const MAX_CELLS: usize = 262_144;

/// What the first lines of a text have: the lines, from 1, of the directives that may stand once, and how much there is.
#[derive(Clone, Copy)]
pub(crate) struct Totals {
    profile: Option<usize>,
    slim: Option<usize>,
    chain: Option<usize>,
    retry: Option<usize>,
    trap: Option<usize>,
    entries: usize,
    cells: usize,
    has_entry: bool,
    has_data: bool,
    has_word: bool,
}

impl Totals {
    pub(crate) const NONE: Totals = Totals {
        profile: None,
        slim: None,
        chain: None,
        retry: None,
        trap: None,
        entries: 0,
        cells: 0,
        has_entry: false,
        has_data: false,
        has_word: false,
    };

    /// Takes a line by its form, whatever fault it has.
    pub(crate) fn see(&mut self, line: &CountedLine) {
        let head = match line.label() {
            Some(label) if label.begins(b'.') => trimmed(label),
            _ => split_head(line.statement()).0,
        };
        if head.begins(b'.') {
            match directive_named(head.bytes) {
                Some(Directive::Entry) => self.has_entry = true,
                Some(Directive::Data | Directive::Fill) => self.has_data = true,
                Some(Directive::Word) => self.has_word = true,
                Some(
                    Directive::Profile
                    | Directive::Slim
                    | Directive::Chain
                    | Directive::Retry
                    | Directive::Trap,
                )
                | None => {}
            }
        }
    }

    /// Takes what a line without a fault adds, and notes what the text may not have once more.
    pub(crate) fn take(
        &mut self,
        notes: &mut Notes,
        line: &CountedLine,
        item: Item,
    ) -> Result<(), AllocError> {
        match item {
            Item::Nothing => Ok(()),
            Item::Profile(_) => note_once(notes, line, &mut self.profile),
            Item::Slim(_) => note_once(notes, line, &mut self.slim),
            Item::Chain(_) => note_once(notes, line, &mut self.chain),
            Item::Retry(_) => note_once(notes, line, &mut self.retry),
            Item::Trap(_) => note_once(notes, line, &mut self.trap),
            Item::Entry(_) => self.take_entry(notes, line),
            Item::Instruction(_) | Item::Word(_) => take_word(notes, line),
            Item::Cells { count, .. } => self.take_cells(notes, line, count as usize),
        }
    }

    fn take_entry(&mut self, notes: &mut Notes, line: &CountedLine) -> Result<(), AllocError> {
        self.entries = self.entries.saturating_add(1);
        if self.entries == MAX_ENTRIES + 1 {
            let help = "a machine has at most 16 processors";
            notes.number(Fault::Limit.number());
            notes.say(head_spot(line), "this is the 17th .entry", help)?;
        }
        Ok(())
    }

    fn take_cells(
        &mut self,
        notes: &mut Notes,
        line: &CountedLine,
        count: usize,
    ) -> Result<(), AllocError> {
        let before = self.cells;
        self.cells = before.saturating_add(count);
        if before <= MAX_CELLS && self.cells > MAX_CELLS {
            let words = "a memory has at most 262144 words, and this line adds more";
            notes.number(Fault::Limit.number());
            notes.say(head_spot(line), words, "take data words out")?;
        }
        Ok(())
    }

    /// Notes what a text lacks that ends at this place: on its first line that it has no entry, all else at its end.
    pub(crate) fn note_missing(
        &self,
        notes: &mut Notes,
        source: &SourceFacts,
        end: Spot,
    ) -> Result<(), AllocError> {
        if !self.has_entry {
            note_no_entry(notes, source)?;
        }
        if source.words() == 0 {
            notes.number(Fault::Directive.number());
            notes.say(
                end,
                "the text has no instruction",
                "the shortest program is QUIT",
            )?;
        }
        if !self.has_data {
            let help = if self.has_word {
                ".word adds an instruction, and no data: write .data"
            } else {
                ".data 0 adds one"
            };
            notes.number(Fault::Directive.number());
            notes.say(end, "the text has no data word", help)?;
        }
        Ok(())
    }
}

/// Notes that the text has no entry.
fn note_no_entry(notes: &mut Notes, source: &SourceFacts) -> Result<(), AllocError> {
    notes.help.put("write .entry ");
    put_shown(&mut notes.help, source.first_label().unwrap_or(b"0"));
    notes.number(Fault::Directive.number());
    notes.say(
        Spot::FIRST,
        "the text has no .entry",
        " on a line of its own: a processor begins there",
    )
}

/// Where the last line of a text begins; what follows its last line feed is a line where it has a byte.
pub(crate) fn last_line(text: &[u8]) -> Spot {
    let mut last = Spot::FIRST;
    for (place, byte) in text.iter().enumerate() {
        if *byte == b'\n' && place + 1 < text.len() {
            last.line = last.line.saturating_add(1);
            last.start = place + 1;
        }
    }
    last
}

/// The place of the head of a line's statement.
fn head_spot(line: &CountedLine) -> Spot {
    line.spot(split_head(line.statement()).0)
}

/// Notes that a directive stands a second time, or keeps where it stands first.
fn note_once(
    notes: &mut Notes,
    line: &CountedLine,
    first: &mut Option<usize>,
) -> Result<(), AllocError> {
    let Some(number) = *first else {
        *first = Some(line.text.number + 1);
        return Ok(());
    };
    put_shown(&mut notes.words, split_head(line.statement()).0.bytes);
    notes.words.put(" stands on line ");
    notes.words.put_number(number as u64);
    notes.number(Fault::Directive.number());
    notes.say(head_spot(line), " already", "it may stand once")
}

fn take_word(notes: &mut Notes, line: &CountedLine) -> Result<(), AllocError> {
    if line.here == MAX_PROGRAM_WORDS {
        let words = "a program has at most 65536 words, and this is one more";
        notes.number(Fault::Limit.number());
        notes.say(head_spot(line), words, "take instruction lines out")?;
    }
    Ok(())
}

/// Notes that a byte of the line is above 7F.
pub(crate) fn note_foreign(notes: &mut Notes, line: &CountedLine) -> Result<(), AllocError> {
    let rest = Token::of_line(line.text.bytes).after(length_of(line.text.bytes, true));
    let Some(byte) = rest.bytes.first() else {
        return Ok(());
    };
    let marked = rest.before(length_of(rest.bytes, false));
    notes.words.put("the byte ");
    notes.words.put_capital_digits(u64::from(*byte));
    notes.number(Fault::NotAscii.number());
    notes.say(
        line.spot(marked),
        " is above 7F",
        "outside comments a text is ASCII alone",
    )
}

/// How many bytes a text begins with that are ASCII, or that are not.
fn length_of(text: &[u8], is_ascii: bool) -> usize {
    for (place, byte) in text.iter().enumerate() {
        if byte.is_ascii() != is_ascii {
            return place;
        }
    }
    text.len()
}
