//! Where the words of a program stand in its text, and what is said there.

use crate::operands::{LinePiece, base_operand, label_operand, statement_of};
use source_places::SourcePlaces;
use std::alloc::{AllocError, Global};

/// The most slips of a text that are reported.
const MOST_SLIPS: usize = 1000;

/// What a slip is, with the number of its page of `explain` (docs/words/faults.txt).
#[derive(Clone, Copy)]
pub(crate) enum SlipKind {
    /// A label is used as an address.
    LabelAddress = 104,
    /// A pointer says how a reference waits.
    PointerControl = 105,
    /// A condition asks a code that nothing has made.
    NoCode = 107,
    /// A stream goes on past the end.
    PastEnd = 108,
    /// A stream goes on into the code of another processor.
    OthersCode = 109,
    /// A loop never ends.
    EndlessLoop = 110,
    /// An address is that of no data word, or none may use the pointer.
    NoDataWord = 111,
    /// A reference waits for what nothing changes.
    EndlessWait = 112,
    /// A result is lost.
    LostResult = 113,
    /// A reference waits for what comes only after such waits.
    NobodyFirst = 116,
}

/// What is likely not meant at a place of a text.
#[derive(Debug, Drop)]
pub struct Slip {
    /// The number of its page of `explain`.
    pub number: u8,
    /// The line, from 1.
    pub line: usize,
    /// The first byte of the place on its line, from 1.
    pub column: usize,
    /// How many bytes the place has, at least 1.
    pub width: usize,
    /// What is likely wrong, without a full stop.
    pub words: String,
    /// How it may be mended.
    pub help: String,
    /// How many bytes of the text stand before the line.
    pub start: usize,
}

/// Where a slip stands in its text, as `Slip` has it.
#[derive(Clone, Copy)]
struct SlipPlace {
    line: usize,
    column: usize,
    width: usize,
    start: usize,
}

/// The slips of a text so far.
#[derive(Drop)]
pub(crate) struct Slips<'t> {
    alloc: Global,
    places: SourcePlaces<'t>,
    /// How many bytes of the text stand before the line of each word of the program.
    starts: Vec<usize>,
    found: Vec<Slip>,
}

impl<'t> Slips<'t> {
    /// None yet, of a text.
    pub(crate) fn of(alloc: Global, text: &'t [u8]) -> Result<Slips<'t>, AllocError> {
        let places = SourcePlaces::of(alloc, text)?;
        Ok(Slips {
            alloc,
            starts: starts_of(alloc, &places, text)?,
            places,
            found: Vec::new(alloc),
        })
    }

    /// The allocator of what is reported.
    pub(crate) fn alloc(&self) -> Global {
        self.alloc
    }

    /// The number of the line, from 1, of a word of the program.
    pub(crate) fn line(&self, word: usize) -> Option<usize> {
        Some(self.places.line(word)?.number.saturating_add(1))
    }

    /// The number of the line, from 1, that adds a data word.
    pub(crate) fn data_line(&self, cell: usize) -> Option<usize> {
        for line in self.places.data_lines() {
            if line.first <= cell && cell - line.first < line.count {
                return Some(line.number.saturating_add(1));
            }
        }
        None
    }

    /// Whether no more are reported.
    pub(crate) fn is_full(&self) -> bool {
        self.found.len() >= MOST_SLIPS
    }

    /// The label that is the operand of the LIT at a word of the program; None where that is a number.
    pub(crate) fn label_of(&self, word: usize) -> Option<&'t [u8]> {
        label_operand(self.places.line(word)?.bytes)
    }

    /// The address of the first data word that the line of a label adds, if it adds any.
    pub(crate) fn data_address(&self, label: &[u8]) -> Option<usize> {
        let number = self.label_line(label)?;
        for line in self.places.data_lines() {
            if line.number == number {
                return Some(line.first.saturating_mul(8));
            }
        }
        None
    }

    /// The number of the line, from 0, of a label.
    fn label_line(&self, label: &[u8]) -> Option<usize> {
        for known in self.places.labels() {
            if known.name == label {
                return Some(known.place.line);
            }
        }
        None
    }

    /// Warns of a word of the program.
    pub(crate) fn warn(
        &mut self,
        kind: SlipKind,
        word: usize,
        words: String,
        help: String,
    ) -> Result<(), AllocError> {
        let Some(place) = self.statement_place(word) else {
            return Ok(());
        };
        self.warn_at(kind, place, words, help)
    }

    /// Warns of the base of the reference of a word of the program.
    pub(crate) fn warn_of_base(
        &mut self,
        kind: SlipKind,
        word: usize,
        words: String,
        help: String,
    ) -> Result<(), AllocError> {
        let Some(place) = self.base_place(word) else {
            return Ok(());
        };
        self.warn_at(kind, place, words, help)
    }

    /// Where the statement of a word of the program stands.
    fn statement_place(&self, word: usize) -> Option<SlipPlace> {
        let line = self.places.line(word)?;
        Some(self.place_of(word, line.number, statement_of(line.bytes)))
    }

    /// Where the base of the reference of a word of the program stands.
    fn base_place(&self, word: usize) -> Option<SlipPlace> {
        let line = self.places.line(word)?;
        Some(self.place_of(word, line.number, base_operand(line.bytes)))
    }

    /// Where a piece of the line of this number, from 0, stands, which is that of a word of the program.
    fn place_of(&self, word: usize, number: usize, piece: LinePiece) -> SlipPlace {
        SlipPlace {
            line: number.saturating_add(1),
            column: piece.start.saturating_add(1),
            width: piece.bytes.len().max(1),
            start: self.starts.get(word).copied().unwrap_or(0),
        }
    }

    fn warn_at(
        &mut self,
        kind: SlipKind,
        place: SlipPlace,
        words: String,
        help: String,
    ) -> Result<(), AllocError> {
        if self.is_full() {
            return Ok(());
        }
        let SlipPlace {
            line,
            column,
            width,
            start,
        } = place;
        self.found.push(Slip {
            number: kind as u8,
            line,
            column,
            width,
            words,
            help,
            start,
        })?;
        Ok(())
    }

    /// All of them, in the order in which they were found.
    pub(crate) fn into_found(self) -> Vec<Slip> {
        self.found
    }
}

/// How many bytes of a text stand before the line of each word of its program.
fn starts_of(alloc: Global, places: &SourcePlaces, text: &[u8]) -> Result<Vec<usize>, AllocError> {
    let mut starts = Vec::new(alloc);
    let mut number = 0usize;
    let mut start = 0usize;
    for (place, byte) in text.iter().enumerate() {
        if *byte == b'\n' {
            if is_line_of(places, starts.len(), number) {
                starts.push(start)?;
            }
            number = number.saturating_add(1);
            start = place.saturating_add(1);
        }
    }
    if is_line_of(places, starts.len(), number) {
        starts.push(start)?;
    }
    Ok(starts)
}

/// Whether a line is that of a word of the program.
fn is_line_of(places: &SourcePlaces, word: usize, number: usize) -> bool {
    match places.line(word) {
        Some(line) => line.number == number,
        None => false,
    }
}
