//! Pieces of a statement, each judged by what a line of its own with it would be answered.

use crate::data_lines::DataLines;
use crate::form::OperandForm;
use crate::lines::{CountedLine, CountedLines};
use crate::pieces::split_head;
use asm_line::{Fault, Item, Place, SourceLine, read_line};
use asm_text::{Outline, outline_of};
use fault_messages::{Spot, Token};
use source_places::SourcePlaces;
use std::alloc::{AllocError, Global};

/// How many labels of a text are compared with a name that none has.
const MOST_NAMES: usize = 16_384;

/// What is known of a text before its lines are read.
#[derive(Drop)]
pub(crate) struct SourceFacts<'t> {
    text: &'t [u8],
    outline: Outline<'t>,
    names: Vec<&'t [u8]>,
}

impl<'t> SourceFacts<'t> {
    /// Of this text.
    pub(crate) fn of(alloc: Global, text: &'t [u8]) -> Result<SourceFacts<'t>, AllocError> {
        let mut source = SourceFacts {
            text,
            outline: outline_of(alloc, text)?,
            names: Vec::new(alloc),
        };
        source.names = names_of(alloc, &source)?;
        Ok(source)
    }

    /// How many program words it has.
    pub(crate) fn words(&self) -> usize {
        self.outline.words
    }

    /// The last label whose value is 0: that of the first instruction, where it has one.
    pub(crate) fn first_label(&self) -> Option<&'t [u8]> {
        let mut first = None;
        for name in &self.names {
            if let Some(place) = self.outline.labels.find(*name) {
                if place.value == 0 {
                    first = Some(*name);
                }
            }
        }
        first
    }
}

/// The first labels of a text that are names, in the order of their lines.
fn names_of<'t>(alloc: Global, source: &SourceFacts<'t>) -> Result<Vec<&'t [u8]>, AllocError> {
    let mut names = Vec::new(alloc);
    for line in CountedLines::of(source.text) {
        if let Some(label) = line.source.label
            && names.len() < MOST_NAMES
            && Reader::at(source, line).may_be_label(label)
        {
            names.push(label)?;
        }
    }
    Ok(names)
}

/// Reads statements in the place of a line of a text.
#[derive(Clone, Copy)]
pub(crate) struct Reader<'s, 't> {
    source: &'s SourceFacts<'t>,
    line: CountedLine<'t>,
}

impl<'s, 't> Reader<'s, 't> {
    /// In the place of this line.
    pub(crate) fn at(source: &'s SourceFacts<'t>, line: CountedLine<'t>) -> Reader<'s, 't> {
        Reader { source, line }
    }

    /// The line.
    pub(crate) fn line(&self) -> &CountedLine<'t> {
        &self.line
    }

    /// The place of a piece of the line in the text.
    pub(crate) fn spot(&self, token: Token) -> Spot {
        self.line.spot(token)
    }

    /// The first labels of the text, in the order of their lines.
    pub(crate) fn names(&self) -> &[&'t [u8]] {
        &self.source.names
    }

    /// How many program words the text has.
    pub(crate) fn words(&self) -> usize {
        self.source.outline.words
    }

    /// How many program words stand before the line.
    pub(crate) fn here(&self) -> usize {
        self.line.here
    }

    /// Where the data words of the text stand in memory.
    pub(crate) fn data_lines(&self, alloc: Global) -> Result<DataLines, AllocError> {
        DataLines::of(alloc, self.source, self.source.text)
    }

    /// The address of the first data word of a line whose comment is this name; None where there is none.
    pub(crate) fn address_named(
        &self,
        alloc: Global,
        name: &[u8],
    ) -> Result<Option<usize>, AllocError> {
        let places = SourcePlaces::of(alloc, self.source.text)?;
        for known in places.data_names() {
            if known.name == name {
                return Ok(Some(known.first.saturating_mul(8)));
            }
        }
        Ok(None)
    }

    /// Where a label stands first.
    pub(crate) fn place_of(&self, label: &[u8]) -> Option<Place> {
        self.source.outline.labels.find(label)
    }

    /// What a line with this label and statement adds, or its fault.
    pub(crate) fn item(&self, label: Option<&[u8]>, statement: &[u8]) -> Result<Item, Fault> {
        let outline = &self.source.outline;
        read_line(
            outline.profile,
            &outline.labels,
            outline.words,
            self.line.text.number,
            self.line.here,
            &SourceLine { label, statement },
        )
    }

    /// What the line adds, or its fault.
    pub(crate) fn own_item(&self) -> Result<Item, Fault> {
        self.item(self.line.source.label, self.line.source.statement)
    }

    /// The line's instruction, without its lookahead.
    pub(crate) fn instruction(&self) -> Token<'t> {
        let statement = self.line.statement();
        if statement.begins(b'@') {
            split_head(statement).1
        } else {
            statement
        }
    }

    /// Whether a text may be a label.
    pub(crate) fn may_be_label(&self, text: &[u8]) -> bool {
        self.item(Some(text), b"").err() != Some(Fault::Unknown)
    }

    /// Whether the head of a statement is one of the text's profile.
    pub(crate) fn knows(&self, head: &[u8]) -> bool {
        self.item(None, head).err() != Some(Fault::Unknown)
    }

    /// Whether the operation of a name may have this suffix.
    pub(crate) fn knows_suffix(
        &self,
        alloc: Global,
        name: &[u8],
        suffix: &[u8],
    ) -> Result<bool, AllocError> {
        let mut head = Vec::from_slice(alloc, name)?;
        head.extend_from_slice(suffix)?;
        Ok(self.knows(&head))
    }

    /// What is wrong with an operand of this form.
    pub(crate) fn operand_fault(
        &self,
        alloc: Global,
        form: OperandForm,
        operand: &[u8],
    ) -> Result<Option<Fault>, AllocError> {
        let (before, behind) = form.frame();
        let mut statement = Vec::from_slice(alloc, before.as_bytes())?;
        statement.extend_from_slice(operand)?;
        statement.extend_from_slice(behind.as_bytes())?;
        Ok(self.item(None, &statement).err())
    }
}
