//! Where the program's words and the labels of a source text stand.

ghost use Rattle.std.specs.Prelude.{◌≡◌, IfOk, slice_get};
ghost use Rattle.std.specs.Option.{option_map};
ghost use Rattle.source_places.specs.ProgramLines.{program_lines};
ghost use Rattle.source_places.specs.DataLines.{data_lines};
ghost use Rattle.source_places.specs.DataNames.{data_names, said_names};
ghost use Rattle.source_places.specs.SourceLabels.{labels_of};
ghost use Rattle.source_places.specs.SourcePlaces.{line_seen, lines_seen, labels_seen, data_lines_seen};
ghost use Rattle.source_places.specs.SourcePlaces.{data_names_seen};

use crate::data_names::{DataName, own_names, said_names};
use crate::lines::{DataLine, ProgramLine};
use crate::walks::{data_lines, first_labels, program_lines};
use asm_line::Place;
use asm_text::outline_of;
use std::alloc::{AllocError, Global};

/// A label where it stands first.
#[derive(Clone, Copy, Debug)]
pub struct SourceLabel<'t> {
    /// Its name, whether or not it is one that a text may have.
    pub name: &'t [u8],
    /// Its line and its value, the number of program words before that line.
    pub place: Place,
}

/// Which line of a source text made which word of its program, and where its labels stand. A text with faults has
/// places too: of those lines that are program words by their form, and of all labels.
#[derive(Drop)]
pub struct SourcePlaces<'t> {
    lines: Vec<ProgramLine<'t>>,
    labels: Vec<SourceLabel<'t>>,
    data_lines: Vec<DataLine<'t>>,
    said_names: Vec<DataName<'t>>,
    data_names: Vec<DataName<'t>>,
}

impl<'t> SourcePlaces<'t> {
    /// The places of a text. Only memory can be missing.
    pub fn of(alloc: Global, text: &'t [u8]) -> Result<SourcePlaces<'t>, AllocError>
        ensures lines { IfOk result (λ s. lines_seen s.lines.items ≡ program_lines text.now) }
        ensures labels { IfOk result (λ s. labels_seen s.labels.items ≡ labels_of text.now) }
        ensures data { IfOk result (λ s. data_lines_seen s.data_lines.items ≡ data_lines text.now) }
        ensures said { IfOk result (λ s. data_names_seen s.said_names.items ≡ said_names text.now) }
        ensures names { IfOk result (λ s. data_names_seen s.data_names.items ≡ data_names text.now) }
    {
        let outline = outline_of(alloc, text)?;
        let lines = program_lines(alloc, text)?;
        let labels = first_labels(alloc, &outline.labels, text)?;
        let data_lines = data_lines(alloc, &outline, text)?;
        let said_names = said_names(alloc, &data_lines)?;
        let data_names = own_names(alloc, &outline.labels, &said_names)?;
        Ok(SourcePlaces {
            lines,
            labels,
            data_lines,
            said_names,
            data_names,
        })
    }

    /// The line of a word of the program, which is numbered from 0; None where the text has no such word.
    pub fn line(&self, word: usize) -> Option<&ProgramLine<'t>>
        ensures { option_map (λ l. line_seen l.now) result ≡ slice_get (lines_seen self.now.lines.items) word }
    {
        self.lines.get(word)
    }

    /// The labels in the order of their lines, each where it stands first.
    pub fn labels(&self) -> &[SourceLabel<'t>]
        ensures { labels_seen result.now ≡ labels_seen self.now.labels.items }
    {
        &self.labels
    }

    /// The lines that add data words, in their order; a line that has a fault, or adds more than a memory has room for,
    /// is not among them.
    pub fn data_lines(&self) -> &[DataLine<'t>]
        ensures { data_lines_seen result.now ≡ data_lines_seen self.now.data_lines.items }
    {
        &self.data_lines
    }
    /// The names that the lines of data say, in the order of the lines: a line's label, or what its comment says where that
    /// is a name, or begins with one and a colon. They are the first 4,096 of a text.
    pub fn said_names(&self) -> &[DataName<'t>]
        ensures { data_names_seen result.now ≡ data_names_seen self.now.said_names.items }
    {
        &self.said_names
    }

    /// Those of them that name their words: one that two lines say, or that is a label of another line, names nothing.
    pub fn data_names(&self) -> &[DataName<'t>]
        ensures { data_names_seen result.now ≡ data_names_seen self.now.data_names.items }
    {
        &self.data_names
    }
}
