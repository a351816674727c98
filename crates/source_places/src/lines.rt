//! Lines of a source text.

ghost use Rattle.std.specs.Prelude.{◌≡◌};
ghost use Rattle.std.specs.Option.{option_copied};
ghost use Rattle.text_parts.specs.Pieces.{text_after};

use text_parts::cut;

/// A line that is a word of the program.
#[derive(Clone, Copy, Debug)]
pub struct ProgramLine<'t> {
    /// Its number, from 0.
    pub number: usize,
    /// Its bytes without its end, with label and comment.
    pub bytes: &'t [u8],
}

/// A line that adds data words, by `.data` or `.fill`.
#[derive(Clone, Copy, Debug)]
pub struct DataLine<'t> {
    /// Its number, from 0.
    pub number: usize,
    /// Its bytes without its end, with label and comment.
    pub bytes: &'t [u8],
    /// The first data word that it adds, from 0.
    pub first: usize,
    /// How many it adds, at least 1.
    pub count: usize,
}

/// What stands after the first semicolon of a line; None if it has none.
pub fn comment_of(line: &[u8]) -> Option<&[u8]>
    ensures { option_copied result ≡ text_after 59 line.now }
{
    let (_, comment) = cut(line, b';');
    comment
}
