//! The lines of a text.

ghost use Rattle.std.specs.Prelude.{◌≡◌, ◌<◌, ◌∷◌, length};
ghost use Rattle.std.specs.List.{before_first, after_first};
ghost use Rattle.text_parts.specs.Lines.{is_line_end, lines_of};

use crate::cutting::cut;

/// The first line of a text, without the line feed that ends it, and the text after that.
pub fn split_line(text: &[u8]) -> (&[u8], &[u8])
    ensures line { result.0.now ≡ before_first is_line_end text.now }
    ensures after { result.1.now ≡ after_first is_line_end text.now }
    ensures lines { 0 < length text.now → lines_of text.now ≡ result.0.now ∷ lines_of result.1.now }
{
    let (line, after) = cut(text, b'\n');
    match after {
        Some(after) => (line, after),
        None => (line, &[]),
    }
}
