//! Lines of a file, as they were written.

ghost use Rattle.std.specs.Prelude.{◌≡◌, ◌++◌, ◌-◌, [], IfOk, OnOk, string_bytes};
ghost use Rattle.std.specs.List.{slice_index_or};
ghost use Rattle.std.proofs.Math.ListN.{replicate};
ghost use Rattle.text_parts.specs.Pieces.{pieces};
ghost use Rattle.expectation_files.specs.Words.{words_of, words_on, in_one_line};
ghost use Rattle.expectation_files.specs.Files.{names_operations, words_of_rule, texts_of_rules};
ghost use Rattle.expectation_files.specs.Seen.{numbers_of, texts_of};

use crate::requirements::WrittenLine;
use crate::words::{next_word, statement_of, text_of, word_at};
use std::alloc::{AllocError, Global};
use text_parts::cut;

/// The line of this number of a text, from 1; empty where the text has no such line.
pub fn line_of(text: &[u8], number: usize) -> &[u8]
    ensures { result.now ≡ slice_index_or (pieces 10 text.now) (number - 1) [] }
{
    let mut left = number.saturating_sub(1);
    let mut rest = Some(text);
    while let Some(bytes) = rest {
        let (line, following) = cut(bytes, b'\n');
        if left == 0 {
            return line;
        }
        left -= 1;
        rest = following;
    }
    &[]
}

/// The line of this number of a text, from 1, as it was written; without words where the text has no such line.
pub fn written_line(alloc: Global, text: &[u8], number: usize) -> Result<WrittenLine, AllocError>
    ensures number { IfOk result (λ l. l.number ≡ number) }
    ensures words { IfOk result (λ l. string_bytes l.words
        ≡ in_one_line (words_on (slice_index_or (pieces 10 text.now) (number - 1) []))) }
{
    written(alloc, number, line_of(text, number))
}

/// The words of a line, which has this number.
pub(crate) fn written(alloc: Global, number: usize, line: &[u8]) -> Result<WrittenLine, AllocError>
    ensures number { IfOk result (λ l. l.number ≡ number) }
    ensures words { IfOk result (λ l. string_bytes l.words ≡ in_one_line (words_on line.now)) }
{
    let words = one_line(alloc, statement_of(line))?;
    Ok(WrittenLine { number, words })
}

/// The words of a text, with a space between each two.
fn one_line(alloc: Global, text: &[u8]) -> Result<String, AllocError>
    ensures { IfOk result (λ s. string_bytes s ≡ in_one_line (words_of text.now)) }
{
    let mut words = String::new(alloc);
    let Some((first, mut rest)) = next_word(text) else {
        return Ok(words);
    };
    words.push_str(text_of(first))?;
    while let Some((word, following)) = next_word(rest) {
        words.push_str(" ")?;
        words.push_str(text_of(word))?;
        rest = following;
    }
    Ok(words)
}

/// Adds the lines of so many rules that a line says.
pub(crate) fn push_rule_lines(
    alloc: Global,
    lines: &mut Vec<WrittenLine>,
    number: usize,
    line: &[u8],
    count: usize,
) -> Result<(), AllocError>
    ensures numbers { OnOk result (numbers_of lines.new.items ≡ numbers_of lines.old.items ++ replicate count number) }
    ensures texts { OnOk result (texts_of lines.new.items ≡ texts_of lines.old.items ++ texts_of_rules (words_on line.now) count) }
{
    for place in 0..count {
        lines.push(written_rule(alloc, number, line, place)?)?;
    }
    Ok(())
}

/// The words that say the rule at a place of those of a line: all of them, but of several operations that one alone.
fn written_rule(
    alloc: Global,
    number: usize,
    line: &[u8],
    place: usize,
) -> Result<WrittenLine, AllocError>
    ensures number { IfOk result (λ l. l.number ≡ number) }
    ensures words { IfOk result (λ l. string_bytes l.words ≡ in_one_line (words_of_rule place (words_on line.now))) }
{
    let Some((name, rest)) = next_word(statement_of(line)) else {
        return written(alloc, number, line);
    };
    if !names_operations(name) {
        return written(alloc, number, line);
    }
    let mut words = String::from_str(alloc, text_of(name))?;
    words.push_str(" ")?;
    words.push_str(text_of(word_at(rest, place)))?;
    Ok(WrittenLine { number, words })
}

/// Whether a line that begins with this word names operations.
fn names_operations(name: &[u8]) -> bool
    ensures { result ≡ names_operations name.now }
{
    name == b"forbid".as_slice() || name == b"require".as_slice()
}
