//! Cures that change a letter or two.

use crate::marked::Marked;
use crate::pieces::{end_of, is_blank, split_head, text_of, trimmed};
use crate::proposals::Proposals;
use fault_messages::Token;
use std::alloc::AllocError;

/// Which letters a cure changes.
#[derive(Clone, Copy, Debug, PartialEq, Eq)]
enum LetterCure {
    /// A comment gets its semicolon.
    Comment,
    /// A colon is taken away.
    Colon,
    /// The blank before a colon is taken away.
    LabelBlank,
    /// The blank before a suffix is taken away.
    SuffixBlank,
    /// A register gets a small letter.
    SmallLetter,
    /// Zeros in front of a register's number are taken away.
    Zeros,
    /// What separates digits is taken away.
    Separators,
    /// One of two bars is taken away.
    OneBar,
    /// `&` becomes a bar.
    Bar,
    /// A name becomes a label.
    LabelColon,
}

/// The begins of sentences, and what they mean.
const SENTENCES: [(&str, LetterCure); 11] = [
    ("a comment begins with ;", LetterCure::Comment),
    ("take the colon away", LetterCure::Colon),
    ("take the blank away", LetterCure::LabelBlank),
    ("no blank stands before a suffix", LetterCure::SuffixBlank),
    ("registers have a small r", LetterCure::SmallLetter),
    ("target registers have a small t", LetterCure::SmallLetter),
    ("registers have no zeros in front", LetterCure::Zeros),
    ("a number has digits alone", LetterCure::Separators),
    ("a bar stands between two operations", LetterCure::OneBar),
    ("a bar | stands between two operations", LetterCure::Bar),
    ("a label has a colon: ", LetterCure::LabelColon),
];

/// What a sentence means among these.
fn cure_among(sentences: &[(&str, LetterCure)], help: &str) -> Option<LetterCure> {
    for (begin, cure) in sentences {
        if help.starts_with(*begin) {
            return Some(*cure);
        }
    }
    None
}

/// Proposes what a sentence about a letter or two describes.
pub(crate) fn propose_letters(out: &mut Proposals, marked: &Marked) -> Result<(), AllocError> {
    match cure_among(&SENTENCES, marked.help) {
        Some(LetterCure::Comment) => propose_comment(out, marked),
        Some(LetterCure::Colon) => match marked.line.label() {
            Some(label) => {
                let colon = marked.line.whole.after(end_of(label)).before(1);
                out.take_away(&marked.line, colon, "take the colon away")
            }
            None => Ok(()),
        },
        Some(LetterCure::LabelBlank) => match marked.line.label() {
            Some(label) => {
                let blanks = label.after(trimmed_length(label));
                out.take_away(&marked.line, blanks, "take the blank away")
            }
            None => Ok(()),
        },
        Some(LetterCure::SuffixBlank) => {
            let end = end_of(marked.head());
            let count = marked.mark.start.saturating_sub(end);
            let blanks = marked.line.whole.after(end).before(count);
            out.take_away(&marked.line, blanks, "take the blank away")
        }
        Some(LetterCure::SmallLetter) => propose_small(out, marked),
        Some(LetterCure::Zeros) => propose_without_zeros(out, marked),
        Some(LetterCure::Separators) => propose_digits(out, marked),
        Some(LetterCure::OneBar) => propose_one_bar(out, marked),
        Some(LetterCure::Bar) => propose_bar(out, marked),
        Some(LetterCure::LabelColon) => {
            let name = split_head(marked.mark).0;
            let text = format!(in out.alloc(); "{}:", text_of(name))?;
            out.write(&marked.line, name, text.as_str())
        }
        None => Ok(()),
    }
}

/// How many bytes a piece has up to the blanks at its end.
fn trimmed_length(piece: Token) -> usize {
    match piece.bytes.iter().rposition(|byte| !is_blank(*byte)) {
        Some(last) => last.saturating_add(1),
        None => 0,
    }
}

/// Proposes a semicolon in place of what begins a comment on other machines, at the mark or after it.
fn propose_comment(out: &mut Proposals, marked: &Marked) -> Result<(), AllocError> {
    let rest = marked.line.whole.after(marked.mark.start);
    for (place, byte) in rest.bytes.iter().enumerate() {
        let next = rest
            .bytes
            .get(place.saturating_add(1))
            .copied()
            .unwrap_or(b' ');
        let width = match (*byte, next) {
            (b';', _) => return Ok(()),
            (b'/', b'/' | b'*') => 2,
            (b'#', next) if !next.is_ascii_digit() => 1,
            (b'*' | b'!', _) if place == 0 => 1,
            _ => 0,
        };
        if width > 0 {
            let sign = rest.after(place).before(width);
            return out.write(&marked.line, sign, ";");
        }
    }
    Ok(())
}

/// Proposes the mark with a small first letter.
fn propose_small(out: &mut Proposals, marked: &Marked) -> Result<(), AllocError> {
    let mut text = String::from_str(out.alloc(), text_of(marked.mark))?;
    text.make_ascii_lowercase();
    out.write(&marked.line, marked.mark, text.as_str())
}

/// Proposes the mark without the zeros after its first letter.
fn propose_without_zeros(out: &mut Proposals, marked: &Marked) -> Result<(), AllocError> {
    let digits = marked.mark.after(1);
    let zeros = digits.bytes.iter().position(|byte| *byte != b'0');
    let count = zeros.unwrap_or(digits.bytes.len().saturating_sub(1));
    let text = format!(in out.alloc(); "r{}", text_of(digits.after(count)))?;
    out.write(&marked.line, marked.mark, text.as_str())
}

/// Proposes the digits of a number in which only `_` stands between them.
fn propose_digits(out: &mut Proposals, marked: &Marked) -> Result<(), AllocError> {
    let mut text = String::new(out.alloc());
    for byte in marked.mark.bytes {
        if byte.is_ascii_digit() {
            text.push(char::from(*byte))?;
        } else if *byte != b'_' {
            return Ok(());
        }
    }
    out.write(&marked.line, marked.mark, text.as_str())
}

/// Proposes to take the bar away at the mark or before it.
fn propose_one_bar(out: &mut Proposals, marked: &Marked) -> Result<(), AllocError> {
    let front = marked
        .line
        .whole
        .before(marked.mark.start.saturating_add(1));
    match front.bytes.iter().rposition(|byte| *byte == b'|') {
        Some(place) => {
            let bar = front.after(place).before(1);
            out.take_away(&marked.line, bar, "take the bar away")
        }
        None => Ok(()),
    }
}

/// Proposes a bar in place of the first `&` or `&&` of the mark.
fn propose_bar(out: &mut Proposals, marked: &Marked) -> Result<(), AllocError> {
    let Some(place) = marked.mark.bytes.iter().position(|byte| *byte == b'&') else {
        return Ok(());
    };
    let rest = marked.mark.after(place);
    let width = if rest.bytes.starts_with(b"&&") { 2 } else { 1 };
    out.write(&marked.line, rest.before(width), "|")
}
