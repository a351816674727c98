//! Lines: what stands on one, and what it adds.

ghost use Rattle.std.specs.Prelude.{◌≡◌, ℕ, List, ◌≤◌, ◌==◌, ◌∷◌, length, IfOk};
ghost use Rattle.std.specs.Option.{option_copied};
ghost use Rattle.std.specs.List.{list_any};
ghost use Rattle.asm_line.specs.Text.{is_name};
ghost use Rattle.text_parts.specs.Pieces.{text_before, text_after};
ghost use Rattle.asm_line.specs.Lines.{line, lines, is_word, is_label, label_fault, statement_item, directive_item};
ghost use Rattle.asm_line.specs.Lines.{line_item};
ghost use Rattle.asm_line.specs.Labels.{places_of};
ghost use Rattle.asm_line.specs.Lines.{rest_lines};
ghost use Rattle.text_parts.specs.Pieces.{rest_length};
ghost use Rattle.asm_line.specs.Ranges.{IsItemInRange};
ghost use Rattle.asm_line.specs.SourceLines.{line_seen};

use crate::arguments::read_arguments;
use crate::directive::item_of_directive;
use crate::fault::{Fault, both};
use crate::heads::directive_of;
use crate::instruction::instruction;
use crate::item::Item;
use crate::labels::Labels;
use crate::names;
use crate::operation::Directive;
use crate::text::{begins, is_name, split_head, tail, trim};
use insn_word::{Profile, spelling_is_one_to_one};
use text_parts::{cut, find_either};

/// A line without its comment: the label that stands before its first colon, and its statement.
#[derive(Clone, Copy)]
pub struct SourceLine<'t> {
    /// What stands before the first colon, whether or not it is a name; None where there is no colon.
    pub label: Option<&'t [u8]>,
    /// What follows the label, or all that stands on the line where there is none, without blanks at its ends.
    pub statement: &'t [u8],
}

/// The bytes of the first line, without its end, and what follows that, if there is a line end.
pub fn next_line(text: &[u8]) -> (&[u8], Option<&[u8]>)
    ensures front { result.0.now ≡ text_before 10 text.now }
    ensures back { option_copied result.1 ≡ text_after 10 text.now }
    ensures lines { lines text.now ≡ line result.0.now ∷ rest_lines (option_copied result.1) }
    ensures shorter { rest_length (option_copied result.1) ≤ length text.now }
{
    cut(text, b'\n')
}

/// What stands on a line.
#[tactic(auto, unfolding(crate::specs::Lines::line), using(crate::proofs::EmptyLines::empty_line))]
pub fn cut_line(bytes: &[u8]) -> SourceLine<'_>
    ensures { line_seen result ≡ line bytes.now }
{
    if bytes.is_empty() {
        return SourceLine {
            label: None,
            statement: bytes,
        };
    }
    let (code, _) = cut(bytes, b';');
    cut_code(code)
}

/// What stands on a line without its comment.
#[tactic(auto, unfolding(crate::specs::Lines::line))]
fn cut_code(code: &[u8]) -> SourceLine<'_>
    ensures { (bytes : List ℕ) → code.now ≡ text_before 59 bytes → line_seen result ≡ line bytes }
{
    let code = trim(code);
    match cut(code, b':') {
        (label, Some(statement)) => SourceLine {
            label: Some(label),
            statement: trim(statement),
        },
        (_, None) => SourceLine {
            label: None,
            statement: code,
        },
    }
}

/// What stands on the first line of a text, and what follows that line, if there is a line end.
#[inline(always)]
pub fn next_source_line(text: &[u8]) -> (SourceLine<'_>, Option<&[u8]>)
    ensures lines { lines text.now ≡ line_seen result.0 ∷ rest_lines (option_copied result.1) }
    ensures shorter { rest_length (option_copied result.1) ≤ length text.now }
{
    if begins(text, b'\n') {
        let empty = SourceLine {
            label: None,
            statement: &[],
        };
        return (empty, Some(tail(text)));
    }
    let (code, rest) = next_code(text);
    (cut_code(code), rest)
}

/// The bytes of the first line up to its comment or end, and what follows the line, if there is a line end.
#[inline(always)]
fn next_code(text: &[u8]) -> (&[u8], Option<&[u8]>)
    ensures code { result.0.now ≡ text_before 59 (text_before 10 text.now) }
    ensures after { option_copied result.1 ≡ text_after 10 text.now }
{
    let Some(place) = find_either(text, b'\n', b';') else {
        return (text, None);
    };
    let code = &text[..place];
    if text[place] == b'\n' {
        return (code, Some(&text[place + 1..]));
    }
    let (_, rest) = cut(&text[place..], b'\n');
    (code, rest)
}

/// Whether a statement is a word of the program: an instruction, or `.word`.
#[tactic(auto, unfolding(crate::specs::Lines::is_word))]
pub fn is_word(statement: &[u8]) -> bool
    ensures { result ≡ is_word statement.now }
{
    if statement.is_empty() {
        return false;
    }
    if !begins(statement, b'.') {
        return true;
    }
    let (head, _) = split_head(statement);
    head == names::directive(Directive::Word).as_bytes()
}

/// What line `number` (from 0) adds, after so many program words (`here`), or its least fault. The profile and the
/// labels are those of the whole text, in which so many lines are `words`.
pub fn read_line(
    profile: Profile,
    labels: &Labels,
    words: usize,
    number: usize,
    here: usize,
    line: &SourceLine,
) -> Result<Item, Fault>
    ensures item { result ≡ line_item profile (places_of labels.now) words number here (line_seen line.now) }
    ensures range { IfOk result (IsItemInRange profile words) }
{
    spelling_is_one_to_one();
    line_item(profile, labels, words, number, here, line)
}

#[tactic(auto, unfolding(crate::specs::Lines::line_item))]
fn line_item(
    profile: Profile,
    labels: &Labels,
    words: usize,
    number: usize,
    here: usize,
    line: &SourceLine,
) -> Result<Item, Fault>
    ensures { result ≡ line_item profile (places_of labels.now) words number here (line_seen line.now) }
{
    let label = label_fault(labels, number, line.label, line.statement);
    let (_, item) = both(
        label,
        statement_item(profile, labels, words, here, line.statement),
    )?;
    Ok(item)
}

/// The fault of the label of line `number`, if it has one: it is no name or a second colon follows, or it stands on
/// an earlier line.
#[tactic(auto, unfolding(crate::specs::Lines::label_fault))]
fn label_fault(
    labels: &Labels,
    number: usize,
    label: Option<&[u8]>,
    statement: &[u8],
) -> Result<(), Fault>
    ensures { result ≡ label_fault (places_of labels.now) number (option_copied label.entry) statement.now }
{
    let Some(name) = label else {
        return Ok(());
    };
    if !is_label(name, statement) {
        return Err(Fault::Unknown);
    }
    match labels.find(name) {
        Some(place) if place.line < number => Err(Fault::LabelTwice),
        _ => Ok(()),
    }
}

fn is_label(name: &[u8], statement: &[u8]) -> bool
    ensures { result ≡ is_label name.now statement.now }
{
    is_name(name) && !has_colon(statement)
}

fn has_colon(text: &[u8]) -> bool
    ensures { result ≡ list_any (λ b. b == 58) text.now }
{
    text.iter().any(|b| *b == b':')
}

#[tactic(auto, unfolding(crate::specs::Lines::statement_item))]
fn statement_item(
    profile: Profile,
    labels: &Labels,
    words: usize,
    here: usize,
    text: &[u8],
) -> Result<Item, Fault>
    ensures { result ≡ statement_item profile (places_of labels.now) words here text.now }
{
    if text.is_empty() {
        return Ok(Item::Nothing);
    }
    if begins(text, b'.') {
        return directive_item(profile, labels, words, text);
    }
    let insn = instruction(profile, labels, here, text)?;
    Ok(Item::Instruction(insn))
}

fn directive_item(
    profile: Profile,
    labels: &Labels,
    words: usize,
    text: &[u8],
) -> Result<Item, Fault>
    ensures { result ≡ directive_item profile (places_of labels.now) words text.now }
{
    let (head, behind) = split_head(text);
    let directive = directive_of(profile, head)?;
    item_of_directive(labels, words, directive, &read_arguments(behind))
}
