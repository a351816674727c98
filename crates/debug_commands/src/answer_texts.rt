//! The answers as text.

ghost use Rattle.std.specs.Prelude.{◌≡◌, ◌++◌, IfOk, OnOk, string_bytes};
ghost use Rattle.std.specs.Prelude.{codes};
ghost use Rattle.debug_commands.specs.AnswerTexts.{answer_text_of, place_line, key_line, why_text, seen_word_line};
ghost use Rattle.debug_commands.specs.AnswerTexts.{seen_word_lines};

use crate::answers::{Answer, Why};
use std::alloc::{AllocError, Global};
use std::fmt::Write;
use stream_core::stream_text;
use tag_memory::Word;
use text_parts::{push_hexadecimal_12, push_hexadecimal_16, push_hexadecimal_digit};

/// The text of an answer, each line with a line feed at its end ("Debugger", docs/FORMATS.md).
#[tactic(auto, unfolding(crate::specs::AnswerTexts::answer_text_of))]
pub fn answer_text(alloc: Global, answer: &Answer) -> Result<String, AllocError>
    ensures { IfOk result (λ text. string_bytes text ≡ answer_text_of answer.now) }
{
    match answer {
        Answer::At(position, why) => place_text(alloc, *position, *why),
        Answer::Point(key) => key_text(alloc, "point", *key),
        Answer::Gone(key) => key_text(alloc, "gone", *key),
        Answer::Stream(stream) => stream_text(alloc, stream),
        Answer::Words(list) => words_text(alloc, list.words()),
    }
}

/// The line of a position, and why it was gone to.
#[tactic(auto, unfolding(crate::specs::AnswerTexts::place_line))]
fn place_text(alloc: Global, position: u64, why: Why) -> Result<String, AllocError>
    ensures { IfOk result (λ text. string_bytes text ≡ place_line position why) }
{
    let mut text = String::new(alloc);
    write!(text, "at {position} ")?;
    text.push_str(why_word(why))?;
    text.push_str("\n")?;
    Ok(text)
}

/// The word for why a position was gone to.
fn why_word(why: Why) -> &'static str
    ensures { result.now ≡ why_text why }
{
    match why {
        Why::Moved => "moved",
        Why::Stop => "stop",
        Why::End => "end",
        Why::Start => "start",
    }
}

/// The line of a point's key, after the word for what became of it.
#[tactic(auto, unfolding(crate::specs::AnswerTexts::key_line))]
fn key_text(alloc: Global, word: &str, key: u64) -> Result<String, AllocError>
    ensures { IfOk result (λ text. string_bytes text ≡ key_line word.now key) }
{
    let mut text = String::new(alloc);
    text.push_str(word)?;
    writeln!(text, " {key}")?;
    Ok(text)
}

/// The lines of words.
fn words_text(alloc: Global, words: &[(u64, Word)]) -> Result<String, AllocError>
    ensures { IfOk result (λ text. string_bytes text ≡ seen_word_lines words.now) }
{
    let mut text = String::new(alloc);
    for (address, word) in words {
        push_word(&mut text, *address, *word)?;
    }
    Ok(text)
}

/// Appends the line of a word at an address.
#[tactic(auto, unfolding(crate::specs::AnswerTexts::seen_word_line))]
fn push_word(text: &mut String, address: u64, word: Word) -> Result<(), AllocError>
    ensures { OnOk result (string_bytes text.new ≡ string_bytes text.old ++ seen_word_line (address, word)) }
{
    push_hexadecimal_12(text, address)?;
    text.push_str(" ")?;
    push_hexadecimal_16(text, word.value())?;
    text.push_str(" ")?;
    push_hexadecimal_digit(text, word.tag_number())?;
    text.push_str("\n")
}
