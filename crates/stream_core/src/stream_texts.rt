//! How a stream is printed.

ghost use Rattle.std.specs.Prelude.{◌≡◌, ◌++◌, IfOk, OnOk, string_bytes};
ghost use Rattle.stream_core.specs.StatusWords.{status_number};
ghost use Rattle.stream_core.specs.StreamText.{status_text, status_line, register_line, target_line, stream_text_of};

use crate::status_words::StatusWord;
use crate::steps::Status;
use crate::streams::Stream;
use std::alloc::{AllocError, Global};
use std::fmt::Write;
use text_parts::{push_hexadecimal_16, push_two_digits};

/// The text of a stream: a line with its status, status word, trap register and retry count, then a line for each
/// general and each target register that is not zero ("Stream text", docs/FORMATS.md).
pub fn stream_text(alloc: Global, stream: &Stream) -> Result<String, AllocError>
    ensures { IfOk result (λ text. string_bytes text ≡ stream_text_of stream.now) }
{
    let mut text = String::new(alloc);
    write_status(&mut text, stream)?;
    for register in 0..32 {
        write_register(&mut text, register, stream.register(register))?;
    }
    for target in 0..8 {
        write_target(&mut text, target, stream.target_word(target))?;
    }
    Ok(text)
}

#[tactic(auto, unfolding(crate::specs::StreamText::status_line))]
fn write_status(text: &mut String, stream: &Stream) -> Result<(), AllocError>
    ensures { OnOk result (string_bytes text.new ≡ string_bytes text.old ++ status_line stream.now) }
{
    push_status(text, stream.status())?;
    text.push_str(" ssw ")?;
    push_hexadecimal_16(text, stream.ssw().bits())?;
    text.push_str(" xr ")?;
    push_hexadecimal_16(text, stream.xr())?;
    let retries = stream.retries();
    writeln!(text, " retries {retries}")
}

/// Appends a status by its name, and a stopped stream's with the number of its trap.
#[tactic(auto, unfolding(crate::specs::StreamText::status_text))]
fn push_status(text: &mut String, status: Status) -> Result<(), AllocError>
    ensures { OnOk result (string_bytes text.new ≡ string_bytes text.old ++ status_text status) }
{
    match status {
        Status::Idle => text.push_str("Idle"),
        Status::Running => text.push_str("Running"),
        Status::Stopped(kind) => {
            text.push_str("Stopped ")?;
            push_two_digits(text, kind.number())
        }
    }
}

#[tactic(auto, unfolding(crate::specs::StreamText::register_line))]
fn write_register(text: &mut String, register: u8, value: u64) -> Result<(), AllocError>
    ensures { OnOk result (string_bytes text.new ≡ string_bytes text.old ++ register_line register value) }
{
    if value == 0 {
        return Ok(());
    }
    text.push_str("r")?;
    push_two_digits(text, register)?;
    text.push_str(" ")?;
    push_hexadecimal_16(text, value)?;
    text.push_str("\n")
}

#[tactic(auto, unfolding(crate::specs::StreamText::target_line))]
fn write_target(text: &mut String, target: u8, word: StatusWord) -> Result<(), AllocError>
    ensures { OnOk result (string_bytes text.new ≡ string_bytes text.old ++ target_line target (status_number word)) }
{
    let bits = word.bits();
    if bits == 0 {
        return Ok(());
    }
    write!(text, "t{target} ")?;
    push_hexadecimal_16(text, bits)?;
    text.push_str("\n")
}
