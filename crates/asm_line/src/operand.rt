//! What the text of an operand says.

ghost use Rattle.std.specs.Prelude.{◌≡◌, ◌-◌};
ghost use Rattle.asm_line.specs.Operands.{register, target, value_within, distance, offset, displacement, source_of};
ghost use Rattle.asm_line.specs.Operands.{condition};
ghost use Rattle.asm_line.specs.Labels.{places_of};
ghost use Rattle.asm_line.specs.Parts.{immediate};

use crate::fault::Fault;
use crate::heads::condition_named;
use crate::labels::Labels;
use crate::numbers::{negative, number_32, positive, signed_within, small_within};
use crate::text::{begins, is_name, tail};
use insn_word::Condition;
use text_parts::{Base, Number, read_digits};

/// The second operand of an arithmetic operation.
#[derive(Clone, Copy, Debug, PartialEq, Eq)]
pub enum Source {
    /// A register, 0 to 31.
    Register(u8),
    /// The number itself, 0 to 31.
    Number(u8),
}

/// A register, `r0` to `r31`.
#[tactic(auto, unfolding(crate::specs::Operands::register, text_parts::specs::Reading::number_of_digits))]
pub(crate) fn register(text: &[u8]) -> Result<u8, Fault>
    ensures { result ≡ register text.now }
{
    if !begins(text, b'r') {
        return Err(Fault::Operand);
    }
    let Some(Number::Word(number)) = read_digits(Base::Decimal, tail(text)) else {
        return Err(Fault::Operand);
    };
    if number < 32 && (text.len() == 2 || text.len() == 3 && text[1] > b'0') {
        Ok(number as u8)
    } else {
        Err(Fault::Operand)
    }
}

/// A target register, `t0` to `t7`.
#[tactic(auto, unfolding(crate::specs::Operands::target))]
pub(crate) fn target(text: &[u8]) -> Result<u8, Fault>
    ensures { result ≡ target text.now }
{
    match text {
        [b't', digit] if *digit >= b'0' && *digit < b'8' => Ok(*digit - b'0'),
        _ => Err(Fault::Operand),
    }
}

/// A number of 32 bits, or the value of a label.
#[tactic(auto, unfolding(crate::specs::Operands::value_within, crate::specs::Parts::immediate))]
pub(crate) fn immediate(labels: &Labels, text: &[u8]) -> Result<u32, Fault>
    ensures { result ≡ immediate (places_of labels.now) text.now }
{
    if !is_name(text) {
        return number_32(text);
    }
    let value = labels.value(text)?;
    if value <= 0xFFFF_FFFF {
        Ok(value as u32)
    } else {
        Err(Fault::Range)
    }
}

/// How far SKIP goes: a number from -128 to 127, or to a label.
#[tactic(auto, unfolding(crate::specs::Operands::offset))]
pub(crate) fn offset(labels: &Labels, here: usize, text: &[u8]) -> Result<i8, Fault>
    ensures { result ≡ offset (places_of labels.now) here text.now }
{
    if is_name(text) {
        distance(here, labels.value(text)?)
    } else {
        signed_within(128, 127, text)
    }
}

/// How many words `value` lies beyond the place after `here`.
#[tactic(auto, unfolding(crate::specs::Operands::distance))]
fn distance(here: usize, value: usize) -> Result<i8, Fault>
    ensures { result ≡ distance here value }
{
    if here < value {
        if value - here < 129 {
            return Ok(positive((value - here - 1) as u8));
        }
    } else if here - value < 128 {
        return Ok(negative((here - value + 1) as u8));
    }
    Err(Fault::Range)
}

/// How many words after the pointer, -32 to 31.
pub(crate) fn displacement(text: &[u8]) -> Result<i8, Fault>
    ensures { result ≡ displacement text.now }
{
    signed_within(32, 31, text)
}

/// A register, or a number to 31.
#[tactic(auto, unfolding(crate::specs::Operands::source_of))]
pub(crate) fn source_of(text: &[u8]) -> Result<Source, Fault>
    ensures { result ≡ source_of text.now }
{
    if begins(text, b'r') {
        let number = register(text)?;
        Ok(Source::Register(number))
    } else {
        let number = small_within(31, text)?;
        Ok(Source::Number(number))
    }
}

/// A condition by its name.
#[tactic(auto, unfolding(crate::specs::Operands::condition))]
pub(crate) fn condition(text: &[u8]) -> Result<Condition, Fault>
    ensures { result ≡ condition text.now }
{
    condition_named(text).ok_or(Fault::Operand)
}
