//! The operands of a statement, separated by commas.

ghost use Rattle.asm_line.specs.Text.{operands_of};
ghost use Rattle.asm_line.specs.OperandsSeen.{AreOperands};

use crate::text::trim;
use text_parts::cut;

/// Up to three operands, as texts without blanks at their ends.
#[derive(Clone, Copy)]
pub(crate) enum Arguments<'t> {
    /// No operand.
    Zero,
    /// One operand.
    One(&'t [u8]),
    /// Two operands.
    Two(&'t [u8], &'t [u8]),
    /// Three operands.
    Three(&'t [u8], &'t [u8], &'t [u8]),
    /// Four operands or more.
    More,
}

/// The operands of a text without blanks at its ends.
#[tactic(auto, unfolding(crate::specs::Text::operands_of))]
pub(crate) fn read_arguments(text: &[u8]) -> Arguments<'_>
    ensures { AreOperands result (operands_of text.now) }
{
    if text.is_empty() {
        return Arguments::Zero;
    }
    let (first, rest) = cut(text, b',');
    let Some(rest) = rest else {
        return Arguments::One(trim(first));
    };
    let (second, rest) = cut(rest, b',');
    let Some(rest) = rest else {
        return Arguments::Two(trim(first), trim(second));
    };
    let (third, rest) = cut(rest, b',');
    match rest {
        None => Arguments::Three(trim(first), trim(second), trim(third)),
        Some(_) => Arguments::More,
    }
}
