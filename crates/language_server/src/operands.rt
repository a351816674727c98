//! What the operands of operations and directives are.

/// What an operand is.
#[derive(Clone, Copy, Debug, PartialEq, Eq)]
pub(crate) enum OperandKind {
    /// A condition.
    Condition,
    /// A register.
    Register,
    /// A target register.
    Target,
    /// A number or a label.
    Label,
    /// A number, or nothing.
    Number,
}

use OperandKind::{Condition, Label, Number, Register, Target};

/// The operands of heads, but for arithmetic operations of three.
const FORMS: [(&str, [OperandKind; 3]); 23] = [
    ("SKIP", [Condition, Number, Label]),
    ("JUMP", [Condition, Number, Target]),
    ("CALL", [Target, Target, Number]),
    ("XCHG", [Target, Number, Number]),
    ("TSET", [Target, Register, Number]),
    ("CREATE", [Target, Register, Number]),
    ("TGET", [Register, Target, Number]),
    ("XGET", [Register, Number, Number]),
    ("MASK", [Number, Number, Number]),
    ("LIT", [Register, Label, Number]),
    ("LITH", [Register, Label, Number]),
    ("TLIT", [Target, Label, Number]),
    (".entry", [Label, Number, Number]),
    (".trap", [Label, Number, Number]),
    ("NOP", [Number, Number, Number]),
    ("LOAD", [Register, Register, Number]),
    ("STORE", [Register, Register, Number]),
    ("FADD", [Register, Register, Number]),
    ("TAGGET", [Register, Register, Number]),
    ("TAGSET", [Register, Register, Number]),
    ("PURGE", [Register, Register, Number]),
    ("TALLY", [Register, Register, Number]),
    ("RESERVE", [Register, Register, Number]),
];

/// What the operand of a head at a place is, by the head's name without its suffix.
pub(crate) fn operand_kind(head: &[u8], place: usize) -> OperandKind {
    match form_of(&FORMS, name_of(head)) {
        Some(form) => form.get(place).copied().unwrap_or(Number),
        None if head.starts_with(b".") || place > 2 => Number,
        None => Register,
    }
}

/// The operands of a head by its name.
fn form_of(forms: &[(&str, [OperandKind; 3])], name: &[u8]) -> Option<[OperandKind; 3]> {
    for (known, form) in forms {
        if known.as_bytes() == name {
            return Some(*form);
        }
    }
    None
}

/// A head without its suffix; a directive has none.
fn name_of(head: &[u8]) -> &[u8] {
    match head.iter().rposition(|byte| *byte == b'.') {
        Some(dot) if dot > 0 => head.get(..dot).unwrap_or(head),
        Some(_) | None => head,
    }
}
