//! The operations and directives by their names, with the operands that they take.

use crate::form::OperandForm;
use crate::nearest::nearest_of;
use asm_line::{Directive, names};
use insn_word::{ArithmeticOp, Condition, ControlOp, MemoryOp, WideOp};
use std::alloc::{AllocError, Global};

/// A part of a word.
#[derive(Clone, Copy, PartialEq, Eq)]
pub(crate) enum Part {
    Memory,
    Arithmetic,
    Control,
}

impl Part {
    /// Where in a word it stands, from 0.
    pub(crate) fn place(self) -> u8 {
        match self {
            Part::Memory => 0,
            Part::Arithmetic => 1,
            Part::Control => 2,
        }
    }

    /// The word for it.
    pub(crate) fn name(self) -> &'static str {
        match self {
            Part::Memory => "memory",
            Part::Arithmetic => "arithmetic",
            Part::Control => "control",
        }
    }
}

/// An operation without its suffix.
#[derive(Clone, Copy)]
pub(crate) enum Named {
    /// No operation.
    Nop,
    /// A wide operation.
    Wide(WideOp),
    /// A memory operation.
    Memory(MemoryOp),
    /// An arithmetic operation.
    Arithmetic(ArithmeticOp),
    /// A control operation.
    Control(ControlOp),
}

impl Named {
    /// Its name.
    pub(crate) fn name(self) -> &'static str {
        match self {
            Named::Nop => names::control(ControlOp::Nop),
            Named::Wide(op) => names::wide(op),
            Named::Memory(op) => names::memory(op),
            Named::Arithmetic(op) => names::arithmetic(op),
            Named::Control(op) => names::control(op),
        }
    }

    /// The part of a word that it stands in; None for what stands alone.
    pub(crate) fn part(self) -> Option<Part> {
        match self {
            Named::Nop | Named::Wide(_) => None,
            Named::Memory(_) => Some(Part::Memory),
            Named::Arithmetic(_) => Some(Part::Arithmetic),
            Named::Control(_) => Some(Part::Control),
        }
    }

    /// The operands that it takes.
    pub(crate) fn operands(self) -> &'static [OperandForm] {
        match self {
            Named::Nop => &[],
            Named::Wide(op) => wide_operands(op),
            Named::Memory(_) => &[
                OperandForm::Register,
                OperandForm::Base,
                OperandForm::Displacement,
            ],
            Named::Arithmetic(ArithmeticOp::Tally) => &[
                OperandForm::Register,
                OperandForm::Register,
            ],
            Named::Arithmetic(_) => &[
                OperandForm::Register,
                OperandForm::Register,
                OperandForm::Source,
            ],
            Named::Control(op) => control_operands(op),
        }
    }
}

fn wide_operands(op: WideOp) -> &'static [OperandForm] {
    match op {
        WideOp::Literal | WideOp::LiteralHigh => &[OperandForm::Register, OperandForm::Value],
        WideOp::TargetLiteral => &[OperandForm::Target, OperandForm::Pc],
    }
}

fn control_operands(op: ControlOp) -> &'static [OperandForm] {
    match op {
        ControlOp::Nop | ControlOp::Quit | ControlOp::QuitKeep => &[],
        ControlOp::Jump => &[
            OperandForm::Condition,
            OperandForm::Code,
            OperandForm::Target,
        ],
        ControlOp::Skip => &[
            OperandForm::Condition,
            OperandForm::Code,
            OperandForm::Distance,
        ],
        ControlOp::Call => &[OperandForm::Target, OperandForm::Target],
        ControlOp::Exchange => &[OperandForm::Target],
        ControlOp::TargetSet | ControlOp::Create => &[OperandForm::Target, OperandForm::Register],
        ControlOp::TargetGet => &[OperandForm::Register, OperandForm::Target],
        ControlOp::TrapGet => &[OperandForm::Register],
        ControlOp::Reserve => &[OperandForm::Register, OperandForm::Register],
        ControlOp::Mask => &[OperandForm::Mask],
    }
}

/// The operation of a name, in whatever profile.
pub(crate) fn operation_named(name: &[u8]) -> Option<Named> {
    if name == Named::Nop.name().as_bytes() {
        return Some(Named::Nop);
    }
    for op in WideOp::ALL.iter() {
        if names::wide(*op).as_bytes() == name {
            return Some(Named::Wide(*op));
        }
    }
    for op in MemoryOp::ALL.iter() {
        if names::memory(*op).as_bytes() == name {
            return Some(Named::Memory(*op));
        }
    }
    for op in ArithmeticOp::ALL.iter() {
        if names::arithmetic(*op).as_bytes() == name {
            return Some(Named::Arithmetic(*op));
        }
    }
    for op in ControlOp::ALL.iter() {
        if names::control(*op).as_bytes() == name {
            return Some(Named::Control(*op));
        }
    }
    None
}

/// The operation whose name is nearest to a text, if one is near enough.
pub(crate) fn nearest_operation(
    alloc: Global,
    text: &[u8],
) -> Result<Option<&'static [u8]>, AllocError> {
    let mut known = Vec::new(alloc);
    for op in MemoryOp::ALL.iter() {
        known.push(names::memory(*op).as_bytes())?;
    }
    for op in ArithmeticOp::ALL.iter() {
        known.push(names::arithmetic(*op).as_bytes())?;
    }
    for op in ControlOp::ALL.iter() {
        known.push(names::control(*op).as_bytes())?;
    }
    for op in WideOp::ALL.iter() {
        known.push(names::wide(*op).as_bytes())?;
    }
    nearest_of(alloc, text, &known)
}

/// The condition whose name is nearest to a text, if one is near enough.
pub(crate) fn nearest_condition(
    alloc: Global,
    text: &[u8],
) -> Result<Option<&'static [u8]>, AllocError> {
    let mut known = Vec::new(alloc);
    for condition in Condition::ALL.iter() {
        known.push(names::condition(*condition).as_bytes())?;
    }
    nearest_of(alloc, text, &known)
}

/// All directives.
const DIRECTIVES: [Directive; 9] = [
    Directive::Profile,
    Directive::Slim,
    Directive::Chain,
    Directive::Retry,
    Directive::Trap,
    Directive::Entry,
    Directive::Word,
    Directive::Data,
    Directive::Fill,
];

/// The directive of a name with its dot, in whatever profile.
pub(crate) fn directive_named(name: &[u8]) -> Option<Directive> {
    for directive in DIRECTIVES.iter() {
        if names::directive(*directive).as_bytes() == name {
            return Some(*directive);
        }
    }
    None
}

/// The directive whose name is nearest to a text, if one is near enough.
pub(crate) fn nearest_directive(
    alloc: Global,
    text: &[u8],
) -> Result<Option<&'static [u8]>, AllocError> {
    let mut known = Vec::new(alloc);
    for directive in DIRECTIVES.iter() {
        known.push(names::directive(*directive).as_bytes())?;
    }
    nearest_of(alloc, text, &known)
}

/// The operands that a directive takes at most.
pub(crate) fn directive_operands(directive: Directive) -> &'static [OperandForm] {
    match directive {
        Directive::Profile => &[OperandForm::Profile],
        Directive::Slim => &[OperandForm::Slim],
        Directive::Chain => &[OperandForm::Chain],
        Directive::Retry => &[OperandForm::Retry],
        Directive::Trap => &[OperandForm::Pc],
        Directive::Entry => &[OperandForm::Entry],
        Directive::Word => &[OperandForm::Word],
        Directive::Data => &[OperandForm::Word, OperandForm::Tags],
        Directive::Fill => &[OperandForm::Count, OperandForm::Word, OperandForm::Tags],
    }
}
