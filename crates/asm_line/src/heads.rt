//! The operation, condition or directive that a name stands for in a profile.
//!
//! NOP, the first operation of each part of a normal word, is named by no part: it is an instruction of its own. The
//! first access, which is the pointer's, has no suffix.

ghost use Rattle.std.specs.Prelude.{◌≡◌, slice_index};
ghost use Rattle.std.specs.Str.{bytes_eq};
ghost use Rattle.std.specs.Option.{option_copied};
ghost use Rattle.asm_line.specs.Heads.{wide_named, memory_named, arithmetic_named, control_named, condition_named};
ghost use Rattle.asm_line.specs.Heads.{directive_named, access_named, test_named, operation_named, has_access};
ghost use Rattle.asm_line.specs.Heads.{plain_named, letter_access};
ghost use Rattle.asm_line.specs.Heads.{operation_of, directive_of, memory_suffixed, arithmetic_suffixed};
ghost use Rattle.asm_line.specs.Names.{has_directive};
ghost use Rattle.insn_word.specs.Operations.{has_operation};

use crate::fault::Fault;
use crate::names;
use crate::operation::{Directive, Operation};
use crate::text::tail;
use insn_word::{Access, ArithmeticOp, Condition, ControlOp, MemoryOp, Profile, WideOp};
use text_parts::cut;

/// What the head of a directive may name.
const DIRECTIVES: [Directive; 9] = [
    Directive::Profile,
    Directive::Slim,
    Directive::Chain,
    Directive::Retry,
    Directive::Trap,
    Directive::Entry,
    Directive::Word,
    Directive::Data,
    Directive::Fill,
];

/// Whether a text is this name. Most texts differ from it in their length or first byte, which are looked at first.
#[inline(always)]
fn is_named(text: &[u8], name: &str) -> bool
    ensures { result ≡ bytes_eq text.now name.now }
{
    let name = name.as_bytes();
    text.len() == name.len() && first_byte(text) == first_byte(name) && are_equal(text, name)
}

/// Kept out of line, so that a name that differs at once costs two comparisons alone.
#[inline(never)]
fn are_equal(text: &[u8], name: &[u8]) -> bool
    ensures { result ≡ bytes_eq text.now name.now }
{
    text == name
}

/// The first byte, 0 where there is none.
#[inline(always)]
fn first_byte(text: &[u8]) -> u8
    ensures { result ≡ slice_index text.now 0 }
{
    match text {
        [first, ..] => *first,
        [] => 0,
    }
}

#[tactic(auto, unfolding(crate::specs::Heads::wide_named))]
fn wide_named(name: &[u8]) -> Option<WideOp>
    ensures { result ≡ wide_named name.now }
{
    WideOp::ALL
        .iter()
        .copied()
        .find(|op| is_named(name, names::wide(*op)))
}

#[tactic(auto, unfolding(crate::specs::Heads::memory_named))]
fn memory_named(profile: Profile, name: &[u8]) -> Option<MemoryOp>
    ensures { result ≡ memory_named profile name.now }
{
    MemoryOp::ALL[1..].iter().copied().find(|op| is_named(name, names::memory(*op))
        && has_operation(profile, *op))
}

/// Whether the profile has the memory operation.
fn has_operation(profile: Profile, op: MemoryOp) -> bool
    ensures { result ≡ has_operation profile op }
{
    profile == Profile::Two || MemoryOp::IN_PROFILE_ONE.contains(&op)
}

#[tactic(auto, unfolding(crate::specs::Heads::arithmetic_named))]
fn arithmetic_named(name: &[u8]) -> Option<ArithmeticOp>
    ensures { result ≡ arithmetic_named name.now }
{
    ArithmeticOp::ALL[1..]
        .iter()
        .copied()
        .find(|op| is_named(name, names::arithmetic(*op)))
}

#[tactic(auto, unfolding(crate::specs::Heads::control_named))]
fn control_named(name: &[u8]) -> Option<ControlOp>
    ensures { result ≡ control_named name.now }
{
    ControlOp::ALL[1..]
        .iter()
        .copied()
        .find(|op| is_named(name, names::control(*op)))
}

#[tactic(auto, unfolding(crate::specs::Heads::condition_named))]
pub(crate) fn condition_named(name: &[u8]) -> Option<Condition>
    ensures { result ≡ condition_named name.now }
{
    Condition::ALL
        .iter()
        .copied()
        .find(|condition| is_named(name, names::condition(*condition)))
}

#[tactic(auto, unfolding(crate::specs::Heads::directive_named))]
fn directive_named(profile: Profile, name: &[u8]) -> Option<Directive>
    ensures { result ≡ directive_named profile name.now }
{
    DIRECTIVES.iter().copied().find(|directive| is_named(name, names::directive(*directive))
        && has_directive(profile, *directive))
}

/// Whether the profile has the directive.
fn has_directive(profile: Profile, directive: Directive) -> bool
    ensures { result ≡ has_directive profile directive }
{
    match directive {
        Directive::Profile
        | Directive::Slim
        | Directive::Retry
        | Directive::Trap
        | Directive::Entry
        | Directive::Word
        | Directive::Data
        | Directive::Fill => true,
        Directive::Chain => profile == Profile::Two,
    }
}

/// The access that stands after an operation's dot, if there is one.
#[tactic(auto, unfolding(crate::specs::Heads::access_named))]
fn access_named(op: MemoryOp, suffix: Option<&[u8]>) -> Option<Access>
    ensures { result ≡ access_named op (option_copied suffix.entry) }
{
    let Some(letter) = suffix else {
        return Some(Access::FromPointer);
    };
    if !has_access(op) {
        return None;
    }
    letter_access(letter)
}

/// The access of the letter after the dot of its suffix.
fn letter_access(letter: &[u8]) -> Option<Access>
    ensures { result ≡ letter_access letter.now }
{
    Access::ALL[1..]
        .iter()
        .copied()
        .find(|access| letter == tail(names::access(*access).as_bytes()))
}

/// Whether the operation may name an access.
fn has_access(op: MemoryOp) -> bool
    ensures { result ≡ has_access op }
{
    match op {
        MemoryOp::Load | MemoryOp::Store | MemoryOp::FetchAdd => true,
        MemoryOp::Nop | MemoryOp::TagGet | MemoryOp::TagSet | MemoryOp::Purge => false,
    }
}

/// Whether the suffix, if there is one, asks for a condition code; None where it says something else.
#[tactic(auto, unfolding(crate::specs::Heads::test_named))]
fn test_named(suffix: Option<&[u8]>) -> Option<bool>
    ensures { result ≡ test_named (option_copied suffix.entry) }
{
    match suffix {
        None => Some(false),
        Some(letter) if letter == tail(names::test(true).as_bytes()) => Some(true),
        Some(_) => None,
    }
}

/// The operation of a name that has no suffix.
#[tactic(auto, unfolding(crate::specs::Heads::plain_named))]
fn plain_named(name: &[u8]) -> Option<Operation>
    ensures { result ≡ plain_named name.now }
{
    if name == names::control(ControlOp::Nop).as_bytes() {
        return Some(Operation::Nop);
    }
    if let Some(op) = wide_named(name) {
        return Some(Operation::Wide(op));
    }
    let op = control_named(name)?;
    Some(Operation::Control(op))
}

fn memory_operation(op: MemoryOp, suffix: Option<&[u8]>) -> Option<Operation>
    ensures { result ≡ memory_suffixed (option_copied suffix.entry) op }
{
    let access = access_named(op, suffix)?;
    Some(Operation::Memory(op, access))
}

fn arithmetic_operation(op: ArithmeticOp, suffix: Option<&[u8]>) -> Option<Operation>
    ensures { result ≡ arithmetic_suffixed (option_copied suffix.entry) op }
{
    let test = test_named(suffix)?;
    Some(Operation::Arithmetic(op, test))
}

#[tactic(auto, unfolding(crate::specs::Heads::operation_named))]
fn operation_named(profile: Profile, name: &[u8], suffix: Option<&[u8]>) -> Option<Operation>
    ensures { result ≡ operation_named profile name.now (option_copied suffix.entry) }
{
    if let Some(op) = arithmetic_named(name) {
        return arithmetic_operation(op, suffix);
    }
    if let Some(op) = memory_named(profile, name) {
        return memory_operation(op, suffix);
    }
    match suffix {
        None => plain_named(name),
        Some(_) => None,
    }
}

/// The operation that a head names.
#[tactic(auto, unfolding(crate::specs::Heads::operation_of))]
pub(crate) fn operation_of(profile: Profile, head: &[u8]) -> Result<Operation, Fault>
    ensures { result ≡ operation_of profile head.now }
{
    let (name, suffix) = cut(head, b'.');
    operation_named(profile, name, suffix).ok_or(Fault::Unknown)
}

/// The directive that a head names.
#[tactic(auto, unfolding(crate::specs::Heads::directive_of))]
pub(crate) fn directive_of(profile: Profile, head: &[u8]) -> Result<Directive, Fault>
    ensures { result ≡ directive_of profile head.now }
{
    directive_named(profile, head).ok_or(Fault::Unknown)
}
