//! The names of operations, conditions and directives (docs/WRITING_PROGRAMS.md). Texts are read and listed by
//! these.

ghost use Rattle.std.specs.Prelude.{◌≡◌, ◌≤◌, length};
ghost use Rattle.asm_line.specs.Names.{wide_name, memory_name, arithmetic_name, control_name, condition_name};
ghost use Rattle.asm_line.specs.Names.{access_suffix, test_suffix, directive_name, profile_number};

use crate::operation::Directive;
use insn_word::{Access, ArithmeticOp, Condition, ControlOp, MemoryOp, Profile, WideOp};

/// The name of a wide operation.
pub fn wide(op: WideOp) -> &'static str
    ensures name { result.now ≡ wide_name op }
    ensures short { length result.now ≤ 4 }
{
    match op {
        WideOp::Literal => "LIT",
        WideOp::LiteralHigh => "LITH",
        WideOp::TargetLiteral => "TLIT",
    }
}

/// The name of a memory operation, without a suffix.
pub fn memory(op: MemoryOp) -> &'static str
    ensures name { result.now ≡ memory_name op }
    ensures short { length result.now ≤ 6 }
{
    match op {
        MemoryOp::Nop => "NOP",
        MemoryOp::Load => "LOAD",
        MemoryOp::Store => "STORE",
        MemoryOp::FetchAdd => "FADD",
        MemoryOp::TagGet => "TAGGET",
        MemoryOp::TagSet => "TAGSET",
        MemoryOp::Purge => "PURGE",
    }
}

/// What stands after the name of a memory operation with this access.
pub fn access(access: Access) -> &'static str
    ensures name { result.now ≡ access_suffix access }
    ensures short { length result.now ≤ 2 }
{
    match access {
        Access::FromPointer => "",
        Access::Normal => ".N",
        Access::Future => ".F",
        Access::Sync => ".S",
    }
}

/// The name of an arithmetic operation, without a suffix.
pub fn arithmetic(op: ArithmeticOp) -> &'static str
    ensures name { result.now ≡ arithmetic_name op }
    ensures short { length result.now ≤ 5 }
{
    match op {
        ArithmeticOp::Nop => "NOP",
        ArithmeticOp::Add => "ADD",
        ArithmeticOp::Sub => "SUB",
        ArithmeticOp::Mul => "MUL",
        ArithmeticOp::And => "AND",
        ArithmeticOp::Or => "OR",
        ArithmeticOp::Xor => "XOR",
        ArithmeticOp::AndNot => "ANDN",
        ArithmeticOp::ShiftLeft => "SHL",
        ArithmeticOp::ShiftRight => "SHR",
        ArithmeticOp::ShiftRightSigned => "SAR",
        ArithmeticOp::Tally => "TALLY",
        ArithmeticOp::LessSigned => "LTS",
        ArithmeticOp::LessUnsigned => "LTU",
        ArithmeticOp::Pointer => "PTR",
    }
}

/// What stands after the name of an arithmetic operation that makes a condition code, or makes none.
pub fn test(test: bool) -> &'static str
    ensures name { result.now ≡ test_suffix test }
    ensures short { length result.now ≤ 2 }
{
    if test { ".T" } else { "" }
}

/// The name of a control operation.
pub fn control(op: ControlOp) -> &'static str
    ensures name { result.now ≡ control_name op }
    ensures short { length result.now ≤ 7 }
{
    match op {
        ControlOp::Nop => "NOP",
        ControlOp::Jump => "JUMP",
        ControlOp::Skip => "SKIP",
        ControlOp::Call => "CALL",
        ControlOp::Exchange => "XCHG",
        ControlOp::TargetSet => "TSET",
        ControlOp::TargetGet => "TGET",
        ControlOp::TrapGet => "XGET",
        ControlOp::Reserve => "RESERVE",
        ControlOp::Create => "CREATE",
        ControlOp::Quit => "QUIT",
        ControlOp::QuitKeep => "QUITP",
        ControlOp::Mask => "MASK",
    }
}

/// The name of a condition.
pub fn condition(condition: Condition) -> &'static str
    ensures name { result.now ≡ condition_name condition }
    ensures short { length result.now ≤ 6 }
{
    match condition {
        Condition::Always => "ALWAYS",
        Condition::Equal => "EQ",
        Condition::NotEqual => "NE",
        Condition::Less => "LT",
        Condition::GreaterEqual => "GE",
        Condition::LessEqual => "LE",
        Condition::Greater => "GT",
        Condition::LessUnsigned => "LTU",
        Condition::GreaterEqualUnsigned => "GEU",
        Condition::LessEqualUnsigned => "LEU",
        Condition::GreaterUnsigned => "GTU",
        Condition::Negative => "NEG",
        Condition::Positive => "POS",
        Condition::Overflow => "OV",
        Condition::NoOverflow => "NOV",
    }
}

/// The name of a directive, with its dot.
pub fn directive(directive: Directive) -> &'static str
    ensures name { result.now ≡ directive_name directive }
    ensures short { length result.now ≤ 8 }
{
    match directive {
        Directive::Profile => ".profile",
        Directive::Slim => ".slim",
        Directive::Chain => ".chain",
        Directive::Retry => ".retry",
        Directive::Trap => ".trap",
        Directive::Entry => ".entry",
        Directive::Word => ".word",
        Directive::Data => ".data",
        Directive::Fill => ".fill",
    }
}

/// The number of a profile, which `.profile` has.
pub fn profile_number(profile: Profile) -> u32
    ensures { result ≡ profile_number profile }
{
    match profile {
        Profile::One => 1,
        Profile::Two => 2,
    }
}
