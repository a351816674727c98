//! The operations of a word as text.

ghost use Rattle.std.specs.Prelude.{◌≡◌, ◌+◌, ◌≤◌, ◌++◌, codes};
ghost use Rattle.std.specs.Fmt.{decimal, signed_decimal};
ghost use Rattle.arrayvec.specs.ArrayString.{array_string_len};
ghost use Rattle.asm_line.specs.Names.{condition_name};
ghost use Rattle.listing_line.specs.WordText.{register_text, target_text, source_text};
ghost use Rattle.listing_line.specs.WordText.{wide_text, memory_text, arithmetic_text, control_text};

use arrayvec::ArrayString;
use asm_line::names;
use insn_word::{APart, ArithmeticOp, CPart, Condition, ControlOp, MPart, WideOp};
use text_parts::add_decimal;

/// Room for a line: more than its longest parts need.
pub(crate) const LINE: usize = 192;

#[tactic(auto, unfolding(crate::specs::WordText::wide_text))]
pub(crate) fn add_wide(line: &mut ArrayString<LINE>, op: WideOp, reg: u8, imm: u32)
    requires { array_string_len line.old ≤ 13 }
    ensures bytes { line.new.bytes ≡ line.old.bytes ++ wide_text op reg imm }
    ensures len { array_string_len line.new ≤ array_string_len line.old + 32 }
{
    line.push_str(names::wide(op));
    line.push_str(" ");
    match op {
        WideOp::Literal | WideOp::LiteralHigh => add_register(line, reg),
        WideOp::TargetLiteral => add_target(line, reg),
    }
    line.push_str(", ");
    add_decimal(line, imm);
}

#[tactic(auto, unfolding(crate::specs::WordText::memory_text))]
pub(crate) fn add_memory(line: &mut ArrayString<LINE>, part: &MPart)
    requires { array_string_len line.old ≤ 13 }
    ensures bytes { line.new.bytes ≡ line.old.bytes ++ memory_text part.now }
    ensures len { array_string_len line.new ≤ array_string_len line.old + 47 }
{
    line.push_str(names::memory(part.op));
    line.push_str(names::access(part.acc));
    add_registers(line, part.rd, part.base);
    line.push_str(", ");
    add_signed(line, part.disp);
}

#[tactic(auto, unfolding(crate::specs::WordText::arithmetic_text))]
pub(crate) fn add_arithmetic(line: &mut ArrayString<LINE>, part: &APart)
    requires { array_string_len line.old ≤ 63 }
    ensures bytes { line.new.bytes ≡ line.old.bytes ++ arithmetic_text part.now }
    ensures len { array_string_len line.new ≤ array_string_len line.old + 45 }
{
    line.push_str(names::arithmetic(part.op));
    line.push_str(names::test(part.test));
    match part.op {
        ArithmeticOp::Nop => {}
        ArithmeticOp::Tally => add_registers(line, part.rd, part.ra),
        ArithmeticOp::Add
        | ArithmeticOp::Sub
        | ArithmeticOp::Mul
        | ArithmeticOp::And
        | ArithmeticOp::Or
        | ArithmeticOp::Xor
        | ArithmeticOp::AndNot
        | ArithmeticOp::ShiftLeft
        | ArithmeticOp::ShiftRight
        | ArithmeticOp::ShiftRightSigned
        | ArithmeticOp::LessSigned
        | ArithmeticOp::LessUnsigned
        | ArithmeticOp::Pointer => {
            add_registers(line, part.rd, part.ra);
            line.push_str(", ");
            add_source(line, part.imm, part.rb);
        }
    }
}

#[tactic(auto, unfolding(crate::specs::WordText::control_text))]
pub(crate) fn add_control(line: &mut ArrayString<LINE>, part: &CPart)
    requires { array_string_len line.old ≤ 111 }
    ensures bytes { line.new.bytes ≡ line.old.bytes ++ control_text part.now }
    ensures len { array_string_len line.new ≤ array_string_len line.old + 40 }
{
    line.push_str(names::control(part.op));
    match part.op {
        ControlOp::Nop | ControlOp::Quit | ControlOp::QuitKeep => {}
        ControlOp::Jump => {
            add_tested(line, part.cond, part.code);
            add_target(line, part.t);
        }
        ControlOp::Skip => {
            add_tested(line, part.cond, part.code);
            add_signed(line, part.n);
        }
        ControlOp::Call => {
            add_first_target(line, part.t);
            line.push_str(", ");
            add_target(line, part.u);
        }
        ControlOp::Exchange => add_first_target(line, part.t),
        ControlOp::TargetSet | ControlOp::Create => {
            add_first_target(line, part.t);
            line.push_str(", ");
            add_register(line, part.ra);
        }
        ControlOp::TargetGet => {
            add_first_register(line, part.rd);
            line.push_str(", ");
            add_target(line, part.t);
        }
        ControlOp::TrapGet => add_first_register(line, part.rd),
        ControlOp::Reserve => add_registers(line, part.rd, part.ra),
        ControlOp::Mask => {
            line.push_str(" ");
            add_signed(line, part.n);
        }
    }
}

/// Appends a blank, a condition and the number of the code that it is asked of, and a comma.
fn add_tested(line: &mut ArrayString<LINE>, condition: Condition, code: u8)
    requires { array_string_len line.old ≤ 118 }
    ensures bytes { line.new.bytes ≡ line.old.bytes
        ++ (codes " " ++ (condition_name condition ++ (codes ", " ++ (decimal code ++ codes ", ")))) }
    ensures len { array_string_len line.new ≤ array_string_len line.old + 21 }
{
    line.push_str(" ");
    line.push_str(names::condition(condition));
    line.push_str(", ");
    add_decimal(line, u32::from(code));
    line.push_str(", ");
}

/// Appends a blank and two registers.
fn add_registers(line: &mut ArrayString<LINE>, first: u8, second: u8)
    requires { array_string_len line.old ≤ 118 }
    ensures bytes { line.new.bytes ≡ line.old.bytes
        ++ (codes " " ++ (register_text first ++ (codes ", " ++ register_text second))) }
    ensures len { array_string_len line.new ≤ array_string_len line.old + 25 }
{
    add_first_register(line, first);
    line.push_str(", ");
    add_register(line, second);
}

/// Appends a blank and a register.
fn add_first_register(line: &mut ArrayString<LINE>, number: u8)
    requires { array_string_len line.old ≤ 118 }
    ensures bytes { line.new.bytes ≡ line.old.bytes ++ (codes " " ++ register_text number) }
    ensures len { array_string_len line.new ≤ array_string_len line.old + 12 }
{
    line.push_str(" ");
    add_register(line, number);
}

/// Appends a blank and a target register.
fn add_first_target(line: &mut ArrayString<LINE>, number: u8)
    requires { array_string_len line.old ≤ 118 }
    ensures bytes { line.new.bytes ≡ line.old.bytes ++ (codes " " ++ target_text number) }
    ensures len { array_string_len line.new ≤ array_string_len line.old + 12 }
{
    line.push_str(" ");
    add_target(line, number);
}

fn add_register(line: &mut ArrayString<LINE>, number: u8)
    requires { array_string_len line.old ≤ 150 }
    ensures bytes { line.new.bytes ≡ line.old.bytes ++ register_text number }
    ensures len { array_string_len line.new ≤ array_string_len line.old + 11 }
{
    line.push_str("r");
    add_decimal(line, u32::from(number));
}

fn add_target(line: &mut ArrayString<LINE>, number: u8)
    requires { array_string_len line.old ≤ 150 }
    ensures bytes { line.new.bytes ≡ line.old.bytes ++ target_text number }
    ensures len { array_string_len line.new ≤ array_string_len line.old + 11 }
{
    line.push_str("t");
    add_decimal(line, u32::from(number));
}

/// Appends a number, or the register of that number.
fn add_source(line: &mut ArrayString<LINE>, is_number: bool, number: u8)
    requires { array_string_len line.old ≤ 150 }
    ensures bytes { line.new.bytes ≡ line.old.bytes ++ source_text is_number number }
    ensures len { array_string_len line.new ≤ array_string_len line.old + 11 }
{
    if is_number {
        add_decimal(line, u32::from(number));
    } else {
        add_register(line, number);
    }
}

/// Appends a number with its sign, where it is negative.
fn add_signed(line: &mut ArrayString<LINE>, number: i8)
    requires { array_string_len line.old ≤ 150 }
    ensures bytes { line.new.bytes ≡ line.old.bytes ++ signed_decimal number }
    ensures len { array_string_len line.new ≤ array_string_len line.old + 11 }
{
    if number < 0 {
        line.push_str("-");
    }
    add_decimal(line, u32::from(number.unsigned_abs()));
}
