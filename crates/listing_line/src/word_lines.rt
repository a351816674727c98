//! A program word as a line of a listing.

ghost use Rattle.std.specs.Prelude.{◌≡◌, ◌+◌, ◌<◌, ◌≤◌, ◌++◌, MatchResult, length, string_bytes, codes};
ghost use Rattle.std.specs.String.{string_len, string_capacity};
ghost use Rattle.arrayvec.specs.ArrayString.{array_string_len};
ghost use Rattle.listing_line.specs.WordText.{lookahead_text, insn_text, bar_separated, memory_texts};
ghost use Rattle.listing_line.specs.WordText.{arithmetic_texts, control_texts, word_text, word_line};

use crate::operations::{LINE, add_arithmetic, add_control, add_memory, add_wide};
use arrayvec::ArrayString;
use asm_line::{Directive, names};
use insn_word::{APart, ArithmeticOp, CPart, ControlOp, Insn, MPart, MemoryOp, Profile, decode_as};
use std::alloc::AllocError;
use text_parts::{add_decimal, add_five_digits, add_hexadecimal};

/// Appends a program word as a line of a listing, with its line end: the instruction that the word spells in the
/// profile, or `.word` where it spells none, and after a semicolon the word's place in the program and the word itself ("Listing",
/// docs/FORMATS.md). It fails only where the text has no room for it and memory is refused; the text then stays as it
/// was.
#[tactic(auto, unfolding(crate::specs::WordText::word_line, crate::specs::WordText::place_comment))]
pub fn push_word_line(
    text: &mut String,
    profile: Profile,
    place: u16,
    word: u64,
) -> Result<(), AllocError>
    ensures { MatchResult result
        (λ _. string_bytes text.new ≡ string_bytes text.old ++ (word_line profile place word ++ codes "\n"))
        (λ _. (string_capacity text.old < string_len text.old + length (word_line profile place word ++ codes "\n"))
        × (string_bytes text.new ≡ string_bytes text.old)) }
{
    let mut line = ArrayString::<LINE>::new();
    add_word(&mut line, profile, word);
    line.push_str(" ; ");
    add_five_digits(&mut line, place);
    line.push_str(" ");
    add_hexadecimal::<16, LINE>(&mut line, word);
    line.push_str("\n");
    text.push_str(line.as_str())
}

#[tactic(auto, unfolding(crate::specs::WordText::word_text, crate::specs::WordText::raw_text))]
fn add_word(line: &mut ArrayString<LINE>, profile: Profile, word: u64)
    requires { array_string_len line.old ≡ 0 }
    ensures bytes { line.new.bytes ≡ line.old.bytes ++ word_text profile word }
    ensures len { array_string_len line.new ≤ 151 }
{
    match decode_as(profile, word) {
        Some(insn) => add_insn(line, &insn),
        None => {
            line.push_str(names::directive(Directive::Word));
            line.push_str(" 0x");
            add_hexadecimal::<16, LINE>(line, word);
        }
    }
}

#[tactic(auto, unfolding(crate::specs::WordText::insn_text))]
fn add_insn(line: &mut ArrayString<LINE>, insn: &Insn)
    requires { array_string_len line.old ≡ 0 }
    ensures bytes { line.new.bytes ≡ line.old.bytes ++ insn_text insn.now }
    ensures len { array_string_len line.new ≤ 151 }
{
    match insn {
        Insn::Wide { look, op, reg, imm } => {
            add_lookahead(line, *look);
            add_wide(line, *op, *reg, *imm);
        }
        Insn::Normal { look, m, a, c } => {
            add_lookahead(line, *look);
            add_operations(line, m, a, c);
        }
    }
}

fn add_lookahead(line: &mut ArrayString<LINE>, look: u8)
    requires { array_string_len line.old ≡ 0 }
    ensures bytes { line.new.bytes ≡ line.old.bytes ++ lookahead_text look }
    ensures len { array_string_len line.new ≤ 12 }
{
    if look != 0 {
        line.push_str("@");
        add_decimal(line, u32::from(look));
        line.push_str(" ");
    }
}

/// Appends the operations that are not NOP, with bars between them, or NOP where there is none.
fn add_operations(line: &mut ArrayString<LINE>, m: &MPart, a: &APart, c: &CPart)
    requires { array_string_len line.old ≤ 12 }
    ensures bytes { line.new.bytes ≡ line.old.bytes
        ++ bar_separated (memory_texts m.now ++ (arithmetic_texts a.now ++ control_texts c.now)) }
    ensures len { array_string_len line.new ≤ 151 }
{
    if m.op == MemoryOp::Nop {
        return add_without_memory(line, a, c);
    }
    add_memory(line, m);
    if a.op == ArithmeticOp::Nop && c.op == ControlOp::Nop {
        return;
    }
    line.push_str(" | ");
    add_without_memory(line, a, c);
}

fn add_without_memory(line: &mut ArrayString<LINE>, a: &APart, c: &CPart)
    requires { array_string_len line.old ≤ 62 }
    ensures bytes { line.new.bytes ≡ line.old.bytes
        ++ bar_separated (arithmetic_texts a.now ++ control_texts c.now) }
    ensures len { array_string_len line.new ≤ 151 }
{
    if a.op == ArithmeticOp::Nop {
        return add_only_control(line, c);
    }
    add_arithmetic(line, a);
    if c.op == ControlOp::Nop {
        return;
    }
    line.push_str(" | ");
    add_only_control(line, c);
}

fn add_only_control(line: &mut ArrayString<LINE>, c: &CPart)
    requires { array_string_len line.old ≤ 111 }
    ensures bytes { line.new.bytes ≡ line.old.bytes ++ bar_separated (control_texts c.now) }
    ensures len { array_string_len line.new ≤ 151 }
{
    if c.op == ControlOp::Nop {
        return line.push_str("NOP");
    }
    add_control(line, c);
}
