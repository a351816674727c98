//! What registers hold after an instruction, by what they hold before it.

ghost use Rattle.std.specs.Prelude.{◌≡◌, ◌<◌, ◌+◌, ◌*◌, ◌%◌, ◌^◌, ℕ, IfSome, bit_and};
ghost use Rattle.stream_core.specs.Registers.{register_at};
ghost use Rattle.stream_core.specs.Streams.{StreamValue};
ghost use Rattle.stream_core.specs.Arithmetic.{result_of};
ghost use Rattle.stream_core.specs.Effects.{arithmetic_value, second_operand};
ghost use Rattle.program_flow.specs.Operands.{wide_destination};
ghost use Rattle.program_flow.specs.Agreement.{wide_value, registers_over};
ghost use Rattle.touched_words.specs.TouchTables.{IsOneOf, HoldsKnown};

use crate::few::Few;
use crate::rows::known_by;
use insn_word::{APart, ArithmeticOp, Insn, WideOp};
use stream_core::alu;

/// The width of half a register.
const HALF_WIDTH: u32 = 32;

/// What a register may hold after an instruction, where that is known by what is known before it.
pub(crate) fn known_after(row: &[Option<Few>], insn: &Insn, register: u8) -> Option<Few>
    requires { register < 32 }
    ensures { IfSome result (λ few. (s : StreamValue) (value grant : ℕ) → HoldsKnown row.now s.registers
        → IsOneOf few (register_at (registers_over s insn.now value grant s.registers) register)) }
{
    let before = known_by(row, register);
    if register == 0 {
        return before;
    }
    match insn {
        Insn::Wide { op, reg, imm, .. } => {
            if wide_destination(*op, *reg) == register {
                known_of_wide(row, *op, *reg, *imm)
            } else {
                before
            }
        }
        Insn::Normal { m, a, c, .. } => {
            if c.destination() == register {
                None
            } else if a.destination() == register {
                known_of_arithmetic(row, a)
            } else if m.destination() == register {
                None
            } else {
                before
            }
        }
    }
}

/// The register that a wide operation writes; r0 where it writes none.
fn wide_destination(op: WideOp, reg: u8) -> u8
    ensures { result ≡ wide_destination op reg }
{
    match op {
        WideOp::Literal | WideOp::LiteralHigh => reg,
        WideOp::TargetLiteral => 0,
    }
}

/// What a wide operation writes, where that is known.
fn known_of_wide(row: &[Option<Few>], op: WideOp, reg: u8, imm: u32) -> Option<Few>
    ensures { IfSome result (λ few. (s : StreamValue) → HoldsKnown row.now s.registers
        → IsOneOf few (wide_value s op reg imm)) }
{
    match op {
        WideOp::Literal => Some(Few::one(u64::from(imm))),
        WideOp::LiteralHigh => {
            let low = known_by(row, reg)?;
            Some(with_high(low, imm))
        }
        WideOp::TargetLiteral => Some(Few::one(0)),
    }
}

/// What LITH makes of each of these numbers.
fn with_high(low: Few, imm: u32) -> Few
    ensures { (n : ℕ) → IsOneOf low n → IsOneOf result (imm * 2 ^ 32 + n % 2 ^ 32) }
{
    Few {
        first: high_of(low.first, imm),
        second: high_of(low.second, imm),
        third: high_of(low.third, imm),
        fourth: high_of(low.fourth, imm),
    }
}

/// What it makes of one.
fn high_of(low: u64, imm: u32) -> u64
    ensures { result ≡ imm * 2 ^ 32 + low % 2 ^ 32 }
{
    u64::from(imm) * (1 << HALF_WIDTH) + low % (1 << HALF_WIDTH)
}

/// What an arithmetic operation may write, where that is known: by its operands, or by the number that an AND has.
fn known_of_arithmetic(row: &[Option<Few>], a: &APart) -> Option<Few>
    ensures { IfSome result (λ few. (s : StreamValue) → HoldsKnown row.now s.registers
        → IsOneOf few (arithmetic_value s a.now)) }
{
    match known_results(row, a) {
        Some(few) => Some(few),
        None => known_masked(a),
    }
}

/// The same by its operands.
fn known_results(row: &[Option<Few>], a: &APart) -> Option<Few>
    ensures { IfSome result (λ few. (s : StreamValue) → HoldsKnown row.now s.registers
        → IsOneOf few (arithmetic_value s a.now)) }
{
    let first = known_by(row, a.ra)?;
    let second = known_second(row, a)?;
    results(a.op, first, second)
}

/// The results of one of some numbers and one of others, where one of the two is known.
fn results(op: ArithmeticOp, first: Few, second: Few) -> Option<Few>
    ensures { IfSome result (λ few. (m n : ℕ) → IsOneOf first m → IsOneOf second n → IsOneOf few (result_of op m n)) }
{
    if second.is_one() {
        return Some(results_by(op, first, second.first));
    }
    if first.is_one() {
        return Some(results_from(op, first.first, second));
    }
    None
}

/// The results of each of these numbers and another one.
fn results_by(op: ArithmeticOp, first: Few, second: u64) -> Few
    ensures { (n : ℕ) → IsOneOf first n → IsOneOf result (result_of op n second) }
{
    Few {
        first: alu(op, first.first, second).0,
        second: alu(op, first.second, second).0,
        third: alu(op, first.third, second).0,
        fourth: alu(op, first.fourth, second).0,
    }
}

/// The results of a number and each of these.
fn results_from(op: ArithmeticOp, first: u64, second: Few) -> Few
    ensures { (n : ℕ) → IsOneOf second n → IsOneOf result (result_of op first n) }
{
    Few {
        first: alu(op, first, second.first).0,
        second: alu(op, first, second.second).0,
        third: alu(op, first, second.third).0,
        fourth: alu(op, first, second.fourth).0,
    }
}

/// What an AND of a register and the number 1 or 3 may write, whatever the register holds: so places of a ring are known.
fn known_masked(a: &APart) -> Option<Few>
    ensures { IfSome result (λ few. (s : StreamValue) → IsOneOf few (arithmetic_value s a.now)) }
{
    if a.op == ArithmeticOp::And && a.imm {
        masked(a.rb)
    } else {
        None
    }
}

/// What an AND with a number may be, where that is 1 or 3.
fn masked(mask: u8) -> Option<Few>
    ensures { IfSome result (λ few. (n : ℕ) → IsOneOf few (bit_and n mask)) }
{
    if mask == 1 {
        return Some(Few {
            first: 0,
            second: 1,
            third: 1,
            fourth: 1,
        });
    }
    if mask == 3 {
        return Some(Few {
            first: 0,
            second: 1,
            third: 2,
            fourth: 3,
        });
    }
    None
}

/// The second operand, where that is known.
fn known_second(row: &[Option<Few>], a: &APart) -> Option<Few>
    ensures { IfSome result (λ few. (s : StreamValue) → HoldsKnown row.now s.registers
        → IsOneOf few (second_operand s a.now)) }
{
    if a.imm {
        Some(Few::one(u64::from(a.rb)))
    } else {
        known_by(row, a.rb)
    }
}
