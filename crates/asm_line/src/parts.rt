//! What an operation with its operands says: one function for each form of operands.

ghost use Rattle.std.specs.Prelude.{◌≡◌, ℕ, List};
ghost use Rattle.asm_line.specs.Labels.{places_of};
ghost use Rattle.asm_line.specs.OperandsSeen.{AreOperands};
ghost use Rattle.asm_line.specs.Parts.{wide_register, wide_word, memory_part, tally, of_two, arithmetic_part};

use crate::arguments::Arguments;
use crate::fault::{Fault, both};
use crate::labels::Labels;
use crate::operand::{Source, displacement, immediate, register, source_of, target};
use insn_word::{APart, Access, ArithmeticOp, Insn, MPart, MemoryOp, WideOp};

fn wide_register(op: WideOp, text: &[u8]) -> Result<u8, Fault>
    ensures { result ≡ wide_register op text.now }
{
    match op {
        WideOp::Literal | WideOp::LiteralHigh => register(text),
        WideOp::TargetLiteral => target(text),
    }
}

/// A wide operation: a register, or a target register, and a number or label.
pub(crate) fn wide_word(labels: &Labels, op: WideOp, operands: &Arguments) -> Result<Insn, Fault>
    ensures { (os : List (List ℕ)) → AreOperands operands.now os → result ≡ wide_word (places_of labels.now) op os }
{
    let Arguments::Two(x, y) = *operands else {
        return Err(Fault::Operand);
    };
    let (reg, imm) = both(wide_register(op, x), immediate(labels, y))?;
    Ok(Insn::Wide {
        look: 0,
        op,
        reg,
        imm,
    })
}

/// A memory operation: two registers and a displacement.
pub(crate) fn memory_part(op: MemoryOp, acc: Access, operands: &Arguments) -> Result<MPart, Fault>
    ensures { (os : List (List ℕ)) → AreOperands operands.now os → result ≡ memory_part op acc os }
{
    let Arguments::Three(x, y, z) = *operands else {
        return Err(Fault::Operand);
    };
    let ((rd, base), disp) = both(both(register(x), register(y)), displacement(z))?;
    Ok(MPart {
        op,
        acc,
        rd,
        base,
        disp,
    })
}

/// An arithmetic operation.
pub(crate) fn arithmetic_part(
    op: ArithmeticOp,
    test: bool,
    operands: &Arguments,
) -> Result<APart, Fault>
    ensures { (os : List (List ℕ)) → AreOperands operands.now os → result ≡ arithmetic_part op test os }
{
    match op {
        ArithmeticOp::Nop => Err(Fault::Operand),
        ArithmeticOp::Tally => tally(test, operands),
        ArithmeticOp::Add
        | ArithmeticOp::Sub
        | ArithmeticOp::Mul
        | ArithmeticOp::And
        | ArithmeticOp::Or
        | ArithmeticOp::Xor
        | ArithmeticOp::AndNot
        | ArithmeticOp::ShiftLeft
        | ArithmeticOp::ShiftRight
        | ArithmeticOp::ShiftRightSigned
        | ArithmeticOp::LessSigned
        | ArithmeticOp::LessUnsigned
        | ArithmeticOp::Pointer => of_two(op, test, operands),
    }
}

/// TALLY: two registers.
fn tally(test: bool, operands: &Arguments) -> Result<APart, Fault>
    ensures { (os : List (List ℕ)) → AreOperands operands.now os → result ≡ tally test os }
{
    let Arguments::Two(x, y) = *operands else {
        return Err(Fault::Operand);
    };
    let (rd, ra) = both(register(x), register(y))?;
    Ok(APart {
        op: ArithmeticOp::Tally,
        test,
        rd,
        ra,
        ..APart::NOP
    })
}

/// The other operations: two registers, and a register or number.
fn of_two(op: ArithmeticOp, test: bool, operands: &Arguments) -> Result<APart, Fault>
    ensures { (os : List (List ℕ)) → AreOperands operands.now os → result ≡ of_two op test os }
{
    let Arguments::Three(x, y, z) = *operands else {
        return Err(Fault::Operand);
    };
    let ((rd, ra), b) = both(both(register(x), register(y)), source_of(z))?;
    Ok(match b {
        Source::Register(rb) => APart {
            op,
            test,
            imm: false,
            rd,
            ra,
            rb,
        },
        Source::Number(rb) => APart {
            op,
            test,
            imm: true,
            rd,
            ra,
            rb,
        },
    })
}
