//! What a control operation with its operands says: one function for each form of operands.

ghost use Rattle.std.specs.Prelude.{◌≡◌, ℕ, List};
ghost use Rattle.asm_line.specs.Labels.{places_of};
ghost use Rattle.asm_line.specs.OperandsSeen.{AreOperands};
ghost use Rattle.asm_line.specs.Faults.{both};
ghost use Rattle.asm_line.specs.Numbers.{number_within};
ghost use Rattle.asm_line.specs.Operands.{condition};
ghost use Rattle.asm_line.specs.Parts.{jump_part, jump, skip, call, exchange, to_target, from_target, trap_get};
ghost use Rattle.asm_line.specs.Parts.{reserve, bare, mask, control_part};

use crate::arguments::Arguments;
use crate::fault::{Fault, both};
use crate::labels::Labels;
use crate::numbers::{positive_within, small_within};
use crate::operand::{condition, offset, register, target};
use insn_word::{CPart, Condition, ControlOp};

/// A control operation at the place `here`.
pub(crate) fn control_part(
    labels: &Labels,
    here: usize,
    op: ControlOp,
    operands: &Arguments,
) -> Result<CPart, Fault>
    ensures { (os : List (List ℕ)) → AreOperands operands.now os
        → result ≡ control_part (places_of labels.now) here op os }
{
    match op {
        ControlOp::Nop => Err(Fault::Operand),
        ControlOp::Jump => jump(operands),
        ControlOp::Skip => skip(labels, here, operands),
        ControlOp::Call => call(operands),
        ControlOp::Exchange => exchange(operands),
        ControlOp::TargetSet => to_target(op, operands),
        ControlOp::TargetGet => from_target(operands),
        ControlOp::TrapGet => trap_get(operands),
        ControlOp::Reserve => reserve(operands),
        ControlOp::Create => to_target(op, operands),
        ControlOp::Quit => bare(op, operands),
        ControlOp::QuitKeep => bare(op, operands),
        ControlOp::Mask => mask(operands),
    }
}

/// A condition, and the number of the code that it is asked of.
fn tested(condition_text: &[u8], code: &[u8]) -> Result<(Condition, u8), Fault>
    ensures { result ≡ both (condition condition_text.now) (number_within 3 code.now) }
{
    both(condition(condition_text), small_within(3, code))
}

/// JUMP: a condition, the number of a code and a target register.
fn jump(operands: &Arguments) -> Result<CPart, Fault>
    ensures { (os : List (List ℕ)) → AreOperands operands.now os → result ≡ jump os }
{
    let Arguments::Three(x, y, z) = *operands else {
        return Err(Fault::Operand);
    };
    jump_part(tested(x, y), target(z))
}

fn jump_part(
    test: Result<(Condition, u8), Fault>,
    target: Result<u8, Fault>,
) -> Result<CPart, Fault>
    ensures { result ≡ jump_part test target }
{
    let ((cond, code), t) = both(test, target)?;
    Ok(CPart {
        op: ControlOp::Jump,
        cond,
        code,
        t,
        ..CPart::NOP
    })
}

/// SKIP: a condition, the number of a code, and how far.
fn skip(labels: &Labels, here: usize, operands: &Arguments) -> Result<CPart, Fault>
    ensures { (os : List (List ℕ)) → AreOperands operands.now os → result ≡ skip (places_of labels.now) here os }
{
    let Arguments::Three(x, y, z) = *operands else {
        return Err(Fault::Operand);
    };
    let ((cond, code), n) = both(tested(x, y), offset(labels, here, z))?;
    Ok(CPart {
        op: ControlOp::Skip,
        cond,
        code,
        n,
        ..CPart::NOP
    })
}

/// CALL: two target registers.
fn call(operands: &Arguments) -> Result<CPart, Fault>
    ensures { (os : List (List ℕ)) → AreOperands operands.now os → result ≡ call os }
{
    let Arguments::Two(x, y) = *operands else {
        return Err(Fault::Operand);
    };
    let (t, u) = both(target(x), target(y))?;
    Ok(CPart {
        op: ControlOp::Call,
        t,
        u,
        ..CPart::NOP
    })
}

/// XCHG: a target register.
fn exchange(operands: &Arguments) -> Result<CPart, Fault>
    ensures { (os : List (List ℕ)) → AreOperands operands.now os → result ≡ exchange os }
{
    let Arguments::One(x) = *operands else {
        return Err(Fault::Operand);
    };
    let t = target(x)?;
    Ok(CPart {
        op: ControlOp::Exchange,
        t,
        ..CPart::NOP
    })
}

/// TSET and CREATE: a target register and a register.
fn to_target(op: ControlOp, operands: &Arguments) -> Result<CPart, Fault>
    ensures { (os : List (List ℕ)) → AreOperands operands.now os → result ≡ to_target op os }
{
    let Arguments::Two(x, y) = *operands else {
        return Err(Fault::Operand);
    };
    let (t, ra) = both(target(x), register(y))?;
    Ok(CPart {
        op,
        t,
        ra,
        ..CPart::NOP
    })
}

/// TGET: a register and a target register.
fn from_target(operands: &Arguments) -> Result<CPart, Fault>
    ensures { (os : List (List ℕ)) → AreOperands operands.now os → result ≡ from_target os }
{
    let Arguments::Two(x, y) = *operands else {
        return Err(Fault::Operand);
    };
    let (rd, t) = both(register(x), target(y))?;
    Ok(CPart {
        op: ControlOp::TargetGet,
        rd,
        t,
        ..CPart::NOP
    })
}

/// XGET: a register.
fn trap_get(operands: &Arguments) -> Result<CPart, Fault>
    ensures { (os : List (List ℕ)) → AreOperands operands.now os → result ≡ trap_get os }
{
    let Arguments::One(x) = *operands else {
        return Err(Fault::Operand);
    };
    let rd = register(x)?;
    Ok(CPart {
        op: ControlOp::TrapGet,
        rd,
        ..CPart::NOP
    })
}

/// RESERVE: two registers.
fn reserve(operands: &Arguments) -> Result<CPart, Fault>
    ensures { (os : List (List ℕ)) → AreOperands operands.now os → result ≡ reserve os }
{
    let Arguments::Two(x, y) = *operands else {
        return Err(Fault::Operand);
    };
    let (rd, ra) = both(register(x), register(y))?;
    Ok(CPart {
        op: ControlOp::Reserve,
        rd,
        ra,
        ..CPart::NOP
    })
}

/// QUIT and QUITP: nothing.
fn bare(op: ControlOp, operands: &Arguments) -> Result<CPart, Fault>
    ensures { (os : List (List ℕ)) → AreOperands operands.now os → result ≡ bare op os }
{
    let Arguments::Zero = *operands else {
        return Err(Fault::Operand);
    };
    Ok(CPart { op, ..CPart::NOP })
}

/// MASK: a number to 7.
fn mask(operands: &Arguments) -> Result<CPart, Fault>
    ensures { (os : List (List ℕ)) → AreOperands operands.now os → result ≡ mask os }
{
    let Arguments::One(x) = *operands else {
        return Err(Fault::Operand);
    };
    let n = positive_within(7, x)?;
    Ok(CPart {
        op: ControlOp::Mask,
        n,
        ..CPart::NOP
    })
}
