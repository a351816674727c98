//! Which registers expectations name.

ghost use Rattle.std.specs.Prelude.{◌≡◌, ◌<◌, ℕ, false, slice_index_or};
ghost use Rattle.expectations.specs.NamedRegisters.{names_register, is_register_named};

use crate::expectation::Expectation;

/// Of each of the 32 registers whether an expectation names it, of whatever stream.
pub fn named_registers(expectations: &[Expectation]) -> [bool; 32]
    ensures { (r : ℕ) → r < 32 → slice_index_or result r false ≡ is_register_named expectations.now r }
{
    let mut named = [false; 32];
    for register in 0..32u8 {
        named[usize::from(register)] = is_register_named(expectations, register);
    }
    named
}

/// Whether an expectation names a register.
fn is_register_named(expectations: &[Expectation], register: u8) -> bool
    ensures { result ≡ is_register_named expectations.now register }
{
    expectations.iter().any(
        |expectation: &Expectation| -> bool
            ensures { result ≡ names_register register expectation.now }
        { names_register(expectation, register) },
    )
}

/// Whether it is an expectation of this register.
fn names_register(expectation: &Expectation, register: u8) -> bool
    ensures { result ≡ names_register register expectation.now }
{
    match *expectation {
        Expectation::Register { number, .. } => number == register,
        Expectation::Word { .. }
        | Expectation::Words { .. }
        | Expectation::Sum { .. }
        | Expectation::Compared { .. }
        | Expectation::Finished
        | Expectation::Stopped { .. }
        | Expectation::Waits { .. }
        | Expectation::Loops => false,
    }
}
