//! Condition codes, and the conditions that jumps and skips ask of them.

ghost use Rattle.std.specs.Prelude.{◌≡◌, ◌<◌, ◌^◌};
ghost use Rattle.stream_core.specs.Conditions.{condition_holds};
ghost use Rattle.stream_core.specs.StatusWords.{code_number, code_from};

use insn_word::Condition;

/// Bit 1: the result is negative. Bit 0 says that it is zero.
const NEGATIVE_PLACE: u32 = 1;
/// Bit 2: the unsigned result does not fit.
const CARRY_PLACE: u32 = 2;
/// Bit 3: the signed result does not fit.
const OVERFLOW_PLACE: u32 = 3;

/// The condition code that an arithmetic operation with the test bit makes.
#[derive(Clone, Copy, Debug, PartialEq, Eq)]
pub struct Code {
    /// Z: the result is 0.
    pub zero: bool,
    /// N: bit 63 of the result.
    pub negative: bool,
    /// C: the unsigned result does not fit 64 bits; after a subtraction, `a` is below `b`.
    pub carry: bool,
    /// V: the signed result does not fit 64 bits.
    pub overflow: bool,
}

impl Code {
    /// The code with no bit set.
    pub const NONE: Code = Code {
        zero: false,
        negative: false,
        carry: false,
        overflow: false,
    };

    /// The code's four bits: Z is bit 0, N bit 1, C bit 2, V bit 3.
    pub(crate) fn number(self) -> u64
        ensures is { result ≡ code_number self }
        ensures below { result < 2 ^ 4 }
    {
        u64::from(self.zero)
            + u64::from(self.negative) * (1 << NEGATIVE_PLACE)
            + u64::from(self.carry) * (1 << CARRY_PLACE)
            + u64::from(self.overflow) * (1 << OVERFLOW_PLACE)
    }

    /// The code that the four low bits say.
    pub(crate) fn from_number(bits: u64) -> Code
        ensures { result ≡ code_from bits }
    {
        Code {
            zero: bits & 1 == 1,
            negative: bits >> NEGATIVE_PLACE & 1 == 1,
            carry: bits >> CARRY_PLACE & 1 == 1,
            overflow: bits >> OVERFLOW_PLACE & 1 == 1,
        }
    }
}

/// Whether the condition holds on the code ("Conditions", docs/MACHINE.md).
pub fn holds(condition: Condition, code: Code) -> bool
    ensures { result ≡ condition_holds condition code }
{
    let less = code.negative != code.overflow;
    match condition {
        Condition::Always => true,
        Condition::Equal => code.zero,
        Condition::NotEqual => !code.zero,
        Condition::Less => less,
        Condition::GreaterEqual => !less,
        Condition::LessEqual => code.zero || less,
        Condition::Greater => !(code.zero || less),
        Condition::LessUnsigned => code.carry,
        Condition::GreaterEqualUnsigned => !code.carry,
        Condition::LessEqualUnsigned => code.carry || code.zero,
        Condition::GreaterUnsigned => !(code.carry || code.zero),
        Condition::Negative => code.negative,
        Condition::Positive => !code.negative,
        Condition::Overflow => code.overflow,
        Condition::NoOverflow => !code.overflow,
    }
}
