//! The digits of a word, read and written a field at a time. All masks and shifts of the crate are here.

ghost use Rattle.std.specs.Prelude.{◌≡◌, ◌+◌, ◌*◌, ◌/◌, ◌%◌, ◌^◌, ◌<◌, ◌≤◌, ℤ, pos, neg_ℤ, ◌≤ℤ◌, ◌<ℤ◌};
ghost use Rattle.insn_word.specs.Fields.{twos_complement};

/// The field of `width` digits above the `low` lowest ones.
pub(crate) fn field(bits: u64, low: u32, width: u32) -> u64
    requires low { low < 64 }
    requires width { width < 64 }
    ensures { result ≡ bits / 2 ^ low % 2 ^ width }
{
    bits >> low & ((1 << width) - 1)
}

/// The same for a field of at most 8 digits.
pub(crate) fn small_field(bits: u64, low: u32, width: u32) -> u8
    requires low { low < 64 }
    requires width { width ≤ 8 }
    ensures { result ≡ bits / 2 ^ low % 2 ^ width }
{
    field(bits, low, width) as u8
}

/// The number that 6 digits say in two's complement.
pub(crate) fn signed_6(digits: u8) -> i8
    requires { digits < 2 ^ 6 }
    ensures digits { twos_complement 6 result ≡ digits }
    ensures low { neg_ℤ (pos 32) ≤ℤ result }
    ensures high { result <ℤ pos 32 }
    ensures only { (z : ℤ) → neg_ℤ (pos 32) ≤ℤ z → z <ℤ pos 32 → twos_complement 6 z ≡ digits → result ≡ z }
{
    ((digits + 32) % 64).cast_signed() - 32
}

/// The number that 8 digits say in two's complement.
pub(crate) fn signed_8(digits: u8) -> i8
    ensures digits { twos_complement 8 result ≡ digits }
    ensures only { (z : ℤ) → neg_ℤ (pos 128) ≤ℤ z → z <ℤ pos 128 → twos_complement 8 z ≡ digits → result ≡ z }
{
    digits.cast_signed()
}

/// The 6 digits of a number in two's complement.
pub(crate) fn digits_6(number: i8) -> u64
    ensures { neg_ℤ (pos 32) ≤ℤ number → number <ℤ pos 32 → result ≡ twos_complement 6 number }
{
    u64::from(number.cast_unsigned() % 64)
}

/// The 8 digits of a number in two's complement.
pub(crate) fn digits_8(number: i8) -> u64
    ensures { result ≡ twos_complement 8 number }
{
    u64::from(number.cast_unsigned())
}

/// The digits followed by a further field of `width` digits.
pub(crate) fn with_field(bits: u64, width: u32, value: u64) -> u64
    requires { width < 64 }
    ensures { bits * 2 ^ width < 2 ^ 64 → value < 2 ^ width → result ≡ bits * 2 ^ width + value }
{
    bits << width | value
}
