//! Pointers: an address with a control and three disable bits in its high bits.
ghost use Rattle.std.specs.Prelude.{◌≡◌, ℕ};
ghost use Rattle.tag_memory.specs.Cell.{has_bit};
ghost use Rattle.tag_memory.specs.Address.{address_of, is_reserved};
ghost use Rattle.tag_memory.specs.Access.{pointer_control};

use std::marker::Model;

/// What a reference asks of the full bit of the word that it reaches, by the full/empty table of docs/MACHINE.md.
#[derive(Clone, Copy, PartialEq, Eq, Debug)]
pub enum AccessControl {
    /// The full bit is not looked at.
    Normal,
    /// The word has to be full, and stays so.
    Future,
    /// A load waits for a full word and empties it, a store for an empty one and fills it.
    Sync,
}

/// A pointer of 64 bits, each combination of which is one ("pointers", docs/MACHINE.md): bits 0 to 47 are the byte
/// address, 48 to 58 are to be zero, 59 and 60 are the control (0 normal, 1 reserved, 2 future, 3 sync), 61 disables
/// forwarding, 62 the trap0 bit and 63 the trap1 bit.
#[derive(Clone, Copy, PartialEq, Eq, Debug)]
pub struct Pointer(u64);

impl Model for Pointer {
    ghost Value = { ℕ };

    ghost view = { λ p. p.0 };

    ghost inverse = { λ n. record { 0 = n } };
}

impl Pointer {
    /// Bits 0 to 47: the byte address.
    const ADDRESS_MASK: u64 = 0xFFFF_FFFF_FFFF;

    /// Bits 48 to 58 are to be zero: where they begin,
    const ZERO_SHIFT: u32 = 48;

    /// and as many ones.
    const ZERO_MASK: u64 = 0x7FF;

    /// Bits 59 and 60: the control; where they begin,
    const CONTROL_SHIFT: u32 = 59;

    /// and as many ones.
    const CONTROL_MASK: u64 = 3;

    /// Bit 61 disables forwarding.
    const FORWARD_DISABLE_SHIFT: u32 = 61;

    /// Bit 62 disables the trap0 bit.
    const TRAP0_DISABLE_SHIFT: u32 = 62;

    /// Bit 63 disables the trap1 bit.
    const TRAP1_DISABLE_SHIFT: u32 = 63;

    /// The pointer of these 64 bits.
    pub fn new(bits: u64) -> Pointer
        ensures { result ≡ bits }
    {
        Pointer(bits)
    }

    /// The 64 bits.
    pub fn bits(self) -> u64
        ensures { result ≡ self }
    {
        self.0
    }

    /// The byte address, below 2^48.
    pub fn address(self) -> u64
        ensures { result ≡ address_of self }
    {
        self.0 & Self::ADDRESS_MASK
    }

    /// The control. The reserved one reads as normal: no reference by such a pointer gets as far as to use it.
    pub fn control(self) -> AccessControl
        ensures { result ≡ pointer_control self }
    {
        match self.0 >> Self::CONTROL_SHIFT & Self::CONTROL_MASK {
            2 => AccessControl::Future,
            3 => AccessControl::Sync,
            _ => AccessControl::Normal,
        }
    }

    /// Whether no reference may use the pointer: a bit of 48 to 58 is set, or the control is the reserved one.
    pub fn is_reserved(self) -> bool
        ensures { result ≡ is_reserved self }
    {
        self.0 >> Self::ZERO_SHIFT & Self::ZERO_MASK != 0
            || self.0 >> Self::CONTROL_SHIFT & Self::CONTROL_MASK == 1
    }

    /// Whether a reference by this pointer takes a forwarding word as it is.
    pub fn disables_forward(self) -> bool
        ensures { result ≡ has_bit self 61 }
    {
        self.0 >> Self::FORWARD_DISABLE_SHIFT & 1 == 1
    }

    /// Whether a reference by this pointer passes over the trap0 bit of a word.
    pub fn disables_trap0(self) -> bool
        ensures { result ≡ has_bit self 62 }
    {
        self.0 >> Self::TRAP0_DISABLE_SHIFT & 1 == 1
    }

    /// Whether a reference by this pointer passes over the trap1 bit of a word.
    pub fn disables_trap1(self) -> bool
        ensures { result ≡ has_bit self 63 }
    {
        self.0 >> Self::TRAP1_DISABLE_SHIFT & 1 == 1
    }
}
