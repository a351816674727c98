//! Status words: the pc, four condition codes, the trap mask and the in-trap bit. Target registers have the same
//! format.

ghost use Rattle.std.specs.Prelude.{◌≡◌, ◌<◌, ◌^◌, bit_and};
ghost use Rattle.stream_core.specs.Effects.{code_at};
ghost use Rattle.stream_core.specs.StatusWords.{codes_number, codes_from, mask_number, mask_from};
ghost use Rattle.stream_core.specs.StatusWords.{with_newest_code, status_at, status_number, status_from, status_digits};
ghost use Rattle.stream_core.specs.StatusWords.{IsKeptInDigits, AreOwnDigits};

use crate::conditions::Code;

/// Bits 0 to 31 of a status word: the pc.
const PC_WIDTH: u32 = 32;
/// Bits 32 to 47: the condition codes.
const CODES_PLACE: u32 = 32;
/// Bits 48 to 50: the trap mask.
const MASK_PLACE: u32 = 48;
/// Bit 56: whether the stream is in a trap.
const IN_TRAP_PLACE: u32 = 56;

/// Bits 4 to 7 of the condition codes: the second one. Bits 0 to 3 are the newest.
const SECOND_PLACE: u32 = 4;
/// Bits 8 to 11: the third code.
const THIRD_PLACE: u32 = 8;
/// Bits 12 to 15: the oldest code.
const OLDEST_PLACE: u32 = 12;

/// Bit 1 of the trap mask: the trap TRAP1. Bit 0 is the trap TRAP0.
const TRAP1_PLACE: u32 = 1;
/// Bit 2: the trap BLOCKED.
const BLOCKED_PLACE: u32 = 2;

/// The last four condition codes.
#[derive(Clone, Copy, Debug, PartialEq, Eq)]
pub struct Codes {
    /// The newest code.
    pub newest: Code,
    /// The code before it.
    pub second: Code,
    /// The code before that one.
    pub third: Code,
    /// The oldest code, which the next one pushes out.
    pub oldest: Code,
}

impl Codes {
    /// No code has been made.
    pub const NONE: Codes = Codes {
        newest: Code::NONE,
        second: Code::NONE,
        third: Code::NONE,
        oldest: Code::NONE,
    };

    /// The codes with a new one in front; the oldest is lost.
    pub(crate) fn pushed(&self, code: Code) -> Codes
        ensures { result ≡ with_newest_code code self.now }
    {
        Codes {
            newest: code,
            second: self.newest,
            third: self.second,
            oldest: self.third,
        }
    }

    /// The code at a place, 0 for the newest to 3 for the oldest.
    pub(crate) fn at(&self, place: u8) -> Code
        ensures { result ≡ code_at self.now place }
    {
        match place {
            0 => self.newest,
            1 => self.second,
            2 => self.third,
            _ => self.oldest,
        }
    }

    #[tactic(auto, unfolding(crate::specs::StatusWords::codes_number))]
    fn number(&self) -> u64
        ensures is { result ≡ codes_number self.now }
        ensures below { result < 2 ^ 16 }
    {
        self.newest.number()
            + self.second.number() * (1 << SECOND_PLACE)
            + self.third.number() * (1 << THIRD_PLACE)
            + self.oldest.number() * (1 << OLDEST_PLACE)
    }

    #[tactic(auto, unfolding(crate::specs::StatusWords::codes_from))]
    fn from_number(bits: u64) -> Codes
        ensures { result ≡ codes_from bits }
    {
        Codes {
            newest: Code::from_number(bits),
            second: Code::from_number(bits >> SECOND_PLACE),
            third: Code::from_number(bits >> THIRD_PLACE),
            oldest: Code::from_number(bits >> OLDEST_PLACE),
        }
    }
}

/// Which of the maskable traps are disabled.
#[derive(Clone, Copy, Debug, PartialEq, Eq)]
pub struct TrapMask {
    /// Bit 0 of the mask: the trap TRAP0.
    pub trap0: bool,
    /// Bit 1: the trap TRAP1.
    pub trap1: bool,
    /// Bit 2: the trap BLOCKED.
    pub blocked: bool,
}

impl TrapMask {
    /// No trap is disabled.
    pub const NONE: TrapMask = TrapMask {
        trap0: false,
        trap1: false,
        blocked: false,
    };

    /// The mask that the three low bits say.
    pub(crate) fn from_number(bits: u64) -> TrapMask
        ensures { result ≡ mask_from bits }
    {
        TrapMask {
            trap0: bits & 1 == 1,
            trap1: bits >> TRAP1_PLACE & 1 == 1,
            blocked: bits >> BLOCKED_PLACE & 1 == 1,
        }
    }

    fn number(self) -> u64
        ensures is { result ≡ mask_number self }
        ensures below { result < 2 ^ 3 }
    {
        u64::from(self.trap0)
            + u64::from(self.trap1) * (1 << TRAP1_PLACE)
            + u64::from(self.blocked) * (1 << BLOCKED_PLACE)
    }
}

/// A stream status word, or what a target register holds: every value of it is one.
#[derive(Clone, Copy, Debug, PartialEq, Eq)]
pub struct StatusWord {
    /// Bits 0 to 31: the program counter, which counts program words.
    pub pc: u32,
    /// Bits 32 to 47: four condition codes of four bits, the newest lowest.
    pub codes: Codes,
    /// Bits 48 to 50: the trap mask.
    pub mask: TrapMask,
    /// Bit 56: whether the stream is in a trap.
    pub in_trap: bool,
}

impl StatusWord {
    /// The status word with this pc and all else zero.
    pub fn at(pc: u32) -> StatusWord
        ensures { result ≡ status_at pc }
    {
        StatusWord {
            pc,
            codes: Codes::NONE,
            mask: TrapMask::NONE,
            in_trap: false,
        }
    }

    /// The 64 bits of the word ("Status words", docs/MACHINE.md).
    #[tactic(auto, unfolding(crate::specs::StatusWords::status_number))]
    pub fn bits(&self) -> u64
        ensures { result ≡ status_number self.now }
    {
        u64::from(self.pc)
            + self.codes.number() * (1 << CODES_PLACE)
            + self.mask.number() * (1 << MASK_PLACE)
            + u64::from(self.in_trap) * (1 << IN_TRAP_PLACE)
    }

    /// The status word that the bits say ("Status words", docs/MACHINE.md); bits that a status word does not have are
    /// left out.
    #[tactic(auto, unfolding(crate::specs::StatusWords::status_from))]
    pub fn from_bits(bits: u64) -> StatusWord
        ensures { result ≡ status_from bits }
    {
        StatusWord {
            pc: (bits % (1 << PC_WIDTH)) as u32,
            codes: Codes::from_number(bits >> CODES_PLACE),
            mask: TrapMask::from_number(bits >> MASK_PLACE),
            in_trap: bits >> IN_TRAP_PLACE & 1 == 1,
        }
    }
}

/// The law that ties status words to their bits: a status word is read back from its bits, and the bits of
/// the word that any number says are that number's bits 0 to 50 and 56.
pub fn status_words_are_their_digits()
    ensures kept { IsKeptInDigits }
    ensures masked { AreOwnDigits }
{}
