//! The traps and their numbers.

ghost use Rattle.std.specs.Prelude.{◌≡◌, ◌<◌};
ghost use Rattle.stream_core.specs.Traps.{trap_number};

/// Why a stream traps ("Traps", docs/MACHINE.md).
#[derive(Clone, Copy, Debug, PartialEq, Eq)]
pub enum TrapKind {
    /// PROGRAM: the pc is at or past the program's end.
    Program = 1,
    /// ILLEGAL: the word at the pc spells no instruction.
    Illegal = 2,
    /// CREATE: a CREATE where every reserved stream is in use.
    Create = 3,
    /// POINTER: a pointer that no reference may use.
    Pointer = 4,
    /// ALIGN: an address that is no multiple of 8.
    Align = 5,
    /// RANGE: an address past the last word.
    Range = 6,
    /// TRAP0: the word's trap0 bit; mask bit 0 disables it.
    Trap0 = 7,
    /// TRAP1: the word's trap1 bit; mask bit 1 disables it.
    Trap1 = 8,
    /// FORWARD: a forwarding past the chain limit.
    Forward = 9,
    /// BLOCKED: a reference that was blocked too often; mask bit 2 disables it.
    Blocked = 10,
}

impl TrapKind {
    /// The trap's number, 1 to 10 ("Traps", docs/MACHINE.md).
    pub fn number(self) -> u8
        ensures is { result ≡ trap_number self }
        ensures below { result < 11 }
    {
        self as u8
    }
}
