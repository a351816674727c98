//! Contents as numbers.

ghost use Rattle.std.specs.Prelude.{◌≡◌};
ghost use Rattle.stream_core.specs.StatusWords.{codes_number, mask_number};
ghost use Rattle.step_views.specs.Numbers.{number_of};

use crate::places::Content;
use bitflags::Flags;
use stream_core::{Codes, StatusWord, TrapMask};

/// Bits 32 to 47 of a status word: the condition codes.
const CODES_PLACE: u32 = 32;

/// Bits 48 to 50: the trap mask.
const MASK_PLACE: u32 = 48;

impl Content {
    /// The content as a number: condition codes as their 16 bits, a trap mask as its three, whether a stream is in a
    /// trap as 0 or 1, a target register as its 64 bits ("Status words", docs/MACHINE.md), tags as their four bits.
    /// None of a status.
    pub fn number(&self) -> Option<u64>
        ensures { result ≡ number_of self.now }
    {
        match self {
            Content::Number(number) => Some(*number),
            Content::Codes(codes) => Some(codes_number(*codes)),
            Content::Mask(mask) => Some(mask_number(*mask)),
            Content::InTrap(in_trap) => Some(u64::from(*in_trap)),
            Content::Status(_) => None,
            Content::Target(word) => Some(word.bits()),
            Content::Tags(tags) => Some(u64::from(tags.bits())),
        }
    }
}

/// The 16 bits of condition codes.
#[tactic(auto, unfolding(stream_core::specs::StatusWords::status_number))]
fn codes_number(codes: Codes) -> u64
    ensures { result ≡ codes_number codes }
{
    let word = StatusWord {
        codes,
        ..StatusWord::at(0)
    };
    word.bits() >> CODES_PLACE
}

/// The three bits of a trap mask.
#[tactic(auto, unfolding(stream_core::specs::StatusWords::status_number))]
fn mask_number(mask: TrapMask) -> u64
    ensures { result ≡ mask_number mask }
{
    let word = StatusWord {
        mask,
        ..StatusWord::at(0)
    };
    word.bits() >> MASK_PLACE
}
