//! The four tags of a word.
ghost use Rattle.std.specs.Prelude.{⊤, [], ◌∷◌, codes};

use bitflags::{Flag, Flags, bitflag_items};

/// A set of a word's tags. As a number full is 1, forward 2, trap0 4 and trap1 8.
///
/// The type can hold other bits too; a [`Word`](crate::Word) has none.
#[derive(Clone, Copy, PartialEq, Eq, Debug)]
pub struct Tags(u8);

bitflag_items! {
    impl Tags: u8 {
        const FULL = 1;
        const FORWARD = 2;
        const TRAP0 = 4;
        const TRAP1 = 8;
    }
}

impl Flags for Tags {
    type Bits = u8;

    ghost exact = { ⊤ };

    ghost table = { (codes "FULL", 1) ∷ (codes "FORWARD", 2) ∷ (codes "TRAP0", 4) ∷ (codes "TRAP1", 8) ∷ [] };

    ghost set_of = { λ t. t.0 };

    fn flags<'a>() -> &'a [Flag<Tags>] {
        Tags::FLAGS
    }

    fn bits(&self) -> u8 {
        self.0
    }

    fn from_bits_retain(bits: u8) -> Tags {
        Tags(bits)
    }
}
