//! Pieces of a line, with their places.

ghost use Rattle.std.specs.Prelude.{◌≡◌, ◌+◌, ◌-◌, ◌<◌, ◌≤◌, ◌^◌, length, IfSome};

/// A piece of a line, and how many bytes of the line stand before it.
#[derive(Clone, Copy)]
pub struct Token<'t> {
    /// How many bytes of the line stand before the piece.
    pub start: usize,
    /// Its bytes.
    pub bytes: &'t [u8],
    ghost short: { start + length bytes.now ≤ 2 ^ 63 },
}

impl<'t> Token<'t> {
    /// A line as a whole.
    pub fn of_line(bytes: &'t [u8]) -> Token<'t>
        ensures start { result.start ≡ 0 }
        ensures whole { result.bytes.now ≡ bytes.now }
    {
        Token { start: 0, bytes }
    }

    /// What stands from this place of the piece on, or nothing at its end.
    pub fn after(self, place: usize) -> Token<'t>
        ensures { length result.bytes.now ≡ length self.entry.bytes.now - place }
    {
        let place = place.min(self.bytes.len());
        Token {
            start: self.start + place,
            bytes: &self.bytes[place..],
        }
    }

    /// What stands before this place of the piece.
    pub fn before(self, place: usize) -> Token<'t>
        ensures { result.start ≡ self.entry.start }
    {
        let place = place.min(self.bytes.len());
        Token {
            start: self.start,
            bytes: &self.bytes[..place],
        }
    }

    /// What stands before the first of a byte, and what stands after it, if it is there.
    pub fn cut(self, byte: u8) -> (Token<'t>, Option<Token<'t>>)
        ensures { IfSome result.1 (λ rest. length rest.bytes.now < length self.entry.bytes.now) }
    {
        match self.bytes.iter().position(|b| *b == byte) {
            Some(place) => (self.before(place), Some(self.after(place + 1))),
            None => (self, None),
        }
    }

    /// Whether the piece begins with a byte.
    pub fn begins(self, byte: u8) -> bool {
        self.bytes.first() == Some(&byte)
    }
}
