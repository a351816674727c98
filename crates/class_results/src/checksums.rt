//! Checksums of all that a result depends on.

ghost use Rattle.std.specs.Prelude.{◌≡◌, ◌↔◌, IsTrue};

/// A SHA-256.
pub type Checksum = [u8; 32];

/// All that a result depends on, by checksums.
#[derive(Clone, Copy, Debug)]
pub struct ResultBasis {
    /// Of the submission's bytes.
    pub submission: Checksum,
    /// Of what is expected of each case and the cells that it gives.
    pub cases: Checksum,
    /// Of the options that a verdict depends on, and of the version of the program.
    pub options: Checksum,
}

impl ResultBasis {
    /// Whether a result by this basis is one by that basis too: then it may be taken, and else it is not.
    pub fn holds_by(&self, wanted: &ResultBasis) -> bool
        ensures { IsTrue result ↔ (self.now ≡ wanted.now) }
    {
        self.submission == wanted.submission
            && self.cases == wanted.cases
            && self.options == wanted.options
    }
}
