//! What a caller of a search looks at.

/// What who judges worlds looks at: streams while they run at places of a program, and words of the memory.
#[derive(Clone, Copy, Debug)]
pub struct Observation<'a> {
    /// Of each place of the program, from 0 on, whether streams are looked at there; past the end none is.
    pub places: &'a [bool],
    /// The byte addresses of the words.
    pub words: &'a [u64],
}

impl Observation<'_> {
    /// Nothing is looked at.
    pub const NOTHING: Observation<'static> = Observation {
        places: &[],
        words: &[],
    };
}
