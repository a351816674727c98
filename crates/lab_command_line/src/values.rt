//! What the values of arguments are. Of it share/make.py makes what the completions offer.

/// What a value is.
#[derive(Clone, Copy)]
pub(crate) enum ValueKind {
    /// A file, whose name mostly ends in one of these.
    File(&'static [&'static str]),
    /// A folder.
    Folder,
    /// One of these words, and no other.
    OneOf(&'static [&'static str]),
    /// One of these words, or another text.
    OneOfOrOther(&'static [&'static str]),
    /// A number, from the first to the second.
    Number(u64, u64),
    /// A word that has a page of `explain`, or another text.
    Explained,
    /// The number of an exercise, or the name of its folder.
    Exercise,
    /// Any text.
    Text,
    /// A part of an instruction, which may begin with a sign.
    Operand,
}

/// A program: a source text or an image.
pub(crate) const PROGRAM_FILE: ValueKind = ValueKind::File(&[".asm", ".image"]);

/// A source text.
pub(crate) const SOURCE_FILE: ValueKind = ValueKind::File(&[".asm"]);

/// A schedule.
pub(crate) const SCHEDULE_FILE: ValueKind = ValueKind::File(&[".schedule"]);

/// What the end of a run has to be.
pub(crate) const EXPECT_FILE: ValueKind = ValueKind::File(&[".expect"]);

/// The words of a case.
pub(crate) const CELLS_FILE: ValueKind = ValueKind::File(&[".data"]);

/// A page for a browser.
pub(crate) const PAGE_FILE: ValueKind = ValueKind::File(&[".html"]);

/// Kept results of submissions.
pub(crate) const RESULTS_FILE: ValueKind = ValueKind::File(&[".jsonl"]);
