//! The pages of `explain`. Their texts are made by docs/words/make.py of the files in docs/words.

mod accesses;
mod arithmetic;
mod concepts;
mod conditions;
mod control;
mod directives;
mod faults;
mod memory;
mod outcomes;

/// The texts of all pages, in the order in which they are shown.
pub(crate) const TEXTS: [&str; 9] = [
    memory::TEXT,
    arithmetic::TEXT,
    control::TEXT,
    accesses::TEXT,
    conditions::TEXT,
    directives::TEXT,
    outcomes::TEXT,
    concepts::TEXT,
    faults::TEXT,
];
