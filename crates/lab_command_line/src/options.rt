//! The values of arguments: how they are read, their bounds, and what stands for those that are left out.

use crate::choices::meaning;
use clap::ArgMatches;
use lab_requests::Shown;
use std::alloc::{AllocError, Global};

/// The most steps that a schedule may have.
pub(crate) const MOST_STEPS: u64 = 1_000_000;

/// The most seeds of one survey.
pub(crate) const MOST_SEEDS: u64 = 100_000_000;

/// How many steps a made schedule has at most, where none are said.
pub(crate) const USUAL_STEPS: usize = 10_000;

/// The most worlds that `explore` may be asked to look for.
pub(crate) const MOST_WORLDS: u64 = 1_000_000_000;

/// How many worlds it looks for at most, where none are said.
pub(crate) const USUAL_WORLDS: usize = 5_000_000;

/// The most seconds that it may be asked to take: more than ten years.
pub(crate) const MOST_SECONDS: u64 = 1_000_000_000;

/// The most megabytes that it may be asked to hold.
pub(crate) const MOST_MEGABYTES: u64 = 1_000_000_000;

/// How many megabytes a search of `grade` holds at most, where neither megabytes nor states are said.
pub(crate) const USUAL_MEGABYTES: usize = 200;

/// The most submissions that `grade` may be asked to judge side by side.
pub(crate) const MOST_JOBS: u64 = 256;

/// How many seeds `survey` and `grade` try, where none are said.
pub(crate) const USUAL_SEEDS: usize = 200;

/// The folder of the exercises, where none is said.
pub(crate) const EXERCISES: &str = "exercises";

/// The folder of the examples, where none is said.
pub(crate) const EXAMPLES: &str = "examples";

/// The most hints that one may be asked for.
pub(crate) const MOST_HINTS: u64 = 99;

/// The text that an argument has, or none.
pub(crate) fn text<'a>(matches: &ArgMatches<'a>, name: &str) -> Option<&'a str> {
    matches.get_str(name)
}

/// The text of an argument that has to be there.
pub(crate) fn word<'a>(matches: &ArgMatches<'a>, name: &str) -> &'a str {
    matches.get_str(name).unwrap_or("")
}

/// What the word of an argument means, of these words with these meanings; None where it is left out.
pub(crate) fn chosen<T: Copy>(
    matches: &ArgMatches,
    name: &str,
    words: &[&str],
    meanings: &[T],
) -> Option<T> {
    meaning(matches.get_str(name)?, words, meanings)
}

/// The texts that an argument has.
pub(crate) fn words<'a>(
    alloc: Global,
    matches: &ArgMatches<'a>,
    name: &str,
) -> Result<Vec<&'a str>, AllocError> {
    match matches.get_strs(name) {
        Some(texts) => Vec::from_slice(alloc, texts),
        None => Ok(Vec::new(alloc)),
    }
}

/// The number that an option has, or the usual one.
pub(crate) fn number(matches: &ArgMatches, name: &str, usual: u64) -> u64 {
    matches.get_one::<u64>(name).unwrap_or(usual)
}

/// The same as a count.
pub(crate) fn count(matches: &ArgMatches, name: &str, usual: usize) -> usize {
    matches.get_one::<usize>(name).unwrap_or(usual)
}

/// How answers are printed.
pub(crate) fn shown_of(found: &ArgMatches) -> Shown {
    Shown {
        hexadecimal: found.get_flag("hex"),
        json: found.get_flag("json"),
    }
}
