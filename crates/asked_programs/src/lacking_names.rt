//! What is said of a program that lacks words of a case.

use source_places::{DataName, SourcePlaces};
use std::alloc::{AllocError, Global};
use std::str;

/// That a program of the second text lacks the words of a name, which has this place among those of the first one, the words
/// of a case.
pub fn lacking_words(
    alloc: Global,
    given: &[u8],
    name: usize,
    text: &[u8],
) -> Result<String, AllocError> {
    let given = SourcePlaces::of(alloc, given)?;
    let own = SourcePlaces::of(alloc, text)?;
    let Some(named) = given.data_names().get(name) else {
        return Ok(String::new(alloc));
    };
    let word = str::from_utf8(named.name).unwrap_or("");
    match called_so(own.data_names(), named) {
        Some(other) => {
            let (count, needed) = (other.count, named.count);
            format!(in alloc;
                "the case gives {needed} words to the name {word}, and here it has {count}"
            )
        }
        None => format!(in alloc;
            "the case gives the word {word}, and no data word has this name alone"
        ),
    }
}

/// That of some names which is this one; None if there is none.
fn called_so<'a, 't>(names: &'a [DataName<'t>], named: &DataName<'_>) -> Option<&'a DataName<'t>> {
    names
        .iter()
        .find(|name: &&DataName<'_>| name.name == named.name)
}
