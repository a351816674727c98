//! Where the words that a case names stand in a submission.

ghost use Rattle.std.specs.Prelude.{◌≡◌, IfOk, find};
ghost use Rattle.std.specs.Option.{option_map};
ghost use Rattle.source_places.specs.DataNames.{is_called};
ghost use Rattle.source_places.specs.SourcePlaces.{data_name_seen, data_names_seen};
ghost use Rattle.case_cells.specs.NamedWords.{place_in, named_places, places_by_name, first_lacking, name_lacking, is_asked, lacking_if, all_or_none};
ghost use Rattle.case_cells.specs.NamedWords.{places_seen};

use source_places::{DataName, SourcePlaces};
use std::alloc::{AllocError, Global};

/// Words of a case, and where they stand in a submission. Words count from 0.
#[derive(Clone, Copy, Debug, PartialEq, Eq)]
pub struct WordPlaces {
    /// The first of them among the case's words.
    pub given: usize,
    /// The first of them among the submission's.
    pub own: usize,
    /// How many there are.
    pub count: usize,
}

/// Where the words of a case stand in a submission by their names, in the order of the case's lines. None where a line of
/// the case gives its words no name, or the submission lacks the words of a name.
pub fn places_by_name(
    alloc: Global,
    given: &[u8],
    own: &[u8],
) -> Result<Option<Vec<WordPlaces>>, AllocError>
    ensures { IfOk result (λ places. places_seen places ≡ places_by_name given.now own.now) }
{
    let given = SourcePlaces::of(alloc, given)?;
    let own = SourcePlaces::of(alloc, own)?;
    let places = named_places(alloc, own.data_names(), given.data_names())?;
    Ok(all_or_none(places, given.data_lines().len()))
}

/// The places of the words of so many lines, if each line has one, and there is a line.
fn all_or_none(places: Vec<WordPlaces>, lines: usize) -> Option<Vec<WordPlaces>>
    ensures { places_seen result ≡ all_or_none places.items lines }
{
    if !places.is_empty() && places.len() == lines {
        Some(places)
    } else {
        None
    }
}

/// The place, among the names of a case, of the first one whose words a submission lacks, if each line of the case has a
/// name, and the submission has the words of another one, or `is_all`: those of each are asked for.
pub fn name_lacking(
    alloc: Global,
    is_all: bool,
    given: &[u8],
    own: &[u8],
) -> Result<Option<usize>, AllocError>
    ensures { IfOk result (λ lacking. lacking ≡ name_lacking is_all given.now own.now) }
{
    let given = SourcePlaces::of(alloc, given)?;
    let own = SourcePlaces::of(alloc, own)?;
    let (names, own_names) = (given.data_names(), own.data_names());
    let places = named_places(alloc, own_names, names)?;
    let is_asked = is_asked(is_all, names.len(), given.data_lines().len(), &places);
    Ok(lacking_if(is_asked, own_names, names))
}

/// Whether a submission is asked for the names of a case with so many names and lines, of which it has the words at these
/// places.
fn is_asked(is_all: bool, names: usize, lines: usize, places: &[WordPlaces]) -> bool
    ensures { result ≡ is_asked is_all names lines places.now }
{
    names == lines && (is_all || !places.is_empty())
}

/// The place of the first of some names whose words a submission lacks, if it is asked for.
fn lacking_if(is_asked: bool, own: &[DataName<'_>], given: &[DataName<'_>]) -> Option<usize>
    ensures { result ≡ lacking_if is_asked (data_names_seen own.now) (data_names_seen given.now) }
{
    if is_asked {
        first_lacking(own, given)
    } else {
        None
    }
}

/// The places of all names of a case that a submission has.
fn named_places(
    alloc: Global,
    own: &[DataName<'_>],
    given: &[DataName<'_>],
) -> Result<Vec<WordPlaces>, AllocError>
    ensures { IfOk result (λ places. places.items
        ≡ named_places (data_names_seen own.now) (data_names_seen given.now)) }
{
    let mut places = Vec::new(alloc);
    for name in given {
        if let Some(words) = place_in(own, name) {
            places.push(words)?;
        }
    }
    Ok(places)
}

/// The place of the first of some names whose words a submission lacks.
fn first_lacking(own: &[DataName<'_>], given: &[DataName<'_>]) -> Option<usize>
    ensures { result ≡ first_lacking (data_names_seen own.now) 0 (data_names_seen given.now) }
{
    let mut place = 0;
    for name in given {
        if place_in(own, name).is_none() {
            return Some(place);
        }
        place += 1;
    }
    None
}

/// Where a submission with these names has the words of a name of a case; None where it has none of this name, or fewer.
fn place_in(own: &[DataName<'_>], given: &DataName<'_>) -> Option<WordPlaces>
    ensures { result ≡ place_in (data_names_seen own.now) (data_name_seen given.now) }
{
    let own = called_so(own, given.name)?;
    if given.count > own.count {
        return None;
    }
    Some(WordPlaces {
        given: given.first,
        own: own.first,
        count: given.count,
    })
}

/// The name that is this text.
fn called_so<'n, 't>(names: &'n [DataName<'t>], text: &[u8]) -> Option<&'n DataName<'t>>
    ensures { option_map (λ n. data_name_seen n.now) result ≡ find (is_called text.now) (data_names_seen names.now) }
{
    for name in names {
        if text == name.name {
            return Some(name);
        }
    }
    None
}
