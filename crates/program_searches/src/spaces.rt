//! The worlds that a search finds, and what ended it.

ghost use Rattle.std.specs.Prelude.{◌≡◌, Some, IsTrue, IsFalse, IfOk};
ghost use Rattle.space_ends.specs.ScheduleSpaceTypes.Bound.{Bound};
ghost use Rattle.space_ends.specs.ScheduleSpace.Answers.{space_in, bound_in};
ghost use Rattle.program_searches.specs.Bounds.{IsWatched, IsBoundBy};
ghost use Rattle.program_searches.specs.Searches.{takes_all, IsSearched};

use crate::bounds::SearchBound;
use crate::looking::worlds_in_time;
use crate::searches::ProgramSearch;
use crate::watching::Watcher;
use claims::{places_looked_at, words_looked_at};
use expectations::named_registers;
use image_file::Image;
use machine::LoadFault;
use space_ends::space::{Bound, Exploration, Observation, Space, explore, explore_ends};
use std::alloc::{AllocError, Global};
use std::io::Write;
use std::time::Clock;

/// The space of an image of as many worlds at most as are asked for, of all worlds or of those that the ends and the claims
/// need, and what ended the search before it had them. Of worlds that these need one stands for all that differ in
/// registers alone that nobody reads again, and at which no expectation looks; and where it is complete, steps from them
/// are left out only where others are taken first at which no claim looks.
fn space_of<'i, const S: usize, C: Clock, E: Write>(
    alloc: Global,
    image: &'i Image,
    asked: &ProgramSearch<'_>,
    watcher: &mut Watcher<'_, '_, C, E>,
) -> Result<(Space<'i>, Option<SearchBound>), AllocError>
    ensures image { IfOk result (λ found. found.0.image ≡ image.entry.now) }
    ensures begin { IfOk result (λ found. found.0.begin ≡ asked.now.begin.now) }
    ensures searched { IfOk result (λ found. IsSearched asked.now found.0 found.1) }
{
    if asked.takes_all() {
        return all_worlds::<S, C, E>(alloc, image, asked, watcher);
    }
    needed_worlds::<S, C, E>(alloc, image, asked, watcher)
}

/// The same; or, where there is no time to look at all of its worlds for the claims, the space of a search for the first ones
/// alone, which the time ended.
pub(crate) fn space_in_time<'i, const S: usize, C: Clock, E: Write>(
    alloc: Global,
    image: &'i Image,
    asked: &ProgramSearch<'_>,
    watcher: &mut Watcher<'_, '_, C, E>,
) -> Result<(Space<'i>, Option<SearchBound>), AllocError>
    ensures image { IfOk result (λ found. found.0.image ≡ image.entry.now) }
    ensures begin { IfOk result (λ found. found.0.begin ≡ asked.now.begin.now) }
    ensures searched { IfOk result (λ found. IsSearched asked.now found.0 found.1) }
{
    let (space, bound) = space_of::<S, C, E>(alloc, image, asked, watcher)?;
    let Some(most) = most_looked_at(&space, asked, watcher) else {
        return Ok((space, bound));
    };
    drop(space);
    watcher.forget_time();
    first_worlds::<S, C, E>(alloc, image, asked, most, watcher)
}

/// How many worlds of a space there is time to look at for the claims; None where there is time for all, or no bound of it.
fn most_looked_at<C: Clock, E: Write>(
    space: &Space<'_>,
    asked: &ProgramSearch<'_>,
    watcher: &Watcher<'_, '_, C, E>,
) -> Option<usize> {
    if asked.required.claims().is_empty() {
        return None;
    }
    worlds_in_time(space, watcher.time_left()?)
}

/// The space of a search for so many worlds at most, as one that the time ended.
fn first_worlds<'i, const S: usize, C: Clock, E: Write>(
    alloc: Global,
    image: &'i Image,
    asked: &ProgramSearch<'_>,
    most: usize,
    watcher: &mut Watcher<'_, '_, C, E>,
) -> Result<(Space<'i>, Option<SearchBound>), AllocError>
    ensures image { IfOk result (λ found. found.0.image ≡ image.entry.now) }
    ensures begin { IfOk result (λ found. found.0.begin ≡ asked.now.begin.now) }
    ensures searched { IfOk result (λ found. IsSearched asked.now found.0 found.1) }
{
    let first = asked.for_first(most);
    let (space, _bound) = space_of::<S, C, E>(alloc, image, &first, watcher)?;
    Ok((space, Some(SearchBound::Seconds)))
}

/// The same of all worlds.
fn all_worlds<'i, const S: usize, C: Clock, E: Write>(
    alloc: Global,
    image: &'i Image,
    asked: &ProgramSearch<'_>,
    watcher: &mut Watcher<'_, '_, C, E>,
) -> Result<(Space<'i>, Option<SearchBound>), AllocError>
    requires { IsTrue (takes_all asked.now) }
    ensures image { IfOk result (λ found. found.0.image ≡ image.entry.now) }
    ensures begin { IfOk result (λ found. found.0.begin ≡ asked.now.begin.now) }
    ensures searched { IfOk result (λ found. IsSearched asked.now found.0 found.1) }
{
    match explore::<S, _>(alloc, image, asked.begin, asked.most_worlds(), watcher) {
        Ok(exploration) => Ok(ended_by(exploration, watcher)),
        Err(LoadFault::NoMemory | LoadFault::Streams) => Err(AllocError),
    }
}

/// The same of the worlds that the ends and the claims need.
fn needed_worlds<'i, const S: usize, C: Clock, E: Write>(
    alloc: Global,
    image: &'i Image,
    asked: &ProgramSearch<'_>,
    watcher: &mut Watcher<'_, '_, C, E>,
) -> Result<(Space<'i>, Option<SearchBound>), AllocError>
    requires { IsFalse (takes_all asked.now) }
    ensures image { IfOk result (λ found. found.0.image ≡ image.entry.now) }
    ensures begin { IfOk result (λ found. found.0.begin ≡ asked.now.begin.now) }
    ensures searched { IfOk result (λ found. IsSearched asked.now found.0 found.1) }
{
    let most = asked.most_worlds();
    let names = named_registers(asked.required.ends());
    let claims = asked.required.claims();
    let places = places_looked_at(alloc, claims)?;
    let words = words_looked_at(alloc, claims)?;
    let observation = Observation {
        places: &places,
        words: &words,
    };
    match explore_ends::<S, _>(
        alloc,
        image,
        asked.begin,
        &names,
        observation,
        most,
        watcher,
    ) {
        Ok(exploration) => Ok(ended_by(exploration, watcher)),
        Err(LoadFault::NoMemory | LoadFault::Streams) => Err(AllocError),
    }
}

/// The space of a search, and what ended it: the watcher knows which of its own bounds did.
fn ended_by<'i, C: Clock, E: Write>(
    exploration: Exploration<'i>,
    watcher: &Watcher<'_, '_, C, E>,
) -> (Space<'i>, Option<SearchBound>)
    requires { bound_in exploration ≡ Some Bound.Watch → IsWatched watcher.now.ended }
    ensures space { result.0 ≡ space_in exploration.entry }
    ensures bound { IsBoundBy (bound_in exploration.entry) result.1 }
{
    match exploration {
        Exploration::Complete(space) => (space, None),
        Exploration::Bounded(space, Bound::Worlds) => (space, Some(SearchBound::States)),
        Exploration::Bounded(space, Bound::Watch) => (space, watcher.bound()),
        Exploration::Bounded(space, Bound::Memory) => (space, Some(SearchBound::Refused)),
    }
}
