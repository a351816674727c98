//! What it means that no schedule to an end is shorter than its own.

ghost use Rattle.std.specs.Prelude.{◌≤◌, ◌<◌, ℕ, IsTrue, Contains, length};
ghost use Rattle.image_file.specs.ImageValue.{ImageValue};
ghost use Rattle.space_ends.specs.ScheduleSpace.Spaces.{count, schedule_of};
ghost use Rattle.space_ends.specs.EndsOfSpace.{ListedEnd, ends_in};
ghost use Rattle.space_ends.specs.declared.end_values.SpaceEndKind.{SpaceEndKind};
ghost use Rattle.program_searches.specs.declared.explored.Explored.{Explored};
ghost use Rattle.program_searches.specs.declared.searches.ProgramSearch.{ProgramSearch};
ghost use Rattle.program_searches.specs.Searches.{IsExplored};
ghost use Rattle.program_searches.specs.Shortest.{is_shortest_of, IsEndAt, IsLeast, IsLeastForAll};

/// Where a search says that no schedule to worlds of a kind has fewer steps than one of so many, none has that goes on from
/// the steps that were given and leads to such a world, if the space gives none for it that has fewer. So no schedule to a
/// world of a listed end is shorter than the end's own, where the search says so.
pub fn no_schedule_to_it_is_shorter()
    ensures place { (image : ImageValue) (asked : ProgramSearch) (e : Explored) (kind : SpaceEndKind) (steps place : ℕ)
        → IsExplored image asked e → IsTrue (is_shortest_of e kind steps) → place < count e.space
        → IsEndAt e.space kind place → steps ≤ length (schedule_of e.space place) → IsLeast e.space steps place }
    ensures listed { (image : ImageValue) (asked : ProgramSearch) (e : Explored) (l : ListedEnd)
        → IsExplored image asked e → Contains (ends_in e.ends.items) l
        → IsTrue (is_shortest_of e l.kind (length l.schedule)) → IsLeastForAll e.space l }
{}
