//! The search for all worlds of an image.

ghost use Rattle.std.specs.Prelude.{◌≡◌, ◌<◌, ◌≤◌, ◌↔◌, ℕ, true, List, Some, IsTrue, IsFalse, IfOk, Contains};
ghost use Rattle.tag_memory.specs.Unforwarded.{IsUnforwarded};
ghost use Rattle.processor.specs.World.{run};
ghost use Rattle.processor.specs.declared.steps.Step.{Step};
ghost use Rattle.schedule_space.specs.declared.links.Edge.{Edge};
ghost use Rattle.world_keys.specs.DeadRegisters.Clearing.{IsLive};
ghost use Rattle.schedule_space.specs.Spaces.{count, IsComplete, IsDistinct, IsShortest, HasAllEdges};
ghost use Rattle.schedule_space.specs.Spaces.{AreAllApart, StandAlone, ShortestFirst, AreAllDifferent, IsEdgeToStandIn};
ghost use Rattle.schedule_space.specs.Finding.{IsExpanded, NamesAll};
ghost use Rattle.schedule_space.specs.Followed.{AllFollowed, HasAllEnds, HasShortestEnds, TellsWhetherAllEnd};
ghost use Rattle.schedule_space.specs.Quiet.{AllFollowedQuietly};
ghost use Rattle.schedule_space.specs.Tables.{AreTablesOf};
ghost use Rattle.schedule_space.specs.Answers.{space_in, is_complete, bound_in, most_places, IsFull};

use crate::expanding::{Shortcuts, Wanted};
use crate::finding::{Found, Stop};
use crate::kept_machines::KeptMachines;
use crate::observations::Observation;
use crate::spaces::Space;
use crate::unread_places::unread_places;
use crate::watches::{Bound, Watch};
use agreeing_ends::local::settled_places;
use first_sets::{may_forward, touch_tables};
use image_file::Image;
use machine::{LoadFault, Machine};
use processor::{Processor, Step};
use program_flow::Row;
use std::alloc::{AllocError, Global};
use std::mem::size_of;
use touched_words::TouchTable;
use world_keys::registers::LiveRegisters;

/// How many worlds a search goes through from one question to who looks on to the next.
const WORLDS_PER_LOOK: u32 = 16;

/// How many bytes a word of a machine's memory takes with its tags, rounded up.
const BYTES_OF_WORD: usize = 9;

/// About how many bytes more a machine takes because its memory is in several blocks.
const BYTES_OF_BLOCKS: usize = 512;

/// What a search found.
#[derive(Drop)]
pub enum Exploration<'i> {
    /// All worlds that schedules with this beginning lead to, or all ends, as was asked for.
    Complete(Space<'i>),
    /// Some of them, and what ended the search.
    Bounded(Space<'i>, Bound),
}

/// Looks for the worlds that schedules of an image lead to which begin with `begin`, those of fewer steps first, until
/// there are no more, `most` are found, or who looks on ends it. With no step in `begin` these are all schedules. `S` is
/// for how many streams a processor the machines of the search have room.
///
/// `Streams` exactly where the image's slim is above `S`; `NoMemory` where there was not even room for the first world.
pub fn explore<'i, const S: usize, W: Watch>(
    alloc: Global,
    image: &'i Image,
    begin: &[Step],
    most: usize,
    watch: &mut W,
) -> Result<Exploration<'i>, LoadFault>
    requires { 1 ≤ most }
    ensures image { IfOk result (λ e. (space_in e).image ≡ image.entry.now) }
    ensures begin { IfOk result (λ e. (space_in e).begin ≡ begin.now) }
    ensures complete { IfOk result (λ e. is_complete e ≡ true → IsComplete (space_in e)) }
    ensures edges { IfOk result (λ e. is_complete e ≡ true → HasAllEdges (space_in e)) }
    ensures distinct { IfOk result (λ e. IsDistinct (space_in e)) }
    ensures alone { IfOk result (λ e. StandAlone (space_in e)) }
    ensures shortest { IfOk result (λ e. IsShortest (space_in e)) }
    ensures in_order { IfOk result (λ e. ShortestFirst (space_in e)) }
    ensures once { IfOk result (λ e. AreAllDifferent (space_in e).edges) }
    ensures within { IfOk result (λ e. count (space_in e) ≤ most) }
    ensures full { IfOk result (λ e. bound_in e ≡ Some Bound.Worlds → IsFull (space_in e) most) }
    ensures missing { IfOk result (λ e. bound_in e ≡ Some Bound.Worlds → ¬ (IsComplete (space_in e))) }
    ensures watched { IfOk result (λ e. bound_in e ≡ Some Bound.Watch → W.HasEnded watch.new) }
    ensures streams { (result ≡ Err LoadFault.Streams) ↔ (S < image.entry.now.slim) }
{
    search::<S, W>(
        alloc,
        image,
        begin,
        &[true; 32],
        Wanted::Worlds,
        Observation::NOTHING,
        most,
        watch,
    )
}

/// Looks for the ends of an image, worlds from which nothing goes on, that schedules lead to which begin with `begin`,
/// in the same way, but of fewer worlds: where a step concerns its own stream alone, or ends it where no other stream
/// of its processor may come to a RESERVE or CREATE, and leads to a later place, only that one is taken, and one world
/// stands for all that differ from it in registers alone that nobody reads again, and in condition codes that nobody
/// asks for again. Registers in `names` matter at each place, r0 to r31. So are the steps of a set that can be taken before
/// all others, since no other stream ever comes to one of their words. One of these has to be such that nobody sees it who
/// looks at the places and words of `observation` alone, and leads to a later place: so who looks at these misses nothing.
/// Where the search is complete, some world stands for each end, by a schedule that is as short as any.
pub fn explore_ends<'i, const S: usize, W: Watch>(
    alloc: Global,
    image: &'i Image,
    begin: &[Step],
    names: &Row,
    observation: Observation<'_>,
    most: usize,
    watch: &mut W,
) -> Result<Exploration<'i>, LoadFault>
    requires { 1 ≤ most }
    ensures image { IfOk result (λ e. (space_in e).image ≡ image.entry.now) }
    ensures begin { IfOk result (λ e. (space_in e).begin ≡ begin.now) }
    ensures names { IfOk result (λ e. (space_in e).live.names ≡ names.now) }
    ensures live { IfOk result (λ e. IsLive (space_in e).image (space_in e).live) }
    ensures quiet { IfOk result (λ e. is_complete e ≡ true → AllFollowedQuietly observation.entry.places.now observation.entry.words.now (space_in e)) }
    ensures ends { IfOk result (λ e. is_complete e ≡ true → HasAllEnds (space_in e)) }
    ensures followed { IfOk result (λ e. is_complete e ≡ true → AllFollowed (space_in e)) }
    ensures tells { IfOk result (λ e. is_complete e ≡ true → TellsWhetherAllEnd (space_in e)) }
    ensures distinct { IfOk result (λ e. AreAllApart (space_in e)) }
    ensures shortest { IfOk result (λ e. is_complete e ≡ true → HasShortestEnds (space_in e)) }
    ensures in_order { IfOk result (λ e. ShortestFirst (space_in e)) }
    ensures once { IfOk result (λ e. AreAllDifferent (space_in e).edges) }
    ensures within { IfOk result (λ e. count (space_in e) ≤ most) }
    ensures full { IfOk result (λ e. bound_in e ≡ Some Bound.Worlds → IsFull (space_in e) most) }
    ensures watched { IfOk result (λ e. bound_in e ≡ Some Bound.Watch → W.HasEnded watch.new) }
    ensures streams { (result ≡ Err LoadFault.Streams) ↔ (S < image.entry.now.slim) }
{
    search::<S, W>(
        alloc,
        image,
        begin,
        names,
        Wanted::Ends,
        observation,
        most,
        watch,
    )
}

/// Looks for what is wanted; one world stands for all that differ from it in registers and codes alone that do not matter.
fn search<'i, const S: usize, W: Watch>(
    alloc: Global,
    image: &'i Image,
    begin: &[Step],
    names: &Row,
    wanted: Wanted,
    observation: Observation<'_>,
    most: usize,
    watch: &mut W,
) -> Result<Exploration<'i>, LoadFault>
    requires { 1 ≤ most }
    ensures image { IfOk result (λ e. (space_in e).image ≡ image.entry.now) }
    ensures begin { IfOk result (λ e. (space_in e).begin ≡ begin.now) }
    ensures expanded { IfOk result (λ e. wanted ≡ Wanted.Worlds → is_complete e ≡ true
        → (k : ℕ) → k < count (space_in e) → IsExpanded (space_in e) k) }
    ensures quiet { IfOk result (λ e. is_complete e ≡ true
        → AllFollowedQuietly observation.entry.places.now observation.entry.words.now (space_in e)) }
    ensures names { IfOk result (λ e. (space_in e).live.names ≡ names.now) }
    ensures live { IfOk result (λ e. IsLive (space_in e).image (space_in e).live) }
    ensures edges { IfOk result (λ e. (d : Edge) → Contains (space_in e).edges d → IsEdgeToStandIn (space_in e) d) }
    ensures distinct { IfOk result (λ e. AreAllApart (space_in e)) }
    ensures alone { IfOk result (λ e. NamesAll (space_in e).live → StandAlone (space_in e)) }
    ensures shortest { IfOk result (λ e. wanted ≡ Wanted.Worlds → IsShortest (space_in e)) }
    ensures in_order { IfOk result (λ e. ShortestFirst (space_in e)) }
    ensures once { IfOk result (λ e. AreAllDifferent (space_in e).edges) }
    ensures within { IfOk result (λ e. count (space_in e) ≤ most) }
    ensures full { IfOk result (λ e. bound_in e ≡ Some Bound.Worlds → IsFull (space_in e) most) }
    ensures watched { IfOk result (λ e. bound_in e ≡ Some Bound.Watch → W.HasEnded watch.new) }
    ensures streams { (result ≡ Err LoadFault.Streams) ↔ (S < image.entry.now.slim) }
{
    let mut first = Machine::<S>::load(alloc, image)?;
    first.run(begin);
    let live = LiveRegisters::of(alloc, image, names)?;
    let settled = settled_places(alloc, image)?;
    let by_sets = takes_sets(image, wanted);
    let tables = tables_if(alloc, image, &live, by_sets)?;
    let shortcuts = Shortcuts {
        settled: &settled,
        observation,
        by_sets,
        tables: &tables,
    };
    let mut found = Found::begin(alloc, begin, &first, live, wanted)?;
    let mut machines = KeptMachines::new(alloc, first);
    let limit = world_limit(most);
    let machine_size = bytes_of_machine::<S>(image);
    for from in 0..limit {
        if from as usize >= found.len() {
            return Ok(Exploration::Complete(found.into_space()));
        }
        if !is_to_go_on(watch, from, &found, &machines, machine_size) {
            return Ok(Exploration::Bounded(found.into_space(), Bound::Watch));
        }
        let expanded = found.expand(&mut machines, from, wanted, shortcuts, limit);
        if let Err(stop) = expanded {
            return Ok(Exploration::Bounded(found.into_space(), bound_of(stop)));
        }
    }
    Ok(Exploration::Complete(found.into_space()))
}

/// Whether a search takes sets of steps: where it looks for ends, and no word may forward.
fn takes_sets(image: &Image, wanted: Wanted) -> bool
    ensures { IsTrue result → (ts : List Step) → IsUnforwarded (run image.now ts).memory }
{
    match wanted {
        Wanted::Worlds => false,
        Wanted::Ends => !may_forward(image),
    }
}

/// For each processor of an image what its streams may still ask for, by what is live, where that is wanted; else no table.
fn tables_if(
    alloc: Global,
    image: &Image,
    live: &LiveRegisters,
    are_wanted: bool,
) -> Result<Vec<TouchTable>, AllocError>
    requires { IsLive image.now live.now }
    ensures { IfOk result (λ ts. are_wanted ≡ true → AreTablesOf image.now live.now ts.items) }
{
    if are_wanted {
        let unread = unread_places(alloc, image, live)?;
        return touch_tables(alloc, image, &unread);
    }
    Ok(Vec::new(alloc))
}

/// As many worlds, or as many as places have numbers for.
fn world_limit(most: usize) -> u32
    requires { 1 ≤ most }
    ensures some { 1 ≤ result }
    ensures within { result ≤ most }
    ensures is { result ≡ most_places most }
{
    u32::try_from(most).unwrap_or(u32::MAX)
}

/// Whether who looks on lets a search go on that comes to the world at a place.
fn is_to_go_on<const S: usize, W: Watch>(
    watch: &mut W,
    from: u32,
    found: &Found<'_>,
    machines: &KeptMachines<'_, S>,
    machine_size: usize,
) -> bool
    ensures { IsFalse result → W.HasEnded watch.new }
{
    if from % WORLDS_PER_LOOK != 0 {
        return true;
    }
    let waiting = found.len().saturating_sub(from as usize + 1);
    let bytes = bytes_held(found, machines, machine_size);
    watch.goes_on(found.len(), waiting, bytes)
}

/// What ended a search whose worlds could not all be expanded.
fn bound_of(stop: Stop) -> Bound
    ensures watch { ¬ (result ≡ Bound.Watch) }
    ensures worlds { result ≡ Bound.Worlds → stop ≡ Stop.Full }
{
    match stop {
        Stop::Full => Bound::Worlds,
        Stop::NoMemory => Bound::Memory,
    }
}

/// About how many bytes a search holds, if each of its machines owns so many.
fn bytes_held<const S: usize>(
    found: &Found<'_>,
    machines: &KeptMachines<'_, S>,
    machine_size: usize,
) -> usize {
    let behind = machines.len().saturating_mul(machine_size);
    found
        .bytes()
        .saturating_add(machines.bytes())
        .saturating_add(behind)
}

/// About how many bytes a machine of an image owns: its processors, and its words with their tags.
fn bytes_of_machine<const S: usize>(image: &Image) -> usize {
    let processors = image.processors().saturating_mul(size_of::<Processor<S>>());
    let words = image.cells().len().saturating_mul(BYTES_OF_WORD);
    words
        .saturating_add(processors)
        .saturating_add(BYTES_OF_BLOCKS)
}
