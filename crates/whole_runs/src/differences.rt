//! In what the worlds of two machines differ.

ghost use Rattle.std.specs.Prelude.{◌≡◌, [], ◌∷◌, length, IfOk, OnOk};
ghost use Rattle.step_views.specs.declared.places.Place.TheVariants as place;
ghost use Rattle.step_views.specs.Changes.{AreChanges};
ghost use Rattle.whole_runs.specs.PlaceLists.{each, state_places, register_place, target_place, stream_places};
ghost use Rattle.whole_runs.specs.PlaceLists.{processor_places, word_places, places_of, AreTold};
ghost use Rattle.whole_runs.specs.Differences.{AreOfOneImage};

use machine::Machine;
use std::alloc::{AllocError, Global};
use step_views::{Change, Place, StreamPart, content_of, is_same_content};

/// The places in which the worlds of two machines over one image differ, with what stands there in the one and in the
/// other: each of them, each once, and each other place holds the same in both. Those of processors come first, in the
/// order of processor and stream, then those of words.
pub fn world_differences<const S: usize>(
    alloc: Global,
    one: &Machine<'_, S>,
    other: &Machine<'_, S>,
) -> Result<Vec<Change>, AllocError>
    requires { AreOfOneImage one.now other.now }
    ensures changes { IfOk result (λ v. AreChanges one.now.world other.now.world v.items) }
    ensures order { IfOk result (λ v. AreTold one.now.world other.now.world (places_of one.now.image) [] v.items) }
{
    // their images' clauses say how many processors and streams there are
    let _sizes = (one.image().slim(), other.image().slim());
    let mut found = Vec::new(alloc);
    note_processors(&mut found, one, other)?;
    note_words(&mut found, one, other)?;
    Ok(found)
}

/// Notes the places of all processors.
fn note_processors<const S: usize>(
    found: &mut Vec<Change>,
    one: &Machine<'_, S>,
    other: &Machine<'_, S>,
) -> Result<(), AllocError>
    ensures { OnOk result (AreTold one.now.world other.now.world
        (each (length one.now.image.entries) 0 (processor_places one.now.image.slim)) found.old.items found.new.items) }
{
    for p in 0..one.image().processors() {
        note_counts(found, p as u8, one, other)?;
        note_streams(found, p as u8, one, other)?;
    }
    Ok(())
}

/// Notes the counts of a processor.
fn note_counts<const S: usize>(
    found: &mut Vec<Change>,
    p: u8,
    one: &Machine<'_, S>,
    other: &Machine<'_, S>,
) -> Result<(), AllocError>
    ensures { OnOk result (AreTold one.now.world other.now.world (place.Current p ∷ place.Reserved p ∷ [])
        found.old.items found.new.items) }
{
    note(found, Place::Current { p }, one, other)?;
    note(found, Place::Reserved { p }, one, other)?;
    Ok(())
}

/// Notes the parts of the streams of a processor.
fn note_streams<const S: usize>(
    found: &mut Vec<Change>,
    p: u8,
    one: &Machine<'_, S>,
    other: &Machine<'_, S>,
) -> Result<(), AllocError>
    ensures { OnOk result (AreTold one.now.world other.now.world (each one.now.image.slim 0 (stream_places p))
        found.old.items found.new.items) }
{
    for s in 0..one.image().slim() {
        note_states(found, p, s as u8, one, other)?;
        note_registers(found, p, s as u8, one, other)?;
        note_targets(found, p, s as u8, one, other)?;
    }
    Ok(())
}

/// Notes the parts of a stream that are no registers.
fn note_states<const S: usize>(
    found: &mut Vec<Change>,
    p: u8,
    s: u8,
    one: &Machine<'_, S>,
    other: &Machine<'_, S>,
) -> Result<(), AllocError>
    ensures { OnOk result (AreTold one.now.world other.now.world (state_places p s) found.old.items found.new.items) }
{
    note_part(found, p, s, StreamPart::Pc, one, other)?;
    note_part(found, p, s, StreamPart::Codes, one, other)?;
    note_part(found, p, s, StreamPart::Mask, one, other)?;
    note_part(found, p, s, StreamPart::InTrap, one, other)?;
    note_part(found, p, s, StreamPart::TrapRegister, one, other)?;
    note_part(found, p, s, StreamPart::Retries, one, other)?;
    note_part(found, p, s, StreamPart::Status, one, other)?;
    Ok(())
}

/// Notes a part of a stream.
fn note_part<const S: usize>(
    found: &mut Vec<Change>,
    p: u8,
    s: u8,
    part: StreamPart,
    one: &Machine<'_, S>,
    other: &Machine<'_, S>,
) -> Result<(), AllocError>
    ensures { OnOk result (AreTold one.now.world other.now.world (place.Stream p s part ∷ [])
        found.old.items found.new.items) }
{
    note(found, Place::Stream { p, s, part }, one, other)
}

/// Notes the general registers of a stream.
fn note_registers<const S: usize>(
    found: &mut Vec<Change>,
    p: u8,
    s: u8,
    one: &Machine<'_, S>,
    other: &Machine<'_, S>,
) -> Result<(), AllocError>
    ensures { OnOk result (AreTold one.now.world other.now.world (each 32 0 (register_place p s))
        found.old.items found.new.items) }
{
    for number in 0..32 {
        note_part(found, p, s, StreamPart::Register(number), one, other)?;
    }
    Ok(())
}

/// Notes the target registers of a stream.
fn note_targets<const S: usize>(
    found: &mut Vec<Change>,
    p: u8,
    s: u8,
    one: &Machine<'_, S>,
    other: &Machine<'_, S>,
) -> Result<(), AllocError>
    ensures { OnOk result (AreTold one.now.world other.now.world (each 8 0 (target_place p s))
        found.old.items found.new.items) }
{
    for number in 0..8 {
        note_part(found, p, s, StreamPart::Target(number), one, other)?;
    }
    Ok(())
}

/// Notes the values and the tags of all words.
fn note_words<const S: usize>(
    found: &mut Vec<Change>,
    one: &Machine<'_, S>,
    other: &Machine<'_, S>,
) -> Result<(), AllocError>
    ensures { OnOk result (AreTold one.now.world other.now.world
        (each (length one.now.image.cells) 0 word_places) found.old.items found.new.items) }
{
    for index in 0..one.image().cells().len() {
        let address = index as u64 * 8;
        note(found, Place::Value { address }, one, other)?;
        note(found, Place::Tags { address }, one, other)?;
    }
    Ok(())
}

/// Notes a place, if it does not hold the same in both worlds.
fn note<const S: usize>(
    found: &mut Vec<Change>,
    place: Place,
    one: &Machine<'_, S>,
    other: &Machine<'_, S>,
) -> Result<(), AllocError>
    ensures { OnOk result (AreTold one.now.world other.now.world (place ∷ []) found.old.items found.new.items) }
{
    let (Some(before), Some(after)) = (content_of(one, place), content_of(other, place)) else {
        return Ok(());
    };
    if is_same_content(&before, &after) {
        return Ok(());
    }
    found.push(Change {
        place,
        before,
        after,
    })?;
    Ok(())
}
