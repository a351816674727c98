//! What is compared of streams, counts and words, and noted where it differs.

ghost use Rattle.std.specs.Prelude.{◌≤◌, ◌<◌, ◌+◌, vec_len, vec_capacity};
ghost use Rattle.step_views.specs.declared.places.Place.{Place};
ghost use Rattle.step_views.specs.Places.{part_content};
ghost use Rattle.step_views.specs.Comparing.{entry, IsKept, AreKept, part_entry, part_entries};
ghost use Rattle.step_views.specs.Comparing.{state_parts, register_parts, target_parts};
ghost use Rattle.step_views.specs.Comparing.{stream_entries, count_entries, word_entries};

use crate::places::{Change, Content, Place, StreamPart};
use crate::reading::part_content;
use crate::same_contents::is_same_content;
use stream_core::Stream;
use tag_memory::Word;

/// Notes what differs of a stream.
pub(crate) fn note_stream(changes: &mut Vec<Change>, p: u8, s: u8, before: &Stream, after: &Stream)
    requires room { vec_len changes.old + 47 ≤ vec_capacity changes.old }
    ensures kept { AreKept (stream_entries p s before.now after.now) changes.old.items changes.new.items }
    ensures few { vec_len changes.new ≤ vec_len changes.old + 47 }
    ensures capacity { vec_capacity changes.old ≤ vec_capacity changes.new }
{
    note_states(changes, p, s, before, after);
    note_registers(changes, p, s, before, after);
    note_targets(changes, p, s, before, after);
}

/// Notes what differs of a stream beside its registers.
fn note_states(changes: &mut Vec<Change>, p: u8, s: u8, before: &Stream, after: &Stream)
    requires room { vec_len changes.old + 7 ≤ vec_capacity changes.old }
    ensures kept { AreKept (part_entries p s before.now after.now state_parts) changes.old.items changes.new.items }
    ensures few { vec_len changes.new ≤ vec_len changes.old + 7 }
    ensures capacity { vec_capacity changes.old ≤ vec_capacity changes.new }
{
    note_part(changes, p, s, StreamPart::Pc, before, after);
    note_part(changes, p, s, StreamPart::Codes, before, after);
    note_part(changes, p, s, StreamPart::Mask, before, after);
    note_part(changes, p, s, StreamPart::InTrap, before, after);
    note_part(changes, p, s, StreamPart::TrapRegister, before, after);
    note_part(changes, p, s, StreamPart::Retries, before, after);
    note_part(changes, p, s, StreamPart::Status, before, after);
}

/// Notes which general registers of a stream differ.
fn note_registers(changes: &mut Vec<Change>, p: u8, s: u8, before: &Stream, after: &Stream)
    requires room { vec_len changes.old + 32 ≤ vec_capacity changes.old }
    ensures kept { AreKept (part_entries p s before.now after.now (register_parts 32 0))
        changes.old.items changes.new.items }
    ensures few { vec_len changes.new ≤ vec_len changes.old + 32 }
    ensures capacity { vec_capacity changes.old ≤ vec_capacity changes.new }
{
    for number in 0..32 {
        note_part(changes, p, s, StreamPart::Register(number), before, after);
    }
}

/// Notes which target registers of a stream differ.
fn note_targets(changes: &mut Vec<Change>, p: u8, s: u8, before: &Stream, after: &Stream)
    requires room { vec_len changes.old + 8 ≤ vec_capacity changes.old }
    ensures kept { AreKept (part_entries p s before.now after.now (target_parts 8 0))
        changes.old.items changes.new.items }
    ensures few { vec_len changes.new ≤ vec_len changes.old + 8 }
    ensures capacity { vec_capacity changes.old ≤ vec_capacity changes.new }
{
    for number in 0..8 {
        note_part(changes, p, s, StreamPart::Target(number), before, after);
    }
}

/// Notes a part of a stream where it differs.
#[inline(always)]
fn note_part(
    changes: &mut Vec<Change>,
    p: u8,
    s: u8,
    part: StreamPart,
    before: &Stream,
    after: &Stream,
)
    requires room { vec_len changes.old < vec_capacity changes.old }
    ensures kept { AreKept
        (part_entry (Place.Stream p s part) (part_content before.now part) (part_content after.now part))
        changes.old.items changes.new.items }
    ensures few { vec_len changes.new ≤ vec_len changes.old + 1 }
    ensures capacity { vec_capacity changes.old ≤ vec_capacity changes.new }
{
    let was = part_content(before, part);
    let is = part_content(after, part);
    if let (Some(was), Some(is)) = (was, is) {
        note(changes, Place::Stream { p, s, part }, was, is);
    }
}

/// Notes what differs of the counts of a processor: how many streams are current, and how many are reserved.
pub(crate) fn note_counts(changes: &mut Vec<Change>, p: u8, before: (u16, u16), after: (u16, u16))
    requires room { vec_len changes.old + 2 ≤ vec_capacity changes.old }
    ensures kept { AreKept (count_entries p before after) changes.old.items changes.new.items }
    ensures few { vec_len changes.new ≤ vec_len changes.old + 2 }
    ensures capacity { vec_capacity changes.old ≤ vec_capacity changes.new }
{
    let was = Content::Number(u64::from(before.0));
    let is = Content::Number(u64::from(after.0));
    note(changes, Place::Current { p }, was, is);
    let was = Content::Number(u64::from(before.1));
    let is = Content::Number(u64::from(after.1));
    note(changes, Place::Reserved { p }, was, is);
}

/// Notes what differs of the word at a byte address.
pub(crate) fn note_word(changes: &mut Vec<Change>, address: u64, before: Word, after: Word)
    requires room { vec_len changes.old + 2 ≤ vec_capacity changes.old }
    ensures kept { AreKept (word_entries address before after) changes.old.items changes.new.items }
    ensures few { vec_len changes.new ≤ vec_len changes.old + 2 }
    ensures capacity { vec_capacity changes.old ≤ vec_capacity changes.new }
{
    let was = Content::Number(before.value());
    let is = Content::Number(after.value());
    note(changes, Place::Value { address }, was, is);
    let was = Content::Tags(before.tags());
    let is = Content::Tags(after.tags());
    note(changes, Place::Tags { address }, was, is);
}

/// Notes a place that does not hold what it held.
fn note(changes: &mut Vec<Change>, place: Place, before: Content, after: Content)
    requires room { vec_len changes.old < vec_capacity changes.old }
    ensures kept { IsKept (entry place before after) changes.old.items changes.new.items }
    ensures few { vec_len changes.new ≤ vec_len changes.old + 1 }
    ensures capacity { vec_capacity changes.old ≤ vec_capacity changes.new }
{
    if is_same_content(&before, &after) {
        return;
    }
    let change = Change {
        place,
        before,
        after,
    };
    match changes.push(change) {
        Ok(()) => {}
        Err(_) => unreachable!(),
    }
}
