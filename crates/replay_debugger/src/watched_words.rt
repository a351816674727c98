//! Watched words, as they were last seen.

ghost use Rattle.std.specs.Prelude.{◌≡◌, map, IfOk};
ghost use Rattle.std.specs.List.{list_any};
ghost use Rattle.std.specs.Option.{option_to_list};
ghost use Rattle.replay_debugger.specs.StopFinders.{watches_of, watch_of, has_changed, seen_again};

use crate::points::{Point, Points};
use machine::Machine;
use std::alloc::{AllocError, Global};
use std::marker::Model;
use tag_memory::Word;

/// A watched word, as it was last seen. Contracts see no value of a word whose tags alone are watched.
#[derive(Drop)]
pub(crate) struct WatchedWord {
    address: u64,
    tags_alone: bool,
    seen: Option<Word>,
}

impl Model for WatchedWord {
    ghost use Rattle.replay_debugger.specs.Watches.{WatchValue, watch_at};

    ghost Value = { WatchValue };

    ghost view = { λ w. watch_at w.address w.tags_alone w.seen };
}

impl WatchedWord {
    /// The word that a point watches, if it does.
    fn of<const S: usize>(machine: &Machine<S>, point: Point) -> Option<WatchedWord>
        ensures { option_to_list result ≡ watch_of machine.now.world.memory point }
    {
        let (address, tags_alone) = match point {
            Point::Break(..) => return None,
            Point::Watch(address) => (address, false),
            Point::WatchTags(address) => (address, true),
        };
        Some(WatchedWord {
            address,
            tags_alone,
            seen: machine.word(address),
        })
    }

    /// The watched word as a machine shows it.
    fn again<const S: usize>(&self, machine: &Machine<S>) -> WatchedWord
        ensures { result ≡ seen_again machine.now.world.memory self.now }
    {
        WatchedWord {
            seen: machine.word(self.address),
            ..*self
        }
    }

    /// Whether what is watched of the word has changed since it was seen.
    #[inline(always)]
    fn has_changed<const S: usize>(&self, machine: &Machine<S>) -> bool
        ensures { result ≡ has_changed machine.now.world.memory self.now }
    {
        let Some(now) = machine.word(self.address) else {
            return self.seen.is_some();
        };
        let Some(before) = self.seen else {
            return true;
        };
        if now.tag_number() != before.tag_number() {
            return true;
        }
        !self.tags_alone && now.value() != before.value()
    }
}

/// The watched words of points, as a machine shows them.
pub(crate) fn watched_words<const S: usize>(
    alloc: Global,
    points: &Points,
    machine: &Machine<S>,
) -> Result<Vec<WatchedWord>, AllocError>
    ensures { IfOk result (λ words. words.items ≡ watches_of machine.now.world.memory points.now) }
{
    let mut words = Vec::new(alloc);
    for (_key, point) in points.slots.iter() {
        if let Some(word) = WatchedWord::of(machine, *point) {
            words.push(word)?;
        }
    }
    Ok(words)
}

/// Looks at all watched words again, and says whether one has changed. Nothing is written where none has.
#[inline(always)]
pub(crate) fn look_again<const S: usize>(words: &mut [WatchedWord], machine: &Machine<S>) -> bool
    ensures seen { words.new ≡ map (seen_again machine.now.world.memory) words.old }
    ensures changed { result ≡ list_any (has_changed machine.now.world.memory) words.old }
{
    if any_changed(words, machine) {
        see_again(words, machine);
        return true;
    }
    false
}

/// Whether one of the words has changed since they were seen.
#[inline(always)]
fn any_changed<const S: usize>(words: &[WatchedWord], machine: &Machine<S>) -> bool
    ensures { result ≡ list_any (has_changed machine.now.world.memory) words.now }
{
    words.iter().any(
        |word: &WatchedWord| -> bool
            ensures { result ≡ has_changed machine.entry.now.world.memory word.now }
        { word.has_changed(machine) },
    )
}

/// Sees each of the words as a machine shows it.
#[cold]
fn see_again<const S: usize>(words: &mut [WatchedWord], machine: &Machine<S>)
    ensures { words.new ≡ map (seen_again machine.now.world.memory) words.old }
{
    for place in 0..words.len() {
        words[place] = words[place].again(machine);
    }
}
