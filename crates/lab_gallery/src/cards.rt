//! The cards of a gallery.

use crate::galleries::Gallery;
use crate::shown_programs::ShownProgram;
use crate::shown_runs::drawn_steps;
use exercise_files::parts::{Inputs, LabFault};
use program_pages::searches::Console;
use replay_page::json_values::{Object, text_value};
use serde_json::Value;
use std::alloc::{AllocError, Global};
use std::io::{Read, Write};
use std::rt::Files;
use std::time::Clock;

/// What a card is of.
#[derive(Clone, Copy, Debug, PartialEq, Eq)]
pub(crate) enum CardKind {
    /// An exercise: a wrong program of it is shown.
    Exercise,
    /// An example.
    Example,
}

/// What a card is about.
#[derive(Clone, Copy)]
pub(crate) struct CardHead<'e, 's> {
    /// What it is of.
    pub kind: CardKind,
    /// The name that its files begin with.
    pub name: &'e str,
    /// Its title.
    pub title: &'s str,
    /// What it teaches, in a sentence.
    pub teaches: &'s str,
    /// Which wrong program of an exercise is shown.
    pub program: Option<&'s str>,
    /// Whether the run that it shows goes wrong; of an example nothing says that.
    pub fails: bool,
}

/// A card whose pages are written.
#[derive(Drop)]
pub(crate) struct Card<'e> {
    /// The name that its files begin with.
    pub name: &'e str,
    /// Whether the page of all schedules is written.
    pub has_play: bool,
    /// What the page of all cards has of it.
    pub value: Value,
}

/// Whether one of these cards has this name.
pub(crate) fn is_named(cards: &[Card<'_>], name: &str) -> bool {
    for card in cards {
        if card.name == name {
            return true;
        }
    }
    false
}

/// Adds the card of a program, whose pages are written.
pub(crate) fn add_card<'e, C: Clock, F: Files, R: Read, E: Write>(
    alloc: Global,
    inputs: &Inputs<'_, F, R>,
    gallery: Gallery<'_>,
    head: CardHead<'e, '_>,
    shown: ShownProgram<'_>,
    console: &mut Console<'_, C, E>,
    cards: &mut Vec<Card<'e>>,
) -> Result<(), LabFault> {
    let has_play = write_page_of_all(alloc, inputs, gallery, head.name, shown, console)?;
    let has_run = write_page_of_run(alloc, inputs, gallery, head.name, shown)?;
    let value = card_value(alloc, head, shown, (has_play, has_run))?;
    cards.push(Card {
        name: head.name,
        has_play,
        value,
    })?;
    Ok(())
}

/// Writes the page of all schedules of a program, if it is not too large for one, and says whether.
fn write_page_of_all<C: Clock, F: Files, R: Read, E: Write>(
    alloc: Global,
    inputs: &Inputs<'_, F, R>,
    gallery: Gallery<'_>,
    name: &str,
    shown: ShownProgram<'_>,
    console: &mut Console<'_, C, E>,
) -> Result<bool, LabFault> {
    let level = gallery.level(name);
    let made = shown.page_of_all(alloc, level, gallery.file, console)?;
    written(alloc, inputs, gallery, name, ".play.html", made)
}

/// Writes the page of the run, if there is one with no more steps than a page has, and says whether.
fn write_page_of_run<F: Files, R: Read>(
    alloc: Global,
    inputs: &Inputs<'_, F, R>,
    gallery: Gallery<'_>,
    name: &str,
    shown: ShownProgram<'_>,
) -> Result<bool, LabFault> {
    if shown.steps.is_empty() {
        return Ok(false);
    }
    let made = shown.page_of_run(alloc)?;
    written(alloc, inputs, gallery, name, ".run.html", made)
}

/// Writes a page, if there is one, and says whether.
fn written<F: Files, R: Read>(
    alloc: Global,
    inputs: &Inputs<'_, F, R>,
    gallery: Gallery<'_>,
    name: &str,
    end: &str,
    page: Option<String>,
) -> Result<bool, LabFault> {
    let Some(page) = page else {
        return Ok(false);
    };
    match gallery.write(alloc, inputs, name, end, &page) {
        Ok(()) => Ok(true),
        Err(fault) => Err(fault),
    }
}

/// A card as an object of the page's data (docs/PLAY.md, "A gallery"): whether its pages are written, of all schedules and of
/// the run.
fn card_value(
    alloc: Global,
    head: CardHead<'_, '_>,
    shown: ShownProgram<'_>,
    (has_play, has_run): (bool, bool),
) -> Result<Value, AllocError> {
    let mut object = Object::new(alloc);
    object.put_text("kind", kind_word(head.kind));
    object.put_text("name", head.name);
    object.put_text("title", head.title);
    object.put_text("teaches", head.teaches);
    object.put_text("called", shown.called);
    object.put("program", text_or_null(alloc, head.program));
    object.put("play", Ok(Value::Bool(has_play)));
    object.put("shows", Ok(Value::Bool(has_run)));
    object.put("run", run_value(alloc, head.fails, shown));
    object.whole()
}

/// What data call a kind of cards.
fn kind_word(kind: CardKind) -> &'static str {
    match kind {
        CardKind::Exercise => "exercise",
        CardKind::Example => "example",
    }
}

/// A text, or null.
fn text_or_null(alloc: Global, text: Option<&str>) -> Result<Value, AllocError> {
    match text {
        Some(text) => text_value(alloc, text),
        None => Ok(Value::Null),
    }
}

/// A run as an object, or null where it has no step: no schedule of it is at hand then.
fn run_value(alloc: Global, fails: bool, shown: ShownProgram<'_>) -> Result<Value, AllocError> {
    if shown.steps.is_empty() {
        return Ok(Value::Null);
    }
    let mut object = Object::new(alloc);
    object.put_text("schedule", shown.schedule);
    object.put("fails", Ok(Value::Bool(fails)));
    object.put_number("steps", shown.steps.len() as u64);
    object.put(
        "drawn",
        drawn_steps(alloc, &shown.program.image, shown.steps),
    );
    object.whole()
}
