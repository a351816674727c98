//! The page that leads to all others.

use crate::cards::Card;
use crate::galleries::Gallery;
use crate::levels::{Level, LevelFile};
use crate::parts::{push_head, push_middle, push_tail};
use exercise_files::parts::LabFault;
use replay_page::json_values::{List, Object};
use replay_page::{push_escaped, push_script_data};
use serde_json::Value;
use std::alloc::{AllocError, Global};

/// The title of the page.
const TITLE: &str = "You are the scheduler";

/// What is said of a level whose card has no page of all schedules.
const TOO_LARGE: &str = "the program is too large for a page of all schedules";

/// What is said of a level whose card is not there.
const NO_CARD: &str = "there is no such exercise, and no such example";

/// The page of these cards, and of the levels. A level whose card is not there, or has no page to play on, is refused.
pub(crate) fn index_page(
    alloc: Global,
    gallery: Gallery<'_>,
    cards: Vec<Card<'_>>,
) -> Result<String, LabFault> {
    check_levels(alloc, gallery.file, gallery.levels, &cards)?;
    let levels = levels_value(alloc, gallery.levels, &cards);
    let json = data_text(alloc, levels, cards)?;
    let mut page = String::new(alloc);
    push_page(&mut page, &json)?;
    Ok(page)
}

/// The data of the page, as JSON.
fn data_text(
    alloc: Global,
    levels: Result<Value, AllocError>,
    cards: Vec<Card<'_>>,
) -> Result<String, AllocError> {
    let mut values = List::new(alloc);
    for card in cards {
        let Card { value, .. } = card;
        values.put(Ok(value));
    }
    let mut object = Object::of_kind(alloc, "gallery");
    object.put("levels", levels);
    object.put("cards", values.whole());
    object.whole()?.to_string(alloc)
}

/// Adds the page of these data.
fn push_page(page: &mut String, json: &str) -> Result<(), AllocError> {
    push_head(page)?;
    push_escaped(page, TITLE)?;
    push_middle(page)?;
    push_script_data(page, json)?;
    push_tail(page)
}

/// Refuses the first level whose card is not there, or has no page to play on.
fn check_levels(
    alloc: Global,
    file: &LevelFile,
    levels: &[Level<'_>],
    cards: &[Card<'_>],
) -> Result<(), LabFault> {
    for level in levels {
        if let Some(why) = fault_of(cards, level.card) {
            return Err(file.fault(alloc, level.line, why)?);
        }
    }
    Ok(())
}

/// What is said of a level of the card of a name; None if it can be played.
fn fault_of(cards: &[Card<'_>], name: &str) -> Option<&'static str> {
    match place_of(cards, name) {
        Some((_, has_play)) if has_play => None,
        Some(_) => Some(TOO_LARGE),
        None => Some(NO_CARD),
    }
}

/// The place of the card of a name, and whether it has a page to play on.
fn place_of(cards: &[Card<'_>], name: &str) -> Option<(usize, bool)> {
    for (place, card) in cards.iter().enumerate() {
        if card.name == name {
            return Some((place, card.has_play));
        }
    }
    None
}

/// The levels, each with the place of its card.
fn levels_value(
    alloc: Global,
    levels: &[Level<'_>],
    cards: &[Card<'_>],
) -> Result<Value, AllocError> {
    let mut values = List::new(alloc);
    for level in levels {
        if let Some((place, _)) = place_of(cards, level.card) {
            values.put(level_value(alloc, level, place));
        }
    }
    values.whole()
}

/// A level.
fn level_value(alloc: Global, level: &Level<'_>, card: usize) -> Result<Value, AllocError> {
    let mut object = Object::new(alloc);
    object.put_number("card", card as u64);
    object.put_text("goal", level.goal);
    object.put_text("task", level.task);
    object.whole()
}
