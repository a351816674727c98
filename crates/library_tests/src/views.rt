//! Views of steps: which changes they have, by a program whose steps are worked out by hand.
use crate::sources::image_of;
use image_file::Image;
use machine::Machine;
use processor::Step;
use std::alloc::Global;
use step_views::{Change, Content, Place, StepView, StreamPart, content_of, take_step};
use stream_core::Status;

/// A stream that reserves and starts another one, and stores 1 through a word that forwards to the word after it.
const STARTING: &str = ".slim 2\n.entry 0\nLIT r2, 1\nRESERVE r3, r2\nTLIT t1, 5\nCREATE t1, r2\n\
    STORE.N r2, r0, 0\nQUIT\n.data 8, 3\n.data 0, 0\n";

/// How many places change in each of its five steps before the last one.
const COUNTS: [usize; 5] = [2, 3, 2, 6, 3];

/// Which part of stream 0, what changes in it from what to what, and in which of the steps.
const PARTS: [(StreamPart, u64, u64, usize); 5] = [
    (StreamPart::Register(2), 0, 1, 0),
    (StreamPart::Register(3), 0, 1, 1),
    (StreamPart::Target(1), 0, 5, 2),
    (StreamPart::Pc, 3, 4, 3),
    (StreamPart::Pc, 4, 5, 4),
];

fn machine_of(alloc: Global, image: &Image) -> Option<Machine<'_, 2>> {
    Machine::load(alloc, image).ok()
}

fn view(alloc: Global, machine: &mut Machine<2>, s: u8) -> Option<StepView> {
    take_step(alloc, machine, Step { p: 0, s }).ok()
}

/// The views of so many steps of stream 0.
fn views(alloc: Global, machine: &mut Machine<2>, count: usize) -> Option<Vec<StepView>> {
    let mut views = Vec::new(alloc);
    for _ in 0..count {
        let step = view(alloc, machine, 0)?;
        views.push(step).ok()?;
    }
    Some(views)
}

fn is_change(change: &Change, place: Place, before: u64, after: u64) -> bool {
    change.place == place
        && change.before.number() == Some(before)
        && change.after.number() == Some(after)
}

/// Whether the place changed from one number to another.
fn has(view: &StepView, place: Place, before: u64, after: u64) -> bool {
    for change in &view.changes {
        if is_change(change, place, before, after) {
            return true;
        }
    }
    false
}

fn are_counts_right(views: &[StepView]) -> bool {
    for (view, count) in views.iter().zip(&COUNTS) {
        if view.changes.len() != *count {
            return false;
        }
    }
    views.len() == COUNTS.len()
}

fn are_parts_right(views: &[StepView]) -> bool {
    for (part, before, after, number) in PARTS {
        let place = Place::Stream { p: 0, s: 0, part };
        match views.get(number) {
            Some(view) if has(view, place, before, after) => {}
            _ => return false,
        }
    }
    true
}

/// The fourth step starts stream 1.
fn is_start_right(view: &StepView) -> bool {
    let started = |part: StreamPart| -> Place { Place::Stream { p: 0, s: 1, part } };
    has(view, started(StreamPart::Pc), 0, 5)
        && has(view, started(StreamPart::Register(1)), 0, 1)
        && has(view, started(StreamPart::Target(0)), 0, 4_294_967_295)
        && has(view, Place::Current { p: 0 }, 1, 2)
}

/// The fifth step stores where the forwarding word leads.
fn is_store_right(view: &StepView) -> bool {
    let ended = match &view.reference {
        Some(reference) => reference.address == 8 && reference.request.pointer.address() == 0,
        None => false,
    };
    ended
        && has(view, Place::Value { address: 8 }, 0, 1)
        && has(view, Place::Tags { address: 8 }, 0, 1)
}

fn are_views_right(views: &[StepView]) -> bool {
    match (views.get(3), views.get(4)) {
        (Some(start), Some(store)) => {
            are_counts_right(views)
                && are_parts_right(views)
                && is_start_right(start)
                && is_store_right(store)
        }
        _ => false,
    }
}

fn views_of_starting(alloc: Global) -> Option<Vec<StepView>> {
    let image = image_of(alloc, STARTING)?;
    let mut machine = machine_of(alloc, &image)?;
    views(alloc, &mut machine, 5)
}

/// The last step fills the word at byte address 8, which was empty; no other change fills or empties one.
fn are_turns_right(views: &[StepView]) -> bool {
    for (number, view) in views.iter().enumerate() {
        for change in &view.changes {
            let is_tags = change.place == Place::Tags { address: 8 };
            let expected = if number == 4 && is_tags {
                Some(8)
            } else {
                None
            };
            if change.word_filled_or_emptied() != expected {
                return false;
            }
        }
    }
    true
}

#[test]
fn a_view_has_each_change_and_says_which_word_is_filled(rt: HostRuntime) {
    let right = match &views_of_starting(rt.alloc()) {
        Some(views) => are_views_right(views) && are_turns_right(views),
        None => false,
    };
    assert!(rt; right);
}

fn number_in(machine: &Machine<2>, place: Place) -> Option<u64> {
    content_of(machine, place)?.number()
}

/// What stands in some places after five steps of stream 0.
fn are_contents_right(machine: &Machine<2>) -> bool {
    let part = |s: u8, part: StreamPart| -> Place { Place::Stream { p: 0, s, part } };
    number_in(machine, part(0, StreamPart::Register(3))) == Some(1)
        && number_in(machine, part(0, StreamPart::Register(32))).is_none()
        && number_in(machine, Place::Tags { address: 0 }) == Some(3)
        && number_in(machine, Place::Value { address: 16 }).is_none()
        && content_of(machine, part(1, StreamPart::Status))
            == Some(Content::Status(Status::Running))
        && content_of(machine, part(2, StreamPart::Status)).is_none()
}

fn contents_of_starting(alloc: Global) -> Option<bool> {
    let image = image_of(alloc, STARTING)?;
    let mut machine = machine_of(alloc, &image)?;
    views(alloc, &mut machine, 5)?;
    Some(are_contents_right(&machine))
}

#[test]
fn contents_are_found_by_their_places(rt: HostRuntime) {
    assert!(rt; contents_of_starting(rt.alloc()) == Some(true));
}
