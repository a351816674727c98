//! Schedules as people write them: with comments after `#`, blank lines, tabs and CR LF, and stars.

use crate::star_words::{past_words, star_here, star_words};
use crate::stars::{SaidSteps, expand};
use fault_messages::Message;
use image_file::Image;
use input_faults::check_schedule;
use processor::Step;
use std::alloc::{AllocError, Global};
use std::str;
use trace_text::{ScheduleFault, ScheduleFaultKind, read_schedule};

/// How many stars of a schedule are reported at most.
const MOST_STARS_TOLD: usize = 100_000;

/// Where a line stands in its text.
#[derive(Clone, Copy)]
struct LinePlace {
    /// Its number, from 1.
    number: usize,
    /// How many bytes stand before it.
    start: usize,
    /// How many bytes stand before its end.
    end: usize,
    /// Where on it a star stands in the place of the third number, from 0.
    star: Option<usize>,
}

impl LinePlace {
    /// The place where the line after this one begins.
    fn next(self) -> LinePlace {
        let start = self.end.saturating_add(1);
        LinePlace {
            number: self.number.saturating_add(1),
            start,
            end: start,
            star: None,
        }
    }

    /// The line in its text.
    fn line(self, text: &[u8]) -> &[u8] {
        text.get(self.start..self.end).unwrap_or(&[])
    }
}

/// A schedule in the strict form, and of each of its lines the place of the line that said it. Where that has a star, the
/// strict form has a 1.
#[derive(Drop)]
struct StrictSchedule {
    text: Vec<u8>,
    lines: Vec<LinePlace>,
}

impl StrictSchedule {
    /// The strict form of a text.
    fn of(alloc: Global, text: &[u8]) -> Result<StrictSchedule, AllocError> {
        let mut strict = Vec::new(alloc);
        let mut lines = Vec::new(alloc);
        let mut kept = Vec::new(alloc);
        let mut place = LinePlace {
            number: 1,
            start: 0,
            end: 0,
            star: None,
        };
        for line in text.split(|byte| *byte == b'\n') {
            keep_bytes(&mut kept, line)?;
            place.end = place.start.saturating_add(line.len());
            place.star = take_star(&mut kept);
            if push_strict(&mut strict, &kept)? {
                lines.push(place)?;
            }
            place = place.next();
        }
        Ok(StrictSchedule {
            text: strict,
            lines,
        })
    }

    /// The place of the line that said a line of the strict form, which is numbered from 1.
    fn place(&self, number: usize) -> Option<LinePlace> {
        let line = self.lines.get(number.checked_sub(1)?)?;
        Some(*line)
    }

    /// Where the first star stands.
    fn first_star(&self) -> Option<LinePlace> {
        let line = self.lines.iter().find(|line| line.star.is_some())?;
        Some(*line)
    }

    /// What the lines say, of a text that is a schedule.
    fn said(&self, alloc: Global) -> Result<Vec<SaidSteps>, AllocError> {
        let mut said = Vec::with_capacity(alloc, self.lines.len())?;
        let mut places = self.lines.iter();
        for line in self.text.split(|byte| *byte == b'\n') {
            let Some(place) = places.next() else {
                break;
            };
            said.push(steps_said(line, place.star.is_some()))?;
        }
        Ok(said)
    }
}

/// What a line of the strict form says.
fn steps_said(line: &[u8], is_star: bool) -> SaidSteps {
    let mut fields = line.split(|byte| *byte == b' ');
    let p = number_in(fields.next()).unwrap_or(0);
    let s = number_in(fields.next()).unwrap_or(0);
    let times = number_in(fields.next()).unwrap_or(1);
    SaidSteps {
        stream: Step {
            p: u8::try_from(p).unwrap_or(u8::MAX),
            s: u8::try_from(s).unwrap_or(u8::MAX),
        },
        times: if is_star { None } else { Some(times) },
    }
}

/// The number that a field is.
fn number_in(field: Option<&[u8]>) -> Option<usize> {
    str::from_utf8(field?).ok()?.parse::<usize>().ok()
}

/// The steps that a text says, of a run of an image's program.
pub(crate) fn read_loose_schedule(
    alloc: Global,
    text: &[u8],
    image: &Image,
) -> Result<Vec<Step>, ScheduleFault> {
    let strict = StrictSchedule::of(alloc, text)?;
    let steps = read_schedule(alloc, &strict.text)?;
    if strict.first_star().is_none() {
        return Ok(steps);
    }
    expand(alloc, image, &strict.said(alloc)?)?.into_steps()
}

/// What is to be said of a schedule, with the places of its own text. Where there is an image, what stars stand for in a run
/// of its program.
pub fn check_loose_schedule(
    alloc: Global,
    text: &[u8],
    image: Option<&Image>,
) -> Result<Vec<Message>, AllocError> {
    let strict = StrictSchedule::of(alloc, text)?;
    let mut messages = check_schedule(alloc, &strict.text, image)?;
    let mut kept = Vec::new(alloc);
    for message in messages.iter_mut() {
        if let Some(place) = strict.place(message.line) {
            message.line = place.number;
            message.start = place.start;
            keep_bytes(&mut kept, place.line(text))?;
            point_at(message, &kept);
        }
    }
    report_stars(alloc, &strict, image, &mut messages)?;
    messages.sort_by_key(|message| (message.line, message.column))?;
    Ok(messages)
}

/// Reports what the stars of a schedule mean: in a run of an image's program, or else in general; nothing if the text
/// is no schedule for another reason.
fn report_stars(
    alloc: Global,
    strict: &StrictSchedule,
    image: Option<&Image>,
    messages: &mut Vec<Message>,
) -> Result<(), AllocError> {
    let Some(first) = strict.first_star() else {
        return Ok(());
    };
    match read_schedule(alloc, &strict.text) {
        Ok(_) => {}
        Err(
            ScheduleFault {
                kind: ScheduleFaultKind::NoMemory,
                ..
            },
        ) => return Err(AllocError),
        Err(_) => return Ok(()),
    }
    match image {
        Some(image) => report_stars_of_run(alloc, strict, image, messages),
        None => {
            let words = star_words(alloc)?;
            messages.push(words.message(first.number, first.start, first.star.unwrap_or(0)))?;
            Ok(())
        }
    }
}

/// Reports what the stars of a schedule stand for in a run of an image's program, and where those are too many steps.
fn report_stars_of_run(
    alloc: Global,
    strict: &StrictSchedule,
    image: &Image,
    messages: &mut Vec<Message>,
) -> Result<(), AllocError> {
    let all = expand(alloc, image, &strict.said(alloc)?)?;
    for star in all.stars.iter().take(MOST_STARS_TOLD) {
        if let Some(place) = strict.lines.get(star.line) {
            let words = star_here(alloc, *star)?;
            messages.push(words.message(place.number, place.start, place.star.unwrap_or(0)))?;
        }
    }
    if let Some(line) = all.past
        && let Some(place) = strict.lines.get(line)
    {
        let words = past_words(alloc)?;
        messages.push(words.message(place.number, place.start, 0))?;
    }
    Ok(())
}

/// Takes a message from the columns of a line's strict form to those of the line itself.
fn point_at(message: &mut Message, kept: &[Kept]) {
    let first = message.column.saturating_sub(1);
    let last = first.saturating_add(message.width.saturating_sub(1));
    let begin = place_of(kept, first);
    message.column = begin.saturating_add(1);
    message.width = place_of(kept, last).saturating_sub(begin).saturating_add(1);
}

/// Where a byte of the strict form stands on its line; after the last of them where it has fewer.
fn place_of(kept: &[Kept], index: usize) -> usize {
    match (kept.get(index), kept.last()) {
        (Some(byte), _) => byte.place,
        (None, Some(last)) => last.place.saturating_add(1),
        (None, None) => 0,
    }
}

/// A byte of a line's strict form.
#[derive(Clone, Copy)]
struct Kept {
    /// The byte.
    byte: u8,
    /// How many bytes of the line stand before it.
    place: usize,
}

/// Leaves in `kept` what a line says: its bytes before a comment, with one space for the blanks between two of them.
fn keep_bytes(kept: &mut Vec<Kept>, line: &[u8]) -> Result<(), AllocError> {
    kept.clear();
    let mut blank = None;
    for (place, byte) in line.iter().enumerate() {
        match *byte {
            b'#' => return Ok(()),
            b' ' | b'\t' | b'\r' => blank = blank.or(Some(place)),
            other => {
                if let Some(before) = blank
                    && !kept.is_empty()
                {
                    kept.push(Kept {
                        byte: b' ',
                        place: before,
                    })?;
                }
                kept.push(Kept { byte: other, place })?;
                blank = None;
            }
        }
    }
    Ok(())
}

/// Where a star stands on a line in the place of the third number; there is a 1 in its place then.
fn take_star(kept: &mut Vec<Kept>) -> Option<usize> {
    let mut spaces: usize = 0;
    let mut length: usize = 0;
    for byte in kept.iter() {
        if byte.byte == b' ' {
            spaces = spaces.saturating_add(1);
            length = 0;
        } else {
            length = length.saturating_add(1);
        }
    }
    let last = kept.last_mut()?;
    if spaces != 2 || length != 1 || last.byte != b'*' {
        return None;
    }
    last.byte = b'1';
    Some(last.place)
}

/// Adds what a line says in the strict form; whether it says anything.
fn push_strict(strict: &mut Vec<u8>, kept: &[Kept]) -> Result<bool, AllocError> {
    for byte in kept.iter() {
        strict.push(byte.byte)?;
    }
    if !kept.is_empty() {
        strict.push(b'\n')?;
    }
    Ok(!kept.is_empty())
}
