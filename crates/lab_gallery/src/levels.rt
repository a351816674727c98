//! The levels of a gallery: lines `CARD/PROGRAM GOAL: TASK`, or of an example `CARD GOAL: TASK`.

ghost use Rattle.std.specs.Prelude.{◌≡◌};
ghost use Rattle.std.specs.List.{position};
ghost use Rattle.lab_gallery.specs.Levels.{is_of_card};

use exercise_files::parts::LabFault;
use plain_text::TextWriter;
use std::alloc::{AllocError, Global};
use std::str;

/// What a line of levels looks like.
const FORM: &str = "a level is EXERCISE/PROGRAM GOAL: TASK, or EXAMPLE GOAL: TASK";

/// What is said of a goal that there is not.
const NO_GOAL: &str = "a goal is wrong, stopped, deadlock, spinning or broken";

/// What is said of a card that has two levels.
const TWICE: &str = "this card has a level already";

/// The goals of levels.
const GOALS: [&str; 5] = ["wrong", "stopped", "deadlock", "spinning", "broken"];

/// A level: an end that the reader is to reach.
#[derive(Clone, Copy, Debug)]
pub(crate) struct Level<'a> {
    /// Its line, from 1.
    pub line: usize,
    /// The name of the exercise or the example.
    pub card: &'a str,
    /// The wrong program of the exercise; empty of an example.
    pub program: &'a str,
    /// The kind of the end.
    pub goal: &'a str,
    /// What the reader is to do.
    pub task: &'a str,
}

/// The file of the levels of a folder of exercises.
#[derive(Drop)]
pub(crate) struct LevelFile {
    /// Its path.
    pub path: String,
    /// Its bytes; none where there is no such file.
    pub bytes: Vec<u8>,
}

impl LevelFile {
    /// The fault of a line.
    pub(crate) fn fault(
        &self,
        alloc: Global,
        line: usize,
        why: &str,
    ) -> Result<LabFault, AllocError> {
        let mut out = TextWriter::new(alloc);
        out.put_plain(&self.path);
        out.put(":");
        out.put_number(line as u64);
        out.put(": ");
        out.put_plain(why);
        Ok(LabFault::Words(out.take_text()?))
    }

    /// The levels, in the order of their lines; empty lines and lines that begin with # are none.
    pub(crate) fn levels(&self, alloc: Global) -> Result<Vec<Level<'_>>, LabFault> {
        let Ok(text) = str::from_utf8(&self.bytes) else {
            return Err(self.fault(alloc, 1, "it is not UTF-8")?);
        };
        let mut levels: Vec<Level<'_>> = Vec::new(alloc);
        self.add_levels(alloc, text, &mut levels)?;
        Ok(levels)
    }

    /// Adds the levels of a text.
    fn add_levels<'t>(
        &self,
        alloc: Global,
        text: &'t str,
        levels: &mut Vec<Level<'t>>,
    ) -> Result<(), LabFault> {
        for (place, line) in text.lines().enumerate() {
            let number = place.saturating_add(1);
            let line = line.trim();
            if line.is_empty() || line.starts_with('#') {
                continue;
            }
            match level_after(levels.as_slice(), number, line) {
                Ok(level) => levels.push(level)?,
                Err(why) => return Err(self.fault(alloc, number, why)?),
            }
        }
        Ok(())
    }
}

/// The level of a line after others; what is said of it, if it is none.
fn level_after<'t>(
    levels: &[Level<'_>],
    line: usize,
    text: &'t str,
) -> Result<Level<'t>, &'static str> {
    let Some(level) = level_in(line, text) else {
        return Err(FORM);
    };
    if !GOALS.contains(&level.goal) {
        return Err(NO_GOAL);
    }
    if level_of(levels, level.card).is_some() {
        return Err(TWICE);
    }
    Ok(level)
}

/// The level of a line.
fn level_in(line: usize, text: &str) -> Option<Level<'_>> {
    let (head, task) = text.split_once(": ")?;
    let (place, goal) = head.split_once(" ")?;
    let (card, program) = place.split_once("/").unwrap_or((place, ""));
    if card.is_empty() || task.is_empty() {
        return None;
    }
    Some(Level {
        line,
        card,
        program,
        goal: goal.trim(),
        task: task.trim(),
    })
}

/// The place of the first level of a card; None if it has none.
pub(crate) fn level_of(levels: &[Level<'_>], card: &str) -> Option<usize>
    ensures { result ≡ position (is_of_card card.now) levels.now }
{
    levels.iter().position(
        |level: &Level<'_>| -> bool
            ensures { result ≡ is_of_card card.entry.now level.now }
        { level.card == card },
    )
}
