//! Lines of steps, of which a loop that repeats is folded.

use command_parts::texts::{Columns, push_step_number};
use std::alloc::{AllocError, Global};

/// The most lines of a loop that is folded.
const LONGEST_LOOP: usize = 128;

/// A loop is folded where its lines are repeated so often at least.
const FEWEST_TIMES: usize = 3;

/// A line of a step.
#[derive(Clone, Copy, Debug)]
struct StepLine {
    /// The number of the step.
    number: usize,
    /// Where its text stands, from what is after the number to its end.
    begin: usize,
    /// Where its text ends.
    end: usize,
    /// A number made of the text, the same for the same texts.
    mark: u64,
}

/// A loop that is repeated.
#[derive(Clone, Copy, Debug)]
struct Loop {
    /// How many lines it has.
    lines: usize,
    /// How often they are repeated after they were shown.
    times: usize,
}

/// The lines of the steps that are shown.
#[derive(Drop)]
pub(crate) struct StepLines {
    /// Their texts without the numbers.
    text: String,
    lines: Vec<StepLine>,
    /// The numbers of steps whose lines are never folded, from the least up.
    named: Vec<usize>,
}

impl StepLines {
    /// No line.
    pub(crate) fn new(alloc: Global) -> StepLines {
        StepLines {
            text: String::new(alloc),
            lines: Vec::new(alloc),
            named: Vec::new(alloc),
        }
    }

    /// Whether there is none.
    pub(crate) fn is_empty(&self) -> bool {
        self.lines.is_empty()
    }

    /// The text to which that of the next line is added, before [`StepLines::end_line`].
    pub(crate) fn next_text(&mut self) -> &mut String {
        &mut self.text
    }

    /// Ends the line of the step of this number: its text is what was added since the last one ended.
    pub(crate) fn end_line(&mut self, number: usize) -> Result<(), AllocError> {
        let begin = self.lines.last().map_or(0, |line| line.end);
        let end = self.text.len();
        let line = StepLine {
            number,
            begin,
            end,
            mark: mark_of(self.text.get(begin..end).unwrap_or("")),
        };
        self.lines.push(line)?;
        Ok(())
    }

    /// The lines of the steps of these numbers are never folded.
    pub(crate) fn keep(&mut self, numbers: &[usize]) -> Result<(), AllocError> {
        self.named.extend_from_slice(numbers)?;
        self.named.sort()?;
        Ok(())
    }

    /// Adds each line.
    pub(crate) fn push_all(&self, out: &mut String, columns: Columns) -> Result<(), AllocError> {
        for line in &self.lines {
            self.push_line(out, columns, *line)?;
        }
        Ok(())
    }

    /// Adds the lines, and one in place of those that repeat the lines above it but for their numbers.
    pub(crate) fn push_folded(
        &self,
        out: &mut String,
        columns: Columns,
        are_all: bool,
    ) -> Result<(), AllocError> {
        let mut place: usize = 0;
        let mut shown: usize = 0;
        for _ in 0..self.lines.len() {
            let Some(line) = self.lines.get(place) else {
                break;
            };
            match self.loop_at(place, shown) {
                Some(found) => {
                    self.push_fold(out, place, found, are_all)?;
                    place = place.saturating_add(found.lines.saturating_mul(found.times));
                    shown = place;
                }
                None => {
                    self.push_line(out, columns, *line)?;
                    place = place.saturating_add(1);
                }
            }
        }
        Ok(())
    }

    /// The shortest loop that the lines from this place on repeat; its own are shown from the place `shown` on.
    fn loop_at(&self, place: usize, shown: usize) -> Option<Loop> {
        let most = place.saturating_sub(shown).min(LONGEST_LOOP);
        for lines in 1..=most {
            let times = self.repeated(place, lines).checked_div(lines).unwrap_or(0);
            if times >= FEWEST_TIMES {
                return Some(Loop { lines, times });
            }
        }
        None
    }

    /// How many lines from this place on are each as the one that is so many lines before it, and may be folded.
    fn repeated(&self, place: usize, before: usize) -> usize {
        let mut count: usize = 0;
        for index in place..self.lines.len() {
            if !self.is_same(index.saturating_sub(before), index) {
                break;
            }
            count = count.saturating_add(1);
        }
        count
    }

    /// Whether two lines are the same but for their numbers, and the second may be folded.
    fn is_same(&self, one: usize, other: usize) -> bool {
        let (Some(one), Some(other)) = (self.lines.get(one), self.lines.get(other)) else {
            return false;
        };
        one.mark == other.mark
            && self.text_of(*one) == self.text_of(*other)
            && self.named.binary_search(&other.number).is_err()
    }

    /// The text of a line after its number.
    fn text_of(&self, line: StepLine) -> &str {
        self.text.get(line.begin..line.end).unwrap_or("")
    }

    /// Adds a line.
    fn push_line(
        &self,
        out: &mut String,
        columns: Columns,
        line: StepLine,
    ) -> Result<(), AllocError> {
        push_step_number(out, columns, line.number)?;
        out.push_str(self.text_of(line))
    }

    /// Adds the line in place of those from this place on that repeat a loop.
    fn push_fold(
        &self,
        out: &mut String,
        place: usize,
        found: Loop,
        are_all: bool,
    ) -> Result<(), AllocError> {
        let Loop { lines, times } = found;
        let behind = place.saturating_add(lines.saturating_mul(times));
        let first = self.number_at(place);
        let last = self.number_at(behind.saturating_sub(1));
        let which = if are_all {
            "steps"
        } else {
            "of the steps shown,"
        };
        write!(out, "{which} {first} to {last}: as ")?;
        let begin = self.number_at(place.saturating_sub(lines));
        let end = self.number_at(place.saturating_sub(1));
        if lines == 1 {
            write!(out, "{end}, {times} times\n")
        } else {
            write!(out, "{begin} to {end}, {times} times\n")
        }
    }

    /// The number of the step whose line has this place.
    fn number_at(&self, place: usize) -> usize {
        self.lines.get(place).map_or(0, |line| line.number)
    }
}

/// A number made of a text, by the rule FNV-1a.
fn mark_of(text: &str) -> u64 {
    let mut mark: u64 = 0xcbf2_9ce4_8422_2325;
    for byte in text.bytes() {
        mark = (mark ^ u64::from(byte)).wrapping_mul(0x0100_0000_01b3);
    }
    mark
}
