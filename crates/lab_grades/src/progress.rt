//! How far the judging of a class is, on a terminal.

use program_pages::searches::Console;
use std::io::Write;
use std::time::{Clock, Duration, Instant};

/// How far the judging of a class is.
#[derive(Clone, Copy, Debug)]
pub(crate) struct Reached {
    /// How many submissions have their rows.
    pub done: usize,
    /// How many of them are not decided.
    pub undecided: usize,
    /// How many there are.
    pub count: usize,
    /// How many are judged side by side.
    pub jobs: usize,
}

/// The line on standard error that shows how far the judging of a class is, if that is a terminal.
#[derive(Clone, Copy)]
pub(crate) struct Progress {
    start: Option<Instant>,
    last: Duration,
    is_shown: bool,
}

impl Progress {
    /// That of a class whose judging begins now.
    pub(crate) fn begin<C: Clock, E>(console: &Console<'_, C, E>) -> Progress {
        let start = if console.is_terminal {
            Instant::now(console.clock).ok()
        } else {
            None
        };
        Progress {
            start,
            last: Duration::ZERO,
            is_shown: false,
        }
    }

    /// Whether anything is ever shown.
    pub(crate) fn is_on(&self) -> bool {
        self.start.is_some()
    }

    /// Shows how far it is, where a second has passed since it last did.
    pub(crate) fn show<C: Clock, E: Write>(
        &mut self,
        console: &mut Console<'_, C, E>,
        reached: Reached,
    ) {
        let Some(start) = self.start else {
            return;
        };
        let passed = start.elapsed(console.clock).unwrap_or(self.last);
        if passed.saturating_sub(self.last).as_secs() == 0 {
            return;
        }
        self.last = passed;
        self.is_shown = true;
        let Reached {
            done,
            undecided,
            count,
            jobs,
        } = reached;
        let seconds = passed.as_secs();
        let _ = write!(
            console.errors,
            "\r{done} of {count} judged, {undecided} not decided, jobs {jobs}, {seconds} s\x1b[K"
        );
        let _ = console.errors.flush();
    }

    /// Wipes what it has shown.
    pub(crate) fn wipe<C, E: Write>(&mut self, console: &mut Console<'_, C, E>) {
        if self.is_shown {
            self.is_shown = false;
            let _ = write!(console.errors, "\r\x1b[K");
            let _ = console.errors.flush();
        }
    }
}
