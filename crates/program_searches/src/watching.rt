//! Who looks on at a search: its bounds of time and memory, and the line that shows how far it is.

ghost use Rattle.std.specs.Prelude.{◌≡◌, IsSome, IsFalse, IfErr};
ghost use Rattle.program_searches.specs.Bounds.{IsWatched};

use crate::bounds::SearchBound;
use crate::held_bytes::{HeldBytes, MEGABYTE};
use crate::looking::TimeLeft;
use image_file::Image;
use lab_requests::Bounds;
use space_ends::space::Watch;
use std::fs::File;
use std::io::{self, Write};
use std::time::{Clock, Duration, Instant};

/// The clock, and where a search shows how far it is.
#[derive(Drop)]
pub struct Console<'a, C, E> {
    /// The clock.
    pub clock: &'a C,
    /// Standard error.
    pub errors: &'a mut E,
    /// Whether that is a terminal: elsewhere nothing is shown.
    pub is_terminal: bool,
    /// The file `/proc/self/statm`, by which the system says how much memory the process takes; None where it is not read.
    pub memory: Option<&'a File>,
}

/// What looks on at one search, ends it at its bounds, and shows each second how far it is.
#[derive(Drop)]
pub(crate) struct Watcher<'w, 'c, C, E> {
    console: &'w mut Console<'c, C, E>,
    start: Option<Instant>,
    most_time: Option<Duration>,
    search_time: Option<Duration>,
    held: HeldBytes,
    last_report: Option<Report>,
    ended: Option<SearchBound>,
}

/// What is known beforehand of a search that is watched.
#[derive(Clone, Copy, Debug)]
pub(crate) struct WatchedSearch {
    /// Whether it keeps a machine for each world that waits.
    pub has_machines: bool,
    /// Whether its worlds are looked at after it.
    pub is_looked_at: bool,
}

/// What was shown last.
#[derive(Clone, Copy)]
struct Report {
    at: Duration,
    found: usize,
}

impl<'w, 'c, C: Clock, E: Write> Watcher<'w, 'c, C, E> {
    /// Who looks on at a search over an image that begins now, by its bounds. It has half of the time where its worlds are
    /// looked at after it. The clock is read only where there is a bound of time or a terminal; a fault where the first asks
    /// for it, and it can't be read.
    pub(crate) fn new(
        console: &'w mut Console<'c, C, E>,
        image: &Image,
        bounds: Bounds,
        watched: WatchedSearch,
    ) -> Result<Watcher<'w, 'c, C, E>, io::Error>
        ensures { IfErr result (λ _. IsSome bounds.seconds) }
    {
        let start = match bounds.seconds {
            Some(_) => Some(Instant::now(console.clock)?),
            None if console.is_terminal => Instant::now(console.clock).ok(),
            None => None,
        };
        Ok(Watcher {
            console,
            start,
            most_time: bounds.seconds.map(|seconds| Duration::from_secs(seconds)),
            search_time: bounds
                .seconds
                .map(|seconds| search_time_of(seconds, watched.is_looked_at)),
            held: HeldBytes::of(image, bounds, watched.has_machines),
            last_report: None,
            ended: None,
        })
    }

    /// Which of its own bounds ended the search; None where it has ended none.
    pub(crate) fn bound(&self) -> Option<SearchBound>
        ensures { result ≡ self.now.ended }
    {
        self.ended
    }

    /// How much time has passed, and how much is left; None where it is not bounded.
    pub(crate) fn time_left(&self) -> Option<TimeLeft> {
        let most = self.most_time?;
        let start = self.start?;
        let passed = start.elapsed(self.console.clock).unwrap_or(Duration::MAX);
        Some(TimeLeft {
            passed,
            left: most.saturating_sub(passed),
        })
    }

    /// Lets the next search go on, whatever the time.
    pub(crate) fn forget_time(&mut self) {
        self.search_time = None;
    }

    /// Wipes what it has shown.
    pub(crate) fn finish(&mut self) {
        if self.last_report.is_some() {
            let _ = write!(self.console.errors, "\r\x1b[K");
            let _ = self.console.errors.flush();
        }
    }

    /// Whether the time is not over. Where it is not, shows each second how far the search is.
    fn is_in_time(&mut self, found: usize, waiting: usize, bytes: usize) -> bool
        ensures { IsFalse result → IsWatched self.new.ended }
    {
        let Some(start) = self.start else {
            return true;
        };
        // where the clock can't be read any more, the time may be over
        let passed = start.elapsed(self.console.clock).unwrap_or(Duration::MAX);
        if self.search_time.is_some_and(|most| passed >= most) {
            self.ended = Some(SearchBound::Seconds);
            return false;
        }
        self.report(passed, found, waiting, bytes);
        true
    }

    /// Shows how far the search is, where a second has passed since it last did.
    fn report(&mut self, passed: Duration, found: usize, waiting: usize, bytes: usize) {
        let last = self.last_report.unwrap_or(Report {
            at: Duration::ZERO,
            found: 0,
        });
        let since = passed.saturating_sub(last.at);
        if !self.console.is_terminal || since.as_secs() == 0 {
            return;
        }
        self.last_report = Some(Report { at: passed, found });
        let rate = found.saturating_sub(last.found) as u128 * 1000 / since.as_millis().max(1);
        let megabytes = bytes / MEGABYTE;
        let _ = write!(
            self.console.errors,
            "\r{found} states, {waiting} still to explore, {rate} a second, {megabytes} MB\x1b[K"
        );
        let _ = self.console.errors.flush();
    }
}

/// How long a search goes on of so many seconds, in half of which its worlds may have to be looked at.
fn search_time_of(seconds: u64, is_looked_at: bool) -> Duration {
    if is_looked_at {
        Duration::from_millis(seconds.saturating_mul(500))
    } else {
        Duration::from_secs(seconds)
    }
}

impl<C: Clock, E: Write> Watch for Watcher<'_, '_, C, E> {
    ghost HasEnded = { λ w. IsWatched w.ended };

    fn goes_on(&mut self, found: usize, waiting: usize, bytes: usize) -> bool {
        let memory = self.console.memory;
        if !self.held.may_go_on(memory, waiting, bytes) {
            self.ended = Some(SearchBound::Memory);
            return false;
        }
        self.is_in_time(found, waiting, bytes)
    }
}
