//! Which step before another did something to a word.

ghost use Rattle.std.specs.Prelude.{◌≡◌, ◌≤◌, ◌<◌, length, Some, IfSome};
ghost use Rattle.run_findings.specs.Actions.{writes, reads, read_by, written_or_read_by, met};
ghost use Rattle.run_findings.specs.Places.{last_before};
ghost use Rattle.run_findings.specs.TornReads.{is_later};
ghost use Rattle.run_findings.specs.Links.{AreWrites, AreReads, word_at, later, is_after};
ghost use Rattle.run_findings.specs.Sought.{is_sought};

use crate::actions::Action;
use processor::Step;

/// The last step before step `end`, which has this word, that wrote it. The links are those by writes.
pub(crate) fn last_write(
    actions: &[Action],
    past_writes: &[Option<usize>],
    end: usize,
    word: u64,
) -> Option<usize>
    requires end_in { end < length actions.now }
    requires word_is { word_at actions.now end ≡ Some word }
    requires linked { AreWrites actions.now past_writes.now }
    ensures is { result ≡ last_before (writes word) actions.now end }
    ensures below { IfSome result (λ k. k < end) }
{
    past_writes[end]
}

/// The last step before step `end`, which has this word, that read it. The links are those by reads.
fn last_read(
    actions: &[Action],
    past_reads: &[Option<usize>],
    end: usize,
    word: u64,
) -> Option<usize>
    requires end_in { end < length actions.now }
    requires word_is { word_at actions.now end ≡ Some word }
    requires linked { AreReads actions.now past_reads.now }
    ensures is { result ≡ last_before (reads word) actions.now end }
    ensures below { IfSome result (λ k. k < end) }
{
    past_reads[end]
}

/// The last step before step `end`, which has this word, that read or wrote it.
pub(crate) fn last_met(
    actions: &[Action],
    past_writes: &[Option<usize>],
    past_reads: &[Option<usize>],
    end: usize,
    word: u64,
) -> Option<usize>
    requires end_in { end < length actions.now }
    requires word_is { word_at actions.now end ≡ Some word }
    requires writes_linked { AreWrites actions.now past_writes.now }
    requires reads_linked { AreReads actions.now past_reads.now }
    ensures is { result ≡ last_before (met word) actions.now end }
    ensures below { IfSome result (λ k. k < end) }
{
    later(
        last_read(actions, past_reads, end, word),
        last_write(actions, past_writes, end, word),
    )
}

/// The last step before step `end`, which has this word, that wrote it, or in which this stream read it.
pub(crate) fn last_written_or_read(
    actions: &[Action],
    past_writes: &[Option<usize>],
    past_reads: &[Option<usize>],
    end: usize,
    word: u64,
    stream: Step,
) -> Option<usize>
    requires end_in { end < length actions.now }
    requires word_is { word_at actions.now end ≡ Some word }
    requires writes_linked { AreWrites actions.now past_writes.now }
    requires reads_linked { AreReads actions.now past_reads.now }
    ensures is { result ≡ last_before (written_or_read_by stream word) actions.now end }
    ensures below { IfSome result (λ k. k < end) }
{
    let write = last_write(actions, past_writes, end, word);
    later(
        write,
        last_read_after(actions, past_reads, end, word, stream, write),
    )
}

/// The last step before step `end`, which has this word, in which this stream read it, if that comes after a write; else
/// None or a step before it.
fn last_read_after(
    actions: &[Action],
    past_reads: &[Option<usize>],
    end: usize,
    word: u64,
    stream: Step,
    write: Option<usize>,
) -> Option<usize>
    requires end_in { end < length actions.now }
    requires word_is { word_at actions.now end ≡ Some word }
    requires linked { AreReads actions.now past_reads.now }
    ensures is { later write result ≡ later write (last_before (read_by stream word) actions.now end) }
    ensures below { IfSome result (λ k. k < end) }
{
    let mut step = end;
    while let Some(read) = last_read(actions, past_reads, step, word) {
        if !is_after(read, write) {
            return None;
        }
        if actions[read].is_by(stream) {
            return Some(read);
        }
        step = read;
    }
    None
}

/// Whether a step comes after another, if there is one.
fn is_after(step: usize, other: Option<usize>) -> bool
    ensures { result ≡ is_after step other }
{
    match other {
        Some(other) => other < step,
        None => true,
    }
}

/// The later of two steps.
fn later(one: Option<usize>, other: Option<usize>) -> Option<usize>
    ensures { result ≡ later one other }
{
    match one {
        Some(first) => match other {
            Some(second) => {
                if first < second {
                    Some(second)
                } else {
                    Some(first)
                }
            }
            None => Some(first),
        },
        None => other,
    }
}

/// What is looked for.
#[derive(Clone, Copy)]
pub(crate) enum Sought {
    /// A step of this stream that wrote the word.
    WrittenBy(Step),
    /// A step of this stream that wrote some word.
    WritesBy(Step),
}

impl Sought {
    /// Whether a step did this to the word at an address.
    fn is(self, address: u64, action: &Action) -> bool
        ensures { result ≡ is_sought self address action.now }
    {
        match self {
            Sought::WrittenBy(stream) => action.is_by(stream) && action.writes(address),
            Sought::WritesBy(stream) => action.is_by(stream) && action.writes_some(),
        }
    }
}

/// Whether a step after step `first` and before step `end` did this to the word at an address.
pub(crate) fn is_any_after(
    actions: &[Action],
    first: usize,
    end: usize,
    address: u64,
    sought: Sought,
) -> bool
    requires { end ≤ length actions.now }
    ensures { result ≡ is_later first (last_before (is_sought sought address) actions.now end) }
{
    let mut place = end;
    while place > 0 {
        place -= 1;
        if place <= first {
            return false;
        }
        if sought.is(address, &actions[place]) {
            return true;
        }
    }
    false
}
