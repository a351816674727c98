//! Whether a claim holds of the world of a machine.

ghost use Rattle.std.specs.Prelude.{◌≡◌, ◌≤◌, ◌^◌, ℕ, MatchOption};
ghost use Rattle.std.specs.List.{count_by};
ghost use Rattle.std.specs.Option.{option_copied};
ghost use Rattle.machine.specs.Processor.Records.{is_running_status};
ghost use Rattle.claims.specs.Holding.{holds, shows, form_holds, word_holds, is_so, is_less, stream_at};
ghost use Rattle.claims.specs.Holding.{runs_at_places, count_at_places, count_in_group, count_in_groups, counts_so};
ghost use Rattle.claims.specs.Holding.{holds_by, shown_by};

use crate::claim::{Claim, ClaimForm, CountTest, NumberOrder, Scope, StreamGroup, WordTest};
use expectations::{Expectation, is_met};
use machine::Machine;
use machine::processors::Step;
use stream_core::{Status, Stream};
use tag_memory::Word;

impl Claim {
    /// Whether it holds of the world of a machine: no world alone breaks one that has to hold of one at least. Of a word that
    /// the machine does not have no test holds, and a stream that it does not have runs nowhere: [`Claim::missing_in`] says
    /// of which programs that is so.
    pub fn holds<const S: usize>(&self, machine: &Machine<'_, S>) -> bool
        ensures { result ≡ holds machine.now.world self.now }
    {
        let is_so = self.form.holds(machine);
        match self.scope {
            Scope::Always => is_so,
            Scope::Never => !is_so,
            Scope::Once => true,
        }
    }

    /// Whether the world of a machine shows it: one that has to hold of one world at least is so there. Of the others nothing
    /// has to be shown, so each world shows them.
    pub fn is_shown<const S: usize>(&self, machine: &Machine<'_, S>) -> bool
        ensures { result ≡ shows machine.now.world self.now }
    {
        match self.scope {
            Scope::Always | Scope::Never => true,
            Scope::Once => self.form.holds(machine),
        }
    }
}

impl ClaimForm {
    /// Whether it holds of the world of a machine.
    pub fn holds<const S: usize>(&self, machine: &Machine<'_, S>) -> bool
        ensures { result ≡ form_holds machine.now.world self.now }
    {
        match self {
            ClaimForm::Word { address, test } => word_holds(machine.word(*address), *test),
            ClaimForm::Compared {
                address,
                relation,
                other,
                more,
            } => is_met(
                machine,
                &Expectation::Compared {
                    address: *address,
                    relation: *relation,
                    other: *other,
                    more: *more,
                },
            ),
            ClaimForm::Streams { test, groups } => {
                counts_so(*test, count_in_groups(machine, groups))
            }
        }
    }
}

/// Whether a word is there, and is so.
fn word_holds(word: Option<Word>, test: WordTest) -> bool
    ensures { result ≡ word_holds test word }
{
    match word {
        Some(word) => is_so(word, test),
        None => false,
    }
}

/// Whether a word is so.
fn is_so(word: Word, test: WordTest) -> bool
    ensures { result ≡ is_so test word }
{
    match test {
        WordTest::Is(value) => word.value() == value,
        WordTest::Above(value, order) => is_less(order, value, word.value()),
        WordTest::Below(value, order) => is_less(order, word.value(), value),
        WordTest::Full => word.is_full(),
        WordTest::Empty => !word.is_full(),
    }
}

/// Whether a number is less than another.
fn is_less(order: NumberOrder, one: u64, other: u64) -> bool
    ensures { result ≡ is_less order one other }
{
    match order {
        NumberOrder::Unsigned => one < other,
        NumberOrder::Signed => one.cast_signed() < other.cast_signed(),
    }
}

/// Whether a count is so. None is a count past all numbers of 64 bits.
fn counts_so(test: CountTest, count: Option<usize>) -> bool
    ensures { (n : ℕ) → MatchOption count (2 ^ 64 ≤ n) (λ k. k ≡ n) → result ≡ counts_so test n }
{
    match count {
        Some(count) => match test {
            CountTest::AtMost(most) => count <= most,
            CountTest::AtLeast(least) => least <= count,
        },
        None => match test {
            CountTest::AtMost(_) => false,
            CountTest::AtLeast(_) => true,
        },
    }
}

/// How many of the streams of some groups run at places of their groups' ranges, together; None where that is no number of
/// 64 bits.
#[tactic(auto, using(crate::proofs::Counting::counted_more, crate::proofs::Counting::counted_within))]
fn count_in_groups<const S: usize>(
    machine: &Machine<'_, S>,
    groups: &[StreamGroup],
) -> Option<usize>
    ensures { MatchOption result (2 ^ 64 ≤ count_in_groups machine.now.world groups.now)
        (λ n. n ≡ count_in_groups machine.now.world groups.now) }
{
    let mut count: usize = 0;
    for group in groups {
        count = count.checked_add(count_in_group(machine, group))?;
    }
    Some(count)
}

/// How many of the streams of a group run at places of its range.
fn count_in_group<const S: usize>(machine: &Machine<'_, S>, group: &StreamGroup) -> usize
    ensures { result ≡ count_in_group machine.now.world group.now }
{
    count_at_places(machine, &group.streams, group.first, group.last)
}

/// How many of some streams run at places of a range.
fn count_at_places<const S: usize>(
    machine: &Machine<'_, S>,
    streams: &[Step],
    first: u32,
    last: u32,
) -> usize
    ensures { result ≡ count_at_places machine.now.world first last streams.now }
{
    streams
        .iter()
        .copied()
        .filter(
            |step: &Step| -> bool
                ensures { result ≡ runs_at_places first last (stream_at machine.entry.now.world step.now) }
            { runs_at_places(stream(machine, *step), first, last) },
        )
        .count()
}

/// The stream that a step names, where the machine has it.
fn stream<'m, const S: usize>(machine: &'m Machine<'_, S>, step: Step) -> Option<&'m Stream>
    ensures { option_copied result ≡ stream_at machine.now.world step }
{
    if u16::from(step.s) >= machine.image().slim() {
        return None;
    }
    machine.stream(step.p, step.s)
}

/// Whether a stream is there, runs, and is to step at a place of a range.
fn runs_at_places(stream: Option<&Stream>, first: u32, last: u32) -> bool
    ensures { result ≡ runs_at_places first last (option_copied stream.entry) }
{
    match stream {
        Some(stream) => {
            let place = stream.ssw().pc;
            is_running(stream.status()) && first <= place && place <= last
        }
        None => false,
    }
}

/// Whether a stream of this status runs.
fn is_running(status: Status) -> bool
    ensures { result ≡ is_running_status status }
{
    match status {
        Status::Running => true,
        Status::Idle | Status::Stopped(_) => false,
    }
}
