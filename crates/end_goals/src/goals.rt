//! The first goal of a reader.

ghost use Rattle.std.specs.Prelude.{◌≡◌, ◌==◌, IfSome, Err};
ghost use Rattle.std.specs.List.{position};
ghost use Rattle.std.specs.Str.Parse.{ParsesUnsigned};
ghost use Rattle.end_goals.specs.GoalWords.{number_in, name_of, IsNoName};
ghost use Rattle.end_goals.specs.Goals.{is_goal, place_of_goal, place_of_number, is_yes, is_no};
ghost use Rattle.end_goals.specs.RightEnds.{is_breaking};
ghost use Rattle.end_goals.specs.Goals.{is_finished, is_stopped, is_deadlock, is_waiting, is_spinning, is_looping};

use crate::right_ends::{EndCriteria, is_breaking};
use end_kinds::EndKind;
use space_ends::{SpaceEnd, SpaceEndKind};

/// An end that a reader is to reach first: one of a number, or the first of its kind.
#[derive(Clone, Copy, Debug, PartialEq, Eq)]
pub enum EndGoal {
    /// The end of this number, counted from 1.
    Number(usize),
    /// An end that is right.
    Right,
    /// An end at which no stream runs and none was stopped by a trap, and which is not right.
    Wrong,
    /// An end at which no stream runs and none was stopped by a trap.
    Finished,
    /// An end at which no stream runs and some was stopped by a trap.
    Stopped,
    /// A deadlock.
    Deadlock,
    /// An end at which streams wait as they may.
    Waiting,
    /// Worlds in which some stream runs forever.
    Spinning,
    /// The same, where the program may go on so.
    Looping,
    /// Worlds that break a claim.
    Broken,
    /// A kind that no end is of.
    Unknown,
}

impl EndGoal {
    /// The goal that a word says: a number, or the name of a kind.
    pub fn of_word(word: &str) -> EndGoal
        ensures number { ParsesUnsigned 64 10 word.now (number_in result) }
        ensures named { IfSome (name_of result) (λ name. name ≡ word.now) }
        ensures unknown { result ≡ EndGoal.Unknown → IsNoName word.now }
    {
        match word.parse::<usize>() {
            Ok(number) => EndGoal::Number(number),
            Err(_) => goal_named(word),
        }
    }

    /// The place of the end that is the goal, among these: the one of its number, or the first that is one; None if there is
    /// none.
    pub fn place(self, ends: &[SpaceEnd], criteria: EndCriteria) -> Option<usize>
        ensures { result ≡ place_of_goal self criteria ends.now }
    {
        match self {
            EndGoal::Number(number) => place_of_number(number, ends.len()),
            EndGoal::Unknown => None,
            EndGoal::Right
            | EndGoal::Wrong
            | EndGoal::Finished
            | EndGoal::Stopped
            | EndGoal::Deadlock
            | EndGoal::Waiting
            | EndGoal::Spinning
            | EndGoal::Looping
            | EndGoal::Broken => self.first_place(ends, criteria),
        }
    }

    /// The place of the first end that is the goal, by what it is.
    fn first_place(self, ends: &[SpaceEnd], criteria: EndCriteria) -> Option<usize>
        ensures { result ≡ position (λ e. is_goal self criteria ends.now e) ends.now }
    {
        ends.iter().position(
            |end: &SpaceEnd| -> bool
                ensures { result ≡ is_goal self criteria ends.entry.now end.now }
            { self.is_goal(end, ends, criteria) },
        )
    }

    /// Whether an end, which is one of these, is the goal, by what it is.
    fn is_goal(self, end: &SpaceEnd, ends: &[SpaceEnd], criteria: EndCriteria) -> bool
        ensures { result ≡ is_goal self criteria ends.now end.now }
    {
        match self {
            EndGoal::Number(_) | EndGoal::Unknown => false,
            EndGoal::Right => is_yes(criteria.verdict(end, ends)),
            EndGoal::Wrong => is_finished(end.kind) && is_no(criteria.verdict(end, ends)),
            EndGoal::Finished => is_finished(end.kind),
            EndGoal::Stopped => is_stopped(end.kind),
            EndGoal::Deadlock => is_deadlock(end.kind),
            EndGoal::Waiting => is_waiting(end.kind),
            EndGoal::Spinning => is_spinning(end.kind),
            EndGoal::Looping => is_looping(end.kind),
            EndGoal::Broken => is_breaking(end.kind),
        }
    }
}

/// The goal of a name; `Unknown` where no goal has it.
fn goal_named(word: &str) -> EndGoal
    ensures named { IfSome (name_of result) (λ name. name ≡ word.now) }
    ensures unknown { result ≡ EndGoal.Unknown → IsNoName word.now }
    ensures no_number { number_in result ≡ Err result }
{
    if word == "right" {
        return EndGoal::Right;
    }
    if word == "wrong" {
        return EndGoal::Wrong;
    }
    if word == EndKind::Finished.json_name() {
        return EndGoal::Finished;
    }
    if word == EndKind::Stopped.json_name() {
        return EndGoal::Stopped;
    }
    if word == EndKind::Deadlock.json_name() {
        return EndGoal::Deadlock;
    }
    if word == EndKind::Waiting.json_name() {
        return EndGoal::Waiting;
    }
    if word == EndKind::Spinning.json_name() {
        return EndGoal::Spinning;
    }
    if word == EndKind::Looping.json_name() {
        return EndGoal::Looping;
    }
    if word == SpaceEndKind::Busy.json_name() {
        return EndGoal::Broken;
    }
    EndGoal::Unknown
}

/// The place of a number that counts from 1, among so many; None if it is none of theirs.
fn place_of_number(number: usize, count: usize) -> Option<usize>
    ensures { result ≡ place_of_number number count }
{
    if number == 0 || number > count {
        return None;
    }
    Some(number - 1)
}

/// Whether it is known, and so.
fn is_yes(verdict: Option<bool>) -> bool
    ensures { result ≡ is_yes verdict }
{
    match verdict {
        Some(is_right) => is_right,
        None => false,
    }
}

/// Whether it is known, and not so.
fn is_no(verdict: Option<bool>) -> bool
    ensures { result ≡ is_no verdict }
{
    match verdict {
        Some(is_right) => !is_right,
        None => false,
    }
}

/// Whether no stream runs, and none was stopped by a trap.
fn is_finished(kind: SpaceEndKind) -> bool
    ensures { result ≡ is_finished kind }
{
    matches!(kind, SpaceEndKind::End(EndKind::Finished))
}

/// Whether no stream runs, and some was stopped by a trap.
fn is_stopped(kind: SpaceEndKind) -> bool
    ensures { result ≡ is_stopped kind }
{
    matches!(kind, SpaceEndKind::End(EndKind::Stopped))
}

/// Whether it is a deadlock.
fn is_deadlock(kind: SpaceEndKind) -> bool
    ensures { result ≡ is_deadlock kind }
{
    matches!(kind, SpaceEndKind::End(EndKind::Deadlock))
}

/// Whether streams wait there as they may.
fn is_waiting(kind: SpaceEndKind) -> bool
    ensures { result ≡ is_waiting kind }
{
    matches!(kind, SpaceEndKind::End(EndKind::Waiting))
}

/// Whether some stream runs forever.
fn is_spinning(kind: SpaceEndKind) -> bool
    ensures { result ≡ is_spinning kind }
{
    matches!(kind, SpaceEndKind::End(EndKind::Spinning))
}

/// Whether some stream runs forever, and may.
fn is_looping(kind: SpaceEndKind) -> bool
    ensures { result ≡ is_looping kind }
{
    matches!(kind, SpaceEndKind::End(EndKind::Looping))
}
