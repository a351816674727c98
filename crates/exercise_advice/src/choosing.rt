//! Which line of advice is said.

ghost use Rattle.std.specs.Prelude.{◌≡◌, count_by};
ghost use Rattle.std.specs.List.{position};
ghost use Rattle.exercise_advice.specs.Facts.{fits};
ghost use Rattle.exercise_advice.specs.Choosing.{is_said_of, all_hold, holds};

use crate::facts::SoughtFact;
use crate::lines::AdviceLine;
use crate::observations::Observation;
use judgements::VerdictKind;

/// The place of the first line that is said of a program with this verdict, which these observations show: the line is of the
/// same verdict, and all of its facts hold. None if no line is.
pub fn first_fitting(
    lines: &[AdviceLine],
    verdict: VerdictKind,
    seen: &[Observation],
) -> Option<usize>
    ensures { result ≡ position (is_said_of verdict seen.now) lines.now }
{
    lines.iter().position(
        |line: &AdviceLine| -> bool
            ensures { result ≡ is_said_of verdict seen.entry.now line.now }
        { is_said_of(verdict, seen, line) },
    )
}

/// Whether a line is said of a program with this verdict.
fn is_said_of(verdict: VerdictKind, seen: &[Observation], line: &AdviceLine) -> bool
    ensures { result ≡ is_said_of verdict seen.now line.now }
{
    line.verdict.severity() == verdict.severity() && all_hold(seen, &line.facts)
}

/// Whether each of some facts holds.
fn all_hold(seen: &[Observation], facts: &[SoughtFact]) -> bool
    ensures { result ≡ all_hold seen.now facts.now }
{
    facts.iter().all(
        |fact: &SoughtFact| -> bool
            ensures { result ≡ holds seen.entry.now fact.now }
        { holds(seen, *fact) },
    )
}

/// Whether a fact holds: as many observations fit it as are to, or fewer do where they are not to.
fn holds(seen: &[Observation], fact: SoughtFact) -> bool
    ensures { result ≡ holds seen.now fact }
{
    let is_so = fact.times <= times_seen(seen, fact);
    if fact.is_wanted { is_so } else { !is_so }
}

/// How many observations fit a fact.
fn times_seen(seen: &[Observation], fact: SoughtFact) -> usize
    ensures { result ≡ count_by (fits fact) seen.now }
{
    let mut times = 0;
    for one in seen {
        if fact.fits(*one) {
            times += 1;
        }
    }
    times
}
