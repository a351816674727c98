//! The reader of files of advice.

use crate::facts::SoughtFact;
use crate::lines::{AdviceFault, AdviceFaultKind, AdviceLine};
use crate::observations::ObservationKind;
use judgements::VerdictKind;
use std::alloc::{AllocError, Global};
use std::str;

/// The verdicts on programs that are not right, or that a case does not judge.
const VERDICTS: [VerdictKind; 7] = [
    VerdictKind::Trap,
    VerdictKind::Deadlock,
    VerdictKind::Wrong,
    VerdictKind::RanOutOfSteps,
    VerdictKind::Spins,
    VerdictKind::NotJudged,
    VerdictKind::NotDecided,
];

/// A word that is wrong.
#[derive(Clone, Copy)]
struct WrongWord<'t> {
    /// What is wrong.
    kind: AdviceFaultKind,
    /// The word.
    word: &'t str,
}

impl WrongWord<'_> {
    /// It, as the fault of the line of this number.
    fn at(self, alloc: Global, number: usize) -> Result<AdviceFault, AllocError> {
        Ok(AdviceFault::Line {
            number,
            kind: self.kind,
            word: String::from_str(alloc, self.word)?,
        })
    }
}

/// The lines of a file of advice, each `VERDICT: SENTENCE` or `VERDICT, FACT, ..: SENTENCE`, in their order. Empty lines, and
/// lines that begin with `#`, say nothing. Or what is wrong with the first line that can't be read.
pub fn read_advice(alloc: Global, text: &[u8]) -> Result<Vec<AdviceLine>, AdviceFault> {
    let mut lines = Vec::new(alloc);
    for (index, line) in text.split(|byte| *byte == b'\n').enumerate() {
        let number = index.saturating_add(1);
        let Ok(line) = str::from_utf8(line) else {
            let wrong = WrongWord {
                kind: AdviceFaultKind::Bytes,
                word: "",
            };
            return Err(wrong.at(alloc, number)?);
        };
        if !line.trim().is_empty() && !line.starts_with('#') {
            lines.push(read_line(alloc, number, line)?)?;
        }
    }
    Ok(lines)
}

/// What the line of this number says.
fn read_line(alloc: Global, number: usize, line: &str) -> Result<AdviceLine, AdviceFault> {
    let Some((head, sentence)) = line.split_once(": ") else {
        let wrong = WrongWord {
            kind: AdviceFaultKind::Sentence,
            word: "",
        };
        return Err(wrong.at(alloc, number)?);
    };
    let (word, rest) = parted(head);
    let Some(verdict) = verdict_named(word) else {
        let wrong = WrongWord {
            kind: AdviceFaultKind::Verdict,
            word,
        };
        return Err(wrong.at(alloc, number)?);
    };
    Ok(AdviceLine {
        verdict,
        facts: read_facts(alloc, number, rest)?,
        sentence: String::from_str(alloc, sentence)?,
    })
}

/// What stands before the first comma of a text, and what after it, if there is one.
fn parted(text: &str) -> (&str, Option<&str>) {
    match text.split_once(", ") {
        Some((before, after)) => (before, Some(after)),
        None => (text, None),
    }
}

/// The verdict of a word; None where none of a program that runs is called so.
fn verdict_named(word: &str) -> Option<VerdictKind> {
    VERDICTS
        .iter()
        .copied()
        .find(|verdict: &VerdictKind| verdict.word() == word)
}

/// The facts of the line of this number, with commas between them.
fn read_facts(
    alloc: Global,
    number: usize,
    text: Option<&str>,
) -> Result<Vec<SoughtFact>, AdviceFault> {
    let mut facts = Vec::new(alloc);
    let Some(text) = text else {
        return Ok(facts);
    };
    for fact in text.split(',') {
        match read_fact(fact.trim()) {
            Ok(fact) => facts.push(fact)?,
            Err(wrong) => return Err(wrong.at(alloc, number)?),
        }
    }
    Ok(facts)
}

/// The fact that a text says: its name, after `not` perhaps, and its parts.
fn read_fact(text: &str) -> Result<SoughtFact, WrongWord<'_>> {
    let (is_wanted, rest) = match text.strip_prefix("not ") {
        Some(rest) => (false, rest),
        None => (true, text),
    };
    let mut words = rest.split(' ');
    let name = words.next().unwrap_or("");
    let Some(kind) = ObservationKind::named(name) else {
        return Err(WrongWord {
            kind: unknown(name),
            word: name,
        });
    };
    let mut fact = SoughtFact::of(kind, is_wanted);
    for word in words {
        match fact.with_word(word) {
            Ok(more) => fact = more,
            Err(kind) => return Err(WrongWord { kind, word }),
        }
    }
    Ok(fact)
}

/// What is wrong with a name that no fact has: it is none, or nothing stands there.
fn unknown(name: &str) -> AdviceFaultKind {
    if name.is_empty() {
        AdviceFaultKind::Sentence
    } else {
        AdviceFaultKind::Fact
    }
}
