//! What a line says.

ghost use Rattle.std.specs.Prelude.{◌≡◌, ◌||◌, ℕ, List, [], ◌∷◌, Ok, Err, IfOk, IfErr};
ghost use Rattle.expectation_files.specs.Words.{words_of};
ghost use Rattle.expectation_files.specs.Lines.{line_said, meaning_named, allowance_named, claim_named};
ghost use Rattle.expectation_files.specs.Lines.{work_named, rules_named};
ghost use Rattle.expectation_files.specs.Lines.{never_said, is_least};
ghost use Rattle.expectation_files.specs.Lines.{is_busy_alone, is_starved_alone, is_points, said_after, Rules};
ghost use Rattle.expectation_files.specs.OperandsSeen.{AreOperands};
ghost use Rattle.expectation_files.specs.Seen.{names_in, meaning_seen};
ghost use Rattle.expectation_files.specs.declared.faults.Unread.TheVariants as unread;
ghost use Rattle.expectation_files.specs.declared.faults.LineFault.{LineFault};

use crate::addresses::KnownNames;
use crate::claim_lines::read_claim;
use crate::end_lines::{read_finished, read_loops, read_register, read_stopped, read_waits};
use crate::faults::{LineFault, LineFaultKind, Unread};
use crate::leads_lines::{is_leading, read_leads};
use crate::marks::{CaseMark, mark_named};
use crate::overtaking_lines::{is_overtaking, read_overtaking};
use crate::rest_lines::{is_resting, read_rest};
use crate::rule_lines::{OperationVerb, read_entries, read_most_words, read_operations};
use crate::word_lines::{read_sum, read_word, read_words};
use crate::words::{Operands, next_word, read_operands, statement_of};
use crate::work_lines::{read_each, read_least};
use claims::{Claim, Rest, RunCondition, Scope};
use expectations::Expectation;
use image_file::Image;
use program_rules::ProgramRule;
use std::alloc::Global;
use work_rules::WorkRule;

/// What a line says.
#[derive(Drop)]
pub(crate) enum LineMeaning {
    /// Nothing: it has blanks and a comment at most.
    Nothing,
    /// What the end of a run has to be, or may be.
    End(Expectation),
    /// What has to hold of the states on the way.
    Claim(Claim),
    /// What the runs have to be.
    Runs(Vec<RunCondition>),
    /// Where a stream may rest.
    Rest(Rest),
    /// What the program itself has to be.
    Rules(Vec<ProgramRule>),
    /// Who does the work in each run.
    Work(Vec<WorkRule>),
    /// That no stream ever loops alone.
    NeverBusy,
    /// That no stream can wait forever.
    NeverStarved,
    /// How the case counts to which the file belongs.
    Mark(CaseMark),
}

impl LineMeaning {
    /// Whether it, or a line above, says how many points the case has.
    pub(crate) fn has_points_after(&self, has_points: bool) -> bool
        ensures { result ≡ (has_points || is_points (meaning_seen self.now)) }
    {
        has_points || self.is_points()
    }

    /// Whether it says how many points the case has.
    pub(crate) fn is_points(&self) -> bool
        ensures { result ≡ is_points (meaning_seen self.now) }
    {
        match self {
            LineMeaning::Mark(CaseMark::Points(_)) => true,
            LineMeaning::Mark(CaseMark::Hidden)
            | LineMeaning::Nothing
            | LineMeaning::End(_)
            | LineMeaning::Claim(_)
            | LineMeaning::Runs(_)
            | LineMeaning::Rest(_)
            | LineMeaning::Rules(_)
            | LineMeaning::Work(_)
            | LineMeaning::NeverBusy
            | LineMeaning::NeverStarved => false,
        }
    }
}

/// What a line says after others, of which one says how many points the case has, or none does.
pub(crate) fn read_line_after(
    alloc: Global,
    names: KnownNames<'_, '_, '_>,
    image: &Image,
    has_points: bool,
    line: &[u8],
) -> Result<LineMeaning, Unread>
    ensures means { IfOk result (λ m. said_after (names_in names.entry) image.now has_points line.now
        ≡ Ok (meaning_seen m)) }
    ensures fault { IfErr result (λ u. (f : LineFault) → u ≡ unread.Fault f
        → said_after (names_in names.entry) image.now has_points line.now ≡ Err f) }
{
    let meaning = read_line(alloc, names, image, line)?;
    if has_points && meaning.is_points() {
        return Err(Unread::Fault(LineFault::at(0, LineFaultKind::Again)));
    }
    Ok(meaning)
}

/// What a line says of a program with these names and this image.
#[tactic(auto, unfolding(crate::specs::Lines::line_said))]
fn read_line(
    alloc: Global,
    names: KnownNames<'_, '_, '_>,
    image: &Image,
    line: &[u8],
) -> Result<LineMeaning, Unread>
    ensures means { IfOk result (λ m. line_said (names_in names.entry) image.now line.now ≡ Ok (meaning_seen m)) }
    ensures fault { IfErr result (λ u. (f : LineFault) → u ≡ unread.Fault f
        → line_said (names_in names.entry) image.now line.now ≡ Err f) }
{
    match next_word(statement_of(line)) {
        Some((name, rest)) => {
            if is_resting(name, rest) {
                return Ok(LineMeaning::Rest(read_rest(alloc, names, image, name, rest)?));
            }
            if is_leading(rest) {
                return Ok(LineMeaning::Runs(read_leads(alloc, names, image, name, rest)?));
            }
            if is_overtaking(rest) {
                return Ok(LineMeaning::Runs(read_overtaking(alloc, names, image, name, rest)?));
            }
            read_named(alloc, names, image, name, rest)
        }
        None => Ok(LineMeaning::Nothing),
    }
}

/// What a line says that begins with this name.
fn read_named(
    alloc: Global,
    names: KnownNames<'_, '_, '_>,
    image: &Image,
    name: &[u8],
    text: &[u8],
) -> Result<LineMeaning, Unread>
    ensures means { IfOk result (λ m. meaning_named (names_in names.entry) image.now name.now (words_of text.now)
        ≡ Ok (meaning_seen m)) }
    ensures fault { IfErr result (λ u. (f : LineFault) → u ≡ unread.Fault f
        → meaning_named (names_in names.entry) image.now name.now (words_of text.now) ≡ Err f) }
{
    let operands = read_operands(text);
    if name == b"word".as_slice() {
        return Ok(LineMeaning::End(read_word(names, &operands)?));
    }
    if name == b"words".as_slice() {
        return Ok(LineMeaning::End(read_words(names, &operands)?));
    }
    if name == b"sum".as_slice() {
        return Ok(LineMeaning::End(read_sum(names, &operands)?));
    }
    if name == b"register".as_slice() {
        return Ok(LineMeaning::End(read_register(&operands)?));
    }
    if name == b"finished".as_slice() {
        return Ok(LineMeaning::End(read_finished(&operands)?));
    }
    if name == b"stopped".as_slice() {
        return Ok(LineMeaning::End(read_stopped(&operands)?));
    }
    read_allowance_named(alloc, names, image, name, text)
}

/// What a line says that begins with this name, which is none of those of what an end has to be.
fn read_allowance_named(
    alloc: Global,
    names: KnownNames<'_, '_, '_>,
    image: &Image,
    name: &[u8],
    text: &[u8],
) -> Result<LineMeaning, Unread>
    ensures means { IfOk result (λ m. allowance_named (names_in names.entry) image.now name.now (words_of text.now)
        ≡ Ok (meaning_seen m)) }
    ensures fault { IfErr result (λ u. (f : LineFault) → u ≡ unread.Fault f
        → allowance_named (names_in names.entry) image.now name.now (words_of text.now) ≡ Err f) }
{
    let operands = read_operands(text);
    if name == b"waits".as_slice() {
        return Ok(LineMeaning::End(read_waits(names, image, &operands)?));
    }
    if name == b"loops".as_slice() {
        return Ok(LineMeaning::End(read_loops(&operands)?));
    }
    read_claim_named(alloc, names, image, name, text)
}

/// What a line says that begins with this name, which is none of those of ends.
fn read_claim_named(
    alloc: Global,
    names: KnownNames<'_, '_, '_>,
    image: &Image,
    name: &[u8],
    text: &[u8],
) -> Result<LineMeaning, Unread>
    ensures means { IfOk result (λ m. claim_named (names_in names.entry) image.now name.now (words_of text.now)
        ≡ Ok (meaning_seen m)) }
    ensures fault { IfErr result (λ u. (f : LineFault) → u ≡ unread.Fault f
        → claim_named (names_in names.entry) image.now name.now (words_of text.now) ≡ Err f) }
{
    if name == b"always".as_slice() {
        return Ok(LineMeaning::Claim(read_claim(alloc, names, image, Scope::Always, text)?));
    }
    if name == b"never".as_slice() {
        return read_never(alloc, names, image, text);
    }
    if name == b"some".as_slice() {
        return Ok(LineMeaning::Claim(read_claim(alloc, names, image, Scope::Once, text)?));
    }
    read_work_named(alloc, names, name, text)
}

/// What a line says that begins with this name, which is none of those of ends and claims.
fn read_work_named(
    alloc: Global,
    names: KnownNames<'_, '_, '_>,
    name: &[u8],
    text: &[u8],
) -> Result<LineMeaning, Unread>
    ensures means { IfOk result (λ m. work_named (names_in names.entry) name.now (words_of text.now)
        ≡ Ok (meaning_seen m)) }
    ensures fault { IfErr result (λ u. (f : LineFault) → u ≡ unread.Fault f
        → work_named (names_in names.entry) name.now (words_of text.now) ≡ Err f) }
{
    if name == b"each".as_slice() {
        return Ok(LineMeaning::Work(read_each(alloc, names, text)?));
    }
    if name == b"at".as_slice() && is_least(text) {
        return Ok(LineMeaning::Work(read_least(alloc, names, &read_operands(text))?));
    }
    read_rules_named(alloc, name, text)
}

/// Whether a text begins with the word `least`.
fn is_least(text: &[u8]) -> bool
    ensures { result ≡ is_least (words_of text.now) }
{
    match next_word(text) {
        Some((word, _)) => word == b"least".as_slice(),
        None => false,
    }
}

/// What follows `never`: `busy` alone, `starved` alone, or a claim.
fn read_never(
    alloc: Global,
    names: KnownNames<'_, '_, '_>,
    image: &Image,
    text: &[u8],
) -> Result<LineMeaning, Unread>
    ensures means { IfOk result (λ m. never_said (names_in names.entry) image.now (words_of text.now)
        ≡ Ok (meaning_seen m)) }
    ensures fault { IfErr result (λ u. (f : LineFault) → u ≡ unread.Fault f
        → never_said (names_in names.entry) image.now (words_of text.now) ≡ Err f) }
{
    let operands = read_operands(text);
    if is_busy(&operands) {
        return Ok(LineMeaning::NeverBusy);
    }
    if is_starved(&operands) {
        return Ok(LineMeaning::NeverStarved);
    }
    Ok(LineMeaning::Claim(read_claim(alloc, names, image, Scope::Never, text)?))
}

/// Whether operands are the word `busy` alone.
fn is_busy(operands: &Operands) -> bool
    ensures { (os : List (List ℕ)) → AreOperands operands.now os → result ≡ is_busy_alone os }
{
    match *operands {
        Operands::One(word) => word == b"busy".as_slice(),
        Operands::Zero | Operands::Two(..) | Operands::Three(..) | Operands::More(..) => false,
    }
}

/// Whether operands are the word `starved` alone.
fn is_starved(operands: &Operands) -> bool
    ensures { (os : List (List ℕ)) → AreOperands operands.now os → result ≡ is_starved_alone os }
{
    match *operands {
        Operands::One(word) => word == b"starved".as_slice(),
        Operands::Zero | Operands::Two(..) | Operands::Three(..) | Operands::More(..) => false,
    }
}

/// What a line says that begins with this name, which is none of those of ends, claims and work.
fn read_rules_named(alloc: Global, name: &[u8], text: &[u8]) -> Result<LineMeaning, Unread>
    ensures means { IfOk result (λ m. rules_named name.now (words_of text.now) ≡ Ok (meaning_seen m)) }
    ensures fault { IfErr result (λ u. (f : LineFault) → u ≡ unread.Fault f
        → rules_named name.now (words_of text.now) ≡ Err f) }
{
    if name == b"entries".as_slice() {
        return one_rule(alloc, read_entries(&read_operands(text))?);
    }
    if name == b"at".as_slice() {
        return one_rule(alloc, read_most_words(&read_operands(text))?);
    }
    if name == b"forbid".as_slice() {
        return Ok(LineMeaning::Rules(read_operations(alloc, OperationVerb::Forbid, text)?));
    }
    if name == b"require".as_slice() {
        return Ok(LineMeaning::Rules(read_operations(alloc, OperationVerb::Require, text)?));
    }
    Ok(LineMeaning::Mark(mark_named(name, text)?))
}

/// A line that says this one rule.
fn one_rule(alloc: Global, rule: ProgramRule) -> Result<LineMeaning, Unread>
    ensures means { IfOk result (λ m. meaning_seen m ≡ Rules (rule ∷ [])) }
    ensures fault { IfErr result (λ u. u ≡ unread.NoMemory) }
{
    let mut rules = Vec::new(alloc);
    rules.push(rule)?;
    Ok(LineMeaning::Rules(rules))
}
