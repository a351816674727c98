//! What is known of a submission by one case.

ghost use Rattle.std.specs.Prelude.{◌≡◌, ◌⊎◌, not, false, IsTrue, IfOk, IfErr, IfNone, None};
ghost use Rattle.std.specs.List.{position};
ghost use Rattle.program_rules.specs.Keeping.{is_kept};
ghost use Rattle.expectation_files.specs.Judged.{are_rules_kept};
ghost use Rattle.expectation_files.specs.OfProgram.{is_of_program};
ghost use Rattle.judgements.specs.Cases.{seeds_of, may_be_of_program, SpeaksOfGivenIn};
ghost use Rattle.judgements.specs.Faults.{IsCaseFault, IsLinesFault, IsSearchFault};
ghost use Rattle.judgements.specs.Known.{has_work, known_by};
ghost use Rattle.judgements.specs.Right.{IsRightAsAsked, IsWorkDone};
ghost use Rattle.judgements.specs.Statuses.{IsStatusOfRun};
ghost use Rattle.judgements.specs.Shown.{IsCaseJudged, IsCaseKnown, IsRunFor, IsShownBy, IsNotGivenBy, judged_as, kind_without_name};

use crate::by_schedules::{JudgedProgram, judged_by_schedules};
use crate::by_seeds::judged_by_seeds;
use crate::by_work::with_work;
use crate::case_judgements::{CaseJudgement, Reason};
use crate::cases::{AskedJudging, Case, Submission, image_by, image_or};
use crate::judge_faults::CaseFault;
use crate::knowledge::Known;
use crate::requirements::{line_not_given, required_by};
use crate::thorough::judged_thoroughly;
use crate::verdict_kinds::VerdictKind;
use case_cells::name_lacking;
use expectation_files::{FileFault, LineFault, LineFaultKind, line_of, word_of};
use program_rules::first_broken;
use program_searches::Console;
use std::alloc::Global;
use std::io::Write;
use std::thread::Threads;
use std::time::Clock;

/// What is known of a submission with the cells of a case, by that case, with the status that it comes to.
pub(crate) fn judged_by_case<X: Threads + Sync, C: Clock, E: Write>(
    rt: &X,
    alloc: Global,
    asked: AskedJudging,
    case: &Case,
    submission: Submission<'_>,
    console: &mut Console<'_, C, E>,
) -> Result<CaseJudgement, CaseFault>
    ensures known { IfOk result (λ j. IsCaseJudged asked submission.entry.image.now submission.entry.text.now case.now j) }
    ensures fault { IfErr result (λ f. IsCaseFault
        asked submission.entry.image.now submission.entry.text.now case.now f) }
{
    let known = known_by_case(rt, alloc, asked, case, submission, console)?;
    Ok(known.with_status())
}

/// What is known of a submission with the cells of a case, by that case.
fn known_by_case<X: Threads + Sync, C: Clock, E: Write>(
    rt: &X,
    alloc: Global,
    asked: AskedJudging,
    case: &Case,
    submission: Submission<'_>,
    console: &mut Console<'_, C, E>,
) -> Result<CaseJudgement, CaseFault>
    ensures known { IfOk result (λ j. IsCaseKnown asked submission.entry.image.now submission.entry.text.now case.now j) }
    ensures fault { IfErr result (λ f. IsCaseFault
        asked submission.entry.image.now submission.entry.text.now case.now f) }
    ensures status { IfOk result (λ j. IsStatusOfRun asked j) }
{
    if let Some(name) = name_lacking(alloc, asked.needs_names, &case.given, submission.text)? {
        return Ok(judged_without_name(alloc, asked, name));
    }
    let given = image_by(alloc, submission.image, submission.text, case)?;
    let image = image_or(&given, submission.image);
    match required_by(alloc, case, image, submission.text) {
        Ok(required) => {
            let judged = JudgedProgram {
                image,
                required: &required,
            };
            judged_by_lines(rt, alloc, asked, case, submission.text, judged, console)
        }
        Err(FileFault::Line { line, fault }) if is_of_program(case, line, fault) => {
            let reason = Reason::Absent { line, fault };
            Ok(CaseJudgement::plain(alloc, VerdictKind::NotJudged, Known::NOTHING, reason))
        }
        Err(fault) => Err(CaseFault::of_file(fault)),
    }
}

/// What is known of a submission that lacks the words of the name at this place.
fn judged_without_name(alloc: Global, asked: AskedJudging, name: usize) -> CaseJudgement
    ensures kind { result.kind ≡ kind_without_name asked.needs_names }
    ensures known { result.known ≡ known_by None None }
    ensures reason { result.reason ≡ Reason.Lacking name }
    ensures status { IsStatusOfRun asked result }
{
    let reason = Reason::Lacking { name };
    CaseJudgement::plain(alloc, kind_without_name(asked), Known::NOTHING, reason)
}

/// What is known of the program that a case makes of a submission of this text, and of which it requires this: nothing, where
/// a line of the case speaks of a word that the case does not give.
fn judged_by_lines<X: Threads + Sync, C: Clock, E: Write>(
    rt: &X,
    alloc: Global,
    asked: AskedJudging,
    case: &Case,
    text: &[u8],
    judged: JudgedProgram<'_>,
    console: &mut Console<'_, C, E>,
) -> Result<CaseJudgement, CaseFault>
    ensures given { IfOk result (λ j. j.kind ≡ VerdictKind.Right → SpeaksOfGivenIn
        judged.entry.image.now text.entry.now case.entry.now case.entry.now.cells judged.entry.required.now) }
    ensures right { IfOk result (λ j. j.kind ≡ VerdictKind.Right
        → IsRightAsAsked asked.explored (seeds_of asked) judged.entry.image.now judged.entry.required.now) }
    ensures kept { IfOk result (λ j. j.kind ≡ VerdictKind.Right
        → IsTrue (are_rules_kept judged.entry.image.now judged.entry.required.now.rules.items)) }
    ensures work { IfOk result (λ j. j.kind ≡ VerdictKind.Right
        → IsWorkDone judged.entry.image.now judged.entry.required.now (seeds_of asked)) }
    ensures shown { IfOk result (λ j.
        IsShownBy (judged_as asked judged.entry.image.now judged.entry.required.now) j
        ⊎ IsNotGivenBy judged.entry.image.now text.entry.now case.entry.now judged.entry.required.now j) }
    ensures run { IfOk result (λ j.
        IsRunFor (judged_as asked judged.entry.image.now judged.entry.required.now) asked.is_thorough
        (has_work judged.entry.required.now) j
        ⊎ IsNotGivenBy judged.entry.image.now text.entry.now case.entry.now judged.entry.required.now j) }
    ensures fault { IfErr result (λ f. IsLinesFault asked.explored judged.entry.image.now text.entry.now case.entry.now f) }
    ensures status { IfOk result (λ j. IsStatusOfRun asked j) }
{
    if let Some(line) = line_not_given(alloc, case, judged.image, text, judged.required)? {
        let reason = Reason::NotGiven { line };
        return Ok(CaseJudgement::plain(alloc, VerdictKind::NotJudged, Known::NOTHING, reason));
    }
    judged_program(rt, alloc, asked, judged, console)
}

/// What a submission is that lacks a name of a case's words.
fn kind_without_name(asked: AskedJudging) -> VerdictKind
    ensures { result ≡ kind_without_name asked.needs_names }
{
    if asked.needs_names {
        VerdictKind::SourceFault
    } else {
        VerdictKind::NotJudged
    }
}

/// Whether a line of a case may be right of another program: it names what this one lacks, or words that stand the other
/// way round here.
fn is_of_program(case: &Case, line: usize, fault: LineFault) -> bool
    ensures only { IsTrue result → IsTrue (may_be_of_program fault.kind) }
    ensures is { IsTrue (is_of_program fault.kind) → IsTrue result }
{
    let is_of_names = fault.kind == LineFaultKind::Range
        && has_name(word_of(line_of(&case.expected, line), fault.word).as_bytes());
    is_of_names || fault.kind.is_of_program()
}

/// Whether one end of a range, perhaps in brackets, is a name: it begins with a letter or `_`, and no number does.
fn has_name(range: &[u8]) -> bool {
    let mut before = b'.';
    for byte in range {
        let begins = before == b'.' || before == b'[';
        if begins && (byte.is_ascii_alphabetic() || *byte == b'_') {
            return true;
        }
        before = *byte;
    }
    false
}

/// What is known of a program of which this is required: by the first rule of programs that it breaks, else by its schedules,
/// and of those of seeds also by who does the work there.
fn judged_program<X: Threads + Sync, C: Clock, E: Write>(
    rt: &X,
    alloc: Global,
    asked: AskedJudging,
    judged: JudgedProgram<'_>,
    console: &mut Console<'_, C, E>,
) -> Result<CaseJudgement, CaseFault>
    ensures right { IfOk result (λ j. j.kind ≡ VerdictKind.Right
        → IsRightAsAsked asked.explored (seeds_of asked) judged.entry.image.now judged.entry.required.now) }
    ensures kept { IfOk result (λ j. j.kind ≡ VerdictKind.Right
        → IsTrue (are_rules_kept judged.entry.image.now judged.entry.required.now.rules.items)) }
    ensures work { IfOk result (λ j. j.kind ≡ VerdictKind.Right
        → IsWorkDone judged.entry.image.now judged.entry.required.now (seeds_of asked)) }
    ensures shown { IfOk result (λ j. IsShownBy (judged_as asked judged.entry.image.now judged.entry.required.now) j) }
    ensures run { IfOk result (λ j. IsRunFor (judged_as asked judged.entry.image.now judged.entry.required.now)
        asked.is_thorough (has_work judged.entry.required.now) j) }
    ensures fault { IfErr result (λ f. IsSearchFault asked.explored f) }
    ensures status { IfOk result (λ j. IsStatusOfRun asked j) }
{
    if let Some(rule) = broken_rule(judged) {
        let reason = Reason::Rule(rule);
        return Ok(CaseJudgement::plain(alloc, VerdictKind::Wrong, Known::NOTHING, reason));
    }
    let judgement = judged_as_asked(rt, alloc, asked, judged, console)?;
    Ok(with_work(rt, alloc, asked, judged, judgement)?)
}

/// What is known of a program by its ends and claims: by every schedule, if that is asked, else by random ones.
fn judged_as_asked<X: Threads + Sync, C: Clock, E: Write>(
    rt: &X,
    alloc: Global,
    asked: AskedJudging,
    judged: JudgedProgram<'_>,
    console: &mut Console<'_, C, E>,
) -> Result<CaseJudgement, CaseFault>
    ensures right { IfOk result (λ j. j.kind ≡ VerdictKind.Right
        → IsRightAsAsked asked.explored (seeds_of asked) judged.entry.image.now judged.entry.required.now) }
    ensures shown { IfOk result (λ j. IsShownBy (judged_as asked judged.entry.image.now judged.entry.required.now) j) }
    ensures run { IfOk result (λ j. IsRunFor (judged_as asked judged.entry.image.now judged.entry.required.now)
        asked.is_thorough false j) }
    ensures fault { IfErr result (λ f. IsSearchFault asked.explored f) }
    ensures status { IfOk result (λ j. IsStatusOfRun asked j) }
{
    match asked.explored {
        Some(bounds) if asked.is_thorough => {
            Ok(judged_thoroughly(rt, alloc, asked, bounds, judged, console)?)
        }
        Some(bounds) => Ok(judged_by_schedules(rt, alloc, asked, bounds, judged, console)?),
        None => Ok(judged_by_seeds(rt, alloc, asked, judged.image, judged.required)?),
    }
}

/// The first rule of programs that a program breaks, among those that are required; None where it keeps all.
fn broken_rule(judged: JudgedProgram<'_>) -> Option<usize>
    ensures first { result ≡ position (λ r. not (is_kept judged.entry.image.now r)) judged.entry.required.now.rules.items }
    ensures kept { IfNone result
        (IsTrue (are_rules_kept judged.entry.image.now judged.entry.required.now.rules.items)) }
{
    match first_broken(judged.image, judged.required.rules()) {
        Some(rule) => Some(rule),
        None => None,
    }
}
