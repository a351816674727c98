//! The rows of the cases of a submission.

ghost use Rattle.std.specs.Prelude.{◌≡◌, IfOk};
ghost use Rattle.expectation_files.specs.Marks.{marks_in};
ghost use Rattle.submission_rows.specs.Rows.{CaseHead, head_in, head_of, heads_in, heads_of};

use crate::absent_words::{AbsentLine, add_absent};
use crate::case_words::{CaseNotation, CaseText};
use crate::given_images::image_given;
use crate::judging::Grading;
use crate::name_words::{add_lacking, add_not_given};
use crate::report_lines::CaseLines;
use crate::row_ends::add_ends;
use expectation_files::{Requirements, case_marks};
use expectation_messages::parts::Program;
use grade_rows::judges::{Case, CaseJudgement, Known, Reason, required_by};
use grade_rows::{CaseRow, CountedEnd};
use image_file::Image;
use lab_texts::{Notation, ProgramNames};
use std::alloc::{AllocError, Global};

/// The rows of a program by the judgements on it, one a case, in their order. The ends of each case are added, where they are
/// asked for.
pub(crate) fn case_rows(
    alloc: Global,
    grading: &Grading<'_, '_>,
    program: &Program,
    judgements: &[CaseJudgement],
) -> Result<Vec<CaseRow>, AllocError>
    ensures { IfOk result (λ rows. heads_in rows.items ≡ heads_of grading.now.cases.now judgements.now) }
{
    let mut rows = Vec::new(alloc);
    let mut cases = grading.cases;
    let mut judged = judgements;
    while let [judgement, tail @ ..] = judged {
        let [case, others @ ..] = cases else {
            return Ok(rows);
        };
        rows.push(case_row(alloc, grading, case, program, judgement)?)?;
        judged = tail;
        cases = others;
    }
    Ok(rows)
}

/// The row of a program by the judgement of a case.
fn case_row(
    alloc: Global,
    grading: &Grading<'_, '_>,
    case: &Case,
    program: &Program,
    judgement: &CaseJudgement,
) -> Result<CaseRow, AllocError>
    ensures { IfOk result (λ row. head_in row ≡ head_of case.now judgement.now) }
{
    let shown = text_by_case(alloc, grading, case, program, judgement)?;
    let marks = case_marks(&case.expected);
    Ok(CaseRow {
        name: shown.name,
        is_hidden: marks.is_hidden,
        points: marks.points,
        kind: judgement.kind,
        known: known_as_asked(grading, judgement.known),
        witness: shown.witness,
        missed: shown.missed,
        words: shown.words,
        finding: shown.finding,
        status: judgement.status,
    })
}

/// A copy of a case's name; None where it is the only one.
fn name_of(alloc: Global, case: &Case) -> Result<Option<String>, AllocError> {
    match &case.name {
        Some(name) => Ok(Some(String::from_str(alloc, name)?)),
        None => Ok(None),
    }
}

/// What was looked at, with all seeds where the ends of all are counted.
pub(crate) fn known_as_asked(grading: &Grading<'_, '_>, known: Known) -> Known {
    let mut known = known;
    if grading.request.counts_all && known.seeds.is_some() {
        known.seeds = Some(grading.request.seeds);
    }
    known
}

/// What decides the judgement of a program by a case, in words.
fn text_by_case(
    alloc: Global,
    grading: &Grading<'_, '_>,
    case: &Case,
    program: &Program,
    judgement: &CaseJudgement,
) -> Result<CaseText, AllocError> {
    let mut text = CaseText::new(alloc);
    text.name = name_of(alloc, case)?;
    text.witness = judgement.witness(alloc)?;
    add_text_by_case(alloc, grading, case, program, judgement, &mut text)?;
    Ok(text)
}

/// Writes it.
fn add_text_by_case(
    alloc: Global,
    grading: &Grading<'_, '_>,
    case: &Case,
    program: &Program,
    judgement: &CaseJudgement,
    text: &mut CaseText,
) -> Result<(), AllocError> {
    let given = image_given(alloc, program, case)?;
    let shown = ShownCase {
        case,
        image: given.as_ref().unwrap_or(&program.image),
        text: &program.text,
        judgement,
    };
    shown.add_by_reason(alloc, grading, text)
}

/// Adds the ends of a program by a case, which were counted; none where it was not judged.
pub(crate) fn add_ends_by_case(
    alloc: Global,
    grading: &Grading<'_, '_>,
    case: &Case,
    program: &Program,
    judgement: &CaseJudgement,
    ends: &mut Vec<CountedEnd>,
) -> Result<(), AllocError> {
    if let Reason::Absent { .. }
    | Reason::Lacking { .. }
    | Reason::NotGiven { .. } = &judgement.reason
    {
        return Ok(());
    }
    let given = image_given(alloc, program, case)?;
    let shown = ShownCase {
        case,
        image: given.as_ref().unwrap_or(&program.image),
        text: &program.text,
        judgement,
    };
    shown.add_counted(alloc, grading, ends)
}

/// A program that a case makes of a submission, and what is known of it.
#[derive(Clone, Copy)]
struct ShownCase<'a> {
    case: &'a Case,
    image: &'a Image,
    text: &'a [u8],
    judgement: &'a CaseJudgement,
}

impl ShownCase<'_> {
    /// Adds what decides, or what the submission lacks.
    fn add_by_reason(
        self,
        alloc: Global,
        grading: &Grading<'_, '_>,
        text: &mut CaseText,
    ) -> Result<(), AllocError> {
        if let Reason::Absent { line, fault } = &self.judgement.reason {
            let absent = AbsentLine {
                case: self.case,
                line: *line,
                fault: *fault,
            };
            return add_absent(alloc, absent, self.image, self.text, text);
        }
        if let Reason::Lacking { name } = &self.judgement.reason {
            return add_lacking(alloc, self.case, *name, self.text, text);
        }
        if let Reason::NotGiven { line } = &self.judgement.reason {
            return add_not_given(alloc, self.case, *line, text);
        }
        self.add_text(alloc, grading, text)
    }

    /// Adds what decides.
    fn add_text(
        self,
        alloc: Global,
        grading: &Grading<'_, '_>,
        text: &mut CaseText,
    ) -> Result<(), AllocError> {
        let required = self.required(alloc)?;
        let names = ProgramNames::of(alloc, self.text)?;
        let notation = self.notation(grading, &required, &names);
        notation.add_reason(alloc, self.judgement, text)
    }

    /// Adds the ends that were counted.
    fn add_counted(
        self,
        alloc: Global,
        grading: &Grading<'_, '_>,
        ends: &mut Vec<CountedEnd>,
    ) -> Result<(), AllocError> {
        let required = self.required(alloc)?;
        let names = ProgramNames::of(alloc, self.text)?;
        let notation = self.notation(grading, &required, &names);
        add_ends(alloc, notation, self.judgement, ends)
    }

    /// What the case requires. It was read before, so only memory can be refused here.
    fn required(self, alloc: Global) -> Result<Requirements, AllocError> {
        match required_by(alloc, self.case, self.image, self.text) {
            Ok(required) => Ok(required),
            Err(_) => Err(AllocError),
        }
    }
}

impl<'a> ShownCase<'a> {
    /// How it is written, by what is required and by these names.
    fn notation<'t>(
        self,
        grading: &Grading<'_, '_>,
        required: &'a Requirements,
        names: &'a ProgramNames<'t>,
    ) -> CaseNotation<'a, 't> {
        CaseNotation {
            image: self.image,
            lines: CaseLines {
                case: self.case,
                required,
            },
            notation: Notation {
                names,
                style: grading.style,
            },
            most: grading.request.most,
        }
    }
}
