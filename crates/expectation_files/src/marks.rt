//! What a file of expectations says of the case that it belongs to ("Points and hidden cases", docs/LAB_REFERENCE.md).

ghost use Rattle.std.specs.Prelude.{◌≡◌, ℕ, List};
ghost use Rattle.text_parts.specs.Pieces.{pieces};
ghost use Rattle.expectation_files.specs.Words.{words_of, words_on};
ghost use Rattle.expectation_files.specs.OperandsSeen.{AreOperands};
ghost use Rattle.expectation_files.specs.Marks.{mark_named, points_said, points_of, hidden_said, marks_with, marks_by, marks_in};

use crate::faults::{LineFault, LineFaultKind, LineForm};
use crate::values::points_named;
use crate::words::{Operands, next_word, read_operands, statement_of};
use text_parts::cut;

/// What a line says of the case.
#[derive(Clone, Copy, Debug, PartialEq, Eq)]
pub(crate) enum CaseMark {
    /// How many points a submission earns that is right by it.
    Points(u32),
    /// That students see no value of it.
    Hidden,
}

/// What a file says of the case that it belongs to.
#[derive(Clone, Copy, Debug, PartialEq, Eq)]
pub struct CaseMarks {
    /// How many points a submission earns that is right by it.
    pub points: u32,
    /// Whether students see no value of it.
    pub is_hidden: bool,
}

impl CaseMarks {
    /// Those of a file without such a line: one point, and not hidden.
    pub const USUAL: CaseMarks = CaseMarks {
        points: 1,
        is_hidden: false,
    };
}

/// What a text says of the case that it belongs to, whatever the program, by its lines `points` and `hidden` that have no
/// fault.
#[tactic(auto, unfolding(crate::specs::Marks::marks_in))]
pub fn case_marks(text: &[u8]) -> CaseMarks
    ensures { result ≡ marks_in text.now }
{
    let mut marks = CaseMarks::USUAL;
    let mut rest = Some(text);
    while let Some(bytes) = rest {
        let (line, following) = cut(bytes, b'\n');
        marks = marks_by(marks, line);
        rest = following;
    }
    marks
}

/// These marks, and what a line says.
fn marks_by(marks: CaseMarks, line: &[u8]) -> CaseMarks
    ensures { result ≡ marks_by marks (words_on line.now) }
{
    match next_word(statement_of(line)) {
        Some((name, rest)) => marks_with(marks, mark_named(name, rest)),
        None => marks,
    }
}

/// These marks, and what was read of a line.
fn marks_with(marks: CaseMarks, said: Result<CaseMark, LineFault>) -> CaseMarks
    ensures { result ≡ marks_with marks said }
{
    match said {
        Ok(CaseMark::Points(points)) => CaseMarks { points, ..marks },
        Ok(CaseMark::Hidden) => CaseMarks {
            is_hidden: true,
            ..marks
        },
        Err(_) => marks,
    }
}

/// What a line that begins with this name says of the case.
pub(crate) fn mark_named(name: &[u8], text: &[u8]) -> Result<CaseMark, LineFault>
    ensures { result ≡ mark_named name.now (words_of text.now) }
{
    if name == b"points".as_slice() {
        return read_points(&read_operands(text));
    }
    if name == b"hidden".as_slice() {
        return read_hidden(&read_operands(text));
    }
    Err(LineFault::at(0, LineFaultKind::Unknown))
}

/// `COUNT`
fn read_points(operands: &Operands) -> Result<CaseMark, LineFault>
    ensures { (os : List (List ℕ)) → AreOperands operands.now os → result ≡ points_said os }
{
    match *operands {
        Operands::One(count) => points(points_named(count)),
        Operands::Zero | Operands::Two(..) | Operands::Three(..) | Operands::More(..) => {
            Err(LineFault::at(0, LineFaultKind::Form(LineForm::Points)))
        }
    }
}

/// So many points; None where a case can't have them.
fn points(count: Option<u32>) -> Result<CaseMark, LineFault>
    ensures { result ≡ points_of count }
{
    match count {
        Some(points) => Ok(CaseMark::Points(points)),
        None => Err(LineFault::at(1, LineFaultKind::Worth)),
    }
}

/// No operand.
fn read_hidden(operands: &Operands) -> Result<CaseMark, LineFault>
    ensures { (os : List (List ℕ)) → AreOperands operands.now os → result ≡ hidden_said os }
{
    match *operands {
        Operands::Zero => Ok(CaseMark::Hidden),
        Operands::One(_) | Operands::Two(..) | Operands::Three(..) | Operands::More(..) => {
            Err(LineFault::at(0, LineFaultKind::Form(LineForm::Hidden)))
        }
    }
}
