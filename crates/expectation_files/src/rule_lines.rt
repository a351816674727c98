//! What a line requires of a program alone ("Rules of programs", docs/LAB_REFERENCE.md).

ghost use Rattle.std.specs.Prelude.{◌≡◌, ℕ, List, [], ◌∷◌, Ok, Err, IfOk, IfErr};
ghost use Rattle.program_rules.specs.Names.{operation_named};
ghost use Rattle.expectation_files.specs.Words.{words_of};
ghost use Rattle.expectation_files.specs.RuleLines.{entries_said, most_words_said, operations_said, operations_from};
ghost use Rattle.expectation_files.specs.RuleLines.{operation_rule};
ghost use Rattle.expectation_files.specs.OperandsSeen.{AreOperands};
ghost use Rattle.expectation_files.specs.declared.faults.Unread.TheVariants as unread;
ghost use Rattle.expectation_files.specs.declared.faults.LineFault.{LineFault};

use crate::faults::{LineFault, LineFaultKind, LineForm, Unread};
use crate::values::count_named;
use crate::words::{Operands, next_word};
use program_rules::{ProgramOperation, ProgramRule};
use std::alloc::Global;

/// Whether operations are forbidden or required.
#[derive(Clone, Copy, Debug, PartialEq, Eq)]
pub(crate) enum OperationVerb {
    /// `forbid`.
    Forbid,
    /// `require`.
    Require,
}

/// The rule that `entries` and its operand say.
pub(crate) fn read_entries(operands: &Operands) -> Result<ProgramRule, LineFault>
    ensures means { (os : List (List ℕ)) → AreOperands operands.now os → IfOk result (λ r. entries_said os ≡ Ok (r ∷ [])) }
    ensures fault { (os : List (List ℕ)) → AreOperands operands.now os → IfErr result (λ f. entries_said os ≡ Err f) }
{
    match *operands {
        Operands::One(count) => {
            let fault = LineFault::at(1, LineFaultKind::Count);
            Ok(ProgramRule::Entries(count_named(count).ok_or(fault)?))
        }
        Operands::Zero | Operands::Two(..) | Operands::Three(..) | Operands::More(..) => {
            Err(LineFault::at(0, LineFaultKind::Form(LineForm::Entries)))
        }
    }
}

/// The rule that `at` and its operands say.
pub(crate) fn read_most_words(operands: &Operands) -> Result<ProgramRule, LineFault>
    ensures means { (os : List (List ℕ)) → AreOperands operands.now os → IfOk result (λ r. most_words_said os ≡ Ok (r ∷ [])) }
    ensures fault { (os : List (List ℕ)) → AreOperands operands.now os → IfErr result (λ f. most_words_said os ≡ Err f) }
{
    let form = LineFaultKind::Form(LineForm::MostWords);
    match *operands {
        Operands::Three(most, count, words) => {
            if most != b"most".as_slice() {
                return Err(LineFault::at(1, form));
            }
            if words != b"words".as_slice() {
                return Err(LineFault::at(3, form));
            }
            let fault = LineFault::at(2, LineFaultKind::Count);
            Ok(ProgramRule::AtMostWords(count_named(count).ok_or(fault)?))
        }
        Operands::Zero | Operands::One(_) | Operands::Two(..) | Operands::More(..) => {
            Err(LineFault::at(0, form))
        }
    }
}

/// The rules that forbid or require the operations that a text names, one at least.
#[tactic(auto, unfolding(crate::specs::RuleLines::operations_said))]
pub(crate) fn read_operations(
    alloc: Global,
    verb: OperationVerb,
    text: &[u8],
) -> Result<Vec<ProgramRule>, Unread>
    ensures means { IfOk result (λ rs. operations_said verb (words_of text.now) ≡ Ok rs.items) }
    ensures fault { IfErr result (λ u. (f : LineFault) → u ≡ unread.Fault f
        → operations_said verb (words_of text.now) ≡ Err f) }
{
    if next_word(text).is_none() {
        let form = LineFaultKind::Form(LineForm::Operations);
        return Err(Unread::Fault(LineFault::at(0, form)));
    }
    operations_of(alloc, verb, text)
}

/// The rules of the operations that a text names.
fn operations_of(
    alloc: Global,
    verb: OperationVerb,
    text: &[u8],
) -> Result<Vec<ProgramRule>, Unread>
    ensures means { IfOk result (λ rs. operations_from verb [] (words_of text.now) ≡ Ok rs.items) }
    ensures fault { IfErr result (λ u. (f : LineFault) → u ≡ unread.Fault f
        → operations_from verb [] (words_of text.now) ≡ Err f) }
{
    let mut rules = Vec::new(alloc);
    let mut rest = text;
    while let Some((word, following)) = next_word(rest) {
        rest = following;
        rules.push(rule_of(verb, 1 + rules.len(), word)?)?;
    }
    Ok(rules)
}

/// The rule of the operation that the word of this number names.
fn rule_of(verb: OperationVerb, number: usize, word: &[u8]) -> Result<ProgramRule, LineFault>
    ensures { result ≡ operation_rule verb number (operation_named word.now) }
{
    let fault = LineFault::at(number, LineFaultKind::Operation);
    let operation = ProgramOperation::named(word).ok_or(fault)?;
    Ok(match verb {
        OperationVerb::Forbid => ProgramRule::Forbid(operation),
        OperationVerb::Require => ProgramRule::Require(operation),
    })
}
