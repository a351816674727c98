//! What a line about words expects.

ghost use Rattle.std.specs.Prelude.{◌≡◌, ℕ, List};
ghost use Rattle.expectation_files.specs.Values.{value_named};
ghost use Rattle.expectation_files.specs.Addresses.{address_said, range_said};
ghost use Rattle.expectation_files.specs.WordLines.{word_of, word_said, words_of_range, words_said, sum_of_range, sum_said};
ghost use Rattle.expectation_files.specs.OperandsSeen.{AreOperands};
ghost use Rattle.expectation_files.specs.Seen.{names_in};

use crate::addresses::{KnownNames, address_said, range_said};
use crate::compared_words::{ComparingLine, read_compared};
use crate::faults::{LineFault, LineFaultKind, LineForm};
use crate::values::{state_named, value_named};
use crate::words::{Operands, read_operands};
use expectations::{Expectation, FullEmpty};

/// The form of lines about one word or two.
const WORD: LineFaultKind = LineFaultKind::Form(LineForm::Word);

/// Lines about two words.
const TWO_WORDS: ComparingLine = ComparingLine {
    form: LineForm::Word,
    first: 1,
};

/// `ADDRESS VALUE`, and perhaps `full` or `empty`; or `ADDRESS RELATION word ADDRESS`, and what may stand after it.
pub(crate) fn read_word(
    names: KnownNames<'_, '_, '_>,
    operands: &Operands,
) -> Result<Expectation, LineFault>
    ensures { (os : List (List ℕ)) → AreOperands operands.now os → result ≡ word_said (names_in names.entry) os }
{
    match *operands {
        Operands::Two(address, value) => word(names, address, value, None),
        Operands::Three(address, value, state) => {
            let state = state_named(state).ok_or(LineFault::at(3, WORD))?;
            word(names, address, value, Some(state))
        }
        Operands::More(address, relation, word, other, rest) => {
            if word == b"word".as_slice() {
                let rest = read_operands(rest);
                let compared = read_compared(TWO_WORDS, names, address, relation, other, &rest)?;
                return Ok(Expectation::Compared {
                    address: compared.address,
                    relation: compared.relation,
                    other: compared.other,
                    more: compared.more,
                });
            }
            Err(LineFault::at(3, WORD))
        }
        Operands::Zero | Operands::One(_) => Err(LineFault::at(0, WORD)),
    }
}

fn word(
    names: KnownNames<'_, '_, '_>,
    address: &[u8],
    value: &[u8],
    state: Option<FullEmpty>,
) -> Result<Expectation, LineFault>
    ensures { result ≡ word_of (address_said (names_in names.entry) address.now) (value_named value.now) state }
{
    let address = match address_said(names, address) {
        Ok(address) => address,
        Err(kind) => return Err(LineFault::at(1, kind)),
    };
    let value = value_named(value).ok_or(LineFault::at(2, LineFaultKind::Number))?;
    Ok(Expectation::Word {
        address,
        value,
        state,
    })
}

/// `FIRST..LAST VALUE`, and perhaps `full` or `empty`.
pub(crate) fn read_words(
    names: KnownNames<'_, '_, '_>,
    operands: &Operands,
) -> Result<Expectation, LineFault>
    ensures { (os : List (List ℕ)) → AreOperands operands.now os → result ≡ words_said (names_in names.entry) os }
{
    match *operands {
        Operands::Two(range, value) => words(names, range, value, None),
        Operands::Three(range, value, state) => {
            let form = LineFaultKind::Form(LineForm::Words);
            let state = state_named(state).ok_or(LineFault::at(3, form))?;
            words(names, range, value, Some(state))
        }
        Operands::Zero | Operands::One(_) | Operands::More(..) => {
            Err(LineFault::at(0, LineFaultKind::Form(LineForm::Words)))
        }
    }
}

fn words(
    names: KnownNames<'_, '_, '_>,
    range: &[u8],
    value: &[u8],
    state: Option<FullEmpty>,
) -> Result<Expectation, LineFault>
    ensures { result ≡ words_of_range (range_said (names_in names.entry) range.now) (value_named value.now) state }
{
    let range = match range_said(names, range) {
        Ok(range) => range,
        Err(kind) => return Err(LineFault::at(1, kind)),
    };
    let value = value_named(value).ok_or(LineFault::at(2, LineFaultKind::Number))?;
    Ok(Expectation::Words {
        first: range.first,
        last: range.last,
        value,
        state,
    })
}

/// `FIRST..LAST VALUE`
pub(crate) fn read_sum(
    names: KnownNames<'_, '_, '_>,
    operands: &Operands,
) -> Result<Expectation, LineFault>
    ensures { (os : List (List ℕ)) → AreOperands operands.now os → result ≡ sum_said (names_in names.entry) os }
{
    match *operands {
        Operands::Two(range, value) => sum(names, range, value),
        Operands::Zero | Operands::One(_) | Operands::Three(..) | Operands::More(..) => {
            Err(LineFault::at(0, LineFaultKind::Form(LineForm::Sum)))
        }
    }
}

fn sum(names: KnownNames<'_, '_, '_>, range: &[u8], value: &[u8]) -> Result<Expectation, LineFault>
    ensures { result ≡ sum_of_range (range_said (names_in names.entry) range.now) (value_named value.now) }
{
    let range = match range_said(names, range) {
        Ok(range) => range,
        Err(kind) => return Err(LineFault::at(1, kind)),
    };
    let value = value_named(value).ok_or(LineFault::at(2, LineFaultKind::Number))?;
    Ok(Expectation::Sum {
        first: range.first,
        last: range.last,
        value,
    })
}
