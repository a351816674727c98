//! What a line says of two words: how the value of one stands to that of the other.

ghost use Rattle.std.specs.Prelude.{◌≡◌, ◌≤◌, ℕ, List};
ghost use Rattle.expectation_files.specs.Values.{relation_named, value_named};
ghost use Rattle.expectation_files.specs.Addresses.{address_said};
ghost use Rattle.expectation_files.specs.WordLines.{compared_of, compared_said};
ghost use Rattle.expectation_files.specs.OperandsSeen.{AreOperands};
ghost use Rattle.expectation_files.specs.Seen.{names_in};

use crate::addresses::{KnownNames, address_said};
use crate::faults::{LineFault, LineFaultKind, LineForm};
use crate::values::{relation_named, value_named};
use crate::words::Operands;
use expectations::Relation;

/// Two words, and how the value of one stands to that of the other and a number.
#[derive(Clone, Copy, Debug, PartialEq, Eq)]
pub(crate) struct ComparedWords {
    /// The one's byte address.
    pub(crate) address: u64,
    /// How its value stands to the other's and the number, modulo 2^64.
    pub(crate) relation: Relation,
    /// The other's byte address.
    pub(crate) other: u64,
    /// The number.
    pub(crate) more: u64,
}

/// A line of this form whose word of the number `first` is the address of a word.
#[derive(Clone, Copy, Debug, PartialEq, Eq)]
pub(crate) struct ComparingLine {
    /// Its form.
    pub(crate) form: LineForm,
    /// Which of its words is the first address.
    pub(crate) first: usize,
}

/// Nothing, or `+ NUMBER`, and perhaps `signed`: after two words and how the first stands to the second.
pub(crate) fn read_compared(
    line: ComparingLine,
    names: KnownNames<'_, '_, '_>,
    address: &[u8],
    relation: &[u8],
    other: &[u8],
    rest: &Operands,
) -> Result<ComparedWords, LineFault>
    requires at_the_front { line.first ≤ 2 }
    ensures { (os : List (List ℕ)) → AreOperands rest.now os
        → result ≡ compared_said line (names_in names.entry) address.now relation.now other.now os }
{
    let no_form = LineFaultKind::Form(line.form);
    match *rest {
        Operands::Zero => {
            let relation = relation_named(relation, false);
            compared(line, names, relation, address, other, Some(0))
        }
        Operands::One(sign) => {
            if sign == b"signed".as_slice() {
                let relation = relation_named(relation, true);
                return compared(line, names, relation, address, other, Some(0));
            }
            Err(LineFault::at(line.first + 4, no_form))
        }
        Operands::Two(plus, more) => {
            if plus == b"+".as_slice() {
                let relation = relation_named(relation, false);
                return compared(line, names, relation, address, other, value_named(more));
            }
            Err(LineFault::at(line.first + 4, no_form))
        }
        Operands::Three(plus, more, sign) => {
            if plus == b"+".as_slice() {
                if sign == b"signed".as_slice() {
                    let relation = relation_named(relation, true);
                    return compared(line, names, relation, address, other, value_named(more));
                }
                return Err(LineFault::at(line.first + 6, no_form));
            }
            Err(LineFault::at(line.first + 4, no_form))
        }
        Operands::More(..) => Err(LineFault::at(0, no_form)),
    }
}

fn compared(
    line: ComparingLine,
    names: KnownNames<'_, '_, '_>,
    relation: Option<Relation>,
    address: &[u8],
    other: &[u8],
    more: Option<u64>,
) -> Result<ComparedWords, LineFault>
    requires at_the_front { line.first ≤ 2 }
    ensures { result ≡ compared_of line relation (address_said (names_in names.entry) address.now)
        (address_said (names_in names.entry) other.now) more }
{
    let no_form = LineFaultKind::Form(line.form);
    let relation = relation.ok_or(LineFault::at(line.first + 1, no_form))?;
    let address = match address_said(names, address) {
        Ok(address) => address,
        Err(kind) => return Err(LineFault::at(line.first, kind)),
    };
    let other = match address_said(names, other) {
        Ok(other) => other,
        Err(kind) => return Err(LineFault::at(line.first + 3, kind)),
    };
    let more = more.ok_or(LineFault::at(line.first + 5, LineFaultKind::Number))?;
    Ok(ComparedWords {
        address,
        relation,
        other,
        more,
    })
}
