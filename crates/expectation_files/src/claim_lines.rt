//! What a line claims of the worlds that a program comes to ("Claims", docs/LAB_REFERENCE.md).

ghost use Rattle.std.specs.Prelude.{◌≡◌, ℕ, List, Ok, Err, IfOk, IfErr};
ghost use Rattle.claims.specs.Missing.{has_word};
ghost use Rattle.expectation_files.specs.Words.{words_of};
ghost use Rattle.expectation_files.specs.Addresses.{address_said};
ghost use Rattle.expectation_files.specs.ClaimLines.{claim_said, form_claimed, word_claimed, word_tested};
ghost use Rattle.expectation_files.specs.ClaimLines.{words_compared};
ghost use Rattle.expectation_files.specs.OperandsSeen.{AreOperands};
ghost use Rattle.expectation_files.specs.Seen.{names_in, form_seen, claim_seen};
ghost use Rattle.expectation_files.specs.declared.faults.Unread.TheVariants as unread;
ghost use Rattle.expectation_files.specs.declared.faults.LineFault.{LineFault};

use crate::addresses::{KnownNames, address_said};
use crate::claim_streams::read_streams;
use crate::claim_tests::{CLAIM, test_of_state, test_plain, test_signed};
use crate::compared_words::{ComparedWords, ComparingLine, read_compared};
use crate::faults::{LineFault, LineFaultKind, LineForm, Unread};
use crate::values::state_named;
use crate::words::{Operands, next_word, read_operands};
use claims::{Claim, ClaimForm, Scope, WordTest};
use image_file::Image;
use std::alloc::Global;

/// Claims about two words.
const TWO_WORDS: ComparingLine = ComparingLine {
    form: LineForm::Claim,
    first: 2,
};

/// The claim of this scope that the words after it say.
#[tactic(auto, unfolding(crate::specs::ClaimLines::claim_said))]
pub(crate) fn read_claim(
    alloc: Global,
    names: KnownNames<'_, '_, '_>,
    image: &Image,
    scope: Scope,
    text: &[u8],
) -> Result<Claim, Unread>
    ensures means { IfOk result (λ c. claim_said (names_in names.entry) image.now scope (words_of text.now) ≡ Ok (claim_seen c)) }
    ensures fault { IfErr result (λ u. (f : LineFault) → u ≡ unread.Fault f
        → claim_said (names_in names.entry) image.now scope (words_of text.now) ≡ Err f) }
{
    let form = read_form(alloc, names, image, text)?;
    Ok(Claim { scope, form })
}

/// What is claimed, by its first word.
fn read_form(
    alloc: Global,
    names: KnownNames<'_, '_, '_>,
    image: &Image,
    text: &[u8],
) -> Result<ClaimForm, Unread>
    ensures means { IfOk result (λ f. form_claimed (names_in names.entry) image.now (words_of text.now) ≡ Ok (form_seen f)) }
    ensures fault { IfErr result (λ u. (f : LineFault) → u ≡ unread.Fault f
        → form_claimed (names_in names.entry) image.now (words_of text.now) ≡ Err f) }
{
    let Some((name, rest)) = next_word(text) else {
        return Err(Unread::Fault(LineFault::at(0, CLAIM)));
    };
    if name == b"word".as_slice() {
        return Ok(read_word(names, image, &read_operands(rest))?);
    }
    if name == b"at".as_slice() {
        return read_streams(alloc, names, image, rest);
    }
    if name == b"busy".as_slice() {
        return Err(Unread::Fault(LineFault::at(1, LineFaultKind::Busy)));
    }
    if name == b"starved".as_slice() {
        return Err(Unread::Fault(LineFault::at(1, LineFaultKind::Starved)));
    }
    Err(Unread::Fault(LineFault::at(1, CLAIM)))
}

/// `ADDRESS STATE`, `ADDRESS RELATION NUMBER`, `ADDRESS RELATION NUMBER signed`, or `ADDRESS RELATION word ADDRESS` and what
/// may stand after it.
#[tactic(auto, unfolding(crate::specs::ClaimLines::word_claimed))]
fn read_word(
    names: KnownNames<'_, '_, '_>,
    image: &Image,
    operands: &Operands,
) -> Result<ClaimForm, LineFault>
    ensures means { (os : List (List ℕ)) → AreOperands operands.now os
        → IfOk result (λ f. word_claimed (names_in names.entry) image.now os ≡ Ok (form_seen f)) }
    ensures fault { (os : List (List ℕ)) → AreOperands operands.now os
        → IfErr result (λ f. word_claimed (names_in names.entry) image.now os ≡ Err f) }
{
    match *operands {
        Operands::Two(address, state) => {
            let test = test_of_state(state_named(state));
            word_tested(names, image, address, test)
        }
        Operands::Three(address, relation, number) => {
            let test = test_plain(relation, number);
            word_tested(names, image, address, test)
        }
        Operands::More(address, relation, number, sign, rest) => {
            if number == b"word".as_slice() {
                let rest = read_operands(rest);
                let compared = read_compared(TWO_WORDS, names, address, relation, sign, &rest)?;
                return words_compared(image, compared);
            }
            if next_word(rest).is_some() {
                return Err(LineFault::at(0, CLAIM));
            }
            let test = test_signed(relation, number, sign);
            word_tested(names, image, address, test)
        }
        Operands::Zero | Operands::One(_) => Err(LineFault::at(0, CLAIM)),
    }
}

/// A test of the word at an address that the image has.
fn word_tested(
    names: KnownNames<'_, '_, '_>,
    image: &Image,
    address: &[u8],
    test: Result<WordTest, LineFault>,
) -> Result<ClaimForm, LineFault>
    ensures means { IfOk result (λ f. word_tested image.now (address_said (names_in names.entry) address.now) test ≡ Ok (form_seen f)) }
    ensures fault { IfErr result (λ f. word_tested image.now (address_said (names_in names.entry) address.now) test ≡ Err f) }
{
    let address = match address_said(names, address) {
        Ok(address) => address,
        Err(kind) => return Err(LineFault::at(2, kind)),
    };
    let test = test?;
    if has_word(image, address) {
        Ok(ClaimForm::Word { address, test })
    } else {
        Err(LineFault::at(2, LineFaultKind::MissingWord))
    }
}

/// Two words that the image has.
fn words_compared(image: &Image, compared: ComparedWords) -> Result<ClaimForm, LineFault>
    ensures means { IfOk result (λ f. words_compared image.now (Ok compared) ≡ Ok (form_seen f)) }
    ensures fault { IfErr result (λ f. words_compared image.now (Ok compared) ≡ Err f) }
{
    if !has_word(image, compared.address) {
        return Err(LineFault::at(2, LineFaultKind::MissingWord));
    }
    if !has_word(image, compared.other) {
        return Err(LineFault::at(5, LineFaultKind::MissingWord));
    }
    Ok(ClaimForm::Compared {
        address: compared.address,
        relation: compared.relation,
        other: compared.other,
        more: compared.more,
    })
}

/// Whether an image has the word of a byte address.
fn has_word(image: &Image, address: u64) -> bool
    ensures { result ≡ has_word image.now address }
{
    address % 8 == 0 && address / 8 < image.cells().len() as u64
}
