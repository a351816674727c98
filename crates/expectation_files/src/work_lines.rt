//! What a line says of who does the work in a run ("Lines about who does the work", docs/LAB_REFERENCE.md).

ghost use Rattle.std.specs.Prelude.{◌≡◌, ℕ, List, [], ◌∷◌, Ok, Err, map, IfOk, IfErr};
ghost use Rattle.expectation_files.specs.Words.{words_of};
ghost use Rattle.expectation_files.specs.Values.{stream_named, count_named};
ghost use Rattle.expectation_files.specs.Addresses.{range_said};
ghost use Rattle.expectation_files.specs.WorkLines.{each_said, each_writes, writers_said, writer_of, least_said};
ghost use Rattle.expectation_files.specs.WorkLines.{least_behind, least_of};
ghost use Rattle.expectation_files.specs.OperandsSeen.{AreOperands};
ghost use Rattle.expectation_files.specs.Seen.{names_in};
ghost use Rattle.expectation_files.specs.declared.faults.Unread.TheVariants as unread;
ghost use Rattle.expectation_files.specs.declared.faults.LineFault.{LineFault};
ghost use Rattle.work_rules.specs.declared.work_rule.WorkRule.TheVariants as rule;

use crate::addresses::{KnownNames, address_said, range_said};
use crate::faults::{LineFault, LineFaultKind, LineForm, Unread};
use crate::values::{count_named, stream_named};
use crate::words::{Operands, next_word, read_operands};
use processor::Step;
use std::alloc::{AllocError, Global};
use work_rules::WorkRule;

/// The form of lines that begin with `each`.
const EACH: LineFaultKind = LineFaultKind::Form(LineForm::Each);

/// The form of lines that begin with `at least`.
const LEAST: LineFaultKind = LineFaultKind::Form(LineForm::Least);

/// Which word of a line the first stream is.
const FIRST_STREAM: usize = 2;

/// Streams, and what follows the word `writes` after them.
#[derive(Drop)]
struct WritersRead<'t> {
    /// The streams.
    streams: Vec<Step>,
    /// What follows.
    rest: &'t [u8],
}

/// `of P.S .. writes word ADDRESS`: each of these streams stores to a word.
#[tactic(auto, unfolding(crate::specs::WorkLines::each_said))]
pub(crate) fn read_each(
    alloc: Global,
    names: KnownNames<'_, '_, '_>,
    text: &[u8],
) -> Result<Vec<WorkRule>, Unread>
    ensures means { IfOk result (λ rs. each_said (names_in names.entry) (words_of text.now) ≡ Ok rs.items) }
    ensures fault { IfErr result (λ u. (f : LineFault) → u ≡ unread.Fault f
        → each_said (names_in names.entry) (words_of text.now) ≡ Err f) }
{
    let Some((of, rest)) = next_word(text) else {
        return Err(Unread::Fault(LineFault::at(0, EACH)));
    };
    if of != b"of".as_slice() {
        return Err(Unread::Fault(LineFault::at(1, EACH)));
    }
    let read = writers_said(alloc, rest)?;
    each_writes(alloc, names, &read.streams, &read_operands(read.rest))
}

/// The streams up to the word `writes`.
fn writers_said<'t>(alloc: Global, text: &'t [u8]) -> Result<WritersRead<'t>, Unread>
    ensures means { IfOk result (λ r. writers_said [] (words_of text.now)
        ≡ Ok (record { streams = r.streams.items; behind = words_of r.rest.now })) }
    ensures fault { IfErr result (λ u. (f : LineFault) → u ≡ unread.Fault f
        → writers_said [] (words_of text.now) ≡ Err f) }
{
    let mut streams = Vec::new(alloc);
    let mut rest = text;
    while let Some((word, following)) = next_word(rest) {
        rest = following;
        if word == b"writes".as_slice() {
            return Ok(WritersRead { streams, rest });
        }
        streams.push(writer_of(FIRST_STREAM + streams.len(), word)?)?;
    }
    Err(Unread::Fault(LineFault::at(0, EACH)))
}

/// The stream that the word of this number names.
fn writer_of(number: usize, word: &[u8]) -> Result<Step, LineFault>
    ensures { result ≡ writer_of number (stream_named word.now) }
{
    stream_named(word).ok_or(LineFault::at(number, LineFaultKind::Stream))
}

/// Each of these streams stores to the word of the operands after `writes`.
fn each_writes(
    alloc: Global,
    names: KnownNames<'_, '_, '_>,
    streams: &[Step],
    operands: &Operands,
) -> Result<Vec<WorkRule>, Unread>
    ensures means { (os : List (List ℕ)) → AreOperands operands.now os
        → IfOk result (λ rs. each_writes (names_in names.entry) streams.now os ≡ Ok rs.items) }
    ensures fault { (os : List (List ℕ)) → AreOperands operands.now os
        → IfErr result (λ u. (f : LineFault) → u ≡ unread.Fault f
        → each_writes (names_in names.entry) streams.now os ≡ Err f) }
{
    if streams.is_empty() {
        return Err(Unread::Fault(LineFault::at(FIRST_STREAM, EACH)));
    }
    match *operands {
        Operands::Two(word, address) => {
            if word != b"word".as_slice() {
                return Err(Unread::Fault(LineFault::at(3 + streams.len(), EACH)));
            }
            match address_said(names, address) {
                Ok(address) => Ok(writes_of(alloc, streams, address)?),
                Err(kind) => Err(Unread::Fault(LineFault::at(4 + streams.len(), kind))),
            }
        }
        Operands::Zero | Operands::One(_) | Operands::Three(..) | Operands::More(..) => {
            Err(Unread::Fault(LineFault::at(0, EACH)))
        }
    }
}

/// Each of these streams stores to the word of this address.
fn writes_of(alloc: Global, streams: &[Step], address: u64) -> Result<Vec<WorkRule>, AllocError>
    ensures { IfOk result (λ rs. rs.items ≡ map (λ t. rule.Writes t address) streams.now) }
{
    let mut rules = Vec::new(alloc);
    for stream in streams {
        rules.push(WorkRule::Writes {
            stream: *stream,
            address,
        })?;
    }
    Ok(rules)
}

/// `least N streams store to words FIRST..LAST`: so many streams at least store to words of a range.
pub(crate) fn read_least(
    alloc: Global,
    names: KnownNames<'_, '_, '_>,
    operands: &Operands,
) -> Result<Vec<WorkRule>, Unread>
    ensures means { (os : List (List ℕ)) → AreOperands operands.now os
        → IfOk result (λ rs. least_said (names_in names.entry) os ≡ Ok rs.items) }
    ensures fault { (os : List (List ℕ)) → AreOperands operands.now os
        → IfErr result (λ u. (f : LineFault) → u ≡ unread.Fault f
        → least_said (names_in names.entry) os ≡ Err f) }
{
    let rule = read_least_rule(names, operands)?;
    let mut rules = Vec::new(alloc);
    rules.push(rule)?;
    Ok(rules)
}

/// The rule of the same operands.
#[tactic(auto, unfolding(crate::specs::WorkLines::least_said))]
fn read_least_rule(
    names: KnownNames<'_, '_, '_>,
    operands: &Operands,
) -> Result<WorkRule, LineFault>
    ensures means { (os : List (List ℕ)) → AreOperands operands.now os
        → IfOk result (λ r. least_said (names_in names.entry) os ≡ Ok (r ∷ [])) }
    ensures fault { (os : List (List ℕ)) → AreOperands operands.now os
        → IfErr result (λ f. least_said (names_in names.entry) os ≡ Err f) }
{
    match *operands {
        Operands::More(_, count, streams, store, rest) => {
            if streams != b"streams".as_slice() {
                return Err(LineFault::at(3, LEAST));
            }
            if store != b"store".as_slice() {
                return Err(LineFault::at(4, LEAST));
            }
            read_storing(names, count, &read_operands(rest))
        }
        Operands::Zero | Operands::One(_) | Operands::Two(..) | Operands::Three(..) => {
            Err(LineFault::at(0, LEAST))
        }
    }
}

/// So many streams at least store to the words that the operands say, `to words FIRST..LAST`.
fn read_storing(
    names: KnownNames<'_, '_, '_>,
    count: &[u8],
    operands: &Operands,
) -> Result<WorkRule, LineFault>
    ensures means { (os : List (List ℕ)) → AreOperands operands.now os
        → IfOk result (λ r. least_behind (names_in names.entry) count.now os ≡ Ok (r ∷ [])) }
    ensures fault { (os : List (List ℕ)) → AreOperands operands.now os
        → IfErr result (λ f. least_behind (names_in names.entry) count.now os ≡ Err f) }
{
    match *operands {
        Operands::Three(to, words, range) => {
            if to != b"to".as_slice() {
                return Err(LineFault::at(5, LEAST));
            }
            if words != b"words".as_slice() {
                return Err(LineFault::at(6, LEAST));
            }
            storing_rule(names, count, range)
        }
        Operands::Zero | Operands::One(_) | Operands::Two(..) | Operands::More(..) => {
            Err(LineFault::at(0, LEAST))
        }
    }
}

/// So many streams at least store to the words of this range.
fn storing_rule(
    names: KnownNames<'_, '_, '_>,
    count: &[u8],
    range: &[u8],
) -> Result<WorkRule, LineFault>
    ensures means { IfOk result (λ r. least_of (count_named count.now) (range_said (names_in names.entry) range.now)
        ≡ Ok (r ∷ [])) }
    ensures fault { IfErr result (λ f. least_of (count_named count.now) (range_said (names_in names.entry) range.now)
        ≡ Err f) }
{
    let count = count_named(count).ok_or(LineFault::at(2, LineFaultKind::Count))?;
    match range_said(names, range) {
        Ok(range) => Ok(WorkRule::AtLeast {
            count,
            first: range.first,
            last: range.last,
        }),
        Err(kind) => Err(LineFault::at(7, kind)),
    }
}
