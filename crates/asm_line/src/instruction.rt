//! What an instruction says: the parts between `|`, and before them perhaps the lookahead.

ghost use Rattle.std.specs.Prelude.{◌≡◌, map, Err};
ghost use Rattle.asm_line.specs.Text.{head, trim};
ghost use Rattle.text_parts.specs.Pieces.{pieces};
ghost use Rattle.asm_line.specs.Heads.{operation_of};
ghost use Rattle.asm_line.specs.Labels.{places_of};
ghost use Rattle.asm_line.specs.Instructions.{one_part, two_parts, three_parts, too_many, operations};
ghost use Rattle.asm_line.specs.Instructions.{with_lookahead, instruction_of_text, is_ok};

use crate::arguments::read_arguments;
use crate::combination::{double, single, triple};
use crate::fault::{Fault, both};
use crate::heads::operation_of;
use crate::labels::Labels;
use crate::numbers::small_within;
use crate::text::{begins, split_head, tail, trim};
use insn_word::{Insn, Profile};
use text_parts::cut;

/// The instruction at the place `here`.
#[tactic(auto, unfolding(crate::specs::Instructions::instruction_of_text))]
pub(crate) fn instruction(
    profile: Profile,
    labels: &Labels,
    here: usize,
    text: &[u8],
) -> Result<Insn, Fault>
    ensures { result ≡ instruction_of_text profile (places_of labels.now) here text.now }
{
    if !begins(text, b'@') {
        return operations(profile, labels, here, text);
    }
    let (head, behind) = split_head(text);
    let (look, insn) = both(
        small_within(7, tail(head)),
        operations(profile, labels, here, behind),
    )?;
    Ok(with_lookahead(look, insn))
}

/// The instruction with this lookahead.
fn with_lookahead(look: u8, insn: Insn) -> Insn
    ensures { result ≡ with_lookahead look insn }
{
    match insn {
        Insn::Wide { op, reg, imm, .. } => Insn::Wide { look, op, reg, imm },
        Insn::Normal { m, a, c, .. } => Insn::Normal { look, m, a, c },
    }
}

/// The operations, separated by `|`.
#[tactic(auto, unfolding(crate::specs::Instructions::operations), using(text_parts::proofs::Pieces::pieces_cut))]
fn operations(profile: Profile, labels: &Labels, here: usize, text: &[u8]) -> Result<Insn, Fault>
    ensures { result ≡ operations profile (places_of labels.now) here text.now }
{
    let (first, rest) = cut(text, b'|');
    let Some(rest) = rest else {
        return one_part(profile, labels, here, trim(first));
    };
    let (second, rest) = cut(rest, b'|');
    let Some(rest) = rest else {
        return two_parts(profile, labels, here, trim(first), trim(second));
    };
    let (third, rest) = cut(rest, b'|');
    match rest {
        None => three_parts(
            profile,
            labels,
            here,
            trim(first),
            trim(second),
            trim(third),
        ),
        Some(_) => Err(too_many(profile, text)),
    }
}

fn one_part(profile: Profile, labels: &Labels, here: usize, text: &[u8]) -> Result<Insn, Fault>
    ensures { result ≡ one_part profile (places_of labels.now) here text.now }
{
    let (head, behind) = split_head(text);
    let operation = operation_of(profile, head)?;
    single(labels, here, operation, &read_arguments(behind))
}

fn two_parts(
    profile: Profile,
    labels: &Labels,
    here: usize,
    first: &[u8],
    second: &[u8],
) -> Result<Insn, Fault>
    ensures { result ≡ two_parts profile (places_of labels.now) here first.now second.now }
{
    let (o, xs) = split_head(first);
    let (p, ys) = split_head(second);
    let (o, p) = both(operation_of(profile, o), operation_of(profile, p))?;
    double(labels, here, o, p, &read_arguments(xs), &read_arguments(ys))
}

fn three_parts(
    profile: Profile,
    labels: &Labels,
    here: usize,
    first: &[u8],
    second: &[u8],
    third: &[u8],
) -> Result<Insn, Fault>
    ensures { result ≡ three_parts profile (places_of labels.now) here first.now second.now third.now }
{
    let (o, xs) = split_head(first);
    let (p, ys) = split_head(second);
    let (q, zs) = split_head(third);
    let ((o, p), q) = both(
        both(operation_of(profile, o), operation_of(profile, p)),
        operation_of(profile, q),
    )?;
    triple(
        labels,
        here,
        (o, p, q),
        &read_arguments(xs),
        &read_arguments(ys),
        &read_arguments(zs),
    )
}

/// What is wrong with more parts than there can be.
#[tactic(auto, unfolding(crate::specs::Instructions::too_many))]
fn too_many(profile: Profile, text: &[u8]) -> Fault
    ensures { Err result ≡ too_many profile (map trim (pieces 124 text.now)) }
{
    let mut rest = Some(text);
    while let Some(bytes) = rest {
        let (part, next) = cut(bytes, b'|');
        if !has_operation(profile, trim(part)) {
            return Fault::Unknown;
        }
        rest = next;
    }
    Fault::Operand
}

/// Whether a part's head names an operation.
fn has_operation(profile: Profile, part: &[u8]) -> bool
    ensures { result ≡ is_ok (operation_of profile (head part.now)) }
{
    let (head, _) = split_head(part);
    operation_of(profile, head).is_ok()
}
