//! The image that a source text means.

ghost use Rattle.std.specs.Prelude.{◌≡◌, ◌≢◌, ◌+◌, ◌≤◌, nat_le, ◌==◌, length, Ok, IfOk, IfErr, OnOk, MatchResult};
ghost use Rattle.std.specs.List.{position, count_by};
ghost use Rattle.asm_line.specs.Lines.{lines, place, count_words};
ghost use Rattle.asm_line.specs.Labels.{places_of};
ghost use Rattle.asm_line.specs.Profiles.{profile_of, profile_named};
ghost use Rattle.asm_line.specs.SourceLines.{line_seen};
ghost use Rattle.std.specs.Option.{option_or};
ghost use Rattle.asm_line.specs.declared.fault.Fault.TheVariants.{NoMemory};
ghost use Rattle.asm_text.specs.Drafts.{empty};
ghost use Rattle.asm_text.specs.Limits.{KeepsLimits};
ghost use Rattle.asm_text.specs.Faults.{asm_no_memory, IsItemFault, IsTextFault};
ghost use Rattle.asm_text.specs.Sources.{with_line, with_lines, not_ascii, Means, HasFault};

use crate::draft::Draft;
use crate::fault::AsmFault;
use asm_line::{
    Fault, Labels, Place, SourceLine, is_word, next_source_line, profile_named, read_line,
};
use image_file::Image;
use insn_word::Profile;
use std::alloc::{AllocError, Global};

/// The line, from 1, of the first byte that is not ASCII.
#[tactic(auto, unfolding(crate::specs::Sources::not_ascii))]
fn not_ascii(text: &[u8]) -> Option<usize>
    ensures { result ≡ not_ascii text.now }
{
    let at = first_not_ascii(text)?;
    Some(line_ends(&text[..at]) + 1)
}

#[tactic(auto, using(crate::proofs::Ascii::none_foreign))]
fn first_not_ascii(text: &[u8]) -> Option<usize>
    ensures { result ≡ position (λ b. nat_le 128 b) text.now }
{
    if text.is_ascii() {
        return None;
    }
    text.iter().position(|b| *b >= 128)
}

fn line_ends(text: &[u8]) -> usize
    ensures is { result ≡ count_by (λ b. b == 10) text.now }
    ensures few { result ≤ length text.now }
{
    text.iter().filter(|b| **b == b'\n').count()
}

/// What a first pass finds of a text, for the reading of each of its lines (`asm_line::read_line`).
#[derive(Drop)]
pub struct Outline<'t> {
    /// The profile that the first `.profile` line says; 1 where there is none.
    pub profile: Profile,
    /// Where the labels stand.
    pub labels: Labels<'t>,
    /// How many lines are program words.
    pub words: usize,
}

/// The profile of a text, its labels and the number of its program words, whatever faults it has. Only memory can be
/// missing.
pub fn outline_of(alloc: Global, text: &[u8]) -> Result<Outline<'_>, AllocError>
    ensures profile { IfOk result (λ o. o.profile ≡ profile_of (lines text.now)) }
    ensures labels { IfOk result (λ o. places_of o.labels ≡ place (lines text.now)) }
    ensures words { IfOk result (λ o. o.words ≡ count_words (lines text.now)) }
{
    let mut profile = None;
    let mut labels = Labels::new(alloc);
    let mut number = 0;
    let mut words = 0;
    let mut rest = Some(text);
    while let Some(bytes) = rest {
        let (line, following) = next_source_line(bytes);
        profile = profile_after(profile, &line);
        labels.note(
            line.label,
            Place {
                line: number,
                value: words,
            },
        )?;
        if is_word(line.statement) {
            words += 1;
        }
        number += 1;
        rest = following;
    }
    Ok(Outline {
        profile: profile.unwrap_or(Profile::One),
        labels,
        words,
    })
}

/// What is said of a text's profile up to this line, where it is `earlier` before the line.
fn profile_after(earlier: Option<Profile>, line: &SourceLine) -> Option<Profile>
    ensures { result ≡ option_or earlier (profile_named (line_seen line.now)) }
{
    match earlier {
        Some(profile) => Some(profile),
        None => profile_named(line),
    }
}

/// Takes what line `number` adds.
#[tactic(auto, unfolding(crate::specs::Sources::with_line))]
fn take_line(
    outline: &Outline,
    number: usize,
    draft: &mut Draft,
    line: &SourceLine,
) -> Result<(), Fault>
    ensures takes { let o = outline.now in MatchResult result
        (λ _. with_line o.profile (places_of o.labels) o.words number draft.old (line_seen line.now) ≡ Ok draft.new)
        (λ e. IsItemFault e (with_line o.profile (places_of o.labels) o.words number draft.old (line_seen line.now))) }
    ensures kept { let o = outline.now in
        KeepsLimits o.profile o.words draft.old → OnOk result (KeepsLimits o.profile o.words draft.new) }
{
    let item = read_line(
        outline.profile,
        &outline.labels,
        outline.words,
        number,
        draft.words(),
        line,
    )?;
    draft.add(item)
}

/// What all lines of a text with this outline give.
fn all_lines(alloc: Global, outline: &Outline, text: &[u8]) -> Result<Draft, AsmFault>
    ensures takes { let o = outline.now in MatchResult result
        (λ d. with_lines o.profile (places_of o.labels) o.words 0 empty (lines text.now) ≡ Ok d)
        (λ e. IsTextFault e (with_lines o.profile (places_of o.labels) o.words 0 empty (lines text.now))) }
    ensures kept { IfOk result (KeepsLimits outline.now.profile outline.now.words) }
    ensures no_memory { IfErr result (λ e. e.kind ≡ NoMemory → e ≡ asm_no_memory) }
{
    let mut draft = Draft::new(alloc);
    let mut number = 0;
    let mut rest = Some(text);
    while let Some(bytes) = rest {
        let (line, following) = next_source_line(bytes);
        match take_line(outline, number, &mut draft, &line) {
            Ok(()) => {}
            Err(kind) => return Err(AsmFault::on_line(number + 1, kind)),
        }
        number += 1;
        rest = following;
    }
    Ok(draft)
}

/// The image that a source text means (docs/WRITING_PROGRAMS.md).
///
/// Else its fault: the least line with a byte that is not ASCII, else the least line that has a fault, with the least
/// kind of its faults, else `Directive` on line 0 where the text has no entry, no program word or no cell.
/// `NoMemory`, on line 0, may come in place of any other answer.
pub fn assemble(alloc: Global, text: &[u8]) -> Result<Image, AsmFault>
    ensures means { IfOk result (Means text.now) }
    ensures fault { IfErr result (λ e. e.kind ≢ NoMemory → HasFault text.now e) }
    ensures no_memory { IfErr result (λ e. e.kind ≡ NoMemory → e ≡ asm_no_memory) }
{
    if let Some(line) = not_ascii(text) {
        return Err(AsmFault::on_line(line, Fault::NotAscii));
    }
    let outline = outline_of(alloc, text)?;
    let draft = all_lines(alloc, &outline, text)?;
    draft.finish(outline.profile)
}
