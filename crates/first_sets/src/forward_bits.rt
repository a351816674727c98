//! Whether some word may ever have the forward bit, by the image alone.

ghost use Rattle.std.specs.Prelude.{◌≡◌, IsFalse, List};
ghost use Rattle.std.specs.List.{list_any};
ghost use Rattle.tag_memory.specs.Cell.{Cell};
ghost use Rattle.tag_memory.specs.Unforwarded.{IsUnforwarded};
ghost use Rattle.processor.specs.World.{run};
ghost use Rattle.processor.specs.declared.steps.Step.{Step};
ghost use Rattle.first_sets.specs.NoForwardBits.{sets_tags, word_sets_tags, may_forward};

use image_file::Image;
use insn_word::{Insn, MemoryOp, Profile, decode_as};
use tag_memory::Word;

/// Whether some word of an image's memory has the forward bit, or some instruction of its program is a TAGSET of another
/// register than r0. Where neither is so, no word has the bit after any schedule ("Forwarding", docs/MACHINE.md).
#[tactic(auto, using(crate::proofs::NeverForwarded::never_forwarded), unfolding(crate::specs::NoForwardBits::may_forward))]
pub fn may_forward(image: &Image) -> bool
    ensures is { result ≡ may_forward image.now }
    ensures never { IsFalse result → (ts : List Step) → IsUnforwarded (run image.now ts).memory }
{
    any_forward(image.cells()) || any_sets_tags(image.profile(), image.program())
}

/// Whether some word has the forward bit.
fn any_forward(cells: &[Word]) -> bool
    ensures { result ≡ list_any (λ (c : Cell). c.forward) cells.now }
{
    cells.iter().any(
        |word: &Word| -> bool
            ensures { result ≡ word.now.forward }
        { word.is_forward() },
    )
}

/// Whether some word of a program is such a TAGSET.
fn any_sets_tags(profile: Profile, program: &[u64]) -> bool
    ensures { result ≡ list_any (word_sets_tags profile) program.now }
{
    program.iter().any(
        |word: &u64| -> bool
            ensures { result ≡ word_sets_tags profile word.now }
        { word_sets_tags(profile, *word) },
    )
}

/// Whether a word spells an instruction that has one.
fn word_sets_tags(profile: Profile, word: u64) -> bool
    ensures { result ≡ word_sets_tags profile word }
{
    match decode_as(profile, word) {
        None => false,
        Some(insn) => sets_tags(&insn),
    }
}

/// Whether an instruction has TAGSET of another register than r0.
fn sets_tags(insn: &Insn) -> bool
    ensures { result ≡ sets_tags insn.now }
{
    match insn {
        Insn::Wide { .. } => false,
        Insn::Normal { m, .. } => match m.op {
            MemoryOp::TagSet => m.rd != 0,
            MemoryOp::Nop
            | MemoryOp::Load
            | MemoryOp::Store
            | MemoryOp::FetchAdd
            | MemoryOp::TagGet
            | MemoryOp::Purge => false,
        },
    }
}
