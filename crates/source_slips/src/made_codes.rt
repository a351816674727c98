//! How many condition codes the ways to each word of a program make at most.

ghost use Rattle.std.specs.Prelude.{◌≡◌, ℕ, List, Option, IfOk, IfSome, unwrap_or};
ghost use Rattle.source_slips.specs.Made.{Allows, AllowsAny};
ghost use Rattle.source_slips.specs.MostCodes.{IsBelow, IsLeast, IsNamed, LeadsBy};

use crate::closed_codes::most_at;
use crate::straight_ways::{insn_at, next_place};
use crate::word_ways::{aimed_place, kept_after_insn, leaves_with, skip_target};
use image_file::Image;
use insn_word::Insn;
use std::alloc::{AllocError, Global};

/// How often the program is gone through at most.
const MOST_ROUNDS: usize = 1000;

/// For each word how many codes a way to it makes at most; None where no way was found.
#[derive(Drop)]
pub(crate) struct CodeCounts {
    pub(crate) most: Vec<Option<u8>>,
    /// The most with which a stream goes to a target register.
    pub(crate) anywhere: Option<u8>,
    is_changed: bool,
}

impl CodeCounts {
    /// A way comes to a word with so many codes.
    fn come(&mut self, place: u32, count: u8)
        ensures { (t : List (Option ℕ)) (a : Option ℕ) → IsBelow self.old.most.items self.old.anywhere t a
            → Allows t place count → IsBelow self.new.most.items self.new.anywhere t a }
    {
        let at = place as usize;
        if at >= self.most.len() || !is_fewer(self.most[at], count) {
            return;
        }
        self.most[at] = Some(count);
        self.is_changed = true;
    }

    /// A way comes to a word with so many codes, if there is one.
    fn come_if(&mut self, place: Option<u32>, count: u8)
        ensures { (t : List (Option ℕ)) (a : Option ℕ) → IsBelow self.old.most.items self.old.anywhere t a
            → IfSome place (λ k. Allows t k count) → IsBelow self.new.most.items self.new.anywhere t a }
    {
        let Some(place) = place else {
            return;
        };
        self.come(place, count);
    }

    /// A way goes to a target register with so many codes.
    fn leave(&mut self, count: u8)
        ensures { (t : List (Option ℕ)) (a : Option ℕ) → IsBelow self.old.most.items self.old.anywhere t a
            → AllowsAny a count → IsBelow self.new.most.items self.new.anywhere t a }
    {
        if !is_fewer(self.anywhere, count) {
            return;
        }
        self.anywhere = Some(count);
        self.is_changed = true;
    }

    /// A way goes to a target register with so many codes, if it does: one that nothing has set leads to the first word.
    fn leave_if(&mut self, count: Option<u8>)
        ensures { (t : List (Option ℕ)) (a : Option ℕ) → IsBelow self.old.most.items self.old.anywhere t a
            → IfSome count (AllowsAny a) → IfSome count (Allows t 0) → IsBelow self.new.most.items self.new.anywhere t a }
    {
        let Some(count) = count else {
            return;
        };
        self.leave(count);
        self.come(0, count);
    }

    /// A target register is set to a word, if there is one: whatever goes to one may come there.
    fn aim_if(&mut self, place: Option<u32>)
        ensures { (t : List (Option ℕ)) (a : Option ℕ) → IsBelow self.old.most.items self.old.anywhere t a
            → IfSome place (IsNamed t a) → IsBelow self.new.most.items self.new.anywhere t a }
    {
        let count = self.anywhere_or_none();
        self.come_if(place, count);
    }

    /// The most codes with which a way goes to a target register; 0 where none does.
    fn anywhere_or_none(&self) -> u8
        ensures { result ≡ unwrap_or self.now.anywhere 0 }
    {
        match self.anywhere {
            None => 0,
            Some(most) => most,
        }
    }

    /// Follows the ways from a word on, before which so many codes are made.
    fn follow(&mut self, place: u32, before: u8, insn: &Insn)
        ensures { (t : List (Option ℕ)) (a : Option ℕ) → IsBelow self.old.most.items self.old.anywhere t a
            → LeadsBy t a place before insn.now → IsBelow self.new.most.items self.new.anywhere t a }
    {
        let count = kept_after_insn(insn, before);
        self.come_if(next_place(insn, place), count);
        self.come_if(skip_target(insn, place), count);
        self.leave_if(leaves_with(insn, count));
        self.aim_if(aimed_place(insn, place));
    }
}

/// Whether what was found is fewer than so many codes, or nothing.
fn is_fewer(found: Option<u8>, count: u8) -> bool {
    match found {
        None => true,
        Some(most) => most < count,
    }
}

/// How many codes ways make at most; None where they were not all followed.
pub(crate) fn codes_made(alloc: Global, image: &Image) -> Result<Option<CodeCounts>, AllocError>
    ensures { IfOk result (λ found. IfSome found (λ made. IsLeast image.now made.most.items made.anywhere)) }
{
    let mut made = begun(alloc, image)?;
    for _round in 0..MOST_ROUNDS {
        made.is_changed = false;
        follow_all(image, &mut made);
        if !made.is_changed {
            return Ok(Some(made));
        }
    }
    Ok(None)
}

/// That ways come to the entries of the processors, with no code.
#[tactic(auto, using(crate::proofs::LeastTables::least_begun))]
fn begun(alloc: Global, image: &Image) -> Result<CodeCounts, AllocError>
    ensures { IfOk result (λ made. IsLeast image.now made.most.items made.anywhere) }
{
    let mut made = CodeCounts {
        most: vec![in alloc; None; image.program().len()]?,
        anywhere: None,
        is_changed: false,
    };
    for processor in 0..image.processors() {
        come_to_entry(image, &mut made, processor);
    }
    Ok(made)
}

/// That a way comes to the entry of a processor, with no code.
fn come_to_entry(image: &Image, made: &mut CodeCounts, processor: usize)
    ensures { IsLeast image.now made.old.most.items made.old.anywhere
        → IsLeast image.now made.new.most.items made.new.anywhere }
{
    let Some(entry) = image.entry(processor) else {
        return;
    };
    made.come(entry, 0);
}

/// Follows the ways from each word on, in their order.
fn follow_all(image: &Image, made: &mut CodeCounts)
    ensures { IsLeast image.now made.old.most.items made.old.anywhere
        → IsLeast image.now made.new.most.items made.new.anywhere }
{
    for place in 0..made.most.len() {
        let Ok(place) = u32::try_from(place) else {
            return;
        };
        follow_from(image, made, place);
    }
}

/// Follows the ways from a word on, if one comes to it.
fn follow_from(image: &Image, made: &mut CodeCounts, place: u32)
    ensures { IsLeast image.now made.old.most.items made.old.anywhere
        → IsLeast image.now made.new.most.items made.new.anywhere }
{
    let Some(before) = most_at(&made.most, place) else {
        return;
    };
    let Some(insn) = insn_at(image, place) else {
        return;
    };
    made.follow(place, before, &insn);
}
