//! The fixes of messages, each of which was tried.

ghost use Rattle.std.specs.Prelude.{◌≡◌, is_err, length, IfOk, IfSome, IsTrue};
ghost use Rattle.std.specs.List.{All};
ghost use Rattle.asm_text.specs.Sources.{meaning_of};
ghost use Rattle.editor_texts.specs.Edits.{edited, edits_seen, are_apart};
ghost use Rattle.fault_messages.specs.Messages.{has_error};
ghost use Rattle.source_fixes.specs.Mending.{Mends};

use crate::mending::{count_of, is_mended};
use editor_texts::{TextEdit, edited};
use fault_messages::{Message, Severity};
use source_cures::{CureFinder, Fix};
use source_faults::check_source;
use std::alloc::{AllocError, Global};

/// How many messages of a text get fixes at most, the first ones that are asked for.
pub const MOST_MESSAGES: usize = 50;

/// How many bytes of texts are checked at most to try fixes of one text. One of more than half as many has no fixes.
pub const MOST_BYTES: usize = 8_000_000;

/// Finds the fixes of messages about one text.
#[derive(Drop)]
pub struct FixFinder<'t> {
    alloc: Global,
    text: &'t [u8],
    cures: CureFinder<'t>,
    before: Vec<Message>,
    count: usize,
    messages_left: usize,
    bytes_left: usize,
}

impl<'t> FixFinder<'t> {
    /// Of a text in ASCII, as the assembler reads it; None of one that is too long. Only memory can be missing.
    pub fn of(alloc: Global, text: &'t [u8]) -> Result<Option<FixFinder<'t>>, AllocError>
        ensures text { IfOk result (λ o. IfSome o (λ f. f.text.now ≡ text.now)) }
        ensures before { IfOk result (λ o. IfSome o (λ f. has_error f.before.items ≡ is_err (meaning_of text.now))) }
    {
        if text.len() > MOST_BYTES / 2 {
            return Ok(None);
        }
        let before = check_source(alloc, text)?;
        let count = count_of(alloc, text)?;
        let cures = CureFinder::of(alloc, text)?;
        Ok(Some(FixFinder {
            alloc,
            text,
            cures,
            before,
            count,
            messages_left: MOST_MESSAGES,
            bytes_left: MOST_BYTES,
        }))
    }

    /// The fixes of a message of `check` about the text, the likeliest first: each was tried, and mends the text. After a fix
    /// of an error the text has fewer errors; after one of a warning it has none, and fewer messages. None are looked for
    /// where enough was tried. Only memory can be missing.
    pub fn fixes(&mut self, message: &Message) -> Result<Vec<Fix>, AllocError>
        ensures mend { IfOk result (λ fs. All (λ f. Mends message.now.severity self.old.before.items
            (edited 0 self.old.text.now (edits_seen f.edits.items))) fs.items) }
        ensures apart { IfOk result (λ fs. All (λ f. IsTrue (are_apart 0 (length self.old.text.now)
            (edits_seen f.edits.items))) fs.items) }
        ensures text { self.new.text.now ≡ self.old.text.now }
        ensures before { self.new.before.items ≡ self.old.before.items }
    {
        let proposed = self.proposed(message)?;
        let tried = self.may_try(proposed.len());
        mending_among(
            self.alloc,
            self.text,
            &self.before,
            self.count,
            message.severity,
            proposed,
            tried,
        )
    }

    /// What a message's sentence describes.
    fn proposed(&self, message: &Message) -> Result<Vec<Fix>, AllocError> {
        if self.messages_left > 0 {
            self.cures.proposed(message)
        } else {
            Ok(Vec::new(self.alloc))
        }
    }

    /// How many of so many fixes of one message may be tried, which are then counted.
    fn may_try(&mut self, wanted: usize) -> usize
        ensures text { self.new.text.now ≡ self.old.text.now }
        ensures before { self.new.before.items ≡ self.old.before.items }
    {
        let length = self.text.len();
        let count = match self.bytes_left.checked_div(length) {
            Some(most) => wanted.min(most),
            None => wanted,
        };
        self.bytes_left = self.bytes_left.saturating_sub(count.saturating_mul(length));
        if wanted > 0 {
            self.messages_left = self.messages_left.saturating_sub(1);
        }
        count
    }
}

/// Those of the first fixes that mend a text.
fn mending_among(
    alloc: Global,
    text: &[u8],
    before: &[Message],
    count: usize,
    severity: Severity,
    proposed: Vec<Fix>,
    tried: usize,
) -> Result<Vec<Fix>, AllocError>
    ensures mend { IfOk result (λ fs. All (λ f. Mends severity before.now
        (edited 0 text.now (edits_seen f.edits.items))) fs.items) }
    ensures apart { IfOk result (λ fs. All (λ f. IsTrue (are_apart 0 (length text.now)
        (edits_seen f.edits.items))) fs.items) }
{
    let mut fixes = Vec::new(alloc);
    let mut left = tried;
    for fix in proposed {
        if left > 0 && mends(alloc, text, before, count, severity, &fix.edits)? {
            fixes.push(fix)?;
        }
        left = left.saturating_sub(1);
    }
    Ok(fixes)
}

/// Whether edits of a text stand apart, and mend it.
fn mends(
    alloc: Global,
    text: &[u8],
    before: &[Message],
    count: usize,
    severity: Severity,
    edits: &[TextEdit],
) -> Result<bool, AllocError>
    ensures mend { IfOk result (λ b. IsTrue b → Mends severity before.now (edited 0 text.now (edits_seen edits.now))) }
    ensures apart { IfOk result (λ b. IsTrue b → IsTrue (are_apart 0 (length text.now) (edits_seen edits.now))) }
{
    match edited(alloc, text, edits)? {
        Some(made) => is_mended(alloc, severity, before, count, &made),
        None => Ok(false),
    }
}
