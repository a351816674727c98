//! Whether a fix mends a text.

ghost use Rattle.std.specs.Prelude.{◌≡◌, false, is_err, IfOk, IfSome, IsTrue};
ghost use Rattle.asm_text.specs.Sources.{meaning_of};
ghost use Rattle.fault_messages.specs.Messages.{has_error};
ghost use Rattle.source_fixes.specs.Mending.{errors_in, HasFewerErrors, Mends};

use fault_messages::{Message, Severity};
use source_checks::{SourceText, source_messages};
use source_faults::check_source;
use std::alloc::{AllocError, Global};

/// How many of some messages are errors.
fn errors_in(messages: &[Message]) -> usize
    ensures { result ≡ errors_in messages.now }
{
    messages
        .iter()
        .filter(|message| message.severity == Severity::Error)
        .count()
}

/// Whether there is no error among some messages.
#[tactic(auto, using(crate::proofs::Fewer::no_error))]
fn is_error_free(messages: &[Message]) -> bool
    ensures { IsTrue result → has_error messages.now ≡ false }
{
    let errors = errors_in(messages);
    errors == 0
}

/// How many messages `check` has of a text.
pub(crate) fn count_of(alloc: Global, text: &[u8]) -> Result<usize, AllocError> {
    let source = SourceText::of(alloc, Vec::from_slice(alloc, text)?)?;
    let messages = source_messages(alloc, &source)?;
    Ok(messages.len())
}

/// Whether a text has fewer errors than were said before.
#[tactic(auto, using(crate::proofs::Fewer::fewer_errors))]
fn has_fewer_errors(alloc: Global, before: &[Message], made: &[u8]) -> Result<bool, AllocError>
    ensures { IfOk result (λ b. IsTrue b → HasFewerErrors before.now made.now) }
{
    let after = check_source(alloc, made)?;
    let is_less = errors_in(&after) < errors_in(before);
    Ok(is_less)
}

/// Whether a text has no error, and fewer messages than so many.
fn has_fewer_messages(alloc: Global, count: usize, made: &[u8]) -> Result<bool, AllocError>
    ensures { IfOk result (λ b. IsTrue b → is_err (meaning_of made.now) ≡ false) }
{
    let after = check_source(alloc, made)?;
    if !is_error_free(&after) {
        return Ok(false);
    }
    Ok(count_of(alloc, made)? < count)
}

/// Whether a text is mended, by what was said before of it: where an error was to be mended it has fewer of them; else none,
/// and fewer messages than so many.
pub(crate) fn is_mended(
    alloc: Global,
    severity: Severity,
    before: &[Message],
    count: usize,
    made: &[u8],
) -> Result<bool, AllocError>
    ensures { IfOk result (λ b. IsTrue b → Mends severity before.now made.now) }
{
    match severity {
        Severity::Error => has_fewer_errors(alloc, before, made),
        Severity::Warning => has_fewer_messages(alloc, count, made),
    }
}
