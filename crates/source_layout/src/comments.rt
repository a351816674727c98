//! The comments of a text.

ghost use Rattle.std.specs.Prelude.{◌≡◌, ◌++◌, IsTrue, IfOk, OnOk};
ghost use Rattle.std.specs.Option.{option_copied, option_map};
ghost use Rattle.asm_line.specs.Text.{is_blank};
ghost use Rattle.text_parts.specs.Pieces.{text_after};
ghost use Rattle.source_layout.specs.Comments.{without_last_blanks, comment_on, comments_of};
ghost use Rattle.source_layout.specs.CommentsSeen.{comments_seen};

use std::alloc::{AllocError, Global};
use text_parts::cut;

/// A comment of a text.
#[derive(Clone, Copy, PartialEq)]
struct Comment<'t> {
    /// Its line, from 0.
    number: usize,
    /// Its bytes, without the semicolon and the blanks at its end.
    bytes: &'t [u8],
}

/// Whether two texts have the same comments on the same lines. Only memory can be missing.
pub(crate) fn have_same_comments(
    alloc: Global,
    text: &[u8],
    other: &[u8],
) -> Result<bool, AllocError>
    ensures { IfOk result (λ same. IsTrue same → comments_of text.now ≡ comments_of other.now) }
{
    let comments = comments_of(alloc, text)?;
    let others = comments_of(alloc, other)?;
    Ok(are_same(&comments, &others))
}

/// Whether comments are the same.
#[tactic(auto, using(crate::proofs::SameComments::same_seen))]
fn are_same(comments: &[Comment], others: &[Comment]) -> bool
    ensures { IsTrue result → comments_seen comments.now ≡ comments_seen others.now }
{
    comments == others
}

/// The comments of a text, in the order of its lines.
fn comments_of(alloc: Global, text: &[u8]) -> Result<Vec<Comment<'_>>, AllocError>
    ensures { IfOk result (λ comments. comments_seen comments.items ≡ comments_of text.now) }
{
    let mut comments = Vec::new(alloc);
    let mut number = 0;
    let mut rest = Some(text);
    while let Some(bytes) = rest {
        let (line, following) = cut(bytes, b'\n');
        note_comment(&mut comments, number, line)?;
        number += 1;
        rest = following;
    }
    Ok(comments)
}

/// Adds the comment of a line, where it has one.
fn note_comment<'t>(
    comments: &mut Vec<Comment<'t>>,
    number: usize,
    line: &'t [u8],
) -> Result<(), AllocError>
    ensures { OnOk result (comments_seen comments.new.items
        ≡ comments_seen comments.old.items ++ comment_on number (text_after 59 line.entry.now)) }
{
    if let Some(bytes) = comment_of(line) {
        comments.push(Comment { number, bytes })?;
    }
    Ok(())
}

/// What follows the first semicolon of a line, without the blanks at its end; None where there is none.
pub(crate) fn comment_of(line: &[u8]) -> Option<&[u8]>
    ensures { option_copied result ≡ option_map without_last_blanks (text_after 59 line.now) }
{
    let (_, comment) = cut(line, b';');
    Some(without_last_blanks(comment?))
}

/// The bytes without the blanks at their end.
fn without_last_blanks(bytes: &[u8]) -> &[u8]
    ensures { result.now ≡ without_last_blanks bytes.now }
{
    let mut rest = bytes;
    while let [front @ .., last] = rest {
        if !is_blank(*last) {
            return rest;
        }
        rest = front;
    }
    rest
}

/// A space, a tab or a carriage return.
fn is_blank(byte: u8) -> bool
    ensures { result ≡ is_blank byte }
{
    matches!(byte, b' ' | b'\t' | b'\r')
}
