//! The rows of a merged table, and the submissions that no kept result is of.

ghost use Rattle.std.specs.Prelude.{◌≡◌, IfOk, None, slice_index_or};
ghost use Rattle.class_results.specs.MergedTables.{rows_by, missing_by};

use std::alloc::{AllocError, Global};

/// A row of a merged table.
#[derive(Clone, Copy, Debug)]
pub struct MergedRow<'a> {
    /// The path of the submission.
    pub submission: &'a str,
    /// The index of a kept result of it.
    pub kept: usize,
}

/// A merged table.
#[derive(Drop)]
pub struct MergedTable<'a> {
    /// The rows of the submissions of which a result was found, in the order of the class.
    pub rows: Vec<MergedRow<'a>>,
    /// The other submissions, in this order too.
    pub missing: Vec<&'a str>,
}

/// The table of a class, where it is known of each submission of which kept result it is, if of one.
pub fn merged_table<'a>(
    alloc: Global,
    class: &[&'a str],
    found: &[Option<usize>],
) -> Result<MergedTable<'a>, AllocError>
    ensures rows { IfOk result (λ t. t.rows.items ≡ rows_by found.now class.now) }
    ensures missing { IfOk result (λ t. t.missing.items ≡ missing_by found.now class.now) }
{
    let mut rows = Vec::new(alloc);
    let mut missing = Vec::new(alloc);
    for place in 0..class.len() {
        let submission = class[place];
        match found_at(found, place) {
            Some(kept) => rows.push(MergedRow { submission, kept })?,
            None => missing.push(submission)?,
        }
    }
    Ok(MergedTable { rows, missing })
}

/// The index of the kept result that was found of the submission of a place; None where none was.
fn found_at(found: &[Option<usize>], place: usize) -> Option<usize>
    ensures { result ≡ slice_index_or found.now place None }
{
    match found.get(place) {
        Some(found) => *found,
        None => None,
    }
}
