//! Lists in cells.

use plain_text::{TextWriter, front_of};

/// How many characters of a list a cell shows, but for the rest of an item.
const MOST_LISTED: usize = 200;

/// Adds a list of items with commas or semicolons between them, such as the words that a run changes, or who waits: of a long
/// one the items up to that which the 200th character is in.
pub fn put_list(out: &mut TextWriter, list: &str) {
    let front = front_of_list(list);
    out.put(front);
    put_cut(out, front, list);
}

/// The same without control bytes.
pub fn put_plain_list(out: &mut TextWriter, list: &str) {
    let front = front_of_list(list);
    out.put_plain(front);
    put_cut(out, front, list);
}

/// Adds that a list is longer than what is shown of it, where it is.
fn put_cut(out: &mut TextWriter, front: &str, list: &str) {
    let rest = list.get(front.len()..).unwrap_or("");
    if !rest.is_empty() {
        out.put(if rest.starts_with("; ") {
            "; .."
        } else {
            ", .."
        });
    }
}

/// The items of a list that a cell shows.
fn front_of_list(list: &str) -> &str {
    let front = front_of(list, MOST_LISTED);
    let rest = list.get(front.len()..).unwrap_or("");
    let item = before(before(rest, "; "), ", ");
    let end = front.len().saturating_add(item.len());
    list.get(..end).unwrap_or(front)
}

/// What stands before the first of what separates items; all where none does.
fn before<'t>(text: &'t str, separator: &str) -> &'t str {
    match text.split_once(separator) {
        Some((front, _)) => front,
        None => text,
    }
}
