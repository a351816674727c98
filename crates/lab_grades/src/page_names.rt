//! What the pages of submissions are called, and the texts for their students.

use crate::student_folders::moodle_folder;
use plain_text::{TextWriter, stem_of};
use std::alloc::{AllocError, Global};
use std::collections::HashMap;

/// How many submissions have a text, by the text.
type Counts<'t> = HashMap<&'t [u8], usize>;

/// The names of the pages and texts of submissions, in their order, no two alike: that of the file without its ending.
/// Before it stands the folder that Moodle made for the student; else, where several files have the name, the folders of
/// the path without those in which all submissions lie. What a link or a system does not take is written as `_`. The
/// second submission that would have a name has `-2` after it, and so on.
pub(crate) fn page_names(alloc: Global, paths: &[&str]) -> Result<Vec<String>, AllocError> {
    let shared = shared_folders(paths);
    let stems = stems_of(alloc, paths)?;
    let of_stem = counts_of(alloc, &stems)?;
    let mut names = Vec::new(alloc);
    for (path, stem) in paths.iter().zip(stems.iter()) {
        let folders = if count_in(&of_stem, stem) > 1 {
            folders_of(path).get(shared..).unwrap_or("")
        } else {
            ""
        };
        names.push(page_name(alloc, path, folders, stem)?)?;
    }
    set_apart(alloc, &names)
}

/// The names of files without their endings, as links and systems take them.
fn stems_of(alloc: Global, paths: &[&str]) -> Result<Vec<String>, AllocError> {
    let mut stems = Vec::new(alloc);
    for path in paths {
        stems.push(plain_name(alloc, stem_of(path))?)?;
    }
    Ok(stems)
}

/// The name of a page after the folder that Moodle made, or else after these folders.
fn page_name(alloc: Global, path: &str, folders: &str, stem: &str) -> Result<String, AllocError> {
    let folder = match moodle_folder(path) {
        Some(folder) => moodle_name(alloc, folder)?,
        None => folders_name(alloc, folders)?,
    };
    joined(alloc, &folder, stem)
}

/// The folders of a path, with a slash after each.
fn folders_of(path: &str) -> &str {
    match path.rsplit_once('/') {
        Some((folders, _)) => path.get(..folders.len().saturating_add(1)).unwrap_or(""),
        None => "",
    }
}

/// How many bytes the folders have with which all paths begin.
fn shared_folders(paths: &[&str]) -> usize {
    let mut shared = match paths.first() {
        Some(path) => folders_of(path),
        None => "",
    };
    for path in paths {
        let most = shared_length(shared, folders_of(path));
        shared = shared.get(..most).unwrap_or("");
    }
    shared.len()
}

/// How many bytes the folders have with which both lists of folders begin.
fn shared_length(one: &str, other: &str) -> usize {
    let mut length: usize = 0;
    for (folder, theirs) in one.split_inclusive('/').zip(other.split_inclusive('/')) {
        if folder != theirs {
            return length;
        }
        length = length.saturating_add(folder.len());
    }
    length
}

/// How many times each text is in a list.
fn counts_of(alloc: Global, texts: &[String]) -> Result<Counts<'_>, AllocError> {
    let mut counts = HashMap::new(alloc);
    for text in texts {
        let count = count_in(&counts, text);
        counts.insert(text.as_bytes(), count.saturating_add(1))?;
    }
    Ok(counts)
}

/// How often a text was counted.
fn count_in(counts: &Counts<'_>, text: &str) -> usize {
    counts.get(text.as_bytes()).copied().unwrap_or(0)
}

/// The same names, of which those that were there before have a number after them, so that no name is there that another one
/// has without a number.
fn set_apart(alloc: Global, names: &[String]) -> Result<Vec<String>, AllocError> {
    let all = counts_of(alloc, names)?;
    let mut last = HashMap::new(alloc);
    let mut apart = Vec::new(alloc);
    for name in names {
        let before = count_in(&last, name);
        let number = free_number(alloc, &all, name, before, names.len())?;
        last.insert(name.as_bytes(), number)?;
        apart.push(numbered(alloc, name, number)?)?;
    }
    Ok(apart)
}

/// The first number after this one with which no other name is this name: 1 stands for none.
fn free_number(
    alloc: Global,
    all: &Counts<'_>,
    name: &str,
    before: usize,
    most: usize,
) -> Result<usize, AllocError> {
    let mut number = before.saturating_add(1);
    // (one of so many is free)
    for _ in 0..=most {
        if number == 1 || count_in(all, &numbered(alloc, name, number)?) == 0 {
            return Ok(number);
        }
        number = number.saturating_add(1);
    }
    Ok(number)
}

/// A name with its number, unless that is 1.
fn numbered(alloc: Global, name: &str, number: usize) -> Result<String, AllocError> {
    if number == 1 {
        return String::from_str(alloc, name);
    }
    format!(in alloc; "{name}-{number}")
}

/// A name after that of its folders, where these have one.
fn joined(alloc: Global, folder: &str, stem: &str) -> Result<String, AllocError> {
    if folder.is_empty() || folder.ends_with('_') {
        return format!(in alloc; "{folder}{stem}");
    }
    format!(in alloc; "{folder}_{stem}")
}

/// The name of folders, apart by `_`, without those that say no place of their own, and without the points before a name,
/// which would hide the file.
fn folders_name(alloc: Global, folders: &str) -> Result<String, AllocError> {
    let mut out = String::new(alloc);
    for folder in folders.split('/') {
        let folder = folder.trim_start_matches('.');
        if folder.is_empty() {
            continue;
        }
        let name = plain_name(alloc, folder)?;
        out = joined(alloc, &out, &name)?;
    }
    Ok(out)
}

/// The name of a folder that Moodle made, in which blanks stay: Moodle takes a text back by this name.
fn moodle_name(alloc: Global, folder: &str) -> Result<String, AllocError> {
    let mut out = TextWriter::new(alloc);
    for letter in folder.trim_start_matches('.').chars() {
        out.put_letter(if letter == ' ' {
            ' '
        } else {
            plain_letter(letter)
        });
    }
    out.take_text()
}

/// A name with `_` for each letter that a link or a system does not take.
fn plain_name(alloc: Global, name: &str) -> Result<String, AllocError> {
    let mut out = TextWriter::new(alloc);
    for letter in name.chars() {
        out.put_letter(plain_letter(letter));
    }
    out.take_text()
}

/// A letter as it stands in the name of a page.
fn plain_letter(letter: char) -> char {
    match letter {
        '\u{0}'..=' ' | '\u{7f}'..='\u{9f}' => '_',
        '"' | '#' | '%' | '&' | '*' | ':' | '<' | '>' | '?' | '\\' | '|' => '_',
        _ => letter,
    }
}
