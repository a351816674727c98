//! Where comments are not ASCII.

/// The comments of a text that have a byte which is not ASCII.
#[derive(Clone, Copy, Debug)]
pub struct ForeignComments {
    /// How many lines have one, at least 1.
    pub count: usize,
    /// The line of the first, from 1.
    pub line: usize,
    /// How many bytes of the text stand before that line.
    pub start: usize,
    /// Its first byte that is not ASCII, from 1 on the line.
    pub column: usize,
    /// How many such bytes stand there one after another.
    pub width: usize,
}

/// The comments of a text that have a byte which is not ASCII; None where there is none.
pub fn foreign_comments(text: &[u8]) -> Option<ForeignComments> {
    let mut found = None;
    let mut number: usize = 1;
    let mut start: usize = 0;
    for line in text.split(|byte| *byte == b'\n') {
        if let Some(column) = foreign_column(line) {
            found = Some(with_one(found, line, number, start, column));
        }
        number = number.saturating_add(1);
        start = start.saturating_add(line.len()).saturating_add(1);
    }
    found
}

/// What is found with one comment more, which stands on the line of this number after so many bytes.
fn with_one(
    found: Option<ForeignComments>,
    line: &[u8],
    number: usize,
    start: usize,
    column: usize,
) -> ForeignComments {
    match found {
        Some(first) => ForeignComments {
            count: first.count.saturating_add(1),
            ..first
        },
        None => ForeignComments {
            count: 1,
            line: number,
            start,
            column: column.saturating_add(1),
            width: foreign_width(line, column),
        },
    }
}

/// How many bytes of a line stand before the first of its comment that is not ASCII.
fn foreign_column(line: &[u8]) -> Option<usize> {
    let mut is_comment = false;
    for (column, byte) in line.iter().enumerate() {
        if is_comment && !byte.is_ascii() {
            return Some(column);
        }
        is_comment = is_comment || *byte == b';';
    }
    None
}

/// How many bytes that are not ASCII stand on a line from this place on.
fn foreign_width(line: &[u8], column: usize) -> usize {
    let rest = line.get(column..).unwrap_or(&[]);
    rest.iter()
        .position(|byte| byte.is_ascii())
        .unwrap_or(rest.len())
}
