//! Operands as the lines of a right text have them.

/// A piece of a line.
#[derive(Clone, Copy)]
pub(crate) struct LinePiece<'t> {
    /// How many bytes of the line stand before it.
    pub(crate) start: usize,
    /// Its bytes.
    pub(crate) bytes: &'t [u8],
}

impl<'t> LinePiece<'t> {
    /// What stands from a place of the piece on.
    fn from(self, place: usize) -> LinePiece<'t> {
        LinePiece {
            start: self.start.saturating_add(place),
            bytes: self.bytes.get(place..).unwrap_or(&[]),
        }
    }

    /// What stands before the first of a byte, or all of the piece.
    fn before(self, byte: u8) -> LinePiece<'t> {
        match self.bytes.iter().position(|other| *other == byte) {
            Some(place) => LinePiece {
                start: self.start,
                bytes: self.bytes.get(..place).unwrap_or(&[]),
            },
            None => self,
        }
    }

    /// What stands after the first of a byte; None where there is none.
    fn after(self, byte: u8) -> Option<LinePiece<'t>> {
        let place = self.bytes.iter().position(|other| *other == byte)?;
        Some(self.from(place.saturating_add(1)))
    }

    /// The piece without the blanks at its ends.
    fn trimmed(self) -> LinePiece<'t> {
        let mut first = self.bytes.len();
        let mut end = 0usize;
        for (place, byte) in self.bytes.iter().enumerate() {
            if !is_blank(*byte) {
                first = first.min(place);
                end = place.saturating_add(1);
            }
        }
        LinePiece {
            start: self.start.saturating_add(first),
            bytes: self.bytes.get(first..end).unwrap_or(&[]),
        }
    }

    /// What stands after the head of the piece and the blanks after it.
    fn after_head(self) -> LinePiece<'t> {
        match self.bytes.iter().position(|byte| is_blank(*byte)) {
            Some(place) => self.from(place).trimmed(),
            None => self.from(self.bytes.len()),
        }
    }
}

fn is_blank(byte: u8) -> bool {
    byte == b' ' || byte == b'\t' || byte == b'\r'
}

/// The statement of a line: what stands after its label, and before its comment.
pub(crate) fn statement_of(line: &[u8]) -> LinePiece<'_> {
    let whole = LinePiece {
        start: 0,
        bytes: line,
    };
    let code = whole.before(b';');
    match code.after(b':') {
        Some(statement) => statement.trimmed(),
        None => code.trimmed(),
    }
}

/// The base of a line's reference, which stands in the first operation of its statement.
pub(crate) fn base_operand(line: &[u8]) -> LinePiece<'_> {
    let statement = statement_of(line);
    let instruction = if statement.bytes.starts_with(b"@") {
        statement.after_head()
    } else {
        statement
    };
    let first = instruction.before(b'|').trimmed();
    match first.after_head().after(b',') {
        Some(rest) => rest.before(b',').trimmed(),
        None => first,
    }
}

/// The label that is the last operand of a line's LIT; None where that is a number.
pub(crate) fn label_operand(line: &[u8]) -> Option<&[u8]> {
    let operand = statement_of(line).after(b',')?.trimmed().bytes;
    match operand.first() {
        Some(b'0'..=b'9') | None => None,
        Some(_) => Some(operand),
    }
}
