//! Messages cut out of the bytes that come in: a head with the length, an empty line, and so many bytes.

use std::alloc::{AllocError, Global};

/// The longest message that is taken, in bytes.
pub const MESSAGE_LIMIT: u64 = 8_388_608;

/// The longest head that is taken, in bytes.
const HEAD_LIMIT: usize = 4096;

/// What stands before a length, in letters of any case.
const LENGTH_NAME: &[u8] = b"Content-Length:";

/// What was cut out.
#[derive(Drop)]
pub enum Frame {
    /// The bytes of a message.
    Message(Vec<u8>),
    /// A message past the limit; its bytes are passed over.
    TooLong,
    /// Bytes that are no message's, and are passed over.
    NoMessage,
}

/// What came in and is not yet a whole message.
#[derive(Drop)]
pub struct Frames {
    alloc: Global,
    head: Vec<u8>,
    body: Vec<u8>,
    missing: u64,
    is_skipped: bool,
}

impl Frames {
    /// Nothing came in.
    pub fn new(alloc: Global) -> Frames {
        Frames {
            alloc,
            head: Vec::new(alloc),
            body: Vec::new(alloc),
            missing: 0,
            is_skipped: false,
        }
    }

    /// Takes the next byte, and gives what ends with it.
    pub fn take(&mut self, byte: u8) -> Result<Option<Frame>, AllocError> {
        if self.missing > 0 {
            return self.take_of_body(byte);
        }
        self.head.push(byte)?;
        if self.head.ends_with(b"\r\n\r\n") || self.head.ends_with(b"\n\n") {
            return self.end_head();
        }
        if self.head.len() >= HEAD_LIMIT {
            self.head.clear();
            return Ok(Some(Frame::NoMessage));
        }
        Ok(None)
    }

    /// Takes the next byte of a body.
    fn take_of_body(&mut self, byte: u8) -> Result<Option<Frame>, AllocError> {
        self.missing = self.missing.saturating_sub(1);
        if !self.is_skipped {
            self.body.push(byte)?;
        }
        if self.missing > 0 || self.is_skipped {
            return Ok(None);
        }
        Ok(Some(Frame::Message(self.taken_body())))
    }

    /// The body, which is no longer kept here.
    fn taken_body(&mut self) -> Vec<u8> {
        std::mem::replace(&mut self.body, Vec::new(self.alloc))
    }

    /// Begins a body, at the end of a head.
    fn end_head(&mut self) -> Result<Option<Frame>, AllocError> {
        let found = length_in(&self.head);
        self.head.clear();
        let Some((length, is_clean)) = found else {
            return Ok(Some(Frame::NoMessage));
        };
        self.missing = length;
        self.is_skipped = length > MESSAGE_LIMIT;
        if self.is_skipped {
            return Ok(Some(Frame::TooLong));
        }
        self.body = Vec::with_capacity(self.alloc, length as usize)?;
        if !is_clean {
            return Ok(Some(Frame::NoMessage));
        }
        if length == 0 {
            return Ok(Some(Frame::Message(self.taken_body())));
        }
        Ok(None)
    }
}

/// The last length that a head gives, and whether nothing stands before its name on the line; None if it gives none.
fn length_in(head: &[u8]) -> Option<(u64, bool)> {
    for place in (0..head.len()).rev() {
        let rest = head.get(place..).unwrap_or(b"");
        if let Some((name, value)) = rest.split_at_checked(LENGTH_NAME.len())
            && name.eq_ignore_ascii_case(LENGTH_NAME)
        {
            return Some((number_at(value)?, is_line_end(head, place)));
        }
    }
    None
}

/// Whether a line ends before this place.
fn is_line_end(head: &[u8], place: usize) -> bool {
    match place.checked_sub(1) {
        Some(before) => head.get(before).copied() == Some(b'\n'),
        None => true,
    }
}

/// The number at the begin of a text, after blanks; None where there is none, or it is no 64-bit number.
fn number_at(text: &[u8]) -> Option<u64> {
    let mut number = None;
    for byte in text {
        match (*byte, number) {
            (b' ', None) => {}
            (digit @ b'0'..=b'9', before) => {
                let value = u64::from(digit.saturating_sub(b'0'));
                number = Some(before.unwrap_or(0u64).checked_mul(10)?.checked_add(value)?);
            }
            _ => return number,
        }
    }
    number
}
