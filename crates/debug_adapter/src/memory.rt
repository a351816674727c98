//! The memory as bytes.

use crate::adapter::Adapter;
use crate::code::read_reference;
use crate::refusals::Refusal;
use adapter_messages::DapRequest;
use base64::engine::general_purpose::STANDARD;
use editor_wire::Json;

/// The most bytes that are shown at once: all of the largest memory.
const MOST_BYTES: u64 = 2_097_152;

impl<'a, 'i, 't> Adapter<'a, 'i, 't> {
    /// Bytes of the memory. A word's eight bytes begin with the highest.
    pub(crate) fn read_memory(&self, request: &DapRequest, body: &mut Json) -> Result<(), Refusal> {
        let Some(place) = request.text("memoryReference").and_then(read_reference) else {
            return Err(Refusal::Words("this is no address of the memory"));
        };
        let count = bytes_asked(request)?;
        let offset = whole_number(request, "offset")?;
        let first = place.checked_add_signed(offset).unwrap_or(u64::MAX);
        if self.byte_at(first).is_none() {
            return Err(Refusal::Words("there is no word at this address"));
        }
        let mut bytes = Vec::new(self.alloc);
        for index in 0..count {
            let Some(byte) = self.byte_at(first.saturating_add(index)) else {
                break;
            };
            bytes.push(byte)?;
        }
        body.open();
        body.reference_of("address", first);
        body.number_of("unreadableBytes", count.saturating_sub(bytes.len() as u64));
        let text = STANDARD.encode(self.alloc, &bytes)?;
        body.text_of("data", &text);
        body.close();
        Ok(())
    }

    /// The byte at a byte address; None where there is none.
    fn byte_at(&self, address: u64) -> Option<u8> {
        let place = address % 8;
        let word = self.named.session.machine().word(address - place)?;
        let shifted = word.value() >> (8 * (7 - place));
        Some((shifted & 0xFF) as u8)
    }
}

/// How many bytes are asked for.
fn bytes_asked(request: &DapRequest) -> Result<u64, Refusal> {
    match request.number_or("count", 0) {
        Some(count) if count <= MOST_BYTES => Ok(count),
        Some(_) => Err(Refusal::Words("at most 2097152 bytes are shown at once")),
        None => Err(Refusal::Words("count takes a number of bytes")),
    }
}

/// An argument that is a whole number, 0 where it is left out.
pub(crate) fn whole_number(request: &DapRequest, name: &str) -> Result<i64, Refusal> {
    match request.integer(name) {
        Some(number) => Ok(number),
        None => Err(Refusal::Words("offsets and counts are whole numbers within 2^63 of 0")),
    }
}
