//! Labels of data where an operand stands.

use crate::form::OperandForm;
use crate::reader::Reader;
use crate::references::free_register;
use fault_messages::Notes;
use plain_text::TextWriter;
use std::alloc::AllocError;

/// The last displacement of a reference.
const LAST_DISPLACEMENT: usize = 31;

/// Adds how to reach the data on the line of a label, or of a comment that is its name, in brackets or not, that stands as
/// an operand of this form, and answers whether there is such data.
pub(crate) fn put_data_help(
    notes: &mut Notes,
    reader: &Reader,
    form: OperandForm,
    operand: &[u8],
) -> Result<bool, AllocError> {
    let Some(address) = address_of(notes, reader, unbracketed(operand))? else {
        return Ok(false);
    };
    put_data_at(&mut notes.help, reader, form, address);
    Ok(true)
}

/// Whether a label, or a comment that is this name, stands on a line of data. If enough was looked for, it is as if not.
pub(crate) fn is_data(notes: &mut Notes, reader: &Reader, name: &[u8]) -> Result<bool, AllocError> {
    Ok(address_of(notes, reader, name)?.is_some())
}

/// Adds how an operand of this form reaches the data at an address.
fn put_data_at(help: &mut TextWriter, reader: &Reader, form: OperandForm, address: usize) {
    let words = address / 8;
    help.put("this data is [");
    help.put_number(address as u64);
    let is_place = matches!(form, OperandForm::Base | OperandForm::Displacement);
    if words > LAST_DISPLACEMENT {
        put_pointer(help, free_register(reader), is_place, address);
        return;
    }
    help.put(if is_place {
        "]: write r0, "
    } else {
        "]: LOAD.N and STORE.N reach it by r0, "
    });
    help.put_number(words as u64);
}

/// Adds how a pointer in a register reaches the data at an address, in the place of the operand or in another statement.
fn put_pointer(help: &mut TextWriter, pointer: &str, is_place: bool, address: usize) {
    help.put(if is_place {
        "]: write LIT "
    } else {
        "]: after LIT "
    });
    help.put_all(&[pointer, ", "]);
    help.put_number(address as u64);
    help.put(if is_place {
        " and then "
    } else {
        " LOAD.N and STORE.N reach it by "
    });
    help.put_all(&[pointer, ", 0"]);
}

/// The address of the data on the line of a label, or of a comment that is this name; None where there is no such data, or
/// enough was looked for.
fn address_of(
    notes: &mut Notes,
    reader: &Reader,
    name: &[u8],
) -> Result<Option<usize>, AllocError> {
    let place = reader.place_of(name);
    if place.is_none() && !reader.may_be_label(name) || !notes.may_suggest() {
        return Ok(None);
    }
    let alloc = notes.alloc();
    match place {
        Some(place) => Ok(reader.data_lines(alloc)?.address(place.line)),
        None => reader.address_named(alloc, name),
    }
}

/// An operand without brackets around it.
fn unbracketed(operand: &[u8]) -> &[u8] {
    match operand {
        [b'[', inner @ .., b']'] => inner,
        _ => operand,
    }
}
