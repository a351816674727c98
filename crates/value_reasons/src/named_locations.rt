//! The registers and words that a text names.

use image_file::Image;
use lab_texts::{ProgramNames, RunPieces, TextWriter, plural};
use named_session::{UserName, read_name};
use processor::Step;
use std::alloc::{AllocError, Global};
use value_origins::Location;

/// Why a text names no register and no word of a program.
#[derive(Clone, Copy, Debug, PartialEq, Eq)]
pub enum LocationFault {
    /// It is a register of no stream that is said.
    NoStreamSaid,
    /// The program has no such stream.
    NoStream(Step),
    /// The memory has no word at this byte address.
    NoWord(u64),
    /// It is no address, and no name of a word.
    NoName,
}

/// The register or the word of a program that a text names: `2.0.r6`, or `r6` of the stream that is looked at, if one is;
/// else a word by its byte address or its name, each perhaps in brackets.
pub fn location_named(
    names: &ProgramNames<'_>,
    image: &Image,
    text: &str,
    here: Option<Step>,
) -> Result<Location, LocationFault> {
    if let Some(UserName::Register { stream, register }) = read_name(text) {
        return register_of(image, stream.or(here), register);
    }
    let Some(address) = names.address_of(text) else {
        return Err(LocationFault::NoName);
    };
    let bytes = (image.cells().len() as u64).saturating_mul(8);
    if address % 8 == 0 && address < bytes {
        Ok(Location::Word { address })
    } else {
        Err(LocationFault::NoWord(address))
    }
}

/// A register of a stream, where the program has this stream.
fn register_of(
    image: &Image,
    stream: Option<Step>,
    register: u8,
) -> Result<Location, LocationFault> {
    let Some(stream) = stream else {
        return Err(LocationFault::NoStreamSaid);
    };
    if usize::from(stream.p) < image.processors() && u16::from(stream.s) < image.slim() {
        Ok(Location::Register { stream, register })
    } else {
        Err(LocationFault::NoStream(stream))
    }
}

/// Adds why a text names no register and no word of a program. Memory may be missing to find which name may be meant.
pub fn put_location_fault(
    alloc: Global,
    out: &mut TextWriter,
    names: &ProgramNames<'_>,
    image: &Image,
    text: &str,
    fault: LocationFault,
) -> Result<(), AllocError> {
    match fault {
        LocationFault::NoStreamSaid => {
            out.put_plain(text);
            out.put(" is a register of each stream: say which, as 2.0.");
            out.put_plain(text);
        }
        LocationFault::NoStream(stream) => put_no_stream(out, image, stream),
        LocationFault::NoWord(address) => {
            out.put("the memory has no word at ");
            out.put_number(address);
            out.put(": multiples of 8 below ");
            out.put_number((image.cells().len() as u64).saturating_mul(8));
        }
        LocationFault::NoName => return names.put_no_address(alloc, out, text),
    }
    Ok(())
}

/// Adds that the program has no such stream, and which it has.
fn put_no_stream(out: &mut TextWriter, image: &Image, stream: Step) {
    let (processors, slim) = (image.processors(), image.slim());
    out.put("the program has no stream ");
    out.put_stream(stream.p, stream.s);
    out.put(", but ");
    out.put_number(processors as u64);
    out.put(" processor");
    out.put(plural(processors));
    out.put(" of ");
    out.put_number(u64::from(slim));
    out.put(" stream");
    out.put(plural(usize::from(slim)));
}

/// Adds the name of a location.
pub(crate) fn put_location(out: &mut TextWriter, names: &ProgramNames<'_>, location: Location) {
    match location {
        Location::Register { stream, register } => put_register(out, stream, ".r", register),
        Location::Target { stream, target } => put_register(out, stream, ".t", target),
        Location::Word { address } => names.put_address(out, address),
    }
}

/// Adds the name of a register of a stream.
fn put_register(out: &mut TextWriter, stream: Step, kind: &str, number: u8) {
    out.put_stream(stream.p, stream.s);
    out.put(kind);
    out.put_number(u64::from(number));
}
