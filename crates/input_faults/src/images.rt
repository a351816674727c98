//! Images.

ghost use Rattle.std.specs.Prelude.{◌≡◌, ◌<◌, ◌^◌, IfOk};
ghost use Rattle.fault_messages.specs.declared.message.Severity.TheVariants as severity;

use fault_messages::{Message, Severity};
use image_file::{CountField, ImageFault};
use plain_text::{TextWriter, plural};
use std::alloc::{AllocError, Global};

/// Where in a file a fault stands, and how it may be mended.
#[derive(Clone, Copy)]
struct FaultPlace {
    place: usize,
    width: usize,
    help: &'static str,
}

/// The fault of the bytes of an image in words, as an error on line 1; its column is the place of the byte in the file,
/// from 1.
pub fn image_fault_words(
    alloc: Global,
    bytes: &[u8],
    fault: ImageFault,
) -> Result<Message, AllocError>
    ensures error { IfOk result (λ message. message.severity ≡ severity.Error) }
    ensures line { IfOk result (λ message. message.line ≡ 1) }
{
    let mut words = TextWriter::new(alloc);
    let FaultPlace { place, width, help } = report_fault(&mut words, bytes, fault);
    Ok(Message {
        severity: Severity::Error,
        number: None,
        line: 1,
        column: place.saturating_add(1),
        width,
        words: words.take_text()?,
        help: Some(String::from_str(alloc, help)?),
        start: 0,
    })
}

/// Adds the words for a fault, and answers where it stands.
fn report_fault(words: &mut TextWriter, bytes: &[u8], fault: ImageFault) -> FaultPlace {
    let layout = HeaderCounts::of(bytes);
    match fault {
        ImageFault::Short => report_short(words, bytes.len()),
        ImageFault::Magic => {
            words.put("the file does not begin with the letters MTAP");
            FaultPlace {
                place: 0,
                width: 4,
                help: "it is no image: sources are assembled first",
            }
        }
        ImageFault::Version => report_version(words, bytes),
        ImageFault::Count(field) => layout.report_count(words, bytes, field),
        ImageFault::Entry(processor) => layout.report_entry(words, bytes, processor),
        ImageFault::TagByte(word) => layout.report_tags(words, bytes, word),
        ImageFault::Trailing => {
            words.put("bytes follow the last data word");
            FaultPlace {
                place: layout.length(),
                width: 1,
                help: "the file was joined with something else, or its counts are wrong",
            }
        }
        ImageFault::NoMemory => {
            words.put("there is no memory for the image");
            FaultPlace {
                place: 0,
                width: 1,
                help: "give the program more memory",
            }
        }
    }
}

/// Adds that a file of so many bytes ends too soon.
fn report_short(words: &mut TextWriter, length: usize) -> FaultPlace {
    words.put("the file ends too soon, after ");
    words.put_number(length as u64);
    words.put_all(&[" byte", plural(length)]);
    FaultPlace {
        place: length,
        width: 1,
        help: "it was cut off: copy or assemble it again",
    }
}

/// Adds that the version is none of those that there are.
fn report_version(words: &mut TextWriter, bytes: &[u8]) -> FaultPlace {
    words.put("the version is ");
    words.put_number(u64::from(number_at(bytes, 4, 2)));
    words.put(", and not 1 or 2");
    FaultPlace {
        place: 4,
        width: 2,
        help: "another version of the tool made it: assemble its source again",
    }
}

/// How much the header of an image says there is ("Image files", docs/FORMATS.md).
#[derive(Clone, Copy)]
struct HeaderCounts {
    header: u8,
    processors: u32,
    words: u32,
    cells: u32,
}

impl HeaderCounts {
    fn of(bytes: &[u8]) -> HeaderCounts {
        let header = if number_at(bytes, 4, 2) == 2 { 28 } else { 26 };
        let counts = usize::from(header) - 8;
        HeaderCounts {
            header,
            processors: number_at(bytes, 6, 2),
            words: number_at(bytes, counts, 4),
            cells: number_at(bytes, counts + 4, 4),
        }
    }

    /// Where the data words begin.
    fn cells_place(self) -> usize
        ensures { result < 2 ^ 36 }
    {
        usize::from(self.header) + 4 * self.processors as usize + 8 * self.words as usize
    }

    /// How many bytes the file has to have.
    fn length(self) -> usize {
        self.cells_place() + 9 * self.cells as usize
    }

    /// Adds that one of the counts is out of its limits.
    fn report_count(self, words: &mut TextWriter, bytes: &[u8], field: CountField) -> FaultPlace {
        let counts = usize::from(self.header).saturating_sub(8);
        let (place, width, name, limits) = match field {
            CountField::Processors => (6, 2, "number of processors", "1 to 16"),
            CountField::Slim => (8, 2, "most streams of a processor", "1 to 128"),
            CountField::Chain => (10, 2, "chain limit", "0 to 64"),
            CountField::Program => (counts, 4, "number of program words", "1 to 65536"),
            CountField::Cells => {
                (
                    counts.saturating_add(4),
                    4,
                    "number of data words",
                    "1 to 262144",
                )
            }
        };
        words.put_all(&["the ", name, " is "]);
        words.put_number(u64::from(number_at(bytes, place, width)));
        words.put_all(&[", and not ", limits]);
        FaultPlace {
            place,
            width,
            help: "see Images in MACHINE.md",
        }
    }

    /// Adds that a processor begins past the program.
    fn report_entry(self, words: &mut TextWriter, bytes: &[u8], processor: u8) -> FaultPlace {
        let place = usize::from(self.header) + 4 * usize::from(processor);
        words.put("processor ");
        words.put_number(u64::from(processor));
        words.put(" begins at word ");
        words.put_number(u64::from(number_at(bytes, place, 4)));
        words.put(" of a program of ");
        words.put_number(u64::from(self.words));
        words.put_all(&[" word", plural(self.words as usize)]);
        FaultPlace {
            place,
            width: 4,
            help: "an entry is the number of a program word, from 0",
        }
    }

    /// Adds that the tags of a data word are none.
    fn report_tags(self, words: &mut TextWriter, bytes: &[u8], word: u32) -> FaultPlace {
        let place = self.cells_place() + 9 * word as usize + 8;
        words.put("data word ");
        words.put_number(u64::from(word));
        words.put(" has the tags ");
        words.put_number(u64::from(number_at(bytes, place, 1)));
        words.put(", and not 0 to 15");
        FaultPlace {
            place,
            width: 1,
            help: "full is 1, forward 2, trap0 4, trap1 8, added up",
        }
    }
}

/// The number of so many bytes at a place, the highest first; bytes that are not there are left out.
fn number_at(bytes: &[u8], place: usize, width: usize) -> u32 {
    let mut number = 0u32;
    for byte in bytes.iter().skip(place).take(width) {
        number = number.wrapping_mul(256) | u32::from(*byte);
    }
    number
}
