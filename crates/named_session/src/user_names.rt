//! The names that a user gives places.

use processor::Step;

/// What a user names.
#[derive(Clone, Copy, Debug)]
pub enum UserName<'a> {
    /// The word at a byte address, as `[8]`.
    Word(u64),
    /// A stream, as `2.0`.
    Stream(Step),
    /// A register, 0 to 31: as `r3` of the stream that is looked at, or as `2.0.r3`.
    Register {
        /// The stream; None where it is the one that is looked at.
        stream: Option<Step>,
        /// The register's number.
        register: u8,
    },
    /// A line of the text, from 1.
    Line(usize),
    /// A label of the text.
    Label(&'a str),
}

/// What a name means; None where it is none. A name that can be a register is no label.
pub fn read_name(text: &str) -> Option<UserName<'_>> {
    if let Some(rest) = text.strip_prefix("[") {
        let address = read_number(rest.strip_suffix("]")?)?;
        return Some(UserName::Word(address));
    }
    if let Some(register) = read_register(text) {
        return Some(UserName::Register {
            stream: None,
            register,
        });
    }
    if text.contains('.') {
        return read_stream_name(text);
    }
    if let Ok(line) = text.parse::<usize>() {
        return Some(UserName::Line(line));
    }
    if text.is_empty() {
        None
    } else {
        Some(UserName::Label(text))
    }
}

/// A stream, or one of its registers.
fn read_stream_name(text: &str) -> Option<UserName<'_>> {
    let (processor, rest) = text.split_once('.')?;
    let p = processor.parse::<u8>().ok()?;
    match rest.split_once('.') {
        Some((stream, register)) => {
            let s = stream.parse::<u8>().ok()?;
            let register = read_register(register)?;
            Some(UserName::Register {
                stream: Some(Step { p, s }),
                register,
            })
        }
        None => {
            let s = rest.parse::<u8>().ok()?;
            Some(UserName::Stream(Step { p, s }))
        }
    }
}

/// The number of a register, as `r3`.
fn read_register(text: &str) -> Option<u8> {
    let number = text.strip_prefix("r")?.parse::<u8>().ok()?;
    if number < 32 { Some(number) } else { None }
}

/// A number: decimal, or hexadecimal after `0x`.
fn read_number(text: &str) -> Option<u64> {
    match text.strip_prefix("0x") {
        Some(digits) => u64::from_str_radix(digits, 16).ok(),
        None => text.parse::<u64>().ok(),
    }
}
