//! What is wrong with a line of a schedule.

use fault_messages::{Notes, TextLine, Token, put_shown};
use plain_text::TextWriter;
use std::alloc::AllocError;
use text_parts::{Base, Number, find_either, read_digits};

/// What a line of a schedule says: so many steps of a stream of a processor.
#[derive(Clone, Copy)]
pub(crate) struct ScheduleLine<'t> {
    pub(crate) processor: u8,
    pub(crate) stream: u8,
    pub(crate) times: u64,
    /// The whole line.
    pub(crate) token: Token<'t>,
}

/// What a number of a line counts, with its least and its greatest value.
#[derive(Clone, Copy)]
struct Counted {
    name: &'static str,
    least: u64,
    most: u64,
}

const PROCESSOR: Counted = Counted {
    name: "a processor's number",
    least: 0,
    most: 255,
};

const STREAM: Counted = Counted {
    name: "a stream's number",
    least: 0,
    most: 255,
};

const TIMES: Counted = Counted {
    name: "how often the step is taken",
    least: 1,
    most: 1_000_000,
};

/// Notes what is wrong with a line, and answers what it says if that is understood. Carriage returns are noted on the
/// first line that has one.
pub(crate) fn note_fields<'t>(
    notes: &mut Notes,
    line: &TextLine<'t>,
    has_returns: &mut bool,
) -> Result<Option<ScheduleLine<'t>>, AllocError> {
    let token = note_return(notes, line, has_returns)?;
    if note_layout(notes, line, token)? {
        return Ok(None);
    }
    let (first, rest) = token.cut(b' ');
    let Some(rest) = rest else {
        notes.say(
            line.spot(token),
            "the stream's number is missing",
            "write p s or p s n",
        )?;
        return Ok(None);
    };
    let (second, rest) = rest.cut(b' ');
    let processor = note_byte(notes, line, first, PROCESSOR)?;
    let stream = note_byte(notes, line, second, STREAM)?;
    let times = match rest {
        Some(third) => note_times(notes, line, third)?,
        None => Some(1),
    };
    let (Some(processor), Some(stream), Some(times)) = (processor, stream, times) else {
        return Ok(None);
    };
    Ok(Some(ScheduleLine {
        processor,
        stream,
        times,
        token,
    }))
}

/// Notes what is wrong with a number up to 255, and answers it where it is right.
fn note_byte(
    notes: &mut Notes,
    line: &TextLine,
    token: Token,
    counted: Counted,
) -> Result<Option<u8>, AllocError> {
    match note_number(notes, line, token, counted)? {
        Some(number) => Ok(u8::try_from(number).ok()),
        None => Ok(None),
    }
}

/// Notes what is wrong with what stands after a line's second number, and answers its third number.
fn note_times(notes: &mut Notes, line: &TextLine, rest: Token) -> Result<Option<u64>, AllocError> {
    let (third, behind) = rest.cut(b' ');
    if let Some(behind) = behind {
        let help = "write p s or p s n";
        notes.say(line.spot(behind), "a line has at most three numbers", help)?;
        return Ok(None);
    }
    note_number(notes, line, third, TIMES)
}

/// Notes that a line ends with a carriage return, if no line before it did, and answers the line without it.
fn note_return<'t>(
    notes: &mut Notes,
    line: &TextLine<'t>,
    has_returns: &mut bool,
) -> Result<Token<'t>, AllocError> {
    let token = Token::of_line(line.bytes);
    if token.bytes.last() != Some(&b'\r') {
        return Ok(token);
    }
    if !*has_returns {
        let help = "save the file with line feeds alone, and no carriage returns";
        notes.say(
            line.spot(token),
            "the line ends with a carriage return",
            help,
        )?;
    }
    *has_returns = true;
    Ok(token.before(token.bytes.len() - 1))
}

/// Notes that a line has something besides numbers and single spaces, if it has.
fn note_layout(notes: &mut Notes, line: &TextLine, token: Token) -> Result<bool, AllocError> {
    let Some(fault) = layout_fault(token) else {
        return Ok(false);
    };
    notes.say(line.spot(fault.marked), fault.words, fault.help)?;
    Ok(true)
}

/// What a line has besides numbers and single spaces: where, what it is, and how it may be mended.
#[derive(Clone, Copy)]
struct LayoutFault<'t> {
    marked: Token<'t>,
    words: &'static str,
    help: &'static str,
}

/// What a line has first besides numbers and single spaces, if anything.
fn layout_fault<'t>(token: Token<'t>) -> Option<LayoutFault<'t>> {
    if token.bytes.is_empty() {
        return Some(LayoutFault {
            marked: token,
            words: "the line is empty",
            help: "take it out",
        });
    }
    if let Some(place) = find_either(token.bytes, b';', b'#') {
        return Some(LayoutFault {
            marked: token.after(place),
            words: "a schedule has no comments",
            help: "take the comment out",
        });
    }
    if let (front, Some(_)) = token.cut(b'\t') {
        return Some(LayoutFault {
            marked: token.after(front.bytes.len()).before(1),
            words: "a tab stands here",
            help: "single spaces stand between numbers",
        });
    }
    let place = blank_place(token)?;
    Some(LayoutFault {
        marked: token.after(place).before(1),
        words: "one space too many",
        help: "single spaces stand between numbers",
    })
}

/// Where a space stands at an end of the line, or after another one.
fn blank_place(token: Token) -> Option<usize> {
    if token.begins(b' ') {
        return Some(0);
    }
    if token.bytes.last() == Some(&b' ') {
        return Some(token.bytes.len() - 1);
    }
    token
        .bytes
        .windows(2)
        .position(|pair| pair == [b' ', b' '].as_slice())
}

/// Notes what is wrong with a number, and answers it where it is right.
fn note_number(
    notes: &mut Notes,
    line: &TextLine,
    token: Token,
    counted: Counted,
) -> Result<Option<u64>, AllocError> {
    match read_digits(Base::Decimal, token.bytes) {
        Some(Number::Word(value)) if value >= counted.least && value <= counted.most => {
            return Ok(Some(value));
        }
        Some(_) => {
            put_shown(&mut notes.words, token.bytes);
            put_limits(&mut notes.words, counted);
        }
        None => {
            put_shown(&mut notes.words, token.bytes);
            notes.words.put(" is no number");
            notes.help.put("write p s or p s n, in decimal digits");
        }
    }
    notes.add(line.spot(token))?;
    Ok(None)
}

/// Adds the least and the greatest value of a number that is neither nor between.
fn put_limits(words: &mut TextWriter, counted: Counted) {
    words.put_all(&[" is out of range: ", counted.name, " is "]);
    words.put_number(counted.least);
    words.put(" to ");
    words.put_number(counted.most);
}
