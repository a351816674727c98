//! What is wrong with the head of a statement.

use crate::foreign_names::{foreign_directive, foreign_operation};
use crate::operand_words::COMMENTS;
use crate::operations::{
    Named, directive_named, nearest_directive, nearest_operation, operation_named,
};
use crate::phrases::{put_listed, put_meant};
use crate::pieces::split_head;
use crate::reader::Reader;
use asm_line::Fault;
use fault_messages::{Notes, Token, put_shown};
use plain_text::TextWriter;
use std::alloc::{AllocError, Global};

/// How a text asks for what Profile 2 alone has.
const ASK_FOR_TWO: &str = "write .profile 2 on a line of its own";

/// The suffixes that operations may have.
const SUFFIXES: [&str; 4] = [".N", ".F", ".S", ".T"];

/// Notes that the head of an operation is none. After it stands what would be its operands.
pub(crate) fn note_unknown_operation(
    notes: &mut Notes,
    reader: &Reader,
    head: Token,
    operands: Token,
) -> Result<(), AllocError> {
    let name = head.cut(b'.').0;
    match operation_named(name.bytes) {
        Some(operation) if reader.knows(name.bytes) => {
            note_suffix(notes, reader, head, operation)
        }
        Some(operation) => {
            notes.words.put(operation.name());
            notes.number(Fault::Unknown.number());
            notes.say(
                reader.spot(head),
                " is an operation of Profile 2",
                ASK_FOR_TWO,
            )
        }
        None => note_no_operation(notes, reader, head, operands),
    }
}

/// Notes that no operation has this name.
fn note_no_operation(
    notes: &mut Notes,
    reader: &Reader,
    head: Token,
    operands: Token,
) -> Result<(), AllocError> {
    notes.words.put("no operation is called ");
    put_shown(&mut notes.words, head.bytes);
    match fixed_help(head) {
        Some(help) => notes.help.put(help),
        None => put_operation_help(&mut notes.help, reader, head, operands)?,
    }
    notes.number(Fault::Unknown.number());
    notes.add(reader.spot(head))
}

/// Notes that the operation has no such suffix.
fn note_suffix(
    notes: &mut Notes,
    reader: &Reader,
    head: Token,
    operation: Named,
) -> Result<(), AllocError> {
    let name = operation.name();
    notes.words.put(name);
    notes.words.put(" has no suffix ");
    put_shown(&mut notes.words, head.after(name.len()).bytes);
    put_suffixes(&mut notes.help, reader, name)?;
    notes.number(Fault::Unknown.number());
    notes.add(reader.spot(head))
}

/// Adds which suffixes the operation of a name may have.
fn put_suffixes(help: &mut TextWriter, reader: &Reader, name: &str) -> Result<(), AllocError> {
    let known = known_suffixes(help.alloc(), reader, name)?;
    if known.is_empty() {
        help.put("it has none");
    } else {
        help.put("it may have ");
        put_listed(help, &known);
    }
    Ok(())
}

/// The suffixes that the operation of a name may have.
fn known_suffixes(
    alloc: Global,
    reader: &Reader,
    name: &str,
) -> Result<Vec<&'static str>, AllocError> {
    let mut known = Vec::new(alloc);
    for suffix in SUFFIXES.iter() {
        if reader.knows_suffix(alloc, name.as_bytes(), suffix.as_bytes())? {
            known.push(*suffix)?;
        }
    }
    Ok(known)
}

/// What is said of a head that is a comment on other machines, or a directive.
fn fixed_help(head: Token) -> Option<&'static str> {
    if head.begins(b'#') || head.begins(b'/') || head.begins(b'*') || head.begins(b'!') {
        Some(COMMENTS)
    } else if head.begins(b'.') {
        Some("a directive stands on a line of its own")
    } else {
        None
    }
}

/// Adds how a statement may be mended that begins with no operation, of which nothing fixed is said.
fn put_operation_help(
    help: &mut TextWriter,
    reader: &Reader,
    head: Token,
    operands: Token,
) -> Result<(), AllocError> {
    let next = split_head(operands).0;
    let name = head.cut(b'.').0;
    if reader.may_be_label(head.bytes) && operation_named(next.cut(b'.').0.bytes).is_some() {
        help.put("a label has a colon: ");
        put_shown(help, head.bytes);
        help.put(":");
        Ok(())
    } else if let Some(words) = foreign_operation(name.bytes) {
        help.put(words);
        Ok(())
    } else {
        put_meant_operation(help, reader, name.bytes, head.after(name.bytes.len()))
    }
}

/// Adds which operation may be meant by a name with a suffix.
fn put_meant_operation(
    help: &mut TextWriter,
    reader: &Reader,
    name: &[u8],
    suffix: Token,
) -> Result<(), AllocError> {
    if put_with_dot(help, reader, name)? {
        return Ok(());
    }
    match nearest_operation(help.alloc(), name)? {
        Some(nearest) => put_with_suffix(help, reader, nearest, suffix),
        None => {
            help.put("CHEAT_SHEET.md has all operations");
            Ok(())
        }
    }
}

/// Adds the operation with its suffix, where a name is both without the dot between, and answers whether it is.
fn put_with_dot(help: &mut TextWriter, reader: &Reader, name: &[u8]) -> Result<bool, AllocError> {
    let Some((letter, front)) = name.split_last() else {
        return Ok(false);
    };
    let Some(operation) = operation_named(front) else {
        return Ok(false);
    };
    let Some(suffix) = suffix_of(*letter) else {
        return Ok(false);
    };
    if !reader.knows_suffix(help.alloc(), front, suffix.as_bytes())? {
        return Ok(false);
    }
    help.put_all(&["did you mean ", operation.name(), suffix, "?"]);
    Ok(true)
}

/// The suffix of a letter.
fn suffix_of(letter: u8) -> Option<&'static str> {
    match letter {
        b'N' => Some(".N"),
        b'F' => Some(".F"),
        b'S' => Some(".S"),
        b'T' => Some(".T"),
        _ => None,
    }
}

/// Adds the name with a suffix in capitals, or the name alone where it has no such suffix.
fn put_with_suffix(
    help: &mut TextWriter,
    reader: &Reader,
    name: &[u8],
    suffix: Token,
) -> Result<(), AllocError> {
    let alloc = help.alloc();
    let text = capitals(alloc, suffix)?;
    help.put("did you mean ");
    put_shown(help, name);
    if reader.knows_suffix(alloc, name, text.as_bytes())? {
        help.put(text.as_str());
    }
    help.put("?");
    Ok(())
}

/// A suffix as a sentence shows it, in capitals.
fn capitals(alloc: Global, suffix: Token) -> Result<String, AllocError> {
    let mut shown = TextWriter::new(alloc);
    put_shown(&mut shown, suffix.bytes);
    let mut text = shown.take_text()?;
    text.make_ascii_uppercase();
    Ok(text)
}

/// Notes that the head of a directive is none of the text's profile.
pub(crate) fn note_unknown_directive(
    notes: &mut Notes,
    reader: &Reader,
    head: Token,
) -> Result<(), AllocError> {
    notes.number(Fault::Unknown.number());
    if directive_named(head.bytes).is_some() {
        put_shown(&mut notes.words, head.bytes);
        notes.words.put(" is a directive of Profile 2");
        notes.help.put(ASK_FOR_TWO);
    } else {
        notes.words.put("no directive is called ");
        put_shown(&mut notes.words, head.bytes);
        put_directive_help(&mut notes.help, head.bytes)?;
    }
    notes.add(reader.spot(head))
}

/// Adds which directive may be meant by a name that none has.
fn put_directive_help(help: &mut TextWriter, name: &[u8]) -> Result<(), AllocError> {
    if let Some(words) = foreign_directive(name) {
        help.put(words);
    } else if let Some(nearest) = nearest_directive(help.alloc(), name)? {
        put_meant(help, nearest);
    } else {
        help.put("CHEAT_SHEET.md has all directives");
    }
    Ok(())
}
