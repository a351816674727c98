//! Names of files in commands, as a shell takes them.

use plain_text::{TextWriter, is_hidden};

/// How a name stands in a command.
#[derive(Clone, Copy)]
enum WordForm {
    /// As it is.
    Bare,
    /// Between `'`.
    Quoted,
    /// In `$'..'`, with octal escapes.
    Escaped,
}

/// Adds the name of a file as one word of a command for a shell: as it is if it has letters, digits and signs that mean nothing
/// to a shell, else in quotes. `./` stands before one that begins with `-`, so that it is no option; `-` alone is standard
/// input. If it has a control byte, or a character that is not seen itself, it stands in `$'..'` with octal escapes, as bash,
/// zsh and ksh take it.
pub(crate) fn put_file_word(out: &mut TextWriter, name: &str) {
    let front = if name.starts_with("-") && name != "-" {
        "./"
    } else {
        ""
    };
    match form_of(name) {
        WordForm::Bare => {
            out.put(front);
            out.put(name);
        }
        WordForm::Quoted => {
            out.put("'");
            out.put(front);
            put_quoted(out, name);
            out.put("'");
        }
        WordForm::Escaped => {
            out.put("$'");
            out.put(front);
            put_escaped(out, name);
            out.put("'");
        }
    }
}

/// How a name is written.
fn form_of(name: &str) -> WordForm {
    if name.chars().any(|letter| is_unseen(letter)) {
        WordForm::Escaped
    } else if !name.is_empty() && name.bytes().all(|byte| is_bare(byte)) {
        WordForm::Bare
    } else {
        WordForm::Quoted
    }
}

/// Whether a character is a control byte, or is not seen itself.
fn is_unseen(letter: char) -> bool {
    letter < ' ' || letter == '\x7f' || is_hidden(letter)
}

/// Whether a byte of a word means nothing to any shell.
fn is_bare(byte: u8) -> bool {
    byte.is_ascii_alphanumeric()
        || matches!(
            byte,
            b'_' | b'-' | b'.' | b'/' | b',' | b'+' | b'@' | b'%' | b':'
        )
}

/// Adds what stands between `'`, where nothing but `'` ends it.
fn put_quoted(out: &mut TextWriter, name: &str) {
    for letter in name.chars() {
        if letter == '\'' {
            out.put("'\\''");
        } else {
            out.put_letter(letter);
        }
    }
}

/// Adds what stands in `$'..'`: each byte that is no sign of ASCII, and `'` and `\`, by its number.
fn put_escaped(out: &mut TextWriter, name: &str) {
    for byte in name.bytes() {
        let is_sign = byte.is_ascii_graphic() || byte == b' ';
        if is_sign && byte != b'\'' && byte != b'\\' {
            out.put_letter(char::from(byte));
        } else {
            put_octal(out, byte);
        }
    }
}

/// Adds the number of a byte, in three octal digits.
fn put_octal(out: &mut TextWriter, byte: u8) {
    out.put("\\");
    out.put_number(u64::from(byte / 64));
    out.put_number(u64::from(byte / 8 % 8));
    out.put_number(u64::from(byte % 8));
}
