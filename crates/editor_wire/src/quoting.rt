//! Texts as strings of JSON.

ghost use Rattle.std.specs.Prelude.{◌≡◌, ◌++◌, OnOk, string_bytes};
ghost use Rattle.std.specs.List.{flat_map};
ghost use Rattle.std.specs.Str.{chars};
ghost use Rattle.editor_wire.specs.JsonStrings.{quoted, string_char, escaped_control};

use std::alloc::AllocError;

/// Adds a text as a string of JSON.
pub fn push_quoted(out: &mut String, text: &str) -> Result<(), AllocError>
    ensures { OnOk result (string_bytes out.new ≡ string_bytes out.old ++ quoted text.now) }
{
    out.push_str("\"")?;
    push_letters(out, text)?;
    out.push_str("\"")
}

/// Adds the characters of a string.
pub(crate) fn push_letters(out: &mut String, text: &str) -> Result<(), AllocError>
    ensures { OnOk result (string_bytes out.new
        ≡ string_bytes out.old ++ flat_map string_char (chars text.now)) }
{
    for letter in text.chars() {
        push_letter(out, letter)?;
    }
    Ok(())
}

/// Adds a character of a string.
fn push_letter(out: &mut String, letter: char) -> Result<(), AllocError>
    ensures { OnOk result (string_bytes out.new ≡ string_bytes out.old ++ string_char letter) }
{
    match letter {
        '"' => out.push_str("\\\""),
        '\\' => out.push_str("\\\\"),
        '\0'..='\x1f' => push_control(out, letter as u8),
        _ => out.push(letter),
    }
}

/// Adds a control character by its number.
fn push_control(out: &mut String, code: u8) -> Result<(), AllocError>
    ensures { OnOk result (string_bytes out.new ≡ string_bytes out.old ++ escaped_control code) }
{
    write!(out, "\\u00{code:02x}")
}
