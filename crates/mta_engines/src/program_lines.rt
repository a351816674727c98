//! Program words as lines of text.
ghost use Rattle.std.specs.Prelude.{◌≡◌, ◌≢◌, ◌≤◌, IfOk, IfErr, length};
ghost use Rattle.image_file.specs.ImageValue.{most_program_words};
ghost use Rattle.mta_engines.specs.ProgramLines.{program_of};

use crate::tool_fault::ToolFault;
use image_file::MAX_PROGRAM_WORDS;
use std::alloc::Global;
use text_parts::{read_hexadecimal, split_line};

/// The words that a text spells, one a line as 16 hexadecimal digits of either case ("Lines of `words`",
/// docs/FORMATS.md).
///
/// `Words` names the least line with a fault: one that is anything else, line 1 where there is no line, and the line
/// after the first [`MAX_PROGRAM_WORDS`].
pub(crate) fn read_program(alloc: Global, text: &[u8]) -> Result<Vec<u64>, ToolFault>
    ensures words { IfOk result (λ words. program_of text.now ≡ Ok words.items) }
    ensures some { IfOk result (λ words. 1 ≤ length words.items) }
    ensures few { IfOk result (λ words. length words.items ≤ most_program_words) }
    ensures fault { IfErr result (λ fault. fault ≢ ToolFault.NoMemory
        → program_of text.now ≡ Err fault) }
{
    let mut words = Vec::new(alloc);
    let mut rest = text;
    while !rest.is_empty() {
        let (line, after) = split_line(rest);
        let number = words.len() as u32 + 1;
        let Some(word) = read_hexadecimal(line) else {
            return Err(ToolFault::Words(number));
        };
        if words.len() == MAX_PROGRAM_WORDS {
            return Err(ToolFault::Words(number));
        }
        words.push(word)?;
        rest = after;
    }
    if words.is_empty() {
        return Err(ToolFault::Words(1));
    }
    Ok(words)
}
