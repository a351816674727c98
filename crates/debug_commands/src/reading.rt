//! Commands, read from their lines.

ghost use Rattle.std.specs.Prelude.{◌≡◌, ◌-◌, ◌^◌, ◌∷◌};
ghost use Rattle.std.specs.Option.{ok_or};
ghost use Rattle.text_parts.specs.Pieces.{pieces};
ghost use Rattle.debug_commands.specs.Commands.{command_of, command_of_words, bare_command, command_of_one, command_of_two};
ghost use Rattle.debug_commands.specs.Commands.{number_within_bits};

use crate::commands::Command;
use crate::debug_fault::DebugFault;
use text_parts::{cut, read_number};

/// The most bytes of a command's line, the line feed at its end not counted.
pub const COMMAND_LIMIT: usize = 256;

/// The command that a line says, the line without its line feed: words with single spaces between them, numbers
/// decimal or with `0x` ("Debugger", docs/FORMATS.md). `Syntax` for every other line. No memory is taken.
#[tactic(auto, unfolding(crate::specs::Commands::command_of))]
pub fn read_command(line: &[u8]) -> Result<Command, DebugFault>
    ensures { result ≡ ok_or (command_of line.now) DebugFault.Syntax }
{
    if line.len() > COMMAND_LIMIT {
        return Err(DebugFault::Syntax);
    }
    read_words(line).ok_or(DebugFault::Syntax)
}

/// The command that the words of a line are.
fn read_words(line: &[u8]) -> Option<Command>
    ensures { result ≡ command_of_words (pieces 32 line.now) }
{
    let (name, rest) = cut(line, b' ');
    match rest {
        None => bare_command(name),
        Some(rest) => read_numbers(name, rest),
    }
}

/// The command of this name, with the numbers in the rest of its line.
fn read_numbers(name: &[u8], rest: &[u8]) -> Option<Command>
    ensures { result ≡ command_of_words (name.now ∷ pieces 32 rest.now) }
{
    let (first, rest) = cut(rest, b' ');
    match rest {
        None => command_of_one(name, first),
        Some(rest) => read_second(name, first, rest),
    }
}

/// The command of this name and this first number, with the second in the rest of its line.
fn read_second(name: &[u8], first: &[u8], rest: &[u8]) -> Option<Command>
    ensures { result ≡ command_of_words (name.now ∷ first.now ∷ pieces 32 rest.now) }
{
    let (second, more) = cut(rest, b' ');
    match more {
        None => command_of_two(name, first, second),
        Some(_) => None,
    }
}

/// The command of a name alone.
fn bare_command(name: &[u8]) -> Option<Command>
    ensures { result ≡ bare_command name.now }
{
    if name == b"c".as_slice() {
        return Some(Command::Continue);
    }
    if name == b"back".as_slice() {
        return Some(Command::Back);
    }
    None
}

/// The command of a name and a number.
fn command_of_one(name: &[u8], number: &[u8]) -> Option<Command>
    ensures { result ≡ command_of_one name.now number.now }
{
    let number = number_64(number);
    if name == b"s".as_slice() {
        return number.map(Command::Forward);
    }
    if name == b"g".as_slice() {
        return number.map(Command::Go);
    }
    if name == b"w".as_slice() {
        return number.map(Command::Watch);
    }
    if name == b"wt".as_slice() {
        return number.map(Command::WatchTags);
    }
    if name == b"d".as_slice() {
        return number.map(Command::Delete);
    }
    None
}

/// The command of a name and two numbers.
fn command_of_two(name: &[u8], first: &[u8], second: &[u8]) -> Option<Command>
    ensures { result ≡ command_of_two name.now first.now second.now }
{
    if name == b"b".as_slice() {
        return Some(Command::Break(number_8(first)?, number_32(second)?));
    }
    if name == b"r".as_slice() {
        return Some(Command::Registers(number_8(first)?, number_8(second)?));
    }
    if name == b"m".as_slice() {
        return Some(Command::Show(number_64(first)?, number_64(second)?));
    }
    None
}

/// A number of 8 bits.
fn number_8(text: &[u8]) -> Option<u8>
    ensures { result ≡ number_within_bits 8 text.now }
{
    let number = read_number(text)?.up_to(0xFF)?;
    Some(number as u8)
}

/// A number of 32 bits.
fn number_32(text: &[u8]) -> Option<u32>
    ensures { result ≡ number_within_bits 32 text.now }
{
    let number = read_number(text)?.up_to(0xFFFF_FFFF)?;
    Some(number as u32)
}

/// A number of 64 bits.
fn number_64(text: &[u8]) -> Option<u64>
    ensures { result ≡ number_within_bits 64 text.now }
{
    read_number(text)?.up_to(0xFFFF_FFFF_FFFF_FFFF)
}
