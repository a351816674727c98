//! Words of other debuggers, as of gdb.

use crate::debug_words::DebugWord;
use printed_lines::parts::texts::TextWriter;

/// Other names of the words.
const ALIASES: [(&str, DebugWord); 32] = [
    ("s", DebugWord::Step),
    ("si", DebugWord::Step),
    ("stepi", DebugWord::Step),
    ("ni", DebugWord::Next),
    ("nexti", DebugWord::Next),
    ("rs", DebugWord::Back),
    ("rsi", DebugWord::Back),
    ("reverse-step", DebugWord::Back),
    ("reverse-stepi", DebugWord::Back),
    ("rc", DebugWord::ReverseContinue),
    ("rn", DebugWord::ReverseNext),
    ("c", DebugWord::Continue),
    ("u", DebugWord::Until),
    ("advance", DebugWord::Until),
    ("tbreak", DebugWord::Until),
    ("b", DebugWord::Break),
    ("br", DebugWord::Break),
    ("clear", DebugWord::Delete),
    ("inspect", DebugWord::Print),
    ("output", DebugWord::Print),
    ("thread", DebugWord::Print),
    ("disas", DebugWord::List),
    ("disassemble", DebugWord::List),
    ("r", DebugWord::Run),
    ("start", DebugWord::Run),
    ("bt", DebugWord::Where),
    ("backtrace", DebugWord::Where),
    ("frame", DebugWord::Where),
    ("f", DebugWord::Where),
    ("exit", DebugWord::Quit),
    ("kill", DebugWord::Quit),
    ("?", DebugWord::Help),
];

/// Words of other debuggers that have no like here, and what may be meant.
const MEANT: [(&str, &str); 17] = [
    ("finish", "until or continue"),
    ("fin", "until or continue"),
    ("return", "until or continue"),
    ("jump", "until or try"),
    ("set", "try"),
    ("display", "print or watch"),
    ("undisplay", "delete"),
    ("rwatch", "watch"),
    ("awatch", "watch"),
    ("disable", "delete"),
    ("enable", "break"),
    ("up", "list or back"),
    ("down", "list or step"),
    ("reverse-finish", "reverse-continue"),
    ("registers", "info registers"),
    ("threads", "info streams"),
    ("points", "info points"),
];

/// The word that has another name.
pub(crate) fn word_of_alias(text: &str) -> Option<DebugWord> {
    word_called(&ALIASES, text)
}

/// The word that one of these names calls.
fn word_called(aliases: &[(&str, DebugWord)], text: &str) -> Option<DebugWord> {
    for (name, word) in aliases {
        if *name == text {
            return Some(*word);
        }
    }
    None
}

/// Adds that a text is no word, and what may be meant.
pub(crate) fn put_meant(out: &mut TextWriter, text: &str) {
    out.put("no such word; ");
    match meant_by(&MEANT, text) {
        Some(meant) => {
            out.put("did you mean ");
            out.put(meant);
            out.put("?");
        }
        None => out.put("help lists them"),
    }
}

/// What may be meant by a text, where these have it: each text is before what may be meant.
fn meant_by<'m>(all: &[(&str, &'m str)], text: &str) -> Option<&'m str> {
    for (name, meant) in all {
        if *name == text {
            return Some(*meant);
        }
    }
    None
}
