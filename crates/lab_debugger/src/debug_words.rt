//! The words of `debug`.

use crate::debug_aliases::{put_meant, word_of_alias};
use printed_lines::parts::texts::TextWriter;

/// What a line of `debug` asks for.
#[derive(Clone, Copy, PartialEq, Eq)]
pub(crate) enum DebugWord {
    /// So many steps of the schedule.
    Step,
    /// On until the stream that is looked at has stepped.
    Next,
    /// So many steps back.
    Back,
    /// On to the next stop.
    Continue,
    /// Back to the last stop.
    ReverseContinue,
    /// Back to where the stream that is looked at took its last step.
    ReverseNext,
    /// To a position.
    Goto,
    /// On to a label or a line.
    Until,
    /// A breakpoint.
    Break,
    /// A watched word or register.
    Watch,
    /// A stop at each trap.
    Catch,
    /// A point less.
    Delete,
    /// Streams, points, or who waits.
    Info,
    /// What stands in a place.
    Print,
    /// The program around a stream.
    List,
    /// Why a stream waits, or a register or a word holds what it holds.
    Why,
    /// A step of a stream in place of the schedule's.
    Try,
    /// The last such step taken back.
    Undo,
    /// From the start on to the first stop.
    Run,
    /// How far the run is, and what comes next.
    Where,
    /// Words from an address on.
    Examine,
    /// The schedule into a file.
    Save,
    /// What the words are.
    Help,
    /// The end.
    Quit,
}

/// The words, in the order in which `help` lists them.
const WORDS: [DebugWord; 24] = [
    DebugWord::Step,
    DebugWord::Next,
    DebugWord::Back,
    DebugWord::Continue,
    DebugWord::ReverseContinue,
    DebugWord::ReverseNext,
    DebugWord::Goto,
    DebugWord::Until,
    DebugWord::Break,
    DebugWord::Watch,
    DebugWord::Catch,
    DebugWord::Delete,
    DebugWord::Info,
    DebugWord::Print,
    DebugWord::List,
    DebugWord::Why,
    DebugWord::Try,
    DebugWord::Undo,
    DebugWord::Run,
    DebugWord::Where,
    DebugWord::Examine,
    DebugWord::Save,
    DebugWord::Help,
    DebugWord::Quit,
];

/// What `help` says: a line a word, which begins with it.
const HELP: &str = "\
step [N]            the next step of the schedule, or N of them
next                on until the stream of the next step has stepped
back [N]            a step back, or N of them
continue            on to the next stop, or to the end
reverse-continue    back to the last stop, or to the start
reverse-next        back to where the stream of the next step took its last one
goto N              to where N steps of the schedule are taken
until ADDRESS       on until a stream is to step at a label, a label and a number of words, as eat+1, or a line
break [P] ADDRESS   a stop when a stream, or one of processor P, is to step at such an address
watch [A]           a stop when the word at this byte address has changed; watch [A] tags: its full/empty bit or other tags
watch r2            a stop when this register of the stream that comes next has changed; watch 2.0.r2: that of another
catch               a stop when a stream traps
delete N            takes the point of this number away; delete 2.0.r2, delete trap: such a stop
info WHAT           streams: who runs and where; points: the stops; waiting: who waits; registers [P.S]: a stream's
print WHAT          r1 of the stream that comes next, 2.0.r1 of another, [A] a word, 2.0 a stream with all registers
list [P.S]          the program around a stream
why [P.S]           what a stream waits for, and which step filled or emptied the word last
why WHAT            the steps that the value of a word [A] or of a register 2.0.r6 comes from
try P.S             a step of this stream now; the schedule from here on is yours
undo                takes the last try back, and what it dropped of the schedule comes back
run                 from the start on to the first stop, or to the end
where               how far the run is, and what comes next
x/N A               N words from this byte address on, as x/4 8
save FILE           writes the schedule, as it is now, into a file
help [WORD]         what the words do; most may be shortened to a beginning that no other has; s is step, b is break
quit                ends the session, as the end of the input does
";

impl DebugWord {
    /// How it is written.
    fn name(self) -> &'static str {
        match self {
            DebugWord::Step => "step",
            DebugWord::Next => "next",
            DebugWord::Back => "back",
            DebugWord::Continue => "continue",
            DebugWord::ReverseContinue => "reverse-continue",
            DebugWord::ReverseNext => "reverse-next",
            DebugWord::Goto => "goto",
            DebugWord::Until => "until",
            DebugWord::Break => "break",
            DebugWord::Watch => "watch",
            DebugWord::Catch => "catch",
            DebugWord::Delete => "delete",
            DebugWord::Info => "info",
            DebugWord::Print => "print",
            DebugWord::List => "list",
            DebugWord::Why => "why",
            DebugWord::Try => "try",
            DebugWord::Undo => "undo",
            DebugWord::Run => "run",
            DebugWord::Where => "where",
            DebugWord::Examine => "x",
            DebugWord::Save => "save",
            DebugWord::Help => "help",
            DebugWord::Quit => "quit",
        }
    }
}

impl DebugWord {
    /// Whether a text is a beginning of it by which it may be called; some words are to be written whole.
    fn begins_with(self, text: &str) -> bool {
        match self {
            DebugWord::Run | DebugWord::Where | DebugWord::Examine => false,
            _ => self.name().starts_with(text),
        }
    }
}

/// The word that a text is, or is short for: a word itself, one of other debuggers, or the beginning of one word alone.
pub(crate) fn debug_word(text: &str) -> Option<DebugWord> {
    match word_of_alias(text) {
        Some(word) => Some(word),
        None => word_among(&WORDS, text),
    }
}

/// The word that a text is, or else the only one that it begins.
fn word_among(words: &[DebugWord], text: &str) -> Option<DebugWord> {
    let mut found = None;
    let mut count: usize = 0;
    for word in words {
        if word.name() == text {
            return Some(*word);
        }
        if word.begins_with(text) {
            found = Some(*word);
            count = count.saturating_add(1);
        }
    }
    if count == 1 { found } else { None }
}

/// Adds why a text is no word: which words begin so, or that none does.
pub(crate) fn put_no_word(out: &mut TextWriter, text: &str) {
    out.put_plain(text);
    out.put(": ");
    if put_beginning(out, &WORDS, text) {
        out.put("?");
    } else {
        put_meant(out, text);
    }
    out.put("\n");
}

/// Adds which words a text begins, and says whether it begins one.
fn put_beginning(out: &mut TextWriter, words: &[DebugWord], text: &str) -> bool {
    let mut is_one = false;
    for word in words {
        if word.begins_with(text) {
            out.put(if is_one { " or " } else { "" });
            out.put(word.name());
            is_one = true;
        }
    }
    is_one
}

/// Adds what a word does, or what all do where none is meant.
pub(crate) fn put_help(out: &mut TextWriter, text: &str) {
    match debug_word(text) {
        Some(word) => put_help_of(out, HELP, word.name()),
        None => out.put(HELP),
    }
}

/// Adds the lines of a help that begin with a word.
fn put_help_of(out: &mut TextWriter, help: &str, name: &str) {
    for line in help.lines() {
        if is_line_of(line, name) {
            out.put_line(line);
        }
    }
}

/// Whether a line of the help begins with this word.
fn is_line_of(line: &str, name: &str) -> bool {
    match line.strip_prefix(name) {
        Some(rest) => rest.starts_with(' ') || rest.starts_with('/'),
        None => false,
    }
}
