//! A session of `debug`, and what its lines ask for.

use crate::debug_stops::OwnStops;
use crate::debug_tries::Dropped;
use crate::debug_words::{DebugWord, debug_word, put_help, put_no_word};
use debug_commands::{Answer, Command, DebugFault, Why};
use named_session::{LastStep, NamedSession, UserName, fault_words, read_name};
use printed_lines::parts::LabFault;
use printed_lines::parts::texts::{
    Columns, Notation, NumberStyle, ProgramNames, RunPieces, TextWriter, put_step_line,
};
use processor::Step;
use std::alloc::Global;

/// A session with the names that its answers tell.
#[derive(Drop)]
pub(crate) struct DebugRepl<'a, 'i, 't, const S: usize> {
    pub alloc: Global,
    pub named: NamedSession<'i, 't, S>,
    pub names: &'a ProgramNames<'t>,
    pub columns: Columns,
    /// What each try dropped that was not taken back, the last one last.
    pub tried: Vec<Dropped>,
    /// At what it stops beside the points of the session.
    pub stops: OwnStops,
}

/// What is said where no step comes.
pub(crate) const ENDS_HERE: &str = "the schedule ends here\n";

/// What comes after an answer.
#[derive(Clone, Copy)]
pub(crate) enum AfterLine<'l> {
    /// The next line.
    On,
    /// The schedule is written into the file of this path.
    Save(&'l str),
    /// The end.
    Quit,
}

impl<'a, 'i, 't, const S: usize> DebugRepl<'a, 'i, 't, S> {
    /// Adds the answer to a line, and says what comes after it.
    pub(crate) fn answer<'l>(
        &mut self,
        line: &'l str,
        out: &mut TextWriter,
    ) -> Result<AfterLine<'l>, LabFault> {
        let (first, rest) = match line.trim().split_once(' ') {
            Some((first, rest)) => (first, rest.trim()),
            None => (line.trim(), ""),
        };
        if first.is_empty() {
            return Ok(AfterLine::On);
        }
        let (name, size) = match first.split_once('/') {
            Some(("x", size)) => ("x", size),
            _ => (first, ""),
        };
        match debug_word(name) {
            Some(DebugWord::Examine) => self.examine(size, rest, out)?,
            None => put_no_word(out, first),
            Some(DebugWord::Quit) => return Ok(AfterLine::Quit),
            Some(DebugWord::Save) => return Ok(AfterLine::Save(rest)),
            Some(word) => self.answer_word(word, rest, out)?,
        }
        Ok(AfterLine::On)
    }

    /// Adds the answer to a word with what stands after it.
    fn answer_word(
        &mut self,
        word: DebugWord,
        rest: &str,
        out: &mut TextWriter,
    ) -> Result<(), LabFault> {
        match word {
            DebugWord::Step => self.step(rest, out),
            DebugWord::Next => self.next(out),
            DebugWord::Back => self.back(rest, out),
            DebugWord::Continue => self.go_to_stop(&Command::Continue, out),
            DebugWord::ReverseContinue => self.go_to_stop(&Command::Back, out),
            DebugWord::ReverseNext => self.reverse_next(out),
            DebugWord::Goto => self.go_to_position(rest, out),
            DebugWord::Until => self.until(rest, out),
            DebugWord::Break => self.break_at(rest, out),
            DebugWord::Watch => self.watch(rest, out),
            DebugWord::Catch => {
                self.catch_traps(rest, out);
                Ok(())
            }
            DebugWord::Delete => self.delete(rest, out),
            DebugWord::Info => self.info(rest, out),
            DebugWord::Print => self.print(rest, out),
            DebugWord::List => {
                self.list(rest, out);
                Ok(())
            }
            DebugWord::Why => self.why(rest, out),
            DebugWord::Try => self.take(rest, out),
            DebugWord::Undo => self.undo(out),
            DebugWord::Run => self.run(out),
            DebugWord::Where => {
                self.put_where(out);
                Ok(())
            }
            DebugWord::Examine => self.examine("", rest, out),
            DebugWord::Help | DebugWord::Save | DebugWord::Quit => {
                put_help(out, rest);
                Ok(())
            }
        }
    }

    /// The stream that a text names, or where there is no text the one that is looked at; None of another text.
    pub(crate) fn stream_of(&self, text: &str) -> Option<Step> {
        if text.is_empty() {
            return Some(self.stream_here());
        }
        match read_name(text) {
            Some(UserName::Stream(step)) => Some(step),
            _ => None,
        }
    }

    /// The stream that is looked at: the one of the next step, or else of the last one.
    pub(crate) fn stream_here(&self) -> Step {
        match self.named.session.next_step() {
            Some(step) => step,
            None => self
                .named
                .session
                .last_step()
                .unwrap_or(Step { p: 0, s: 0 }),
        }
    }

    /// So many steps forward, as far as the schedule goes.
    fn step(&mut self, rest: &str, out: &mut TextWriter) -> Result<(), LabFault> {
        let Some(count) = count_of(rest) else {
            out.put("step takes a number of steps, as 5\n");
            return Ok(());
        };
        let steps = self.named.session.schedule().len() as u64;
        let left = steps.saturating_sub(self.named.session.position());
        if left == 0 {
            out.put(ENDS_HERE);
            return Ok(());
        }
        self.go(&Command::Forward(count.min(left)), out)
    }

    /// On until the stream of the next step has stepped.
    fn next(&mut self, out: &mut TextWriter) -> Result<(), LabFault> {
        let stream = self.stream_here();
        match self.named.session.next_of(stream.p, stream.s) {
            Some(position) => self.go(&Command::Go(position), out),
            None => {
                out.put(ENDS_HERE);
                Ok(())
            }
        }
    }

    /// From the start on to the first stop.
    fn run(&mut self, out: &mut TextWriter) -> Result<(), LabFault> {
        match self.named.go_to(0) {
            Ok(_) => self.go_to_stop(&Command::Continue, out),
            Err(fault) => refuse(fault, out),
        }
    }

    /// Back to where the stream of the next step took its last one.
    fn reverse_next(&mut self, out: &mut TextWriter) -> Result<(), LabFault> {
        let stream = self.stream_here();
        let position = self.named.session.position() as usize;
        let before = self.named.session.schedule().get(..position).unwrap_or(&[]);
        match before.iter().rposition(|step: &Step| *step == stream) {
            Some(place) => self.go(&Command::Go(place as u64), out),
            None => {
                out.put_stream(stream.p, stream.s);
                out.put(" has taken no step before\n");
                Ok(())
            }
        }
    }

    /// To a position.
    fn go_to_position(&mut self, rest: &str, out: &mut TextWriter) -> Result<(), LabFault> {
        match rest.parse::<u64>() {
            Ok(position) => self.go(&Command::Go(position), out),
            Err(_) => {
                out.put("goto takes after how many steps, as 5\n");
                Ok(())
            }
        }
    }

    /// So many steps back, as far as the start.
    fn back(&mut self, rest: &str, out: &mut TextWriter) -> Result<(), LabFault> {
        let Some(count) = count_of(rest) else {
            out.put("back takes a number of steps, as 5\n");
            return Ok(());
        };
        let position = self.named.session.position().saturating_sub(count);
        self.go(&Command::Go(position), out)
    }

    /// Goes where a command leads, and shows which step led there, where that is, and what comes next.
    pub(crate) fn move_by(
        &mut self,
        command: &Command,
        out: &mut TextWriter,
    ) -> Result<(), LabFault> {
        match self.named.session.command(command) {
            Ok(Answer::At(_, why)) => self.put_move(why, out),
            Ok(_) => Ok(()),
            Err(fault) => refuse(fault, out),
        }
    }

    /// Adds which step led to the session's position, why it came there, and what comes next.
    pub(crate) fn put_move(&mut self, why: Why, out: &mut TextWriter) -> Result<(), LabFault> {
        self.put_last_step(out)?;
        self.put_why_here(why, out)?;
        self.put_where(out);
        Ok(())
    }

    /// Adds the line of the step that led to the session's position, where there is one: it is taken once more.
    pub(crate) fn put_last_step(&mut self, out: &mut TextWriter) -> Result<(), LabFault> {
        let last = match self.named.last_view(self.alloc) {
            Ok(last) => last,
            Err(_) => return Err(LabFault::NoMemory),
        };
        let Some(LastStep { view, machine }) = last else {
            return Ok(());
        };
        let number = self.named.session.position() as usize;
        let notation = Notation {
            names: self.names,
            style: NumberStyle::Decimal,
        };
        put_step_line(out, notation, self.columns, number, &view, &machine);
        Ok(())
    }

    /// Adds why the session came to its position, where a point, the end or the start is the reason.
    fn put_why_here(&mut self, why: Why, out: &mut TextWriter) -> Result<(), LabFault> {
        match why {
            Why::Moved => {}
            Why::End => out.put("the end. "),
            Why::Start => out.put("the start. "),
            Why::Stop => put_keys(out, &self.named.session.stopping_points(self.alloc)?),
        }
        Ok(())
    }
}

/// Adds by which points a session stopped.
fn put_keys(out: &mut TextWriter, keys: &[u64]) {
    out.put("stopped by point");
    for (index, key) in keys.iter().enumerate() {
        out.put(if index == 0 { " " } else { ", " });
        out.put_number(*key);
    }
    out.put(". ");
}

/// The count that a text is, 1 where there is no text; None where it is another text.
fn count_of(text: &str) -> Option<u64> {
    if text.is_empty() {
        return Some(1);
    }
    text.parse::<u64>().ok()
}

/// Adds why a command was refused.
pub(crate) fn refuse(fault: DebugFault, out: &mut TextWriter) -> Result<(), LabFault> {
    let Some(words) = fault_words(fault) else {
        return Err(LabFault::NoMemory);
    };
    out.put_line(words);
    Ok(())
}
