//! The points of `debug`.

use crate::debug_repl::{DebugRepl, refuse};
use debug_commands::{Answer, Command, DebugFault};
use printed_lines::parts::LabFault;
use printed_lines::parts::texts::{ProgramNames, TextWriter};
use replay_debugger::Point;

impl<'a, 'i, 't, const S: usize> DebugRepl<'a, 'i, 't, S> {
    /// On until a stream is to step at a place.
    pub(crate) fn until(&mut self, rest: &str, out: &mut TextWriter) -> Result<(), LabFault> {
        let Some(word) = self.named.word_of_place(rest) else {
            out.put("until takes a label, as eat or eat+1, or a line\n");
            return Ok(());
        };
        let mut added = Vec::new(self.alloc);
        for p in 0..self.named.session.machine().image().processors() {
            if let Some(key) = self.new_point(&Command::Break(p as u8, word))? {
                added.push(key)?;
            }
        }
        self.go_to_stop(&Command::Continue, out)?;
        for key in added.iter() {
            let _ = self.named.session.command(&Command::Delete(*key));
        }
        Ok(())
    }

    /// A breakpoint of one processor or of all.
    pub(crate) fn break_at(&mut self, rest: &str, out: &mut TextWriter) -> Result<(), LabFault> {
        let (processor, place) = processor_and_place(rest);
        let Some(word) = self.named.word_of_place(place) else {
            out.put("break takes a label, as eat or eat+1, or a line, perhaps after a processor\n");
            return Ok(());
        };
        if let Some(p) = processor {
            return self.add_point(&Command::Break(p, word), out);
        }
        for p in 0..self.named.session.machine().image().processors() {
            self.add_point(&Command::Break(p as u8, word), out)?;
        }
        Ok(())
    }

    /// A watched word.
    pub(crate) fn watch(&mut self, rest: &str, out: &mut TextWriter) -> Result<(), LabFault> {
        if self.watch_register(rest, out)? {
            return Ok(());
        }
        let (name, what) = match rest.split_once(' ') {
            Some((name, what)) => (name, what.trim()),
            None => (rest, ""),
        };
        let command = match (self.names.address_of(name), what) {
            (Some(address), "") => Command::Watch(address),
            (Some(address), "tags") => Command::WatchTags(address),
            (None, "" | "tags") if is_named_word(name) => return self.put_no_address(name, out),
            _ => {
                out.put("watch takes a word or a register, as [8], [8] tags or r2\n");
                return Ok(());
            }
        };
        self.add_point(&command, out)
    }

    /// Adds why a text says no word.
    pub(crate) fn put_no_address(&self, text: &str, out: &mut TextWriter) -> Result<(), LabFault> {
        self.names.put_no_address(self.alloc, out, text)?;
        out.put("\n");
        Ok(())
    }

    /// A point less.
    pub(crate) fn delete(&mut self, rest: &str, out: &mut TextWriter) -> Result<(), LabFault> {
        if self.delete_stop(rest, out)? {
            return Ok(());
        }
        let Ok(key) = rest.parse::<u64>() else {
            out.put("delete takes the number of a point\n");
            return Ok(());
        };
        match self.named.session.command(&Command::Delete(key)) {
            Ok(_) => {
                out.put("point ");
                out.put_number(key);
                out.put(" is gone\n");
                Ok(())
            }
            Err(fault) => refuse(fault, out),
        }
    }

    /// Adds the points.
    pub(crate) fn put_points(&self, out: &mut TextWriter) -> Result<(), LabFault> {
        for (key, point) in self.named.session.points(self.alloc)?.iter() {
            put_point(out, self.names, *key, *point);
        }
        self.put_own_stops(out);
        Ok(())
    }

    /// Makes a point, and gives its key; None where it is refused.
    fn new_point(&mut self, command: &Command) -> Result<Option<u64>, LabFault> {
        match self.named.session.command(command) {
            Ok(Answer::Point(key)) => Ok(Some(key)),
            Err(DebugFault::NoMemory) => Err(LabFault::NoMemory),
            Ok(_) | Err(_) => Ok(None),
        }
    }

    /// Makes a point, and adds which; or adds why it is refused.
    fn add_point(&mut self, command: &Command, out: &mut TextWriter) -> Result<(), LabFault> {
        match self.named.session.command(command) {
            Ok(Answer::Point(key)) => {
                if let Some(point) = self.named.session.point(key) {
                    put_point(out, self.names, key, point);
                }
                Ok(())
            }
            Ok(_) => Ok(()),
            Err(fault) => refuse(fault, out),
        }
    }
}

/// Adds a point's key, and where it stops.
fn put_point(out: &mut TextWriter, names: &ProgramNames<'_>, key: u64, point: Point) {
    out.put("point ");
    out.put_number(key);
    match point {
        Point::Break(p, word) => {
            out.put(": processor ");
            out.put_number(u64::from(p));
            out.put(" at ");
            names.put_place(out, word);
        }
        Point::Watch(address) => {
            out.put(": a change of ");
            names.put_address(out, address);
        }
        Point::WatchTags(address) => {
            out.put(": a change of the tags of ");
            names.put_address(out, address);
        }
    }
    out.put("\n");
}

/// Whether a text is in brackets, or begins as a name does.
pub(crate) fn is_named_word(text: &str) -> bool {
    text.starts_with(|letter: char| letter == '[' || letter == '_' || letter.is_ascii_alphabetic())
}

/// The processor that stands before a place, where a number does, and the place.
fn processor_and_place(rest: &str) -> (Option<u8>, &str) {
    if let Some((first, place)) = rest.split_once(' ')
        && let Ok(p) = first.parse::<u8>()
    {
        return (Some(p), place.trim());
    }
    (None, rest)
}
