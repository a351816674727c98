//! Where a stream stands in the program's text.

ghost use Rattle.std.specs.Prelude.{◌≡◌, slice_get};
ghost use Rattle.std.specs.Option.{option_map};
ghost use Rattle.processor.specs.World.{stream_of};
ghost use Rattle.source_places.specs.SourcePlaces.{line_seen, lines_seen};
ghost use Rattle.replay_debugger.specs.Sessions.{session_world};
ghost use Rattle.named_session.specs.CodePlaces.{pc_in, line_at};

use crate::named_session::NamedSession;
use source_places::ProgramLine;

impl<'i, 't, const S: usize> NamedSession<'i, 't, S> {
    /// The pc of a stream at the session's position; None where there is no such stream.
    pub fn pc(&self, p: u8, s: u8) -> Option<u32>
        ensures { result ≡ pc_in (stream_of S (session_world self.now.session) p s) }
    {
        match self.session.machine().stream(p, s) {
            Some(stream) => Some(stream.ssw().pc),
            None => None,
        }
    }

    /// The line of the program's text at which a stream stands at the session's position; None where there is no such
    /// stream, or the text has no word there.
    pub fn line(&self, p: u8, s: u8) -> Option<ProgramLine<'t>>
        ensures { option_map line_seen result ≡ line_at (lines_seen self.now.places.lines.items)
            (pc_in (stream_of S (session_world self.now.session) p s)) }
    {
        match self.pc(p, s) {
            Some(pc) => self.line_of(pc),
            None => None,
        }
    }

    /// The line of a word of the program; None where the text has no such word.
    pub fn line_of(&self, word: u32) -> Option<ProgramLine<'t>>
        ensures { option_map line_seen result ≡ slice_get (lines_seen self.now.places.lines.items) word }
    {
        self.places.line(word as usize).copied()
    }
}
