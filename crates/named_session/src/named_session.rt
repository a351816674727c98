//! A session, and the places of its program's text.

ghost use Rattle.std.specs.Prelude.{◌≡◌};
ghost use Rattle.replay_debugger.specs.Sessions.{session_world};
ghost use Rattle.step_views.specs.Places.{content_of};

use replay_debugger::Session;
use source_places::SourcePlaces;
use step_views::{Content, Place, content_of};

/// A session of the debugger, and where the words and the labels of its program stand in a text: its source or its
/// listing.
#[derive(Drop)]
pub struct NamedSession<'i, 't, const S: usize> {
    /// The session.
    pub session: Session<'i, S>,
    /// The places of the text.
    pub places: SourcePlaces<'t>,
}

impl<'i, 't, const S: usize> NamedSession<'i, 't, S> {
    /// A session with the places of its program's text.
    pub fn new(session: Session<'i, S>, places: SourcePlaces<'t>) -> NamedSession<'i, 't, S>
        ensures session { result.session ≡ session.entry }
        ensures places { result.places ≡ places.entry }
    {
        NamedSession { session, places }
    }

    /// What stands in a place of the world at the session's position; None where that world has no such place.
    pub fn value(&self, place: Place) -> Option<Content>
        ensures { result ≡ content_of (session_world self.now.session) place }
    {
        content_of(self.session.machine(), place)
    }
}
