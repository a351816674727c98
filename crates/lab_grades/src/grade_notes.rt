//! What is said of submissions beside their rows.

use plain_text::push_plain;
use std::alloc::{AllocError, Global};
use submission_rows::parts::LinkOut;

/// What is said of submissions beside their rows.
#[derive(Drop)]
pub(crate) struct GradeNotes {
    /// The lines for standard error.
    pub lines: String,
    /// The places of the submissions that get no page, in their order.
    without_page: Vec<usize>,
}

impl GradeNotes {
    /// Nothing.
    pub(crate) fn new(alloc: Global) -> GradeNotes {
        GradeNotes {
            lines: String::new(alloc),
            without_page: Vec::new(alloc),
        }
    }

    /// Notes that a link on the way to the submission of a place leads out of its folder, or that it is of a user who may
    /// not be able to read the file. Then the submission gets no page, which has its source.
    pub(crate) fn note_link(
        &mut self,
        place: usize,
        path: &str,
        link: &LinkOut,
    ) -> Result<(), AllocError> {
        let target = link
            .target
            .as_ref()
            .map_or("another file", |target| target.as_str());
        self.lines.push_str("mta_lab: warning: ")?;
        push_plain(&mut self.lines, path)?;
        if link.is_of_another {
            self.without_page.push(place)?;
            self.lines.push_str(": a symbolic link leads to ")?;
            push_plain(&mut self.lines, target)?;
            let why = ", which the link's owner may not be allowed to read: so it gets no page\n";
            return self.lines.push_str(why);
        }
        self.lines
            .push_str(": a symbolic link that leads out of its folder, to ")?;
        push_plain(&mut self.lines, target)?;
        self.lines.push_str("\n")
    }

    /// Notes that a page stands there, while this call has none for the submission.
    pub(crate) fn note_old_page(&mut self, page: &str, path: &str) -> Result<(), AllocError> {
        self.lines.push_str("mta_lab: warning: ")?;
        push_plain(&mut self.lines, page)?;
        self.lines
            .push_str(": of an earlier call, which has no page for ")?;
        push_plain(&mut self.lines, path)?;
        self.lines.push_str("\n")
    }

    /// Whether the submission of a place may have a page.
    pub(crate) fn may_have_page(&self, place: usize) -> bool {
        !self.without_page.contains(&place)
    }
}
