//! Findings of a run in words.

use crate::findings_of_run::{FindingsOfRun, MOST_OF_A_KIND};
use crate::names::ProgramNames;
use crate::run_pieces::RunPieces;
use crate::values::NumberStyle;
use first_findings::{FindingPlace, WordRange, first_finding};
use plain_text::TextWriter;
use run_findings::{Access, Action, LostUpdate, TornRead, UnreadStore};
use std::alloc::AllocError;

/// How findings are shown: by which names, in which numbers, of a run with which steps.
#[derive(Clone, Copy)]
pub struct FindingTexts<'a, 't> {
    /// The names of the program.
    pub names: &'a ProgramNames<'t>,
    /// How numbers are shown.
    pub style: NumberStyle,
    /// What the steps of the run did.
    pub actions: &'a [Action],
}

/// Adds the findings of a run, a line each, the first ten of each kind.
pub fn push_findings(
    out: &mut String,
    texts: &FindingTexts<'_, '_>,
    found: &FindingsOfRun,
) -> Result<(), AllocError> {
    let mut text = TextWriter::take(out);
    put_findings(&mut text, texts, found);
    text.give_back(out)
}

/// Adds what [`push_findings`] does.
pub fn put_findings(out: &mut TextWriter, texts: &FindingTexts<'_, '_>, found: &FindingsOfRun) {
    texts.put_all_lost(out, &found.lost);
    texts.put_all_torn(out, &found.torn);
    texts.put_all_unread(out, &found.unread);
}

/// Adds the first finding of a run that is about one of these words, else the first of all, without an end of the line, and
/// how many more there are; nothing where there is none.
pub fn push_first_finding(
    out: &mut String,
    texts: &FindingTexts<'_, '_>,
    found: &FindingsOfRun,
    words: &[WordRange],
) -> Result<(), AllocError> {
    let mut text = TextWriter::take(out);
    let first = first_finding(&found.lost, &found.torn, &found.unread, words);
    match first {
        Some(FindingPlace::Lost(place)) => if let Some(update) = found.lost.get(place) {
            texts.put_lost(&mut text, update);
        }
        Some(FindingPlace::Torn(place)) => if let Some(read) = found.torn.get(place) {
            texts.put_torn(&mut text, read);
        }
        Some(FindingPlace::Unread(place)) => if let Some(store) = found.unread.get(place) {
            texts.put_unread(&mut text, store);
        }
        None => {}
    }
    put_others(&mut text, found.count().saturating_sub(1));
    text.give_back(out)
}

impl FindingTexts<'_, '_> {
    /// Adds lost updates, a line each.
    fn put_all_lost(&self, out: &mut TextWriter, updates: &[LostUpdate]) {
        for update in updates.iter().take(MOST_OF_A_KIND) {
            self.put_lost(out, update);
            self.end_line(out, update.word);
        }
        put_more(out, updates.len(), "lost updates");
    }

    /// Adds torn reads, a line each.
    fn put_all_torn(&self, out: &mut TextWriter, reads: &[TornRead]) {
        for read in reads.iter().take(MOST_OF_A_KIND) {
            self.put_torn(out, read);
            self.end_torn(out, read);
        }
        put_more(out, reads.len(), "torn reads");
    }

    /// Adds unread stores, a line each.
    fn put_all_unread(&self, out: &mut TextWriter, stores: &[UnreadStore]) {
        for store in stores.iter().take(MOST_OF_A_KIND) {
            self.put_unread(out, store);
            self.end_line(out, store.word);
        }
        put_more(out, stores.len(), "unread stores");
    }

    /// Adds a lost update.
    fn put_lost(&self, out: &mut TextWriter, update: &LostUpdate) {
        out.put("lost update of ");
        self.names.put_address(out, update.word);
        out.put(": ");
        self.put_read(out, update.read);
        out.put(", ");
        self.put_write(out, update.over, " wrote ", "");
        out.put(", ");
        self.put_write(out, update.stored, " stored ", " over it");
    }

    /// Adds an unread store.
    fn put_unread(&self, out: &mut TextWriter, store: &UnreadStore) {
        out.put("unread store to ");
        self.names.put_address(out, store.word);
        out.put(": ");
        self.put_write(out, store.over, " stored ", "");
        out.put(", ");
        self.put_write(out, store.stored, " stored ", " over it");
    }

    /// Adds a torn read.
    fn put_torn(&self, out: &mut TextWriter, torn: &TornRead) {
        out.put("torn read of ");
        self.names.put_address(out, torn.stale);
        out.put(" and ");
        self.names.put_address(out, torn.fresh);
        out.put(": ");
        let reads = (torn.stale_read, torn.fresh_read);
        self.put_pair(out, " read ", torn, reads);
        out.put(", ");
        let writes = (torn.stale_write, torn.fresh_write);
        self.put_pair(out, " changed ", torn, writes);
    }

    /// Adds what a step read, as `3.0 read 0 in step 2`.
    fn put_read(&self, out: &mut TextWriter, step: usize) {
        self.put_stream_of(out, step);
        out.put(" read ");
        if let Some(access) = self.access(step) {
            out.put_value(self.style, access.before);
        }
        put_step(out, step);
    }

    /// Adds what a step wrote, and over what, as `3.0 stored 1 over it in step 7`.
    fn put_write(&self, out: &mut TextWriter, step: usize, deed: &str, over: &str) {
        self.put_stream_of(out, step);
        out.put(deed);
        if let Some(access) = self.access(step) {
            out.put_value(self.style, access.after);
        }
        out.put(over);
        put_step(out, step);
    }

    /// Adds what a stream did to the two words of a torn read in these steps, as
    /// `1.0 read [0] in step 1 and [8] in step 4`.
    fn put_pair(&self, out: &mut TextWriter, deed: &str, torn: &TornRead, steps: (usize, usize)) {
        let (stale, fresh) = steps;
        if stale <= fresh {
            self.put_deeds(out, deed, (torn.stale, stale), (torn.fresh, fresh));
        } else {
            self.put_deeds(out, deed, (torn.fresh, fresh), (torn.stale, stale));
        }
    }

    /// Adds what a stream did to two words, each with the step.
    fn put_deeds(
        &self,
        out: &mut TextWriter,
        deed: &str,
        first: (u64, usize),
        second: (u64, usize),
    ) {
        self.put_stream_of(out, first.1);
        out.put(deed);
        self.names.put_address(out, first.0);
        put_step(out, first.1);
        out.put(" and ");
        self.names.put_address(out, second.0);
        put_step(out, second.1);
    }

    /// Adds whose step one is.
    fn put_stream_of(&self, out: &mut TextWriter, step: usize) {
        if let Some(action) = self.actions.get(step) {
            out.put_stream(action.stream.p, action.stream.s);
        }
    }

    /// What a step did to its word.
    fn access(&self, step: usize) -> Option<Access> {
        let action = self.actions.get(step)?;
        action.access
    }

    /// Adds the comments of the words of a torn read, each after its address, and ends the line.
    fn end_torn(&self, out: &mut TextWriter, torn: &TornRead) {
        let (first, second) = (torn.stale.min(torn.fresh), torn.stale.max(torn.fresh));
        let is_first = self.put_comment_of(out, first, "   [");
        let _ = self.put_comment_of(out, second, if is_first { "; [" } else { "   [" });
        out.put("\n");
    }

    /// Adds the comment of a word after its address, where it has one, and says whether.
    fn put_comment_of(&self, out: &mut TextWriter, word: u64, before: &str) -> bool {
        let comment = self.names.remark(word);
        if comment.is_empty() {
            return false;
        }
        out.put(before);
        out.put_number(word);
        out.put("] ");
        out.put_quoted(comment);
        true
    }

    /// Adds the comment of a word, and ends the line.
    fn end_line(&self, out: &mut TextWriter, word: u64) {
        self.names.put_comment(out, word);
        out.put("\n");
    }
}

/// Adds the number of a step, which counts from 1 in texts.
fn put_step(out: &mut TextWriter, step: usize) {
    out.put(" in step ");
    out.put_number((step as u64).saturating_add(1));
}

/// Adds how many findings there are besides the first, where there are any.
fn put_others(out: &mut TextWriter, more: usize) {
    if more == 0 {
        return;
    }
    out.put("; ");
    out.put_number(more as u64);
    out.put(if more == 1 {
        " more finding"
    } else {
        " more findings"
    });
}

/// Adds how many findings of a kind are not shown, if there are any.
fn put_more(out: &mut TextWriter, count: usize, kind: &str) {
    let more = count.saturating_sub(MOST_OF_A_KIND);
    if more == 0 {
        return;
    }
    out.put("and ");
    out.put_number(more as u64);
    out.put(" more ");
    out.put(kind);
    out.put("\n");
}
