//! What a step sees of another stream's change.

ghost use Rattle.std.specs.Prelude.{◌≡◌, ◌<◌, length, IfSome};
ghost use Rattle.run_findings.specs.TornReads.{glimpse_at, is_change_of, word_changed};
ghost use Rattle.run_findings.specs.Links.{AreWrites};

use crate::actions::Action;
use crate::parting::{word_changed, word_loaded};
use crate::searching::last_write;
use processor::Step;

/// That a step reads the value of a word that another stream changed.
#[derive(Clone, Copy)]
pub(crate) struct Glimpse {
    /// The stream that reads it.
    pub(crate) reader: Step,
    /// The stream that changed it.
    pub(crate) writer: Step,
    /// The byte address of the word.
    pub(crate) fresh: u64,
    /// The step that reads it.
    pub(crate) fresh_read: usize,
    /// The step that changed it.
    pub(crate) fresh_write: usize,
}

/// What a step sees of another stream's change, if it does.
#[tactic(auto, unfolding(crate::specs::TornReads::glimpse_at))]
pub(crate) fn glimpse_at(
    actions: &[Action],
    past_writes: &[Option<usize>],
    read: usize,
) -> Option<Glimpse>
    requires read_in { read < length actions.now }
    requires linked { AreWrites actions.now past_writes.now }
    ensures is { result ≡ glimpse_at actions.now read }
    ensures read_in { IfSome result (λ g. g.fresh_read < length actions.now) }
    ensures write_in { IfSome result (λ g. g.fresh_write < length actions.now) }
{
    let reader = &actions[read];
    let fresh = word_loaded(&reader.access)?;
    let write = last_write(actions, past_writes, read, fresh)?;
    let writer = &actions[write];
    if is_change_of(fresh, writer) && !writer.is_by(reader.stream) {
        Some(Glimpse {
            reader: reader.stream,
            writer: writer.stream,
            fresh,
            fresh_read: read,
            fresh_write: write,
        })
    } else {
        None
    }
}

/// Whether a step changed the value of a word.
fn is_change_of(word: u64, action: &Action) -> bool
    ensures { result ≡ is_change_of word (word_changed action.now.access) }
{
    match word_changed(&action.access) {
        Some(changed) => changed == word,
        None => false,
    }
}
