//! Tables of what is known of places of a program.

mod closing;
mod making;
mod standing;

ghost use Rattle.std.specs.Prelude.{◌≡◌, [], IfOk};
ghost use Rattle.touched_words.specs.ClosedTables.{AreAmong, IsClosedTable};

use crate::rows::{KnownRow, WordRow, are_among};
use image_file::Image;
use std::alloc::{AllocError, Global};
use std::marker::Model;

/// What is known of places of an image's program: what registers hold there, which words may be asked for from there on,
/// which of them may be changed, and which are used for more than adds that load what nobody reads. It is known of those
/// places that are closed.
#[derive(Drop)]
pub struct TouchTable {
    words: Vec<u64>,
    closed: Vec<bool>,
    known: Vec<KnownRow>,
    touches: Vec<WordRow>,
    changes: Vec<WordRow>,
    uses: Vec<WordRow>,
    unread: Vec<bool>,
}

impl Model for TouchTable {
    ghost use Rattle.touched_words.specs.TouchTables.{TouchValue};

    ghost Value = { TouchValue };

    ghost view = { λ t. record {
      words = t.words.items;
      closed = t.closed.items;
      known = t.known.items;
      touches = t.touches.items;
      changes = t.changes.items;
      uses = t.uses.items;
      unread = t.unread.items;
    } };
}

impl TouchTable {
    /// The table of an image's program for streams that begin at `entry` with 0 in each register. `unread` says of each
    /// place whether nobody reads what the instruction there loads; so does the table, or it says nothing. That it has all
    /// places that could be closed is not promised. An error where memory is refused.
    pub fn of(
        alloc: Global,
        image: &Image,
        entry: u32,
        unread: &[bool],
    ) -> Result<TouchTable, AllocError>
        ensures closed { IfOk result (λ t. IsClosedTable image.now.profile image.now.program t) }
        ensures unread { IfOk result (λ t. AreAmong t.unread unread.now) }
    {
        let table = TouchTable::draft(alloc, image.profile(), image.program(), entry, unread)?;
        if table.is_closed(image.profile(), image.program()) && are_among(&table.unread, unread) {
            return Ok(table);
        }
        Ok(TouchTable::empty(alloc))
    }

    /// The table by which no place is closed.
    fn empty(alloc: Global) -> TouchTable
        ensures { result ≡ record { words = []; closed = []; known = []; touches = []; changes = []; uses = []; unread = [] } }
    {
        TouchTable {
            words: Vec::new(alloc),
            closed: Vec::new(alloc),
            known: Vec::new(alloc),
            touches: Vec::new(alloc),
            changes: Vec::new(alloc),
            uses: Vec::new(alloc),
            unread: Vec::new(alloc),
        }
    }
}
