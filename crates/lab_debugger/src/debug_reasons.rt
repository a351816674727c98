//! Why a register or a word holds what it holds at a session's position.

use crate::debug_points::is_named_word;
use crate::debug_repl::DebugRepl;
use printed_lines::parts::LabFault;
use printed_lines::parts::texts::{Notation, NumberStyle, TextWriter};
use value_reasons::{LocationFault, Reason, location_named, put_location_fault};

impl<'a, 'i, 't, const S: usize> DebugRepl<'a, 'i, 't, S> {
    /// Adds why the register or word that a text names holds what it holds.
    pub(crate) fn put_reason(&self, text: &str, out: &mut TextWriter) -> Result<(), LabFault> {
        let machine = self.named.session.machine();
        let image = machine.image();
        let location = match location_named(self.names, image, text, Some(self.stream_here())) {
            Ok(location) => location,
            Err(LocationFault::NoName) if text.contains(' ') || !is_named_word(text) => {
                out.put("why takes a stream, a register or a word, as 2.0, 2.0.r1 or [8]\n");
                return Ok(());
            }
            Err(fault) => {
                put_location_fault(self.alloc, out, self.names, image, text, fault)?;
                out.put("\n");
                return Ok(());
            }
        };
        let session = &self.named.session;
        let position = session.position() as usize;
        let steps = session.schedule().get(..position).unwrap_or(&[]);
        let reason = Reason::of::<S>(self.alloc, image, steps, location)?;
        let notation = Notation {
            names: self.names,
            style: NumberStyle::Decimal,
        };
        reason.put_head(out, notation, machine);
        reason.put_steps::<S>(self.alloc, out, notation, self.columns, image, steps)?;
        Ok(())
    }
}
