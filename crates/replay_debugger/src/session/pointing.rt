//! The commands that add points and take them away.

ghost use Rattle.std.specs.Prelude.{◌≡◌, IfOk, IfErr, OnErr};
ghost use Rattle.replay_debugger.specs.Table.{IsResultOf, Adds};

use crate::points::Point;
use crate::session::Session;
use debug_commands::{Answer, Command, DebugFault};

impl<'i, const S: usize> Session<'i, S> {
    /// A breakpoint for the streams of a processor.
    pub(super) fn break_at(&mut self, p: u8, pc: u32) -> Result<Answer, DebugFault>
        ensures { IsResultOf self.old (Command.Break p pc) result self.new }
    {
        if usize::from(p) >= self.replay.machine.image().processors() {
            return Err(DebugFault::NoSuchStream);
        }
        self.add(Point::Break(p, pc))
    }

    /// Watches the value and the tags of a word.
    pub(super) fn watch(&mut self, address: u64) -> Result<Answer, DebugFault>
        ensures { IsResultOf self.old (Command.Watch address) result self.new }
    {
        if self.replay.machine.word(address).is_none() {
            return Err(DebugFault::NoSuchWord);
        }
        self.add(Point::Watch(address))
    }

    /// Watches the tags of a word.
    pub(super) fn watch_tags(&mut self, address: u64) -> Result<Answer, DebugFault>
        ensures { IsResultOf self.old (Command.WatchTags address) result self.new }
    {
        if self.replay.machine.word(address).is_none() {
            return Err(DebugFault::NoSuchWord);
        }
        self.add(Point::WatchTags(address))
    }

    /// Takes a point away.
    pub(super) fn delete(&mut self, key: u64) -> Result<Answer, DebugFault>
        ensures { IsResultOf self.old (Command.Delete key) result self.new }
    {
        if self.points.take(key) {
            Ok(Answer::Gone(key))
        } else {
            Err(DebugFault::NoSuchPoint)
        }
    }

    /// Adds a point, and answers its key.
    fn add(&mut self, point: Point) -> Result<Answer, DebugFault>
        ensures adds { IfOk result (λ answer. Adds self.old point answer self.new) }
        ensures no_memory { IfErr result (λ fault. fault ≡ DebugFault.NoMemory) }
        ensures kept { OnErr result (self.new ≡ self.old) }
    {
        let key = self.points.add(point)?;
        Ok(Answer::Point(key))
    }
}
