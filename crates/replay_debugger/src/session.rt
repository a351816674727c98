//! A session of the debugger.

mod bounded_back;
mod bounded_moves;
mod moving;
mod point_list;
mod pointing;
mod schedule_change;
mod schedule_steps;
mod session_clone;
mod showing;
mod stopping_points;
mod stream_steps;

ghost use Rattle.std.specs.Prelude.{◌≡◌, ◌<◌, ◌↔◌, IfOk, IfErr, IsErrAnd};
ghost use Rattle.replay_debugger.specs.Sessions.{session_at_start, session_world};
ghost use Rattle.replay_debugger.specs.Table.{IsResultOf};

use crate::begin_fault::BeginFault;
use crate::checkpoints::Checkpoints;
use crate::points::{Point, Points};
use crate::replay::Replay;
use debug_commands::{Answer, Command, DebugFault};
use image_file::Image;
use machine::{LoadFault, Machine};
use processor::Step;
use std::alloc::Global;
use std::marker::Model;

/// A session of the debugger over an image and a schedule of its own ("Debugger", docs/FORMATS.md).
///
/// It stands at a position from 0 to the schedule's length: position k is the world after the first k steps. Its
/// points stand under keys, and say which positions are stops.
#[derive(Drop)]
pub struct Session<'i, const S: usize> {
    checkpoints: Checkpoints<'i, S>,
    replay: Replay<'i, S>,
    points: Points,
    replayed: u64,
}

impl<'i, const S: usize> Model for Session<'i, S> {
    ghost use Rattle.replay_debugger.specs.Sessions.{SessionValue};
    ghost use Rattle.replay_debugger.specs.Places.{IsOn, session_of};

    ghost Value = { SessionValue };

    ghost view = { λ s. session_of s.checkpoints.image s.checkpoints.schedule s.replay.position s.points };

    ghost invariant = { λ s. IsOn s.checkpoints s.replay };
}

impl<'i, const S: usize> Session<'i, S> {
    /// A session at position 0, with no points. Where it can't begin, the schedule is handed back.
    ///
    /// `Streams` exactly where the image's slim is above `S`: it comes before any want of memory.
    pub fn begin(
        alloc: Global,
        image: &'i Image,
        schedule: Vec<Step>,
    ) -> Result<Session<'i, S>, BeginFault>
        ensures is { IfOk result (λ s. s ≡ session_at_start image.entry.now schedule.items) }
        ensures streams { IsErrAnd result (λ f. f.kind ≡ LoadFault.Streams) ↔ (S < image.entry.now.slim) }
        ensures handed_back { IfErr result (λ f. f.schedule ≡ schedule) }
    {
        match Replay::start(alloc, image) {
            Ok(replay) => Ok(Session {
                checkpoints: Checkpoints::new(alloc, schedule, &replay),
                replay,
                points: Points::new(alloc),
                replayed: 0,
            }),
            Err(kind) => Err(BeginFault { kind, schedule }),
        }
    }

    /// The position that the session stands at.
    pub fn position(&self) -> u64
        ensures { result ≡ self.now.position }
    {
        self.replay.position as u64
    }

    /// The machine at the session's position: the image's, after so many steps of the schedule.
    pub fn machine(&self) -> &Machine<'i, S>
        ensures { result.now ≡ record { image = self.now.image; world = session_world self.now } }
    {
        &self.replay.machine
    }

    /// How many steps the machine took for the last command that was answered; 0 before any. No clause speaks of it.
    pub fn replayed(&self) -> u64 {
        self.replayed
    }

    /// Does a command, and answers it from the world at the position that it leads to. A refusal leaves the session
    /// as it was. How a position is reached is nowhere said.
    pub fn command(&mut self, command: &Command) -> Result<Answer, DebugFault>
        ensures { IsResultOf self.old command.now result self.new }
    {
        let result = self.answer(command);
        if result.is_ok() && !moves(command) {
            self.replayed = 0;
        }
        result
    }

    /// The answer to a command.
    fn answer(&mut self, command: &Command) -> Result<Answer, DebugFault>
        ensures { IsResultOf self.old command.now result self.new }
    {
        match *command {
            Command::Forward(count) => self.forward(count),
            Command::Continue => self.go_on(),
            Command::Back => self.back(),
            Command::Go(goal) => self.go(goal),
            Command::Break(p, pc) => self.break_at(p, pc),
            Command::Watch(address) => self.watch(address),
            Command::WatchTags(address) => self.watch_tags(address),
            Command::Delete(key) => self.delete(key),
            Command::Registers(p, s) => self.registers(p, s),
            Command::Show(address, count) => self.show(address, count),
        }
    }
}

/// Whether a command goes to another position.
fn moves(command: &Command) -> bool {
    matches!(
        *command,
        Command::Forward(_) | Command::Continue | Command::Back | Command::Go(_)
    )
}
