//! A stream: what it holds, how it begins, and how it traps.

mod executing;
mod planning;

ghost use Rattle.std.specs.Prelude.{◌≡◌, ◌<◌, ◌↔◌, IsSome, slice_get};
ghost use Rattle.stream_core.specs.Children.{child_stream};
ghost use Rattle.stream_core.specs.Registers.{register_at, target_at};
ghost use Rattle.stream_core.specs.Streams.{StreamValue, idle, cannot_trap, after_trap};

use crate::registers::{Registers, Targets};
use crate::status_words::StatusWord;
use crate::steps::{Child, Outcome, Status};
use crate::traps::TrapKind;
pub use planning::displaced_pointer;
use std::marker::Model;

/// The pc that names no trap handler.
const NO_HANDLER: u32 = u32::MAX;

/// Bits 8 to 55 of the trap register: the trap's address. Bits 0 to 7 are its number.
const TRAP_ADDRESS_PLACE: u32 = 8;

const TRAP_ADDRESS_WIDTH: u32 = 48;

/// One stream of a processor. Contracts see the record of what it holds.
#[derive(Clone, Copy, Debug, PartialEq, Eq)]
pub struct Stream {
    xr: u64,
    retries: u32,
    registers: Registers,
    targets: Targets,
    ssw: StatusWord,
    status: Status,
}

impl Model for Stream {
    ghost use Rattle.stream_core.specs.Streams.{StreamValue};

    ghost Value = { StreamValue };

    ghost view = { λ s. record {
      registers = s.registers;
      targets = s.targets;
      ssw = s.ssw;
      xr = s.xr;
      retries = s.retries;
      status = s.status;
    } };

    ghost inverse = { λ v. record {
      xr = v.xr;
      retries = v.retries;
      registers = v.registers;
      targets = v.targets;
      ssw = v.ssw;
      status = v.status;
    } };
}

impl Stream {
    /// The stream that holds zeros only, and does not run.
    pub fn idle() -> Stream
        ensures { result ≡ idle }
    {
        Stream {
            xr: 0,
            retries: 0,
            registers: Registers::zeros(),
            targets: Targets::zeros(),
            ssw: StatusWord::at(0),
            status: Status::Idle,
        }
    }

    /// The running stream that CREATE starts: its pc, r1, t0 and mask as given, all else zero ("Streams",
    /// docs/MACHINE.md).
    pub fn born(child: &Child) -> Stream
        ensures { result ≡ child_stream child.now }
    {
        let mut stream = Stream::idle();
        stream.registers.set(1, child.value);
        stream.targets.set(0, child.t0);
        stream.ssw = StatusWord {
            mask: child.mask,
            ..StatusWord::at(child.pc)
        };
        stream.status = Status::Running;
        stream
    }

    /// The general register of this number; None from 32 on. r0 is 0.
    pub fn reg(&self, register: u8) -> Option<u64>
        ensures is { result ≡ slice_get self.now.registers register }
        ensures there { IsSome result ↔ (register < 32) }
        ensures zero { register ≡ 0 → result ≡ Some 0 }
    {
        self.registers.get(register)
    }

    /// The target register of this number; None from 8 on.
    pub fn target(&self, target: u8) -> Option<StatusWord>
        ensures is { result ≡ slice_get self.now.targets target }
        ensures there { IsSome result ↔ (target < 8) }
    {
        self.targets.get(target)
    }

    /// The stream status word.
    pub fn ssw(&self) -> StatusWord
        ensures { result ≡ self.now.ssw }
    {
        self.ssw
    }

    /// The trap register: the last trap's number, and 256 times its address.
    pub fn xr(&self) -> u64
        ensures { result ≡ self.now.xr }
    {
        self.xr
    }

    /// How often the reference at the pc was blocked.
    pub fn retries(&self) -> u32
        ensures { result ≡ self.now.retries }
    {
        self.retries
    }

    /// Whether the stream runs.
    pub fn status(&self) -> Status
        ensures { result ≡ self.now.status }
    {
        self.status
    }

    /// Takes a trap at a byte address ("Traps", docs/MACHINE.md): the status word and t0 are exchanged, or the
    /// stream is stopped where it is in a trap already or t0 names no handler.
    pub fn trap(&mut self, kind: TrapKind, address: u64) -> Outcome
        ensures { (self.new, result) ≡ after_trap kind address self.old }
    {
        let stops = self.cannot_trap();
        let address = address % (1 << TRAP_ADDRESS_WIDTH);
        self.xr = u64::from(kind.number()) + address * (1 << TRAP_ADDRESS_PLACE);
        self.retries = 0;
        if stops {
            self.status = Status::Stopped(kind);
            return Outcome::Stopped(kind);
        }
        let saved = self.ssw;
        self.ssw = StatusWord {
            in_trap: true,
            ..self.targets.word(0)
        };
        self.targets.set(0, saved);
        Outcome::Trapped(kind)
    }

    fn cannot_trap(&self) -> bool
        ensures { result ≡ cannot_trap self.now }
    {
        self.ssw.in_trap || self.targets.word(0).pc == NO_HANDLER
    }

    /// The general register of this number; 0 from 32 on.
    pub(crate) fn register(&self, register: u8) -> u64
        ensures { result ≡ register_at self.now.registers register }
    {
        self.registers.value(register)
    }

    /// The target register of this number; zero from 8 on.
    pub(crate) fn target_word(&self, target: u8) -> StatusWord
        ensures { result ≡ target_at self.now.targets target }
    {
        self.targets.word(target)
    }
}
