//! The general registers, of which r0 is zero, and the target registers.

ghost use Rattle.std.specs.Prelude.{◌≡◌, ◌<◌, ◌↔◌, replicate, slice_get, IsSome};
ghost use Rattle.stream_core.specs.Registers.{register_at, with_register, target_at, with_target};
ghost use Rattle.stream_core.specs.StatusWords.{status_at};

use crate::status_words::StatusWord;
use std::marker::Model;

/// The general registers r0 to r31. Contracts see the list of their values.
#[derive(Clone, Copy, Debug, PartialEq, Eq)]
pub(crate) struct Registers([u64; 32]);

impl Model for Registers {
    ghost use Rattle.std.specs.Prelude.{ℕ, List, Some, slice_get, ◌≡◌};

    ghost Value = { List ℕ };

    ghost view = { λ r. r.0 };

    ghost invariant = { λ r. slice_get r.0 0 ≡ Some 0 };

    ghost inverse = { λ values. record { 0 = values } };
}

impl Registers {
    /// All zero.
    pub(crate) fn zeros() -> Registers
        ensures { result ≡ replicate 32 0 }
    {
        Registers([0; 32])
    }

    /// The register of this number; None from 32 on.
    pub(crate) fn get(&self, register: u8) -> Option<u64>
        ensures is { result ≡ slice_get self.now register }
        ensures there { IsSome result ↔ (register < 32) }
        ensures zero { register ≡ 0 → result ≡ Some 0 }
    {
        self.0.get(usize::from(register)).copied()
    }

    /// The register of this number; 0 from 32 on.
    pub(crate) fn value(&self, register: u8) -> u64
        ensures { result ≡ register_at self.now register }
    {
        self.get(register).unwrap_or(0)
    }

    /// Writes a register. What is written to r0 is discarded, and so it is from 32 on.
    pub(crate) fn set(&mut self, register: u8, value: u64)
        ensures { self.new ≡ with_register self.old register value }
    {
        let place = usize::from(register);
        if place == 0 {
            return;
        }
        let held: &[u64] = &self.0;
        if place >= held.len() {
            return;
        }
        self.0[place] = value;
    }
}

/// The target registers t0 to t7. Contracts see the list of them.
#[derive(Clone, Copy, Debug, PartialEq, Eq)]
pub(crate) struct Targets([StatusWord; 8]);

impl Model for Targets {
    ghost use Rattle.std.specs.Prelude.{List};
    ghost use Rattle.stream_core.specs.declared.status_words.StatusWord.{StatusWord};

    ghost Value = { List StatusWord };

    ghost view = { λ t. t.0 };

    ghost inverse = { λ words. record { 0 = words } };
}

impl Targets {
    /// All zero.
    pub(crate) fn zeros() -> Targets
        ensures { result ≡ replicate 8 (status_at 0) }
    {
        Targets([StatusWord::at(0); 8])
    }

    /// The target register of this number; None from 8 on.
    pub(crate) fn get(&self, target: u8) -> Option<StatusWord>
        ensures is { result ≡ slice_get self.now target }
        ensures there { IsSome result ↔ (target < 8) }
    {
        self.0.get(usize::from(target)).copied()
    }

    /// The target register of this number; zero from 8 on.
    pub(crate) fn word(&self, target: u8) -> StatusWord
        ensures { result ≡ target_at self.now target }
    {
        self.get(target).unwrap_or(StatusWord::at(0))
    }

    /// Writes a target register; from 8 on nothing is written.
    pub(crate) fn set(&mut self, target: u8, word: StatusWord)
        ensures { self.new ≡ with_target self.old target word }
    {
        let place = usize::from(target);
        let held: &[StatusWord] = &self.0;
        if place >= held.len() {
            return;
        }
        self.0[place] = word;
    }
}
