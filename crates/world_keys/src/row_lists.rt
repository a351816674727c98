//! Lists of numbers in one piece of memory.

ghost use Rattle.std.specs.Prelude.{◌≡◌, ◌<◌, ◌++◌, [], ◌∷◌, Some, length, slice_get, OnOk, OnErr};
ghost use Rattle.std.specs.Option.{option_copied};
ghost use Rattle.world_keys.specs.RowLists.{lists_from, start_at, AreEndsFrom};

use std::alloc::{AllocError, Global};
use std::marker::Model;
use std::mem::size_of;

/// Lists of numbers of 32 bits, one after the other. Contracts see the list of them.
#[derive(Drop)]
pub(crate) struct RowLists {
    numbers: Vec<u32>,
    ends: Vec<u32>,
}

impl Model for RowLists {
    ghost use Rattle.std.specs.Prelude.{ℕ, List, length};
    ghost use Rattle.world_keys.specs.RowLists.{lists_from, AreEndsFrom};

    ghost Value = { List (List ℕ) };

    ghost view = { λ r. lists_from 0 r.ends.items r.numbers.items };

    ghost invariant = { λ r. AreEndsFrom 0 r.ends.items (length r.numbers.items) };
}

impl RowLists {
    /// No list.
    pub(crate) fn new(alloc: Global) -> RowLists
        ensures { result ≡ [] }
    {
        RowLists {
            numbers: Vec::new(alloc),
            ends: Vec::new(alloc),
        }
    }

    /// How many lists there are.
    pub(crate) fn len(&self) -> usize
        ensures { result ≡ length self.now }
    {
        self.ends.len()
    }

    /// The list at a place; None from their number on.
    pub(crate) fn list(&self, place: usize) -> Option<&[u32]>
        ensures { option_copied result ≡ slice_get self.now place }
    {
        if place >= self.ends.len() {
            return None;
        }
        Some(list_at(&self.numbers, &self.ends, place))
    }

    /// Puts a list after the others.
    pub(crate) fn push(&mut self, list: &[u32]) -> Result<(), AllocError>
        ensures pushed { OnOk result (self.new ≡ self.old ++ list.now ∷ []) }
        ensures stays { OnErr result (self.new ≡ self.old) }
    {
        let end = self.numbers.len() + list.len();
        if end > u32::MAX as usize {
            return Err(AllocError);
        }
        self.ends.reserve(1)?;
        self.numbers.extend_from_slice(list)?;
        self.ends.push_reserved(end as u32);
        Ok(())
    }

    /// How many bytes they hold: the room of the numbers and of their ends.
    pub(crate) fn bytes(&self) -> usize {
        let numbers = self.numbers.capacity().saturating_mul(size_of::<u32>());
        let ends = self.ends.capacity().saturating_mul(size_of::<u32>());
        numbers.saturating_add(ends)
    }
}

/// The list at a place.
fn list_at<'a>(numbers: &'a [u32], ends: &[u32], place: usize) -> &'a [u32]
    requires there { place < length ends.now }
    requires ends { AreEndsFrom 0 ends.now (length numbers.now) }
    ensures { slice_get (lists_from 0 ends.now numbers.now) place ≡ Some result.now }
{
    let start = start_at(ends, place);
    &numbers[start..ends[place] as usize]
}

/// Where the list at a place begins.
fn start_at(ends: &[u32], place: usize) -> usize
    requires { place < length ends.now }
    ensures { result ≡ start_at 0 ends.now place }
{
    if place == 0 {
        return 0;
    }
    ends[place - 1] as usize
}
