//! Lists of numbers, each known by its place.

ghost use Rattle.std.specs.Prelude.{◌≡◌, ◌++◌, ℕ, [], ◌∷◌, length, slice_get, ◌↔◌, IsSome, IfSome, IfOk, OnOk, OnErr};
ghost use Rattle.std.specs.Option.{option_copied};
ghost use Rattle.world_keys.specs.Tables.{place_in, Has, Extends};

use crate::buckets::{bucket_of, find_linked, make_room};
use crate::row_lists::RowLists;
use std::alloc::{AllocError, Global};
use std::marker::Model;
use std::mem::size_of;

/// Lists of numbers of 32 bits, in the order in which they were put in. Contracts see the list of them.
#[derive(Drop)]
pub struct Table {
    alloc: Global,
    lists: RowLists,
    heads: Vec<u32>,
    earlier: Vec<u32>,
}

impl Model for Table {
    ghost use Rattle.std.specs.Prelude.{ℕ, List};
    ghost use Rattle.world_keys.specs.Buckets.{HasBuckets};

    ghost Value = { List (List ℕ) };

    ghost view = { λ t. t.lists };

    ghost invariant = { λ t. HasBuckets t.lists t.heads.items t.earlier.items };
}

impl Table {
    /// The table without a list.
    pub fn new(alloc: Global) -> Table
        ensures { result ≡ [] }
    {
        Table {
            alloc,
            lists: RowLists::new(alloc),
            heads: Vec::new(alloc),
            earlier: Vec::new(alloc),
        }
    }

    /// How many lists it has.
    pub fn len(&self) -> usize
        ensures { result ≡ length self.now }
    {
        self.lists.len()
    }

    /// The place of a list; None where the table does not have it.
    pub fn find(&self, list: &[u32]) -> Option<usize>
        ensures place { IfSome result (λ k. k ≡ place_in self.now list.now) }
        ensures there { IsSome result ↔ Has self.now list.now }
    {
        find_linked(&self.lists, &self.heads, &self.earlier, list)
    }

    /// The list at a place; None from the table's length on.
    pub fn list(&self, place: usize) -> Option<&[u32]>
        ensures { option_copied result ≡ slice_get self.now place }
    {
        self.lists.list(place)
    }

    /// Puts a list that the table does not have after the others.
    pub fn push(&mut self, list: &[u32]) -> Result<(), AllocError>
        requires { ¬ (Has self.old list.now) }
        ensures pushed { OnOk result (self.new ≡ self.old ++ list.now ∷ []) }
        ensures stays { OnErr result (self.new ≡ self.old) }
    {
        let place = self.lists.len();
        if place >= u32::MAX as usize {
            return Err(AllocError);
        }
        make_room(self.alloc, &self.lists, &mut self.heads, &mut self.earlier)?;
        self.earlier.reserve(1)?;
        self.lists.push(list)?;
        let bucket = bucket_of(list, self.heads.len());
        self.earlier.push_reserved(self.heads[bucket]);
        self.heads[bucket] = place as u32 + 1;
        Ok(())
    }

    /// The place of a list, which is put after the others if the table does not have it.
    pub fn place(&mut self, list: &[u32]) -> Result<u32, AllocError>
        ensures place { IfOk result (λ k. k ≡ place_in self.new list.now) }
        ensures there { OnOk result (Has self.new list.now) }
        ensures grown { Extends self.old self.new }
    {
        let place = self.place_or_put(list)?;
        if place > u32::MAX as usize {
            return Err(AllocError);
        }
        Ok(place as u32)
    }

    /// How many bytes it holds: the room of its lists and of what finds them.
    pub fn bytes(&self) -> usize {
        let heads = self.heads.capacity().saturating_mul(size_of::<u32>());
        let earlier = self.earlier.capacity().saturating_mul(size_of::<u32>());
        heads
            .saturating_add(earlier)
            .saturating_add(self.lists.bytes())
    }

    fn place_or_put(&mut self, list: &[u32]) -> Result<usize, AllocError>
        ensures place { IfOk result (λ k. k ≡ place_in self.new list.now) }
        ensures there { OnOk result (Has self.new list.now) }
        ensures grown { Extends self.old self.new }
    {
        if let Some(place) = self.find(list) {
            return Ok(place);
        }
        let place = self.len();
        self.push(list)?;
        Ok(place)
    }
}
