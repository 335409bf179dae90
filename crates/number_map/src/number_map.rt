//! The map: values by number.

ghost use Rattle.std.specs.Prelude.{◌≡◌, ◌+◌, ◌<◌, ◌≤◌, ◌↔◌, ◌⊎◌, [], length, option_copied, option_map};
ghost use Rattle.std.specs.Prelude.{IsTrue, IsSome, IfSome, IfNone, OnOk, OnErr};
ghost use Rattle.std.specs.Ordering.{nat_cmp};
ghost use Rattle.std.specs.Map.{lookup, remove_entry};
ghost use Rattle.std.specs.BTreeMap.{insert_entry, is_at};
ghost use Rattle.number_map.specs.Blocks.{joined, Ascends, first_from, last_number};

use crate::block::{Block, Entry};
use crate::blocks::{add_empty, first_after, home_of, put, put_beside, take_out};
use std::alloc::{AllocError, Global};
use std::marker::Model;

/// Values by number, ascending.
#[derive(Drop)]
pub struct NumberMap<T> {
    /// The first number of each block: a search over blocks reads these and no block.
    firsts: Vec<u64>,
    blocks: Vec<Block<T>>,
    spare: Vec<Block<T>>,
    len: usize,
}

impl<T> Model for NumberMap<T> {
    ghost use Rattle.number_map.specs.MapView.{MapView, map_code};

    ghost Value = { MapView T };

    ghost coded = { map_code T.code };

    ghost use Rattle.number_map.specs.Inside.{map_view, IsNumberMap};

    ghost view = { map_view };

    ghost invariant = { IsNumberMap };
}

impl<T> NumberMap<T> {
    /// The map of no numbers. It takes no memory.
    pub fn new(alloc: Global) -> NumberMap<T>
        ensures { result.entries ≡ [] }
    {
        NumberMap {
            firsts: Vec::new(alloc),
            blocks: Vec::new(alloc),
            spare: Vec::new(alloc),
            len: 0,
        }
    }

    /// How many numbers have a value.
    pub fn len(&self) -> usize
        ensures count { result ≡ length self.now.entries }
        ensures ascending { Ascends self.now.entries }
    {
        self.len
    }

    /// Whether no number has a value.
    pub fn is_empty(&self) -> bool
        ensures { IsTrue result ↔ (self.now.entries ≡ []) }
    {
        self.len == 0
    }

    /// The value of a number, by a binary search among blocks, and one in a block where the block's numbers have gaps.
    pub fn get(&self, number: u64) -> Option<&T>
        ensures { option_map (λ v. v.now) result ≡ lookup (is_at (nat_cmp number)) self.now.entries }
    {
        let at = home_of(&self.firsts, number);
        if at >= self.blocks.len() {
            return None;
        }
        self.blocks[at].get(self.firsts[at], number)
    }

    /// The first entry with this number or a greater one, by the searches of `get`.
    pub fn first_from(&self, number: u64) -> Option<&Entry<T>>
        ensures { option_copied result ≡ first_from number self.now.entries }
    {
        let at = home_of(&self.firsts, number);
        if at >= self.blocks.len() {
            return None;
        }
        match self.blocks[at].first_from(self.firsts[at], number) {
            Some(entry) => Some(entry),
            None => first_after(&self.blocks, at),
        }
    }

    /// The greatest number that has a value, or `None` if the map is empty, without a search.
    pub fn last_number(&self) -> Option<u64>
        ensures last { result ≡ last_number self.now.entries }
        ensures ascending { Ascends self.now.entries }
    {
        match self.blocks.last() {
            Some(block) => block.last_number(),
            None => None,
        }
    }

    /// The entries of one block after another are those of the map.
    pub fn blocks(&self) -> &[Block<T>]
        ensures entries { joined result.now ≡ self.now.entries }
        ensures ascending { Ascends self.now.entries }
    {
        &self.blocks
    }
}

impl<T: Drop> NumberMap<T> {
    /// Makes room for one number more. The only error: an allocation fails, and nothing changes then.
    pub fn room(&mut self) -> Result<(), AllocError>
        ensures entries { self.new.entries ≡ self.old.entries }
        ensures room { OnOk result (0 < self.new.spare) }
        ensures kept { self.old.spare ≤ self.new.spare }
        ensures missing { OnErr result (self.old.spare ≡ 0) }
        ensures unchanged { OnErr result (self.new ≡ self.old) }
    {
        self.room_for(1)
    }

    /// Makes room for `count` numbers more, whichever they are. The only error: an allocation fails, and there is room for fewer then.
    pub fn room_for(&mut self, count: usize) -> Result<(), AllocError>
        ensures entries { self.new.entries ≡ self.old.entries }
        ensures room { OnOk result (count ≤ self.new.spare) }
        ensures kept { self.old.spare ≤ self.new.spare }
        ensures missing { OnErr result (self.new.spare < count) }
    {
        if usize::MAX - self.len < count {
            return Err(AllocError);
        }
        self.firsts.reserve(count)?;
        self.blocks.reserve(count)?;
        add_empty(*self.blocks.allocator(), &mut self.spare, count)
    }

    /// Gives a number this value, and returns the one that it had. It takes no memory.
    pub fn insert(&mut self, number: u64, value: T) -> Option<T>
        requires { (0 < self.old.spare) ⊎ IsSome (lookup (is_at (nat_cmp number)) self.old.entries) }
        ensures entries { self.new.entries ≡ insert_entry nat_cmp self.old.entries number value }
        ensures before { result ≡ lookup (is_at (nat_cmp number)) self.old.entries }
        ensures spare { self.old.spare ≤ self.new.spare + 1 }
        ensures kept { IfSome result (λ _. self.new.spare ≡ self.old.spare) }
    {
        let at = home_of(&self.firsts, number);
        match put(&mut self.firsts, &mut self.blocks, at, number, value) {
            Ok(before) => {
                if before.is_none() {
                    self.len += 1;
                }
                before
            }
            Err(value) => {
                let spare = self.spare.pop().unwrap();
                put_beside(&mut self.firsts, &mut self.blocks, at, spare, number, value);
                self.len += 1;
                None
            }
        }
    }

    /// Takes a number out, and returns the value that it had. It takes no memory, and room stays.
    pub fn remove(&mut self, number: u64) -> Option<T>
        ensures entries { self.new.entries ≡ remove_entry (is_at (nat_cmp number)) self.old.entries }
        ensures removed { result ≡ lookup (is_at (nat_cmp number)) self.old.entries }
        ensures spare { self.old.spare ≤ self.new.spare }
        ensures unchanged { IfNone result (self.new ≡ self.old) }
    {
        let at = home_of(&self.firsts, number);
        if at >= self.blocks.len() {
            return None;
        }
        let removed = take_out(&mut self.firsts, &mut self.blocks, at, number);
        if removed.is_some() {
            self.len -= 1;
        }
        removed
    }
}
