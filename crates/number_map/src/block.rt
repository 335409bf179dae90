//! Blocks of a few entries, ascending by number.

ghost use Rattle.std.specs.Prelude.{◌≡◌, ◌+◌, ◌<◌, ◌≤◌, ◌++◌, [], length, take, drop, vec_len, vec_capacity};
ghost use Rattle.std.specs.Prelude.{None, IfOk, IfErr, IfNone, IfSome, OnOk, OnErr, option_copied, option_map};
ghost use Rattle.std.specs.Bool.{OnTrue};
ghost use Rattle.std.specs.Ordering.{nat_cmp};
ghost use Rattle.std.specs.Map.{lookup, remove_entry};
ghost use Rattle.std.specs.BTreeMap.{insert_entry, is_at};
ghost use Rattle.number_map.specs.Blocks.{Ascends, AreBelow, first_from, first_number, last_number};
ghost use Rattle.number_map.specs.Positions.{HasAt, IsGapFor};

use std::alloc::{AllocError, Global};
use std::marker::Model;
use std::mem;

/// The most entries of a block.
pub(crate) const CAPACITY: usize = 128;

/// A number and its value.
pub type Entry<T> = (u64, T);

/// A few entries, ascending by number.
#[derive(Drop)]
pub struct Block<T> {
    entries: Vec<Entry<T>>,
}

impl<T> Model for Block<T> {
    ghost use Rattle.std.specs.Prelude.{ℕ, List};

    ghost Value = { List (ℕ × T) };

    ghost use Rattle.number_map.specs.BlockInside.{IsBlock};

    ghost view = { λ b. b.entries.items };

    ghost invariant = { IsBlock };
}

impl<T> Block<T> {
    /// The entries, ascending by number.
    pub fn entries(&self) -> &[Entry<T>]
        ensures { result.now ≡ self.now }
    {
        &self.entries
    }

    /// A block of no entries. The only error: an allocation fails.
    pub(crate) fn new(alloc: Global) -> Result<Block<T>, AllocError>
        ensures { IfOk result (λ b. b ≡ []) }
    {
        Ok(Block {
            entries: Vec::with_capacity(alloc, CAPACITY)?,
        })
    }

    /// The number of entries.
    pub(crate) fn len(&self) -> usize
        ensures count { result ≡ length self.now }
        ensures few { result ≤ CAPACITY }
    {
        self.entries.len()
    }

    /// The first number, or 0 if the block is empty.
    pub(crate) fn first(&self) -> u64
        ensures { result ≡ first_number self.now }
    {
        first_of(&self.entries)
    }

    /// The value of a number. `first` is to be the first number: with another one it finds the same, but may
    /// search longer.
    pub(crate) fn get(&self, first: u64, number: u64) -> Option<&T>
        requires { Ascends self.now }
        ensures { option_map (λ v. v.now) result ≡ lookup (is_at (nat_cmp number)) self.now }
    {
        match find(&self.entries, first, number) {
            Ok(at) => Some(&self.entries[at].1),
            Err(_) => None,
        }
    }

    /// The first entry with this number or a greater one. `first` is as in `get`.
    pub(crate) fn first_from(&self, first: u64, number: u64) -> Option<&Entry<T>>
        requires { Ascends self.now }
        ensures { option_copied result ≡ first_from number self.now }
    {
        match find(&self.entries, first, number) {
            Ok(at) => self.entries.get(at),
            Err(at) => self.entries.get(at),
        }
    }

    /// The last number, or `None` if the block is empty.
    pub(crate) fn last_number(&self) -> Option<u64>
        ensures { result ≡ last_number self.now }
    {
        match self.entries.last() {
            Some(entry) => Some(entry.0),
            None => None,
        }
    }

    /// Whether this number is greater than all numbers of the block.
    pub(crate) fn ends_before(&self, number: u64) -> bool
        requires { Ascends self.now }
        ensures { OnTrue result (AreBelow number self.now) }
    {
        match self.entries.last() {
            Some(entry) => entry.0 < number,
            None => true,
        }
    }

    /// Gives a number this value, and returns the one that it had. A full block that hasn't the number stays as it is, and the value
    /// is returned as the error. It searches once and takes no memory. `first` is as in `get`.
    pub(crate) fn insert(&mut self, first: u64, number: u64, value: T) -> Result<Option<T>, T>
        requires { Ascends self.old }
        ensures entries { OnOk result (self.new ≡ insert_entry nat_cmp self.old number value) }
        ensures before { IfOk result (λ before. before ≡ lookup (is_at (nat_cmp number)) self.old) }
        ensures full { OnErr result (CAPACITY ≤ length self.old) }
        ensures absent { OnErr result (lookup (is_at (nat_cmp number)) self.old ≡ None) }
        ensures unchanged { OnErr result (self.new ≡ self.old) }
        ensures returned { IfErr result (λ v. v ≡ value) }
    {
        insert_into(&mut self.entries, first, number, value)
    }

    /// Takes a number out, and returns the value that it had. `first` is as in `get`.
    pub(crate) fn remove(&mut self, first: u64, number: u64) -> Option<T>
        requires { Ascends self.old }
        ensures entries { self.new ≡ remove_entry (is_at (nat_cmp number)) self.old }
        ensures removed { result ≡ lookup (is_at (nat_cmp number)) self.old }
        ensures unchanged { IfNone result (self.new ≡ self.old) }
    {
        remove_from(&mut self.entries, first, number)
    }

    /// Moves the upper half of a full block to an empty one. It takes no memory.
    pub(crate) fn split(&mut self, upper: &mut Block<T>)
        requires full { CAPACITY ≤ length self.old }
        requires empty { upper.old ≡ [] }
        ensures entries { self.old ≡ self.new ++ upper.new }
        ensures lower_half { (0 < length self.new) × (length self.new < CAPACITY) }
        ensures upper_half { (0 < length upper.new) × (length upper.new < CAPACITY) }
    {
        move_from(&mut self.entries, CAPACITY / 2, &mut upper.entries);
    }
}

impl<T: Drop> Block<T> {
    /// Gives a number this value in a block that isn't full. It takes no memory.
    pub(crate) fn add(&mut self, number: u64, value: T)
        requires ascending { Ascends self.old }
        requires room { length self.old < CAPACITY }
        ensures { self.new ≡ insert_entry nat_cmp self.old number value }
    {
        let first = self.first();
        let _before = self.insert(first, number, value);
    }

    /// The entries of another block more. It takes no memory.
    pub(crate) fn append(&mut self, other: Block<T>)
        requires { length self.old + length other ≤ CAPACITY }
        ensures { self.new ≡ self.old ++ other }
    {
        let mut other = other;
        self.entries.append(&mut other.entries).unwrap();
    }
}

/// The index of a number if the numbers from the first one up to it have no gap. It reads one entry, and not the first one, which may
/// be in another part of memory: the caller knows its number.
fn place_in_row<T>(entries: &[Entry<T>], first: u64, number: u64) -> Option<usize>
    requires { Ascends entries.now }
    ensures { IfSome result (HasAt entries.now number) }
{
    if number < first {
        return None;
    }
    let at = number - first;
    if at < entries.len() as u64 && entries[at as usize].0 == number {
        return Some(at as usize);
    }
    None
}

/// The index of the number, or the index at which it would be inserted. Among numbers without gaps no search is needed.
fn find<T>(entries: &[Entry<T>], first: u64, number: u64) -> Result<usize, usize>
    requires { Ascends entries.now }
    ensures found { IfOk result (HasAt entries.now number) }
    ensures absent { IfErr result (IsGapFor entries.now number) }
{
    match place_in_row(entries, first, number) {
        Some(at) => Ok(at),
        None => entries.binary_search_by_key(&number, |entry| entry.0),
    }
}

/// The first number, or 0 if there are no entries.
fn first_of<T>(entries: &[Entry<T>]) -> u64
    ensures { result ≡ first_number entries.now }
{
    match entries.first() {
        Some(entry) => entry.0,
        None => 0,
    }
}

/// Gives a number this value, and returns the one that it had. A full list that hasn't the number stays as it is, and the value is
/// returned as the error. It takes no memory.
fn insert_into<T>(
    entries: &mut Vec<Entry<T>>,
    first: u64,
    number: u64,
    value: T,
) -> Result<Option<T>, T>
    requires ascending { Ascends entries.old.items }
    requires few { vec_len entries.old ≤ CAPACITY }
    requires capacity { CAPACITY ≤ vec_capacity entries.old }
    ensures few { vec_len entries.new ≤ CAPACITY }
    ensures capacity { CAPACITY ≤ vec_capacity entries.new }
    ensures entries { OnOk result (entries.new.items ≡ insert_entry nat_cmp entries.old.items number value) }
    ensures before { IfOk result (λ before. before ≡ lookup (is_at (nat_cmp number)) entries.old.items) }
    ensures full { OnErr result (CAPACITY ≤ vec_len entries.old) }
    ensures absent { OnErr result (lookup (is_at (nat_cmp number)) entries.old.items ≡ None) }
    ensures unchanged { OnErr result (entries.new ≡ entries.old) }
    ensures returned { IfErr result (λ v. v ≡ value) }
{
    match find(entries, first, number) {
        Ok(at) => Ok(Some(mem::replace(&mut entries[at], (number, value)).1)),
        Err(at) => {
            if entries.len() >= CAPACITY {
                return Err(value);
            }
            entries.insert(at, (number, value)).unwrap();
            Ok(None)
        }
    }
}

/// Takes a number out, and returns the value that it had.
fn remove_from<T>(entries: &mut Vec<Entry<T>>, first: u64, number: u64) -> Option<T>
    requires { Ascends entries.old.items }
    ensures few { vec_len entries.new ≤ vec_len entries.old }
    ensures capacity { vec_capacity entries.new ≡ vec_capacity entries.old }
    ensures entries { entries.new.items ≡ remove_entry (is_at (nat_cmp number)) entries.old.items }
    ensures removed { result ≡ lookup (is_at (nat_cmp number)) entries.old.items }
    ensures unchanged { IfNone result (entries.new ≡ entries.old) }
{
    match find(entries, first, number) {
        Ok(at) => Some(entries.remove(at).1),
        Err(_) => None,
    }
}

/// Moves the entries from an index on to an empty list that has room for them. It takes no memory.
fn move_from<T>(entries: &mut Vec<Entry<T>>, at: usize, end: &mut Vec<Entry<T>>)
    requires within { at ≤ vec_len entries.old }
    requires room { vec_len entries.old ≤ vec_capacity end.old }
    requires empty { end.old.items ≡ [] }
    ensures front { entries.new.items ≡ take at entries.old.items }
    ensures end { end.new.items ≡ drop at entries.old.items }
    ensures front_capacity { vec_capacity entries.new ≡ vec_capacity entries.old }
    ensures end_capacity { vec_capacity end.old ≤ vec_capacity end.new }
{
    while entries.len() > at {
        let entry = entries.pop().unwrap();
        end.push(entry).unwrap();
    }
    end.reverse();
}
