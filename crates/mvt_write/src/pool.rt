//! Pools: keys and values that a layer holds once and refers to by index.

ghost use Rattle.std.specs.Prelude.{◌≡◌, ◌<◌, ◌≤◌, ◌≢◌, ◌^◌, ℕ, List, length, slice_index, IfOk, OnErr, None, Some};
ghost use Rattle.std.specs.Option.{unwrap_or, ForSome};
ghost use Rattle.std.specs.BTreeMap.{get, IsUnchanged, Updates};
ghost use Rattle.std.specs.Ordering.{nat_cmp};
ghost use Rattle.mvt_write.specs.Codes.{text_code};
ghost use Rattle.mvt_write.specs.Entries.{entries_of};
ghost use Rattle.mvt_write.specs.Pools.{index_in};
ghost use Rattle.mvt_write.specs.Slots.{place_of, slot_index, code_index, bytes_index, led, IsOther};

use crate::codes::{FACTOR, text_code};
use crate::entries::Entries;
use crate::spent::SpentPool;
use std::alloc::{AllocError, Global};
use std::collections::BTreeMap;

/// The number of slots.
const SLOTS: usize = 128;

/// The slot of a code.
#[tactic(auto, unfolding(crate::specs::Slots::place_of))]
fn place_of(code: u64) -> usize
    ensures place { result ≡ place_of code }
    ensures within { result < SLOTS }
{
    (code.wrapping_mul(FACTOR) >> 57) as usize % SLOTS
}

/// The number of a code, which becomes `next` if it had none. An `Err` changes nothing.
fn number_of(
    numbers: &mut BTreeMap<u64, usize>,
    code: u64,
    next: usize,
) -> Result<usize, AllocError>
    ensures number { IfOk result (λ n. n ≡ unwrap_or (get nat_cmp numbers.old code) next) }
    ensures updates { IfOk result (λ n. Updates nat_cmp numbers.old numbers.new code (Some n)) }
    ensures err { OnErr result (IsUnchanged numbers.old numbers.new) }
{
    Ok(*numbers.entry(code)?.or_insert(next))
}

/// A list of these bytes.
fn copied(alloc: Global, bytes: &[u8]) -> Result<Vec<u8>, AllocError>
    ensures { IfOk result (λ v. v.items ≡ bytes.now) }
{
    let mut copy = Vec::with_capacity(alloc, bytes.len())?;
    copy.extend_from_slice(bytes)?;
    Ok(copy)
}

/// Entries in the order of their first use, each once.
///
/// Each entry has a slot by its code. The first entry of a slot is named there, so it is found without a search, and an entry whose
/// slot is free is new. Of the other entries the first of each code is in an ordered map by codes, so most comparisons are of two
/// numbers. The rest are in an ordered map by their bytes, which stays fast whatever the entries are.
#[derive(Drop)]
pub(crate) struct Pool {
    alloc: Global,
    entries: Entries,
    /// For each slot one more than the index of its first entry, or 0.
    slots: Box<[usize; SLOTS]>,
    /// For each code the index of its first entry that isn't the first of its slot.
    codes: BTreeMap<u64, usize>,
    /// The indices of the entries that are neither.
    others: BTreeMap<Vec<u8>, usize>,
    ghost looked: { (entry : List ℕ)
        → led (entries_of entries) (slot_index slots.value entry) entry (led (entries_of entries) (code_index codes entry) entry (bytes_index others entry))
        ≡ index_in (entries_of entries) entry },
    ghost free: { (entry : List ℕ) → slot_index slots.value entry ≡ None
        → led (entries_of entries) (code_index codes entry) entry (bytes_index others entry) ≡ None },
    ghost coded: { (entry : List ℕ) → code_index codes entry ≡ None → bytes_index others entry ≡ None },
    ghost first: { (entry : List ℕ) → ForSome (slot_index slots.value entry) (λ i. i < length (entries_of entries)) },
    ghost second: { (entry : List ℕ) → ForSome (code_index codes entry) (λ i. i < length (entries_of entries)) },
}

impl Pool {
    ghost use Rattle.std.specs.Prelude.{◌++◌, [], OnOk};
    ghost use Rattle.std.specs.List.{flat_map};
    ghost use Rattle.mvt_write.specs.Held.{held};
    ghost use Rattle.mvt_write.specs.Pools.{index_of, with_entry};
    ghost use Rattle.mvt_write.specs.Written.{bytes_field};

    /// No entries.
    pub fn new(alloc: Global) -> Result<Self, AllocError>
        ensures { IfOk result (λ pool. held pool ≡ []) }
    {
        let entries = Entries::new(alloc)?;
        let slots = Box::new(alloc, [0; SLOTS])?;
        Ok(Pool {
            alloc,
            entries,
            slots,
            codes: BTreeMap::new(alloc),
            others: BTreeMap::new(alloc),
        })
    }

    /// Adds the first entry of a slot, and returns its index.
    fn add_first(&mut self, place: usize, entry: &[u8]) -> Result<usize, AllocError>
        requires within { place < SLOTS }
        requires place { place ≡ place_of (text_code entry.now) }
        requires free { slice_index self.old.slots.value place ≡ 0 }
        ensures index { IfOk result (λ i. index_of (held self.new) entry.now ≡ i) }
        ensures entries { OnOk result (held self.new ≡ with_entry (held self.old) entry.now) }
    {
        let index = self.entries.len();
        self.entries.reserve(entry.len())?;
        self.entries.push(entry);
        self.slots[place] = index + 1;
        Ok(index)
    }

    /// Adds an entry whose slot and whose code name other entries, and returns its index.
    fn add_other(&mut self, entry: &[u8]) -> Result<usize, AllocError>
        requires slot { IsOther (held self.old) (slot_index self.old.slots.value entry.now) entry.now }
        requires code { IsOther (held self.old) (code_index self.old.codes entry.now) entry.now }
        requires free { bytes_index self.old.others entry.now ≡ None }
        ensures index { IfOk result (λ i. index_of (held self.new) entry.now ≡ i) }
        ensures entries { OnOk result (held self.new ≡ with_entry (held self.old) entry.now) }
    {
        let index = self.entries.len();
        let key = copied(self.alloc, entry)?;
        self.entries.reserve(entry.len())?;
        self.others.insert(key, index)?;
        self.entries.push(entry);
        Ok(index)
    }

    /// The index of an entry whose slot and whose code name other entries. It is added at the end if it is missing.
    fn index_by_bytes(&mut self, entry: &[u8]) -> Result<usize, AllocError>
        requires slot { IsOther (held self.old) (slot_index self.old.slots.value entry.now) entry.now }
        requires code { IsOther (held self.old) (code_index self.old.codes entry.now) entry.now }
        ensures index { IfOk result (λ i. index_of (held self.new) entry.now ≡ i) }
        ensures entries { OnOk result (held self.new ≡ with_entry (held self.old) entry.now) }
    {
        if let Some(index) = self.others.get(entry) {
            return Ok(*index);
        }
        self.add_other(entry)
    }

    /// The index of an entry whose slot names another entry. It is added at the end if it is missing.
    fn index_by_code(&mut self, code: u64, entry: &[u8]) -> Result<usize, AllocError>
        requires slot { IsOther (held self.old) (slot_index self.old.slots.value entry.now) entry.now }
        requires code { code ≡ text_code entry.now }
        ensures index { IfOk result (λ i. index_of (held self.new) entry.now ≡ i) }
        ensures entries { OnOk result (held self.new ≡ with_entry (held self.old) entry.now) }
    {
        let next = self.entries.len();
        self.entries.reserve(entry.len())?;
        let index = number_of(&mut self.codes, code, next)?;
        if index == next {
            self.entries.push(entry);
            return Ok(index);
        }
        if self.entries.is_at(index, entry) {
            return Ok(index);
        }
        self.index_by_bytes(entry)
    }

    /// The index of an entry. It is added at the end if it is missing.
    pub fn index_of(&mut self, entry: &[u8]) -> Result<usize, AllocError>
        ensures index { IfOk result (λ i. index_of (held self.new) entry.now ≡ i) }
        ensures entries { OnOk result (held self.new ≡ with_entry (held self.old) entry.now) }
    {
        let code = text_code(entry);
        let place = place_of(code);
        let number = self.slots[place];
        if number == 0 {
            return self.add_first(place, entry);
        }
        if self.entries.is_at(number - 1, entry) {
            return Ok(number - 1);
        }
        self.index_by_code(code, entry)
    }

    /// Appends each entry as a field.
    pub fn put(&self, out: &mut Vec<u8>, number: u32) -> Result<(), AllocError>
        requires { number < 2 ^ 29 }
        ensures { OnOk result (out.new.items ≡ out.old.items ++ flat_map (bytes_field number) (held self.now)) }
    {
        self.entries.put(out, number)
    }

    /// Its entries, and what they were looked up in.
    pub fn into_parts(self) -> (Entries, SpentPool)
        ensures { entries_of result.0 ≡ held self }
    {
        let spent = SpentPool {
            codes: self.codes.into_iter(),
            others: self.others.into_iter(),
            bytes: Vec::new(self.alloc),
            spans: Vec::new(self.alloc),
        };
        (self.entries, spent)
    }
}
