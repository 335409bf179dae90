//! The memory of a layer that is written, freed by parts, since the allocator takes time for each entry of a map and the kernel for each page.

ghost use Rattle.std.specs.Prelude.{◌≡◌, ◌-◌, length, take};

use crate::ending::PART_ENTRIES;
use crate::entries::Entries;
use crate::span::{SPAN_BYTES, Span};
use std::collections::btree_map::IntoIter;

/// How many bytes of a list a part gives back: 512 pages of 4 KiB.
pub(crate) const SHRINK_BYTES: usize = 2_097_152;

/// How many spans have that many bytes.
const SHRINK_SPANS: usize = SHRINK_BYTES / SPAN_BYTES;

/// Gives back the last `count` items of a list, or all if it has fewer.
pub(crate) fn shrink<T: Drop>(list: &mut Vec<T>, count: usize)
    ensures { list.new.items ≡ take (length list.old.items - count) list.old.items }
{
    list.truncate(list.len().saturating_sub(count));
    list.shrink_to_fit();
}

/// What a pool was made of, which is no longer looked at. What its calls do shows in memory and in time alone, so they have no clauses.
#[derive(Drop)]
pub(crate) struct SpentPool {
    /// The maps in which its entries were looked up.
    pub codes: IntoIter<u64, usize>,
    pub others: IntoIter<Vec<u8>, usize>,
    /// The bytes and the spans of its entries, once they are written.
    pub bytes: Vec<u8>,
    pub spans: Vec<Span>,
}

impl SpentPool {
    /// Frees the next `PART_ENTRIES` entries of the maps. An entry of the pool is in one of the maps at most, so none is left once all parts of the
    /// pool are written.
    fn shrink_maps(&mut self) {
        for _entry in 0..PART_ENTRIES {
            if self.codes.next().is_none() && self.others.next().is_none() {
                return;
            }
        }
    }

    /// Takes the entries, which are written.
    fn take_entries(&mut self, entries: Entries) {
        let (bytes, spans) = entries.into_lists();
        self.bytes = bytes;
        self.spans = spans;
    }

    /// Gives back at most `SHRINK_BYTES` bytes of the entries. It is false if there were none.
    fn shrink_lists(&mut self) -> bool {
        if !self.spans.is_empty() {
            shrink(&mut self.spans, SHRINK_SPANS);
            return true;
        }
        if self.bytes.is_empty() {
            return false;
        }
        shrink(&mut self.bytes, SHRINK_BYTES);
        true
    }
}

/// What both pools of a layer were made of. As in `SpentPool`, what the calls do shows in memory and in time alone.
#[derive(Drop)]
pub(crate) struct Spent {
    pub keys: SpentPool,
    pub values: SpentPool,
}

impl Spent {
    /// Takes the entries of both pools, which are written.
    pub fn take_entries(&mut self, keys: Entries, values: Entries) {
        self.keys.take_entries(keys);
        self.values.take_entries(values);
    }

    /// Frees the next entries of the maps of each pool, and gives back at most `SHRINK_BYTES` bytes of one list.
    pub fn shrink(&mut self) {
        self.keys.shrink_maps();
        self.values.shrink_maps();
        if !self.keys.shrink_lists() {
            let _left = self.values.shrink_lists();
        }
    }
}
