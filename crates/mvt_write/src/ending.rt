//! Layers whose features are written, and whose pools are written by parts.

ghost use Rattle.std.specs.Prelude.{◌≡◌, ◌<◌, ◌≤◌, ◌^◌, ◌++◌, ◌-◌, ◌↔◌, [], length, IsTrue, OnOk, IfOk};
ghost use Rattle.std.specs.List.{flat_map};
ghost use Rattle.mvt_write.specs.Entries.{entries_of};
ghost use Rattle.mvt_write.specs.Written.{bytes_field};

use crate::entries::Entries;
use crate::field::put_end;
use crate::room::make_room;
use mvt_layer::field_numbers::{LAYER_KEYS, LAYER_VALUES};
use std::alloc::AllocError;

/// The greatest number of entries of a pool that a part writes.
pub(crate) const PART_ENTRIES: usize = 4_096;

/// The entries of a pool, the first of which are written.
#[derive(Drop)]
pub(crate) struct PoolRest {
    entries: Entries,
    /// How many are written.
    done: usize,
    ghost within: { done ≤ length (entries_of entries) },
}

impl PoolRest {
    ghost use Rattle.mvt_write.specs.Ending.{rest_of};

    /// The entries of a pool, none of which is written.
    fn of(entries: Entries) -> PoolRest
        ensures { rest_of result ≡ entries_of entries }
    {
        PoolRest { entries, done: 0 }
    }

    /// Whether all are written.
    fn is_over(&self) -> bool
        ensures { IsTrue result ↔ (rest_of self.now ≡ []) }
    {
        self.done == self.entries.len()
    }

    /// Appends the next `PART_ENTRIES` entries as fields, or all that are left if they are fewer.
    fn put_part(&mut self, out: &mut Vec<u8>, number: u32) -> Result<(), AllocError>
        requires { number < 2 ^ 29 }
        ensures put { OnOk result (out.new.items ++ flat_map (bytes_field number) (rest_of self.new)
            ≡ out.old.items ++ flat_map (bytes_field number) (rest_of self.old)) }
        ensures left { OnOk result (length (rest_of self.new) ≡ length (rest_of self.old) - PART_ENTRIES) }
    {
        let end = self.done + PART_ENTRIES.min(self.entries.len() - self.done);
        self.entries.put_range(out, number, self.done, end)?;
        self.done = end;
        Ok(())
    }
}

/// A layer whose features are written. The entries of its pools are written by parts: first the keys, then the values.
#[derive(Drop)]
pub(crate) struct LayerEnding {
    /// The fields that are written so far.
    bytes: Vec<u8>,
    keys: PoolRest,
    values: PoolRest,
}

impl LayerEnding {
    ghost use Rattle.mvt_write.specs.Ending.{ending_bytes, ending_left, rest_of};

    /// A layer with these fields written, and none of these entries.
    pub fn of(bytes: Vec<u8>, keys: Entries, values: Entries) -> LayerEnding
        ensures bytes { result.bytes ≡ bytes }
        ensures keys { rest_of result.keys ≡ entries_of keys }
        ensures values { rest_of result.values ≡ entries_of values }
    {
        LayerEnding {
            bytes,
            keys: PoolRest::of(keys),
            values: PoolRest::of(values),
        }
    }

    /// Whether all entries are written.
    pub fn is_over(&self) -> bool
        ensures { IsTrue result ↔ (ending_left self.now ≡ 0) }
    {
        self.keys.is_over() && self.values.is_over()
    }

    /// Writes the next entries of one pool. The only error is out of memory; the layer is of no use then.
    pub fn put_part(&mut self) -> Result<(), AllocError>
        ensures bytes { OnOk result (ending_bytes self.new ≡ ending_bytes self.old) }
        ensures left { OnOk result (ending_left self.new ≤ ending_left self.old - 1) }
    {
        make_room(&mut self.bytes, 1, PART_ENTRIES);
        if self.keys.is_over() {
            return self.values.put_part(&mut self.bytes, LAYER_VALUES);
        }
        self.keys.put_part(&mut self.bytes, LAYER_KEYS)
    }

    /// Its bytes, keys and values, once all of these are written. The only error is out of memory.
    pub fn finish(self) -> Result<(Vec<u8>, Entries, Entries), AllocError>
        requires { ending_left self ≡ 0 }
        ensures { IfOk result (λ ended. ended.0.items ≡ ending_bytes self) }
    {
        let mut bytes = self.bytes;
        put_end(&mut bytes)?;
        Ok((bytes, self.keys.entries, self.values.entries))
    }
}
