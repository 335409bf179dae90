//! The two pools of a layer.

use crate::entries::Entries;
use crate::pool::Pool;
use crate::spent::Spent;
use mvt_layer::field_numbers::{LAYER_KEYS, LAYER_VALUES};
use std::alloc::{AllocError, Global};

/// The keys and the values of a layer's tags.
#[derive(Drop)]
pub(crate) struct TagPools {
    pub keys: Pool,
    /// The messages of the values.
    pub values: Pool,
}

impl TagPools {
    ghost use Rattle.std.specs.Prelude.{◌≡◌, [], ◌++◌, IfOk, OnOk};
    ghost use Rattle.std.specs.List.{flat_map};
    ghost use Rattle.mvt_write.specs.Entries.{entries_of};
    ghost use Rattle.mvt_write.specs.Held.{held_keys, held_values};
    ghost use Rattle.mvt_write.specs.Written.{bytes_field};

    /// No keys and no values.
    pub fn new(alloc: Global) -> Result<Self, AllocError>
        ensures keys { IfOk result (λ pools. held_keys pools ≡ []) }
        ensures values { IfOk result (λ pools. held_values pools ≡ []) }
    {
        Ok(TagPools {
            keys: Pool::new(alloc)?,
            values: Pool::new(alloc)?,
        })
    }

    /// Appends the fields of the keys, and then those of the values.
    pub fn put(&self, out: &mut Vec<u8>) -> Result<(), AllocError>
        ensures { OnOk result
            (out.new.items ≡ out.old.items
            ++ (flat_map (bytes_field LAYER_KEYS) (held_keys self.now) ++ flat_map (bytes_field LAYER_VALUES) (held_values self.now))) }
    {
        self.keys.put(out, LAYER_KEYS)?;
        self.values.put(out, LAYER_VALUES)
    }

    /// The keys, the values, and what they were looked up in.
    pub fn into_parts(self) -> (Entries, Entries, Spent)
        ensures keys { entries_of result.0 ≡ held_keys self }
        ensures values { entries_of result.1 ≡ held_values self }
    {
        let (keys, spent_keys) = self.keys.into_parts();
        let (values, spent_values) = self.values.into_parts();
        let spent = Spent {
            keys: spent_keys,
            values: spent_values,
        };
        (keys, values, spent)
    }
}
