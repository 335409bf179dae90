//! Tags.

ghost use Rattle.std.specs.Prelude.{◌≡◌, ◌++◌, OnOk};
ghost use Rattle.pb_wire.specs.Varint.{varint};
ghost use Rattle.mvt_layer.specs.Tile.{tag_view};
ghost use Rattle.mvt_write.specs.CanWrite.{CanWriteValue};
ghost use Rattle.mvt_write.specs.Fits.{FitsTag};
ghost use Rattle.mvt_write.specs.Held.{held_keys, held_values};
ghost use Rattle.mvt_write.specs.Pools.{index_of, with_entry};
ghost use Rattle.mvt_write.specs.Written.{value_written};

use crate::field::put_pair;
use crate::tag_pools::TagPools;
use crate::value::write_value;
use mvt_layer::TagValue;
use std::alloc::AllocError;

/// Appends the index of a tag's key and the index of its value. `message` is overwritten.
pub(crate) fn put_indices(
    out: &mut Vec<u8>,
    pools: &mut TagPools,
    message: &mut Vec<u8>,
    key: &str,
    value: TagValue<'_>,
) -> Result<(), AllocError>
    requires { CanWriteValue (tag_view value) }
    ensures keys { OnOk result (held_keys pools.new ≡ with_entry (held_keys pools.old) key.now) }
    ensures values { OnOk result (held_values pools.new ≡ with_entry (held_values pools.old) (value_written (tag_view value.entry))) }
    ensures written { OnOk result
        (out.new.items ≡ out.old.items
        ++ (varint (index_of (held_keys pools.new) key.now) ++ varint (index_of (held_values pools.new) (value_written (tag_view value.entry))))) }
    ensures fits { FitsTag (key.now, tag_view value.entry) }
{
    let key_index = pools.keys.index_of(key.as_bytes())?;
    write_value(message, value)?;
    let value_index = pools.values.index_of(message)?;
    put_pair(out, key_index as u64, value_index as u64)
}
