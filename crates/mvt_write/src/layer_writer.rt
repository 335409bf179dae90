//! A layer that is written feature by feature.

ghost use Rattle.std.specs.Prelude.{◌≡◌, ◌++◌, ◌∷◌, ◌<◌, ◌^◌, ℕ, List, [], IfOk, IfSome, OnOk};
ghost use Rattle.std.specs.List.{flat_map};
ghost use Rattle.pb_wire.specs.Varint.{varint};
ghost use Rattle.geometry_commands.specs.Shapes.{ShapeView, shape_spelled, kind_of};
ghost use Rattle.mvt_layer.specs.Tile.{Tagged, FeatureView, tag_view};
ghost use Rattle.mvt_write.specs.CanWrite.{CanWriteValue};
ghost use Rattle.mvt_write.specs.Fits.{FitsTag};
ghost use Rattle.mvt_write.specs.Ending.{ending_bytes};
ghost use Rattle.mvt_write.specs.Writes.{Writes, layer_of};
ghost use Rattle.mvt_write.specs.Written.{bytes_field, layer_written};

use crate::ending::LayerEnding;
use crate::feature::{FeatureHeads, put_message};
use crate::field::{put_bytes, put_end};
use crate::room::make_room;
use crate::spent::Spent;
use crate::tag_pools::TagPools;
use crate::tags::put_indices;
use geometry_commands::ShapeKind;
use mvt_layer::TagValue;
use mvt_layer::field_numbers::{LAYER_NAME, TILE_LAYERS};
use std::alloc::{AllocError, Global};

/// The bytes that a layer has room for at first: a few features, so that a small layer is one piece of memory.
const FIRST_BYTES: usize = 1_024;

/// The bytes that the indices of a feature's tags have room for at first: those of 16 tags, mostly.
const FIRST_TAG_BYTES: usize = 32;

/// A layer that is being written (Mapbox Vector Tile 2.1, 4.1): its features one after the other, and before each feature its
/// tags. After an `Err` it is of no more use.
#[derive(Drop)]
pub struct LayerWriter {
    /// Boxed, since a writer is moved into a map of layers and out of it.
    pools: Box<TagPools>,
    /// The packed indices of the tags of the feature that comes next.
    tags: Vec<u8>,
    /// The fields of the layer's name and of its features.
    bytes: Vec<u8>,
    heads: FeatureHeads,
}

impl LayerWriter {
    /// A layer with no features.
    pub fn new(alloc: Global, name: &str) -> Result<Self, AllocError>
        ensures { IfOk result (λ w. Writes w name.now [] []) }
    {
        let tag_pools = TagPools::new(alloc)?;
        let pools = Box::new(alloc, tag_pools)?;
        let mut bytes = Vec::with_capacity(alloc, FIRST_BYTES)?;
        put_bytes(&mut bytes, LAYER_NAME, name.as_bytes())?;
        Ok(LayerWriter {
            pools,
            tags: Vec::with_capacity(alloc, FIRST_TAG_BYTES)?,
            bytes,
            heads: FeatureHeads::new(alloc)?,
        })
    }

    /// Adds a tag to the feature that comes next. The value is no floating point number, and a `Negative` is below 0. For tiles
    /// that can be read, the keys of a feature ascend.
    pub fn put_tag(&mut self, key: &str, value: TagValue<'_>) -> Result<(), AllocError>
        requires { CanWriteValue (tag_view value) }
        ensures writes { OnOk result ((name : List ℕ) (fs : List FeatureView) (tags : List Tagged)
            → Writes self.old name fs tags → Writes self.new name fs (tags ++ (key.now, tag_view value.entry) ∷ [])) }
        ensures fits { FitsTag (key.now, tag_view value.entry) }
    {
        put_indices(
            &mut self.tags,
            &mut self.pools,
            &mut self.heads.tags,
            key,
            value,
        )?;
        Ok(())
    }

    /// Ends a feature, with the tags that were added since the one before it. `geometry` are the packed integers of a shape of
    /// this kind.
    pub fn put_feature(
        &mut self,
        id: Option<u64>,
        kind: ShapeKind,
        geometry: &[u8],
    ) -> Result<(), AllocError>
        ensures writes { OnOk result ((name : List ℕ) (fs : List FeatureView) (tags : List Tagged) (s : ShapeView)
            → Writes self.old name fs tags → geometry.now ≡ flat_map varint (shape_spelled s) → kind ≡ kind_of s
            → Writes self.new name (fs ++ record { id = id; tags = tags; shape = s } ∷ []) []) }
        ensures fits { IfSome id (λ id. id < 2 ^ 64) }
    {
        make_room(&mut self.bytes, 1, geometry.len());
        put_message(
            &mut self.bytes,
            &mut self.heads,
            id,
            &self.tags,
            kind,
            geometry,
        )?;
        self.tags.clear();
        Ok(())
    }

    /// Appends the layer as a field of a tile, with version `CURRENT_VERSION` and extent `DEFAULT_EXTENT`.
    pub fn finish(mut self, out: &mut Vec<u8>) -> Result<(), AllocError>
        ensures { OnOk result ((name : List ℕ) (fs : List FeatureView) → Writes self name fs []
            → out.new.items ≡ out.old.items ++ bytes_field TILE_LAYERS (layer_written (layer_of name fs))) }
    {
        let writer = &mut self;
        writer.pools.put(&mut writer.bytes)?;
        put_end(&mut writer.bytes)?;
        put_bytes(out, TILE_LAYERS, &writer.bytes)
    }

    /// The layer without its pools' entries, these, and what they were looked up in, so that it can be finished by parts.
    pub(crate) fn into_ending(self) -> (LayerEnding, Spent)
        ensures { (name : List ℕ) (fs : List FeatureView) → Writes self name fs [] → ending_bytes result.0 ≡ layer_written (layer_of name fs) }
    {
        let pools = Box::into_inner(self.pools);
        let (keys, values, spent) = pools.into_parts();
        (LayerEnding::of(self.bytes, keys, values), spent)
    }
}
