//! Features.

ghost use Rattle.std.specs.Prelude.{◌≡◌, ◌≤◌, ◌⊎◌, [], length, slice_get, IfErr};
ghost use Rattle.reader.specs.Reading.{Reads, Gives};
ghost use Rattle.geometry_commands.specs.Shapes.{shape_view};
ghost use Rattle.mvt_layer.specs.Tile.{bytes_of, tag_view, tag_views, tagged, feature_view};
ghost use Rattle.mvt_layer.specs.Reading.{found_tag, kind_of, tags_at, shape_read, feature_at, feature_of_parts};
ghost use Rattle.geometry_commands.specs.Decoding.{shape_at};

use crate::fault::TileFault;
use crate::feature_fields::feature_fields;
use crate::field_numbers::{LINESTRING_TYPE, POINT_TYPE, POLYGON_TYPE};
use crate::tile::{TagValue, TileFeature};
use crate::used_keys::UsedKeys;
use geometry_commands::{GeometryFault, Shape, ShapeKind, decode};
use std::alloc::Global;

/// Lists that one feature after the other fills, so that a layer takes their memory once.
#[derive(Drop)]
pub(crate) struct FeatureLists {
    pub(crate) indices: Vec<u32>,
    pub(crate) ints: Vec<u32>,
    pub(crate) used: UsedKeys,
}

impl FeatureLists {
    /// Empty lists. It takes no memory.
    pub(crate) fn new(alloc: Global) -> Self {
        FeatureLists {
            indices: Vec::new(alloc),
            ints: Vec::new(alloc),
            used: UsedKeys::new(alloc),
        }
    }
}

/// The tag of these two indices.
pub(crate) fn tag_of<'a>(
    keys: &[&'a str],
    values: &[TagValue<'a>],
    key: u32,
    value: u32,
) -> Result<(&'a str, TagValue<'a>), TileFault>
    ensures { Reads (λ t. (t.0.now, tag_view t.1)) result (found_tag (slice_get (bytes_of keys.entry.now) key) (slice_get (tag_views values.entry.now) value)) }
{
    let Some(text) = keys.get(key as usize) else {
        return Err(TileFault::Tag);
    };
    let Some(said) = values.get(value as usize) else {
        return Err(TileFault::Tag);
    };
    Ok((*text, *said))
}

/// The tags of these indices, a key's and a value's in turn. A key index comes once. What `used` holds is cleared first.
fn tags_of<'a>(
    alloc: Global,
    keys: &[&'a str],
    values: &[TagValue<'a>],
    indices: &[u32],
    used: &mut UsedKeys,
) -> Result<Vec<(&'a str, TagValue<'a>)>, TileFault>
    ensures { Gives TileFault.Memory (λ v. tagged v.items) result (tags_at (bytes_of keys.entry.now) (tag_views values.entry.now) [] [] indices.now) }
{
    used.clear();
    let mut tags = Vec::with_capacity(alloc, indices.len() / 2)?;
    let mut rest = indices;
    while rest.len() > 0 {
        if rest.len() < 2 {
            return Err(TileFault::Tag);
        }
        let is_new = used.insert(rest[0])?;
        if !is_new {
            return Err(TileFault::Tag);
        }
        let tag = tag_of(keys, values, rest[0], rest[1])?;
        tags.push_reserved(tag);
        rest = &rest[2..];
    }
    Ok(tags)
}

/// The kind of a feature; unknown if it has none, or one that the standard does not define.
pub(crate) fn kind_said(kind: Option<u64>) -> ShapeKind
    ensures { result ≡ kind_of kind }
{
    match kind {
        Some(POINT_TYPE) => ShapeKind::Points,
        Some(LINESTRING_TYPE) => ShapeKind::Lines,
        Some(POLYGON_TYPE) => ShapeKind::Polygons,
        _ => ShapeKind::Unknown,
    }
}

/// The shape that a feature's integers encode.
fn shape_of(alloc: Global, kind: ShapeKind, ints: &[u32]) -> Result<Shape, TileFault>
    ensures exact { Gives TileFault.Memory shape_view result (shape_read (shape_at kind ints.now)) }
    // An allocation fails only where decoding may allocate.
    ensures memory { IfErr result (λ d. d ≡ TileFault.Memory → (kind ≡ ShapeKind.Unknown) ⊎ (3 ≤ length ints.now)) }
{
    match decode(alloc, kind, ints) {
        Ok(shape) => Ok(shape),
        Err(GeometryFault::Memory) => Err(TileFault::Memory),
        Err(_) => Err(TileFault::Geometry),
    }
}

/// A feature, with the pools of its layer.
#[tactic(auto, unfolding(crate::specs::Reading::feature_at, crate::specs::Reading::feature_of_parts))]
pub(crate) fn feature_of<'a>(
    alloc: Global,
    keys: &[&'a str],
    values: &[TagValue<'a>],
    bytes: &'a [u8],
    lists: &mut FeatureLists,
) -> Result<TileFeature<'a>, TileFault>
    ensures { Gives TileFault.Memory feature_view result (feature_at (bytes_of keys.entry.now) (tag_views values.entry.now) bytes.entry.now) }
{
    let fields = feature_fields(&mut lists.indices, &mut lists.ints, bytes);
    let id = fields.id?;
    let kind = fields.kind?;
    fields.indices?;
    fields.ints?;
    let tags = tags_of(alloc, keys, values, &lists.indices, &mut lists.used)?;
    let shape = shape_of(alloc, kind_said(kind), &lists.ints)?;
    Ok(TileFeature { id, tags, shape })
}
