//! Checks tiles without storing their features.

ghost use Rattle.std.specs.Prelude.{◌≡◌, ◌≢◌, ℕ, [], ◌∷◌, List, Ok, Err, IsOk, IfOk, IfErr, OnOk};
ghost use Rattle.geometry_commands.specs.Decoding.{shape_at};
ghost use Rattle.mvt_layer.specs.Faulty.{TileHas};
ghost use Rattle.mvt_layer.specs.Reads.{ReadsAs};
ghost use Rattle.mvt_layer.specs.Tile.{bytes_of, tag_views, FeatureView, LayerView};
ghost use Rattle.mvt_layer.specs.Reading.{onward, shape_read, tags_at, feature_at, each_in, layer_made, layer_at, layers_in, tile_at};
ghost use Rattle.mvt_layer.specs.Fields.{featured, layer_from};

use crate::fault::TileFault;
use crate::feature_fields::feature_fields;
use crate::features::{FeatureLists, kind_said, tag_of};
use crate::field_numbers::TILE_LAYERS;
use crate::layer_fields::{LayerFields, layer_fields};
use crate::layers::{extent_of, keys_of, name_of, values_of, version_of};
use crate::passes::parts;
use crate::tile::TagValue;
use crate::used_keys::UsedKeys;
use geometry_commands::{ShapeKind, check_shape};
use std::alloc::Global;
use std::collections::BTreeSet;

/// Checks the tags of these indices, a key's and a value's in turn. A key index comes once. What `used` holds is cleared first.
fn check_tags<'a>(
    keys: &[&'a str],
    values: &[TagValue<'a>],
    indices: &[u32],
    used: &mut UsedKeys,
) -> Result<(), TileFault>
    ensures found { OnOk result (IsOk (tags_at (bytes_of keys.entry.now) (tag_views values.entry.now) [] [] indices.now)) }
    ensures fault { IfErr result (λ d. d ≢ TileFault.Memory → tags_at (bytes_of keys.entry.now) (tag_views values.entry.now) [] [] indices.now ≡ Err d) }
{
    used.clear();
    let mut rest = indices;
    while rest.len() > 0 {
        if rest.len() < 2 {
            return Err(TileFault::Tag);
        }
        let is_new = used.insert(rest[0])?;
        if !is_new {
            return Err(TileFault::Tag);
        }
        let _tag = tag_of(keys, values, rest[0], rest[1])?;
        rest = &rest[2..];
    }
    Ok(())
}

/// Checks that the integers encode a shape of this kind.
fn check_geometry(kind: ShapeKind, ints: &[u32]) -> Result<(), TileFault>
    ensures found { OnOk result (IsOk (shape_at kind ints.now)) }
    ensures fault { IfErr result (λ d. shape_read (shape_at kind ints.now) ≡ Err d) }
{
    match check_shape(kind, ints) {
        Ok(()) => Ok(()),
        Err(_) => Err(TileFault::Geometry),
    }
}

/// Checks a feature, with the pools of its layer.
#[tactic(auto, unfolding(crate::specs::Reading::feature_at, crate::specs::Reading::feature_of_parts))]
fn check_feature<'a>(
    keys: &[&'a str],
    values: &[TagValue<'a>],
    bytes: &'a [u8],
    lists: &mut FeatureLists,
) -> Result<(), TileFault>
    ensures found { OnOk result (IsOk (feature_at (bytes_of keys.entry.now) (tag_views values.entry.now) bytes.entry.now)) }
    ensures fault { IfErr result (λ d. d ≢ TileFault.Memory → feature_at (bytes_of keys.entry.now) (tag_views values.entry.now) bytes.entry.now ≡ Err d) }
{
    let fields = feature_fields(&mut lists.indices, &mut lists.ints, bytes);
    let _id = fields.id?;
    let kind = fields.kind?;
    fields.indices?;
    fields.ints?;
    check_tags(keys, values, &lists.indices, &mut lists.used)?;
    check_geometry(kind_said(kind), &lists.ints)
}

/// Checks the features that these parts encode, with the pools of their layer.
fn check_each<'a>(
    keys: &[&'a str],
    values: &[TagValue<'a>],
    raw: &[&'a [u8]],
    lists: &mut FeatureLists,
) -> Result<(), TileFault>
    ensures found { OnOk result (IsOk (each_in (feature_at (bytes_of keys.entry.now) (tag_views values.entry.now)) (bytes_of raw.entry.now))) }
    ensures fault { IfErr result (λ d. d ≢ TileFault.Memory
        → each_in (feature_at (bytes_of keys.entry.now) (tag_views values.entry.now)) (bytes_of raw.entry.now) ≡ Err d) }
{
    for part in raw {
        check_feature(keys, values, *part, lists)?;
    }
    Ok(())
}

/// Checks the features of a layer, where its fields could be read.
fn check_features<'a>(
    alloc: Global,
    keys: &[&'a str],
    values: &[TagValue<'a>],
    raw: &Result<Vec<&'a [u8]>, TileFault>,
) -> Result<(), TileFault>
    ensures found { OnOk result (IsOk (onward (λ v. bytes_of v.items) raw.entry.now
        (each_in (feature_at (bytes_of keys.entry.now) (tag_views values.entry.now))))) }
    ensures fault { IfErr result (λ d. d ≢ TileFault.Memory → onward (λ v. bytes_of v.items) raw.entry.now
        (each_in (feature_at (bytes_of keys.entry.now) (tag_views values.entry.now))) ≡ Err d) }
{
    match raw {
        Ok(list) => {
            let mut lists = FeatureLists::new(alloc);
            check_each(keys, values, list, &mut lists)
        }
        Err(fault) => Err(*fault),
    }
}

/// Checks the pools of a layer, and its features by them.
fn check_pools<'a>(alloc: Global, fields: &LayerFields<'a>) -> Result<(), TileFault>
    ensures found { (name : List ℕ) (version extent : ℕ)
        → OnOk result ((features : List FeatureView) × (featured name version extent fields.entry.now ≡ layer_made name version extent features)) }
    ensures fault { (name : List ℕ) (version extent : ℕ) → IfErr result (λ d. d ≢ TileFault.Memory → featured name version extent fields.entry.now ≡ Err d) }
{
    let keys = keys_of(alloc, &fields.keys)?;
    let values = values_of(alloc, &fields.values)?;
    check_features(alloc, &keys, &values, &fields.features)
}

/// Checks the layer that these fields say, and returns its name.
fn check_said<'a>(alloc: Global, fields: &LayerFields<'a>) -> Result<&'a str, TileFault>
    ensures found { IfOk result (λ name. (l : LayerView) × (layer_from fields.entry.now ≡ Ok l) × (l.name ≡ name.now)) }
    ensures fault { IfErr result (λ d. d ≢ TileFault.Memory → layer_from fields.entry.now ≡ Err d) }
{
    let name = name_of(fields.name)?;
    let _version = version_of(fields.version)?;
    let _extent = extent_of(fields.extent)?;
    check_pools(alloc, fields)?;
    Ok(name)
}

/// Checks a layer, and returns its name.
fn check_layer<'a>(alloc: Global, bytes: &'a [u8]) -> Result<&'a str, TileFault>
    ensures found { IfOk result (λ name. (l : LayerView) × (layer_at bytes.entry.now ≡ Ok l) × (l.name ≡ name.now)) }
    ensures fault { IfErr result (λ d. d ≢ TileFault.Memory → layer_at bytes.entry.now ≡ Err d) }
{
    let fields = layer_fields(alloc, bytes);
    check_said(alloc, &fields)
}

/// Checks the layers that these parts encode, of different names.
fn check_layers<'a>(alloc: Global, raw: &[&'a [u8]]) -> Result<(), TileFault>
    ensures found { OnOk result (IsOk (layers_in (bytes_of raw.entry.now))) }
    ensures fault { IfErr result (λ d. d ≢ TileFault.Memory → layers_in (bytes_of raw.entry.now) ≡ Err d) }
{
    let mut names = BTreeSet::new(alloc);
    for part in raw {
        let name = check_layer(alloc, *part)?;
        let is_new = names.insert(name)?;
        if !is_new {
            return Err(TileFault::LayerTwice);
        }
    }
    Ok(())
}

/// Checks the only layer of a tile, whose name is unlike no other.
fn check_only(alloc: Global, part: &[u8]) -> Result<(), TileFault>
    ensures found { OnOk result (IsOk (layers_in (part.now ∷ []))) }
    ensures fault { IfErr result (λ d. d ≢ TileFault.Memory → layers_in (part.now ∷ []) ≡ Err d) }
{
    match check_layer(alloc, part) {
        Ok(_) => Ok(()),
        Err(fault) => Err(fault),
    }
}

/// Checks the layers that these parts encode, of different names. Most tiles of a small map have one.
fn check_parts<'a>(alloc: Global, raw: &[&'a [u8]]) -> Result<(), TileFault>
    ensures found { OnOk result (IsOk (layers_in (bytes_of raw.entry.now))) }
    ensures fault { IfErr result (λ d. d ≢ TileFault.Memory → layers_in (bytes_of raw.entry.now) ≡ Err d) }
{
    if raw.len() == 1 {
        check_only(alloc, raw[0])
    } else {
        check_layers(alloc, raw)
    }
}

/// The same as `check_tile`, as the definitions read the tile.
#[tactic(auto, unfolding(crate::specs::Reading::tile_at))]
fn check_all<'a>(alloc: Global, bytes: &'a [u8]) -> Result<(), TileFault>
    ensures found { OnOk result (IsOk (tile_at bytes.entry.now)) }
    ensures fault { IfErr result (λ d. d ≢ TileFault.Memory → tile_at bytes.entry.now ≡ Err d) }
{
    let raw = parts(alloc, bytes, TILE_LAYERS)?;
    check_parts(alloc, &raw)
}

/// Checks that the bytes are a tile, as `read_tile` does, without making its features.
///
/// Where a tile has several faults, the one that is returned is the one that `read_tile` returns.
pub fn check_tile(alloc: Global, bytes: &[u8]) -> Result<(), TileFault>
    // What passes is a tile.
    ensures found { OnOk result ((ls : List LayerView) × ReadsAs bytes.now ls) }
    // A tile passes, unless an allocation fails.
    ensures only { (ls : List LayerView) → ReadsAs bytes.now ls → IfErr result (λ d. d ≡ TileFault.Memory) }
    // The fault is one that the bytes have.
    ensures fault { IfErr result (λ d. d ≢ TileFault.Memory → TileHas bytes.now d) }
    ensures exact { IfErr result (λ d. d ≢ TileFault.Memory → tile_at bytes.now ≡ Err d) }
{
    check_all(alloc, bytes)
}
