//! Layers and tiles.

ghost use Rattle.std.specs.Prelude.{◌≡◌, ◌≢◌, ℕ, [], List, map, IfOk, IfErr};
ghost use Rattle.reader.specs.Reading.{Reads, Gives};
ghost use Rattle.mvt_layer.specs.Faulty.{TileHas};
ghost use Rattle.mvt_layer.specs.Reads.{ReadsAs};
ghost use Rattle.std.specs.Option.{option_map};
ghost use Rattle.mvt_layer.specs.Tile.{bytes_of, tag_view, tag_views, feature_view, layer_view, layer_views, LayerView};
ghost use Rattle.mvt_layer.specs.Reading.{text_at, tag_value_at, feature_at, each_in, name_at, small_at, version_at, extent_at, layer_at, layer_more};
ghost use Rattle.mvt_layer.specs.Reading.{onward, layers_in, tile_at};
ghost use Rattle.mvt_layer.specs.Fields.{featured, layer_from};

use crate::fault::TileFault;
use crate::features::{FeatureLists, feature_of};
use crate::field_numbers::TILE_LAYERS;
use crate::layer_fields::{LayerFields, layer_fields};
use crate::named::NamedLayers;
use crate::passes::parts;
use crate::tile::{Layer, TagValue, TileFeature};
use crate::values::{tag_value_of, text_of};
use std::alloc::Global;

/// The extent of a layer that states none, and of every layer that is written (MVT 2.1, 4.1).
pub const DEFAULT_EXTENT: u32 = 4096;

/// The version of a layer that states none (MVT 2.1, 4.1).
pub const DEFAULT_VERSION: u32 = 1;

/// The version of layers in the current standard (MVT 2.1, 4.1).
pub const CURRENT_VERSION: u32 = 2;

/// The keys' texts.
fn texts_of<'a>(alloc: Global, raw: &[&'a [u8]]) -> Result<Vec<&'a str>, TileFault>
    ensures { Gives TileFault.Memory (λ v. bytes_of v.items) result (each_in text_at (bytes_of raw.entry.now)) }
{
    let mut texts = Vec::with_capacity(alloc, raw.len())?;
    for part in raw {
        let text = text_of(*part)?;
        texts.push_reserved(text);
    }
    Ok(texts)
}

/// The keys of a layer, where its fields could be read.
pub(crate) fn keys_of<'a>(
    alloc: Global,
    raw: &Result<Vec<&'a [u8]>, TileFault>,
) -> Result<Vec<&'a str>, TileFault>
    ensures { Gives TileFault.Memory (λ v. bytes_of v.items) result (onward (λ v. bytes_of v.items) raw.entry.now (each_in text_at)) }
{
    match raw {
        Ok(list) => texts_of(alloc, list),
        Err(fault) => Err(*fault),
    }
}

/// The tag values that these parts encode.
fn tag_values_of<'a>(alloc: Global, raw: &[&'a [u8]]) -> Result<Vec<TagValue<'a>>, TileFault>
    ensures { Gives TileFault.Memory (λ v. tag_views v.items) result (each_in tag_value_at (bytes_of raw.entry.now)) }
{
    let mut values = Vec::with_capacity(alloc, raw.len())?;
    for part in raw {
        let value = tag_value_of(*part)?;
        values.push_reserved(value);
    }
    Ok(values)
}

/// The tag values of a layer, where its fields could be read.
pub(crate) fn values_of<'a>(
    alloc: Global,
    raw: &Result<Vec<&'a [u8]>, TileFault>,
) -> Result<Vec<TagValue<'a>>, TileFault>
    ensures { Gives TileFault.Memory (λ v. tag_views v.items) result (onward (λ v. bytes_of v.items) raw.entry.now (each_in tag_value_at)) }
{
    match raw {
        Ok(list) => tag_values_of(alloc, list),
        Err(fault) => Err(*fault),
    }
}

/// The features that these parts encode, with the pools of their layer.
fn read_features<'a>(
    alloc: Global,
    keys: &[&'a str],
    values: &[TagValue<'a>],
    raw: &[&'a [u8]],
    lists: &mut FeatureLists,
) -> Result<Vec<TileFeature<'a>>, TileFault>
    ensures { Gives TileFault.Memory (λ v. map feature_view v.items) result
        (each_in (feature_at (bytes_of keys.entry.now) (tag_views values.entry.now)) (bytes_of raw.entry.now)) }
{
    let mut features = Vec::with_capacity(alloc, raw.len())?;
    for part in raw {
        let feature = feature_of(alloc, keys, values, *part, lists)?;
        features.push_reserved(feature);
    }
    Ok(features)
}

/// The features of a layer, where its fields could be read.
fn features_of<'a>(
    alloc: Global,
    keys: &[&'a str],
    values: &[TagValue<'a>],
    raw: &Result<Vec<&'a [u8]>, TileFault>,
) -> Result<Vec<TileFeature<'a>>, TileFault>
    ensures { Gives TileFault.Memory (λ v. map feature_view v.items) result
        (onward (λ v. bytes_of v.items) raw.entry.now (each_in (feature_at (bytes_of keys.entry.now) (tag_views values.entry.now)))) }
{
    match raw {
        Ok(list) => {
            let mut lists = FeatureLists::new(alloc);
            read_features(alloc, keys, values, list, &mut lists)
        },
        Err(fault) => Err(*fault),
    }
}

/// The layer's name.
pub(crate) fn name_of(last: Result<Option<&[u8]>, TileFault>) -> Result<&str, TileFault>
    ensures { Reads (λ t. t.now) result (onward (option_map (λ b. b.now)) last.entry name_at) }
{
    match last? {
        Some(part) => text_of(part),
        None => Err(TileFault::Name),
    }
}

/// A number of 32 bits, or the default if there is none.
fn small(otherwise: u32, last: Option<u64>) -> Result<u32, TileFault>
    ensures { Reads (λ n. n) result (small_at otherwise last) }
{
    match last {
        None => Ok(otherwise),
        Some(n) => {
            if n > 4_294_967_295 {
                Err(TileFault::Range)
            } else {
                Ok(n as u32)
            }
        }
    }
}

/// The layer's version, `DEFAULT_VERSION` if it states none.
#[tactic(auto, unfolding(crate::specs::Reading::version_at))]
pub(crate) fn version_of(last: Result<Option<u64>, TileFault>) -> Result<u32, TileFault>
    ensures { Reads (λ n. n) result (onward (λ n. n) last version_at) }
{
    let n = small(DEFAULT_VERSION, last?)?;
    if n == DEFAULT_VERSION || n == CURRENT_VERSION {
        Ok(n)
    } else {
        Err(TileFault::Version)
    }
}

/// The layer's extent, `DEFAULT_EXTENT` if it states none.
#[tactic(auto, unfolding(crate::specs::Reading::extent_at))]
pub(crate) fn extent_of(last: Result<Option<u64>, TileFault>) -> Result<u32, TileFault>
    ensures { Reads (λ n. n) result (onward (λ n. n) last extent_at) }
{
    let n = small(DEFAULT_EXTENT, last?)?;
    if n == 0 {
        Err(TileFault::Extent)
    } else {
        Ok(n)
    }
}

/// The layer of this name, version and extent: its pools first, wherever they are in the bytes, and then its features.
fn with_features<'a>(
    alloc: Global,
    name: &'a str,
    version: u32,
    extent: u32,
    fields: &LayerFields<'a>,
) -> Result<Layer<'a>, TileFault>
    ensures { Gives TileFault.Memory layer_view result (featured name.entry.now version extent fields.entry.now) }
{
    let keys = keys_of(alloc, &fields.keys)?;
    let values = values_of(alloc, &fields.values)?;
    let features = features_of(alloc, &keys, &values, &fields.features)?;
    Ok(Layer {
        name,
        version,
        extent,
        features,
    })
}

/// The layer that these fields say.
fn layer_said<'a>(alloc: Global, fields: &LayerFields<'a>) -> Result<Layer<'a>, TileFault>
    ensures { Gives TileFault.Memory layer_view result (layer_from fields.entry.now) }
{
    let name = name_of(fields.name)?;
    let version = version_of(fields.version)?;
    let extent = extent_of(fields.extent)?;
    with_features(alloc, name, version, extent, fields)
}

/// A layer.
fn layer_of<'a>(alloc: Global, bytes: &'a [u8]) -> Result<Layer<'a>, TileFault>
    ensures { Gives TileFault.Memory layer_view result (layer_at bytes.entry.now) }
{
    let fields = layer_fields(alloc, bytes);
    layer_said(alloc, &fields)
}

/// The layers with the one that this part encodes.
fn layer_behind<'a>(
    alloc: Global,
    before: NamedLayers<'a>,
    part: &'a [u8],
) -> Result<NamedLayers<'a>, TileFault>
    ensures { Gives TileFault.Memory (λ n. layer_views n.layers.items) result (layer_more (layer_views before.entry.layers.items) part.entry.now) }
{
    let layer = layer_of(alloc, part)?;
    before.with(layer)
}

/// The layers that these parts encode, of different names.
fn layers_of<'a>(alloc: Global, raw: &[&'a [u8]]) -> Result<Vec<Layer<'a>>, TileFault>
    ensures { Gives TileFault.Memory (λ v. layer_views v.items) result (layers_in (bytes_of raw.entry.now)) }
{
    let mut all = NamedLayers::new(alloc);
    for part in raw {
        all = layer_behind(alloc, all, *part)?;
    }
    Ok(all.into_layers())
}

/// The tile, as the definitions read it.
#[tactic(auto, unfolding(crate::specs::Reading::tile_at))]
fn tile_of<'a>(alloc: Global, bytes: &'a [u8]) -> Result<Vec<Layer<'a>>, TileFault>
    ensures { Gives TileFault.Memory (λ v. layer_views v.items) result (tile_at bytes.entry.now) }
{
    let raw = parts(alloc, bytes, TILE_LAYERS)?;
    layers_of(alloc, &raw)
}

/// The layers of a tile (Mapbox Vector Tile 2.1, 4). Names, keys and texts are parts of the bytes.
///
/// Versions 1 and 2 are read; a layer that has none is of version 1, one that has no extent has 4096. Fields that
/// the standard doesn't have are skipped, the last of a field that is to come once counts, and numbers of tags and
/// geometry may come packed or one by one. A feature of no kind, or of one that the standard doesn't have, keeps its
/// integers as `Shape::Raw`.
///
/// Where a tile has several faults, the one that is returned is one that it has.
pub fn read_tile<'a>(alloc: Global, bytes: &'a [u8]) -> Result<Vec<Layer<'a>>, TileFault>
    // What is read is encoded there.
    ensures found { IfOk result (λ v. ReadsAs bytes.entry.now (layer_views v.items)) }
    // What is encoded there is read, unless an allocation fails.
    ensures only { (ls : List LayerView) → ReadsAs bytes.entry.now ls → Gives TileFault.Memory (λ v. layer_views v.items) result (Ok ls) }
    // The fault is one that the bytes have.
    ensures fault { IfErr result (λ d. d ≢ TileFault.Memory → TileHas bytes.entry.now d) }
    ensures exact { Gives TileFault.Memory (λ v. layer_views v.items) result (tile_at bytes.entry.now) }
{
    tile_of(alloc, bytes)
}
