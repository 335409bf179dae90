//! Layers whose features are in memory.

ghost use Rattle.std.specs.Prelude.{◌≡◌, ◌++◌, ◌∷◌, [], ℕ, List, All, map, IfOk, OnOk};
ghost use Rattle.std.specs.List.{flat_map};
ghost use Rattle.pb_wire.specs.Varint.{varint};
ghost use Rattle.geometry_commands.specs.Encodable.{CanSpell};
ghost use Rattle.geometry_commands.specs.Shapes.{shape_view, shape_spelled, kind_of, IsShape};
ghost use Rattle.mvt_layer.specs.Tile.{FeatureView, feature_view, layer_view, tagged};
ghost use Rattle.mvt_write.specs.CanWrite.{CanWriteValue, CanWriteFeature, CanWriteLayer};
ghost use Rattle.mvt_write.specs.Fits.{FitsTag, FitsFeature, FitsLayer};
ghost use Rattle.mvt_write.specs.Writes.{Writes};
ghost use Rattle.mvt_write.specs.Written.{bytes_field, layer_written};

use crate::field::pack_numbers;
use crate::layer_writer::LayerWriter;
use geometry_commands::{Shape, ShapeKind, encode_lines, encode_points, encode_rings};
use mvt_layer::field_numbers::TILE_LAYERS;
use mvt_layer::{Layer, TagValue, TileFeature};
use std::alloc::{AllocError, Global};

/// The kind of a shape.
fn shape_kind(shape: &Shape) -> ShapeKind
    ensures { result ≡ kind_of (shape_view shape.now) }
{
    match shape {
        Shape::Raw(_) => ShapeKind::Unknown,
        Shape::Points(_) => ShapeKind::Points,
        Shape::Lines(_) => ShapeKind::Lines,
        Shape::Rings(_) => ShapeKind::Polygons,
    }
}

/// The integers of a geometry.
fn geometry_integers(alloc: Global, shape: &Shape) -> Result<Vec<u32>, AllocError>
    requires { CanSpell (shape_view shape.now) }
    ensures spelled { IfOk result (λ v. v.items ≡ shape_spelled (shape_view shape.now)) }
    ensures shape { IfOk result (λ v. IsShape (kind_of (shape_view shape.now)) v.items (shape_view shape.now)) }
{
    match shape {
        Shape::Points(points) => encode_points(alloc, points),
        Shape::Lines(lines) => encode_lines(alloc, lines),
        Shape::Rings(rings) => encode_rings(alloc, rings),
        Shape::Raw(_) => unreachable!(),
    }
}

/// Replaces `packed` with the packed integers of a geometry.
fn pack_geometry(alloc: Global, packed: &mut Vec<u8>, shape: &Shape) -> Result<(), AllocError>
    requires { CanSpell (shape_view shape.now) }
    ensures packed { OnOk result (packed.new.items ≡ flat_map varint (shape_spelled (shape_view shape.now))) }
    ensures shape { OnOk result (IsShape (kind_of (shape_view shape.now)) (shape_spelled (shape_view shape.now)) (shape_view shape.now)) }
{
    let integers = geometry_integers(alloc, shape)?;
    pack_numbers(packed, &integers)
}

/// Adds the tags of the feature that comes next.
fn put_tags(writer: &mut LayerWriter, tags: &[(&str, TagValue<'_>)]) -> Result<(), AllocError>
    requires { All (λ t. CanWriteValue t.1) (tagged tags.now) }
    ensures writes { OnOk result ((name : List ℕ) (fs : List FeatureView)
        → Writes writer.old name fs [] → Writes writer.new name fs (tagged tags.now)) }
    ensures fits { OnOk result (All FitsTag (tagged tags.now)) }
{
    for &(key, value) in tags {
        writer.put_tag(key, value)?;
    }
    Ok(())
}

/// Adds a feature. `packed` is overwritten.
fn put_feature(
    alloc: Global,
    packed: &mut Vec<u8>,
    writer: &mut LayerWriter,
    feature: &TileFeature<'_>,
) -> Result<(), AllocError>
    requires { CanWriteFeature (feature_view feature.now) }
    ensures writes { OnOk result ((name : List ℕ) (fs : List FeatureView)
        → Writes writer.old name fs [] → Writes writer.new name (fs ++ feature_view feature.now ∷ []) []) }
    ensures fits { OnOk result (FitsFeature (feature_view feature.now)) }
{
    put_tags(writer, &feature.tags)?;
    pack_geometry(alloc, packed, &feature.shape)?;
    writer.put_feature(feature.id, shape_kind(&feature.shape), packed)
}

/// Adds features.
fn put_features(
    alloc: Global,
    writer: &mut LayerWriter,
    features: &[TileFeature<'_>],
) -> Result<(), AllocError>
    requires { All CanWriteFeature (map feature_view features.now) }
    ensures writes { OnOk result ((name : List ℕ)
        → Writes writer.old name [] [] → Writes writer.new name (map feature_view features.now) []) }
    ensures fits { OnOk result (All FitsFeature (map feature_view features.now)) }
{
    let mut packed = Vec::new(alloc);
    for feature in features {
        put_feature(alloc, &mut packed, writer, feature)?;
    }
    Ok(())
}

/// Appends a layer as a field of a tile.
pub(crate) fn put_layer(
    alloc: Global,
    out: &mut Vec<u8>,
    layer: &Layer<'_>,
) -> Result<(), AllocError>
    requires { CanWriteLayer (layer_view layer.now) }
    ensures written { OnOk result (out.new.items ≡ out.old.items ++ bytes_field TILE_LAYERS (layer_written (layer_view layer.now))) }
    ensures fits { OnOk result (FitsLayer (layer_view layer.now)) }
{
    let mut writer = LayerWriter::new(alloc, layer.name)?;
    put_features(alloc, &mut writer, &layer.features)?;
    writer.finish(out)
}
