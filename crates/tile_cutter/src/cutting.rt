//! What a tile shows of a feature.

ghost use Rattle.std.specs.Prelude.{◌≡◌, ◌≤◌, ◌↔◌, None, IfOk, IfSome};
ghost use Rattle.feature_model.specs.Limits.{GeometryFits};
ghost use Rattle.edit_text.specs.Views.{geometry_view, value_view, feature_view};
ghost use Rattle.mvt_layer.specs.Tile as mvt;
ghost use Rattle.tile_cutter.specs.Cut.{shown_value, geometry_cut, has_zoom, feature_cut};
ghost use Rattle.tile_cutter.specs.Put.{IsClear, HasPut, Shows};

use crate::lines::put_lines;
use crate::points::put_points;
use crate::rings::put_rings;
use edit_text::{FeatureText, GeometryText, ValueText};
use feature_model::MAX_ZOOM;
use geometry_commands::{PackedShape, Pt, ShapeKind};
use hilbert_id::TileAt;
use mvt_layer::TagValue;
use std::alloc::AllocError;

/// The value of a tag as a tile has it.
pub fn shown_value(value: ValueText<'_>) -> TagValue<'_>
    ensures { mvt.tag_view result ≡ shown_value (value_view value.entry) }
{
    match value {
        ValueText::Text(text) => TagValue::Text(text),
        ValueText::Natural(number) => TagValue::Natural(number),
        ValueText::Negative(number) => TagValue::Negative(number),
        ValueText::Truth(truth) => TagValue::Truth(truth),
    }
}

/// Whether a feature is shown at a zoom.
fn has_zoom(feature: FeatureText<'_>, zoom: u8) -> bool
    ensures { result ≡ has_zoom (feature_view feature.entry) zoom }
{
    feature.minzoom <= zoom && zoom <= feature.maxzoom
}

/// Writes what of a geometry a tile shows. `scratch` is overwritten.
#[tactic(auto, unfolding(crate::specs::Cut::geometry_cut))]
fn put_geometry(
    out: &mut PackedShape,
    scratch: &mut Vec<Pt>,
    geometry: GeometryText<'_>,
    at: TileAt,
) -> Result<Option<ShapeKind>, AllocError>
    requires zoom { at.z ≤ MAX_ZOOM }
    requires limits { GeometryFits (geometry_view geometry) }
    requires clear { IsClear out.old }
    ensures { IfOk result (λ o. HasPut out.new o (geometry_cut at.z at.x at.y (geometry_view geometry.entry))) }
{
    match geometry {
        GeometryText::Points(points) => put_points(out, points, at),
        GeometryText::Lines(lines) => put_lines(out, scratch, lines, at),
        GeometryText::Polygons(polygons) => put_rings(out, scratch, polygons, at),
    }
}

/// Writes into `out`, which is cleared first, what of a feature's geometry a tile shows, and returns its kind; `None`
/// where nothing is left of it, or where it isn't shown at the tile's zoom. `scratch` is overwritten.
///
/// Points are shown if they are in the tile's box, which reaches `MARGIN` beyond each edge; lines as the longest chains
/// of segments that meet the box, not clipped; polygons whole where their outer ring meets it, outer rings with
/// positive and inner rings with negative area (Mapbox Vector Tile 2.1, 4.3.4.4). The only error is out of memory.
pub fn put_cut(
    out: &mut PackedShape,
    scratch: &mut Vec<Pt>,
    feature: FeatureText<'_>,
    at: TileAt,
) -> Result<Option<ShapeKind>, AllocError>
    requires zoom { at.z ≤ MAX_ZOOM }
    requires limits { GeometryFits (geometry_view feature.geometry) }
    ensures none { IfOk result (λ o. (o ≡ None) ↔ (feature_cut (feature_view feature.entry) at.z at.x at.y ≡ None)) }
    // What is shown is packed, and can be written.
    ensures shape { IfOk result (λ o. IfSome o (λ kind. Shows (feature_view feature.entry) at.z at.x at.y out.new kind)) }
{
    out.clear();
    if !has_zoom(feature, at.z) {
        return Ok(None);
    }
    let kind = put_geometry(out, scratch, feature.geometry, at)?;
    Ok(kind)
}
