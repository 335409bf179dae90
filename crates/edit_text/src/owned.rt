//! Features and changes that own what a view or a text shows.

ghost use Rattle.std.specs.Prelude.{◌≡◌, ℕ, map, IfOk, MatchResult};
ghost use Rattle.std.specs.String.{string_bytes};
ghost use Rattle.feature_model.specs.Data.{feature_data, geometry_data, value_data, tag_data, change_data};
ghost use Rattle.feature_model.specs.Types.{ChangeFitsTypes};
ghost use Rattle.edit_text.specs.Decoding.{BeginsAsPut};
ghost use Rattle.edit_text.specs.Trusted.{change_in};
ghost use Rattle.edit_text.specs.Views.{points_view, lines_view, polygons_view, geometry_view, value_view, tag_view, tags_view, feature_view};

use crate::feature::FeatureText;
use crate::lists::{GeometryText, Lines, Points, Polygons};
use crate::tags::{TagText, Tags, ValueText};
use crate::trusted_numbers::{byte_in, number_in};
use feature_model::{Change, EditValue, Feature, Geometry, PUT_KIND, Tag, World};
use std::alloc::{AllocError, Global};

/// The points of a view. As for all that own here, the only error is out of memory.
fn own_points(alloc: Global, points: Points<'_>) -> Result<Vec<World>, AllocError>
    ensures { IfOk result (λ v. v.items ≡ points_view points.entry) }
{
    let mut owned = Vec::with_capacity(alloc, points.len())?;
    for point in points {
        owned.push_reserved(point);
    }
    Ok(owned)
}

/// The lines of a view.
fn own_lines(alloc: Global, lines: Lines<'_>) -> Result<Vec<Vec<World>>, AllocError>
    ensures { IfOk result (λ v. map (λ l. l.items) v.items ≡ lines_view lines.entry) }
{
    let mut owned = Vec::with_capacity(alloc, lines.len())?;
    for line in lines {
        let points = own_points(alloc, line)?;
        owned.push_reserved(points);
    }
    Ok(owned)
}

/// The polygons of a view: the rings of each, and their points.
fn own_polygons(alloc: Global, polygons: Polygons<'_>) -> Result<Vec<Vec<Vec<World>>>, AllocError>
    ensures { IfOk result (λ v. map (λ p. map (λ r. r.items) p.items) v.items ≡ polygons_view polygons.entry) }
{
    let mut owned = Vec::with_capacity(alloc, polygons.len())?;
    for rings in polygons {
        let lines = own_lines(alloc, rings)?;
        owned.push_reserved(lines);
    }
    Ok(owned)
}

/// The geometry of a view.
fn own_geometry(alloc: Global, geometry: GeometryText<'_>) -> Result<Geometry, AllocError>
    ensures { IfOk result (λ g. geometry_data g ≡ geometry_view geometry.entry) }
{
    match geometry {
        GeometryText::Points(points) => Ok(Geometry::Points(own_points(alloc, points)?)),
        GeometryText::Lines(lines) => Ok(Geometry::Lines(own_lines(alloc, lines)?)),
        GeometryText::Polygons(polygons) => Ok(Geometry::Polygons(own_polygons(alloc, polygons)?)),
    }
}

/// A copy of a text.
fn own_text(alloc: Global, text: &str) -> Result<String, AllocError>
    ensures { IfOk result (λ t. string_bytes t ≡ text.now) }
{
    String::from_str(alloc, text)
}

/// The value of a view.
fn own_value(alloc: Global, value: ValueText<'_>) -> Result<EditValue, AllocError>
    ensures { IfOk result (λ v. value_data v ≡ value_view value.entry) }
{
    Ok(match value {
        ValueText::Text(text) => EditValue::Text(own_text(alloc, text)?),
        ValueText::Natural(number) => EditValue::Natural(number),
        ValueText::Negative(number) => EditValue::Negative(number),
        ValueText::Truth(truth) => EditValue::Truth(truth),
    })
}

/// The tag of a view.
fn own_tag(alloc: Global, tag: TagText<'_>) -> Result<Tag, AllocError>
    ensures { IfOk result (λ t. tag_data t ≡ tag_view tag.entry) }
{
    let key = own_text(alloc, tag.key)?;
    let value = own_value(alloc, tag.value)?;
    Ok(Tag { key, value })
}

/// The tags of a view, in their order.
fn own_tags(alloc: Global, tags: Tags<'_>) -> Result<Vec<Tag>, AllocError>
    ensures { IfOk result (λ v. map tag_data v.items ≡ tags_view tags.entry) }
{
    let mut owned = Vec::with_capacity(alloc, tags.len())?;
    for tag in tags {
        let one = own_tag(alloc, tag)?;
        owned.push_reserved(one);
    }
    Ok(owned)
}

/// The feature that a view shows. The only error is out of memory.
pub fn to_feature(alloc: Global, feature: FeatureText<'_>) -> Result<Feature, AllocError>
    ensures { IfOk result (λ f. feature_data f ≡ feature_view feature.entry) }
{
    let layer = own_text(alloc, feature.layer)?;
    let geometry = own_geometry(alloc, feature.geometry)?;
    let tags = own_tags(alloc, feature.tags)?;
    Ok(Feature {
        layer,
        minzoom: feature.minzoom,
        maxzoom: feature.maxzoom,
        geometry,
        tags,
    })
}

/// The change at the start of bytes that begin with its text. Only a Put allocates.
#[tactic(auto, unfolding(crate::specs::Trusted::change_in))]
pub(crate) fn to_change(alloc: Global, bytes: &[u8]) -> Result<Change, AllocError>
    requires { ChangeFitsTypes (change_in bytes.now).0 }
    ensures { MatchResult result (λ c. change_data c ≡ (change_in bytes.now).0) (λ _. BeginsAsPut bytes.now) }
{
    let (kind, rest) = byte_in(bytes);
    let (id, rest) = number_in(rest);
    if kind != PUT_KIND {
        return Ok(Change::Delete { id });
    }
    let feature = to_feature(alloc, FeatureText::front(rest))?;
    Ok(Change::Put { id, feature })
}
