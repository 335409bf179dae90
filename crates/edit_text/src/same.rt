//! Whether a view shows a feature. Nothing here allocates.

ghost use Rattle.std.specs.Prelude.{◌≡◌, ◌↔◌, IsTrue, map};
ghost use Rattle.feature_model.specs.Data.{feature_data, geometry_data, value_data, tag_data};
ghost use Rattle.edit_text.specs.Same.{IsAfter};
ghost use Rattle.edit_text.specs.Views.{points_view, lines_view, polygons_view, geometry_view, value_view, tag_view, tags_view, feature_view};

use crate::feature::FeatureText;
use crate::lists::{GeometryText, Lines, Points, Polygons};
use crate::tags::{TagText, Tags, ValueText};
use feature_model::{EditValue, Feature, Geometry, Tag, World};

/// The points after the first, where that is this one.
fn after_point(point: World, owned: &[World]) -> Option<&[World]>
    ensures { IsAfter (λ rest. rest.now) point owned.now result }
{
    match owned {
        [first, rest @ ..] => (*first == point).then_some(rest),
        [] => None,
    }
}

/// Whether these are the points.
fn are_points(points: Points<'_>, owned: &[World]) -> bool
    ensures { IsTrue result ↔ (points_view points.entry ≡ owned.now) }
{
    let mut left = owned;
    for point in points {
        match after_point(point, left) {
            Some(rest) => left = rest,
            None => return false,
        }
    }
    left.is_empty()
}

/// The lines after the first, where that is this one.
fn after_line<'a>(line: Points<'_>, owned: &'a [Vec<World>]) -> Option<&'a [Vec<World>]>
    ensures { IsAfter (λ rest. map (λ l. l.items) rest.now) (points_view line.entry) (map (λ l. l.items) owned.entry.now) result }
{
    match owned {
        [first, rest @ ..] => are_points(line, first).then_some(rest),
        [] => None,
    }
}

/// Whether these are the lines.
fn are_lines(lines: Lines<'_>, owned: &[Vec<World>]) -> bool
    ensures { IsTrue result ↔ (lines_view lines.entry ≡ map (λ l. l.items) owned.now) }
{
    let mut left = owned;
    for line in lines {
        match after_line(line, left) {
            Some(rest) => left = rest,
            None => return false,
        }
    }
    left.is_empty()
}

/// The polygons after the first, where that is this one.
fn after_polygon<'a>(
    rings: Lines<'_>,
    owned: &'a [Vec<Vec<World>>],
) -> Option<&'a [Vec<Vec<World>>]>
    ensures { IsAfter (λ rest. map (λ p. map (λ r. r.items) p.items) rest.now) (lines_view rings.entry)
        (map (λ p. map (λ r. r.items) p.items) owned.entry.now) result }
{
    match owned {
        [first, rest @ ..] => are_lines(rings, first).then_some(rest),
        [] => None,
    }
}

/// Whether these are the polygons.
fn are_polygons(polygons: Polygons<'_>, owned: &[Vec<Vec<World>>]) -> bool
    ensures { IsTrue result ↔ (polygons_view polygons.entry ≡ map (λ p. map (λ r. r.items) p.items) owned.now) }
{
    let mut left = owned;
    for rings in polygons {
        match after_polygon(rings, left) {
            Some(rest) => left = rest,
            None => return false,
        }
    }
    left.is_empty()
}

/// Whether this is the geometry.
fn is_geometry(geometry: GeometryText<'_>, owned: &Geometry) -> bool
    ensures { IsTrue result ↔ (geometry_view geometry.entry ≡ geometry_data owned.now) }
{
    match geometry {
        GeometryText::Points(points) => match owned {
            Geometry::Points(other) => are_points(points, other),
            _ => false,
        },
        GeometryText::Lines(lines) => match owned {
            Geometry::Lines(other) => are_lines(lines, other),
            _ => false,
        },
        GeometryText::Polygons(polygons) => match owned {
            Geometry::Polygons(other) => are_polygons(polygons, other),
            _ => false,
        },
    }
}

/// Whether two texts are equal.
fn is_text(text: &str, other: &str) -> bool
    ensures { IsTrue result ↔ (text.now ≡ other.now) }
{
    text == other
}

/// Whether this is the value.
fn is_value(value: ValueText<'_>, owned: &EditValue) -> bool
    ensures { IsTrue result ↔ (value_view value.entry ≡ value_data owned.now) }
{
    match value {
        ValueText::Text(text) => match owned {
            EditValue::Text(other) => is_text(text, other.as_str()),
            _ => false,
        },
        ValueText::Natural(number) => match owned {
            EditValue::Natural(other) => number == *other,
            _ => false,
        },
        ValueText::Negative(number) => match owned {
            EditValue::Negative(other) => number == *other,
            _ => false,
        },
        ValueText::Truth(truth) => match owned {
            EditValue::Truth(other) => truth == *other,
            _ => false,
        },
    }
}

/// Whether this is the tag.
fn is_tag(tag: TagText<'_>, owned: &Tag) -> bool
    ensures { IsTrue result ↔ (tag_view tag.entry ≡ tag_data owned.now) }
{
    is_text(tag.key, owned.key.as_str()) && is_value(tag.value, &owned.value)
}

/// The tags after the first, where that is this one.
fn after_tag<'a>(tag: TagText<'_>, owned: &'a [Tag]) -> Option<&'a [Tag]>
    ensures { IsAfter (λ rest. map tag_data rest.now) (tag_view tag.entry) (map tag_data owned.entry.now) result }
{
    match owned {
        [first, rest @ ..] => is_tag(tag, first).then_some(rest),
        [] => None,
    }
}

/// Whether these are the tags.
fn are_tags(tags: Tags<'_>, owned: &[Tag]) -> bool
    ensures { IsTrue result ↔ (tags_view tags.entry ≡ map tag_data owned.now) }
{
    let mut left = owned;
    for tag in tags {
        match after_tag(tag, left) {
            Some(rest) => left = rest,
            None => return false,
        }
    }
    left.is_empty()
}

/// Whether a view shows this feature: its layer, zooms, geometry in order, and tags. It allocates nothing.
pub fn is_feature(view: FeatureText<'_>, feature: &Feature) -> bool
    ensures { IsTrue result ↔ (feature_view view.entry ≡ feature_data feature.now) }
{
    if view.minzoom != feature.minzoom || view.maxzoom != feature.maxzoom {
        return false;
    }
    is_text(view.layer, feature.layer.as_str())
        && are_tags(view.tags, &feature.tags)
        && is_geometry(view.geometry, &feature.geometry)
}
