//! The lengths of texts, without building them.

ghost use Rattle.std.specs.Prelude.{◌≡◌, ℕ, ◌+◌, ◌*◌, ◌<◌, ◌≤◌, length, map, All};
ghost use Rattle.feature_model.specs.declared.limits.TheConstants.{MAX_ELEMENTS, MAX_CHANGES};
ghost use Rattle.feature_model.specs.Lengths.{line_most, lines_most, polygons_most, value_most, tag_most, tags_most, change_most};
ghost use Rattle.feature_model.specs.Data.{feature_data, geometry_data, value_data, tag_data, put, change_data};
ghost use Rattle.feature_model.specs.Limits.{LayerFits, GeometryFits, TagsFit, ValueFits, ValuesFit, IsName, ChangeFits};
ghost use Rattle.feature_model.specs.Spelled.{spelled_list, spelled_line, spelled_geometry, spelled_value, spelled_tag, spelled_tags};
ghost use Rattle.feature_model.specs.Spelled.{spelled_change, spelled_changes};

use crate::feature::{Change, EditValue, Feature, Geometry, Tag, World};

/// How many bytes a list of points takes.
#[tactic(auto, using(crate::proofs::TextLengths::lines))]
fn line_len(points: &[World]) -> u64
    requires { length points.now ≤ MAX_ELEMENTS }
    ensures exact { result ≡ length (spelled_line points.now) }
    ensures small { result ≤ line_most }
{
    2 + 8 * points.len() as u64
}

/// How many bytes a list of lines, or the rings of a polygon, take.
#[tactic(auto, using(crate::proofs::TextLengths::lists))]
fn lines_len(lines: &[Vec<World>]) -> u64
    requires count { length lines.now ≤ MAX_ELEMENTS }
    requires points { All (λ l. length l.items ≤ MAX_ELEMENTS) lines.now }
    ensures exact { result ≡ length (spelled_list spelled_line (map (λ l. l.items) lines.now)) }
    ensures small { result ≤ lines_most }
{
    let mut len = 2;
    for line in lines {
        len += line_len(line);
    }
    len
}

/// How many bytes a list of polygons takes.
#[tactic(auto, using(crate::proofs::TextLengths::lists))]
fn polygons_len(polygons: &[Vec<Vec<World>>]) -> u64
    requires count { length polygons.now ≤ MAX_ELEMENTS }
    requires rings { All (λ p. length p.items ≤ MAX_ELEMENTS) polygons.now }
    requires points { All (λ p. All (λ r. length r.items ≤ MAX_ELEMENTS) p.items) polygons.now }
    ensures exact { result
        ≡ length (spelled_list (spelled_list spelled_line) (map (λ p. map (λ r. r.items) p.items) polygons.now)) }
    ensures small { result ≤ polygons_most }
{
    let mut len = 2;
    for rings in polygons {
        len += lines_len(rings);
    }
    len
}

/// How many bytes the kind and the lists of a geometry take.
#[tactic(auto, using(crate::proofs::TextLengths::geometries))]
fn geometry_len(geometry: &Geometry) -> u64
    requires { GeometryFits (geometry_data geometry.now) }
    ensures exact { result ≡ length (spelled_geometry (geometry_data geometry.now)) }
    ensures small { result ≤ 1 + polygons_most }
{
    match geometry {
        Geometry::Points(points) => 1 + line_len(points),
        Geometry::Lines(lines) => 1 + lines_len(lines),
        Geometry::Polygons(polygons) => 1 + polygons_len(polygons),
    }
}

/// How many bytes the kind and the bytes of a value take.
#[tactic(auto, using(crate::proofs::TextLengths::values))]
fn value_len(value: &EditValue) -> u64
    requires { ValueFits (value_data value.now) }
    ensures exact { result ≡ length (spelled_value (value_data value.now)) }
    ensures small { result ≤ value_most }
{
    match value {
        EditValue::Text(text) => 3 + text.len() as u64,
        EditValue::Natural(_) | EditValue::Negative(_) => 9,
        EditValue::Truth(_) => 1,
    }
}

/// How many bytes a key and its value take.
#[tactic(auto, using(crate::proofs::TextLengths::tags))]
fn tag_len(tag: &Tag) -> u64
    requires key { IsName (tag_data tag.now).key }
    requires value { ValueFits (tag_data tag.now).value }
    ensures exact { result ≡ length (spelled_tag (tag_data tag.now)) }
    ensures small { result ≤ tag_most }
{
    1 + tag.key.len() as u64 + value_len(&tag.value)
}

/// How many bytes the count of tags and the tags take.
#[tactic(auto, using(crate::proofs::TextLengths::tags))]
fn tags_len(tags: &[Tag]) -> u64
    requires keys { TagsFit (map tag_data tags.now) }
    requires values { ValuesFit (map tag_data tags.now) }
    ensures exact { result ≡ length (spelled_tags (map tag_data tags.now)) }
    ensures small { result ≤ tags_most }
{
    let mut len = 1;
    for tag in tags {
        len += tag_len(tag);
    }
    len
}

/// How many bytes the text takes that gives a number this feature.
#[tactic(auto, using(crate::proofs::TextLengths::features))]
pub fn put_text_len(feature: &Feature) -> u64
    requires layer { LayerFits (feature_data feature.now) }
    requires geometry { GeometryFits (geometry_data feature.now.geometry) }
    requires keys { TagsFit (map tag_data feature.now.tags.items) }
    requires values { ValuesFit (map tag_data feature.now.tags.items) }
    ensures exact { (id : ℕ) → result ≡ length (spelled_change (put id (feature_data feature.now))) }
    ensures small { result ≤ change_most }
{
    12 + feature.layer.len() as u64 + geometry_len(&feature.geometry) + tags_len(&feature.tags)
}

/// How many bytes the text of a change takes.
#[tactic(auto, using(crate::proofs::TextLengths::changes))]
pub fn change_text_len(change: &Change) -> u64
    requires { ChangeFits (change_data change.now) }
    ensures exact { result ≡ length (spelled_change (change_data change.now)) }
    ensures small { result ≤ change_most }
{
    match change {
        Change::Put { id: _, feature } => put_text_len(feature),
        Change::Delete { .. } => 9,
    }
}

/// How many bytes the texts of changes take together.
pub(crate) fn changes_len(changes: &[Change]) -> u64
    requires count { length changes.now ≤ MAX_CHANGES }
    requires each { All ChangeFits (map change_data changes.now) }
    ensures { result ≡ length (spelled_changes (map change_data changes.now)) }
{
    let mut len = 0;
    for change in changes {
        len += change_text_len(change);
    }
    len
}
