//! Changes and edits to texts.

ghost use Rattle.std.specs.Prelude.{◌≡◌, ℕ, ◌<◌, ◌≤◌, ◌^◌, [], ◌∷◌, ◌++◌, length, map, All, OnOk, IfOk};
ghost use Rattle.std.specs.Str.{IsUtf8};
ghost use Rattle.feature_model.specs.declared.limits.TheConstants.{MAX_ELEMENTS, MAX_TEXT_BYTES};
ghost use Rattle.feature_model.specs.Data.{put, delete, feature_data, geometry_data, value_data, tag_data, change_data, edit_data};
ghost use Rattle.feature_model.specs.Limits.{IsName, LayerFits, GeometryFits, TagsFit, ValueFits, ValuesFit};
ghost use Rattle.feature_model.specs.Limits.{IsAllowed, IsAllowedChange, IsAllowedEdit, NumberFits};
ghost use Rattle.feature_model.specs.Spelled.{two_bytes, eight_bytes, spelled_name, spelled_list, spelled_point, spelled_line};
ghost use Rattle.feature_model.specs.Spelled.{spelled_geometry, spelled_value, spelled_tag, spelled_tags, spelled_feature};
ghost use Rattle.feature_model.specs.Spelled.{spelled_change, spelled_changes, spelled};
ghost use Rattle.feature_model.specs.Types.{IsOfWorld, LiesInWorld, ValueFitsTypes, TagFitsTypes, FeatureFitsTypes, IsChange, IsEdit};

use feature_model::{
    Change, DELETE_KIND, Edit, EditValue, FALSE_KIND, Feature, Geometry, LINES_KIND, NATURAL_KIND,
    NEGATIVE_KIND, POINTS_KIND, POLYGONS_KIND, PUT_KIND, TEXT_KIND, TRUE_KIND, Tag, World,
    change_text_len, put_text_len,
};
use std::alloc::{AllocError, Global};

/// A count in two bytes.
#[tactic(auto, unfolding(feature_model::specs::Spelled::two_bytes))]
fn put_count(out: &mut Vec<u8>, count: usize) -> Result<(), AllocError>
    requires { count ≤ MAX_ELEMENTS }
    ensures { OnOk result (out.new.items ≡ out.old.items ++ two_bytes count) }
{
    out.extend_from_slice(&(count as u16).to_le_bytes())
}

/// The name of a layer or a key: its length in one byte, and its bytes.
#[tactic(auto, unfolding(feature_model::specs::Spelled::spelled_name))]
fn put_name(out: &mut Vec<u8>, name: &str) -> Result<(), AllocError>
    requires { IsName name.now }
    ensures text { OnOk result (out.new.items ≡ out.old.items ++ spelled_name name.now) }
    ensures types { IsUtf8 name.now }
{
    out.push(name.len() as u8)?;
    out.extend_from_slice(name.as_bytes())
}

/// A point: its column and its row, in four bytes each.
#[tactic(auto, unfolding(feature_model::specs::Spelled::spelled_point, feature_model::specs::Spelled::four_bytes))]
fn put_point(out: &mut Vec<u8>, point: &World) -> Result<(), AllocError>
    ensures text { OnOk result (out.new.items ≡ out.old.items ++ spelled_point point.now) }
    ensures types { OnOk result (IsOfWorld point.now) }
{
    out.extend_from_slice(&point.x.to_le_bytes())?;
    out.extend_from_slice(&point.y.to_le_bytes())
}

/// A list of points: their count, and each one.
fn put_line(out: &mut Vec<u8>, points: &[World]) -> Result<(), AllocError>
    requires { length points.now ≤ MAX_ELEMENTS }
    ensures text { OnOk result (out.new.items ≡ out.old.items ++ spelled_line points.now) }
    ensures types { OnOk result (All IsOfWorld points.now) }
{
    put_count(out, points.len())?;
    for point in points {
        put_point(out, point)?;
    }
    Ok(())
}

/// A list of lines, or the rings of a polygon.
fn put_lines(out: &mut Vec<u8>, lines: &[Vec<World>]) -> Result<(), AllocError>
    requires count { length lines.now ≤ MAX_ELEMENTS }
    requires points { All (λ l. length l.items ≤ MAX_ELEMENTS) lines.now }
    ensures text { OnOk result
        (out.new.items ≡ out.old.items ++ spelled_list spelled_line (map (λ l. l.items) lines.now)) }
    ensures types { OnOk result (All (All IsOfWorld) (map (λ l. l.items) lines.now)) }
{
    put_count(out, lines.len())?;
    for line in lines {
        put_line(out, line)?;
    }
    Ok(())
}

/// A list of polygons.
fn put_polygons(out: &mut Vec<u8>, polygons: &[Vec<Vec<World>>]) -> Result<(), AllocError>
    requires count { length polygons.now ≤ MAX_ELEMENTS }
    requires rings { All (λ p. length p.items ≤ MAX_ELEMENTS) polygons.now }
    requires points { All (λ p. All (λ r. length r.items ≤ MAX_ELEMENTS) p.items) polygons.now }
    ensures text { OnOk result (out.new.items ≡ out.old.items
        ++ spelled_list (spelled_list spelled_line) (map (λ p. map (λ r. r.items) p.items) polygons.now)) }
    ensures types { OnOk result
        (All (All (All IsOfWorld)) (map (λ p. map (λ r. r.items) p.items) polygons.now)) }
{
    put_count(out, polygons.len())?;
    for rings in polygons {
        put_lines(out, rings)?;
    }
    Ok(())
}

/// The kind and the lists of a geometry.
#[tactic(auto, using(crate::proofs::GeometryKinds::geometries))]
fn put_geometry(out: &mut Vec<u8>, geometry: &Geometry) -> Result<(), AllocError>
    requires { GeometryFits (geometry_data geometry.now) }
    ensures text { OnOk result
        (out.new.items ≡ out.old.items ++ spelled_geometry (geometry_data geometry.now)) }
    ensures types { OnOk result (LiesInWorld (geometry_data geometry.now)) }
{
    match geometry {
        Geometry::Points(points) => {
            out.push(POINTS_KIND)?;
            put_line(out, points)
        }
        Geometry::Lines(lines) => {
            out.push(LINES_KIND)?;
            put_lines(out, lines)
        }
        Geometry::Polygons(polygons) => {
            out.push(POLYGONS_KIND)?;
            put_polygons(out, polygons)
        }
    }
}

/// A number in eight bytes.
#[tactic(auto, unfolding(feature_model::specs::Spelled::eight_bytes))]
fn put_number(out: &mut Vec<u8>, number: u64) -> Result<(), AllocError>
    ensures { OnOk result (out.new.items ≡ out.old.items ++ eight_bytes number) }
{
    out.extend_from_slice(&number.to_le_bytes())
}

/// The text of a value: its length in two bytes, and its bytes.
fn put_text(out: &mut Vec<u8>, text: &str) -> Result<(), AllocError>
    requires { length text.now ≤ MAX_TEXT_BYTES }
    ensures text { OnOk result
        (out.new.items ≡ out.old.items ++ (two_bytes (length text.now) ++ text.now)) }
    ensures types { IsUtf8 text.now }
{
    put_count(out, text.len())?;
    out.extend_from_slice(text.as_bytes())
}

/// The kind and the bytes of a value.
#[tactic(auto, unfolding(feature_model::specs::Spelled::spelled_value))]
fn put_value(out: &mut Vec<u8>, value: &EditValue) -> Result<(), AllocError>
    requires { ValueFits (value_data value.now) }
    ensures text { OnOk result (out.new.items ≡ out.old.items ++ spelled_value (value_data value.now)) }
    ensures types { OnOk result (ValueFitsTypes (value_data value.now)) }
{
    match value {
        EditValue::Text(text) => {
            out.push(TEXT_KIND)?;
            put_text(out, text.as_str())
        }
        EditValue::Natural(number) => {
            out.push(NATURAL_KIND)?;
            put_number(out, *number)
        }
        EditValue::Negative(number) => {
            out.push(NEGATIVE_KIND)?;
            put_number(out, number.cast_unsigned())
        }
        EditValue::Truth(truth) => {
            out.push(if *truth { TRUE_KIND } else { FALSE_KIND })?;
            Ok(())
        }
    }
}

/// A key and its value.
#[tactic(auto, unfolding(feature_model::specs::Spelled::spelled_tag))]
fn put_tag(out: &mut Vec<u8>, tag: &Tag) -> Result<(), AllocError>
    requires key { IsName (tag_data tag.now).key }
    requires value { ValueFits (tag_data tag.now).value }
    ensures text { OnOk result (out.new.items ≡ out.old.items ++ spelled_tag (tag_data tag.now)) }
    ensures types { OnOk result (TagFitsTypes (tag_data tag.now)) }
{
    put_name(out, tag.key.as_str())?;
    put_value(out, &tag.value)
}

/// The count of tags, and each one.
fn put_tags(out: &mut Vec<u8>, tags: &[Tag]) -> Result<(), AllocError>
    requires keys { TagsFit (map tag_data tags.now) }
    requires values { ValuesFit (map tag_data tags.now) }
    ensures text { OnOk result (out.new.items ≡ out.old.items ++ spelled_tags (map tag_data tags.now)) }
    ensures types { OnOk result (All TagFitsTypes (map tag_data tags.now)) }
{
    out.push(tags.len() as u8)?;
    for tag in tags {
        put_tag(out, tag)?;
    }
    Ok(())
}

/// The layer, zooms, geometry and tags of a feature.
#[tactic(auto, using(crate::proofs::FeatureTexts::features))]
fn put_feature(out: &mut Vec<u8>, feature: &Feature) -> Result<(), AllocError>
    requires layer { LayerFits (feature_data feature.now) }
    requires geometry { GeometryFits (geometry_data feature.now.geometry) }
    requires keys { TagsFit (map tag_data feature.now.tags.items) }
    requires values { ValuesFit (map tag_data feature.now.tags.items) }
    ensures text { OnOk result (out.new.items ≡ out.old.items ++ spelled_feature (feature_data feature.now)) }
    ensures types { OnOk result (FeatureFitsTypes (feature_data feature.now)) }
{
    put_name(out, feature.layer.as_str())?;
    out.extend_from_slice(&[feature.minzoom, feature.maxzoom])?;
    put_geometry(out, &feature.geometry)?;
    put_tags(out, &feature.tags)
}

/// The text that takes the number's feature away: nine bytes. The number is below `NUMBER_END`.
#[tactic(auto, unfolding(feature_model::specs::Spelled::spelled_change, feature_model::specs::Spelled::eight_bytes))]
pub fn delete_text(id: u64) -> [u8; 9]
    requires { NumberFits id }
    ensures { result ≡ spelled_change (delete id) }
{
    let [a, b, c, d, e, f, g, h] = id.to_le_bytes();
    [DELETE_KIND, a, b, c, d, e, f, g, h]
}

/// The text of the edit that takes the number's feature away, and does no more: ten bytes. The number is below `NUMBER_END`.
#[tactic(auto, unfolding(feature_model::specs::Spelled::spelled))]
pub fn delete_edit_text(id: u64) -> [u8; 10]
    requires { NumberFits id }
    ensures { result ≡ spelled (delete id ∷ []) }
{
    let [a, b, c, d, e, f, g, h, i] = delete_text(id);
    [1, a, b, c, d, e, f, g, h, i]
}

/// Adds the text that gives a number this feature to the end of a vector.
#[tactic(auto, unfolding(feature_model::specs::Spelled::spelled_change))]
pub fn append_put(out: &mut Vec<u8>, id: u64, feature: &Feature) -> Result<(), AllocError>
    requires { IsAllowed id (feature_data feature.now) }
    ensures text { OnOk result (out.new.items ≡ out.old.items ++ spelled_change (put id (feature_data feature.now))) }
    ensures types { OnOk result (FeatureFitsTypes (feature_data feature.now)) }
{
    out.push(PUT_KIND)?;
    put_number(out, id)?;
    put_feature(out, feature)
}

/// Adds the text of a change to the end of a vector.
fn append_change(out: &mut Vec<u8>, change: &Change) -> Result<(), AllocError>
    requires { IsAllowedChange (change_data change.now) }
    ensures text { OnOk result (out.new.items ≡ out.old.items ++ spelled_change (change_data change.now)) }
    ensures change { OnOk result (IsChange (change_data change.now)) }
{
    match change {
        Change::Put { id, feature } => append_put(out, *id, feature),
        Change::Delete { id } => out.extend_from_slice(&delete_text(*id)),
    }
}

/// The text of a change that is within the limits.
pub fn encode_change(alloc: Global, change: &Change) -> Result<Vec<u8>, AllocError>
    requires { IsAllowedChange (change_data change.now) }
    ensures text { IfOk result (λ v. v.items ≡ spelled_change (change_data change.now)) }
    // It is the text of a change, so it can be decoded.
    ensures change { OnOk result (IsChange (change_data change.now)) }
{
    let mut out = Vec::with_capacity(alloc, change_text_len(change) as usize)?;
    append_change(&mut out, change)?;
    Ok(out)
}

/// Adds the texts of changes to the end of a vector.
fn append_changes(out: &mut Vec<u8>, changes: &[Change]) -> Result<(), AllocError>
    requires { All IsAllowedChange (map change_data changes.now) }
    ensures text { OnOk result (out.new.items ≡ out.old.items ++ spelled_changes (map change_data changes.now)) }
    ensures changes { OnOk result (All IsChange (map change_data changes.now)) }
{
    for change in changes {
        append_change(out, change)?;
    }
    Ok(())
}

/// The text of an edit that is within the limits.
#[tactic(auto, unfolding(feature_model::specs::Spelled::spelled))]
pub fn encode(alloc: Global, edit: &Edit) -> Result<Vec<u8>, AllocError>
    requires { IsAllowedEdit (edit_data edit.now) }
    ensures text { IfOk result (λ v. v.items ≡ spelled (edit_data edit.now)) }
    // It is the text of an edit, so it can be decoded.
    ensures edit { OnOk result (IsEdit (edit_data edit.now)) }
{
    let mut out = Vec::new(alloc);
    out.push(edit.changes.len() as u8)?;
    append_changes(&mut out, &edit.changes)?;
    Ok(out)
}
