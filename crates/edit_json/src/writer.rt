//! A feature's JSON value.

ghost use Rattle.std.specs.Prelude.{◌≡◌, IfOk, OnOk};
ghost use Rattle.serde_json.specs.Data.{Data, object, member, no_members, put as with_member};
ghost use Rattle.serde_json.specs.View.{view, members_view};
ghost use Rattle.feature_model.specs.Limits.{HasAscendingKeys, TagsFit, ValueFits, ValuesFit};
ghost use Rattle.edit_text.specs.Views.{points_view, lines_view, polygons_view, geometry_view, value_view, tags_view, feature_view};
ghost use Rattle.edit_json.specs.Json.{point_json, points_json, lines_json, polygons_json, shape_of, shape_json, value_json, tags_json, json_of};

use edit_text::{FeatureText, GeometryText, Lines, Points, Polygons, Tags, ValueText};
use feature_model::World;
use serde_json::value::Map;
use serde_json::{Value, put};
use std::alloc::{AllocError, Global};

/// A point as `[x,y]`.
fn point_value(alloc: Global, point: World) -> Result<Value, AllocError>
    ensures { IfOk result (λ v. view v ≡ point_json point) }
{
    let mut pair = Vec::with_capacity(alloc, 2)?;
    pair.push_reserved(Value::from(point.x));
    pair.push_reserved(Value::from(point.y));
    Ok(Value::Array(pair))
}

/// A list of points.
fn points_value(alloc: Global, points: Points<'_>) -> Result<Value, AllocError>
    ensures { IfOk result (λ v. view v ≡ points_json (points_view points.entry)) }
{
    let mut list = Vec::with_capacity(alloc, points.len())?;
    for point in points {
        let value = point_value(alloc, point)?;
        list.push_reserved(value);
    }
    Ok(Value::Array(list))
}

/// A list of lines or rings.
fn lines_value(alloc: Global, lines: Lines<'_>) -> Result<Value, AllocError>
    ensures { IfOk result (λ v. view v ≡ lines_json (lines_view lines.entry)) }
{
    let mut list = Vec::with_capacity(alloc, lines.len())?;
    for line in lines {
        let value = points_value(alloc, line)?;
        list.push_reserved(value);
    }
    Ok(Value::Array(list))
}

/// A list of polygons.
fn polygons_value(alloc: Global, polygons: Polygons<'_>) -> Result<Value, AllocError>
    ensures { IfOk result (λ v. view v ≡ polygons_json (polygons_view polygons.entry)) }
{
    let mut list = Vec::with_capacity(alloc, polygons.len())?;
    for rings in polygons {
        let value = lines_value(alloc, rings)?;
        list.push_reserved(value);
    }
    Ok(Value::Array(list))
}

/// Puts a member into an object, if its value could be made.
fn put_made(
    members: &mut Map<String, Value>,
    alloc: Global,
    name: &str,
    made: Result<Value, AllocError>,
) -> Result<(), AllocError>
    ensures { OnOk result ((d : Data) → IfOk made (λ v. view v ≡ d)
        → members_view members.new.entries ≡ with_member name.now d (members_view members.old.entries)) }
{
    let value = made?;
    put(members, alloc, name, value)
}

/// An object with one member, if its value could be made.
pub(crate) fn object_of(
    alloc: Global,
    name: &str,
    made: Result<Value, AllocError>,
) -> Result<Value, AllocError>
    ensures { IfOk result (λ v. (d : Data) → IfOk made (λ m. view m ≡ d) → view v ≡ object (member name.now d no_members)) }
{
    let mut members = Map::new(alloc);
    put_made(&mut members, alloc, name, made)?;
    Ok(Value::Object(members))
}

/// The list of a geometry under the name of its kind.
#[tactic(auto, unfolding(crate::specs::Json::name_bytes))]
fn geometry_value(alloc: Global, geometry: GeometryText<'_>) -> Result<Value, AllocError>
    ensures { IfOk result (λ v. view v ≡ shape_json (shape_of (geometry_view geometry.entry))) }
{
    match geometry {
        GeometryText::Points(points) => object_of(alloc, "points", points_value(alloc, points)),
        GeometryText::Lines(lines) => object_of(alloc, "lines", lines_value(alloc, lines)),
        GeometryText::Polygons(polygons) => {
            object_of(alloc, "polygons", polygons_value(alloc, polygons))
        },
    }
}

/// The value of a tag.
fn tag_value(alloc: Global, value: ValueText<'_>) -> Result<Value, AllocError>
    requires { ValueFits (value_view value) }
    ensures { IfOk result (λ v. view v ≡ value_json (value_view value.entry)) }
{
    match value {
        ValueText::Text(text) => Value::try_from_str(alloc, text),
        ValueText::Natural(number) => Ok(Value::from(number)),
        ValueText::Negative(number) => Ok(Value::from(number)),
        ValueText::Truth(truth) => Ok(Value::from(truth)),
    }
}

/// A member for each tag.
fn tags_value(alloc: Global, tags: Tags<'_>) -> Result<Value, AllocError>
    requires ascending { HasAscendingKeys (tags_view tags) }
    requires values { ValuesFit (tags_view tags) }
    ensures { IfOk result (λ v. view v ≡ object (tags_json (tags_view tags.entry))) }
{
    let mut members = Map::new(alloc);
    for tag in tags {
        put_made(&mut members, alloc, tag.key, tag_value(alloc, tag.value))?;
    }
    Ok(Value::Object(members))
}

/// Puts the members of a feature into an empty object.
#[tactic(auto, unfolding(crate::specs::Json::name_bytes))]
fn put_members(
    members: &mut Map<String, Value>,
    alloc: Global,
    feature: FeatureText<'_>,
) -> Result<(), AllocError>
    requires empty { members_view members.old.entries ≡ no_members }
    requires tags { TagsFit (feature_view feature).tags }
    requires values { ValuesFit (feature_view feature).tags }
    ensures { OnOk result (object (members_view members.new.entries) ≡ json_of (feature_view feature.entry)) }
{
    put_made(
        members,
        alloc,
        "geometry",
        geometry_value(alloc, feature.geometry),
    )?;
    put_made(
        members,
        alloc,
        "layer",
        Value::try_from_str(alloc, feature.layer),
    )?;
    put(members, alloc, "maxzoom", Value::from(feature.maxzoom))?;
    put(members, alloc, "minzoom", Value::from(feature.minzoom))?;
    put_made(members, alloc, "tags", tags_value(alloc, feature.tags))
}

/// The one JSON value of a feature.
pub fn feature_to_json(alloc: Global, feature: FeatureText<'_>) -> Result<Value, AllocError>
    requires tags { TagsFit (feature_view feature).tags }
    requires values { ValuesFit (feature_view feature).tags }
    ensures { IfOk result (λ v. view v ≡ json_of (feature_view feature.entry)) }
{
    let mut members = Map::new(alloc);
    put_members(&mut members, alloc, feature)?;
    Ok(Value::Object(members))
}
