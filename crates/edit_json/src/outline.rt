//! The members of a feature's object.

ghost use Rattle.std.specs.Prelude.{◌≡◌, ◌≢◌, ℕ, ◌<◌, List, MatchOption};
ghost use Rattle.serde_json.specs.Data.{Data, Members, number, unsigned, string, object, member as with_member};
ghost use Rattle.serde_json.specs.View.{view, members_view};
ghost use Rattle.edit_json.specs.Faults.{IsOutline};
ghost use Rattle.edit_json.specs.Json.{ShapeData, shape_json, OutlineData};
ghost use Rattle.edit_json.specs.Outline.{shape_data, outline_data};

use serde_json::Value;
use serde_json::value::Map;
use std::collections::btree_map::Iter;

/// The list of a geometry, still in JSON.
#[derive(Clone, Copy)]
pub(crate) enum Shape<'v> {
    Points(&'v [Value]),
    Lines(&'v [Value]),
    Polygons(&'v [Value]),
}

/// The members of a feature's object, each of its kind. Its list and its tags are still JSON.
#[derive(Clone, Copy)]
pub(crate) struct Outline<'v> {
    pub layer: &'v str,
    pub minzoom: u8,
    pub maxzoom: u8,
    pub shape: Shape<'v>,
    pub tags: &'v Map<String, Value>,
}

/// The value of the next member, which must have this name.
pub(crate) fn next_named<'v>(members: &mut Iter<'v, String, Value>, name: &str) -> Option<&'v Value>
    ensures { MatchOption result
        ((d : Data) (ms : Members) → members_view members.old ≢ with_member name.now d ms)
        (λ v. members_view members.old ≡ with_member name.now (view v.now) (members_view members.new)) }
{
    let (key, value) = members.next()?;
    if key.as_str() == name {
        Some(value)
    } else {
        None
    }
}

/// The number that is the next member, which must have this name.
pub(crate) fn next_number(members: &mut Iter<'_, String, Value>, name: &str) -> Option<u64>
    ensures { MatchOption result
        ((n : ℕ) (ms : Members) → members_view members.old ≢ with_member name.now (number (unsigned n)) ms)
        (λ n. members_view members.old ≡ with_member name.now (number (unsigned n)) (members_view members.new)) }
{
    next_named(members, name)?.as_u64()
}

/// The text that is the next member, which must have this name.
fn next_text<'v>(members: &mut Iter<'v, String, Value>, name: &str) -> Option<&'v str>
    ensures { MatchOption result
        ((t : List ℕ) (ms : Members) → members_view members.old ≢ with_member name.now (string t) ms)
        (λ t. members_view members.old ≡ with_member name.now (string t.now) (members_view members.new)) }
{
    next_named(members, name)?.as_str()
}

/// The object that is the next member, which must have this name.
fn next_object<'v>(
    members: &mut Iter<'v, String, Value>,
    name: &str,
) -> Option<&'v Map<String, Value>>
    ensures { MatchOption result
        ((inner ms : Members) → members_view members.old ≢ with_member name.now (object inner) ms)
        (λ inner. members_view members.old ≡ with_member name.now (object (members_view inner.now.entries)) (members_view members.new)) }
{
    next_named(members, name)?.as_object()
}

/// A whole number of 0 to 255.
fn read_zoom(value: &Value) -> Option<u8>
    ensures { MatchOption result
        ((n : ℕ) → n < 256 → view value.now ≢ number (unsigned n))
        (λ n. view value.now ≡ number (unsigned n)) }
{
    u8::try_from(value.as_u64()?).ok()
}

/// The whole number of 0 to 255 that is the next member, which must have this name.
fn next_zoom(members: &mut Iter<'_, String, Value>, name: &str) -> Option<u8>
    ensures { MatchOption result
        ((n : ℕ) (ms : Members) → n < 256 → members_view members.old ≢ with_member name.now (number (unsigned n)) ms)
        (λ n. members_view members.old ≡ with_member name.now (number (unsigned n)) (members_view members.new)) }
{
    read_zoom(next_named(members, name)?)
}

/// The one list of a geometry's object.
#[tactic(auto, unfolding(crate::specs::Json::name_bytes))]
fn read_shape(value: &Value) -> Option<Shape<'_>>
    ensures { MatchOption result
        ((s : ShapeData) → view value.now ≢ shape_json s)
        (λ s. view value.now ≡ shape_json (shape_data s)) }
{
    let mut kinds = value.as_object()?.iter();
    let (kind, value) = kinds.next()?;
    let list = value.as_array()?;
    if kinds.next().is_some() {
        return None;
    }
    match kind.as_str() {
        "points" => Some(Shape::Points(list)),
        "lines" => Some(Shape::Lines(list)),
        "polygons" => Some(Shape::Polygons(list)),
        _ => None,
    }
}

/// The geometry that is the next member, which must have this name.
fn next_shape<'v>(members: &mut Iter<'v, String, Value>, name: &str) -> Option<Shape<'v>>
    ensures { MatchOption result
        ((s : ShapeData) (ms : Members) → members_view members.old ≢ with_member name.now (shape_json s) ms)
        (λ s. members_view members.old ≡ with_member name.now (shape_json (shape_data s)) (members_view members.new)) }
{
    read_shape(next_named(members, name)?)
}

/// The five members, in the order in which an object has them, and no other.
#[tactic(auto, unfolding(crate::specs::Json::name_bytes))]
fn only_members<'v>(members: &mut Iter<'v, String, Value>) -> Option<Outline<'v>>
    ensures { MatchOption result
        ((o : OutlineData) → ¬ IsOutline (object (members_view members.old)) o)
        (λ o. IsOutline (object (members_view members.old)) (outline_data o)) }
{
    let shape = next_shape(members, "geometry")?;
    let layer = next_text(members, "layer")?;
    let maxzoom = next_zoom(members, "maxzoom")?;
    let minzoom = next_zoom(members, "minzoom")?;
    let tags = next_object(members, "tags")?;
    if members.next().is_some() {
        return None;
    }
    Some(Outline {
        layer,
        minzoom,
        maxzoom,
        shape,
        tags,
    })
}

/// The members of a feature's object.
pub(crate) fn read_outline(value: &Value) -> Option<Outline<'_>>
    ensures { MatchOption result
        ((o : OutlineData) → ¬ IsOutline (view value.now) o)
        (λ o. IsOutline (view value.now) (outline_data o)) }
{
    let mut members = value.as_object()?.iter();
    only_members(&mut members)
}
