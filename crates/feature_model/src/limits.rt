//! The limits of a feature and its number, and those of an edit.

ghost use Rattle.std.specs.Prelude.{◌≡◌, ℕ, ◌+◌, ◌<◌, ◌≤◌, ◌↔◌, length, map, All, IsTrue, IsOk, IfErr, OnOk};
ghost use Rattle.std.specs.Ordering.{nat_cmp, is_lt};
ghost use Rattle.std.specs.Cmp.Lexicographic.{slice_cmp};
ghost use Rattle.std.specs.List.Sorted.{IsStrictlySortedBy};
ghost use Rattle.std.specs.String.{string_bytes};
ghost use Rattle.feature_model.specs.declared.limits.TheConstants.{MAX_TAGS};
ghost use Rattle.feature_model.specs.Data.{put, world_polygons, feature_data, geometry_data, value_data, tag_data, change_data, number_of};
ghost use Rattle.feature_model.specs.Limits.{IsName, AreZooms, IsCount, IsTagText, CountFits, RingsFit, GeometryFits};
ghost use Rattle.feature_model.specs.Limits.{TagsFit, ValueFits, ValuesFit, HasAscendingKeys, keys_of, IsAllowed, IsFirstFault};
ghost use Rattle.feature_model.specs.Limits.{ChangeFits, AreEnough, IsNew, AreDistinct, IsAllowedEdit, IsFirstOf, IsFirstWithin, IsFirstEditFault};

use crate::fault::EditFault;
use crate::feature::{Change, EditValue, Feature, Geometry, Tag, World};
use crate::lengths::{changes_len, put_text_len};

/// One above the greatest number of a feature.
pub const NUMBER_END: u64 = 1 << 63;
/// The greatest zoom of a feature, and of a tile of the map.
pub const MAX_ZOOM: u8 = 19;
/// The most bytes of a name of a layer or a key of a tag, below 256, since one byte counts them in a text.
pub const MAX_NAME_BYTES: usize = 64;
/// The most elements of a list of points, lines, rings or polygons, below 65,536, since two bytes count them in a text.
pub const MAX_ELEMENTS: usize = 65_535;
/// The least points of a line.
pub const MIN_LINE: usize = 2;
/// The least points of a ring.
pub const MIN_RING: usize = 3;
/// The most tags of a feature, below 256, since one byte counts them in a text.
pub const MAX_TAGS: usize = 64;
/// The most bytes of a tag's text, below 65,536, since two bytes count them in a text.
pub const MAX_TEXT_BYTES: usize = 1024;
/// The most bytes of the texts of an edit's changes together.
pub const MAX_EDIT_BYTES: u64 = 32_768;
/// The most changes of an edit, below 256, since one byte counts them in a text.
pub const MAX_CHANGES: usize = 64;

/// Whether a name of a layer or a key of a tag has 1 to `MAX_NAME_BYTES` bytes.
pub fn is_name(name: &str) -> bool
    ensures { IsTrue result ↔ IsName name.now }
{
    !name.is_empty() && name.len() <= MAX_NAME_BYTES
}

/// Whether a feature may have these zooms: the first is not above the last, and this is at most `MAX_ZOOM`.
pub fn zooms_fit(minzoom: u8, maxzoom: u8) -> bool
    ensures { IsTrue result ↔ AreZooms minzoom maxzoom }
{
    minzoom <= maxzoom && maxzoom <= MAX_ZOOM
}

/// Whether a list of `count` elements has at least `least`, and at most `MAX_ELEMENTS`.
pub fn count_fits(count: usize, least: usize) -> bool
    ensures { IsTrue result ↔ IsCount least count }
{
    least <= count && count <= MAX_ELEMENTS
}

/// Whether each line or ring has enough points, and not too many.
fn lines_fit(lines: &[Vec<World>], least: usize) -> bool
    ensures { IsTrue result ↔ All (CountFits least) (map (λ l. l.items) lines.now) }
{
    lines.iter().all(|line| count_fits(line.len(), least))
}

/// Whether a polygon has enough rings, and each ring enough points.
fn rings_fit(rings: &[Vec<World>]) -> bool
    ensures { IsTrue result ↔ RingsFit (map (λ r. r.items) rings.now) }
{
    count_fits(rings.len(), 1) && lines_fit(rings, MIN_RING)
}

/// Whether each polygon has enough rings and points.
fn each_polygon_fits(polygons: &[Vec<Vec<World>>]) -> bool
    ensures { IsTrue result ↔ All RingsFit (map (λ p. map (λ r. r.items) p.items) polygons.now) }
{
    polygons.iter().all(|rings| rings_fit(rings))
}

/// Whether there is a polygon, and each has enough rings and points.
fn polygons_fit(polygons: &[Vec<Vec<World>>]) -> bool
    ensures { IsTrue result
        ↔ GeometryFits (world_polygons (map (λ p. map (λ r. r.items) p.items) polygons.now)) }
{
    count_fits(polygons.len(), 1) && each_polygon_fits(polygons)
}

/// Whether each list of a geometry has enough elements, and not too many.
fn geometry_fits(geometry: &Geometry) -> bool
    ensures { IsTrue result ↔ GeometryFits (geometry_data geometry.now) }
{
    match geometry {
        Geometry::Points(points) => count_fits(points.len(), 1),
        Geometry::Lines(lines) => count_fits(lines.len(), 1) && lines_fit(lines, MIN_LINE),
        Geometry::Polygons(polygons) => polygons_fit(polygons),
    }
}

/// Whether each key is a name.
fn keys_are_names(tags: &[Tag]) -> bool
    ensures { IsTrue result ↔ All IsName (keys_of (map tag_data tags.now)) }
{
    tags.iter().all(|tag| is_name(tag.key.as_str()))
}

/// Whether the key of one tag comes before that of another, byte by byte.
fn is_before(tag: &Tag, other: &Tag) -> bool
    ensures { result ≡ is_lt (slice_cmp nat_cmp (string_bytes tag.now.key) (string_bytes other.now.key)) }
{
    tag.key.as_str() < other.key.as_str()
}

/// Whether each key comes before the next, byte by byte.
fn keys_ascend(tags: &[Tag]) -> bool
    ensures { IsTrue result ↔ HasAscendingKeys (map tag_data tags.now) }
{
    for i in 1..tags.len() {
        if !is_before(&tags[i - 1], &tags[i]) {
            return false;
        }
    }
    true
}

/// Whether a feature may have `count` tags: at most `MAX_TAGS`.
pub fn tag_count_fits(count: usize) -> bool
    ensures { IsTrue result ↔ (count ≤ MAX_TAGS) }
{
    count <= MAX_TAGS
}

/// Whether tags are few, and their keys are names and ascend.
fn tags_fit(tags: &[Tag]) -> bool
    ensures { IsTrue result ↔ TagsFit (map tag_data tags.now) }
{
    tag_count_fits(tags.len()) && keys_are_names(tags) && keys_ascend(tags)
}

/// Whether a text may be the value of a tag: of at most `MAX_TEXT_BYTES` bytes.
pub fn is_tag_text(text: &str) -> bool
    ensures { IsTrue result ↔ IsTagText text.now }
{
    text.len() <= MAX_TEXT_BYTES
}

/// Whether a text is short, and a number that is said to be negative is below 0.
fn value_fits(value: &EditValue) -> bool
    ensures { IsTrue result ↔ ValueFits (value_data value.now) }
{
    match value {
        EditValue::Text(text) => is_tag_text(text.as_str()),
        EditValue::Negative(number) => *number < 0,
        EditValue::Natural(_) | EditValue::Truth(_) => true,
    }
}

/// The same of the value of each tag.
fn values_fit(tags: &[Tag]) -> bool
    ensures { IsTrue result ↔ ValuesFit (map tag_data tags.now) }
{
    tags.iter().all(|tag| value_fits(&tag.value))
}

/// Tests the limits of a feature of this number, but for that of its text.
fn check_fields(id: u64, feature: &Feature) -> Result<(), EditFault>
    ensures ok { IsOk result ↔ ChangeFits (put id (feature_data feature.now)) }
    ensures first { IfErr result (IsFirstOf (put id (feature_data feature.now))) }
{
    if id >= NUMBER_END {
        return Err(EditFault::Number);
    }
    if !is_name(feature.layer.as_str()) {
        return Err(EditFault::Layer);
    }
    if !zooms_fit(feature.minzoom, feature.maxzoom) {
        return Err(EditFault::Zoom);
    }
    if !geometry_fits(&feature.geometry) {
        return Err(EditFault::Geometry);
    }
    if !tags_fit(&feature.tags) {
        return Err(EditFault::Tags);
    }
    if !values_fit(&feature.tags) {
        return Err(EditFault::Value);
    }
    Ok(())
}

/// Tests the limits of a feature of this number. The fault of the first that is broken is returned: `Number`, `Layer`, `Zoom`,
/// `Geometry`, `Tags`, `Value` or `Long`, in this order. Nothing else is an error, and nothing is allocated.
pub fn check(id: u64, feature: &Feature) -> Result<(), EditFault>
    ensures ok { IsOk result ↔ IsAllowed id (feature_data feature.now) }
    ensures first { IfErr result (IsFirstFault id (feature_data feature.now)) }
{
    match check_fields(id, feature) {
        Ok(()) => {}
        Err(fault) => return Err(fault),
    }
    if put_text_len(feature) > MAX_EDIT_BYTES {
        return Err(EditFault::Long);
    }
    Ok(())
}

impl Change {
    /// The number that it is of.
    pub fn number(&self) -> u64
        ensures { result ≡ number_of (change_data self.now) }
    {
        match self {
            Change::Put { id, .. } | Change::Delete { id } => *id,
        }
    }
}

/// Whether an edit may have `count` changes: at least one, and at most `MAX_CHANGES`.
pub fn change_count_fits(count: usize) -> bool
    ensures { IsTrue result ↔ AreEnough count }
{
    count >= 1 && count <= MAX_CHANGES
}

/// Whether none of the changes is of this number.
pub fn is_new(changes: &[Change], number: u64) -> bool
    ensures { IsTrue result ↔ IsNew (map change_data changes.now) number }
{
    changes.iter().all(|change| change.number() != number)
}

/// Whether no change is of the number of one before it.
fn are_distinct(changes: &[Change]) -> bool
    ensures { IsTrue result ↔ AreDistinct (map change_data changes.now) }
{
    for i in 0..changes.len() {
        if !is_new(&changes[..i], changes[i].number()) {
            return false;
        }
    }
    true
}

/// Tests the limits of a change, but for that of its text.
fn check_change(change: &Change) -> Result<(), EditFault>
    ensures ok { IsOk result ↔ ChangeFits (change_data change.now) }
    ensures first { IfErr result (IsFirstOf (change_data change.now)) }
{
    match change {
        Change::Put { id, feature } => check_fields(*id, feature),
        Change::Delete { id } if *id >= NUMBER_END => Err(EditFault::Number),
        Change::Delete { .. } => Ok(()),
    }
}

/// The same of each change, from the first to the last.
fn check_each(changes: &[Change]) -> Result<(), EditFault>
    ensures ok { OnOk result (All ChangeFits (map change_data changes.now)) }
    ensures first { IfErr result (IsFirstWithin (map change_data changes.now)) }
{
    for change in changes {
        match check_change(change) {
            Ok(()) => {}
            Err(fault) => return Err(fault),
        }
    }
    Ok(())
}

/// Tests the limits of an edit of these changes. The fault of the first that is broken is returned: `Batch`, `Twice`, that of the
/// first change that breaks one of its own from `Number` to `Value`, or `Long`, in this order. Nothing else is an error, and nothing
/// is allocated.
pub fn check_batch(changes: &[Change]) -> Result<(), EditFault>
    ensures ok { IsOk result ↔ IsAllowedEdit (map change_data changes.now) }
    ensures first { IfErr result (IsFirstEditFault (map change_data changes.now)) }
{
    if !change_count_fits(changes.len()) {
        return Err(EditFault::Batch);
    }
    if !are_distinct(changes) {
        return Err(EditFault::Twice);
    }
    match check_each(changes) {
        Ok(()) => {}
        Err(fault) => return Err(fault),
    }
    if changes_len(changes) > MAX_EDIT_BYTES {
        return Err(EditFault::Long);
    }
    Ok(())
}
