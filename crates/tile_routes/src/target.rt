//! What a path can ask for.
ghost use Rattle.std.specs.Prelude.{◌≡◌, IsTrue};
ghost use Rattle.std.specs.Option.{option_map};
ghost use Rattle.tile_routes.specs.Boxes.{box_of};
ghost use Rattle.tile_routes.specs.Number.{number_of};
ghost use Rattle.tile_routes.specs.Paths.{asked_tile, is_served, feature_asked, from_asked, page_asked, edits_asked, numbered_asked, named_tile};
ghost use Rattle.tile_routes.specs.Paths.{box_asked, numbered_feature_asked, row_and_format};
ghost use Rattle.tile_routes.specs.Targets.{asked_of, IsInRange, row_view};

use crate::boxes::path_box;
use crate::number::path_number;
use feature_model::{MAX_ZOOM, WorldBox};
use hilbert_id::TileAt;

/// How a tile is written in its reply.
#[derive(Clone, Copy)]
pub enum TileFormat {
    /// The bytes of the tile (`.mvt`).
    Mvt,
    /// The bytes as hex text in lower case (`.hex`).
    Hex,
}

/// What GET and HEAD show at a path without parameters.
#[derive(Clone, Copy)]
pub enum View {
    /// `/map/metadata`: what the map has, as JSON.
    Metadata,
    /// `/map.pmtiles`: the archive that was published last.
    Archive,
    /// `/admin/status`: what the service tells of itself, as JSON.
    Status,
}

/// What POST does at a path without parameters.
#[derive(Clone, Copy)]
pub enum Action {
    /// `/edits`: makes several changes of the map as one edit, all of them or none.
    Edits,
    /// `/admin/edits`: the same, if each feature still is what the author of the edit saw.
    CheckedEdits,
    /// `/publish`: publishes the whole map.
    Publish,
    /// `/publish/begin`: begins a publication by steps.
    PublishBegin,
    /// `/publish/step`: continues it.
    PublishStep,
    /// `/publish/cancel`: cancels it.
    PublishCancel,
}

/// What a path asks for.
#[derive(Clone, Copy)]
pub enum Target {
    /// `/map/{z}/{x}/{y}.mvt` and `.hex`: a tile of a zoom up to `feature_model::MAX_ZOOM`.
    Tile(TileAt, TileFormat),
    /// `/features/{id}`: the feature of this number, which is below `feature_model::NUMBER_END`.
    Feature(u64),
    /// `/admin/features/from/{id}`: the first feature with this number or a greater one; the number is below
    /// `feature_model::NUMBER_END`.
    FeatureFrom(u64),
    /// `/admin/features/page/{id}`: the features from this number on, a page of them; the number is below `feature_model::NUMBER_END`.
    FeaturePage(u64),
    /// `/admin/features/box/{x0},{y0},{x1},{y1}/from/{id}`: those of these features whose bounding boxes meet a box, a page of them.
    FeatureBox(WorldBox, u64),
    /// `/admin/edits/from/{number}`: the edits from this number on that the journal still has; the number is below
    /// `feature_model::NUMBER_END`.
    EditsFrom(u64),
    /// `/admin/edits/at/{number}`: makes several changes as one edit, if that gets this number, which is below
    /// `feature_model::NUMBER_END`.
    EditsAt(u64),
    /// `/admin/features/{id}/at/{number}`: sets the feature with this id, if the edit gets this number; both are below
    /// `feature_model::NUMBER_END`.
    FeatureAt(u64, u64),
    /// A path that GET and HEAD show.
    View(View),
    /// A path that POST does something at.
    Action(Action),
    /// Any other path.
    Nothing,
}

/// The feature whose number the text writes.
pub(crate) fn feature_target(id: &[u8]) -> Target
    ensures asked { asked_of result ≡ feature_asked (number_of id.now) }
    ensures range { IsInRange result }
{
    match path_number(id) {
        Some(id) => Target::Feature(id),
        None => Target::Nothing,
    }
}

/// The first feature with the number that the text writes, or a greater one.
pub(crate) fn from_target(id: &[u8]) -> Target
    ensures asked { asked_of result ≡ from_asked (number_of id.now) }
    ensures range { IsInRange result }
{
    match path_number(id) {
        Some(id) => Target::FeatureFrom(id),
        None => Target::Nothing,
    }
}

/// A page of the features from the number that the text writes on.
pub(crate) fn page_target(id: &[u8]) -> Target
    ensures asked { asked_of result ≡ page_asked (number_of id.now) }
    ensures range { IsInRange result }
{
    match path_number(id) {
        Some(id) => Target::FeaturePage(id),
        None => Target::Nothing,
    }
}

/// A page of the features in the box that a text writes, from the number that another one writes on.
pub(crate) fn box_target(bounds: &[u8], id: &[u8]) -> Target
    ensures asked { asked_of result ≡ box_asked (box_of bounds.now) (number_of id.now) }
    ensures range { IsInRange result }
{
    match (path_box(bounds), path_number(id)) {
        (Some(bounds), Some(id)) => Target::FeatureBox(bounds, id),
        _ => Target::Nothing,
    }
}

/// The edits from the number that the text writes on.
pub(crate) fn edits_target(number: &[u8]) -> Target
    ensures asked { asked_of result ≡ edits_asked (number_of number.now) }
    ensures range { IsInRange result }
{
    match path_number(number) {
        Some(number) => Target::EditsFrom(number),
        None => Target::Nothing,
    }
}

/// The edit of the number that the text writes.
pub(crate) fn numbered_target(number: &[u8]) -> Target
    ensures asked { asked_of result ≡ numbered_asked (number_of number.now) }
    ensures range { IsInRange result }
{
    match path_number(number) {
        Some(number) => Target::EditsAt(number),
        None => Target::Nothing,
    }
}

/// The feature whose id, and the edit whose number the texts write.
pub(crate) fn numbered_feature_target(id: &[u8], number: &[u8]) -> Target
    ensures asked { asked_of result ≡ numbered_feature_asked (number_of id.now) (number_of number.now) }
    ensures range { IsInRange result }
{
    match (path_number(id), path_number(number)) {
        (Some(id), Some(number)) => Target::FeatureAt(id, number),
        _ => Target::Nothing,
    }
}

/// The part of a tile's name before its ending, and the format that the ending names.
fn format_of(name: &[u8]) -> Option<(&[u8], TileFormat)>
    ensures { option_map row_view result ≡ row_and_format name.now }
{
    if let Some(row) = name.strip_suffix(b".mvt") {
        return Some((row, TileFormat::Mvt));
    }
    if let Some(row) = name.strip_suffix(b".hex") {
        return Some((row, TileFormat::Hex));
    }
    None
}

/// Whether a tile of this zoom, column and row is served.
fn is_served(z: u64, x: u64, y: u64) -> bool
    ensures { result ≡ is_served z x y }
{
    z <= u64::from(MAX_ZOOM) && x < 1 << z && y < 1 << z
}

/// The tile of a zoom, a column and a row.
fn tile_at(z: u64, x: u64, y: u64, format: TileFormat) -> Target
    requires { IsTrue (is_served z x y) }
    ensures asked { asked_of result ≡ asked_tile z x y format }
    ensures range { IsInRange result }
{
    match TileAt::new(z as u8, x as u32, y as u32) {
        Some(at) => Target::Tile(at, format),
        None => Target::Nothing,
    }
}

/// The tile whose zoom, column and row with its ending these are.
pub(crate) fn tile_target(z: &[u8], x: &[u8], name: &[u8]) -> Target
    ensures asked { asked_of result ≡ named_tile (number_of z.now) (number_of x.now) (row_and_format name.now) }
    ensures range { IsInRange result }
{
    let (Some((row, format)), Some(z), Some(x)) = (format_of(name), path_number(z), path_number(x))
    else {
        return Target::Nothing;
    };
    match path_number(row) {
        Some(y) if is_served(z, x, y) => tile_at(z, x, y, format),
        _ => Target::Nothing,
    }
}
