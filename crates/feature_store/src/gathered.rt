//! What a tile shows of the features of a map, written layer by layer.

ghost use Rattle.std.specs.Prelude.{ℕ, ◌≤◌, List, ◌∷◌, ◌++◌, ◌≡◌, [], false, All, map, OnOk, IfOk};
ghost use Rattle.feature_model.specs.Limits.{IsAllowed, ValueFits};
ghost use Rattle.edit_text.specs.Views.{tags_view, feature_view};
ghost use Rattle.geometry_commands.specs.Shapes.{ShapeView};
ghost use Rattle.mvt_layer.specs.Tile.{FeatureView};
ghost use Rattle.mvt_write.specs.Writes.{Writes};
ghost use Rattle.tile_cutter.specs.Cut.{shown_tag};
ghost use Rattle.tile_cutter.specs.Put.{IsPut};
ghost use Rattle.feature_store.specs.Chosen.{chosen, borrowed_data, found_data};
ghost use Rattle.feature_store.specs.Gathered.{Gathers};
ghost use Rattle.feature_store.specs.Inside.{entries_data};
ghost use Rattle.feature_store.specs.Layers.{numbered, added_to, cuts_of};
ghost use Rattle.feature_store.specs.Moments.{IsAsOf};
ghost use Rattle.feature_store.specs.Store.{entry_at};

use crate::cutter::Cutter;
use crate::moment::Moment;
use edit_text::{FeatureText, StoredFeature, Tags};
use feature_model::MAX_ZOOM;
use geometry_commands::{PackedShape, ShapeKind};
use hilbert_id::TileAt;
use mvt_write::LayerWriter;
use number_map::NumberMap;
use std::alloc::{AllocError, Global};
use std::collections::BTreeMap;
use tile_cutter::{put_cut, shown_value};

/// The layers, by their names.
pub(crate) type Gathered = BTreeMap<String, LayerWriter>;

/// Adds the tags of the feature that comes next.
fn put_tags(writer: &mut LayerWriter, tags: Tags<'_>) -> Result<(), AllocError>
    requires { All (λ t. ValueFits t.value) (tags_view tags) }
    ensures { OnOk result ((name : List ℕ) (fs : List FeatureView)
        → Writes writer.old name fs [] → Writes writer.new name fs (map shown_tag (tags_view tags.entry))) }
{
    for tag in tags {
        writer.put_tag(tag.key, shown_value(tag.value))?;
    }
    Ok(())
}

/// Adds a feature of this number, whose shape is packed.
fn put_feature(
    writer: &mut LayerWriter,
    id: u64,
    feature: FeatureText<'_>,
    kind: ShapeKind,
    shape: &PackedShape,
) -> Result<(), AllocError>
    requires { IsAllowed id (feature_view feature) }
    ensures { OnOk result ((name : List ℕ) (fs : List FeatureView) (s : ShapeView)
        → Writes writer.old name fs [] → IsPut shape.now kind s
        → Writes writer.new name (fs ++ numbered id (feature_view feature.entry) s ∷ []) []) }
{
    put_tags(writer, feature.tags)?;
    writer.put_feature(Some(id), kind, &shape.bytes)
}

/// Adds a feature to its layer, which is begun with its first feature.
fn add(
    alloc: Global,
    gathered: &mut Gathered,
    id: u64,
    feature: FeatureText<'_>,
    kind: ShapeKind,
    shape: &PackedShape,
) -> Result<(), AllocError>
    requires { IsAllowed id (feature_view feature) }
    ensures { OnOk result ((fs : List ℕ → List FeatureView) (s : ShapeView)
        → Gathers gathered.old fs → IsPut shape.now kind s
        → Gathers gathered.new (added_to fs (feature_view feature.entry).layer (numbered id (feature_view feature.entry) s))) }
{
    if let Some(writer) = gathered.get_mut(feature.layer) {
        return put_feature(writer, id, feature, kind, shape);
    }
    let name = String::from_str(alloc, feature.layer)?;
    let mut writer = LayerWriter::new(alloc, feature.layer)?;
    put_feature(&mut writer, id, feature, kind, shape)?;
    gathered.insert(name, writer)?;
    Ok(())
}

/// Adds what the tile shows of a feature to what it shows of those before.
fn add_shown(
    alloc: Global,
    cutter: &mut Cutter,
    gathered: &mut Gathered,
    id: u64,
    feature: FeatureText<'_>,
    at: TileAt,
) -> Result<(), AllocError>
    requires zoom { at.z ≤ MAX_ZOOM }
    requires allowed { IsAllowed id (feature_view feature) }
    ensures { OnOk result ((fs : List ℕ → List FeatureView) → Gathers gathered.old fs
        → Gathers gathered.new (λ name. fs name ++ cuts_of ((id, feature_view feature.entry) ∷ []) name at.z at.x at.y)) }
{
    let Some(kind) = put_cut(&mut cutter.shape, &mut cutter.chain, feature, at)? else {
        return Ok(());
    };
    add(alloc, gathered, id, feature, kind, &cutter.shape)
}

/// A feature that is looked up, and its number.
#[derive(Clone, Copy)]
pub(crate) struct Found<'a> {
    id: u64,
    feature: FeatureText<'a>,
}

/// Appends a number with the feature that it had at a moment, if it had one.
fn push_stored<'a>(
    stored: &mut Vec<(u64, &'a StoredFeature)>,
    features: &'a NumberMap<StoredFeature>,
    moment: &'a Moment,
    number: u64,
) -> Result<(), AllocError>
    requires there { moment.now.lost ≡ false }
    requires as_of { IsAsOf moment.now (entries_data features.now.entries) }
    ensures { OnOk result (map borrowed_data stored.new.items ≡ map borrowed_data stored.old.items
        ++ entry_at moment.entry.now.features number) }
{
    if let Some(feature) = moment.get(features, number) {
        stored.push((number, feature))?;
    }
    Ok(())
}

/// The numbers that had a feature at a moment, each with its feature.
fn look_up<'a>(
    alloc: Global,
    features: &'a NumberMap<StoredFeature>,
    moment: &'a Moment,
    numbers: &[u64],
) -> Result<Vec<(u64, &'a StoredFeature)>, AllocError>
    requires there { moment.now.lost ≡ false }
    requires as_of { IsAsOf moment.now (entries_data features.now.entries) }
    ensures { IfOk result (λ stored. map borrowed_data stored.items ≡ chosen moment.entry.now.features numbers.now) }
{
    let mut stored = Vec::with_capacity(alloc, numbers.len())?;
    for number in numbers {
        push_stored(&mut stored, features, moment, *number)?;
    }
    Ok(stored)
}

/// What each of these features shows.
fn view_each<'a>(
    alloc: Global,
    stored: &[(u64, &'a StoredFeature)],
) -> Result<Vec<Found<'a>>, AllocError>
    ensures { IfOk result (λ found. map found_data found.items ≡ map borrowed_data stored.now) }
{
    let mut found = Vec::with_capacity(alloc, stored.len())?;
    for &(id, feature) in stored {
        found.push(Found {
            id,
            feature: feature.view(),
        })?;
    }
    Ok(found)
}

/// Adds what the tile shows of features to what it shows of those before.
fn add_each(
    alloc: Global,
    cutter: &mut Cutter,
    gathered: &mut Gathered,
    found: &[Found<'_>],
    at: TileAt,
) -> Result<(), AllocError>
    requires zoom { at.z ≤ MAX_ZOOM }
    requires allowed { All (λ e. IsAllowed e.0 e.1) (map found_data found.now) }
    ensures { OnOk result ((fs : List ℕ → List FeatureView) → Gathers gathered.old fs
        → Gathers gathered.new (λ name. fs name ++ cuts_of (map found_data found.now) name at.z at.x at.y)) }
{
    for one in found {
        add_shown(alloc, cutter, gathered, one.id, one.feature, at)?;
    }
    Ok(())
}

/// Adds what the tile shows of the features that these numbers had at a moment to what it shows of those before. All are looked up before
/// the first of them is cut.
pub(crate) fn add_numbers(
    alloc: Global,
    cutter: &mut Cutter,
    gathered: &mut Gathered,
    features: &NumberMap<StoredFeature>,
    moment: &Moment,
    numbers: &[u64],
    at: TileAt,
) -> Result<(), AllocError>
    requires zoom { at.z ≤ MAX_ZOOM }
    requires there { moment.now.lost ≡ false }
    requires as_of { IsAsOf moment.now (entries_data features.now.entries) }
    ensures { OnOk result ((fs : List ℕ → List FeatureView) → Gathers gathered.old fs
        → Gathers gathered.new (λ name. fs name ++ cuts_of (chosen moment.now.features numbers.now) name at.z at.x at.y)) }
{
    let stored = look_up(alloc, features, moment, numbers)?;
    let found = view_each(alloc, &stored)?;
    add_each(alloc, cutter, gathered, &found, at)
}
