//! What the index by boxes has of a feature.
ghost use Rattle.std.specs.Prelude.{◌≡◌, ◌≤◌, ◌<◌, ◌+◌, ℕ, List, ◌∷◌, IfOk, option_copied, option_map};
ghost use Rattle.std.specs.List.Sorted.{IsPermutation};
ghost use Rattle.box_index.specs.declared.entry.IndexEntry.{IndexEntry};
ghost use Rattle.feature_model.specs.Data.{FeatureData};
ghost use Rattle.edit_text.specs.Views.{feature_view};
ghost use Rattle.number_map.specs.Blocks.{Ascends};
ghost use Rattle.tile_cutter.specs.WorldBox.{bounding_box};
ghost use Rattle.feature_store.specs.Indexed.{index_entry, IsIndexed, ShowsAll};
ghost use Rattle.feature_store.specs.Inside.{stored_data};
ghost use Rattle.feature_store.specs.Store.{FeatureMap, IsMap, feature_at, with_feature, without_feature};

use box_index::{BoxIndex, IndexEntry, Span};
use edit_text::{FeatureText, StoredFeature};
use feature_model::{MAX_ZOOM, WorldBox};
use hilbert_id::TileAt;
use std::alloc::{AllocError, Global};
use tile_cutter::{bounding_box, tile_box};

/// The number of a feature, its bounding box and its zooms.
pub(crate) fn index_entry(id: u64, feature: FeatureText<'_>) -> IndexEntry
    ensures { result ≡ index_entry (id, feature_view feature.entry) }
{
    IndexEntry {
        id,
        span: Span {
            bounds: bounding_box(feature),
            minzoom: feature.minzoom,
            maxzoom: feature.maxzoom,
        },
    }
}

/// Takes out of the index what it has of the number's feature, if there is one, and returns the feature's bounding box.
pub(crate) fn take_entry(
    index: &mut BoxIndex,
    id: u64,
    stored: Option<&StoredFeature>,
) -> Option<WorldBox>
    ensures bounds { result ≡ option_map (λ s. bounding_box (stored_data s).geometry) (option_copied stored.entry) }
    ensures indexed { (m : FeatureMap) → option_map stored_data (option_copied stored.entry) ≡ feature_at m id
        → IsIndexed m index.old.entries → IsIndexed (without_feature m id) index.new.entries }
    ensures spare { index.old.spare ≤ index.new.spare }
{
    match stored {
        Some(stored) => {
            let entry = index_entry(id, stored.view());
            index.remove(&entry);
            Some(entry.span.bounds)
        }
        None => None,
    }
}

/// Puts an entry in the place of another one. An equal one is left where it is.
fn exchange(index: &mut BoxIndex, old: &IndexEntry, entry: IndexEntry)
    requires { 0 < index.old.spare }
    ensures entries { (rest : List IndexEntry) → IsPermutation index.old.entries (old.now ∷ rest)
        → IsPermutation (entry ∷ rest) index.new.entries }
    ensures spare { index.old.spare ≤ index.new.spare + 1 }
{
    if *old == entry {
        return;
    }
    index.remove(old);
    index.insert(entry);
}

/// Puts the entry of a number's feature into the index, in the place of that of the feature before, if there was one, and returns the
/// bounding box of that feature.
pub(crate) fn set_entry(
    index: &mut BoxIndex,
    entry: IndexEntry,
    replaced: Option<&StoredFeature>,
) -> Option<WorldBox>
    requires { 0 < index.old.spare }
    ensures bounds { result ≡ option_map (λ s. bounding_box (stored_data s).geometry) (option_copied replaced.entry) }
    ensures indexed { (m : FeatureMap) (id : ℕ) (f : FeatureData) → entry ≡ index_entry (id, f) → Ascends m
        → option_map stored_data (option_copied replaced.entry) ≡ feature_at m id → IsIndexed m index.old.entries
        → IsIndexed (with_feature m id f) index.new.entries }
    ensures spare { index.old.spare ≤ index.new.spare + 1 }
{
    match replaced {
        Some(stored) => {
            let old = index_entry(entry.id, stored.view());
            exchange(index, &old, entry);
            Some(old.span.bounds)
        }
        None => {
            index.insert(entry);
            None
        }
    }
}

/// The numbers of the features whose bounding box meets the box of a tile, and that have its zoom: it shows nothing of others.
pub(crate) fn numbers_near(
    alloc: Global,
    index: &BoxIndex,
    at: TileAt,
) -> Result<Vec<u64>, AllocError>
    requires { at.z ≤ MAX_ZOOM }
    ensures { IfOk result (λ numbers. (m : FeatureMap) → IsMap m → IsIndexed m index.now.entries → ShowsAll m at.z at.x at.y numbers.items) }
{
    index.query(alloc, &tile_box(at), at.z)
}

/// A tile with this many features near it, or fewer, isn't wide.
const WIDE_REACH: usize = 4_096;

/// Whether a tile is wide: more than `WIDE_REACH` features may be near it, and at least half of the `count` features of the map. It looks at none
/// of them.
pub(crate) fn is_wide(index: &BoxIndex, at: TileAt, count: usize) -> bool
    requires { at.z ≤ MAX_ZOOM }
{
    let reach = index.reach(&tile_box(at), at.z);
    reach > WIDE_REACH && count.saturating_sub(reach) <= reach
}
