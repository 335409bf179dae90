//! The index by boxes of a map that may not have one yet.
ghost use Rattle.std.specs.Prelude.{◌≡◌, ◌≤◌, ◌<◌, ◌+◌, ℕ, IfOk, IfSome, option_copied, option_map};
ghost use Rattle.feature_model.specs.Data.{FeatureData};
ghost use Rattle.number_map.specs.Blocks.{Ascends, joined};
ghost use Rattle.tile_cutter.specs.WorldBox.{bounding_box};
ghost use Rattle.feature_store.specs.Indexed.{index_entry, IsIndexed, IsIndexedBy, spare_with};
ghost use Rattle.feature_store.specs.Inside.{stored_data, entries_data};
ghost use Rattle.feature_store.specs.Store.{FeatureMap, feature_at, with_feature, without_feature};

use crate::feature_boxes::append_blocks;
use crate::indexed::{set_entry, take_entry};
use box_index::{BoxIndex, IndexEntry};
use edit_text::StoredFeature;
use feature_model::WorldBox;
use number_map::Block;
use std::alloc::{AllocError, Global};
use tile_cutter::bounding_box;

/// The index of the boxes of all features, built at once. The only error is out of memory.
pub(crate) fn index_of(
    alloc: Global,
    count: usize,
    blocks: &[Block<StoredFeature>],
) -> Result<BoxIndex, AllocError>
    ensures { IfOk result (λ index. IsIndexed (entries_data (joined blocks.now)) index.entries) }
{
    let mut boxes = Vec::with_capacity(alloc, count)?;
    append_blocks(&mut boxes, blocks)?;
    BoxIndex::of(alloc, boxes)
}

/// The bounding box of a feature, if there is one.
fn box_of(stored: Option<&StoredFeature>) -> Option<WorldBox>
    ensures { result ≡ option_map (λ s. bounding_box (stored_data s).geometry) (option_copied stored.entry) }
{
    match stored {
        Some(stored) => Some(bounding_box(stored.view())),
        None => None,
    }
}

/// Takes out of the index, if there is one, what it has of the number's feature, and returns the feature's bounding box.
pub(crate) fn take_box(
    index: &mut Option<BoxIndex>,
    id: u64,
    stored: Option<&StoredFeature>,
) -> Option<WorldBox>
    ensures bounds { result ≡ option_map (λ s. bounding_box (stored_data s).geometry) (option_copied stored.entry) }
    ensures indexed { (m : FeatureMap) → option_map stored_data (option_copied stored.entry) ≡ feature_at m id
        → IsIndexedBy m index.old → IsIndexedBy (without_feature m id) index.new }
    ensures spare { (n k : ℕ) → n ≤ k → spare_with n index.old ≤ spare_with k index.new }
{
    match index {
        Some(index) => take_entry(index, id, stored),
        None => box_of(stored),
    }
}

/// Puts the entry of a number's feature into the index, if there is one, in the place of that of the feature before, and returns the
/// bounding box of that feature.
pub(crate) fn set_box(
    index: &mut Option<BoxIndex>,
    entry: IndexEntry,
    replaced: Option<&StoredFeature>,
) -> Option<WorldBox>
    requires { IfSome index.old (λ i. 0 < i.spare) }
    ensures bounds { result ≡ option_map (λ s. bounding_box (stored_data s).geometry) (option_copied replaced.entry) }
    ensures indexed { (m : FeatureMap) (id : ℕ) (f : FeatureData) → entry ≡ index_entry (id, f) → Ascends m
        → option_map stored_data (option_copied replaced.entry) ≡ feature_at m id → IsIndexedBy m index.old
        → IsIndexedBy (with_feature m id f) index.new }
    ensures spare { (n k : ℕ) → n ≤ k + 1 → spare_with n index.old ≤ spare_with k index.new + 1 }
{
    match index {
        Some(index) => set_entry(index, entry, replaced),
        None => box_of(replaced),
    }
}
