//! The features whose bounding boxes meet a box of the world.

ghost use Rattle.std.specs.Prelude.{◌≡◌, ◌++◌, ◌∷◌, [], Some, IfOk, OnOk, option_map};
ghost use Rattle.std.specs.Map.{keys_of};
ghost use Rattle.edit_text.specs.Views.{feature_view};
ghost use Rattle.feature_store.specs.InBox.{IsInBox, in_box};
ghost use Rattle.feature_store.specs.Store.{feature_from};

use crate::store::Store;
use box_index::boxes_meet;
use edit_text::FeatureText;
use feature_model::WorldBox;
use std::alloc::{AllocError, Global};
use tile_cutter::bounding_box;

/// A box that may have more features than this isn't asked of the index.
pub(crate) const BOX_ENTRIES: usize = 16_384;

/// How many features are looked at in a box that isn't asked of the index.
pub const BOX_LOOKS: usize = 1_024;

/// The numbers of the features in a box from a number on, in ascending order.
#[derive(Drop)]
pub struct InBox {
    /// Those below `next`, or all if that is `None`.
    pub numbers: Vec<u64>,
    /// The number of a feature, in the box or not, from which the others may be asked for.
    pub next: Option<u64>,
}

/// Appends the number of a feature if that is in the box.
fn add_met(
    numbers: &mut Vec<u64>,
    number: u64,
    feature: FeatureText<'_>,
    bounds: &WorldBox,
) -> Result<(), AllocError>
    ensures { OnOk result (numbers.new.items
        ≡ numbers.old.items ++ keys_of (in_box bounds.now ((number, feature_view feature.entry) ∷ []))) }
{
    if boxes_meet(&bounding_box(feature), bounds) {
        numbers.push(number)?;
    }
    Ok(())
}

/// The number of the first feature from a number on.
fn next_number(store: &Store, from: u64) -> Option<u64>
    ensures { result ≡ option_map (λ e. e.0) (feature_from store.now.features from) }
{
    match store.first_from(from) {
        Some((number, _)) => Some(number),
        None => None,
    }
}

/// What is found by a look at each of the first `BOX_LOOKS` features from a number on. The only error is out of memory.
pub(crate) fn look_at_each(
    alloc: Global,
    store: &Store,
    bounds: &WorldBox,
    id: u64,
) -> Result<InBox, AllocError>
    ensures { IfOk result (IsInBox store.now.features bounds.now id) }
{
    let mut numbers = Vec::new(alloc);
    let mut from = id;
    for _ in 0..BOX_LOOKS {
        let Some((number, feature)) = store.first_from(from) else {
            let next = None;
            return Ok(InBox { numbers, next });
        };
        add_met(&mut numbers, number, feature, bounds)?;
        from = number + 1;
    }
    let next = next_number(store, from);
    Ok(InBox { numbers, next })
}
