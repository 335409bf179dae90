//! What the author of an edit saw, compared with the map.
ghost use Rattle.std.specs.Prelude.{◌≡◌, ◌↔◌, map, All, IsTrue, MatchOption, option_map};
ghost use Rattle.feature_model.specs.Data.{feature_data};
ghost use Rattle.feature_model.specs.Seen.{seen_data};
ghost use Rattle.edit_text.specs.Views.{feature_view};
ghost use Rattle.cached_map.specs.Seen.{IsAsSeen, IsFirstChanged};

use crate::cached_map::CachedMap;
use edit_text::{FeatureText, is_feature};
use feature_model::{Feature, Seen};
use feature_store::Store;

/// Whether a feature is still the one that was seen, or both are missing.
fn is_same(found: Option<FeatureText<'_>>, seen: &Option<Feature>) -> bool
    ensures { IsTrue result ↔ (option_map feature_view found.entry ≡ option_map feature_data seen.now) }
{
    match (found, seen) {
        (Some(found), Some(seen)) => is_feature(found, seen),
        (None, None) => true,
        (Some(_), None) | (None, Some(_)) => false,
    }
}

/// Whether a number still has the feature that was seen, or still none.
fn is_as_seen(store: &Store, seen: &Seen) -> bool
    ensures { IsTrue result ↔ IsAsSeen store.now.features (seen_data seen.now) }
{
    is_same(store.get(seen.id), &seen.feature)
}

/// The number of the first that has another feature than was seen.
fn first_changed(store: &Store, all: &[Seen]) -> Option<u64>
    ensures { MatchOption result
        (All (IsAsSeen store.now.features) (map seen_data all.now))
        (IsFirstChanged store.now.features (map seen_data all.now)) }
{
    for seen in all {
        if !is_as_seen(store, seen) {
            return Some(seen.id);
        }
    }
    None
}

impl CachedMap {
    /// The number of the first of these whose feature in the map isn't the one that was seen, or `None` if each still is. It allocates nothing.
    pub fn first_changed(&self, all: &[Seen]) -> Option<u64>
        ensures { MatchOption result
            (All (IsAsSeen self.now.features) (map seen_data all.now))
            (IsFirstChanged self.now.features (map seen_data all.now)) }
    {
        first_changed(self.store(), all)
    }
}
