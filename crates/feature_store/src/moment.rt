//! A map as of a moment, while it is edited.
ghost use Rattle.std.specs.Prelude.{◌≡◌, ◌≢◌, ◌+◌, ◌<◌, ◌≤◌, ◌++◌, ℕ, [], true, false, All, OnOk, OnErr, IfSome, IfNone, option_copied, option_map};
ghost use Rattle.std.specs.BTreeMap.{is_at};
ghost use Rattle.std.specs.Map.{lookup};
ghost use Rattle.std.specs.Ordering.{nat_cmp};
ghost use Rattle.edit_text.specs.Views.{feature_view};
ghost use Rattle.number_map.specs.Blocks.{Ascends};
ghost use Rattle.feature_model.specs.declared.limits.TheConstants.{NUMBER_END};
ghost use Rattle.feature_store.specs.Inside.{IsOwn, stored_data, entries_data};
ghost use Rattle.feature_store.specs.Moments.{AreKept, IsAsOf, had_at};
ghost use Rattle.feature_store.specs.Reading.{below, entry_of, nearer};
ghost use Rattle.feature_store.specs.Store.{FeatureMap, IsMap, feature_at};

use crate::store::Store;
use edit_text::{FeatureText, StoredFeature};
use feature_model::NUMBER_END;
use number_map::{Entry, NumberMap};
use std::alloc::{AllocError, Global};
use std::marker::Model;
use std::snapshot::Snapshot;

/// A map as of a moment: of each number that was changed since, the feature that it had. Those of all others are in the map itself, so
/// that nothing is copied, and an edit keeps what it replaces. If that is out of memory, the moment is lost, and the edit isn't refused.
#[derive(Drop)]
pub struct Moment {
    /// The features then, which only clauses read.
    features: Snapshot<NumberMap<StoredFeature>>,
    /// The feature that each number had then, of those that were changed since.
    kept: NumberMap<Option<StoredFeature>>,
    lost: bool,
}

impl Model for Moment {
    ghost use Rattle.feature_store.specs.Moments.{MomentView};

    ghost Value = { MomentView };

    ghost use Rattle.feature_store.specs.MomentInside.{moment_view};

    ghost view = { moment_view };
}

/// A number, and the feature that it had at a moment, if it had one.
type Had<'a> = (u64, Option<&'a StoredFeature>);

/// The nearer of two entries, one of what was kept of numbers and one of what numbers have.
fn nearer<'a>(
    kept: Option<&'a Entry<Option<StoredFeature>>>,
    now: Option<&'a Entry<StoredFeature>>,
) -> Option<Had<'a>>
    ensures { option_map (λ e. (e.0, option_copied e.1)) result ≡ nearer (option_copied kept.entry) (option_copied now.entry) }
{
    match (kept, now) {
        (Some(kept), Some(now)) => {
            if now.0 < kept.0 {
                return Some((now.0, Some(&now.1)));
            }
            Some((kept.0, kept.1.as_ref()))
        }
        (Some(kept), None) => Some((kept.0, kept.1.as_ref())),
        (None, Some(now)) => Some((now.0, Some(&now.1))),
        (None, None) => None,
    }
}

impl Moment {
    /// The map as it is now. It allocates nothing.
    pub(crate) fn of(alloc: Global, features: &NumberMap<StoredFeature>) -> Moment
        requires { IsMap (entries_data features.now.entries) }
        ensures features { result.features ≡ entries_data features.now.entries }
        ensures there { result.lost ≡ false }
        ensures as_of { IsAsOf result (entries_data features.now.entries) }
    {
        Moment {
            features: Snapshot::of(features),
            kept: NumberMap::new(alloc),
            lost: false,
        }
    }

    /// Whether an edit since was out of memory for what it replaced.
    pub fn is_lost(&self) -> bool
        ensures { result ≡ self.now.lost }
    {
        self.lost
    }

    /// The feature that a number had at the moment. `features` are those of the map now.
    pub(crate) fn get<'a>(
        &'a self,
        features: &'a NumberMap<StoredFeature>,
        number: u64,
    ) -> Option<&'a StoredFeature>
        requires there { self.now.lost ≡ false }
        requires as_of { IsAsOf self.now (entries_data features.now.entries) }
        ensures { option_map stored_data (option_copied result) ≡ feature_at self.now.features number }
    {
        match self.kept.get(number) {
            Some(had) => had.as_ref(),
            None => features.get(number),
        }
    }

    /// The first number from `number` on that has a feature or was changed since, with the feature that it had at the moment. It is `None` if
    /// no number from there on had one. `features` are those of the map now.
    pub(crate) fn stored_from<'a>(
        &'a self,
        features: &'a NumberMap<StoredFeature>,
        number: u64,
    ) -> Option<Had<'a>>
        requires there { self.now.lost ≡ false }
        requires as_of { IsAsOf self.now (entries_data features.now.entries) }
        requires ascending { Ascends features.now.entries }
        requires own { All IsOwn features.now.entries }
        ensures further { IfSome result (λ e. number ≤ e.0) }
        ensures within { IfSome result (λ e. e.0 < NUMBER_END) }
        ensures own { IfSome result (λ e. IfSome e.1 (λ s. s.now.0 ≡ e.0)) }
        // The features up to it are those below `number`, and that one.
        ensures found { IfSome result (λ e. below (e.0 + 1) self.now.features
            ≡ below number self.now.features ++ entry_of e.0 (option_map stored_data (option_copied e.1))) }
        ensures none { IfNone result (below number self.now.features ≡ self.now.features) }
    {
        let Some(found) = nearer(self.kept.first_from(number), features.first_from(number)) else {
            return None;
        };
        if found.0 >= NUMBER_END {
            return None;
        }
        Some(found)
    }

    /// The first number from `number` on that has a feature or was changed since, with the feature that it had at the moment. It is `None` if
    /// no number from there on had one. `store` is the map as it is now. It takes four binary searches.
    pub fn look_from<'a>(
        &'a self,
        store: &'a Store,
        number: u64,
    ) -> Option<(u64, Option<FeatureText<'a>>)>
        requires there { self.now.lost ≡ false }
        requires as_of { IsAsOf self.now store.now.features }
        ensures further { IfSome result (λ e. number ≤ e.0) }
        ensures within { IfSome result (λ e. e.0 < NUMBER_END) }
        // The features up to it are those below `number`, and that one.
        ensures found { IfSome result (λ e. below (e.0 + 1) self.now.features
            ≡ below number self.now.features ++ entry_of e.0 (option_map feature_view e.1)) }
        ensures none { IfNone result (below number self.now.features ≡ self.now.features) }
    {
        match self.stored_from(store.features(), number) {
            Some((number, Some(stored))) => Some((number, Some(stored.view()))),
            Some((number, None)) => Some((number, None)),
            None => None,
        }
    }

    /// Reserves memory for what `count` changes replace. It fails only if memory for fewer was there.
    pub fn room_for(&mut self, count: usize) -> Result<(), AllocError>
        ensures same { self.new ≡ record self.old { spare = self.new.spare } }
        ensures room { OnOk result (count ≤ self.new.spare) }
        ensures kept { self.old.spare ≤ self.new.spare }
        ensures missing { OnErr result (self.new.spare < count) }
    {
        self.kept.room_for(count)
    }

    /// Keeps what a number had until an edit that was made just now, unless it was changed since the moment before.
    pub(crate) fn keep(&mut self, number: u64, had: Option<StoredFeature>)
        ensures features { self.new.features ≡ self.old.features }
        ensures lost { self.old.lost ≡ true → self.new.lost ≡ true }
        // It is lost only where memory was missing.
        ensures memory { self.old.lost ≡ false → 0 < self.old.spare → self.new.lost ≡ false }
        ensures spare { self.old.spare ≤ self.new.spare + 1 }
        ensures here { (m k : FeatureMap) → self.new.lost ≡ false → option_map stored_data had ≡ feature_at m number
            → had_at self.new.kept number (feature_at k number) ≡ had_at self.old.kept number (feature_at m number) }
        ensures others { (n : ℕ) → self.new.lost ≡ false → n ≢ number
            → lookup (is_at (nat_cmp n)) self.new.kept ≡ lookup (is_at (nat_cmp n)) self.old.kept }
        ensures kept { IfSome had (λ s. s.0 ≡ number) → AreKept self.old.kept → AreKept self.new.kept }
    {
        if self.lost {
            return;
        }
        if self.kept.get(number).is_some() {
            return;
        }
        match self.kept.room_for(1) {
            Ok(()) => {}
            Err(_) => {
                self.lost = true;
                return;
            }
        }
        let _none = self.kept.insert(number, had);
    }
}
