//! The numbers of a map, listed by parts for a tile that shows most of it.

ghost use Rattle.std.specs.Prelude.{◌≡◌, ◌≤◌, ◌<◌, ◌+◌, Ok, true, false, length, IfOk, OnOk};
ghost use Rattle.std.specs.Map.{keys_of};
ghost use Rattle.feature_model.specs.declared.limits.TheConstants.{MAX_ZOOM};
ghost use Rattle.feature_store.specs.Inside.{entries_data};
ghost use Rattle.feature_store.specs.Parts.{IsInMaking, NONE_IN_HAND, work_left};
ghost use Rattle.feature_store.specs.Stages.{IsListed};
ghost use Rattle.feature_store.specs.Store.{FeatureMap, IsMap};

use crate::tile_parts::TileParts;
use edit_text::StoredFeature;
use feature_model::MAX_ZOOM;
use hilbert_id::TileAt;
use number_map::NumberMap;
use std::alloc::{AllocError, Global};

/// How many numbers a part of a list has at most.
const LIST_NUMBERS: usize = 4_096;

/// The first numbers of a map, for a tile.
#[derive(Drop)]
pub(crate) struct Listing {
    pub(crate) at: TileAt,
    /// Those of the features with numbers below `next`, in ascending order.
    numbers: Vec<u64>,
    next: u64,
    alloc: Global,
}

impl Listing {
    /// No number is listed, and there is memory for `count` of them. The only error is out of memory.
    pub(crate) fn of(alloc: Global, at: TileAt, count: usize) -> Result<Listing, AllocError>
        requires { at.z ≤ MAX_ZOOM }
        ensures listed { IfOk result (λ l. (m : FeatureMap) → IsListed m l) }
        ensures at { IfOk result (λ l. l.at ≡ at) }
    {
        Ok(Listing {
            at,
            numbers: Vec::with_capacity(alloc, count)?,
            next: 0,
            alloc,
        })
    }

    /// Adds the next number of the map. It is false if none is left. The only error is out of memory.
    fn list_next(&mut self, features: &NumberMap<StoredFeature>) -> Result<bool, AllocError>
        requires is_map { IsMap (entries_data features.now.entries) }
        requires listed { IsListed (entries_data features.now.entries) self.old }
        ensures listed { OnOk result (IsListed (entries_data features.now.entries) self.new) }
        ensures at { self.new.at ≡ self.old.at }
        ensures more { result ≡ Ok true → length self.new.numbers.items ≡ length self.old.numbers.items + 1 }
        ensures all { result ≡ Ok false → self.new.numbers.items ≡ keys_of (entries_data features.now.entries) }
    {
        let Some(entry) = features.first_from(self.next) else {
            return Ok(false);
        };
        let number = entry.0;
        self.numbers.push(number)?;
        self.next = number + 1;
        Ok(true)
    }

    /// Adds the next `LIST_NUMBERS` numbers of the map, or those that are left if they are fewer. It is false if none is left. The only error is out
    /// of memory.
    pub(crate) fn list_part(
        &mut self,
        features: &NumberMap<StoredFeature>,
    ) -> Result<bool, AllocError>
        requires is_map { IsMap (entries_data features.now.entries) }
        requires listed { IsListed (entries_data features.now.entries) self.old }
        ensures listed { OnOk result (IsListed (entries_data features.now.entries) self.new) }
        ensures at { self.new.at ≡ self.old.at }
        ensures more { result ≡ Ok true → length self.new.numbers.items ≡ length self.old.numbers.items + LIST_NUMBERS }
        ensures all { result ≡ Ok false → self.new.numbers.items ≡ keys_of (entries_data features.now.entries) }
    {
        for _ in 0..LIST_NUMBERS {
            if !self.list_next(features)? {
                return Ok(false);
            }
        }
        Ok(true)
    }

    /// The tile by parts, of which no feature is added, once all numbers are listed.
    pub(crate) fn into_parts(self) -> TileParts
        requires { self.at.z ≤ MAX_ZOOM }
        ensures making { (m : FeatureMap) → IsMap m → self.numbers.items ≡ keys_of m → IsInMaking m result }
        ensures at { result.at ≡ self.at }
        ensures work { work_left result < NONE_IN_HAND }
    {
        let Listing {
            at,
            numbers,
            next: _,
            alloc,
        } = self;
        TileParts::of(alloc, at, numbers)
    }
}
