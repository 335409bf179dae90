//! A tile in the making, by parts between which its map may be edited.

ghost use Rattle.std.specs.Prelude.{◌≡◌, ◌≤◌, ◌<◌, ◌-◌, ◌↔◌, length, IsTrue, None, false, OnOk, IfOk, option_map};
ghost use Rattle.feature_model.specs.declared.limits.TheConstants.{MAX_ZOOM};
ghost use Rattle.feature_store.specs.Ends.{END_WORK};
ghost use Rattle.feature_store.specs.Indexed.{ShowsAll};
ghost use Rattle.feature_store.specs.Inside.{entries_data};
ghost use Rattle.feature_store.specs.Layers.{layers};
ghost use Rattle.feature_store.specs.Moments.{IsAsOf};
ghost use Rattle.feature_store.specs.Parts.{IsInMaking};
ghost use Rattle.feature_store.specs.Store.{FeatureMap, IsMap};
ghost use Rattle.feature_store.specs.Tiles.{tile_bytes};

use crate::cutter::Cutter;
use crate::gathered::{Gathered, add_numbers};
use crate::layers::written;
use crate::moment::Moment;
use crate::tile_end::TileEnd;
use edit_text::StoredFeature;
use feature_model::MAX_ZOOM;
use hilbert_id::TileAt;
use number_map::NumberMap;
use std::alloc::{AllocError, Global};
use std::collections::BTreeMap;
use std::mem;

/// How many features a part of a tile has at most. They are looked up before the first of them is cut: most of their searches and first reads
/// miss the caches, and these misses overlap.
pub const PART_NUMBERS: usize = 32;

/// The layers of a tile of at most this many features are written in one call, once all are added. Those of a longer one are written by parts.
const SHORT_NUMBERS: usize = 1_024;

/// A tile of a moment in the making.
#[derive(Drop)]
pub(crate) struct TileParts {
    pub(crate) at: TileAt,
    /// The numbers of the features of which it shows something, and maybe of others.
    numbers: Vec<u64>,
    /// How many of them are left to add: the last ones.
    left: usize,
    /// What it shows of the features of the others, until its layers are being written.
    gathered: Gathered,
    /// Its layers, once they are being written.
    end: Option<TileEnd>,
    alloc: Global,
}

impl TileParts {
    ghost use Rattle.feature_store.specs.Parts.{NONE_IN_HAND, work_left};

    /// A tile of which no feature is added.
    pub(crate) fn of(alloc: Global, at: TileAt, numbers: Vec<u64>) -> TileParts
        requires zoom { at.z ≤ MAX_ZOOM }
        ensures making { (m : FeatureMap) → ShowsAll m at.z at.x at.y numbers.items → IsInMaking m result }
        ensures at { result.at ≡ at }
        ensures work { work_left result < NONE_IN_HAND }
    {
        let left = numbers.len();
        TileParts {
            at,
            numbers,
            left,
            gathered: BTreeMap::new(alloc),
            end: None,
            alloc,
        }
    }

    /// Whether its layers are written at once.
    fn is_short(&self) -> bool
        ensures { IsTrue result ↔ (length self.now.numbers.items ≤ SHORT_NUMBERS) }
    {
        self.numbers.len() <= SHORT_NUMBERS
    }

    /// Whether it is made, but for the layers of a short one.
    pub(crate) fn is_whole(&self) -> bool
        ensures { IsTrue result ↔ (work_left self.now ≡ 0) }
    {
        match &self.end {
            Some(end) => end.is_whole(),
            None => self.left == 0 && self.is_short(),
        }
    }

    /// Adds the next `PART_NUMBERS` features of the moment, or those that are left if they are fewer.
    fn add_features(
        &mut self,
        cutter: &mut Cutter,
        features: &NumberMap<StoredFeature>,
        moment: &Moment,
    ) -> Result<(), AllocError>
        requires some { 0 < self.old.left }
        requires gathered { self.old.end ≡ None }
        requires making { IsInMaking moment.now.features self.old }
        requires there { moment.now.lost ≡ false }
        requires as_of { IsAsOf moment.now (entries_data features.now.entries) }
        ensures making { OnOk result (IsInMaking moment.now.features self.new) }
        ensures at { self.new.at ≡ self.old.at }
        ensures work { OnOk result (work_left self.new < work_left self.old) }
    {
        let start = self.numbers.len() - self.left;
        let count = PART_NUMBERS.min(self.left);
        let part = &self.numbers[start..start + count];
        add_numbers(
            self.alloc,
            cutter,
            &mut self.gathered,
            features,
            moment,
            part,
            self.at,
        )?;
        self.left -= count;
        Ok(())
    }

    /// Begins to write the layers of a long tile whose features are all added.
    fn begin_end(&mut self)
        requires none { self.old.left ≡ 0 }
        requires gathered { self.old.end ≡ None }
        ensures making { (m : FeatureMap) → IsMap m → IsInMaking m self.old → IsInMaking m self.new }
        ensures at { self.new.at ≡ self.old.at }
        ensures work { work_left self.new < END_WORK }
    {
        let gathered = mem::replace(&mut self.gathered, BTreeMap::new(self.alloc));
        self.end = Some(TileEnd::of(self.alloc, gathered));
    }

    /// Adds the next features of the moment, or a part of the layers once all are added. `features` are those of the map now. The only error is out
    /// of memory; the tile is of no use then.
    pub(crate) fn add_part(
        &mut self,
        cutter: &mut Cutter,
        features: &NumberMap<StoredFeature>,
        moment: &Moment,
    ) -> Result<(), AllocError>
        requires making { IsInMaking moment.now.features self.old }
        requires there { moment.now.lost ≡ false }
        requires as_of { IsAsOf moment.now (entries_data features.now.entries) }
        ensures making { OnOk result (IsInMaking moment.now.features self.new) }
        ensures at { self.new.at ≡ self.old.at }
        ensures work { OnOk result (work_left self.new ≤ work_left self.old - 1) }
    {
        if let Some(end) = &mut self.end {
            return end.add_part();
        }
        if self.left > 0 {
            return self.add_features(cutter, features, moment);
        }
        if self.is_short() {
            return Ok(());
        }
        self.begin_end();
        Ok(())
    }

    /// The bytes of a tile that is made, or `None` if it shows nothing. The only error is out of memory.
    pub(crate) fn written(self) -> Result<Option<Vec<u8>>, AllocError>
        requires { work_left self ≡ 0 }
        ensures { IfOk result (λ o. (m : FeatureMap) → IsMap m → IsInMaking m self
            → option_map (λ v. v.items) o ≡ tile_bytes (layers m self.at.z self.at.x self.at.y)) }
    {
        let TileParts {
            at: _,
            numbers: _,
            left: _,
            gathered,
            end,
            alloc,
        } = self;
        match end {
            Some(end) => Ok(end.written()),
            None => written(alloc, gathered),
        }
    }
}

/// The bytes of a tile of a moment, or `None` if it shows nothing, by the numbers of the features of which it shows something, and maybe
/// of others.
pub(crate) fn tile_of_numbers(
    alloc: Global,
    cutter: &mut Cutter,
    features: &NumberMap<StoredFeature>,
    moment: &Moment,
    numbers: Vec<u64>,
    at: TileAt,
) -> Result<Option<Vec<u8>>, AllocError>
    requires zoom { at.z ≤ MAX_ZOOM }
    requires there { moment.now.lost ≡ false }
    requires as_of { IsAsOf moment.now (entries_data features.now.entries) }
    requires shown { ShowsAll moment.now.features at.z at.x at.y numbers.items }
    ensures { IfOk result (λ o. option_map (λ v. v.items) o ≡ tile_bytes (layers moment.now.features at.z at.x at.y)) }
{
    let mut parts = TileParts::of(alloc, at, numbers);
    while !parts.is_whole() {
        parts.add_part(cutter, features, moment)?;
    }
    parts.written()
}
