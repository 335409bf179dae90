//! How far a tile in the making is.

ghost use Rattle.std.specs.Prelude.{◌≡◌, ◌≤◌, ◌<◌, ◌-◌, ◌↔◌, false, IsTrue, IfOk};
ghost use Rattle.feature_store.specs.Inside.{entries_data};
ghost use Rattle.feature_store.specs.Moments.{IsAsOf};
ghost use Rattle.feature_store.specs.Parts.{IsInMaking, NONE_IN_HAND, work_left};
ghost use Rattle.feature_store.specs.Stages.{IsListed, IsStage, stage_at, stage_left};
ghost use Rattle.feature_store.specs.Store.{FeatureMap, IsMap};
ghost use Rattle.feature_store.specs.declared.stage.Stage.TheVariants.{Lists};

use crate::cutter::Cutter;
use crate::listing::Listing;
use crate::moment::Moment;
use crate::tile_parts::TileParts;
use edit_text::StoredFeature;
use hilbert_id::TileAt;
use number_map::NumberMap;
use std::alloc::AllocError;

/// A tile in the making: the numbers of its features are listed, or its features and then its layers are added.
#[derive(Drop)]
pub(crate) enum Stage {
    Lists(Listing),
    Parts(TileParts),
}

impl Stage {
    /// Which tile it is.
    pub(crate) fn at(&self) -> TileAt
        ensures { result ≡ stage_at self.now }
    {
        match self {
            Stage::Lists(listing) => listing.at,
            Stage::Parts(parts) => parts.at,
        }
    }

    /// Whether its numbers are being listed.
    pub(crate) fn is_listing(&self) -> bool
        ensures { (m : FeatureMap) → IsStage m self.now → IsTrue result ↔ (NONE_IN_HAND < stage_left m self.now) }
    {
        match self {
            Stage::Lists(_) => true,
            Stage::Parts(_) => false,
        }
    }

    /// Whether no part of it is left to make.
    pub(crate) fn is_whole(&self) -> bool
        ensures { (m : FeatureMap) → IsTrue result ↔ (stage_left m self.now ≡ 0) }
    {
        match self {
            Stage::Lists(_) => false,
            Stage::Parts(parts) => parts.is_whole(),
        }
    }

    /// Lists the next numbers of the map, or begins the tile's parts once none is left. The only error is out of memory.
    fn list_part(
        mut listing: Listing,
        features: &NumberMap<StoredFeature>,
    ) -> Result<Stage, AllocError>
        requires is_map { IsMap (entries_data features.now.entries) }
        requires listed { IsListed (entries_data features.now.entries) listing }
        ensures stage { IfOk result (IsStage (entries_data features.now.entries)) }
        ensures at { IfOk result (λ next. stage_at next ≡ listing.at) }
        ensures left { IfOk result (λ next. stage_left (entries_data features.now.entries) next
            ≤ stage_left (entries_data features.now.entries) (Lists listing) - 1) }
    {
        if listing.list_part(features)? {
            return Ok(Stage::Lists(listing));
        }
        Ok(Stage::Parts(listing.into_parts()))
    }

    /// Adds the next features, or a part of the layers once all are added. The only error is out of memory.
    fn add_part(
        mut parts: TileParts,
        cutter: &mut Cutter,
        features: &NumberMap<StoredFeature>,
        moment: &Moment,
    ) -> Result<Stage, AllocError>
        requires few { work_left parts < NONE_IN_HAND }
        requires making { IsInMaking moment.now.features parts }
        requires there { moment.now.lost ≡ false }
        requires as_of { IsAsOf moment.now (entries_data features.now.entries) }
        ensures stage { IfOk result (IsStage moment.now.features) }
        ensures at { IfOk result (λ next. stage_at next ≡ parts.at) }
        ensures left { IfOk result (λ next. stage_left moment.now.features next ≤ work_left parts - 1) }
    {
        parts.add_part(cutter, features, moment)?;
        Ok(Stage::Parts(parts))
    }

    /// The tile with its next part. `moment` is the map as it is, and `features` are its features. The only error is out of memory.
    pub(crate) fn make_next(
        self,
        cutter: &mut Cutter,
        features: &NumberMap<StoredFeature>,
        moment: &Moment,
    ) -> Result<Stage, AllocError>
        requires stage { IsStage moment.now.features self }
        requires now { entries_data features.now.entries ≡ moment.now.features }
        requires there { moment.now.lost ≡ false }
        requires as_of { IsAsOf moment.now (entries_data features.now.entries) }
        ensures stage { IfOk result (IsStage moment.now.features) }
        ensures at { IfOk result (λ next. stage_at next ≡ stage_at self) }
        ensures left { IfOk result (λ next. stage_left moment.now.features next ≤ stage_left moment.now.features self - 1) }
    {
        match self {
            Stage::Lists(listing) => Stage::list_part(listing, features),
            Stage::Parts(parts) => Stage::add_part(parts, cutter, features, moment),
        }
    }
}
