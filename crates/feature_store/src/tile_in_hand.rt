//! A tile of the map as it is now, in the making by parts.
ghost use Rattle.std.specs.Prelude.{◌≡◌, ◌≤◌, ◌<◌, ◌-◌, ◌↔◌, IsTrue, IfOk, option_map};
ghost use Rattle.feature_model.specs.declared.limits.TheConstants.{MAX_ZOOM};
ghost use Rattle.feature_store.specs.Content.{IsTileContent};
ghost use Rattle.feature_store.specs.Indexed.{ShowsAll};
ghost use Rattle.feature_store.specs.Inside.{entries_data};
ghost use Rattle.feature_store.specs.Layers.{layers};
ghost use Rattle.feature_store.specs.Store.{IsMap};
ghost use Rattle.feature_store.specs.Tiles.{tile_bytes};

use crate::cutter::Cutter;
use crate::listing::Listing;
use crate::moment::Moment;
use crate::stage::Stage;
use crate::store::Store;
use crate::tile_parts::TileParts;
use edit_text::StoredFeature;
use feature_model::MAX_ZOOM;
use hilbert_id::TileAt;
use number_map::NumberMap;
use std::alloc::{AllocError, Global};
use std::marker::Model;
use std::snapshot::Snapshot;

/// A tile of a map in the making by parts. It is of use until the map is edited.
#[derive(Drop)]
pub struct TileInHand {
    /// The features of the map, which only clauses read.
    features: Snapshot<NumberMap<StoredFeature>>,
    stage: Stage,
    cutter: Cutter,
}

impl Model for TileInHand {
    ghost use Rattle.feature_store.specs.Hand.{HandView};

    ghost Value = { HandView };

    ghost use Rattle.feature_store.specs.HandInside.{hand_view, IsHand};

    ghost view = { hand_view };

    ghost invariant = { IsHand };
}

impl TileInHand {
    ghost use Rattle.feature_store.specs.Parts.{NONE_IN_HAND};

    /// A tile of the map of which no feature is added, by the numbers of the features of which it shows something, and maybe of others.
    pub(crate) fn of(
        alloc: Global,
        features: &NumberMap<StoredFeature>,
        at: TileAt,
        numbers: Vec<u64>,
    ) -> TileInHand
        requires zoom { at.z ≤ MAX_ZOOM }
        requires is_map { IsMap (entries_data features.now.entries) }
        requires shown { ShowsAll (entries_data features.now.entries) at.z at.x at.y numbers.items }
        ensures map { result.features ≡ entries_data features.now.entries }
        ensures at { result.at ≡ at }
    {
        TileInHand {
            features: Snapshot::of(features),
            stage: Stage::Parts(TileParts::of(alloc, at, numbers)),
            cutter: Cutter::new(alloc),
        }
    }

    /// A tile of the map whose first parts list the numbers of all features. The only error is out of memory.
    pub(crate) fn listing(
        alloc: Global,
        features: &NumberMap<StoredFeature>,
        at: TileAt,
    ) -> Result<TileInHand, AllocError>
        requires zoom { at.z ≤ MAX_ZOOM }
        requires is_map { IsMap (entries_data features.now.entries) }
        ensures map { IfOk result (λ hand. hand.features ≡ entries_data features.now.entries) }
        ensures at { IfOk result (λ hand. hand.at ≡ at) }
    {
        Ok(TileInHand {
            features: Snapshot::of(features),
            stage: Stage::Lists(Listing::of(alloc, at, features.len())?),
            cutter: Cutter::new(alloc),
        })
    }

    /// Which tile it is.
    pub fn at(&self) -> TileAt
        ensures { result ≡ self.now.at }
    {
        self.stage.at()
    }

    /// Whether its next part lists numbers of the map, and adds no feature.
    pub fn is_listing(&self) -> bool
        ensures { IsTrue result ↔ (NONE_IN_HAND < self.now.left) }
    {
        self.stage.is_listing()
    }

    /// Whether no part of it is left to make.
    pub fn is_whole(&self) -> bool
        ensures { IsTrue result ↔ (self.now.left ≡ 0) }
    {
        self.stage.is_whole()
    }
}

impl Store {
    /// Makes the next part of a tile: it adds `PART_NUMBERS` features, or those that are left if they are fewer. Once all are added, and if they are
    /// more than 1,024, it writes a part of the layers. The first parts of a wide tile list `LIST_NUMBERS` numbers of the map each. The only error is
    /// out of memory.
    pub fn add_part(&self, hand: TileInHand) -> Result<TileInHand, AllocError>
        requires { hand.features ≡ self.now.features }
        ensures map { IfOk result (λ next. next.features ≡ hand.features) }
        ensures at { IfOk result (λ next. next.at ≡ hand.at) }
        ensures left { IfOk result (λ next. next.left ≤ hand.left - 1) }
    {
        let TileInHand {
            features,
            stage,
            mut cutter,
        } = hand;
        let stage = stage.make_next(&mut cutter, self.features(), &self.moment())?;
        Ok(TileInHand {
            features,
            stage,
            cutter,
        })
    }

    /// The bytes of a tile of which no part is left to make, as `tile` gives them. The only error is out of memory.
    pub fn finish_tile(&self, hand: TileInHand) -> Result<Option<Vec<u8>>, AllocError>
        requires map { hand.features ≡ self.now.features }
        requires whole { hand.left ≡ 0 }
        ensures bytes { IfOk result (λ o. option_map (λ v. v.items) o ≡ tile_bytes (layers self.now.features hand.at.z hand.at.x hand.at.y)) }
        ensures content { IfOk result (λ o. IsTileContent (layers self.now.features hand.at.z hand.at.x hand.at.y) (option_map (λ v. v.items) o)) }
    {
        let TileInHand {
            features: _,
            stage,
            cutter: _,
        } = hand;
        match stage {
            Stage::Parts(parts) => parts.written(),
            Stage::Lists(_) => unreachable!(),
        }
    }
}
