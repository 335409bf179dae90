//! All tiles of a map, one after the other.
ghost use Rattle.std.specs.Prelude.{◌≡◌, ◌≤◌, ◌+◌, ℕ, List, Ok, false, IfOk};
ghost use Rattle.feature_store.specs.Inside.{entries_data};
ghost use Rattle.feature_store.specs.Moments.{IsAsOf};
ghost use Rattle.feature_store.specs.Store.{IsMap};
ghost use Rattle.feature_store.specs.Tiles.{GoesOn, IfTile, IsNextTile, IsTile, ShowsNothing, ShowsNothingFrom};

use crate::cutter::Cutter;
use crate::feature_boxes::FeatureBoxes;
use crate::moment::Moment;
use crate::store::Store;
use crate::tile_parts::{TileParts, tile_of_numbers};
use crate::tiles_left::TilesLeft;
use edit_text::StoredFeature;
use hilbert_id::tile_of;
use number_map::NumberMap;
use std::alloc::{AllocError, Global};
use std::marker::Model;
use tile_walk::Step;

/// The id of a tile, and its bytes.
pub type Tile = (u64, Vec<u8>);

/// What a call of `Tiles::next` made.
#[derive(Drop)]
pub enum Making {
    /// A part of a tile, a tile that shows nothing, or a part of the search for the next one.
    Part,
    /// The last part of a tile that shows something: this tile.
    Whole(Tile),
    /// Nothing, since no tile is left.
    Over,
}

/// The id of a tile in the making, and what is made of it.
type InHand = (u64, TileParts);

/// What there is to make next.
#[derive(Drop)]
pub(crate) enum Begun {
    /// A tile.
    Hand(InHand),
    /// A tile that isn't found yet.
    Part,
    /// Nothing, since no tile is left.
    Over,
}

/// The tiles that show something of a map, in ascending order of their ids, each made by parts when it is asked for.
///
/// The map may be edited meanwhile: they are those of the moment that each call is given.
#[derive(Drop)]
pub struct Tiles {
    map: FeatureBoxes,
    /// The tiles that aren't begun.
    left: TilesLeft,
    /// None of them has a lesser id.
    from: u64,
    /// The tile before them, if it is begun.
    hand: Option<InHand>,
    cutter: Cutter,
    alloc: Global,
}

impl Model for Tiles {
    ghost use Rattle.feature_store.specs.Tiles.{TilesView};

    ghost Value = { TilesView };

    ghost use Rattle.feature_store.specs.Walk.{tiles_view, IsWalk};

    ghost view = { tiles_view };

    ghost invariant = { IsWalk };
}

impl Tiles {
    ghost use Rattle.feature_store.specs.Parts.{IsBegun, IfHand, IsNearer, IsNoneInHand, work_left};
    ghost use Rattle.feature_store.specs.declared.all_tiles.Begun.TheVariants as begun;
    ghost use Rattle.feature_store.specs.declared.all_tiles.Making.TheVariants.{Part, Over};

    /// The tiles of a map. The only error is out of memory.
    pub(crate) fn of(
        alloc: Global,
        features: &NumberMap<StoredFeature>,
    ) -> Result<Tiles, AllocError>
        requires { IsMap (entries_data features.now.entries) }
        ensures map { IfOk result (λ tiles. tiles.features ≡ entries_data features.now.entries) }
        ensures start { IfOk result (λ tiles. tiles.from ≡ 0) }
    {
        let map = FeatureBoxes::of(alloc, features)?;
        Ok(Tiles::of_boxes(alloc, map))
    }

    /// The tiles of a map whose boxes are these. It looks at no box.
    pub(crate) fn of_boxes(alloc: Global, map: FeatureBoxes) -> Tiles
        requires { IsMap map }
        ensures map { result.features ≡ map }
        ensures start { result.from ≡ 0 }
    {
        Tiles {
            map,
            left: TilesLeft::new(),
            from: 0,
            hand: None,
            cutter: Cutter::new(alloc),
            alloc,
        }
    }

    /// Takes the tile in hand, or else looks for the next one that may show something. The only error is out of memory.
    fn take_in_hand(&mut self) -> Result<Begun, AllocError>
        ensures map { self.new.features ≡ self.old.features }
        ensures tile { IfOk result (IfHand (IsBegun self.old.features self.old.from)) }
        ensures from { IfOk result (IfHand (λ hand. self.new.from ≡ hand.0 + 1)) }
        ensures left { IfOk result (IfHand (λ hand. self.new.ahead + work_left hand.1 ≤ self.old.ahead)) }
        ensures after { IfOk result (IfHand (λ hand. IsNoneInHand self.new.ahead)) }
        ensures ahead { IfOk result (IsNearer self.old.ahead self.new.ahead) }
        ensures part { result ≡ Ok begun.Part → self.new.from ≡ self.old.from }
        ensures over { result ≡ Ok begun.Over → ShowsNothingFrom self.old.features self.old.from }
    {
        if let Some(hand) = self.hand.take() {
            return Ok(Begun::Hand(hand));
        }
        match self.left.step(self.alloc, &self.map)? {
            Step::Part => Ok(Begun::Part),
            Step::Over => Ok(Begun::Over),
            Step::Tile((id, numbers)) => {
                self.from = id + 1;
                let at = tile_of(id).unwrap();
                Ok(Begun::Hand((id, TileParts::of(self.alloc, at, numbers))))
            }
        }
    }

    /// Makes a part of the next tile that shows something of the moment. `store` is the map as it is now. The only error is out of memory; the
    /// walk is of no use then.
    pub fn next(&mut self, store: &Store, moment: &Moment) -> Result<Making, AllocError>
        requires same { moment.now.features ≡ self.old.features }
        requires there { moment.now.lost ≡ false }
        requires as_of { IsAsOf moment.now store.now.features }
        ensures map { self.new.features ≡ self.old.features }
        ensures part { result ≡ Ok Part → (self.old.from ≤ self.new.from) × ShowsNothing self.old.features self.old.from self.new.from }
        ensures tile { IfOk result (IfTile (λ t. IsNextTile self.old.features self.old.from t × (self.new.from ≡ t.0 + 1))) }
        ensures over { result ≡ Ok Over → ShowsNothingFrom self.old.features self.old.from }
        // So calls until `Over` end.
        ensures ahead { IfOk result (GoesOn self.old self.new) }
    {
        let (id, mut parts) = match self.take_in_hand()? {
            Begun::Hand(hand) => hand,
            Begun::Part => return Ok(Making::Part),
            Begun::Over => return Ok(Making::Over),
        };
        parts.add_part(&mut self.cutter, store.features(), moment)?;
        if !parts.is_whole() {
            self.hand = Some((id, parts));
            return Ok(Making::Part);
        }
        match parts.written()? {
            Some(bytes) => Ok(Making::Whole((id, bytes))),
            None => Ok(Making::Part),
        }
    }

    /// The bytes of a tile of the moment, which shows something, once more, by its id. `store` is the map as it is now. It looks at the box of
    /// each feature. The only error is out of memory.
    pub fn again(&mut self, store: &Store, moment: &Moment, id: u64) -> Result<Vec<u8>, AllocError>
        requires same { moment.now.features ≡ self.old.features }
        requires there { moment.now.lost ≡ false }
        requires as_of { IsAsOf moment.now store.now.features }
        requires shown { (bytes : List ℕ) × IsTile self.old.features (id, bytes) }
        ensures tile { IfOk result (λ bytes. IsTile self.old.features (id, bytes.items)) }
        ensures unchanged { self.new ≡ self.old }
    {
        let at = tile_of(id).unwrap();
        let numbers = self.map.numbers_near(self.alloc, at)?;
        let bytes = tile_of_numbers(
            self.alloc,
            &mut self.cutter,
            store.features(),
            moment,
            numbers,
            at,
        )?;
        match bytes {
            Some(bytes) => Ok(bytes),
            None => unreachable!(),
        }
    }
}
