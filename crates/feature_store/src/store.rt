//! The map: features by number, and an index of their boxes.

ghost use Rattle.std.specs.Prelude.{◌≡◌, ◌⊎◌, ℕ, [], ◌+◌, ◌<◌, ◌≤◌, ◌≢◌, ◌↔◌, length, map, Some, IsSome, IfSome, None, true, false, IfOk, IfErr};
ghost use Rattle.std.specs.Prelude.{All, OnOk, OnErr, option_map};
ghost use Rattle.feature_model.specs.Data.{change_data};
ghost use Rattle.feature_model.specs.Limits.{IsAllowed, IsAllowedChange};
ghost use Rattle.edit_text.specs.Views.{feature_view};
ghost use Rattle.number_map.specs.Blocks.{Ascends, joined};
ghost use Rattle.tile_cutter.specs.WorldBox.{bounding_box};
ghost use Rattle.feature_store.specs.Content.{IsTileContent};
ghost use Rattle.feature_store.specs.Digests.{map_digest};
ghost use Rattle.feature_store.specs.InBox.{IsInBox};
ghost use Rattle.feature_store.specs.Indexed.{ShowsAll};
ghost use Rattle.feature_store.specs.Inside.{IsOwn, stored_data, entries_data};
ghost use Rattle.feature_store.specs.Layers.{layers};
ghost use Rattle.feature_store.specs.Moments.{IsAsOf};
ghost use Rattle.feature_store.specs.Prepared.{prepared_data};
ghost use Rattle.feature_store.specs.Snapshots.{IsNoSnapshot};
ghost use Rattle.feature_store.specs.Tiles.{tile_bytes};
ghost use Rattle.feature_store.specs.declared.fault.SnapshotFault.TheVariants.{Bad, Memory};
ghost use Rattle.feature_store.specs.Store.{IsMap, HasRoom, feature_at, box_at, feature_from, greatest_id, with_feature, without_feature, snapshot, puts_in};

use crate::all_tiles::Tiles;
use crate::cutter::Cutter;
use crate::digests::{digest_with, digest_without, entry_hash};
use crate::fault::SnapshotFault;
use crate::feature_boxes::FeatureBoxes;
use crate::in_box::{BOX_ENTRIES, InBox, look_at_each};
use crate::indexed::{index_entry, is_wide, numbers_near};
use crate::late_index::{index_of, set_box, take_box};
use crate::limit::TEXTS_END;
use crate::moment::Moment;
use crate::placed::PlacedBoxes;
use crate::prepared::{Prepared, count_puts, prepare_each};
use crate::snapshot_texts::{append_block_texts, read_map};
use crate::tile_in_hand::TileInHand;
use crate::tile_parts::tile_of_numbers;
use box_index::BoxIndex;
use edit_text::{FeatureText, StoredFeature};
use feature_model::{Change, MAX_ZOOM, WorldBox};
use hilbert_id::TileAt;
use number_map::{Block, NumberMap};
use std::alloc::{AllocError, Global};
use std::marker::Model;

/// A map from numbers to features that keep the limits of a feature. Each is kept as its text, as the journal and a snapshot
/// have it. The texts of all of them are fewer than `TEXTS_END` bytes together.
///
/// An index has the bounding box and the zooms of each feature, so that a tile looks at those near it alone. The map of a snapshot has
/// none until `index` builds it at once, which takes less time than an entry for each feature in turn.
#[derive(Drop)]
pub struct Store {
    features: NumberMap<StoredFeature>,
    index: Option<BoxIndex>,
    /// The sum of the hashes of all texts.
    digest: u64,
    alloc: Global,
}

impl Model for Store {
    ghost use Rattle.feature_store.specs.Store.{StoreView};

    ghost Value = { StoreView };

    ghost use Rattle.feature_store.specs.Inside.{store_view, IsStore};

    ghost view = { store_view };

    ghost invariant = { IsStore };
}

impl Store {
    /// The empty map.
    pub fn new(alloc: Global) -> Store
        ensures { result.features ≡ [] }
    {
        Store {
            features: NumberMap::new(alloc),
            index: Some(BoxIndex::new(alloc)),
            digest: 0,
            alloc,
        }
    }

    /// The empty map, without an index.
    pub(crate) fn without_index(alloc: Global) -> Store
        ensures { result.features ≡ [] }
    {
        Store {
            features: NumberMap::new(alloc),
            index: None,
            digest: 0,
            alloc,
        }
    }

    /// Builds the index of all features, if there is none. Room that was made before may be gone. The only error is out of memory.
    pub fn index(&mut self) -> Result<(), AllocError>
        ensures map { self.new.features ≡ self.old.features }
        ensures unchanged { OnErr result (self.new ≡ self.old) }
    {
        if self.index.is_none() {
            let index = index_of(self.alloc, self.features.len(), self.features.blocks())?;
            self.index = Some(index);
        }
        Ok(())
    }

    /// How many features there are. The text of each has at most `MAX_EDIT_BYTES`.
    pub fn len(&self) -> usize
        ensures count { result ≡ length self.now.features }
        ensures map { IsMap self.now.features }
    {
        self.features.len()
    }

    /// The digest of the map: the sum of the hashes of its texts, in 64 bits. It is kept, and no text is read.
    pub fn digest(&self) -> u64
        ensures { result ≡ map_digest self.now.features }
    {
        self.digest
    }

    /// The feature with this number, by two binary searches.
    pub fn get(&self, id: u64) -> Option<FeatureText<'_>>
        ensures found { option_map feature_view result ≡ feature_at self.now.features id }
        ensures allowed { IfSome result (λ f. IsAllowed id (feature_view f)) }
    {
        match self.features.get(id) {
            Some(stored) => Some(stored.view()),
            None => None,
        }
    }

    /// The first feature with this number or a greater one, and its number, by the searches of `get`.
    pub fn first_from(&self, id: u64) -> Option<(u64, FeatureText<'_>)>
        ensures found { option_map (λ e. (e.0, feature_view e.1)) result ≡ feature_from self.now.features id }
        ensures allowed { IfSome result (λ e. IsAllowed e.0 (feature_view e.1)) }
    {
        match self.features.first_from(id) {
            Some(entry) => Some((entry.0, entry.1.view())),
            None => None,
        }
    }

    /// The numbers of the features from a number on whose bounding box meets this one. The index finds all of them; but if more than
    /// 16,384 features may be in the box, each of the next `BOX_LOOKS` features is looked at instead. The only error is out of memory.
    pub fn in_box(&self, bounds: &WorldBox, id: u64) -> Result<InBox, AllocError>
        ensures { IfOk result (IsInBox self.now.features bounds.now id) }
    {
        if let Some(index) = &self.index {
            if let Some(numbers) = index.query_box(self.alloc, bounds, id, BOX_ENTRIES)? {
                let next = None;
                return Ok(InBox { numbers, next });
            }
        }
        look_at_each(self.alloc, self, bounds, id)
    }

    /// The greatest number of a feature, or `None` if the map is empty.
    pub fn greatest(&self) -> Option<u64>
        ensures { result ≡ greatest_id self.now.features }
    {
        self.features.last_number()
    }

    /// The features by ascending number, in blocks.
    pub fn blocks(&self) -> &[Block<StoredFeature>]
        ensures { entries_data (joined result.now) ≡ self.now.features }
    {
        self.features.blocks()
    }

    /// Makes room for one feature of any number, so that the next `place` allocates nothing.
    pub fn room(&mut self) -> Result<(), AllocError>
        ensures map { self.new.features ≡ self.old.features }
        ensures room { OnOk result (HasRoom self.new) }
        ensures kept { self.old.spare ≤ self.new.spare }
        // It fails only where room was missing, and nothing changes then.
        ensures missing { OnErr result (¬ HasRoom self.old) }
        ensures unchanged { OnErr result (self.new ≡ self.old) }
    {
        self.features.room()?;
        match &mut self.index {
            Some(index) => index.room(),
            None => Ok(()),
        }
    }

    /// Makes room for each feature that the changes set, so that they can be made without memory, one after the other. It fails only if
    /// there is room for fewer.
    pub fn room_for(&mut self, changes: &[Prepared]) -> Result<(), AllocError>
        ensures map { self.new.features ≡ self.old.features }
        ensures room { OnOk result (puts_in (map prepared_data changes.now) ≤ self.new.spare) }
        ensures kept { self.old.spare ≤ self.new.spare }
        ensures missing { OnErr result (self.new.spare < puts_in (map prepared_data changes.now)) }
    {
        let count = count_puts(changes);
        self.features.room_for(count)?;
        match &mut self.index {
            Some(index) => index.room_for(count),
            None => Ok(()),
        }
    }

    /// The changes as the map keeps them, with room for each feature that they set, so that they can be made without memory, one after
    /// the other. The only error is out of memory.
    pub fn prepare(&mut self, changes: &[Change]) -> Result<Vec<Prepared>, AllocError>
        requires { All IsAllowedChange (map change_data changes.now) }
        ensures map { self.new.features ≡ self.old.features }
        ensures prepared { IfOk result (λ v. map prepared_data v.items ≡ map change_data changes.now) }
        ensures room { OnOk result (puts_in (map change_data changes.now) ≤ self.new.spare) }
        ensures kept { self.old.spare ≤ self.new.spare }
    {
        let prepared = prepare_each(self.alloc, changes)?;
        self.room_for(&prepared)?;
        Ok(prepared)
    }

    /// Gives the number its feature, and returns the bounding boxes of it and of the feature that it had, and that feature.
    fn set(&mut self, stored: StoredFeature) -> (PlacedBoxes, Option<StoredFeature>)
        requires room { HasRoom self.old }
        requires texts { length (snapshot (with_feature self.old.features stored.0 stored.1)) < TEXTS_END }
        ensures before { result.0.before ≡ box_at self.old.features stored.0 }
        ensures after { result.0.after ≡ bounding_box stored.1.geometry }
        ensures replaced { option_map stored_data result.1 ≡ feature_at self.old.features stored.0 }
        ensures own { IfSome result.1 (λ s. s.0 ≡ stored.0) }
        ensures map { self.new.features ≡ with_feature self.old.features stored.0 stored.1 }
        ensures spare { self.old.spare ≤ self.new.spare + 1 }
        ensures here { feature_at self.new.features stored.0 ≡ Some stored.1 }
        ensures others { (n : ℕ) → n ≢ stored.0 → feature_at self.new.features n ≡ feature_at self.old.features n }
    {
        let id = stored.id();
        let entry = index_entry(id, stored.view());
        let after = entry.span.bounds;
        let hash = entry_hash(&stored);
        let replaced = self.features.insert(id, stored);
        let old = replaced.as_ref();
        self.digest = digest_with(self.digest, hash, old);
        let before = set_box(&mut self.index, entry, old);
        (PlacedBoxes { before, after }, replaced)
    }

    /// Gives the number its feature, whatever feature it had, and returns the bounding boxes of both. It allocates nothing.
    pub fn place(&mut self, stored: StoredFeature) -> PlacedBoxes
        requires room { HasRoom self.old }
        requires texts { length (snapshot (with_feature self.old.features stored.0 stored.1)) < TEXTS_END }
        ensures before { result.before ≡ box_at self.old.features stored.0 }
        ensures after { result.after ≡ bounding_box stored.1.geometry }
        ensures map { self.new.features ≡ with_feature self.old.features stored.0 stored.1 }
        ensures spare { self.old.spare ≤ self.new.spare + 1 }
        ensures here { feature_at self.new.features stored.0 ≡ Some stored.1 }
        ensures others { (n : ℕ) → n ≢ stored.0 → feature_at self.new.features n ≡ feature_at self.old.features n }
    {
        let (boxes, _replaced) = self.set(stored);
        boxes
    }

    /// The same in a map whose state at a moment is still asked for.
    pub fn place_after(&mut self, stored: StoredFeature, moment: &mut Moment) -> PlacedBoxes
        requires room { HasRoom self.old }
        requires texts { length (snapshot (with_feature self.old.features stored.0 stored.1)) < TEXTS_END }
        ensures before { result.before ≡ box_at self.old.features stored.0 }
        ensures after { result.after ≡ bounding_box stored.1.geometry }
        ensures map { self.new.features ≡ with_feature self.old.features stored.0 stored.1 }
        ensures spare { self.old.spare ≤ self.new.spare + 1 }
        // The moment's map is the same, and is found by what the edit keeps.
        ensures features { moment.new.features ≡ moment.old.features }
        ensures lost { moment.old.lost ≡ true → moment.new.lost ≡ true }
        ensures memory { moment.old.lost ≡ false → 0 < moment.old.spare → moment.new.lost ≡ false }
        ensures spare_there { moment.old.spare ≤ moment.new.spare + 1 }
        ensures as_of { IsAsOf moment.old self.old.features → IsAsOf moment.new self.new.features }
    {
        let id = stored.id();
        let (boxes, replaced) = self.set(stored);
        moment.keep(id, replaced);
        boxes
    }

    /// Takes the number's feature away, and returns the feature's bounding box, and the feature.
    fn take(&mut self, id: u64) -> (Option<WorldBox>, Option<StoredFeature>)
        ensures found { IsSome result.0 ↔ IsSome (feature_at self.old.features id) }
        ensures bounds { result.0 ≡ box_at self.old.features id }
        ensures removed { option_map stored_data result.1 ≡ feature_at self.old.features id }
        ensures own { IfSome result.1 (λ s. s.0 ≡ id) }
        ensures map { self.new.features ≡ without_feature self.old.features id }
        ensures spare { self.old.spare ≤ self.new.spare }
        ensures gone { feature_at self.new.features id ≡ None }
        ensures others { (n : ℕ) → n ≢ id → feature_at self.new.features n ≡ feature_at self.old.features n }
    {
        let removed = self.features.remove(id);
        let old = removed.as_ref();
        self.digest = digest_without(self.digest, old);
        let bounds = take_box(&mut self.index, id, old);
        (bounds, removed)
    }

    /// Takes the number's feature away, and returns the feature's bounding box, or `None` if it had none. It allocates nothing, and
    /// room stays.
    pub fn remove(&mut self, id: u64) -> Option<WorldBox>
        ensures found { IsSome result ↔ IsSome (feature_at self.old.features id) }
        ensures bounds { result ≡ box_at self.old.features id }
        ensures map { self.new.features ≡ without_feature self.old.features id }
        ensures spare { self.old.spare ≤ self.new.spare }
        ensures gone { feature_at self.new.features id ≡ None }
        ensures others { (n : ℕ) → n ≢ id → feature_at self.new.features n ≡ feature_at self.old.features n }
    {
        let (bounds, _removed) = self.take(id);
        bounds
    }

    /// The same in a map whose state at a moment is still asked for.
    pub fn remove_after(&mut self, id: u64, moment: &mut Moment) -> Option<WorldBox>
        ensures found { IsSome result ↔ IsSome (feature_at self.old.features id) }
        ensures bounds { result ≡ box_at self.old.features id }
        ensures map { self.new.features ≡ without_feature self.old.features id }
        ensures spare { self.old.spare ≤ self.new.spare }
        // The moment's map is the same, and is found by what the edit keeps.
        ensures features { moment.new.features ≡ moment.old.features }
        ensures lost { moment.old.lost ≡ true → moment.new.lost ≡ true }
        ensures memory { moment.old.lost ≡ false → 0 < moment.old.spare → moment.new.lost ≡ false }
        ensures spare_there { moment.old.spare ≤ moment.new.spare + 1 }
        ensures as_of { IsAsOf moment.old self.old.features → IsAsOf moment.new self.new.features }
    {
        let (bounds, removed) = self.take(id);
        moment.keep(id, removed);
        bounds
    }

    /// The numbers of the features whose bounding box meets the box of a tile, and that have its zoom. Without an index it looks at each
    /// feature. The only error is out of memory.
    fn numbers_near(&self, at: TileAt) -> Result<Vec<u64>, AllocError>
        requires { at.z ≤ MAX_ZOOM }
        ensures { IfOk result (λ numbers. ShowsAll self.now.features at.z at.x at.y numbers.items) }
    {
        match &self.index {
            Some(index) => numbers_near(self.alloc, index, at),
            None => FeatureBoxes::of(self.alloc, &self.features)?.numbers_near(self.alloc, at),
        }
    }

    /// The bytes of a tile (Mapbox Vector Tile 2.1), or `None` if it shows nothing. The names of its layers ascend byte by byte, and
    /// the features of a layer by number, each with its number as id (4.1 and 4.2). A layer of which the tile shows nothing is left
    /// out; above the greatest zoom there is none.
    ///
    /// It looks at the features whose bounding box meets the tile's. The only error is out of memory.
    pub fn tile(&self, at: TileAt) -> Result<Option<Vec<u8>>, AllocError>
        ensures bytes { IfOk result (λ o. option_map (λ v. v.items) o ≡ tile_bytes (layers self.now.features at.z at.x at.y)) }
        ensures content { IfOk result (λ o. IsTileContent (layers self.now.features at.z at.x at.y) (option_map (λ v. v.items) o)) }
    {
        if at.z > MAX_ZOOM {
            return Ok(None);
        }
        let numbers = self.numbers_near(at)?;
        let mut cutter = Cutter::new(self.alloc);
        let now = Moment::of(self.alloc, &self.features);
        tile_of_numbers(self.alloc, &mut cutter, &self.features, &now, numbers, at)
    }

    /// Whether the index shows that a tile is wide.
    fn is_wide(&self, at: TileAt) -> bool
        requires { at.z ≤ MAX_ZOOM }
    {
        match &self.index {
            Some(index) => is_wide(index, at, self.features.len()),
            None => false,
        }
    }

    /// A tile of the map as it is now, of which no feature is added. The features near it are looked up, in one call; but if they are more than 4,096
    /// and most of the map, the numbers of the map are listed by the tile's first parts instead. The only error is out of memory.
    pub fn begin_tile(&self, at: TileAt) -> Result<TileInHand, AllocError>
        requires { at.z ≤ MAX_ZOOM }
        ensures map { IfOk result (λ hand. hand.features ≡ self.now.features) }
        ensures at { IfOk result (λ hand. hand.at ≡ at) }
    {
        if self.is_wide(at) {
            return TileInHand::listing(self.alloc, &self.features, at);
        }
        let numbers = self.numbers_near(at)?;
        Ok(TileInHand::of(self.alloc, &self.features, at, numbers))
    }

    /// The map as of now, while it is edited by `place_after` and `remove_after`. It allocates nothing, and takes no time that grows with the map.
    pub fn moment(&self) -> Moment
        ensures features { result.features ≡ self.now.features }
        ensures there { result.lost ≡ false }
        ensures as_of { IsAsOf result self.now.features }
    {
        Moment::of(self.alloc, &self.features)
    }

    /// The features by number.
    pub(crate) fn features(&self) -> &NumberMap<StoredFeature>
        ensures map { entries_data result.now.entries ≡ self.now.features }
        ensures ascending { Ascends result.now.entries }
        ensures own { All IsOwn result.now.entries }
    {
        &self.features
    }

    /// The tiles that show something of the map as it is now, in ascending order of their ids, each with its bytes (Mapbox Vector Tile 2.1)
    /// and made when it is asked for, without a list of them. The map may be edited meanwhile. The only error is out of memory.
    pub fn tiles(&self) -> Result<Tiles, AllocError>
        ensures is_map { IsMap self.now.features }
        ensures map { IfOk result (λ tiles. tiles.features ≡ self.now.features) }
        ensures start { IfOk result (λ tiles. tiles.from ≡ 0) }
    {
        Tiles::of(self.alloc, &self.features)
    }

    /// The snapshot of the map: the texts that give each number its feature, in ascending number. The only error is out of memory.
    pub fn snapshot_text(&self) -> Result<Vec<u8>, AllocError>
        ensures { IfOk result (λ text. text.items ≡ snapshot self.now.features) }
    {
        let mut text = Vec::new(self.alloc);
        append_block_texts(&mut text, self.features.blocks())?;
        Ok(text)
    }

    /// The map of a snapshot, in one pass over its fewer than `TEXTS_END` bytes. It has no index: `index` builds it, best when other edits
    /// of an opening are made.
    ///
    /// # Errors
    ///
    /// `Bad` where no map has this snapshot, and `Memory`.
    pub fn from_snapshot(alloc: Global, text: &[u8]) -> Result<Store, SnapshotFault>
        requires { length text.now < TEXTS_END }
        ensures map { IfOk result (λ store. IsMap store.features) }
        ensures text { IfOk result (λ store. snapshot store.features ≡ text.now) }
        ensures fault { IfErr result (λ fault. (fault ≡ Memory) ⊎ ((fault ≡ Bad) × IsNoSnapshot text.now)) }
    {
        read_map(alloc, text)
    }
}
