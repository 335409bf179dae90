//! A map with a cache of its tiles.

ghost use Rattle.std.specs.Prelude.{◌≡◌, ◌↔◌, ◌≢◌, ◌<◌, ◌≤◌, ◌+◌, ℕ, List, [], ◌∷◌, length, map, All, true, Some, None};
ghost use Rattle.std.specs.Prelude.{IsSome, IsTrue, IfOk, IfSome, IfNone, OnOk, OnErr, option_map};
ghost use Rattle.std.specs.Option.{is_some};
ghost use Rattle.std.specs.Rc.{rc_slice_items};
ghost use Rattle.feature_model.specs.Data.{put, delete, change_data};
ghost use Rattle.feature_model.specs.Limits.{IsAllowedChange};
ghost use Rattle.feature_model.specs.Spelled.{spelled_changes};
ghost use Rattle.feature_model.specs.Types.{IsChange};
ghost use Rattle.feature_model.specs.declared.limits.TheConstants.{MAX_ZOOM};
ghost use Rattle.feature_store.specs.Content.{IsTileContent};
ghost use Rattle.feature_store.specs.Layers.{layers};
ghost use Rattle.feature_store.specs.Moments.{IsMomentOf, moment_map};
ghost use Rattle.feature_store.specs.Prepared.{prepared_data};
ghost use Rattle.feature_store.specs.Store.{FeatureMap, feature_at, with_feature, without_feature, changed, edited, snapshot, puts_in};
ghost use Rattle.feature_store.specs.declared.limit.TheConstants.{TEXTS_END};
ghost use Rattle.tile_cache.specs.Cells.{stale_cells};
ghost use Rattle.tile_cache.specs.Kept.{kept_at, fresh, asked_for, KeepsSame};
ghost use Rattle.tile_cache.specs.Touched.{Mark, Remembers, StaysElsewhere, IsClear, IsNewest, IsNewestOf};
ghost use Rattle.tile_cache.specs.declared.cached_tiles.Origin.TheVariants.{Cut, Read};
ghost use Rattle.cached_map.specs.Cached.{with_box, marks_of, marks_after, WasMap, AreReadRight, KeepsOrNot, shared_bytes};

use feature_model::{Change, MAX_ZOOM, WorldBox};
use feature_store::{Moment, PART_NUMBERS, Prepared, Store, TileInHand};
use hilbert_id::TileAt;
use std::alloc::{AllocError, Global};
use std::marker::Model;
use std::mem;
use std::rc::RcSlice;
use tile_cache::{CachedTile, Origin, TileCache, WideGrid};

/// A map, the newest edit of each cell of the world, and a cache of tiles.
#[derive(Drop)]
pub struct CachedMap {
    store: Store,
    touched: WideGrid,
    kept: TileCache,
    last: u64,
    /// The tile in the making, of the map as it is.
    hand: Option<TileInHand>,
    /// How many times a tile was to be cached.
    keeps: u64,
}

impl Model for CachedMap {
    ghost use Rattle.cached_map.specs.Cached.{CachedView, IsCached};

    ghost Value = { CachedView };

    ghost view = { λ m. record { features = m.store.features; spare = m.store.spare; last = m.last; touched = m.touched; kept = m.kept } };

    ghost invariant = { λ m. IsCached m.store.features m.touched m.last m.kept m.hand };
}

/// Notes that an edit of this number touches a box, if there is one.
fn mark_some(touched: &mut WideGrid, bounds: Option<WorldBox>, number: u64)
    ensures remembers { (marks : List Mark) → Remembers touched.old marks → Remembers touched.new (with_box bounds number marks) }
    ensures stays { (marks : List Mark) (first : List ℕ) → StaysElsewhere marks first touched.old
        → StaysElsewhere (with_box bounds number marks) first touched.new }
{
    if let Some(bounds) = bounds {
        touched.mark(&bounds, number);
    }
}

/// Makes a change by an edit of this number, and marks what it touches. A moment that is still asked for keeps what it replaces.
fn make_one(
    store: &mut Store,
    touched: &mut WideGrid,
    moment: &mut Option<Moment>,
    change: Prepared,
    number: u64,
)
    requires room { puts_in (prepared_data change ∷ []) ≤ store.old.spare }
    requires texts { length (snapshot (changed store.old.features (prepared_data change))) < TEXTS_END }
    ensures map { store.new.features ≡ changed store.old.features (prepared_data change) }
    ensures spare { store.old.spare ≤ store.new.spare + puts_in (prepared_data change ∷ []) }
    ensures marks { (marks : List Mark) → Remembers touched.old marks
        → Remembers touched.new (marks_of store.old.features (prepared_data change) number marks) }
    ensures stays { (marks : List Mark) (first : List ℕ) → StaysElsewhere marks first touched.old
        → StaysElsewhere (marks_of store.old.features (prepared_data change) number marks) first touched.new }
    ensures moment { moment_map moment.new ≡ moment_map moment.old }
    ensures as_of { IsMomentOf moment.old store.old.features → IsMomentOf moment.new store.new.features }
{
    match change {
        Prepared::Put(stored) => {
            let boxes = store.place_keeping(stored, moment);
            mark_some(touched, boxes.before, number);
            touched.mark(&boxes.after, number);
        }
        Prepared::Delete { id } => {
            let bounds = store.remove_keeping(id, moment);
            mark_some(touched, bounds, number);
        }
    }
}

/// Makes changes by an edit of this number, from the first to the last, and marks what they touch.
fn make_each(
    store: &mut Store,
    touched: &mut WideGrid,
    moment: &mut Option<Moment>,
    changes: Vec<Prepared>,
    number: u64,
)
    requires room { puts_in (map prepared_data changes.items) ≤ store.old.spare }
    requires texts { length (snapshot store.old.features) + length (spelled_changes (map prepared_data changes.items)) < TEXTS_END }
    ensures map { store.new.features ≡ edited store.old.features (map prepared_data changes.items) }
    ensures marks { (marks : List Mark) → Remembers touched.old marks
        → Remembers touched.new (marks_after store.old.features (map prepared_data changes.items) number marks) }
    ensures stays { (marks : List Mark) (first : List ℕ) → StaysElsewhere marks first touched.old
        → StaysElsewhere (marks_after store.old.features (map prepared_data changes.items) number marks) first touched.new }
    ensures moment { moment_map moment.new ≡ moment_map moment.old }
    ensures as_of { IsMomentOf moment.old store.old.features → IsMomentOf moment.new store.new.features }
{
    for change in changes {
        make_one(store, touched, moment, change, number);
    }
}

/// Caches the bytes of a tile, which it shares with the caller, unless the entry is out of memory.
fn keep_shared(kept: &mut TileCache, at: TileAt, origin: Origin, number: u64, bytes: &RcSlice<u8>)
    ensures { KeepsOrNot at.z at.x at.y (record { origin = origin; number = number; bytes = rc_slice_items bytes.now }) kept.old kept.new }
{
    if let Ok(bytes) = bytes.clone() {
        let tile = CachedTile {
            origin,
            number,
            bytes,
        };
        let _ = kept.keep(at, tile);
    }
}

/// Lets a tile in the making go, if there is one. How its parts go is proved here alone, and not in each owner.
fn let_go(_hand: Option<TileInHand>) {}

/// The bytes of a tile in the making, with all parts that are left.
fn finish_tile(store: &Store, hand: TileInHand) -> Result<Option<Vec<u8>>, AllocError>
    requires { hand.features ≡ store.now.features }
    ensures { IfOk result (λ o. IsTileContent (layers store.now.features hand.at.z hand.at.x hand.at.y) (option_map (λ v. v.items) o)) }
{
    let mut hand = hand;
    while !hand.is_whole() {
        hand = store.add_part(hand)?;
    }
    store.finish_tile(hand)
}

/// Whether a part of a tile in the making is left after this many.
fn is_left_after(store: &Store, hand: TileInHand, parts: usize) -> Result<bool, AllocError>
    requires { hand.features ≡ store.now.features }
{
    let mut hand = hand;
    for _part in 0..parts {
        if hand.is_whole() {
            break;
        }
        hand = store.add_part(hand)?;
    }
    let is_left = !hand.is_whole();
    let_go(Some(hand));
    Ok(is_left)
}

impl CachedMap {
    /// A map whose last edit has this number, without cached tiles.
    pub fn new(alloc: Global, store: Store, last: u64) -> Result<CachedMap, AllocError>
        ensures features { IfOk result (λ m. m.features ≡ store.features) }
        ensures spare { IfOk result (λ m. m.spare ≡ store.spare) }
        ensures last { IfOk result (λ m. m.last ≡ last) }
        ensures untouched { IfOk result (λ m. Remembers m.touched []) }
        ensures now { IfOk result (λ m. WasMap m.features m.touched m.last m.last m.features) }
        ensures nothing_kept { IfOk result (λ m. m.kept.kept ≡ []) }
        ensures reads { IfOk result (λ m. AreReadRight m.features m.touched m.last m.kept) }
    {
        let kept = TileCache::new(alloc)?;
        let touched = WideGrid::new(alloc)?;
        Ok(CachedMap {
            store,
            touched,
            kept,
            last,
            hand: None,
            keeps: 0,
        })
    }

    /// Lets it go. How its parts go is proved here, and not in each function that has a map.
    pub fn end(self) {}

    /// The map.
    pub fn store(&self) -> &Store
        ensures features { result.now.features ≡ self.now.features }
        ensures spare { result.now.spare ≡ self.now.spare }
    {
        &self.store
    }

    /// The number of the last edit.
    pub fn last(&self) -> u64
        ensures { result ≡ self.now.last }
    {
        self.last
    }

    /// A number that is another one after each edit, and after each call that may cache a tile and drop others.
    pub fn stamp(&self) -> u64 {
        self.last.wrapping_add(self.keeps)
    }

    /// The number of the newest edit that can have touched a tile, or of a later one; 0 if there was none since the map was made. So a
    /// tile has the layers that it had after any edit whose number is at least this one.
    pub fn newest(&self, at: TileAt) -> u64
        ensures marked { (marks : List Mark) → Remembers self.now.touched marks → IsNewest marks at.z at.x at.y result }
        ensures since { (n : ℕ) (was : FeatureMap) → WasMap self.now.features self.now.touched self.now.last n was → result ≤ n
            → layers self.now.features at.z at.x at.y ≡ layers was at.z at.x at.y }
        ensures most { result ≤ self.now.last }
        // The map of this moment is known.
        ensures now { WasMap self.now.features self.now.touched self.now.last self.now.last self.now.features }
        ensures of_cells { IsNewestOf self.now.touched at.z at.x at.y result }
    {
        self.touched.newest(at)
    }

    /// How many of `tile_cache::LEVEL_CELLS` cells an edit after this number has touched, by the boxes that its features had before and
    /// have after it. The cells are 1.2 km wide at the equator. Those that are 39 km apart are one.
    pub fn stale(&self, number: u64) -> u64
        ensures { result ≡ stale_cells self.now.touched number }
    {
        self.touched.stale(number)
    }

    /// Builds the index of the map's boxes, if there is none. Memory that was reserved for edits may be gone. The only error is out of memory.
    pub fn index(&mut self) -> Result<(), AllocError>
        ensures same { self.new ≡ record self.old { spare = self.new.spare } }
        ensures unchanged { OnErr result (self.new ≡ self.old) }
    {
        self.store.index()
    }

    /// The changes as the map keeps them, and memory for each feature that they set, so that an edit of them allocates nothing. The only
    /// error is out of memory.
    pub fn prepare(&mut self, changes: &[Change]) -> Result<Vec<Prepared>, AllocError>
        requires { All IsAllowedChange (map change_data changes.now) }
        ensures same { self.new ≡ record self.old { spare = self.new.spare } }
        ensures prepared { IfOk result (λ v. map prepared_data v.items ≡ map change_data changes.now) }
        ensures room { OnOk result (puts_in (map change_data changes.now) ≤ self.new.spare) }
        ensures kept { self.old.spare ≤ self.new.spare }
    {
        self.store.prepare(changes)
    }

    /// Reserves memory for each feature that the changes set, so that an edit of them allocates nothing. It fails only if memory for fewer
    /// was there.
    pub fn room_for(&mut self, changes: &[Prepared]) -> Result<(), AllocError>
        ensures same { self.new ≡ record self.old { spare = self.new.spare } }
        ensures room { OnOk result (puts_in (map prepared_data changes.now) ≤ self.new.spare) }
        ensures kept { self.old.spare ≤ self.new.spare }
        ensures missing { OnErr result (self.new.spare < puts_in (map prepared_data changes.now)) }
    {
        self.store.room_for(changes)
    }

    /// Makes the changes of an edit of this number, from the first to the last. It allocates nothing.
    ///
    /// The boxes that each change's feature had before and has after it are marked with the number; no other cell's number changes, and
    /// no cached tile is dropped. A moment of the map that is still asked for keeps what the changes replace; if it is out of memory for
    /// that, it is lost.
    pub fn make_edit(&mut self, changes: Vec<Prepared>, number: u64, moment: &mut Option<Moment>)
        requires changes { All IsChange (map prepared_data changes.items) }
        requires room { puts_in (map prepared_data changes.items) ≤ self.old.spare }
        requires texts { length (snapshot self.old.features) + length (spelled_changes (map prepared_data changes.items)) < TEXTS_END }
        requires later { self.old.last < number }
        ensures map { self.new.features ≡ edited self.old.features (map prepared_data changes.items) }
        ensures last { self.new.last ≡ number }
        ensures marks { (marks : List Mark) → Remembers self.old.touched marks
            → Remembers self.new.touched (marks_after self.old.features (map prepared_data changes.items) number marks) }
        ensures stays { StaysElsewhere (marks_after self.old.features (map prepared_data changes.items) number []) self.old.touched self.new.touched }
        // A tile of which no marked box touches a cell keeps its newest edit.
        ensures clear { (z x y n : ℕ) → IsClear (marks_after self.old.features (map prepared_data changes.items) number []) z x y
            → IsNewestOf self.old.touched z x y n → IsNewestOf self.new.touched z x y n }
        ensures now { WasMap self.new.features self.new.touched self.new.last self.new.last self.new.features }
        ensures since { (n : ℕ) (was : FeatureMap) → WasMap self.old.features self.old.touched self.old.last n was
            → WasMap self.new.features self.new.touched self.new.last n was }
        ensures kept { self.new.kept ≡ self.old.kept }
        ensures reads { AreReadRight self.old.features self.old.touched self.old.last self.old.kept
            → AreReadRight self.new.features self.new.touched self.new.last self.new.kept }
        ensures moment { moment_map moment.new ≡ moment_map moment.old }
        ensures as_of { IsMomentOf moment.old self.old.features → IsMomentOf moment.new self.new.features }
    {
        let _count = self.store.len();
        let_go(self.hand.take());
        make_each(&mut self.store, &mut self.touched, moment, changes, number);
        self.last = number;
    }

    /// Removes the feature of an id, by an edit of this number, and says whether there was one. It allocates nothing, and `spare` doesn't
    /// fall.
    ///
    /// The box that the feature had is marked with the number; no other cell's number changes, and no cached tile is dropped.
    pub fn remove(&mut self, id: u64, number: u64, moment: &mut Option<Moment>) -> bool
        requires later { self.old.last < number }
        ensures found { IsTrue result ↔ IsSome (feature_at self.old.features id) }
        ensures map { self.new.features ≡ without_feature self.old.features id }
        ensures spare { self.old.spare ≤ self.new.spare }
        ensures last { self.new.last ≡ number }
        ensures marks { (marks : List Mark) → Remembers self.old.touched marks
            → Remembers self.new.touched (marks_after self.old.features (delete id ∷ []) number marks) }
        ensures stays { StaysElsewhere (marks_after self.old.features (delete id ∷ []) number []) self.old.touched self.new.touched }
        ensures clear { (z x y n : ℕ) → IsClear (marks_after self.old.features (delete id ∷ []) number []) z x y
            → IsNewestOf self.old.touched z x y n → IsNewestOf self.new.touched z x y n }
        ensures now { WasMap self.new.features self.new.touched self.new.last self.new.last self.new.features }
        ensures since { (n : ℕ) (was : FeatureMap) → WasMap self.old.features self.old.touched self.old.last n was
            → WasMap self.new.features self.new.touched self.new.last n was }
        ensures kept { self.new.kept ≡ self.old.kept }
        ensures reads { AreReadRight self.old.features self.old.touched self.old.last self.old.kept
            → AreReadRight self.new.features self.new.touched self.new.last self.new.kept }
        ensures moment { moment_map moment.new ≡ moment_map moment.old }
        ensures as_of { IsMomentOf moment.old self.old.features → IsMomentOf moment.new self.new.features }
    {
        let _count = self.store.len();
        let_go(self.hand.take());
        let bounds = self.store.remove_keeping(id, moment);
        mark_some(&mut self.touched, bounds, number);
        self.last = number;
        bounds.is_some()
    }

    /// Caches the bytes of a tile, unless out of memory.
    fn keep(&mut self, at: TileAt, bytes: &RcSlice<u8>)
        requires content { IsTileContent (layers self.old.features at.z at.x at.y) (Some (rc_slice_items bytes.now)) }
        ensures same { self.new ≡ record self.old { kept = self.new.kept } }
        ensures keeps { KeepsOrNot at.z at.x at.y (record { origin = Cut; number = self.old.last; bytes = rc_slice_items bytes.now })
            self.old.kept self.new.kept }
        ensures reads { AreReadRight self.old.features self.old.touched self.old.last self.old.kept
            → AreReadRight self.new.features self.new.touched self.new.last self.new.kept }
    {
        self.keeps = self.keeps.wrapping_add(1);
        keep_shared(&mut self.kept, at, Origin::Cut, self.last, bytes);
    }

    /// Caches the bytes of a tile that were read elsewhere and are those of the map after the edit of this number, unless out of memory.
    /// Whether they are depends on what they were read from.
    pub fn keep_read(&mut self, at: TileAt, number: u64, bytes: &RcSlice<u8>)
        ensures same { self.new ≡ record self.old { kept = self.new.kept } }
        ensures keeps { KeepsOrNot at.z at.x at.y (record { origin = Read; number = number; bytes = rc_slice_items bytes.now }) self.old.kept self.new.kept }
        ensures reads { (was : FeatureMap) → WasMap self.old.features self.old.touched self.old.last number was
            → IsTileContent (layers was at.z at.x at.y) (Some (rc_slice_items bytes.now))
            → AreReadRight self.old.features self.old.touched self.old.last self.old.kept
            → AreReadRight self.new.features self.new.touched self.new.last self.new.kept }
    {
        self.keeps = self.keeps.wrapping_add(1);
        keep_shared(&mut self.kept, at, Origin::Read, number, bytes);
    }

    /// Takes the tile in the making, if it is this one.
    fn take_hand(&mut self, at: TileAt) -> Option<TileInHand>
        ensures same { self.new ≡ self.old }
        ensures map { IfSome result (λ hand. hand.features ≡ self.old.features) }
        ensures at { IfSome result (λ hand. hand.at ≡ at) }
    {
        match self.hand.take() {
            Some(hand) if hand.at() == at => Some(hand),
            other => {
                let_go(mem::replace(&mut self.hand, other));
                None
            }
        }
    }

    /// The next part of a tile: the first one, unless it is in the making.
    fn next_part(&mut self, at: TileAt) -> Result<TileInHand, AllocError>
        requires { at.z ≤ MAX_ZOOM }
        ensures same { self.new ≡ self.old }
        ensures map { IfOk result (λ hand. hand.features ≡ self.old.features) }
    {
        let hand = match self.take_hand(at) {
            Some(hand) => hand,
            None => self.store.begin_tile(at)?,
        };
        self.store.add_part(hand)
    }

    /// Makes a part of a tile, the next one if some are made, for the `make` of this tile that follows. It is true while parts are left. Another
    /// tile in the making is dropped, and so is this one by an edit. The only error is out of memory; nothing is in the making then.
    pub fn make_part(&mut self, at: TileAt) -> Result<bool, AllocError>
        ensures { self.new ≡ self.old }
    {
        if at.z > MAX_ZOOM {
            return Ok(false);
        }
        let hand = self.next_part(at)?;
        let is_whole = hand.is_whole();
        let_go(self.hand.replace(hand));
        Ok(!is_whole)
    }

    /// Which tile is in the making.
    pub fn in_making(&self) -> Option<TileAt> {
        match &self.hand {
            Some(hand) => Some(hand.at()),
            None => None,
        }
    }

    /// Whether more than `count` features have boxes near the tile, or as many but for less than a part. It makes that many and forgets them. `count` is
    /// at most 1,024: a tile of more features also has parts that only write its layers. It is true at once for a wide tile, whose first parts list the
    /// numbers of the map: blocks near it have more than 4,096 features. The only error is out of memory.
    pub fn has_more(&self, at: TileAt, count: usize) -> Result<bool, AllocError> {
        if at.z > MAX_ZOOM {
            return Ok(false);
        }
        let hand = self.store.begin_tile(at)?;
        if hand.is_listing() {
            let_go(Some(hand));
            return Ok(true);
        }
        is_left_after(&self.store, hand, count / PART_NUMBERS)
    }

    /// The bytes of a tile: those of the parts that are made of it with what is left, or cut anew.
    fn cut_tile(&mut self, at: TileAt) -> Result<Option<RcSlice<u8>>, AllocError>
        ensures same { self.new ≡ self.old }
        ensures tile { IfOk result (λ content. IsTileContent (layers self.old.features at.z at.x at.y) (shared_bytes content)) }
    {
        let made = match self.take_hand(at) {
            Some(hand) => finish_tile(&self.store, hand)?,
            None => self.store.tile(at)?,
        };
        let Some(mut bytes) = made else {
            return Ok(None);
        };
        bytes.shrink_to_fit();
        Ok(Some(RcSlice::from_vec(bytes)?))
    }

    /// Whether the cached bytes of a tile are those of the map, if `newest` is the number of the newest edit that can have touched the tile; bytes
    /// that were read count only if `reads` is true.
    pub fn has(&self, at: TileAt, newest: u64, reads: bool) -> bool
        ensures { result ≡ is_some (fresh newest reads (kept_at self.now.kept at.z at.x at.y)) }
    {
        self.kept.peek(at, newest, reads).is_some()
    }

    /// The cached bytes of a tile (Mapbox Vector Tile 2.1), if there are any and no edit can have touched the tile since; bytes that were
    /// read count only if `reads` is true. The only error is out of memory.
    pub fn kept(&mut self, at: TileAt, reads: bool) -> Result<Option<RcSlice<u8>>, AllocError>
        ensures tile { (reads ≡ true → AreReadRight self.old.features self.old.touched self.old.last self.old.kept)
            → IfOk result (λ found. IfSome found (λ bytes. IsTileContent (layers self.old.features at.z at.x at.y) (Some (rc_slice_items bytes)))) }
        // Bytes that are cached and fresh are returned.
        ensures given { (newest : ℕ) → IsNewestOf self.old.touched at.z at.x at.y newest
            → IfOk result (λ found. shared_bytes found ≡ fresh newest reads (kept_at self.old.kept at.z at.x at.y)) }
        ensures same { self.new ≡ record self.old { kept = self.new.kept } }
        ensures keeps { KeepsSame self.old.kept self.new.kept }
        // The tile is now the one that was asked for last.
        ensures order { self.new.kept.kept ≡ asked_for (record { z = at.z; x = at.x; y = at.y }) self.old.kept.kept }
        ensures reads { AreReadRight self.old.features self.old.touched self.old.last self.old.kept
            → AreReadRight self.new.features self.new.touched self.new.last self.new.kept }
    {
        let newest = self.newest(at);
        self.kept.promote(at);
        if let Some(bytes) = self.kept.peek(at, newest, reads) {
            return Ok(Some(bytes.clone()?));
        }
        Ok(None)
    }

    /// The bytes of a tile, cut anew: none if it shows nothing, as above the greatest zoom. They are cached, unless the entry is out of
    /// memory. The only error is out of memory.
    pub fn make(&mut self, at: TileAt) -> Result<Option<RcSlice<u8>>, AllocError>
        ensures tile { IfOk result (λ content. IsTileContent (layers self.old.features at.z at.x at.y) (shared_bytes content)) }
        ensures same { self.new ≡ record self.old { kept = self.new.kept } }
        ensures keeps { IfOk result (λ content. IfSome content (λ bytes.
            KeepsOrNot at.z at.x at.y (record { origin = Cut; number = self.old.last; bytes = rc_slice_items bytes }) self.old.kept self.new.kept)) }
        // If there is nothing to be cached, the cache is unchanged.
        ensures empty { IfOk result (λ content. IfNone content (self.new.kept ≡ self.old.kept)) }
        ensures failed { OnErr result (self.new.kept ≡ self.old.kept) }
        ensures reads { AreReadRight self.old.features self.old.touched self.old.last self.old.kept
            → AreReadRight self.new.features self.new.touched self.new.last self.new.kept }
    {
        let content = self.cut_tile(at)?;
        if let Some(bytes) = &content {
            self.keep(at, bytes);
        }
        Ok(content)
    }
}
