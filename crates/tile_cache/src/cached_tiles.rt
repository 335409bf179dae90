//! Tiles by their place, the one that was asked for last first.

ghost use Rattle.std.specs.Prelude.{◌≡◌, ◌+◌, ◌<◌, ◌≤◌, [], length, Some, OnOk, OnErr, IfOk, option_map};
ghost use Rattle.std.specs.Option.{option_map_or};
ghost use Rattle.std.specs.Rc.{rc_slice_items};
ghost use Rattle.lru.specs.LruCache.{lru_cache, put_entries};
ghost use Rattle.tile_cache.specs.Kept.{counts, is_place, IsSmall};
ghost use Rattle.tile_cache.specs.Entries.{bytes_of, IsFirstSmall, IsFront};

use hilbert_id::TileAt;
use lru::LruCache;
use std::alloc::{AllocError, Global};
use std::marker::Model;
use std::num::NonZeroUsize;
use std::rc::RcSlice;

/// The most tiles in the cache.
pub const MAX_CACHED_TILES: usize = 256;

/// The most bytes of all cached tiles together: 64 MiB.
pub const MAX_CACHED_BYTES: usize = 67_108_864;

/// The most bytes of a cached tile: a quarter of all.
pub const MAX_TILE_BYTES: usize = MAX_CACHED_BYTES / 4;

/// A zoom, a column and a row.
#[derive(Clone, Copy, PartialEq, Eq, Hash)]
pub struct TileKey {
    pub z: u8,
    pub x: u32,
    pub y: u32,
}

/// The origin of a tile's bytes.
#[derive(Clone, Copy)]
pub enum Origin {
    /// They were cut from the map in memory.
    Cut,
    /// They were read from an archive.
    Read,
}

/// The bytes of a tile, shared with whoever asked for it, and the number of the edit as of which they are right.
#[derive(Drop)]
pub struct CachedTile {
    pub origin: Origin,
    pub number: u64,
    pub bytes: RcSlice<u8>,
}

/// A cache of tiles, by their place: at most `MAX_CACHED_TILES` tiles, and at most `MAX_CACHED_BYTES` bytes.
#[derive(Drop)]
pub struct TileCache {
    tiles: LruCache<TileKey, CachedTile>,
    /// The bytes of all tiles together.
    bytes: usize,
}

impl Model for TileCache {
    ghost use Rattle.tile_cache.specs.Kept.{CacheView};

    ghost Value = { CacheView };

    ghost use Rattle.tile_cache.specs.KeptInside.{cache_view, IsCache};

    ghost view = { cache_view };

    ghost invariant = { IsCache };
}

/// The place of a tile.
fn place_of(at: TileAt) -> TileKey
    ensures { result ≡ record { z = at.z; x = at.x; y = at.y } }
{
    TileKey {
        z: at.z,
        x: at.x,
        y: at.y,
    }
}

/// Whether bytes of this origin count, if those that were read may not.
fn counts(origin: Origin, reads: bool) -> bool
    ensures { result ≡ counts reads origin }
{
    match origin {
        Origin::Cut => true,
        Origin::Read => reads,
    }
}

/// The bytes of the tile that was dropped, or 0 if none was.
fn bytes_freed(displaced: Option<(TileKey, CachedTile)>) -> usize
    ensures { result ≡ option_map_or (λ e. length (rc_slice_items e.1.bytes)) displaced 0 }
{
    match displaced {
        Some((_, tile)) => tile.bytes.len(),
        None => 0,
    }
}

/// Puts a tile first, and returns the bytes of all tiles together after that.
fn put_first(
    tiles: &mut LruCache<TileKey, CachedTile>,
    bytes: usize,
    place: TileKey,
    tile: CachedTile,
) -> Result<usize, AllocError>
    requires count { bytes ≡ bytes_of tiles.old.entries }
    requires cap { length tiles.old.entries ≤ tiles.old.cap }
    requires most { bytes ≤ MAX_CACHED_BYTES }
    requires small { IsSmall (rc_slice_items tile.bytes) }
    ensures entries { OnOk result (tiles.new ≡ lru_cache (put_entries is_place tiles.old place tile) tiles.old.cap) }
    ensures count { IfOk result (λ n. n ≡ bytes_of tiles.new.entries) }
    ensures most { IfOk result (λ n. n ≤ bytes + length (rc_slice_items tile.bytes)) }
    ensures refused { OnErr result (tiles.new ≡ tiles.old) }
{
    let size = tile.bytes.len();
    match tiles.push(place, tile) {
        Ok(displaced) => Ok(bytes + size - bytes_freed(displaced)),
        Err(_) => Err(AllocError),
    }
}

/// Drops tiles, the one asked for longest ago first, until the others have at most `MAX_CACHED_BYTES` bytes together. Returns how many
/// they have.
fn drop_oldest(tiles: &mut LruCache<TileKey, CachedTile>, mut bytes: usize) -> usize
    requires count { bytes ≡ bytes_of tiles.old.entries }
    requires first { IsFirstSmall tiles.old.entries }
    ensures front { IsFront tiles.old tiles.new }
    ensures count { result ≡ bytes_of tiles.new.entries }
    ensures most { result ≤ MAX_CACHED_BYTES }
    ensures same { bytes ≤ MAX_CACHED_BYTES → tiles.new ≡ tiles.old }
{
    while bytes > MAX_CACHED_BYTES {
        bytes -= bytes_freed(tiles.pop_lru());
    }
    bytes
}

impl TileCache {
    ghost use Rattle.tile_cache.specs.Kept.{kept_at, fresh, bytes_in, tile_view, asked_for, with_first, KeepsSame, KeepsOthers, KeepsFewer, KeepsLatest};

    /// An empty cache.
    pub fn new(alloc: Global) -> Result<TileCache, AllocError>
        ensures { IfOk result (λ c. c.kept ≡ []) }
    {
        let most = NonZeroUsize::new(MAX_CACHED_TILES).unwrap();
        Ok(TileCache {
            tiles: LruCache::new(alloc, most)?,
            bytes: 0,
        })
    }

    /// Notes that the tile of a place was asked for: it becomes the first, so that all others are dropped before it.
    pub fn promote(&mut self, at: TileAt)
        ensures same { KeepsSame self.old self.new }
        ensures order { self.new.kept ≡ asked_for (record { z = at.z; x = at.x; y = at.y }) self.old.kept }
    {
        let place = place_of(at);
        self.tiles.promote(&place);
    }

    /// The bytes cached for a place, if they are right as of the edit `newest` or a later one, and if they were cut or `reads` is true.
    pub fn peek(&self, at: TileAt, newest: u64, reads: bool) -> Option<&RcSlice<u8>>
        ensures { option_map (λ b. rc_slice_items b.now) result ≡ fresh newest reads (kept_at self.now at.z at.x at.y) }
    {
        let place = place_of(at);
        match self.tiles.peek(&place) {
            Some(kept) => {
                if kept.number < newest {
                    return None;
                }
                if !counts(kept.origin, reads) {
                    return None;
                }
                Some(&kept.bytes)
            }
            None => None,
        }
    }

    /// Caches a tile, if it has at most `MAX_TILE_BYTES` bytes. A full cache drops the tile that was asked for longest ago, and as many
    /// more, in that order, as the bound on bytes needs.
    ///
    /// The only error is out of memory: the cache is unchanged then.
    pub fn keep(&mut self, at: TileAt, tile: CachedTile) -> Result<(), AllocError>
        ensures kept { OnOk result (IsSmall (rc_slice_items tile.bytes) → kept_at self.new at.z at.x at.y ≡ Some (tile_view tile)) }
        ensures latest { OnOk result (IsSmall (rc_slice_items tile.bytes)
            → KeepsLatest (with_first (record { z = at.z; x = at.x; y = at.y }) (tile_view tile) self.old.kept) self.new.kept) }
        ensures large { ¬ IsSmall (rc_slice_items tile.bytes) → self.new ≡ self.old }
        ensures others { OnOk result (KeepsFewer at.z at.x at.y self.old self.new) }
        // Nothing is dropped while there is room.
        ensures room { length self.old.kept < MAX_CACHED_TILES → bytes_in self.old + length (rc_slice_items tile.bytes) ≤ MAX_CACHED_BYTES
            → OnOk result (KeepsOthers at.z at.x at.y self.old self.new) }
        ensures most_tiles { length self.new.kept ≤ MAX_CACHED_TILES }
        ensures most_bytes { bytes_in self.new ≤ MAX_CACHED_BYTES }
        ensures refused { OnErr result (self.new ≡ self.old) }
    {
        let before = self.bytes;
        if tile.bytes.len() > MAX_TILE_BYTES {
            return Ok(());
        }
        match put_first(&mut self.tiles, before, place_of(at), tile) {
            Ok(bytes) => {
                self.bytes = drop_oldest(&mut self.tiles, bytes);
                Ok(())
            }
            Err(fault) => Err(fault),
        }
    }
}
