//! The archive of the tiles of a map.
ghost use Rattle.std.specs.Prelude.{◌≡◌, ◌<◌, ◌≤◌, ◌^◌, ◌+◌, [], ℕ, List, Ok, false, length, take, OnOk, IfOk, IfErr, IfSome};
ghost use Rattle.feature_store.specs.Moments.{IsAsOf};
ghost use Rattle.feature_store.specs.Store.{snapshot};
ghost use Rattle.feature_store.specs.Tiles.{GoesOn, IfTile, IsNextTile, ShowsNothing, ShowsNothingFrom};
ghost use Rattle.feature_store.specs.declared.all_tiles.Making.TheVariants.{Part, Over};
ghost use Rattle.pm_metadata.specs.Archive.{IsMetadata};
ghost use Rattle.pm_build.specs.Bounded.{IsSize};
ghost use Rattle.pm_build.specs.Built.{archive_bytes};
ghost use Rattle.pm_build.specs.Tiles.{Tile};
ghost use Rattle.area_content.specs.Collected.{AreCollected, AreGoing, AreMade, tiles_of};
ghost use Rattle.area_content.specs.Faults.{AreAdded, IsContentFault, IsShort};
ghost use Rattle.area_content.specs.Progress.{IfGoing, tiles_in};
ghost use Rattle.area_content.specs.Tiles.{IsArchiveOfTiles};
ghost use Rattle.area_content.specs.Waiting.{IsLastMade, steps_ahead};
ghost use Rattle.area_content.specs.declared.archive.Progress.TheVariants as progress;

use crate::collected::{Collected, LARGE_TILE_BYTES, Waiting};
use crate::content::sectors_for;
use crate::counting::count_tile;
use crate::fault::ContentFault;
use crate::frame::{AreaFrame, MapThen};
use crate::spent::{SpentContent, spend};
use feature_store::{Making, Tiles};
use pm_build::{ArchiveBuilder, BuiltArchive};
use std::alloc::{AllocError, Global};

/// What a step of an archive in the making did.
#[derive(Clone, Copy)]
pub(crate) enum Progress {
    /// It made a part of a tile or put one ahead, and added none.
    Part,
    /// It added a tile.
    Tile,
    /// Nothing, since no tile is left.
    Over,
}

/// Makes a part of the next tile of a moment, for an area of `area` sectors. A tile too large for an archive entry is larger than every area.
fn next_short(tiles: &mut Tiles, map: MapThen<'_>, area: u64) -> Result<Making, ContentFault>
    requires same { map.moment.now.features ≡ tiles.old.features }
    requires there { map.moment.now.lost ≡ false }
    requires as_of { IsAsOf map.moment.now map.store.now.features }
    requires area { area < 2 ^ 23 }
    ensures map { tiles.new.features ≡ tiles.old.features }
    ensures part { result ≡ Ok Part → (tiles.old.from ≤ tiles.new.from) × ShowsNothing tiles.old.features tiles.old.from tiles.new.from }
    ensures tile { IfOk result (IfTile (λ t. IsNextTile tiles.old.features tiles.old.from t × IsShort t × (tiles.new.from ≡ t.0 + 1))) }
    ensures over { result ≡ Ok Over → ShowsNothingFrom tiles.old.features tiles.old.from }
    ensures ahead { IfOk result (GoesOn tiles.old tiles.new) }
    ensures fault { IfErr result (λ fault. (before : List Tile) (metadata : List ℕ) → AreAdded tiles.old.features tiles.old.from before
        → IsContentFault tiles.old.features metadata area fault) }
{
    let tile = match tiles.next(map.store, map.moment) {
        Ok(Making::Whole(tile)) => tile,
        Ok(Making::Part) => return Ok(Making::Part),
        Ok(Making::Over) => return Ok(Making::Over),
        Err(_) => return Err(ContentFault::Memory),
    };
    if tile.1.len() > u32::MAX as usize {
        return Err(ContentFault::AreaFull {
            need: sectors_for(tile.1.len()),
            free: area,
        });
    }
    Ok(Making::Whole(tile))
}

/// Adds the last tile that was made to its archive. The first `put` bytes of its content are ahead: none if tiles are counted. A long list that is
/// of no use any more is put in `spent`.
fn add_tile(
    collected: &mut Collected,
    spent: &mut Option<SpentContent>,
    tile: feature_store::Tile,
    put: usize,
    tiles: &mut Tiles,
    map: MapThen<'_>,
    frame: AreaFrame<'_>,
) -> Result<(), ContentFault>
    requires same { map.moment.now.features ≡ tiles.old.features }
    requires there { map.moment.now.lost ≡ false }
    requires as_of { IsAsOf map.moment.now map.store.now.features }
    requires collected { AreCollected tiles.old.features frame.metadata.now frame.area tile.0 collected.old }
    requires last { IsLastMade tiles.old.features tiles.old.from (tile.0, tile.1.items) }
    requires inside { put ≤ length tile.1.items }
    requires ahead { collected.old.kept.ahead ≡ take put tile.1.items }
    requires counted { IfSome collected.old.counted (λ counted. put ≡ 0) }
    requires snapshot { frame.text.now ≡ snapshot tiles.old.features }
    ensures unchanged { tiles.new ≡ tiles.old }
    ensures collected { OnOk result (AreCollected tiles.old.features frame.entry.metadata.now frame.entry.area tiles.old.from collected.new) }
    ensures ahead { OnOk result (collected.new.kept.ahead ≡ []) }
    ensures waiting { OnOk result (collected.new.waiting ≡ collected.old.waiting) }
    ensures count { OnOk result (length (tiles_of collected.new) ≡ length (tiles_of collected.old) + 1) }
    ensures fault { IfErr result (IsContentFault tiles.old.features frame.entry.metadata.now frame.entry.area) }
{
    let (id, content) = tile;
    match &mut collected.counted {
        Some(counter) => count_tile(counter, id, content, tiles, map),
        None => match collected.keep(id, &content, put, frame) {
            Ok(contents) => {
                spend(spent, content, contents);
                Ok(())
            }
            Err(fault) => Err(fault),
        },
    }
}

/// Makes a part of the next tile of a moment, and at its last part adds the tile to its archive. A large tile waits: each step after it puts a
/// part of its content ahead, and the last of them puts the rest ahead and adds it. A long list that is of no use any more is put in `spent`.
pub(crate) fn make_next(
    tiles: &mut Tiles,
    collected: &mut Collected,
    spent: &mut Option<SpentContent>,
    map: MapThen<'_>,
    frame: AreaFrame<'_>,
) -> Result<Progress, ContentFault>
    requires same { map.moment.now.features ≡ tiles.old.features }
    requires there { map.moment.now.lost ≡ false }
    requires as_of { IsAsOf map.moment.now map.store.now.features }
    requires going { AreGoing tiles.old.features frame.metadata.now frame.area tiles.old.from collected.old }
    requires snapshot { frame.text.now ≡ snapshot tiles.old.features }
    requires area { frame.area < 2 ^ 23 }
    ensures map { tiles.new.features ≡ tiles.old.features }
    ensures going { IfOk result (IfGoing (AreGoing tiles.old.features frame.entry.metadata.now frame.entry.area tiles.new.from collected.new)) }
    ensures ahead { IfOk result (IfGoing (steps_ahead collected.new.waiting tiles.new.ahead < steps_ahead collected.old.waiting tiles.old.ahead)) }
    ensures count { IfOk result (λ progress. length (tiles_of collected.new) ≡ length (tiles_of collected.old) + tiles_in progress) }
    ensures made { result ≡ Ok progress.Over → AreMade tiles.old.features frame.entry.metadata.now frame.entry.area collected.new }
    ensures fault { IfErr result (IsContentFault tiles.old.features frame.entry.metadata.now frame.entry.area) }
{
    if let Some(waiting) = collected.waiting.take() {
        if waiting.parts > 0 {
            return match collected.put_ahead(waiting) {
                Ok(()) => Ok(Progress::Part),
                Err(_) => Err(ContentFault::Memory),
            };
        }
        let Waiting {
            tile,
            put,
            parts: _,
        } = waiting;
        return match add_tile(collected, spent, tile, put, tiles, map, frame) {
            Ok(()) => Ok(Progress::Tile),
            Err(fault) => Err(fault),
        };
    }
    let tile = match next_short(tiles, map, frame.area) {
        Ok(Making::Whole(tile)) => tile,
        Ok(Making::Part) => return Ok(Progress::Part),
        Ok(Making::Over) => return Ok(Progress::Over),
        Err(fault) => return Err(fault),
    };
    if tile.1.len() >= LARGE_TILE_BYTES {
        collected.let_wait(tile);
        return Ok(Progress::Part);
    }
    match add_tile(collected, spent, tile, 0, tiles, map, frame) {
        Ok(()) => Ok(Progress::Tile),
        Err(fault) => Err(fault),
    }
}

/// The archive of the tiles of a map, with this metadata. It is empty if there are no tiles.
pub(crate) fn archive_of(
    alloc: Global,
    builder: ArchiveBuilder,
    metadata: &[u8],
) -> Result<BuiltArchive, AllocError>
    requires metadata { IsMetadata metadata.now }
    ensures of_tiles { IfOk result (λ a. IsArchiveOfTiles builder.tiles metadata.now (archive_bytes a)) }
    ensures bounded { IfOk result (λ a. IsSize builder.tiles metadata.now (length (archive_bytes a))) }
{
    if builder.is_empty() {
        return Ok(BuiltArchive {
            front: Vec::new(alloc),
            contents: Vec::new(alloc),
        });
    }
    builder.finish(metadata)
}
