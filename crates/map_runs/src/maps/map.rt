//! Lines over a map.
ghost use Rattle.std.specs.Prelude.{◌≡◌, ◌≤◌, All, length};
ghost use Rattle.feature_model.specs.Data.{edit_data};
ghost use Rattle.feature_model.specs.Spelled.{spelled_changes};
ghost use Rattle.feature_model.specs.Types.{IsChange};
ghost use Rattle.feature_model.specs.declared.limits.TheConstants.{MAX_EDIT_BYTES};

use super::areas::area;
use super::features::kept;
use super::random::make_random;
use crate::lines::{Line, tile_at};
use cached_map::CachedMap;
use edit_text::{decode, encode_change};
use feature_model::{Change, Edit, Feature, check};
use feature_store::{Making, Store, Tiles};
use hilbert_id::TileAt;
use map_metadata::metadata_text;
use mvt_layer::{Layer, read_tile};
use script_bytes::{Answer, digest};
use std::alloc::{AllocError, Global};
use std::mem;

/// What a line over a map asks for.
#[derive(Clone, Copy)]
pub(crate) enum Asks {
    Delete,
    Make,
    Random,
    Restore,
    Tile,
    Anew,
    Layers,
    Newest,
    Square,
    Look,
    Tiles,
    Snapshot,
    Metadata,
    Area,
}

/// The most features of a map.
const MOST: usize = 100_000;

/// The most bytes of a snapshot that is read.
const MOST_BYTES: usize = 16_777_216;

/// The empty map, whose last edit has this number.
pub(crate) fn empty_map(alloc: Global, last: u64) -> Result<CachedMap, AllocError> {
    CachedMap::new(alloc, Store::new(alloc), last)
}

/// What is told of the edit of this number.
pub(crate) fn edited(answer: &mut Answer, number: u64, map: &CachedMap) {
    let count = map.store().len();
    write!(answer, "edit {number}: {count} features");
}

/// Gives a number a feature.
pub(crate) fn put(answer: &mut Answer, map: &mut CachedMap, id: u64, feature: Feature) {
    if let Err(fault) = check(id, &feature) {
        return answer.tell(&fault);
    }
    let change = Change::Put { id, feature };
    let Ok(_text) = encode_change(answer.alloc(), &change) else {
        return answer.refuse();
    };
    let mut changes = Vec::new(answer.alloc());
    match changes.push(change) {
        Ok(()) => make(answer, map, Edit { changes }),
        Err(_) => answer.refuse(),
    }
}

/// Takes the feature of a number away.
pub(crate) fn delete(answer: &mut Answer, map: &mut CachedMap, id: u64) {
    let Some(number) = map.last().checked_add(1) else {
        return answer.say("numbers spent");
    };
    let found = map.remove(id, number, &mut None);
    edited(answer, number, map);
    write!(answer, ", was there {found}");
}

/// Makes the changes of an edit together.
fn make(answer: &mut Answer, map: &mut CachedMap, edit: Edit)
    requires changes { All IsChange (edit_data edit) }
    requires text { length (spelled_changes (edit_data edit)) ≤ MAX_EDIT_BYTES }
{
    let Some(number) = map.last().checked_add(1) else {
        return answer.say("numbers spent");
    };
    if map.store().len() > MOST {
        return answer.say("too many features");
    }
    let Ok(changes) = map.prepare(&edit.changes) else {
        return answer.refuse();
    };
    map.make_edit(changes, number, &mut None);
    edited(answer, number, map);
}

fn make_text(answer: &mut Answer, map: &mut CachedMap, text: &str) {
    let Ok(bytes) = hex::decode(answer.alloc(), text) else {
        return answer.say("no hex");
    };
    match decode(answer.alloc(), &bytes) {
        Ok((edit, _)) => make(answer, map, edit),
        Err(fault) => answer.show(&fault),
    }
}

/// The feature of a number.
fn look(answer: &mut Answer, store: &Store, id: u64) {
    match store.get(id) {
        Some(feature) => kept(answer, feature),
        None => answer.say("none"),
    }
}

/// A tile that isn't kept, or whose bytes are too old: it is made.
fn made(answer: &mut Answer, map: &mut CachedMap, at: TileAt) {
    match map.make(at) {
        Ok(Some(bytes)) => {
            answer.say("made ");
            answer.hex(bytes.as_slice());
        }
        Ok(None) => answer.say("nothing"),
        Err(_) => answer.refuse(),
    }
}

/// A tile: as it is kept, or made.
fn tile(answer: &mut Answer, map: &mut CachedMap, at: TileAt) {
    match map.kept(at, false) {
        Ok(Some(bytes)) => {
            answer.say("kept ");
            answer.hex(bytes.as_slice());
        }
        Ok(None) => made(answer, map, at),
        Err(_) => answer.refuse(),
    }
}

/// A tile that is cut anew, kept or not: no bytes where it shows nothing.
fn anew(answer: &mut Answer, store: &Store, at: TileAt) {
    match store.tile(at) {
        Ok(Some(bytes)) => answer.hex(&bytes),
        Ok(None) => {}
        Err(_) => answer.refuse(),
    }
}

/// A layer's name, version, extent, and the numbers of its features.
fn list_layer(answer: &mut Answer, layer: &Layer<'_>) {
    let Layer {
        name,
        version,
        extent,
        ..
    } = layer;
    answer.item();
    write!(answer, "({name:?}, {version}, {extent}, [");
    for feature in &layer.features {
        answer.item();
        answer.tell(&feature.id.unwrap_or(0));
    }
    answer.say("])");
}

fn list_layers(answer: &mut Answer, layers: &[Layer<'_>]) {
    answer.push('[');
    for layer in layers {
        list_layer(answer, layer);
    }
    answer.push(']');
}

/// The layers that a tile's bytes have, none where it shows nothing.
fn layers(answer: &mut Answer, store: &Store, at: TileAt) {
    let Ok(tile) = store.tile(at) else {
        return answer.refuse();
    };
    let bytes = tile.unwrap_or(Vec::new(answer.alloc()));
    match read_tile(answer.alloc(), &bytes) {
        Ok(layers) => list_layers(answer, &layers),
        Err(fault) => answer.show(&fault),
    }
}

/// The tiles to come of the map as it is now, each with its id.
fn list_tiles(answer: &mut Answer, store: &Store, tiles: &mut Tiles)
    requires { tiles.old.features ≡ store.now.features }
{
    let now = store.moment();
    answer.push('[');
    for _ in 0..u64::MAX {
        match tiles.next(store, &now) {
            Ok(Making::Whole((id, bytes))) => {
                answer.item();
                write!(answer, "({id}, \"");
                answer.hex(&bytes);
                answer.say("\")");
            }
            Ok(Making::Part) => {}
            Ok(Making::Over) => break,
            Err(_) => return answer.refuse(),
        }
    }
    answer.push(']');
}

/// All tiles, each with its id.
fn tiles(answer: &mut Answer, store: &Store) {
    match store.tiles() {
        Ok(mut tiles) => list_tiles(answer, store, &mut tiles),
        Err(_) => answer.refuse(),
    }
}

/// The snapshot of the map that is read back from a map's snapshot.
fn snapshot(answer: &mut Answer, store: &Store) {
    let Ok(text) = store.snapshot_text() else {
        return answer.refuse();
    };
    if text.len() > MOST_BYTES {
        return answer.say("too many bytes");
    }
    match Store::from_snapshot(answer.alloc(), &text) {
        Ok(same) => answer.made_bytes(same.snapshot_text()),
        Err(fault) => answer.tell(&fault),
    }
}

/// Takes a map in the map's place, with an index. Its last edit keeps the number.
fn replace(answer: &mut Answer, map: &mut CachedMap, store: Store) {
    let count = store.len();
    let Ok(mut restored) = CachedMap::new(answer.alloc(), store, map.last()) else {
        return answer.refuse();
    };
    if restored.index().is_err() {
        return answer.refuse();
    }
    drop(mem::replace(map, restored));
    write!(answer, "{count} features");
}

/// The same of the map of a snapshot.
fn restore(answer: &mut Answer, map: &mut CachedMap, text: &str) {
    let Ok(bytes) = hex::decode(answer.alloc(), text) else {
        return answer.say("no hex");
    };
    if bytes.len() > MOST_BYTES {
        return answer.say("too many bytes");
    }
    match Store::from_snapshot(answer.alloc(), &bytes) {
        Ok(store) => replace(answer, map, store),
        Err(fault) => answer.tell(&fault),
    }
}

/// Answers a line about a tile.
fn answer_tile(answer: &mut Answer, map: &mut CachedMap, asks: Asks, numbers: [u64; 8]) {
    let Some(at) = tile_at(numbers) else {
        return answer.say("no tile");
    };
    match asks {
        Asks::Tile => tile(answer, map, at),
        Asks::Anew => anew(answer, map.store(), at),
        Asks::Layers => layers(answer, map.store(), at),
        _ => answer.tell(&map.newest(at)),
    }
}

/// The tiles of a square, each as a line `tile` answers it: its zoom, its first column and row, and how many of these it has. The answer
/// is how many are cached, and a digest: 31 times that of the tiles before, column by column, plus the hash of the answer, modulo 2^64.
fn square(answer: &mut Answer, map: &mut CachedMap, [zoom, column, row, side, ..]: [u64; 8]) {
    let mut cached = 0u64;
    let mut sum = 0u64;
    for across in 0..side {
        for down in 0..side {
            let x = column.wrapping_add(across);
            let y = row.wrapping_add(down);
            match tile_at([zoom, x, y, 0, 0, 0, 0, 0]) {
                Some(at) => tile(answer, map, at),
                None => answer.say("no tile"),
            }
            if answer.text().starts_with("kept") {
                cached = cached.wrapping_add(1);
            }
            let hash = digest(answer.text().as_bytes());
            sum = sum.wrapping_mul(31).wrapping_add(hash);
            answer.clear();
        }
    }
    write!(answer, "{cached} cached, digest {sum}");
}

/// Answers a line over a map.
pub(crate) fn answer(answer: &mut Answer, map: &mut CachedMap, asks: Asks, line: &Line<'_>) {
    match asks {
        Asks::Delete => delete(answer, map, line.numbers[0]),
        Asks::Make => make_text(answer, map, line.rest),
        Asks::Random => make_random(answer, map, line.numbers),
        Asks::Restore => restore(answer, map, line.rest),
        Asks::Square => square(answer, map, line.numbers),
        Asks::Look => look(answer, map.store(), line.numbers[0]),
        Asks::Tiles => tiles(answer, map.store()),
        Asks::Snapshot => snapshot(answer, map.store()),
        Asks::Metadata => answer.add(metadata_text(answer.alloc(), map.store())),
        Asks::Area => area(answer, map.store(), line.numbers[0]),
        _ => answer_tile(answer, map, asks, line.numbers),
    }
}
