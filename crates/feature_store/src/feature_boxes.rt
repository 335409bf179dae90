//! The boxes of the features of a map, read from their points once for all zooms.
ghost use Rattle.std.specs.Prelude.{◌≡◌, ◌≤◌, ◌+◌, ◌↔◌, ◌++◌, ◌∷◌, [], ℕ, length, map, min, IsTrue, IfOk, IfSome, OnOk};
ghost use Rattle.box_index.specs.Shown.{ids_shown};
ghost use Rattle.box_index.specs.declared.entry.IndexEntry.{IndexEntry};
ghost use Rattle.feature_model.specs.declared.limits.TheConstants.{MAX_ZOOM};
ghost use Rattle.number_map.specs.Blocks.{joined};
ghost use Rattle.tile_walk.specs.declared.step.TheConstants.{STEP_BOXES};
ghost use Rattle.feature_store.specs.Boxes.{AreFirst, boxes_in, read_of};
ghost use Rattle.feature_store.specs.Indexed.{ShowsAll, index_entry};
ghost use Rattle.feature_store.specs.Inside.{entries_data};
ghost use Rattle.feature_store.specs.Store.{FeatureMap, IsMap};

use crate::indexed::index_entry;
use box_index::IndexEntry;
use edit_text::StoredFeature;
use feature_model::{MAX_ZOOM, WorldBox};
use hilbert_id::TileAt;
use number_map::{Block, Entry, NumberMap};
use std::alloc::{AllocError, Global};
use std::marker::Model;
use std::snapshot::Snapshot;
use tile_cutter::{tile_box, tiles_met};
use tile_walk::{Numbered, STEP_BOXES};

/// The bounding box and the zooms of each feature of a map, by ascending number. They stay those of the map as it was.
#[derive(Drop)]
pub(crate) struct FeatureBoxes {
    /// The features, which only clauses read.
    features: Snapshot<NumberMap<StoredFeature>>,
    boxes: Vec<IndexEntry>,
}

impl Model for FeatureBoxes {
    ghost use Rattle.feature_store.specs.Store.{FeatureMap};

    ghost Value = { FeatureMap };

    ghost use Rattle.feature_store.specs.BoxesInside.{boxes_view, AreBoxes};

    ghost view = { boxes_view };

    ghost invariant = { AreBoxes };
}

/// The tiles of a zoom that the first features of a map cover, those of each with its number.
#[derive(Drop)]
pub(crate) struct Covers {
    /// How many features they are.
    pub(crate) read: usize,
    pub(crate) tiles: Vec<Numbered>,
}

/// What was read of a zoom, or nothing yet.
pub(crate) fn begun_or_new(alloc: Global, first: Option<Covers>) -> Covers
    ensures first { (zoom : ℕ) (m : FeatureMap) → IfSome first (AreFirst zoom m) → AreFirst zoom m result }
    ensures read { result.read ≡ read_of first }
{
    match first {
        Some(first) => first,
        None => Covers {
            read: 0,
            tiles: Vec::new(alloc),
        },
    }
}

/// Appends the boxes of entries.
fn append_entries(
    boxes: &mut Vec<IndexEntry>,
    entries: &[Entry<StoredFeature>],
) -> Result<(), AllocError>
    ensures { OnOk result (boxes.new.items ≡ boxes.old.items ++ map index_entry (entries_data entries.now)) }
{
    for entry in entries {
        boxes.push(index_entry(entry.0, entry.1.view()))?;
    }
    Ok(())
}

/// Appends the boxes of blocks of entries.
pub(crate) fn append_blocks(
    boxes: &mut Vec<IndexEntry>,
    blocks: &[Block<StoredFeature>],
) -> Result<(), AllocError>
    ensures { OnOk result (boxes.new.items ≡ boxes.old.items ++ map index_entry (entries_data (joined blocks.now))) }
{
    for block in blocks {
        append_entries(boxes, block.entries())?;
    }
    Ok(())
}

/// Appends the tiles of a zoom that a box meets, if it is shown at the zoom.
#[tactic(auto, unfolding(crate::specs::Boxes::boxes_in))]
fn append_tiles(tiles: &mut Vec<Numbered>, zoom: u8, entry: &IndexEntry) -> Result<(), AllocError>
    requires { zoom ≤ MAX_ZOOM }
    ensures { OnOk result (tiles.new.items ≡ tiles.old.items ++ boxes_in zoom (entry.now ∷ [])) }
{
    if entry.span.minzoom <= zoom && zoom <= entry.span.maxzoom {
        let range = tiles_met(entry.span.bounds, zoom);
        let number = entry.id;
        tiles.push(Numbered { range, number })?;
    }
    Ok(())
}

/// Appends the tiles of a zoom that boxes meet, box by box.
fn append_boxes(tiles: &mut Vec<Numbered>, zoom: u8, boxes: &[IndexEntry]) -> Result<(), AllocError>
    requires { zoom ≤ MAX_ZOOM }
    ensures { OnOk result (tiles.new.items ≡ tiles.old.items ++ boxes_in zoom boxes.now) }
{
    for entry in boxes {
        append_tiles(tiles, zoom, entry)?;
    }
    Ok(())
}

/// Appends the number of a box that shows in another one at a zoom.
fn append_shown(
    numbers: &mut Vec<u64>,
    bounds: &WorldBox,
    zoom: u8,
    entry: &IndexEntry,
) -> Result<(), AllocError>
    ensures { OnOk result (numbers.new.items ≡ numbers.old.items ++ ids_shown bounds.now zoom (entry.now ∷ [])) }
{
    if entry.span.shows(bounds, zoom) {
        numbers.push(entry.id)?;
    }
    Ok(())
}

/// The numbers of the boxes that show in another one at a zoom, in their order.
fn numbers_shown(
    alloc: Global,
    bounds: &WorldBox,
    zoom: u8,
    boxes: &[IndexEntry],
) -> Result<Vec<u64>, AllocError>
    ensures { IfOk result (λ v. v.items ≡ ids_shown bounds.now zoom boxes.now) }
{
    let mut numbers = Vec::new(alloc);
    for entry in boxes {
        append_shown(&mut numbers, bounds, zoom, entry)?;
    }
    Ok(numbers)
}

impl FeatureBoxes {
    /// The boxes of the features of a map. The only error is out of memory.
    pub(crate) fn of(
        alloc: Global,
        features: &NumberMap<StoredFeature>,
    ) -> Result<FeatureBoxes, AllocError>
        ensures { IfOk result (λ b. b ≡ entries_data features.now.entries) }
    {
        let mut boxes = Vec::with_capacity(alloc, features.len())?;
        append_blocks(&mut boxes, features.blocks())?;
        Ok(FeatureBoxes::with(Snapshot::of(features), boxes))
    }

    /// The boxes of the features of a map, which were read before.
    pub(crate) fn with(
        features: Snapshot<NumberMap<StoredFeature>>,
        boxes: Vec<IndexEntry>,
    ) -> FeatureBoxes
        requires { boxes.items ≡ map index_entry (entries_data features.value.entries) }
        ensures { result ≡ entries_data features.value.entries }
    {
        FeatureBoxes { features, boxes }
    }

    /// The tiles of a zoom that the first features cover, with those of the next `STEP_BOXES` features, or of those that are left if they are
    /// fewer. The only error is out of memory.
    pub(crate) fn read_on(&self, zoom: u8, mut first: Covers) -> Result<Covers, AllocError>
        requires zoom { zoom ≤ MAX_ZOOM }
        requires first { AreFirst zoom self.now first }
        ensures first { IfOk result (AreFirst zoom self.now) }
        ensures read { IfOk result (λ more. more.read ≡ min (first.read + STEP_BOXES) (length self.now)) }
    {
        let start = first.read;
        let count = STEP_BOXES.min(self.boxes.len() - start);
        append_boxes(&mut first.tiles, zoom, &self.boxes[start..start + count])?;
        first.read = start + count;
        Ok(first)
    }

    /// Whether these are the tiles of all features.
    pub(crate) fn are_all(&self, first: &Covers) -> bool
        ensures { IsTrue result ↔ (first.now.read ≡ length self.now) }
    {
        first.read == self.boxes.len()
    }

    /// The numbers of the features whose bounding box meets the box of a tile, and that have its zoom: it shows nothing of others. It looks
    /// at each box. The only error is out of memory.
    pub(crate) fn numbers_near(&self, alloc: Global, at: TileAt) -> Result<Vec<u64>, AllocError>
        requires zoom { at.z ≤ MAX_ZOOM }
        requires is_map { IsMap self.now }
        ensures { IfOk result (λ numbers. ShowsAll self.now at.z at.x at.y numbers.items) }
    {
        numbers_shown(alloc, &tile_box(at), at.z, &self.boxes)
    }
}
