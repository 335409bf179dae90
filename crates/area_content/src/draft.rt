//! The content of an area in the making, by steps between which the map may be edited.
ghost use Rattle.std.specs.Prelude.{◌≡◌, ◌≢◌, ◌<◌, ◌≤◌, ◌^◌, [], length, All, Ok, true, false, IfOk, IfErr};
ghost use Rattle.feature_store.specs.Moments.{IsAsOf};
ghost use Rattle.feature_store.specs.Reading.{IsRead};
ghost use Rattle.feature_store.specs.Store.{FeatureMap, IsMap, snapshot};
ghost use Rattle.feature_store.specs.Tiles.{AreTiles};
ghost use Rattle.pm_metadata.specs.Archive.{IsMetadata};
ghost use Rattle.area_content.specs.Content.{sectors_taken};
ghost use Rattle.area_content.specs.Drafts.{AreAddedBelow};
ghost use Rattle.area_content.specs.Faults.{IsBuiltFor, IsContentFault, IsShort};
ghost use Rattle.area_content.specs.Room.{AreBeyond};

use crate::archive::{Progress, archive_of, make_next};
use crate::collected::{Collected, Waiting};
use crate::content::{AreaContent, sectors_for, within};
use crate::fault::ContentFault;
use crate::frame::{AreaFrame, MapThen};
use crate::spent::SpentContent;
use feature_store::{Moment, MomentReader, Store, Tiles};
use pm_build::{ArchiveBuilder, ArchiveCounter};
use std::alloc::{AllocError, Global};
use std::marker::Model;

/// How far a draft is.
#[derive(Clone, Copy, PartialEq, Eq)]
pub enum Stage {
    /// Tiles are left to make.
    Going,
    /// The tiles are made.
    Made,
    /// A step has failed.
    Failed,
}

/// How many tiles are made and added.
#[derive(Clone, Copy)]
pub struct AddedTiles {
    /// The tiles.
    pub count: u64,
    /// The entries that an archive of them has: one for each run of equal tiles.
    pub entries: u64,
}

/// The content of an area for a map as of a moment, in the making. Each step makes a part of a tile, copies a part of a large one, or adds it, and
/// the map may be edited between two of them (`feature_store::Store::place_after`, `remove_after`). What it holds is the snapshot, the boxes of
/// the features, the contents of the tiles so far, which fit into the area, one tile more, which is in the making or not added yet, and what is
/// copied of that, and what isn't given back yet of a large one that was added: each step gives back 2 MiB. Once a tile doesn't fit, no content is
/// kept: what it holds then is a record for each run and for each different content, the last tile that was added and the one after it. A step that
/// adds this one may make an equal tile again.
#[derive(Drop)]
pub struct ContentDraft {
    text: Vec<u8>,
    metadata: Vec<u8>,
    tiles: Tiles,
    collected: Collected,
    /// What is left of the last large tile that was added, and of the contents that are kept no longer once tiles are counted.
    spent: Option<SpentContent>,
    /// How many tiles are added.
    made: u64,
    area: u64,
    stage: Stage,
    alloc: Global,
}

impl Model for ContentDraft {
    ghost use Rattle.area_content.specs.Drafts.{DraftView};

    ghost Value = { DraftView };

    ghost use Rattle.area_content.specs.DraftInside.{draft_view, IsDraft};

    ghost view = { draft_view };

    ghost invariant = { IsDraft };
}

/// Lets go what is of no use any more once the tiles are made. How its parts go is proved here alone.
fn let_go(_tiles: Tiles, _waiting: Option<Waiting>, _spent: Option<SpentContent>) {}

/// The fault of all tiles of a map, with the snapshot `text`, that don't fit in an area of `area` sectors.
fn full_of(counter: &ArchiveCounter, text: &[u8], metadata: &[u8], area: u64) -> ContentFault
    requires metadata { IsMetadata metadata.now }
    requires some { counter.now ≢ [] }
    ensures { (m : FeatureMap) → IsMap m → text.now ≡ snapshot m → AreTiles m counter.now → All IsShort counter.now
        → AreBeyond m metadata.now area counter.now → IsContentFault m metadata.now area result }
{
    match counter.archive_len(metadata) {
        Ok(archive) => ContentFault::AreaFull {
            need: sectors_for(text.len()) + sectors_for(archive),
            free: area,
        },
        Err(_) => ContentFault::Memory,
    }
}

/// The content of all tiles of a map, with the snapshot `text`, if it fits in an area of `area` sectors.
fn content_with(
    alloc: Global,
    builder: ArchiveBuilder,
    text: Vec<u8>,
    metadata: &[u8],
    area: u64,
) -> Result<AreaContent, ContentFault>
    requires { IsMetadata metadata.now }
    ensures snapshot { IfOk result (λ c. c.snapshot ≡ text.items) }
    ensures built { (m : FeatureMap) → IsMap m → AreTiles m builder.tiles → All IsShort builder.tiles → IfOk result (λ c. IsBuiltFor m metadata.now c.archive) }
    ensures fits { IfOk result (λ c. sectors_taken c ≤ area) }
    ensures fault { (m : FeatureMap) → IsMap m → text.items ≡ snapshot m → AreTiles m builder.tiles → All IsShort builder.tiles
        → IfErr result (IsContentFault m metadata.now area) }
{
    let archive = match archive_of(alloc, builder, metadata) {
        Ok(archive) => archive,
        Err(_) => return Err(ContentFault::Memory),
    };
    within(AreaContent::of(text, archive), area)
}

impl ContentDraft {
    ghost use Rattle.area_content.specs.declared.draft.Stage.TheVariants.{Going, Made};

    /// The content of a map whose features are all read, for an area of `area` sectors, with no tile made. `metadata` is the JSON object in the
    /// archive. The only error is out of memory.
    pub fn of(
        alloc: Global,
        reader: MomentReader,
        metadata: Vec<u8>,
        area: u64,
    ) -> Result<ContentDraft, AllocError>
        requires read { IsRead reader }
        requires metadata { IsMetadata metadata.items }
        requires area { area < 2 ^ 23 }
        ensures features { IfOk result (λ d. d.features ≡ reader.features) }
        ensures metadata { IfOk result (λ d. d.metadata ≡ metadata.items) }
        ensures area { IfOk result (λ d. d.area ≡ area) }
        ensures stage { IfOk result (λ d. d.stage ≡ Going) }
    {
        let (text, tiles) = reader.finish()?;
        Ok(ContentDraft {
            text,
            metadata,
            tiles,
            collected: Collected::new(alloc, area),
            spent: None,
            made: 0,
            area,
            stage: Stage::Going,
            alloc,
        })
    }

    /// How many tiles are made and added, and how many entries an archive of them has.
    pub fn added(&self) -> AddedTiles
        ensures { self.now.stage ≡ Going → AreAddedBelow self.now.features self.now.from result }
    {
        AddedTiles {
            count: self.made,
            entries: self.collected.entries() as u64,
        }
    }

    /// Makes a part of the next tile of the moment, `store` being the map as it is now, and at its last part adds the tile. A large tile is added
    /// by the steps after that, which make no part: as long as contents are kept, each copies `AHEAD_BYTES` of its bytes after them, and the last
    /// one copies the rest and adds the tile. It is true if tiles may be left.
    ///
    /// # Errors
    ///
    /// As `content_of`, for the map of the moment. The draft is of no use then.
    pub fn step(&mut self, store: &Store, moment: &Moment) -> Result<bool, ContentFault>
        requires stage { self.old.stage ≡ Going }
        requires same { moment.now.features ≡ self.old.features }
        requires there { moment.now.lost ≡ false }
        requires as_of { IsAsOf moment.now store.now.features }
        ensures features { self.new.features ≡ self.old.features }
        ensures metadata { self.new.metadata ≡ self.old.metadata }
        ensures area { self.new.area ≡ self.old.area }
        ensures going { result ≡ Ok true → self.new.stage ≡ Going }
        // So steps until it is false end.
        ensures ahead { result ≡ Ok true → self.new.ahead < self.old.ahead }
        ensures made { result ≡ Ok false → self.new.stage ≡ Made }
        ensures fault { IfErr result (IsContentFault self.old.features self.old.metadata self.old.area) }
    {
        self.stage = Stage::Failed;
        self.spent = self.spent.take().and_then(SpentContent::shrunk);
        let frame = AreaFrame {
            text: &self.text,
            metadata: &self.metadata,
            area: self.area,
        };
        let result = make_next(
            &mut self.tiles,
            &mut self.collected,
            &mut self.spent,
            MapThen { store, moment },
            frame,
        );
        match result {
            Ok(Progress::Part) => {
                self.stage = Stage::Going;
                Ok(true)
            }
            Ok(Progress::Tile) => {
                self.made += 1;
                self.stage = Stage::Going;
                Ok(true)
            }
            Ok(Progress::Over) => {
                self.stage = Stage::Made;
                Ok(false)
            }
            Err(fault) => Err(fault),
        }
    }

    /// Lets it go. How its parts go is proved here, and not in each function that has a draft.
    pub fn end(self) {
        let ContentDraft {
            text: _,
            metadata: _,
            tiles,
            collected,
            spent,
            made: _,
            area: _,
            stage: _,
            alloc: _,
        } = self;
        let Collected {
            kept: _,
            counted: _,
            waiting,
            alloc: _,
        } = collected;
        let_go(tiles, waiting, spent);
    }

    /// The content, once the tiles are made.
    ///
    /// # Errors
    ///
    /// As `content_of`, for the map of the moment.
    pub fn finish(self) -> Result<AreaContent, ContentFault>
        requires { self.stage ≡ Made }
        ensures snapshot { IfOk result (λ c. c.snapshot ≡ snapshot self.features) }
        ensures built { IfOk result (λ c. IsBuiltFor self.features self.metadata c.archive) }
        ensures fits { IfOk result (λ c. sectors_taken c ≤ self.area) }
        ensures fault { IfErr result (IsContentFault self.features self.metadata self.area) }
    {
        let ContentDraft {
            text,
            metadata,
            tiles,
            collected,
            spent,
            made: _,
            area,
            stage: _,
            alloc,
        } = self;
        let Collected {
            kept,
            counted,
            waiting,
            alloc: _,
        } = collected;
        let_go(tiles, waiting, spent);
        match counted {
            Some(counter) => Err(full_of(&counter, &text, &metadata, area)),
            None => content_with(alloc, kept, text, &metadata, area),
        }
    }
}
