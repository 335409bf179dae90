//! The tiles of an archive in the making.
ghost use Rattle.std.specs.Prelude.{◌≡◌, ◌<◌, ◌≤◌, ◌+◌, ◌-◌, ◌*◌, ◌++◌, ◌∷◌, [], length, take, min, Err, Some, None, OnOk, IfErr};
ghost use Rattle.feature_store.specs.Store.{FeatureMap, snapshot};
ghost use Rattle.pm_build.specs.Building.{AreFew, AreTooMany, CanAdd, NeedEntries};
ghost use Rattle.pm_build.specs.declared.ahead.TheConstants.{AHEAD_BYTES};
ghost use Rattle.area_content.specs.Faults.{HasManyTiles, IsContentFault, told_as};
ghost use Rattle.area_content.specs.Room.{AreBeyondIf, AreWithin, least_sectors};
ghost use Rattle.area_content.specs.declared.collected.TheConstants.{MAX_RESERVED_SECTORS};
ghost use Rattle.sector_disk.specs.declared.disk.TheConstants.{SECTOR_BYTES};

use crate::content::sectors_for;
use crate::fault::ContentFault;
use crate::frame::AreaFrame;
use feature_store::Tile;
use pm_build::{AHEAD_BYTES, ArchiveBuilder, ArchiveCounter, BuildFault};
use pm_header::HEADER_BYTES;
use sector_disk::SECTOR_BYTES;
use std::alloc::{AllocError, Global};
use std::mem;

/// A tile of this many bytes or more is put ahead and added in steps of its own: to make its last part and to add it are both long then.
pub(crate) const LARGE_TILE_BYTES: usize = 65_536;

/// Memory for contents is reserved for at most this many sectors, 65 MiB. glibc gives a block of more than 32 MiB pages of its own, if its heap has no
/// free block as large (at its end it has less than 64 MiB): as the block grows they are moved, not copied. A smaller one may be copied at each
/// growth. Pages that nothing was written to take no memory.
const MAX_RESERVED_SECTORS: u64 = 133_120;

/// A tile that is made and not added to its archive yet.
#[derive(Drop)]
pub(crate) struct Waiting {
    pub(crate) tile: Tile,
    /// How many first bytes of its content are put ahead.
    pub(crate) put: usize,
    /// How many whole parts of its content are still to be put ahead.
    pub(crate) parts: usize,
}

/// The tiles that were added so far. Their contents are kept as long as they fit in the area. From the first tile on that doesn't, none is
/// kept, and what an archive of all has is counted.
#[derive(Drop)]
pub(crate) struct Collected {
    pub(crate) kept: ArchiveBuilder,
    pub(crate) counted: Option<ArchiveCounter>,
    /// The tile after them, if it is made and not added yet.
    pub(crate) waiting: Option<Waiting>,
    pub(crate) alloc: Global,
}

/// The fault reported if a tile can't be added to an archive.
pub(crate) fn to_content_fault(fault: BuildFault) -> ContentFault
    ensures { result ≡ told_as fault }
{
    match fault {
        BuildFault::TooManyEntries => ContentFault::TooManyTiles,
        BuildFault::Memory => ContentFault::Memory,
    }
}

/// How many sectors a snapshot with this text takes, and an archive of the tiles that were added at least.
fn least_sectors(builder: &ArchiveBuilder, text: &[u8], metadata: &[u8]) -> u64
    ensures { (m : FeatureMap) → text.now ≡ snapshot m → result ≡ least_sectors m metadata.now builder.now.tiles }
{
    let archive = HEADER_BYTES + metadata.len() + builder.content_len();
    sectors_for(text.len()) + sectors_for(archive)
}

/// How many bytes of contents memory is reserved for, if the area has `area` sectors.
fn capacity_for(area: u64) -> usize
    ensures { result ≡ min area MAX_RESERVED_SECTORS * SECTOR_BYTES }
{
    area.min(MAX_RESERVED_SECTORS) as usize * SECTOR_BYTES
}

impl Collected {
    ghost use Rattle.area_content.specs.Collected.{tiles_of};
    ghost use Rattle.area_content.specs.Waiting.{parts_of};

    /// No tiles, for an area of `area` sectors. It tries to reserve memory for their contents, and doesn't need it.
    pub(crate) fn new(alloc: Global, area: u64) -> Collected
        ensures kept { result.kept ≡ record { tiles = []; ahead = [] } }
        ensures counted { result.counted ≡ None }
        ensures waiting { result.waiting ≡ None }
    {
        Collected {
            kept: ArchiveBuilder::with_capacity(alloc, capacity_for(area)),
            counted: None,
            waiting: None,
            alloc,
        }
    }

    /// How many entries an archive of the tiles has.
    pub(crate) fn entries(&self) -> usize
        ensures { NeedEntries (tiles_of self.now) result }
    {
        match &self.counted {
            Some(counter) => counter.entries(),
            None => self.kept.entries(),
        }
    }

    /// Lets a tile wait. If tiles are kept, the whole parts of its content, of `AHEAD_BYTES` bytes each, are put ahead before it is added.
    pub(crate) fn let_wait(&mut self, tile: Tile)
        ensures kept { self.new.kept ≡ self.old.kept }
        ensures counted { self.new.counted ≡ self.old.counted }
        ensures waiting { self.new.waiting ≡ Some (record { tile = tile; put = 0; parts = parts_of self.old.counted (length tile.1.items) }) }
    {
        let parts = match &self.counted {
            Some(_) => 0,
            None => tile.1.len() / AHEAD_BYTES,
        };
        self.waiting = Some(Waiting {
            tile,
            put: 0,
            parts,
        });
    }

    /// Puts the next part of the content of a tile ahead, which waits on. The only error is out of memory.
    pub(crate) fn put_ahead(&mut self, waiting: Waiting) -> Result<(), AllocError>
        requires parts { 0 < waiting.parts }
        requires inside { waiting.put + waiting.parts * AHEAD_BYTES ≤ length waiting.tile.1.items }
        requires ahead { self.old.kept.ahead ≡ take waiting.put waiting.tile.1.items }
        ensures tiles { OnOk result (self.new.kept.tiles ≡ self.old.kept.tiles) }
        ensures ahead { OnOk result (self.new.kept.ahead ≡ take (waiting.put + AHEAD_BYTES) waiting.tile.1.items) }
        ensures counted { OnOk result (self.new.counted ≡ self.old.counted) }
        ensures waiting { OnOk result
            (self.new.waiting ≡ Some (record { tile = waiting.tile; put = waiting.put + AHEAD_BYTES; parts = waiting.parts - 1 })) }
    {
        let Waiting { tile, put, parts } = waiting;
        let end = put + AHEAD_BYTES;
        self.kept.put_ahead(&tile.1[put..end])?;
        self.waiting = Some(Waiting {
            tile,
            put: end,
            parts: parts - 1,
        });
        Ok(())
    }

    /// Adds a tile to those whose contents are kept. The first `put` bytes of its content are ahead. A large one is put ahead whole.
    fn add(&mut self, id: u64, content: &[u8], put: usize) -> Result<(), BuildFault>
        requires inside { put ≤ length content.now }
        requires ahead { self.old.kept.ahead ≡ take put content.now }
        requires can { CanAdd self.old.kept.tiles (id, content.now) }
        ensures added { OnOk result (self.new.kept.tiles ≡ self.old.kept.tiles ++ (id, content.now) ∷ []) }
        ensures ahead { OnOk result (self.new.kept.ahead ≡ []) }
        ensures few { OnOk result (AreFew self.new.kept.tiles) }
        ensures many { result ≡ Err BuildFault.TooManyEntries → AreTooMany (self.old.kept.tiles ++ (id, content.now) ∷ []) }
        ensures counted { self.new.counted ≡ self.old.counted }
        ensures waiting { self.new.waiting ≡ self.old.waiting }
    {
        if content.len() < LARGE_TILE_BYTES {
            return self.kept.add(id, content);
        }
        match self.kept.put_ahead(&content[put..]) {
            Ok(()) => self.kept.add_ahead(id),
            Err(_) => Err(BuildFault::Memory),
        }
    }

    /// Counts the tiles from now on. Returns the list of contents that were kept, which is of no use any more. The only error is out of memory; the
    /// tiles are lost then.
    fn count(&mut self) -> Result<Vec<u8>, AllocError>
        ensures counted { OnOk result (self.new.counted ≡ Some self.old.kept.tiles) }
        ensures kept { OnOk result (self.new.kept ≡ record { tiles = []; ahead = [] }) }
        ensures waiting { OnOk result (self.new.waiting ≡ self.old.waiting) }
    {
        let kept = mem::replace(&mut self.kept, ArchiveBuilder::new(self.alloc));
        let (counter, spent) = kept.into_counter()?;
        self.counted = Some(counter);
        Ok(spent)
    }

    /// Adds a tile, whose content is kept unless with it the snapshot and an archive no longer fit in the area. The first `put` bytes of its content
    /// are ahead. Returns the list of contents that were kept until then and are of no use any more, or an empty one.
    ///
    /// # Errors
    ///
    /// `TooManyTiles` if the tiles need more entries than an archive takes. `Memory` if an allocation fails.
    pub(crate) fn keep(
        &mut self,
        id: u64,
        content: &[u8],
        put: usize,
        frame: AreaFrame<'_>,
    ) -> Result<Vec<u8>, ContentFault>
        requires none { self.old.counted ≡ None }
        requires inside { put ≤ length content.now }
        requires ahead { self.old.kept.ahead ≡ take put content.now }
        requires can { CanAdd self.old.kept.tiles (id, content.now) }
        ensures added { OnOk result (tiles_of self.new ≡ self.old.kept.tiles ++ (id, content.now) ∷ []) }
        ensures ahead { OnOk result (self.new.kept.ahead ≡ []) }
        ensures few { OnOk result (AreFew (tiles_of self.new)) }
        ensures within { OnOk result ((m : FeatureMap) → frame.entry.text.now ≡ snapshot m
            → AreWithin m frame.entry.metadata.now frame.entry.area self.new.kept.tiles) }
        ensures beyond { OnOk result ((m : FeatureMap) → frame.entry.text.now ≡ snapshot m
            → AreBeyondIf m frame.entry.metadata.now frame.entry.area self.new.counted) }
        ensures waiting { OnOk result (self.new.waiting ≡ self.old.waiting) }
        ensures fault { IfErr result (λ fault. (m : FeatureMap) → (AreTooMany (self.old.kept.tiles ++ (id, content.now) ∷ []) → HasManyTiles m)
            → IsContentFault m frame.entry.metadata.now frame.entry.area fault) }
    {
        match self.add(id, content, put) {
            Ok(()) => {}
            Err(fault) => return Err(to_content_fault(fault)),
        }
        if least_sectors(&self.kept, frame.text, frame.metadata) <= frame.area {
            return Ok(Vec::new(self.alloc));
        }
        match self.count() {
            Ok(spent) => Ok(spent),
            Err(_) => Err(ContentFault::Memory),
        }
    }
}
