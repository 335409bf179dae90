//! What a service tells of itself.
ghost use Rattle.std.specs.Prelude.{◌≡◌, ◌+◌, option_map};
ghost use Rattle.feature_store.specs.Digests.{map_digest};
ghost use Rattle.generations.specs.Areas.{sectors_of};
ghost use Rattle.tile_cache.specs.Cells.{stale_cells};
ghost use Rattle.tile_service.specs.Service.{left_of, status_of};

use crate::service::Service;
use generations::sectors_for;
use sector_disk::Sectors;
use tile_cache::LEVEL_CELLS;

/// What a service tells of itself.
#[derive(Clone, Copy)]
pub struct Status {
    /// How many sectors the disk was formatted with.
    pub sectors: u64,
    /// The version of its format.
    pub version: u32,
    /// How many features the map has.
    pub features: u64,
    /// The greatest id of a feature, if there is one. The next free id is above it.
    pub last: Option<u64>,
    /// The digest of the map.
    pub digest: u64,
    /// The number of the last edit, or 0.
    pub edits: u64,
    /// The number of the last edit in the archive that was installed last, or 0.
    pub published: u64,
    /// The number of the last edit that isn't listed any more, or 0.
    pub forgotten: u64,
    /// How often an archive was installed.
    pub generation: u64,
    /// The length in bytes of the archive that was installed last, or 0.
    pub archive_len: u64,
    /// How many places the journal has.
    pub journal_places: u64,
    /// How many of them are in use.
    pub journal_used: u64,
    /// How many sectors each area has.
    pub area_sectors: u64,
    /// How many of them the last snapshot and its archive take.
    pub area_used: u64,
    /// In how many cells the area is counted that edits touch: 1.2 km wide at the equator, and those that are 39 km apart are one.
    pub cells: u64,
    /// How many of them an edit after `published` has touched, by the boxes that its features had before and have after it.
    pub stale: u64,
    /// If a publication is in the making: how many places of the journal were in use when its map was fixed.
    pub drafting: Option<u64>,
    /// How much is left of the publication under way: the sectors to write, and one for the root.
    pub left: Option<u64>,
    /// Whether a write or a sync of the disk has failed.
    pub broken: bool,
}

impl<D: Sectors + Drop> Service<D> {
    /// How much is left of the publication under way.
    fn left(&self) -> Option<u64>
        ensures { result ≡ option_map left_of self.now.publication }
    {
        match &self.publication {
            Some(publication) => Some(publication.content.left(publication.written) + 1),
            None => None,
        }
    }

    /// How many places of the journal were in use when the publication in the making began.
    fn places_drafted(&self) -> Option<u64>
        ensures { result ≡ option_map (λ d. d.places) self.now.drafting }
    {
        match &self.draft {
            Some(draft) => Some(draft.places),
            None => None,
        }
    }

    /// How many sectors of an area the last snapshot and its archive take.
    fn area_used(&self) -> u64
        ensures { result ≡ sectors_of self.now.snapshot_len + sectors_of self.now.archive_len }
    {
        sectors_for(self.root.snapshot_len) + sectors_for(self.root.archive_len)
    }

    /// How many cells an edit after the last published one has touched.
    fn stale(&self) -> u64
        ensures { result ≡ stale_cells self.now.touched self.now.journal.edits }
    {
        self.map.stale(self.journal.edits)
    }

    /// The digest of the map: a number by which it is told from other maps. It is kept, and no feature is read.
    pub fn digest(&self) -> u64
        ensures { result ≡ map_digest self.now.features }
    {
        self.map.store().digest()
    }

    /// What the service tells of itself, a broken one too. It doesn't allocate, and the disk isn't read.
    pub fn status(&self) -> Status
        ensures { result ≡ status_of self.now }
    {
        Status {
            sectors: self.layout.sectors,
            version: self.version,
            features: self.map.store().len() as u64,
            last: self.map.store().greatest(),
            digest: self.digest(),
            edits: self.journal.last,
            published: self.journal.edits,
            forgotten: self.kept_journal.edits,
            generation: self.root.generation,
            archive_len: self.root.archive_len,
            journal_places: self.journal.places,
            journal_used: self.journal.used,
            area_sectors: self.layout.area,
            area_used: self.area_used(),
            cells: LEVEL_CELLS as u64,
            stale: self.stale(),
            drafting: self.places_drafted(),
            left: self.left(),
            broken: self.broken,
        }
    }
}
