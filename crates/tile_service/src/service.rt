//! A service: a disk, and its state in memory.
ghost use Rattle.std.specs.Prelude.{◌≡◌};
ghost use Rattle.generations.specs.Sectors.{IsVersion};

use crate::drafting::Draft;
use crate::letting_go::let_go;
use crate::metadata_steps::MapMetadata;
use crate::publishing::Publication;
use area_content::SpentContent;
use cached_map::CachedMap;
use edit_journal::Journal;
use feature_store::Moment;
use generations::{Layout, Root};
use published_tiles::PublishedTiles;
use sector_disk::Sectors;
use std::alloc::Global;
use std::marker::Model;

/// A map on a disk that nobody else writes.
#[derive(Drop)]
pub struct Service<D: Sectors + Drop> {
    pub(crate) alloc: Global,
    pub(crate) disk: D,
    pub(crate) layout: Layout,
    pub(crate) version: u32,
    pub(crate) journal: Journal,
    /// The journal with the records before it that its ring still has: published ones, which newer records overwrite.
    pub(crate) kept_journal: Journal,
    pub(crate) map: CachedMap,
    /// The metadata of the map, or what is read for it, if somebody has asked for it since the last edit.
    pub(crate) metadata: Option<MapMetadata>,
    pub(crate) root: Root,
    pub(crate) publication: Option<Publication>,
    /// The publication in the making.
    pub(crate) draft: Option<Draft>,
    /// The moment whose map it is of.
    pub(crate) moment: Option<Moment>,
    /// What is left of the memory of the last publication's content.
    pub(crate) spent: Option<SpentContent>,
    pub(crate) published: PublishedTiles,
    pub(crate) broken: bool,
}

impl<D: Sectors + Drop> Model for Service<D> {
    ghost use Rattle.tile_service.specs.Service.{ServiceView, IsService};

    ghost Value = { ServiceView D };

    ghost use Rattle.tile_service.specs.Inside.{service_view};

    ghost view = { service_view };

    ghost invariant = { λ s. IsService (D.sectors s.disk) s.layout.sectors s.version s.root s.journal s.kept_journal s.map s.publication s.metadata s.moment s.draft };
}

impl<D: Sectors + Drop> Service<D> {
    /// The version of the disk's format: 1 takes edits of one change, 2 batches too.
    pub fn version(&self) -> u32
        ensures is { result ≡ self.now.version }
        ensures known { IsVersion result }
    {
        self.version
    }

    /// How the sectors of its disk are divided.
    pub fn layout(&self) -> Layout
        ensures { result.sectors ≡ self.now.size }
    {
        self.layout
    }

    /// Returns the disk.
    pub fn into_disk(self) -> D
        ensures { result ≡ self.disk }
    {
        let Service {
            alloc: _,
            disk,
            layout: _,
            version: _,
            journal: _,
            kept_journal: _,
            map,
            metadata: _,
            root: _,
            publication: _,
            draft,
            moment,
            spent: _,
            published: _,
            broken: _,
        } = self;
        let_go(draft, moment);
        map.end();
        disk
    }
}
