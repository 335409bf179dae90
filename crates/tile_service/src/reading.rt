//! The features of the map of a draft, read by steps for its snapshot, its tiles and its metadata.
ghost use Rattle.std.specs.Prelude.{◌≡◌, ◌<◌, ◌^◌, Ok, true, false, IfOk};
ghost use Rattle.feature_store.specs.Moments.{IsAsOf};
ghost use Rattle.feature_store.specs.Reading.{IsRead};
ghost use Rattle.tile_service.specs.Service.{IsMaking, IsReading, numbers_left};

use area_content::ContentDraft;
use feature_store::{Moment, MomentReader, Store};
use map_metadata::MetadataDraft;
use std::alloc::{AllocError, Global};

/// The map of a moment in the reading.
#[derive(Drop)]
pub(crate) struct MapReading {
    /// What is read for the snapshot and the tiles.
    pub(crate) map: MomentReader,
    /// What is read for the metadata.
    pub(crate) metadata: MetadataDraft,
    /// How many sectors the area has.
    pub(crate) area: u64,
    pub(crate) alloc: Global,
}

impl MapReading {
    /// The map as it is now, for an area of `area` sectors, with no feature read. The only error is out of memory.
    pub(crate) fn of(alloc: Global, store: &Store, area: u64) -> Result<MapReading, AllocError>
        requires { area < 2 ^ 23 }
        ensures { IfOk result (IsReading area store.now.features) }
    {
        let map = MomentReader::of(alloc, store)?;
        Ok(MapReading {
            map,
            metadata: MetadataDraft::of(alloc, store),
            area,
            alloc,
        })
    }

    /// Reads the next features of the moment. `store` is the map as it is now. It is true if features may be left. The only error is out of
    /// memory.
    pub(crate) fn step(&mut self, store: &Store, moment: &Moment) -> Result<bool, AllocError>
        requires reading { IsReading self.old.area moment.now.features self.old }
        requires there { moment.now.lost ≡ false }
        requires as_of { IsAsOf moment.now store.now.features }
        ensures reading { IsReading self.old.area moment.now.features self.new }
        // So steps until it is false end.
        ensures left { result ≡ Ok true → numbers_left self.new < numbers_left self.old }
        ensures map { result ≡ Ok false → IsRead self.new.map }
        ensures metadata { result ≡ Ok false → IsRead self.new.metadata }
    {
        let map_left = self.map.step(store, moment)?;
        let metadata_left = self.metadata.step(store, moment)?;
        Ok(map_left || metadata_left)
    }

    /// Reads the features that are left of the moment. `store` is the map as it is now. The only error is out of memory.
    pub(crate) fn read_all(&mut self, store: &Store, moment: &Moment) -> Result<(), AllocError>
        requires reading { IsReading self.old.area moment.now.features self.old }
        requires there { moment.now.lost ≡ false }
        requires as_of { IsAsOf moment.now store.now.features }
        ensures reading { IsReading self.old.area moment.now.features self.new }
        ensures map { IfOk result (λ done. IsRead self.new.map) }
        ensures metadata { IfOk result (λ done. IsRead self.new.metadata) }
    {
        loop {
            match self.step(store, moment) {
                Ok(true) => {}
                Ok(false) => return Ok(()),
                Err(fault) => return Err(fault),
            }
        }
    }

    /// The content of the map, of which all features are read, with no tile made. The only error is out of memory.
    pub(crate) fn content(self) -> Result<ContentDraft, AllocError>
        requires same { self.metadata.features ≡ self.map.features }
        requires area { self.area < 2 ^ 23 }
        requires map { IsRead self.map }
        requires metadata { IsRead self.metadata }
        ensures { IfOk result (IsMaking self.area self.map.features) }
    {
        let MapReading {
            map,
            metadata,
            area,
            alloc,
        } = self;
        let text = metadata.finish()?;
        ContentDraft::of(alloc, map, text.into_bytes(), area)
    }
}
