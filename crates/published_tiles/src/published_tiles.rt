//! Tiles of the archives of a disk.
ghost use Rattle.std.specs.Prelude.{◌≡◌, ◌≤◌, ◌+◌, ℕ, List, Ok, Err, None, MatchResult, option_map};
ghost use Rattle.area_content.specs.Tiles.{IsArchiveOfMap};
ghost use Rattle.feature_store.specs.Content.{IsTileContent};
ghost use Rattle.feature_store.specs.Layers.{layers};
ghost use Rattle.feature_store.specs.Store.{FeatureMap};
ghost use Rattle.generations.specs.Areas.{sectors_of};
ghost use Rattle.pm_archive.specs.Answers.{IsOutside};
ghost use Rattle.sector_bytes.specs.Counts.{HasRisen, NeverFalls};
ghost use Rattle.sector_bytes.specs.Source.{AreItsBytes};
ghost use Rattle.sector_disk.specs.Asked.{OnlyReads};
ghost use Rattle.sector_disk.specs.Disk.{seen};
ghost use Rattle.published_tiles.specs.declared.place.ArchivePlace.{ArchivePlace};

use crate::opened::Opened;
use crate::place::ArchivePlace;
use crate::reading::{read_tile, read_tile_part};
use crate::tile_reading::TileReading;
use hilbert_id::{TileAt, id_of};
use pm_archive::ArchiveFault;
use sector_disk::Sectors;
use std::alloc::Global;
use std::marker::Model;

/// Reads tiles of the archives of a disk, and keeps the look-up of the archive read last, and the first bytes of a tile that is read by parts.
#[derive(Drop)]
pub struct PublishedTiles {
    alloc: Global,
    opened: Option<Opened>,
    reading: Option<TileReading>,
}

impl Model for PublishedTiles {
    ghost use Rattle.published_tiles.specs.Published.{PublishedView};

    ghost Value = { PublishedView };

    ghost view = { λ t. record { opened = t.opened; reading = t.reading } };
}

impl PublishedTiles {
    ghost use Rattle.published_tiles.specs.Published.{ArePublished};

    /// Nothing is kept yet.
    pub fn new(alloc: Global) -> PublishedTiles
        ensures { (place : ArchivePlace) (bytes : List ℕ) → ArePublished result place bytes }
    {
        PublishedTiles {
            alloc,
            opened: None,
            reading: None,
        }
    }

    /// The bytes of a tile in the archive stored on a disk, or `None` if the tile is empty. Those that `prepare` has read aren't read again.
    /// Nothing is written to the disk, and of an archive without bytes nothing is read.
    ///
    /// # Errors
    ///
    /// `Read`, only if a read of the disk failed, or `Memory`; if the stored bytes aren't an archive, the fault that was found. The look-up
    /// is still valid for the archive.
    pub fn tile<D: Sectors>(
        &mut self,
        disk: &mut D,
        archive: ArchivePlace,
        at: TileAt,
    ) -> Result<Option<Vec<u8>>, ArchiveFault>
        requires on_disk { archive.first + sectors_of archive.len ≤ D.sectors disk.old }
        ensures disk { OnlyReads D.sectors D.honest D.history disk.old disk.new }
        ensures never_falls { NeverFalls (D.faults disk.old) (D.faults disk.new) }
        ensures tile { (m : FeatureMap) (metadata bytes : List ℕ) → D.honest disk.new
            → AreItsBytes archive.first archive.len bytes (seen (D.history disk.old)) → IsArchiveOfMap m metadata bytes
            → ArePublished self.old archive bytes
            → MatchResult result (λ content. IsTileContent (layers m at.z at.x at.y) (option_map (λ b. b.items) content)) IsOutside }
        ensures still { (bytes : List ℕ) → D.honest disk.new
            → AreItsBytes archive.first archive.len bytes (seen (D.history disk.old)) → ArePublished self.old archive bytes
            → ArePublished self.new archive bytes }
        ensures none { archive.len ≡ 0 → (result ≡ Ok None) × (self.new ≡ self.old) × (disk.new ≡ disk.old) }
        ensures read { result ≡ Err ArchiveFault.Read → HasRisen (D.faults disk.old) (D.faults disk.new) }
    {
        if archive.len == 0 {
            return Ok(None);
        }
        read_tile(
            self.alloc,
            disk,
            archive,
            &mut self.opened,
            &mut self.reading,
            id_of(at),
        )
    }

    /// Reads the next part of a tile of more than one part, a MiB, in the archive stored on a disk: `tile` then reads what is left. It says whether
    /// parts are left, and is `None` for another tile. One tile is read by parts at a time: what was read of another one is dropped. Without
    /// `begins` no tile is begun, so that nothing is dropped. Nothing is written to the disk, and of an archive without bytes nothing is read.
    ///
    /// # Errors
    ///
    /// Those of `tile`. What was read of the tile is dropped, and the look-up is still valid for the archive.
    pub fn prepare<D: Sectors>(
        &mut self,
        disk: &mut D,
        archive: ArchivePlace,
        at: TileAt,
        begins: bool,
    ) -> Result<Option<bool>, ArchiveFault>
        requires on_disk { archive.first + sectors_of archive.len ≤ D.sectors disk.old }
        ensures disk { OnlyReads D.sectors D.honest D.history disk.old disk.new }
        ensures never_falls { NeverFalls (D.faults disk.old) (D.faults disk.new) }
        ensures still { (bytes : List ℕ) → D.honest disk.new
            → AreItsBytes archive.first archive.len bytes (seen (D.history disk.old)) → ArePublished self.old archive bytes
            → ArePublished self.new archive bytes }
        ensures none { archive.len ≡ 0 → (result ≡ Ok None) × (self.new ≡ self.old) × (disk.new ≡ disk.old) }
        ensures read { result ≡ Err ArchiveFault.Read → HasRisen (D.faults disk.old) (D.faults disk.new) }
    {
        if archive.len > 0 {
            return read_tile_part(
                self.alloc,
                disk,
                archive,
                &mut self.opened,
                &mut self.reading,
                id_of(at),
                begins,
            );
        }
        Ok(None)
    }
}
