//! Tiles that are made or read by parts, between which other calls are made.
ghost use Rattle.std.specs.Prelude.{◌≡◌, ℕ, None, length, nat_lt, true, false, IsTrue};
ghost use Rattle.sector_bytes.specs.Counts.{NeverFalls};
ghost use Rattle.sector_disk.specs.Asked.{OnlyReads};
ghost use Rattle.tile_cache.specs.Touched.{IsNewestOf};
ghost use Rattle.tile_service.specs.Making.{is_made};
ghost use Rattle.tile_service.specs.Service.{IsUp};
ghost use Rattle.tile_service.specs.Stored.{Stored};

use crate::service::Service;
use hilbert_id::TileAt;
use sector_disk::Sectors;
use std::alloc::AllocError;

/// The most features of a tile that is made at once, also where tiles are made by parts.
const MAX_AT_ONCE: usize = 1_024;

impl<D: Sectors + Drop> Service<D> {
    /// Whether `tile` would make the tile anew, if no read fails and this is the number of the newest edit that can have touched the tile.
    fn is_made_after(&self, at: TileAt, newest: u64) -> bool
        ensures { result ≡ is_made self.now newest at.z at.x at.y }
    {
        let reads = !self.broken;
        if reads && newest <= self.journal.edits {
            return false;
        }
        !self.map.has(at, newest, reads)
    }

    /// Whether `tile` would make the tile anew, if no read fails. It doesn't allocate, and the disk isn't read.
    pub fn is_made(&self, at: TileAt) -> bool
        ensures { (newest : ℕ) → IsNewestOf self.now.touched at.z at.x at.y newest → result ≡ is_made self.now newest at.z at.x at.y }
    {
        self.is_made_after(at, self.map.newest(at))
    }

    /// Whether the map has more features than a tile has that is made at once.
    pub fn is_large(&self) -> bool
        ensures { result ≡ nat_lt MAX_AT_ONCE (length self.now.features) }
    {
        self.map.store().len() > MAX_AT_ONCE
    }

    /// A number that is another one after each edit, and after each tile that was made or read.
    pub fn tile_stamp(&self) -> u64 {
        self.map.stamp()
    }

    /// Whether more features have boxes near the tile than a tile has that is made at once; false if memory is missing to find them. It makes as
    /// many and forgets them.
    pub fn is_long(&self, at: TileAt) -> bool {
        match self.map.has_more(at, MAX_AT_ONCE) {
            Ok(more) => more,
            Err(AllocError) => false,
        }
    }

    /// Which tile is in the making by `prepare_tile`.
    pub fn tile_in_making(&self) -> Option<TileAt> {
        self.map.in_making()
    }

    /// Makes a part of a tile, the next one if some are made: `tile` then makes those that are left, or all if an edit came in between. It is true
    /// while parts are left, and false too if memory is missing. Another tile in the making is dropped.
    pub fn prepare_tile(&mut self, at: TileAt) -> bool
        ensures { self.new ≡ self.old }
    {
        match self.map.make_part(at) {
            Ok(parts_left) => parts_left,
            Err(AllocError) => false,
        }
    }

    /// Whether `tile` would read the tile from the archive.
    fn is_read(&self, at: TileAt) -> bool
        ensures { IsTrue result → self.now.broken ≡ false }
    {
        if self.broken {
            return false;
        }
        let newest = self.map.newest(at);
        if newest > self.journal.edits {
            return false;
        }
        !self.map.has(at, newest, true)
    }

    /// Reads the next part of a tile of the last published archive, if it has more than one, and says whether parts are left. Without
    /// `begins` the first part isn't read.
    fn archived_part(&mut self, at: TileAt, begins: bool) -> Option<bool>
        ensures same { self.new ≡ record self.old { disk = self.new.disk; published = self.new.published } }
        ensures disk { OnlyReads D.sectors D.honest D.history self.old.disk self.new.disk }
        ensures never_falls { NeverFalls (D.faults self.old.disk) (D.faults self.new.disk) }
        ensures up { (stored : Stored) → IsUp (D.sectors self.old.disk) (D.history self.old.disk) stored self.old → D.honest self.new.disk
            → IsUp (D.sectors self.new.disk) (D.history self.new.disk) stored self.new }
    {
        let archive = self.archive();
        match self.published.prepare(&mut self.disk, archive, at, begins) {
            Ok(parts_left) => parts_left,
            Err(_) => None,
        }
    }

    /// Reads the next part of a tile that `tile` would read from the archive: `tile` then reads those that are left. It says whether parts are
    /// left. It is `None` for a tile of one part or none, for one that isn't read from the archive, and if the read fails. What was read of another
    /// tile is dropped. Without `begins` the first part isn't read, so that nothing is dropped.
    pub fn prepare_published(&mut self, at: TileAt, begins: bool) -> Option<bool>
        ensures same { self.new ≡ record self.old { disk = self.new.disk; published = self.new.published } }
        ensures disk { OnlyReads D.sectors D.honest D.history self.old.disk self.new.disk }
        ensures never_falls { NeverFalls (D.faults self.old.disk) (D.faults self.new.disk) }
        ensures untouched { self.old.broken ≡ true → (result ≡ None) × (self.new ≡ self.old) }
        ensures up { (stored : Stored) → IsUp (D.sectors self.old.disk) (D.history self.old.disk) stored self.old → D.honest self.new.disk
            → IsUp (D.sectors self.new.disk) (D.history self.new.disk) stored self.new }
    {
        if !self.is_read(at) {
            return None;
        }
        self.archived_part(at, begins)
    }
}
