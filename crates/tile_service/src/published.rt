//! The last published archive.
ghost use Rattle.std.specs.Prelude.{◌≡◌, ◌≤◌, ◌+◌, ℕ, List, length, slice_range, IfErr, OnOk};
ghost use Rattle.sector_disk.specs.Asked.{OnlyReads};
ghost use Rattle.tile_service.specs.Service.{IsUp, ShowsArchive, TellsDevice, HasArchive, IsPlaceIn, archive_of};
ghost use Rattle.tile_service.specs.Stored.{Stored};
ghost use Rattle.tile_service.specs.declared.fault.ServiceFault.TheVariants.{Device};

use crate::fault::ServiceFault;
use crate::service::Service;
use published_tiles::ArchivePlace;
use sector_bytes::read_bytes;
use sector_disk::{DiskFault, Sectors};

impl<D: Sectors + Drop> Service<D> {
    /// The length of the published archive in bytes, 0 if none.
    pub fn archive_len(&self) -> u64
        ensures { result ≡ self.now.archive_len }
    {
        self.root.archive_len
    }

    /// The number of the last edit in the published archive, 0 if none.
    pub fn published(&self) -> u64
        ensures { result ≡ self.now.journal.edits }
    {
        self.journal.edits
    }

    /// The number of the last edit that isn't listed any more, 0 if none.
    pub fn forgotten(&self) -> u64
        ensures { result ≡ self.now.kept_journal.edits }
    {
        self.kept_journal.edits
    }

    /// The number of the last edit, 0 if none.
    pub fn last(&self) -> u64
        ensures { result ≡ self.now.journal.last }
    {
        self.journal.last
    }

    /// Where the published archive is: a ticket for it, by which `read_ticket` reads it until the first step of the publication after the next
    /// one.
    pub fn archive(&self) -> ArchivePlace
        ensures is { result ≡ archive_of self.now }
        ensures place { IsPlaceIn self.now.size result }
    {
        ArchivePlace {
            generation: self.root.generation,
            first: self.layout.archive_start(self.root),
            len: self.root.archive_len,
        }
    }

    /// Reads bytes of the archive in a place from an offset, to fill `into`. It allocates nothing and writes nothing. After an error the
    /// content of `into` is undefined, and the service continues as before.
    ///
    /// # Errors
    ///
    /// `Device`.
    pub(crate) fn archive_read_at(
        &mut self,
        place: ArchivePlace,
        at: u64,
        into: &mut [u8],
    ) -> Result<(), ServiceFault>
        requires place { IsPlaceIn self.old.size place }
        requires within { at + length into.old ≤ place.len }
        ensures same { self.new ≡ record self.old { disk = self.new.disk } }
        ensures disk { OnlyReads D.sectors D.honest D.history self.old.disk self.new.disk }
        ensures failed { TellsDevice result (D.faults self.old.disk) (D.faults self.new.disk) }
        ensures fault { IfErr result (λ fault. fault ≡ Device) }
        ensures length { length into.new ≡ length into.old }
        ensures shown { (archive : List ℕ) → HasArchive (D.history self.old.disk) place archive → D.honest self.new.disk
            → OnOk result (into.new ≡ slice_range archive at (at + length into.old)) }
        ensures up { (stored : Stored) → IsUp (D.sectors self.old.disk) (D.history self.old.disk) stored self.old → D.honest self.new.disk
            → IsUp (D.sectors self.new.disk) (D.history self.new.disk) stored self.new }
    {
        match read_bytes(&mut self.disk, place.first, at, into) {
            Ok(()) => Ok(()),
            Err(DiskFault) => Err(ServiceFault::Device),
        }
    }

    /// Reads bytes of the published archive from an offset, to fill `into`. It allocates nothing and writes nothing.
    /// After an error the content of `into` is undefined, and the service continues as before.
    ///
    /// # Errors
    ///
    /// `Device`.
    pub fn archive_read(&mut self, at: u64, into: &mut [u8]) -> Result<(), ServiceFault>
        requires within { at + length into.old ≤ self.old.archive_len }
        ensures same { self.new ≡ record self.old { disk = self.new.disk } }
        ensures disk { OnlyReads D.sectors D.honest D.history self.old.disk self.new.disk }
        ensures failed { TellsDevice result (D.faults self.old.disk) (D.faults self.new.disk) }
        ensures fault { IfErr result (λ fault. fault ≡ Device) }
        ensures length { length into.new ≡ length into.old }
        // For a broken service too: what the disk has in the archive's place.
        ensures shown { (archive : List ℕ) → ShowsArchive (D.history self.old.disk) self.old archive → D.honest self.new.disk
            → OnOk result (into.new ≡ slice_range archive at (at + length into.old)) }
        ensures read { (stored : Stored) → IsUp (D.sectors self.old.disk) (D.history self.old.disk) stored self.old → D.honest self.new.disk
            → OnOk result (into.new ≡ slice_range stored.archive at (at + length into.old)) }
        ensures up { (stored : Stored) → IsUp (D.sectors self.old.disk) (D.history self.old.disk) stored self.old → D.honest self.new.disk
            → IsUp (D.sectors self.new.disk) (D.history self.new.disk) stored self.new }
    {
        let place = self.archive();
        self.archive_read_at(place, at, into)
    }
}
