//! Archives that are read between other calls: the place of one is a ticket for it.
ghost use Rattle.std.specs.Prelude.{◌≡◌, ◌≤◌, ◌<◌, ◌+◌, ◌-◌, ◌%◌, ◌↔◌, ℕ, List, IsTrue, false, Err, length, min, slice_range, OnOk};
ghost use Rattle.sector_disk.specs.Asked.{OnlyReads};
ghost use Rattle.sector_disk.specs.Disk.{HasFailed};
ghost use Rattle.sector_disk.specs.declared.disk.TheConstants.{SECTOR_BYTES};
ghost use Rattle.tile_service.specs.Service.{IsUp, HasArchive, IsPlaceIn};
ghost use Rattle.tile_service.specs.Stored.{Stored};
ghost use Rattle.tile_service.specs.Tickets.{IsThere};
ghost use Rattle.tile_service.specs.declared.tickets.TheConstants.{FIRST_BYTES};
ghost use Rattle.tile_service.specs.declared.tickets.TicketFault.TheVariants.{Gone, Device};

use crate::service::Service;
use generations::{Layout, sectors_for};
use published_tiles::ArchivePlace;
use sector_disk::{SECTOR_BYTES, Sectors};

/// Why bytes of a ticket's archive aren't read.
#[derive(Clone, Copy, Debug, PartialEq, Eq)]
pub enum TicketFault {
    /// The archive isn't there any more, or has no such bytes.
    Gone,
    /// A disk read failed.
    Device,
}

/// The bytes of 32 sectors: the most that `first_bytes` returns.
pub const FIRST_BYTES: u64 = 16_384;

/// How many of `length` bytes of an archive from offset `at` on are in the first 32 sectors that have some of them. So the bytes after these
/// begin with a sector.
pub fn first_bytes(at: u64, length: u64) -> u64
    ensures is { result ≡ min (FIRST_BYTES - at % SECTOR_BYTES) length }
    ensures within { result ≤ length }
    ensures most { result ≤ FIRST_BYTES }
    ensures some { 0 < length → 0 < result }
{
    (FIRST_BYTES - at % SECTOR_BYTES as u64).min(length)
}

/// Whether a place is in the area of its generation.
fn is_inside(layout: Layout, place: ArchivePlace) -> bool
    ensures inside { IsTrue result → IsPlaceIn layout.sectors place }
    ensures outside { result ≡ false → IsPlaceIn layout.sectors place → ⊥ }
{
    let start = layout.area_start(place.generation);
    if place.first < start {
        return false;
    }
    let end = u128::from(place.first) + u128::from(sectors_for(place.len));
    end <= u128::from(start) + u128::from(layout.area)
}

/// Whether so many bytes from an offset on are within an archive of `len` bytes.
fn is_within(len: u64, at: u64, count: usize) -> bool
    ensures { IsTrue result ↔ (at + count ≤ len) }
{
    u128::from(at) + count as u128 <= u128::from(len)
}

/// Whether so many bytes of a ticket's archive from an offset on are there, if generations from `oldest` on are.
fn is_there(layout: Layout, oldest: u64, ticket: ArchivePlace, at: u64, count: usize) -> bool
    ensures there { IsTrue result → IsThere layout.sectors oldest ticket at count }
    ensures gone { result ≡ false → IsThere layout.sectors oldest ticket at count → ⊥ }
{
    if ticket.generation < oldest {
        return false;
    }
    if !is_inside(layout, ticket) {
        return false;
    }
    is_within(ticket.len, at, count)
}

impl<D: Sectors + Drop> Service<D> {
    /// Reads bytes of the archive of a ticket from an offset on, to fill `into`, if they are there. A ticket is any place, also one that a
    /// client made up. Archives of generations below `oldest` count as gone: that of the service at the last step of a publication is to be
    /// passed, since the step may have written where the archive before was. It allocates nothing and writes nothing. After `Device` the
    /// content of `into` is undefined, and the service continues as before.
    ///
    /// # Errors
    ///
    /// `Gone` exactly if the bytes aren't there; `Device`.
    pub fn read_ticket(
        &mut self,
        ticket: ArchivePlace,
        oldest: u64,
        at: u64,
        into: &mut [u8],
    ) -> Result<(), TicketFault>
        ensures gone { (result ≡ Err Gone) ↔ (IsThere self.old.size oldest ticket at (length into.old) → ⊥) }
        ensures there { OnOk result (IsThere self.old.size oldest ticket at (length into.old)) }
        ensures unasked { result ≡ Err Gone → (self.new ≡ self.old) × (into.new ≡ into.old) }
        ensures same { self.new ≡ record self.old { disk = self.new.disk } }
        ensures disk { OnlyReads D.sectors D.honest D.history self.old.disk self.new.disk }
        ensures failed { result ≡ Err Device → HasFailed (D.faults self.old.disk) (D.faults self.new.disk) }
        ensures unfailed { OnOk result (D.faults self.new.disk ≡ D.faults self.old.disk) }
        ensures length { length into.new ≡ length into.old }
        ensures shown { (archive : List ℕ) → HasArchive (D.history self.old.disk) ticket archive → D.honest self.new.disk
            → OnOk result (into.new ≡ slice_range archive at (at + length into.old)) }
        ensures up { (stored : Stored) → IsUp (D.sectors self.old.disk) (D.history self.old.disk) stored self.old → D.honest self.new.disk
            → IsUp (D.sectors self.new.disk) (D.history self.new.disk) stored self.new }
    {
        if !is_there(self.layout, oldest, ticket, at, into.len()) {
            return Err(TicketFault::Gone);
        }
        match self.archive_read_at(ticket, at, into) {
            Ok(()) => Ok(()),
            Err(_) => Err(TicketFault::Device),
        }
    }
}
