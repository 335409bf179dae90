//! Bytes read from consecutive sectors.
ghost use Rattle.std.specs.Prelude.{◌≡◌, ◌≤◌, ◌+◌, length, OnOk, slice_range};
ghost use Rattle.generations.specs.Areas.{sectors_of};
ghost use Rattle.sector_bytes.specs.Bytes.{bytes_from, AreWhole};
ghost use Rattle.sector_disk.specs.Asked.{OnlyReads, TellsFailure};
ghost use Rattle.sector_disk.specs.Disk.{seen};

use crate::source::SectorBytes;
use byte_source::ReadFault;
use sector_disk::{DiskFault, SECTOR_BYTES, Sectors};

/// Fills `into` with bytes stored in consecutive sectors from sector `first` on, starting at byte offset `at`.
/// It reads each sector once, doesn't allocate, and writes nothing. After a fault `into` is unspecified.
pub fn read_bytes<D: Sectors>(
    disk: &mut D,
    first: u64,
    at: u64,
    into: &mut [u8],
) -> Result<(), DiskFault>
    requires on_disk { first + sectors_of (at + length into.old) ≤ D.sectors disk.old }
    ensures disk { OnlyReads D.sectors D.honest D.history disk.old disk.new }
    ensures failed { TellsFailure result (D.faults disk.old) (D.faults disk.new) }
    ensures length { length into.new ≡ length into.old }
    ensures whole { D.honest disk.new → OnOk result (AreWhole first at (length into.old) (seen (D.history disk.old))) }
    ensures read { D.honest disk.new → OnOk result (into.new ≡
        slice_range (bytes_from (seen (D.history disk.old)) first (sectors_of (at + length into.old))) at (at + length into.old)) }
{
    let _count = disk.count();
    let skipped = at / SECTOR_BYTES as u64;
    let offset = at % SECTOR_BYTES as u64;
    let mut source = SectorBytes::new(disk, first + skipped, offset + into.len() as u64);
    let outcome = source.read_parts(offset, into);
    let _disk = source.into_disk();
    match outcome {
        Ok(()) => Ok(()),
        Err(ReadFault) => Err(DiskFault),
    }
}
