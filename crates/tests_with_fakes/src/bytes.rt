//! Bytes read from disks that were written sector by sector.
ghost use Rattle.std.specs.Prelude.{◌≡◌, IfOk};

mod archives;
mod parts;

use sector_disk::{FailingCalls, FaultyDisk, MemoryDisk, Sectors};
use std::alloc::{AllocError, Global};

/// Bytes of which neighbours differ, and those at one offset of two sectors.
fn numbered() -> [u8; 1536] {
    let mut bytes = [0; 1536];
    for (place, byte) in bytes.iter_mut().enumerate() {
        *byte = (place % 251) as u8;
    }
    bytes
}

/// A disk of six sectors with these bytes from sector 2 on and zeros elsewhere, of which these calls fail.
fn disk_with(
    alloc: Global,
    bytes: &[u8; 1536],
    failing: FailingCalls,
) -> Result<FaultyDisk<MemoryDisk>, AllocError>
    ensures { IfOk result (λ disk. ⟦<FaultyDisk<MemoryDisk> as Sectors>⟧.sectors disk ≡ 6) }
{
    let mut disk = MemoryDisk::new(alloc, 6)?;
    let mut sector = [0; 512];
    sector.copy_from_slice(&bytes[..512]);
    let _ = disk.write(2, &sector);
    sector.copy_from_slice(&bytes[512..1024]);
    let _ = disk.write(3, &sector);
    sector.copy_from_slice(&bytes[1024..]);
    let _ = disk.write(4, &sector);
    Ok(FaultyDisk::new(disk, failing))
}
