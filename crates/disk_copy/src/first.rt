//! The first sectors of a disk, as they were read.
ghost use Rattle.std.specs.Prelude.{◌≡◌, ◌⊎◌, ◌≤◌, ◌<◌, ◌-◌, ◌^◌, ℕ, IfOk, IfErr, OnOk};
ghost use Rattle.sector_disk.specs.Asked.{OnlyReads};
ghost use Rattle.sector_disk.specs.Disk.{seen};
ghost use Rattle.sector_disk.specs.Disk.History.{begun};
ghost use Rattle.generations.specs.declared.sizes.TheConstants.{JOURNAL_START};
ghost use Rattle.generations.specs.Disks.{LiveRoot};
ghost use Rattle.generations.specs.Sectors.{version_from};
ghost use Rattle.disk_copy.specs.Faults.{TellsCopy, IsOutside, IsRootFault, in_memory};
ghost use Rattle.disk_copy.specs.First.{first_image, IsAsSeen, IsAsShared};
ghost use Rattle.disk_copy.specs.Shared.{GoesOn, IsOf};

use crate::fault::CopyFault;
use crate::shared::SharedSectors;
use generations::{Found, StoreFault, read_root};
use sector_disk::{DiskFault, SECTOR_BYTES, Sectors};

/// The sectors of the format and of the roots, as they were read: a disk for reading its root.
#[derive(Drop)]
pub(crate) struct FirstSectors {
    count: u64,
    format: [u8; SECTOR_BYTES],
    even: [u8; SECTOR_BYTES],
    odd: [u8; SECTOR_BYTES],
}

impl Sectors for FirstSectors {
    ghost honest = { λ _. Unit {0} };

    ghost history = { λ first. begun (first_image first.format first.even first.odd) };

    ghost sectors = { λ first. first.count };

    ghost faults = { λ _. 2 ^ 64 - 1 };

    fn count(&self) -> u64 {
        self.count
    }

    fn read(&mut self, at: u64, into: &mut [u8; SECTOR_BYTES]) -> Result<(), DiskFault> {
        *into = match at {
            0 => self.format,
            1 => self.even,
            2 => self.odd,
            _ => [0; SECTOR_BYTES],
        };
        Ok(())
    }

    fn write(&mut self, _at: u64, _from: &[u8; SECTOR_BYTES]) -> Result<(), DiskFault> {
        Err(DiskFault)
    }

    fn sync(&mut self) -> Result<(), DiskFault> {
        Err(DiskFault)
    }
}

/// Reads a sector anew.
pub(crate) fn read_sector<D: SharedSectors>(
    disk: &mut D,
    at: u64,
) -> Result<[u8; SECTOR_BYTES], CopyFault>
    requires { at < D.sectors disk.old }
    ensures disk { OnlyReads D.sectors D.honest D.history disk.old disk.new }
    ensures failed { TellsCopy result (D.faults disk.old) (D.faults disk.new) 0 0 }
    ensures outside { IfErr result IsOutside }
    ensures gives { D.honest disk.new → IfOk result (λ sector. sector ≡ seen (D.history disk.old) at) }
    ensures since { D.opened ≤ D.now disk.old }
    ensures later { GoesOn D.shared D.now disk.old disk.new }
    ensures shows { D.shared disk.new → IfOk result (λ sector. IsOf D.images (D.now disk.old) (D.now disk.new) at sector) }
{
    let mut sector = [0; SECTOR_BYTES];
    match disk.read_anew(at, &mut sector) {
        Ok(()) => Ok(sector),
        Err(DiskFault) => Err(CopyFault::Store(StoreFault::Device)),
    }
}

/// Reads the first sectors anew.
pub(crate) fn read_first<D: SharedSectors>(disk: &mut D) -> Result<FirstSectors, CopyFault>
    requires { JOURNAL_START ≤ D.sectors disk.old }
    ensures disk { OnlyReads D.sectors D.honest D.history disk.old disk.new }
    ensures failed { TellsCopy result (D.faults disk.old) (D.faults disk.new) 0 0 }
    ensures outside { IfErr result IsOutside }
    ensures count { IfOk result (λ first. first.count ≡ D.sectors disk.old) }
    ensures gives { D.honest disk.new → IfOk result (λ first. IsAsSeen first.format first.even first.odd (seen (D.history disk.old))) }
    ensures since { D.opened ≤ D.now disk.old }
    ensures later { GoesOn D.shared D.now disk.old disk.new }
    ensures shows { D.shared disk.new → IfOk result (λ first. IsAsShared first.format first.even first.odd D.images (D.now disk.old) (D.now disk.new)) }
{
    let count = disk.count();
    let format = read_sector(disk, 0)?;
    let even = read_sector(disk, 1)?;
    let odd = read_sector(disk, 2)?;
    Ok(FirstSectors {
        count,
        format,
        even,
        odd,
    })
}

/// The fault of sectors that are in memory: no call of a disk can fail there.
fn to_memory_fault(fault: StoreFault) -> CopyFault
    ensures { result ≡ in_memory fault }
{
    match fault {
        StoreFault::Device => CopyFault::Store(StoreFault::Memory),
        fault => CopyFault::Store(fault),
    }
}

/// The root that counts on a disk with these first sectors.
pub(crate) fn root_in(first: FirstSectors) -> Result<Found, CopyFault>
    ensures failed { (faults others : ℕ) → TellsCopy result faults faults others others }
    ensures found { IfOk result (λ found. LiveRoot first.count (first_image first.format first.even first.odd) found.layout.sectors found.root
        × (found.version ≡ version_from first.format)) }
    ensures fault { IfErr result (λ fault. IsOutside fault ⊎ IsRootFault first.count (first_image first.format first.even first.odd) fault) }
{
    let mut first = first;
    match read_root(&mut first) {
        Ok(found) => Ok(found),
        Err(fault) => Err(to_memory_fault(fault)),
    }
}
