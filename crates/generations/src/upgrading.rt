//! The upgrade of a disk to the last version of the format.
ghost use Rattle.std.specs.Prelude.{◌≡◌, ◌⊎◌, ◌≤◌, ◌+◌, ℕ, IfErr, OnOk};
ghost use Rattle.sector_disk.specs.Asked.{MayWrite};
ghost use Rattle.sector_disk.specs.Disk.{Image, MayLeave, moment, seen};
ghost use Rattle.sector_disk.specs.Disk.History.{synced};
ghost use Rattle.sector_disk.specs.Moments.{LeavesOnly};
ghost use Rattle.generations.specs.Disks.{IsFaultOf};
ghost use Rattle.generations.specs.Faults.{TellsDevice};
ghost use Rattle.generations.specs.Sectors.{version_from};
ghost use Rattle.generations.specs.Upgrades.{IsUpgraded, Upgrades};
ghost use Rattle.generations.specs.declared.fault.StoreFault.TheVariants.{NotFormatted, Damaged, Device};
ghost use Rattle.generations.specs.declared.fault.What.TheVariants.{Size};
ghost use Rattle.generations.specs.declared.sizes.TheConstants.{LAST_VERSION};

use crate::encoding::format_bytes;
use crate::fault::StoreFault;
use crate::formatting::write_and_sync;
use crate::reading::read_layout;
use crate::sizes::LAST_VERSION;
use sector_disk::{DiskFault, Sectors};

/// Raises a disk to the last version of the format: rewrites the format's sector, and nothing else. First syncs, so that all
/// that was written before outlives a crash. A disk of the last version is only synced. After a fault of the disk or a crash
/// the disk is of either version.
///
/// # Errors
/// `NotFormatted` and `Damaged(Size)` as `read_root`, where nothing was written; `Device`.
pub fn upgrade<D: Sectors>(disk: &mut D) -> Result<(), StoreFault>
    ensures disk { MayWrite D.sectors D.honest disk.old disk.new }
    ensures failed { TellsDevice result (D.faults disk.old) (D.faults disk.new) }
    ensures steps { D.honest disk.new → moment (D.history disk.new) ≤ moment (D.history disk.old) + 3 }
    ensures only { IfErr result (λ fault. (fault ≡ NotFormatted) ⊎ (fault ≡ Damaged Size) ⊎ (fault ≡ Device)) }
    ensures fault { D.honest disk.new
        → IfErr result (λ fault. (fault ≡ Device) ⊎ IsFaultOf (D.sectors disk.old) (seen (D.history disk.old)) fault) }

    // A crash at any moment leaves what it might have left before, or what a read gave with the format of the last version.
    ensures any_moment { D.honest disk.new
        → LeavesOnly (D.history disk.old) (D.history disk.new) (Upgrades (D.sectors disk.old) (D.history disk.old)) }
    ensures upgraded { D.honest disk.new → OnOk result ((image : Image)
        → MayLeave (D.history disk.new) image → IsUpgraded (D.sectors disk.old) (seen (D.history disk.old)) image) }

    // Nothing is written at another fault than Device, nor to a disk of the last version.
    ensures unwritten { D.honest disk.new → IfErr result (λ fault. (fault ≡ Device) ⊎ (D.history disk.new ≡ synced (D.history disk.old))) }
    ensures already { D.honest disk.new → version_from (seen (D.history disk.old) 0) ≡ LAST_VERSION
        → (D.history disk.new ≡ D.history disk.old) ⊎ (D.history disk.new ≡ synced (D.history disk.old)) }
    // Whatever it returns, a read gives of each other sector what it gave.
    ensures others { D.honest disk.new → (at : ℕ) → (at ≡ 0 → ⊥) → seen (D.history disk.new) at ≡ seen (D.history disk.old) at }
{
    match disk.sync() {
        Ok(()) => {}
        Err(DiskFault) => return Err(StoreFault::Device),
    }
    let (layout, version) = match read_layout(disk) {
        Ok(found) => found,
        Err(fault) => return Err(fault),
    };
    if version == LAST_VERSION {
        return Ok(());
    }
    let format = format_bytes(LAST_VERSION, layout.sectors);
    match write_and_sync(disk, 0, &format) {
        Ok(()) => Ok(()),
        Err(DiskFault) => Err(StoreFault::Device),
    }
}
