//! The next generation: first its area, and then its root.
ghost use Rattle.std.specs.Prelude.{◌≡◌, ◌≤◌, ◌<◌, ◌+◌, ℕ, OnOk};
ghost use Rattle.sector_disk.specs.Asked.{MayWrite, TellsFailure};
ghost use Rattle.sector_disk.specs.Disk.{moment, seen, Writes};
ghost use Rattle.sector_disk.specs.Disk.History.{wrote, synced};
ghost use Rattle.sector_disk.specs.Moments.{LeavesOnly};
ghost use Rattle.generations.specs.Areas.{area_start};
ghost use Rattle.generations.specs.Installs.{root_at, Installs};
ghost use Rattle.generations.specs.Sectors.{root_sector};
ghost use Rattle.generations.specs.declared.sizes.TheConstants.{JOURNAL_START};

use crate::encoding::root_bytes;
use crate::formatting::write_and_sync;
use crate::layout::Layout;
use crate::root::Root;
use sector_disk::{DiskFault, SECTOR_BYTES, Sectors};

/// Writes a sector of the area of a generation, by its index in the area. It outlives a crash once a later sync has succeeded.
pub fn write_area<D: Sectors>(
    disk: &mut D,
    layout: Layout,
    generation: u64,
    index: u64,
    sector: &[u8; SECTOR_BYTES],
) -> Result<(), DiskFault>
    requires within { index < layout.area }
    requires on_disk { layout.sectors ≤ D.sectors disk.old }
    ensures disk { MayWrite D.sectors D.honest disk.old disk.new }
    ensures failed { TellsFailure result (D.faults disk.old) (D.faults disk.new) }
    ensures writes { D.honest disk.new
        → Writes result (area_start layout.sectors generation + index) sector.now (D.history disk.old) (D.history disk.new) }
{
    disk.write(layout.area_start(generation) + index, sector)
}

/// Makes a root the one that counts, once all that was written before outlives a crash: syncs, writes the root, and syncs. After a
/// fault the disk has the root or not.
pub fn install<D: Sectors>(disk: &mut D, root: Root) -> Result<(), DiskFault>
    requires on_disk { JOURNAL_START ≤ D.sectors disk.old }
    ensures disk { MayWrite D.sectors D.honest disk.old disk.new }
    ensures failed { TellsFailure result (D.faults disk.old) (D.faults disk.new) }
    ensures steps { D.honest disk.new → moment (D.history disk.new) ≤ moment (D.history disk.old) + 3 }

    // A crash at any moment leaves what it might have left before, or what a read gave and the root.
    ensures any_moment { D.honest disk.new → LeavesOnly (D.history disk.old) (D.history disk.new) (Installs root (D.history disk.old)) }
    ensures installed { D.honest disk.new
        → OnOk result (D.history disk.new ≡ synced (wrote (root_at root.generation) (root_sector root) (synced (D.history disk.old)))) }
    // Whatever it answers, a read gives of each other sector what it gave.
    ensures others { D.honest disk.new → (at : ℕ)
        → (at ≡ root_at root.generation → ⊥) → seen (D.history disk.new) at ≡ seen (D.history disk.old) at }
{
    disk.sync()?;
    let sector = root_bytes(root);
    write_and_sync(disk, 1 + root.generation % 2, &sector)
}
