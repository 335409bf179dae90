//! Sectors of one disk, copied to another.
ghost use Rattle.std.specs.Prelude.{◌≡◌, ◌≤◌, ◌<◌, ◌+◌, ◌*◌, ◌^◌, List, ℕ, OnOk, IfErr};
ghost use Rattle.disk_copy.specs.Copies.{Copies, CopiesAs, IsIn, IsUsed, ring_from, ring_in};
ghost use Rattle.disk_copy.specs.Faults.{TellsCopy, IsOutside};
ghost use Rattle.disk_copy.specs.Shared.{GoesOn, IsOf};
ghost use Rattle.sector_disk.specs.Asked.{MayWrite, OnlyReads};
ghost use Rattle.sector_disk.specs.Disk.{seen};
ghost use Rattle.sector_disk.specs.Disk.History.{wrote};

use crate::fault::CopyFault;
use crate::shared::SharedSectors;
use generations::{JOURNAL_START, Layout, StoreFault};
use sector_disk::{DiskFault, SECTOR_BYTES, Sectors};

/// Copies a sector to the same place of the other disk.
pub(crate) fn copy_sector<D: SharedSectors, E: Sectors>(
    disk: &mut D,
    at: u64,
    into: &mut E,
) -> Result<(), CopyFault>
    requires on_disk { at < D.sectors disk.old }
    requires fits { at < E.sectors into.old }
    ensures disk { OnlyReads D.sectors D.honest D.history disk.old disk.new }
    ensures into { MayWrite E.sectors E.honest into.old into.new }
    ensures failed { TellsCopy result (D.faults disk.old) (D.faults disk.new) (E.faults into.old) (E.faults into.new) }
    ensures outside { IfErr result IsOutside }
    ensures copied { D.honest disk.new → E.honest into.new
        → OnOk result (E.history into.new ≡ wrote at (seen (D.history disk.old) at) (E.history into.old)) }
    ensures later { GoesOn D.shared D.now disk.old disk.new }
    ensures shared { D.shared disk.new → E.honest into.new → OnOk result ((bytes : List ℕ)
        × IsOf D.images (D.now disk.old) (D.now disk.new) at bytes × (E.history into.new ≡ wrote at bytes (E.history into.old))) }
{
    let mut sector = [0; SECTOR_BYTES];
    match disk.read_anew(at, &mut sector) {
        Ok(()) => {}
        Err(DiskFault) => return Err(CopyFault::Store(StoreFault::Device)),
    }
    match into.write(at, &sector) {
        Ok(()) => Ok(()),
        Err(DiskFault) => Err(CopyFault::Write),
    }
}

/// Copies the sectors of `used` places of a ring of `places` sectors from sector `first` on, from a place on, where place 0 comes after the
/// last one.
fn copy_ring<D: SharedSectors, E: Sectors>(
    disk: &mut D,
    first: u64,
    places: u64,
    place: u64,
    used: u64,
    into: &mut E,
) -> Result<(), CopyFault>
    requires place { place + used < 2 ^ 64 }
    requires used { used ≤ places }
    requires ends { first + places < 2 ^ 64 }
    requires on_disk { first + places ≤ D.sectors disk.old }
    requires fits { first + places ≤ E.sectors into.old }
    ensures disk { OnlyReads D.sectors D.honest D.history disk.old disk.new }
    ensures into { MayWrite E.sectors E.honest into.old into.new }
    ensures failed { TellsCopy result (D.faults disk.old) (D.faults disk.new) (E.faults into.old) (E.faults into.new) }
    ensures outside { IfErr result IsOutside }
    ensures copied { D.honest disk.new → E.honest into.new → OnOk result
        (Copies (IsUsed (ring_from first places) place used)
        (seen (D.history disk.old)) (seen (E.history into.old)) (seen (E.history into.new))) }
    ensures later { GoesOn D.shared D.now disk.old disk.new }
    ensures shared { D.shared disk.new → E.honest into.new → OnOk result
        (CopiesAs (IsOf D.images (D.now disk.old) (D.now disk.new)) (IsUsed (ring_from first places) place used)
        (seen (E.history into.old)) (seen (E.history into.new))) }
{
    let mut done = 0;
    while done < used {
        let at = first + (place + done) % places;
        copy_sector(disk, at, into)?;
        done += 1;
    }
    Ok(())
}

/// Copies `count` sectors from sector `first` on.
pub(crate) fn copy_sectors<D: SharedSectors, E: Sectors>(
    disk: &mut D,
    first: u64,
    count: u64,
    into: &mut E,
) -> Result<(), CopyFault>
    requires on_disk { first + count ≤ D.sectors disk.old }
    requires fits { first + count ≤ E.sectors into.old }
    ensures disk { OnlyReads D.sectors D.honest D.history disk.old disk.new }
    ensures into { MayWrite E.sectors E.honest into.old into.new }
    ensures failed { TellsCopy result (D.faults disk.old) (D.faults disk.new) (E.faults into.old) (E.faults into.new) }
    ensures outside { IfErr result IsOutside }
    ensures copied { D.honest disk.new → E.honest into.new → OnOk result
        (Copies (IsIn first count)
        (seen (D.history disk.old)) (seen (E.history into.old)) (seen (E.history into.new))) }
    ensures later { GoesOn D.shared D.now disk.old disk.new }
    ensures shared { D.shared disk.new → E.honest into.new → OnOk result
        (CopiesAs (IsOf D.images (D.now disk.old) (D.now disk.new)) (IsIn first count)
        (seen (E.history into.old)) (seen (E.history into.new))) }
{
    let _sectors = disk.count();
    copy_ring(disk, first, count, 0, count, into)
}

/// Copies the sectors of `used` places of the journal, from a place on, where place 0 comes after the last one.
pub(crate) fn copy_places<D: SharedSectors, E: Sectors>(
    disk: &mut D,
    layout: Layout,
    place: u64,
    used: u64,
    into: &mut E,
) -> Result<(), CopyFault>
    requires place { place < 2 * layout.journal }
    requires used { used ≤ layout.journal }
    requires on_disk { layout.sectors ≤ D.sectors disk.old }
    requires fits { layout.sectors ≤ E.sectors into.old }
    ensures disk { OnlyReads D.sectors D.honest D.history disk.old disk.new }
    ensures into { MayWrite E.sectors E.honest into.old into.new }
    ensures failed { TellsCopy result (D.faults disk.old) (D.faults disk.new) (E.faults into.old) (E.faults into.new) }
    ensures outside { IfErr result IsOutside }
    ensures copied { D.honest disk.new → E.honest into.new → OnOk result
        (Copies (IsUsed (ring_in layout.sectors) place used)
        (seen (D.history disk.old)) (seen (E.history into.old)) (seen (E.history into.new))) }
    ensures later { GoesOn D.shared D.now disk.old disk.new }
    ensures shared { D.shared disk.new → E.honest into.new → OnOk result
        (CopiesAs (IsOf D.images (D.now disk.old) (D.now disk.new)) (IsUsed (ring_in layout.sectors) place used)
        (seen (E.history into.old)) (seen (E.history into.new))) }
{
    copy_ring(disk, JOURNAL_START, layout.journal, place, used, into)
}
