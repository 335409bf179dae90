//! The format of a disk.
ghost use Rattle.std.specs.Prelude.{◌≡◌, ◌⊎◌, ◌≤◌, ◌<◌, ◌+◌, ◌↔◌, ℕ, List, Err, IfErr, OnOk};
ghost use Rattle.sector_disk.specs.Asked.{MayWrite, TellsFailure};
ghost use Rattle.sector_disk.specs.Disk.{Image, seen, MayHold, MayLeave, moment};
ghost use Rattle.sector_disk.specs.Disk.History.{wrote, synced};
ghost use Rattle.sector_disk.specs.Moments.{Within, LeavesOnly};
ghost use Rattle.generations.specs.Areas.{IsSize};
ghost use Rattle.generations.specs.Disks.{HasNoMark, IsFresh};
ghost use Rattle.generations.specs.Faults.{EndsFormat, TellsDevice};
ghost use Rattle.generations.specs.Written.{IsOldOr, IsOldOrEmpty};
ghost use Rattle.generations.specs.Sectors.{zeros, IsVersion};
ghost use Rattle.generations.specs.declared.fault.StoreFault.TheVariants.{TooSmall, Device, Damaged};
ghost use Rattle.generations.specs.declared.fault.What.TheVariants.{Size};
ghost use Rattle.generations.specs.declared.sizes.TheConstants.{MIN_SECTORS, MAX_SECTORS, LAST_VERSION};

use crate::encoding::{format_bytes, root_bytes};
use crate::fault::{StoreFault, What};
use crate::layout::Layout;
use crate::root::Root;
use crate::sizes::{JOURNAL_START, LAST_VERSION, MIN_SECTORS};
use sector_disk::{DiskFault, SECTOR_BYTES, Sectors};

const EMPTY: [u8; SECTOR_BYTES] = [0; SECTOR_BYTES];

const FIRST_ROOT: Root = Root {
    generation: 0,
    edits: 0,
    journal_at: 0,
    snapshot_len: 0,
    archive_len: 0,
};

/// Writes a sector, and has it outlive a crash.
pub(crate) fn write_and_sync<D: Sectors>(
    disk: &mut D,
    at: u64,
    sector: &[u8; SECTOR_BYTES],
) -> Result<(), DiskFault>
    requires { at < D.sectors disk.old }
    ensures disk { MayWrite D.sectors D.honest disk.old disk.new }
    ensures failed { TellsFailure result (D.faults disk.old) (D.faults disk.new) }
    ensures leaves { D.honest disk.new → LeavesOnly (D.history disk.old) (D.history disk.new)
        (λ image. (index : ℕ) → IsOldOr (D.history disk.old) at sector.now index (image index)) }
    ensures stands { D.honest disk.new → OnOk result (D.history disk.new ≡ synced (wrote at sector.now (D.history disk.old))) }
    ensures others { D.honest disk.new
        → (index : ℕ) → (index ≡ at → ⊥) → seen (D.history disk.new) index ≡ seen (D.history disk.old) index }
    ensures steps { D.honest disk.new → moment (D.history disk.new) ≤ moment (D.history disk.old) + 2 }
{
    disk.write(at, sector)?;
    disk.sync()?;
    Ok(())
}

/// Writes zeros to a sector, even if it has zeros already, so that a file has room for it from then on.
fn empty_sector<D: Sectors>(disk: &mut D, at: u64) -> Result<(), DiskFault>
    requires { at < D.sectors disk.old }
    ensures disk { MayWrite D.sectors D.honest disk.old disk.new }
    ensures failed { TellsFailure result (D.faults disk.old) (D.faults disk.new) }
    ensures leaves { D.honest disk.new → LeavesOnly (D.history disk.old) (D.history disk.new)
        (λ image. (index : ℕ) → IsOldOr (D.history disk.old) at zeros index (image index)) }
    ensures within { D.honest disk.new → Within (D.history disk.new) (IsOldOr (D.history disk.old) at zeros) }
    ensures empty { D.honest disk.new → OnOk result (seen (D.history disk.new) at ≡ zeros) }
    ensures others { D.honest disk.new
        → (index : ℕ) → (index ≡ at → ⊥) → seen (D.history disk.new) index ≡ seen (D.history disk.old) index }
{
    disk.write(at, &EMPTY)?;
    Ok(())
}

/// Writes zeros to each sector from sector 1 to the one before `end`.
fn write_zeros<D: Sectors>(disk: &mut D, end: u64) -> Result<(), DiskFault>
    requires { end ≤ D.sectors disk.old }
    ensures disk { MayWrite D.sectors D.honest disk.old disk.new }
    ensures failed { TellsFailure result (D.faults disk.old) (D.faults disk.new) }
    ensures leaves { D.honest disk.new → LeavesOnly (D.history disk.old) (D.history disk.new)
        (λ image. (index : ℕ) → IsOldOrEmpty (D.history disk.old) index (image index)) }
    ensures within { D.honest disk.new → Within (D.history disk.new) (IsOldOrEmpty (D.history disk.old)) }
    ensures empty { D.honest disk.new → OnOk result ((at : ℕ) → 0 < at → at < end → seen (D.history disk.new) at ≡ zeros) }
{
    for at in 1..end {
        empty_sector(disk, at)?;
    }
    Ok(())
}

/// Erases the mark, the roots and the journal, and then writes the first root and the format.
fn write_parts<D: Sectors>(disk: &mut D, layout: Layout, version: u32) -> Result<(), DiskFault>
    requires { layout.sectors ≡ D.sectors disk.old }
    ensures disk { MayWrite D.sectors D.honest disk.old disk.new }
    ensures failed { TellsFailure result (D.faults disk.old) (D.faults disk.new) }
    ensures any_moment { D.honest disk.new → LeavesOnly (D.history disk.old) (D.history disk.new)
        (λ image. MayLeave (D.history disk.old) image ⊎ HasNoMark image ⊎ IsFresh version layout.sectors image) }
    ensures fresh { D.honest disk.new → OnOk result ((image : Image) → MayLeave (D.history disk.new) image → IsFresh version layout.sectors image) }
{
    write_and_sync(disk, 0, &EMPTY)?;
    clear(disk, JOURNAL_START + layout.journal)?;
    let first = root_bytes(FIRST_ROOT);
    write_and_sync(disk, 1, &first)?;
    let format = format_bytes(version, layout.sectors);
    write_and_sync(disk, 0, &format)?;
    Ok(())
}

/// Writes zeros to each sector from sector 1 to the one before `end`, and has them outlive a crash.
fn clear<D: Sectors>(disk: &mut D, end: u64) -> Result<(), DiskFault>
    requires { end ≤ D.sectors disk.old }
    ensures disk { MayWrite D.sectors D.honest disk.old disk.new }
    ensures failed { TellsFailure result (D.faults disk.old) (D.faults disk.new) }
    ensures leaves { D.honest disk.new → LeavesOnly (D.history disk.old) (D.history disk.new)
        (λ image. (index : ℕ) → IsOldOrEmpty (D.history disk.old) index (image index)) }
    ensures within { D.honest disk.new → Within (D.history disk.new) (IsOldOrEmpty (D.history disk.old)) }
    ensures empty { D.honest disk.new
        → OnOk result ((at : ℕ) → 0 < at → at < end → (left : List ℕ) → MayHold (D.history disk.new) at left → left ≡ zeros) }
{
    write_zeros(disk, end)?;
    disk.sync()?;
    Ok(())
}

/// Formats a disk of `MIN_SECTORS` to `MAX_SECTORS` sectors in this version of the format, and leaves a disk of another size untouched.
/// What it held is lost: after a fault of the disk or a crash it holds what it held before, or has no format, or is formatted.
pub fn format_version<D: Sectors>(disk: &mut D, version: u32) -> Result<(), StoreFault>
    requires { IsVersion version }
    ensures ends { EndsFormat (D.sectors disk.old) result }
    ensures untouched { (IsSize (D.sectors disk.old) → ⊥) → disk.new ≡ disk.old }
    ensures disk { MayWrite D.sectors D.honest disk.old disk.new }
    ensures failed { TellsDevice result (D.faults disk.old) (D.faults disk.new) }

    // A crash at any moment leaves an image from before, or one without the mark, or a fresh one.
    ensures any_moment { D.honest disk.new → LeavesOnly (D.history disk.old) (D.history disk.new)
        (λ image. MayLeave (D.history disk.old) image ⊎ HasNoMark image ⊎ IsFresh version (D.sectors disk.old) image) }
    ensures fresh { D.honest disk.new
        → OnOk result ((image : Image) → MayLeave (D.history disk.new) image → IsFresh version (D.sectors disk.old) image) }
    ensures seen { D.honest disk.new → OnOk result (IsFresh version (D.sectors disk.old) (seen (D.history disk.new))) }
{
    let sectors = disk.count();
    if sectors < MIN_SECTORS {
        return Err(StoreFault::TooSmall);
    }
    let Some(layout) = Layout::of(sectors) else {
        return Err(StoreFault::Damaged(What::Size));
    };
    match write_parts(disk, layout, version) {
        Ok(()) => Ok(()),
        Err(DiskFault) => Err(StoreFault::Device),
    }
}

/// Formats a disk of `MIN_SECTORS` to `MAX_SECTORS` sectors in the last version of the format, and leaves a disk of another size untouched.
/// What it held is lost: after a fault of the disk or a crash it holds what it held before, or has no format, or is formatted.
pub fn format<D: Sectors>(disk: &mut D) -> Result<(), StoreFault>
    ensures ends { EndsFormat (D.sectors disk.old) result }
    ensures untouched { (IsSize (D.sectors disk.old) → ⊥) → disk.new ≡ disk.old }
    ensures disk { MayWrite D.sectors D.honest disk.old disk.new }
    ensures failed { TellsDevice result (D.faults disk.old) (D.faults disk.new) }

    // A crash at any moment leaves an image from before, or one without the mark, or a fresh one.
    ensures any_moment { D.honest disk.new → LeavesOnly (D.history disk.old) (D.history disk.new)
        (λ image. MayLeave (D.history disk.old) image ⊎ HasNoMark image ⊎ IsFresh LAST_VERSION (D.sectors disk.old) image) }
    ensures fresh { D.honest disk.new
        → OnOk result ((image : Image) → MayLeave (D.history disk.new) image → IsFresh LAST_VERSION (D.sectors disk.old) image) }
    ensures seen { D.honest disk.new → OnOk result (IsFresh LAST_VERSION (D.sectors disk.old) (seen (D.history disk.new))) }
{
    format_version(disk, LAST_VERSION)
}
