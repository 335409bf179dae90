//! The root that counts on a disk.
ghost use Rattle.std.specs.Prelude.{◌≡◌, ◌⊎◌, ◌≤◌, ◌<◌, ◌+◌, IfOk, IfErr, IfSome};
ghost use Rattle.sector_disk.specs.Asked.{OnlyReads};
ghost use Rattle.sector_disk.specs.Disk.{seen};
ghost use Rattle.generations.specs.Disks.{LiveRoot, IsFaultOf};
ghost use Rattle.generations.specs.Faults.{TellsDevice};
ghost use Rattle.generations.specs.Sectors.{IsFormat, IsVersion, version_from, IsSlot, IsBad, CanStand};
ghost use Rattle.generations.specs.declared.fault.StoreFault.TheVariants.{Device, Damaged, NotFormatted};
ghost use Rattle.generations.specs.declared.fault.What.TheVariants.{RootSector, Size};

use crate::checks::{has_mark, layout_in, newest, slot_in};
use crate::encoding::version_at;
use crate::fault::{StoreFault, What};
use crate::layout::Layout;
use crate::root::Root;
use sector_disk::{DiskFault, SECTOR_BYTES, Sectors};

/// What a sector has. The only error is `Device`.
fn read_sector<D: Sectors>(disk: &mut D, at: u64) -> Result<[u8; SECTOR_BYTES], StoreFault>
    requires { at < D.sectors disk.old }
    ensures disk { OnlyReads D.sectors D.honest D.history disk.old disk.new }
    ensures failed { TellsDevice result (D.faults disk.old) (D.faults disk.new) }
    ensures gives { D.honest disk.new → IfOk result (λ sector. sector ≡ seen (D.history disk.old) at) }
    ensures device { IfErr result (λ fault. fault ≡ Device) }
{
    let mut sector = [0; SECTOR_BYTES];
    match disk.read(at, &mut sector) {
        Ok(()) => Ok(sector),
        Err(DiskFault) => Err(StoreFault::Device),
    }
}

/// What a disk has: its layout, its live root, and the version of its format.
#[derive(Clone, Copy, Debug)]
pub struct Found {
    /// How the disk is divided.
    pub layout: Layout,
    /// The root of greatest generation.
    pub root: Root,
    /// The version of the format, from `FIRST_VERSION` to `LAST_VERSION`.
    pub version: u32,
}

/// The layout that the format's sector gives, and the version of the format.
pub(crate) fn read_layout<D: Sectors>(disk: &mut D) -> Result<(Layout, u32), StoreFault>
    ensures disk { OnlyReads D.sectors D.honest D.history disk.old disk.new }
    ensures failed { TellsDevice result (D.faults disk.old) (D.faults disk.new) }
    ensures within { IfOk result (λ found. found.0.sectors ≤ D.sectors disk.old) }
    ensures known { IfOk result (λ found. IsVersion found.1) }
    ensures only { IfErr result (λ fault. (fault ≡ NotFormatted) ⊎ (fault ≡ Damaged Size) ⊎ (fault ≡ Device)) }
    ensures format { D.honest disk.new → IfOk result (λ found. IsFormat (D.sectors disk.old) (seen (D.history disk.old) 0) found.0.sectors) }
    ensures version { D.honest disk.new → IfOk result (λ found. found.1 ≡ version_from (seen (D.history disk.old) 0)) }
    ensures fault { D.honest disk.new
        → IfErr result (λ fault. (fault ≡ Device) ⊎ IsFaultOf (D.sectors disk.old) (seen (D.history disk.old)) fault) }
{
    let count = disk.count();
    if count == 0 {
        return Err(StoreFault::NotFormatted);
    }
    let sector = read_sector(disk, 0)?;
    if !has_mark(&sector) {
        return Err(StoreFault::NotFormatted);
    }
    match layout_in(&sector, count) {
        Some(layout) => Ok((layout, version_at(&sector))),
        None => Err(StoreFault::Damaged(What::Size)),
    }
}

/// The root in the sector of even generations, for parity 0, or of odd ones, for parity 1; none if it has none.
fn read_slot<D: Sectors>(
    disk: &mut D,
    layout: Layout,
    parity: u64,
) -> Result<Option<Root>, StoreFault>
    requires parity { parity < 2 }
    requires within { layout.sectors ≤ D.sectors disk.old }
    ensures disk { OnlyReads D.sectors D.honest D.history disk.old disk.new }
    ensures failed { TellsDevice result (D.faults disk.old) (D.faults disk.new) }
    ensures can { IfOk result (λ slot. IfSome slot (λ root. CanStand layout.sectors root)) }
    ensures slot { D.honest disk.new → IfOk result (IsSlot layout.sectors parity (seen (D.history disk.old) (1 + parity))) }
    ensures fault { IfErr result (λ fault. (fault ≡ Device) ⊎ (fault ≡ Damaged RootSector)) }
    ensures bad { D.honest disk.new
        → IfErr result (λ fault. (fault ≡ Device) ⊎ IsBad layout.sectors parity (seen (D.history disk.old) (1 + parity))) }
{
    let sector = read_sector(disk, 1 + parity)?;
    slot_in(&sector, layout, parity)
}

/// The layout of a disk, the version of its format and the root that counts on it: of the one or two that it has, the one of
/// greater generation. Only reads. At a fault other than `Device` it is the first that the disk has: of sector 0, and then of
/// the sectors of roots.
pub fn read_root<D: Sectors>(disk: &mut D) -> Result<Found, StoreFault>
    ensures disk { OnlyReads D.sectors D.honest D.history disk.old disk.new }
    ensures failed { TellsDevice result (D.faults disk.old) (D.faults disk.new) }
    ensures within { IfOk result (λ found. found.layout.sectors ≤ D.sectors disk.new) }
    ensures can { IfOk result (λ found. CanStand found.layout.sectors found.root) }
    ensures known { IfOk result (λ found. IsVersion found.version) }
    ensures version { D.honest disk.new → IfOk result (λ found. found.version ≡ version_from (seen (D.history disk.old) 0)) }
    ensures root { D.honest disk.new
        → IfOk result (λ found. LiveRoot (D.sectors disk.old) (seen (D.history disk.old)) found.layout.sectors found.root) }
    ensures fault { D.honest disk.new
        → IfErr result (λ fault. (fault ≡ Device) ⊎ IsFaultOf (D.sectors disk.old) (seen (D.history disk.old)) fault) }
{
    let (layout, version) = read_layout(disk)?;
    let even = read_slot(disk, layout, 0)?;
    let odd = read_slot(disk, layout, 1)?;
    match newest(even, odd) {
        Some(root) => Ok(Found {
            layout,
            root,
            version,
        }),
        None => Err(StoreFault::Damaged(What::RootSector)),
    }
}
