//! The map of a disk's snapshot.
ghost use Rattle.std.specs.Prelude.{◌≡◌, ◌⊎◌, ◌≤◌, ◌<◌, ◌+◌, ℕ, length, IfErr, IfOk};
ghost use Rattle.sector_disk.specs.Asked.{OnlyReads};
ghost use Rattle.sector_disk.specs.Disk.{seen};
ghost use Rattle.sector_bytes.specs.Bytes.{StandsIn};
ghost use Rattle.generations.specs.Areas.{sectors_of};
ghost use Rattle.generations.specs.Faults.{TellsDevice};
ghost use Rattle.generations.specs.Sectors.{CanStand};
ghost use Rattle.generations.specs.declared.fault.StoreFault.TheVariants.{Damaged, Device, Memory};
ghost use Rattle.generations.specs.declared.fault.What.TheVariants.{Snapshot};
ghost use Rattle.feature_store.specs.Snapshots.{IsNoSnapshot};
ghost use Rattle.feature_store.specs.Store.{IsMap, snapshot};
ghost use Rattle.feature_store.specs.declared.limit.TheConstants.{TEXTS_END};
ghost use Rattle.tile_service.specs.Opening.{HasSnapshot, IsContentFault};

use feature_store::{SnapshotFault, Store};
use generations::{Layout, Root, StoreFault, What};
use sector_bytes::read_bytes;
use sector_disk::{DiskFault, Sectors};
use std::alloc::{AllocError, Global};

/// The map of a snapshot.
fn map_in(alloc: Global, text: &[u8]) -> Result<Store, StoreFault>
    requires { length text.now < TEXTS_END }
    ensures map { IfOk result (λ store. IsMap store.features) }
    ensures text { IfOk result (λ store. snapshot store.features ≡ text.now) }
    ensures fault { IfErr result (λ fault. (fault ≡ Memory) ⊎ ((fault ≡ Damaged Snapshot) × IsNoSnapshot text.now)) }
{
    match Store::from_snapshot(alloc, text) {
        Ok(store) => Ok(store),
        Err(SnapshotFault::Bad) => Err(StoreFault::Damaged(What::Snapshot)),
        Err(SnapshotFault::Memory) => Err(StoreFault::Memory),
    }
}

/// Reads `len` bytes from consecutive sectors, starting at `first`.
fn read_text<D: Sectors>(
    alloc: Global,
    disk: &mut D,
    first: u64,
    len: u64,
) -> Result<Vec<u8>, StoreFault>
    requires on_disk { first + sectors_of len ≤ D.sectors disk.old }
    ensures disk { OnlyReads D.sectors D.honest D.history disk.old disk.new }
    ensures failed { TellsDevice result (D.faults disk.old) (D.faults disk.new) }
    ensures fault { IfErr result (λ fault. (fault ≡ Device) ⊎ (fault ≡ Memory)) }
    ensures len { IfOk result (λ text. length text.items ≡ len) }
    ensures stands { D.honest disk.new → IfOk result (λ text. StandsIn first text.items (seen (D.history disk.old))) }
{
    let mut text = match vec![in alloc; 0; len as usize] {
        Ok(text) => text,
        Err(AllocError) => return Err(StoreFault::Memory),
    };
    match read_bytes(disk, first, 0, &mut text) {
        Ok(()) => Ok(text),
        Err(DiskFault) => Err(StoreFault::Device),
    }
}

/// Reads the map of the snapshot that a root names.
pub(crate) fn read_snapshot<D: Sectors>(
    alloc: Global,
    disk: &mut D,
    layout: Layout,
    root: Root,
) -> Result<Store, StoreFault>
    requires within { layout.sectors ≤ D.sectors disk.old }
    requires can { CanStand layout.sectors root }
    ensures disk { OnlyReads D.sectors D.honest D.history disk.old disk.new }
    ensures failed { TellsDevice result (D.faults disk.old) (D.faults disk.new) }
    ensures texts { IfOk result (λ store. length (snapshot store.features) ≡ root.snapshot_len) }
    ensures found { D.honest disk.new → IfOk result (λ store. HasSnapshot layout.sectors root store.features (seen (D.history disk.old))) }
    ensures fault { (version : ℕ) → D.honest disk.new
        → IfErr result (λ fault. (fault ≡ Device) ⊎ (fault ≡ Memory) ⊎ IsContentFault layout.sectors version root (seen (D.history disk.old)) fault) }
{
    let first = layout.area_start(root.generation);
    let text = match read_text(alloc, disk, first, root.snapshot_len) {
        Ok(text) => text,
        Err(fault) => return Err(fault),
    };
    map_in(alloc, &text)
}
