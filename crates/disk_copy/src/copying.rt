//! The copy of a disk.
ghost use Rattle.std.specs.Prelude.{◌≡◌, ◌↔◌, IsTrue, ◌≤◌, ◌+◌, ℕ, List, IfOk, IfErr, OnOk};
ghost use Rattle.edit_journal.specs.Records.{RecordData};
ghost use Rattle.disk_copy.specs.Copies.{Copies, CopiesAs, IsFront, IsEmpty, IsCopied, IsJournalOf};
ghost use Rattle.disk_copy.specs.Shared.{GoesOn, IsOf, IsServed, IsStretch, HasLooked, IsOfOneMoment};
ghost use Rattle.disk_copy.specs.Walks.{CopiesNamed, CopiesNamedShared, IsCopiedFromOne};
ghost use Rattle.disk_copy.specs.Faults.{TellsCopy, IsRecordsFault, IsOutside, IsCopyFault, told_as};
ghost use Rattle.generations.specs.Disks.{LiveRoot};
ghost use Rattle.generations.specs.Sectors.{CanStand, version_from};
ghost use Rattle.sector_disk.specs.Asked.{MayWrite, OnlyReads};
ghost use Rattle.sector_disk.specs.Disk.{seen};
ghost use Rattle.sector_disk.specs.Disk.History.{synced};

use crate::fault::CopyFault;
use crate::first::{read_first, root_in};
use crate::records::copy_records;
use crate::sectors::copy_sectors;
use crate::shared::SharedSectors;
use edit_journal::{Journal, JournalFault, JournalPosition};
use generations::{Found, JOURNAL_START, Root, StoreFault, What, read_root, sectors_for};
use sector_disk::{DiskFault, Sectors};
use std::alloc::Global;

/// The fault of a disk whose journal isn't read.
fn to_copy_fault(fault: JournalFault) -> CopyFault
    ensures { result ≡ told_as fault }
{
    match fault {
        JournalFault::Device => CopyFault::Store(StoreFault::Device),
        JournalFault::Memory => CopyFault::Store(StoreFault::Memory),
        _ => CopyFault::Store(StoreFault::Damaged(What::Journal)),
    }
}

/// Checks that the journal that the root names is whole.
fn check_records<D: Sectors>(alloc: Global, disk: &mut D, found: Found) -> Result<(), CopyFault>
    requires can { CanStand found.layout.sectors found.root }
    requires on_disk { found.layout.sectors ≤ D.sectors disk.old }
    ensures disk { OnlyReads D.sectors D.honest D.history disk.old disk.new }
    ensures failed { TellsCopy result (D.faults disk.old) (D.faults disk.new) 0 0 }
    ensures records { D.honest disk.new → OnOk result ((records : List RecordData)
        × IsJournalOf found.layout.sectors found.version found.root records (seen (D.history disk.old))) }
    ensures fault { D.honest disk.new
        → IfErr result (IsRecordsFault found.layout.sectors found.version found.root (seen (D.history disk.old))) }
{
    let start = JournalPosition {
        place: found.root.journal_at,
        edits: found.root.edits,
    };
    let places = found.layout.journal;
    match Journal::recover(alloc, disk, JOURNAL_START, places, start, found.version) {
        Ok(_) => Ok(()),
        Err(fault) => Err(to_copy_fault(fault)),
    }
}

/// Copies the format, the root and what it names in its area.
fn copy_front<D: SharedSectors, E: Sectors>(
    disk: &mut D,
    found: Found,
    into: &mut E,
) -> Result<(), CopyFault>
    requires can { CanStand found.layout.sectors found.root }
    requires on_disk { found.layout.sectors ≤ D.sectors disk.old }
    requires fits { found.layout.sectors ≤ E.sectors into.old }
    ensures disk { OnlyReads D.sectors D.honest D.history disk.old disk.new }
    ensures into { MayWrite E.sectors E.honest into.old into.new }
    ensures failed { TellsCopy result (D.faults disk.old) (D.faults disk.new) (E.faults into.old) (E.faults into.new) }
    ensures outside { IfErr result IsOutside }
    ensures copied { D.honest disk.new → E.honest into.new → OnOk result
        (Copies (IsFront found.layout.sectors found.root)
        (seen (D.history disk.old)) (seen (E.history into.old)) (seen (E.history into.new))) }
    ensures later { GoesOn D.shared D.now disk.old disk.new }
    ensures shared { D.shared disk.new → E.honest into.new → OnOk result
        (CopiesAs (IsOf D.images (D.now disk.old) (D.now disk.new)) (IsFront found.layout.sectors found.root)
        (seen (E.history into.old)) (seen (E.history into.new))) }
{
    let root = found.root;
    let area = found.layout.area_start(root.generation);
    let taken = sectors_for(root.snapshot_len) + sectors_for(root.archive_len);
    copy_sectors(disk, 0, 1, into)?;
    copy_sectors(disk, 1 + root.generation % 2, 1, into)?;
    copy_sectors(disk, area, taken, into)
}

/// Copies all that a root names, with the records that the journal has by then, and returns the number of the last edit.
fn copy_named<D: SharedSectors, E: Sectors>(
    disk: &mut D,
    found: Found,
    into: &mut E,
) -> Result<u64, CopyFault>
    requires can { CanStand found.layout.sectors found.root }
    requires on_disk { found.layout.sectors ≤ D.sectors disk.old }
    requires fits { found.layout.sectors ≤ E.sectors into.old }
    ensures disk { OnlyReads D.sectors D.honest D.history disk.old disk.new }
    ensures into { MayWrite E.sectors E.honest into.old into.new }
    ensures failed { TellsCopy result (D.faults disk.old) (D.faults disk.new) (E.faults into.old) (E.faults into.new) }
    ensures fault { (records : List RecordData) → D.honest disk.new
        → IsJournalOf found.layout.sectors found.version found.root records (seen (D.history disk.old)) → IfErr result IsOutside }
    ensures copied { (records : List RecordData) → D.honest disk.new → E.honest into.new
        → IsJournalOf found.layout.sectors found.version found.root records (seen (D.history disk.old))
        → IfOk result (CopiesNamed found.layout.sectors found.root records (seen (D.history disk.old))
        (seen (E.history into.old)) (seen (E.history into.new))) }
    ensures later { GoesOn D.shared D.now disk.old disk.new }
    ensures shared { (records : ℕ → List RecordData) (to : ℕ) → D.shared disk.new → E.honest into.new → D.now disk.new ≤ to
        → IsStretch found.layout.sectors found.version found.root records D.images (D.now disk.old) to
        → IfOk result (CopiesNamedShared found.layout.sectors found.root records D.images (D.now disk.old) (D.now disk.new)
        (seen (E.history into.old)) (seen (E.history into.new))) }
{
    match copy_front(disk, found, into) {
        Ok(()) => copy_records(disk, found, into),
        Err(fault) => Err(fault),
    }
}

/// Whether two roots are the same.
fn is_same_root(root: Root, other: Root) -> bool
    ensures { IsTrue result ↔ (root ≡ other) }
{
    root == other
}

/// Checks that the disk has this root now.
fn check_root<D: SharedSectors>(disk: &mut D, found: Found) -> Result<(), CopyFault>
    requires on_disk { found.layout.sectors ≤ D.sectors disk.old }
    ensures disk { OnlyReads D.sectors D.honest D.history disk.old disk.new }
    ensures failed { TellsCopy result (D.faults disk.old) (D.faults disk.new) 0 0 }
    ensures same { D.honest disk.new → LiveRoot (D.sectors disk.old) (seen (D.history disk.old)) found.layout.sectors found.root
        → found.version ≡ version_from (seen (D.history disk.old) 0) → IfErr result IsOutside }
    // Only if it is the live root.
    ensures still { D.honest disk.new → OnOk result (LiveRoot (D.sectors disk.old) (seen (D.history disk.old)) found.layout.sectors found.root) }
    ensures version { D.honest disk.new → OnOk result (found.version ≡ version_from (seen (D.history disk.old) 0)) }
    ensures later { GoesOn D.shared D.now disk.old disk.new }
    ensures since { D.opened ≤ D.now disk.old }
    ensures looked { D.shared disk.new → OnOk result
        (HasLooked (D.sectors disk.old) found.layout.sectors found.version found.root D.images (D.now disk.old) (D.now disk.new)) }
{
    let first = match read_first(disk) {
        Ok(first) => first,
        Err(fault) => return Err(fault),
    };
    let again = match root_in(first) {
        Ok(again) => again,
        Err(fault) => return Err(fault),
    };
    if again.layout.sectors != found.layout.sectors {
        return Err(CopyFault::Moved);
    }
    if !is_same_root(again.root, found.root) {
        return Err(CopyFault::Moved);
    }
    if again.version != found.version {
        return Err(CopyFault::Moved);
    }
    Ok(())
}

/// Copies what a root names between two looks at it, and returns the number of the last edit.
fn copy_between<D: SharedSectors, E: Sectors>(
    disk: &mut D,
    found: Found,
    into: &mut E,
) -> Result<u64, CopyFault>
    requires can { CanStand found.layout.sectors found.root }
    requires on_disk { found.layout.sectors ≤ D.sectors disk.old }
    requires fits { found.layout.sectors ≤ E.sectors into.old }
    ensures disk { OnlyReads D.sectors D.honest D.history disk.old disk.new }
    ensures into { MayWrite E.sectors E.honest into.old into.new }
    ensures failed { TellsCopy result (D.faults disk.old) (D.faults disk.new) (E.faults into.old) (E.faults into.new) }
    ensures fault { (records : List RecordData) → D.honest disk.new
        → LiveRoot (D.sectors disk.old) (seen (D.history disk.old)) found.layout.sectors found.root
        → found.version ≡ version_from (seen (D.history disk.old) 0)
        → IsJournalOf found.layout.sectors found.version found.root records (seen (D.history disk.old)) → IfErr result IsOutside }
    ensures copied { (records : List RecordData) → D.honest disk.new → E.honest into.new
        → IsJournalOf found.layout.sectors found.version found.root records (seen (D.history disk.old))
        → IfOk result (CopiesNamed found.layout.sectors found.root records (seen (D.history disk.old))
        (seen (E.history into.old)) (seen (E.history into.new))) }
    ensures shared { (n version : ℕ) → D.shared disk.new → E.honest into.new → IsServed (D.sectors disk.old) n version D.images
        → IfOk result (IsCopiedFromOne (D.sectors disk.old) found.layout.sectors found.version found.root D.images D.opened (D.now disk.new)
        (seen (E.history into.old)) (seen (E.history into.new))) }
{
    match check_root(disk, found) {
        Ok(()) => {}
        Err(fault) => return Err(fault),
    }
    let last = match copy_named(disk, found, into) {
        Ok(last) => last,
        Err(fault) => return Err(fault),
    };
    match check_root(disk, found) {
        Ok(()) => Ok(last),
        Err(moved) => Err(moved),
    }
}

/// Syncs the copy.
fn settle<E: Sectors>(into: &mut E) -> Result<(), CopyFault>
    ensures into { MayWrite E.sectors E.honest into.old into.new }
    ensures failed { TellsCopy result 0 0 (E.faults into.old) (E.faults into.new) }
    ensures outside { IfErr result IsOutside }
    ensures settled { E.honest into.new → OnOk result (E.history into.new ≡ synced (E.history into.old)) }
{
    match into.sync() {
        Ok(()) => Ok(()),
        Err(DiskFault) => Err(CopyFault::Write),
    }
}

/// Copies a disk as of one moment to another one, whose sectors are zeros, and returns the number of the last edit. The copy has the
/// disk's format, its live root, the area that this names, and the records of the journal, up to the last one that is whole; every other
/// sector stays zeros. It writes nothing to the disk, and takes memory for the records of the journal.
///
/// The disk may be served meanwhile. Between two publications the sectors that a root names aren't written to, and the journal only grows: so
/// what is read of them is as of one moment if the root is the same before and after. Of the journal the heads of records are read in order,
/// and each record is copied once its head was read. A sector is read anew each time.
///
/// # Errors
///
/// `Store`: the disk has no live root, or no whole journal; `Device`, `Memory`. `Moved`: the root is another one by then, or `into` has
/// fewer sectors than the disk was formatted with. `Write`: a call of `into` failed. After an error `into` is no copy.
pub fn copy_disk<D: SharedSectors, E: Sectors>(
    alloc: Global,
    disk: &mut D,
    into: &mut E,
) -> Result<u64, CopyFault>
    ensures disk { OnlyReads D.sectors D.honest D.history disk.old disk.new }
    ensures into { MayWrite E.sectors E.honest into.old into.new }
    ensures failed { TellsCopy result (D.faults disk.old) (D.faults disk.new) (E.faults into.old) (E.faults into.new) }
    ensures fault { D.honest disk.new
        → IfErr result (IsCopyFault (D.sectors disk.old) (E.sectors into.old) (seen (D.history disk.old))) }
    ensures copied { D.honest disk.new → E.honest into.new → IsEmpty (seen (E.history into.old))
        → IfOk result (λ last. IsCopied (D.sectors disk.old) (seen (D.history disk.old)) last (E.history into.new)) }

    // Whatever others write meanwhile, as long as images only grow between two publications: the copy is that of one of the images that the
    // disk has had since it was opened. It needs no `honest`.
    ensures of_one_moment { (n version : ℕ) → D.shared disk.new → E.honest into.new → IsEmpty (seen (E.history into.old))
        → IsServed (D.sectors disk.old) n version D.images
        → IfOk result (λ last. IsOfOneMoment (D.sectors disk.old) D.images D.opened (D.now disk.new) last (E.history into.new)) }
{
    let found = match read_root(disk) {
        Ok(found) => found,
        Err(fault) => return Err(CopyFault::Store(fault)),
    };
    if into.count() < found.layout.sectors {
        return Err(CopyFault::Moved);
    }
    check_records(alloc, disk, found)?;
    let last = copy_between(disk, found, into)?;
    settle(into)?;
    Ok(last)
}
