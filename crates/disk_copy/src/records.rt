//! The records of a journal, copied one after the other.
ghost use Rattle.std.specs.Prelude.{◌≡◌, ◌⊎◌, ◌≤◌, ◌<◌, ◌+◌, ◌-◌, ◌*◌, ◌^◌, ℕ, List, length, IfOk, IfErr, IfSome, MatchResult};
ghost use Rattle.sector_disk.specs.Asked.{MayWrite, OnlyReads};
ghost use Rattle.sector_disk.specs.Disk.{seen};
ghost use Rattle.edit_journal.specs.Records.{RecordData};
ghost use Rattle.edit_journal.specs.Ring.{places_of};
ghost use Rattle.generations.specs.Sectors.{CanStand};
ghost use Rattle.disk_copy.specs.Copies.{Copies, IsUsed, ring_in, IsJournalOf};
ghost use Rattle.disk_copy.specs.Faults.{TellsCopy, IsOutside};
ghost use Rattle.disk_copy.specs.Shared.{GoesOn, IsStretch, HasWalked, FindsNext};
ghost use Rattle.disk_copy.specs.Walks.{TellsNext, IsNoNext, CopiesAll, CopiesAllShared};
ghost use Rattle.disk_copy.specs.declared.fault.CopyFault.TheVariants.{Moved};

use crate::fault::CopyFault;
use crate::first::read_sector;
use crate::sectors::copy_places;
use crate::shared::SharedSectors;
use edit_journal::{head_in, head_version};
use generations::{Found, JOURNAL_START};
use sector_disk::{SECTOR_BYTES, Sectors};

/// How many places the record takes whose head a sector is, or none if it isn't the head of this number, of a version up to `most`. The only
/// error is `Moved`: the head has more places than are free, or is of no record.
fn parts_in(
    sector: &[u8; SECTOR_BYTES],
    most: u32,
    number: u64,
    free: u64,
) -> Result<Option<u64>, CopyFault>
    ensures { MatchResult result (TellsNext most number free sector.now) (λ fault. (fault ≡ Moved) × IsNoNext most number free sector.now) }
{
    let version = match head_version(sector, number, most) {
        Some(version) => version,
        None => return Ok(None),
    };
    match head_in(sector, version, number) {
        Some(head) if u64::from(head.parts) <= free => Ok(Some(u64::from(head.parts))),
        _ => Err(CopyFault::Moved),
    }
}

/// How many places the record takes that comes after those in `used` places, the last of which has the number `last`; none if the journal
/// ends there.
fn find_record<D: SharedSectors>(
    disk: &mut D,
    found: Found,
    used: u64,
    last: u64,
) -> Result<Option<u64>, CopyFault>
    requires can { CanStand found.layout.sectors found.root }
    requires used { used ≤ found.layout.journal }
    requires on_disk { found.layout.sectors ≤ D.sectors disk.old }
    ensures disk { OnlyReads D.sectors D.honest D.history disk.old disk.new }
    ensures failed { TellsCopy result (D.faults disk.old) (D.faults disk.new) 0 0 }
    ensures room { IfOk result (λ next. IfSome next (λ parts. (0 < parts) × (used + parts ≤ found.layout.journal) × (last + 1 < 2 ^ 64))) }
    ensures fault { IfErr result (λ fault. IsOutside fault ⊎ (fault ≡ Moved)) }
    ensures found { (records : List RecordData) → D.honest disk.new
        → IsJournalOf found.layout.sectors found.version found.root records (seen (D.history disk.old))
        → HasWalked found.root records used last → FindsNext found.root records used last result }
    ensures later { GoesOn D.shared D.now disk.old disk.new }
    ensures shared { D.shared disk.new → (moment : ℕ) × (D.now disk.old ≤ moment) × (moment ≤ D.now disk.new)
        × ((records : List RecordData) → IsJournalOf found.layout.sectors found.version found.root records (D.images moment)
        → HasWalked found.root records used last → FindsNext found.root records used last result) }
{
    if used == found.layout.journal || last == u64::MAX {
        return Ok(None);
    }
    let at = JOURNAL_START + (found.root.journal_at + used) % found.layout.journal;
    match read_sector(disk, at) {
        Ok(sector) => parts_in(
            &sector,
            found.version,
            last + 1,
            found.layout.journal - used,
        ),
        Err(fault) => Err(fault),
    }
}

/// Copies the records of the journal that a root names, one after the other, and returns the number of the last edit.
pub(crate) fn copy_records<D: SharedSectors, E: Sectors>(
    disk: &mut D,
    found: Found,
    into: &mut E,
) -> Result<u64, CopyFault>
    requires can { CanStand found.layout.sectors found.root }
    requires on_disk { found.layout.sectors ≤ D.sectors disk.old }
    requires fits { found.layout.sectors ≤ E.sectors into.old }
    ensures disk { OnlyReads D.sectors D.honest D.history disk.old disk.new }
    ensures into { MayWrite E.sectors E.honest into.old into.new }
    ensures failed { TellsCopy result (D.faults disk.old) (D.faults disk.new) (E.faults into.old) (E.faults into.new) }
    ensures fault { (records : List RecordData) → D.honest disk.new
        → IsJournalOf found.layout.sectors found.version found.root records (seen (D.history disk.old)) → IfErr result IsOutside }
    ensures copied { (records : List RecordData) → D.honest disk.new → E.honest into.new
        → IsJournalOf found.layout.sectors found.version found.root records (seen (D.history disk.old))
        → IfOk result (CopiesAll found.layout.sectors found.root records (seen (D.history disk.old))
        (seen (E.history into.old)) (seen (E.history into.new))) }
    ensures later { GoesOn D.shared D.now disk.old disk.new }
    ensures shared { (records : ℕ → List RecordData) (to : ℕ) → D.shared disk.new → E.honest into.new → D.now disk.new ≤ to
        → IsStretch found.layout.sectors found.version found.root records D.images (D.now disk.old) to
        → IfOk result (CopiesAllShared found.layout.sectors found.root records D.images (D.now disk.old) (D.now disk.new)
        (seen (E.history into.old)) (seen (E.history into.new))) }
{
    let mut used = 0;
    let mut last = found.root.edits;
    while let Some(parts) = find_record(disk, found, used, last)? {
        copy_places(
            disk,
            found.layout,
            found.root.journal_at + used,
            parts,
            into,
        )?;
        used += parts;
        last += 1;
    }
    Ok(last)
}
