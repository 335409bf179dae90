//! A record on the disk: its bodies, a sync, its head, a sync.
ghost use Rattle.std.specs.Prelude.{◌≡◌, ◌⊎◌, ◌≤◌, ◌<◌, ◌+◌, ◌-◌, ◌^◌, ◌++◌, ◌∷◌, [], ℕ, List, length, IfOk, IfErr, OnOk, OnErr};
ghost use Rattle.sector_disk.specs.Asked.{MayWrite, TellsFailure};
ghost use Rattle.sector_disk.specs.Disk.{seen};
ghost use Rattle.sector_disk.specs.Moments.{Within, LeavesOnly};
ghost use Rattle.edit_journal.specs.Records.{RecordData, record_of, IsRecordLength, parts_of};
ghost use Rattle.edit_journal.specs.Ring.{sector_at};
ghost use Rattle.edit_journal.specs.Appends.{ring_of, start_of, Keeps, IsAt, AsBefore, ReadsAsBefore, ReadsBeside, HoldsOneMore, OldOrBody, BodiesStand};
ghost use Rattle.edit_journal.specs.Appends.{writes_in, syncs_in, syncs_of, TakesSteps, IsAppendFault};
ghost use Rattle.edit_journal.specs.Recovers.{PartsStand};
ghost use Rattle.edit_journal.specs.declared.fault.JournalFault.TheVariants.{Device};

use crate::encoding::{count_parts, part_sector};
use crate::fault::JournalFault;
use crate::journal::Journal;
use sector_disk::{DiskFault, Sectors};

impl Journal {
    /// The sector of the place that is `offset` places after the first record in use.
    pub(crate) fn sector_of(&self, offset: u64) -> u64
        requires { offset < self.now.places }
        ensures is { result ≡ sector_at (ring_of self.now) (self.now.place + offset) }
        ensures within { result < self.now.first + self.now.places }
    {
        self.first + self.place_of(offset)
    }
}

/// Writes the bodies of a record, and has them outlive a crash. A text of one part has none.
fn stage<D: Sectors>(
    journal: &Journal,
    disk: &mut D,
    version: u32,
    number: u64,
    text: &[u8],
) -> Result<(), DiskFault>
    requires text { IsRecordLength version (length text.now) }
    requires room { journal.now.used + parts_of (length text.now) ≤ journal.now.places }
    requires ring { journal.now.first + journal.now.places ≤ D.sectors disk.old }
    ensures disk { MayWrite D.sectors D.honest disk.old disk.new }
    ensures failed { TellsFailure result (D.faults disk.old) (D.faults disk.new) }
    ensures reads { D.honest disk.new
        → ReadsBeside (ring_of journal.now) journal.now.place journal.now.used (parts_of (length text.now)) (seen (D.history disk.old))
        (seen (D.history disk.new)) }
    ensures leaves { D.honest disk.new → LeavesOnly (D.history disk.old) (D.history disk.new) (λ image. (at : ℕ)
        → OldOrBody (D.history disk.old) (ring_of journal.now) journal.now.place journal.now.used number (record_of version text.now) at (image at)) }
    ensures within { D.honest disk.new → Within (D.history disk.new)
        (OldOrBody (D.history disk.old) (ring_of journal.now) journal.now.place journal.now.used number (record_of version text.now)) }
    ensures bodies { D.honest disk.new
        → OnOk result (BodiesStand (D.history disk.new) (ring_of journal.now) journal.now.place journal.now.used number (record_of version text.now)) }

    // Of the record's writes and syncs all but one of each are made.
    ensures writes { D.honest disk.new
        → OnOk result (writes_in (D.history disk.new) + 1 ≡ writes_in (D.history disk.old) + parts_of (length text.now)) }
    ensures syncs { D.honest disk.new
        → OnOk result (syncs_in (D.history disk.new) + 1 ≡ syncs_in (D.history disk.old) + syncs_of (parts_of (length text.now))) }
{
    let parts = count_parts(text.len() as u32);
    for part in 1..parts {
        let sector = part_sector(version, number, text, part);
        let at = journal.sector_of(journal.used + part as u64);
        disk.write(at, &sector)?;
    }
    if parts > 1 {
        disk.sync()?;
    }
    Ok(())
}

/// Writes a record whole: its bodies first, and its head once they outlive a crash.
fn write_record<D: Sectors>(
    journal: &Journal,
    disk: &mut D,
    version: u32,
    text: &[u8],
) -> Result<(), DiskFault>
    requires text { IsRecordLength version (length text.now) }
    requires room { journal.now.used + parts_of (length text.now) ≤ journal.now.places }
    requires ring { journal.now.first + journal.now.places ≤ D.sectors disk.old }
    requires next { journal.now.last < 2 ^ 64 - 1 }
    ensures disk { MayWrite D.sectors D.honest disk.old disk.new }
    ensures failed { TellsFailure result (D.faults disk.old) (D.faults disk.new) }
    ensures reads { D.honest disk.new
        → ReadsBeside (ring_of journal.now) journal.now.place journal.now.used (parts_of (length text.now)) (seen (D.history disk.old))
        (seen (D.history disk.new)) }
    ensures frame { D.honest disk.new
        → LeavesOnly (D.history disk.old) (D.history disk.new) (AsBefore (ring_of journal.now) journal.now.place journal.now.used (D.history disk.old)) }
    ensures any_moment { (records : List RecordData) → D.honest disk.new → IsAt records journal.now (D.history disk.old)
        → LeavesOnly (D.history disk.old) (D.history disk.new)
        (HoldsOneMore (ring_of journal.now) (start_of journal.now.place journal.now.edits) records (record_of version text.now)) }
    ensures acknowledged { (records : List RecordData) → D.honest disk.new → IsAt records journal.now (D.history disk.old)
        → OnOk result (Keeps (ring_of journal.now) journal.now.place journal.now.edits (journal.now.used + parts_of (length text.now)) (journal.now.last + 1)
        (records ++ record_of version text.now ∷ []) (D.history disk.new)) }
    ensures stands { D.honest disk.new → OnOk result (PartsStand (ring_of journal.now) journal.now.place journal.now.used (journal.now.last + 1)
        (record_of version text.now) (seen (D.history disk.new))) }
    ensures steps { D.honest disk.new → OnOk result (TakesSteps (parts_of (length text.now)) (D.history disk.old) (D.history disk.new)) }
{
    let number = journal.last + 1;
    stage(journal, disk, version, number, text)?;
    let head = part_sector(version, number, text, 0);
    let at = journal.sector_of(journal.used);
    disk.write(at, &head)?;
    disk.sync()
}

impl Journal {
    /// Adds a record of this version and text after the others, and returns its number. After `Ok` a crash leaves it, as long as only
    /// appends write. After `Device` the disk may hold it or not, and nothing is promised of a further append; at another fault
    /// nothing was written. The version is 1 or 2, and the disk's must allow it.
    pub fn append<D: Sectors>(
        &mut self,
        disk: &mut D,
        version: u32,
        text: &[u8],
    ) -> Result<u64, JournalFault>
        requires text { IsRecordLength version (length text.now) }
        requires ring { self.old.first + self.old.places ≤ D.sectors disk.old }
        ensures disk { MayWrite D.sectors D.honest disk.old disk.new }
        ensures faults { OnOk result (D.faults disk.new ≡ D.faults disk.old) }
        ensures fault { IfErr result (IsAppendFault self.old (parts_of (length text.now)) (D.faults disk.old) (D.faults disk.new)) }
        ensures refused { IfErr result (λ fault. (fault ≡ Device) ⊎ (disk.new ≡ disk.old)) }
        ensures number { IfOk result (λ number. number ≡ self.old.last + 1) }
        ensures used { OnOk result (self.new.used ≡ self.old.used + parts_of (length text.now)) }
        ensures last { OnOk result (self.new.last ≡ self.old.last + 1) }
        ensures same { (ring_of self.new ≡ ring_of self.old) × (start_of self.new.place self.new.edits ≡ start_of self.old.place self.old.edits) }
        ensures kept { OnErr result (self.new ≡ self.old) }

        // The sectors that aren't free are as they were.
        ensures reads { D.honest disk.new
            → ReadsAsBefore (ring_of self.old) self.old.place self.old.used (seen (D.history disk.old)) (seen (D.history disk.new)) }
        ensures frame { D.honest disk.new
            → LeavesOnly (D.history disk.old) (D.history disk.new) (AsBefore (ring_of self.old) self.old.place self.old.used (D.history disk.old)) }

        // Only the sectors of the record's parts are written, and after `Ok` a read gives the record there.
        ensures beside { D.honest disk.new → ReadsBeside (ring_of self.old) self.old.place self.old.used (parts_of (length text.now))
            (seen (D.history disk.old)) (seen (D.history disk.new)) }
        ensures stands { D.honest disk.new → OnOk result (PartsStand (ring_of self.old) self.old.place self.old.used (self.old.last + 1)
            (record_of version text.now) (seen (D.history disk.new))) }

        // A crash at any moment of the call leaves the records from before it, with the new one or without.
        ensures any_moment { (records : List RecordData) → D.honest disk.new → IsAt records self.old (D.history disk.old)
            → LeavesOnly (D.history disk.old) (D.history disk.new)
            (HoldsOneMore (ring_of self.old) (start_of self.old.place self.old.edits) records (record_of version text.now)) }
        ensures acknowledged { (records : List RecordData) → D.honest disk.new → IsAt records self.old (D.history disk.old)
            → OnOk result (IsAt (records ++ record_of version text.now ∷ []) self.new (D.history disk.new)) }

        // It takes one write for each part, and one sync, or two where there are several parts.
        ensures steps { D.honest disk.new → OnOk result (TakesSteps (parts_of (length text.now)) (D.history disk.old) (D.history disk.new)) }
    {
        if self.last == u64::MAX {
            return Err(JournalFault::NumbersSpent);
        }
        let need = count_parts(text.len() as u32) as u64;
        let free = self.free();
        if need > free {
            return Err(JournalFault::Full { need, free });
        }
        match write_record(self, disk, version, text) {
            Ok(()) => {}
            Err(DiskFault) => return Err(JournalFault::Device),
        }
        self.used += need;
        self.last += 1;
        Ok(self.last)
    }
}
