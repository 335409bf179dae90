//! A journal with records before those in use: whole ones, which newer ones haven't overwritten.
ghost use Rattle.std.specs.Prelude.{◌≡◌, ◌≢◌, ◌⊎◌, ◌≤◌, ◌<◌, ◌+◌, ◌-◌, ◌%◌, ◌^◌, ◌++◌, ◌∷◌, [], ℕ, List, length, take, drop, false, IsTrue, IfOk, IfErr, OnOk, OnErr};
ghost use Rattle.sector_disk.specs.Asked.{MayWrite, OnlyReads, TellsFailure};
ghost use Rattle.sector_disk.specs.Disk.{History, seen};
ghost use Rattle.sector_disk.specs.Moments.{LeavesOnly};
ghost use Rattle.edit_journal.specs.Records.{RecordData, record_of, IsRecordLength, parts_of};
ghost use Rattle.edit_journal.specs.Ring.{places_of};
ghost use Rattle.edit_journal.specs.Appends.{ring_of, start_of, IsAt, AsBefore, ReadsAsBefore, HoldsOneMore, TakesSteps, IsAppendFault};
ghost use Rattle.edit_journal.specs.Kept.{GoesBack, HasOlder, IsFull};
ghost use Rattle.edit_journal.specs.Lists.{HasRecords};
ghost use Rattle.edit_journal.specs.declared.fault.JournalFault.TheVariants.{Device};

use crate::encoding::count_parts;
use crate::fault::JournalFault;
use crate::head::number_in;
use crate::journal::Journal;
use crate::recovering::read_place;
use crate::sizes::FREED_PART;
use sector_disk::Sectors;

impl Journal {
    /// Whether there is a number for another record.
    fn has_number(&self) -> bool
        ensures some { IsTrue result → self.now.last < 2 ^ 64 - 1 }
        ensures none { result ≡ false → self.now.last ≡ 2 ^ 64 - 1 }
    {
        self.last < u64::MAX
    }

    /// The journal without its first records: from the edit after `edits` edits on, whose record begins at an offset.
    fn without_first(&self, offset: u64, edits: u64) -> Journal
        requires offset { offset ≤ self.now.used }
        requires edits { (self.now.edits ≤ edits) × (edits ≤ self.now.last) }
        ensures same { (ring_of result ≡ ring_of self.now) × (result.last ≡ self.now.last) }
        ensures start { (result.place ≡ (self.now.place + offset) % self.now.places) × (result.edits ≡ edits) }
        ensures used { result.used + offset ≡ self.now.used }
        ensures has { (records : List RecordData) (count : ℕ) (history : History) → HasRecords records self.now history → count ≤ length records
            → edits ≡ self.now.edits + count → offset ≡ places_of (take count records) → HasRecords (drop count records) result history }
    {
        Journal {
            first: self.first,
            places: self.places,
            place: self.place_of(offset),
            edits,
            used: self.used - offset,
            last: self.last,
        }
    }

    /// The journal with so many free places, without as many of its first records as have them. `rest` are the records that stay: the last ones.
    fn with_room<D: Sectors>(
        &self,
        disk: &mut D,
        need: u64,
        rest: &Journal,
    ) -> Result<Journal, JournalFault>
        requires back { GoesBack self.now rest.now }
        requires need { need ≤ rest.now.places - rest.now.used }
        requires next { rest.now.last ≢ 2 ^ 64 - 1 }
        requires ring { self.now.first + self.now.places ≤ D.sectors disk.old }
        ensures below { rest.now.last < 2 ^ 64 - 1 }
        ensures disk { OnlyReads D.sectors D.honest D.history disk.old disk.new }
        ensures failed { TellsFailure result (D.faults disk.old) (D.faults disk.new) }
        ensures fault { IfErr result (λ fault. fault ≡ Device) }
        ensures back { IfOk result (λ left. GoesBack left rest.now) }
        ensures room { IfOk result (λ left. need ≤ left.places - left.used) }
        ensures later { IfOk result (λ left. self.now.edits ≤ left.edits) }
        ensures has { (records : List RecordData) → D.honest disk.new → HasOlder records self.now rest.now (D.history disk.old)
            → IfOk result (λ left. HasOlder (drop (left.edits - self.now.edits) records) left rest.now (D.history disk.old)) }
        ensures full { (records : List RecordData) → D.honest disk.new → HasOlder records self.now rest.now (D.history disk.old)
            → IfOk result (λ left. (left.edits ≡ self.now.edits) ⊎ IsFull left (left.used + need)) }
    {
        let free = self.free();
        if need <= free {
            return Ok(*self);
        }
        let behind = self.used - rest.used;
        let short = need - free;
        let freed = short.max(self.places / FREED_PART).min(behind);
        let sector = read_place(self, disk, freed - 1)?;
        let number = number_in(&sector).max(self.edits).min(rest.edits);
        let offset = self.offset_of(disk, number + 1)?;
        if short <= offset && offset <= behind {
            Ok(self.without_first(offset, number))
        } else {
            Ok(self.without_first(behind, rest.edits))
        }
    }

    /// `append`, and the same for a journal with records before these: of them the first go, where the new one needs their places. After
    /// `Device` that journal has the records that it had, or but for some first ones of them.
    pub fn append_to_both<D: Sectors>(
        &mut self,
        kept: &mut Journal,
        disk: &mut D,
        version: u32,
        text: &[u8],
    ) -> Result<u64, JournalFault>
        requires text { IsRecordLength version (length text.now) }
        requires ring { self.old.first + self.old.places ≤ D.sectors disk.old }
        requires back { GoesBack kept.old self.old }
        ensures disk { MayWrite D.sectors D.honest disk.old disk.new }
        ensures faults { OnOk result (D.faults disk.new ≡ D.faults disk.old) }
        ensures fault { IfErr result (IsAppendFault self.old (parts_of (length text.now)) (D.faults disk.old) (D.faults disk.new)) }
        ensures refused { IfErr result (λ fault. (fault ≡ Device) ⊎ (disk.new ≡ disk.old)) }
        ensures number { IfOk result (λ number. number ≡ self.old.last + 1) }
        ensures used { OnOk result (self.new.used ≡ self.old.used + parts_of (length text.now)) }
        ensures last { OnOk result (self.new.last ≡ self.old.last + 1) }
        ensures same { (ring_of self.new ≡ ring_of self.old) × (start_of self.new.place self.new.edits ≡ start_of self.old.place self.old.edits) }
        ensures unchanged { OnErr result (self.new ≡ self.old) }
        ensures reads { D.honest disk.new
            → ReadsAsBefore (ring_of self.old) self.old.place self.old.used (seen (D.history disk.old)) (seen (D.history disk.new)) }
        ensures frame { D.honest disk.new
            → LeavesOnly (D.history disk.old) (D.history disk.new) (AsBefore (ring_of self.old) self.old.place self.old.used (D.history disk.old)) }
        ensures any_moment { (records : List RecordData) → D.honest disk.new → IsAt records self.old (D.history disk.old)
            → LeavesOnly (D.history disk.old) (D.history disk.new)
            (HoldsOneMore (ring_of self.old) (start_of self.old.place self.old.edits) records (record_of version text.now)) }
        ensures acknowledged { (records : List RecordData) → D.honest disk.new → IsAt records self.old (D.history disk.old)
            → OnOk result (IsAt (records ++ record_of version text.now ∷ []) self.new (D.history disk.new)) }
        ensures steps { D.honest disk.new → OnOk result (TakesSteps (parts_of (length text.now)) (D.history disk.old) (D.history disk.new)) }
        // The other journal goes on to go back from this one, and has the records that it had, but for some first ones, and the new one.
        ensures back { GoesBack kept.new self.new }
        ensures later { kept.old.edits ≤ kept.new.edits }
        ensures refused_kept { IfErr result (λ fault. (fault ≡ Device) ⊎ (kept.new ≡ kept.old)) }
        ensures older { (records : List RecordData) → D.honest disk.new → HasOlder records kept.old self.old (D.history disk.old)
            → OnOk result (HasOlder (drop (kept.new.edits - kept.old.edits) records ++ record_of version text.now ∷ []) kept.new self.new
            (D.history disk.new)) }
        ensures still_older { (records : List RecordData) → D.honest disk.new → HasOlder records kept.old self.old (D.history disk.old)
            → OnErr result (HasOlder (drop (kept.new.edits - kept.old.edits) records) kept.new self.new (D.history disk.new)) }
        // Some first ones go only where the ring is full without them.
        ensures full { (records : List RecordData) → D.honest disk.new → HasOlder records kept.old self.old (D.history disk.old)
            → OnOk result ((kept.new.edits ≡ kept.old.edits) ⊎ IsFull kept.new kept.new.used) }
        ensures still_full { (records : List RecordData) → D.honest disk.new → HasOlder records kept.old self.old (D.history disk.old)
            → OnErr result ((kept.new.edits ≡ kept.old.edits) ⊎ IsFull kept.new (kept.new.used + parts_of (length text.now))) }
    {
        let need = count_parts(text.len() as u32) as u64;
        if !self.has_number() {
            return Err(JournalFault::NumbersSpent);
        }
        let free = self.free();
        if need > free {
            return Err(JournalFault::Full { need, free });
        }
        let room = match kept.with_room(disk, need, self) {
            Ok(room) => room,
            Err(fault) => return Err(fault),
        };
        *kept = room;
        match self.append(disk, version, text) {
            Ok(number) => {
                *kept = room.with_record(text.len() as u32);
                Ok(number)
            }
            Err(fault) => Err(fault),
        }
    }
}
