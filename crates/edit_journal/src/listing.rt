//! The records in use, read again from the disk, from one of them on.
ghost use Rattle.std.specs.Prelude.{◌≡◌, ◌≢◌, ◌↔◌, ◌≤◌, ◌<◌, ◌+◌, ◌-◌, ◌^◌, ◌∷◌, ℕ, List, length, take, drop, Ok, Err, IfOk, IfErr, IsTrue};
ghost use Rattle.std.specs.Prelude.{MatchOption, MatchResult};
ghost use Rattle.sector_disk.specs.Asked.{OnlyReads, TellsFailure};
ghost use Rattle.sector_disk.specs.Disk.{seen};
ghost use Rattle.edit_journal.specs.Records.{RecordData, record_data, records_of, IsRecordLength, AreUpTo, parts_of};
ghost use Rattle.edit_journal.specs.Ring.{places_of, HoldsRecords};
ghost use Rattle.edit_journal.specs.Appends.{ring_of, start_of};
ghost use Rattle.edit_journal.specs.Recovers.{TellsRecoverFault};
ghost use Rattle.edit_journal.specs.Lists.{HasRecords, first_bytes};
ghost use Rattle.edit_journal.specs.declared.fault.JournalFault.TheVariants.{Damaged, Device, Memory};

use crate::fault::JournalFault;
use crate::head::number_in;
use crate::journal::Journal;
use crate::records::Record;
use crate::recovering::{read_place, read_record};
use sector_disk::Sectors;
use std::alloc::Global;

/// Whether the place that is `offset` places after the first record in use belongs to an edit before this number.
fn is_before<D: Sectors>(
    journal: &Journal,
    disk: &mut D,
    offset: u64,
    number: u64,
) -> Result<bool, JournalFault>
    requires offset { offset < journal.now.used }
    requires number { (journal.now.edits < number) × (number ≤ journal.now.last + 1) }
    requires ring { journal.now.first + journal.now.places ≤ D.sectors disk.old }
    ensures disk { OnlyReads D.sectors D.honest D.history disk.old disk.new }
    ensures failed { TellsFailure result (D.faults disk.old) (D.faults disk.new) }
    ensures fault { IfErr result (λ fault. fault ≡ Device) }
    ensures is { (records : List RecordData) → D.honest disk.new → HasRecords records journal.now (D.history disk.old)
        → IfOk result (λ before. IsTrue before ↔ offset < places_of (take (number - (journal.now.edits + 1)) records)) }
{
    let sector = read_place(journal, disk, offset)?;
    Ok(number_in(&sector) < number)
}

/// The record that was read. `Damaged`: there is none.
fn needed(found: Option<Record>) -> Result<Record, JournalFault>
    ensures { MatchOption found (result ≡ Err Damaged) (λ r. result ≡ Ok r) }
{
    match found {
        Some(record) => Ok(record),
        None => Err(JournalFault::Damaged),
    }
}

/// Reads the record after the others. `Damaged`: it isn't there.
fn read_next<D: Sectors>(
    alloc: Global,
    journal: &Journal,
    disk: &mut D,
    most: u32,
) -> Result<Record, JournalFault>
    requires ring { journal.now.first + journal.now.places ≤ D.sectors disk.old }
    ensures disk { OnlyReads D.sectors D.honest D.history disk.old disk.new }
    ensures failed { TellsRecoverFault result (D.faults disk.old) (D.faults disk.new) }
    ensures fits { IfOk result (λ r. IsRecordLength r.version (length r.text.items)
        × (journal.now.used + parts_of (length r.text.items) ≤ journal.now.places) × (journal.now.last + 1 < 2 ^ 64)) }
    ensures next { (records : List RecordData) (count : ℕ) → D.honest disk.new
        → HoldsRecords (ring_of journal.now) (start_of journal.now.place journal.now.edits) records (seen (D.history disk.old)) → AreUpTo most records
        → journal.now.used ≡ places_of (take count records) → journal.now.last ≡ journal.now.edits + count → count < length records
        → MatchResult result (λ r. drop count records ≡ record_data r ∷ drop (count + 1) records) (λ fault. fault ≢ Damaged) }
{
    match read_record(alloc, journal, disk, most) {
        Ok(found) => needed(found),
        Err(fault) => Err(fault),
    }
}

impl Journal {
    /// The journal up to an edit, whose record ends at an offset: without the records after it.
    fn up_to(&self, offset: u64, last: u64) -> Journal
        requires offset { offset ≤ self.now.used }
        requires last { (self.now.edits ≤ last) × (last ≤ self.now.last) }
        ensures same { (ring_of result ≡ ring_of self.now) × (start_of result.place result.edits ≡ start_of self.now.place self.now.edits) }
        ensures used { result.used ≡ offset }
        ensures last { result.last ≡ last }
    {
        Journal {
            first: self.first,
            places: self.places,
            place: self.place,
            edits: self.edits,
            used: offset,
            last,
        }
    }

    /// How many places after the first record in use that of an edit begins: the first place of this number or of a later one, found by
    /// halving the places in use. For the number of the next edit it is their count.
    pub(crate) fn offset_of<D: Sectors>(
        &self,
        disk: &mut D,
        number: u64,
    ) -> Result<u64, JournalFault>
        requires number { (self.now.edits < number) × (number ≤ self.now.last + 1) }
        requires ring { self.now.first + self.now.places ≤ D.sectors disk.old }
        ensures disk { OnlyReads D.sectors D.honest D.history disk.old disk.new }
        ensures failed { TellsFailure result (D.faults disk.old) (D.faults disk.new) }
        ensures fault { IfErr result (λ fault. fault ≡ Device) }
        ensures within { IfOk result (λ offset. offset ≤ self.now.used) }
        ensures is { (records : List RecordData) → D.honest disk.new → HasRecords records self.now (D.history disk.old)
            → IfOk result (λ offset. offset ≡ places_of (take (number - (self.now.edits + 1)) records)) }
    {
        let mut low = 0;
        let mut high = self.used;
        while low < high {
            let middle = low + (high - low) / 2;
            if is_before(self, disk, middle, number)? {
                low = middle + 1;
            } else {
                high = middle;
            }
        }
        Ok(low)
    }

    /// Reads the records of the edits from a number on, in order, from a disk that takes records of versions up to `most`. Records are
    /// read until their texts have `bytes` bytes or more, or until the last one in use: so there is one at least, if there is an edit of
    /// this number. Nothing is written. The number is that of a record in use, or of the next edit.
    ///
    /// # Errors
    ///
    /// `Device` and `Memory`; `Damaged`, if a record that is in use isn't whole: never on a disk that has kept to its history.
    pub fn records_from<D: Sectors>(
        &self,
        alloc: Global,
        disk: &mut D,
        number: u64,
        most: u32,
        bytes: usize,
    ) -> Result<Vec<Record>, JournalFault>
        requires number { (self.now.edits < number) × (number ≤ self.now.last + 1) }
        requires ring { self.now.first + self.now.places ≤ D.sectors disk.old }
        ensures disk { OnlyReads D.sectors D.honest D.history disk.old disk.new }
        ensures failed { TellsRecoverFault result (D.faults disk.old) (D.faults disk.new) }
        ensures counted { IfOk result (λ found. number + length found.items ≤ self.now.last + 1) }
        // They are the first of the records in use from that number on.
        ensures found { (records : List RecordData) → D.honest disk.new → HasRecords records self.now (D.history disk.old) → AreUpTo most records
            → MatchResult result (λ found. records_of found.items ≡ first_bytes bytes (drop (number - (self.now.edits + 1)) records))
            (λ fault. fault ≢ Damaged) }
    {
        let offset = self.offset_of(disk, number)?;
        let mut before = self.up_to(offset, number - 1);
        let mut room = bytes;
        let mut found = Vec::new(alloc);
        for last in number - 1..self.last {
            if room == 0 {
                return Ok(found);
            }
            let next = read_next(alloc, &before, disk, most)?;
            before = before.with_record(next.text.len() as u32);
            room = room.saturating_sub(next.text.len());
            match found.push(next) {
                Ok(()) => {}
                Err(_) => return Err(JournalFault::Memory),
            }
        }
        Ok(found)
    }
}
