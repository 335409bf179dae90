//! The journal that a ring of sectors has.
ghost use Rattle.std.specs.Prelude.{◌≡◌, ◌≤◌, ◌<◌, ◌+◌, ◌-◌, ◌*◌, ◌^◌, ◌++◌, min, List, length, take, drop, IfOk, IfErr, OnOk, IfSome, MatchOption, []};
ghost use Rattle.sector_disk.specs.Asked.{OnlyReads, TellsFailure};
ghost use Rattle.sector_disk.specs.Disk.{seen};
ghost use Rattle.edit_journal.specs.Records.{RecordData, record_of, record_data, records_of, IsRecordLength, AreUpTo, most_bytes, parts_of, HasFront};
ghost use Rattle.edit_journal.specs.Ring.{sector_at, places_of};
ghost use Rattle.edit_journal.specs.Appends.{ring_of, start_of};
ghost use Rattle.edit_journal.specs.Recovers.{EndsAt, IsJournal, PartsStand, FrontsStand, IsDamaged, TellsRecoverFault};
ghost use Rattle.edit_journal.specs.Releases.{IsCounted};
ghost use Rattle.edit_journal.specs.declared.sizes.TheConstants.{FRONT_BYTES, LAST_RECORD_VERSION};
ghost use Rattle.edit_journal.specs.declared.fault.JournalFault.TheVariants.{Damaged, Device, Memory};

use crate::encoding::count_parts;
use crate::fault::JournalFault;
use crate::head::{Head, head_in, head_version};
use crate::journal::{Journal, JournalPosition};
use crate::records::Record;
use crate::sizes::{FRONT_BYTES, PART_BYTES};
use sector_disk::{DiskFault, SECTOR_BYTES, Sectors};
use std::alloc::{AllocError, Global};

/// The bytes of the text in a part's sector, where the whole text has this length.
fn piece_in(sector: &[u8; SECTOR_BYTES], length: u32, part: u16) -> &[u8]
    requires { PART_BYTES * part < length }
    ensures { result.now ≡ take (min PART_BYTES (length - PART_BYTES * part)) (drop FRONT_BYTES sector.now) }
{
    let rest = length as usize - PART_BYTES * part as usize;
    &sector[FRONT_BYTES..FRONT_BYTES + PART_BYTES.min(rest)]
}

/// Adds bytes to a text.
fn add_bytes(text: &mut Vec<u8>, bytes: &[u8]) -> Result<(), JournalFault>
    ensures items { OnOk result (text.new.items ≡ text.old.items ++ bytes.now) }
    ensures fault { IfErr result (λ fault. fault ≡ Memory) }
{
    match text.extend_from_slice(bytes) {
        Ok(()) => Ok(()),
        Err(AllocError) => Err(JournalFault::Memory),
    }
}

/// Reads the sector of the place that is `offset` places after the first record in use.
pub(crate) fn read_place<D: Sectors>(
    journal: &Journal,
    disk: &mut D,
    offset: u64,
) -> Result<[u8; SECTOR_BYTES], JournalFault>
    requires offset { offset < journal.now.places }
    requires ring { journal.now.first + journal.now.places ≤ D.sectors disk.old }
    ensures disk { OnlyReads D.sectors D.honest D.history disk.old disk.new }
    ensures failed { TellsFailure result (D.faults disk.old) (D.faults disk.new) }
    ensures fault { IfErr result (λ fault. fault ≡ Device) }
    ensures gives { D.honest disk.new
        → IfOk result (λ sector. sector ≡ seen (D.history disk.old) (sector_at (ring_of journal.now) (journal.now.place + offset))) }
{
    let mut sector = [0; SECTOR_BYTES];
    let at = journal.sector_of(offset);
    match disk.read(at, &mut sector) {
        Ok(()) => Ok(sector),
        Err(DiskFault) => Err(JournalFault::Device),
    }
}

/// Reads the text of the next record, whose head this sector is.
fn read_text<D: Sectors>(
    alloc: Global,
    journal: &Journal,
    disk: &mut D,
    head: Head,
    first: &[u8; SECTOR_BYTES],
) -> Result<Vec<u8>, JournalFault>
    requires ring { journal.now.first + journal.now.places ≤ D.sectors disk.old }
    requires room { journal.now.used + parts_of head.length ≤ journal.now.places }
    requires front { HasFront head.version head.number head.length 0 first.now }
    requires first { D.honest disk.old → first.now ≡ seen (D.history disk.old) (sector_at (ring_of journal.now) (journal.now.place + journal.now.used)) }
    ensures disk { OnlyReads D.sectors D.honest D.history disk.old disk.new }
    ensures failed { TellsRecoverFault result (D.faults disk.old) (D.faults disk.new) }
    ensures whole { IfOk result (λ text. length text.items ≡ head.length) }
    ensures stands { D.honest disk.new → IfOk result (λ text. PartsStand (ring_of journal.now) journal.now.place journal.now.used
        head.number (record_of head.version text.items) (seen (D.history disk.old))) }
    ensures damaged { D.honest disk.new → IfErr result (λ fault. fault ≡ Damaged
        → FrontsStand head.version (ring_of journal.now) journal.now.place journal.now.used head.number head.length (seen (D.history disk.old)) → ⊥) }
{
    let mut text = match Vec::with_capacity(alloc, head.length as usize) {
        Ok(text) => text,
        Err(AllocError) => return Err(JournalFault::Memory),
    };
    add_bytes(&mut text, piece_in(first, head.length, 0))?;
    for part in 1..head.parts {
        let sector = read_place(journal, disk, journal.used + part as u64)?;
        if !head.has_part(&sector, part) {
            return Err(JournalFault::Damaged);
        }
        add_bytes(&mut text, piece_in(&sector, head.length, part))?;
    }
    Ok(text)
}

/// Reads the record after the others, of a version from 1 to `most`, or `None` if the journal ends there.
pub(crate) fn read_record<D: Sectors>(
    alloc: Global,
    journal: &Journal,
    disk: &mut D,
    most: u32,
) -> Result<Option<Record>, JournalFault>
    requires ring { journal.now.first + journal.now.places ≤ D.sectors disk.old }
    ensures disk { OnlyReads D.sectors D.honest D.history disk.old disk.new }
    ensures failed { TellsRecoverFault result (D.faults disk.old) (D.faults disk.new) }
    ensures fits { IfOk result (λ next. IfSome next (λ r. IsRecordLength r.version (length r.text.items)
        × (r.version ≤ most) × (journal.now.used + parts_of (length r.text.items) ≤ journal.now.places) × (journal.now.last + 1 < 2 ^ 64))) }
    ensures next { D.honest disk.new → IfOk result (λ next. MatchOption next
        (EndsAt most (ring_of journal.now) journal.now.place journal.now.used (journal.now.last + 1) (seen (D.history disk.old)))
        (λ r. PartsStand (ring_of journal.now) journal.now.place journal.now.used (journal.now.last + 1) (record_data r)
        (seen (D.history disk.old)))) }
    ensures damaged { D.honest disk.new → IfErr result (λ fault. fault ≡ Damaged
        → IsDamaged most (ring_of journal.now) journal.now.place journal.now.used (journal.now.last + 1) (seen (D.history disk.old))) }
    ensures memory { D.honest disk.new → IfErr result (λ fault. fault ≡ Memory
        → EndsAt most (ring_of journal.now) journal.now.place journal.now.used (journal.now.last + 1) (seen (D.history disk.old)) → ⊥) }
{
    if journal.used == journal.places {
        return Ok(None);
    }
    if journal.last == u64::MAX {
        return Ok(None);
    }
    let number = journal.last + 1;
    let first = read_place(journal, disk, journal.used)?;
    let version = match head_version(&first, number, most) {
        Some(version) => version,
        None => return Ok(None),
    };
    match head_in(&first, version, number) {
        Some(head) if head.parts as u64 <= journal.free() => {
            match read_text(alloc, journal, disk, head, &first) {
                Ok(text) => Ok(Some(Record { version, text })),
                Err(fault) => Err(fault),
            }
        }
        _ => Err(JournalFault::Damaged),
    }
}

impl Journal {
    /// The journal with no records, after `edits` edits, where the next record begins in place `place`.
    fn empty(first: u64, places: u64, place: u64, edits: u64) -> Journal
        requires small { first + places < 2 ^ 64 }
        requires place { place < places }
        ensures ring { ring_of result ≡ record { first = first; places = places } }
        ensures start { start_of result.place result.edits ≡ start_of place edits }
        ensures none { (result.used ≡ 0) × (result.last ≡ edits) }
        ensures number { result.last < 2 ^ 64 }
    {
        Journal {
            first,
            places,
            place,
            edits,
            used: 0,
            last: edits,
        }
    }

    /// The journal with one more record, of a text of this length.
    pub(crate) fn with_record(self, length: u32) -> Journal
        requires length { length ≤ most_bytes LAST_RECORD_VERSION }
        requires room { self.used + parts_of length ≤ self.places }
        requires next { self.last < 2 ^ 64 - 1 }
        ensures same { (ring_of result ≡ ring_of self) × (start_of result.place result.edits ≡ start_of self.place self.edits) }
        ensures used { result.used ≡ self.used + parts_of length }
        ensures last { result.last ≡ self.last + 1 }
    {
        Journal {
            first: self.first,
            places: self.places,
            place: self.place,
            edits: self.edits,
            used: self.used + count_parts(length) as u64,
            last: self.last + 1,
        }
    }

    /// Reads the records from a start on, in a ring of `places` places whose place 0 is sector `first`: the journal, and its records
    /// in order. A record is expected in a version from 1 to `version`, the disk's: at a head of a later one the journal ends.
    /// Nothing is written. `Damaged`: a record that was expected isn't whole. The other errors are `Device` and `Memory`, which a journal
    /// without records never gives.
    pub fn recover<D: Sectors>(
        alloc: Global,
        disk: &mut D,
        first: u64,
        places: u64,
        start: JournalPosition,
        version: u32,
    ) -> Result<(Journal, Vec<Record>), JournalFault>
        requires ring { first + places ≤ D.sectors disk.old }
        requires small { first + places < 2 ^ 64 }
        requires start { start.place < places }
        ensures disk { OnlyReads D.sectors D.honest D.history disk.old disk.new }
        ensures failed { TellsRecoverFault result (D.faults disk.old) (D.faults disk.new) }
        ensures same { IfOk result (λ found. (ring_of found.0 ≡ record { first = first; places = places })
            × (start_of found.0.place found.0.edits ≡ start_of start.place start.edits)) }
        ensures used { IfOk result (λ found. found.0.used ≡ places_of (records_of found.1.items)) }
        ensures last { IfOk result (λ found. found.0.last ≡ start.edits + length found.1.items) }
        ensures counted { IfOk result (λ found. IsCounted found.0) }
        ensures versions { IfOk result (λ found. AreUpTo version (records_of found.1.items)) }

        // The records are those that the disk has, and a disk with a journal is never damaged.
        ensures found { D.honest disk.new → IfOk result (λ found. IsJournal version (record { first = first; places = places })
            (start_of start.place start.edits) (records_of found.1.items) (seen (D.history disk.old))) }
        ensures damaged { (records : List RecordData) → D.honest disk.new → IfErr result (λ fault. fault ≡ Damaged
            → IsJournal version (record { first = first; places = places }) (start_of start.place start.edits) records (seen (D.history disk.old)) → ⊥) }
        ensures memory { D.honest disk.new → IfErr result (λ fault. fault ≡ Memory
            → IsJournal version (record { first = first; places = places }) (start_of start.place start.edits) [] (seen (D.history disk.old)) → ⊥) }
    {
        let mut journal = Journal::empty(first, places, start.place, start.edits);
        let mut records = Vec::new(alloc);
        while let Some(next) = read_record(alloc, &journal, disk, version)? {
            journal = journal.with_record(next.text.len() as u32);
            match records.push(next) {
                Ok(()) => {}
                Err(_) => return Err(JournalFault::Memory),
            }
        }
        Ok((journal, records))
    }
}
