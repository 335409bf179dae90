//! The edits since the last publication, in JSON.
ghost use Rattle.std.specs.Prelude.{◌≡◌, ◌⊎◌, ◌↔◌, ◌≤◌, ◌<◌, ◌+◌, ◌^◌, ◌++◌, [], ℕ, List, map, length, IfOk, IfErr, OnOk, vec_len, vec_capacity};
ghost use Rattle.sector_disk.specs.Disk.{HasFailed};
ghost use Rattle.serde_json.specs.View.{view};
ghost use Rattle.edit_journal.specs.Records.{record_data, records_of};
ghost use Rattle.edit_journal.specs.Recovers.{TellsRecoverFault};
ghost use Rattle.edit_json.specs.Batches.{asked_json, asked_of};
ghost use Rattle.edit_text.specs.Recorded.{RecordedEdit};
ghost use Rattle.feature_store.specs.Prepared.{prepared_data};
ghost use Rattle.http_serve.specs.Reply.{IsWhole};
ghost use Rattle.tile_service.specs.Listing.{listed_records};
ghost use Rattle.tile_service.specs.Machine.{recorded_in};
ghost use Rattle.tile_service.specs.Replayed.{IsRecordFor, AreRecordsFor};
ghost use Rattle.tile_service.specs.Service.{status_of};
ghost use Rattle.map_replies.specs.Feed.{listed_edit, listed_edits, changes_of, digest_at, digest_member, feed_start, feed_end, feed_text, feed_body, IsTextFault, IsListFault};
ghost use Rattle.map_replies.specs.Lists.{comma_if};
ghost use Rattle.map_replies.specs.Meanings.{ListedAs, MeansList, Answers, DiskFailed};
ghost use Rattle.map_replies.specs.Sending.{IsAnswered};
ghost use Rattle.map_replies.specs.Tickets.{KeepsTickets};
ghost use Rattle.map_replies.specs.declared.fault.RequestFault.TheVariants.{Damaged, Memory};
ghost use Rattle.map_replies.specs.declared.feed.TheConstants.{MAX_MEMBER};

use crate::calls::Calls;
use crate::digests::{DIGEST_DIGITS, push_digest};
use crate::fault::RequestFault;
use crate::lists::add_listed;
use crate::replies;
use edit_journal::{JournalFault, Record};
use edit_json::{delete_to_json, numbered_to_json, put_to_json};
use edit_text::TextFault;
use feature_store::{Prepared, read_record};
use http_serve::Reply;
use http_values::{MAX_DIGITS, push_number, push_text};
use sector_disk::Sectors;
use serde_json::Value;
use std::alloc::{AllocError, Global};

/// Edits are told until their texts, as the journal has them, have this many bytes together.
const FEED_BYTES: usize = 16_384;

/// Capacity for a digest, and the texts around it.
const MAX_MEMBER: usize = DIGEST_DIGITS + 12;

/// The JSON value of a change.
fn change_value(alloc: Global, change: &Prepared) -> Result<Value, AllocError>
    ensures { IfOk result (λ v. view v ≡ asked_json (asked_of (prepared_data change.now))) }
{
    match change {
        Prepared::Put(stored) => put_to_json(alloc, stored.id(), stored.view()),
        Prepared::Delete { id } => delete_to_json(alloc, *id),
    }
}

/// The JSON values of changes.
fn change_values(alloc: Global, changes: &[Prepared]) -> Result<Vec<Value>, AllocError>
    ensures { IfOk result (λ all. map view all.items ≡ map asked_json (map asked_of (map prepared_data changes.now))) }
{
    let mut all = Vec::with_capacity(alloc, changes.len())?;
    for change in changes {
        let value = change_value(alloc, change)?;
        all.push_reserved(value);
    }
    Ok(all)
}

/// The JSON text of an edit with its number.
#[tactic(auto, unfolding(crate::specs::Feed::listed_edit))]
fn changes_text(alloc: Global, number: u64, changes: &[Prepared]) -> Result<Vec<u8>, AllocError>
    ensures { IfOk result (λ text. text.items ≡ listed_edit number (map prepared_data changes.now)) }
{
    let changes = change_values(alloc, changes)?;
    let value = numbered_to_json(alloc, number, changes)?;
    Ok(value.to_vec(alloc)?)
}

/// Why a record isn't read as an edit: `Damaged` if it is the record of none.
fn fault_of(fault: TextFault) -> RequestFault
    ensures either { (result ≡ Memory) ⊎ (result ≡ Damaged) }
    ensures memory { (result ≡ Memory) ↔ (fault ≡ TextFault.Memory) }
{
    match fault {
        TextFault::Memory => RequestFault::Memory,
        TextFault::Cut | TextFault::Bad => RequestFault::Damaged,
    }
}

/// The changes of a record's edit. `Damaged`: it is the record of no edit.
fn changes_in(alloc: Global, recorded: &Record) -> Result<Vec<Prepared>, RequestFault>
    ensures edit { IfOk result (λ v. IsRecordFor (record_data recorded.now) (recorded_in recorded.now.version (map prepared_data v.items))) }
    ensures fault { IfErr result (IsTextFault (record_data recorded.now)) }
{
    match read_record(alloc, recorded.version, &recorded.text) {
        Ok(changes) => Ok(changes),
        Err(fault) => Err(fault_of(fault)),
    }
}

/// The JSON text of the edit that a record is of, with its number.
fn record_text(alloc: Global, number: u64, recorded: &Record) -> Result<Vec<u8>, RequestFault>
    ensures found { IfOk result (λ text. (e : RecordedEdit) × IsRecordFor (record_data recorded.now) e
        × (text.items ≡ listed_edit number e.changes)) }
    ensures fault { IfErr result (IsTextFault (record_data recorded.now)) }
{
    let changes = match changes_in(alloc, recorded) {
        Ok(changes) => changes,
        Err(fault) => return Err(fault),
    };
    match changes_text(alloc, number, &changes) {
        Ok(text) => Ok(text),
        Err(AllocError) => Err(RequestFault::Memory),
    }
}

/// Adds bytes to a text.
fn add_bytes(text: &mut Vec<u8>, bytes: &[u8]) -> Result<(), RequestFault>
    ensures items { OnOk result (text.new.items ≡ text.old.items ++ bytes.now) }
    ensures fault { IfErr result (λ fault. fault ≡ Memory) }
{
    match text.extend_from_slice(bytes) {
        Ok(()) => Ok(()),
        Err(AllocError) => Err(RequestFault::Memory),
    }
}

/// Adds the JSON text of the edit that a record is of, with its number.
fn add_edit(
    alloc: Global,
    text: &mut Vec<u8>,
    more: bool,
    number: u64,
    recorded: &Record,
) -> Result<(), RequestFault>
    ensures added { OnOk result ((e : RecordedEdit) × IsRecordFor (record_data recorded.now) e
        × (text.new.items ≡ text.old.items ++ (comma_if more ++ listed_edit number e.changes))) }
    ensures fault { IfErr result (IsTextFault (record_data recorded.now)) }
{
    let edit = match record_text(alloc, number, recorded) {
        Ok(edit) => edit,
        Err(fault) => return Err(fault),
    };
    match add_listed(text, more, &edit) {
        Ok(()) => Ok(()),
        Err(AllocError) => Err(RequestFault::Memory),
    }
}

/// Adds the JSON texts of edits with consecutive numbers, with commas between them.
fn add_edits(
    alloc: Global,
    text: &mut Vec<u8>,
    first: u64,
    records: &[Record],
) -> Result<(), RequestFault>
    requires numbers { first + length records.now ≤ 2 ^ 64 }
    ensures added { OnOk result ((edits : List RecordedEdit) × AreRecordsFor (records_of records.now) edits
        × (text.new.items ≡ text.old.items ++ listed_edits first (changes_of edits))) }
    ensures fault { IfErr result (IsListFault (records_of records.now)) }
{
    for (index, recorded) in records.iter().enumerate() {
        match add_edit(alloc, text, 0 < index, first + index as u64, recorded) {
            Ok(()) => {}
            Err(fault) => return Err(fault),
        }
    }
    Ok(())
}

/// Adds a digest, if it is to be told.
fn push_member(out: &mut Vec<u8>, digest: Option<u64>)
    requires room { vec_len out.old + MAX_MEMBER ≤ vec_capacity out.old }
    ensures items { out.new.items ≡ out.old.items ++ digest_member digest }
    ensures len { vec_len out.new ≤ vec_len out.old + MAX_MEMBER }
    ensures capacity { vec_capacity out.old ≤ vec_capacity out.new }
{
    if let Some(digest) = digest {
        push_text(out, b"\"digest\":\"");
        push_digest(out, digest);
        push_text(out, b"\",");
    }
}

/// Begins the text, with a digest if it is to be told.
#[tactic(auto, unfolding(crate::specs::Feed::feed_start))]
fn feed_start(alloc: Global, digest: Option<u64>) -> Result<Vec<u8>, RequestFault>
    ensures text { IfOk result (λ text. text.items ≡ feed_start digest) }
    ensures fault { IfErr result (λ fault. fault ≡ Memory) }
{
    let Ok(mut text) = Vec::with_capacity(alloc, MAX_MEMBER + 10) else {
        return Err(RequestFault::Memory);
    };
    push_text(&mut text, b"{");
    push_member(&mut text, digest);
    push_text(&mut text, b"\"edits\":[");
    Ok(text)
}

/// Adds the number of the last edit, and ends the text.
#[tactic(auto, unfolding(crate::specs::Feed::feed_end))]
fn add_last(alloc: Global, text: &mut Vec<u8>, last: u64) -> Result<(), RequestFault>
    ensures items { OnOk result (text.new.items ≡ text.old.items ++ feed_end last) }
    ensures fault { IfErr result (λ fault. fault ≡ Memory) }
{
    let Ok(mut end) = Vec::with_capacity(alloc, MAX_DIGITS + 11) else {
        return Err(RequestFault::Memory);
    };
    push_text(&mut end, b"],\"last\":");
    push_number(&mut end, last);
    push_text(&mut end, b"}");
    add_bytes(text, &end)
}

/// The text of a digest, if it is to be told, of the edits of records with consecutive numbers, and of the number of the last edit.
#[tactic(auto, unfolding(crate::specs::Feed::feed_text))]
fn feed_text(
    alloc: Global,
    digest: Option<u64>,
    first: u64,
    records: &[Record],
    last: u64,
) -> Result<Vec<u8>, RequestFault>
    requires numbers { first + length records.now ≤ 2 ^ 64 }
    ensures text { IfOk result (λ text. (edits : List RecordedEdit) × AreRecordsFor (records_of records.now) edits
        × (text.items ≡ feed_text digest first (changes_of edits) last)) }
    ensures fault { IfErr result (IsListFault (records_of records.now)) }
{
    let mut text = match feed_start(alloc, digest) {
        Ok(text) => text,
        Err(fault) => return Err(fault),
    };
    match add_edits(alloc, &mut text, first, records) {
        Ok(()) => {}
        Err(fault) => return Err(fault),
    }
    match add_last(alloc, &mut text, last) {
        Ok(()) => Ok(text),
        Err(fault) => Err(fault),
    }
}

/// The digest of the map after the last edit, if a list of so many edits ends with that one.
fn digest_at(first: u64, count: u64, last: u64, digest: u64) -> Option<u64>
    requires first { 0 < first }
    requires within { first + count ≤ last + 1 }
    ensures { result ≡ digest_at (first + count) last digest }
{
    if first - 1 + count == last {
        Some(digest)
    } else {
        None
    }
}

/// The text of the edits of records with consecutive numbers, and of the number of the last edit, where the map after that has this digest.
fn feed_body(
    alloc: Global,
    first: u64,
    records: &[Record],
    last: u64,
    digest: u64,
) -> Result<Vec<u8>, RequestFault>
    requires first { 0 < first }
    requires within { first + length records.now ≤ last + 1 }
    ensures body { IfOk result (λ text. (edits : List RecordedEdit) × AreRecordsFor (records_of records.now) edits
        × (text.items ≡ feed_body first (changes_of edits) last digest)) }
    ensures fault { IfErr result (IsListFault (records_of records.now)) }
{
    let told = digest_at(first, records.len() as u64, last, digest);
    feed_text(alloc, told, first, records, last)
}

/// The reply with what was read of the edits from a number on.
fn listed(
    alloc: Global,
    number: u64,
    last: u64,
    digest: u64,
    found: Result<Vec<Record>, JournalFault>,
) -> Result<Reply, RequestFault>
    requires number { 0 < number }
    requires within { IfOk found (λ records. number + length records.items ≤ last + 1) }
    ensures answered { (before after : ℕ) → TellsRecoverFault found before after
        → IsAnswered (ListedAs (HasFailed before after) last digest number (listed_records found)) result }
    ensures writable { IfOk result IsWhole }
{
    let records = match found {
        Ok(records) => records,
        Err(JournalFault::Memory) => return Err(RequestFault::Memory),
        Err(JournalFault::Device) => return Err(RequestFault::Device),
        Err(JournalFault::Damaged) => return Err(RequestFault::Damaged),
        // A list needs no number and no place.
        Err(JournalFault::NumbersSpent) => return Err(RequestFault::Damaged),
        Err(JournalFault::Full { .. }) => return Err(RequestFault::Damaged),
    };
    match feed_body(alloc, number, &records, last, digest) {
        Ok(text) => Ok(replies::json(text)),
        Err(fault) => Err(fault),
    }
}

impl<D: Sectors + Drop> Calls<D> {
    /// The edits from a number on. Those that newer ones have overwritten in the journal's ring are gone, and those that were published
    /// before this process opened the disk.
    pub(crate) fn edits_from(&mut self, number: u64) -> Result<Reply, RequestFault>
        ensures answered { IsAnswered (Answers D.sectors D.honest D.history
            (MeansList (DiskFailed D.faults self.old.service self.new.service) (status_of self.old.service) number)
            self.old.service self.new.service) result }
        ensures writable { IfOk result IsWhole }
        ensures held { KeepsTickets D.honest D.history self.old self.new }
        ensures oldest { self.new.oldest ≡ self.old.oldest }
    {
        if number <= self.service.forgotten() {
            return Err(RequestFault::Gone);
        }
        let last = self.service.last();
        if number - 1 > last {
            return Err(RequestFault::NotFound);
        }
        let digest = self.service.digest();
        let found = self.service.edits_from(number, FEED_BYTES);
        listed(self.alloc, number, last, digest, found)
    }
}
