//! Commands on a journal in a ring of sectors.
ghost use Rattle.std.specs.Prelude.{◌≡◌, ◌↔◌, ◌+◌, ◌%◌, length, IsTrue};
ghost use Rattle.edit_journal.specs.Records.{IsRecordLength};
ghost use Rattle.edit_journal.specs.Releases.{IsBehind, MayTake};

use super::trial::Trial;
use edit_journal::{
    FIRST_RECORD_VERSION, Journal, JournalPosition, LAST_RECORD_VERSION, MAX_RECORD_BYTES, Record,
    head_in, head_version,
};
use script_bytes::{Answer, short, spelled_briefly};
use script_disks::{Operands, sector_at};
use sector_disk::{SECTOR_BYTES, Sectors};
use std::alloc::Global;

/// Tells of a journal and its records, of each its version and its text.
fn tell_journal(alloc: Global, journal: Journal, records: &[Record], answer: &mut Answer) {
    write!(answer, "used {} last {}:", journal.used, journal.last);
    for Record { version, text } in records {
        write!(answer, " {version}=");
        answer.add(spelled_briefly(alloc, text));
    }
}

/// Recovers the journal of a ring, if the disk has that.
fn ring(alloc: Global, trial: &mut Trial, operands: &Operands, version: u32, answer: &mut Answer) {
    let (first, places, place) = (operands.number(0), operands.number(1), operands.number(2));
    let sectors = trial.disk.count();
    if places > sectors || first > sectors - places || place >= places {
        return answer.say("no ring");
    }
    let edits = operands.number(3);
    let start = JournalPosition { place, edits };
    let before = trial.disk.calls();
    let outcome = Journal::recover(alloc, &mut trial.disk, first, places, start, version);
    let calls = trial.disk.calls().saturating_sub(before);
    match outcome {
        Ok((journal, records)) => {
            trial.journal = journal;
            tell_journal(alloc, journal, &records, answer);
            write!(answer, " in {calls}");
        }
        Err(fault) => answer.show_calls(&fault, calls),
    }
}

/// Whether a record of this version may have a text of this length.
fn is_record(version: u32, text: &[u8]) -> bool
    ensures { IsTrue result → IsRecordLength version (length text.now) }
{
    if version < FIRST_RECORD_VERSION || version > LAST_RECORD_VERSION {
        return false;
    }
    let most = MAX_RECORD_BYTES + (version - FIRST_RECORD_VERSION);
    !text.is_empty() && text.len() <= most as usize
}

fn append(trial: &mut Trial, version: u32, text: &[u8], answer: &mut Answer) {
    let journal = &mut trial.journal;
    let sectors = trial.disk.count();
    if journal.places > sectors || journal.first > sectors - journal.places {
        return answer.say("no ring");
    }
    if !is_record(version, text) {
        return answer.say("no text");
    }
    let before = trial.disk.calls();
    let outcome = journal.append(&mut trial.disk, version, text);
    answer.show_calls(&outcome, trial.disk.calls().saturating_sub(before));
}

fn next(journal: Journal, answer: &mut Answer) {
    let free = journal.free();
    let start = journal.next();
    write!(answer, "free {free} {start:?}");
}

/// Whether `records` records can take `places` places.
fn may_take(records: u64, places: u64) -> bool
    ensures { IsTrue result ↔ MayTake records places }
{
    records <= places && u128::from(places) <= 67 * u128::from(records)
}

/// Whether a start is `behind` places after the first record in use.
fn is_placed(journal: &Journal, start: JournalPosition, behind: u64) -> bool
    ensures { IsTrue result → start.place ≡ (journal.now.place + behind) % journal.now.places }
{
    let place = (u128::from(journal.place) + u128::from(behind)) % u128::from(journal.places);
    place == u128::from(start.place)
}

/// Whether a start is between two records in use or at one of their ends, `behind` places after the first.
fn is_behind(journal: &Journal, start: JournalPosition, behind: u64) -> bool
    ensures { IsTrue result → IsBehind journal.now start behind }
{
    if behind > journal.used || start.edits < journal.edits || start.edits > journal.last {
        return false;
    }
    is_placed(journal, start, behind)
        && may_take(start.edits - journal.edits, behind)
        && may_take(journal.last - start.edits, journal.used - behind)
}

/// Releases the places before the mark, if there are `behind` of them.
fn release(trial: &mut Trial, behind: u64, answer: &mut Answer) {
    if !is_behind(&trial.journal, trial.mark, behind) {
        return answer.say("no such places");
    }
    trial.journal.release(trial.mark);
    next(trial.journal, answer);
}

fn head(trial: &mut Trial, at: u64, number: u64, answer: &mut Answer) {
    let sector = sector_at(&mut trial.disk, at);
    let version = head_version(&sector, number, LAST_RECORD_VERSION);
    let first = head_in(&sector, FIRST_RECORD_VERSION, number);
    let last = head_in(&sector, LAST_RECORD_VERSION, number);
    write!(answer, "{version:?} {first:?} {last:?}");
}

fn head_up_to(trial: &mut Trial, operands: &Operands, answer: &mut Answer) {
    let sector = sector_at(&mut trial.disk, operands.number(0));
    let most = short(operands.number(2));
    answer.show(&head_version(&sector, operands.number(1), most));
}

/// Whether a sector is this part of the record whose head another one is, if that is one.
fn has_part(
    first: &[u8; SECTOR_BYTES],
    number: u64,
    sector: &[u8; SECTOR_BYTES],
    part: u16,
) -> Option<bool> {
    let version = head_version(first, number, LAST_RECORD_VERSION)?;
    let head = head_in(first, version, number)?;
    Some(head.has_part(sector, part))
}

fn part(trial: &mut Trial, operands: &Operands, answer: &mut Answer) {
    let first = sector_at(&mut trial.disk, operands.number(0));
    let sector = sector_at(&mut trial.disk, operands.number(2));
    let part = u16::try_from(operands.number(3)).unwrap_or(u16::MAX);
    answer.show(&has_part(&first, operands.number(1), &sector, part));
}

/// What is asked of a journal. Where a version may be named, another command names it.
#[derive(Clone, Copy)]
pub(crate) enum OfRing {
    Ring,
    RingOf,
    Append,
    AppendOf,
    Next,
    Mark,
    Release,
    Head,
    HeadUpTo,
    HasPart,
}

/// Does what a command on a journal asks for.
pub(crate) fn run(
    alloc: Global,
    trial: &mut Trial,
    asks: OfRing,
    operands: &Operands,
    answer: &mut Answer,
) {
    let number = operands.number(0);
    let bytes = operands.bytes.as_slice();
    match asks {
        OfRing::Ring => ring(alloc, trial, operands, LAST_RECORD_VERSION, answer),
        OfRing::RingOf => ring(alloc, trial, operands, short(operands.number(4)), answer),
        OfRing::Append => append(trial, FIRST_RECORD_VERSION, bytes, answer),
        OfRing::AppendOf => append(trial, short(number), bytes, answer),
        OfRing::Next => next(trial.journal, answer),
        OfRing::Mark => {
            trial.mark = trial.journal.next();
            answer.show(&trial.mark);
        }
        OfRing::Release => release(trial, number, answer),
        OfRing::Head => head(trial, number, operands.number(1), answer),
        OfRing::HeadUpTo => head_up_to(trial, operands, answer),
        OfRing::HasPart => part(trial, operands, answer),
    }
}
