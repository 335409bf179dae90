//! A content of an archive that is read by parts.
ghost use Rattle.std.specs.Prelude.{◌≡◌, ◌≤◌, ◌+◌, ℕ, List, Err, length, IsTrue, IfOk, IfErr, IfSome, OnOk};
ghost use Rattle.byte_source.specs.Source.{Keeps};
ghost use Rattle.pm_archive.specs.Answers.{IsOutside};
ghost use Rattle.pm_archive.specs.Spans.{end_of_span, span_bytes};
ghost use Rattle.pm_archive.specs.declared.fault.ArchiveFault.TheVariants.{Memory};
ghost use Rattle.published_tiles.specs.Reading.{ReadingView, AreFrom, IsReadingOf, IsReadingUpTo, StaysOrNone};

use crate::place::ArchivePlace;
use byte_source::{Bytes, ReadFault};
use pm_archive::{ArchiveFault, ContentSpan};
use std::alloc::Global;
use std::marker::Model;

/// How many bytes of a content are read by one step. A content of at most as many is read at once.
const PART_BYTES: u64 = 1_048_576;

/// The first bytes of a content, and where its archive is stored.
#[derive(Drop)]
pub(crate) struct TileReading {
    archive: ArchivePlace,
    offset: u64,
    bytes: Vec<u8>,
}

impl Model for TileReading {
    ghost Value = { ReadingView };

    ghost view = { λ r. record { archive = r.archive; offset = r.offset; bytes = r.bytes.items } };
}

impl TileReading {
    /// Whether it has the first bytes of this content of the archive at this place.
    fn is_of(&self, archive: ArchivePlace, span: ContentSpan) -> bool
        ensures archive { IsTrue result → self.now.archive ≡ archive }
        ensures offset { IsTrue result → self.now.offset ≡ span.offset }
        ensures fits { IsTrue result → length self.now.bytes ≤ span.length }
    {
        if self.archive != archive {
            return false;
        }
        if self.offset != span.offset {
            return false;
        }
        self.bytes.len() as u64 <= span.length
    }

    /// The bytes.
    fn into_bytes(self) -> Vec<u8>
        ensures { result.items ≡ self.bytes }
    {
        let TileReading {
            archive: _,
            offset: _,
            bytes,
        } = self;
        bytes
    }
}

/// Takes the first bytes of a content that were read. Those of another one of this archive stay, and those of another archive are dropped.
fn take_begun(
    reading: &mut Option<TileReading>,
    archive: ArchivePlace,
    span: ContentSpan,
) -> Option<Vec<u8>>
    ensures left { StaysOrNone reading.old reading.new }
    ensures fits { IfSome result (λ found. length found.items ≤ span.length) }
    ensures bytes { (bytes : List ℕ) → IsReadingOf archive bytes reading.old → IfSome result (λ found. AreFrom bytes span.offset found.items) }
{
    let begun = match reading.take() {
        Some(begun) => begun,
        None => return None,
    };
    if begun.is_of(archive, span) {
        return Some(begun.into_bytes());
    }
    if begun.archive == archive {
        *reading = Some(begun);
    }
    None
}

/// The first bytes of a content that were read, or none, with memory for all of them.
fn begun_or_none(
    alloc: Global,
    reading: &mut Option<TileReading>,
    archive: ArchivePlace,
    span: ContentSpan,
) -> Result<Vec<u8>, ArchiveFault>
    ensures left { StaysOrNone reading.old reading.new }
    ensures fits { IfOk result (λ found. length found.items ≤ span.length) }
    ensures bytes { (bytes : List ℕ) → IsReadingOf archive bytes reading.old → IfOk result (λ found. AreFrom bytes span.offset found.items) }
    ensures fault { IfErr result (λ fault. fault ≡ Memory) }
{
    if let Some(bytes) = take_begun(reading, archive, span) {
        return Ok(bytes);
    }
    match Vec::with_capacity(alloc, span.length as usize) {
        Ok(bytes) => Ok(bytes),
        Err(_) => Err(ArchiveFault::Memory),
    }
}

/// Reads the bytes that follow the first ones of a content, until there are `count`. After an error they are unspecified.
fn read_on<B: Bytes>(
    source: &mut B,
    offset: u64,
    into: &mut Vec<u8>,
    count: u64,
) -> Result<(), ArchiveFault>
    requires inside { offset + count ≤ B.count source.old }
    requires fits { length into.old.items ≤ count }
    ensures source { Keeps B.count B.holds B.unchanged source.old source.new }
    ensures len { OnOk result (length into.new.items ≡ count) }
    ensures bytes { (bytes : List ℕ) → B.holds source.new bytes → AreFrom bytes offset into.old.items → OnOk result (AreFrom bytes offset into.new.items) }
    ensures fault { IfErr result IsOutside }
    ensures read { result ≡ Err ArchiveFault.Read → B.failed source.old source.new }
{
    // The source has so many bytes, so no offset overflows.
    let _count = source.len();
    let begun = into.len();
    match into.resize(count as usize, 0) {
        Ok(()) => {}
        Err(_) => return Err(ArchiveFault::Memory),
    }
    match source.read_at(offset + begun as u64, &mut into[begun..]) {
        Ok(()) => Ok(()),
        Err(ReadFault) => Err(ArchiveFault::Read),
    }
}

/// The bytes of a content: the first ones that were read, and the others, which are read now. What is kept of another content stays.
pub(crate) fn read_rest<B: Bytes>(
    alloc: Global,
    source: &mut B,
    archive: ArchivePlace,
    reading: &mut Option<TileReading>,
    span: ContentSpan,
) -> Result<Vec<u8>, ArchiveFault>
    requires inside { end_of_span span ≤ B.count source.old }
    ensures source { Keeps B.count B.holds B.unchanged source.old source.new }
    ensures left { StaysOrNone reading.old reading.new }
    ensures bytes { (bytes : List ℕ) → B.holds source.new bytes → IsReadingOf archive bytes reading.old
        → IfOk result (λ content. content.items ≡ span_bytes bytes span) }
    ensures fault { IfErr result IsOutside }
    ensures read { result ≡ Err ArchiveFault.Read → B.failed source.old source.new }
{
    let mut bytes = match begun_or_none(alloc, reading, archive, span) {
        Ok(bytes) => bytes,
        Err(fault) => return Err(fault),
    };
    match read_on(source, span.offset, &mut bytes, span.length) {
        Ok(()) => Ok(bytes),
        Err(fault) => Err(fault),
    }
}

/// Reads the next part of a content, and keeps it with those before. It is true if parts are left. What was kept of another content is dropped.
pub(crate) fn read_next<B: Bytes>(
    alloc: Global,
    source: &mut B,
    archive: ArchivePlace,
    reading: &mut Option<TileReading>,
    span: ContentSpan,
) -> Result<bool, ArchiveFault>
    requires inside { end_of_span span ≤ B.count source.old }
    ensures source { Keeps B.count B.holds B.unchanged source.old source.new }
    ensures still { (bytes : List ℕ) → B.holds source.new bytes → IsReadingOf archive bytes reading.old → IsReadingOf archive bytes reading.new }
    ensures up_to { (last : ℕ) → IsReadingUpTo last reading.old → archive.generation ≤ last → IsReadingUpTo last reading.new }
    ensures read { result ≡ Err ArchiveFault.Read → B.failed source.old source.new }
{
    let mut bytes = match begun_or_none(alloc, reading, archive, span) {
        Ok(bytes) => bytes,
        Err(fault) => return Err(fault),
    };
    let begun = bytes.len() as u64;
    let count = begun + PART_BYTES.min(span.length - begun);
    match read_on(source, span.offset, &mut bytes, count) {
        Ok(()) => {}
        Err(fault) => return Err(fault),
    }
    *reading = Some(TileReading {
        archive,
        offset: span.offset,
        bytes,
    });
    Ok(count < span.length)
}

/// Whether first bytes of this content are kept.
fn is_begun(reading: &Option<TileReading>, archive: ArchivePlace, span: ContentSpan) -> bool {
    match reading {
        Some(begun) => begun.is_of(archive, span),
        None => false,
    }
}

/// Reads the next part of a content of more than one part, and says whether parts are left. Another content isn't read: it is `None`. Without
/// `begins` the first part isn't read either.
pub(crate) fn read_part<B: Bytes>(
    alloc: Global,
    source: &mut B,
    archive: ArchivePlace,
    reading: &mut Option<TileReading>,
    span: ContentSpan,
    begins: bool,
) -> Result<Option<bool>, ArchiveFault>
    requires inside { end_of_span span ≤ B.count source.old }
    ensures source { Keeps B.count B.holds B.unchanged source.old source.new }
    ensures still { (bytes : List ℕ) → B.holds source.new bytes → IsReadingOf archive bytes reading.old → IsReadingOf archive bytes reading.new }
    ensures up_to { (last : ℕ) → IsReadingUpTo last reading.old → archive.generation ≤ last → IsReadingUpTo last reading.new }
    ensures read { result ≡ Err ArchiveFault.Read → B.failed source.old source.new }
{
    if span.length <= PART_BYTES {
        return Ok(None);
    }
    let goes_on = begins || is_begun(reading, archive, span);
    if !goes_on {
        return Ok(Some(true));
    }
    match read_next(alloc, source, archive, reading, span) {
        Ok(parts_left) => Ok(Some(parts_left)),
        Err(fault) => Err(fault),
    }
}
