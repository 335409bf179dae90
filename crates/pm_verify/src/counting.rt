//! Compares the counts of a header with those of the tile entries.

ghost use Rattle.std.specs.Prelude.{◌≡◌, ◌-◌, ◌^◌, ◌<◌, ◌↔◌, List, map, min, IfOk, IfErr, OnOk, IsTrue};
ghost use Rattle.std.specs.BTreeSet.{IsFromIterResult};
ghost use Rattle.pm_directory.specs.declared.entry.DirectoryEntry.{DirectoryEntry};
ghost use Rattle.pm_directory.specs.Counts.{addressed_by, contents_of, span_of};
ghost use Rattle.pm_archive.specs.declared.fault.Count.{Count};
ghost use Rattle.pm_metadata.specs.Archive.{Says, HasCounts};
ghost use Rattle.pm_verify.specs.Verified.{report_of};
ghost use Rattle.pm_verify.specs.VerifiedPieces.{IsCountFault, span_cmp};

use crate::report::Report;
use pm_archive::{ArchiveFault, Count};
use pm_directory::DirectoryEntry;
use pm_header::Header;
use std::alloc::{AllocError, Global};
use std::collections::BTreeSet;

/// The number of ids that the entries have a content for, or the greatest 64-bit number if it is greater.
fn addressed(tiles: &[DirectoryEntry]) -> u64
    ensures { result ≡ min (addressed_by tiles.now) (2 ^ 64 - 1) }
{
    let mut sum: u64 = 0;
    for entry in tiles {
        sum = sum.saturating_add(u64::from(entry.run));
    }
    sum
}

/// The offsets and lengths of the contents of the entries.
fn spans(alloc: Global, tiles: &[DirectoryEntry]) -> Result<BTreeSet<(u64, u32)>, AllocError>
    ensures { IfOk result (λ spans. IsFromIterResult span_cmp (map span_of tiles.now) spans) }
{
    tiles
        .iter()
        .map(|entry| (entry.offset, entry.length))
        .collect(alloc)
}

/// The number of different contents of the entries, by offset and length.
fn contents(alloc: Global, tiles: &[DirectoryEntry]) -> Result<u64, AllocError>
    ensures { IfOk result (λ n. n ≡ contents_of tiles.now) }
{
    let spans = spans(alloc, tiles)?;
    Ok(spans.len() as u64)
}

/// The counts of the entries.
pub(crate) fn report_of(alloc: Global, tiles: &[DirectoryEntry]) -> Result<Report, AllocError>
    ensures { addressed_by tiles.now < 2 ^ 64 → IfOk result (λ report. report ≡ report_of tiles.now) }
{
    let contents = contents(alloc, tiles)?;
    Ok(Report {
        tiles: addressed(tiles),
        entries: tiles.len() as u64,
        contents,
    })
}

/// Whether a count of a header is this number, or says that it isn't known.
fn says(said: u64, number: u64) -> bool
    ensures { IsTrue result ↔ Says said number }
{
    said == 0 || said == number
}

/// Checks the counts of a header against those of the entries. The first that differs is the fault.
pub(crate) fn check_counts(header: &Header, report: Report) -> Result<(), ArchiveFault>
    ensures agree { (tiles : List DirectoryEntry) → report ≡ report_of tiles → OnOk result (HasCounts header.now tiles) }
    ensures other { (tiles : List DirectoryEntry) → report ≡ report_of tiles → IfErr result (IsCountFault header.now tiles) }
    ensures counts { IfErr result (λ fault. (count : Count) × (fault ≡ ArchiveFault.Count count)) }
{
    if !says(header.addressed, report.tiles) {
        return Err(ArchiveFault::Count(Count::Addressed));
    }
    if !says(header.entries, report.entries) {
        return Err(ArchiveFault::Count(Count::Entries));
    }
    if !says(header.contents, report.contents) {
        return Err(ArchiveFault::Count(Count::Contents));
    }
    Ok(())
}
