//! Verifies an open archive.

ghost use Rattle.std.specs.Prelude.{◌≡◌, ◌≢◌, ℕ, ◌^◌, ◌<◌, List, Ok, Err, IfOk, IfErr, OnOk, MatchResult};
ghost use Rattle.std.specs.List.{AllByRecursion};
ghost use Rattle.pm_directory.specs.Counts.{addressed_by};
ghost use Rattle.byte_source.specs.Source.{Keeps};
ghost use Rattle.pm_archive.specs.Sections.{section_bytes};
ghost use Rattle.pm_archive.specs.Entries.{LiesIn};
ghost use Rattle.pm_archive.specs.Answers.{IsOutside, UnlessOutside};
ghost use Rattle.pm_metadata.specs.Archive.{IsMetadata, HasCounts};
ghost use Rattle.pm_verify.specs.declared.report.Report.{Report};
ghost use Rattle.pm_verify.specs.Verified.{IsSound, IsVerified, VerifyingHas, AreVector, HasTile, report_of};
ghost use Rattle.pm_verify.specs.VerifiedPieces.{IsFirstTileFault, IsMetadataFault, IsCountFault};

use crate::checking::{check_holds, check_tiles};
use crate::counting::{check_counts, report_of};
use crate::report::Report;
use byte_source::Bytes;
use pm_archive::{Archive, ArchiveFault};
use pm_directory::DirectoryEntry;
use pm_header::{Header, NOT_COMPRESSED, VECTOR_TILES};
use pm_metadata::is_metadata;
use std::alloc::Global;

/// Checks that the metadata is a JSON object.
fn check_metadata<B: Bytes + Drop>(
    alloc: Global,
    archive: &mut Archive<B>,
) -> Result<(), ArchiveFault>
    ensures header { archive.new.header ≡ archive.old.header }
    ensures root { archive.new.root ≡ archive.old.root }
    ensures source { Keeps B.count B.holds B.unchanged archive.old.source archive.new.source }
    ensures found { (bytes : List ℕ) → B.holds archive.new.source bytes → OnOk result (IsMetadata (section_bytes archive.old.header.metadata bytes)) }
    ensures fault { (bytes : List ℕ) → B.holds archive.new.source bytes → IfErr result (UnlessOutside (IsMetadataFault bytes archive.old.header)) }
    ensures some { OnOk result (0 < archive.old.header.metadata.length) }
    ensures read { result ≡ Err ArchiveFault.Read → B.failed archive.old.source archive.new.source }
    ensures memory { result ≡ Err ArchiveFault.Memory → 0 < archive.old.header.metadata.length }
{
    let metadata = archive.metadata()?;
    match is_metadata(alloc, &metadata) {
        Ok(is) => check_holds(is, ArchiveFault::Metadata),
        Err(_) => Err(ArchiveFault::Memory),
    }
}

/// The counts of the entries, if those of the header agree with them.
fn report_on(
    alloc: Global,
    header: &Header,
    tiles: &[DirectoryEntry],
) -> Result<Report, ArchiveFault>
    ensures counts { addressed_by tiles.now < 2 ^ 64 → IfOk result (λ _. HasCounts header.now tiles.now) }
    ensures told { addressed_by tiles.now < 2 ^ 64 → IfOk result (λ report. report ≡ report_of tiles.now) }
    ensures fault { addressed_by tiles.now < 2 ^ 64 → IfErr result (UnlessOutside (IsCountFault header.now tiles.now)) }
    ensures read { result ≢ Err ArchiveFault.Read }
{
    let report = match report_of(alloc, tiles) {
        Ok(report) => report,
        Err(_) => return Err(ArchiveFault::Memory),
    };
    check_counts(header, report)?;
    Ok(report)
}

/// Decodes the tile of each entry, if the tiles are uncompressed vector tiles.
fn check_vector_tiles<B: Bytes + Drop>(
    alloc: Global,
    archive: &mut Archive<B>,
    tiles: &[DirectoryEntry],
) -> Result<(), ArchiveFault>
    ensures header { archive.new.header ≡ archive.old.header }
    ensures root { archive.new.root ≡ archive.old.root }
    ensures source { Keeps B.count B.holds B.unchanged archive.old.source archive.new.source }
    ensures each { (bytes : List ℕ) → B.holds archive.new.source bytes → AllByRecursion (LiesIn archive.old.header.tiles) tiles.now
        → OnOk result (AreVector archive.old.header → AllByRecursion (HasTile bytes archive.old.header) tiles.now) }
    ensures fault { (bytes : List ℕ) → B.holds archive.new.source bytes → AllByRecursion (LiesIn archive.old.header.tiles) tiles.now
        → IfErr result (UnlessOutside (λ d. AreVector archive.old.header × IsFirstTileFault bytes archive.old.header tiles.now d)) }
    ensures read { result ≡ Err ArchiveFault.Read → B.failed archive.old.source archive.new.source }
{
    let header = archive.header();
    if header.kind != VECTOR_TILES || header.compression != NOT_COMPRESSED {
        return Ok(());
    }
    check_tiles(alloc, archive, tiles)
}

/// The counts of the archive, or its first fault.
fn verdict<B: Bytes + Drop>(alloc: Global, archive: &mut Archive<B>) -> Result<Report, ArchiveFault>
    ensures header { archive.new.header ≡ archive.old.header }
    ensures root { archive.new.root ≡ archive.old.root }
    ensures source { Keeps B.count B.holds B.unchanged archive.old.source archive.new.source }
    ensures found { (bytes : List ℕ) → B.holds archive.new.source bytes → IfOk result (IsVerified bytes archive.old.header archive.old.root) }
    ensures fault { (bytes : List ℕ) → B.holds archive.new.source bytes
        → IfErr result (UnlessOutside (VerifyingHas bytes archive.old.header archive.old.root)) }
    ensures read { result ≡ Err ArchiveFault.Read → B.failed archive.old.source archive.new.source }
    ensures memory { result ≡ Err ArchiveFault.Memory → 0 < archive.old.header.metadata.length }
{
    let header = archive.header();
    check_metadata(alloc, archive)?;
    let listed = archive.list()?;
    let tiles = listed.as_slice();
    let report = report_on(alloc, &header, tiles)?;
    check_vector_tiles(alloc, archive, tiles)?;
    Ok(report)
}

/// Verifies an archive: its metadata, its directories, the counts of its header, and, if the tiles are uncompressed Mapbox vector
/// tiles, each of them. Returns its true counts.
///
/// # Errors
///
/// `Metadata`, then those of `Archive::list`, then `Count` (addressed, entries, contents), then `Tile`, the first that applies. `Read`
/// if a read of the source fails. `Memory` only if the metadata has a byte or more.
pub fn verify<B: Bytes + Drop>(
    alloc: Global,
    archive: &mut Archive<B>,
) -> Result<Report, ArchiveFault>
    ensures header { archive.new.header ≡ archive.old.header }
    ensures root { archive.new.root ≡ archive.old.root }
    ensures source { Keeps B.count B.holds B.unchanged archive.old.source archive.new.source }
    ensures found { (bytes : List ℕ) → B.holds archive.new.source bytes → IfOk result (IsSound bytes) }
    ensures only { (bytes : List ℕ) (report : Report) → B.holds archive.new.source bytes → IsSound bytes report
        → MatchResult result (λ told. told ≡ report) IsOutside }
    ensures fault { (bytes : List ℕ) → B.holds archive.new.source bytes
        → IfErr result (UnlessOutside (VerifyingHas bytes archive.old.header archive.old.root)) }
    ensures read { result ≡ Err ArchiveFault.Read → B.failed archive.old.source archive.new.source }
    ensures memory { result ≡ Err ArchiveFault.Memory → 0 < archive.old.header.metadata.length }
{
    // The header and the root directory are those of the bytes.
    let _header = archive.header();
    verdict(alloc, archive)
}
