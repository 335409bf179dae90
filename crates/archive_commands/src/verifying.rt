//! Verifies an archive: in memory, in any source of bytes, or stored from the first sector of a disk on.

ghost use Rattle.std.specs.Prelude.{◌≡◌, ◌≢◌, ◌≤◌, ℕ, List, Err, IfOk, IfErr, MatchResult};
ghost use Rattle.byte_source.specs.Source.{Keeps};
ghost use Rattle.generations.specs.Areas.{sectors_of};
ghost use Rattle.pm_header.specs.declared.header.Header.{Header};
ghost use Rattle.pm_archive.specs.Answers.{IsOutside, UnlessOutside};
ghost use Rattle.pm_archive.specs.Sections.{HasSections};
ghost use Rattle.pm_verify.specs.declared.report.Report.{Report};
ghost use Rattle.pm_verify.specs.Verified.{IsSound};
ghost use Rattle.sector_bytes.specs.Counts.{HasRisen, NeverFalls};
ghost use Rattle.sector_bytes.specs.Source.{AreItsBytes};
ghost use Rattle.sector_disk.specs.Asked.{OnlyReads};
ghost use Rattle.sector_disk.specs.Disk.{seen};
ghost use Rattle.archive_commands.specs.Faults.{FirstFault};

use byte_source::Bytes;
use pm_archive::{Archive, ArchiveFault};
use pm_verify::Report;
use sector_bytes::SectorBytes;
use sector_disk::Sectors;
use std::alloc::Global;

/// Verifies the archive in a source, and returns the source with the counts of a sound archive, otherwise with the archive's first fault.
///
/// # Errors
///
/// The first fault of the bytes. `Read` only if a read of the source failed. `Memory` if an allocation fails, which happens only if the header
/// and the section bounds are valid.
pub fn verify_source<B: Bytes + Drop>(alloc: Global, source: B) -> (B, Result<Report, ArchiveFault>)
    ensures source { Keeps B.count B.holds B.unchanged source result.0 }
    ensures found { (bytes : List ℕ) → B.holds result.0 bytes → IfOk result.1 (IsSound bytes) }
    ensures only { (bytes : List ℕ) (report : Report) → B.holds result.0 bytes → IsSound bytes report
        → MatchResult result.1 (λ found. found ≡ report) IsOutside }
    ensures fault { (bytes : List ℕ) → B.holds result.0 bytes → IfErr result.1 (UnlessOutside (FirstFault bytes)) }
    ensures read { result.1 ≡ Err ArchiveFault.Read → B.failed source result.0 }
    ensures memory { (bytes : List ℕ) → B.holds result.0 bytes → result.1 ≡ Err ArchiveFault.Memory → (h : Header) × HasSections bytes h }
{
    let mut archive = match Archive::open(alloc, source) {
        Ok(archive) => archive,
        Err((source, fault)) => return (source, Err(fault)),
    };
    let judged = pm_verify::verify(alloc, &mut archive);
    (archive.into_source(), judged)
}

/// Verifies an archive in memory: its counts if it is sound, otherwise its first fault.
///
/// # Errors
///
/// The first fault of the bytes. `Memory` if an allocation fails, which happens only if the header and the section bounds are valid.
pub fn verify(alloc: Global, archive: &[u8]) -> Result<Report, ArchiveFault>
    ensures found { IfOk result (IsSound archive.now) }
    ensures only { (report : Report) → IsSound archive.now report → MatchResult result (λ found. found ≡ report) (λ fault. fault ≡ ArchiveFault.Memory) }
    ensures fault { IfErr result (UnlessOutside (FirstFault archive.now)) }
    ensures read { result ≢ Err ArchiveFault.Read }
    ensures memory { result ≡ Err ArchiveFault.Memory → (h : Header) × HasSections archive.now h }
{
    let (_source, judged) = verify_source(alloc, archive);
    judged
}

/// Verifies the archive in the first `len` bytes of a disk, of which it keeps one sector and the parts that are being judged in memory, not the
/// whole archive: its counts if it is sound, otherwise its first fault. Nothing is written.
///
/// # Errors
///
/// The first fault of the bytes. `Read` only if a read of the disk failed. `Memory` if an allocation fails, which happens only if the header and
/// the section bounds are valid.
pub fn verify_stored<D: Sectors>(
    alloc: Global,
    disk: &mut D,
    len: u64,
) -> Result<Report, ArchiveFault>
    requires on_disk { sectors_of len ≤ D.sectors disk.old }
    ensures disk { OnlyReads D.sectors D.honest D.history disk.old disk.new }
    ensures found { (bytes : List ℕ) → D.honest disk.new → AreItsBytes 0 len bytes (seen (D.history disk.old)) → IfOk result (IsSound bytes) }
    ensures only { (bytes : List ℕ) (report : Report) → D.honest disk.new → AreItsBytes 0 len bytes (seen (D.history disk.old)) → IsSound bytes report
        → MatchResult result (λ found. found ≡ report) IsOutside }
    ensures fault { (bytes : List ℕ) → D.honest disk.new → AreItsBytes 0 len bytes (seen (D.history disk.old))
        → IfErr result (UnlessOutside (FirstFault bytes)) }
    ensures never_falls { NeverFalls (D.faults disk.old) (D.faults disk.new) }
    ensures read { result ≡ Err ArchiveFault.Read → HasRisen (D.faults disk.old) (D.faults disk.new) }
    ensures memory { (bytes : List ℕ) → D.honest disk.new → AreItsBytes 0 len bytes (seen (D.history disk.old))
        → result ≡ Err ArchiveFault.Memory → (h : Header) × HasSections bytes h }
{
    let (source, judged) = verify_source(alloc, SectorBytes::new(disk, 0, len));
    let _disk = source.into_disk();
    judged
}
