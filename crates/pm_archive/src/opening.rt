//! Reads the header and the root directory of an archive.

ghost use Rattle.std.specs.Prelude.{◌≡◌, ◌≢◌, ◌↔◌, ℕ, ◌≤◌, List, length, Err, IfOk, IfErr, IfSome, IfNone, IsTrue};
ghost use Rattle.pm_header.specs.declared.header.Header.{Header};
ghost use Rattle.pm_header.specs.Layout.{IsHeader};
ghost use Rattle.pm_directory.specs.declared.entry.DirectoryEntry.{DirectoryEntry};
ghost use Rattle.std.specs.List.{AllByRecursion};
ghost use Rattle.pm_directory.specs.Directory.{IsAscending, IsDirectory, IsEntry};
ghost use Rattle.byte_source.specs.Source.{Keeps};
ghost use Rattle.pm_archive.specs.Sections.{HasSections, end_of, section_bytes};
ghost use Rattle.pm_archive.specs.Reading.{ArePlaced, OpeningHas, IsMisplaced};
ghost use Rattle.pm_archive.specs.Answers.{UnlessOutside};

use crate::fault::{ArchiveFault, Section};
use crate::limits::OPENING_END;
use crate::reading::directory_from;
use byte_source::Bytes;
use pm_directory::DirectoryEntry;
use pm_header::{HEADER_BYTES, Header, HeaderFault, SectionSpan};
use std::alloc::Global;

/// The header with which the bytes begin.
fn header_in<B: Bytes>(source: &mut B) -> Result<Header, ArchiveFault>
    ensures source { Keeps B.count B.holds B.unchanged source.old source.new }
    ensures found { (bytes : List ℕ) → B.holds source.new bytes → IfOk result (IsHeader bytes) }
    ensures fault { (bytes : List ℕ) → B.holds source.new bytes → IfErr result (UnlessOutside (OpeningHas bytes)) }
    ensures read { result ≡ Err ArchiveFault.Read → B.failed source.old source.new }
    ensures memory { result ≢ Err ArchiveFault.Memory }
{
    if source.len() < HEADER_BYTES as u64 {
        return Err(ArchiveFault::Short);
    }
    let mut bytes = [0; HEADER_BYTES];
    if source.read_at(0, &mut bytes).is_err() {
        return Err(ArchiveFault::Read);
    }
    match Header::from_bytes(&bytes) {
        Ok(header) => Ok(header),
        Err(HeaderFault::Short) => Err(ArchiveFault::Short),
        Err(HeaderFault::Magic) => Err(ArchiveFault::Magic),
        Err(HeaderFault::Version(version)) => Err(ArchiveFault::Version(version)),
    }
}

/// Whether the section ends inside the first `count` bytes.
fn ends_by(section: SectionSpan, count: u64) -> bool
    ensures { IsTrue result ↔ (end_of section ≤ count) }
{
    section.offset <= count && section.length <= count - section.offset
}

/// The first section that isn't inside a file of `count` bytes, or the root directory if it isn't early enough.
fn misplaced(header: &Header, count: u64) -> Option<Section>
    ensures section { IfSome result (IsMisplaced count header.now) }
    ensures none { IfNone result (ArePlaced count header.now) }
{
    if !ends_by(header.root, count.min(OPENING_END)) {
        Some(Section::Root)
    } else if !ends_by(header.metadata, count) {
        Some(Section::Metadata)
    } else if !ends_by(header.leaves, count) {
        Some(Section::Leaves)
    } else if !ends_by(header.tiles, count) {
        Some(Section::Tiles)
    } else {
        None
    }
}

/// The header, and the entries of the root directory.
pub(crate) fn header_and_root<B: Bytes>(
    alloc: Global,
    source: &mut B,
) -> Result<(Header, Vec<DirectoryEntry>), ArchiveFault>
    ensures source { Keeps B.count B.holds B.unchanged source.old source.new }
    ensures placed { IfOk result (λ x. ArePlaced (B.count source.old) x.0) }
    ensures ascending { IfOk result (λ x. IsAscending x.1.items) }
    ensures each { IfOk result (λ x. AllByRecursion IsEntry x.1.items) }
    ensures found { (bytes : List ℕ) → B.holds source.new bytes
        → IfOk result (λ x. HasSections bytes x.0 × IsDirectory (section_bytes x.0.root bytes) x.1.items) }
    ensures fault { (bytes : List ℕ) → B.holds source.new bytes → IfErr result (UnlessOutside (OpeningHas bytes)) }
    ensures read { result ≡ Err ArchiveFault.Read → B.failed source.old source.new }
    ensures memory { (bytes : List ℕ) → B.holds source.new bytes → result ≡ Err ArchiveFault.Memory → (h : Header) × HasSections bytes h }
{
    let header = header_in(source)?;
    if let Some(section) = misplaced(&header, source.len()) {
        return Err(ArchiveFault::Section(section));
    }
    if !header.has_plain_directories() {
        return Err(ArchiveFault::Compressed(header.internal));
    }
    let root = directory_from(alloc, source, header.root.offset, header.root.length)?;
    Ok((header, root))
}
