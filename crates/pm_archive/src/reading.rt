//! Reads bytes, directories and contents from a source.

ghost use Rattle.std.specs.Prelude.{◌≡◌, ◌↔◌, ℕ, ◌+◌, ◌<◌, ◌≤◌, List, Err, length, IfOk, IfErr, OnOk, IsTrue, slice_range};
ghost use Rattle.reader.specs.Reading.{GivesUnless};
ghost use Rattle.std.specs.List.{AllByRecursion};
ghost use Rattle.pm_directory.specs.Directory.{IsAscending, IsEntry};
ghost use Rattle.pm_directory.specs.Reading.{directory_at};
ghost use Rattle.byte_source.specs.Source.{Keeps};
ghost use Rattle.pm_archive.specs.Sections.{end_of};
ghost use Rattle.pm_archive.specs.Entries.{LiesIn};
ghost use Rattle.pm_archive.specs.Reading.{content_of_tile, directory_of_entry, directory_or_fault, fault_at};
ghost use Rattle.pm_archive.specs.Answers.{IsOutside};

use crate::fault::ArchiveFault;
use byte_source::Bytes;
use pm_directory::{DirectoryEntry, DirectoryFault, read_directory};
use pm_header::{Header, SectionSpan};
use std::alloc::Global;

/// Reads the bytes from an offset on, as many as `into` has.
fn read_into<B: Bytes>(source: &mut B, offset: u64, into: &mut [u8]) -> Result<(), ArchiveFault>
    requires { offset + length into.old ≤ B.count source.old }
    ensures source { Keeps B.count B.holds B.unchanged source.old source.new }
    ensures bytes { (bytes : List ℕ) → B.holds source.new bytes → OnOk result (into.new ≡ slice_range bytes offset (offset + length into.old)) }
    ensures fault { IfErr result (λ fault. (fault ≡ ArchiveFault.Read) × B.failed source.old source.new) }
{
    match source.read_at(offset, into) {
        Ok(()) => Ok(()),
        Err(_) => Err(ArchiveFault::Read),
    }
}

/// `count` bytes from an offset on.
pub(crate) fn bytes_at<B: Bytes>(
    alloc: Global,
    source: &mut B,
    offset: u64,
    count: u64,
) -> Result<Vec<u8>, ArchiveFault>
    requires { offset + count ≤ B.count source.old }
    ensures source { Keeps B.count B.holds B.unchanged source.old source.new }
    ensures bytes { (bytes : List ℕ) → B.holds source.new bytes → IfOk result (λ v. v.items ≡ slice_range bytes offset (offset + count)) }
    ensures len { IfOk result (λ v. length v.items ≡ count) }
    ensures fault { IfErr result IsOutside }
    ensures read { result ≡ Err ArchiveFault.Read → B.failed source.old source.new }
    ensures memory { result ≡ Err ArchiveFault.Memory → 0 < count }
{
    let mut bytes = match Vec::with_capacity(alloc, count as usize) {
        Ok(bytes) => bytes,
        Err(_) => return Err(ArchiveFault::Memory),
    };
    // The capacity suffices, so this doesn't fail.
    bytes.resize(count as usize, 0).unwrap();
    read_into(source, offset, &mut bytes)?;
    Ok(bytes)
}

/// The archive's fault for a fault of the directory at an offset.
fn directory_fault(offset: u64, fault: DirectoryFault) -> ArchiveFault
    ensures { result ≡ fault_at offset fault }
{
    match fault {
        DirectoryFault::Memory => ArchiveFault::Memory,
        _ => ArchiveFault::Directory(offset),
    }
}

/// The entries of the directory at an offset.
pub(crate) fn directory_from<B: Bytes>(
    alloc: Global,
    source: &mut B,
    offset: u64,
    length: u64,
) -> Result<Vec<DirectoryEntry>, ArchiveFault>
    requires { offset + length ≤ B.count source.old }
    ensures source { Keeps B.count B.holds B.unchanged source.old source.new }
    ensures directory { (bytes : List ℕ) → B.holds source.new bytes
        → GivesUnless IsOutside (λ v. v.items) result (directory_or_fault offset (directory_at (slice_range bytes offset (offset + length)))) }
    ensures ascending { IfOk result (λ v. IsAscending v.items) }
    ensures each { IfOk result (λ v. AllByRecursion IsEntry v.items) }
    ensures read { result ≡ Err ArchiveFault.Read → B.failed source.old source.new }
{
    let bytes = bytes_at(alloc, source, offset, length)?;
    match read_directory(alloc, &bytes) {
        Ok(entries) => Ok(entries),
        Err(fault) => Err(directory_fault(offset, fault)),
    }
}

/// Whether the bytes of an entry are inside its section.
pub(crate) fn lies_in(section: SectionSpan, entry: DirectoryEntry) -> bool
    ensures { IsTrue result ↔ LiesIn section entry }
{
    entry.offset <= section.length && u64::from(entry.length) <= section.length - entry.offset
}

/// The offset in the source of the bytes of an entry of a section.
pub(crate) fn offset_of<B: Bytes>(
    source: &B,
    section: SectionSpan,
    entry: DirectoryEntry,
) -> Result<u64, ArchiveFault>
    requires { end_of section ≤ B.count source.now }
    ensures inside { IfOk result (λ offset. (offset ≡ section.offset + entry.offset) × LiesIn section entry) }
    ensures outside { IfErr result (λ fault. (fault ≡ ArchiveFault.Place entry.id) × ¬ LiesIn section entry) }
{
    // The section is inside the source, whose length fits in 64 bits, so no offset overflows.
    let _count = source.len();
    if !lies_in(section, entry) {
        return Err(ArchiveFault::Place(entry.id));
    }
    Ok(section.offset + entry.offset)
}

/// The entries of the leaf directory that an entry names, with any ids.
#[tactic(auto, unfolding(crate::specs::Reading::directory_of_entry))]
pub(crate) fn directory_of<B: Bytes>(
    alloc: Global,
    source: &mut B,
    header: &Header,
    entry: DirectoryEntry,
) -> Result<Vec<DirectoryEntry>, ArchiveFault>
    requires { end_of header.now.leaves ≤ B.count source.old }
    ensures source { Keeps B.count B.holds B.unchanged source.old source.new }
    ensures directory { (bytes : List ℕ) → B.holds source.new bytes → GivesUnless IsOutside (λ v. v.items) result (directory_of_entry bytes header.now entry) }
    ensures ascending { IfOk result (λ v. IsAscending v.items) }
    ensures each { IfOk result (λ v. AllByRecursion IsEntry v.items) }
    ensures read { result ≡ Err ArchiveFault.Read → B.failed source.old source.new }
    ensures memory { result ≡ Err ArchiveFault.Memory → LiesIn header.now.leaves entry }
    ensures inside { OnOk result (LiesIn header.now.leaves entry) }
{
    let offset = offset_of(source, header.leaves, entry)?;
    directory_from(alloc, source, offset, u64::from(entry.length))
}

/// The content of a tile entry.
#[tactic(auto, unfolding(crate::specs::Reading::content_of_tile))]
pub(crate) fn content_of<B: Bytes>(
    alloc: Global,
    source: &mut B,
    header: &Header,
    entry: DirectoryEntry,
) -> Result<Vec<u8>, ArchiveFault>
    requires { end_of header.now.tiles ≤ B.count source.old }
    ensures source { Keeps B.count B.holds B.unchanged source.old source.new }
    ensures content { (bytes : List ℕ) → B.holds source.new bytes → GivesUnless IsOutside (λ v. v.items) result (content_of_tile bytes header.now entry) }
    ensures read { result ≡ Err ArchiveFault.Read → B.failed source.old source.new }
    ensures memory { result ≡ Err ArchiveFault.Memory → LiesIn header.now.tiles entry }
{
    let offset = offset_of(source, header.tiles, entry)?;
    bytes_at(alloc, source, offset, u64::from(entry.length))
}
