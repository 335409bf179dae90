//! The content of an area, sector by sector.
ghost use Rattle.std.specs.Prelude.{◌≡◌, ◌<◌, ◌≤◌, ◌^◌, ◌+◌, ◌++◌, ℕ, List, length, take, drop, IfOk, IfErr};
ghost use Rattle.feature_store.specs.Store.{FeatureMap, snapshot};
ghost use Rattle.generations.specs.Areas.{sectors_of};
ghost use Rattle.area_content.specs.Content.{sectors_taken, padded, sector_at};
ghost use Rattle.area_content.specs.Faults.{IsBuiltFor, IsContentFault};
ghost use Rattle.pm_build.specs.Built.{archive_bytes};
ghost use Rattle.sector_bytes.specs.Bytes.{sector_piece};
ghost use Rattle.sector_disk.specs.declared.disk.TheConstants.{SECTOR_BYTES};

use crate::fault::ContentFault;
use crate::spent::SpentContent;
use pm_build::BuiltArchive;
use sector_disk::SECTOR_BYTES;
use std::marker::Model;

/// The snapshot and the archive of a map, each starting at a sector.
#[derive(Drop)]
pub struct AreaContent {
    snapshot: Vec<u8>,
    archive: BuiltArchive,
}

impl Model for AreaContent {
    ghost use Rattle.area_content.specs.Content.{ContentView};

    ghost Value = { ContentView };

    ghost use Rattle.area_content.specs.Inside.{content_view};

    ghost view = { content_view };
}

/// How many sectors `bytes` bytes take.
pub(crate) fn sectors_for(bytes: usize) -> u64
    ensures taken { result ≡ sectors_of bytes }
    ensures small { result ≤ 2 ^ 55 }
{
    generations::sectors_for(bytes as u64)
}

/// The bytes from `from` on, at most `most`.
fn part(bytes: &[u8], from: usize, most: usize) -> &[u8]
    ensures part { result.now ≡ take most (drop from bytes.now) }
    ensures short { length result.now ≤ most }
{
    let behind = &bytes[from.min(bytes.len())..];
    &behind[..behind.len().min(most)]
}

/// A sector of these bytes, padded with zeros.
fn padded(bytes: &[u8]) -> [u8; SECTOR_BYTES]
    requires { length bytes.now ≤ SECTOR_BYTES }
    ensures { result ≡ padded bytes.now }
{
    let mut sector = [0; SECTOR_BYTES];
    sector[..bytes.len()].copy_from_slice(bytes);
    sector
}

/// A sector of these bytes, one part after the other, padded with zeros.
fn padded_parts(first: &[u8], second: &[u8]) -> [u8; SECTOR_BYTES]
    requires { length first.now + length second.now ≤ SECTOR_BYTES }
    ensures { result ≡ padded (first.now ++ second.now) }
{
    let mut sector = padded(first);
    sector[first.len()..first.len() + second.len()].copy_from_slice(second);
    sector
}

/// The length of an archive in bytes.
fn archive_len(archive: &BuiltArchive) -> usize
    ensures { result ≡ length (archive_bytes archive.now) }
{
    archive.front.len() + archive.contents.len()
}

/// The sector of an archive at `index`, padded with zeros. It may have bytes of both parts.
fn archive_sector(archive: &BuiltArchive, index: u64) -> [u8; SECTOR_BYTES]
    requires { index < sectors_of (length (archive_bytes archive.now)) }
    ensures { result ≡ padded (sector_piece (archive_bytes archive.now) index) }
{
    let start = SECTOR_BYTES * index as usize;
    let front = part(&archive.front, start, SECTOR_BYTES);
    let behind = start.saturating_sub(archive.front.len());
    let contents = part(&archive.contents, behind, SECTOR_BYTES - front.len());
    padded_parts(front, contents)
}

impl AreaContent {
    /// The content of these bytes.
    pub(crate) fn of(snapshot: Vec<u8>, archive: BuiltArchive) -> AreaContent
        ensures snapshot { result.snapshot ≡ snapshot.items }
        ensures archive { result.archive ≡ archive_bytes archive }
    {
        AreaContent { snapshot, archive }
    }

    /// The snapshot's length in bytes.
    pub fn snapshot_len(&self) -> u64
        ensures { result ≡ length self.now.snapshot }
    {
        self.snapshot.len() as u64
    }

    /// The archive's length in bytes.
    pub fn archive_len(&self) -> u64
        ensures { result ≡ length self.now.archive }
    {
        archive_len(&self.archive) as u64
    }

    /// How many sectors both take.
    pub fn sectors(&self) -> u64
        ensures { result ≡ sectors_taken self.now }
    {
        sectors_for(self.snapshot.len()) + sectors_for(archive_len(&self.archive))
    }

    /// How many of its sectors are left to write, once this many are written.
    pub fn left(&self, written: u64) -> u64
        requires { written ≤ sectors_taken self.now }
        ensures { result + written ≡ sectors_taken self.now }
    {
        self.sectors() - written
    }

    /// The bytes of a sector: first come those of the snapshot, then those of the archive. It reads no other bytes.
    pub fn sector(&self, index: u64) -> [u8; SECTOR_BYTES]
        requires { index < sectors_taken self.now }
        ensures { result ≡ sector_at self.now index }
    {
        let first = sectors_for(self.snapshot.len());
        if index < first {
            let start = SECTOR_BYTES * index as usize;
            padded(part(&self.snapshot, start, SECTOR_BYTES))
        } else {
            archive_sector(&self.archive, index - first)
        }
    }

    /// Its two long lists, whose memory is to be given back by parts.
    pub fn into_spent(self) -> SpentContent {
        let AreaContent { snapshot, archive } = self;
        let BuiltArchive { front: _, contents } = archive;
        SpentContent::of(snapshot, contents)
    }
}

/// The content, if it fits in an area of `area` sectors.
pub(crate) fn within(content: AreaContent, area: u64) -> Result<AreaContent, ContentFault>
    ensures fits { IfOk result (λ c. (c ≡ content) × (sectors_taken c ≤ area)) }
    ensures full { (m : FeatureMap) (metadata : List ℕ) → content.snapshot ≡ snapshot m → IsBuiltFor m metadata content.archive
        → IfErr result (IsContentFault m metadata area) }
{
    let need = content.sectors();
    if need > area {
        return Err(ContentFault::AreaFull { need, free: area });
    }
    Ok(content)
}
