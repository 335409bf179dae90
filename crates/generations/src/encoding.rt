//! The sector of the format and the sector of a root, as bytes.
ghost use Rattle.std.specs.Prelude.{◌≡◌, ◌+◌, ◌^◌, ◌<◌, ◌≤◌, ◌↔◌, ◌++◌, Some, ℕ, take, drop, IsTrue};
ghost use Rattle.std.specs.Int.{w64, to_le_bytes};
ghost use Rattle.sector_disk.specs.declared.disk.TheConstants.{SECTOR_BYTES};
ghost use Rattle.generations.specs.Sectors.{IsVersion, IsFormatSector, version_from, format_sector};
ghost use Rattle.generations.specs.Sectors.{root_sector, root_from, number_from, AreNumbers, IsRootSector};

use crate::root::Root;
use crate::sizes::{FIRST_VERSION, LAST_VERSION};
use byteorder::{ByteOrder, LittleEndian};
use sector_disk::SECTOR_BYTES;

/// The first bytes of a formatted disk.
pub(crate) const DISK_MARK: [u8; 8] = *b"VTILEDSK";

const ROOT_MARK: [u8; 8] = *b"VTROOT01";

/// Writes a number of eight bytes, least significant byte first.
fn put_number(sector: &mut [u8; SECTOR_BYTES], at: usize, number: u64)
    requires { at + 8 ≤ SECTOR_BYTES }
    ensures { sector.new ≡ take at sector.old ++ to_le_bytes w64 number ++ drop (at + 8) sector.old }
{
    LittleEndian::write_u64(&mut sector[at..at + 8], number);
}

/// The number of eight bytes at an offset, least significant byte first.
pub(crate) fn number_at(sector: &[u8; SECTOR_BYTES], at: usize) -> u64
    requires { at + 8 ≤ SECTOR_BYTES }
    ensures { result ≡ number_from at sector.now }
{
    LittleEndian::read_u64(&sector[at..at + 8])
}

/// Whether there is a format of this version.
pub(crate) fn is_version(version: u32) -> bool
    ensures { IsTrue result ↔ IsVersion version }
{
    version == FIRST_VERSION || version == LAST_VERSION
}

/// The version in the sector of a format, whatever else the sector has.
pub(crate) fn version_at(sector: &[u8; SECTOR_BYTES]) -> u32
    ensures { result ≡ version_from sector.now }
{
    LittleEndian::read_u32(&sector[8..12])
}

/// The sector of the format of a version, for a disk formatted with `sectors` sectors.
#[tactic(auto, unfolding(crate::specs::Sectors::disk_mark, crate::specs::Sectors::format_sector))]
pub(crate) fn format_bytes(version: u32, sectors: u64) -> [u8; SECTOR_BYTES]
    ensures { result ≡ format_sector version sectors }
{
    let mut sector = [0; SECTOR_BYTES];
    sector[..8].copy_from_slice(&DISK_MARK);
    LittleEndian::write_u32(&mut sector[8..12], version);
    put_number(&mut sector, 12, sectors);
    sector
}

/// The sector of a root.
#[tactic(auto, unfolding(crate::specs::Sectors::root_mark, crate::specs::Sectors::root_sector))]
pub(crate) fn root_bytes(root: Root) -> [u8; SECTOR_BYTES]
    ensures { result ≡ root_sector root }
{
    let mut sector = [0; SECTOR_BYTES];
    sector[..8].copy_from_slice(&ROOT_MARK);
    put_number(&mut sector, 8, root.generation);
    put_number(&mut sector, 16, root.edits);
    put_number(&mut sector, 24, root.journal_at);
    put_number(&mut sector, 32, root.snapshot_len);
    put_number(&mut sector, 40, root.archive_len);
    sector
}

/// The numbers that a root has at their offsets, whatever else the sector has.
#[tactic(auto, unfolding(crate::specs::Sectors::root_from))]
fn numbers_of(sector: &[u8; SECTOR_BYTES]) -> Root
    ensures numbers { result ≡ root_from sector.now }
    ensures fit { AreNumbers result }
{
    Root {
        generation: number_at(sector, 8),
        edits: number_at(sector, 16),
        journal_at: number_at(sector, 24),
        snapshot_len: number_at(sector, 32),
        archive_len: number_at(sector, 40),
    }
}

/// The root that a sector has.
pub(crate) fn root_of(sector: &[u8; SECTOR_BYTES]) -> Option<Root>
    ensures { (root : Root) → (result ≡ Some root) ↔ IsRootSector sector.now root }
{
    let root = numbers_of(sector);
    let bytes = root_bytes(root);
    if bytes == *sector { Some(root) } else { None }
}

/// The count of sectors that the sector of a format names.
pub(crate) fn size_of(sector: &[u8; SECTOR_BYTES]) -> Option<u64>
    ensures { (n : ℕ) → (result ≡ Some n) ↔ (IsFormatSector sector.now n × (n < 2 ^ 64)) }
{
    let version = version_at(sector);
    if !is_version(version) {
        return None;
    }
    let sectors = number_at(sector, 12);
    let bytes = format_bytes(version, sectors);
    if bytes == *sector {
        Some(sectors)
    } else {
        None
    }
}
