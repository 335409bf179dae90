//! The sectors of a record, as bytes.
ghost use Rattle.std.specs.Prelude.{◌≡◌, ◌≤◌, ◌<◌, ◌+◌, ◌++◌, length, take, drop};
ghost use Rattle.sector_disk.specs.declared.disk.TheConstants.{SECTOR_BYTES};
ghost use Rattle.edit_journal.specs.declared.sizes.TheConstants.{LAST_RECORD_VERSION};
ghost use Rattle.edit_journal.specs.Records.{most_bytes, IsRecordLength, parts_of, piece, part_front, record_sector};

use crate::sizes::{BODY_KIND, FRONT_BYTES, HEAD_KIND, PART_BYTES};
use byteorder::{ByteOrder, LittleEndian};
use sector_disk::SECTOR_BYTES;

/// How many parts a text of this length has.
pub(crate) fn count_parts(length: u32) -> u16
    requires { length ≤ most_bytes LAST_RECORD_VERSION }
    ensures { result ≡ parts_of length }
{
    length.div_ceil(PART_BYTES as u32) as u16
}

/// The front of a part's sector.
#[tactic(auto, unfolding(crate::specs::Records::part_front))]
pub(crate) fn front_bytes(version: u32, number: u64, length: u32, part: u16) -> [u8; FRONT_BYTES]
    requires { IsRecordLength version length }
    ensures { result ≡ part_front version number length part }
{
    let (kind, count) = if part == 0 {
        (HEAD_KIND, count_parts(length))
    } else {
        (BODY_KIND, part)
    };
    let mut front = [0; FRONT_BYTES];
    front[0] = kind;
    front[1] = version as u8;
    LittleEndian::write_u16(&mut front[2..4], count);
    LittleEndian::write_u64(&mut front[4..12], number);
    LittleEndian::write_u32(&mut front[12..], length);
    front
}

/// The first `PART_BYTES` bytes of what is left of a text, or all of them if there are fewer.
fn first_piece(rest: &[u8]) -> &[u8]
    ensures { result.now ≡ take PART_BYTES rest.now }
{
    &rest[..PART_BYTES.min(rest.len())]
}

/// The bytes of a text in one of its parts.
fn piece_of(text: &[u8], part: u16) -> &[u8]
    requires { part < parts_of (length text.now) }
    ensures { result.now ≡ piece text.now part }
{
    first_piece(&text[PART_BYTES * usize::from(part)..])
}

/// Puts bytes into a sector, from an offset on.
fn put_bytes(sector: &mut [u8; SECTOR_BYTES], at: usize, bytes: &[u8])
    requires { at + length bytes.now ≤ SECTOR_BYTES }
    ensures { sector.new ≡ take at sector.old ++ (bytes.now ++ drop (at + length bytes.now) sector.old) }
{
    sector[at..at + bytes.len()].copy_from_slice(bytes);
}

/// The sector of a part of the record of this version, number and text, as the journal writes it. After the text's end it has zeros.
pub fn part_sector(version: u32, number: u64, text: &[u8], part: u16) -> [u8; SECTOR_BYTES]
    requires text { IsRecordLength version (length text.now) }
    requires part { part < parts_of (length text.now) }
    ensures { result ≡ record_sector version number text.now part }
{
    let mut sector = [0; SECTOR_BYTES];
    put_bytes(
        &mut sector,
        0,
        &front_bytes(version, number, text.len() as u32, part),
    );
    put_bytes(&mut sector, FRONT_BYTES, piece_of(text, part));
    sector
}
