//! The heads of records, and the bodies that belong to them.
ghost use Rattle.std.specs.Prelude.{◌≡◌, ◌↔◌, ◌≤◌, ℕ, IsTrue, MatchOption};
ghost use Rattle.edit_journal.specs.declared.sizes.TheConstants.{FIRST_RECORD_VERSION};
ghost use Rattle.edit_journal.specs.Records.{IsRecordLength, parts_of, number_from, length_from, IsHeadOf, IsExpectedHead, HasFront};

use crate::encoding::{count_parts, front_bytes};
use crate::sizes::{FIRST_RECORD_VERSION, HEAD_KIND, LAST_RECORD_VERSION, MAX_RECORD_BYTES};
use byteorder::{ByteOrder, LittleEndian};
use sector_disk::SECTOR_BYTES;

/// What the head of a record says.
#[derive(Clone, Copy, Debug)]
pub struct Head {
    /// The record's version.
    pub version: u32,
    /// The edit's number.
    pub number: u64,
    /// The length of its text in bytes, from 1 to the most of its version.
    pub length: u32,
    /// How many parts the text has.
    pub parts: u16,
    ghost length_is: { IsRecordLength version length },
    ghost parts_is: { parts ≡ parts_of length },
}

impl Head {
    /// The head of the record of this version and number with a text of this length, if a record may have it.
    fn of(version: u32, number: u64, length: u32) -> Option<Head>
        ensures { MatchOption result (IsRecordLength version length → ⊥)
            (λ head. (head.version ≡ version) × (head.number ≡ number) × (head.length ≡ length)) }
    {
        if version < FIRST_RECORD_VERSION || version > LAST_RECORD_VERSION {
            return None;
        }
        if length == 0 || length > MAX_RECORD_BYTES + (version - FIRST_RECORD_VERSION) {
            return None;
        }
        Some(Head {
            version,
            number,
            length,
            parts: count_parts(length),
        })
    }

    /// Whether a sector has the front of this part of the record: of the head for part 0, else of a body. A body of another version
    /// than its head's isn't one.
    pub fn has_part(self, sector: &[u8; SECTOR_BYTES], part: u16) -> bool
        ensures { IsTrue result ↔ HasFront self.version self.number self.length part sector.now }
    {
        let front = front_bytes(self.version, self.number, self.length, part);
        sector.starts_with(&front)
    }
}

/// The edit's number in a sector.
pub(crate) fn number_in(sector: &[u8; SECTOR_BYTES]) -> u64
    ensures { result ≡ number_from sector.now }
{
    LittleEndian::read_u64(&sector[4..12])
}

/// The length of a text in a sector, in bytes.
fn length_in(sector: &[u8; SECTOR_BYTES]) -> u32
    ensures { result ≡ length_from sector.now }
{
    LittleEndian::read_u32(&sector[12..16])
}

/// The version of the head with this number that a sector is, whatever else it says, if the version is from 1 to `most`.
pub fn head_version(sector: &[u8; SECTOR_BYTES], number: u64, most: u32) -> Option<u32>
    ensures { MatchOption result (IsExpectedHead most number sector.now → ⊥)
        (λ version. (FIRST_RECORD_VERSION ≤ version) × (version ≤ most) × IsHeadOf version number sector.now) }
{
    let version = u32::from(sector[1]);
    if sector[0] == HEAD_KIND
        && FIRST_RECORD_VERSION <= version
        && version <= most
        && number_in(sector) == number
    {
        Some(version)
    } else {
        None
    }
}

/// What a sector says as the head of the record of this version and number. It says nothing if no record of this version has its
/// length, or its count of parts isn't that of a text of this length.
pub fn head_in(sector: &[u8; SECTOR_BYTES], version: u32, number: u64) -> Option<Head>
    ensures { MatchOption result ((bytes : ℕ) → IsRecordLength version bytes → HasFront version number bytes 0 sector.now → ⊥)
        (λ head. (head.version ≡ version) × (head.number ≡ number) × HasFront version number head.length 0 sector.now) }
{
    match Head::of(version, number, length_in(sector)) {
        Some(head) if head.has_part(sector, 0) => Some(head),
        _ => None,
    }
}
