//! Decodes the fields of a header, each at its offset.

ghost use Rattle.std.specs.Prelude.{◌≡◌, ◌+◌, ◌≤◌, length};
ghost use Rattle.pm_header.specs.Layout.{number_at, position_at, part_at, header_at};

use crate::header::{HEADER_BYTES, Header};
use crate::section_span::SectionSpan;
use byteorder::{ByteOrder, LittleEndian};

/// The 8-byte number at an offset, least significant byte first.
fn number(bytes: &[u8], at: usize) -> u64
    requires { at + 8 ≤ length bytes.now }
    ensures { result ≡ number_at at bytes.now }
{
    LittleEndian::read_u64(&bytes[at..at + 8])
}

/// The signed 4-byte number at an offset, least significant byte first.
fn position(bytes: &[u8], at: usize) -> i32
    requires { at + 4 ≤ length bytes.now }
    ensures { result ≡ position_at at bytes.now }
{
    LittleEndian::read_i32(&bytes[at..at + 4])
}

/// The offset and the length of a section, two numbers from an offset on.
fn part(bytes: &[u8], at: usize) -> SectionSpan
    requires { at + 16 ≤ length bytes.now }
    ensures { result ≡ part_at at bytes.now }
{
    SectionSpan {
        offset: number(bytes, at),
        length: number(bytes, at + 8),
    }
}

/// The header in the first 127 bytes.
pub(crate) fn fields(bytes: &[u8]) -> Header
    requires { HEADER_BYTES ≤ length bytes.now }
    ensures { result ≡ header_at bytes.now }
{
    Header {
        root: part(bytes, 8),
        metadata: part(bytes, 24),
        leaves: part(bytes, 40),
        tiles: part(bytes, 56),
        addressed: number(bytes, 72),
        entries: number(bytes, 80),
        contents: number(bytes, 88),
        clustered: bytes[96],
        internal: bytes[97],
        compression: bytes[98],
        kind: bytes[99],
        min_zoom: bytes[100],
        max_zoom: bytes[101],
        min_lon: position(bytes, 102),
        min_lat: position(bytes, 106),
        max_lon: position(bytes, 110),
        max_lat: position(bytes, 114),
        centre_zoom: bytes[118],
        centre_lon: position(bytes, 119),
        centre_lat: position(bytes, 123),
    }
}
