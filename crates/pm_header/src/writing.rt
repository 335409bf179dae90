//! Encodes the fields of a header, one after the other.

ghost use Rattle.std.specs.Prelude.{◌≡◌, ◌+◌, ◌≤◌, ◌++◌, length, take};
ghost use Rattle.std.specs.Int.{w32, to_le_bytes, cast_unsigned};
ghost use Rattle.pm_header.specs.Layout.{little_8, IsHeader};

use crate::header::{HEADER_BYTES, Header};
use crate::section_span::SectionSpan;
use byteorder::{ByteOrder, LittleEndian};

/// The first bytes of each archive.
pub(crate) const MAGIC: [u8; 7] = *b"PMTiles";
/// The version of the format, the byte after them.
pub(crate) const VERSION: u8 = 3;

/// Writes the bytes of a field at an offset.
fn put<const N: usize>(bytes: &mut [u8], at: usize, field: [u8; N])
    requires { at + N ≤ length bytes.old }
    ensures { take (at + N) bytes.new ≡ take at bytes.old ++ field.entry }
{
    bytes[at..at + N].copy_from_slice(&field);
}

/// Writes an 8-byte number at an offset, least significant byte first.
fn put_number(bytes: &mut [u8], at: usize, number: u64)
    requires { at + 8 ≤ length bytes.old }
    ensures { take (at + 8) bytes.new ≡ take at bytes.old ++ little_8 number }
{
    LittleEndian::write_u64(&mut bytes[at..at + 8], number);
}

/// Writes a signed 4-byte number at an offset, least significant byte first.
fn put_position(bytes: &mut [u8], at: usize, position: i32)
    requires { at + 4 ≤ length bytes.old }
    ensures { take (at + 4) bytes.new ≡ take at bytes.old ++ to_le_bytes w32 (cast_unsigned w32 position) }
{
    LittleEndian::write_i32(&mut bytes[at..at + 4], position);
}

/// Writes the offset and the length of a section at an offset.
fn put_part(bytes: &mut [u8], at: usize, part: SectionSpan)
    requires { at + 16 ≤ length bytes.old }
    ensures { take (at + 16) bytes.new ≡ take at bytes.old ++ little_8 part.offset ++ little_8 part.length }
{
    put_number(bytes, at, part.offset);
    put_number(bytes, at + 8, part.length);
}

/// The bytes of a header.
pub(crate) fn header_bytes(header: Header) -> [u8; HEADER_BYTES]
    ensures { IsHeader result header }
{
    let mut bytes = [0; HEADER_BYTES];
    put(&mut bytes, 0, MAGIC);
    put(&mut bytes, 7, [VERSION]);
    put_part(&mut bytes, 8, header.root);
    put_part(&mut bytes, 24, header.metadata);
    put_part(&mut bytes, 40, header.leaves);
    put_part(&mut bytes, 56, header.tiles);
    put_number(&mut bytes, 72, header.addressed);
    put_number(&mut bytes, 80, header.entries);
    put_number(&mut bytes, 88, header.contents);
    put(
        &mut bytes,
        96,
        [
            header.clustered,
            header.internal,
            header.compression,
            header.kind,
        ],
    );
    put(&mut bytes, 100, [header.min_zoom, header.max_zoom]);
    put_position(&mut bytes, 102, header.min_lon);
    put_position(&mut bytes, 106, header.min_lat);
    put_position(&mut bytes, 110, header.max_lon);
    put_position(&mut bytes, 114, header.max_lat);
    put(&mut bytes, 118, [header.centre_zoom]);
    put_position(&mut bytes, 119, header.centre_lon);
    put_position(&mut bytes, 123, header.centre_lat);
    bytes
}
