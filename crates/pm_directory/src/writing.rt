//! Encodes directories.

ghost use Rattle.std.specs.Prelude.{◌≡◌, ◌+◌, ◌*◌, ◌<◌, ◌≤◌, ◌^◌, ◌++◌, length, OnOk, IfOk};
ghost use Rattle.std.specs.List.{AllByRecursion};
ghost use Rattle.pm_directory.specs.Directory.{IsAscending, IsEntry, HasEnd, IsDirectory, id_deltas, runs_of, lengths_of, offset_number, offset_numbers};
ghost use Rattle.pm_directory.specs.Directory.{varints, directory_bytes};

use crate::entry::DirectoryEntry;
use pb_wire::put_varint;
use std::alloc::{AllocError, Global};

/// Appends the column of ids, each as the difference from the previous one.
fn put_deltas(out: &mut Vec<u8>, entries: &[DirectoryEntry]) -> Result<(), AllocError>
    requires { IsAscending entries.now }
    ensures { OnOk result (out.new.items ≡ out.old.items ++ varints (id_deltas 0 entries.now)) }
{
    let mut before = 0;
    for entry in entries {
        put_varint(out, entry.id - before)?;
        before = entry.id;
    }
    Ok(())
}

/// Appends the column of runs.
fn put_runs(out: &mut Vec<u8>, entries: &[DirectoryEntry]) -> Result<(), AllocError>
    ensures { OnOk result (out.new.items ≡ out.old.items ++ varints (runs_of entries.now)) }
{
    for entry in entries {
        put_varint(out, u64::from(entry.run))?;
    }
    Ok(())
}

/// Appends the column of lengths.
fn put_lengths(out: &mut Vec<u8>, entries: &[DirectoryEntry]) -> Result<(), AllocError>
    ensures { OnOk result (out.new.items ≡ out.old.items ++ varints (lengths_of entries.now)) }
{
    for entry in entries {
        put_varint(out, u64::from(entry.length))?;
    }
    Ok(())
}

/// The number of an offset, after a previous entry whose bytes end at `end`.
fn number_of_offset(end: Option<u64>, offset: u64) -> u64
    requires { offset + 1 < 2 ^ 64 }
    ensures { result ≡ offset_number end offset }
{
    match end {
        Some(end) if end == offset => 0,
        _ => offset + 1,
    }
}

/// Appends the offsets, each as 0 where the entry before it ends there, and otherwise as the offset and one more (PMTiles 3, 4.2).
fn put_offsets(out: &mut Vec<u8>, entries: &[DirectoryEntry]) -> Result<(), AllocError>
    requires { AllByRecursion HasEnd entries.now }
    ensures { OnOk result (out.new.items ≡ out.old.items ++ varints (offset_numbers None entries.now)) }
{
    let mut end = None;
    for entry in entries {
        put_varint(out, number_of_offset(end, entry.offset))?;
        end = Some(entry.offset + u64::from(entry.length));
    }
    Ok(())
}

/// Encodes a directory of these entries (PMTiles 3, 4.2), each number as short as possible, and an offset as 0 if its content follows
/// that of the previous entry.
pub fn write_directory(alloc: Global, entries: &[DirectoryEntry]) -> Result<Vec<u8>, AllocError>
    requires ascending { IsAscending entries.now }
    requires each { AllByRecursion IsEntry entries.now }
    requires ends { AllByRecursion HasEnd entries.now }
    ensures directory { IfOk result (λ bytes. IsDirectory bytes.items entries.now) }
    ensures spelling { IfOk result (λ bytes. bytes.items ≡ directory_bytes entries.now) }
    ensures size { length entries.now < 2 ^ 14 → IfOk result (λ bytes. length bytes.items ≤ 2 + 29 * length entries.now) }
{
    let mut bytes = Vec::new(alloc);
    put_varint(&mut bytes, entries.len() as u64)?;
    put_deltas(&mut bytes, entries)?;
    put_runs(&mut bytes, entries)?;
    put_lengths(&mut bytes, entries)?;
    put_offsets(&mut bytes, entries)?;
    Ok(bytes)
}
