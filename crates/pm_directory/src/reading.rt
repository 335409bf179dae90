//! Decodes directories.

ghost use Rattle.std.specs.Prelude.{◌≡◌, ◌≢◌, ◌*◌, ◌<◌, ◌≤◌, [], List, length, Ok, Err, IfOk, IfErr, OnOk, MatchResult};
ghost use Rattle.pm_directory.specs.Directory.{IsDirectory};
ghost use Rattle.pm_directory.specs.Faulty.{DirectoryHas, HasRoom};
ghost use Rattle.reader.specs.Reading.{Gives};
ghost use Rattle.pm_directory.specs.Reading.{id_at, run_at, length_at, offset_of, entry_at, entries_at, number_at, columns_at, directory_at};
ghost use Rattle.pm_directory.specs.declared.entry.DirectoryEntry.{DirectoryEntry};

use crate::entry::DirectoryEntry;
use crate::fault::DirectoryFault;
use crate::numbers::{number, numbers};
use hilbert_id::TILE_IDS;
use std::alloc::Global;

/// The id that is greater by `delta` than that of the previous entry.
fn id_behind(before: Option<DirectoryEntry>, delta: u64) -> Result<u64, DirectoryFault>
    ensures { result ≡ id_at before delta }
{
    match before {
        None => Ok(delta),
        Some(entry) if delta < u64::from(entry.run.max(1)) => Err(DirectoryFault::Order),
        Some(entry) => entry.id.checked_add(delta).ok_or(DirectoryFault::Range),
    }
}

/// The run of an entry of this id, from its number.
fn run_of(id: u64, run: u64) -> Result<u32, DirectoryFault>
    ensures { result ≡ run_at id run }
{
    if run > u64::from(u32::MAX) || id > TILE_IDS || TILE_IDS - id < run {
        return Err(DirectoryFault::Range);
    }
    Ok(run as u32)
}

/// The length of an entry, from its number.
fn length_of(length: u64) -> Result<u32, DirectoryFault>
    ensures { result ≡ length_at length }
{
    if length == 0 {
        return Err(DirectoryFault::Length);
    }
    u32::try_from(length).map_err(|_| DirectoryFault::Range)
}

/// The offset of an entry, from its number: 0 means the end of the previous entry's bytes, any other number the number less 1.
fn offset_behind(before: Option<DirectoryEntry>, number: u64) -> Result<u64, DirectoryFault>
    ensures { result ≡ offset_of before number }
{
    if number > 0 {
        return Ok(number - 1);
    }
    match before {
        None => Err(DirectoryFault::Offset),
        Some(entry) => entry
            .offset
            .checked_add(u64::from(entry.length))
            .ok_or(DirectoryFault::Range),
    }
}

/// The entry after another one, from a number of each column.
#[tactic(auto, unfolding(crate::specs::Reading::entry_at))]
fn entry_behind(
    before: Option<DirectoryEntry>,
    delta: u64,
    run: u64,
    length: u64,
    offset: u64,
) -> Result<DirectoryEntry, DirectoryFault>
    ensures { result ≡ entry_at before delta run length offset }
{
    let id = id_behind(before, delta)?;
    let run = run_of(id, run)?;
    let length = length_of(length)?;
    let offset = offset_behind(before, offset)?;
    Ok(DirectoryEntry {
        id,
        run,
        length,
        offset,
    })
}

/// The entries of four columns.
fn entries_of(
    alloc: Global,
    deltas: &[u64],
    runs: &[u64],
    lengths: &[u64],
    offsets: &[u64],
) -> Result<Vec<DirectoryEntry>, DirectoryFault>
    requires runs { length runs.now ≡ length deltas.now }
    requires lengths { length lengths.now ≡ length deltas.now }
    requires offsets { length offsets.now ≡ length deltas.now }
    ensures exact { Gives DirectoryFault.Memory (λ v. v.items) result (entries_at None [] deltas.now runs.now lengths.now offsets.now) }
    ensures memory { IfErr result (λ fault. fault ≡ DirectoryFault.Memory → 0 < length deltas.now) }
{
    let mut entries = Vec::with_capacity(alloc, deltas.len())?;
    let mut before = None;
    for i in 0..deltas.len() {
        let entry = entry_behind(before, deltas[i], runs[i], lengths[i], offsets[i])?;
        entries.push_reserved(entry);
        before = Some(entry);
    }
    Ok(entries)
}

/// The number of entries, and the bytes after it. Each number of their columns has a byte or more.
#[tactic(auto, unfolding(crate::specs::Reading::columns_at))]
fn count_of(bytes: &[u8]) -> Result<(usize, &[u8]), DirectoryFault>
    ensures count { IfOk result (λ x. (number_at bytes.now ≡ Ok (x.0, x.1.now)) × (4 * x.0 ≤ length x.1.now)) }
    ensures fault { IfErr result (λ fault. columns_at bytes.now ≡ Err fault) }
    ensures memory { result ≢ Err DirectoryFault.Memory }
{
    let (count, rest) = number(bytes)?;
    if count > rest.len() as u64 / 4 {
        return Err(DirectoryFault::Cut);
    }
    Ok((count as usize, rest))
}

/// Checks that there are no bytes after the last number.
fn check_end(rest: &[u8]) -> Result<(), DirectoryFault>
    ensures end { OnOk result (length rest.now ≡ 0) }
    ensures fault { IfErr result (λ fault. (fault ≡ DirectoryFault.Rest) × (0 < length rest.now)) }
{
    if rest.len() > 0 {
        return Err(DirectoryFault::Rest);
    }
    Ok(())
}

/// The number of entries, and the numbers of their four columns, one column after the other.
#[tactic(auto, unfolding(crate::specs::Reading::columns_at))]
fn columns(alloc: Global, bytes: &[u8]) -> Result<(usize, Vec<u64>), DirectoryFault>
    ensures four { IfOk result (λ x. length x.1.items ≡ 4 * x.0) }
    ensures exact { Gives DirectoryFault.Memory (λ x. (x.0, x.1.items)) result (columns_at bytes.now) }
    ensures room { IfOk result (λ x. 0 < x.0 → HasRoom bytes.now) }
    ensures memory { IfErr result (λ fault. fault ≡ DirectoryFault.Memory → HasRoom bytes.now) }
{
    let (count, rest) = count_of(bytes)?;
    let (numbers, rest) = numbers(alloc, 4 * count, rest)?;
    check_end(rest)?;
    Ok((count, numbers))
}

/// The entries of a directory, or its first fault.
#[tactic(auto, unfolding(crate::specs::Reading::directory_at))]
fn entries_in(alloc: Global, bytes: &[u8]) -> Result<Vec<DirectoryEntry>, DirectoryFault>
    ensures exact { Gives DirectoryFault.Memory (λ entries. entries.items) result (directory_at bytes.now) }
    ensures memory { IfErr result (λ fault. fault ≡ DirectoryFault.Memory → HasRoom bytes.now) }
{
    let (count, numbers) = columns(alloc, bytes)?;
    let (deltas, others) = numbers.split_at(count);
    let (runs, others) = others.split_at(count);
    let (lengths, offsets) = others.split_at(count);
    entries_of(alloc, deltas, runs, lengths, offsets)
}

/// Decodes a directory (PMTiles 3, 4.2): its entries, in ascending order and without overlapping runs.
///
/// # Errors
///
/// The first fault of the bytes. `Memory` if an allocation fails. Memory is reserved for at most as many numbers as there are bytes,
/// whatever the count that they begin with: a count of more entries than there are bytes for is `Cut`, and never `Memory`.
pub fn read_directory(alloc: Global, bytes: &[u8]) -> Result<Vec<DirectoryEntry>, DirectoryFault>
    ensures found { IfOk result (λ entries. IsDirectory bytes.now entries.items) }

    // A directory is refused only if memory runs out.
    ensures only { (entries : List DirectoryEntry) → IsDirectory bytes.now entries
        → MatchResult result (λ read. read.items ≡ entries) (λ fault. fault ≡ DirectoryFault.Memory) }

    // Any other fault is the first one of the bytes.
    ensures fault { IfErr result (λ fault. fault ≢ DirectoryFault.Memory → DirectoryHas bytes.now fault) }
    ensures first { Gives DirectoryFault.Memory (λ entries. entries.items) result (directory_at bytes.now) }

    // Memory runs out only if there are enough bytes for the entries that are claimed.
    ensures memory { IfErr result (λ fault. fault ≡ DirectoryFault.Memory → HasRoom bytes.now) }
{
    entries_in(alloc, bytes)
}
