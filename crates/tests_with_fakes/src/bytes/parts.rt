//! Parts of bytes, by every offset and length around the borders of their sectors.
ghost use Rattle.std.specs.Prelude.{◌≡◌, ◌≤◌, ◌+◌, length};

use super::{disk_with, numbered};
use crate::wanted::same;
use byte_source::Bytes;
use sector_bytes::{SectorBytes, read_bytes};
use sector_disk::FailingCalls::{AllFrom, OneNotMade};
use sector_disk::{FailingCalls, FaultyDisk, MemoryDisk, Sectors};
use std::alloc::{AllocError, Global};

/// Where a part begins or ends.
static BORDERS: [usize; 9] = [0, 1, 511, 512, 513, 1023, 1024, 1025, 1100];

/// How many sectors a part has a byte in, written down apart from the code: none for an empty one.
const fn touched(from: usize, to: usize) -> u64 {
    let mut sectors = 0;
    if from < to && from < 512 {
        sectors += 1;
    }
    if from < to && from < 1024 && to > 512 {
        sectors += 1;
    }
    if from < to && to > 1024 {
        sectors += 1;
    }
    sectors
}

/// What reads a part of the bytes.
#[derive(Clone, Copy)]
enum Reading {
    /// A call over the disk.
    Call,
    /// A source of the bytes.
    Source,
}

/// Reads a part of the 1,100 bytes from sector 2 on, and says whether that is done.
fn reads(disk: &mut FaultyDisk<MemoryDisk>, by: Reading, from: u64, into: &mut [u8]) -> bool
    requires disk { ⟦<FaultyDisk<MemoryDisk> as Sectors>⟧.sectors disk.old ≡ 6 }
    requires part { from + length into.old ≤ 1100 }
    ensures { length into.new ≡ length into.old }
{
    match by {
        Reading::Call => read_bytes(disk, 2, from, into).is_ok(),
        Reading::Source => {
            let mut source = SectorBytes::new(disk, 2, 1100);
            source.len() == 1100 && source.read_at(from, into).is_ok()
        }
    }
}

/// Whether a part of the bytes is read whole, and by as many calls as it touches sectors.
fn is_read(alloc: Global, by: Reading, from: usize, to: usize) -> bool {
    let mut into = [7; 1100];
    if from > to || to > 1100 {
        return false;
    }
    let part = &mut into[..to - from];
    let bytes = numbered();
    let Ok(mut disk) = disk_with(alloc, &bytes, AllFrom(100)) else {
        return false;
    };
    let read = reads(&mut disk, by, from as u64, part);
    let calls = disk.calls();
    drop(disk);
    let is_part = part[..] == bytes[from..to];
    read && is_part && calls == touched(from, to)
}

/// The first part from one of the borders to the same or a later one of which that isn't so, if there is one.
fn other_part(alloc: Global, by: Reading) -> Option<(usize, usize)> {
    for from in &BORDERS {
        for to in &BORDERS {
            if *from <= *to && !is_read(alloc, by, *from, *to) {
                return Some((*from, *to));
            }
        }
    }
    None
}

#[test]
fn parts_of_bytes_and_of_a_source(rt: HostRuntime) {
    let seen = [
        other_part(rt.alloc(), Reading::Call),
        other_part(rt.alloc(), Reading::Source),
    ];
    same(&rt, &seen, &[None; 2]);
}

/// Which call fails, whether a part is read that lies in three sectors, and how many calls there are.
type Row = (FailingCalls, bool, u64);

/// Of the calls 1 to 3 each makes it fail, and it ends there.
static FAILING: [Row; 4] = [
    (OneNotMade(1), false, 1),
    (OneNotMade(2), false, 2),
    (OneNotMade(3), false, 3),
    (OneNotMade(4), true, 3),
];

/// Whether that is so of a row.
fn is_so(alloc: Global, by: Reading, row: Row) -> bool {
    let (failing, is_read, count) = row;
    let Ok(mut disk) = disk_with(alloc, &numbered(), failing) else {
        return false;
    };
    let read = reads(&mut disk, by, 500, &mut [7; 600]);
    let calls = disk.calls();
    drop(disk);
    read == is_read && calls == count
}

/// The index of the first row of which that isn't so, if there is one.
fn other_failing(alloc: Global, by: Reading) -> Option<usize> {
    for (index, row) in FAILING.iter().enumerate() {
        if !is_so(alloc, by, *row) {
            return Some(index);
        }
    }
    None
}

#[test]
fn reads_and_sources_that_fail(rt: HostRuntime) {
    let seen = [
        other_failing(rt.alloc(), Reading::Call),
        other_failing(rt.alloc(), Reading::Source),
    ];
    same(&rt, &seen, &[None; 2]);
}

/// Where parts of 20 bytes of a source begin, one after the other, and whether each is read. Call 1 reads the first sector, for three
/// parts. Call 2 reads the second one, and the first isn't read again. Call 3 fails, and what was kept of the second sector isn't taken
/// for the third one, nor the other way round: calls 4 and 5 read both.
static NEIGHBOURS: [(usize, bool); 6] = [
    (0, true),
    (20, true),
    (492, true),
    (502, true),
    (1030, false),
    (1014, true),
];

/// Whether a part of a source of the bytes is read.
fn is_read_at(source: &mut SectorBytes<'_, FaultyDisk<MemoryDisk>>, from: usize) -> bool {
    let mut into = [7; 20];
    if from > 1080 || source.len() < 1100 {
        return false;
    }
    let read = source.read_at(from as u64, &mut into);
    read.is_ok() && into.as_slice() == &numbered()[from..from + 20]
}

/// Which part is read otherwise, if one is.
fn other_neighbour(source: &mut SectorBytes<'_, FaultyDisk<MemoryDisk>>) -> Option<usize> {
    for (from, is_read) in &NEIGHBOURS {
        if is_read_at(source, *from) != *is_read {
            return Some(*from);
        }
    }
    None
}

/// The same of a source over a disk, and how many calls there are.
fn neighbours(alloc: Global) -> Result<(Option<usize>, u64), AllocError> {
    let mut disk = disk_with(alloc, &numbered(), OneNotMade(3))?;
    let other = other_neighbour(&mut SectorBytes::new(&mut disk, 2, 1100));
    let calls = disk.calls();
    drop(disk);
    Ok((other, calls))
}

#[test]
fn neighbouring_parts_cost_one_read(rt: HostRuntime) {
    same(&rt, &neighbours(rt.alloc()), &Ok((None, 5)));
}
