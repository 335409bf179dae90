//! Steps that tests run over a disk, each with its expected outcome.
use super::fakes::{Fake, FakeFile};
use file_disk::{FileDisk, SystemFile, Unknown};
use sector_disk::Sectors;

/// A step with its expected outcome.
#[derive(Clone, Copy)]
pub(crate) enum Step {
    /// The disk has this many sectors.
    Count(u64),
    /// Filling a sector with a byte succeeds.
    Fills(u64, u8),
    /// Filling a sector with a byte fails.
    FillsNot(u64, u8),
    /// Filling each sector of a range with a byte succeeds.
    FillsAll(u64, u64, u8),
    /// Writing `sector_from` this byte succeeds.
    Writes(u64, u8),
    /// The sector is read, and its first byte is this one.
    Begins(u64, u8),
    /// Each sector of a range is read, and its first byte is the last byte of its number.
    BeginsNumbered(u64, u64),
    /// The sector is read, and is `sector_from` this byte.
    Reads(u64, u8),
    /// Reading the sector fails.
    ReadsNot(u64),
    /// A sync succeeds.
    Syncs,
    /// A sync fails.
    SyncsNot,
}

/// The bytes of a sector that begins with this byte: each is 3 more than the one before.
pub(crate) fn sector_from(start: u8) -> [u8; 512] {
    let mut bytes = [0; 512];
    let mut byte = start;
    for slot in &mut bytes {
        *slot = byte;
        byte = byte.wrapping_add(3);
    }
    bytes
}

/// Whether the sector exists and is written.
pub(crate) fn writes<D: Sectors>(disk: &mut D, at: u64, bytes: &[u8; 512]) -> bool {
    at < disk.count() && disk.write(at, bytes).is_ok()
}

/// The bytes of a sector, if it exists and can be read.
pub(crate) fn read<D: Sectors>(disk: &mut D, at: u64) -> Option<[u8; 512]> {
    let mut bytes = [9; 512];
    if at < disk.count() && disk.read(at, &mut bytes).is_ok() {
        Some(bytes)
    } else {
        None
    }
}

/// Whether a sector is read, and its first byte is this one.
fn begins<D: Sectors>(disk: &mut D, at: u64, byte: u8) -> bool {
    match read(disk, at) {
        Some(bytes) => bytes[0] == byte,
        None => false,
    }
}

/// Whether each sector of a range is filled with a byte.
fn fills_all<D: Sectors>(disk: &mut D, from: u64, to: u64, byte: u8) -> bool {
    for at in from..to {
        if !writes(disk, at, &[byte; 512]) {
            return false;
        }
    }
    true
}

/// Whether each sector of a range is read, and its first byte is the last byte of its number.
fn begins_numbered<D: Sectors>(disk: &mut D, from: u64, to: u64) -> bool {
    for at in from..to {
        if !begins(disk, at, (at % 256) as u8) {
            return false;
        }
    }
    true
}

/// Whether a step has its expected outcome.
fn is_so<D: Sectors>(disk: &mut D, step: Step) -> bool {
    match step {
        Step::Count(count) => disk.count() == count,
        Step::Fills(at, byte) => writes(disk, at, &[byte; 512]),
        Step::FillsNot(at, byte) => !writes(disk, at, &[byte; 512]),
        Step::FillsAll(from, to, byte) => fills_all(disk, from, to, byte),
        Step::Writes(at, start) => writes(disk, at, &sector_from(start)),
        Step::Begins(at, byte) => begins(disk, at, byte),
        Step::BeginsNumbered(from, to) => begins_numbered(disk, from, to),
        Step::Reads(at, start) => read(disk, at) == Some(sector_from(start)),
        Step::ReadsNot(at) => read(disk, at).is_none(),
        Step::Syncs => disk.sync().is_ok(),
        Step::SyncsNot => disk.sync().is_err(),
    }
}

/// The index of the first step with another outcome, if there is one.
pub(crate) fn other_step<D: Sectors>(disk: &mut D, steps: &[Step]) -> Option<usize> {
    for (index, step) in steps.iter().enumerate() {
        if !is_so(disk, *step) {
            return Some(index);
        }
    }
    None
}

/// The same over a disk of so many bytes in a file that a test made up.
pub(crate) fn other_step_in<F: Fake>(fake: &F, bytes: u64, steps: &[Step]) -> Option<usize> {
    let file = SystemFile::new(FakeFile { fake });
    let mut disk = FileDisk::new(file, bytes, Unknown);
    let other = other_step(&mut disk, steps);
    drop(disk);
    other
}
