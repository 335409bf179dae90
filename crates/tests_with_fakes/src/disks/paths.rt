//! Disks in files of the system, by their paths.
use super::steps::Step::{Begins, Count, Fills, ReadsNot, Syncs};
use super::steps::{Step, other_step};
use crate::wanted::same;
use file_disk::{FileDisk, FileFault, Unknown, Zeros};
use sector_disk::Sectors;
use std::alloc::Global;
use std::env::temp_dir;
use std::hash::{BuildHasher, RandomState};
use std::{fs, io};

/// What is done at a path, with its expected outcome.
#[derive(Clone, Copy)]
enum Act {
    /// A file with this text is written.
    Writes(&'static str),
    /// The file holds this text.
    Holds(&'static str),
    /// The file is removed.
    Removes,
    /// The file is made so many bytes long, and a disk in it has so many sectors.
    HasSectors(u64, u64),
    /// Opening a disk fails with a fault of this variant.
    OpensNot(&'static str),
    /// Making a disk of so many sectors does, and then there is a file, or there is none.
    MakesNot(u64, &'static str, bool),
    /// A disk of 3 sectors is made, and keeps what was synced.
    Keeps,
}

static BEGUN: [Step; 4] = [Count(3), Begins(2, 0), Fills(2, 7), Syncs];

static KEPT: [Step; 3] = [Count(3), Begins(1, 0), Begins(2, 7)];

/// A sector that someone cut off can't be read, not even in part, until there is one again.
static MENDED: [Step; 5] = [
    Count(3),
    ReadsNot(2),
    Begins(1, 0),
    Fills(2, 8),
    Begins(2, 8),
];

/// Whether the file is made so many bytes long.
fn sets_len(rt: &HostRuntime, path: &str, bytes: u64) -> bool {
    match fs::File::options().write(true).open(rt, path) {
        Ok(file) => file.set_len(bytes).is_ok(),
        Err(_) => false,
    }
}

/// Whether each step has its outcome: of `KEPT`, and of `MENDED` after a part of sector 2 is cut off.
fn keeps_again<D: Sectors>(rt: &HostRuntime, path: &str, disk: &mut D) -> bool {
    other_step(disk, &KEPT).is_none()
        && sets_len(rt, path, 1500)
        && other_step(disk, &MENDED).is_none()
}

/// The same over a disk that is opened again.
fn keeps_opened(rt: &HostRuntime, path: &str) -> bool {
    match FileDisk::open(rt, path, Unknown) {
        Ok(mut again) => {
            let keeps = keeps_again(rt, path, &mut again);
            drop(again);
            keeps
        }
        Err(_) => false,
    }
}

/// Whether each step of `BEGUN` has its outcome over a disk that is made, and the same of the disk opened again, while this one is open too.
fn keeps(rt: &HostRuntime, path: &str) -> bool {
    match FileDisk::create(rt, path, 3, Zeros) {
        Ok(mut disk) => {
            let keeps = other_step(&mut disk, &BEGUN).is_none() && keeps_opened(rt, path);
            drop(disk);
            keeps
        }
        Err(_) => false,
    }
}

/// Whether a disk in the file can be opened, and has so many sectors.
fn has_sectors(rt: &HostRuntime, path: &str, count: u64) -> bool {
    match FileDisk::open(rt, path, Unknown) {
        Ok(disk) => {
            let is_so = disk.count() == count;
            drop(disk);
            is_so
        }
        Err(_) => false,
    }
}

/// Whether the file holds this text.
fn holds(rt: &HostRuntime, path: &str, text: &str) -> bool {
    match fs::read(rt, path) {
        Ok(held) => held.as_slice() == text.as_bytes(),
        Err(_) => false,
    }
}

/// The name of a fault's variant, and how the texts of its faults begin.
fn words_of(fault: &FileFault) -> (&'static str, &'static str) {
    match fault {
        FileFault::Open(_) => ("Open", "the file can't be opened: "),
        FileFault::Create(_) => ("Create", "the file can't be made: "),
        FileFault::Grow(_) => ("Grow", "the file can't be filled: "),
    }
}

/// Whether a fault's text begins so, and goes on.
fn is_told(alloc: Global, fault: &FileFault, start: &str) -> bool {
    match fault.to_string(alloc) {
        Ok(text) => text.starts_with(start) && text.len() > start.len(),
        Err(_) => false,
    }
}

/// Whether there is a fault, which is of this variant and tells so.
fn is_fault(alloc: Global, fault: Option<FileFault>, variant: &str) -> bool {
    match fault {
        Some(fault) => {
            let (name, start) = words_of(&fault);
            name == variant && is_told(alloc, &fault, start)
        }
        None => false,
    }
}

/// Whether opening a disk fails so.
fn opens_not(rt: &HostRuntime, path: &str, variant: &str) -> bool {
    is_fault(rt.alloc(), FileDisk::open(rt, path, Unknown).err(), variant)
}

/// Whether making a disk of so many sectors fails so.
fn makes_not(rt: &HostRuntime, path: &str, count: u64, variant: &str) -> bool {
    let made = FileDisk::create(rt, path, count, Zeros);
    is_fault(rt.alloc(), made.err(), variant)
}

/// Whether an act has its expected outcome.
fn is_so(rt: &HostRuntime, path: &str, act: Act) -> bool {
    match act {
        Act::Writes(text) => fs::write(rt, path, text).is_ok(),
        Act::Holds(text) => holds(rt, path, text),
        Act::Removes => fs::remove_file(rt, path).is_ok(),
        Act::HasSectors(bytes, count) => {
            sets_len(rt, path, bytes) && has_sectors(rt, path, count)
        }
        Act::OpensNot(variant) => opens_not(rt, path, variant),
        Act::MakesNot(count, variant, is_left) => {
            makes_not(rt, path, count, variant) && fs::exists(rt, path).ok() == Some(is_left)
        }
        Act::Keeps => keeps(rt, path),
    }
}

/// Whether each act has its expected outcome.
fn are_so(rt: &HostRuntime, path: &str, acts: &[Act]) -> bool {
    for act in acts {
        if !is_so(rt, path, *act) {
            return false;
        }
    }
    true
}

/// A path in the system's folder for such files at which there is nothing, and these letters behind it.
fn free_path(rt: &HostRuntime, end: &str) -> io::Result<String> {
    let key = RandomState::new(rt)?.hash_one(&0u8);
    let folder = temp_dir(rt)?;
    let path = format!(in rt.alloc(); "{}/sector_disk_{key}{end}", folder.display());
    drop(folder);
    Ok(path?)
}

/// The same at a free path with these letters behind it, if one can be made up.
fn are_so_at(rt: &HostRuntime, end: &str, acts: &[Act]) -> bool {
    match free_path(rt, end) {
        Ok(path) => {
            let are_so = are_so(rt, path.as_str(), acts);
            drop(path);
            are_so
        }
        Err(_) => false,
    }
}

/// Names, the letters behind a free path, and what is done there.
static ROWS: [(&str, &str, &[Act]); 5] = [
    ("keeps_what_was_synced", "", &[Act::Keeps, Act::Removes]),
    // Lengths of files, and the counts of their sectors.
    (
        "counts_whole_sectors",
        "",
        &[
            Act::Writes(""),
            Act::HasSectors(0, 0),
            Act::HasSectors(511, 0),
            Act::HasSectors(512, 1),
            Act::HasSectors(1600, 3),
            Act::Removes,
        ],
    ),
    // Opening a disk that isn't there, and making two that are larger than files are: no system has a file of 2^63 bytes, and 2^64 aren't
    // a `u64`.
    (
        "names_its_faults",
        "",
        &[
            Act::OpensNot("Open"),
            Act::MakesNot(1 << 54, "Grow", false),
            Act::MakesNot(1 << 55, "Grow", false),
        ],
    ),
    // Making a disk in a folder that isn't there.
    (
        "names_its_fault_in_no_folder",
        "/disk",
        &[Act::MakesNot(3, "Create", false)],
    ),
    (
        "leaves_another_file_as_it_is",
        "",
        &[
            Act::Writes("as before"),
            Act::MakesNot(3, "Create", true),
            Act::Holds("as before"),
            Act::Removes,
        ],
    ),
];

/// The name of the first row with another outcome, if there is one.
fn other_row(rt: &HostRuntime) -> Option<&'static str> {
    for (name, end, acts) in &ROWS {
        if !are_so_at(rt, end, acts) {
            return Some(*name);
        }
    }
    None
}

#[test]
fn disks_in_files_of_the_system(rt: HostRuntime) {
    same(&rt, &other_row(&rt), &None);
}
