//! Commands on the sectors of a closed disk.
use super::exports::export;
use super::sessions::{ServedDisk, Trial};
use generations::{FIRST_VERSION, format_version};
use script_bytes::{Answer, sector_of, spelled, used_part};
use script_disks::{Operands, sector_at, tell_used_sectors};
use sector_disk::{MemoryDisk, Sectors};
use std::alloc::Global;
use tile_service::Service;

/// Writes a sector. The line doesn't fit if the disk has no such sector, or these aren't its bytes.
fn write(disk: &mut MemoryDisk, at: u64, bytes: &[u8], answer: &mut Answer) {
    match sector_of(bytes) {
        Some(sector) if at < disk.count() => answer.show(&disk.write(at, &sector)),
        _ => answer.reject(),
    }
}

/// Tells a sector. The line doesn't fit if the disk has no such sector.
fn sector(alloc: Global, disk: &mut MemoryDisk, at: u64, answer: &mut Answer) {
    if at >= disk.count() {
        return answer.reject();
    }
    answer.add(spelled(alloc, used_part(&sector_at(disk, at))));
}

/// What is done with a disk as a whole.
#[derive(Clone, Copy)]
pub(crate) enum Work {
    /// The disk is formatted for the empty map.
    Format,
    /// The same in the first version of the format.
    FormatFirst,
    /// The disk is upgraded.
    Upgrade,
    /// Its archive is copied, to a writer with room for this many bytes.
    Export(usize),
}

/// Does the work on a disk, and tells the outcome.
fn do_work(alloc: Global, disk: &mut ServedDisk, work: Work, answer: &mut Answer) {
    match work {
        Work::Format => answer.show(&Service::format(disk)),
        Work::FormatFirst => answer.show(&format_version(disk, FIRST_VERSION)),
        Work::Upgrade => answer.show(&Service::upgrade(disk)),
        Work::Export(room) => export(alloc, disk, room, answer),
    }
}

/// Does the work on the disk with its failing calls, and tells the outcome with the number of calls.
pub(crate) fn work_on(alloc: Global, trial: &mut Trial, work: Work, answer: &mut Answer) {
    if let Some(mut disk) = answer.granted(trial.take_disk(alloc)) {
        do_work(alloc, &mut disk, work, answer);
        let calls = disk.calls();
        trial.replace(disk.into_disk());
        write!(answer, " in {calls}");
    }
}

/// Formats the disk in the version of this number. The line doesn't fit if there is none.
pub(crate) fn format_in(alloc: Global, trial: &mut Trial, version: u64, answer: &mut Answer) {
    match version {
        1 => work_on(alloc, trial, Work::FormatFirst, answer),
        2 => work_on(alloc, trial, Work::Format, answer),
        _ => answer.reject(),
    }
}

/// What is asked of a closed disk.
#[derive(Clone, Copy)]
pub(crate) enum OfDisk {
    Write,
    Sector,
    Sectors,
    Export,
    ExportUpTo,
}

/// Does what a command on a closed disk asks for. It doesn't fit if the disk is open.
pub(crate) fn run(
    alloc: Global,
    trial: &mut Trial,
    asks: OfDisk,
    operands: &Operands,
    answer: &mut Answer,
) {
    if trial.service.is_some() {
        return answer.reject();
    }
    let disk = &mut trial.disk;
    let number = operands.number(0);
    match asks {
        OfDisk::Write => write(disk, number, &operands.bytes, answer),
        OfDisk::Sector => sector(alloc, disk, number, answer),
        OfDisk::Sectors => tell_used_sectors(disk, answer),
        OfDisk::Export => work_on(alloc, trial, Work::Export(usize::MAX), answer),
        OfDisk::ExportUpTo => work_on(alloc, trial, Work::Export(number as usize), answer),
    }
}
