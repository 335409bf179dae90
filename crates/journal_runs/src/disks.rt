//! Commands on the sectors of a disk.
use super::trial::Trial;
use script_bytes::{Answer, sector_of, spelled, used_part};
use script_disks::{Fails, Operands, crashed, tell_used_sectors};
use sector_disk::{FailingCalls, MemoryDisk, SECTOR_BYTES, Sectors};
use std::alloc::{AllocError, Global};
use std::mem;

/// Replaces the disk by one that was made.
fn put(trial: &mut Trial, made: Result<MemoryDisk, AllocError>, word: &str, answer: &mut Answer) {
    if let Some(disk) = answer.granted(made) {
        trial.replace(disk);
        answer.say(word);
    }
}

fn write(trial: &mut Trial, at: u64, bytes: &[u8], answer: &mut Answer) {
    match sector_of(bytes) {
        Some(sector) if at < trial.disk.count() => {
            answer.show_calls(&trial.disk.write(at, &sector), 1);
        }
        _ => answer.say("no sector"),
    }
}

fn sector(alloc: Global, trial: &mut Trial, at: u64, answer: &mut Answer) {
    if at >= trial.disk.count() {
        return answer.say("no sector");
    }
    let mut sector = [0; SECTOR_BYTES];
    match trial.disk.read(at, &mut sector) {
        Ok(()) => answer.add(spelled(alloc, used_part(&sector))),
        Err(fault) => answer.show_calls(&fault, 1),
    }
}

fn fail(alloc: Global, trial: &mut Trial, failing: FailingCalls, answer: &mut Answer) {
    answer.note(trial.set_failing(alloc, failing));
    answer.show(&failing);
}

fn stop(alloc: Global, trial: &mut Trial, answer: &mut Answer) {
    if let Some(disk) = answer.granted(trial.take(alloc)) {
        drop(mem::replace(&mut trial.stopped, Some(disk)));
        answer.say("stopped");
    }
}

fn crash(alloc: Global, trial: &mut Trial, numbers: &[u64], answer: &mut Answer) {
    let made = crashed(alloc, trial.stopped.as_ref(), numbers);
    put(trial, made, "crashed", answer);
}

/// What is asked of a disk.
#[derive(Clone, Copy)]
pub(crate) enum OfDisk {
    Make,
    Write,
    Sync,
    Sector,
    Sectors,
    Fail(Fails),
    Stop,
    Crash,
}

/// Does what a command on sectors asks for.
pub(crate) fn run(
    alloc: Global,
    trial: &mut Trial,
    asks: OfDisk,
    operands: &Operands,
    answer: &mut Answer,
) {
    let number = operands.number(0);
    match asks {
        OfDisk::Make => put(trial, MemoryDisk::new(alloc, number), "made", answer),
        OfDisk::Write => write(trial, number, &operands.bytes, answer),
        OfDisk::Sync => answer.show_calls(&trial.disk.sync(), 1),
        OfDisk::Sector => sector(alloc, trial, number, answer),
        OfDisk::Sectors => tell_used_sectors(&mut trial.disk, answer),
        OfDisk::Fail(fails) => fail(alloc, trial, fails.at(number), answer),
        OfDisk::Stop => stop(alloc, trial, answer),
        OfDisk::Crash => crash(alloc, trial, &operands.numbers, answer),
    }
}
