//! Commands on the generations of a disk.
use super::trial::Trial;
use generations::{
    FIRST_VERSION, JOURNAL_START, LAST_VERSION, Layout, Root, StoreFault, format, format_version,
    install, read_root, upgrade, write_area,
};
use script_bytes::{Answer, sector_of};
use script_disks::Operands;
use sector_disk::Sectors;

/// How a disk is made a store.
#[derive(Clone, Copy)]
enum Work {
    Format,
    FormatFirst,
    FormatLast,
    Upgrade,
}

/// Formats or upgrades a disk.
fn worked<D: Sectors>(disk: &mut D, work: Work) -> Result<(), StoreFault> {
    match work {
        Work::Format => format(disk),
        Work::FormatFirst => format_version(disk, FIRST_VERSION),
        Work::FormatLast => format_version(disk, LAST_VERSION),
        Work::Upgrade => upgrade(disk),
    }
}

/// Formats or upgrades the disk, and tells the outcome.
fn work_on(trial: &mut Trial, work: Work, answer: &mut Answer) {
    let before = trial.disk.calls();
    let outcome = worked(&mut trial.disk, work);
    answer.show_calls(&outcome, trial.disk.calls().saturating_sub(before));
}

/// Formats the disk in the version of this number, if there is one.
fn format_in(trial: &mut Trial, version: u64, answer: &mut Answer) {
    match version {
        1 => work_on(trial, Work::FormatFirst, answer),
        2 => work_on(trial, Work::FormatLast, answer),
        _ => answer.say("no version"),
    }
}

fn root(trial: &mut Trial, answer: &mut Answer) {
    let before = trial.disk.calls();
    let outcome = read_root(&mut trial.disk);
    answer.show_calls(&outcome, trial.disk.calls().saturating_sub(before));
}

fn area(trial: &mut Trial, operands: &Operands, answer: &mut Answer) {
    let index = operands.number(1);
    let sectors = trial.disk.count();
    match (sector_of(&operands.bytes), Layout::of(sectors)) {
        (Some(sector), Some(layout)) if index < layout.area && layout.sectors <= sectors => {
            let generation = operands.number(0);
            let outcome = write_area(&mut trial.disk, layout, generation, index, &sector);
            answer.show_calls(&outcome, 1);
        }
        _ => answer.say("no sector"),
    }
}

fn install_root(trial: &mut Trial, operands: &Operands, answer: &mut Answer) {
    if trial.disk.count() < JOURNAL_START {
        return answer.say("no sector");
    }
    let root = Root {
        generation: operands.number(0),
        edits: operands.number(1),
        journal_at: operands.number(2),
        snapshot_len: operands.number(3),
        archive_len: operands.number(4),
    };
    let before = trial.disk.calls();
    let outcome = install(&mut trial.disk, root);
    answer.show_calls(&outcome, trial.disk.calls().saturating_sub(before));
}

/// What is asked of the generations of a disk.
#[derive(Clone, Copy)]
pub(crate) enum OfGeneration {
    Layout,
    Format,
    Version,
    Upgrade,
    Root,
    Area,
    Install,
}

/// Does what a command on generations asks for.
pub(crate) fn run(trial: &mut Trial, asks: OfGeneration, operands: &Operands, answer: &mut Answer) {
    let number = operands.number(0);
    match asks {
        OfGeneration::Layout => answer.show(&Layout::of(number)),
        OfGeneration::Format => work_on(trial, Work::Format, answer),
        OfGeneration::Version => format_in(trial, number, answer),
        OfGeneration::Upgrade => work_on(trial, Work::Upgrade, answer),
        OfGeneration::Root => root(trial, answer),
        OfGeneration::Area => area(trial, operands, answer),
        OfGeneration::Install => install_root(trial, operands, answer),
    }
}
