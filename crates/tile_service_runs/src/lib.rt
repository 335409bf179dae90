//! The part `service`: a map on a disk in memory, edits, tiles and publications of its service, failing calls of its disk, and what opens
//! again after a crash.
//!
//! A command has its numbers first and its bytes after `=`, spelled as `script_bytes` reads them. Answers are in the form of `{:?}`, long ones
//! as a count and a hash; `in N` is the number of calls of the disk.
//!
//! | Command | Action |
//! |---|---|
//! | `disk N` | makes a disk of N sectors of zeros |
//! | `write AT = BYTES` | writes a sector: these bytes, padded with zeros |
//! | `sector AT`, `sectors` | prints a sector up to its last nonzero byte; the numbers of the sectors that are not all zeros |
//! | `fail_from N` | after the next `format`, `upgrade`, `export` or `open`, all calls of the disk from number N on fail |
//! | `fail_not_made N`, `fail_made N` | the same of call N alone, before or after its work is done |
//! | `format`, `format_version V` | formats the disk for the empty map, in the last version of the format or in version V |
//! | `upgrade` | upgrades the disk to the last version of the format |
//! | `export`, `export N` | copies the published archive of the disk, which isn't opened; to a writer that has room for N bytes |
//! | `open` | opens the disk as a service |
//! | `stop` | takes the disk away with its unsynced writes, and prints the number of calls since it was opened |
//! | `resume` | brings the stopped disk back |
//! | `crash C C ..` | makes the disk that a crash leaves of the stopped one: for the i-th unsynced sector its C-th write, or 0 for none |
//! | `put ID FEATURE`, `delete ID`, `tile Z X Y`, `look ID`, `begin`, `step`, `cancel` | runs an event, or several with `; ` between them; see `features` |
//! | `batch CHANGE & CHANGE ..` | an event too: changes, each as `put ID FEATURE` or `delete ID`; `batch` alone has none |
//! | `nothing` | runs no event |
//! | `publish` | publishes the map by one call |
//! | `prepare`, `prepare N` | prepares a publication by one call, or by up to N until one doesn't return `Ok(true)`; prints what the last one returned |
//! | `drafting` | prints how far the publication in the making is |
//! | `drafted`, `drop` | begins the publication that is in the making; drops it |
//! | `archive`, `archive AT N` | reads the published archive, or N bytes of it |
//! | `verify` | verifies the published archive |
//! | `metadata`, `version` | prints the metadata of the map; the version of the disk |
#![tactic(auto)]

mod brief;
mod calls;
mod disks;
mod events;
mod exports;
mod features;
mod sessions;

use calls::{OfService, run_events};
use disks::{OfDisk, Work, format_in, work_on};
use script_bytes::{Answer, parted};
use script_disks::{ANY, Fails, Operands, asked, operands_in};
use sessions::OfSession;
pub use sessions::Trial;
use std::alloc::Global;

/// What a command asks for.
#[derive(Clone, Copy)]
enum Asks {
    Session(OfSession),
    Work(Work),
    Version,
    Disk(OfDisk),
    Service(OfService),
}

/// The words of commands, with how many numbers they have and what they ask for.
static COMMANDS: [(&str, usize, Asks); 27] = [
    ("disk", 1, Asks::Session(OfSession::Make)),
    ("fail_from", 1, Asks::Session(OfSession::Fail(Fails::From))),
    (
        "fail_not_made",
        1,
        Asks::Session(OfSession::Fail(Fails::NotMade)),
    ),
    ("fail_made", 1, Asks::Session(OfSession::Fail(Fails::Made))),
    ("open", 0, Asks::Session(OfSession::Open)),
    ("stop", 0, Asks::Session(OfSession::Stop)),
    ("resume", 0, Asks::Session(OfSession::Resume)),
    ("crash", ANY, Asks::Session(OfSession::Crash)),
    ("format", 0, Asks::Work(Work::Format)),
    ("format_version", 1, Asks::Version),
    ("upgrade", 0, Asks::Work(Work::Upgrade)),
    ("write", 1, Asks::Disk(OfDisk::Write)),
    ("sector", 1, Asks::Disk(OfDisk::Sector)),
    ("sectors", 0, Asks::Disk(OfDisk::Sectors)),
    ("export", 0, Asks::Disk(OfDisk::Export)),
    ("export", 1, Asks::Disk(OfDisk::ExportUpTo)),
    ("publish", 0, Asks::Service(OfService::Publish)),
    ("prepare", 0, Asks::Service(OfService::Prepare)),
    ("prepare", 1, Asks::Service(OfService::PrepareUpTo)),
    ("drafting", 0, Asks::Service(OfService::Drafting)),
    ("drafted", 0, Asks::Service(OfService::Drafted)),
    ("drop", 0, Asks::Service(OfService::Drop)),
    ("archive", 0, Asks::Service(OfService::Archive)),
    ("archive", 2, Asks::Service(OfService::ArchivePart)),
    ("verify", 0, Asks::Service(OfService::Verify)),
    ("metadata", 0, Asks::Service(OfService::Metadata)),
    ("version", 0, Asks::Service(OfService::Version)),
];

/// Does what a command asks for.
fn run(alloc: Global, trial: &mut Trial, asks: Asks, operands: &Operands, answer: &mut Answer) {
    match asks {
        Asks::Session(asks) => sessions::run(alloc, trial, asks, operands, answer),
        Asks::Work(work) => work_on(alloc, trial, work, answer),
        Asks::Version => format_in(alloc, trial, operands.number(0), answer),
        Asks::Disk(asks) => disks::run(alloc, trial, asks, operands, answer),
        Asks::Service(asks) => calls::run(alloc, trial, asks, operands, answer),
    }
}

/// Answers a line of text, which is a run of events if it is no other command.
pub fn answer_to(alloc: Global, trial: &mut Trial, text: &str, answer: &mut Answer) {
    let (word, rest) = parted(text);
    let found = answer.granted(operands_in(alloc, rest)).flatten();
    let asks = match &found {
        Some(operands) => asked(&COMMANDS, word, operands.numbers.len()),
        None => None,
    };
    match (asks, &found) {
        (Some(asks), Some(operands)) => run(alloc, trial, asks, operands, answer),
        _ => run_events(alloc, trial, text, answer),
    }
}
