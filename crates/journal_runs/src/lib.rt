//! The part `journal`: a disk in memory, its sectors and what a crash leaves of them, its generations, and its journal of edits.
//!
//! A command has its numbers first and its bytes after `=`, spelled as `script_bytes` reads them. Answers are in the form of `{:?}`; `in N` is
//! the number of calls of the disk. The call numbers of `fail_..` start at 1, after the last command that made a disk or set failing calls.
//!
//! | Command | Action |
//! |---|---|
//! | `disk N` | makes a disk of N sectors of zeros |
//! | `write AT = BYTES` | writes a sector: these bytes, padded with zeros |
//! | `sync` | syncs the disk |
//! | `sector AT` | prints a sector up to its last nonzero byte |
//! | `sectors` | prints the numbers of the sectors that are not all zeros |
//! | `fail_from N`, `fail_not_made N`, `fail_made N` | makes calls fail: all from number N on, or only call N, before or after its work is done |
//! | `fail_none` | no call fails |
//! | `stop` | takes the disk away with its unsynced writes |
//! | `crash C C ..` | makes the disk that a crash leaves of the stopped one: for the i-th unsynced sector its C-th write, or 0 for none |
//! | `layout N` | prints the layout of a disk of N sectors |
//! | `format` | formats the disk in the last version of the format |
//! | `format_version V` | formats the disk in version V of the format |
//! | `upgrade` | upgrades the disk to the last version of the format |
//! | `root` | reads the live root |
//! | `area G I = BYTES` | writes sector I of the area of generation G |
//! | `install G E J S A` | installs a root: generation, edits, journal place, lengths of snapshot and archive |
//! | `ring FIRST PLACES PLACE EDITS` | recovers the journal in PLACES sectors from FIRST on: EDITS edits came before the record at PLACE |
//! | `ring FIRST PLACES PLACE EDITS V` | the same on a disk of version V, not 2 |
//! | `append = BYTES`, `append V = BYTES` | appends a record of version 1 or V to the journal |
//! | `next` | prints the free places and the start of the next record |
//! | `mark` | remembers the start of the next record |
//! | `release N` | releases the N places before the mark |
//! | `head AT NUMBER` | prints which version of the head of record NUMBER a sector is, and what it says as one of version 1 and as one of version 2 |
//! | `head AT NUMBER V` | prints which version of the head it is, up to V |
//! | `has_part HEAD NUMBER AT PART` | prints whether sector AT is this part of record NUMBER, whose head is in sector HEAD |
#![tactic(auto)]

mod disks;
mod generation;
mod rings;
mod trial;

use disks::OfDisk;
use generation::OfGeneration;
use rings::OfRing;
use script_bytes::{Answer, parted};
use script_disks::{ANY, Fails, Operands, asked, operands_in};
use std::alloc::Global;
pub use trial::Trial;

/// What a command asks for.
#[derive(Clone, Copy)]
enum Asks {
    Disk(OfDisk),
    Generation(OfGeneration),
    Ring(OfRing),
}

/// The words of commands, with how many numbers they have and what they ask for.
static COMMANDS: [(&str, usize, Asks); 28] = [
    ("disk", 1, Asks::Disk(OfDisk::Make)),
    ("write", 1, Asks::Disk(OfDisk::Write)),
    ("sync", 0, Asks::Disk(OfDisk::Sync)),
    ("sector", 1, Asks::Disk(OfDisk::Sector)),
    ("sectors", 0, Asks::Disk(OfDisk::Sectors)),
    ("fail_from", 1, Asks::Disk(OfDisk::Fail(Fails::From))),
    ("fail_not_made", 1, Asks::Disk(OfDisk::Fail(Fails::NotMade))),
    ("fail_made", 1, Asks::Disk(OfDisk::Fail(Fails::Made))),
    ("fail_none", 0, Asks::Disk(OfDisk::Fail(Fails::None))),
    ("stop", 0, Asks::Disk(OfDisk::Stop)),
    ("crash", ANY, Asks::Disk(OfDisk::Crash)),
    ("layout", 1, Asks::Generation(OfGeneration::Layout)),
    ("format", 0, Asks::Generation(OfGeneration::Format)),
    ("format_version", 1, Asks::Generation(OfGeneration::Version)),
    ("upgrade", 0, Asks::Generation(OfGeneration::Upgrade)),
    ("root", 0, Asks::Generation(OfGeneration::Root)),
    ("area", 2, Asks::Generation(OfGeneration::Area)),
    ("install", 5, Asks::Generation(OfGeneration::Install)),
    ("ring", 4, Asks::Ring(OfRing::Ring)),
    ("ring", 5, Asks::Ring(OfRing::RingOf)),
    ("append", 0, Asks::Ring(OfRing::Append)),
    ("append", 1, Asks::Ring(OfRing::AppendOf)),
    ("next", 0, Asks::Ring(OfRing::Next)),
    ("mark", 0, Asks::Ring(OfRing::Mark)),
    ("release", 1, Asks::Ring(OfRing::Release)),
    ("head", 2, Asks::Ring(OfRing::Head)),
    ("head", 3, Asks::Ring(OfRing::HeadUpTo)),
    ("has_part", 4, Asks::Ring(OfRing::HasPart)),
];

/// Does what a command asks for.
fn run(alloc: Global, trial: &mut Trial, asks: Asks, operands: &Operands, answer: &mut Answer) {
    match asks {
        Asks::Disk(asks) => disks::run(alloc, trial, asks, operands, answer),
        Asks::Generation(asks) => generation::run(trial, asks, operands, answer),
        Asks::Ring(asks) => rings::run(alloc, trial, asks, operands, answer),
    }
}

/// Answers a line of text.
pub fn answer_to(alloc: Global, trial: &mut Trial, text: &str, answer: &mut Answer) {
    let (word, rest) = parted(text);
    if let Some(operands) = answer.fitting(operands_in(alloc, rest)) {
        match asked(&COMMANDS, word, operands.numbers.len()) {
            Some(asks) => run(alloc, trial, asks, &operands, answer),
            None => answer.reject(),
        }
    }
}
