//! A disk of which some calls fail, over another one that counts its own: what each call of a short script asks of it. What is told, and what the
//! disk then has, are lines of `service_runs`.
use super::steps::Step::{Begins, Fills, FillsNot, ReadsNot, Syncs, SyncsNot};
use super::steps::{Step, other_step};
use crate::wanted::same;
use sector_disk::FailingCalls::{AllFrom, OneMade, OneNotMade};
use sector_disk::{FailingCalls, FaultyDisk, MemoryDisk};
use std::alloc::Global;

/// Which calls of the script are reported as done, and what is read, if something is.
type Reported = (bool, bool, bool, Option<u8>);

/// Fills sector 2 with 7s, syncs, fills it with 8s, and reads it.
fn script((wrote, synced, again, byte): Reported) -> [Step; 4] {
    [
        if wrote { Fills(2, 7) } else { FillsNot(2, 7) },
        if synced { Syncs } else { SyncsNot },
        if again { Fills(2, 8) } else { FillsNot(2, 8) },
        match byte {
            Some(byte) => Begins(2, byte),
            None => ReadsNot(2),
        },
    ]
}

/// Which calls fail of the outer disk, and of the inner one; what is reported to the script; and how many of the four calls are passed on, or
/// made all the same: each is one call of the inner disk.
type Row = (FailingCalls, FailingCalls, Reported, u64);

/// No call fails.
const NONE: FailingCalls = AllFrom(9);

static ROWS: [Row; 20] = [
    (AllFrom(0), NONE, (false, false, false, None), 0),
    (AllFrom(1), NONE, (false, false, false, None), 0),
    (AllFrom(2), NONE, (true, false, false, None), 1),
    (AllFrom(3), NONE, (true, true, false, None), 2),
    (AllFrom(4), NONE, (true, true, true, None), 3),
    (AllFrom(5), NONE, (true, true, true, Some(8)), 4),
    (AllFrom(6), NONE, (true, true, true, Some(8)), 4),
    (OneNotMade(0), NONE, (true, true, true, Some(8)), 4),
    (OneMade(0), NONE, (true, true, true, Some(8)), 4),
    (OneNotMade(1), NONE, (false, true, true, Some(8)), 3),
    (OneMade(1), NONE, (false, true, true, Some(8)), 4),
    (OneNotMade(2), NONE, (true, false, true, Some(8)), 3),
    (OneMade(2), NONE, (true, false, true, Some(8)), 4),
    (OneNotMade(3), NONE, (true, true, false, Some(7)), 3),
    (OneMade(3), NONE, (true, true, false, Some(8)), 4),
    (OneNotMade(4), NONE, (true, true, true, None), 3),
    (OneMade(4), NONE, (true, true, true, None), 4),
    (OneNotMade(5), NONE, (true, true, true, Some(8)), 4),
    // A fault of the inner disk is one of the outer disk too.
    (OneNotMade(4), AllFrom(2), (true, false, false, None), 3),
    (AllFrom(10), OneNotMade(3), (true, true, false, Some(7)), 4),
];

/// Whether the script has the outcomes of a row, and makes so many calls of the inner disk.
fn is_so(alloc: Global, row: Row) -> bool {
    let (failing, inner, reported, passed) = row;
    let Ok(memory) = MemoryDisk::new(alloc, 3) else {
        return false;
    };
    let mut disk = FaultyDisk::new(FaultyDisk::new(memory, inner), failing);
    let other = other_step(&mut disk, &script(reported));
    let inner = disk.into_disk();
    let calls = inner.calls();
    drop(inner);
    other.is_none() && calls == passed
}

/// The index of the first row of which that isn't so, if there is one.
fn other_row(alloc: Global) -> Option<usize> {
    for (index, row) in ROWS.iter().enumerate() {
        if !is_so(alloc, *row) {
            return Some(index);
        }
    }
    None
}

#[test]
fn asks_once_of_the_inner_disk(rt: HostRuntime) {
    same(&rt, &other_row(rt.alloc()), &None);
}
