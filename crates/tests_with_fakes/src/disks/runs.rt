//! How many sectors a disk in a file reads and writes by one call, over a file that notes it.
use super::fakes::{Call, Fake, Notes};
use super::steps::Step::{Begins, BeginsNumbered, Fills, FillsAll, FillsNot, Syncs, SyncsNot};
use super::steps::{Step, other_step_in};
use crate::wanted::same;
use std::io::{self, ErrorKind};

/// A file that notes its calls: a read and a write with their offset and their length. Each sector that it gives is filled with its number.
#[derive(Drop)]
struct NumberedFile {
    notes: Notes,
    /// Reads and writes of more bytes than these fail.
    most_read: usize,
    most_written: usize,
}

impl Fake for NumberedFile {
    fn read_at(&self, buf: &mut [u8], offset: u64) -> io::Result<usize> {
        self.notes.add(("read", offset, buf.len() as u64));
        if buf.len() > self.most_read {
            return Err(ErrorKind::Other.into());
        }
        let mut sector = offset / 512;
        for bytes in buf.chunks_mut(512) {
            bytes.fill((sector % 256) as u8);
            sector = sector.saturating_add(1);
        }
        Ok(buf.len())
    }

    fn write_at(&self, buf: &[u8], offset: u64) -> io::Result<usize> {
        self.notes.add(("write", offset, buf.len() as u64));
        if buf.len() > self.most_written {
            return Err(ErrorKind::Other.into());
        }
        Ok(buf.len())
    }

    fn call(&self, call: Call) -> io::Result<()> {
        self.notes.add(call);
        Ok(())
    }
}

/// What is done over a disk in a new file, and the calls of the file that this takes.
#[derive(Clone, Copy)]
struct Row {
    name: &'static str,
    /// Reads and writes of the file of more bytes than these fail.
    most: [usize; 2],
    sectors: u64,
    steps: &'static [Step],
    calls: &'static [Call],
}

/// No read and no write of a disk is longer.
const ANY: [usize; 2] = [32_768, 32_768];

static ROWS: [Row; 6] = [
    // The second of two consecutive sectors is read with the 7 after it, and then 64 at once, but none beyond the disk's end.
    Row {
        name: "reads_ahead",
        most: ANY,
        sectors: 131,
        steps: &[BeginsNumbered(0, 131)],
        calls: &[
            ("read", 0, 512),
            ("read", 512, 8 * 512),
            ("read", 9 * 512, 32_768),
            ("read", 73 * 512, 58 * 512),
        ],
    },
    // Where a read ahead fails, the sector is read alone.
    Row {
        name: "reads_one_where_more_fail",
        most: [512, 32_768],
        sectors: 100,
        steps: &[BeginsNumbered(3, 5)],
        calls: &[
            ("read", 3 * 512, 512),
            ("read", 4 * 512, 8 * 512),
            ("read", 4 * 512, 512),
        ],
    },
    // Writes are buffered while there is room, until one of another sector than the next, and until a sync.
    Row {
        name: "buffers_writes",
        most: ANY,
        sectors: 100,
        steps: &[FillsAll(10, 80, 7), Fills(5, 7), Syncs, Syncs],
        calls: &[
            ("write", 10 * 512, 32_768),
            ("write", 74 * 512, 6 * 512),
            ("write", 5 * 512, 512),
            ("sync_data", 0, 0),
            ("sync_data", 0, 0),
        ],
    },
    // What was read ahead is dropped once it is written over: the file of this test still gives its own bytes. Sectors 0 and 1 are read, and
    // so ahead, and sector 3 is read before and after a sync.
    Row {
        name: "drops_what_is_written_over",
        most: ANY,
        sectors: 100,
        steps: &[
            Begins(0, 0),
            Begins(1, 1),
            Fills(3, 9),
            Begins(3, 9),
            Syncs,
            Begins(3, 3),
        ],
        calls: &[
            ("read", 0, 512),
            ("read", 512, 8 * 512),
            ("write", 3 * 512, 512),
            ("sync_data", 0, 0),
            ("read", 3 * 512, 512),
        ],
    },
    // A read ahead asks for no sector that is buffered. Once sector 15 is written, the file is asked for it again.
    Row {
        name: "reads_ahead_beside_buffered_sectors",
        most: ANY,
        sectors: 200,
        steps: &[
            Fills(15, 9),
            Begins(10, 10),
            Begins(11, 11),
            Syncs,
            Begins(12, 12),
            Begins(15, 15),
        ],
        calls: &[
            ("read", 10 * 512, 512),
            ("read", 11 * 512, 512),
            ("write", 15 * 512, 512),
            ("sync_data", 0, 0),
            ("read", 12 * 512, 8 * 512),
        ],
    },
    // Sectors that the file refused are read as they were written, and the file isn't asked for them. A write of another sector tries them
    // again, and isn't done where they are refused again.
    Row {
        name: "keeps_what_the_file_refused",
        most: [32_768, 0],
        sectors: 200,
        steps: &[
            Fills(70, 9),
            Fills(71, 9),
            SyncsNot,
            FillsNot(3, 9),
            Begins(3, 3),
            Begins(69, 69),
            Begins(70, 9),
            Begins(71, 9),
            Begins(72, 72),
        ],
        calls: &[
            ("write", 70 * 512, 1024),
            ("write", 70 * 512, 1024),
            ("read", 3 * 512, 512),
            ("read", 69 * 512, 512),
            ("read", 72 * 512, 8 * 512),
        ],
    },
];

/// Whether each step of a row has its outcome, and the file has those calls.
fn is_so(row: &Row) -> bool {
    let [most_read, most_written] = row.most;
    let fake = NumberedFile {
        notes: Notes::new(row.calls),
        most_read,
        most_written,
    };
    let step = other_step_in(&fake, row.sectors.saturating_mul(512), row.steps);
    step.is_none() && fake.notes.are_as_wanted()
}

/// The name of the first row of which that isn't so, if there is one.
fn other_row() -> Option<&'static str> {
    for row in &ROWS {
        if !is_so(row) {
            return Some(row.name);
        }
    }
    None
}

#[test]
fn reads_and_writes_several_sectors_at_once(rt: HostRuntime) {
    same(&rt, &other_row(), &None);
}
