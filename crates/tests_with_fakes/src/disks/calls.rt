//! What a disk in a file asks of its file, over one that notes it.
use super::fakes::{Call, Fake, FakeFile, Notes};
use super::kind_of;
use super::steps::Step::{Begins, Count, Fills, Reads, ReadsNot, Syncs, SyncsNot, Writes};
use super::steps::{Step, other_step_in, sector_from};
use crate::wanted::same;
use file_disk::{FileDisk, Unknown, fill};
use std::cell::Cell;
use std::io::{self, ErrorKind};
use std::mem::size_of;

/// A file that notes its calls: a read and a write with their offset, and a write with its first byte. It has one sector's bytes, which it
/// gives to each read and a write replaces.
#[derive(Drop)]
struct NotedFile {
    notes: Notes,
    bytes: Cell<[u8; 512]>,
    /// The call that fails, by its number from 1 on.
    failing_call: usize,
}

impl Fake for NotedFile {
    fn read_at(&self, buf: &mut [u8], offset: u64) -> io::Result<usize> {
        self.call(("read", offset, 0))?;
        let bytes = self.bytes.get();
        let count = buf.len().min(512);
        buf[..count].copy_from_slice(&bytes[..count]);
        Ok(count)
    }

    fn write_at(&self, buf: &[u8], offset: u64) -> io::Result<usize> {
        let first = buf.first().copied().unwrap_or(99);
        self.call(("write", offset, u64::from(first)))?;
        let mut bytes = self.bytes.get();
        let count = buf.len().min(512);
        bytes[..count].copy_from_slice(&buf[..count]);
        self.bytes.set(bytes);
        Ok(count)
    }

    fn call(&self, call: Call) -> io::Result<()> {
        if self.notes.add(call) == self.failing_call {
            return Err(ErrorKind::Other.into());
        }
        Ok(())
    }
}

/// What is done over a disk in a new file, whose bytes are `sector_from` 7, and the calls of the file that this takes.
#[derive(Clone, Copy)]
struct Row {
    name: &'static str,
    /// The call that fails.
    failing_call: usize,
    bytes: u64,
    steps: &'static [Step],
    calls: &'static [Call],
}

const READ: Call = ("read", 0, 0);

const WRITE: Call = ("write", 0, 1);

const SYNC: Call = ("sync_data", 0, 0);

/// Of those that report a fault once: a write is made by the sync after it. If the file refuses it, reads still return its bytes, and it is
/// tried again before the next write.
static ROWS: [Row; 4] = [
    // Reads return what the file has, what was written to it last, and what is still buffered.
    Row {
        name: "asks_its_file",
        failing_call: 0,
        bytes: 2048,
        steps: &[
            Reads(3, 7),
            Writes(2, 8),
            Writes(0, 5),
            Syncs,
            Writes(2, 9),
            Reads(1, 5),
            Reads(2, 9),
        ],
        calls: &[
            ("read", 1536, 0),
            ("write", 1024, 8),
            ("write", 0, 5),
            ("sync_data", 0, 0),
            ("read", 512, 0),
        ],
    },
    Row {
        name: "reports_a_fault_once: of a read",
        failing_call: 1,
        bytes: 512,
        steps: &[
            ReadsNot(0),
            Fills(0, 1),
            Syncs,
            Count(1),
            Begins(0, 1),
            Fills(0, 1),
            Syncs,
        ],
        calls: &[READ, WRITE, SYNC, READ, WRITE, SYNC],
    },
    Row {
        name: "reports_a_fault_once: of a write",
        failing_call: 2,
        bytes: 512,
        steps: &[
            Begins(0, 7),
            Fills(0, 1),
            SyncsNot,
            Count(1),
            Begins(0, 1),
            Fills(0, 1),
            Syncs,
        ],
        calls: &[READ, WRITE, WRITE, WRITE, SYNC],
    },
    Row {
        name: "reports_a_fault_once: of a sync",
        failing_call: 3,
        bytes: 512,
        steps: &[
            Begins(0, 7),
            Fills(0, 1),
            SyncsNot,
            Count(1),
            Begins(0, 1),
            Fills(0, 1),
            Syncs,
        ],
        calls: &[READ, WRITE, SYNC, READ, WRITE, SYNC],
    },
];

/// Whether each step of a row has its outcome, and the file has those calls.
fn is_so(row: &Row) -> bool {
    let fake = NotedFile {
        notes: Notes::new(row.calls),
        bytes: Cell::new(sector_from(7)),
        failing_call: row.failing_call,
    };
    let step = other_step_in(&fake, row.bytes, row.steps);
    step.is_none() && fake.notes.are_as_wanted()
}

/// The name of the first row of which that isn't so, if there is one.
fn other_row() -> Option<&'static str> {
    for row in &ROWS {
        if !is_so(row) {
            return Some(row.name);
        }
    }
    None
}

#[test]
fn asks_its_file_and_reports_a_fault_once(rt: HostRuntime) {
    same(&rt, &other_row(), &None);
}

const SET_LEN: Call = ("set_len", 1536, 0);

const SYNC_ALL: Call = ("sync_all", 0, 0);

/// The call that fails, what filling a new file comes to, and the calls of the file.
static FILLINGS: [(usize, Result<(), ErrorKind>, &[Call]); 3] = [
    (0, Ok(()), &[SET_LEN, SYNC_ALL]),
    (1, Err(ErrorKind::Other), &[SET_LEN]),
    (2, Err(ErrorKind::Other), &[SET_LEN, SYNC_ALL]),
];

/// Whether filling a new file comes to this, by these calls of the file.
fn fills(failing_call: usize, outcome: Result<(), ErrorKind>, calls: &'static [Call]) -> bool {
    let fake = NotedFile {
        notes: Notes::new(calls),
        bytes: Cell::new([0; 512]),
        failing_call,
    };
    let filled = kind_of(fill(&FakeFile { fake: &fake }, 1536));
    filled == outcome && fake.notes.are_as_wanted()
}

/// The first failing call with another outcome, if there is one.
fn other_filling() -> Option<usize> {
    for (failing_call, outcome, calls) in &FILLINGS {
        if !fills(*failing_call, *outcome, calls) {
            return Some(*failing_call);
        }
    }
    None
}

#[test]
fn fills_and_syncs_a_new_file(rt: HostRuntime) {
    same(&rt, &other_filling(), &None);
}

/// A file of 8 bytes, the counts of sectors and faults, 16 bytes for the next sector, and two buffers of 64 sectors, each with its first
/// sector and its length. Nothing is left for the record of the file's calls.
#[test]
fn keeps_no_bytes_of_the_record(rt: HostRuntime) {
    same(
        &rt,
        &size_of::<FileDisk<u64, Unknown>>(),
        &(2 * 64 * 512 + 9 * 8),
    );
}
