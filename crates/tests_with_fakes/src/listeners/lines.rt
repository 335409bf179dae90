//! The lines of the log.
use crate::wanted::same;
use http_listen::{EndFault, write_line};
use http_serve::{End, Served};
use std::alloc::Global;

/// The number of a connection, how many replies it had before its last stretch, what that came to, and its line.
type Row = (u64, u64, Result<Served, EndFault>, &'static str);

static ROWS: [Row; 10] = [
    (
        1,
        0,
        Ok(Served {
            requests: 0,
            end: End::Closed,
        }),
        "connection 1: 0 requests, closed\n",
    ),
    (
        2,
        0,
        Ok(Served {
            requests: 1,
            end: End::Asked,
        }),
        "connection 2: 1 requests, asked\n",
    ),
    (
        10,
        7,
        Ok(Served {
            requests: 5,
            end: End::Refused,
        }),
        "connection 10: 12 requests, refused\n",
    ),
    (
        99,
        1,
        Ok(Served {
            requests: u64::MAX,
            end: End::Turns,
        }),
        "connection 99: 18446744073709551615 requests, turns\n",
    ),
    (
        u64::MAX,
        3,
        Err(EndFault::Memory),
        "connection 18446744073709551615: 3 requests, memory\n",
    ),
    (
        3,
        1,
        Err(EndFault::Read { requests: 3 }),
        "connection 3: 4 requests, read\n",
    ),
    (
        4,
        0,
        Err(EndFault::Write { requests: 5 }),
        "connection 4: 5 requests, write\n",
    ),
    (
        5,
        2,
        Err(EndFault::Device { requests: 4 }),
        "connection 5: 6 requests, device\n",
    ),
    (
        6,
        7,
        Err(EndFault::Gone { requests: 0 }),
        "connection 6: 7 requests, gone\n",
    ),
    (
        7,
        1,
        Err(EndFault::Unconfirmed { requests: 0 }),
        "connection 7: 1 requests, unconfirmed\n",
    ),
];

/// Whether the line of a connection is as its row says.
fn is_line(alloc: Global, row: &Row) -> bool {
    let (number, earlier, outcome, line) = *row;
    let mut log = Vec::new(alloc);
    let written = write_line(&mut log, number, earlier, outcome).is_ok();
    written && log.as_slice() == line.as_bytes()
}

/// The number of the first connection that has another line.
fn other_line(alloc: Global) -> Option<u64> {
    for row in &ROWS {
        if !is_line(alloc, row) {
            return Some(row.0);
        }
    }
    None
}

#[test]
fn each_end_has_its_word(rt: HostRuntime) {
    same(&rt, &other_line(rt.alloc()), &None);
}
