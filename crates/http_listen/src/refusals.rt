//! Why a connection wasn't accepted.

use libc::{EMFILE, ENOMEM};
use std::io::{self, ErrorKind};

/// `ENFILE` of Linux: the system has no descriptor left.
const ENFILE: i32 = 23;

/// `EPROTO` of Linux: a connection failed before it was accepted.
const EPROTO: i32 = 71;

/// `ENOBUFS` of Linux: the system has no memory for a socket.
const ENOBUFS: i32 = 105;

/// What a failed accept means.
#[derive(Clone, Copy)]
pub(crate) enum Refusal {
    /// No connection has come.
    Empty,
    /// This one failed, or a signal came: the next may be accepted.
    Passing,
    /// Descriptors or memory ran out: a stream must be closed first.
    Full,
    /// The listener accepts no more.
    Final,
}

/// What an accept means that failed with this error. Linux's accept also returns what the network reported of that connection
/// (accept(2), error handling).
pub(crate) fn refusal_of(error: &io::Error) -> Refusal {
    match error.raw_os_error() {
        Some(EMFILE | ENFILE | ENOBUFS | ENOMEM) => return Refusal::Full,
        Some(EPROTO) => return Refusal::Passing,
        _ => {}
    }
    match error.kind() {
        ErrorKind::WouldBlock => Refusal::Empty,
        ErrorKind::ConnectionAborted
        | ErrorKind::ConnectionReset
        | ErrorKind::HostUnreachable
        | ErrorKind::Interrupted
        | ErrorKind::NetworkDown
        | ErrorKind::NetworkUnreachable
        | ErrorKind::TimedOut => Refusal::Passing,
        _ => Refusal::Final,
    }
}
