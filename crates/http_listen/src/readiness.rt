//! What is known of a stream that is watched.
ghost use Rattle.std.specs.Prelude.{◌≡◌, ◌||◌, true, false};

use crate::waits::Change;
use std::io::{self, ErrorKind};

/// Whether a call may succeed when it is repeated: nothing moved, or a signal interrupted it.
pub(crate) fn is_passing(error: &io::Error) -> bool {
    match error.kind() {
        ErrorKind::Interrupted | ErrorKind::WouldBlock => true,
        _ => false,
    }
}

/// What a stream may be ready for: a call that finds it otherwise returns `WouldBlock`.
#[derive(Clone, Copy)]
pub(crate) struct Readiness {
    /// Whether a read may return something.
    pub(crate) reads: bool,
    /// Whether a write may take something.
    pub(crate) writes: bool,
    /// Whether the peer sends no more than what can be read now.
    pub(crate) ends: bool,
}

impl Readiness {
    /// Nothing is known yet.
    pub(crate) fn new() -> Readiness
        ensures { result ≡ record { reads = true; writes = true; ends = false } }
    {
        Readiness {
            reads: true,
            writes: true,
            ends: false,
        }
    }

    /// A change was reported.
    pub(crate) fn changed(self, change: Change) -> Readiness
        ensures { result ≡ record { reads = self.reads || change.reads; writes = self.writes || change.writes; ends = self.ends || change.ends } }
    {
        Readiness {
            reads: self.reads || change.reads,
            writes: self.writes || change.writes,
            ends: self.ends || change.ends,
        }
    }

    /// A read returned as many bytes as it might, or fewer. If fewer, there are none until the poll reports the stream again (epoll(7),
    /// question 9). The end of the input isn't reported again once it was.
    pub(crate) fn read(self, is_full: bool) -> Readiness
        ensures { result ≡ record { reads = self.ends || is_full; writes = self.writes; ends = self.ends } }
    {
        Readiness {
            reads: self.ends || is_full,
            ..self
        }
    }
}
