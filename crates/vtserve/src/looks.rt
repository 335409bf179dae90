//! Looks at the place of a disk file from time to time.

use crate::watching::{Watch, Watched};
use std::cell::Cell;
use std::time::{Clock, Duration};

/// How many seconds it is at least from one look to the next.
const SECONDS_BETWEEN: u64 = 60;

/// A disk file that is served, and whose place is looked at from time to time.
#[derive(Drop)]
pub(crate) struct Looks<'a> {
    /// The file, if the disk is in a file.
    watched: Option<Watched<'a>>,
    /// When the place was looked at last, by the monotonic clock.
    last: Cell<Duration>,
}

impl<'a> Looks<'a> {
    /// No look was taken yet.
    pub(crate) fn new(watched: Option<Watched<'a>>) -> Looks<'a> {
        Looks {
            watched,
            last: Cell::new(Duration::ZERO),
        }
    }

    /// Has failures told of from now on.
    pub(crate) fn begin(&self) {
        if let Some(watched) = self.watched {
            watched.watch.set(Watch::On);
        }
    }

    /// Whether a write or a sync has failed, or the file was lost.
    pub(crate) fn has_failed(&self) -> bool {
        match self.watched {
            Some(watched) => watched.has_failed(),
            None => false,
        }
    }

    /// Whether the last look was a while ago. If it was, now is the time of the last one.
    fn is_due(&self, rt: &HostRuntime) -> bool {
        let now = rt.monotonic().unwrap_or(Duration::ZERO);
        let is_due = now.saturating_sub(self.last.get()) >= Duration::from_secs(SECONDS_BETWEEN);
        if is_due {
            self.last.set(now);
        }
        is_due
    }

    /// Looks at the place if the last look was a while ago. A file that was lost is told of, if no failure was before.
    pub(crate) fn look(&self) {
        if let Some(watched) = self.watched {
            if self.is_due(watched.place.rt) {
                let _ = watched.is_lost();
            }
        }
    }
}
