//! A disk file that fails, and what follows.

use crate::fault::Cause;
use crate::looks::Looks;
use crate::noted::note;
use crate::place::OpenPath;
use http_listen::{Places, Waits};
use std::cell::Cell;
use std::fmt::Display;
use std::io;
use std::time::Duration;

/// What is known of a disk file.
#[derive(Clone, Copy)]
pub(crate) enum Watch {
    /// Nothing: the command itself tells of a failure.
    Off,
    /// No write or sync has failed since it is watched.
    On,
    /// One has, or the file was lost, and that was told of: nothing more is written.
    Failed,
}

/// A disk file that is watched.
#[derive(Clone, Copy)]
pub(crate) struct Watched<'a> {
    /// Where the file was opened.
    pub(crate) place: OpenPath<'a>,
    pub(crate) watch: &'a Cell<Watch>,
}

impl Watched<'_> {
    /// Tells of a failure. Only the first one is told of.
    pub(crate) fn tell(&self, what: impl Display + Drop) {
        if matches!(self.watch.get(), Watch::On) {
            self.watch.set(Watch::Failed);
            let _ = eprintln!(self.place.rt; "vtserve: Device: {what}");
        }
    }

    /// Whether a write or a sync has failed, or the file was lost.
    pub(crate) fn has_failed(&self) -> bool {
        matches!(self.watch.get(), Watch::Failed)
    }

    /// Whether the file has failed, or was removed, replaced or cut since it was opened. The first time that is told of. A file that
    /// was put back remains lost.
    pub(crate) fn is_lost(&self) -> bool {
        if self.has_failed() {
            return true;
        }
        let Some(loss) = self.place.loss() else {
            return false;
        };
        self.tell(loss);
        true
    }
}

/// A listener that has the disk file looked at, and may stop once it has failed. It notes what the system said as a connection couldn't be
/// accepted or waited for.
#[derive(Drop)]
pub(crate) struct Halting<'a, 'b, L> {
    pub(crate) listener: L,
    /// Whether it stops then.
    pub(crate) halts: bool,
    /// What looks at the file while requests come.
    pub(crate) looks: &'a Looks<'b>,
    pub(crate) cause: &'a Cell<Cause>,
}

impl<L: Waits> Waits for Halting<'_, '_, L> {
    type Stream = L::Stream;

    fn accept(&self) -> io::Result<L::Stream> {
        note(self.cause, self.listener.accept())
    }

    fn max_open(&self) -> usize {
        self.listener.max_open()
    }

    fn watch(&mut self, stream: &L::Stream, key: usize, sends: bool) -> io::Result<()> {
        self.listener.watch(stream, key, sends)
    }

    fn wait(&mut self, longest: Duration, places: &mut Places<L::Stream>) -> io::Result<bool> {
        note(self.cause, self.listener.wait(longest, places))
    }

    fn stops(&self) -> bool {
        self.looks.look();
        self.halts && self.looks.has_failed()
    }
}
