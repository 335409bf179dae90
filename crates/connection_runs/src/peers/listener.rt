//! A listener to which peers connect.
ghost use Rattle.http_listen.specs.Places.{peer_at};
ghost use Rattle.http_listen.specs.Stays.{AllStand};

use super::{Peer, Room, Stream, Watch, is_interrupted};
use http_listen::{Change, Places, Waits};
use std::cell::Cell;
use std::io::{self, ErrorKind};
use std::time::Duration;

/// How many connections may be open.
const MAX_OPEN: usize = 256;

/// How a number of accepts end.
#[derive(Clone, Copy)]
pub(super) struct Accepts {
    pub(super) count: usize,
    /// The error of Linux with which they fail: 0 if they don't, `NO_NUMBER` if it is none of the system.
    pub(super) error: i32,
}

const NO_NUMBER: i32 = -1;

/// A listener to which peers connect.
#[derive(Drop)]
pub(super) struct Listener<'a> {
    peers: &'a [Peer<'a>],
    accepted: Cell<usize>,
    accepts: &'a [Accepts],
    tried: Cell<usize>,
    /// How many peers were reported to have come.
    reported: Cell<usize>,
    /// How many more waits a signal interrupts.
    signals: Cell<u64>,
    /// When it stops, how many bytes all connections may hold, and how many reads each may make.
    room: Room,
    watch: Watch<'a>,
}

/// Reports a change of the stream at a key. Whether there is one.
fn report_change(key: usize, change: Option<Change>, places: &mut Places<Stream<'_>>) -> bool
    ensures { AllStand (peer_at places.old) (peer_at places.new) }
{
    match change {
        Some(change) => {
            places.report(key, change);
            true
        }
        None => false,
    }
}

impl<'a> Listener<'a> {
    pub(super) fn new(
        peers: &'a [Peer<'a>],
        accepts: &'a [Accepts],
        room: Room,
        watch: Watch<'a>,
    ) -> Self {
        Listener {
            peers,
            accepted: Cell::new(0),
            accepts,
            tried: Cell::new(0),
            reported: Cell::new(0),
            signals: Cell::new(2),
            room,
            watch,
        }
    }

    /// When the next peer connects that wasn't reported.
    fn next_comes(&self) -> u64 {
        match self.peers.get(self.reported.get()) {
            Some(peer) => peer.plan.comes,
            None => u64::MAX,
        }
    }

    /// Whether a peer has connected since that was reported.
    fn comes(&self, now: u64) -> bool {
        let before = self.reported.get();
        for _ in before..self.peers.len() {
            if self.next_comes() > now {
                break;
            }
            self.reported.set(self.reported.get().saturating_add(1));
        }
        self.reported.get() > before
    }

    /// Reports what the streams have become ready for. Returns `None` if one has, and otherwise when one may.
    fn report(&self, now: u64, places: &mut Places<Stream<'_>>) -> Option<u64>
        ensures { AllStand (peer_at places.old) (peer_at places.new) }
    {
        let mut any = false;
        let mut next = u64::MAX;
        'reports: for peer in self.peers {
            let Some(key) = peer.course.get().key else {
                continue;
            };
            let is_reported = report_change(key, peer.change(now), places);
            any = any || is_reported;
            next = next.min(peer.next(now));
        }
        if any { None } else { Some(next) }
    }

    /// The error of this accept, by how many were tried before it.
    fn error(&self, tried: usize) -> i32 {
        let mut left = tried;
        for Accepts { count, error } in self.accepts {
            if left < *count {
                return *error;
            }
            left = left.saturating_sub(*count);
        }
        0
    }

    /// Tries an accept: whether it fails.
    fn try_accept(&self) -> io::Result<()> {
        let tried = self.tried.get();
        self.tried.set(tried.saturating_add(1));
        match self.error(tried) {
            0 => Ok(()),
            NO_NUMBER => Err(ErrorKind::InvalidInput.into()),
            number => Err(io::Error::from_raw_os_error(number)),
        }
    }
}

impl<'a> Waits for Listener<'a> {
    type Stream = Stream<'a>;

    fn accept(&self) -> io::Result<Stream<'a>> {
        let watch = self.watch;
        let accepted = self.accepted.get();
        let peer = match self.peers.get(accepted) {
            Some(peer) if peer.plan.comes <= watch.now.get() => peer,
            _ => return Err(ErrorKind::WouldBlock.into()),
        };
        self.try_accept()?;
        self.accepted.set(accepted.saturating_add(1));
        Ok(Stream { peer, watch })
    }

    fn max_open(&self) -> usize {
        MAX_OPEN
    }

    fn max_held(&self) -> usize {
        self.room.held
    }

    fn max_reads(&self) -> u64 {
        self.room.reads
    }

    // Each step is a turn, so that others come in between: the clock stands still meanwhile.
    fn preparing_time(&self) -> Duration {
        Duration::ZERO
    }

    fn watch(&mut self, stream: &Self::Stream, key: usize, sends: bool) -> io::Result<()> {
        let peer = stream.peer;
        if peer.plan.is_unwatched {
            return Err(ErrorKind::StorageFull.into());
        }
        let mut course = peer.course.get();
        course.key = Some(key);
        course.sends = sends;
        course.reported = course.read;
        course.blocked = true;
        peer.course.set(course);
        Ok(())
    }

    fn wait(&mut self, longest: Duration, places: &mut Places<Self::Stream>) -> io::Result<bool> {
        if is_interrupted(&self.signals) {
            return Err(ErrorKind::Interrupted.into());
        }
        let milliseconds = u64::try_from(longest.as_millis()).unwrap_or(u64::MAX);
        let end = self.watch.now.get().saturating_add(milliseconds);
        'waits: for _ in 0..=milliseconds {
            let now = self.watch.now.get();
            let comes = self.comes(now);
            let Some(next) = self.report(now, places) else {
                return Ok(comes);
            };
            if comes || now >= end {
                return Ok(comes);
            }
            let next = next.min(self.next_comes()).min(end);
            self.watch.now.set(next.max(now.saturating_add(1)));
        }
        Ok(false)
    }

    fn stops(&self) -> bool {
        self.watch.now.get() >= self.room.stops
    }
}
