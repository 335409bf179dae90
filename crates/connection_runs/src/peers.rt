//! Peers that connect to a listener and act at times, over a clock that waits move on.
ghost use Rattle.std.specs.Prelude.{◌≤◌, length};

mod gathered;
mod lines;
mod listener;
mod serving;

pub(crate) use gathered::{Gathered, Room};
use http_listen::{Change, Talks};
pub(crate) use lines::{OfPeer, gather, room_in};
pub(crate) use serving::{Serving, serve_peers};
use std::alloc::{AllocError, Global};
use std::cell::{Cell, RefCell};
use std::io::{self, ErrorKind};
use std::net::{OpenStream, Shutdown};
use std::time::{Clock, Duration};

/// A clock in milliseconds.
#[derive(Clone, Copy)]
struct Watch<'a> {
    now: &'a Cell<u64>,
}

impl Clock for Watch<'_> {
    fn monotonic(&self) -> io::Result<Duration> {
        Ok(Duration::from_millis(self.now.get()))
    }

    fn since_1970(&self) -> io::Result<Duration> {
        self.monotonic()
    }
}

/// What a peer does.
#[derive(Clone, Copy)]
pub(crate) enum Does {
    /// It sends these of the bytes that all peers send.
    Sends { from: usize, to: usize },
    /// It ends its side.
    Ends,
    /// It sends bytes without end.
    Floods,
}

/// What a peer does at a time.
#[derive(Clone, Copy)]
struct Act {
    at: u64,
    does: Does,
}

/// What is set of a peer.
#[derive(Clone, Copy)]
pub(crate) struct Plan {
    /// When it connects.
    pub(crate) comes: u64,
    /// How many bytes it takes at once, and in each tenth of a second after that.
    pub(crate) quick: usize,
    pub(crate) rate: usize,
    /// Whether nothing of its stream can be set.
    is_stubborn: bool,
    /// Whether its stream can't be watched.
    is_unwatched: bool,
    /// Which of all acts are its own.
    first: usize,
    behind: usize,
}

impl Plan {
    /// A peer that does nothing.
    pub(crate) fn new(comes: u64, quick: usize, rate: usize) -> Plan {
        Plan {
            comes,
            quick,
            rate,
            is_stubborn: false,
            is_unwatched: false,
            first: 0,
            behind: 0,
        }
    }
}

/// What a peer has come to.
#[derive(Clone, Copy)]
struct Course {
    /// When the last byte came.
    last: u64,
    /// Whether its stream was read before it was set up, or its bytes were dropped before the server had ended its side.
    is_early: bool,
    /// How many acts were read, and how many bytes of the next one.
    read: usize,
    part: usize,
    /// Whether small replies go out at once, its calls return at once, and the server has ended its side.
    no_delay: bool,
    at_once: bool,
    shut: bool,
    /// How many of its bytes without end were read.
    dropped: usize,
    /// The key by which its stream is watched, and whether that is so for sending too.
    key: Option<usize>,
    sends: bool,
    /// How many acts were reported, and whether it is to be reported when it takes bytes again.
    reported: usize,
    blocked: bool,
}

/// Before a peer connects.
const BEGUN: Course = Course {
    last: 0,
    is_early: false,
    read: 0,
    part: 0,
    no_delay: false,
    at_once: false,
    shut: false,
    dropped: 0,
    key: None,
    sends: false,
    reported: 0,
    blocked: false,
};

/// A peer.
#[derive(Drop)]
struct Peer<'a> {
    plan: Plan,
    acts: &'a [Act],
    /// What all peers send.
    bytes: &'a [u8],
    /// What it has got.
    got: RefCell<Vec<u8>>,
    course: Cell<Course>,
    /// How many more calls of its stream a signal interrupts.
    signals: Cell<u64>,
}

/// Whether a signal interrupts a call, of which this many are interrupted.
fn is_interrupted(signals: &Cell<u64>) -> bool {
    let left = signals.get();
    signals.set(left.saturating_sub(1));
    left > 0
}

/// Gives as many of these bytes as there is room for.
fn give(bytes: &[u8], buf: &mut [u8]) -> usize
    ensures { result ≤ length buf.new }
{
    let count = buf.len().min(bytes.len());
    buf[..count].copy_from_slice(&bytes[..count]);
    count
}

impl<'a> Peer<'a> {
    fn new(alloc: Global, plan: Plan, acts: &'a [Act], bytes: &'a [u8]) -> Self {
        Peer {
            plan,
            acts: acts.get(plan.first..plan.behind).unwrap_or(&[]),
            bytes,
            got: RefCell::new(Vec::new(alloc)),
            course: Cell::new(BEGUN),
            signals: Cell::new(2),
        }
    }

    /// What its act of this number does, if it has come by now.
    fn done(&self, number: usize, now: u64) -> Option<Does> {
        match self.acts.get(number) {
            Some(act) if act.at <= now => Some(act.does),
            _ => None,
        }
    }

    /// How many bytes it can take now.
    fn space(&self, now: u64) -> usize {
        let later = self.plan.rate.saturating_mul((now / 100) as usize);
        let all = self.plan.quick.saturating_add(later);
        match self.got.try_borrow() {
            Ok(got) => all.saturating_sub(got.len()),
            Err(_) => all,
        }
    }

    /// How many of its acts have come by now, and whether the last one of them ends its side.
    fn come(&self, now: u64) -> (usize, bool) {
        let mut count: usize = 0;
        let mut ends = false;
        for act in self.acts {
            if act.at > now {
                break;
            }
            count = count.saturating_add(1);
            ends = matches!(act.does, Does::Ends);
        }
        (count, ends)
    }

    /// What its stream has become ready for since that was reported.
    fn change(&self, now: u64) -> Option<Change> {
        let (count, ends) = self.come(now);
        let mut course = self.course.get();
        let reads = count > course.reported;
        let writes = course.sends && course.blocked && self.space(now) > 0;
        course.reported = count;
        if writes {
            course.blocked = false;
        }
        self.course.set(course);
        let change = Change {
            reads,
            writes,
            ends,
        };
        if reads || writes { Some(change) } else { None }
    }

    /// When there may be another change, after this time.
    fn next(&self, now: u64) -> u64 {
        let course = self.course.get();
        let act = match self.acts.get(course.reported) {
            Some(act) => act.at,
            None => u64::MAX,
        };
        if course.sends && course.blocked {
            act.min((now / 100).saturating_add(1).saturating_mul(100))
        } else {
            act
        }
    }

    /// Bytes that it sends are read. If its present act was read whole and more bytes have come, that is reported again. Of the end
    /// `Change::ends` has told.
    fn give_bytes(&self, now: u64, from: usize, to: usize, buf: &mut [u8]) -> usize
        ensures { result ≤ length buf.new }
    {
        let mut course = self.course.get();
        let begun = from.saturating_add(course.part);
        let rest = self.bytes.get(begun..to).unwrap_or(&[]);
        let count = give(rest, buf);
        if count < rest.len() {
            course.part = course.part.saturating_add(count);
        } else {
            course.part = 0;
            course.read = course.read.saturating_add(1);
            match self.done(course.read, now) {
                None | Some(Does::Ends) => {}
                Some(_) => course.reported = course.read,
            }
        }
        self.course.set(course);
        count
    }

    /// Bytes that it sends without end are dropped. That is early before the server has ended its side.
    fn drop_bytes(&self, count: usize) {
        let mut course = self.course.get();
        course.is_early = course.is_early || !course.shut;
        course.dropped = course.dropped.saturating_add(count);
        self.course.set(course);
    }

    /// It gets bytes.
    fn take(&self, bytes: &[u8]) -> Result<(), AllocError> {
        match self.got.try_borrow_mut() {
            Ok(mut got) => got.extend_from_slice(bytes),
            Err(_) => Err(AllocError),
        }
    }
}

/// The stream of a peer.
#[derive(Clone, Copy)]
struct Stream<'a> {
    peer: &'a Peer<'a>,
    watch: Watch<'a>,
}

impl Talks for Stream<'_> {
    fn receive(&mut self, buf: &mut [u8]) -> io::Result<usize> {
        let peer = self.peer;
        let mut course = peer.course.get();
        let is_set = course.no_delay && course.at_once;
        course.is_early = course.is_early || !(is_set || peer.plan.is_stubborn);
        peer.course.set(course);
        if is_interrupted(&peer.signals) {
            return Err(ErrorKind::Interrupted.into());
        }
        let now = self.watch.now.get();
        match peer.done(course.read, now) {
            None => Err(ErrorKind::WouldBlock.into()),
            Some(Does::Ends) => Ok(0),
            Some(Does::Sends { from, to }) => Ok(peer.give_bytes(now, from, to, buf)),
            Some(Does::Floods) => {
                peer.drop_bytes(buf.len());
                Ok(buf.len())
            }
        }
    }

    fn send(&mut self, front: &[u8], behind: &[u8]) -> io::Result<usize> {
        let peer = self.peer;
        if is_interrupted(&peer.signals) {
            return Err(ErrorKind::Interrupted.into());
        }
        let now = self.watch.now.get();
        let size = front.len().saturating_add(behind.len());
        let count = peer.space(now).min(size);
        let mut course = peer.course.get();
        course.blocked = count < size;
        if count > 0 {
            course.last = now;
        }
        peer.course.set(course);
        if count == 0 {
            return Err(ErrorKind::WouldBlock.into());
        }
        let first = count.min(front.len());
        peer.take(&front[..first])?;
        peer.take(&behind[..count - first])?;
        peer.signals.set(1);
        Ok(count)
    }
}

impl Stream<'_> {
    /// Something of a stream is set, unless it is stubborn.
    fn set(&self, course: Course) -> io::Result<()> {
        if self.peer.plan.is_stubborn {
            return Err(ErrorKind::PermissionDenied.into());
        }
        self.peer.course.set(course);
        Ok(())
    }
}

impl OpenStream for Stream<'_> {
    fn shutdown(&self, how: Shutdown) -> io::Result<()> {
        let mut course = self.peer.course.get();
        course.shut = how == Shutdown::Write;
        self.set(course)
    }

    fn set_nodelay(&self, nodelay: bool) -> io::Result<()> {
        let mut course = self.peer.course.get();
        course.no_delay = nodelay;
        self.set(course)
    }

    fn set_nonblocking(&self, nonblocking: bool) -> io::Result<()> {
        let mut course = self.peer.course.get();
        course.at_once = nonblocking;
        self.set(course)
    }
}
