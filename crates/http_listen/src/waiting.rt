//! What is done between two rounds of turns.
ghost use Rattle.http_listen.specs.Goes.{Goes};
ghost use Rattle.http_listen.specs.Places.{peer_at};

use crate::logs::Logs;
use crate::paces::nanoseconds_of;
use crate::peers::GivenUp;
use crate::places::List;
use crate::pool::{Pool, fails_too_often};
use crate::talks::Talks;
use crate::waits::Waits;
use std::io::ErrorKind;
use std::net::OpenStream;
use std::time::Duration;

/// The longest wait in seconds.
const MAX_WAIT_SECONDS: u64 = 60;

/// For how many seconds replies are still sent after the server is stopped.
const STOP_SECONDS: u64 = 1;

/// How many connections are accepted at most between two waits.
const MAX_ACCEPTS: usize = 64;

impl<S> Pool<S> {
    /// Whether a connection has come, or may have.
    fn may_come(&self) -> bool {
        self.comes || self.came.is_some()
    }

    /// Whether a connection is to be accepted, if one is wanted.
    pub(crate) fn may_accept(&self, now: Duration) -> bool {
        self.may_come() && self.accepts > 0 && self.crowded <= now
    }

    /// How long the connections are waited for at most.
    fn longest(&self, now: Duration, accepts: bool) -> Duration {
        if self.places.ends(List::Ready).count > 0 {
            return Duration::ZERO;
        }
        let look = Duration::from_nanos(self.deadlines.left(nanoseconds_of(now)));
        let mut longest = Duration::from_secs(MAX_WAIT_SECONDS).min(look);
        if accepts && self.may_come() {
            longest = longest.min(self.crowded.saturating_sub(now));
        }
        if let Some(since) = self.stops {
            let passed = now.saturating_sub(since);
            longest = longest.min(Duration::from_secs(STOP_SECONDS).saturating_sub(passed));
        }
        longest
    }
}

impl<S: Talks + OpenStream + Drop> Pool<S> {
    /// Ends one of the connections. Whether there was one.
    pub(crate) fn end_any<W: Logs<S>>(&mut self, now: Duration, log: &mut W) -> bool
        ensures goes { Goes S.told (W.marks log.old) (peer_at self.old.places) (W.marks log.new) (peer_at self.new.places) }
    {
        match self.places.any() {
            Some(key) => {
                self.end_at(now, key, GivenUp::Late, log);
                true
            }
            None => false,
        }
    }

    /// The time of the connection at a key is over: its request rests no longer, or the connection ends.
    fn late_at<W: Logs<S>>(&mut self, now: Duration, key: usize, log: &mut W)
        ensures goes { Goes S.told (W.marks log.old) (peer_at self.old.places) (W.marks log.new) (peer_at self.new.places) }
    {
        if self.places.rests(key) {
            self.places.wake(key);
            return;
        }
        self.end_at(now, key, GivenUp::Late, log);
    }

    /// Ends the connections whose peers have no time left and which may not have their turn. Those whose requests rest for as long as they may have
    /// their turn. All are looked at.
    fn end_late<W: Logs<S>>(&mut self, now: Duration, log: &mut W)
        ensures goes { Goes S.told (W.marks log.old) (peer_at self.old.places) (W.marks log.new) (peer_at self.new.places) }
    {
        let time = nanoseconds_of(now);
        self.deadlines.begin_look(time, self.places.count());
        'looks: for key in 0..self.places.key_bound() {
            let deadline = match self.places.get(key) {
                Some(peer) if peer.list(key) != List::Ready => peer.deadline(),
                _ => continue,
            };
            if deadline <= time {
                self.late_at(now, key, log);
            } else {
                self.deadlines.note(deadline);
            }
        }
    }

    /// Ends the connections of a server that stops, but for those whose replies are still sent. If there may be one, all are looked at.
    pub(crate) fn end_stopped<W: Logs<S>>(&mut self, now: Duration, log: &mut W)
        ensures goes { Goes S.told (W.marks log.old) (peer_at self.old.places) (W.marks log.new) (peer_at self.new.places) }
    {
        let since = self.stops.unwrap_or(now);
        self.stops = Some(since);
        let over = now.saturating_sub(since) >= Duration::from_secs(STOP_SECONDS);
        if !over && !self.may_stop {
            return;
        }
        self.may_stop = false;
        'ends: for key in 0..self.places.key_bound() {
            match self.places.get(key) {
                Some(peer) if over || !peer.sends() => {}
                _ => continue,
            }
            self.end_at(now, key, GivenUp::Late, log);
            self.end_at(now, key, GivenUp::Late, log);
        }
    }

    /// Has the streams watched of those that wait for something new. One that can't be watched is ended.
    fn watch_all<L: Waits<Stream = S>, W: Logs<S>>(
        &mut self,
        now: Duration,
        listener: &mut L,
        log: &mut W,
    )
        ensures goes { Goes S.told (W.marks log.old) (peer_at self.old.places) (W.marks log.new) (peer_at self.new.places) }
    {
        'watches: for _ in 0..self.places.ends(List::Unwatched).count {
            let Some(key) = self.places.ends(List::Unwatched).first else {
                return;
            };
            if !self.places.watch(key, listener) {
                self.end_at(now, key, GivenUp::Late, log);
            }
        }
    }

    /// Ends connections while all hold more bytes than they may: each time the one that has waited longest for its peer. If none waits, nothing
    /// is done. Requests that rest are answered.
    pub(crate) fn give_space<L: Waits<Stream = S>, W: Logs<S>>(
        &mut self,
        now: Duration,
        listener: &mut L,
        log: &mut W,
    )
        ensures goes { Goes S.told (W.marks log.old) (peer_at self.old.places) (W.marks log.new) (peer_at self.new.places) }
    {
        if !self.is_full() {
            return;
        }
        // Requests that rest hold memory: they are answered instead.
        self.places.wake_resting();
        // Those that wait are in the list of those that do, in this order.
        self.watch_all(now, listener, log);
        'ends: for _ in 0..self.places.ends(List::Busy).count {
            let Some(key) = self.places.ends(List::Busy).first else {
                return;
            };
            if !self.is_full() {
                return;
            }
            self.end_at(now, key, GivenUp::Held, log);
        }
    }

    /// Waits for the connections, and for new ones. A connection whose peer has no time left is ended, and one of them if they can't be
    /// waited for. Returns `false` if there is none then.
    pub(crate) fn wait<L: Waits<Stream = S>, W: Logs<S>>(
        &mut self,
        now: Duration,
        listener: &mut L,
        accepts: bool,
        log: &mut W,
    ) -> bool
        ensures goes { Goes S.told (W.marks log.old) (peer_at self.old.places) (W.marks log.new) (peer_at self.new.places) }
    {
        self.watch_all(now, listener, log);
        let longest = self.longest(now, accepts);
        let outcome = listener.wait(longest, &mut self.places);
        self.round = self.places.ends(List::Ready).count;
        self.step_time.begin_round();
        self.accepts = MAX_ACCEPTS;
        match outcome {
            Ok(comes) => {
                self.failed_waits = 0;
                self.comes = self.comes || comes;
            }
            Err(error) => {
                let passes = error.kind() == ErrorKind::Interrupted
                    && !fails_too_often(&mut self.failed_waits);
                return passes || self.end_any(now, log);
            }
        }
        if self.deadlines.left(nanoseconds_of(now)) == 0 {
            self.end_late(now, log);
        }
        true
    }
}
