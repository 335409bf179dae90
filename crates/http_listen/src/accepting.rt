//! New connections, and what makes room for them.
ghost use Rattle.std.specs.Prelude.{◌≡◌, IsTrue, IfSome, IsSome, None};
ghost use Rattle.http_listen.specs.Found.{IsReady};
ghost use Rattle.http_listen.specs.Goes.{Goes, hand_of};
ghost use Rattle.http_listen.specs.Places.{peer_at};
ghost use Rattle.http_listen.specs.Ways.{MayGiveWay};

use crate::logs::Logs;
use crate::peers::GivenUp;
use crate::places::List;
use crate::pool::{Found, Pool, fails_too_often};
use crate::refusals::{Refusal, refusal_of};
use crate::talks::Talks;
use crate::waits::{MAX_OPEN, Waits};
use std::io;
use std::net::OpenStream;
use std::time::Duration;

/// How many milliseconds a new connection waits until it is looked again whether there is room for it.
const QUEUE_MILLISECONDS: u64 = 10;

/// How many connections that may not be closed are looked at in a millisecond: a look at more of them isn't repeated at once.
const LOOKS_A_MILLISECOND: u64 = 100;

/// The connection that was accepted before, if there was no room for it, or the next one.
fn next_stream<L: Waits>(came: &mut Option<L::Stream>, listener: &L) -> io::Result<L::Stream> {
    match came.take() {
        Some(stream) => Ok(stream),
        None => listener.accept(),
    }
}

/// Which connection is closed for one that comes, if one may be, and how many were looked at before that may not.
#[derive(Clone, Copy)]
struct GivingWay {
    key: Option<usize>,
    passed: usize,
}

impl GivingWay {
    /// How long it is until the next look.
    fn pause(self) -> Duration {
        let pause = Duration::from_millis(self.passed as u64 / LOOKS_A_MILLISECOND);
        match self.key {
            Some(_) => pause,
            None => pause.max(Duration::from_millis(QUEUE_MILLISECONDS)),
        }
    }
}

impl<S> Pool<S> {
    /// Whether the connection at a key may be closed for one that comes.
    fn gives_way(&self, key: usize, now: Duration) -> bool
        ensures { IsTrue result → IfSome (peer_at self.now.places key) MayGiveWay }
    {
        match self.places.get(key) {
            Some(peer) => peer.may_give_way(now),
            None => false,
        }
    }

    /// The first connection of a list that may be closed for one that comes, among this many from its beginning.
    fn first_giving_way(&self, list: List, most: usize, now: Duration) -> GivingWay
        ensures { IfSome result.key (λ key. IfSome (peer_at self.now.places key) MayGiveWay) }
    {
        let mut next = self.places.ends(list).first;
        'looks: for passed in 0..most {
            let Some(key) = next else {
                return GivingWay { key: None, passed };
            };
            if self.gives_way(key, now) {
                return GivingWay {
                    key: Some(key),
                    passed,
                };
            }
            next = self.places.after(key);
        }
        GivingWay {
            key: None,
            passed: most,
        }
    }

    /// The connection that is closed for one that comes: one that has ended, or else the one that has waited longest for the first bytes of a request, if
    /// that is a second, or else the one that has waited longest for its peer of those that have begun a request ten seconds ago.
    fn giving_way(&self, now: Duration) -> GivingWay
        ensures { IfSome result.key (λ key. IfSome (peer_at self.now.places key) MayGiveWay) }
    {
        let ended = self.first_giving_way(List::Ended, 1, now);
        if ended.key.is_some() {
            return ended;
        }
        let idle = self.first_giving_way(List::Idle, 1, now);
        if idle.key.is_some() {
            return idle;
        }
        let most = self.places.ends(List::Busy).count;
        self.first_giving_way(List::Busy, most, now)
    }
}

impl<S: Talks + OpenStream + Drop> Pool<S> {
    /// Closes a connection for one that has come, if one may be closed. Otherwise the new one waits until `crowded`.
    fn give_way<L: Waits<Stream = S>, W: Logs<S>>(
        &mut self,
        now: Duration,
        listener: &mut L,
        log: &mut W,
    )
        ensures goes { Goes S.told (W.marks log.old) (peer_at self.old.places) (W.marks log.new) (peer_at self.new.places) }
    {
        let pause = Duration::from_millis(QUEUE_MILLISECONDS);
        self.crowded = now.saturating_add(pause);
        if listener.wait(Duration::ZERO, &mut self.places).is_err() {
            return;
        }
        let giving = self.giving_way(now);
        self.crowded = now.saturating_add(giving.pause());
        if let Some(key) = giving.key {
            self.end_at(now, key, GivenUp::Late, log);
        }
    }

    /// What follows if a connection wasn't accepted. Returns `false` if no more are served.
    fn refused<L: Waits<Stream = S>, W: Logs<S>>(
        &mut self,
        now: Duration,
        listener: &mut L,
        refusal: Refusal,
        log: &mut W,
    ) -> bool
        ensures goes { Goes S.told (W.marks log.old) (peer_at self.old.places) (W.marks log.new) (peer_at self.new.places) }
    {
        match refusal {
            Refusal::Empty => {
                self.failed_accepts = 0;
                self.comes = false;
                true
            }
            Refusal::Passing if !fails_too_often(&mut self.failed_accepts) => true,
            Refusal::Full if self.places.count() > 0 => {
                self.give_way(now, listener, log);
                true
            }
            _ => self.end_any(now, log),
        }
    }

    /// Accepts a connection. If there is no room for it, it waits until there is, and one that is open may be ended for it.
    pub(crate) fn accept<L: Waits<Stream = S>, W: Logs<S>>(
        &mut self,
        now: Duration,
        listener: &mut L,
        log: &mut W,
    ) -> Found<S>
        ensures ready { IsReady self.new.fields result }
        ensures goes { Goes S.told (W.marks log.old) (peer_at self.old.places) (W.marks log.new) (peer_at self.new.places) }
        ensures none { hand_of result ≡ None }
    {
        self.accepts = self.accepts.saturating_sub(1);
        let refusal = match next_stream(&mut self.came, listener) {
            Ok(stream) => {
                self.failed_accepts = 0;
                if self.places.count() < listener.max_open().min(MAX_OPEN) {
                    return Found::New(stream);
                }
                self.came = Some(stream);
                self.give_way(now, listener, log);
                return Found::Nothing;
            }
            Err(error) => refusal_of(&error),
        };
        if self.refused(now, listener, refusal, log) {
            Found::Nothing
        } else {
            Found::Over
        }
    }
}
