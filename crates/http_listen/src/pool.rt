//! The open connections, and whose turn it is.
ghost use Rattle.std.specs.Prelude.{◌≡◌, ◌≢◌, ℕ, IfSome, None, Some, ⊤, true};
ghost use Rattle.http_listen.specs.declared.pool.Found.{Found};
ghost use Rattle.http_listen.specs.declared.pool.Found.TheVariants.{New};
ghost use Rattle.http_listen.specs.Found.{IsReady};
ghost use Rattle.http_listen.specs.Goes.{Goes, Passes, hand_in, hand_of};
ghost use Rattle.http_listen.specs.Places.{peer_at};
ghost use Rattle.http_listen.specs.LetsGo.{KeepsHolds, LetsGo};
ghost use Rattle.http_listen.specs.Stays.{AllStand};

use crate::deadlines::Deadlines;
use crate::logs::Logs;
use crate::peers::{Ending, GivenUp, PIECE, Peer};
use crate::places::{List, Places};
use crate::rests::Unsent;
use crate::step_time::StepTime;
use crate::talks::Talks;
use crate::turns::Next;
use crate::waits::Waits;
use http_requests::{FieldSpans, NO_FIELDS};
use http_serve::{Asked, Preparation, Spare};
use std::alloc::Global;
use std::net::OpenStream;
use std::time::{Clock, Duration};

/// An answer that takes at least as many seconds takes nothing off the time of other peers.
const LONG_ANSWER_SECONDS: u64 = 1;

/// How many accepts or waits in a row may fail for a cause that passes.
const MAX_FAILURES: u64 = 1_000;

/// Counts a failure whose cause passes. Whether there were too many in a row.
pub(crate) fn fails_too_often(failures: &mut u64) -> bool {
    *failures = failures.saturating_add(1);
    *failures > MAX_FAILURES
}

/// The time of the monotonic clock, or 0 if it can't be read.
pub(crate) fn time_of<C: Clock>(clock: &C) -> Duration {
    clock.monotonic().unwrap_or(Duration::ZERO)
}

/// What is to be done.
#[derive(Drop)]
pub(crate) enum Found<S> {
    /// A connection was accepted.
    New(S),
    /// The first bytes of a connection's input are to be answered. The header fields of a request are at `Pool::fields`.
    Asks(Box<Peer<S>>, Asked),
    /// The next part of a content is to be read.
    Reads(Box<Peer<S>>, Unsent),
    /// Nothing in this step.
    Nothing,
    /// Nothing any more.
    Over,
}

/// The open connections, and those that have ended, whose peers may still send.
#[derive(Drop)]
pub(crate) struct Pool<S> {
    alloc: Global,
    pub(crate) places: Places<S>,
    /// How many bytes they may hold.
    max_held: usize,
    /// How many reads each of them may make.
    max_reads: u64,
    /// How many requests may rest.
    max_resting: usize,
    /// How long a turn goes on with steps of the preparation of a reply.
    pub(crate) step_time: StepTime,
    /// What each read is made into. It has nothing of an earlier one that anybody reads.
    piece: [u8; PIECE],
    /// Where the header fields of the request are that was found last.
    pub(crate) fields: FieldSpans,
    /// Room for the head of one reply, for which memory runs out.
    pub(crate) spare: Spare,
    /// How many of those that may have their turn have it before the next wait.
    pub(crate) round: usize,
    /// How many connections are accepted at most before the next wait.
    pub(crate) accepts: usize,
    /// Whether a connection may have come.
    pub(crate) comes: bool,
    /// One that was accepted, and for which there is no room yet.
    pub(crate) came: Option<S>,
    /// Until when there is no room for another one.
    pub(crate) crowded: Duration,
    pub(crate) deadlines: Deadlines,
    /// How many accepts in a row have failed for a cause that passes, and how many waits.
    pub(crate) failed_accepts: u64,
    pub(crate) failed_waits: u64,
    /// The time that was spent on long answers, during which no peer is waited for.
    spent: Duration,
    /// Since when the server stops.
    pub(crate) stops: Option<Duration>,
    /// Whether a connection may have ended its replies since then.
    pub(crate) may_stop: bool,
    /// The handler's mark and what it confirms, as they were last.
    mark: u64,
    confirmed: u64,
}

impl<S> Pool<S> {
    /// No connection is open. All together may hold this many bytes, each may make this many reads, this many may rest, and a turn goes on this long
    /// at least with steps of a preparation.
    pub(crate) fn new(
        alloc: Global,
        max_held: usize,
        max_reads: u64,
        max_resting: usize,
        preparing_time: Duration,
    ) -> Self
        ensures { (key : ℕ) → peer_at result.places key ≡ None }
    {
        Pool {
            alloc,
            places: Places::new(alloc),
            max_held,
            max_reads,
            max_resting,
            step_time: StepTime::new(preparing_time),
            piece: [0; PIECE],
            fields: NO_FIELDS,
            spare: Spare::new(alloc),
            round: 0,
            accepts: 0,
            comes: false,
            came: None,
            crowded: Duration::ZERO,
            deadlines: Deadlines::new(),
            failed_accepts: 0,
            failed_waits: 0,
            spent: Duration::ZERO,
            stops: None,
            may_stop: false,
            mark: 0,
            confirmed: 0,
        }
    }

    /// The time by which peers are waited for.
    pub(crate) fn now<C: Clock>(&self, clock: &C) -> Duration {
        time_of(clock).saturating_sub(self.spent)
    }

    /// An answer was made since this time of the clock. If it took long, its time doesn't count. Returns the time by which peers are waited for.
    pub(crate) fn spend<C: Clock>(&mut self, clock: &C, since: Duration) -> Duration
        ensures { self.new.places ≡ self.old.places }
    {
        let time = time_of(clock);
        let passed = time.saturating_sub(since);
        if passed >= Duration::from_secs(LONG_ANSWER_SECONDS) {
            self.spent = self.spent.saturating_add(passed);
        }
        time.saturating_sub(self.spent)
    }

    /// Whether the connections hold more than they may.
    pub(crate) fn is_full(&self) -> bool {
        self.places.held > self.max_held
    }

    /// Whether a connection whose last step came to this has another turn before it is answered. No more requests rest than may, and none while all
    /// connections hold too much.
    pub(crate) fn puts_off(&self, prepared: Preparation) -> bool {
        match prepared {
            Preparation::Ready => false,
            Preparation::GoesOn | Preparation::Waits => true,
            Preparation::Rests(_) => {
                self.places.ends(List::Resting).count < self.max_resting && !self.is_full()
            }
        }
    }

    /// Wakes the connections that rest if the handler's mark is another one.
    fn wake_marked(&mut self, mark: u64)
        ensures stands { AllStand (peer_at self.old.places) (peer_at self.new.places) }
        ensures holds { KeepsHolds (peer_at self.old.places) (peer_at self.new.places) }
    {
        if mark == self.mark {
            return;
        }
        self.mark = mark;
        self.places.wake_resting();
    }

    /// Has the replies sent that wait for no more than this, if it is another number.
    fn release(&mut self, confirmed: u64)
        ensures stands { AllStand (peer_at self.old.places) (peer_at self.new.places) }
        ensures lets_go { LetsGo confirmed (peer_at self.old.places) (peer_at self.new.places) }
    {
        if confirmed == self.confirmed {
            return;
        }
        self.confirmed = confirmed;
        self.places.release(confirmed);
    }

    /// Both, once something was done.
    pub(crate) fn wake(&mut self, mark: u64, confirmed: u64)
        ensures stands { AllStand (peer_at self.old.places) (peer_at self.new.places) }
        ensures lets_go { LetsGo confirmed (peer_at self.old.places) (peer_at self.new.places) }
    {
        self.wake_marked(mark);
        self.release(confirmed);
    }
}

impl<S: Talks + OpenStream + Drop> Pool<S> {
    /// Notes when to look at a connection that is kept.
    fn note(&mut self, peer: &Peer<S>)
        ensures { self.new.places ≡ self.old.places }
    {
        self.deadlines.note(peer.deadline());
        if !peer.sends() {
            self.may_stop = true;
        }
    }

    /// Keeps a connection up to its next turn. If memory runs out, it is closed. Returns its key.
    fn keep<W: Logs<S>>(&mut self, peer: Box<Peer<S>>, log: &mut W) -> Option<usize>
        ensures { Passes S.told (W.marks log.old) (peer_at self.old.places) (Some peer.value) (peer.value.state.drops ≡ None)
            (W.marks log.new) (peer_at self.new.places) None ⊤ }
    {
        self.note(&peer);
        match self.places.put(peer) {
            Ok(key) => Some(key),
            Err(peer) => {
                Box::into_inner(peer).close_full(log);
                None
            }
        }
    }

    /// Keeps a connection up to its next turn, or ends it, if it came to an end. One that has ended before is closed then.
    pub(crate) fn keep_or_end<W: Logs<S>>(
        &mut self,
        now: Duration,
        mut peer: Box<Peer<S>>,
        ending: Ending,
        log: &mut W,
    )
        ensures { Passes S.told (W.marks log.old) (peer_at self.old.places) (Some peer.value) ((ending ≡ None) × (peer.value.state.drops ≡ None))
            (W.marks log.new) (peer_at self.new.places) None ⊤ }
    {
        let Some(outcome) = ending else {
            self.keep(peer, log);
            return;
        };
        if peer.end(now, outcome, log) {
            self.keep(peer, log);
        } else {
            Box::into_inner(peer).close(log);
        }
    }

    /// Keeps a new connection, which has its first turn next, unless it couldn't be served. If memory runs out, it is closed.
    pub(crate) fn opened<W: Logs<S>>(&mut self, peer: Peer<S>, ending: Ending, log: &mut W)
        ensures { Passes S.told (W.marks log.old) (peer_at self.old.places) (Some peer) (ending ≡ None)
            (W.marks log.new) (peer_at self.new.places) None ⊤ }
    {
        let peer = match Box::new(self.alloc, peer) {
            Ok(peer) => peer,
            Err(refused) => {
                refused.value.close_full(log);
                return;
            }
        };
        if ending.is_some() {
            return self.keep_or_end(peer.state.since, peer, ending, log);
        }
        if let Some(key) = self.keep(peer, log) {
            self.places.move_first(key);
            self.round = self.round.saturating_add(1);
        }
    }

    /// Ends the connection at a key, whose peer is waited for no longer.
    pub(crate) fn end_at<W: Logs<S>>(
        &mut self,
        now: Duration,
        key: usize,
        why: GivenUp,
        log: &mut W,
    )
        ensures { Goes S.told (W.marks log.old) (peer_at self.old.places) (W.marks log.new) (peer_at self.new.places) }
    {
        let Some(peer) = self.places.take(key) else {
            return;
        };
        let ending = Some(peer.given_up(why));
        self.keep_or_end(now, peer, ending, log);
    }

    /// Closes the connection at a key, if there is one.
    fn close_at<W: Logs<S>>(&mut self, key: usize, log: &mut W)
        ensures goes { Goes S.told (W.marks log.old) (peer_at self.old.places) (W.marks log.new) (peer_at self.new.places) }
        ensures none { peer_at self.new.places key ≡ None }
        ensures others { (other : ℕ) → other ≢ key → peer_at self.new.places other ≡ peer_at self.old.places other }
    {
        if let Some(peer) = self.places.take(key) {
            Box::into_inner(peer).close(log);
        }
    }

    /// Closes all connections.
    pub(crate) fn close_all<W: Logs<S>>(&mut self, log: &mut W)
        ensures goes { Goes S.told (W.marks log.old) (peer_at self.old.places) (W.marks log.new) (peer_at self.new.places) }
        ensures none { (key : ℕ) → peer_at self.new.places key ≡ None }
    {
        'closes: for key in 0..self.places.key_bound() {
            self.close_at(key, log);
        }
    }
}

impl<S: Talks + OpenStream + Drop> Pool<S> {
    /// Gives the next connection of this round its turn, if there is one. Returns what is to be done then.
    fn give_turn<W: Logs<S>>(&mut self, now: Duration, log: &mut W) -> Option<Found<S>>
        ensures not_new { (found : Found S) → result ≡ Some found → (stream : S) → found ≢ New stream }
        ensures ready { IfSome result (IsReady self.new.fields) }
        // The conversation of each goes on, and the one that is to be answered is taken out.
        ensures goes { Passes S.told (W.marks log.old) (peer_at self.old.places) None ⊤
            (W.marks log.new) (peer_at self.new.places) (hand_in result) ⊤ }
    {
        self.round = self.round.checked_sub(1)?;
        let key = self.places.ends(List::Ready).first?;
        let mut peer = self.places.take(key)?;
        let is_full = self.is_full();
        let (piece, fields) = (&mut self.piece, &mut self.fields);
        match peer.take_turn(now, is_full, self.max_reads, piece, fields) {
            Next::Asks(asked) => return Some(Found::Asks(peer, asked)),
            Next::Reads(unsent) => return Some(Found::Reads(peer, unsent)),
            Next::Rests(ending) => self.keep_or_end(now, peer, ending, log),
            Next::Closes => Box::into_inner(peer).close(log),
        }
        Some(Found::Nothing)
    }

    /// What is to be done next: the turns of a round, then the connections that come, and then a wait for the next round.
    pub(crate) fn find<L: Waits<Stream = S>, W: Logs<S>, C: Clock>(
        &mut self,
        clock: &C,
        listener: &mut L,
        accepts: bool,
        log: &mut W,
    ) -> Found<S>
        ensures wanted { (stream : S) → result ≡ New stream → accepts ≡ true }
        // While replies wait, or the rest of one, nothing is answered, and no other rest is read.
        ensures ready { IsReady self.new.fields result }
        ensures goes { Passes S.told (W.marks log.old) (peer_at self.old.places) None ⊤
            (W.marks log.new) (peer_at self.new.places) (hand_of result) ⊤ }
    {
        let now = self.now(clock);
        self.give_space(now, listener, log);
        let stops = listener.stops();
        if stops {
            self.end_stopped(now, log);
        }
        let accepts = accepts && !stops;
        if let Some(found) = self.give_turn(now, log) {
            found
        } else if accepts && self.may_accept(now) {
            self.accept(now, listener, log)
        } else if (accepts || self.places.count() > 0) && self.wait(now, listener, accepts, log) {
            Found::Nothing
        } else {
            Found::Over
        }
    }
}
