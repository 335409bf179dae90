//! Connections between two of their turns.
ghost use Rattle.std.specs.Prelude.{◌≡◌, ◌≢◌, ◌≤◌, ◌<◌, ◌+◌, ◌∷◌, true, false, [], None, Some, Ok, Err, IsSome, IsTrue, IfErr, IfOk, IfSome, MatchResult, length, take, OnOk};
ghost use Rattle.std.specs.Io.{WritesAtMost};
ghost use Rattle.std.specs.Io.KnownBytes.{Appends};
ghost use Rattle.http_listen.specs.Conversations.{Beside, Ends, IsEnded, IsRead, IsSearched, Keeps, Stands, Steps};
ghost use Rattle.http_listen.specs.Courses.{GoesOnAfter, counted, course_of, settled};
ghost use Rattle.http_listen.specs.Goes.{Closes};
ghost use Rattle.http_listen.specs.Holds.{hold_after};
ghost use Rattle.http_listen.specs.Lines.{line_of};
ghost use Rattle.http_listen.specs.Rests.{once_sent};
ghost use Rattle.http_listen.specs.Listed.{IsListed};
ghost use Rattle.http_listen.specs.Marks.{Adds, at_closing};
ghost use Rattle.http_listen.specs.Talks.{Grows, Moves};
ghost use Rattle.http_listen.specs.Ways.{MayGiveWay};
ghost use Rattle.http_listen.specs.Whys.{IsSent, Owes};
ghost use Rattle.http_listen.specs.declared.ends.EndFault.TheVariants.{Memory, Read, Write, Unconfirmed};
ghost use Rattle.http_listen.specs.declared.peers.GivenUp.TheVariants.{Held, Late};
ghost use Rattle.http_listen.specs.declared.turns.Next.TheVariants.{Rests};
ghost use Rattle.http_serve.specs.Buffers.{buffer_size};
ghost use Rattle.http_serve.specs.declared.connection.End.TheVariants.{Closed, Turns};

use crate::ends::EndFault;
use crate::lines::replied_requests;
use crate::logs::Logs;
use crate::no_memory::memory_reply;
use crate::paces::{Pace, Stage, nanoseconds_of};
use crate::places::List;
use crate::readiness::{Readiness, is_passing};
use crate::rests::{Unsent, once_sent};
use crate::talks::Talks;
use crate::turns::Next;
use crate::writes::{first_bytes, send_again};
use http_requests::{FieldSpans, MAX_REQUEST};
use http_serve::{Answer, Connection, End, Hold, Moment, Served};
use std::alloc::{AllocError, Global};
use std::io::{self, ErrorKind};
use std::net::{OpenStream, Shutdown};
use std::time::Duration;

/// How many seconds a peer is waited for that sends nothing after its last reply.
const LAST_WAIT_SECONDS: u64 = 2;

/// The maximum number of bytes that are dropped after a peer's last reply: 16 MiB.
const MAX_DROPPED: usize = 16_777_216;

/// The maximum size of one read in bytes.
pub(crate) const PIECE: usize = 8_192;

/// The maximum size in bytes of what is written to one peer in a turn. The system may take megabytes at once, for whose copies all others would wait.
const MAX_WRITE: usize = 131_072;

/// How many seconds a connection has waited at least before it is closed for another one, if it waits for the first bytes of a request.
const LEAST_WAIT_SECONDS: u64 = 1;

/// How many seconds a peer has at least for a request that it has begun, before its connection is closed for another one.
const LEAST_REQUEST_SECONDS: u64 = 10;

/// What a connection came to on which nothing was answered.
const NOTHING: Result<Served, EndFault> = Ok(Served {
    requests: 0,
    end: End::Closed,
});

/// Why a connection is given up.
#[derive(Clone, Copy)]
pub(crate) enum GivenUp {
    /// It has taken too long, or the server stops, or it can't be watched.
    Late,
    /// All connections hold more bytes than they may.
    Held,
}

/// What a connection came to that has made as many reads as it may.
const TURNS: Result<Served, EndFault> = Ok(Served {
    requests: 0,
    end: End::Turns,
});

/// What a connection came to, if it ends.
pub(crate) type Ending = Option<Result<Served, EndFault>>;

/// What is known of a connection, beside its bytes.
#[derive(Clone, Copy)]
pub(crate) struct State {
    /// Its number, from 1, in the order of acceptance.
    pub(crate) number: u64,
    /// How many of its requests got a whole reply.
    pub(crate) requests: u64,
    /// How many of its reads returned bytes.
    pub(crate) reads: u64,
    /// Whether the end of the input was read.
    pub(crate) ended: bool,
    /// Whether the input is searched for a request before more is read.
    pub(crate) searches: bool,
    /// What its last stretch came to, unless its replies were sent and it goes on. The output has them.
    pub(crate) outcome: Ending,
    /// The rest of the last reply's content, which is read once the output was sent.
    pub(crate) unsent: Option<Unsent>,
    /// If the connection has ended: how many of the bytes that its peer still sends are dropped.
    pub(crate) drops: Option<usize>,
    /// When the time that its peer has left was counted.
    pub(crate) since: Duration,
    /// What its stream may be ready for.
    pub(crate) ready: Readiness,
    /// The key by which its stream is watched, if it is, and whether that is so for sending too.
    pub(crate) watched: Option<(usize, bool)>,
    /// When the first step was made of the preparation of the reply to the first bytes of its input.
    pub(crate) asked: Option<Duration>,
    /// Until when at most its request rests, in nanoseconds.
    pub(crate) rests: Option<u64>,
    /// What its replies wait for before they are sent.
    pub(crate) hold: Option<Hold>,
}

/// A connection and its stream, which is never waited for.
#[derive(Drop)]
pub(crate) struct Peer<S> {
    pub(crate) stream: S,
    pub(crate) connection: Connection,
    pub(crate) state: State,
    /// The time that its peer has left.
    pub(crate) pace: Pace,
}

impl<S> Peer<S> {
    /// A connection of which nothing was read.
    pub(crate) fn new(alloc: Global, stream: S, number: u64, now: Duration) -> Self
        ensures stream { result.stream ≡ stream }
        ensures number { result.state.number ≡ number }
        ensures input { result.connection.input ≡ [] }
        ensures output { result.connection.output ≡ [] }
        ensures unsent { result.state.unsent ≡ None }
        ensures drops { result.state.drops ≡ None }
        ensures ended { result.state.ended ≡ false }
        ensures outcome { result.state.outcome ≡ None }
        ensures requests { result.state.requests ≡ 0 }
    {
        let state = State {
            number,
            requests: 0,
            reads: 0,
            ended: false,
            searches: false,
            outcome: None,
            unsent: None,
            drops: None,
            since: now,
            ready: Readiness::new(),
            watched: None,
            asked: None,
            rests: None,
            hold: None,
        };
        Peer {
            stream,
            connection: Connection::new(alloc),
            state,
            pace: Pace::begin(Stage::Idle),
        }
    }

    /// Whether replies wait to be sent, or the rest of one to be read and sent. If none do, it waits for bytes.
    pub(crate) fn sends(&self) -> bool
        ensures sent { result ≡ false → self.now.connection.output ≡ [] }
        ensures whole { result ≡ false → self.now.state.unsent ≡ None }
        ensures some { result ≡ true → Owes self.now }
    {
        self.connection.has_output() || self.state.unsent.is_some()
    }

    /// Whether its stream is watched by this key for what it waits for.
    fn is_watched(&self, key: usize) -> bool {
        match self.state.watched {
            Some((watched, sends)) => watched == key && (sends || !self.sends()),
            None => false,
        }
    }

    /// The list that it is to be in, at this key.
    pub(crate) fn list(&self, key: usize) -> List
        ensures { IsListed self.now result }
    {
        if self.state.rests.is_some() {
            return List::Resting;
        }
        if self.state.hold.is_some() {
            return List::Held;
        }
        let may_turn = if self.sends() {
            self.state.ready.writes
        } else {
            self.state.ready.reads || self.state.searches
        };
        if may_turn {
            List::Ready
        } else if !self.is_watched(key) {
            List::Unwatched
        } else if self.state.drops.is_some() {
            List::Ended
        } else if self.sends() || self.connection.input_len() > 0 {
            List::Busy
        } else {
            List::Idle
        }
    }

    /// The time that its peer has left.
    fn pace_at(&self, now: Duration) -> Pace {
        let passed = now.saturating_sub(self.state.since);
        self.pace.waited(nanoseconds_of(passed))
    }

    /// When its peer has no time left, in nanoseconds.
    pub(crate) fn deadline(&self) -> u64 {
        if let Some(end) = self.state.rests {
            return end;
        }
        let mut left = self.pace.left;
        if let Some(hold) = self.state.hold {
            left = left.min(nanoseconds_of(hold.longest));
        }
        if self.state.drops.is_some() {
            left = left.min(LAST_WAIT_SECONDS * 1_000_000_000);
        }
        nanoseconds_of(self.state.since).saturating_add(left)
    }

    /// Whether it has waited long enough for a request, or for the rest of one, to be closed for another connection.
    fn has_waited(&self, now: Duration) -> bool {
        if self.connection.input_len() > 0 {
            return self
                .pace_at(now)
                .has_begun(LEAST_REQUEST_SECONDS * 1_000_000_000);
        }
        let passed = now.saturating_sub(self.state.since);
        passed >= Duration::from_secs(LEAST_WAIT_SECONDS)
    }

    /// Whether it may be closed for another connection: it has ended, or it has waited long enough for a request, or for the rest of one.
    pub(crate) fn may_give_way(&self, now: Duration) -> bool
        ensures { IsTrue result → MayGiveWay self.now }
    {
        if self.state.drops.is_some() {
            return true;
        }
        !self.sends() && !self.state.searches && self.has_waited(now)
    }

    /// What it comes to if its peer is waited for no longer.
    pub(crate) fn given_up(&self, why: GivenUp) -> Result<Served, EndFault>
        ensures unconfirmed { IsSome self.now.state.hold → result ≡ Err (Unconfirmed 0) }
        ensures write { self.now.state.hold ≡ None → Owes self.now → result ≡ Err (Write 0) }
        ensures memory { self.now.state.hold ≡ None → IsSent self.now → why ≡ Held → result ≡ Err Memory }
        ensures read { self.now.state.hold ≡ None → IsSent self.now → why ≡ Late → 0 < length self.now.connection.input → result ≡ Err (Read 0) }
        ensures closed { self.now.state.hold ≡ None → IsSent self.now → why ≡ Late → self.now.connection.input ≡ []
            → result ≡ Ok (record { requests = 0; end = Closed }) }
    {
        if self.state.hold.is_some() {
            Err(EndFault::Unconfirmed { requests: 0 })
        } else if self.sends() {
            Err(EndFault::Write { requests: 0 })
        } else if matches!(why, GivenUp::Held) {
            Err(EndFault::Memory)
        } else if self.connection.input_len() > 0 {
            Err(EndFault::Read { requests: 0 })
        } else {
            NOTHING
        }
    }

    /// Writes its line to the log: what its last stretch came to, with the requests that got a whole reply before.
    fn log_end<W: Logs<S>>(&self, outcome: Result<Served, EndFault>, log: &mut W) -> io::Result<()>
        ensures line { OnOk result (Appends (W.lines log.old) (W.lines log.new) (line_of self.now.state.number self.now.state.requests outcome)) }
        ensures same { W.marks log.new ≡ W.marks log.old }
    {
        log.line(self.state.number, self.state.requests, outcome)
    }

    /// More bytes are waited for.
    pub(crate) fn begin_read(&mut self, now: Duration)
        ensures stands { Stands self.old self.new }
        ensures hold { self.new.state.hold ≡ self.old.state.hold }
    {
        self.state.searches = false;
        self.pace = self.pace.reads(self.connection.input_len() == 0);
        self.state.since = now;
    }

    /// Another step is to be made before the first bytes of its input are answered. It is found with them again in its next turn, and
    /// its peer isn't waited for until then.
    pub(crate) fn put_off(&mut self, now: Duration, start: Duration)
        ensures stands { Stands self.old self.new }
        ensures searches { IsTrue self.new.state.searches }
        ensures rests { self.new.state.rests ≡ self.old.state.rests }
    {
        self.state.searches = true;
        self.state.since = now;
        self.state.asked = self.state.asked.or(Some(start));
    }

    /// Bytes were written that its peer takes in one turn. If more wait, it waits for its peer like those whose streams are full: its stream is watched
    /// anew, and so it is reported again if it takes more already.
    fn end_share(&mut self)
        ensures stands { Stands self.old self.new }
        ensures hold { self.new.state.hold ≡ self.old.state.hold }
    {
        if self.connection.has_output() && self.state.ready.writes {
            self.state.ready.writes = false;
            self.state.watched = None;
        }
    }

    /// The same, but it has no turn before it is woken, for as long at most.
    pub(crate) fn rest(&mut self, now: Duration, start: Duration, longest: Duration)
        ensures stands { Stands self.old self.new }
        ensures searches { IsTrue self.new.state.searches }
        ensures rests { IsSome self.new.state.rests }
    {
        self.put_off(now, start);
        self.state.rests = Some(nanoseconds_of(now.saturating_add(longest)));
    }

    /// The moment of this time in the preparation of the reply to the first bytes of its input.
    pub(crate) fn moment(&self, now: Duration) -> Moment {
        let waited = match self.state.asked {
            Some(asked) => now.saturating_sub(asked),
            None => Duration::ZERO,
        };
        Moment { now, waited }
    }

    /// Its replies wait for nothing but its peer, if this is as much as they waited for.
    pub(crate) fn confirm(&mut self, confirmed: u64)
        ensures stands { Stands self.old self.new }
        ensures hold { self.new.state.hold ≡ hold_after confirmed self.old.state.hold }
    {
        if let Some(hold) = self.state.hold {
            if hold.least <= confirmed {
                self.state.hold = None;
            }
        }
    }

    /// The first bytes of its input were answered in a stretch that came to this. The reply isn't sent before what it waits for.
    pub(crate) fn answered(
        &mut self,
        now: Duration,
        outcome: Result<Answer, AllocError>,
        hold: Option<Hold>,
    )
        ensures keeps { Keeps self.old self.new }
        ensures hold { self.new.state.hold ≡ hold }
        ensures outcome { self.new.state.outcome ≡ Some (once_sent outcome) }
        ensures requests { self.new.state.requests ≡ self.old.state.requests }
    {
        self.state.asked = None;
        self.state.hold = hold;
        self.state.outcome = Some(once_sent(outcome));
        self.state.ready.writes = true;
        self.state.since = now;
    }

    /// What it comes to now that the replies of its last stretch were sent, if it ends: it goes on only if more may follow.
    pub(crate) fn ending(&self) -> Ending
        ensures goes_on { result ≡ None → GoesOnAfter self.now.state.outcome }
        ensures is { IfSome result (λ outcome. self.now.state.outcome ≡ Some outcome) }
        ensures last { IfSome result (λ outcome. GoesOnAfter (Some outcome) → (self.now.state.ended ≡ true) × (self.now.connection.input ≡ [])) }
    {
        match self.state.outcome {
            Some(
                Ok(
                    Served {
                        end: End::Closed,
                        requests: _,
                    },
                ),
            ) => {
                if self.state.ended && self.connection.input_len() == 0 {
                    self.state.outcome
                } else {
                    None
                }
            }
            outcome => outcome,
        }
    }

    /// The replies of its last stretch were sent, and it goes on.
    pub(crate) fn replied(&mut self, now: Duration)
        requires sent { self.old.connection.output ≡ [] }
        requires whole { self.old.state.unsent ≡ None }
        ensures keeps { Keeps self.old self.new }
        ensures hold { self.new.state.hold ≡ self.old.state.hold }
        ensures settled { course_of self.new ≡ settled (course_of self.old) }
    {
        self.connection.clear_output();
        self.state.requests = counted(self.state.requests, self.state.outcome);
        self.state.outcome = None;
        self.state.searches = self.connection.input_len() > 0 || self.state.ended;
        if !self.state.searches {
            self.begin_read(now);
        }
    }
}

/// How many requests got a whole reply, once the replies are sent of a stretch that came to this.
fn counted(requests: u64, outcome: Ending) -> u64
    ensures { result ≡ counted requests outcome }
{
    match outcome {
        Some(outcome) => replied_requests(outcome).saturating_add(requests),
        None => requests,
    }
}

impl<S: Talks> Peer<S> {
    /// Sends the reply for want of memory, unless another reply is being sent. Whether it was.
    fn refuse_memory(&mut self) -> bool
        ensures state { self.new.state ≡ self.old.state }
        ensures ends { Ends S.told self.old self.new }
    {
        if self.sends() {
            return false;
        }
        let reply = memory_reply();
        match send_again(&mut self.stream, reply, b"") {
            Ok(count) => count == reply.len(),
            Err(_) => false,
        }
    }
}

impl<S: Talks + Drop> Peer<S> {
    /// Closes the stream.
    pub(crate) fn close<W: Logs<S>>(self, log: &mut W)
        ensures { Adds (W.marks log.old) (at_closing self.state.number self.stream ∷ []) (W.marks log.new) }
    {
        let Peer {
            stream,
            state,
            connection: _,
            pace: _,
        } = self;
        log.closed(state.number, stream);
    }

    /// Ends the connection, if it hasn't ended, and closes the stream: there is no memory to keep it.
    pub(crate) fn close_full<W: Logs<S>>(mut self, log: &mut W)
        ensures { Closes S.told (W.marks log.old) self (W.marks log.new) }
    {
        if self.state.drops.is_some() {
            self.close(log);
            return;
        }
        let _ = self.log_end(self.given_up(GivenUp::Held), log);
        self.refuse_memory();
        self.close(log);
    }
}

impl<S: Talks + OpenStream> Peer<S> {
    /// Whether the peer of a connection that came to this may read a last reply. One whose request there was no memory for gets that reply now.
    fn has_last_reply(&mut self, outcome: Result<Served, EndFault>) -> bool
        ensures state { self.new.state ≡ self.old.state }
        ensures ends { Ends S.told self.old self.new }
    {
        match outcome {
            Ok(_) => true,
            Err(EndFault::Memory) => self.refuse_memory(),
            Err(_) => false,
        }
    }

    /// Ends the connection, and writes its line to the log. Unless its peer reads no last reply, or sends no more, what it still sends is
    /// dropped for a while, so that it reads its last reply, and not that the connection was reset (RFC 9112, 9.6). Returns whether that is
    /// so: otherwise the stream is closed, and also if the connection has ended before.
    pub(crate) fn end<W: Logs<S>>(
        &mut self,
        now: Duration,
        outcome: Result<Served, EndFault>,
        log: &mut W,
    ) -> bool
        ensures number { self.new.state.number ≡ self.old.state.number }
        ensures ended { result ≡ true → IsSome self.new.state.drops }
        // Its conversation is over, or goes on as that of one that has ended.
        ensures held { IsEnded S.told self.old (result ≡ true) self.new }
        ensures same { W.marks log.new ≡ W.marks log.old }
    {
        if self.state.drops.is_some() {
            return false;
        }
        let _ = self.log_end(outcome, log);
        if !self.has_last_reply(outcome)
            || self.state.ended
            || self.stream.shutdown(Shutdown::Write).is_err()
        {
            return false;
        }
        self.state.drops = Some(MAX_DROPPED);
        self.state.searches = false;
        self.state.rests = None;
        self.state.hold = None;
        self.state.unsent = None;
        self.connection.clear_output();
        self.connection.clear_input();
        self.pace = Pace::begin(Stage::Idle);
        self.state.since = now;
        true
    }
}

impl<S: Talks> Peer<S> {
    /// A read failed. Whether bytes may come yet.
    fn may_read_again(&mut self, error: &io::Error) -> bool
        ensures { Stands self.old self.new }
    {
        if error.kind() == ErrorKind::WouldBlock {
            self.state.ready.reads = false;
        }
        is_passing(error)
    }

    /// Makes one read into `piece`, and searches the input for a request, if bytes or its end came. If all connections hold too much, one that has begun
    /// a request is ended, and if memory runs out.
    pub(crate) fn receive(
        &mut self,
        now: Duration,
        is_full: bool,
        max_reads: u64,
        piece: &mut [u8],
        fields: &mut FieldSpans,
    ) -> Next
        requires { 0 < length piece.old }
        ensures read { IsRead S.told self.old result self.new }
        ensures searched { IsSearched self.new.connection.input self.new.state.ended fields.new result }
        ensures turns { result ≡ Rests (Some (Ok (record { requests = 0; end = Turns }))) → max_reads ≤ self.old.state.reads }
        // As long as there is memory, no request is refused for want of it.
        ensures memory { is_full ≡ false → IsTrue self.old.connection.reserved → length self.old.connection.input < buffer_size
            → result ≢ Rests (Some (Err Memory)) }
    {
        if self.state.reads >= max_reads {
            return Next::Rests(Some(TURNS));
        }
        if is_full && self.connection.input_len() > 0 {
            return Next::Rests(Some(Err(EndFault::Memory)));
        }
        // At least one byte is asked for, so that a read that gives none has found the end.
        let space = MAX_REQUEST
            .saturating_sub(self.connection.input_len())
            .max(1)
            .min(piece.len());
        let count = match self.stream.receive(&mut piece[..space]) {
            Ok(count) => count,
            Err(e) if self.may_read_again(&e) => return Next::Rests(None),
            Err(_) => return Next::Rests(Some(Err(EndFault::Read { requests: 0 }))),
        };
        if count == 0 {
            self.state.ended = true;
        } else {
            self.state.reads = self.state.reads.saturating_add(1);
            self.state.ready = self.state.ready.read(count >= space);
            if self.connection.receive(&piece[..count]).is_err() {
                return Next::Rests(Some(Err(EndFault::Memory)));
            }
        }
        self.pace = self.pace_at(now).received();
        self.state.since = now;
        self.search(now, fields)
    }

    /// Makes one read into `piece`, and drops what it gives. Whether more may come.
    pub(crate) fn drop_piece(&mut self, now: Duration, left: usize, piece: &mut [u8]) -> bool
        requires { IsSome self.old.state.drops }
        ensures { Steps S.told self.old [] ⊥ self.new }
    {
        match self.stream.receive(piece) {
            Ok(count) => {
                self.state.ready = self.state.ready.read(count >= piece.len());
                self.state.drops = Some(left.saturating_sub(count));
                self.pace = self.pace_at(now);
                self.state.since = now;
                count > 0 && left > count && !self.pace.is_over()
            }
            Err(e) => self.may_read_again(&e),
        }
    }
}

/// How many bytes may still be given to a peer in its turn, after a write of `size` bytes, of which it took `count`: if it took fewer, none.
fn left_to_give(most: usize, size: usize, count: usize) -> usize
    requires { count ≤ most }
    ensures most { count + result ≤ most }
    ensures short { count < size → result ≡ 0 }
{
    if count < size { 0 } else { most - count }
}

impl<S: Talks> Peer<S> {
    /// Makes one write of the next bytes that wait, at most this many, and another one if a signal interrupts it. Returns how many may follow them in
    /// this turn: none if the peer didn't take all that were given to it.
    fn send_piece(&mut self, now: Duration, most: usize) -> Result<usize, EndFault>
        requires { self.old.state.hold ≡ None }
        ensures moves { Moves (S.told self.old.stream) self.old.connection.output [] [] (S.told self.new.stream) self.new.connection.output }
        ensures beside { Beside self.old self.new }
        ensures course { course_of self.new ≡ course_of self.old }
        ensures most { length self.old.connection.output ≤ length self.new.connection.output + most }
        ensures free { self.new.state.hold ≡ None }
        ensures fault { IfErr result (λ fault. fault ≡ Write 0) }
        ensures left { IfOk result (λ left. length self.old.connection.output + left ≤ length self.new.connection.output + most) }
    {
        let (front, behind) = self.connection.pieces();
        let (front, behind) = first_bytes(front, behind, most);
        let size = front.len() + behind.len();
        match send_again(&mut self.stream, front, behind) {
            Ok(0) => Err(EndFault::Write { requests: 0 }),
            Ok(count) => {
                self.connection.took(count);
                self.pace = self.pace_at(now).sent(count);
                self.state.since = now;
                self.state.ready.writes = count >= size;
                Ok(left_to_give(most, size, count))
            }
            Err(e) if is_passing(&e) => {
                self.state.ready.writes = e.kind() != ErrorKind::WouldBlock;
                Ok(0)
            }
            Err(_) => Err(EndFault::Write { requests: 0 }),
        }
    }

    /// Makes one write of what waits. Of a content that is spelled the next bytes follow by another one, if the peer took all that come before them.
    pub(crate) fn send(&mut self, now: Duration) -> Result<(), EndFault>
        // Nothing waits for more than the peer.
        requires { self.old.state.hold ≡ None }
        ensures moves { Moves (S.told self.old.stream) self.old.connection.output [] [] (S.told self.new.stream) self.new.connection.output }
        ensures beside { Beside self.old self.new }
        ensures course { course_of self.new ≡ course_of self.old }
        ensures free { self.new.state.hold ≡ None }
        ensures fault { IfErr result (λ fault. fault ≡ Write 0) }
        // No peer takes more in a turn, however much waits for it.
        ensures most { length self.old.connection.output ≤ length self.new.connection.output + MAX_WRITE }
    {
        let left = match self.send_piece(now, MAX_WRITE) {
            Ok(left) => left,
            Err(fault) => return Err(fault),
        };
        if left > 0 && self.connection.has_output() {
            if let Err(fault) = self.send_piece(now, left) {
                return Err(fault);
            }
        }
        self.end_share();
        Ok(())
    }
}
