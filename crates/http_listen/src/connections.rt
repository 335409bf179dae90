//! The connections of a listener.
ghost use Rattle.std.specs.Prelude.{◌≡◌, ◌⊎◌, ◌<◌, ◌≤◌, ◌∷◌, [], ℕ, Result, List, None, Some, IsSome, IsTrue, take, drop, OnOk, OnErr};
ghost use Rattle.http_listen.specs.Rests.{rest_after};
ghost use Rattle.http_requests.specs.Frame.{IsNext};
ghost use Rattle.http_requests.specs.Inputs.{IsAsked, IsFound};
ghost use Rattle.http_requests.specs.declared.frames.Next.TheVariants.{Whole};
ghost use Rattle.http_serve.specs.Connections.{PreparesNext};
ghost use Rattle.http_listen.specs.Conversations.{Act, Deed, Answers, Does, IsEndedBy, Runs, Stands, Steps, deeds_of};
ghost use Rattle.http_listen.specs.Holds.{HoldsFor};
ghost use Rattle.http_listen.specs.Orders.{AreInOrder};
ghost use Rattle.http_listen.specs.Goes.{Acts, AreOver};
ghost use Rattle.http_listen.specs.Places.{peer_at};
ghost use Rattle.http_listen.specs.Connections.{Event, Serves, ComesTo, NextStretch, NextAnswer, NextPart, AreOverKnown, AreSteps, IsNoRequest, begun};

use crate::logs::Logs;
use crate::peers::{Ending, Peer};
use crate::pool::{Found, Pool, time_of};
use crate::rests::{Unsent, add_part};
use crate::step_time::StepTime;
use crate::talks::Talks;
use crate::waits::Waits;
use http_requests::{FieldSpans, Frame, Next};
use http_serve::{
    Answer, Asked, Connection, Downloads, Hold, Moment, NOTHING_ASKED, Preparation, Prepares,
};
use std::alloc::{AllocError, Global};
use std::net::OpenStream;
use std::time::{Clock, Duration};
use thiserror::Error;

/// Why no more connections are served.
#[derive(Clone, Copy, Debug, Error)]
pub enum ListenFault {
    /// A connection couldn't be accepted.
    #[error("a connection could not be accepted")]
    Accept,
}

/// The maximum number of turns: more than there ever are.
const MAX_TURNS: u64 = u64::MAX;

/// The maximum number of requests that rest: at most half as many as there may be connections.
const MAX_RESTING: usize = 4_096;

/// The maximum number of steps of a preparation in one turn, also where the clock stands still.
const MAX_STEPS: u64 = 4_096;

/// Sets up the stream of a new connection: small replies aren't delayed, and no call waits. What the system refuses to set is left as
/// it is.
fn prepare<S: OpenStream>(stream: &S) {
    let _ = stream.set_nodelay(true);
    let _ = stream.set_nonblocking(true);
}

/// Answers what was found at the front of a connection's input. What is to be sent of the replies waits in its output then. The rest of a content is
/// left, and read later.
fn serve_front<S, H>(
    peer: &mut Peer<S>,
    fields: &FieldSpans,
    asked: Asked,
    handler: &mut H,
) -> Result<Answer, AllocError>
where
    S: Talks + OpenStream + Drop,
    H: Downloads,
    requires sent { peer.old.connection.output ≡ [] }
    requires found { IsFound peer.old.connection.input fields.now asked }
    ensures comes { ComesTo H.replies result handler.old handler.new }
    // What is left is read by the ticket of the reply that stopped.
    ensures unsent { peer.new.state.unsent ≡ rest_after (H.ticket_of handler.new) result }
    // The replies to these bytes are to be sent. Nothing was read.
    ensures answers { Answers H.replies handler.old (take asked.end peer.old.connection.input) peer.new.connection.output result handler.new }
    ensures input { peer.new.connection.input ≡ drop asked.end peer.old.connection.input }
    ensures stream { peer.new.stream ≡ peer.old.stream }
    ensures state { peer.new.state ≡ record peer.old.state { unsent = peer.new.state.unsent } }
{
    let outcome = peer.connection.answer(handler, fields, asked);
    peer.state.unsent = Unsent::after(&outcome, handler);
    outcome
}

/// Opens a new connection: its first stretch is over no bytes.
fn open<S, H, W>(pool: &mut Pool<S>, mut peer: Peer<S>, handler: &mut H, log: &mut W)
where
    S: Talks + OpenStream + Drop,
    H: Prepares,
    W: Logs<S>,
    requires whole { peer.state.unsent ≡ None }
    requires settled { peer.state.outcome ≡ None }
    requires fresh { peer.connection.input ≡ [] }
    requires sent { peer.connection.output ≡ [] }
    ensures comes { NextStretch H.replies handler.old handler.new }
    ensures acted { (act : Act) × Does H.replies H.reads H.ticket_of H.prepares handler.old peer.state.number act handler.new
        × Acts S.told (W.marks log.old) (peer_at pool.old.places) peer (act ∷ []) (W.marks log.new) (peer_at pool.new.places) }
{
    pool.spare.refill();
    let outcome = serve_front(&mut peer, &pool.fields, NOTHING_ASKED, handler);
    let now = peer.state.since;
    peer.answered(now, outcome, None);
    let ending = peer.send_replies(now);
    pool.opened(peer, ending, log);
}

/// When an act of a connection was over, and what it came to, if it ends.
#[derive(Clone, Copy)]
struct Acted {
    now: Duration,
    ending: Ending,
}

/// What the reply to this waits for, if the handler made it: it isn't asked for the reply to bytes that are no request.
fn hold_for<H: Prepares>(handler: &H, found: Next) -> Option<Hold>
    ensures { HoldsFor H.holds found handler.now result }
{
    match found {
        Next::Whole(_) => handler.hold(),
        Next::Refused(_) => None,
        Next::More(_) => None,
    }
}

/// The same by what the answer came to: if memory runs out, there is no reply of the handler.
fn hold_after_answer<H: Prepares>(
    handler: &H,
    found: Next,
    outcome: Result<Answer, AllocError>,
) -> Option<Hold>
    ensures ok { OnOk outcome (HoldsFor H.holds found handler.now result) }
    ensures err { OnErr outcome (result ≡ None) }
{
    match outcome {
        Ok(_) => hold_for(handler, found),
        Err(_) => None,
    }
}

/// Answers what was found at the front of a connection's input, in a stretch of it, and begins to send the replies, in spare room if memory runs out.
/// Nothing waits to be sent before. The time since `start` is that of the answer.
fn answer_front<S, H, C>(
    clock: &C,
    start: Duration,
    pool: &mut Pool<S>,
    peer: &mut Peer<S>,
    asked: Asked,
    handler: &mut H,
) -> Acted
where
    S: Talks + OpenStream + Drop,
    H: Prepares,
    C: Clock,
    requires sent { peer.old.connection.output ≡ [] }
    requires whole { peer.old.state.unsent ≡ None }
    requires settled { peer.old.state.outcome ≡ None }
    requires asked { IsAsked peer.old.connection.input peer.old.state.ended pool.old.fields asked }
    ensures comes { NextStretch H.replies handler.old handler.new }
    ensures places { pool.new.places ≡ pool.old.places }
    ensures acts { (act : Act) × Does H.replies H.reads H.ticket_of H.prepares handler.old peer.old.state.number act handler.new
        × Steps S.told peer.old (act ∷ []) (result.ending ≡ None) peer.new }
    // Unless nothing was asked of the handler, the reply waits for what it says, and while it waits nothing of it is sent.
    ensures waits { (handler.new ≡ handler.old)
        ⊎ (HoldsFor H.holds asked.found handler.new peer.new.state.hold × (IsSome peer.new.state.hold → peer.new.stream ≡ peer.old.stream)) }
{
    pool.spare.refill();
    peer.connection.begin(&mut pool.spare);
    let outcome = serve_front(peer, &pool.fields, asked, handler);
    let now = pool.spend(clock, start);
    let hold = hold_after_answer(handler, asked.found, outcome);
    peer.answered(now, outcome, hold);
    let ending = peer.send_replies(now);
    Acted { now, ending }
}

/// A connection has another turn before it is answered. The time since `start` is that of steps of its reply's preparation.
fn put_off<S, C>(
    clock: &C,
    start: Duration,
    pool: &mut Pool<S>,
    peer: &mut Peer<S>,
    prepared: Preparation,
) -> Acted
where
    S: Talks + OpenStream + Drop,
    C: Clock,
    ensures stands { Stands peer.old peer.new }
    ensures goes_on { result.ending ≡ None }
    // It isn't forgotten: it has another turn for the same bytes.
    ensures asks { IsTrue peer.new.state.searches }
    ensures places { pool.new.places ≡ pool.old.places }
{
    let now = pool.spend(clock, start);
    if let Preparation::Rests(longest) = prepared {
        peer.rest(now, start, longest);
        return Acted { now, ending: None };
    }
    pool.step_time.end(time_of(clock));
    peer.put_off(now, start);
    Acted { now, ending: None }
}

/// Makes steps of the preparation of the reply to the request at `frame` in the input of the connection of a number, one at least, until they have taken as
/// long since the moment as a turn may or one has to wait for other connections. Returns what the last one came to.
fn prepare_for<H: Prepares, C: Clock>(
    clock: &C,
    moment: Moment,
    step_time: StepTime,
    number: u64,
    connection: &Connection,
    fields: &FieldSpans,
    frame: &Frame,
    handler: &mut H,
) -> Preparation
    requires found { IsNext connection.now.input fields.now (Whole frame.now) }
    ensures { (steps : ℕ) × AreSteps (PreparesNext H.prepares number (take frame.now.body.end connection.now.input)) steps handler.old handler.new }
{
    'steps: for _step in 0..MAX_STEPS {
        match connection.prepare(handler, number, moment, fields, frame) {
            Preparation::Ready => return Preparation::Ready,
            Preparation::Waits => return Preparation::Waits,
            Preparation::Rests(longest) => return Preparation::Rests(longest),
            Preparation::GoesOn => {}
        }
        if time_of(clock).saturating_sub(moment.now) >= step_time.of_turn(moment.now) {
            return Preparation::GoesOn;
        }
    }
    Preparation::GoesOn
}

/// The same for what was found at the front of a connection's input. The refusal of bytes that are no request needs no step, and gets none.
fn prepare_found<H: Prepares, C: Clock>(
    clock: &C,
    moment: Moment,
    step_time: StepTime,
    number: u64,
    connection: &Connection,
    fields: &FieldSpans,
    asked: Asked,
    handler: &mut H,
) -> Preparation
    requires found { IsFound connection.now.input fields.now asked }
    ensures steps { (steps : ℕ) × AreSteps (PreparesNext H.prepares number (take asked.end connection.now.input)) steps handler.old handler.new }
    ensures none { IsNoRequest asked.found → handler.new ≡ handler.old }
{
    match asked.found {
        Next::Whole(frame) => prepare_for(
            clock, moment, step_time, number, connection, fields, &frame, handler,
        ),
        Next::Refused(_) => Preparation::Ready,
        Next::More(_) => Preparation::Ready,
    }
}

/// Makes steps of the preparation of the reply to what was found at the front of a connection's input, as many as fit in its turn, and answers it
/// if none is left.
fn prepare_front<S, H, C>(
    clock: &C,
    pool: &mut Pool<S>,
    peer: &mut Peer<S>,
    asked: Asked,
    handler: &mut H,
) -> Acted
where
    S: Talks + OpenStream + Drop,
    H: Prepares,
    C: Clock,
    requires sent { peer.old.connection.output ≡ [] }
    requires whole { peer.old.state.unsent ≡ None }
    requires settled { peer.old.state.outcome ≡ None }
    requires asked { IsAsked peer.old.connection.input peer.old.state.ended pool.old.fields asked }
    ensures comes { NextAnswer H.replies H.prepares handler.old handler.new }
    ensures places { pool.new.places ≡ pool.old.places }
    ensures acts { (acts : List Act) × Runs H.replies H.reads H.ticket_of H.prepares handler.old (deeds_of peer.old.state.number acts) handler.new
        × Steps S.told peer.old acts (result.ending ≡ None) peer.new }
{
    let start = time_of(clock);
    let prepared = prepare_found(
        clock,
        peer.moment(start),
        pool.step_time,
        peer.state.number,
        &peer.connection,
        &pool.fields,
        asked,
        handler,
    );
    if pool.puts_off(prepared) {
        return put_off(clock, start, pool, peer, prepared);
    }
    answer_front(clock, start, pool, peer, asked, handler)
}

/// Prepares or answers what was found at the front of a connection's input, and keeps or ends it.
fn answer<S, H, W, C>(
    clock: &C,
    pool: &mut Pool<S>,
    mut peer: Box<Peer<S>>,
    asked: Asked,
    handler: &mut H,
    log: &mut W,
)
where
    S: Talks + OpenStream + Drop,
    H: Prepares,
    W: Logs<S>,
    C: Clock,
    requires sent { peer.value.connection.output ≡ [] }
    requires whole { peer.value.state.unsent ≡ None }
    requires settled { peer.value.state.outcome ≡ None }
    requires asked { IsAsked peer.value.connection.input peer.value.state.ended pool.old.fields asked }
    ensures comes { NextAnswer H.replies H.prepares handler.old handler.new }
    ensures acted { (acts : List Act) × Runs H.replies H.reads H.ticket_of H.prepares handler.old (deeds_of peer.value.state.number acts) handler.new
        × Acts S.told (W.marks log.old) (peer_at pool.old.places) peer.value acts (W.marks log.new) (peer_at pool.new.places) }
{
    let Acted { now, ending } = prepare_front(clock, pool, &mut peer, asked, handler);
    pool.keep_or_end(now, peer, ending, log);
    pool.wake(handler.mark(), handler.confirmed());
}

/// Reads the next part of the content that a connection sends, and begins to send it. Nothing waits to be sent before.
fn read_part<S, H, C>(
    clock: &C,
    pool: &mut Pool<S>,
    peer: &mut Peer<S>,
    unsent: Unsent,
    handler: &mut H,
) -> Acted
where
    S: Talks + OpenStream + Drop,
    H: Prepares,
    C: Clock,
    requires sent { peer.old.connection.output ≡ [] }
    requires rest { peer.old.state.unsent ≡ Some unsent }
    ensures reads { NextPart H.reads handler.old handler.new }
    ensures places { pool.new.places ≡ pool.old.places }
    // If the part can't be read, the connection ends with the word for why.
    ensures acts { (act : Act) × Does H.replies H.reads H.ticket_of H.prepares handler.old peer.old.state.number act handler.new
        × Steps S.told peer.old (act ∷ []) (result.ending ≡ None) peer.new × IsEndedBy act result.ending }
{
    let start = time_of(clock);
    let outcome = add_part(handler, unsent, &mut peer.connection);
    let now = pool.spend(clock, start);
    let ending = peer.send_part(now, outcome);
    Acted { now, ending }
}

/// Reads the next part of the content that a connection sends, and keeps or ends it.
fn send_part<S, H, W, C>(
    clock: &C,
    pool: &mut Pool<S>,
    mut peer: Box<Peer<S>>,
    unsent: Unsent,
    handler: &mut H,
    log: &mut W,
)
where
    S: Talks + OpenStream + Drop,
    H: Prepares,
    W: Logs<S>,
    C: Clock,
    requires sent { peer.value.connection.output ≡ [] }
    requires rest { peer.value.state.unsent ≡ Some unsent }
    ensures reads { NextPart H.reads handler.old handler.new }
    ensures acted { (act : Act) × Does H.replies H.reads H.ticket_of H.prepares handler.old peer.value.state.number act handler.new
        × Acts S.told (W.marks log.old) (peer_at pool.old.places) peer.value (act ∷ []) (W.marks log.new) (peer_at pool.new.places) }
{
    let Acted { now, ending } = read_part(clock, pool, &mut peer, unsent, handler);
    pool.keep_or_end(now, peer, ending, log);
}

/// Serves this many connections of a listener by turns, and writes a line to the log as each ends: `connection I: R requests, END`. I
/// counts the connections from 1 as they are accepted, R the requests whose replies were sent whole, and END is `closed`, `asked`,
/// `refused` or `turns`, or at a fault `memory`, `read`, `write`, `device`, `gone` or `unconfirmed`.
///
/// No peer is waited for. A turn of a connection is one read, or a write of at most 128 KiB, which returns at once. As soon as a whole request was read, or
/// bytes that are none, they are answered in a stretch of the connection, as `http_serve::Connection::answer` does. The replies are kept
/// in memory and sent as the peer takes them. The rest of a content is read part by part, 64 KiB each, once the peer has taken what comes
/// before; other requests are answered between two parts. While replies wait, or the rest of one, no further request of the connection is
/// read or answered.
///
/// The handler may prepare a reply in steps. In a round each connection that is ready has one turn, and the turn of one whose reply is
/// being prepared is as many steps, at least one, as begin within the time that all other turns took since the last turn with steps, or within
/// `Waits::preparing_time` if that is longer or neither this round nor the one before had such a turn, and never more than four times that.
/// Between two rounds new connections are accepted. Until its reply nothing more is read of such a connection, its peer's time doesn't run, and it
/// isn't ended to make room for others.
///
/// A request may rest before it is answered (`Preparation::Rests`): it is prepared again once the handler's mark is another number, or after the time
/// that it may rest. At most 4,096 requests rest, and half as many as there may be connections, and none while all connections hold too much: others are
/// answered at once. A reply that was made may wait (`Prepares::hold`): nothing of it is sent, and nothing more of its connection read, before the handler
/// confirms as much as it waits for. If that takes too long, the connection ends without it, and is logged as `unconfirmed`.
///
/// Between two requests a connection holds no buffers. Otherwise it has at most `http_requests::MAX_REQUEST` bytes of input, and the reply that
/// its peer is taking; a buffer takes at most twice as much as it has. Of a content that is read in parts one part is in memory.
///
/// All connections hold at most `Waits::max_held` bytes of requests and replies. Once a step exceeds that, connections are ended before the next
/// one until it is met, first the one that has waited longest for its peer: if it has sent a part of a request, with the reply 503 `Memory` and
/// logged as `memory`, otherwise as one whose write failed. If no connection waits for its peer, one that has sent a part of a request and is to
/// be read gets that reply. So does each connection for whose input memory runs out. If it runs out for the head of a reply, spare room is taken, and
/// the connection goes on; only if there is none either, it ends with that reply.
///
/// At most `Waits::max_open` connections are open, and never more than `MAX_OPEN`. At that limit, or when one can't be accepted for
/// want of descriptors or memory, room is made for it: a connection that has ended is closed, or else the one that waits longest for a
/// request is ended and logged as `closed`, if it has waited for a second and has sent nothing. If there is none, one that has begun a request
/// ten seconds ago, which isn't whole, is closed and logged as `read`: of these the one that has waited longest for its peer. No connection is
/// ended so while something waits to be sent to its peer, or while its request is being answered or prepared. If there is none, the new one
/// waits, and is served once it can be. At the limit none is ended before another one was accepted.
///
/// A connection makes at most `Waits::max_reads` reads that return bytes. If it has, and bytes come, it ends with `turns`.
///
/// A connection's fault ends that connection alone. An accept that fails for the one that it accepts is tried again, and a call that a
/// signal interrupts. A line that can't be written is left out.
///
/// A silent connection takes no time of a turn. All are looked at when the time of a peer may be over, at most every 10 µs for each of them.
///
/// A peer has 60 seconds to begin a request, as long again to its end, and as long for a reply and a second more for each 16,384 bytes
/// of it, but never more than 60 seconds at once. The replies to requests that were read together count as one. An answer that takes a
/// second or longer doesn't count. A slower peer's connection is closed, as when a read or a write fails, or `closed` if it has begun no
/// request.
/// What a peer sends after its last reply is dropped for 60 seconds at most, as long as it sends without a pause of two.
///
/// If the listener stops, all connections end, once the replies that wait are sent, or after a second.
///
/// # Errors
///
/// `Accept` if a connection couldn't be accepted while none is open and no stream could be closed for it, or 1,000 in a row failed, or
/// if the listener stops. No more are served then. If the listener fails otherwise, the open ones are ended first.
pub fn serve_on<L, H, W, C>(
    clock: &C,
    alloc: Global,
    listener: &mut L,
    connections: u64,
    handler: &mut H,
    log: &mut W,
) -> Result<(), ListenFault>
where
    L: Waits,
    L::Stream: Talks + OpenStream,
    H: Prepares,
    W: Logs<L::Stream>,
    C: Clock,
    ensures all { OnOk result ((served : List Event) × Serves H.replies H.reads H.prepares handler.old served handler.new
        × (begun served ≡ connections)) }
    ensures fewer { OnErr result ((served : List Event) × Serves H.replies H.reads H.prepares handler.old served handler.new
        × (begun served < connections)) }
    // The bytes of each stretch are known, so what was read is: the requests that were answered are its bytes.
    ensures known { OnOk result ((served : List Event) × Serves H.replies H.reads H.prepares handler.old served handler.new
        × (begun served ≡ connections) × AreOverKnown served) }
    ensures fewer_known { OnErr result ((served : List Event) × Serves H.replies H.reads H.prepares handler.old served handler.new
        × (begun served < connections) × AreOverKnown served) }
    // What is done is done for the connections, each by its number, and what is answered at once is one request, or bytes that begin with none. Of
    // a connection nothing is answered or prepared while something of its last reply's content is left, and what is read of that is its next
    // bytes, by that reply's ticket.
    ensures named { (deeds : List Deed) × Runs H.replies H.reads H.ticket_of H.prepares handler.old deeds handler.new
        × AreInOrder connections deeds
        × ((count : ℕ) × (count ≤ connections) × OnOk result (count ≡ connections)
        × AreOver L.Stream.Talks.told count deeds (W.marks log.old) (W.marks log.new)) }
{
    let mut pool = Pool::new(
        alloc,
        listener.max_held(),
        listener.max_reads(),
        MAX_RESTING.min(listener.max_open() / 2),
        listener.preparing_time(),
    );
    let mut begun = 0;
    'turns: for _turn in 0..MAX_TURNS {
        match pool.find(clock, listener, begun < connections, log) {
            Found::New(stream) => {
                begun += 1;
                log.opened(begun, &stream);
                prepare(&stream);
                let peer = Peer::new(alloc, stream, begun, pool.now(clock));
                open(&mut pool, peer, handler, log);
            }
            Found::Asks(peer, asked) => {
                answer(clock, &mut pool, peer, asked, handler, log);
            }
            Found::Reads(peer, unsent) => send_part(clock, &mut pool, peer, unsent, handler, log),
            Found::Nothing => {}
            Found::Over => break,
        }
    }
    pool.close_all(log);
    if begun < connections {
        return Err(ListenFault::Accept);
    }
    Ok(())
}
