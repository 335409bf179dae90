//! The handler of a connection's requests.
ghost use Rattle.std.specs.Prelude.{◌≡◌, ◌≤◌, ◌+◌, ℕ, List, Option, Result, length, OnOk, OnErr};
ghost use Rattle.http_serve.specs.declared.handlers.TheConstants.{PART_SIZE};
ghost use Rattle.http_serve.specs.declared.handlers.Hold.{Hold};
ghost use Rattle.http_serve.specs.declared.handlers.RestFault.{RestFault};
ghost use Rattle.http_serve.specs.declared.handlers.Ticket.{Ticket};
ghost use Rattle.http_serve.specs.Parts.{rest_outcome};
ghost use Rattle.http_serve.specs.Waits.{IsRest};
ghost use Rattle.http_requests.specs.Requests.{RequestView};
ghost use Rattle.http_serve.specs.Reply.{ReplyView, IsReply, InParts, HasShortWords, head_view, with_part};

use crate::Reply;
use http_requests::Fields;
use std::marker::Model;
use std::time::Duration;
use thiserror::Error;

/// Maximum number of content bytes read and written at once.
pub const PART_SIZE: usize = 65_536;

/// Bytes of a content couldn't be read.
#[derive(Clone, Copy, Debug, Error)]
#[error("a content could not be read")]
pub struct ContentFault;

/// A request, as a handler sees it.
#[derive(Drop)]
pub struct Request<'a> {
    /// The method, as received.
    pub method: &'a [u8],
    /// The path of the target, without its query.
    pub path: &'a [u8],
    /// The query of the target: what follows its first question mark.
    pub query: &'a [u8],
    /// The header fields.
    pub fields: Fields<'a>,
    /// The body, of at most 65,536 bytes.
    pub body: &'a [u8],
    /// Whether the connection ends after the reply.
    pub close: bool,
}

impl<'a> Model for Request<'a> {
    ghost use Rattle.http_requests.specs.Requests.{RequestView};

    ghost Value = { RequestView };

    ghost view = { λ r. record {
      method = r.method.now;
      path = r.path.now;
      query = r.query.now;
      fields = r.fields;
      body = r.body.now;
      close = r.close;
    } };
}

/// Answers the requests of a connection.
pub trait Handler {
    /// In the first state the request may get the reply, and the second state follows.
    ghost replies: { Self → RequestView → ReplyView → Self → Type 0 };

    /// The same for a reply whose content is being read in parts: it contains what was read so far.
    ghost sends: { Self → RequestView → ReplyView → Self → Type 0 };

    /// The same for a reply whose content the handler couldn't read to its end.
    ghost fails: { Self → RequestView → ReplyView → Self → Type 0 };

    /// The length in bytes of the content of the last reply, if it is read in parts.
    ghost size: { Self → ℕ };

    /// Answers a request. The type of the content and the list of methods have at most `MAX_WORD` bytes.
    /// The reply to a HEAD request is written without its content.
    /// If the first bytes of content in parts can't be read, reply otherwise: after the head it is too late.
    fn answer(&mut self, request: &Request<'_>) -> Reply
        ensures replied { (reply : ReplyView) × IsReply result reply × replies self.old request.now reply self.new
            × InParts result.content (sends self.old request.now reply self.new × (size self.new ≡ length reply.content)) }
        ensures writable { HasShortWords (head_view result) };

    /// Fills `part`, which has at most `PART_SIZE` bytes, from an offset of the content of the last reply, which is in parts.
    /// From then on the reply has these bytes, whatever it had before. After a fault `part` may hold any bytes.
    fn read_content(&mut self, offset: u64, part: &mut [u8]) -> Result<(), ContentFault>
        requires within { offset + length part.old ≤ size self.old }
        requires few { length part.old ≤ PART_SIZE }
        ensures size { size self.new ≡ size self.old }
        ensures read { OnOk result ((old : Self) (request : RequestView) (reply : ReplyView) → sends old request reply self.old
            → sends old request (with_part offset part.new reply) self.new × replies old request (with_part offset part.new reply) self.new) }
        ensures unread { OnErr result ((old : Self) (request : RequestView) (reply : ReplyView) → sends old request reply self.old
            → fails old request reply self.new) };
}

/// Names a content that is read between later replies. Its numbers mean something to the handler alone that gave it.
#[derive(Clone, Copy)]
pub struct Ticket {
    /// Which state of its source it is a part of.
    pub version: u64,
    /// Where that state is.
    pub place: u64,
    /// The length of the source in bytes.
    pub total: u64,
    /// Which byte of the source is the content's first one.
    pub first: u64,
}

/// Why bytes of a content couldn't be read by its ticket.
#[derive(Clone, Copy)]
pub enum RestFault {
    /// The source of the content failed.
    Failed,
    /// The content isn't there any more, or has no such bytes.
    Gone,
}

/// A handler whose contents can be read between later replies: the rest of a content that `Connection::answer` left.
pub trait Downloads: Handler {
    /// In the first state this many bytes of a ticket's content were read from an offset on, or couldn't be, and the second state follows.
    ghost reads: { Self → Ticket → (offset count : ℕ) → Result (List ℕ) RestFault → Self → Type 0 };

    /// The ticket for the content of the last reply.
    ghost ticket_of: { Self → Ticket };

    /// The ticket for the content of the last reply, which is in parts.
    fn ticket(&self) -> Ticket
        ensures { result ≡ ticket_of self.now };

    /// Fills `part` from an offset of a ticket's content. After a fault `part` may hold any bytes.
    ///
    /// # Errors
    ///
    /// `Gone` if the content isn't there any more or has no such bytes, `Failed` if it can't be read.
    fn read_rest(&mut self, ticket: Ticket, offset: u64, part: &mut [u8]) -> Result<(), RestFault>
        ensures read { reads self.old ticket offset (length part.old) (rest_outcome result part.new) self.new }
        ensures length { length part.new ≡ length part.old };
}

/// What a step of the preparation of a reply came to.
#[derive(Clone, Copy, Debug)]
pub enum Preparation {
    /// The request is to be answered.
    Ready,
    /// A step was made, and others are left.
    GoesOn,
    /// Nothing can be done before other connections had their turns.
    Waits,
    /// The reply has nothing to say before `Prepares::mark` is another number. The request may rest until then, for as long at most.
    Rests(Duration),
}

/// What a reply that was made waits for before it is sent.
#[derive(Clone, Copy, Debug)]
pub struct Hold {
    /// `Prepares::confirmed` has to be at least this.
    pub least: u64,
    /// The longest time that it waits. Then the connection ends without the reply.
    pub longest: Duration,
}

/// When a step of a preparation is made.
#[derive(Clone, Copy, Debug)]
pub struct Moment {
    /// The time of the clock.
    pub now: Duration,
    /// How long ago the first step of this preparation was made.
    pub waited: Duration,
}

/// A handler that may prepare a reply in steps, between which other requests are answered. A preparation is that of one request of one connection: it
/// begins with the first step for it, and ends with the answer to it.
pub trait Prepares: Downloads {
    /// In the first state a step of the preparation of the reply to a request of a connection was made, and the second state follows.
    ghost prepares: { Self → (connection : ℕ) → RequestView → Self → Type 0 };

    /// In this state the reply to a request would have nothing to say yet.
    ghost rests: { Self → RequestView → Type 0 };

    /// What the last reply waits for before it is sent.
    ghost holds: { Self → Option Hold };

    /// How far replies that wait are confirmed.
    ghost confirms: { Self → ℕ };

    /// Makes the next step of the preparation of the reply to a request, which is to be answered next on the connection of this number. After `GoesOn` it
    /// may be asked again in the same turn of the connection, after `Waits` only in a later one, and after `Rests` in one that comes once the mark is
    /// another number or the time is over, or else the request is answered. Connections that it is asked for have their turns one after the other; one
    /// that ends isn't asked for again.
    fn prepare(&mut self, connection: u64, moment: Moment, request: &Request<'_>) -> Preparation
        ensures prepared { prepares self.old connection request.now self.new }
        ensures rests { IsRest result → rests self.new request.now };

    /// A number that changes whenever a reply that rests may have something to say.
    fn mark(&self) -> u64 {
        0
    }

    /// What the last reply waits for before it is sent.
    fn hold(&self) -> Option<Hold>
        ensures { result ≡ holds self.now };

    /// How far replies that wait are confirmed.
    fn confirmed(&self) -> u64
        ensures { result ≡ confirms self.now };
}
