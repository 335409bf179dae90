//! A connection as steps over bytes: it makes no call of the system.
ghost use Rattle.std.specs.Io.KnownBytes.{Consumes, IsAtEnd};
ghost use Rattle.std.specs.Prelude.{◌≡◌, ◌≤◌, ◌<◌, ◌+◌, ◌++◌, [], ℕ, List, Option, true, false, None, Some, Ok, Err, length, take, drop, IfOk, IfErr};
ghost use Rattle.std.specs.Prelude.{IfSome, IsOk, IsTrue, OnOk, OnErr};
ghost use Rattle.httparse.specs.Grammar.{RequestHead};
ghost use Rattle.http_requests.specs.Frame.{IsNext};
ghost use Rattle.http_requests.specs.Inputs.{IsAsked, IsFound, NeedsMore, found_end};
ghost use Rattle.http_serve.specs.Buffers.{buffer_size};
ghost use Rattle.http_requests.specs.Requests.{has_head_method};
ghost use Rattle.http_requests.specs.declared.frames.Next.TheVariants.{Whole};
ghost use Rattle.http_serve.specs.Connections.{IsNextPiece, PreparesNext, Replied, answered};
ghost use Rattle.http_serve.specs.Found.{ServesFound};
ghost use Rattle.http_serve.specs.Reply.{refusal_bytes};
ghost use Rattle.http_serve.specs.Steps.{IsFinished};

use crate::answers::{Rest, prepare_at, refuse_in, reply_in};
use crate::outputs::{Output, Spare};
use crate::replies::REPLY_SPACE;
use crate::{Downloads, Handler, Moment, Preparation, Prepares, RestFault, Ticket};
use http_requests::{Asked, FieldSpans, Frame, Input, MAX_REQUEST, Next, ReadFault, Rejection};
use std::alloc::{AllocError, Global};
use std::fmt;
use std::io::Read;
use std::marker::Model;
use thiserror::Error;

/// The maximum number of reads per connection.
pub const MAX_READS: u64 = 4_294_967_296;

/// The size of the buffer of a connection that is served alone, in bytes. If it is used up and less than one request waits, more bytes were
/// answered than wait, so moving the waiting bytes to its front costs less than reading the others did.
pub const READ_SPACE: usize = 2 * MAX_REQUEST;

/// How a connection ended.
#[derive(Clone, Copy, Debug, PartialEq, Eq)]
pub enum End {
    /// The input ended between two requests.
    Closed,
    /// A request was HTTP/1.0 or its connection listed close.
    Asked,
    /// The input wasn't a valid request.
    Refused,
    /// The read limit was reached.
    Turns,
}

/// A connection's outcome.
#[derive(Clone, Copy, Debug, PartialEq, Eq)]
pub struct Served {
    /// The number of replies written in full, saturating at `u64::MAX`. A refusal counts.
    pub requests: u64,
    /// How the connection ended.
    pub end: End,
}

/// Why serving a connection failed. `requests` counts the replies written in full.
#[derive(Clone, Copy, Debug, PartialEq, Eq, Error)]
pub enum ServeFault {
    /// Memory for the buffers ran out, before the first read.
    Memory,
    /// A read failed.
    Read { requests: u64 },
    /// A write failed or took 0 bytes.
    Write { requests: u64 },
    /// The handler couldn't read a content after its first bytes.
    Content { requests: u64 },
}

impl fmt::Display for ServeFault {
    fn fmt<W: fmt::Write>(&self, f: &mut fmt::Formatter<W>) -> fmt::Result {
        let (what, requests) = match self {
            ServeFault::Memory => return f.write_str("out of memory before the first read"),
            ServeFault::Read { requests } => ("a read failed", requests),
            ServeFault::Write { requests } => ("a write failed", requests),
            ServeFault::Content { requests } => ("a content could not be read", requests),
        };
        write!(f, "{what} after {requests} replies")
    }
}

/// What an answer comes to.
#[derive(Clone, Copy, Debug, PartialEq, Eq)]
pub struct Answer {
    /// What the connection comes to, once the rest of the reply is sent too.
    pub served: Served,
    /// What isn't to be sent yet of the reply's content.
    pub rest: Option<Rest>,
}

/// What an answer to a request comes to whose reply has this rest. `close` says whether the connection ends after it.
fn answered(close: bool, rest: Option<Rest>) -> Answer
    ensures { result ≡ answered close rest }
{
    let end = if close { End::Asked } else { End::Closed };
    Answer {
        served: Served { requests: 1, end },
        rest,
    }
}

/// What an answer comes to that has so many replies, and no rest.
fn whole(requests: u64, end: End) -> Answer
    ensures { result ≡ record { served = record { requests = requests; end = end }; rest = None } }
{
    Answer {
        served: Served { requests, end },
        rest: None,
    }
}

/// A connection: the bytes that were read and not answered, and those that wait to be sent. It is given what was read, finds and answers the
/// requests in it one by one, and shows what is to be sent. Its input holds no memory without bytes, and its output none after `clear_output`,
/// unless its buffers are reserved.
#[derive(Drop)]
pub struct Connection {
    input: Input,
    output: Output,
    /// Whether the memory of both is kept where no bytes wait.
    reserved: bool,
}

impl Model for Connection {
    ghost use Rattle.std.specs.Prelude.{◌≡◌, ◌≤◌, true};
    ghost use Rattle.http_serve.specs.Buffers.{buffer_size};
    ghost use Rattle.http_serve.specs.Connections.{ConnectionView};
    ghost use Rattle.http_serve.specs.declared.replies.TheConstants.{REPLY_SPACE};

    ghost Value = { ConnectionView };

    ghost view = { λ c. record { input = c.input.waiting; output = c.output.waiting; reserved = c.reserved } };

    ghost invariant = { λ c. c.reserved ≡ true → (buffer_size ≤ c.input.capacity) × (REPLY_SPACE ≤ c.output.capacity) };
}

impl Connection {
    /// A connection of which nothing was read. It holds no memory.
    pub fn new(alloc: Global) -> Self
        ensures { result ≡ record { input = []; output = []; reserved = false } }
    {
        Connection {
            input: Input::new(alloc),
            output: Output::new(alloc),
            reserved: false,
        }
    }

    /// The same, with memory for `READ_SPACE` bytes of input and a reply of 64 KiB, which is kept.
    ///
    /// # Errors
    ///
    /// There is no memory for them.
    pub fn reserved(alloc: Global) -> Result<Self, AllocError>
        ensures { IfOk result (λ connection. connection ≡ record { input = []; output = []; reserved = true }) }
    {
        let input = Input::with_capacity(alloc, READ_SPACE)?;
        let output = Output::with_capacity(alloc, REPLY_SPACE)?;
        Ok(Connection {
            input,
            output,
            reserved: true,
        })
    }

    /// How many bytes were read and not answered.
    pub fn input_len(&self) -> usize
        ensures { result ≡ length self.now.input }
    {
        self.input.len()
    }

    /// Whether bytes wait to be sent.
    pub fn has_output(&self) -> bool
        ensures some { result ≡ true → 0 < length self.now.output }
        ensures none { result ≡ false → self.now.output ≡ [] }
    {
        self.output.has_bytes()
    }

    /// How many bytes it holds of requests and replies. A content that it shares with others counts too.
    pub fn held(&self) -> usize
        ensures { length self.now.output ≤ result }
    {
        self.output.held().saturating_add(self.input.len())
    }

    /// Adds the bytes of a read to the input.
    ///
    /// # Errors
    ///
    /// Memory for them ran out. The connection is as before then. If the buffers are reserved and the input has at most `READ_SPACE` bytes with
    /// these, there is memory.
    pub fn receive(&mut self, more: &[u8]) -> Result<(), AllocError>
        ensures ok { IfOk result (λ _. self.new ≡ record self.old { input = self.old.input ++ more.now }) }
        ensures err { OnErr result (self.new ≡ self.old) }
        ensures succeeds { IsTrue self.old.reserved → length self.old.input + length more.now ≤ buffer_size → IsOk result }
    {
        self.input.add(more)
    }

    /// Makes one read into a piece, and adds its bytes to the input. Returns how many were read: 0 only at the end of what the reader has.
    ///
    /// # Errors
    ///
    /// The read failed. The input is the same then.
    pub(crate) fn read_from<R: Read>(
        &mut self,
        reader: &mut R,
        piece: &mut [u8],
    ) -> Result<usize, ReadFault>
        requires some { 0 < length piece.old }
        requires reserved { IsTrue self.old.reserved }
        requires fits { length self.old.input + length piece.old ≤ buffer_size }
        ensures ok { IfOk result (λ n. (more : List ℕ) × Consumes (R.remaining reader.old) (R.remaining reader.new) more
            × (self.new.input ≡ self.old.input ++ more) × (n ≡ length more) × (n ≡ 0 → IsAtEnd (R.remaining reader.new))) }
        ensures few { IfOk result (λ n. n ≤ length piece.old) }
        ensures err { OnErr result (Consumes (R.remaining reader.old) (R.remaining reader.new) [] × (self.new.input ≡ self.old.input)) }
        ensures same { self.new ≡ record self.old { input = self.new.input } }
        ensures length { length piece.new ≡ length piece.old }
    {
        self.input.read_from(reader, piece)
    }

    /// What is to be answered now, if `ended` says whether more bytes come: a request, whose header fields are at the first `fields`, bytes that
    /// are none, whatever follows, or all bytes, if nothing follows.
    pub fn find(&mut self, ended: bool, fields: &mut FieldSpans) -> Option<Asked>
        ensures asked { IfSome result (IsAsked self.old.input ended fields.new) }
        ensures more { result ≡ None → NeedsMore self.old.input }
        ensures same { self.new ≡ self.old }
    {
        self.input.find(ended, fields)
    }

    /// The bytes of the input.
    fn bytes(&self) -> &[u8]
        ensures { result.now ≡ self.now.input }
    {
        self.input.bytes()
    }

    /// The first `count` bytes of the input, or all if there are fewer.
    pub fn front(&self, count: usize) -> &[u8]
        ensures { result.now ≡ take count self.now.input }
    {
        self.input.front(count)
    }

    /// Makes room for the head of the next reply, unless the buffers are reserved or nothing was read. If memory runs out, the spare room is
    /// taken. Nothing waits to be sent before.
    pub fn begin(&mut self, spare: &mut Spare)
        requires { self.old.output ≡ [] }
        ensures { self.new ≡ self.old }
    {
        if self.reserved || self.input.len() == 0 {
            return;
        }
        self.output.begin_with(spare);
    }

    /// Has a handler make the next step of the preparation of the reply to the request that was found at the front of the input, whose header fields
    /// are at these spans. The connection has this number.
    pub fn prepare<H: Prepares>(
        &self,
        handler: &mut H,
        number: u64,
        moment: Moment,
        fields: &FieldSpans,
        frame: &Frame,
    ) -> Preparation
        requires found { IsNext self.now.input fields.now (Whole frame.now) }
        // It is one whole request.
        ensures { PreparesNext H.prepares number (take frame.now.body.end self.now.input) handler.old handler.new }
    {
        prepare_at(handler, number, moment, self.bytes(), fields, frame)
    }

    /// Answers what was found at the front of the input, whose header fields are at these spans, as `serve_with` answers an input of these bytes
    /// alone, and drops it from the input. The reply is to be sent then, up to the rest of its content: up to the bytes of it that the reply
    /// doesn't hold. `fetch` reads these later.
    ///
    /// # Errors
    ///
    /// There is no memory for the head of a reply: not if the buffers are reserved. Nothing was asked of the handler then, and nothing waits to be
    /// sent, but the bytes are dropped all the same.
    pub fn answer<H: Handler>(
        &mut self,
        handler: &mut H,
        fields: &FieldSpans,
        asked: Asked,
    ) -> Result<Answer, AllocError>
        requires sent { self.old.output ≡ [] }
        requires found { IsFound self.old.input fields.now asked }
        // If there is a rest, exactly what comes before it is to be sent: with the rest it is the whole reply to a whole request.
        ensures serves { ServesFound H.replies H.sends handler.old (take asked.end self.old.input) (Some []) result handler.new (Some self.new.output) }
        ensures input { self.new.input ≡ drop asked.end self.old.input }
        ensures reserved { self.new.reserved ≡ self.old.reserved }
        ensures succeeds { IsTrue self.old.reserved → IsOk result }
    {
        let answer = self.answer_found(handler, fields, asked.found);
        self.drop_input(asked.end);
        answer
    }

    /// Reads `count` bytes of a ticket's content from an offset to where they wait to be sent: nothing waits there before. If there is no memory
    /// for them, none are read. Returns how many were read.
    ///
    /// # Errors
    ///
    /// The bytes couldn't be read, and nothing waits.
    pub fn fetch<H: Downloads>(
        &mut self,
        handler: &mut H,
        ticket: Ticket,
        offset: u64,
        count: usize,
    ) -> Result<usize, RestFault>
        requires sent { self.old.output ≡ [] }
        ensures read { IfOk result (λ n. H.reads handler.old ticket offset n (Ok self.new.output) handler.new × (length self.new.output ≡ n)) }
        ensures most { IfOk result (λ n. n ≤ count) }
        ensures none { IfOk result (λ n. n < count → n ≡ 0) }
        ensures unread { IfErr result (λ fault. (n : ℕ) × (n ≤ count) × H.reads handler.old ticket offset n (Err fault) handler.new) }
        ensures cleared { OnErr result (self.new.output ≡ []) }
        ensures input { self.new.input ≡ self.old.input }
        ensures reserved { self.new.reserved ≡ self.old.reserved }
    {
        self.output.fetch(handler, ticket, offset, count)
    }

    /// The next bytes to send, as many as lie together: none only if none wait.
    pub fn piece(&self) -> &[u8]
        ensures { IsNextPiece result.now self.now.output }
    {
        self.output.piece()
    }

    /// The next bytes to send, in two pieces of which the first comes first: none only if none wait. The second is of a content that is lent.
    pub fn pieces(&self) -> (&[u8], &[u8])
        ensures { IsNextPiece (result.0.now ++ result.1.now) self.now.output }
    {
        self.output.pieces()
    }

    /// `count` of the bytes that wait to be sent were taken.
    pub fn took(&mut self, count: usize)
        requires { count ≤ length self.old.output }
        ensures { self.new ≡ record self.old { output = drop count self.old.output } }
    {
        self.output.took(count);
    }

    /// Drops what waits to be sent.
    pub fn clear_output(&mut self)
        ensures { self.new ≡ record self.old { output = [] } }
    {
        if self.reserved {
            self.output.clear();
        } else {
            self.output.free();
        }
    }

    /// Drops the whole input.
    pub fn clear_input(&mut self)
        ensures { self.new ≡ record self.old { input = [] } }
    {
        let count = self.input.len();
        self.drop_input(count);
    }

    /// What the input begins with. If it is a request, its header fields are at the first `fields`.
    pub(crate) fn next(&mut self, fields: &mut FieldSpans) -> Next
        ensures next { IsNext self.old.input fields.new result }
        ensures same { self.new ≡ self.old }
    {
        self.input.next(fields)
    }

    /// Puts the reply to the request at `frame`, whose header fields are at these spans, into the output, and returns the rest of its content.
    ///
    /// # Errors
    ///
    /// There is no memory for the head of a reply. Nothing was asked of the handler then.
    pub(crate) fn reply<H: Handler>(
        &mut self,
        handler: &mut H,
        fields: &FieldSpans,
        frame: &Frame,
    ) -> Result<Option<Rest>, AllocError>
        requires sent { self.old.output ≡ [] }
        requires found { IsNext self.old.input fields.now (Whole frame.now) }
        ensures replied { IfOk result (λ rest. Replied H.replies H.sends H.size handler.old self.old.input fields.now frame.now rest
            handler.new self.new.output) }
        ensures err { OnErr result ((self.new ≡ self.old) × (handler.new ≡ handler.old)) }
        ensures same { self.new ≡ record self.old { output = self.new.output } }
        ensures succeeds { IsTrue self.old.reserved → IsOk result }
    {
        match self.output.begin() {
            Ok(()) => {}
            Err(fault) => return Err(fault),
        }
        let bytes = self.input.bytes();
        Ok(reply_in(handler, &mut self.output, bytes, fields, frame))
    }

    /// Puts the reply for a rejection into the output.
    ///
    /// # Errors
    ///
    /// There is no memory for it.
    pub(crate) fn refuse(&mut self, rejection: Rejection) -> Result<(), AllocError>
        requires sent { self.old.output ≡ [] }
        ensures refused { OnOk result ((head : Option RequestHead) → rejection.bare ≡ has_head_method head
            → self.new.output ≡ refusal_bytes head rejection.refusal) }
        ensures err { OnErr result (self.new ≡ self.old) }
        ensures same { self.new ≡ record self.old { output = self.new.output } }
        ensures succeeds { IsTrue self.old.reserved → IsOk result }
    {
        match self.output.begin() {
            Ok(()) => {}
            Err(fault) => return Err(fault),
        }
        refuse_in(&mut self.output, rejection);
        Ok(())
    }

    /// Answers the request at `frame`, whose header fields are at these spans.
    fn answer_request<H: Handler>(
        &mut self,
        handler: &mut H,
        fields: &FieldSpans,
        frame: &Frame,
    ) -> Result<Answer, AllocError>
        requires sent { self.old.output ≡ [] }
        requires found { IsNext self.old.input fields.now (Whole frame.now) }
        ensures serves { ServesFound H.replies H.sends handler.old (take frame.now.body.end self.old.input) (Some []) result
            handler.new (Some self.new.output) }
        ensures same { self.new ≡ record self.old { output = self.new.output } }
        ensures succeeds { IsTrue self.old.reserved → IsOk result }
    {
        match self.reply(handler, fields, frame) {
            Ok(rest) => Ok(answered(frame.close, rest)),
            Err(fault) => Err(fault),
        }
    }

    /// Answers all bytes, which begin with no request, for this reason: nothing follows, or nothing that could begin with them is one.
    fn answer_rest(&mut self, reason: Rejection) -> Result<Answer, AllocError>
        requires sent { self.old.output ≡ [] }
        ensures ends { (head : Option RequestHead) → reason.bare ≡ has_head_method head → IfOk result (λ answer.
            IsFinished self.old.input head reason.refusal (Some []) 0 answer.served (Some self.new.output)) }
        ensures whole { IfOk result (λ answer. answer.rest ≡ None) }
        ensures memory { OnErr result (self.new.output ≡ []) }
        ensures same { self.new ≡ record self.old { output = self.new.output } }
        ensures succeeds { IsTrue self.old.reserved → IsOk result }
    {
        if self.input.len() == 0 {
            return Ok(whole(0, End::Closed));
        }
        match self.refuse(reason) {
            Ok(()) => Ok(whole(1, End::Refused)),
            Err(fault) => Err(fault),
        }
    }

    /// Answers what the input begins with.
    fn answer_found<H: Handler>(
        &mut self,
        handler: &mut H,
        fields: &FieldSpans,
        found: Next,
    ) -> Result<Answer, AllocError>
        requires sent { self.old.output ≡ [] }
        requires found { IsNext self.old.input fields.now found }
        ensures serves { ServesFound H.replies H.sends handler.old (take (found_end self.old.input found) self.old.input) (Some []) result
            handler.new (Some self.new.output) }
        ensures same { self.new ≡ record self.old { output = self.new.output } }
        ensures succeeds { IsTrue self.old.reserved → IsOk result }
    {
        match found {
            Next::Whole(frame) => self.answer_request(handler, fields, &frame),
            Next::Refused(rejection) => self.answer_rest(rejection),
            Next::More(missing) => self.answer_rest(missing.rejection),
        }
    }

    /// Drops the first `count` bytes of the input, or all if there are fewer.
    pub(crate) fn drop_input(&mut self, count: usize)
        ensures { self.new ≡ record self.old { input = drop count self.old.input } }
    {
        if count >= self.input.len() && !self.reserved {
            self.input.free();
            return;
        }
        self.input.drop_front(count);
    }
}
