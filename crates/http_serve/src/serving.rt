//! The loop that serves a connection: each request gets a reply.
ghost use Rattle.std.specs.Prelude.{◌≡◌, ◌⊎◌, ◌≤◌, ◌<◌, [], Option, IsTrue, Err, length, vec_len, IfOk, IfErr, OnOk};
ghost use Rattle.httparse.specs.Grammar.{RequestHead};
ghost use Rattle.http_requests.specs.Frame.{IsNext};
ghost use Rattle.http_requests.specs.Requests.{request_view_at, has_head_method};
ghost use Rattle.http_requests.specs.declared.frames.Next.TheVariants.{Whole};
ghost use Rattle.http_serve.specs.Parts.{GivesOrFails, IsCutIn};
ghost use Rattle.http_serve.specs.Reply.{ReplyView, reply_at, refusal_bytes};
ghost use Rattle.http_serve.specs.Sent.{Sends};
ghost use Rattle.http_serve.specs.Steps.{IsPaused, IsBroken, IsFinished, IsUnfinished};
ghost use Rattle.http_serve.specs.Told.{IsServed, IsServedUpTo, HasContent, IsNotMemory, MeetsTurns, KeepsTurns, Serves};
ghost use Rattle.http_serve.specs.declared.connection.ServeFault.TheVariants.{Memory};
ghost use Rattle.http_serve.specs.declared.handlers.TheConstants.{PART_SIZE};

use crate::contents::{SendFault, send_each_part};
use crate::sessions::{Buffers, Session};
use crate::writes::{WriteFault, send_output};
use crate::{Connection, End, Handler, PART_SIZE, ServeFault, Served};
use http_requests::{FieldSpans, Frame, NO_FIELDS, NO_HEAD, Next, Rejection};
use std::io::{Read, Write};

/// Why answering requests stops.
#[derive(Clone, Copy)]
enum Pause {
    /// The connection ended.
    Ended(Served),
    /// `requests` replies were written, and more bytes are needed. If none follow, `rejection` is the reason.
    More { requests: u64, rejection: Rejection },
}

/// Answers the request at `frame`, whose header fields are at these spans, and writes the whole reply. `part` is for parts of its content.
fn answer_one<H: Handler, W: Write>(
    handler: &mut H,
    writer: &mut W,
    connection: &mut Connection,
    part: &mut [u8],
    fields: &FieldSpans,
    frame: &Frame,
) -> Result<(), SendFault>
    requires sent { connection.old.output ≡ [] }
    requires reserved { IsTrue connection.old.reserved }
    requires found { IsNext connection.old.input fields.now (Whole frame.now) }
    requires some { 0 < length part.old }
    requires few { length part.old ≤ PART_SIZE }
    ensures reply { (reply : ReplyView) × GivesOrFails result
        (H.replies handler.old (request_view_at connection.old.input fields.now frame.now) reply handler.new)
        (H.fails handler.old (request_view_at connection.old.input fields.now frame.now) reply handler.new)
        × Sends result (W.contents writer.old) (W.contents writer.new) (reply_at connection.old.input frame.now reply) }
    ensures cut { IfErr result (IsCutIn (H.size handler.new)) }
    ensures all { OnOk result (connection.new.output ≡ []) }
    ensures input { connection.new.input ≡ connection.old.input }
    ensures reserved { IsTrue connection.new.reserved }
    ensures length { length part.new ≡ length part.old }
{
    let rest = connection.reply(handler, fields, frame).unwrap();
    match send_output(writer, connection) {
        Ok(()) => {}
        Err(_) => return Err(SendFault::Write),
    }
    match rest {
        Some(rest) => send_each_part(handler, writer, part, rest.from, rest.length),
        None => Ok(()),
    }
}

/// Writes the reply for a rejection.
fn refuse<W: Write>(
    writer: &mut W,
    connection: &mut Connection,
    rejection: Rejection,
) -> Result<(), WriteFault>
    requires sent { connection.old.output ≡ [] }
    requires reserved { IsTrue connection.old.reserved }
    ensures sent { (head : Option RequestHead) → rejection.bare ≡ has_head_method head
        → Sends result (W.contents writer.old) (W.contents writer.new) (refusal_bytes head rejection.refusal) }
    ensures all { OnOk result (connection.new.output ≡ []) }
    ensures reserved { connection.new.reserved ≡ connection.old.reserved }
{
    connection.refuse(rejection).unwrap();
    send_output(writer, connection)
}

/// Answers each whole request and drops it from the input. `requests` replies came before. `part` is for parts of their contents.
fn answer_whole<H: Handler, W: Write>(
    handler: &mut H,
    writer: &mut W,
    connection: &mut Connection,
    part: &mut [u8],
    mut requests: u64,
) -> Result<Pause, ServeFault>
    requires sent { connection.old.output ≡ [] }
    requires reserved { IsTrue connection.old.reserved }
    requires some { 0 < length part.old }
    requires few { length part.old ≤ PART_SIZE }
    ensures all { OnOk result (connection.new.output ≡ []) }
    ensures reserved { IsTrue connection.new.reserved }
    ensures length { length part.new ≡ length part.old }
    ensures ok { IfOk result (λ pause. IsPaused H.replies handler.old connection.old.input (W.contents writer.old) requests pause
        handler.new connection.new.input (W.contents writer.new)) }
    ensures err { IfErr result (λ fault. IsBroken H.replies H.fails handler.old connection.old.input (W.contents writer.old) requests fault
        handler.new (W.contents writer.new)) }
    ensures content { IfErr result (HasContent (H.size handler.new)) }
    ensures no_memory { IfErr result IsNotMemory }
{
    let mut fields = NO_FIELDS;
    'requests: loop {
        let frame = match connection.next(&mut fields) {
            Next::Whole(frame) => frame,
            Next::More(missing) => {
                return Ok(Pause::More {
                    requests,
                    rejection: missing.rejection,
                });
            }
            Next::Refused(rejection) => match refuse(writer, connection, rejection) {
                Ok(()) => {
                    return Ok(Pause::Ended(Served {
                        requests: requests.saturating_add(1),
                        end: End::Refused,
                    }));
                }
                Err(_) => return Err(ServeFault::Write { requests }),
            },
        };
        match answer_one(handler, writer, connection, part, &fields, &frame) {
            Ok(()) => requests = requests.saturating_add(1),
            Err(fault) => return Err(fault.after(requests)),
        }
        if frame.close {
            let end = End::Asked;
            return Ok(Pause::Ended(Served { requests, end }));
        }
        connection.drop_input(frame.body.end);
    }
}

/// The same, with the first bytes of a buffer for parts of contents.
fn answer_read<H: Handler, W: Write>(
    handler: &mut H,
    writer: &mut W,
    connection: &mut Connection,
    buffer: &mut Vec<u8>,
    requests: u64,
) -> Result<Pause, ServeFault>
    requires sent { connection.old.output ≡ [] }
    requires reserved { IsTrue connection.old.reserved }
    requires space { PART_SIZE ≤ vec_len buffer.old }
    ensures all { OnOk result (connection.new.output ≡ []) }
    ensures reserved { IsTrue connection.new.reserved }
    ensures len { vec_len buffer.new ≡ vec_len buffer.old }
    ensures ok { IfOk result (λ pause. IsPaused H.replies handler.old connection.old.input (W.contents writer.old) requests pause
        handler.new connection.new.input (W.contents writer.new)) }
    ensures err { IfErr result (λ fault. IsBroken H.replies H.fails handler.old connection.old.input (W.contents writer.old) requests fault
        handler.new (W.contents writer.new)) }
    ensures content { IfErr result (HasContent (H.size handler.new)) }
    ensures no_memory { IfErr result IsNotMemory }
{
    answer_whole(
        handler,
        writer,
        connection,
        &mut buffer[..PART_SIZE],
        requests,
    )
}

/// Answers the end of the input after `requests` replies were written.
fn finish<W: Write>(
    writer: &mut W,
    connection: &mut Connection,
    requests: u64,
    reason: Rejection,
) -> Result<Served, ServeFault>
    requires sent { connection.old.output ≡ [] }
    requires reserved { IsTrue connection.old.reserved }
    ensures ends { (head : Option RequestHead) → reason.bare ≡ has_head_method head
        → IfOk result (λ served. IsFinished connection.old.input head reason.refusal (W.contents writer.old) requests served (W.contents writer.new)) }
    ensures fault { (head : Option RequestHead) → reason.bare ≡ has_head_method head
        → IfErr result (λ fault. IsUnfinished connection.old.input head reason.refusal (W.contents writer.old) requests fault (W.contents writer.new)) }
    ensures no_memory { IfErr result IsNotMemory }
    ensures reserved { connection.new.reserved ≡ connection.old.reserved }
{
    if connection.input_len() == 0 {
        return Ok(Served {
            requests,
            end: End::Closed,
        });
    }
    match refuse(writer, connection, reason) {
        Ok(()) => Ok(Served {
            requests: requests.saturating_add(1),
            end: End::Refused,
        }),
        Err(_) => Err(ServeFault::Write { requests }),
    }
}

/// Serves a connection with at most `turns` reads. An earlier one may have used the buffers.
fn serve_session<R: Read, W: Write, H: Handler>(
    session: &mut Session,
    reader: &mut R,
    writer: &mut W,
    handler: &mut H,
    turns: u64,
) -> Result<Served, ServeFault>
    ensures served { IfOk result (λ served. IsServed H.replies handler.old (R.remaining reader.old) (W.contents writer.old) served
        handler.new (R.remaining reader.new) (W.contents writer.new)) }
    ensures fault { IfErr result (λ fault. IsServedUpTo H.replies H.fails handler.old (R.remaining reader.old) (W.contents writer.old) fault
        handler.new (R.remaining reader.new) (W.contents writer.new)) }
    ensures content { IfErr result (HasContent (H.size handler.new)) }
    ensures no_memory { IfErr result IsNotMemory }
    ensures turns { IfOk result (λ served. MeetsTurns R.remaining turns reader.old reader.new served.end) }
    ensures reads { KeepsTurns turns result (R.remaining reader.old) (R.remaining reader.new) }
{
    session.begin();
    let mut requests = 0;
    let mut reason = NO_HEAD;
    for _turn in 0..turns {
        let Ok(count) = session.read_from(reader) else {
            return Err(ServeFault::Read { requests });
        };
        if count == 0 {
            return finish(writer, &mut session.connection, requests, reason);
        }
        let connection = &mut session.connection;
        match answer_read(handler, writer, connection, &mut session.piece, requests)? {
            Pause::Ended(served) => return Ok(served),
            Pause::More {
                requests: answered,
                rejection,
            } => {
                requests = answered;
                reason = rejection;
            }
        }
    }
    let end = End::Turns;
    Ok(Served { requests, end })
}

/// Serves a connection with at most `turns` reads: one reply per request, in order, and one to invalid input. After `turns` reads,
/// the whole requests in the bytes read are answered. The first connection allocates the buffers, and those after it use them.
///
/// # Errors
///
/// `Memory` only if the buffers aren't allocated yet; `Read`, `Write` and `Content` otherwise.
pub fn serve_with<R: Read, W: Write, H: Handler>(
    buffers: &mut Buffers,
    reader: &mut R,
    writer: &mut W,
    handler: &mut H,
    turns: u64,
) -> Result<Served, ServeFault>
    ensures serves { Serves H.replies H.fails H.size R.remaining W.contents turns handler.old reader.old writer.old result
        handler.new reader.new writer.new }
    // Buffers that are allocated stay so, and then memory can't run out.
    ensures kept { IsTrue buffers.old.allocated → IfErr result IsNotMemory }
    ensures keeps { (result ≡ Err Memory) ⊎ IsTrue buffers.new.allocated }
{
    if buffers.allocate().is_err() {
        return Err(ServeFault::Memory);
    }
    match &mut buffers.session {
        Some(session) => serve_session(session, reader, writer, handler, turns),
        None => Err(ServeFault::Memory),
    }
}
