//! Contents that are read from the handler in parts.
ghost use Rattle.std.specs.Prelude.{◌≡◌, ◌≤◌, ◌<◌, ◌+◌, length, take, drop, IfErr, OnOk};
ghost use Rattle.http_serve.specs.Parts.{GivesOrFails, IsCutIn, IsLater, cut_after};
ghost use Rattle.http_serve.specs.declared.handlers.TheConstants.{PART_SIZE};
ghost use Rattle.http_requests.specs.Requests.{RequestView};
ghost use Rattle.http_serve.specs.Reply.{ReplyView};
ghost use Rattle.http_serve.specs.Sent.{Sends};

use crate::writes::send_all;
use crate::{Handler, ServeFault};
use std::io::Write;

/// Why a reply was cut.
#[derive(Clone, Copy)]
pub(crate) enum SendFault {
    /// A write failed or took 0 bytes.
    Write,
    /// The handler couldn't read the content.
    Content,
}

impl SendFault {
    /// The fault of the connection after `requests` complete replies.
    pub(crate) fn after(self, requests: u64) -> ServeFault
        ensures { result ≡ cut_after requests self }
    {
        match self {
            SendFault::Write => ServeFault::Write { requests },
            SendFault::Content => ServeFault::Content { requests },
        }
    }
}

/// Reads the part of a content at an offset, and writes it.
fn send_part<H: Handler, W: Write>(
    handler: &mut H,
    writer: &mut W,
    offset: u64,
    part: &mut [u8],
) -> Result<(), SendFault>
    requires within { offset + length part.old ≤ H.size handler.old }
    requires some { 0 < length part.old }
    requires few { length part.old ≤ PART_SIZE }
    ensures sent { (old : H) (request : RequestView) (reply : ReplyView) → H.sends old request reply handler.old
        → length reply.content ≡ H.size handler.old → (later : ReplyView) × IsLater offset reply later
        × GivesOrFails result (H.replies old request later handler.new) (H.fails old request later handler.new)
        × OnOk result (H.sends old request later handler.new)
        × Sends result (W.contents writer.old) (W.contents writer.new) (take (length part.old) (drop offset later.content)) }
    ensures cut { IfErr result (IsCutIn (H.size handler.new)) }
    ensures size { H.size handler.new ≡ H.size handler.old }
    ensures length { length part.new ≡ length part.old }
{
    match handler.read_content(offset, part) {
        Ok(()) => {}
        Err(_) => return Err(SendFault::Content),
    }
    match send_all(writer, part) {
        Ok(()) => Ok(()),
        Err(_) => Err(SendFault::Write),
    }
}

/// Reads a content of `size` bytes from an offset to its end, as many bytes at once as a buffer has, and writes each part.
pub(crate) fn send_each_part<H: Handler, W: Write>(
    handler: &mut H,
    writer: &mut W,
    buffer: &mut [u8],
    offset: u64,
    size: u64,
) -> Result<(), SendFault>
    requires size { H.size handler.old ≡ size }
    requires within { offset ≤ size }
    requires some { 0 < length buffer.old }
    requires few { length buffer.old ≤ PART_SIZE }
    ensures sent { (old : H) (request : RequestView) (reply : ReplyView) → H.sends old request reply handler.old
        → H.replies old request reply handler.old → length reply.content ≡ size
        → (later : ReplyView) × IsLater offset reply later
        × GivesOrFails result (H.replies old request later handler.new) (H.fails old request later handler.new)
        × Sends result (W.contents writer.old) (W.contents writer.new) (drop offset later.content) }
    ensures cut { IfErr result (IsCutIn (H.size handler.new)) }
    ensures length { length buffer.new ≡ length buffer.old }
{
    let mut at = offset;
    while at < size {
        let count = (size - at).min(buffer.len() as u64);
        send_part(handler, writer, at, &mut buffer[..count as usize])?;
        at += count;
    }
    Ok(())
}
