//! The lines of the log.
ghost use Rattle.std.specs.Prelude.{◌≡◌, OnOk};
ghost use Rattle.std.specs.Io.KnownBytes.{Appends};
ghost use Rattle.http_listen.specs.Lines.{result_word, replied_requests, line_of};

use crate::ends::EndFault;
use http_serve::{End, Served};
use std::io::{self, Write};

/// How many requests of a stretch got a whole reply.
pub(crate) fn replied_requests(outcome: Result<Served, EndFault>) -> u64
    ensures { result ≡ replied_requests outcome }
{
    match outcome {
        Ok(served) => served.requests,
        Err(EndFault::Memory) => 0,
        Err(
            EndFault::Read { requests }
            | EndFault::Write { requests }
            | EndFault::Device { requests }
            | EndFault::Gone { requests }
            | EndFault::Unconfirmed { requests },
        ) => requests,
    }
}

/// The word for what a connection came to.
fn result_word(outcome: Result<Served, EndFault>) -> &'static str
    ensures { result.now ≡ result_word outcome }
{
    match outcome {
        Ok(served) => match served.end {
            End::Closed => "closed",
            End::Asked => "asked",
            End::Refused => "refused",
            End::Turns => "turns",
        },
        Err(EndFault::Memory) => "memory",
        Err(EndFault::Read { .. }) => "read",
        Err(EndFault::Write { .. }) => "write",
        Err(EndFault::Device { .. }) => "device",
        Err(EndFault::Gone { .. }) => "gone",
        Err(EndFault::Unconfirmed { .. }) => "unconfirmed",
    }
}

/// Writes the line of a connection: its number, how many requests got a whole reply, and its end. They are those of its last stretch,
/// which came to `outcome`, and the `earlier` ones.
pub fn write_line<W: Write>(
    log: &mut W,
    number: u64,
    earlier: u64,
    outcome: Result<Served, EndFault>,
) -> io::Result<()>
    ensures { OnOk result (Appends (W.contents log.old) (W.contents log.new) (line_of number earlier outcome)) }
{
    let last = replied_requests(outcome);
    let requests = last.saturating_add(earlier);
    let word = result_word(outcome);
    writeln!(log, "connection {number}: {requests} requests, {word}")
}
