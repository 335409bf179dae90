//! The rest of a content that a stretch left: it is read part by part, each once the peer has taken the part before.
ghost use Rattle.std.specs.Prelude.{◌≡◌, ◌<◌, ◌≤◌, ◌+◌, ◌-◌, ◌++◌, [], Ok, Result, List, ℕ, length, IfOk, IfErr, IfSome, OnErr, MatchOption};
ghost use Rattle.http_serve.specs.declared.handlers.RestFault.{RestFault};
ghost use Rattle.http_listen.specs.Rests.{rest_after, once_sent, EndsAt};

use crate::ends::EndFault;
use http_serve::{Answer, Connection, Downloads, PART_SIZE, Served, Ticket};
use std::alloc::AllocError;

/// The rest of a content, which isn't sent yet.
#[derive(Clone, Copy)]
pub(crate) struct Unsent {
    ticket: Ticket,
    /// How many bytes of the content were read.
    at: u64,
    /// How many bytes it has.
    end: u64,
}

impl Unsent {
    /// What is left after a stretch that came to this.
    pub(crate) fn after<H: Downloads>(
        outcome: &Result<Answer, AllocError>,
        handler: &H,
    ) -> Option<Unsent>
        ensures { result ≡ rest_after (H.ticket_of handler.now) outcome.now }
    {
        match *outcome {
            Ok(
                Answer {
                    rest: Some(rest),
                    ..
                },
            ) => Some(Unsent {
                ticket: handler.ticket(),
                at: rest.from,
                end: rest.length,
            }),
            _ => None,
        }
    }

    /// What is left once `count` more bytes were read.
    fn less(self, count: usize) -> Option<Unsent>
        ensures left { MatchOption result (self.end ≤ self.at + count) (λ next. next ≡ record self { at = self.at + count }) }
        ensures some { IfSome result (λ next. next.at < next.end) }
    {
        let left = self.end.saturating_sub(self.at);
        if count as u64 >= left {
            return None;
        }
        let at = self.at + count as u64;
        Some(Unsent { at, ..self })
    }

    /// How many bytes the next part has.
    fn part_len(self) -> usize
        ensures most { (result ≤ PART_SIZE) × (result ≤ self.end - self.at) }
        ensures some { self.at < self.end → 0 < result }
    {
        self.end.saturating_sub(self.at).min(PART_SIZE as u64) as usize
    }
}

/// What a connection comes to after a stretch, once the rest that it left is sent too.
pub(crate) fn once_sent(outcome: Result<Answer, AllocError>) -> Result<Served, EndFault>
    ensures { result ≡ once_sent outcome }
{
    match outcome {
        Ok(answer) => Ok(answer.served),
        Err(_) => Err(EndFault::Memory),
    }
}

/// Reads the next part of a content, of at most `PART_SIZE` bytes, to where it waits to be sent: nothing waits there before. If there is no memory
/// for it, none of its bytes are read. Returns what is left then.
///
/// # Errors
///
/// `Gone` or `Device` if it can't be read, `Memory` if there is none for it.
pub(crate) fn add_part<H: Downloads>(
    handler: &mut H,
    unsent: Unsent,
    connection: &mut Connection,
) -> Result<Option<Unsent>, EndFault>
    requires empty { connection.old.output ≡ [] }
    // No more bytes are read than are left. The fault says why they couldn't be.
    ensures read { (count : ℕ) × (outcome : Result (List ℕ) RestFault) × (count ≤ unsent.end - unsent.at)
        × H.reads handler.old unsent.ticket unsent.at count outcome handler.new × IfErr result (EndsAt outcome) }
    // What is added is what was read by the ticket, and the next part is read after it.
    ensures added { IfOk result (λ left. (count : ℕ) × (bytes : List ℕ) × (count ≤ unsent.end - unsent.at)
        × H.reads handler.old unsent.ticket unsent.at count (Ok bytes) handler.new × (connection.new.output ≡ connection.old.output ++ bytes)
        × MatchOption left (unsent.end ≤ unsent.at + length bytes) (λ next. next ≡ record unsent { at = unsent.at + length bytes })) }
    // Each part has bytes, so that a download comes to its end.
    ensures further { IfOk result (λ left. IfSome left (λ next. unsent.at < next.at)) }
    ensures same { OnErr result (connection.new.output ≡ connection.old.output) }
    ensures input { connection.new.input ≡ connection.old.input }
{
    let wanted = unsent.part_len();
    match connection.fetch(handler, unsent.ticket, unsent.at, wanted) {
        Ok(count) if count < wanted => Err(EndFault::Memory),
        Ok(count) => Ok(unsent.less(count)),
        Err(cause) => Err(EndFault::cut_by(cause)),
    }
}
