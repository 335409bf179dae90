//! The turn of a connection: a read, or a write.
ghost use Rattle.std.specs.Prelude.{◌≡◌, ◌<◌, [], None, Some, Err, IfOk, IfErr, IfSome, IsSome, OnErr, Result, length};
ghost use Rattle.http_listen.specs.Conversations.{Beside, Stands, IsSearched, Turned};
ghost use Rattle.http_listen.specs.Courses.{Course, Settles, course_of};
ghost use Rattle.http_listen.specs.Talks.{Moves};
ghost use Rattle.http_listen.specs.Whys.{EndsSending};
ghost use Rattle.http_listen.specs.declared.ends.EndFault.{EndFault};
ghost use Rattle.http_listen.specs.declared.ends.EndFault.TheVariants.{Read};
ghost use Rattle.http_listen.specs.declared.turns.Next.TheVariants.{Rests};
ghost use Rattle.http_serve.specs.declared.connection.Served.{Served};

use crate::ends::EndFault;
use crate::peers::{Ending, Peer};
use crate::rests::Unsent;
use crate::talks::Talks;
use http_requests::FieldSpans;
use http_serve::Asked;
use std::time::Duration;

/// What follows the turn of a connection.
#[derive(Clone, Copy)]
pub(crate) enum Next {
    /// The first bytes of its input are to be answered.
    Asks(Asked),
    /// The next part of a content is to be read.
    Reads(Unsent),
    /// It is kept up to its next turn, or ends, if it came to an end.
    Rests(Ending),
    /// It has ended before, and its stream is closed.
    Closes,
}

impl<S: Talks> Peer<S> {
    /// Sends what the stream can take of the replies. If it has taken all, the connection goes on, or ends. If there is a rest to be read,
    /// it waits until the stream can take more. Returns what the connection came to, if it ends.
    pub(crate) fn send_replies(&mut self, now: Duration) -> Ending
        // Nothing is sent of replies that wait for more than their peer.
        ensures waits { IsSome self.old.state.hold → (self.new ≡ self.old) × (result ≡ None) }
        ensures hold { self.new.state.hold ≡ self.old.state.hold }
        ensures moves { Moves (S.told self.old.stream) self.old.connection.output [] [] (S.told self.new.stream) self.new.connection.output }
        ensures beside { Beside self.old self.new }
        ensures settles { Settles (course_of self.old) (course_of self.new) }
        ensures why { IfSome result (EndsSending self.old self.new) }
    {
        if self.state.hold.is_some() {
            return None;
        }
        if self.connection.has_output() {
            if let Err(fault) = self.send(now) {
                return Some(Err(fault));
            }
        }
        if self.sends() {
            return if self.pace.is_over() {
                Some(Err(EndFault::Write { requests: 0 }))
            } else {
                None
            };
        }
        match self.ending() {
            Some(outcome) => Some(outcome),
            None => {
                self.replied(now);
                None
            }
        }
    }

    /// The next part of a content was added to the output, and this is left of it: begins to send it. Or it couldn't be, and the connection
    /// ends with this fault.
    pub(crate) fn send_part(
        &mut self,
        now: Duration,
        outcome: Result<Option<Unsent>, EndFault>,
    ) -> Ending
        ensures moves { Moves (S.told self.old.stream) self.old.connection.output [] [] (S.told self.new.stream) self.new.connection.output }
        ensures beside { Beside self.old self.new }
        ensures settles { IfOk outcome (λ left. Settles (record { left = left; outcome = self.old.state.outcome; requests = self.old.state.requests })
            (course_of self.new)) }
        ensures failed { IfErr outcome (λ fault. result ≡ Some (Err fault)) }
        ensures rest { OnErr outcome (course_of self.new ≡ course_of self.old) }
    {
        match outcome {
            Ok(unsent) => {
                self.state.unsent = unsent;
                self.send_replies(now)
            }
            Err(fault) => Some(Err(fault)),
        }
    }
}

impl<S> Peer<S> {
    /// Searches the input for a request, or bytes that are none, whatever follows: these are answered, or all bytes at the input's end. If
    /// there is none, more is waited for. The header fields of a request are then at the first `fields`.
    pub(crate) fn search(&mut self, now: Duration, fields: &mut FieldSpans) -> Next
        ensures stands { Stands self.old self.new }
        ensures searched { IsSearched self.new.connection.input self.new.state.ended fields.new result }
        // It ends only if its time is used up.
        ensures late { (outcome : Result Served EndFault) → result ≡ Rests (Some outcome) → (outcome ≡ Err (Read 0)) × (self.new.pace.left ≡ 0) }
    {
        if let Some(asked) = self.connection.find(self.state.ended, fields) {
            self.pace = self.pace.writes();
            return Next::Asks(asked);
        }
        self.begin_read(now);
        if self.pace.is_over() {
            Next::Rests(Some(Err(EndFault::Read { requests: 0 })))
        } else {
            Next::Rests(None)
        }
    }
}

impl<S: Talks> Peer<S> {
    /// Has its turn: a read into `piece`, or a write. No request is looked for while replies wait, or the rest of one. The header fields of one
    /// that is found are at the first `fields`.
    pub(crate) fn take_turn(
        &mut self,
        now: Duration,
        is_full: bool,
        max_reads: u64,
        piece: &mut [u8],
        fields: &mut FieldSpans,
    ) -> Next
        requires { 0 < length piece.old }
        ensures { Turned S.told self.old fields.new result self.new }
    {
        if self.connection.has_output() {
            return Next::Rests(self.send_replies(now));
        }
        if let Some(left) = self.state.drops {
            return if self.drop_piece(now, left, piece) {
                Next::Rests(None)
            } else {
                Next::Closes
            };
        }
        if let Some(unsent) = self.state.unsent {
            return Next::Reads(unsent);
        }
        // Nothing is read, searched or answered before it is known that it goes on.
        if self.state.outcome.is_some() {
            let ending = self.send_replies(now);
            return Next::Rests(ending);
        }
        if self.state.searches {
            return self.search(now, fields);
        }
        self.receive(now, is_full, max_reads, piece, fields)
    }
}
