//! What is recorded of connections.
ghost use Rattle.std.specs.Prelude.{◌≡◌, ◌∷◌, [], ℕ, List, Option, None, OnOk};
ghost use Rattle.std.specs.Io.KnownBytes.{Appends};
ghost use Rattle.http_listen.specs.Lines.{line_of};
ghost use Rattle.http_listen.specs.Marks.{Mark, at_opening, at_closing, Adds};

use crate::ends::EndFault;
use crate::lines::write_line;
use http_serve::Served;
use std::io::{self, Write};
use std::marker::Model;

/// A log of connections, which is given their streams: each as its connection is opened, and to close it. What is proved of a connection is said
/// of these two, for every log, also for one that records none, since what serves connections can't see which it is.
pub trait Logs<S> {
    /// The streams of connections, as each was opened and closed, in order, if this is known.
    ghost marks: { Self → Option (List (Mark S)) } = { λ _. None };

    /// The lines, if they are known.
    ghost lines: { Self → Option (List ℕ) } = { λ _. None };

    /// The connection of this number begins, with this stream.
    fn opened(&mut self, number: u64, stream: &S)
        ensures opens { Adds (marks self.old) (at_opening number stream.now ∷ []) (marks self.new) };

    /// Writes the line of the connection of this number, which has ended. Its last stretch came to `outcome`, and `earlier` requests got a whole
    /// reply before.
    ///
    /// # Errors
    ///
    /// The line couldn't be written.
    fn line(
        &mut self,
        number: u64,
        earlier: u64,
        outcome: Result<Served, EndFault>,
    ) -> io::Result<()>
        ensures line { OnOk result (Appends (lines self.old) (lines self.new) (line_of number earlier outcome)) }
        ensures same { marks self.new ≡ marks self.old };

    /// Closes the stream of the connection of this number.
    fn closed(&mut self, number: u64, stream: S)
        ensures closes { Adds (marks self.old) (at_closing number stream ∷ []) (marks self.new) };
}

/// A log that writes the lines, and records no streams.
#[derive(Drop)]
pub struct Log<W> {
    out: W,
}

impl<W> Model for Log<W> {
    ghost Value = { W };

    ghost view = { λ log. log.out };
}

impl<W> Log<W> {
    /// A log that writes to this.
    pub fn new(out: W) -> Self
        ensures { result ≡ out }
    {
        Log { out }
    }
}

impl<W: Write, S: Drop> Logs<S> for Log<W> {
    ghost lines = { λ log. W.contents log };

    fn opened(&mut self, _number: u64, _stream: &S) {}

    fn line(
        &mut self,
        number: u64,
        earlier: u64,
        outcome: Result<Served, EndFault>,
    ) -> io::Result<()> {
        write_line(&mut self.out, number, earlier, outcome)
    }

    fn closed(&mut self, _number: u64, stream: S) {
        drop(stream);
    }
}
