//! Listeners of TCP whose streams the system watches.
ghost use Rattle.std.specs.Prelude.{◌≡◌, ℕ, [], IfOk, OnOk, OnErr};
ghost use Rattle.http_listen.specs.Listeners.{is_of_listener, has_listener, change_of, after_event, after_events};
ghost use Rattle.http_listen.specs.Places.{peer_at, KeepsAll};
ghost use Rattle.http_listen.specs.Stays.{AllStand};

use crate::places::Places;
use crate::waits::{Change, Waits};
use mio::event::Event;
use mio::unix::SourceFd;
use mio::{Events, Interest, Poll, Token};
use std::alloc::{AllocError, Global};
use std::io::{self, ErrorKind};
use std::marker::Model;
use std::net::{Net, TcpListener, TcpStream};
use std::os::fd::AsRawFd;
use std::time::Duration;

/// How many changes one wait reports at most. The others are reported by the next one.
const MAX_EVENTS: usize = 512;

/// The token of the listener itself: the key of no connection.
const LISTENER: usize = usize::MAX;

/// A listener of TCP, and the system's set of what is watched.
#[derive(Drop)]
pub struct SystemListener {
    listener: TcpListener,
    max_open: usize,
    poll: Poll,
    events: Events,
}

impl Model for SystemListener {
    ghost use Rattle.http_listen.specs.Listeners.{ListenerView};
    ghost use Rattle.mio.specs.Events.{items};

    ghost Value = { ListenerView };

    ghost view = { λ l. record { max_open = l.max_open; events = items l.events } };
}

impl SystemListener {
    /// Watches a listener, of whose connections at most `max_open` are to be open at once.
    ///
    /// # Errors
    ///
    /// The system has no descriptor or memory left for its set.
    pub fn new(
        net: &impl Net,
        alloc: Global,
        listener: TcpListener,
        max_open: usize,
    ) -> io::Result<Self>
        ensures { IfOk result (λ made. made ≡ record { max_open = max_open; events = [] }) }
    {
        listener.set_nonblocking(true)?;
        let poll = Poll::new(net)?;
        let fd = listener.as_raw_fd();
        let mut source = SourceFd(&fd);
        poll.registry()
            .register(&mut source, Token(LISTENER), Interest::READABLE)?;
        match Events::with_capacity(alloc, MAX_EVENTS) {
            Ok(events) => Ok(SystemListener {
                listener,
                max_open,
                poll,
                events,
            }),
            Err(AllocError) => Err(ErrorKind::OutOfMemory.into()),
        }
    }
}

/// What an event says of a stream.
fn change_of(event: &Event) -> Change
    ensures { result ≡ change_of event.now }
{
    let ends = event.is_read_closed() || event.is_error();
    Change {
        reads: event.is_readable() || ends,
        writes: event.is_writable() || event.is_write_closed() || event.is_error(),
        ends,
    }
}

/// Reports an event of a stream. Whether it is one of the listener itself, which isn't reported.
fn report_event(event: &Event, places: &mut Places<TcpStream>) -> bool
    ensures is { result ≡ is_of_listener event.now }
    ensures reported { (key : ℕ) → peer_at places.new key ≡ after_event key event.now (peer_at places.old key) }
{
    let Token(key) = event.token();
    if key == LISTENER {
        return true;
    }
    places.report(key, change_of(event));
    false
}

impl Waits for SystemListener {
    type Stream = TcpStream;

    fn accept(&self) -> io::Result<TcpStream> {
        let (stream, _) = self.listener.accept()?;
        Ok(stream)
    }

    fn max_open(&self) -> usize
        ensures { result ≡ self.now.max_open }
    {
        self.max_open
    }

    fn watch(&mut self, stream: &TcpStream, key: usize, sends: bool) -> io::Result<()>
        ensures { self.new ≡ self.old }
    {
        let interest = if sends {
            Interest::READABLE | Interest::WRITABLE
        } else {
            Interest::READABLE
        };
        let fd = stream.as_raw_fd();
        let registry = self.poll.registry();
        match registry.register(&mut SourceFd(&fd), Token(key), interest) {
            // It is watched already.
            Err(e) if e.kind() == ErrorKind::AlreadyExists => {
                registry.reregister(&mut SourceFd(&fd), Token(key), interest)
            }
            outcome => outcome,
        }
    }

    fn wait(&mut self, longest: Duration, places: &mut Places<TcpStream>) -> io::Result<bool>
        ensures stand { AllStand (peer_at places.old) (peer_at places.new) }
        ensures same { self.new ≡ record self.old { events = self.new.events } }
        // What the system gave is reported, and nothing else.
        ensures comes { IfOk result (λ comes. comes ≡ has_listener self.new.events) }
        ensures reported { OnOk result ((key : ℕ) → peer_at places.new key ≡ after_events key self.new.events (peer_at places.old key)) }
        ensures failed { OnErr result (KeepsAll places.old places.new) }
    {
        self.poll.poll(&mut self.events, Some(longest))?;
        let mut comes = false;
        for event in self.events.iter() {
            let of_listener = report_event(event, places);
            comes = comes || of_listener;
        }
        Ok(comes)
    }
}
