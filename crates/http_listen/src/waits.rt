//! Listeners whose connections can be waited for together.
ghost use Rattle.http_listen.specs.Places.{peer_at};
ghost use Rattle.http_listen.specs.Stays.{AllStand};

use crate::places::Places;
use http_serve::MAX_READS;
use std::io;
use std::time::Duration;

/// The maximum number of open connections.
pub const MAX_OPEN: usize = 16_384;

/// How many bytes of requests and replies all connections hold at most: 256 MiB.
pub const MAX_HELD: usize = 268_435_456;

/// How many milliseconds a turn goes on at least with steps of a preparation.
pub const PREPARING_MILLISECONDS: u64 = 1;

/// What a stream has become ready for.
#[derive(Clone, Copy, Debug)]
pub struct Change {
    /// A read returns bytes, the end of the input or a fault.
    pub reads: bool,
    /// A write takes bytes or returns a fault.
    pub writes: bool,
    /// The peer sends no more than what can be read now.
    pub ends: bool,
}

/// A listener that can be waited for together with streams.
pub trait Waits {
    /// The stream of a connection.
    type Stream: Drop;

    /// Accepts a connection, and never waits for one.
    ///
    /// # Errors
    ///
    /// `WouldBlock` if no connection is there; that of the system.
    fn accept(&self) -> io::Result<Self::Stream>;

    /// How many connections may be open at once. More than `MAX_OPEN` never are. One more is accepted, and waits until another one has ended.
    fn max_open(&self) -> usize {
        MAX_OPEN
    }

    /// How many bytes of requests and replies all connections may hold.
    fn max_held(&self) -> usize {
        MAX_HELD
    }

    /// How many reads of a connection may return bytes.
    fn max_reads(&self) -> u64 {
        MAX_READS
    }

    /// How long a connection's turn goes on at least with steps of the preparation of its reply: it goes on as long as all other turns took since the
    /// last turn with steps, but no more than four times this. The step that exceeds its time is the turn's last one.
    fn preparing_time(&self) -> Duration {
        Duration::from_millis(PREPARING_MILLISECONDS)
    }

    /// Reports from now on when the stream of the connection at this key can be read, and if `sends`, when it takes bytes. What it is
    /// ready for already is reported too. The stream may be watched before: this takes the place of that. One that is closed is no
    /// longer watched.
    ///
    /// # Errors
    ///
    /// It can't be watched.
    fn watch(&mut self, stream: &Self::Stream, key: usize, sends: bool) -> io::Result<()>;

    /// Waits until a connection comes or a stream that is watched becomes ready, but no longer than `longest`. Reports each change of a
    /// stream by `Places::report`, and whether a connection has come. A change is reported once: the next one of the stream may be
    /// reported only after a read or a write has returned `WouldBlock` or has moved fewer bytes than it might, and the next connection
    /// only after an accept has returned `WouldBlock`.
    ///
    /// # Errors
    ///
    /// They can't be waited for.
    fn wait(&mut self, longest: Duration, places: &mut Places<Self::Stream>) -> io::Result<bool>
        ensures stand { AllStand (peer_at places.old) (peer_at places.new) };

    /// Whether no more requests are to be read: the connections end then, once the replies that wait are sent, or after a second.
    fn stops(&self) -> bool {
        false
    }
}
