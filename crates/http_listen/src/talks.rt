//! Streams that tell what they gave and took.
ghost use Rattle.std.specs.Prelude.{◌≡◌, ◌<◌, ◌++◌, [], length, take, None, Option, IfOk, MatchResult};
ghost use Rattle.std.specs.Io.{ReadsAtMost, WritesAtMost};
ghost use Rattle.http_listen.specs.Talks.{Told, Grows, HasEnded};

use std::io::{self, IoSlice, Read, Write};
use std::net::TcpStream;

/// A stream of bytes in both directions. What is proved of a connection is said in what its stream told: that of every stream, also of one
/// that tells nothing, since what serves them can't see which it is.
pub trait Talks {
    /// The bytes that its reads gave and that its writes took, up to now, and where it ends, if a read told that; if this is known.
    ghost told: { Self → Option Told } = { λ _. None };

    /// Makes one read, which takes nothing. If it gives nothing, it tells that the stream has ended.
    ///
    /// # Errors
    ///
    /// That of the system. Nothing was read.
    fn receive(&mut self, buf: &mut [u8]) -> io::Result<usize>
        ensures bound { ReadsAtMost result buf.new }
        ensures told { MatchResult result (λ n. Grows (told self.old) (take n buf.new) [] (told self.new))
            (λ _. Grows (told self.old) [] [] (told self.new)) }
        ensures ends { IfOk result (λ n. n ≡ 0 → 0 < length buf.old → HasEnded (told self.new)) };

    /// Makes one write of these bytes and of those behind them, which gives nothing.
    ///
    /// # Errors
    ///
    /// That of the system. Nothing was written.
    fn send(&mut self, front: &[u8], behind: &[u8]) -> io::Result<usize>
        ensures bound { WritesAtMost result (front.now ++ behind.now) }
        ensures told { MatchResult result (λ n. Grows (told self.old) [] (take n (front.now ++ behind.now)) (told self.new))
            (λ _. Grows (told self.old) [] [] (told self.new)) };
}

impl Talks for TcpStream {
    fn receive(&mut self, buf: &mut [u8]) -> io::Result<usize> {
        self.read(buf)
    }

    fn send(&mut self, front: &[u8], behind: &[u8]) -> io::Result<usize> {
        if behind.is_empty() {
            return self.write(front);
        }
        // That of the socket, which is one call of the system: the trait's is one for each slice.
        let stream: &TcpStream = self;
        stream.write_vectored(&[IoSlice::new(front), IoSlice::new(behind)])
    }
}
