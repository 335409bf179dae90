//! One write of two pieces to a stream.
ghost use Rattle.std.specs.Prelude.{◌≡◌, ◌≤◌, ◌+◌, ◌++◌, [], length, take, MatchResult};
ghost use Rattle.std.specs.Io.{WritesAtMost};
ghost use Rattle.http_listen.specs.Talks.{Grows};

use crate::talks::Talks;
use std::io::{self, ErrorKind};

/// The first bytes of two pieces, at most this many.
pub(crate) fn first_bytes<'a>(
    front: &'a [u8],
    behind: &'a [u8],
    most: usize,
) -> (&'a [u8], &'a [u8])
    ensures first { result.0.now ++ result.1.now ≡ take most (front.now ++ behind.now) }
    ensures most { length result.0.now + length result.1.now ≤ most }
{
    let count = front.len().min(most);
    let more = behind.len().min(most - count);
    (&front[..count], &behind[..more])
}

/// Makes one write of two pieces, and another one if a signal interrupts it.
pub(crate) fn send_again<S: Talks>(stream: &mut S, front: &[u8], behind: &[u8]) -> io::Result<usize>
    ensures bound { WritesAtMost result (front.now ++ behind.now) }
    ensures told { MatchResult result (λ n. Grows (S.told stream.old) [] (take n (front.now ++ behind.now)) (S.told stream.new))
        (λ _. Grows (S.told stream.old) [] [] (S.told stream.new)) }
{
    match stream.send(front, behind) {
        Err(e) if e.kind() == ErrorKind::Interrupted => stream.send(front, behind),
        outcome => outcome,
    }
}
