//! What bytes cost that come in small pieces.
use super::{OneByOne, serve};
use crate::streams::{FakeStream, Gives, take_from};
use crate::wanted::same;
use http_serve::{MAX_READS, READ_SPACE};
use std::alloc::{AllocError, Global};
use std::io;
use std::time::CpuClock;

/// A text, one that is repeated behind it, and one behind them: a head.
type Form = (&'static str, &'static str, &'static str);

/// Puts a head of a form behind the bytes, up to at least so many of them.
fn push_head(bytes: &mut Vec<u8>, form: Form, size: usize) -> Result<(), AllocError> {
    let (front, middle, end) = form;
    bytes.extend_from_slice(front.as_bytes())?;
    for _ in 0..size {
        if bytes.len() + end.len() >= size {
            break;
        }
        bytes.extend_from_slice(middle.as_bytes())?;
    }
    bytes.extend_from_slice(end.as_bytes())
}

/// One long field.
const LONG: Form = ("GET /a HTTP/1.1\r\nhost: a\r\nz: ", "z", "\r\n\r\n");

/// Gives bytes in pieces, and sees how much room each read has: where it isn't what the read before left, the bytes that waited were moved to
/// the front, if some waited.
#[derive(Clone, Copy)]
struct Watching<'a> {
    rest: &'a [u8],
    size: usize,
    room: usize,
    /// How many bytes were moved.
    moved: usize,
}

impl Gives for Watching<'_> {
    fn give(&mut self, buf: &mut [u8]) -> io::Result<usize> {
        let room = buf.len();
        if room != self.room {
            self.moved = self.moved.saturating_add(READ_SPACE.saturating_sub(room));
        }
        let count = take_from(&mut self.rest, self.size, buf);
        self.room = room.saturating_sub(count);
        Ok(count)
    }
}

/// How many bytes come, in requests of 8,000 bytes each, in pieces of which size, and whether some of them are moved: where no piece ends
/// with a request before the buffer is used up.
static COMING: [(usize, usize, bool); 3] = [
    (8_000, 1, false),
    (320_000, 100, false),
    (320_000, 301, true),
];

/// Puts together this many bytes of requests.
fn push_requests(bytes: &mut Vec<u8>, count: usize) -> Result<(), AllocError> {
    let mut size = 0usize;
    for _ in 0..count / 8_000 {
        size = size.saturating_add(8_000);
        push_head(bytes, LONG, size)?;
    }
    Ok(())
}

/// How many of these bytes are moved, which come in pieces of this size. `None` if they aren't served.
fn moved_among(alloc: Global, bytes: &[u8], size: usize) -> Option<usize> {
    let mut reader = FakeStream {
        inner: Watching {
            rest: bytes,
            size,
            room: READ_SPACE,
            moved: 0,
        },
    };
    let mut out = Vec::new(alloc);
    let served = serve(alloc, &mut reader, &mut out, MAX_READS);
    drop(out);
    if served.is_ok() {
        Some(reader.inner.moved)
    } else {
        None
    }
}

/// The same of so many bytes of requests. `None` if there is no memory for them either.
fn moved_of(alloc: Global, count: usize, size: usize) -> Option<usize> {
    let mut bytes = Vec::new(alloc);
    let moved = match push_requests(&mut bytes, count) {
        Ok(()) => moved_among(alloc, &bytes, size),
        Err(_) => None,
    };
    drop(bytes);
    moved
}

/// The size of the pieces, and how many bytes are moved, where these are first more than come, or none though some are to be, or where the
/// bytes aren't served.
fn moved_otherwise(alloc: Global) -> Option<(usize, Option<usize>)> {
    for (count, size, are_some) in &COMING {
        let moved = moved_of(alloc, *count, *size);
        let told = moved.unwrap_or(usize::MAX);
        if told > *count || (told > 0) != *are_some {
            return Some((*size, moved));
        }
    }
    None
}

#[test]
fn waiting_bytes_are_seldom_moved(rt: HostRuntime) {
    same(&rt, &moved_otherwise(rt.alloc()), &None);
}

/// Heads of one long field, of many short ones, and with a target that isn't ASCII.
static FORMS: [Form; 3] = [
    LONG,
    ("GET /a HTTP/1.1\r\nhost: a\r\n", "x: y\r\n", "\r\n"),
    ("GET /", "\u{e9}", " HTTP/1.1\r\nhost: a\r\n\r\n"),
];

/// Serves so many connections of one head each, whose bytes come one by one.
fn serve_heads(alloc: Global, head: &[u8], count: u64) {
    for _ in 0..count {
        let mut reader = FakeStream {
            inner: OneByOne {
                rest: head,
                failed: 0,
            },
        };
        let mut out = Vec::new(alloc);
        let _ = serve(alloc, &mut reader, &mut out, MAX_READS);
    }
}

/// The microseconds of the processor for these connections.
fn time_of(rt: &HostRuntime, head: &[u8], count: u64) -> Option<u64> {
    let start = rt.thread_cpu_time().ok()?;
    serve_heads(rt.alloc(), head, count);
    let time = rt.thread_cpu_time().ok()?.saturating_sub(start);
    u64::try_from(time.as_micros()).ok()
}

/// The same with a head of so many bytes.
fn time_of_form(rt: &HostRuntime, form: Form, size: usize, count: u64) -> Option<u64> {
    let mut head = Vec::new(rt.alloc());
    let time = match push_head(&mut head, form, size) {
        Ok(()) => time_of(rt, &head, count),
        Err(_) => None,
    };
    drop(head);
    time
}

/// How often a form is timed whose long heads seem to be slow: another process may have taken the caches meanwhile.
const TIMES: u64 = 3;

/// Whether as many bytes take much longer in long heads of a form than in short ones, each time. Were a head parsed for each byte, they
/// would take eight times as long. `None` if they can't be timed.
fn is_slow(rt: &HostRuntime, form: Form) -> Option<bool> {
    for _ in 0..TIMES {
        let short = time_of_form(rt, form, 1_000, 200)?;
        let long = time_of_form(rt, form, 8_000, 25)?;
        if long / 4 <= short {
            return Some(false);
        }
    }
    Some(true)
}

/// The form whose long heads are slow, or that can't be timed, if there is one.
fn slow_form(rt: &HostRuntime) -> Option<usize> {
    for (index, form) in FORMS.iter().enumerate() {
        if is_slow(rt, *form) != Some(false) {
            return Some(index);
        }
    }
    None
}

#[test]
fn long_heads_take_no_longer_by_the_byte(rt: HostRuntime) {
    same(&rt, &slow_form(&rt), &None);
}
