//! What is written of an archive by writers that fail. What is written by others is shown by the script of `map_runs`.
use crate::streams::{FakeStream, Takes};
use crate::wanted::same;
use archive_commands::show;
use std::alloc::Global;
use std::io::{self, ErrorKind, Write};

/// How many bytes the sound archive has.
const SOUND_BYTES: usize = 223;

/// An archive of three tiles with one content, which is a vector tile with one point.
static SOUND: [u8; SOUND_BYTES] = *b"PMTiles\x03\
    \x7f\0\0\0\0\0\0\0\x09\0\0\0\0\0\0\0\x88\0\0\0\0\0\0\0\x42\0\0\0\0\0\0\0\
    \xca\0\0\0\0\0\0\0\0\0\0\0\0\0\0\0\xca\0\0\0\0\0\0\0\x15\0\0\0\0\0\0\0\
    \x03\0\0\0\0\0\0\0\x02\0\0\0\0\0\0\0\x01\0\0\0\0\0\0\0\
    \x01\x01\x01\x01\x00\x02\
    \x00\x2e\xb6\x94\x49\x3a\x4e\xcd\x00\xd2\x49\x6b\xb7\xc5\xb1\x32\x00\0\0\0\0\0\0\0\0\
    \x02\x00\x05\x02\x01\x15\x15\x01\x01\
    {\"vector_layers\":[{\"fields\":{},\"id\":\"p\",\"maxzoom\":2,\"minzoom\":0}]}\
    \x1a\x13\x0a\x01\x70\x12\x09\x08\x07\x18\x01\x22\x03\x09\x00\x00\x28\x80\x20\x78\x02";

/// Whether showing an archive fails with this word.
fn fails<W: Write>(alloc: Global, archive: &[u8], out: &mut W, word: &str) -> bool {
    let Err(fault) = show(archive, out) else {
        return false;
    };
    match fault.to_string(alloc) {
        Ok(text) => text.as_str() == word,
        Err(_) => false,
    }
}

/// The writer has no room for the last line feed.
#[test]
fn a_writer_without_room(rt: HostRuntime) {
    let mut room = [0; SOUND_BYTES];
    let mut writer = room.as_mut_slice();
    same(&rt, &fails(rt.alloc(), &SOUND, &mut writer, "Write"), &true);
}

/// A writer that takes up to five bytes a write, is interrupted at each third, and fails once no writes are left.
#[derive(Drop)]
struct Slow {
    held: Vec<u8>,
    writes_left: u8,
    has_failed: bool,
}

impl Takes for Slow {
    fn take(&mut self, buf: &[u8]) -> io::Result<usize> {
        if self.writes_left == 0 {
            self.has_failed = true;
            return Err(io::Error::from(ErrorKind::BrokenPipe));
        }
        self.writes_left -= 1;
        if self.writes_left % 3 == 0 {
            return Err(io::Error::from(ErrorKind::Interrupted));
        }
        let part = &buf[..buf.len().min(5)];
        self.held.extend_from_slice(part)?;
        Ok(part.len())
    }
}

/// Whether an archive is shown whole by so many writes. `None` if another text is written than the whole one or a part of it, or if a
/// writer that failed is no fault.
fn is_shown(alloc: Global, whole: &[u8], writes_left: u8) -> Option<bool> {
    let mut out = FakeStream {
        inner: Slow {
            held: Vec::new(alloc),
            writes_left,
            has_failed: false,
        },
    };
    let is_shown = show(&SOUND, &mut out).is_ok();
    let slow = &out.inner;
    let is_whole = slow.held.len() == whole.len();
    if is_shown == slow.has_failed || is_shown != is_whole || !whole.starts_with(&slow.held) {
        return None;
    }
    Some(is_shown)
}

/// By how many writes it is first otherwise, if it is, and whether it is shown whole by the most.
fn other_writes(alloc: Global, whole: &[u8]) -> (Option<u8>, bool) {
    let mut is_last_shown = false;
    for writes_left in 0..=100 {
        match is_shown(alloc, whole, writes_left) {
            Some(is_shown) => is_last_shown = is_shown,
            None => return (Some(writes_left), false),
        }
    }
    (None, is_last_shown)
}

/// The same of what is shown of the sound archive, if nothing else fails.
fn sound_writes(alloc: Global) -> Option<(Option<u8>, bool)> {
    let mut whole = Vec::new(alloc);
    match show(&SOUND, &mut whole) {
        Ok(()) => Some(other_writes(alloc, &whole)),
        Err(_) => None,
    }
}

#[test]
fn writes_that_fail(rt: HostRuntime) {
    same(&rt, &sound_writes(rt.alloc()), &Some((None, true)));
}
