//! The bytes of a connection that were read and not answered.
ghost use Rattle.std.specs.Prelude.{◌≡◌, ◌≤◌, ◌<◌, ◌+◌, ◌++◌, ℕ, List, [], None, length, take, drop, vec_len, vec_capacity, IfOk, IfSome, IsOk, OnErr};
ghost use Rattle.std.specs.Io.KnownBytes.{Consumes, IsAtEnd};
ghost use Rattle.http_requests.specs.Frame.{IsNext};
ghost use Rattle.http_requests.specs.Inputs.{IsAsked, NeedsMore};

use crate::frames::{FieldSpans, NO_BYTES, Next};
use crate::searches::{START, Search, find_next};
use std::alloc::{AllocError, Global};
use std::io::Read;
use std::marker::Model;

/// A read failed.
#[derive(Clone, Copy)]
pub struct ReadFault;

/// What is to be answered of an input: what it begins with, and where that ends. If it is no request, that is where the input does.
#[derive(Clone, Copy)]
pub struct Asked {
    pub found: Next,
    pub end: usize,
}

/// What is answered of a connection of which nothing was read.
pub const NOTHING_ASKED: Asked = Asked {
    found: NO_BYTES,
    end: 0,
};

/// Bytes that wait to be answered, and what is known of them.
#[derive(Drop)]
pub struct Input {
    alloc: Global,
    bytes: Vec<u8>,
    /// How many of them were answered.
    start: usize,
    search: Search,
}

impl Model for Input {
    ghost use Rattle.std.specs.Prelude.{◌≤◌, drop, vec_len, vec_capacity};
    ghost use Rattle.http_requests.specs.Search.{IsKnown};
    ghost use Rattle.http_requests.specs.Inputs.{InputView};

    ghost Value = { InputView };

    ghost view = { λ i. record { waiting = drop i.start i.bytes.items; capacity = vec_capacity i.bytes } };

    ghost invariant = { λ i. (i.start ≤ vec_len i.bytes) × IsKnown (drop i.start i.bytes.items) i.search };
}

/// Drops the first `count` bytes.
fn drop_first(bytes: &mut Vec<u8>, count: usize)
    requires { count ≤ vec_len bytes.old }
    ensures items { bytes.new.items ≡ drop count bytes.old.items }
    ensures capacity { vec_capacity bytes.new ≡ vec_capacity bytes.old }
{
    if count == 0 {
        return;
    }
    let left = bytes.len() - count;
    bytes.copy_within(count.., 0);
    bytes.truncate(left);
}

impl Input {
    /// No bytes, and no memory.
    pub fn new(alloc: Global) -> Self
        ensures { result.waiting ≡ [] }
    {
        Input {
            alloc,
            bytes: Vec::new(alloc),
            start: 0,
            search: START,
        }
    }

    /// No bytes, and memory for this many.
    ///
    /// # Errors
    ///
    /// There is no memory for them.
    pub fn with_capacity(alloc: Global, capacity: usize) -> Result<Self, AllocError>
        ensures waiting { IfOk result (λ input. input.waiting ≡ []) }
        ensures capacity { IfOk result (λ input. capacity ≤ input.capacity) }
    {
        let bytes = Vec::with_capacity(alloc, capacity)?;
        Ok(Input {
            alloc,
            bytes,
            start: 0,
            search: START,
        })
    }

    /// How many bytes wait.
    pub fn len(&self) -> usize
        ensures { result ≡ length self.now.waiting }
    {
        self.bytes.len() - self.start
    }

    /// All bytes.
    pub fn bytes(&self) -> &[u8]
        ensures { result.now ≡ self.now.waiting }
    {
        &self.bytes[self.start..]
    }

    /// The first `count` bytes, or all if there are fewer.
    pub fn front(&self, count: usize) -> &[u8]
        ensures { result.now ≡ take count self.now.waiting }
    {
        let bytes = self.bytes();
        &bytes[..count.min(bytes.len())]
    }

    /// Adds the bytes of a read.
    ///
    /// # Errors
    ///
    /// Memory for them ran out, and none are added.
    pub fn add(&mut self, more: &[u8]) -> Result<(), AllocError>
        ensures ok { IfOk result (λ _. self.new.waiting ≡ self.old.waiting ++ more.now) }
        ensures err { OnErr result (self.new.waiting ≡ self.old.waiting) }
        ensures capacity { self.old.capacity ≤ self.new.capacity }
        ensures succeeds { length self.old.waiting + length more.now ≤ self.old.capacity → IsOk result }
    {
        drop_first(&mut self.bytes, self.start);
        self.start = 0;
        self.bytes.extend_from_slice(more)
    }

    /// Makes one read into a piece, and adds its bytes, for which there is memory. Returns how many were read: 0 only at the end of what the reader
    /// has.
    ///
    /// # Errors
    ///
    /// The read failed. The waiting bytes are the same then.
    pub fn read_from<R: Read>(
        &mut self,
        reader: &mut R,
        piece: &mut [u8],
    ) -> Result<usize, ReadFault>
        requires some { 0 < length piece.old }
        requires fits { length self.old.waiting + length piece.old ≤ self.old.capacity }
        ensures ok { IfOk result (λ n. (more : List ℕ) × Consumes (R.remaining reader.old) (R.remaining reader.new) more
            × (self.new.waiting ≡ self.old.waiting ++ more) × (n ≡ length more) × (n ≡ 0 → IsAtEnd (R.remaining reader.new))) }
        ensures few { IfOk result (λ n. n ≤ length piece.old) }
        ensures err { OnErr result (Consumes (R.remaining reader.old) (R.remaining reader.new) []
            × (self.new.waiting ≡ self.old.waiting)) }
        ensures capacity { self.old.capacity ≤ self.new.capacity }
        ensures length { length piece.new ≡ length piece.old }
    {
        match reader.read(piece) {
            Ok(count) => {
                self.add(&piece[..count]).unwrap();
                Ok(count)
            }
            Err(_) => Err(ReadFault),
        }
    }

    /// What the bytes begin with. If it is a request, its header fields are at the first `fields`.
    pub fn next(&mut self, fields: &mut FieldSpans) -> Next
        ensures next { IsNext self.old.waiting fields.new result }
        ensures same { self.new ≡ self.old }
    {
        find_next(&self.bytes[self.start..], fields, &mut self.search)
    }

    /// What is to be answered now, if `ended` says whether more bytes come: a request, whose header fields are at the first `fields`, bytes that
    /// are none, whatever follows, or all bytes, if nothing follows.
    pub fn find(&mut self, ended: bool, fields: &mut FieldSpans) -> Option<Asked>
        ensures asked { IfSome result (IsAsked self.old.waiting ended fields.new) }
        ensures more { result ≡ None → NeedsMore self.old.waiting }
        ensures same { self.new ≡ self.old }
    {
        let found = self.next(fields);
        let end = match found {
            Next::Whole(frame) => frame.body.end,
            Next::More(_) if !ended => return None,
            Next::Refused(_) | Next::More(_) => self.len(),
        };
        Some(Asked { found, end })
    }

    /// Drops the first `count` bytes, or all if there are fewer. Their memory is kept.
    pub fn drop_front(&mut self, count: usize)
        ensures waiting { self.new.waiting ≡ drop count self.old.waiting }
        ensures capacity { self.new.capacity ≡ self.old.capacity }
    {
        self.search = START;
        if count >= self.len() {
            self.bytes.clear();
            self.start = 0;
            return;
        }
        self.start += count;
    }

    /// Drops all bytes, and their memory.
    pub fn free(&mut self)
        ensures { self.new.waiting ≡ [] }
    {
        self.bytes = Vec::new(self.alloc);
        self.start = 0;
        self.search = START;
    }
}
