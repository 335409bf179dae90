//! The entries of a pool.

ghost use Rattle.std.specs.Prelude.{◌≤◌, All, length};

use crate::field::put_bytes;
use crate::room::make_room;
use crate::span::{SPAN_BYTES, Span};
use std::alloc::{AllocError, Global};

/// How many entries there is room for at first.
const FIRST_SPANS: usize = 16;

/// The bytes that entries have room for at first.
const FIRST_BYTES: usize = 256;

/// Texts or messages in the order in which they were added.
#[derive(Drop)]
pub(crate) struct Entries {
    /// The entries, one after the other.
    bytes: Vec<u8>,
    /// Where each entry lies in `bytes`.
    spans: Vec<Span>,
    ghost ordered: { All (λ s. s.start ≤ s.end) spans.items },
    ghost within: { All (λ s. s.end ≤ length bytes.items) spans.items },
}

impl Entries {
    ghost use Rattle.std.specs.Prelude.{◌≡◌, ◌<◌, ◌+◌, ◌^◌, ◌++◌, ◌∷◌, ◌-◌, [], take, drop, IfOk, OnOk, slice_index_or, vec_len, vec_capacity};
    ghost use Rattle.std.specs.List.{flat_map};
    ghost use Rattle.std.specs.Str.{bytes_eq};
    ghost use Rattle.mvt_write.specs.Entries.{entries_of};
    ghost use Rattle.mvt_write.specs.Spans.{spanned};
    ghost use Rattle.mvt_write.specs.Written.{bytes_field};

    /// No entries.
    pub fn new(alloc: Global) -> Result<Self, AllocError>
        ensures { IfOk result (λ entries. entries_of entries ≡ []) }
    {
        Ok(Entries {
            bytes: Vec::with_capacity(alloc, FIRST_BYTES)?,
            spans: Vec::with_capacity(alloc, FIRST_SPANS)?,
        })
    }

    /// How many entries there are.
    pub fn len(&self) -> usize
        ensures { result ≡ length (entries_of self.now) }
    {
        self.spans.len()
    }

    /// The bytes of a span.
    fn part(&self, span: Span) -> &[u8]
        requires ordered { span.start ≤ span.end }
        requires within { span.end ≤ length self.now.bytes.items }
        ensures { result.now ≡ spanned self.now.bytes.items span }
    {
        &self.bytes[span.start..span.end]
    }

    /// Whether the entry of this index has these bytes.
    pub fn is_at(&self, index: usize, entry: &[u8]) -> bool
        requires { index < length (entries_of self.now) }
        ensures { result ≡ bytes_eq (slice_index_or (entries_of self.now) index []) entry.now }
    {
        self.part(self.spans[index]) == entry
    }

    /// Makes room for one entry more of this many bytes. The entries stay, whatever the result.
    pub fn reserve(&mut self, len: usize) -> Result<(), AllocError>
        ensures same { entries_of self.new ≡ entries_of self.old }
        ensures bytes { OnOk result (vec_len self.new.bytes + len ≤ vec_capacity self.new.bytes) }
        ensures spans { OnOk result (vec_len self.new.spans < vec_capacity self.new.spans) }
    {
        make_room(&mut self.bytes, 1, len);
        make_room(&mut self.spans, SPAN_BYTES, 1);
        self.bytes.reserve(len)?;
        self.spans.reserve(1)
    }

    /// Adds an entry at the end.
    pub fn push(&mut self, entry: &[u8])
        requires bytes { vec_len self.old.bytes + length entry.now ≤ vec_capacity self.old.bytes }
        requires spans { vec_len self.old.spans < vec_capacity self.old.spans }
        ensures { entries_of self.new ≡ entries_of self.old ++ entry.now ∷ [] }
    {
        let start = self.bytes.len();
        self.bytes.extend_from_slice(entry).unwrap();
        let end = self.bytes.len();
        self.spans.push(Span { start, end }).unwrap();
    }

    /// Appends the entries `from..to`, each as a field.
    pub fn put_range(
        &self,
        out: &mut Vec<u8>,
        number: u32,
        from: usize,
        to: usize,
    ) -> Result<(), AllocError>
        requires number { number < 2 ^ 29 }
        requires order { from ≤ to }
        requires within { to ≤ length (entries_of self.now) }
        ensures { OnOk result (out.new.items ≡ out.old.items ++ flat_map (bytes_field number) (take (to - from) (drop from (entries_of self.now)))) }
    {
        for &span in &self.spans[from..to] {
            put_bytes(out, number, self.part(span))?;
        }
        Ok(())
    }

    /// Appends each entry as a field.
    pub fn put(&self, out: &mut Vec<u8>, number: u32) -> Result<(), AllocError>
        requires { number < 2 ^ 29 }
        ensures { OnOk result (out.new.items ≡ out.old.items ++ flat_map (bytes_field number) (entries_of self.now)) }
    {
        self.put_range(out, number, 0, self.len())
    }

    /// The lists of which they are made, once the entries are of no use any more.
    pub fn into_lists(self) -> (Vec<u8>, Vec<Span>)
        ensures bytes { result.0 ≡ self.bytes }
        ensures spans { result.1 ≡ self.spans }
    {
        (self.bytes, self.spans)
    }
}
