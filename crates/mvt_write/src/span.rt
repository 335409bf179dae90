//! Spans of bytes.

use std::mem::size_of;

/// How many bytes of memory a span takes.
pub(crate) const SPAN_BYTES: usize = size_of::<Span>();

/// Where bytes lie among others: from `start` up to, but not with, `end`.
#[derive(Clone, Copy)]
pub(crate) struct Span {
    pub start: usize,
    pub end: usize,
}
