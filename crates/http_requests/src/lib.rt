//! The requests in the bytes of an HTTP/1.1 connection, as they arrive, and why bytes are none (RFC 9110 and RFC 9112).
#![tactic(auto)]

mod conditions;
mod fields;
mod frames;
mod headers;
mod inputs;
mod lines;
mod positions;
mod refusals;
mod searches;

pub use frames::{
    FieldSpans, Frame, MAX_REQUEST, Missing, NO_BYTES, NO_FIELDS, Next, is_head, path_of, query_of,
};
pub use headers::Fields;
pub use inputs::{Asked, Input, NOTHING_ASKED, ReadFault};
pub use refusals::{NO_HEAD, Refusal, Rejection};
pub use searches::{START, Search, find_next};
