//! Requests of an HTTP/1.1 connection, and a reply to each.
#![tactic(auto)]

mod answers;
mod connection;
mod contents;
mod handlers;
mod outputs;
mod refusals;
mod replies;
mod serving;
mod sessions;
mod spellings;
mod tags;
mod writes;

pub use answers::Rest;
pub use connection::{Answer, Connection, End, MAX_READS, READ_SPACE, ServeFault, Served};
pub use handlers::{
    ContentFault, Downloads, Handler, Hold, Moment, PART_SIZE, Preparation, Prepares, Request,
    RestFault, Ticket,
};
pub use http_requests::{Asked, Fields, NOTHING_ASKED};
pub use http_values::Status;
pub use outputs::Spare;
pub use replies::{Content, ContentRange, EntityTag, MAX_WORD, Reply, Tag, WeakTag};
pub use serving::serve_with;
pub use sessions::Buffers;
pub use spellings::{MAX_SPELLED, Spelling};
