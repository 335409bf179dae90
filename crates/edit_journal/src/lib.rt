//! A journal of edits in a ring of sectors: each edit is a record, of a head and as many bodies as its text needs.
#![tactic(auto)]

mod appending;
mod encoding;
mod fault;
mod head;
mod journal;
mod keeping;
mod listing;
mod numbers;
mod records;
mod recovering;
mod releasing;
mod sizes;

pub use encoding::part_sector;
pub use fault::JournalFault;
pub use head::{Head, head_in, head_version};
pub use journal::{Journal, JournalPosition};
pub use numbers::is_next;
pub use records::Record;
pub use sizes::{
    BODY_KIND, FIRST_RECORD_VERSION, FREED_PART, FRONT_BYTES, HEAD_KIND, LAST_RECORD_VERSION,
    MAX_RECORD_BYTES, PART_BYTES,
};
