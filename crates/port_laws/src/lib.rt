//! Laws of replies to requests, whatever the service did in between: of tags, of edits under conditions, of downloads.
#![tactic(auto)]

mod downloads;
mod edits;
mod tags;

pub use downloads::download_is_of_one_archive;
pub use edits::{edits_meet_their_conditions, replaces_what_was_seen};
pub use tags::{equal_tags_are_equal_tiles, equal_tags_are_equal_tiles_inside};
