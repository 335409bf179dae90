//! Laws of a service, whatever is done with it: what the machine says of a beginning that is answered late; what a stop leaves of a run between
//! whose calls the disk is read, as behind a port; that listed edits stay; what numbers of tiles say; what a copy of its disk holds.
#![tactic(auto)]

mod copies;
mod late_beginnings;
mod listed;
mod numbers;
mod ports;

pub use copies::{copies_hold, copies_hold_one_moment};
pub use late_beginnings::{
    begins_as_it_was, begins_as_prepared, begins_before, begins_late, drafted_publishes,
    refused_as_it_was, stays_drafted,
};
pub use listed::{broken_still_shows_its_edits, listed_edits_are_kept};
pub use numbers::port_numbers_are_of_equal_tiles;
pub use ports::{port_keeps_what_it_listed, port_opens_to_its_first_edits};
