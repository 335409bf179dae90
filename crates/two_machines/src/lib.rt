//! Two machines: a leader, and a standby that is given what the leader's feed lists. No edit that was listed is lost, whichever machine is.
#![tactic(auto)]

mod laws;
mod standing_by;

pub use laws::{
    a_courier_gives_the_leaders_edits, a_listed_value_says_its_edit, a_numbered_edit_is_given,
    a_standby_stays_behind, calls_after_calls_are_given, two_machines_have_one_map,
    two_ports_have_one_map,
};
pub use standing_by::{feed_tells_the_edits, standby_has_first_edits};
