//! How a disk of sectors is laid out: the sector of its format, the sectors of its two roots, the journal, and two areas.
//! The root of greater generation says what counts on the disk. No call takes memory.
#![tactic(auto)]

mod checks;
mod encoding;
mod fault;
mod formatting;
mod installing;
mod layout;
mod reading;
mod root;
mod sizes;
mod upgrading;

pub use fault::{StoreFault, What};
pub use formatting::{format, format_version};
pub use installing::{install, write_area};
pub use layout::{Layout, sectors_for};
pub use reading::{Found, read_root};
pub use root::Root;
pub use sizes::{FIRST_VERSION, JOURNAL_START, LAST_VERSION, MAX_SECTORS, MIN_SECTORS};
pub use upgrading::upgrade;
