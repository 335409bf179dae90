//! A map on a disk, as a service: it accepts edits, and serves tiles and features. After a crash at any moment its disk opens
//! again with a prefix of the edits, all acknowledged ones included.
#![tactic(auto)]

mod checking;
mod comparing;
mod drafting;
mod editing;
mod event;
mod fault;
mod formatting;
mod in_box;
mod letting_go;
mod listing;
mod making;
mod metadata_steps;
mod opening;
mod published;
mod publishing;
mod publishing_whole;
mod reading;
mod replaying;
mod running;
mod service;
mod showing;
mod snapshot_reading;
mod status;
mod tickets;

pub use drafting::Drafting;
pub use event::{Answer, Event};
pub use fault::ServiceFault;
pub use publishing_whole::Published;
pub use service::Service;
pub use status::Status;
pub use tickets::{FIRST_BYTES, TicketFault, first_bytes};
