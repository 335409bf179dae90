//! What a program needs to serve a map: its disk, made in memory or in a new file and opened, and the connections of a listener. The
//! stretches of the connections, in their order, are one run of events.
#![tactic(auto)]

mod confirming;
mod connections;
mod fault;
mod files;
mod fresh;
mod opening;

pub use confirming::serve_confirmed_on;
pub use connections::serve_map_on;
pub use fault::FileFault;
pub use files::{formatted_file, new_disk_file, sync_folder};
pub use fresh::fresh_service;
pub use opening::opened_service;
