//! HTTP/1.1 connections of a listener, which are served by turns.
#![tactic(auto)]

mod accepting;
mod connections;
mod deadlines;
mod ends;
mod lines;
mod logs;
mod no_memory;
mod paces;
mod peers;
mod places;
mod pool;
mod readiness;
mod refusals;
mod rests;
mod step_time;
mod system_listener;
mod talks;
mod turns;
mod waiting;
mod waits;
mod writes;

pub use connections::{ListenFault, serve_on};
pub use ends::EndFault;
pub use lines::write_line;
pub use logs::{Log, Logs};
pub use places::Places;
pub use system_listener::SystemListener;
pub use talks::Talks;
pub use waits::{Change, MAX_HELD, MAX_OPEN, Waits};
