//! Serves a map on a disk over HTTP/1.1: one reply to each request.
#![tactic(auto)]

mod archives;
mod bodies;
mod boxes;
mod calls;
mod checking;
mod conditions;
mod confirming;
mod digests;
mod downloads;
mod editing;
mod fault;
mod feed;
mod lists;
mod long_metadata;
mod long_tiles;
mod numbered;
mod pages;
mod parts;
mod preparing;
mod publishing;
mod queries;
mod replies;
mod service;
mod showing;
mod standbys;
mod telling;
mod turns;
mod whole_publications;

pub use conditions::Needed;
pub use confirming::ConfirmedReplies;
pub use preparing::PreparingReplies;
pub use service::{MapReplies, Settings, serve_map, serve_map_turns};
