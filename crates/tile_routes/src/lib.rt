//! What the path of a request asks for, and by which methods.
#![tactic(auto)]

mod access;
mod boxes;
mod fault;
mod method;
mod number;
mod parts;
mod routes;
mod target;

pub use access::Access;
pub use fault::RouteFault;
pub use method::Method;
pub use parts::requested_tile;
pub use routes::Routes;
pub use target::{Action, Target, TileFormat, View};
