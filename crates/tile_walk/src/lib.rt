//! The tiles of a zoom that numbered boxes have, one after the other along the curve, without a list of all of them.
#![tactic(auto)]

mod cut;
mod numbered;
mod quarter;
mod square;
mod squares;
mod step;
mod walk;

pub use numbered::Numbered;
pub use step::{STEP_BOXES, Step};
pub use walk::Walk;
