//! What the author of an edit saw of the map.

use crate::feature::Feature;

/// The feature that a number had when the author of an edit looked, or that it had none.
#[derive(Drop)]
pub struct Seen {
    pub id: u64,
    pub feature: Option<Feature>,
}
