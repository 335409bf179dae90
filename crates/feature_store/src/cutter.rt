//! The memory in which features are cut.

use geometry_commands::{PackedShape, Pt};
use std::alloc::Global;

/// What cutting a feature overwrites, used again for the next feature.
#[derive(Drop)]
pub(crate) struct Cutter {
    /// What a tile shows of the feature, as packed integers.
    pub(crate) shape: PackedShape,
    /// A chain of a line, or a ring.
    pub(crate) chain: Vec<Pt>,
}

impl Cutter {
    /// It has no memory yet.
    pub(crate) fn new(alloc: Global) -> Cutter {
        Cutter {
            shape: PackedShape::new(alloc),
            chain: Vec::new(alloc),
        }
    }
}
