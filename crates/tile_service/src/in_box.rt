//! Which features a service has in a box of the world.
ghost use Rattle.std.specs.Prelude.{IfOk};
ghost use Rattle.feature_store.specs.InBox.{IsInBox};

use crate::service::Service;
use feature_model::WorldBox;
use feature_store::InBox;
use sector_disk::Sectors;
use std::alloc::AllocError;

impl<D: Sectors + Drop> Service<D> {
    /// The ids of the features from an id on whose bounding box meets this one, after the last acknowledged edit, as `Store::in_box` finds
    /// them. The only error is out of memory.
    pub fn features_in_box(&self, bounds: &WorldBox, id: u64) -> Result<InBox, AllocError>
        ensures { IfOk result (IsInBox self.now.features bounds.now id) }
    {
        self.map.store().in_box(bounds, id)
    }
}
