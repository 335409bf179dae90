//! What the author of an edit saw, compared with the map.
ghost use Rattle.std.specs.Prelude.{map, All, MatchOption};
ghost use Rattle.feature_model.specs.Seen.{seen_data};
ghost use Rattle.tile_service.specs.Seen.{IsAsSeen, IsFirstChanged};

use crate::service::Service;
use feature_model::Seen;
use sector_disk::Sectors;

impl<D: Sectors + Drop> Service<D> {
    /// The number of the first of these whose feature, after the last acknowledged edit, isn't the one that was seen, or `None` if each
    /// still is. It allocates nothing.
    pub fn first_changed(&self, all: &[Seen]) -> Option<u64>
        ensures { MatchOption result
            (All (IsAsSeen self.now.features) (map seen_data all.now))
            (IsFirstChanged self.now.features (map seen_data all.now)) }
    {
        self.map.first_changed(all)
    }
}
