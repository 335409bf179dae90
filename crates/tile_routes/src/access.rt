//! Who may ask for what.
ghost use Rattle.std.specs.Prelude.{◌≡◌};
ghost use Rattle.tile_routes.specs.Paths.{granted};
ghost use Rattle.tile_routes.specs.Targets.{asked_of, IsInRange};

use crate::target::{Action, Target, View};

/// Which paths are served.
#[derive(Clone, Copy)]
pub enum Access {
    /// Those of the map.
    Map,
    /// Those of the map, and those under `/admin/`.
    Admin,
}

impl Target {
    /// What is asked for, where its path is served.
    pub fn granted(self, access: Access) -> Target
        ensures asked { asked_of result ≡ granted access (asked_of self) }
        ensures range { IsInRange self → IsInRange result }
    {
        match (access, self) {
            (
                Access::Map,
                Target::FeatureFrom(_)
                | Target::FeaturePage(_)
                | Target::FeatureBox(..)
                | Target::EditsFrom(_)
                | Target::EditsAt(_)
                | Target::FeatureAt(..)
                | Target::View(View::Status)
                | Target::Action(Action::CheckedEdits),
            ) => Target::Nothing,
            _ => self,
        }
    }
}
