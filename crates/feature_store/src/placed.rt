//! What a change of a feature touches.

use feature_model::WorldBox;

/// The bounding boxes of a number's feature before and after it is given another one.
#[derive(Clone, Copy)]
pub struct PlacedBoxes {
    /// That of the feature before, or `None` if the number had none.
    pub before: Option<WorldBox>,
    /// That of the new feature.
    pub after: WorldBox,
}
