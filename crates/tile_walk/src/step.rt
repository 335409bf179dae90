//! The steps of a walk.

/// How many boxes a step looks at, but for those of the tile that it gives.
pub const STEP_BOXES: usize = 4096;

/// What a step of a walk found.
#[derive(Drop)]
pub enum Step {
    /// No tile yet.
    Part,
    /// The next tile: its id, and the numbers of the boxes that have it, in the order of the boxes.
    Tile((u64, Vec<u64>)),
    /// No tile is left.
    Over,
}
