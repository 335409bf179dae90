//! A run of tiles.

/// Tiles of consecutive ids with equal contents.
#[derive(Drop)]
pub(crate) struct Run {
    /// The id of the first tile.
    pub(crate) first: u64,
    /// The number of tiles.
    pub(crate) count: u32,
    /// The place of their content among the different contents.
    pub(crate) place: usize,
}
