//! What a step of an archive in the making is given.

use feature_store::{Moment, Store};

/// A map as it is now, and the moment of it whose tiles are made.
#[derive(Clone, Copy)]
pub(crate) struct MapThen<'a> {
    pub(crate) store: &'a Store,
    pub(crate) moment: &'a Moment,
}

/// What an area has beside its tiles, and its size.
#[derive(Clone, Copy)]
pub(crate) struct AreaFrame<'a> {
    /// The snapshot of the moment.
    pub(crate) text: &'a [u8],
    /// The JSON object in the archive.
    pub(crate) metadata: &'a [u8],
    /// How many sectors the area has.
    pub(crate) area: u64,
}
