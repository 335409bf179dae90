//! Events and their answers.
use crate::fault::ServiceFault;
use feature_model::{Change, Feature};
use hilbert_id::TileAt;
use std::rc::RcSlice;

/// A request to a service.
#[derive(Drop)]
pub enum Event {
    /// Sets an id's feature.
    Put { id: u64, feature: Feature },
    /// Deletes the feature of an id.
    Delete { id: u64 },
    /// Makes changes of 1 to 64 ids, all of them or none.
    Batch { changes: Vec<Change> },
    /// Asks for a tile.
    Tile { at: TileAt },
    /// Asks for the feature of an id.
    Look { id: u64 },
    /// Begins a publication of the map.
    Begin,
    /// Writes the next sectors of the publication.
    Step,
    /// Cancels the publication.
    Cancel,
}

/// What a service answers.
#[derive(Debug, Drop)]
pub enum Answer {
    /// The edit was made, with this number.
    Edited(u64),
    /// The bytes of the tile, or `None` if it is empty.
    Tile(Option<RcSlice<u8>>),
    /// The feature, or `None` if the id has none.
    Look(Option<Feature>),
    /// How much of the publication is left: the sectors to write, and one for the root. With 0 it is installed.
    Left(u64),
    /// The publication is cancelled.
    Cancelled,
    /// Nothing was done.
    Refused(ServiceFault),
}
