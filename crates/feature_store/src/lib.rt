//! The map in memory: its features by number, and the layers of a tile.
#![tactic(auto)]

mod all_tiles;
mod appended;
mod cutter;
mod digests;
mod fault;
mod feature_boxes;
mod gathered;
mod in_box;
mod indexed;
mod keeping;
mod late_index;
mod layers;
mod limit;
mod listing;
mod moment;
mod moment_reader;
mod placed;
mod prepared;
mod records;
mod snapshot_texts;
mod stage;
mod store;
mod tile_end;
mod tile_in_hand;
mod tile_parts;
mod tiles_left;

pub use all_tiles::{Making, Tile, Tiles};
pub use fault::SnapshotFault;
pub use in_box::{BOX_LOOKS, InBox};
pub use limit::TEXTS_END;
pub use moment::Moment;
pub use moment_reader::{MomentReader, STEP_NUMBERS};
pub use placed::PlacedBoxes;
pub use prepared::Prepared;
pub use records::{read_record, record_of};
pub use store::Store;
pub use tile_in_hand::TileInHand;
pub use tile_parts::PART_NUMBERS;
