//! What a publication writes into an area: the snapshot of a map and, from the next sector on, the archive of its
//! tiles. No call uses a disk.
#![tactic(auto)]

mod archive;
mod collected;
mod content;
mod counting;
mod draft;
mod fault;
mod frame;
mod making;
mod spent;

pub use content::AreaContent;
pub use draft::{AddedTiles, ContentDraft, Stage};
pub use fault::ContentFault;
pub use making::content_of;
pub use spent::SpentContent;
