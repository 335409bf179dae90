//! The content of an area for a map, made at once.
ghost use Rattle.std.specs.Prelude.{◌≡◌, ◌<◌, ◌≤◌, ◌^◌, false, OnOk, IfOk, IfErr};
ghost use Rattle.feature_store.specs.Moments.{IsAsOf};
ghost use Rattle.feature_store.specs.Store.{snapshot};
ghost use Rattle.pm_metadata.specs.Archive.{IsMetadata};
ghost use Rattle.area_content.specs.Content.{sectors_taken};
ghost use Rattle.area_content.specs.Faults.{IsBuiltFor, IsContentFault};
ghost use Rattle.area_content.specs.declared.draft.Stage.TheVariants.{Going};

use crate::content::AreaContent;
use crate::draft::ContentDraft;
use crate::fault::ContentFault;
use feature_store::{Moment, MomentReader, Store};
use std::alloc::{AllocError, Global};

impl ContentDraft {
    ghost use Rattle.area_content.specs.declared.draft.Stage.TheVariants.{Made};

    /// Makes the tiles that are left of the moment, one after the other, `store` being the map as it is now.
    ///
    /// # Errors
    ///
    /// Those of `step`. The draft is of no use then.
    pub fn make_all(&mut self, store: &Store, moment: &Moment) -> Result<(), ContentFault>
        requires stage { self.old.stage ≡ Going }
        requires same { moment.now.features ≡ self.old.features }
        requires there { moment.now.lost ≡ false }
        requires as_of { IsAsOf moment.now store.now.features }
        ensures features { self.new.features ≡ self.old.features }
        ensures metadata { self.new.metadata ≡ self.old.metadata }
        ensures area { self.new.area ≡ self.old.area }
        ensures made { OnOk result (self.new.stage ≡ Made) }
        ensures fault { IfErr result (IsContentFault self.old.features self.old.metadata self.old.area) }
    {
        loop {
            match self.step(store, moment) {
                Ok(true) => {}
                Ok(false) => return Ok(()),
                Err(fault) => return Err(fault),
            }
        }
    }
}

/// The content of the map as it is now, with no tile made. The only error is out of memory.
fn draft_of(
    alloc: Global,
    store: &Store,
    metadata: &[u8],
    area: u64,
) -> Result<ContentDraft, AllocError>
    requires metadata { IsMetadata metadata.now }
    requires area { area < 2 ^ 23 }
    ensures features { IfOk result (λ d. d.features ≡ store.now.features) }
    ensures metadata { IfOk result (λ d. d.metadata ≡ metadata.now) }
    ensures area { IfOk result (λ d. d.area ≡ area) }
    ensures stage { IfOk result (λ d. d.stage ≡ Going) }
{
    let reader = MomentReader::whole(alloc, store)?;
    let mut kept = Vec::with_capacity(alloc, metadata.len())?;
    kept.extend_from_slice(metadata)?;
    ContentDraft::of(alloc, reader, kept, area)
}

/// The snapshot and the archive of a map, for an area of `area` sectors. `metadata` is the JSON object in the
/// archive.
///
/// The tiles are made by ascending id. Their contents are kept as long as they can fit in the area: a header, the metadata and each different
/// content once take no more sectors than are left beside the snapshot. From the first tile on that no longer fits, only their number and
/// their lengths are. So what is kept above the area are a record for each run and for each different content, and three tiles at most: the
/// last one that was added, the one after it, and an equal one that is made again. After a fault everything is freed.
///
/// # Errors
///
/// `AreaFull` if a tile has 2^32 bytes or more: `need` is its number of sectors. `TooManyTiles` if the tiles up to one need more entries
/// than an archive takes. At one tile the first of these comes first, and of two tiles that with the lower id. `AreaFull` if all tiles are
/// fewer, and snapshot and archive don't fit: `need` is the number of sectors of the snapshot and of the archive of all tiles. `Memory` if an
/// allocation fails.
pub fn content_of(
    alloc: Global,
    store: &Store,
    metadata: &[u8],
    area: u64,
) -> Result<AreaContent, ContentFault>
    requires metadata { IsMetadata metadata.now }
    requires area { area < 2 ^ 23 }
    ensures snapshot { IfOk result (λ c. c.snapshot ≡ snapshot store.now.features) }
    ensures built { IfOk result (λ c. IsBuiltFor store.now.features metadata.now c.archive) }
    ensures fits { IfOk result (λ c. sectors_taken c ≤ area) }
    ensures fault { IfErr result (IsContentFault store.now.features metadata.now area) }
{
    let moment = store.moment();
    let mut draft = match draft_of(alloc, store, metadata, area) {
        Ok(draft) => draft,
        Err(_) => return Err(ContentFault::Memory),
    };
    match draft.make_all(store, &moment) {
        Ok(()) => draft.finish(),
        Err(fault) => {
            draft.end();
            Err(fault)
        }
    }
}
