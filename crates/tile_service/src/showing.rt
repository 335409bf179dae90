//! What a service shows.
ghost use Rattle.std.specs.Prelude.{◌≡◌, ℕ, List, Some, not, false, true, IfErr, IfOk, IfSome, MatchResult, option_map};
ghost use Rattle.std.specs.Rc.{rc_slice_items};
ghost use Rattle.cached_map.specs.Cached.{shared_bytes};
ghost use Rattle.feature_model.specs.Limits.{IsAllowed};
ghost use Rattle.feature_store.specs.Content.{IsTileContent};
ghost use Rattle.feature_store.specs.Layers.{layers};
ghost use Rattle.feature_store.specs.Store.{feature_at, feature_from};
ghost use Rattle.edit_text.specs.Views.{feature_view};
ghost use Rattle.map_metadata.specs.Metadata.{IsMetadataOf};
ghost use Rattle.pm_archive.specs.Answers.{IsOutside};
ghost use Rattle.sector_bytes.specs.Counts.{NeverFalls};
ghost use Rattle.sector_disk.specs.Asked.{OnlyReads};
ghost use Rattle.tile_cache.specs.Kept.{kept_at, fresh};
ghost use Rattle.tile_cache.specs.Touched.{IsNewestOf};
ghost use Rattle.tile_service.specs.Machine.{tile, Happens};
ghost use Rattle.tile_service.specs.Runs.{IsTag, IsTrusted};
ghost use Rattle.tile_service.specs.Service.{Known, IsUp, IsShared, state_of, tile_outcome};
ghost use Rattle.tile_service.specs.Stored.{Stored};
ghost use Rattle.tile_service.specs.Tags.{TellsNumber};
ghost use Rattle.tile_service.specs.declared.fault.ServiceFault.TheVariants.{Memory};

use crate::fault::ServiceFault;
use crate::metadata_steps::{MapMetadata, metadata_of};
use crate::service::Service;
use edit_text::FeatureText;
use hilbert_id::TileAt;
use pm_archive::ArchiveFault;
use sector_disk::Sectors;
use std::alloc::AllocError;
use std::rc::RcSlice;

/// What was read, with bytes that can be shared.
fn share(found: Result<Option<Vec<u8>>, ArchiveFault>) -> Result<Option<RcSlice<u8>>, ArchiveFault>
    ensures { IsShared found result }
{
    match found? {
        Some(bytes) => match RcSlice::from_vec(bytes) {
            Ok(bytes) => Ok(Some(bytes)),
            Err(_) => Err(ArchiveFault::Memory),
        },
        None => Ok(None),
    }
}

/// The same bytes, shared with the caller.
fn shared(bytes: &RcSlice<u8>) -> Result<RcSlice<u8>, ServiceFault>
    ensures same { IfOk result (λ other. rc_slice_items other ≡ rc_slice_items bytes.now) }
    ensures fault { IfErr result (λ fault. fault ≡ Memory) }
{
    match bytes.clone() {
        Ok(bytes) => Ok(bytes),
        Err(_) => Err(ServiceFault::Memory),
    }
}

impl<D: Sectors + Drop> Service<D> {
    /// The feature of an id, after the last acknowledged edit. It is within the limits. It doesn't allocate.
    pub fn feature(&self, id: u64) -> Option<FeatureText<'_>>
        ensures found { option_map feature_view result ≡ feature_at self.now.features id }
        ensures allowed { IfSome result (λ f. IsAllowed id (feature_view f)) }
    {
        self.map.store().get(id)
    }

    /// The first feature with an id or a greater one, and its id, after the last acknowledged edit. It is within the limits. It doesn't
    /// allocate.
    pub fn feature_from(&self, id: u64) -> Option<(u64, FeatureText<'_>)>
        ensures found { option_map (λ e. (e.0, feature_view e.1)) result ≡ feature_from self.now.features id }
        ensures allowed { IfSome result (λ e. IsAllowed e.0 (feature_view e.1)) }
    {
        self.map.store().first_from(id)
    }

    /// The bytes of a tile in the last published archive, `None` if it is empty there.
    ///
    /// # Errors
    ///
    /// A read has failed, or an allocation.
    fn archived_tile(&mut self, at: TileAt) -> Result<Option<RcSlice<u8>>, ArchiveFault>
        ensures same { self.new ≡ record self.old { disk = self.new.disk; published = self.new.published } }
        ensures disk { OnlyReads D.sectors D.honest D.history self.old.disk self.new.disk }
        ensures never_falls { NeverFalls (D.faults self.old.disk) (D.faults self.new.disk) }
        ensures tile { (stored : Stored) → IsUp (D.sectors self.old.disk) (D.history self.old.disk) stored self.old → D.honest self.new.disk
            → MatchResult result (λ content. IsTileContent (layers stored.snapshot_map at.z at.x at.y) (shared_bytes content)) IsOutside }
        ensures up { (stored : Stored) → IsUp (D.sectors self.old.disk) (D.history self.old.disk) stored self.old → D.honest self.new.disk
            → IsUp (D.sectors self.new.disk) (D.history self.new.disk) stored self.new }
    {
        let archive = self.archive();
        share(self.published.tile(&mut self.disk, archive, at))
    }

    /// The bytes of a tile in the archive, if no edit since can have changed it; `None` if one may have, if the archive can't be read,
    /// or if the service is broken. They are cached.
    fn published_tile(&mut self, at: TileAt) -> Option<Option<RcSlice<u8>>>
        ensures same { self.new ≡ record self.old { disk = self.new.disk; published = self.new.published; kept = self.new.kept } }
        ensures disk { OnlyReads D.sectors D.honest D.history self.old.disk self.new.disk }
        ensures never_falls { NeverFalls (D.faults self.old.disk) (D.faults self.new.disk) }
        ensures untouched { self.old.broken ≡ true → self.new.disk ≡ self.old.disk }
        ensures unbroken { IfSome result (λ content. self.old.broken ≡ false) }
        ensures tile { (stored : Stored) → IsUp (D.sectors self.old.disk) (D.history self.old.disk) stored self.old → D.honest self.new.disk
            → IfSome result (λ content. IsTileContent (layers self.old.features at.z at.x at.y) (shared_bytes content)) }
        ensures up { (stored : Stored) → IsUp (D.sectors self.old.disk) (D.history self.old.disk) stored self.old → D.honest self.new.disk
            → IsUp (D.sectors self.new.disk) (D.history self.new.disk) stored self.new }
    {
        if self.broken {
            return None;
        }
        if self.map.newest(at) > self.journal.edits {
            return None;
        }
        match self.archived_tile(at) {
            Ok(content) => {
                if let Some(bytes) = &content {
                    self.map.keep_read(at, self.journal.edits, bytes);
                }
                Some(content)
            }
            Err(_) => None,
        }
    }

    /// The bytes of a tile (Mapbox Vector Tile 2.1), after the last acknowledged edit: `None` if it is empty, so above the greatest
    /// zoom too. A cached tile that no edit since can have changed is shared; a broken service shares only what it cut itself. Else, if
    /// no edit since the publication can have changed the tile, it is read from the archive. Else, or if that read fails, it is
    /// generated from the map. What was read or generated is cached. The only error is `Memory`.
    pub fn tile(&mut self, at: TileAt) -> Result<Option<RcSlice<u8>>, ServiceFault>
        ensures machine { (known : Known) → Happens (IsTrusted D.sectors D.honest D.history self.old self.new)
            (state_of known self.old) (tile at.z at.x at.y (tile_outcome result)) (state_of known self.new) }
        ensures fault { IfErr result (λ fault. fault ≡ Memory) }
        ensures same { self.new ≡ record self.old { disk = self.new.disk; published = self.new.published; kept = self.new.kept } }
        ensures disk { OnlyReads D.sectors D.honest D.history self.old.disk self.new.disk }
        ensures never_falls { NeverFalls (D.faults self.old.disk) (D.faults self.new.disk) }
        ensures untouched { self.old.broken ≡ true → self.new.disk ≡ self.old.disk }
        // What is cached and fresh is given, and the disk isn't read.
        ensures cached { (newest : ℕ) (bytes : List ℕ) → IsNewestOf self.old.touched at.z at.x at.y newest
            → fresh newest (not self.old.broken) (kept_at self.old.kept at.z at.x at.y) ≡ Some bytes
            → (self.new.disk ≡ self.old.disk) × IfOk result (λ content. shared_bytes content ≡ Some bytes) }
        ensures up { (stored : Stored) → IsUp (D.sectors self.old.disk) (D.history self.old.disk) stored self.old → D.honest self.new.disk
            → IsUp (D.sectors self.new.disk) (D.history self.new.disk) stored self.new }
    {
        match self.map.kept(at, !self.broken) {
            Ok(Some(bytes)) => return Ok(Some(bytes)),
            Ok(None) => {}
            Err(AllocError) => return Err(ServiceFault::Memory),
        }
        if let Some(content) = self.published_tile(at) {
            return Ok(content);
        }
        match self.map.make(at) {
            Ok(content) => Ok(content),
            Err(AllocError) => Err(ServiceFault::Memory),
        }
    }

    /// The number of a tile: that of the newest edit that can have touched it, or of a later one; 0 if none was made since the service was
    /// opened. It is a tag of the tile within a run of the service: whenever the tile has this number again, its layers are the same. It
    /// doesn't allocate, and the disk isn't read.
    pub fn tile_number(&self, at: TileAt) -> u64
        ensures told { TellsNumber self.now at.z at.x at.y result }
        ensures tag { IsTag D.sectors D.honest D.history at.z at.x at.y result self.now }
    {
        self.map.newest(at)
    }

    /// The JSON metadata of the map after the last acknowledged edit, as in an archive of its tiles: as compact text, which reads as it.
    /// It is made by the first call after an edit, of all features or of those that `prepare_metadata` hasn't read, and shared by those that
    /// follow. The only error is `Memory`.
    pub fn metadata(&mut self) -> Result<RcSlice<u8>, ServiceFault>
        ensures metadata { IfOk result (λ text. IsMetadataOf self.old.features (rc_slice_items text)) }
        ensures fault { IfErr result (λ fault. fault ≡ Memory) }
        ensures same { self.new ≡ self.old }
    {
        match metadata_of(self.alloc, self.metadata.take(), self.map.store()) {
            Ok(text) => {
                let result = shared(&text);
                self.metadata = Some(MapMetadata::Text(text));
                result
            }
            Err(AllocError) => Err(ServiceFault::Memory),
        }
    }
}
