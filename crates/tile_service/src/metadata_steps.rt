//! The metadata of the map, made of its features by steps between which other calls are made.
ghost use Rattle.std.specs.Prelude.{◌≡◌, Ok, false, IfOk, IfSome, string_bytes};
ghost use Rattle.std.specs.Rc.{rc_slice_items};
ghost use Rattle.feature_store.specs.Reading.{IsRead};
ghost use Rattle.map_metadata.specs.Metadata.{IsMetadataOf};
ghost use Rattle.tile_service.specs.Metadata.{IsMetadataStage, GoesFurther, IsFurther, is_unread};

use crate::service::Service;
use feature_store::Store;
use map_metadata::{MetadataDraft, metadata_text};
use sector_disk::Sectors;
use std::alloc::{AllocError, Global};
use std::rc::RcSlice;

/// What a service keeps of the metadata of its map, from one edit to the next.
#[derive(Drop)]
pub(crate) enum MapMetadata {
    /// Features are left to read.
    Unread(MetadataDraft),
    /// The text.
    Text(RcSlice<u8>),
}

/// The text with these bytes, in memory of its length.
fn shared_text(text: String) -> Result<RcSlice<u8>, AllocError>
    ensures { IfOk result (λ shared. rc_slice_items shared ≡ string_bytes text) }
{
    let mut bytes = text.into_bytes();
    bytes.shrink_to_fit();
    RcSlice::from_vec(bytes)
}

/// The text of the metadata of a map, made of all its features at once.
fn text_at_once(alloc: Global, store: &Store) -> Result<RcSlice<u8>, AllocError>
    ensures { IfOk result (λ text. IsMetadataOf store.now.features (rc_slice_items text)) }
{
    shared_text(metadata_text(alloc, store)?)
}

/// The text of the metadata of a map whose features are all read.
fn text_of(draft: MetadataDraft) -> Result<RcSlice<u8>, AllocError>
    requires { IsRead draft }
    ensures { IfOk result (λ text. IsMetadataOf draft.features (rc_slice_items text)) }
{
    shared_text(draft.finish()?)
}

/// The metadata of the map with some features more, and the text with the last ones.
fn with_next_features(draft: MetadataDraft, store: &Store) -> Result<MapMetadata, AllocError>
    requires { draft.features ≡ store.now.features }
    ensures stage { IfOk result (IsMetadataStage store.now.features) }
    // So steps until the text is made end.
    ensures further { IfOk result (GoesFurther draft.from) }
{
    let moment = store.moment();
    let mut draft = draft;
    match draft.step(store, &moment) {
        Ok(true) => Ok(MapMetadata::Unread(draft)),
        Ok(false) => Ok(MapMetadata::Text(text_of(draft)?)),
        Err(AllocError) => Err(AllocError),
    }
}

/// The text of the metadata of the map, of which some features are read.
fn text_with_all(draft: MetadataDraft, store: &Store) -> Result<RcSlice<u8>, AllocError>
    requires { draft.features ≡ store.now.features }
    ensures { IfOk result (λ text. IsMetadataOf store.now.features (rc_slice_items text)) }
{
    let moment = store.moment();
    let mut draft = draft;
    loop {
        match draft.step(store, &moment) {
            Ok(true) => {}
            Ok(false) => return text_of(draft),
            Err(AllocError) => return Err(AllocError),
        }
    }
}

/// What is kept of the metadata after a step: nothing is done where the text is made.
fn next_metadata(
    alloc: Global,
    kept: Option<MapMetadata>,
    store: &Store,
) -> Result<MapMetadata, AllocError>
    requires { IfSome kept (IsMetadataStage store.now.features) }
    ensures stage { IfOk result (IsMetadataStage store.now.features) }
    ensures text { IfSome kept (λ m. is_unread m ≡ false → result ≡ Ok m) }
    ensures further { IfSome kept (λ m. IfOk result (IsFurther m)) }
{
    match kept {
        Some(MapMetadata::Text(text)) => Ok(MapMetadata::Text(text)),
        Some(MapMetadata::Unread(draft)) => with_next_features(draft, store),
        None => with_next_features(MetadataDraft::of(alloc, store), store),
    }
}

/// The text of the metadata: the one that is kept, or made of the features that are left, or of all.
pub(crate) fn metadata_of(
    alloc: Global,
    kept: Option<MapMetadata>,
    store: &Store,
) -> Result<RcSlice<u8>, AllocError>
    requires { IfSome kept (IsMetadataStage store.now.features) }
    ensures { IfOk result (λ text. IsMetadataOf store.now.features (rc_slice_items text)) }
{
    match kept {
        Some(MapMetadata::Text(text)) => Ok(text),
        Some(MapMetadata::Unread(draft)) => text_with_all(draft, store),
        None => text_at_once(alloc, store),
    }
}

/// Whether features are left to read.
fn is_unread(metadata: &MapMetadata) -> bool
    ensures { result ≡ is_unread metadata.now }
{
    match metadata {
        MapMetadata::Unread(_) => true,
        MapMetadata::Text(_) => false,
    }
}

impl<D: Sectors + Drop> Service<D> {
    /// Whether the text of the metadata is made, so that `metadata` only shares it.
    pub fn has_metadata(&self) -> bool {
        match &self.metadata {
            Some(metadata) => !is_unread(metadata),
            None => false,
        }
    }

    /// Whether the metadata are in the making by `prepare_metadata`.
    pub fn metadata_in_making(&self) -> bool {
        match &self.metadata {
            Some(metadata) => is_unread(metadata),
            None => false,
        }
    }

    /// Reads the next features of the map for its metadata, of at most 256 numbers, and makes the text with the last ones: `metadata` then reads
    /// those that are left. It is true while features are left, and false too if memory is missing; nothing is in the making then. An edit drops
    /// what is made.
    pub fn prepare_metadata(&mut self) -> bool
        ensures { self.new ≡ self.old }
    {
        match next_metadata(self.alloc, self.metadata.take(), self.map.store()) {
            Ok(metadata) => {
                let features_left = is_unread(&metadata);
                self.metadata = Some(metadata);
                features_left
            }
            Err(AllocError) => false,
        }
    }
}
