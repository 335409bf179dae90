//! A publication in the making: its map is fixed, its tiles are made part by part, and edits go on meanwhile.
ghost use Rattle.std.specs.Prelude.{◌≡◌, ◌<◌, ◌-◌, ◌^◌, ℕ, true, false, None, Some, Err, IfOk, IfErr, IfSome, OnOk, OnErr, IsSome};
ghost use Rattle.area_content.specs.Drafts.{HasAdded};
ghost use Rattle.area_content.specs.declared.draft.Stage.TheVariants as stages;
ghost use Rattle.feature_store.specs.Moments.{IsAsOf, IsMomentOf, moment_map};
ghost use Rattle.feature_store.specs.Reading.{IsRead};
ghost use Rattle.feature_store.specs.Store.{FeatureMap};
ghost use Rattle.map_metadata.specs.Metadata.{IsMetadataOf};
ghost use Rattle.tile_service.specs.Machine.{AnswersBegin};
ghost use Rattle.tile_service.specs.Prepared.{CanPrepare};
ghost use Rattle.tile_service.specs.Service.{Known, IsUp, IsMaking, IsReading, IsStage, IsOwn, IsToldOf, BeginsDrafted, drafted_now, map_then, state_of};
ghost use Rattle.tile_service.specs.Stored.{Stored};
ghost use Rattle.tile_service.specs.declared.fault.ServiceFault.TheVariants.{Broken, Busy, Idle, Memory};

use crate::fault::ServiceFault;
use crate::letting_go::{let_go, let_moment_go, let_stage_go, refused, unread};
use crate::publishing::{Publication, to_service_fault};
use crate::reading::MapReading;
use crate::service::Service;
use area_content::{AddedTiles, AreaContent, ContentDraft};
use edit_journal::JournalPosition;
use feature_store::{Moment, Store};
use sector_disk::Sectors;
use std::alloc::{AllocError, Global};

/// How far the content of a draft is.
#[derive(Drop)]
pub(crate) enum DraftStage {
    /// Features are left to read.
    Reading(MapReading),
    /// Tiles are left to make.
    Going(ContentDraft),
    /// It is made.
    Found(AreaContent),
    /// The map has none, for this reason.
    Refused(ServiceFault),
}

/// A publication in the making, of the map of a moment that the service keeps.
#[derive(Drop)]
pub(crate) struct Draft {
    /// Where the journal continued at the moment.
    pub(crate) start: JournalPosition,
    /// How many of its places were in use then.
    pub(crate) places: u64,
    /// How many tiles are made.
    pub(crate) added: AddedTiles,
    /// The content of the map.
    pub(crate) stage: DraftStage,
}

/// How far a draft is: what is told of it.
#[derive(Clone, Copy, Debug)]
pub struct Drafting {
    /// How many entries an archive of the tiles that are made has.
    pub entries: u64,
    /// How many tiles are made.
    pub made: u64,
    /// How many places of the journal were in use when it began.
    pub places: u64,
}

/// The content of a map whose features are all read, with no tile made.
fn begun(reading: MapReading) -> DraftStage
    requires same { reading.metadata.features ≡ reading.map.features }
    requires area { reading.area < 2 ^ 23 }
    requires map { IsRead reading.map }
    requires metadata { IsRead reading.metadata }
    ensures { IsStage reading.area reading.map.features result }
{
    match reading.content() {
        Ok(content) => DraftStage::Going(content),
        Err(AllocError) => DraftStage::Refused(ServiceFault::Memory),
    }
}

/// The reading with some features more, of the map of a moment; `store` is the map as it is now. A map whose moment is lost has no content, for
/// want of memory.
fn with_next_features(reading: MapReading, store: &Store, moment: &Moment) -> DraftStage
    requires reading { IsReading reading.area moment.now.features reading }
    requires as_of { IsAsOf moment.now store.now.features }
    ensures { IsStage reading.area moment.now.features result }
{
    if moment.is_lost() {
        return unread(reading);
    }
    let mut reading = reading;
    match reading.step(store, moment) {
        Ok(true) => DraftStage::Reading(reading),
        Ok(false) => begun(reading),
        Err(AllocError) => unread(reading),
    }
}

/// The reading with all features, and no tile.
fn with_all_features(reading: MapReading, store: &Store, moment: &Moment) -> DraftStage
    requires reading { IsReading reading.area moment.now.features reading }
    requires as_of { IsAsOf moment.now store.now.features }
    ensures { IsStage reading.area moment.now.features result }
{
    if moment.is_lost() {
        return unread(reading);
    }
    let mut reading = reading;
    match reading.read_all(store, moment) {
        Ok(()) => begun(reading),
        Err(AllocError) => unread(reading),
    }
}

/// The content whose tiles are made.
fn finished(content: ContentDraft) -> DraftStage
    requires made { content.stage ≡ stages.Made }
    requires metadata { IsMetadataOf content.features content.metadata }
    ensures { IsStage content.area content.features result }
{
    match content.finish() {
        Ok(content) => DraftStage::Found(content),
        Err(fault) => DraftStage::Refused(to_service_fault(fault)),
    }
}

/// The content with a part of a tile more, or with a large one that was made, of the map of a moment; `store` is the map as it is now. A map whose
/// moment is lost has no content, for want of memory.
fn with_next_part(content: ContentDraft, store: &Store, moment: &Moment) -> DraftStage
    requires making { IsMaking content.area moment.now.features content }
    requires as_of { IsAsOf moment.now store.now.features }
    ensures { IsStage content.area moment.now.features result }
{
    if moment.is_lost() {
        return refused(content, ServiceFault::Memory);
    }
    let mut content = content;
    match content.step(store, moment) {
        Ok(true) => DraftStage::Going(content),
        Ok(false) => finished(content),
        Err(fault) => refused(content, to_service_fault(fault)),
    }
}

/// The content with all its tiles.
fn with_all_tiles(content: ContentDraft, store: &Store, moment: &Moment) -> DraftStage
    requires making { IsMaking content.area moment.now.features content }
    requires as_of { IsAsOf moment.now store.now.features }
    ensures { IsStage content.area moment.now.features result }
{
    if moment.is_lost() {
        return refused(content, ServiceFault::Memory);
    }
    let mut content = content;
    match content.make_all(store, moment) {
        Ok(()) => finished(content),
        Err(fault) => refused(content, to_service_fault(fault)),
    }
}

/// The reading with all features and all tiles.
fn with_all(reading: MapReading, store: &Store, moment: &Moment) -> DraftStage
    requires reading { IsReading reading.area moment.now.features reading }
    requires as_of { IsAsOf moment.now store.now.features }
    ensures { IsStage reading.area moment.now.features result }
{
    match with_all_features(reading, store, moment) {
        DraftStage::Going(content) => with_all_tiles(content, store, moment),
        stage => stage,
    }
}

/// How far a draft is with some features more, or a part of a tile, or a large one that was made.
fn next_stage(stage: DraftStage, store: &Store, moment: &Option<Moment>) -> DraftStage
    requires making { IsOwn (map_then (moment_map moment.now)) stage }
    requires as_of { IsMomentOf moment.now store.now.features }
    ensures { (area : ℕ) → IsStage area (map_then (moment_map moment.now)) stage → IsStage area (map_then (moment_map moment.now)) result }
{
    match stage {
        DraftStage::Reading(reading) => match moment {
            Some(moment) => with_next_features(reading, store, moment),
            None => DraftStage::Refused(ServiceFault::Memory),
        },
        DraftStage::Going(content) => match moment {
            Some(moment) => with_next_part(content, store, moment),
            None => refused(content, ServiceFault::Memory),
        },
        DraftStage::Found(content) => DraftStage::Found(content),
        DraftStage::Refused(fault) => DraftStage::Refused(fault),
    }
}

/// How far a draft is with all its tiles.
fn last_stage(stage: DraftStage, store: &Store, moment: &Option<Moment>) -> DraftStage
    requires making { IsOwn (map_then (moment_map moment.now)) stage }
    requires as_of { IsMomentOf moment.now store.now.features }
    ensures { (area : ℕ) → IsStage area (map_then (moment_map moment.now)) stage → IsStage area (map_then (moment_map moment.now)) result }
{
    match stage {
        DraftStage::Reading(reading) => match moment {
            Some(moment) => with_all(reading, store, moment),
            None => DraftStage::Refused(ServiceFault::Memory),
        },
        DraftStage::Going(content) => match moment {
            Some(moment) => with_all_tiles(content, store, moment),
            None => refused(content, ServiceFault::Memory),
        },
        DraftStage::Found(content) => DraftStage::Found(content),
        DraftStage::Refused(fault) => DraftStage::Refused(fault),
    }
}

/// Whether features are left to read, or tiles to make.
fn is_going(draft: &Option<Draft>) -> bool {
    match draft {
        Some(draft) => match &draft.stage {
            DraftStage::Reading(_) => true,
            DraftStage::Going(_) => true,
            DraftStage::Found(_) => false,
            DraftStage::Refused(_) => false,
        },
        None => false,
    }
}

/// No tile is made.
fn none_added() -> AddedTiles
    ensures { (m : FeatureMap) → HasAdded m result }
{
    AddedTiles {
        count: 0,
        entries: 0,
    }
}

/// How many tiles are made after a step that left this stage, if so many were made before it: the last step makes none, and neither does one
/// after it.
fn added_by(before: AddedTiles, stage: &DraftStage) -> AddedTiles
    ensures { (m : FeatureMap) → HasAdded m before → IsOwn m stage.now → HasAdded m result }
{
    match stage {
        DraftStage::Reading(_) => before,
        DraftStage::Going(content) => content.added(),
        DraftStage::Found(_) => before,
        DraftStage::Refused(_) => before,
    }
}

impl<D: Sectors + Drop> Service<D> {
    /// How far the publication in the making is, if there is one. It doesn't allocate.
    pub fn drafting(&self) -> Option<Drafting>
        ensures { IsToldOf self.now.drafting result }
    {
        match &self.draft {
            Some(draft) => Some(Drafting {
                entries: draft.added.entries,
                made: draft.added.count,
                places: draft.places,
            }),
            None => None,
        }
    }

    /// Begins a draft of the map as it is now.
    fn begin_draft(&mut self) -> Result<(), ServiceFault>
        requires generation { self.old.generation < 2 ^ 64 - 1 }
        ensures same { self.new ≡ record self.old { drafting = self.new.drafting } }
        ensures begins { OnOk result (self.new.drafting ≡ Some (drafted_now self.old)) }
        ensures can { self.old.broken ≡ false → self.old.publication ≡ None → OnOk result (CanPrepare self.old) }
        ensures refused { OnErr result (self.new ≡ self.old) }
        ensures fault { IfErr result (λ fault. fault ≡ Memory) }
        ensures up { (stored : Stored) → IsUp (D.sectors self.old.disk) (D.history self.old.disk) stored self.old
            → IsUp (D.sectors self.new.disk) (D.history self.new.disk) stored self.new }
    {
        match MapReading::of(self.alloc, self.map.store(), self.layout.area) {
            Ok(reading) => {
                let (start, places) = self.journal.begin();
                let now = self.map.store().moment();
                let moment = self.moment.replace(now);
                let draft = self.draft.replace(Draft {
                    start,
                    places,
                    added: none_added(),
                    stage: DraftStage::Reading(reading),
                });
                let_go(draft, moment);
                Ok(())
            }
            Err(AllocError) => Err(ServiceFault::Memory),
        }
    }

    /// Reads some features more of the draft, or makes a part of its next tile.
    fn advance_draft(&mut self)
        ensures { self.new ≡ self.old }
    {
        match self.draft.take() {
            Some(draft) => {
                let stage = next_stage(draft.stage, self.map.store(), &self.moment);
                let before = self.draft.replace(Draft {
                    start: draft.start,
                    places: draft.places,
                    added: added_by(draft.added, &stage),
                    stage,
                });
                let_go(before, None);
            }
            None => {}
        }
    }

    /// Drops the publication in the making, if there is one. It allocates nothing and writes nothing.
    pub fn publish_drop(&mut self)
        ensures same { self.new ≡ record self.old { drafting = None } }
        ensures up { (stored : Stored) → IsUp (D.sectors self.old.disk) (D.history self.old.disk) stored self.old
            → IsUp (D.sectors self.new.disk) (D.history self.new.disk) stored self.new }
    {
        let draft = self.draft.take();
        let moment = self.moment.take();
        let_go(draft, moment);
    }

    /// Prepares a publication by a step, between which edits go on: the first call fixes the map of this moment, and reads nothing of it. Each
    /// later one reads some of its features or, once all are read, makes a part of a tile of it or adds a large one. It is true while some may be left.
    /// `publish_drafted` then begins the publication of that map. Each edit meanwhile keeps the feature that it replaces; if memory for that is
    /// missing, the publication is refused for it, and not the edit. Nothing is written.
    ///
    /// # Errors
    ///
    /// Those of a beginning that are known without the tiles: `Broken`, after which nothing is in the making; of the first call, `Busy`,
    /// `NumbersSpent` and `Memory`, the first that applies in this order.
    pub fn publish_prepare(&mut self) -> Result<bool, ServiceFault>
        ensures same { self.new ≡ record self.old { drafting = self.new.drafting } }
        ensures begins { self.old.drafting ≡ None → OnOk result (self.new.drafting ≡ Some (drafted_now self.old)) }
        // Nothing but the tiles, the space and memory then prevents the publication.
        ensures can { self.old.drafting ≡ None → OnOk result (CanPrepare self.old) }
        ensures goes_on { IsSome self.old.drafting → OnOk result (self.new.drafting ≡ self.old.drafting) }
        ensures refused { OnErr result (self.new.drafting ≡ None) }
        ensures fault { (known : Known) → IfErr result (λ fault. AnswersBegin (state_of known self.old) (Err fault) (state_of known self.new)) }
        ensures up { (stored : Stored) → IsUp (D.sectors self.old.disk) (D.history self.old.disk) stored self.old
            → IsUp (D.sectors self.new.disk) (D.history self.new.disk) stored self.new }
    {
        if self.broken {
            self.publish_drop();
            return Err(ServiceFault::Broken);
        }
        if self.draft.is_some() {
            self.let_go();
            self.advance_draft();
            return Ok(is_going(&self.draft));
        }
        if self.publication.is_some() {
            return Err(ServiceFault::Busy);
        }
        if self.root.generation == u64::MAX {
            return Err(ServiceFault::NumbersSpent);
        }
        match self.begin_draft() {
            Ok(()) => Ok(true),
            Err(fault) => Err(fault),
        }
    }

    /// Begins the publication that is in the making, of the map as it was when `publish_prepare` began it, and returns what `publish_begin` would
    /// have returned then: how many sectors snapshot and archive take, and 1 more for the root. Tiles that are left are made. On
    /// success and on error nothing is in the making after it.
    ///
    /// # Errors
    ///
    /// `Broken`, `Busy`, `Idle` if nothing is in the making, the first that applies in this order; and what `publish_begin` would have returned for
    /// that map.
    pub fn publish_drafted(&mut self) -> Result<u64, ServiceFault>
        ensures same { self.new ≡ record self.old { publication = self.new.publication; drafting = None } }
        ensures refused { OnErr result (self.new.publication ≡ self.old.publication) }
        ensures broken { self.old.broken ≡ true → result ≡ Err Broken }
        ensures busy { self.old.broken ≡ false → IsSome self.old.publication → result ≡ Err Busy }
        ensures idle { self.old.broken ≡ false → self.old.publication ≡ None → self.old.drafting ≡ None → result ≡ Err Idle }
        ensures begins { self.old.broken ≡ false → self.old.publication ≡ None
            → IfSome self.old.drafting (λ d. BeginsDrafted self.old.size d result self.new.publication) }
        ensures up { (stored : Stored) → IsUp (D.sectors self.old.disk) (D.history self.old.disk) stored self.old
            → IsUp (D.sectors self.new.disk) (D.history self.new.disk) stored self.new }
    {
        let draft = self.draft.take();
        let moment = self.moment.take();
        if self.broken {
            let_go(draft, moment);
            return Err(ServiceFault::Broken);
        }
        if self.publication.is_some() {
            let_go(draft, moment);
            return Err(ServiceFault::Busy);
        }
        let Some(draft) = draft else {
            let_go(draft, moment);
            return Err(ServiceFault::Idle);
        };
        let stage = last_stage(draft.stage, self.map.store(), &moment);
        let_moment_go(moment);
        match stage {
            DraftStage::Found(content) => {
                let left = content.sectors() + 1;
                self.publication = Some(Publication {
                    content,
                    start: draft.start,
                    places: draft.places,
                    written: 0,
                    pauses: true,
                });
                Ok(left)
            }
            DraftStage::Refused(fault) => Err(fault),
            unmade => {
                let_stage_go(unmade);
                Err(ServiceFault::Memory)
            }
        }
    }
}
