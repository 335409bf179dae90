//! Edits: written to the journal first, then applied to the map.
ghost use Rattle.std.specs.Prelude.{◌≡◌, ◌≢◌, ◌↔◌, ◌+◌, ◌-◌, ◌<◌, ◌≤◌, ◌^◌, ℕ, length, true, false, [], ◌∷◌, map, All, IfErr, IfOk, OnOk, IsSome, IsTrue, None};
ghost use Rattle.edit_journal.specs.declared.fault.JournalFault.TheVariants as journals;
ghost use Rattle.feature_model.specs.Data.{feature_data, change_data, edit_data, put, delete};
ghost use Rattle.feature_model.specs.Limits.{NumberFits, ChangeFits, IsAllowedEdit};
ghost use Rattle.edit_text.specs.Recorded.{FitsVersion, IsRecordOf, text_in, most_in};
ghost use Rattle.feature_model.specs.Spelled.{spelled};
ghost use Rattle.feature_store.specs.Prepared.{prepared_data};
ghost use Rattle.feature_store.specs.Store.{feature_at, puts_in};
ghost use Rattle.tile_service.specs.Limits.{KeepsLimits, BreaksLimit, CoversFewTiles, KeepsBatchLimits, BreaksBatchLimit};
ghost use Rattle.tile_service.specs.Machine.{Call, single, batched, recorded_in, recorded_change, HasTarget, CanMake, Allocates, AnswersEdit};
ghost use Rattle.tile_service.specs.Runs.{TakesEdit};
ghost use Rattle.tile_service.specs.Service.{Known, state_of, told_as};
ghost use Rattle.tile_service.specs.declared.fault.ServiceFault.TheVariants.{Limit};

use crate::fault::ServiceFault;
use crate::service::Service;
use cached_map::CachedMap;
use edit_journal::JournalFault;
use edit_text::delete_edit_text;
use feature_model::{Change, Edit, EditFault, Feature, check, check_batch};
use feature_store::{Prepared, Store, record_of};
use generations::FIRST_VERSION;
use sector_disk::Sectors;
use std::alloc::{AllocError, Global};
use tile_cutter::check_reach;

/// Checks a feature against the limits for its id, its reach included.
fn within_limits(id: u64, feature: &Feature) -> Result<(), ServiceFault>
    ensures ok { OnOk result (KeepsLimits id (feature_data feature.now)) }
    ensures fault { IfErr result (λ fault. (limit : _) × (fault ≡ Limit limit) × BreaksLimit id (feature_data feature.now) limit) }
{
    match check(id, feature) {
        Ok(()) => {}
        Err(fault) => return Err(ServiceFault::Limit(fault)),
    }
    match check_reach(feature) {
        Ok(()) => Ok(()),
        Err(_) => Err(ServiceFault::Limit(EditFault::Reach)),
    }
}

/// Checks that a change sets no feature that covers too many tiles.
fn covers_few_tiles(change: &Change) -> bool
    requires { ChangeFits (change_data change.now) }
    ensures { IsTrue result ↔ CoversFewTiles (change_data change.now) }
{
    match change {
        Change::Put { feature, .. } => check_reach(feature).is_ok(),
        Change::Delete { .. } => true,
    }
}

/// Checks that none of the changes sets a feature that covers too many tiles.
fn all_cover_few_tiles(changes: &[Change]) -> bool
    requires { All ChangeFits (map change_data changes.now) }
    ensures { IsTrue result ↔ All CoversFewTiles (map change_data changes.now) }
{
    for change in changes {
        if !covers_few_tiles(change) {
            return false;
        }
    }
    true
}

/// Checks changes against the limits of a batch, the reach of features included.
fn within_batch_limits(changes: &[Change]) -> Result<(), ServiceFault>
    ensures ok { OnOk result (KeepsBatchLimits (map change_data changes.now)) }
    ensures fault { IfErr result (λ fault. (limit : _) × (fault ≡ Limit limit) × BreaksBatchLimit (map change_data changes.now) limit) }
{
    match check_batch(changes) {
        Ok(()) => {}
        Err(fault) => return Err(ServiceFault::Limit(fault)),
    }
    if !all_cover_few_tiles(changes) {
        return Err(ServiceFault::Limit(EditFault::Reach));
    }
    Ok(())
}

/// Whether a feature has this id.
fn has(store: &Store, id: u64) -> bool
    ensures found { IsTrue result ↔ IsSome (feature_at store.now.features id) }
    ensures number { IsTrue result → NumberFits id }
{
    store.get(id).is_some()
}

/// Whether the feature exists, if the change deletes one.
fn has_target(store: &Store, change: &Change) -> bool
    ensures { IsTrue result ↔ HasTarget store.now.features (change_data change.now) }
{
    match change {
        Change::Put { .. } => true,
        Change::Delete { id } => has(store, *id),
    }
}

/// Whether each feature that the changes delete exists.
fn has_targets(store: &Store, changes: &[Change]) -> bool
    ensures { IsTrue result ↔ All (HasTarget store.now.features) (map change_data changes.now) }
{
    for change in changes {
        if !has_target(store, change) {
            return false;
        }
    }
    true
}

/// The edit of one change.
fn single_edit(alloc: Global, change: Change) -> Result<Edit, AllocError>
    ensures edit { IfOk result (λ edit. edit_data edit ≡ change_data change ∷ []) }
{
    let mut changes = Vec::with_capacity(alloc, 1)?;
    changes.push(change)?;
    Ok(Edit { changes })
}

/// The text of a deletion's record in this version, from that of the edit: in version 1 without the count.
fn deletion_text(version: u32, text: &[u8; 10]) -> &[u8]
    ensures { (id : ℕ) → text.now ≡ spelled (delete id ∷ []) → result.now ≡ text_in version (delete id ∷ []) }
{
    if version == FIRST_VERSION {
        &text[1..]
    } else {
        text
    }
}

/// Converts an append's fault. An append never returns `Damaged`, and doesn't allocate.
fn to_service_fault(fault: JournalFault) -> ServiceFault
    ensures { result ≡ told_as fault }
{
    match fault {
        JournalFault::NumbersSpent => ServiceFault::NumbersSpent,
        JournalFault::Full { need, free } => ServiceFault::JournalFull { need, free },
        JournalFault::Memory => ServiceFault::Memory,
        JournalFault::Device | JournalFault::Damaged => ServiceFault::Device,
    }
}

/// The changes of an edit as the map keeps them, with memory for them, and the text of its record, joined from theirs.
fn prepare(
    alloc: Global,
    version: u32,
    cached: &mut CachedMap,
    edit: &Edit,
) -> Result<(Vec<Prepared>, Vec<u8>), AllocError>
    requires allowed { IsAllowedEdit (edit_data edit.now) }
    requires fits { FitsVersion version (edit_data edit.now) }
    ensures same { cached.new ≡ record cached.old { spare = cached.new.spare } }
    ensures prepared { IfOk result (λ r. map prepared_data r.0.items ≡ edit_data edit.now) }
    ensures room { OnOk result (puts_in (edit_data edit.now) ≤ cached.new.spare) }
    ensures text { IfOk result (λ r. r.1.items ≡ text_in version (edit_data edit.now)) }
    ensures record { IfOk result (λ r. IsRecordOf version (edit_data edit.now) r.1.items) }
    ensures len { IfOk result (λ r. length r.1.items ≤ most_in version) }
{
    let changes = cached.prepare(&edit.changes)?;
    let text = record_of(alloc, version, &changes)?;
    Ok((changes, text))
}

impl<D: Sectors + Drop> Service<D> {
    /// Converts the fault of an append. After `Device` the service is broken and the publication is cancelled.
    fn fail(&mut self, fault: JournalFault) -> ServiceFault
        ensures told { result ≡ told_as fault }
        ensures same { self.new ≡ record self.old { publication = self.new.publication; broken = self.new.broken } }
        ensures device { fault ≡ journals.Device → (self.new.publication ≡ None) × (self.new.broken ≡ true) }
        ensures other { fault ≢ journals.Device → self.new ≡ self.old }
    {
        if fault == JournalFault::Device {
            self.broken = true;
            self.publication = None;
        }
        to_service_fault(fault)
    }

    /// Makes an edit that is within the limits: writes its record, and applies it to the map. Nothing else allocates, so it fails only for want
    /// of memory or space, or because of the disk.
    fn write_edit(&mut self, requested: Edit) -> Result<u64, ServiceFault>
        requires unbroken { self.old.broken ≡ false }
        requires number { self.old.journal.last < 2 ^ 64 - 1 }
        requires allowed { IsAllowedEdit (edit_data requested) }
        requires fits { FitsVersion self.old.version (edit_data requested) }
        ensures machine { (known : Known) (call : Call) → CanMake (state_of known self.old) call (recorded_in self.old.version (edit_data requested))
            → Allocates call (edit_data requested) → AnswersEdit (state_of known self.old) call
            (recorded_in self.old.version (edit_data requested)) result (state_of known self.new) }
        ensures takes { (call : Call) → TakesEdit D.sectors D.honest D.history D.faults self.old call
            (recorded_in self.old.version (edit_data requested)) result self.new }
    {
        let (changes, text) = match prepare(self.alloc, self.version, &mut self.map, &requested) {
            Ok((changes, text)) => (changes, text),
            Err(AllocError) => return Err(ServiceFault::Memory),
        };
        match self.journal.append_to_both(
            &mut self.kept_journal,
            &mut self.disk,
            self.version,
            &text,
        ) {
            Ok(number) => {
                self.map.make_edit(changes, number, &mut self.moment);
                self.metadata = None;
                Ok(number)
            }
            Err(fault) => Err(self.fail(fault)),
        }
    }

    /// Sets the feature with this id, whether there was one or not, and returns the number of the edit. After `Ok` the edit survives a
    /// crash. After `Device` it is stored or not, and the service makes no more edits. Any other error changes nothing and writes
    /// nothing.
    ///
    /// # Errors
    ///
    /// `Broken`, `Limit`, `NumbersSpent`, `Memory`, `JournalFull`, `Device`, the first that applies in this order.
    pub fn put(&mut self, id: u64, feature: Feature) -> Result<u64, ServiceFault>
        ensures machine { (known : Known)
            → AnswersEdit (state_of known self.old) single (recorded_change self.old.version (put id (feature_data feature))) result (state_of known self.new) }
        ensures takes { TakesEdit D.sectors D.honest D.history D.faults self.old single
            (recorded_change self.old.version (put id (feature_data feature))) result self.new }
    {
        if self.broken {
            return Err(ServiceFault::Broken);
        }
        match within_limits(id, &feature) {
            Ok(()) => {}
            Err(fault) => return Err(fault),
        }
        if self.journal.last == u64::MAX {
            return Err(ServiceFault::NumbersSpent);
        }
        match single_edit(self.alloc, Change::Put { id, feature }) {
            Ok(edit) => self.write_edit(edit),
            Err(AllocError) => Err(ServiceFault::Memory),
        }
    }

    /// Makes changes of 1 to 64 different ids, all of them or none, and returns the number of the edit. Else it is as `put`; a batch is
    /// made only on a disk of version 2.
    ///
    /// # Errors
    ///
    /// `Broken`; `NeedsUpgrade`; `Limit` with the first limit that the changes break (`Batch`, `Twice`, that of the first change that
    /// breaks one, `Long` of their texts together, `Reach`); `NotFound` if a feature to delete doesn't exist; `NumbersSpent`, `Memory`,
    /// `JournalFull`, `Device`; the first that applies in this order.
    pub fn batch(&mut self, changes: Vec<Change>) -> Result<u64, ServiceFault>
        ensures machine { (known : Known)
            → AnswersEdit (state_of known self.old) batched (recorded_in self.old.version (map change_data changes.items)) result (state_of known self.new) }
        ensures takes { TakesEdit D.sectors D.honest D.history D.faults self.old batched
            (recorded_in self.old.version (map change_data changes.items)) result self.new }
    {
        if self.broken {
            return Err(ServiceFault::Broken);
        }
        if self.version == FIRST_VERSION {
            return Err(ServiceFault::NeedsUpgrade);
        }
        match within_batch_limits(&changes) {
            Ok(()) => {}
            Err(fault) => return Err(fault),
        }
        if !has_targets(self.map.store(), &changes) {
            return Err(ServiceFault::NotFound);
        }
        if self.journal.last == u64::MAX {
            return Err(ServiceFault::NumbersSpent);
        }
        self.write_edit(Edit { changes })
    }

    /// Deletes the feature with this id, and returns the number of the edit. It doesn't allocate; else it is as `put`.
    ///
    /// # Errors
    ///
    /// `Broken`, `NotFound`, `NumbersSpent`, `JournalFull`, `Device`, the first that applies in this order.
    pub fn delete(&mut self, id: u64) -> Result<u64, ServiceFault>
        ensures machine { (known : Known)
            → AnswersEdit (state_of known self.old) single (recorded_change self.old.version (delete id)) result (state_of known self.new) }
        ensures takes { TakesEdit D.sectors D.honest D.history D.faults self.old single (recorded_change self.old.version (delete id)) result self.new }
    {
        if self.broken {
            return Err(ServiceFault::Broken);
        }
        if !has(self.map.store(), id) {
            return Err(ServiceFault::NotFound);
        }
        let text = delete_edit_text(id);
        let text = deletion_text(self.version, &text);
        match self
            .journal
            .append_to_both(&mut self.kept_journal, &mut self.disk, self.version, text)
        {
            Ok(last) => {
                self.map.remove(id, last, &mut self.moment);
                self.metadata = None;
                Ok(last)
            }
            Err(fault) => Err(self.fail(fault)),
        }
    }
}
