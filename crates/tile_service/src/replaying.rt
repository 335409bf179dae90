//! The map after the edits in the journal.
ghost use Rattle.std.specs.Prelude.{◌≡◌, ◌⊎◌, ◌↔◌, ◌<◌, ◌+◌, ◌^◌, ℕ, length, map, IfOk, IfErr, OnOk};
ghost use Rattle.cached_map.specs.Cached.{WasMap, AreReadRight};
ghost use Rattle.edit_journal.specs.Records.{record_data, records_of};
ghost use Rattle.edit_text.specs.Recorded.{RecordedEdit};
ghost use Rattle.feature_model.specs.Spelled.{spelled_changes};
ghost use Rattle.feature_model.specs.Types.{IsEdit};
ghost use Rattle.feature_store.specs.Prepared.{prepared_data};
ghost use Rattle.feature_store.specs.Store.{FeatureMap, edited, snapshot};
ghost use Rattle.feature_store.specs.declared.limit.TheConstants.{TEXTS_END};
ghost use Rattle.generations.specs.declared.fault.StoreFault.TheVariants.{Damaged, Memory};
ghost use Rattle.generations.specs.declared.fault.What.TheVariants.{Text};
ghost use Rattle.tile_service.specs.After.{made};
ghost use Rattle.tile_service.specs.Machine.{recorded_in};
ghost use Rattle.tile_service.specs.Replayed.{IsRecordFor, AreMade, IsRecordFault, IsReplayFault, bytes_of};

use cached_map::CachedMap;
use edit_journal::Record;
use edit_text::TextFault;
use feature_store::{Prepared, read_record};
use generations::{StoreFault, What};
use std::alloc::{AllocError, Global};

/// Why a record isn't read as an edit: `Damaged(Text)` if it is the record of none.
fn fault_of(fault: TextFault) -> StoreFault
    ensures either { (result ≡ Memory) ⊎ (result ≡ Damaged Text) }
    ensures memory { (result ≡ Memory) ↔ (fault ≡ TextFault.Memory) }
{
    match fault {
        TextFault::Memory => StoreFault::Memory,
        TextFault::Cut | TextFault::Bad => StoreFault::Damaged(What::Text),
    }
}

/// The changes of a record's edit, as the map keeps them.
fn changes_in(alloc: Global, recorded: &Record) -> Result<Vec<Prepared>, StoreFault>
    ensures edit { IfOk result (λ v. IsRecordFor (record_data recorded.now) (recorded_in recorded.now.version (map prepared_data v.items))) }
    ensures fault { IfErr result (IsRecordFault (record_data recorded.now)) }
{
    match read_record(alloc, recorded.version, &recorded.text) {
        Ok(changes) => Ok(changes),
        Err(fault) => Err(fault_of(fault)),
    }
}

/// Applies the map's next edit.
fn make(cached: &mut CachedMap, changes: Vec<Prepared>) -> Result<(), StoreFault>
    requires edit { IsEdit (map prepared_data changes.items) }
    requires texts { length (snapshot cached.old.features) + length (spelled_changes (map prepared_data changes.items)) < TEXTS_END }
    requires number { cached.old.last + 1 < 2 ^ 64 }
    ensures map { OnOk result (cached.new.features ≡ edited cached.old.features (map prepared_data changes.items)) }
    ensures last { OnOk result (cached.new.last ≡ cached.old.last + 1) }
    ensures now { OnOk result (WasMap cached.new.features cached.new.touched cached.new.last cached.new.last cached.new.features) }
    ensures since { (n : ℕ) (was : FeatureMap) → WasMap cached.old.features cached.old.touched cached.old.last n was
        → OnOk result (WasMap cached.new.features cached.new.touched cached.new.last n was) }
    ensures reads { AreReadRight cached.old.features cached.old.touched cached.old.last cached.old.kept
        → OnOk result (AreReadRight cached.new.features cached.new.touched cached.new.last cached.new.kept) }
    ensures fault { IfErr result (λ fault. fault ≡ Memory) }
{
    let number = cached.last() + 1;
    match cached.room_for(&changes) {
        Ok(()) => {}
        Err(AllocError) => return Err(StoreFault::Memory),
    }
    cached.make_edit(changes, number, &mut None);
    Ok(())
}

/// Applies the edit of a record.
fn replay_one(alloc: Global, map: &mut CachedMap, recorded: &Record) -> Result<(), StoreFault>
    requires texts { length (snapshot map.old.features) + length recorded.now.text.items < TEXTS_END }
    requires number { map.old.last + 1 < 2 ^ 64 }
    ensures made { OnOk result ((e : RecordedEdit) × IsRecordFor (record_data recorded.now) e × (map.new.features ≡ made map.old.features e)) }
    ensures last { OnOk result (map.new.last ≡ map.old.last + 1) }
    ensures now { OnOk result (WasMap map.new.features map.new.touched map.new.last map.new.last map.new.features) }
    ensures since { (n : ℕ) (was : FeatureMap) → WasMap map.old.features map.old.touched map.old.last n was
        → OnOk result (WasMap map.new.features map.new.touched map.new.last n was) }
    ensures reads { AreReadRight map.old.features map.old.touched map.old.last map.old.kept
        → OnOk result (AreReadRight map.new.features map.new.touched map.new.last map.new.kept) }
    ensures fault { IfErr result (IsRecordFault (record_data recorded.now)) }
{
    let changes = changes_in(alloc, recorded)?;
    make(map, changes)
}

/// Applies the edits of records to the map in order, with consecutive numbers. Each record is freed as soon as its edit is applied.
fn replay_each(alloc: Global, map: &mut CachedMap, records: Vec<Record>) -> Result<(), StoreFault>
    requires texts { length (snapshot map.old.features) + bytes_of (records_of records.items) < TEXTS_END }
    requires numbers { map.old.last + length records.items < 2 ^ 64 }
    requires now { WasMap map.old.features map.old.touched map.old.last map.old.last map.old.features }
    ensures made { OnOk result (AreMade (records_of records.items) map.old map.new) }
    ensures last { OnOk result (map.new.last ≡ map.old.last + length records.items) }
    ensures reads { AreReadRight map.old.features map.old.touched map.old.last map.old.kept
        → OnOk result (AreReadRight map.new.features map.new.touched map.new.last map.new.kept) }
    ensures fault { IfErr result (IsReplayFault (records_of records.items)) }
{
    for recorded in records {
        replay_one(alloc, map, &recorded)?;
    }
    Ok(())
}

/// Builds the index of the map's boxes, if it has none.
fn index(map: &mut CachedMap) -> Result<(), StoreFault>
    ensures same { map.new ≡ record map.old { spare = map.new.spare } }
    ensures fault { IfErr result (λ fault. fault ≡ Memory) }
{
    match map.index() {
        Ok(()) => Ok(()),
        Err(AllocError) => Err(StoreFault::Memory),
    }
}

/// Reads the edits of records and applies them to the map in order, with consecutive numbers. The index of the boxes is built at the end,
/// once. `Damaged(Text)`: one of them is the record of no edit. `Memory`: an allocation failed. After an error the edits before the faulty
/// record are applied.
pub(crate) fn replay(
    alloc: Global,
    map: &mut CachedMap,
    records: Vec<Record>,
) -> Result<(), StoreFault>
    requires texts { length (snapshot map.old.features) + bytes_of (records_of records.items) < TEXTS_END }
    requires numbers { map.old.last + length records.items < 2 ^ 64 }
    requires now { WasMap map.old.features map.old.touched map.old.last map.old.last map.old.features }
    ensures made { OnOk result (AreMade (records_of records.items) map.old map.new) }
    ensures last { OnOk result (map.new.last ≡ map.old.last + length records.items) }
    ensures reads { AreReadRight map.old.features map.old.touched map.old.last map.old.kept
        → OnOk result (AreReadRight map.new.features map.new.touched map.new.last map.new.kept) }
    ensures fault { IfErr result (IsReplayFault (records_of records.items)) }
{
    match replay_each(alloc, map, records) {
        Ok(()) => index(map),
        Err(fault) => Err(fault),
    }
}
