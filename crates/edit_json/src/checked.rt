//! The changes of an edit from their JSON value, with what its author saw.

ghost use Rattle.std.specs.Prelude.{◌≡◌, ◌≢◌, ◌⊎◌, ◌<◌, ◌↔◌, ℕ, List, length, map, All, IsTrue, IfOk, IfErr, MatchOption, MatchResult, option_map};
ghost use Rattle.serde_json.specs.Data.{Data, null};
ghost use Rattle.serde_json.specs.View.{view};
ghost use Rattle.feature_model.specs.Data.{EditData, change_data, feature_data};
ghost use Rattle.feature_model.specs.Seen.{SeenData, seen_data};
ghost use Rattle.feature_model.specs.Types.{ChangeFitsTypes};
ghost use Rattle.edit_json.specs.Asked.{asked_data};
ghost use Rattle.edit_json.specs.Batches.{delete_asked, put_asked, asked_number, Begins};
ghost use Rattle.edit_json.specs.Faults.{IsFirstJsonFault};
ghost use Rattle.edit_json.specs.Checked.{CheckedData, checked_data, with_was, checked_json, HasWas, HasCheckedMembers, checks_json, plain};
ghost use Rattle.edit_json.specs.Checked.{IsWas, Were, IsChecked, IsFirstWas, IsFirstCheckedFault};

use crate::batches::{Asked, changes_of, number, read_list};
use crate::outline::{next_named, next_number, read_outline};
use crate::reading::feature_from_json;
use feature_model::{Change, EditFault, Feature, Seen};
use serde_json::Value;
use std::alloc::Global;

/// A change as its JSON value asks for it, and the JSON of what its author saw.
#[derive(Clone, Copy)]
pub(crate) struct Checked<'v> {
    pub(crate) asked: Asked<'v>,
    pub(crate) was: &'v Value,
}

/// The number of an object that asks for a delete, and what was seen.
#[tactic(auto, unfolding(crate::specs::Json::name_bytes))]
fn read_delete_was(value: &Value) -> Option<(u64, &Value)>
    ensures { MatchOption result
        ((id : ℕ) (w : Data) → view value.now ≢ with_was (delete_asked id) w)
        (λ found. view value.now ≡ with_was (delete_asked found.0) (view found.1.now)) }
{
    let mut members = value.as_object()?.iter();
    let id = next_number(&mut members, "delete")?;
    let was = next_named(&mut members, "was")?;
    if members.next().is_some() {
        return None;
    }
    Some((id, was))
}

/// The number and the feature of an object that asks for a Put, and what was seen.
#[tactic(auto, unfolding(crate::specs::Json::name_bytes))]
fn read_put_was(value: &Value) -> Option<(u64, &Value, &Value)>
    ensures { MatchOption result
        ((id : ℕ) (d w : Data) → view value.now ≢ with_was (put_asked id d) w)
        (λ found. view value.now ≡ with_was (put_asked found.0 (view found.1.now)) (view found.2.now)) }
{
    let mut members = value.as_object()?.iter();
    let feature = next_named(&mut members, "feature")?;
    let id = next_number(&mut members, "put")?;
    let was = next_named(&mut members, "was")?;
    if members.next().is_some() {
        return None;
    }
    Some((id, feature, was))
}

/// Whether a value is null, or has the members of a feature.
fn has_was(value: &Value) -> bool
    ensures { IsTrue result ↔ HasWas (view value.now) }
{
    value.is_null() || read_outline(value).is_some()
}

/// What an object asks for and what was seen, with the members that both must have.
fn read_checked(value: &Value) -> Option<Checked<'_>>
    ensures { MatchOption result
        ((x : CheckedData) → view value.now ≡ checked_json x → HasCheckedMembers x → ⊥)
        (λ found. (view value.now ≡ checked_json (checked_data found)) × HasCheckedMembers (checked_data found)) }
{
    if let Some((id, was)) = read_delete_was(value) {
        if !has_was(was) {
            return None;
        }
        let asked = Asked::Delete { id };
        return Some(Checked { asked, was });
    }
    let (id, feature, was) = read_put_was(value)?;
    if read_outline(feature).is_none() {
        return None;
    }
    if !has_was(was) {
        return None;
    }
    let asked = Asked::Put { id, feature };
    Some(Checked { asked, was })
}

/// What each object of a list asks for, and what was seen.
fn read_checks(alloc: Global, list: &[Value]) -> Result<Vec<Checked<'_>>, EditFault>
    ensures found { IfOk result (λ all. map view list.now ≡ map checked_json (map checked_data all.items)) }
    ensures members { IfOk result (λ all. All HasCheckedMembers (map checked_data all.items)) }
    ensures fault { IfErr result (λ fault. ((fault ≡ EditFault.Memory) × Begins checked_json HasCheckedMembers (map view list.now))
        ⊎ ((fault ≡ EditFault.Member) × ((xs : List CheckedData) → map view list.now ≡ map checked_json xs → All HasCheckedMembers xs → ⊥))) }
{
    let mut all = Vec::new(alloc);
    for value in list {
        let Some(checked) = read_checked(value) else {
            return Err(EditFault::Member);
        };
        all.push(checked)?;
    }
    Ok(all)
}

/// What is asked for, without what was seen.
fn read_plain<'v>(alloc: Global, all: &[Checked<'v>]) -> Result<Vec<Asked<'v>>, EditFault>
    ensures plain { IfOk result (λ asked. map asked_data asked.items ≡ plain (map checked_data all.now)) }
    ensures memory { IfErr result (λ fault. (fault ≡ EditFault.Memory) × (0 < length all.now)) }
{
    let mut asked = Vec::new(alloc);
    for checked in all {
        asked.push(checked.asked)?;
    }
    Ok(asked)
}

/// What was seen: a feature, or None of null.
fn read_feature(alloc: Global, was: &Value) -> Result<Option<Feature>, EditFault>
    ensures was { IfOk result (λ feature. IsWas (view was.now) (option_map feature_data feature)) }
    ensures fault { IfErr result (λ fault. (view was.now ≢ null) × IsFirstJsonFault (view was.now) fault) }
{
    if was.is_null() {
        return Ok(None);
    }
    match feature_from_json(alloc, was) {
        Ok(feature) => Ok(Some(feature)),
        Err(fault) => Err(fault),
    }
}

/// What was seen of the number of a change.
fn read_was(alloc: Global, checked: Checked<'_>) -> Result<Seen, EditFault>
    ensures number { IfOk result (λ seen. seen.id ≡ asked_number (asked_data checked.entry.asked)) }
    ensures was { IfOk result (λ seen. IsWas (view checked.entry.was.now) (option_map feature_data seen.feature)) }
    ensures fault { IfErr result (λ fault. (view checked.entry.was.now ≢ null) × IsFirstJsonFault (view checked.entry.was.now) fault) }
{
    let id = number(checked.asked);
    match read_feature(alloc, checked.was) {
        Ok(feature) => Ok(Seen { id, feature }),
        Err(fault) => Err(fault),
    }
}

/// What was seen of each number.
fn read_were(alloc: Global, all: &[Checked<'_>]) -> Result<Vec<Seen>, EditFault>
    ensures were { IfOk result (λ seen. Were (map checked_data all.now) (map seen_data seen.items)) }
    ensures fault { IfErr result (λ fault. (fault ≡ EditFault.Memory) ⊎ IsFirstWas (map checked_data all.now) fault) }
{
    let mut seen = Vec::with_capacity(alloc, all.len())?;
    for checked in all {
        let was = match read_was(alloc, *checked) {
            Ok(was) => was,
            Err(fault) => return Err(fault),
        };
        seen.push_reserved(was);
    }
    Ok(seen)
}

/// The changes that are asked for and what was seen, or the first fault of the value that asks for them.
fn checked_of(alloc: Global, all: &[Checked<'_>]) -> Result<(Vec<Change>, Vec<Seen>), EditFault>
    requires { All HasCheckedMembers (map checked_data all.now) }
    ensures found { IfOk result (λ found.
        IsChecked (checks_json (map checked_data all.now)) (map change_data found.0.items) (map seen_data found.1.items)) }
    ensures types { IfOk result (λ found. All ChangeFitsTypes (map change_data found.0.items)) }
    ensures refused { IfErr result (IsFirstCheckedFault (checks_json (map checked_data all.now))) }
{
    let asked = match read_plain(alloc, all) {
        Ok(asked) => asked,
        Err(fault) => return Err(fault),
    };
    let changes = match changes_of(alloc, &asked) {
        Ok(changes) => changes,
        Err(fault) => return Err(fault),
    };
    match read_were(alloc, all) {
        Ok(seen) => Ok((changes, seen)),
        Err(fault) => Err(fault),
    }
}

/// The changes of the JSON value of an edit that is made only if each feature is what its author saw, with what the author saw, or the
/// first fault that the value has.
///
/// The value is that of `batch_from_json`, and each change has one member more, `was`: the feature that its number had, or null if it
/// had none. First E1 is tested, of the members of all changes, of their features, and of what was seen; then E10 and E11 and the faults
/// of each change as `batch_from_json` tests them; and then E3 to E7 of each feature that was seen, from the first to the last.
pub fn checked_from_json(
    alloc: Global,
    value: &Value,
) -> Result<(Vec<Change>, Vec<Seen>), EditFault>
    ensures found { IfOk result (λ found. IsChecked (view value.now) (map change_data found.0.items) (map seen_data found.1.items)) }
    ensures types { IfOk result (λ found. All ChangeFitsTypes (map change_data found.0.items)) }
    ensures refused { IfErr result (IsFirstCheckedFault (view value.now)) }
    ensures reads_back { (cs : EditData) (were : List SeenData) → IsChecked (view value.now) cs were → MatchResult result
        (λ found. (map change_data found.0.items ≡ cs) × (map seen_data found.1.items ≡ were)) (λ fault. fault ≡ EditFault.Memory) }
{
    let Some(list) = read_list(value) else {
        return Err(EditFault::Member);
    };
    let all = match read_checks(alloc, list) {
        Ok(all) => all,
        Err(fault) => return Err(fault),
    };
    checked_of(alloc, &all)
}
