//! The changes of an edit from their JSON value.

ghost use Rattle.std.specs.Prelude.{◌≡◌, ◌≢◌, ◌⊎◌, ◌↔◌, ℕ, List, length, map, All, IsTrue, IfOk, IfErr, MatchOption, MatchResult};
ghost use Rattle.serde_json.specs.Data.{Data};
ghost use Rattle.serde_json.specs.View.{view};
ghost use Rattle.feature_model.specs.Data.{EditData, change_data};
ghost use Rattle.feature_model.specs.Limits.{AreEnough};
ghost use Rattle.feature_model.specs.Types.{ChangeFitsTypes};
ghost use Rattle.edit_json.specs.Asked.{asked_data};
ghost use Rattle.edit_json.specs.Batches.{AskedData, delete_asked, put_asked, asked_number, asked_json, asked_of, asks_json, list_json};
ghost use Rattle.edit_json.specs.Batches.{HasMembers, BeginsAsked};
ghost use Rattle.edit_json.specs.Batches.{IsJsonChange, IsBatch, NumbersDiffer, IsFirstAskedFault, IsFirstAsked, IsFirstBatchFault};

use crate::outline::{next_named, next_number, read_outline};
use crate::reading::feature_from_json;
use feature_model::{Change, EditFault, NUMBER_END, change_count_fits};
use serde_json::Value;
use std::alloc::Global;

/// A change as its JSON value asks for it. Its feature is still JSON.
#[derive(Clone, Copy)]
pub(crate) enum Asked<'v> {
    Put { id: u64, feature: &'v Value },
    Delete { id: u64 },
}

/// The list of an edit's object.
#[tactic(auto, unfolding(crate::specs::Json::name_bytes))]
pub(crate) fn read_list(value: &Value) -> Option<&[Value]>
    ensures { MatchOption result
        ((ds : List Data) → view value.now ≢ list_json ds)
        (λ list. view value.now ≡ list_json (map view list.now)) }
{
    let mut members = value.as_object()?.iter();
    let list = next_named(&mut members, "changes")?.as_array()?;
    if members.next().is_some() {
        return None;
    }
    Some(list)
}

/// The number of an object that asks for a delete.
#[tactic(auto, unfolding(crate::specs::Json::name_bytes))]
fn read_delete(value: &Value) -> Option<u64>
    ensures { MatchOption result
        ((id : ℕ) → view value.now ≢ asked_json (delete_asked id))
        (λ id. view value.now ≡ asked_json (delete_asked id)) }
{
    let mut members = value.as_object()?.iter();
    let id = next_number(&mut members, "delete")?;
    if members.next().is_some() {
        return None;
    }
    Some(id)
}

/// The number and the feature of an object that asks for a Put.
#[tactic(auto, unfolding(crate::specs::Json::name_bytes))]
fn read_put(value: &Value) -> Option<(u64, &Value)>
    ensures { MatchOption result
        ((id : ℕ) (d : Data) → view value.now ≢ asked_json (put_asked id d))
        (λ found. view value.now ≡ asked_json (put_asked found.0 (view found.1.now))) }
{
    let mut members = value.as_object()?.iter();
    let feature = next_named(&mut members, "feature")?;
    let id = next_number(&mut members, "put")?;
    if members.next().is_some() {
        return None;
    }
    Some((id, feature))
}

/// What an object asks for, with the members that it must have.
fn read_asked(value: &Value) -> Option<Asked<'_>>
    ensures { MatchOption result
        ((a : AskedData) → view value.now ≡ asked_json a → HasMembers a → ⊥)
        (λ asked. (view value.now ≡ asked_json (asked_data asked)) × HasMembers (asked_data asked)) }
{
    if let Some(id) = read_delete(value) {
        return Some(Asked::Delete { id });
    }
    let (id, feature) = read_put(value)?;
    if read_outline(feature).is_none() {
        return None;
    }
    Some(Asked::Put { id, feature })
}

/// What each object of a list asks for.
fn read_all(alloc: Global, list: &[Value]) -> Result<Vec<Asked<'_>>, EditFault>
    ensures found { IfOk result (λ all. map view list.now ≡ map asked_json (map asked_data all.items)) }
    ensures members { IfOk result (λ all. All HasMembers (map asked_data all.items)) }
    ensures fault { IfErr result (λ fault. ((fault ≡ EditFault.Memory) × BeginsAsked (map view list.now)) ⊎ ((fault ≡ EditFault.Member)
        × ((ys : List AskedData) → map view list.now ≡ map asked_json ys → All HasMembers ys → ⊥))) }
{
    let mut all = Vec::new(alloc);
    for value in list {
        let Some(asked) = read_asked(value) else {
            return Err(EditFault::Member);
        };
        all.push(asked)?;
    }
    Ok(all)
}

/// Whether an edit may have this count of changes.
fn are_enough(all: &[Asked<'_>]) -> bool
    ensures { IsTrue result ↔ AreEnough (length all.now) }
{
    change_count_fits(all.len())
}

/// The number of the change.
pub(crate) fn number(asked: Asked<'_>) -> u64
    ensures { result ≡ asked_number (asked_data asked.entry) }
{
    match asked {
        Asked::Put { id, .. } | Asked::Delete { id } => id,
    }
}

/// The numbers of the changes, in their order. The only error is out of memory.
fn read_numbers(alloc: Global, all: &[Asked<'_>]) -> Result<Vec<u64>, EditFault>
    ensures numbers { IfOk result (λ numbers. numbers.items ≡ map asked_number (map asked_data all.now)) }
    ensures memory { IfErr result (λ fault. fault ≡ EditFault.Memory) }
{
    let mut numbers = Vec::with_capacity(alloc, all.len())?;
    for asked in all {
        numbers.push_reserved(number(*asked));
    }
    Ok(numbers)
}

/// Whether a number is none of these.
fn is_new(numbers: &[u64], number: u64) -> bool
    ensures { IsTrue result ↔ All (λ n. n ≢ number) numbers.now }
{
    numbers.iter().all(|other| *other != number)
}

/// Whether no number is repeated.
fn differ(numbers: &[u64]) -> bool
    ensures { IsTrue result ↔ NumbersDiffer numbers.now }
{
    for i in 0..numbers.len() {
        if !is_new(&numbers[..i], numbers[i]) {
            return false;
        }
    }
    true
}

/// The change that is asked for.
fn read_change(alloc: Global, asked: Asked<'_>) -> Result<Change, EditFault>
    ensures asked { IfOk result (λ change. asked_data asked.entry ≡ asked_of (change_data change)) }
    ensures is { IfOk result (λ change. IsJsonChange (change_data change)) }
    ensures types { IfOk result (λ change. ChangeFitsTypes (change_data change)) }
    ensures fault { IfErr result (λ fault. (fault ≡ EditFault.Memory) ⊎ IsFirstAskedFault (asked_data asked.entry) fault) }
{
    if number(asked) >= NUMBER_END {
        return Err(EditFault::Number);
    }
    match asked {
        Asked::Delete { id } => Ok(Change::Delete { id }),
        Asked::Put { id, feature } => match feature_from_json(alloc, feature) {
            Ok(feature) => Ok(Change::Put { id, feature }),
            Err(fault) => Err(fault),
        },
    }
}

/// The changes that are asked for.
fn read_changes(alloc: Global, all: &[Asked<'_>]) -> Result<Vec<Change>, EditFault>
    ensures asked { IfOk result (λ changes. map asked_data all.now ≡ map asked_of (map change_data changes.items)) }
    ensures are { IfOk result (λ changes. All IsJsonChange (map change_data changes.items)) }
    ensures types { IfOk result (λ changes. All ChangeFitsTypes (map change_data changes.items)) }
    ensures fault { IfErr result (λ fault. (fault ≡ EditFault.Memory) ⊎ IsFirstAsked (map asked_data all.now) fault) }
{
    let mut changes = Vec::with_capacity(alloc, all.len())?;
    for asked in all {
        let change = match read_change(alloc, *asked) {
            Ok(change) => change,
            Err(fault) => return Err(fault),
        };
        changes.push_reserved(change);
    }
    Ok(changes)
}

/// The changes that are asked for, with the members that they must have, or the first fault of the value that asks for them.
pub(crate) fn changes_of(alloc: Global, all: &[Asked<'_>]) -> Result<Vec<Change>, EditFault>
    requires { All HasMembers (map asked_data all.now) }
    ensures found { IfOk result (λ changes. IsBatch (asks_json (map asked_data all.now)) (map change_data changes.items)) }
    ensures types { IfOk result (λ changes. All ChangeFitsTypes (map change_data changes.items)) }
    ensures refused { IfErr result (IsFirstBatchFault (asks_json (map asked_data all.now))) }
{
    if !are_enough(all) {
        return Err(EditFault::Batch);
    }
    let numbers = match read_numbers(alloc, all) {
        Ok(numbers) => numbers,
        Err(fault) => return Err(fault),
    };
    if !differ(&numbers) {
        return Err(EditFault::Twice);
    }
    match read_changes(alloc, all) {
        Ok(changes) => Ok(changes),
        Err(fault) => Err(fault),
    }
}

/// The changes of an edit's JSON value, or the first fault that the value has.
///
/// The value is an object with exactly one member, `changes`: a list of objects, each with exactly the members `put`, a whole number,
/// and `feature`, or with exactly the member `delete`, a whole number. First E1 is tested, of the members of all changes and of their
/// features, then E10 of their count, E11 of their numbers, and then E2 to E7 of each change, from the first to the last.
pub fn batch_from_json(alloc: Global, value: &Value) -> Result<Vec<Change>, EditFault>
    ensures found { IfOk result (λ changes. IsBatch (view value.now) (map change_data changes.items)) }
    ensures types { IfOk result (λ changes. All ChangeFitsTypes (map change_data changes.items)) }
    ensures refused { IfErr result (IsFirstBatchFault (view value.now)) }
    ensures reads_back { (cs : EditData) → IsBatch (view value.now) cs
        → MatchResult result (λ changes. map change_data changes.items ≡ cs) (λ fault. fault ≡ EditFault.Memory) }
{
    let Some(list) = read_list(value) else {
        return Err(EditFault::Member);
    };
    let all = match read_all(alloc, list) {
        Ok(all) => all,
        Err(fault) => return Err(fault),
    };
    changes_of(alloc, &all)
}
