//! The feature, or the changes of an edit, in the body of a request.
ghost use Rattle.std.specs.Prelude.{◌≡◌, ◌<◌, ◌⊎◌, length, map, IfOk, IfErr};
ghost use Rattle.serde_json.specs.View.{view};
ghost use Rattle.feature_model.specs.Data.{feature_data, change_data};
ghost use Rattle.feature_model.specs.Seen.{seen_data};
ghost use Rattle.edit_json.specs.Batches.{IsBatch, IsFirstBatchFault};
ghost use Rattle.edit_json.specs.Checked.{IsChecked, IsFirstCheckedFault};
ghost use Rattle.edit_json.specs.Faults.{IsFeature, IsFirstJsonFault};
ghost use Rattle.map_replies.specs.Bodies.{IsJson, IsNoJson, SaysFeature, SaysChanges, SaysChecked, IsEditFault};
ghost use Rattle.map_replies.specs.Bodies.{HasBodyFault, HasBatchFault, HasCheckedFault};

use crate::fault::RequestFault;
use edit_json::{batch_from_json, checked_from_json, feature_from_json};
use feature_model::{Change, Feature, Seen};
use serde_json::Value;
use std::alloc::Global;

/// The JSON value in a body. An empty body can't cause out of memory.
fn json_in(alloc: Global, body: &[u8]) -> Result<Value, RequestFault>
    ensures found { IfOk result (λ value. IsJson body.now (view value)) }
    ensures refused { IfErr result (λ fault. ((fault ≡ RequestFault.Memory) × (0 < length body.now))
        ⊎ ((fault ≡ RequestFault.Json) × IsNoJson body.now)) }
{
    match Value::from_slice(alloc, body) {
        Ok(value) => Ok(value),
        Err(error) if error.is_memory() => Err(RequestFault::Memory),
        Err(_) => Err(RequestFault::Json),
    }
}

/// The feature in a JSON value.
fn feature_of(alloc: Global, value: &Value) -> Result<Feature, RequestFault>
    ensures found { IfOk result (λ feature. IsFeature (view value.now) (feature_data feature)) }
    ensures refused { IfErr result (λ fault. (fault ≡ RequestFault.Memory) ⊎ IsEditFault (IsFirstJsonFault (view value.now)) fault) }
{
    match feature_from_json(alloc, value) {
        Ok(feature) => Ok(feature),
        Err(fault) => Err(RequestFault::from(fault)),
    }
}

/// The changes in a JSON value.
fn changes_of(alloc: Global, value: &Value) -> Result<Vec<Change>, RequestFault>
    ensures found { IfOk result (λ changes. IsBatch (view value.now) (map change_data changes.items)) }
    ensures refused { IfErr result (λ fault. (fault ≡ RequestFault.Memory) ⊎ IsEditFault (IsFirstBatchFault (view value.now)) fault) }
{
    match batch_from_json(alloc, value) {
        Ok(changes) => Ok(changes),
        Err(fault) => Err(RequestFault::from(fault)),
    }
}

/// The changes in a JSON value, and what their author saw.
fn checked_of(alloc: Global, value: &Value) -> Result<(Vec<Change>, Vec<Seen>), RequestFault>
    ensures found { IfOk result (λ found. IsChecked (view value.now) (map change_data found.0.items) (map seen_data found.1.items)) }
    ensures refused { IfErr result (λ fault. (fault ≡ RequestFault.Memory) ⊎ IsEditFault (IsFirstCheckedFault (view value.now)) fault) }
{
    match checked_from_json(alloc, value) {
        Ok(found) => Ok(found),
        Err(fault) => Err(RequestFault::from(fault)),
    }
}

/// The feature in a body.
pub(crate) fn feature_in(alloc: Global, body: &[u8]) -> Result<Feature, RequestFault>
    ensures found { IfOk result (λ feature. SaysFeature body.now (feature_data feature)) }
    ensures refused { IfErr result (λ fault. (fault ≡ RequestFault.Memory) ⊎ HasBodyFault body.now fault) }
{
    let value = match json_in(alloc, body) {
        Ok(value) => value,
        Err(fault) => return Err(fault),
    };
    feature_of(alloc, &value)
}

/// The changes in a body.
pub(crate) fn changes_in(alloc: Global, body: &[u8]) -> Result<Vec<Change>, RequestFault>
    ensures found { IfOk result (λ changes. SaysChanges body.now (map change_data changes.items)) }
    ensures refused { IfErr result (λ fault. (fault ≡ RequestFault.Memory) ⊎ HasBatchFault body.now fault) }
{
    let value = match json_in(alloc, body) {
        Ok(value) => value,
        Err(fault) => return Err(fault),
    };
    changes_of(alloc, &value)
}

/// The changes in a body, and what their author saw.
pub(crate) fn checked_in(
    alloc: Global,
    body: &[u8],
) -> Result<(Vec<Change>, Vec<Seen>), RequestFault>
    ensures found { IfOk result (λ found.
        SaysChecked body.now (record { changes = map change_data found.0.items; seen = map seen_data found.1.items })) }
    ensures refused { IfErr result (λ fault. (fault ≡ RequestFault.Memory) ⊎ HasCheckedFault body.now fault) }
{
    let value = match json_in(alloc, body) {
        Ok(value) => value,
        Err(fault) => return Err(fault),
    };
    checked_of(alloc, &value)
}
