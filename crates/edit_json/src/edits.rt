//! An edit's JSON value: its changes, as they are asked for, and its number.

ghost use Rattle.std.specs.Prelude.{◌≡◌, map, IfOk};
ghost use Rattle.serde_json.specs.View.{view};
ghost use Rattle.feature_model.specs.Limits.{TagsFit, ValuesFit};
ghost use Rattle.edit_text.specs.Views.{feature_view};
ghost use Rattle.edit_json.specs.Json.{json_of};
ghost use Rattle.edit_json.specs.Batches.{put_asked, delete_asked, asked_json};
ghost use Rattle.edit_json.specs.Numbered.{numbered_json};

use crate::writer::{feature_to_json, object_of};
use edit_text::FeatureText;
use serde_json::value::Map;
use serde_json::{Value, put};
use std::alloc::{AllocError, Global};

/// The one JSON value of a change that sets a feature.
#[tactic(auto, unfolding(crate::specs::Json::name_bytes))]
pub fn put_to_json(alloc: Global, id: u64, feature: FeatureText<'_>) -> Result<Value, AllocError>
    requires tags { TagsFit (feature_view feature).tags }
    requires values { ValuesFit (feature_view feature).tags }
    ensures { IfOk result (λ v. view v ≡ asked_json (put_asked id (json_of (feature_view feature.entry)))) }
{
    let feature = feature_to_json(alloc, feature)?;
    let mut members = Map::new(alloc);
    put(&mut members, alloc, "feature", feature)?;
    put(&mut members, alloc, "put", Value::from(id))?;
    Ok(Value::Object(members))
}

/// The one JSON value of a change that deletes a feature.
#[tactic(auto, unfolding(crate::specs::Json::name_bytes))]
pub fn delete_to_json(alloc: Global, id: u64) -> Result<Value, AllocError>
    ensures { IfOk result (λ v. view v ≡ asked_json (delete_asked id)) }
{
    object_of(alloc, "delete", Ok(Value::from(id)))
}

/// The JSON value of an edit with its number, from the values of its changes.
#[tactic(auto, unfolding(crate::specs::Json::name_bytes))]
pub fn numbered_to_json(
    alloc: Global,
    number: u64,
    changes: Vec<Value>,
) -> Result<Value, AllocError>
    ensures { IfOk result (λ v. view v ≡ numbered_json number (map view changes.items)) }
{
    let mut members = Map::new(alloc);
    put(&mut members, alloc, "changes", Value::Array(changes))?;
    put(&mut members, alloc, "edit", Value::from(number))?;
    Ok(Value::Object(members))
}
