//! The metadata of a map, as a JSON value and as text.

ghost use Rattle.std.specs.Prelude.{◌≡◌, map, IfOk, OnOk, string_bytes, All};
ghost use Rattle.std.specs.BTreeMap.{IsOrdered};
ghost use Rattle.std.specs.String.{string_cmp};
ghost use Rattle.serde_json.specs.Data.{object, array, member, no_members};
ghost use Rattle.serde_json.specs.View.{view, items_of, members_view};
ghost use Rattle.feature_store.specs.Store.{FeatureMap};
ghost use Rattle.map_metadata.specs.Fields.{name_bytes};
ghost use Rattle.map_metadata.specs.Metadata.{fields_json, layer_json, IsMetadata, IsMetadataOf};
ghost use Rattle.map_metadata.specs.Summaries.{SumsUp, fields_data, layer_data, layer_named, HasOrder};

use crate::summary::{Fields, LayerSummary, Layers, summed_up};
use feature_store::Store;
use serde_json::value::Map;
use serde_json::{Value, put};
use std::alloc::{AllocError, Global};

/// A member for each key.
fn fields_value(alloc: Global, fields: Fields) -> Result<Value, AllocError>
    ensures value { IfOk result (λ v. view v ≡ object (fields_json (fields_data fields.entries))) }
    ensures ordered { IfOk result (λ _. HasOrder fields) }
{
    let mut members = Map::new(alloc);
    for (key, kind) in fields {
        put(
            &mut members,
            alloc,
            key.as_str(),
            Value::try_from_str(alloc, kind.name())?,
        )?;
    }
    Ok(Value::Object(members))
}

/// Puts the members of a layer into an empty object.
#[tactic(auto, unfolding(crate::specs::Fields::name_bytes))]
fn put_members(
    members: &mut Map<String, Value>,
    alloc: Global,
    name: &str,
    summary: LayerSummary,
) -> Result<(), AllocError>
    requires { members_view members.old.entries ≡ no_members }
    ensures value { OnOk result (object (members_view members.new.entries) ≡ layer_json (layer_named name.now summary)) }
    ensures ordered { OnOk result (HasOrder summary.fields) }
{
    let LayerSummary {
        minzoom,
        maxzoom,
        fields,
    } = summary;
    let fields = fields_value(alloc, fields)?;
    put(members, alloc, "fields", fields)?;
    let id = Value::try_from_str(alloc, name)?;
    put(members, alloc, "id", id)?;
    put(members, alloc, "maxzoom", Value::from(maxzoom))?;
    put(members, alloc, "minzoom", Value::from(minzoom))
}

/// The object of a layer.
fn layer_value(alloc: Global, name: &str, summary: LayerSummary) -> Result<Value, AllocError>
    ensures value { IfOk result (λ v. view v ≡ layer_json (layer_named name.now summary)) }
    ensures ordered { IfOk result (λ _. HasOrder summary.fields) }
{
    let mut members = Map::new(alloc);
    put_members(&mut members, alloc, name, summary)?;
    Ok(Value::Object(members))
}

/// The list of layers.
fn layers_value(alloc: Global, layers: Layers) -> Result<Value, AllocError>
    ensures value { IfOk result (λ v. view v ≡ array (items_of (map layer_json (map layer_data layers.entries)))) }
    ensures fields { IfOk result (λ _. All (λ e. HasOrder e.1.fields) layers.entries) }
    ensures ordered { IfOk result (λ _. IsOrdered string_cmp layers) }
{
    let mut list = Vec::with_capacity(alloc, layers.len())?;
    for (name, summary) in layers {
        let layer = layer_value(alloc, name.as_str(), summary)?;
        list.push_reserved(layer);
    }
    Ok(Value::Array(list))
}

/// The object whose one member is the list of layers.
#[tactic(auto, unfolding(crate::specs::Fields::name_bytes))]
fn document(alloc: Global, layers: Value) -> Result<Value, AllocError>
    ensures { IfOk result (λ v. view v ≡ object (member (name_bytes "vector_layers") (view layers) no_members)) }
{
    let mut members = Map::new(alloc);
    put(&mut members, alloc, "vector_layers", layers)?;
    Ok(Value::Object(members))
}

/// The metadata of a map whose layers these are, as a value.
fn metadata(alloc: Global, layers: Layers) -> Result<Value, AllocError>
    ensures { (m : FeatureMap) → SumsUp layers m → IfOk result (λ v. IsMetadata m (view v)) }
{
    let list = layers_value(alloc, layers)?;
    document(alloc, list)
}

/// The metadata of a map whose layers these are, as compact text, which reads as it. The only error is out of memory.
pub(crate) fn layers_text(alloc: Global, layers: Layers) -> Result<String, AllocError>
    ensures { (m : FeatureMap) → SumsUp layers m → IfOk result (λ text. IsMetadataOf m (string_bytes text)) }
{
    let value = metadata(alloc, layers)?;
    value.to_string(alloc)
}

/// The metadata of a map as compact text, which reads as it. The only error is out of memory.
pub fn metadata_text(alloc: Global, store: &Store) -> Result<String, AllocError>
    ensures { IfOk result (λ text. IsMetadataOf store.now.features (string_bytes text)) }
{
    let layers = summed_up(alloc, store.blocks())?;
    layers_text(alloc, layers)
}
