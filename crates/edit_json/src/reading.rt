//! A feature from its JSON value.

ghost use Rattle.std.specs.Prelude.{◌≡◌, ◌≢◌, IfOk, IfErr, MatchResult};
ghost use Rattle.serde_json.specs.View.{view};
ghost use Rattle.feature_model.specs.Data.{FeatureData, feature_data};
ghost use Rattle.feature_model.specs.Types.{FeatureFitsTypes};
ghost use Rattle.edit_json.specs.Faults.{IsFeature, IsOutline, NameFits, RangeFits, IsFirstJsonFault};
ghost use Rattle.edit_json.specs.Outline.{outline_data};

use crate::lists::read_geometry;
use crate::outline::{Outline, read_outline};
use crate::tags::{check_tags, read_tags};
use feature_model::{EditFault, Feature, is_name, zooms_fit};
use serde_json::Value;
use std::alloc::Global;

/// The members of a feature's object, its name and its zooms within their limits. It allocates nothing.
fn checked_outline(value: &Value) -> Result<Outline<'_>, EditFault>
    ensures is { IfOk result (λ o. IsOutline (view value.now) (outline_data o)) }
    ensures name { IfOk result (λ o. NameFits (outline_data o)) }
    ensures range { IfOk result (λ o. RangeFits (outline_data o)) }
    ensures refused { IfErr result (λ fault. (fault ≢ EditFault.Memory) × IsFirstJsonFault (view value.now) fault) }
{
    let Some(outline) = read_outline(value) else {
        return Err(EditFault::Member);
    };
    if !is_name(outline.layer) {
        return Err(EditFault::Layer);
    }
    if !zooms_fit(outline.minzoom, outline.maxzoom) {
        return Err(EditFault::Zoom);
    }
    Ok(outline)
}

/// The feature of a JSON value, or the first fault that the value has, in the order of `EditFault`.
///
/// E1 is of the five members and their kinds, E3 to E7 of what they hold. An object has each key once, in the order
/// of the keys' bytes; of a key that a text repeats the last value counts.
pub fn feature_from_json(alloc: Global, value: &Value) -> Result<Feature, EditFault>
    ensures found { IfOk result (λ f. IsFeature (view value.now) (feature_data f)) }
    ensures types { IfOk result (λ f. FeatureFitsTypes (feature_data f)) }
    ensures refused { IfErr result (IsFirstJsonFault (view value.now)) }
    ensures reads_back { (f : FeatureData) → IsFeature (view value.now) f
        → MatchResult result (λ g. feature_data g ≡ f) (λ e. e ≡ EditFault.Memory) }
{
    let outline = checked_outline(value)?;
    let geometry = read_geometry(alloc, outline.shape)?;
    check_tags(outline.tags)?;
    let tags = read_tags(alloc, outline.tags)?;
    Ok(Feature {
        layer: String::from_str(alloc, outline.layer)?,
        minzoom: outline.minzoom,
        maxzoom: outline.maxzoom,
        geometry,
        tags,
    })
}
