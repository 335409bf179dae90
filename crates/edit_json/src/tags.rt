//! The tags of a feature.

ghost use Rattle.std.specs.Prelude.{◌≡◌, ◌≤◌, ◌↔◌, length, map, All, IsTrue, IfOk, IfErr, OnOk};
ghost use Rattle.std.specs.Cmp.Lexicographic.{slice_cmp};
ghost use Rattle.std.specs.List.Sorted.{IsStrictlySortedBy};
ghost use Rattle.std.specs.Ordering.{nat_cmp};
ghost use Rattle.serde_json.specs.View.{view, members_view};
ghost use Rattle.feature_model.specs.declared.limits.TheConstants.{MAX_TAGS};
ghost use Rattle.feature_model.specs.Data.{value_data, tag_data};
ghost use Rattle.feature_model.specs.Limits.{IsName};
ghost use Rattle.feature_model.specs.Types.{ValueFitsTypes, TagFitsTypes};
ghost use Rattle.edit_json.specs.Faults.{names_of};
ghost use Rattle.reader.specs.Reading.{Finds, Gives};
ghost use Rattle.edit_json.specs.Tags.{value_at, tag_at, tags_at};

use feature_model::{EditFault, EditValue, Tag, is_name, is_tag_text, tag_count_fits};
use serde_json::Value;
use serde_json::value::Map;
use std::alloc::Global;

/// Whether each key is a name.
fn keys_fit(tags: &Map<String, Value>) -> bool
    ensures { IsTrue result ↔ All IsName (names_of (members_view tags.now.entries)) }
{
    for key in tags.keys() {
        if !is_name(key.as_str()) {
            return false;
        }
    }
    true
}

/// The tags are few, and their keys are names.
pub(crate) fn check_tags(tags: &Map<String, Value>) -> Result<(), EditFault>
    ensures ok { OnOk result ((length (names_of (members_view tags.now.entries)) ≤ MAX_TAGS) × All IsName (names_of (members_view tags.now.entries))) }
    ensures fault { IfErr result (λ e. (e ≡ EditFault.Tags)
        × ¬ ((length (names_of (members_view tags.now.entries)) ≤ MAX_TAGS) × All IsName (names_of (members_view tags.now.entries)))) }
    // An object's names ascend.
    ensures ascending { IsStrictlySortedBy (slice_cmp nat_cmp) (names_of (members_view tags.now.entries)) }
{
    if tag_count_fits(tags.len()) && keys_fit(tags) {
        Ok(())
    } else {
        Err(EditFault::Tags)
    }
}

/// The value of a tag.
#[tactic(auto, unfolding(crate::specs::Tags::value_at))]
fn read_value(alloc: Global, value: &Value) -> Result<EditValue, EditFault>
    ensures value { Finds EditFault.Memory value_data result (value_at (view value.now)) }
    ensures types { IfOk result (λ v. ValueFitsTypes (value_data v)) }
{
    if let Some(text) = value.as_str() {
        if !is_tag_text(text) {
            return Err(EditFault::Value);
        }
        return Ok(EditValue::Text(String::from_str(alloc, text)?));
    }
    if let Some(truth) = value.as_bool() {
        return Ok(EditValue::Truth(truth));
    }
    if let Some(number) = value.as_u64() {
        return Ok(EditValue::Natural(number));
    }
    match value.as_i64() {
        Some(number) if number < 0 => Ok(EditValue::Negative(number)),
        _ => Err(EditFault::Value),
    }
}

/// The tag of a member.
#[tactic(auto, unfolding(crate::specs::Tags::tag_at))]
fn read_tag(alloc: Global, key: &str, value: &Value) -> Result<Tag, EditFault>
    ensures tag { Finds EditFault.Memory tag_data result (tag_at key.now (view value.now)) }
    ensures types { IfOk result (λ t. TagFitsTypes (tag_data t)) }
{
    let value = read_value(alloc, value)?;
    Ok(Tag {
        key: String::from_str(alloc, key)?,
        value,
    })
}

/// The tags, in the order of their keys.
#[tactic(auto, unfolding(crate::specs::Tags::tags_at))]
pub(crate) fn read_tags(alloc: Global, tags: &Map<String, Value>) -> Result<Vec<Tag>, EditFault>
    ensures tags { Gives EditFault.Memory (λ v. map tag_data v.items) result
        (tags_at (members_view tags.now.entries)) }
    ensures types { IfOk result (λ v. All TagFitsTypes (map tag_data v.items)) }
{
    let mut read = Vec::with_capacity(alloc, tags.len())?;
    for (key, value) in tags {
        let tag = read_tag(alloc, key.as_str(), value)?;
        read.push_reserved(tag);
    }
    Ok(read)
}
