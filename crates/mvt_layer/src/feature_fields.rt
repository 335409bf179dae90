//! The fields of a feature, in one pass over its bytes.

ghost use Rattle.reader.specs.Reading.{Gives};
ghost use Rattle.pb_wire.specs.Items.{item_view};
ghost use Rattle.mvt_layer.specs.Reading.{onward, after, number_after, numbers_after, last_number_in, numbers_in};

use crate::fault::TileFault;
use crate::field_numbers::{FEATURE_GEOMETRY, FEATURE_ID, FEATURE_TAGS, FEATURE_TYPE};
use crate::passes::{FieldItem, number_then, numbers_then};
use pb_wire::Fields;

/// What the fields of a feature say, for each field number separately: a fault of one is not a fault of the others.
/// The numbers of tags and geometry are in two lists of the caller's.
#[derive(Clone, Copy)]
pub(crate) struct FeatureFields {
    pub(crate) id: Result<Option<u64>, TileFault>,
    pub(crate) kind: Result<Option<u64>, TileFault>,
    pub(crate) indices: Result<(), TileFault>,
    pub(crate) ints: Result<(), TileFault>,
}

/// What they say after one item more.
fn with_item(
    before: FeatureFields,
    indices: &mut Vec<u32>,
    ints: &mut Vec<u32>,
    item: FieldItem<'_>,
) -> FeatureFields
    ensures id { Gives TileFault.Memory (λ n. n) result.id (onward (λ n. n) before.id (λ n. after FEATURE_ID number_after n (item_view item.entry))) }
    ensures kind { Gives TileFault.Memory (λ n. n) result.kind (onward (λ n. n) before.kind (λ n. after FEATURE_TYPE number_after n (item_view item.entry))) }
    ensures indices { Gives TileFault.Memory (λ _. indices.new.items) result.indices
        (onward (λ _. indices.old.items) before.indices (λ ns. after FEATURE_TAGS numbers_after ns (item_view item.entry))) }
    ensures ints { Gives TileFault.Memory (λ _. ints.new.items) result.ints
        (onward (λ _. ints.old.items) before.ints (λ ns. after FEATURE_GEOMETRY numbers_after ns (item_view item.entry))) }
{
    FeatureFields {
        id: number_then(FEATURE_ID, before.id, item),
        kind: number_then(FEATURE_TYPE, before.kind, item),
        indices: numbers_then(FEATURE_TAGS, before.indices, indices, item),
        ints: numbers_then(FEATURE_GEOMETRY, before.ints, ints, item),
    }
}

/// Adds what one item more says. A field changes what is said of its number alone.
#[tactic(auto, using(crate::proofs::Walks::kept))]
fn add_item(
    fields: &mut FeatureFields,
    indices: &mut Vec<u32>,
    ints: &mut Vec<u32>,
    item: FieldItem<'_>,
)
    ensures id { Gives TileFault.Memory (λ n. n) fields.new.id (onward (λ n. n) fields.old.id (λ n. after FEATURE_ID number_after n (item_view item.entry))) }
    ensures kind { Gives TileFault.Memory (λ n. n) fields.new.kind (onward (λ n. n) fields.old.kind (λ n. after FEATURE_TYPE number_after n (item_view item.entry))) }
    ensures indices { Gives TileFault.Memory (λ _. indices.new.items) fields.new.indices
        (onward (λ _. indices.old.items) fields.old.indices (λ ns. after FEATURE_TAGS numbers_after ns (item_view item.entry))) }
    ensures ints { Gives TileFault.Memory (λ _. ints.new.items) fields.new.ints
        (onward (λ _. ints.old.items) fields.old.ints (λ ns. after FEATURE_GEOMETRY numbers_after ns (item_view item.entry))) }
{
    match item {
        Ok(field) => match field.number {
            FEATURE_ID => fields.id = number_then(FEATURE_ID, fields.id, item),
            FEATURE_TAGS => fields.indices = numbers_then(
                FEATURE_TAGS,
                fields.indices,
                indices,
                item,
            ),
            FEATURE_TYPE => fields.kind = number_then(FEATURE_TYPE, fields.kind, item),
            FEATURE_GEOMETRY => fields.ints = numbers_then(
                FEATURE_GEOMETRY,
                fields.ints,
                ints,
                item,
            ),
            _ => {}
        },
        Err(_) => *fields = with_item(*fields, indices, ints, item),
    }
}

/// What all the fields say. The two lists are cleared first.
pub(crate) fn feature_fields(
    indices: &mut Vec<u32>,
    ints: &mut Vec<u32>,
    bytes: &[u8],
) -> FeatureFields
    ensures id { Gives TileFault.Memory (λ n. n) result.id (last_number_in FEATURE_ID bytes.now) }
    ensures kind { Gives TileFault.Memory (λ n. n) result.kind (last_number_in FEATURE_TYPE bytes.now) }
    ensures indices { Gives TileFault.Memory (λ _. indices.new.items) result.indices (numbers_in FEATURE_TAGS bytes.now) }
    ensures ints { Gives TileFault.Memory (λ _. ints.new.items) result.ints (numbers_in FEATURE_GEOMETRY bytes.now) }
{
    indices.clear();
    ints.clear();
    let mut fields = FeatureFields {
        id: Ok(None),
        kind: Ok(None),
        indices: Ok(()),
        ints: Ok(()),
    };
    for item in Fields::new(bytes) {
        add_item(&mut fields, indices, ints, item);
    }
    fields
}
