//! The fields of a layer, in one pass over its bytes.

ghost use Rattle.std.specs.Prelude.{ℕ, List};
ghost use Rattle.reader.specs.Reading.{Gives, Read};
ghost use Rattle.mvt_layer.specs.declared.fault.TileFault.{TileFault};
ghost use Rattle.std.specs.Option.{option_map};
ghost use Rattle.pb_wire.specs.Items.{item_view};
ghost use Rattle.mvt_layer.specs.Tile.{bytes_of};
ghost use Rattle.mvt_layer.specs.Reading.{onward, after, number_after, bytes_after, parts_after, last_number_in, last_bytes_in, parts_in};

use crate::fault::TileFault;
use crate::field_numbers::{
    LAYER_EXTENT, LAYER_FEATURES, LAYER_KEYS, LAYER_NAME, LAYER_VALUES, LAYER_VERSION,
};
use crate::passes::{FieldItem, bytes_then, number_then, parts_then};
use pb_wire::Fields;
use std::alloc::Global;

/// What the fields of a layer say, for each field number separately: a fault of one is not a fault of the others.
#[derive(Drop)]
pub(crate) struct LayerFields<'a> {
    pub(crate) name: Result<Option<&'a [u8]>, TileFault>,
    pub(crate) features: Result<Vec<&'a [u8]>, TileFault>,
    pub(crate) keys: Result<Vec<&'a [u8]>, TileFault>,
    pub(crate) values: Result<Vec<&'a [u8]>, TileFault>,
    pub(crate) extent: Result<Option<u64>, TileFault>,
    pub(crate) version: Result<Option<u64>, TileFault>,
}

/// What the first fields say. The parts that they have of features, keys and values are in three lists.
#[derive(Clone, Copy)]
struct SoFar<'a> {
    name: Result<Option<&'a [u8]>, TileFault>,
    features: Result<(), TileFault>,
    keys: Result<(), TileFault>,
    values: Result<(), TileFault>,
    extent: Result<Option<u64>, TileFault>,
    version: Result<Option<u64>, TileFault>,
}

/// What they say after one item more.
fn with_item<'a>(
    before: SoFar<'a>,
    features: &mut Vec<&'a [u8]>,
    keys: &mut Vec<&'a [u8]>,
    values: &mut Vec<&'a [u8]>,
    item: FieldItem<'a>,
) -> SoFar<'a>
    ensures name { Gives TileFault.Memory (option_map (λ b. b.now)) result.name
        (onward (option_map (λ b. b.now)) before.entry.name (λ last. after LAYER_NAME bytes_after last (item_view item.entry))) }
    ensures features { Gives TileFault.Memory (λ _. bytes_of features.new.items) result.features
        (onward (λ _. bytes_of features.old.items) before.entry.features (λ parts. after LAYER_FEATURES parts_after parts (item_view item.entry))) }
    ensures keys { Gives TileFault.Memory (λ _. bytes_of keys.new.items) result.keys
        (onward (λ _. bytes_of keys.old.items) before.entry.keys (λ parts. after LAYER_KEYS parts_after parts (item_view item.entry))) }
    ensures values { Gives TileFault.Memory (λ _. bytes_of values.new.items) result.values
        (onward (λ _. bytes_of values.old.items) before.entry.values (λ parts. after LAYER_VALUES parts_after parts (item_view item.entry))) }
    ensures extent { Gives TileFault.Memory (λ n. n) result.extent
        (onward (λ n. n) before.entry.extent (λ n. after LAYER_EXTENT number_after n (item_view item.entry))) }
    ensures version { Gives TileFault.Memory (λ n. n) result.version
        (onward (λ n. n) before.entry.version (λ n. after LAYER_VERSION number_after n (item_view item.entry))) }
{
    SoFar {
        name: bytes_then(LAYER_NAME, before.name, item),
        features: parts_then(LAYER_FEATURES, before.features, features, item),
        keys: parts_then(LAYER_KEYS, before.keys, keys, item),
        values: parts_then(LAYER_VALUES, before.values, values, item),
        extent: number_then(LAYER_EXTENT, before.extent, item),
        version: number_then(LAYER_VERSION, before.version, item),
    }
}

/// Adds what one item more says. A field changes what is said of its number alone.
#[tactic(auto, using(crate::proofs::Walks::kept))]
fn add_item<'a>(
    so_far: &mut SoFar<'a>,
    features: &mut Vec<&'a [u8]>,
    keys: &mut Vec<&'a [u8]>,
    values: &mut Vec<&'a [u8]>,
    item: FieldItem<'a>,
)
    ensures name { Gives TileFault.Memory (option_map (λ b. b.now)) so_far.new.name
        (onward (option_map (λ b. b.now)) so_far.old.name (λ last. after LAYER_NAME bytes_after last (item_view item.entry))) }
    ensures features { Gives TileFault.Memory (λ _. bytes_of features.new.items) so_far.new.features
        (onward (λ _. bytes_of features.old.items) so_far.old.features (λ parts. after LAYER_FEATURES parts_after parts (item_view item.entry))) }
    ensures keys { Gives TileFault.Memory (λ _. bytes_of keys.new.items) so_far.new.keys
        (onward (λ _. bytes_of keys.old.items) so_far.old.keys (λ parts. after LAYER_KEYS parts_after parts (item_view item.entry))) }
    ensures values { Gives TileFault.Memory (λ _. bytes_of values.new.items) so_far.new.values
        (onward (λ _. bytes_of values.old.items) so_far.old.values (λ parts. after LAYER_VALUES parts_after parts (item_view item.entry))) }
    ensures extent { Gives TileFault.Memory (λ n. n) so_far.new.extent
        (onward (λ n. n) so_far.old.extent (λ n. after LAYER_EXTENT number_after n (item_view item.entry))) }
    ensures version { Gives TileFault.Memory (λ n. n) so_far.new.version
        (onward (λ n. n) so_far.old.version (λ n. after LAYER_VERSION number_after n (item_view item.entry))) }
{
    match item {
        Ok(field) => match field.number {
            LAYER_NAME => so_far.name = bytes_then(LAYER_NAME, so_far.name, item),
            LAYER_FEATURES => {
                so_far.features = parts_then(LAYER_FEATURES, so_far.features, features, item)
            }
            LAYER_KEYS => so_far.keys = parts_then(LAYER_KEYS, so_far.keys, keys, item),
            LAYER_VALUES => so_far.values = parts_then(LAYER_VALUES, so_far.values, values, item),
            LAYER_EXTENT => so_far.extent = number_then(LAYER_EXTENT, so_far.extent, item),
            LAYER_VERSION => so_far.version = number_then(LAYER_VERSION, so_far.version, item),
            _ => {}
        },
        Err(_) => *so_far = with_item(*so_far, features, keys, values, item),
    }
}

/// The parts, if there was no fault.
fn all_parts<'a>(
    read: Result<(), TileFault>,
    parts: Vec<&'a [u8]>,
) -> Result<Vec<&'a [u8]>, TileFault>
    ensures { (whole : Read TileFault (List (List ℕ))) → Gives TileFault.Memory (λ _. bytes_of parts.entry.items) read whole
        → Gives TileFault.Memory (λ v. bytes_of v.items) result whole }
{
    match read {
        Ok(()) => Ok(parts),
        Err(fault) => Err(fault),
    }
}

/// What all the fields say.
pub(crate) fn layer_fields<'a>(alloc: Global, bytes: &'a [u8]) -> LayerFields<'a>
    ensures name { Gives TileFault.Memory (option_map (λ b. b.now)) result.name (last_bytes_in LAYER_NAME bytes.entry.now) }
    ensures features { Gives TileFault.Memory (λ v. bytes_of v.items) result.features (parts_in LAYER_FEATURES bytes.entry.now) }
    ensures keys { Gives TileFault.Memory (λ v. bytes_of v.items) result.keys (parts_in LAYER_KEYS bytes.entry.now) }
    ensures values { Gives TileFault.Memory (λ v. bytes_of v.items) result.values (parts_in LAYER_VALUES bytes.entry.now) }
    ensures extent { Gives TileFault.Memory (λ n. n) result.extent (last_number_in LAYER_EXTENT bytes.entry.now) }
    ensures version { Gives TileFault.Memory (λ n. n) result.version (last_number_in LAYER_VERSION bytes.entry.now) }
{
    let mut features = Vec::new(alloc);
    let mut keys = Vec::new(alloc);
    let mut values = Vec::new(alloc);
    let mut fields = SoFar {
        name: Ok(None),
        features: Ok(()),
        keys: Ok(()),
        values: Ok(()),
        extent: Ok(None),
        version: Ok(None),
    };
    for item in Fields::new(bytes) {
        add_item(&mut fields, &mut features, &mut keys, &mut values, item);
    }
    LayerFields {
        name: fields.name,
        features: all_parts(fields.features, features),
        keys: all_parts(fields.keys, keys),
        values: all_parts(fields.values, values),
        extent: fields.extent,
        version: fields.version,
    }
}
