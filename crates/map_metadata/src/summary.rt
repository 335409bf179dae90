//! What metadata says of the layers, summed up in one pass over the features.

ghost use Rattle.std.specs.Prelude.{◌≡◌, ℕ, List, [], ◌∷◌, min, max, Some, OnOk, IfOk, if◌then◌else◌};
ghost use Rattle.std.specs.Str.{bytes_eq};
ghost use Rattle.edit_text.specs.Views.{tags_view, feature_view};
ghost use Rattle.number_map.specs.Blocks.{joined};
ghost use Rattle.feature_store.specs.Inside.{entries_data};
ghost use Rattle.map_metadata.specs.Fields.{kinds_of, features_in, kinds_in};
ghost use Rattle.map_metadata.specs.Summaries.{kind_at, with_kind, with_kinds, with_features, zooms_in, kind_in, Adds, SumsUp};

use crate::field_kind::FieldKind;
use edit_text::{FeatureText, StoredFeature, Tags};
use number_map::{Block, Entry};
use std::alloc::{AllocError, Global};
use std::collections::BTreeMap;

/// The kind of each key.
pub(crate) type Fields = BTreeMap<String, FieldKind>;

/// What metadata says of a layer, beside its name.
#[derive(Drop)]
pub(crate) struct LayerSummary {
    pub minzoom: u8,
    pub maxzoom: u8,
    pub fields: Fields,
}

/// The layers by name.
pub(crate) type Layers = BTreeMap<String, LayerSummary>;

/// Takes in that a key has a value of this kind. A key is copied when it is new.
fn add_kind(
    alloc: Global,
    fields: &mut Fields,
    key: &str,
    kind: FieldKind,
) -> Result<(), AllocError>
    ensures { OnOk result ((name : List ℕ)
        → kind_at fields.new name ≡ (if bytes_eq key.now name then Some (with_kind (kind_at fields.old name) kind) else kind_at fields.old name)) }
{
    if let Some(known) = fields.get_mut(key) {
        *known = known.joined(kind);
        return Ok(());
    }
    let name = String::from_str(alloc, key)?;
    fields.insert(name, kind)?;
    Ok(())
}

/// Takes in the values of tags.
fn add_tags(alloc: Global, fields: &mut Fields, tags: Tags<'_>) -> Result<(), AllocError>
    ensures { OnOk result ((name : List ℕ) → kind_at fields.new name ≡ with_kinds (kind_at fields.old name) (kinds_of (tags_view tags.entry) name)) }
{
    for tag in tags {
        add_kind(alloc, fields, tag.key, FieldKind::of(tag.value))?;
    }
    Ok(())
}

impl LayerSummary {
    /// Takes in a feature.
    fn add(&mut self, alloc: Global, feature: FeatureText<'_>) -> Result<(), AllocError>
        ensures minzoom { OnOk result (self.new.minzoom ≡ min self.old.minzoom (feature_view feature.entry).minzoom) }
        ensures maxzoom { OnOk result (self.new.maxzoom ≡ max self.old.maxzoom (feature_view feature.entry).maxzoom) }
        ensures kinds { OnOk result ((key : List ℕ)
            → kind_at self.new.fields key ≡ with_kinds (kind_at self.old.fields key) (kinds_of (feature_view feature.entry).tags key)) }
    {
        self.minzoom = self.minzoom.min(feature.minzoom);
        self.maxzoom = self.maxzoom.max(feature.maxzoom);
        add_tags(alloc, &mut self.fields, feature.tags)
    }
}

/// Takes a feature in at its layer, whatever its number.
pub(crate) fn add_feature(
    alloc: Global,
    layers: &mut Layers,
    feature: FeatureText<'_>,
) -> Result<(), AllocError>
    ensures zooms { OnOk result ((name : List ℕ) → zooms_in layers.new name
        ≡ with_features (zooms_in layers.old name) (features_in ((0, feature_view feature.entry) ∷ []) name)) }
    ensures kinds { OnOk result ((name key : List ℕ) → kind_in layers.new name key
        ≡ with_kinds (kind_in layers.old name key) (kinds_in (features_in ((0, feature_view feature.entry) ∷ []) name) key)) }
{
    if let Some(layer) = layers.get_mut(feature.layer) {
        layer.add(alloc, feature)?;
        return Ok(());
    }
    let mut layer = LayerSummary {
        minzoom: feature.minzoom,
        maxzoom: feature.maxzoom,
        fields: BTreeMap::new(alloc),
    };
    layer.add(alloc, feature)?;
    let name = String::from_str(alloc, feature.layer)?;
    layers.insert(name, layer)?;
    Ok(())
}

/// Takes in features.
fn add_entries(
    alloc: Global,
    layers: &mut Layers,
    entries: &[Entry<StoredFeature>],
) -> Result<(), AllocError>
    ensures { OnOk result (Adds layers.old layers.new (entries_data entries.now)) }
{
    for entry in entries {
        add_feature(alloc, layers, entry.1.view())?;
    }
    Ok(())
}

/// The layers of the features in blocks.
pub(crate) fn summed_up(
    alloc: Global,
    blocks: &[Block<StoredFeature>],
) -> Result<Layers, AllocError>
    ensures { IfOk result (λ layers. SumsUp layers (entries_data (joined blocks.now))) }
{
    let mut layers = BTreeMap::new(alloc);
    for block in blocks {
        add_entries(alloc, &mut layers, block.entries())?;
    }
    Ok(layers)
}
