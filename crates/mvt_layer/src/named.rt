//! Layers of different names.

ghost use Rattle.std.specs.Prelude.{◌≡◌, ℕ, List, [], ◌∷◌, ◌++◌};
ghost use Rattle.reader.specs.Reading.{Finds};
ghost use Rattle.std.specs.BTreeSet.{contains_by};
ghost use Rattle.std.specs.Cmp.Lexicographic.{slice_cmp};
ghost use Rattle.std.specs.Ordering.{nat_cmp};
ghost use Rattle.mvt_layer.specs.Tile.{layer_view, layer_views};
ghost use Rattle.mvt_layer.specs.Reading.{has_name, layer_added};

use crate::fault::TileFault;
use crate::tile::Layer;
use std::alloc::Global;
use std::collections::BTreeSet;

/// Layers, and the set of their names, so that a name is looked up in few steps.
#[derive(Drop)]
pub(crate) struct NamedLayers<'a> {
    layers: Vec<Layer<'a>>,
    names: BTreeSet<&'a str>,
    ghost same: { (q : List ℕ) → contains_by (λ k. slice_cmp nat_cmp q k.now) names ≡ has_name (layer_views layers.items) q },
}

impl<'a> NamedLayers<'a> {
    /// No layers.
    pub(crate) fn new(alloc: Global) -> Self
        ensures { result.layers.items ≡ [] }
    {
        NamedLayers {
            layers: Vec::new(alloc),
            names: BTreeSet::new(alloc),
        }
    }

    /// One layer more, whose name is to be new.
    pub(crate) fn with(self, layer: Layer<'a>) -> Result<Self, TileFault>
        ensures { Finds TileFault.Memory (λ n. layer_views n.layers.items) result (layer_added (layer_views self.entry.layers.items) (layer_view layer.entry)) }
    {
        let NamedLayers {
            mut layers,
            mut names,
        } = self;
        let is_new = names.insert(layer.name)?;
        if !is_new {
            return Err(TileFault::LayerTwice);
        }
        layers.push(layer)?;
        Ok(NamedLayers { layers, names })
    }

    /// The layers, in order.
    pub(crate) fn into_layers(self) -> Vec<Layer<'a>>
        ensures { result.items ≡ self.entry.layers.items }
    {
        let NamedLayers { layers, names: _ } = self;
        layers
    }
}
