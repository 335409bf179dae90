//! The metadata of a moment in the making, by steps between which the map may be edited.

ghost use Rattle.std.specs.Prelude.{◌≡◌, ◌<◌, ◌≤◌, ℕ, Ok, true, false, option_map, string_bytes, IfOk, OnOk, OnErr};
ghost use Rattle.edit_text.specs.Views.{feature_view};
ghost use Rattle.feature_model.specs.declared.limits.TheConstants.{NUMBER_END};
ghost use Rattle.feature_store.specs.Moments.{IsAsOf};
ghost use Rattle.feature_store.specs.Reading.{IsRead, below, entry_of};
ghost use Rattle.map_metadata.specs.Metadata.{IsMetadataOf};
ghost use Rattle.map_metadata.specs.Summaries.{Adds, SumsUp};

use crate::summary::{Layers, add_feature};
use crate::writer::layers_text;
use edit_text::FeatureText;
use feature_model::NUMBER_END;
use feature_store::{Moment, STEP_NUMBERS, Store};
use std::alloc::{AllocError, Global};
use std::collections::BTreeMap;
use std::marker::Model;
use std::snapshot::Snapshot;

/// What the metadata of a map as of a moment says, summed up by ascending number of the features, by steps between which the map may be edited.
#[derive(Drop)]
pub struct MetadataDraft {
    /// The map, which only clauses read.
    store: Snapshot<Store>,
    /// The layers of the features that are read.
    layers: Layers,
    /// The features with lower numbers are read.
    from: u64,
    alloc: Global,
}

impl Model for MetadataDraft {
    ghost use Rattle.feature_store.specs.Reading.{ReaderView};

    ghost Value = { ReaderView };

    ghost use Rattle.map_metadata.specs.DraftInside.{draft_view, IsDraft};

    ghost view = { draft_view };

    ghost invariant = { IsDraft };
}

/// Takes in the feature that a number had, if it had one.
fn add_had(
    alloc: Global,
    layers: &mut Layers,
    had: Option<FeatureText<'_>>,
) -> Result<(), AllocError>
    ensures { (n : ℕ) → OnOk result (Adds layers.old layers.new (entry_of n (option_map feature_view had.entry))) }
{
    match had {
        Some(feature) => add_feature(alloc, layers, feature),
        None => Ok(()),
    }
}

/// Takes in the features of a moment from a number on, of at most 256 numbers. It returns the number after them, or `NUMBER_END` if none is left.
fn add_from(
    alloc: Global,
    layers: &mut Layers,
    store: &Store,
    moment: &Moment,
    from: u64,
) -> Result<u64, AllocError>
    requires there { moment.now.lost ≡ false }
    requires as_of { IsAsOf moment.now store.now.features }
    requires within { from ≤ NUMBER_END }
    ensures further { IfOk result (λ end. end < NUMBER_END → from < end) }
    ensures within { IfOk result (λ end. end ≤ NUMBER_END) }
    ensures sums { SumsUp layers.old (below from moment.now.features)
        → IfOk result (λ end. SumsUp layers.new (below end moment.now.features)) }
{
    let mut end = from;
    for _ in 0..STEP_NUMBERS {
        let Some((number, had)) = moment.look_from(store, end) else {
            return Ok(NUMBER_END);
        };
        add_had(alloc, layers, had)?;
        end = number + 1;
    }
    Ok(end)
}

impl MetadataDraft {
    /// A draft for the map as it is now, with no feature read. It allocates nothing.
    pub fn of(alloc: Global, store: &Store) -> MetadataDraft
        ensures features { result.features ≡ store.now.features }
        ensures start { result.from ≡ 0 }
    {
        // The contract of `len` states that the features are a map.
        let _count = store.len();
        MetadataDraft {
            store: Snapshot::of(store),
            layers: BTreeMap::new(alloc),
            from: 0,
            alloc,
        }
    }

    /// Reads the next features of the moment, of at most 256 numbers. `store` is the map as it is now. It is true if features may be left.
    /// The only error is out of memory; the draft begins again then.
    pub fn step(&mut self, store: &Store, moment: &Moment) -> Result<bool, AllocError>
        requires same { moment.now.features ≡ self.old.features }
        requires there { moment.now.lost ≡ false }
        requires as_of { IsAsOf moment.now store.now.features }
        ensures features { self.new.features ≡ self.old.features }
        ensures further { result ≡ Ok true → self.old.from < self.new.from }
        ensures within { self.new.from ≤ NUMBER_END }
        ensures all { result ≡ Ok false → IsRead self.new }
        ensures again { OnErr result (self.new.from ≡ 0) }
    {
        match add_from(self.alloc, &mut self.layers, store, moment, self.from) {
            Ok(end) => {
                self.from = end;
                Ok(end < NUMBER_END)
            }
            Err(AllocError) => {
                self.layers = BTreeMap::new(self.alloc);
                self.from = 0;
                Err(AllocError)
            }
        }
    }

    /// The metadata as compact text, which reads as it, once all features are read. The only error is out of memory.
    pub fn finish(self) -> Result<String, AllocError>
        requires { IsRead self }
        ensures { IfOk result (λ text. IsMetadataOf self.features (string_bytes text)) }
    {
        let MetadataDraft {
            store: _,
            layers,
            from: _,
            alloc,
        } = self;
        layers_text(alloc, layers)
    }
}
