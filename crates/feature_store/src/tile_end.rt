//! The end of a tile in the making: its layers are written by parts.

ghost use Rattle.std.specs.Prelude.{◌≡◌, ◌<◌, ◌≤◌, ◌-◌, ◌↔◌, ℕ, true, IsTrue, OnOk, option_map};
ghost use Rattle.feature_store.specs.Gathered.{Gathers};
ghost use Rattle.feature_store.specs.Layers.{cuts_of, is_tile, layers};
ghost use Rattle.feature_store.specs.Store.{FeatureMap};
ghost use Rattle.feature_store.specs.Tiles.{tile_bytes};

use crate::gathered::Gathered;
use mvt_write::{LayerWriter, TileWriter};
use std::alloc::{AllocError, Global};
use std::collections::btree_map::IntoIter;

/// The layers of a tile whose features are all added.
#[derive(Drop)]
pub(crate) struct TileEnd {
    /// Those that aren't begun, in the order of their names.
    layers: IntoIter<String, LayerWriter>,
    /// The others.
    tile: TileWriter,
}

impl TileEnd {
    ghost use Rattle.feature_store.specs.Ends.{Ends, END_WORK, end_work};

    /// The layers of what is gathered, of which none is begun.
    pub(crate) fn of(alloc: Global, gathered: Gathered) -> TileEnd
        ensures ends { (m : FeatureMap) (z x y : ℕ) → Gathers gathered (λ name. cuts_of m name z x y) → is_tile z x y ≡ true → Ends m z x y result }
        ensures work { end_work result < END_WORK }
    {
        TileEnd {
            layers: gathered.into_iter(),
            tile: TileWriter::new(alloc),
        }
    }

    /// Whether all layers are written.
    pub(crate) fn is_whole(&self) -> bool
        ensures { IsTrue result ↔ (end_work self.now ≡ 0) }
    {
        self.tile.is_whole() && self.layers.len() == 0
    }

    /// Adds a part of a layer, or begins the next one. The only error is out of memory; the tile is of no use then.
    pub(crate) fn add_part(&mut self) -> Result<(), AllocError>
        ensures ends { OnOk result ((m : FeatureMap) (z x y : ℕ) → Ends m z x y self.old → Ends m z x y self.new) }
        ensures work { OnOk result (end_work self.new ≤ end_work self.old - 1) }
    {
        if !self.tile.is_whole() {
            return self.tile.add_part();
        }
        if let Some((_name, layer)) = self.layers.next() {
            self.tile.begin(layer);
        }
        Ok(())
    }

    /// The bytes of the tile, all of whose layers are written, or `None` if it has none.
    pub(crate) fn written(self) -> Option<Vec<u8>>
        requires { end_work self ≡ 0 }
        ensures { (m : FeatureMap) (z x y : ℕ) → Ends m z x y self → option_map (λ v. v.items) result ≡ tile_bytes (layers m z x y) }
    {
        let bytes = self.tile.finish();
        if bytes.is_empty() {
            return None;
        }
        Some(bytes)
    }
}
