//! Tiles to which layers are added by parts.

ghost use Rattle.std.specs.Prelude.{◌≡◌, ◌<◌, ◌≤◌, ◌^◌, ◌++◌, ◌-◌, ◌+◌, ◌↔◌, ℕ, List, [], length, drop, IsTrue, OnOk};
ghost use Rattle.mvt_layer.specs.Tile.{FeatureView};
ghost use Rattle.mvt_write.specs.Written.{bytes_field, layer_written};

use crate::ending::LayerEnding;
use crate::field::put_head;
use crate::layer_writer::LayerWriter;
use crate::room::make_room;
use crate::spent::{SHRINK_BYTES, Spent, shrink};
use mvt_layer::field_numbers::TILE_LAYERS;
use std::alloc::{AllocError, Global};
use std::marker::Model;
use std::mem;

/// The greatest number of bytes of a layer that a part adds.
const PART_BYTES: usize = 65_536;

/// The bytes of a layer, the first of which are added to its tile.
#[derive(Drop)]
pub(crate) struct BytesRest {
    bytes: Vec<u8>,
    /// How many are added.
    done: usize,
    ghost within: { done ≤ length bytes.items },
}

/// What is left to add of a layer.
#[derive(Drop)]
pub(crate) enum LayerLeft {
    /// Nothing.
    Over,
    /// All of it, and the entries of its pools may still have to be written.
    Pools(LayerEnding),
    /// The rest of its bytes. The head of its field is added.
    Bytes(BytesRest),
    /// Nothing, but these bytes, all of which are added, are given back first.
    Spent(Vec<u8>),
}

/// A tile (Mapbox Vector Tile 2.1, 4) to which layers are added by parts. A part writes some thousand keys or values, copies 64 KiB, or gives back
/// 2 MiB of a layer that is copied. Beside that it frees some thousand entries of the maps in which keys and values were looked up, and, once these
/// are written, gives back 2 MiB of them. After an `Err` it is of no more use.
#[derive(Drop)]
pub struct TileWriter {
    /// The layers that are added, and the first bytes of the one that is being added.
    out: Vec<u8>,
    /// What is left of the layer that is being added.
    layer: LayerLeft,
    /// What that layer's pools were made of.
    spent: Option<Spent>,
}

impl Model for TileWriter {
    ghost use Rattle.mvt_write.specs.TileBytes.{TileBytes};

    ghost Value = { TileBytes };

    ghost use Rattle.mvt_write.specs.TileBytes.{tile_bytes};

    ghost view = { tile_bytes };
}

impl TileWriter {
    ghost use Rattle.mvt_write.specs.Ending.{ending_bytes, ending_left};
    ghost use Rattle.mvt_write.specs.TileBytes.{LAYER_PARTS};
    ghost use Rattle.mvt_write.specs.Writes.{Writes, layer_of};

    /// A tile with no layers. It allocates nothing.
    pub fn new(alloc: Global) -> TileWriter
        ensures bytes { result.bytes ≡ [] }
        ensures left { result.left ≡ 0 }
    {
        TileWriter {
            out: Vec::new(alloc),
            layer: LayerLeft::Over,
            spent: None,
        }
    }

    /// Takes the next layer, whose parts `add_part` adds, with version `CURRENT_VERSION` and extent `DEFAULT_EXTENT`.
    pub fn begin(&mut self, layer: LayerWriter)
        requires { self.old.left ≡ 0 }
        ensures layer { (name : List ℕ) (fs : List FeatureView) → Writes layer name fs []
            → self.new.bytes ≡ self.old.bytes ++ bytes_field TILE_LAYERS (layer_written (layer_of name fs)) }
        ensures few { self.new.left < LAYER_PARTS }
    {
        let (ending, spent) = layer.into_ending();
        self.layer = LayerLeft::Pools(ending);
        self.spent = Some(spent);
    }

    /// Whether all parts of the layers are added, so that `begin` may take the next one or `finish` end the tile.
    pub fn is_whole(&self) -> bool
        ensures { IsTrue result ↔ (self.now.left ≡ 0) }
    {
        match self.layer {
            LayerLeft::Over => true,
            _ => false,
        }
    }

    /// Writes the next entries of a layer's pools. If none is left, adds the head of the layer's field, and its bytes are what is left.
    fn add_pools(&mut self, mut ending: LayerEnding) -> Result<(), AllocError>
        requires { self.old.left ≡ 0 }
        ensures bytes { OnOk result (self.new.bytes ≡ self.old.bytes ++ bytes_field TILE_LAYERS (ending_bytes ending)) }
        ensures left { OnOk result (self.new.left < 2 ^ 66 + ending_left ending) }
    {
        if !ending.is_over() {
            ending.put_part()?;
            self.layer = LayerLeft::Pools(ending);
            return Ok(());
        }
        let (bytes, keys, values) = ending.finish()?;
        if let Some(spent) = &mut self.spent {
            spent.take_entries(keys, values);
        }
        make_room(&mut self.out, 1, bytes.len());
        put_head(&mut self.out, TILE_LAYERS, bytes.len())?;
        self.out.reserve(bytes.len())?;
        self.layer = LayerLeft::Bytes(BytesRest { bytes, done: 0 });
        Ok(())
    }

    /// Adds the next bytes of a layer. If none is left then, the layer is over, unless its bytes are so many that they are given back by parts.
    fn add_bytes(&mut self, rest: BytesRest) -> Result<(), AllocError>
        requires { self.old.left ≡ 0 }
        ensures bytes { OnOk result (self.new.bytes ≡ self.old.bytes ++ drop rest.done rest.bytes.items) }
        ensures left { OnOk result (self.new.left ≤ 1 + length (drop rest.done rest.bytes.items) + length rest.bytes.items) }
    {
        let BytesRest { bytes, done } = rest;
        let left = &bytes[done..];
        let count = left.len().min(PART_BYTES);
        self.out.extend_from_slice(&left[..count])?;
        if done + count < bytes.len() {
            self.layer = LayerLeft::Bytes(BytesRest {
                bytes,
                done: done + count,
            });
        } else if SHRINK_BYTES < bytes.len() {
            self.layer = LayerLeft::Spent(bytes);
        }
        Ok(())
    }

    /// Gives back the last `SHRINK_BYTES` bytes of a layer that is added. The layer is over once it has no more than these.
    fn give_back(&mut self, mut bytes: Vec<u8>)
        requires { self.old.left ≡ 0 }
        ensures bytes { self.new.bytes ≡ self.old.bytes }
        ensures left { self.new.left ≤ length bytes.items }
    {
        if SHRINK_BYTES < bytes.len() {
            shrink(&mut bytes, SHRINK_BYTES);
            self.layer = LayerLeft::Spent(bytes);
        }
    }

    /// Adds the next part of the layer that was taken last, or nothing once all are added. The only error is out of memory.
    pub fn add_part(&mut self) -> Result<(), AllocError>
        ensures bytes { OnOk result (self.new.bytes ≡ self.old.bytes) }
        ensures left { OnOk result (self.new.left ≤ self.old.left - 1) }
    {
        if let Some(spent) = &mut self.spent {
            spent.shrink();
        }
        match mem::replace(&mut self.layer, LayerLeft::Over) {
            LayerLeft::Over => Ok(()),
            LayerLeft::Pools(ending) => self.add_pools(ending),
            LayerLeft::Bytes(rest) => self.add_bytes(rest),
            LayerLeft::Spent(bytes) => {
                self.give_back(bytes);
                Ok(())
            }
        }
    }

    /// The bytes of the tile, once all parts of its layers are added.
    pub fn finish(self) -> Vec<u8>
        requires { self.left ≡ 0 }
        ensures { result.items ≡ self.bytes }
    {
        self.out
    }
}
